//! Values that are lists.
ghost use Rattle.std.specs.Prelude.{◌≡◌, List, map};

use spliterator::{OrderedValue, Value};

/// A value that is a list, as the image of an item in a `FlatMap`.
pub trait ListValue: Value {
    type Item: OrderedValue + Drop;

    // the contents of the members
    ghost items: { Self.Content → List Self.Item.Content };

    /// The members.
    fn into_items(self) -> Vec<Self::Item>
        ensures { map Self.Item.content result.items ≡ items (Self.content self) };
}

impl<T: OrderedValue + Drop> ListValue for Vec<T> {
    type Item = T;

    ghost items = { λ items. items };

    fn into_items(self) -> Vec<T> {
        self
    }
}
