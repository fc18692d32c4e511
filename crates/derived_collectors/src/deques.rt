//! Deques.
ghost use Rattle.std.specs.Prelude.{◌≡◌};
ghost use Rattle.spliterator.specs.Clones.{ClonesAlike};

use crate::collecting_and_then::{CollectingAndThen, Finisher};
use collectors::ToList;
use spliterator::{NoMemory, Value};
use std::alloc::Global;
use std::collections::VecDeque;

/// Makes a list a deque, which takes over the list's memory.
#[derive(Drop)]
pub struct IntoDeque;

impl<T: Drop> Finisher<Vec<T>> for IntoDeque {
    type Out = VecDeque<T>;

    ghost gives = { λ _ list deque. deque.items ≡ list.items };

    fn apply(&self, whole: Vec<T>) -> Result<VecDeque<T>, NoMemory> {
        Ok(VecDeque::from_vec(whole))
    }
}

/// The items as a deque, in their order, as clones. Java's `Collectors.toCollection(ArrayDeque::new)`:
///
///     let deque = collect(&to_deque::<i64>(rt.alloc()), &[5, 2, 7])?;    // 5, 2, 7
///
/// A clone of an item must have its content.
pub fn to_deque<T: Value + Clone>(alloc: Global) -> CollectingAndThen<ToList<T>, IntoDeque>
    requires clones { ClonesAlike T.is_clone T.content }
{
    CollectingAndThen::new(ToList::new(alloc), IntoDeque)
}
