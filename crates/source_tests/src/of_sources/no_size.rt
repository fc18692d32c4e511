//! More items than an estimate can say, which only items of no size can be.
ghost use Rattle.std.specs.Prelude.{true, ⊤, refl};
ghost use Rattle.std.specs.declared.cmp.Ordering.TheVariants.{Equal};

use sources::{RowsSplit, SliceSplit};
use spliterator::{EqualValue, MAX_ESTIMATE, OrderedValue, SortedValue, Spliterator, Value};
use std::process::Abort;

/// The one value of its type, which takes no room.
#[derive(Clone, Copy, PartialEq, Eq, PartialOrd, Ord)]
struct Mark;

impl Value for Mark {
    type Content = ();

    ghost content = { λ _. tt };

    ghost same = { λ _ _. true };

    ghost is_value = { λ _. ⊤ };

    ghost same_decides = { λ x y. (λ _. refl, λ _. refl) };

    fn is_value(&self) -> bool {
        true
    }
}

impl EqualValue for Mark {
    ghost eq_is_same = { Prim.search };
}

impl OrderedValue for Mark {
    ghost order = { λ _ _. Equal };

    ghost order_total = { record { antisymm = λ x y. refl; trans = λ x y z same below. below; congr = λ x y z same. refl } };

    ghost order_ties = { λ _ _. refl };
}

impl SortedValue for Mark {
    ghost cmp_is_order = { Prim.search };
}

/// Checks what the marks of a slice tell, cloned and lent.
fn check<const N: usize>(rt: &impl Abort, told: u32, half: u64) {
    let marks = [Mark; N];
    check_split(rt, SliceSplit::new(&marks), told, half);
    check_split(rt, RowsSplit::new(&marks), told, half);
}

/// Checks what a source of many items tells, its estimate being the greatest, and the parts of its first split.
fn check_split<S: Spliterator>(rt: &impl Abort, mut rest: S, told: u32, half: u64) {
    let is_told = rest.characteristics() == told && rest.estimate_size() == MAX_ESTIMATE;
    let part = rest.try_split().expect(rt, "a part").exact_size();
    let other = rest.exact_size();
    assert!(rt; is_told && part == Some(half) && other == Some(4_611_686_018_427_387_904));
}

#[test]
fn a_slice_tells_the_size_that_an_estimate_can_say(rt: HostRuntime) {
    check::<9_223_372_036_854_775_808>(&rt, 0x510, 4_611_686_018_427_387_904);
    check::<9_223_372_036_854_775_807>(&rt, 0x4550, 4_611_686_018_427_387_903);
}
