//! The longest front whose items all meet a test, and what follows it.
ghost use Rattle.std.specs.Prelude.{◌≡◌, ◌++◌, ◌≤◌, List, length, Some, None, cond, not, IsOk, IfOk, count_by, map, take_while};
ghost use Rattle.std.specs.List.{prefix_len};
ghost use Rattle.stages.specs.declared.flags.Operation.TheVariants.{TakeWhile as take_while_row, DropWhile as drop_while_row};
ghost use Rattle.barriers.specs.Whiles.{drop_while, taken_while, left_while};
ghost use Rattle.barriers.specs.Parts.{KeepsEnough-taken_while, taken-nothing, left-nothing};
ghost use Rattle.barriers.specs.Needs.{less_needed, no_item, IsToldBy};
ghost use Rattle.barriers.specs.NeedLaws.{KeepsEnough-never, KeepsEnough-take_while};
ghost use Rattle.barriers.specs.BarrierFlags.{KeepsSound-take_while, KeepsSound-drop_while};

use crate::skip::drop_front;
use crate::{Barrier, Demand, Need};
use spliterator::{NoMemory, OrderedValue, Value};
use stages::{Operation, Test};
use std::alloc::Global;

// The number of items in front that all meet the test, asked item by item.
fn length_of_front<T: Value, P: Test<T>>(items: &[T], test: &P) -> usize
    requires { P.ready test.now }
    ensures front { result ≡ prefix_len (P.holds test.now) (map T.content items.now) }
    ensures within { result ≤ length items.now }
{
    for (place, item) in items.iter().enumerate() {
        if !test.holds(item) {
            return place;
        }
    }
    items.len()
}

/// The longest front whose items all meet a test (`java.util.stream.Stream`, `takeWhile`). One item that fails it is enough.
#[derive(Clone, Copy, Drop)]
pub struct TakeWhile<P> {
    pub test: P,
}

impl<P> TakeWhile<P> {
    pub fn new(test: P) -> TakeWhile<P>
        ensures { result.test ≡ test }
    {
        TakeWhile { test }
    }
}

impl<T: Value, P: Test<T>> Demand<T> for TakeWhile<P> {
    ghost ready = { λ b. P.ready b.test };

    ghost needed = { λ _. Some 1 };

    ghost counted = { λ b x. not (P.holds b.test x) };

    fn need(&self) -> Need {
        Need::Reach(1)
    }

    fn counts(&self, x: &T) -> bool {
        !self.test.holds(x)
    }
}

impl<T: OrderedValue + Drop, P: Test<T>> Barrier<T> for TakeWhile<P> {
    /// Whether all so far met the test.
    type State = bool;

    ghost value = { λ b. take_while (P.holds b.test) };

    ghost operation = { λ _. take_while_row };

    ghost size_after = { λ _ _. None };

    ghost value_behind = { λ b is_open. taken_while is_open (P.holds b.test) };

    ghost needed_behind = { λ _ is_open. Some (cond is_open 1 0) };

    ghost enough_law = { λ b. KeepsEnough-take_while (P.holds b.test) };

    ghost enough_behind = { λ b is_open. KeepsEnough-taken_while is_open (P.holds b.test) };

    ghost of_nothing = { λ b is_open. taken-nothing is_open (P.holds b.test) };

    ghost flag_law = { λ b. KeepsSound-take_while T.order (P.holds b.test) };

    fn apply(&self, mut items: Vec<T>) -> Result<Vec<T>, NoMemory>
        requires { P.ready self.now.test }
        ensures value { IfOk result (λ kept. map T.content kept.items ≡ take_while (P.holds self.now.test) (map T.content items.items)) }
        ensures answered { IsOk result }
    {
        items.truncate(length_of_front(&items, &self.test));
        Ok(items)
    }

    fn operation(&self) -> Operation {
        Operation::TakeWhile
    }

    fn size_after(&self, _size: Option<u64>) -> Option<u64>
        ensures { result ≡ None }
    {
        None
    }

    fn fresh(&self, _alloc: Global) -> bool {
        true
    }

    fn need_behind(&self, state: &bool) -> Need {
        Need::Reach(if *state { 1 } else { 0 })
    }

    // Asks no test: the cut tells which item failed.
    fn carry(&self, state: &mut bool, mut items: Vec<T>, is_cut: bool) -> Result<Vec<T>, NoMemory>
        requires told { IsToldBy (Some (cond state.old 1 0)) (λ x. not (P.holds self.now.test x))
            (map T.content items.items) is_cut }
        ensures goes_on { (more : List T.Content) → IfOk result (λ kept.
            taken_while state.old (P.holds self.now.test) (map T.content items.items ++ more)
            ≡ map T.content kept.items ++ taken_while state.new (P.holds self.now.test) more) }
        ensures lessened { let came = count_by (λ x. not (P.holds self.now.test x)) (map T.content items.items) in
            let needed = less_needed (Some (cond state.old 1 0)) came in
            IfOk result (λ _. Some (cond state.new 1 0) ≡ needed) }
        ensures answered { IsOk result }
    {
        if !*state {
            items.clear();
        } else if is_cut {
            items.pop();
            *state = false;
        }
        Ok(items)
    }
}

/// What follows the longest front whose items all meet a test (`java.util.stream.Stream`, `dropWhile`).
#[derive(Clone, Copy, Drop)]
pub struct DropWhile<P> {
    pub test: P,
}

impl<P> DropWhile<P> {
    pub fn new(test: P) -> DropWhile<P>
        ensures { result.test ≡ test }
    {
        DropWhile { test }
    }
}

impl<T: Value, P: Test<T>> Demand<T> for DropWhile<P> {
    ghost ready = { λ b. P.ready b.test };

    ghost needed = { λ _. None };

    ghost counted = { λ _. no_item };

    fn need(&self) -> Need {
        Need::Never
    }

    fn counts(&self, _x: &T) -> bool {
        false
    }
}

impl<T: OrderedValue + Drop, P: Test<T>> Barrier<T> for DropWhile<P> {
    /// Whether items are still dropped.
    type State = bool;

    ghost value = { λ b. drop_while (P.holds b.test) };

    ghost operation = { λ _. drop_while_row };

    ghost size_after = { λ _ _. None };

    ghost value_behind = { λ b is_dropping. left_while is_dropping (P.holds b.test) };

    ghost needed_behind = { λ _ _. None };

    ghost enough_law = { λ b. KeepsEnough-never no_item (drop_while (P.holds b.test)) };

    ghost enough_behind = { λ b is_dropping. KeepsEnough-never no_item (left_while is_dropping (P.holds b.test)) };

    ghost of_nothing = { λ b is_dropping. left-nothing is_dropping (P.holds b.test) };

    ghost flag_law = { λ b. KeepsSound-drop_while T.order (P.holds b.test) };

    fn apply(&self, mut items: Vec<T>) -> Result<Vec<T>, NoMemory>
        requires { P.ready self.now.test }
        ensures value { IfOk result (λ kept. map T.content kept.items ≡ drop_while (P.holds self.now.test) (map T.content items.items)) }
        ensures answered { IsOk result }
    {
        let length = length_of_front(&items, &self.test);
        drop_front(&mut items, length);
        Ok(items)
    }

    fn operation(&self) -> Operation {
        Operation::DropWhile
    }

    fn size_after(&self, _size: Option<u64>) -> Option<u64>
        ensures { result ≡ None }
    {
        None
    }

    fn fresh(&self, _alloc: Global) -> bool {
        true
    }

    fn need_behind(&self, _state: &bool) -> Need {
        Need::Never
    }

    fn lets_pass(&self, state: &bool) -> bool {
        !*state
    }

    fn carry(&self, state: &mut bool, items: Vec<T>, _is_cut: bool) -> Result<Vec<T>, NoMemory>
        requires { P.ready self.now.test }
        ensures goes_on { (more : List T.Content) → IfOk result (λ kept.
            left_while state.old (P.holds self.now.test) (map T.content items.items ++ more)
            ≡ map T.content kept.items ++ left_while state.new (P.holds self.now.test) more) }
        ensures answered { IsOk result }
    {
        if !*state {
            return Ok(items);
        }
        let kept = self.apply(items)?;
        *state = kept.is_empty();
        Ok(kept)
    }
}
