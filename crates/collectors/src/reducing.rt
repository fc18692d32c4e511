//! Reductions from the first item.
ghost use Rattle.std.specs.Prelude.{◌≡◌, Option, Some, None, option_map, IfOk, OnOk};
ghost use Rattle.spliterator.specs.Clones.{ClonesAlike, TestsClonesAlike};
ghost use Rattle.stages.specs.Operators.{IsAssociative, TestsAssociative, associative-tested};
ghost use Rattle.collectors.specs.Reductions.{reduced, first, earlier, reduce_add, reduce_merge, reduce_laws, first_laws};

use crate::Collector;
use crate::strands::join_all;
use spliterator::{NoMemory, Value};
use stages::Operator;
use std::marker::PhantomData;

// Joins a value to those that were joined before.
pub(crate) fn join_into<T: Value + Drop, O: Operator<T>>(
    operator: &O,
    joined: &mut T,
    x: &T,
) -> Result<(), NoMemory>
    requires { O.ready operator.now }
    ensures { let joins = O.join operator.now in
        OnOk result (T.content joined.new ≡ joins (T.content joined.old) (T.content x.now)) }
{
    *joined = operator.join(joined, x)?;
    Ok(())
}

// What was joined before, if anything was, and a first item behind it.
fn join_first<T: Value + Clone, O: Operator<T>>(
    operator: &O,
    before: Option<T>,
    first: &T,
) -> Result<T, NoMemory>
    requires operator { O.ready operator.now }
    requires clones { ClonesAlike T.is_clone T.content }
    ensures { let add = reduce_add (O.join operator.now) in
        let after = add (option_map T.content before) (T.content first.now) in
        IfOk result (λ joined. Some (T.content joined) ≡ after) }
{
    match before {
        Some(joined) => operator.join(&joined, first),
        None => Ok(first.clone()?),
    }
}

/// The items joined by an associative operator, from the first on. There is none where there are no items.
///
/// Java's `Collectors.reducing` by an operator alone.
#[derive(Drop)]
pub struct Reducing<T: Value + Clone, O: Operator<T>> {
    operator: O,
    items: PhantomData<T>,
    ghost clones_alike: { TestsClonesAlike T.same T.is_clone T.content },
    ghost associative: { TestsAssociative T.same T.is_value (O.join operator) },
}

impl<T: Value + Clone, O: Operator<T>> Reducing<T, O> {
    pub fn new(operator: O) -> Reducing<T, O>
        requires clones { ClonesAlike T.is_clone T.content }
        requires associative { IsAssociative T.is_value (O.join operator) }
        ensures { result.operator ≡ operator }
    {
        Reducing {
            operator,
            items: PhantomData,
        }
    }
}

impl<T: Value + Clone, O: Operator<T>> Collector for Reducing<T, O> {
    type Item = T;

    type Acc = Option<T>;

    type Out = Option<T>;

    ghost ready = { λ c. O.ready c.operator };

    ghost Content = { Option T.Content };

    ghost content = { λ _ o. option_map T.content o };

    ghost empty = { λ _. None };

    ghost add = { λ c. reduce_add (O.join c.operator) };

    ghost merge = { λ c. reduce_merge (O.join c.operator) };

    ghost gives = { λ c l o. option_map T.content o ≡ reduced (O.join c.operator) l };

    ghost laws = { λ c. let associative = associative-tested T.same T.same_decides T.is_value (O.join c.operator) c.associative in
        reduce_laws (O.join c.operator) T.is_value (O.joins_are_values c.operator) associative };

    fn supply(&self) -> Result<Option<T>, NoMemory> {
        Ok(None)
    }

    fn accumulate(&self, acc: &mut Option<T>, x: &T) -> Result<(), NoMemory> {
        match acc {
            Some(joined) => join_into(&self.operator, joined, x),
            None => {
                *acc = Some(x.clone()?);
                Ok(())
            }
        }
    }

    // What is joined so far stays out of the container, and grows in strands.
    fn accumulate_all(&self, acc: &mut Option<T>, items: &[T]) -> Result<(), NoMemory> {
        let Some((first, rest)) = items.split_first() else {
            return Ok(());
        };
        let mut joined = join_first(&self.operator, acc.take(), first)?;
        join_all(&self.operator, &mut joined, rest)?;
        *acc = Some(joined);
        Ok(())
    }

    fn combine(&self, left: &mut Option<T>, right: Option<T>) -> Result<(), NoMemory> {
        match right {
            Some(later) => match left {
                Some(joined) => join_into(&self.operator, joined, &later),
                None => {
                    *left = Some(later);
                    Ok(())
                }
            },
            None => Ok(()),
        }
    }

    fn finish(&self, acc: Option<T>) -> Result<Option<T>, NoMemory> {
        Ok(acc)
    }

    fn is_light(&self, _acc: &Option<T>) -> bool {
        true
    }
}

/// The first item, or none: what Java's `Stream.findFirst` answers.
#[derive(Drop)]
pub struct First<T: Value + Clone> {
    items: PhantomData<T>,
    ghost clones_alike: { TestsClonesAlike T.same T.is_clone T.content },
}

impl<T: Value + Clone> First<T> {
    pub fn new() -> First<T>
        requires { ClonesAlike T.is_clone T.content }
    {
        First { items: PhantomData }
    }
}

impl<T: Value + Clone> Collector for First<T> {
    type Item = T;

    type Acc = Option<T>;

    type Out = Option<T>;

    ghost Content = { Option T.Content };

    ghost content = { λ _ o. option_map T.content o };

    ghost empty = { λ _. None };

    ghost add = { λ _. reduce_add earlier };

    ghost merge = { λ _. reduce_merge earlier };

    ghost gives = { λ _ l o. option_map T.content o ≡ first l };

    ghost laws = { λ _. first_laws T.is_value };

    fn supply(&self) -> Result<Option<T>, NoMemory> {
        Ok(None)
    }

    fn accumulate(&self, acc: &mut Option<T>, x: &T) -> Result<(), NoMemory> {
        if acc.is_none() {
            *acc = Some(x.clone()?);
        }
        Ok(())
    }

    fn combine(&self, left: &mut Option<T>, right: Option<T>) -> Result<(), NoMemory> {
        if left.is_none() {
            *left = right;
        }
        Ok(())
    }

    fn finish(&self, acc: Option<T>) -> Result<Option<T>, NoMemory> {
        Ok(acc)
    }

    fn is_light(&self, _acc: &Option<T>) -> bool {
        true
    }
}
