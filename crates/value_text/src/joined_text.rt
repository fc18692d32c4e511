//! Joined texts, written by the workers that have the items.

ghost use Rattle.std.specs.Prelude.{◌≡◌, ◌++◌, ℕ, List, [], None, Option, codes, map};
ghost use Rattle.collectors.specs.NestedLaws.{add_image};
ghost use Rattle.collectors.specs.Reductions.{delimited, reduce_add, reduce_merge};
ghost use Rattle.collectors.specs.Texts.{join_with};
ghost use Rattle.value_text.specs.Texts.{joined_text_laws, list_text};

use crate::written::text_of;
use crate::{Rope, Spelled, Summarizes};
use collectors::Collector;
use spliterator::NoMemory;
use std::alloc::Global;
use std::marker::PhantomData;

/// The texts of the items with one text between neighbours, one in front of all and one behind all. Each worker writes its own items, and what
/// was written stays where it stands.
///
/// ```text
/// JoinedText::within(alloc, "+", "<", ">")    // of 1, 2, 3: <1+2+3>
/// ```
#[derive(Drop)]
pub struct JoinedText<'a, T> {
    alloc: Global,
    between: &'a str,
    front: &'a str,
    back: &'a str,
    items: PhantomData<T>,
}

impl<'a, T> JoinedText<'a, T> {
    /// The items' texts with one between neighbours.
    pub fn new(alloc: Global, between: &'a str) -> JoinedText<'a, T>
        ensures between { result.between.now ≡ between.now }
        ensures front { result.front.now ≡ [] }
        ensures back { result.back.now ≡ [] }
    {
        JoinedText::within(alloc, between, "", "")
    }

    /// The same with one in front of all and one behind all.
    pub fn within(
        alloc: Global,
        between: &'a str,
        front: &'a str,
        back: &'a str,
    ) -> JoinedText<'a, T>
        ensures between { result.between.now ≡ between.now }
        ensures front { result.front.now ≡ front.now }
        ensures back { result.back.now ≡ back.now }
    {
        JoinedText {
            alloc,
            between,
            front,
            back,
            items: PhantomData,
        }
    }
}

impl<T> JoinedText<'static, T> {
    /// The text of the list of the items.
    pub fn list(alloc: Global) -> JoinedText<'static, T>
        ensures between { result.between.now ≡ codes ", " }
        ensures front { result.front.now ≡ codes "[" }
        ensures back { result.back.now ≡ codes "]" }
    {
        JoinedText::within(alloc, ", ", "[", "]")
    }
}

impl<'a, T: Spelled> Collector for JoinedText<'a, T> {
    type Item = T;

    // The texts of the items so far with that between them, or nothing before the first item.
    type Acc = Option<Rope>;

    type Out = Rope;

    ghost Content = { Option (List ℕ) };

    ghost content = { λ _ o. o };

    ghost empty = { λ _. None };

    ghost add = { λ c. add_image T.spelling None (reduce_add (join_with c.between.now)) };

    ghost merge = { λ c. reduce_merge (join_with c.between.now) };

    ghost gives = { λ c l text. text ≡ c.front.now ++ delimited c.between.now (map T.spelling l) ++ c.back.now };

    ghost laws = { λ c. joined_text_laws T.spelling c.between.now T.is_value };

    fn supply(&self) -> Result<Option<Rope>, NoMemory> {
        Ok(None)
    }

    fn accumulate(&self, acc: &mut Option<Rope>, x: &T) -> Result<(), NoMemory> {
        match acc {
            Some(texts) => texts.write_behind(self.between, x),
            None => {
                *acc = Some(Rope::of(self.alloc, text_of(self.alloc, x)?));
                Ok(())
            }
        }
    }

    fn combine(&self, left: &mut Option<Rope>, right: Option<Rope>) -> Result<(), NoMemory> {
        match right {
            Some(later) => match left {
                Some(texts) => {
                    texts.push_str(self.between)?;
                    Ok(texts.append(later)?)
                }
                None => {
                    *left = Some(later);
                    Ok(())
                }
            },
            None => Ok(()),
        }
    }

    fn finish(&self, acc: Option<Rope>) -> Result<Rope, NoMemory> {
        let front = String::from_str(self.alloc, self.front)?;
        let mut text = Rope::of(self.alloc, front);
        if let Some(texts) = acc {
            text.append(texts)?;
        }
        text.push_str(self.back)?;
        Ok(text)
    }

    fn is_light(&self, _acc: &Option<Rope>) -> bool {
        true
    }
}

impl<'a, T: Spelled> Summarizes for JoinedText<'a, T> {
    ghost summary = { λ c l. c.front.now ++ delimited c.between.now (map T.spelling l) ++ c.back.now };

    ghost tells = { λ _ _ _ h. h };
}

/// The text of the list of the items: the `JoinedText` of a list, as a type that names no lifetime.
///
/// ```text
/// 1, 2, 3    // [1, 2, 3]
/// ```
#[derive(Drop)]
pub struct ListText<T> {
    alloc: Global,
    items: PhantomData<T>,
}

impl<T> ListText<T> {
    pub fn new(alloc: Global) -> ListText<T> {
        ListText {
            alloc,
            items: PhantomData,
        }
    }
}

impl<T: Spelled> Collector for ListText<T> {
    type Item = T;

    type Acc = Option<Rope>;

    type Out = Rope;

    ghost Content = { Option (List ℕ) };

    ghost content = { λ _ o. o };

    ghost empty = { λ _. None };

    ghost add = { λ _. add_image T.spelling None (reduce_add (join_with (codes ", "))) };

    ghost merge = { λ _. reduce_merge (join_with (codes ", ")) };

    ghost gives = { λ _ l text. text ≡ list_text T.spelling l };

    ghost laws = { λ _. joined_text_laws T.spelling (codes ", ") T.is_value };

    fn supply(&self) -> Result<Option<Rope>, NoMemory> {
        Ok(None)
    }

    fn accumulate(&self, acc: &mut Option<Rope>, x: &T) -> Result<(), NoMemory> {
        JoinedText::list(self.alloc).accumulate(acc, x)
    }

    fn combine(&self, left: &mut Option<Rope>, right: Option<Rope>) -> Result<(), NoMemory> {
        JoinedText::<T>::list(self.alloc).combine(left, right)
    }

    fn finish(&self, acc: Option<Rope>) -> Result<Rope, NoMemory> {
        JoinedText::<T>::list(self.alloc).finish(acc)
    }

    fn is_light(&self, _acc: &Option<Rope>) -> bool {
        true
    }
}

impl<T: Spelled> Summarizes for ListText<T> {
    ghost summary = { λ _ l. list_text T.spelling l };

    ghost tells = { λ _ _ _ h. h };
}
