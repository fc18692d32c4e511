//! A sink over items that may have failed.
ghost use Rattle.std.specs.Prelude.{◌≡◌, None, Some, IfOk, IfErr, refl};
ghost use Rattle.std.proofs.Common.{◌∙◌};
ghost use Rattle.derived_collectors.specs.Tried.{TakesTried};
ghost use Rattle.derived_collectors.specs.TakenLaws.{tried-none, tried-both, tried-spoils, tried-ready};

use spliterator::{NoMemory, Value};
use stages::Sink;

/// Hands the values in front of the first item, in encounter order, that has failed to a sink, and keeps that item's error.
///
///     let mut values = Vec::new(rt.alloc());
///     let mut tried = UpToError::new(&mut values);
///     rows.for_each_ordered(&engine, &mut tried)?;    // Ok(5), Err(early), Ok(7), Err(late)
///     tried.ended()?;                                 // Err(early), and `values` is [5]
///
/// It is full once it has an error. A sink that is full doesn't make it so, since an item behind may fail.
// std::iter::Iterator, try_for_each
#[derive(Drop)]
pub struct UpToError<'a, K, E> {
    pub sink: &'a mut K,
    pub error: Option<E>,
}

impl<'a, K, E> UpToError<'a, K, E> {
    pub fn new(sink: &'a mut K) -> UpToError<'a, K, E>
        ensures same_reference { result.sink.ghost_name ≡ sink.entry.ghost_name }
        ensures sink { result.sink.now ≡ sink.old }
        ensures error { result.error ≡ None }
    {
        UpToError { sink, error: None }
    }

    /// The error of the first item that has failed, where one has. It is told once.
    pub fn ended(&mut self) -> Result<(), E>
        ensures none { IfOk result (λ _. self.old.error ≡ None) }
        ensures told { IfErr result (λ error. self.old.error ≡ Some error) }
        ensures same_reference { self.new.sink.ghost_name ≡ self.old.sink.ghost_name }
        ensures sink { self.new.sink.now ≡ self.old.sink.now }
    {
        match self.error.take() {
            Some(error) => Err(error),
            None => Ok(()),
        }
    }
}

impl<T: Value + Drop, E: Value + Drop, K: Sink<T>> Sink<Result<T, E>> for UpToError<'_, K, E> {
    ghost ready = { λ o. K.ready o.sink.now };

    ghost takes = { λ o l p. (p.sink.ghost_name ≡ o.sink.ghost_name) × TakesTried K.takes E.content o.error o.sink.now l p.error p.sink.now };

    ghost spoils = { λ o p. (p.sink.ghost_name ≡ o.sink.ghost_name) × K.spoils o.sink.now p.sink.now };

    ghost takes_none = { λ o. (refl, tried-none K.takes E.content K.takes_none o.error o.sink.now) };

    ghost spoils_nothing = { λ o. (refl, K.spoils_nothing o.sink.now) };

    ghost takes_both = { λ o p q l more f g. (g.0 ∙ f.0, tried-both K.takes E.content K.takes_both o.error p.error q.error o.sink.now p.sink.now q.sink.now l more f.1 g.1) };

    ghost spoils_later = { λ o p q l f g. (g.0 ∙ f.0, tried-spoils K.takes E.content K.spoils K.spoils_later o.error p.error o.sink.now p.sink.now q.sink.now l f.1 g.1) };

    ghost stays_ready = { λ o p l f r. tried-ready K.takes E.content K.ready K.stays_ready o.error p.error o.sink.now p.sink.now l f.1 r };

    fn take(&mut self, x: Result<T, E>) -> Result<(), NoMemory> {
        if self.error.is_some() {
            return Ok(());
        }
        match x {
            Ok(value) => self.sink.take(value),
            Err(error) => {
                self.error = Some(error);
                Ok(())
            }
        }
    }

    fn is_full(&self) -> bool {
        self.error.is_some()
    }
}
