//! Where a stage's items go, one after another.
ghost use Rattle.std.specs.Prelude.{◌≡◌, List, [], ◌∷◌, ◌++◌, IsTrue, IfOk, MatchBool, OnOk, OnErr, flat_map, map, refl, ⊤};
ghost use Rattle.std.proofs.Common.{◌∙◌, sym, subst, append-nil};
ghost use Rattle.stages.specs.Appends.{Appends, Grows, append-none, append-append, grows-later};
ghost use Rattle.stages.specs.Passing.{passes-both};

use crate::Stage;
use spliterator::{NoMemory, Value};

/// Takes items in, one after another.
///
/// Contracts see a sink by what it took between two states. After a refusal it is only to be dropped, or to be put back.
pub trait Sink<T: Value> {
    ghost ready: { Self → Type 0 } = { λ _. ⊤ };

    // From the one state to the other, items with these contents were offered, in order.
    ghost takes: { Self → List T.Content → Self → Type 0 };

    // What a refusal may leave behind.
    ghost spoils: { Self → Self → Type 0 };

    /// Takes an item.
    fn take(&mut self, x: T) -> Result<(), NoMemory>
        requires { ready self.old }
        ensures taken { OnOk result (takes self.old (T.content x ∷ []) self.new) }
        ensures spoilt { OnErr result (spoils self.old self.new) };

    /// Takes a block of items, in order. What the list holds afterwards is of no use.
    fn take_all(&mut self, items: &mut Vec<T>) -> Result<(), NoMemory>
    where
        T: Drop,
        requires { ready self.old }
        ensures taken { OnOk result (takes self.old (map T.content items.old.items) self.new) }
        ensures spoilt { OnErr result (spoils self.old self.new) }
    {
        for item in items.drain(..) {
            if self.is_full() {
                return Ok(());
            }
            self.take(item)?;
        }
        Ok(())
    }

    /// Takes a block of items, in order, where they lie, and says whether it did: a sink that has to own what it takes doesn't.
    fn take_lent(&mut self, _items: &[T]) -> Result<bool, NoMemory>
        requires { ready self.old }
        ensures taken { IfOk result (λ took. MatchBool took (takes self.old (map T.content _items.now) self.new) (self.new ≡ self.old)) }
        ensures spoilt { OnErr result (spoils self.old self.new) }
    {
        Ok(false)
    }

    /// Whether no item makes a difference any more.
    fn is_full(&self) -> bool
        requires { ready self.now }
        ensures { IsTrue result → (xs : List T.Content) → takes self.now xs self.now };

    ghost takes_none: { (a : Self) → takes a [] a };

    ghost spoils_nothing: { (a : Self) → spoils a a };

    ghost takes_both: { (a b c : Self) (xs ys : List T.Content) → takes a xs b → takes b ys c → takes a (xs ++ ys) c };

    ghost spoils_later: { (a b c : Self) (xs : List T.Content) → takes a xs b → spoils b c → spoils a c };

    ghost stays_ready: { (a b : Self) (xs : List T.Content) → takes a xs b → ready a → ready b };
}

impl<T: Value + Drop> Sink<T> for Vec<T> {
    ghost takes = { λ a xs b. Appends T.content xs a.items b.items };

    ghost spoils = { λ a b. Grows a.items b.items };

    ghost takes_none = { λ a. append-none T.content a.items };

    ghost spoils_nothing = { λ a. ([], sym (append-nil a.items)) };

    ghost takes_both = { λ a b c xs ys p q. append-append T.content xs ys a.items b.items c.items p q };

    ghost spoils_later = { λ a b c xs p q. grows-later T.content xs a.items b.items c.items p q };

    ghost stays_ready = { λ a b xs p r. tt };

    fn take(&mut self, x: T) -> Result<(), NoMemory> {
        self.push(x)?;
        Ok(())
    }

    fn take_all(&mut self, items: &mut Vec<T>) -> Result<(), NoMemory> {
        self.append(items)?;
        Ok(())
    }

    fn is_full(&self) -> bool {
        false
    }
}

/// A sink that passes what it takes through a stage.
#[derive(Drop)]
pub struct Onward<'a, B, K> {
    pub next: &'a B,
    pub sink: &'a mut K,
}

impl<'a, B, K> Onward<'a, B, K> {
    pub fn new(next: &'a B, sink: &'a mut K) -> Onward<'a, B, K>
        ensures next { result.next.now ≡ next.now }
        ensures same_reference { result.sink.ghost_name ≡ sink.entry.ghost_name }
        ensures sink { result.sink.now ≡ sink.old }
    {
        Onward { next, sink }
    }
}

impl<B: Stage, K: Sink<B::Out>> Sink<B::In> for Onward<'_, B, K> {
    ghost ready = { λ o. B.ready o.next.now × K.ready o.sink.now };

    ghost takes = { λ o xs p. (p.next.now ≡ o.next.now) × (p.sink.ghost_name ≡ o.sink.ghost_name) × K.takes o.sink.now (flat_map (B.expand o.next.now) xs) p.sink.now };

    ghost spoils = { λ o p. (p.sink.ghost_name ≡ o.sink.ghost_name) × K.spoils o.sink.now p.sink.now };

    ghost takes_none = { λ o. (refl, refl, K.takes_none o.sink.now) };

    ghost spoils_nothing = { λ o. (refl, K.spoils_nothing o.sink.now) };

    ghost takes_both = { λ o p q xs ys f g. (g.0 ∙ f.0, g.1 ∙ f.1, passes-both K.takes K.takes_both B.expand o.next.now p.next.now o.sink.now p.sink.now q.sink.now xs ys f.0 f.2 g.2) };

    ghost spoils_later = { λ o p q xs f g. (g.0 ∙ f.1, K.spoils_later o.sink.now p.sink.now q.sink.now (flat_map (B.expand o.next.now) xs) f.2 g.1) };

    ghost stays_ready = { λ o p xs f r. (subst B.ready (sym f.0) r.0, K.stays_ready o.sink.now p.sink.now (flat_map (B.expand o.next.now) xs) f.2 r.1) };

    fn take(&mut self, x: B::In) -> Result<(), NoMemory> {
        self.next.feed(x, self.sink)
    }

    fn take_all(&mut self, items: &mut Vec<B::In>) -> Result<(), NoMemory> {
        self.next.feed_all(items, self.sink)
    }

    fn is_full(&self) -> bool {
        self.sink.is_full()
    }
}
