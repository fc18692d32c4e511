//! Lists in pieces.
ghost use Rattle.std.specs.Prelude.{◌≡◌, ◌∷◌, ◌++◌, [], List, IfOk, OnOk, flat_map};
ghost use Rattle.std.specs.List.{AppendsClones};

use std::alloc::{AllocError, Global};
use std::marker::Model;
use std::mem;

/// The most items of a piece that is copied behind another, or moved so that it grows.
const SHORT: usize = 1024;

/// A list in pieces. What follows a long piece is put behind it as a piece of its own, so that each item is moved once, when the list is made
/// whole. A short list is one piece.
#[derive(Drop)]
pub struct Pieces<T> {
    // those before the last
    before: Vec<Vec<T>>,
    last: Vec<T>,
}

impl<T> Model for Pieces<T> {
    ghost Value = { List T };

    ghost view = { λ p. flat_map (λ piece. piece.items) p.before.items ++ p.last.items };
}

impl<T: Drop> Pieces<T> {
    /// A list in one piece.
    pub fn of(list: Vec<T>) -> Pieces<T>
        ensures { result ≡ list.items }
    {
        Pieces {
            before: Vec::new(*list.allocator()),
            last: list,
        }
    }

    /// No items.
    pub(crate) fn new(alloc: Global) -> Pieces<T>
        ensures { result ≡ [] }
    {
        Pieces {
            before: Vec::new(alloc),
            last: Vec::new(alloc),
        }
    }

    /// No items, with room for so many. Where that room is refused, it grows as items come.
    pub(crate) fn with_room(alloc: Global, number: usize) -> Pieces<T>
        ensures { result ≡ [] }
    {
        let mut last = Vec::new(alloc);
        let _refused = last.reserve_exact(number);
        Pieces {
            before: Vec::new(alloc),
            last,
        }
    }

    /// Whether it is one piece of at most so many items.
    pub(crate) fn is_within(&self, most: usize) -> bool {
        self.before.is_empty() && self.last.len() <= most
    }

    /// Adds an item.
    pub(crate) fn push(&mut self, x: T) -> Result<(), AllocError>
        ensures { OnOk result (self.new ≡ self.old ++ x ∷ []) }
    {
        if self.last.len() == self.last.capacity() {
            self.make_room(1)?;
        }
        self.last.push(x)?;
        Ok(())
    }

    /// Puts a list behind. A long one is taken as it stands.
    pub(crate) fn append(&mut self, items: &mut Vec<T>) -> Result<(), AllocError>
        ensures { OnOk result (self.new ≡ self.old ++ items.old.items) }
    {
        if items.len() > SHORT {
            let alloc = *items.allocator();
            return self.put(mem::replace(items, Vec::new(alloc)));
        }
        self.make_room(items.len())?;
        self.last.append(items)
    }

    /// Puts another list behind. Its long pieces are taken as they stand.
    pub fn join(&mut self, later: Pieces<T>) -> Result<(), AllocError>
        ensures { OnOk result (self.new ≡ self.old ++ later) }
    {
        let Pieces {
            mut before,
            mut last,
        } = later;
        if before.is_empty() {
            return self.append(&mut last);
        }
        self.before.push(mem::replace(&mut self.last, last))?;
        self.before.append(&mut before)
    }

    /// The list in pieces, in their order.
    pub fn into_pieces(self) -> Result<Vec<Vec<T>>, AllocError>
        ensures { IfOk result (λ pieces. flat_map (λ piece. piece.items) pieces.items ≡ self) }
    {
        let Pieces { mut before, last } = self;
        before.push(last)?;
        Ok(before)
    }

    /// The list as a whole. One piece is handed on as it stands; else the first one gets room for all, and the others are moved behind it.
    pub fn into_list(self) -> Result<Vec<T>, AllocError>
        ensures { IfOk result (λ list. list.items ≡ self) }
    {
        let Pieces { before, mut last } = self;
        if before.is_empty() {
            return Ok(last);
        }
        let number = count(before.as_slice()).saturating_add(last.len());
        let mut list = Vec::new(*last.allocator());
        move_all(&mut list, before, number)?;
        list.append(&mut last)?;
        Ok(list)
    }

    // Puts a piece behind, as it stands.
    fn put(&mut self, piece: Vec<T>) -> Result<(), AllocError>
        ensures { OnOk result (self.new ≡ self.old ++ piece.items) }
    {
        let last = mem::replace(&mut self.last, piece);
        if last.is_empty() {
            return Ok(());
        }
        self.before.push(last)?;
        Ok(())
    }

    // Begins a piece where the last one is long and has no room for so many items more. It stands apart, so that `push` stays small.
    #[inline(never)]
    fn make_room(&mut self, number: usize) -> Result<(), AllocError>
        ensures { OnOk result (self.new ≡ self.old) }
    {
        let len = self.last.len();
        let needed = len.saturating_add(number);
        if len <= SHORT || needed <= self.last.capacity() {
            return Ok(());
        }
        let piece = Vec::with_capacity(*self.last.allocator(), needed)?;
        self.put(piece)
    }
}

impl<T: Clone> Pieces<T> {
    /// Puts clones of items behind.
    pub(crate) fn extend_from_slice(&mut self, items: &[T]) -> Result<(), AllocError>
        ensures { OnOk result (AppendsClones T.is_clone self.old self.new items.now) }
    {
        self.make_room(items.len())?;
        self.last.extend_from_slice(items)
    }
}

// Moves the items of each piece behind a list's. The first piece becomes the list where that has no items, and gets room for so many.
fn move_all<T: Drop>(
    list: &mut Vec<T>,
    pieces: Vec<Vec<T>>,
    number: usize,
) -> Result<(), AllocError>
    ensures { OnOk result (list.new.items ≡ list.old.items ++ flat_map (λ piece. piece.items) pieces.items) }
{
    for mut piece in pieces {
        if list.is_empty() {
            piece.reserve_exact(number.saturating_sub(piece.len()))?;
            *list = piece;
        } else {
            list.append(&mut piece)?;
        }
    }
    Ok(())
}

// How many items the pieces have.
fn count<T>(pieces: &[Vec<T>]) -> usize {
    let mut number: usize = 0;
    for piece in pieces {
        number = number.saturating_add(piece.len());
    }
    number
}
