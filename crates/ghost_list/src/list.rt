//! The owner of a list.
ghost use Rattle.std.specs.Prelude.{◌≡◌, ◌++◌, ◌∷◌, []};

use crate::line::{Log, LogWord};
use crate::steps::{make_pen, spend_pen};
use logbook::{Pen, Seen, Start, Word};
use std::marker::Model;
use std::mem;

/// A list of values that exists in proofs alone. Only its owner extends it, by values that were there to be shown.
/// Contracts see it as that list.
///
/// In the program it is two words that never change, whatever the length of the list.
#[derive(Drop)]
pub struct GhostList<E> {
    head: LogWord<E>,
    first: LogWord<E>,
    pen: Pen,
    seen: Log<E>,
}

impl<E> Model for GhostList<E> {
    ghost use Rattle.std.specs.Prelude.{◌≡◌, List};
    ghost use Rattle.logbook.specs.Pages.{may_write};
    ghost use Rattle.ghost_list.specs.Pens.{written_by, pen_after};
    ghost use Rattle.ghost_list.specs.Rules.{head_of};

    ghost Value = { List E };

    ghost view = { λ k. written_by k.first.key k.seen.log };

    ghost invariant = { λ k. (k.head ≡ head_of k.seen.book) × (k.pen.book ≡ k.seen.book)
        × (k.pen.nib.right ≡ may_write) × (k.pen.nib.key ≡ pen_after k.first.key k.seen.log) };
}

impl<E> GhostList<E> {
    /// An empty list.
    pub fn new() -> GhostList<E>
        ensures value { result ≡ [] }
    {
        let (mut seen, mut of_head, _second): (Log<E>, Pen, Pen) = Seen::open(Start::alone(), 0, 0);
        let head: LogWord<E> = Word::tracked(0, &mut of_head);
        let (first, pen) = make_pen(&head, &mut seen);
        GhostList {
            head,
            first,
            pen,
            seen,
        }
    }

    /// Adds an entry to the list. It takes no memory and doesn't fail.
    pub fn append(&mut self, entry: &E)
        ensures value { self.new ≡ self.old ++ entry.now ∷ [] }
    {
        let (_word, next) = make_pen(&self.head, &mut self.seen);
        let pen = mem::replace(&mut self.pen, next);
        spend_pen(&self.head, &mut self.seen, pen, &self.pen, entry);
    }
}
