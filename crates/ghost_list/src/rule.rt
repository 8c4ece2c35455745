//! The rule of the log, and what its steps show.

use crate::line::Line;
use logbook::{Gain, Pen, Plain, Play, Rule};

/// The rule of the log: the pen of each line is spent.
pub struct LineRule;

impl<E> Rule<Line<E>, u64> for LineRule {
    ghost use Rattle.std.specs.Prelude.{[]};
    ghost use base.Fml.{ftrue};
    ghost use Rattle.ghost_list.specs.Rules.{IsKept};

    ghost holds = { λ cells log. IsKept cells log };

    ghost first = { [] };

    ghost hinted = { λ n log. Unit {0} };

    ghost shows = { λ log. [] };

    ghost keeps = { λ names log. ftrue };

    ghost moves = { λ ask before after answer. Unit {0} };
}

// Callers exchange nothing.
pub(crate) struct Nothing;

impl<E> Gain<Line<E>, u64> for Nothing {
    ghost use base.Fml.{ftrue};

    ghost after = { λ names about answer. ftrue };
}

// A step that makes a pen.
pub(crate) struct Make;

impl<E> Play<Line<E>, u64> for Make {
    ghost use Rattle.ghost_list.specs.Rules.{Makes};

    ghost then = { λ s v found w. Makes s v found w };
}

impl<E> Plain<(), Line<E>, u64> for Make {
    ghost use Rattle.std.specs.Prelude.{None};
    ghost use Rattle.ghost_list.specs.Pens.{no_line};

    ghost ask = { λ x. no_line };

    ghost state = { λ x. None };
}

// What a line is made of.
#[derive(Drop)]
pub(crate) struct Turn<'a, E> {
    pub(crate) entry: &'a E,
    pub(crate) by: &'a Pen,
    pub(crate) next: &'a Pen,
}

// A step that adds a line.
pub(crate) struct Append;

impl<E> Play<Line<E>, u64> for Append {
    ghost use Rattle.ghost_list.specs.Rules.{Appends};

    ghost then = { λ s v found w. Appends s v found w };
}

impl<'a, E> Plain<Turn<'a, E>, Line<E>, u64> for Append {
    ghost use Rattle.std.specs.Prelude.{None};
    ghost use Rattle.ghost_list.specs.Pens.{line_of};

    ghost ask = { λ t. line_of t.entry.now t.by.now.nib.key t.next.now.nib.key };

    ghost state = { λ t. None };
}
