//! Where moments and random words come from.
ghost use Rattle.std.specs.Prelude.{◌≡◌, ℕ, ◌<◌, length};
ghost use Rattle.chpw_table.specs.declared.times.Moment.{Moment};
ghost use Rattle.chpw_table.specs.Times.{IsMoment};
ghost use Rattle.chpw_serve.specs.InTurn.{InTurn};

use chpw_table::Moment;

/// What is drawn for a message: the moment of its answer, its microseconds below 1,000,000, and nine
/// random words.
#[derive(Clone, Copy, Drop)]
pub struct Drawing {
    pub now: Moment,
    pub words: [u32; 9],
    ghost range: { IsMoment now × (now.micros < 1000000) },
}

pub trait Clock {
    /// In the first state it may give this moment, which leads to the second.
    ghost gives: { Self → Moment → Self → Type 0 };

    /// The moment: seconds from 0 to `chpw_table::LAST_SECOND`, microseconds below 1,000,000.
    fn now(&mut self) -> Moment
        ensures range { IsMoment result × (result.micros < 1000000) }
        ensures given { gives self.old result self.new };
}

/// Random words.
pub trait Words {
    /// In the first state it may give this word, which leads to the second.
    ghost gives: { Self → ℕ → Self → Type 0 };

    /// The next word.
    fn next(&mut self) -> u32
        ensures given { gives self.old result self.new };
}

/// Draws for a message: its moment, and nine words.
pub(crate) fn draw<C: Clock, X: Words>(clock: &mut C, words: &mut X) -> Drawing
    ensures moment { C.gives clock.old result.now clock.new }
    ensures words { InTurn X.gives words.old result.words words.new }
    ensures nine { length result.words ≡ 9 }
{
    let now = clock.now();
    let words = next_words::<9, X>(words);
    Drawing { now, words }
}

/// The next `N` words, in order.
pub fn next_words<const N: usize, X: Words>(words: &mut X) -> [u32; N]
    ensures words { InTurn X.gives words.old result words.new }
    ensures count { length result ≡ N }
{
    let mut drawn = [0; N];
    for i in 0..N {
        drawn[i] = words.next();
    }
    drawn
}
