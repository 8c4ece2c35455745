//! A clock that stands still, and words that count up.
ghost use Rattle.std.specs.Prelude.{◌<◌};
ghost use Rattle.chpw_table.specs.Times.{IsMoment};

use chpw_serve::{Clock, Words};
use chpw_table::{LAST_SECOND, Moment};

/// A clock that always shows one second.
#[derive(Clone, Copy, Drop)]
pub struct Standing {
    second: i64,
}

impl Standing {
    pub fn at(second: i64) -> Standing {
        Standing { second }
    }

    /// The moment that it shows.
    pub fn moment(self) -> Moment
        ensures range { IsMoment result × (result.micros < 1000000) }
    {
        let seconds = if 0 <= self.second && self.second <= LAST_SECOND {
            self.second
        } else {
            0
        };
        Moment { seconds, micros: 0 }
    }
}

impl Clock for Standing {
    ghost gives = { λ _ _ _. Unit {0} };

    fn now(&mut self) -> Moment {
        self.moment()
    }
}

/// The words 1, 2, 3 and so on.
#[derive(Clone, Copy, Drop)]
pub struct Counting {
    last: u32,
}

impl Counting {
    pub fn new() -> Counting {
        Counting { last: 0 }
    }

    /// The words of one message.
    pub fn nine(&mut self) -> [u32; 9] {
        let mut words = [0; 9];
        for word in &mut words {
            *word = self.next();
        }
        words
    }
}

impl Words for Counting {
    ghost gives = { λ _ _ _. Unit {0} };

    fn next(&mut self) -> u32 {
        self.last = self.last.wrapping_add(1);
        self.last
    }
}
