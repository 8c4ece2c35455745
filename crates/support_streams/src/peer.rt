//! Readers and writers that behave as a case says:
//!
//! - `whole`: a call gives or takes all that there is.
//! - `by N`: a call gives or takes at most N bytes.
//! - `interrupted`: each call is interrupted once before it does its work.
//! - `never ready`: each call is interrupted.
//! - `fails after N`: a call fails once N bytes went through.
//! - `takes nothing after N`: a call then answers that it took none.
ghost use Rattle.std.specs.Prelude.{Some};

use std::io::{self, Error, ErrorKind, Read, Write};

/// How a reader or writer behaves.
#[derive(Clone, Copy, Drop)]
pub struct Way {
    most: usize,
    interrupted: bool,
    never_ready: bool,
    fails_after: Option<usize>,
    nothing_after: Option<usize>,
}

impl Way {
    /// The way that a case names.
    pub fn of(text: &str) -> Way {
        let mut way = Way {
            most: usize::MAX,
            interrupted: false,
            never_ready: false,
            fails_after: None,
            nothing_after: None,
        };
        for word in text.split(',') {
            let word = word.trim();
            let (what, number) = word.rsplit_once(' ').unwrap_or((word, ""));
            match (what, number.parse()) {
                ("by", Ok(most)) => way.most = most,
                ("fails after", Ok(count)) => way.fails_after = Some(count),
                ("takes nothing after", Ok(count)) => way.nothing_after = Some(count),
                _ => {
                    way.interrupted |= word == "interrupted";
                    way.never_ready |= word == "never ready";
                }
            }
        }
        way
    }

    /// This way, but that it fails after `count` bytes.
    pub fn failing_after(self, count: usize) -> Way {
        Way {
            fails_after: Some(count),
            ..self
        }
    }
}

/// The progress of a reader or writer.
#[derive(Clone, Copy, Drop)]
pub struct Course {
    way: Way,
    through: usize,
    /// The last call was interrupted.
    resumes: bool,
    pub calls: u32,
}

impl Course {
    /// No call was made and no byte went through.
    pub fn start(way: Way) -> Course {
        Course {
            way,
            through: 0,
            resumes: false,
            calls: 0,
        }
    }

    /// How many of `count` bytes go through in this call.
    fn pass(&mut self, count: usize) -> io::Result<usize> {
        self.calls = self.calls.saturating_add(1);
        self.resumes = !self.resumes;
        if self.way.never_ready || (self.way.interrupted && self.resumes) {
            return Err(Error::from(ErrorKind::Interrupted));
        }
        if self.way.nothing_after == Some(self.through) {
            return Ok(0);
        }
        if self.way.fails_after == Some(self.through) {
            return Err(Error::from(ErrorKind::Other));
        }
        let failing = self.way.fails_after.unwrap_or(usize::MAX);
        let end = failing.min(self.way.nothing_after.unwrap_or(usize::MAX));
        let room = end.saturating_sub(self.through);
        let count = count.min(self.way.most).min(room);
        self.through = self.through.saturating_add(count);
        Ok(count)
    }
}

/// Gives bytes.
#[derive(Drop)]
pub struct Giver<'a> {
    pub left: &'a [u8],
    pub course: Course,
}

impl Read for Giver<'_> {
    fn read(&mut self, buf: &mut [u8]) -> io::Result<usize> {
        let count = self.course.pass(buf.len().min(self.left.len()))?;
        let count = count.min(buf.len()).min(self.left.len());
        let (given, left) = self.left.split_at(count);
        buf[..count].copy_from_slice(given);
        self.left = left;
        Ok(count)
    }
}

/// Takes bytes.
#[derive(Drop)]
pub struct Taker {
    pub taken: Vec<u8>,
    pub course: Course,
}

impl Write for Taker {
    ghost contents = { λ taker. Some taker.taken.items };

    fn write(&mut self, buf: &[u8]) -> io::Result<usize> {
        let count = self.course.pass(buf.len())?.min(buf.len());
        self.taken.extend_from_slice(&buf[..count])?;
        Ok(count)
    }

    fn flush(&mut self) -> io::Result<()> {
        Ok(())
    }
}
