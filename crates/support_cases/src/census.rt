//! Answers that come at many places.

use std::alloc::{AllocError, Global};

/// Which answers came, how often, and at which places.
#[derive(Drop)]
pub struct Census {
    kinds: Vec<Kind>,
}

/// One answer, and where it came.
#[derive(Drop)]
struct Kind {
    answer: String,
    count: u32,
    runs: Vec<Run>,
}

/// Places that follow one another, the last among them.
#[derive(Clone, Copy, Drop)]
struct Run {
    first: usize,
    last: usize,
}

impl Census {
    /// No answer has been counted.
    pub fn new(alloc: Global) -> Census {
        Census {
            kinds: Vec::new(alloc),
        }
    }

    /// Counts an answer at a place, which comes after all those counted before.
    pub fn add(&mut self, alloc: Global, place: usize, answer: &str) -> Result<(), AllocError> {
        let known = self
            .kinds
            .iter()
            .position(|kind| kind.answer.as_str() == answer);
        match known.and_then(|index| self.kinds.get_mut(index)) {
            Some(kind) => kind.add(place),
            None => Ok(self.kinds.push(Kind::new(alloc, place, answer)?)?),
        }
    }

    /// Each answer after its count and its places, as in `3 at 0 4-5: ANSWER`, in the order in which they first came.
    pub fn text(&self, alloc: Global) -> Result<String, AllocError> {
        let mut text = String::new(alloc);
        for kind in &self.kinds {
            if !text.is_empty() {
                text.push_str(" | ")?;
            }
            text.push_str(kind.text(alloc)?.as_str())?;
        }
        Ok(text)
    }
}

impl Kind {
    fn new(alloc: Global, place: usize, answer: &str) -> Result<Kind, AllocError> {
        let mut kind = Kind {
            answer: String::from_str(alloc, answer)?,
            count: 0,
            runs: Vec::new(alloc),
        };
        kind.add(place)?;
        Ok(kind)
    }

    fn add(&mut self, place: usize) -> Result<(), AllocError> {
        self.count = self.count.saturating_add(1);
        if let Some(run) = self.runs.last_mut() {
            if run.last.checked_add(1) == Some(place) {
                run.last = place;
                return Ok(());
            }
        }
        Ok(
            self.runs.push(Run {
                first: place,
                last: place,
            })?,
        )
    }

    fn text(&self, alloc: Global) -> Result<String, AllocError> {
        let mut text = format!(in alloc; "{} at", self.count)?;
        for run in &self.runs {
            text.push_str(run.text(alloc)?.as_str())?;
        }
        text.push_str(": ")?;
        text.push_str(self.answer.as_str())?;
        Ok(text)
    }
}

impl Run {
    fn text(self, alloc: Global) -> Result<String, AllocError> {
        if self.first == self.last {
            format!(in alloc; " {}", self.first)
        } else {
            format!(in alloc; " {}-{}", self.first, self.last)
        }
    }
}
