//! A value that clauses remember, of which the program keeps nothing.
ghost use Rattle.std.specs.Prelude.{◌≡◌};
ghost use Rattle.std.specs.Borrow.{ftrue};

use std::marker::{Model, PhantomData};

/// A value as clauses remember it: it has no bytes and owns nothing. It is std's `Snapshot`, but such that what it is a
/// part of may go to another thread.
#[derive(Drop)]
pub struct Remembered<T> {
    marker: PhantomData<T>,
    pub ghost value: { T },
}

impl<T> Model for Remembered<T> {
    ghost also_owns = { λ _. ftrue };
}

// It owns nothing (proofs/remembered/Remembered/TheSendSync).
unsafe impl<T> Send for Remembered<T> {}

impl<T> Remembered<T> {
    /// What the reference shows now.
    pub fn of(x: &T) -> Remembered<T>
        ensures value { result.value ≡ x.now }
    {
        let _ = x;
        Remembered {
            marker: PhantomData,
        }
    }
}
