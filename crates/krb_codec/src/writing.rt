//! Writing a whole text, and measuring it.

ghost use Rattle.std.specs.Prelude.{◌≡◌, IfOk, map};
ghost use Rattle.krb_codec.specs.Shapes.{many};
ghost use Rattle.krb_codec.specs.Sinks.{Puts, puts};
ghost use Rattle.krb_codec.specs.Texts.{text, fits, text_length};

use crate::element::Element;
use crate::sink::{Length, Sink, Text};
use std::alloc::{AllocError, Global};

/// A type whose elements are written.
pub trait Write: Element {
    /// Puts the value's element into a sink.
    fn write<S: Sink>(&self, sink: &mut S) -> Result<(), AllocError>
        ensures { Puts S.can_fail result
            (sink.new ≡ puts S.put S.place S.enclose Self.shape
            sink.old (Self.value self.now)) };
}

/// Puts a value's element, as the shape of its type has it.
pub fn put_value<T: Write, S: Sink>(sink: &mut S, value: &T) -> Result<(), AllocError>
    ensures { Puts S.can_fail result
        (sink.new ≡ puts S.put S.place S.enclose T.shape sink.old (T.value value.now)) }
{
    value.write(sink)
}

/// Puts values, one after the other.
#[tactic(auto, unfolding(crate::specs::Sinks::puts))]
pub fn put_each<T: Write, S: Sink>(sink: &mut S, items: &[T]) -> Result<(), AllocError>
    ensures { Puts S.can_fail result
        (sink.new ≡ puts S.put S.place S.enclose (many T.shape) sink.old (map T.value items.now)) }
{
    for item in items {
        put_value(sink, item)?;
    }
    Ok(())
}

/// The one text of a value that fits (see [`fits`]). An error where a growth is refused.
pub fn write_all<T: Write>(alloc: Global, value: &T) -> Result<Vec<u8>, AllocError>
    ensures { IfOk result (λ v. v.items ≡ text T.shape (T.value value.now)) }
{
    let mut sink = Text::new(alloc);
    put_value(&mut sink, value)?;
    Ok(sink.into_vec())
}

/// The length of a value's text, if the value can be written (see [`fits`]). Takes no memory.
pub fn text_len<T: Write>(value: &T) -> Option<usize>
    ensures value { result ≡ text_length T.shape (T.value value.now) }
{
    let mut length = Length::new();
    match put_value(&mut length, value) {
        Ok(()) => length.bytes(),
        Err(_) => None,
    }
}

/// Whether a value can be written: its times are in the years 0 to 9999, its microseconds below
/// 1,000,000, and its text has at most 65,535 bytes. Takes no memory.
pub fn fits<T: Write>(value: &T) -> bool
    ensures value { result ≡ fits T.shape (T.value value.now) }
{
    text_len(value).is_some()
}
