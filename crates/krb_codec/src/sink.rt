//! Where texts are put: the text itself, or its length alone.

ghost use Rattle.std.specs.Prelude.{◌≡◌, OnOk, Bool, true, false, ℕ, List, [], ◌∷◌, ◌++◌, ◌≤◌, length, ◌+◌};
ghost use Rattle.krb_codec.specs.Sinks.{Puts, text_put, text_place, text_enclose, length_put, length_place, length_enclose, allowed, element_length};
ghost use Rattle.krb_codec.specs.Texts.{without_zeros, length_octets, element};

use std::alloc::{AllocError, Global};
use std::marker::Model;

/// What values are put into, element by element.
pub trait Sink {
    ghost put: { Self → ℕ → List ℕ → Bool → Self };

    ghost place: { Self → ℕ };

    ghost enclose: { Self → ℕ → ℕ → Self };

    /// Whether it may want memory.
    ghost can_fail: { Bool };

    /// Takes an element with this tag and these contents, of a value that is in its range or not. A value out of range
    /// has a text, too (a time past the year 9999 one without contents), which no call writes, since `fits` says that
    /// it is out of range; only `Length` asks.
    fn put(&mut self, tag: u8, content: &[u8], in_range: bool) -> Result<(), AllocError>
        ensures { Puts can_fail result (self.new ≡ put self.old tag content.now in_range) };

    /// The offset that it has reached.
    fn place(&self) -> usize
        ensures { result ≡ place self.now };

    /// Makes what it took from a place on the contents of an element with this tag.
    fn enclose(&mut self, start: usize, tag: u8) -> Result<(), AllocError>
        ensures { Puts can_fail result (self.new ≡ enclose self.old start tag) };
}

/// The text of what was put.
#[derive(Drop)]
pub struct Text {
    bytes: Vec<u8>,
}

impl Model for Text {
    ghost use Rattle.std.specs.Prelude.{List, ℕ};

    ghost Value = { List ℕ };

    ghost view = { λ t. t.bytes.items };
}

impl Text {
    /// Nothing was put.
    pub fn new(alloc: Global) -> Text
        ensures { result ≡ [] }
    {
        Text {
            bytes: Vec::new(alloc),
        }
    }

    /// The text as a vector.
    pub fn into_vec(self) -> Vec<u8>
        ensures { result.items ≡ self }
    {
        self.bytes
    }
}

impl Sink for Text {
    ghost put = { text_put };

    ghost place = { text_place };

    ghost enclose = { text_enclose };

    ghost can_fail = { true };

    #[tactic(auto, unfolding(crate::specs::Texts::element))]
    fn put(&mut self, tag: u8, content: &[u8], _in_range: bool) -> Result<(), AllocError> {
        put_header(&mut self.bytes, tag, content.len())?;
        self.bytes.extend_from_slice(content)
    }

    fn place(&self) -> usize {
        self.bytes.len()
    }

    #[tactic(auto, unfolding(crate::specs::Texts::element))]
    fn enclose(&mut self, start: usize, tag: u8) -> Result<(), AllocError> {
        enclose_from(&mut self.bytes, start, tag)
    }
}

/// The length of what was put: none where it is above 65,535 or a value was out of range.
#[derive(Drop)]
pub struct Length {
    bytes: Option<usize>,
}

impl Model for Length {
    ghost use Rattle.std.specs.Prelude.{Option, ℕ};
    ghost use Rattle.krb_codec.specs.Sinks.{IsAllowed};

    ghost Value = { Option ℕ };

    ghost view = { λ l. l.bytes };

    ghost invariant = { λ l. IsAllowed l.bytes };
}

impl Length {
    /// Nothing was put.
    pub fn new() -> Length
        ensures { result ≡ Some 0 }
    {
        Length { bytes: Some(0) }
    }

    /// The length in bytes; none if it is above 65,535 or a value was out of range.
    pub fn bytes(&self) -> Option<usize>
        ensures { result ≡ self.now }
    {
        self.bytes
    }
}

impl Sink for Length {
    ghost put = { length_put };

    ghost place = { length_place };

    ghost enclose = { length_enclose };

    ghost can_fail = { false };

    fn put(&mut self, _tag: u8, content: &[u8], in_range: bool) -> Result<(), AllocError> {
        self.bytes = match self.bytes {
            Some(before) if in_range => with_element(before, content.len()),
            _ => None,
        };
        Ok(())
    }

    fn place(&self) -> usize {
        self.bytes.unwrap_or(0)
    }

    fn enclose(&mut self, start: usize, _tag: u8) -> Result<(), AllocError> {
        self.bytes = match self.bytes {
            Some(bytes) => with_element(start, bytes.saturating_sub(start)),
            None => None,
        };
        Ok(())
    }
}

/// The longest text that is written, in bytes.
const LONGEST: usize = 65_535;

/// The length of a text followed by an element with contents of this length, if it isn't too long.
fn with_element(before: usize, content: usize) -> Option<usize>
    ensures { result ≡ allowed (before + element_length content) }
{
    if before > LONGEST || content > LONGEST {
        return None;
    }
    let bytes = before + 1 + length_size(content) + content;
    if bytes <= LONGEST { Some(bytes) } else { None }
}

/// How many bytes the length takes.
#[tactic(auto, unfolding(crate::specs::Texts::length_octets))]
fn length_size(len: usize) -> usize
    ensures value { result ≡ length (length_octets len) }
    ensures few { result ≤ 9 }
{
    if len < 0x80 {
        return 1;
    }
    1 + without_zeros(&len.to_be_bytes()).len()
}

fn without_zeros(bytes: &[u8]) -> &[u8]
    ensures value { result.now ≡ without_zeros bytes.now }
    ensures within { length result.now ≤ length bytes.now }
{
    match bytes {
        [0, rest @ ..] => without_zeros(rest),
        _ => bytes,
    }
}

/// Adds a tag and a length in its shortest form (X.690 sections 8.1.2 and 10.1).
#[tactic(auto, unfolding(crate::specs::Texts::length_octets))]
fn put_header(out: &mut Vec<u8>, tag: u8, len: usize) -> Result<(), AllocError>
    ensures { OnOk result (out.new.items ≡ out.old.items ++ tag ∷ length_octets len) }
{
    if len < 0x80 {
        return out.extend_from_slice(&[tag, len as u8]);
    }
    let bytes = len.to_be_bytes();
    let octets = without_zeros(&bytes);
    out.extend_from_slice(&[tag, 0x80 + octets.len() as u8])?;
    out.extend_from_slice(octets)
}

/// Puts a header before the contents that start at a place.
#[tactic(auto, unfolding(crate::specs::Texts::element))]
fn enclose_from(bytes: &mut Vec<u8>, start: usize, tag: u8) -> Result<(), AllocError>
    ensures { OnOk result (bytes.new.items ≡ text_enclose bytes.old.items start tag) }
{
    let end = bytes.len();
    let start = start.min(end);
    put_header(bytes, tag, end - start)?;
    let tail = &mut bytes.as_mut_slice()[start..];
    tail.rotate_left(end - start);
    Ok(())
}
