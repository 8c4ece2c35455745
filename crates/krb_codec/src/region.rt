//! A region of a text, which is read from left to right.

ghost use Rattle.std.specs.Prelude.{◌≡◌, ◌≢◌, ◌+◌, ◌^◌, ◌<◌, ◌-◌, ◌==◌, length, IfOk, IfErr, if◌then◌else◌, Ok};
ghost use Rattle.krb_codec.specs.Integers.{number};
ghost use Rattle.krb_codec.specs.Reading.{Gives, length_at, element_at, ended, starts, starts_between, first_of};

use crate::fault::{DerFault, FaultKind, ReadError};
use std::marker::Model;

/// What is left of a region, and its offset from the text's start.
#[derive(Drop)]
pub struct Region<'a> {
    place: usize,
    left: &'a [u8],
}

impl<'a> Model for Region<'a> {
    ghost use Rattle.std.specs.Prelude.{◌+◌, ◌^◌, ◌<◌, length};
    ghost use Rattle.krb_codec.specs.Integers.{number};
    ghost use Rattle.krb_codec.specs.Reading.{Input as SpecInput};

    ghost Value = { SpecInput };

    ghost view = { λ r. record { place = r.place; left = r.left.now } };

    ghost invariant = { λ r. r.place + length r.left.now < 2 ^ 64 };
}

impl<'a> Region<'a> {
    /// The whole of a text.
    pub fn new(text: &'a [u8]) -> Region<'a>
        ensures { result ≡ record { place = 0; left = text.now } }
    {
        Region {
            place: 0,
            left: text,
        }
    }

    /// Whether nothing is left.
    pub fn is_empty(&self) -> bool
        ensures { result ≡ (length self.now.left == 0) }
    {
        self.left.is_empty()
    }

    /// Whether an element with this tag is next.
    pub fn starts(&self, tag: u8) -> bool
        ensures { result ≡ starts tag self.now.left }
    {
        starts_with(self.left, tag)
    }

    /// The tag of the element that is next, if it is one of these.
    pub fn next_between(&self, low: u8, high: u8) -> Option<u8>
        ensures { result ≡ (if starts_between low high self.now.left
            then Some (first_of self.now.left) else None) }
    {
        match self.left {
            [tag, ..] if low <= *tag && *tag <= high => Some(*tag),
            _ => None,
        }
    }

    /// Takes an element with this tag, and returns the region of its contents.
    #[tactic(auto, unfolding(crate::specs::Reading::element_at, crate::specs::Reading::tag_at))]
    pub fn element(&mut self, tag: u8) -> Result<Region<'a>, ReadError>
        ensures read { Gives (λ x. record { content = x; after = self.new }) result
            (element_at tag self.old) }
        ensures no_memory { IfErr result (λ e. e ≢ ReadError.Memory) }
    {
        let bytes = match self.left {
            [] => return Err(fault(self.place, FaultKind::Truncated)),
            [first, bytes @ ..] => {
                if *first != tag {
                    return Err(fault(self.place, FaultKind::WrongTag));
                }
                bytes
            }
        };
        let (len, bytes) = length_of(self.place, bytes)?;
        if bytes.len() < len {
            return Err(fault(self.place, FaultKind::Truncated));
        }
        let (content, after) = bytes.split_at(len);
        let place = self.place + (self.left.len() - bytes.len());
        self.left = after;
        self.place = place + len;
        Ok(Region {
            place,
            left: content,
        })
    }

    /// What is left.
    pub fn rest(&self) -> &'a [u8]
        ensures { result.now ≡ self.now.left }
    {
        self.left
    }

    /// Its offset from the text's start.
    pub fn place(&self) -> usize
        ensures { result ≡ self.now.place }
    {
        self.place
    }

    /// Nothing may be left.
    pub fn finish(self) -> Result<(), ReadError>
        ensures read { Gives (λ x. x) result (ended self.entry) }
        ensures no_memory { IfErr result (λ e. e ≢ ReadError.Memory) }
    {
        if !self.left.is_empty() {
            return Err(fault(self.place, FaultKind::Trailing));
        }
        Ok(())
    }
}

/// A fault of this kind, at this offset from the text's start.
pub fn fault(place: usize, kind: FaultKind) -> ReadError
    ensures { result ≡ ReadError.Fault (record { place = place; kind = kind }) }
{
    ReadError::Fault(DerFault { place, kind })
}

/// A length, and the bytes after it. A fault is the element's, which begins at a place.
#[tactic(auto, unfolding(crate::specs::Reading::length_at))]
fn length_of(place: usize, bytes: &[u8]) -> Result<(usize, &[u8]), ReadError>
    ensures given { Gives (λ x. (x.0, x.1.now)) result (length_at place bytes.now) }
    ensures within { IfOk result (λ x. length x.1.now < length bytes.now) }
    ensures no_memory { IfErr result (λ e. e ≢ ReadError.Memory) }
{
    match bytes {
        [] => Err(fault(place, FaultKind::Truncated)),
        [first, bytes @ ..] if *first < 0x80 => Ok((usize::from(*first), bytes)),
        [first, bytes @ ..] => {
            if *first == 0x80 || *first > 0x84 {
                return Err(fault(place, FaultKind::BadLength));
            }
            let count = usize::from(*first - 0x80);
            if bytes.len() < count {
                return Err(fault(place, FaultKind::Truncated));
            }
            let (octets, after) = bytes.split_at(count);
            let len = number_of(octets);
            if starts_with(octets, 0) || len < 0x80 {
                return Err(fault(place, FaultKind::BadLength));
            }
            Ok((len as usize, after))
        }
    }
}

/// Whether this byte is the first.
fn starts_with(bytes: &[u8], byte: u8) -> bool
    ensures { result ≡ starts byte bytes.now }
{
    match bytes {
        [] => false,
        [first, ..] => *first == byte,
    }
}

/// The bytes as a number, the first the highest.
pub fn number_of(bytes: &[u8]) -> u64
    requires { length bytes.now < 8 }
    ensures { result ≡ number bytes.now }
{
    let mut n: u64 = 0;
    for b in bytes {
        n = n * 256 + u64::from(*b);
    }
    n
}
