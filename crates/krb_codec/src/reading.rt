//! Reading a whole text.

ghost use Rattle.std.specs.Prelude.{IfOk, Ok};
ghost use Rattle.krb_codec.specs.Shapes.{Value};
ghost use Rattle.krb_codec.specs.Grammar.{Spells};
ghost use Rattle.krb_codec.specs.Reading.{Gives, reads, reads_all};

use crate::element::Element;
use crate::fault::ReadError;
use crate::region::Region;
use std::alloc::Global;

/// A type whose elements are read.
pub trait Read: Element + Drop {
    /// Takes the element that is next in a region: its value or the first fault, or `Memory`.
    fn read(alloc: Global, region: &mut Region<'_>) -> Result<Self, ReadError>
        ensures { Gives (λ x. (Self.value x, region.new))
            result (reads Self.shape region.old) };
}

/// Takes the element that is next, as the shape of its type has it.
pub fn read_value<T: Read>(alloc: Global, region: &mut Region<'_>) -> Result<T, ReadError>
    ensures { Gives (λ x. (T.value x, region.new)) result (reads T.shape region.old) }
{
    T::read(alloc, region)
}

/// `read_all`, by one clause that implies its three.
#[tactic(auto, unfolding(crate::specs::Reading::reads_all))]
fn whole<T: Read>(alloc: Global, text: &[u8]) -> Result<T, ReadError>
    ensures { Gives T.value result (reads_all T.shape text.now) }
{
    let mut region = Region::new(text);
    let value = read_value(alloc, &mut region)?;
    region.finish()?;
    Ok(value)
}

/// The value that a whole text spells, or the first fault from left to right.
///
/// `Memory` where a growth is refused.
pub fn read_all<T: Read>(alloc: Global, text: &[u8]) -> Result<T, ReadError>
    // What is read is spelled by the text.
    ensures value { IfOk result (λ x. Spells T.shape text.now (T.value x)) }
    // What the text spells is read, unless memory runs out.
    ensures found { (v : Value T.shape) → Spells T.shape text.now v → Gives T.value result (Ok v) }
    // Which fault it is.
    ensures first { Gives T.value result (reads_all T.shape text.now) }
{
    whole(alloc, text)
}
