//! The element that holds a record's fields: a SEQUENCE, or one under an application tag.

ghost use Rattle.std.specs.Prelude.{◌≡◌, ◌%◌};
ghost use Rattle.krb_codec.specs.Shapes.{Shape, Value, nothing, further, sequence, extensible_sequence, application};
ghost use Rattle.krb_codec.specs.Reading.{Gives, reads};
ghost use Rattle.krb_codec.specs.Sinks.{Puts, puts};

use crate::fault::ReadError;
use crate::fields::Fields;
use crate::region::Region;
use crate::sink::Sink;
use crate::tag::{APPLICATION, SEQUENCE};
use std::alloc::{AllocError, Global};

/// A record's element with its fields, by which it is read and put alike.
pub trait Layout<'a> {
    ghost use Rattle.krb_codec.specs.Shapes.{Shape, Value};

    type Values: Drop;

    /// References to the values of the fields.
    type Borrowed: Drop;

    /// Which elements spell the fields.
    ghost shape: { Shape };

    ghost value: { Self.Values → Value shape };

    /// The values that are referred to.
    ghost referred: { Self.Borrowed → Self.Values };

    /// Takes the record's element, which is next in a region.
    fn read(alloc: Global, region: &mut Region<'_>) -> Result<Self::Values, ReadError>
        ensures { Gives (λ x. (Self.value x, region.new)) result (reads Self.shape region.old) };

    /// Puts the record's element into a sink.
    fn put<S: Sink>(sink: &mut S, values: Self::Borrowed) -> Result<(), AllocError>
        ensures { Puts S.can_fail result
            (sink.new ≡ puts S.put S.place S.enclose Self.shape
            sink.old (Self.value (Self.referred values))) };
}

/// A SEQUENCE of fields.
pub struct Sequence<F>(F);

/// A SEQUENCE of fields and of further elements, whose tags are from `LOW` to `HIGH` and whose contents may be
/// anything. They are skipped in reading, and none is written.
pub struct ExtensibleSequence<const LOW: u8, const HIGH: u8, F>(F);

/// A SEQUENCE of fields under the application tag of its number, which is taken modulo 32.
pub struct Application<const NUMBER: u8, F>(F);

impl<'a, F: Fields<'a>> Layout<'a> for Sequence<F> {
    type Values = F::Values;

    type Borrowed = F::Borrowed;

    ghost shape = { sequence F.before };

    ghost value = { λ x. F.value nothing x tt };

    ghost referred = { F.referred };

    #[tactic(auto, unfolding(crate::specs::Reading::reads))]
    fn read(alloc: Global, region: &mut Region<'_>) -> Result<F::Values, ReadError> {
        let mut content = region.element(SEQUENCE)?;
        let fields = F::read(alloc, &mut content)?;
        content.finish()?;
        Ok(fields)
    }

    #[tactic(auto, unfolding(crate::specs::Sinks::puts))]
    fn put<S: Sink>(sink: &mut S, values: F::Borrowed) -> Result<(), AllocError> {
        let start = sink.place();
        F::put(sink, values)?;
        sink.enclose(start, SEQUENCE)
    }
}

impl<'a, const LOW: u8, const HIGH: u8, F: Fields<'a>> Layout<'a>
    for ExtensibleSequence<LOW, HIGH, F> {
    type Values = F::Values;

    type Borrowed = F::Borrowed;

    ghost shape = { extensible_sequence F.before LOW HIGH };

    ghost value = { λ x. F.value (further LOW HIGH) x tt };

    ghost referred = { F.referred };

    #[tactic(auto, unfolding(crate::specs::Reading::reads))]
    fn read(alloc: Global, region: &mut Region<'_>) -> Result<F::Values, ReadError> {
        let mut content = region.element(SEQUENCE)?;
        let fields = F::read(alloc, &mut content)?;
        further(&mut content, LOW, HIGH)?;
        content.finish()?;
        Ok(fields)
    }

    #[tactic(auto, unfolding(crate::specs::Sinks::puts))]
    fn put<S: Sink>(sink: &mut S, values: F::Borrowed) -> Result<(), AllocError> {
        let start = sink.place();
        F::put(sink, values)?;
        sink.enclose(start, SEQUENCE)
    }
}

impl<'a, const NUMBER: u8, F: Fields<'a>> Layout<'a> for Application<NUMBER, F> {
    type Values = F::Values;

    type Borrowed = F::Borrowed;

    ghost shape = { application (NUMBER % 32) F.before };

    ghost value = { λ x. F.value nothing x tt };

    ghost referred = { F.referred };

    #[tactic(auto, unfolding(crate::specs::Reading::reads))]
    fn read(alloc: Global, region: &mut Region<'_>) -> Result<F::Values, ReadError> {
        let mut content = region.element(APPLICATION + NUMBER % 32)?;
        let fields = Sequence::<F>::read(alloc, &mut content)?;
        content.finish()?;
        Ok(fields)
    }

    #[tactic(auto, unfolding(crate::specs::Sinks::puts))]
    fn put<S: Sink>(sink: &mut S, values: F::Borrowed) -> Result<(), AllocError> {
        let start = sink.place();
        Sequence::<F>::put(sink, values)?;
        sink.enclose(start, APPLICATION + NUMBER % 32)
    }
}

/// Further elements with tags from `low` to `high`, whose contents may be anything.
#[tactic(auto, unfolding(crate::specs::Reading::reads))]
fn further(region: &mut Region<'_>, low: u8, high: u8) -> Result<(), ReadError>
    ensures { Gives (λ x. (x, region.new)) result (reads (further low high) region.old) }
{
    'elements: while let Some(tag) = region.next_between(low, high) {
        region.element(tag)?;
    }
    Ok(())
}
