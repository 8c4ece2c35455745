//! The fields of a record: a list of fields is a type, by which they are read and put alike.
//!
//! A field's number is a parameter of its type. A parameter can't be required to be small, so the number is taken
//! modulo 32, in reading, in putting and in their clauses alike. A tag of one byte has the numbers 0 to 30 (X.690
//! section 8.1.2.2).
//!
//! Lists of up to four fields, or of up to four lists, are tuples; a longer list is one of lists, whose grouping has no
//! influence on the record.

ghost use Rattle.std.specs.Prelude.{◌≡◌, ◌+◌, ◌%◌, option_map};
ghost use Rattle.krb_codec.specs.Shapes.{Shape, Value, required, optional, tagged};
ghost use Rattle.krb_codec.specs.Reading.{Gives, reads, reads_optional};
ghost use Rattle.krb_codec.specs.Fields.{GivesFields, PutsFields};
ghost use Rattle.krb_codec.specs.Sinks.{Puts, puts};

use crate::fault::ReadError;
use crate::reading::{Read, read_value};
use crate::region::Region;
use crate::sink::Sink;
use crate::tag::CONTEXT;
use crate::writing::{Write, put_value};
use std::alloc::{AllocError, Global};

/// Fields that follow one another, before what comes after them.
pub trait Fields<'a> {
    ghost use Rattle.krb_codec.specs.Shapes.{Shape, Value};

    type Values: Drop;

    /// References to the values of the fields.
    type Borrowed: Drop;

    /// Which elements spell the fields and what follows them.
    ghost before: { Shape → Shape };

    /// The value of the fields and of what follows.
    ghost value: { (rest : Shape) → Self.Values → Value rest → Value (before rest) };

    /// The values that are referred to.
    ghost referred: { Self.Borrowed → Self.Values };

    /// Takes the fields, which are next in a region.
    fn read(alloc: Global, region: &mut Region<'_>) -> Result<Self::Values, ReadError>
        ensures { GivesFields Self.before Self.value result region.old region.new };

    /// Puts the fields into a sink.
    fn put<S: Sink>(sink: &mut S, values: Self::Borrowed) -> Result<(), AllocError>
        ensures { PutsFields S.can_fail result (puts S.put S.place S.enclose) Self.before
            (λ rest y. Self.value rest (Self.referred values) y) sink.old sink.new };
}

/// A field under the context tag of its number.
pub struct Required<const NUMBER: u8, T>(T);

/// A field under the context tag of its number, which may be absent.
pub struct Optional<const NUMBER: u8, T>(T);

impl<'a, const NUMBER: u8, T: Read + Write + 'a> Fields<'a> for Required<NUMBER, T> {
    type Values = T;

    type Borrowed = &'a T;

    ghost before = { required (NUMBER % 32) T.shape };

    ghost value = { λ rest x y. (T.value x, y) };

    ghost referred = { λ x. x.now };

    #[tactic(auto, unfolding(crate::specs::Reading::reads))]
    fn read(alloc: Global, region: &mut Region<'_>) -> Result<T, ReadError> {
        read_tagged(alloc, region, CONTEXT + NUMBER % 32)
    }

    #[tactic(auto, unfolding(crate::specs::Sinks::puts))]
    fn put<S: Sink>(sink: &mut S, value: &'a T) -> Result<(), AllocError> {
        put_tagged(sink, CONTEXT + NUMBER % 32, value)
    }
}

impl<'a, const NUMBER: u8, T: Read + Write + 'a> Fields<'a> for Optional<NUMBER, T> {
    type Values = Option<T>;

    type Borrowed = &'a Option<T>;

    ghost before = { optional (NUMBER % 32) T.shape };

    ghost value = { λ rest x y. (option_map T.value x, y) };

    ghost referred = { λ x. x.now };

    #[tactic(auto, unfolding(crate::specs::Reading::reads))]
    fn read(alloc: Global, region: &mut Region<'_>) -> Result<Option<T>, ReadError> {
        read_optional(alloc, region, CONTEXT + NUMBER % 32)
    }

    #[tactic(auto, unfolding(crate::specs::Sinks::puts))]
    fn put<S: Sink>(sink: &mut S, value: &'a Option<T>) -> Result<(), AllocError> {
        match value {
            None => Ok(()),
            Some(value) => put_tagged(sink, CONTEXT + NUMBER % 32, value),
        }
    }
}

impl<'a, A: Fields<'a>, B: Fields<'a>> Fields<'a> for (A, B) {
    type Values = (A::Values, B::Values);

    type Borrowed = (A::Borrowed, B::Borrowed);

    ghost before = { λ rest. A.before (B.before rest) };

    ghost value = { λ rest x y. A.value (B.before rest) x.0 (B.value rest x.1 y) };

    ghost referred = { λ x. (A.referred x.0, B.referred x.1) };

    fn read(alloc: Global, region: &mut Region<'_>) -> Result<(A::Values, B::Values), ReadError> {
        let first = A::read(alloc, region)?;
        let second = B::read(alloc, region)?;
        Ok((first, second))
    }

    fn put<S: Sink>(
        sink: &mut S,
        (first, second): (A::Borrowed, B::Borrowed),
    ) -> Result<(), AllocError> {
        A::put(sink, first)?;
        B::put(sink, second)
    }
}

impl<'a, A: Fields<'a>, B: Fields<'a>, C: Fields<'a>> Fields<'a> for (A, B, C) {
    type Values = (A::Values, B::Values, C::Values);

    type Borrowed = (A::Borrowed, B::Borrowed, C::Borrowed);

    ghost before = { λ rest. A.before (B.before (C.before rest)) };

    ghost value = { λ rest x y. A.value (B.before (C.before rest)) x.0
        (B.value (C.before rest) x.1 (C.value rest x.2 y)) };

    ghost referred = { λ x. (A.referred x.0, B.referred x.1, C.referred x.2) };

    fn read(alloc: Global, region: &mut Region<'_>) -> Result<Self::Values, ReadError> {
        let (a, (b, c)) = <(A, (B, C)) as Fields<'a>>::read(alloc, region)?;
        Ok((a, b, c))
    }

    fn put<S: Sink>(sink: &mut S, (a, b, c): Self::Borrowed) -> Result<(), AllocError> {
        <(A, (B, C)) as Fields<'a>>::put(sink, (a, (b, c)))
    }
}

impl<'a, A: Fields<'a>, B: Fields<'a>, C: Fields<'a>, D: Fields<'a>> Fields<'a> for (A, B, C, D) {
    type Values = (A::Values, B::Values, C::Values, D::Values);

    type Borrowed = (A::Borrowed, B::Borrowed, C::Borrowed, D::Borrowed);

    ghost before = { λ rest. A.before (B.before (C.before (D.before rest))) };

    ghost value = { λ rest x y. A.value (B.before (C.before (D.before rest))) x.0
        (B.value (C.before (D.before rest)) x.1
        (C.value (D.before rest) x.2 (D.value rest x.3 y))) };

    ghost referred = { λ x. (A.referred x.0, B.referred x.1, C.referred x.2, D.referred x.3) };

    fn read(alloc: Global, region: &mut Region<'_>) -> Result<Self::Values, ReadError> {
        let ((a, b), (c, d)) = <((A, B), (C, D)) as Fields<'a>>::read(alloc, region)?;
        Ok((a, b, c, d))
    }

    fn put<S: Sink>(sink: &mut S, (a, b, c, d): Self::Borrowed) -> Result<(), AllocError> {
        <((A, B), (C, D)) as Fields<'a>>::put(sink, ((a, b), (c, d)))
    }
}

/// The element inside the element of a context tag.
#[tactic(auto, unfolding(crate::specs::Reading::reads))]
fn read_tagged<T: Read>(alloc: Global, region: &mut Region<'_>, tag: u8) -> Result<T, ReadError>
    ensures { Gives (λ x. (T.value x, region.new)) result (reads (tagged tag T.shape) region.old) }
{
    let mut content = region.element(tag)?;
    let value = read_value(alloc, &mut content)?;
    content.finish()?;
    Ok(value)
}

/// The element inside that of a context tag, if that tag is next.
fn read_optional<T: Read>(
    alloc: Global,
    region: &mut Region<'_>,
    tag: u8,
) -> Result<Option<T>, ReadError>
    ensures { Gives (λ x. (option_map T.value x, region.new))
        result (reads_optional tag (reads (tagged tag T.shape)) region.old) }
{
    if !region.starts(tag) {
        return Ok(None);
    }
    Ok(Some(read_tagged(alloc, region, tag)?))
}

/// Puts a value's element into the element of a tag.
#[tactic(auto, unfolding(crate::specs::Sinks::puts))]
fn put_tagged<T: Write, S: Sink>(sink: &mut S, tag: u8, value: &T) -> Result<(), AllocError>
    ensures { Puts S.can_fail result
        (sink.new ≡ puts S.put S.place S.enclose (tagged tag T.shape)
        sink.old (T.value value.now)) }
{
    let place = sink.place();
    put_value(sink, value)?;
    sink.enclose(place, tag)
}
