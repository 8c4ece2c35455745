//! SEQUENCE OF (X.690 section 8.10).

ghost use Rattle.std.specs.Prelude.{◌≡◌, OnOk, length, map};
ghost use Rattle.std.specs.Cmp.Lexicographic.{pointwise, lists_per};
ghost use Rattle.krb_codec.specs.Shapes.{Value, many, sequence_of};
ghost use Rattle.krb_codec.specs.Reading.{Gives, reads};
ghost use Rattle.krb_codec.specs.Sinks.{puts};

use crate::element::Element;
use crate::fault::ReadError;
use crate::reading::{Read, read_value};
use crate::region::Region;
use crate::sink::Sink;
use crate::tag::SEQUENCE;
use crate::writing::{Write, put_each};
use std::alloc::{AllocError, Global};
use std::marker::Model;

/// Elements of one type, which contracts see as a list.
#[derive(Drop)]
pub struct SequenceOf<T> {
    items: Vec<T>,
}

impl<T> Model for SequenceOf<T> {
    ghost use Rattle.std.specs.Prelude.{List};

    ghost Value = { List T };

    ghost view = { λ l. l.items.items };
}

impl<T> SequenceOf<T> {
    /// The elements of this vector, which is kept.
    pub fn of(items: Vec<T>) -> SequenceOf<T>
        ensures value { result ≡ items.items }
    {
        SequenceOf { items }
    }

    /// The elements in order.
    pub fn as_slice(&self) -> &[T]
        ensures value { result.now ≡ self.now }
    {
        &self.items
    }

    /// The vector of the elements.
    pub fn into_vec(self) -> Vec<T>
        ensures value { result.items ≡ self }
    {
        self.items
    }
}

impl<T: PartialEq> PartialEq for SequenceOf<T> {
    ghost eq = { pointwise T.eq };

    ghost laws = { lists_per T.laws };

    fn eq(&self, other: &Self) -> bool {
        self.as_slice() == other.as_slice()
    }
}

/// Elements up to the region's end, which is then reached.
pub fn each<T: Read>(alloc: Global, region: &mut Region<'_>) -> Result<Vec<T>, ReadError>
    ensures read { Gives (λ v. (map T.value v.items, region.new)) result
        (reads (many T.shape) region.old) }
    ensures at_end { OnOk result (length region.new.left ≡ 0) }
{
    let mut items = Vec::new(alloc);
    'items: while !region.is_empty() {
        let item = read_value(alloc, region)?;
        items.push(item)?;
    }
    Ok(items)
}

impl<T: Element> Element for SequenceOf<T> {
    ghost shape = { sequence_of T.shape };

    ghost value = { λ l. map T.value l };

    ghost legal = { T.legal };
}

impl<T: Read> Read for SequenceOf<T> {
    #[tactic(auto, unfolding(crate::specs::Reading::reads))]
    fn read(alloc: Global, region: &mut Region<'_>) -> Result<SequenceOf<T>, ReadError> {
        let mut content = region.element(SEQUENCE)?;
        Ok(SequenceOf::of(each(alloc, &mut content)?))
    }
}

impl<T: Write> Write for SequenceOf<T> {
    #[tactic(auto, unfolding(crate::specs::Sinks::puts))]
    fn write<S: Sink>(&self, sink: &mut S) -> Result<(), AllocError> {
        let place = sink.place();
        put_each(sink, self.as_slice())?;
        sink.enclose(place, SEQUENCE)
    }
}
