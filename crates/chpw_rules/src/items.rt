//! A `Vec` that contracts see as the list of its elements.
ghost use Rattle.std.specs.Prelude.{◌≡◌, IfOk};
ghost use Rattle.std.specs.Cmp.Lexicographic.{slice_cmp, slice_partial_cmp};

use std::alloc::{AllocError, Global};
use std::cmp::Ordering;
use std::marker::Model;

/// A `Vec` whose value, in contracts, is the list of its elements alone. So two records are equal if their elements
/// are, whatever the capacities of their vectors.
#[derive(Drop)]
pub struct Items<T> {
    vec: Vec<T>,
}

impl<T> Model for Items<T> {
    ghost use Rattle.std.specs.Prelude.{List};

    ghost Value = { List T };

    ghost view = { λ a. a.vec.items };
}

impl<T> Items<T> {
    /// The elements of the vector, which is kept.
    pub fn of(vec: Vec<T>) -> Items<T>
        ensures value { result ≡ vec.items }
    {
        Items { vec }
    }

    /// The elements, in their order.
    pub fn as_slice(&self) -> &[T]
        ensures value { result.now ≡ self.now }
    {
        self.vec.as_slice()
    }

    /// The allocator that the elements' memory comes from.
    pub(crate) fn allocator(&self) -> &Global {
        self.vec.allocator()
    }

    /// The vector of the elements.
    pub fn into_vec(self) -> Vec<T>
        ensures value { result.items ≡ self }
    {
        let Items { vec: items } = self;
        items
    }
}

impl Items<u8> {
    /// A copy of the bytes in new memory, from the same allocator.
    pub fn clone(&self) -> Result<Items<u8>, AllocError>
        ensures value { IfOk result (λ copy. copy ≡ self.now) }
    {
        Ok(Items::of(Vec::from_slice(*self.allocator(), self.as_slice())?))
    }
}

impl<T: PartialEq> PartialEq for Items<T> {
    ghost use Rattle.std.specs.Cmp.Lexicographic.{pointwise, lists_per};

    ghost eq = { pointwise T.eq };

    ghost laws = { lists_per T.laws };

    fn eq(&self, other: &Self) -> bool {
        self.as_slice() == other.as_slice()
    }
}

impl<T: Eq> Eq for Items<T> {
    ghost use Rattle.std.specs.Cmp.Lexicographic.{lists_equiv};

    ghost laws = { lists_equiv T.Eq.laws };
}

impl<T: PartialOrd> PartialOrd for Items<T> {
    ghost use Rattle.std.specs.Cmp.Lexicographic.{slice_partial_cmp, lists_po};

    ghost partial_cmp = { slice_partial_cmp T.partial_cmp };

    ghost laws = { lists_po T.PartialOrd.laws };

    fn partial_cmp(&self, other: &Self) -> Option<Ordering> {
        partial_order(self.as_slice(), other.as_slice())
    }
}

// The elements one by one, a prefix first.
impl<T: Ord> Ord for Items<T> {
    ghost use Rattle.std.specs.Cmp.Lexicographic.{slice_cmp, lists_total, lists_agrees, lists_ties};

    ghost cmp = { slice_cmp T.cmp };

    ghost total = { lists_total T.total };

    ghost matches_partial_cmp = { lists_agrees T.matches_partial_cmp };

    ghost matches_eq = { lists_ties T.cmp T.matches_eq };

    fn cmp(&self, other: &Self) -> Ordering {
        order(self.as_slice(), other.as_slice())
    }
}

fn partial_order<'a, T: PartialOrd>(left: &'a [T], right: &'a [T]) -> Option<Ordering>
    ensures value { result ≡ slice_partial_cmp T.partial_cmp left.now right.now }
{
    PartialOrd::partial_cmp(&left, &right)
}

fn order<'a, T: Ord>(left: &'a [T], right: &'a [T]) -> Ordering
    ensures value { result ≡ slice_cmp T.cmp left.now right.now }
{
    Ord::cmp(&left, &right)
}
