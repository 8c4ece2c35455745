//! A search tree, seen as its keys in order.
ghost use Rattle.std.specs.Prelude.{◌≡◌, ◌≤◌, ◌<◌, ◌+◌, ◌*◌, ◌^◌, [], ◌∷◌, ◌++◌, IfOk, IfSome, IfNone, length, option_copied, slice_get};
ghost use Rattle.std.specs.List.{list_any};
ghost use Rattle.std.specs.List.Sorted.{IsStrictlySortedBy};
ghost use Rattle.std.specs.Ordering.{eq_by_cmp};
ghost use Rattle.std.specs.Option.{option_to_list};
ghost use Rattle.chpw_ordered_keys.specs.Trees.{keys, fork_keys, IsEven, AreEven, with_first};

use crate::balance::rebalance;
use std::alloc::{AllocError, Global};
use std::cmp::Ordering;
use std::marker::Model;

/// Stands for a key in a search, without owning one.
pub trait Probe<K: Ord> {
    /// The key that it stands for.
    ghost key: { Self → K };

    /// How that key compares with this one.
    fn compare(&self, other: &K) -> Ordering
        ensures { result ≡ K.cmp (key self.now) other.now };
}

/// A search tree. A tree of one key is made with memory; putting it into another takes none.
///
/// A key takes one box, and an empty tree none.
///
/// Contracts see the keys, from left to right. The tree is weight-balanced: neither side of a node, counted with one
/// more, has more than three times the other's keys, counted likewise; a step down leaves three quarters at most, and a
/// key is found in logarithmic time.
#[cycle(tree)]
#[derive(Drop)]
pub struct KeyTree<K> {
    root: Option<Box<Fork<K>>>,
}

#[cycle(tree)]
#[derive(Drop)]
pub(crate) struct Fork<K> {
    pub(crate) left: KeyTree<K>,
    key: K,
    // How many keys there are, on both sides and in the node.
    count: usize,
    pub(crate) right: KeyTree<K>,
}

impl<K> Model for KeyTree<K> {
    ghost use Rattle.std.specs.Prelude.{List, length};

    ghost Value = { List K };

    ghost use Rattle.chpw_ordered_keys.specs.Trees.{keys, IsCounted, IsEven};

    ghost view = { λ a. keys a.root };

    ghost invariant = { λ a. IsCounted a.root × IsEven a.root };

    ghost size = { length };

    ghost use Rattle.std.proofs.Common.{arith, length-append};

    ghost size_decreases = { λ a h. Prim.grind (arith, length-append) };
}

impl<K: Drop> KeyTree<K> {
    pub fn new() -> KeyTree<K>
        ensures empty { result ≡ [] }
    {
        KeyTree { root: None }
    }

    /// A tree of one key, with all its memory.
    pub fn of(alloc: Global, key: K) -> Result<KeyTree<K>, AllocError>
        ensures value { IfOk result (λ tree. tree ≡ key ∷ []) }
    {
        let fork = Fork {
            left: KeyTree::new(),
            key,
            count: 1,
            right: KeyTree::new(),
        };
        Ok(KeyTree {
            root: Some(Box::new(alloc, fork)?),
        })
    }

    pub fn len(&self) -> usize
        ensures value { result ≡ length self.now }
    {
        match &self.root {
            None => 0,
            Some(fork) => fork.count,
        }
    }

    // Takes the node at the root out, with all its keys.
    pub(crate) fn take(&mut self) -> Option<Box<Fork<K>>>
        ensures keys { keys result ≡ self.old }
        ensures even { IsEven result }
        ensures empty { self.new ≡ [] }
    {
        self.root.take()
    }

    // The tree of a node whose sides are balanced. The count need not be right yet.
    pub(crate) fn close(mut fork: Box<Fork<K>>) -> KeyTree<K>
        requires few { length fork.value.left + length fork.value.right + 1 < 2 ^ 32 }
        requires even { AreEven (length fork.value.left) (length fork.value.right) }
        ensures keys { result ≡ fork_keys fork.value }
    {
        fork.count = fork.left.len() + fork.right.len() + 1;
        KeyTree { root: Some(fork) }
    }

    /// How many keys are on the longest way down, which a search compares at most: no more than the logarithm of their
    /// number plus one to the base 4/3, and no less than that to the base 2.
    pub fn depth(&self) -> usize
        requires few { length self.now < 2 ^ 32 }
        ensures deep { 4 ^ result ≤ 3 ^ result * (length self.now + 1) }
        ensures few { result ≤ length self.now }
        ensures room { length self.now + 1 ≤ 2 ^ result }
    {
        let Some(fork) = &self.root else {
            return 0;
        };
        let (on_left, on_right) = (fork.left.depth(), fork.right.depth());
        if on_left < on_right {
            on_right + 1
        } else {
            on_left + 1
        }
    }

    pub fn first(&self) -> Option<&K>
        ensures value { option_copied result ≡ slice_get self.now 0 }
    {
        match &self.root {
            None => None,
            Some(fork) => match fork.left.first() {
                None => Some(&fork.key),
                found => found,
            },
        }
    }

    /// The key at a place in their order, from 0; none from their number on.
    pub fn get(&self, place: usize) -> Option<&K>
        ensures value { option_copied result ≡ slice_get self.now place }
    {
        let Some(fork) = &self.root else {
            return None;
        };
        let before = fork.left.len();
        if place < before {
            fork.left.get(place)
        } else if place == before {
            Some(&fork.key)
        } else {
            fork.right.get(place - before - 1)
        }
    }

    /// Takes the first key out.
    pub fn pop_first(&mut self) -> Option<K>
        requires few { length self.old < 2 ^ 32 }
        ensures value { self.old ≡ option_to_list result ++ self.new }
        ensures none { IfNone result (self.old ≡ []) }
    {
        let mut fork = self.take()?;
        match fork.left.pop_first() {
            None => {
                let Fork { key, right, .. } = Box::into_inner(fork);
                *self = right;
                Some(key)
            }
            found => {
                *self = rebalance(fork);
                found
            }
        }
    }
}

impl<K: Ord + Drop> KeyTree<K> {
    /// Whether the tree has the key that the probe stands for.
    pub fn has<P: Probe<K>>(&self, probe: &P) -> bool
        requires sorted { IsStrictlySortedBy K.cmp self.now }
        ensures value { result ≡ list_any (eq_by_cmp K.cmp (P.key probe.now)) self.now }
    {
        match &self.root {
            None => false,
            Some(fork) => match probe.compare(&fork.key) {
                Ordering::Less => fork.left.has(probe),
                Ordering::Equal => true,
                Ordering::Greater => fork.right.has(probe),
            },
        }
    }

    /// Inserts the key of another tree, which has at most one, unless it is present. It takes no memory.
    pub fn put(&mut self, other: KeyTree<K>)
        requires sorted { IsStrictlySortedBy K.cmp self.old }
        requires one { length other ≤ 1 }
        requires few { length self.old + 1 < 2 ^ 32 }
        ensures value { self.new ≡ with_first K.cmp self.old other }
    {
        let Some(single) = &other.root else {
            return;
        };
        // The other tree's box takes the place of the empty tree.
        let Some(mut fork) = self.take() else {
            *self = other;
            return;
        };
        match single.key.cmp(&fork.key) {
            Ordering::Less => fork.left.put(other),
            Ordering::Equal => {}
            Ordering::Greater => fork.right.put(other),
        }
        *self = rebalance(fork);
    }
}
