//! Restoring the balance of a node.
ghost use Rattle.std.specs.Prelude.{◌≡◌, ◌<◌, ◌≤◌, ◌+◌, ◌*◌, ◌^◌, ◌∷◌, ◌++◌, length};
ghost use Rattle.chpw_ordered_keys.specs.Trees.{fork_keys, WereEven};

use crate::tree::{Fork, KeyTree};
use std::mem;

// Restores the balance after a change of one key in one of the sides. The count need not be right yet.
pub(crate) fn rebalance<K: Drop>(fork: Box<Fork<K>>) -> KeyTree<K>
    requires few { length fork.value.left + length fork.value.right + 1 < 2 ^ 32 }
    requires were { WereEven (length fork.value.left) (length fork.value.right) }
    ensures keys { result ≡ fork_keys fork.value }
{
    let (on_left, on_right) = (fork.left.len(), fork.right.len());
    if on_left > 3 * on_right + 2 {
        lean_left(fork)
    } else if on_right > 3 * on_left + 2 {
        lean_right(fork)
    } else {
        KeyTree::close(fork)
    }
}

// The left side is heavier, by what one key makes: its root comes to the top, or, if its inner side would be too heavy
// there, the root of that side does. What is taken out leaves an empty side, and a swap moves the inner keys into it,
// so that each node keeps its box.
fn lean_left<K: Drop>(mut fork: Box<Fork<K>>) -> KeyTree<K>
    requires few { length fork.value.left + length fork.value.right + 1 < 2 ^ 32 }
    requires heavier { 3 * length fork.value.right + 3 ≤ length fork.value.left }
    requires from_left { length fork.value.left ≤ 3 * length fork.value.right + 5 }
    ensures keys { result ≡ fork_keys fork.value }
{
    let Some(mut up) = fork.left.take() else {
        unreachable!()
    };
    if up.right.len() <= 2 * up.left.len() {
        mem::swap(&mut fork.left, &mut up.right);
        up.right = KeyTree::close(fork);
        return KeyTree::close(up);
    }
    let Some(mut middle) = up.right.take() else {
        unreachable!()
    };
    mem::swap(&mut up.right, &mut middle.left);
    mem::swap(&mut fork.left, &mut middle.right);
    middle.left = KeyTree::close(up);
    middle.right = KeyTree::close(fork);
    KeyTree::close(middle)
}

// The right side is heavier, by what one key makes: the mirror image of `lean_left`.
fn lean_right<K: Drop>(mut fork: Box<Fork<K>>) -> KeyTree<K>
    requires few { length fork.value.left + length fork.value.right + 1 < 2 ^ 32 }
    requires heavier { 3 * length fork.value.left + 3 ≤ length fork.value.right }
    requires from_right { length fork.value.right ≤ 3 * length fork.value.left + 5 }
    ensures keys { result ≡ fork_keys fork.value }
{
    let Some(mut up) = fork.right.take() else {
        unreachable!()
    };
    if up.left.len() <= 2 * up.right.len() {
        mem::swap(&mut fork.right, &mut up.left);
        up.left = KeyTree::close(fork);
        return KeyTree::close(up);
    }
    let Some(mut middle) = up.left.take() else {
        unreachable!()
    };
    mem::swap(&mut up.left, &mut middle.right);
    mem::swap(&mut fork.right, &mut middle.left);
    middle.left = KeyTree::close(fork);
    middle.right = KeyTree::close(up);
    KeyTree::close(middle)
}
