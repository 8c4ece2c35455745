//! The rounds of the reactor: over the slots that are noted, and over all slots, when one is due, and in which order it
//! goes.
ghost use Rattle.std.specs.Prelude.{◌≡◌, ◌<◌, ◌-◌, ◌++◌, ℕ, List, Option, IfSome, length, nat_le};
ghost use Rattle.chpw_transfers.specs.Rounds.{comes_at, LooksAtFirst};

use crate::state::TICK;

/// What looks at slots that are noted for it.
pub trait Noting {
    /// The slots that are noted, the first first, if they are known.
    ghost noted: { Self → Option (List ℕ) };

    /// Those that were looked at, the first first.
    ghost looked_at: { Self → List ℕ };

    /// How many are noted.
    fn count(&self) -> usize
        ensures count { IfSome (noted self.now) (λ slots. result ≡ length slots) };

    /// Looks at the first that is noted, which isn't noted any longer. More may be noted meanwhile, behind the others.
    fn look_at_first(&mut self)
        ensures first { LooksAtFirst (noted self.old) (noted self.new) (looked_at self.old) (looked_at self.new) };
}

/// Looks at each slot that is noted when the round begins, in order, and at no other: what is noted meanwhile waits for
/// the next round.
pub fn look_at_noted<N: Noting>(noting: &mut N)
    ensures each { IfSome (N.noted noting.old) (λ slots. N.looked_at noting.new ≡ N.looked_at noting.old ++ slots) }
{
    for _ in 0..noting.count() {
        noting.look_at_first();
    }
}

/// Whether a round over all is due, if the last one was at the first of these moments.
pub fn is_round_due(last: u64, now: u64) -> bool
    ensures value { result ≡ nat_le 100 (now - last) }
{
    now.saturating_sub(last) >= TICK
}

/// Which of this many slots comes at a turn of a round that begins at `first`: those from there on, and then those
/// before it.
#[tactic(auto, using(crate::proofs::RoundLemmas::has_turn))]
pub fn slot_at_turn(first: usize, slots: usize, turn: usize) -> usize
    ensures value { result ≡ comes_at first slots turn }
    ensures within { turn < slots → result < slots }
    ensures each { (slot : ℕ) → slot < slots → (t : ℕ) × (t < slots) × (comes_at first slots t ≡ slot) }
{
    let behind = slots.saturating_sub(first);
    if turn < behind {
        first + turn
    } else {
        turn - behind
    }
}
