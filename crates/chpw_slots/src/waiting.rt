//! The slots whose messages wait, in the order in which they came, for each worker.
ghost use Rattle.std.specs.Prelude.{◌<◌, vec_len};

use std::alloc::{AllocError, Global};
use std::collections::VecDeque;

/// A queue of slots for each worker, at least one.
#[derive(Drop)]
pub struct Queues {
    queues: Vec<VecDeque<usize>>,
    ghost some: { 0 < vec_len queues },
}

impl Queues {
    ghost use Rattle.std.specs.Prelude.{◌≡◌, ◌≢◌, ◌==◌, ◌<◌, ◌%◌, ◌∷◌, ◌++◌, ℕ, [], length};
    ghost use Rattle.std.specs.Prelude.{drop, map, not, nat_lt, slice_index_or, true, false};
    ghost use Rattle.std.specs.Prelude.{if◌then◌else◌, IfSome, IfNone, IfOk, OnOk, MatchOption};
    ghost use Rattle.std.specs.VecDeque.{deque_len, deque_capacity, deque_items};
    ghost use Rattle.chpw_slots.specs.Waiting.{lists_of, queue_in, without, Becomes, HasRoomAt};

    /// Empty ones for this many workers, but at least one.
    pub fn new(alloc: Global, workers: usize, slots: usize) -> Result<Queues, AllocError>
        ensures workers { IfOk result (λ q. length (lists_of q) ≡ (if workers == 0 then 1 else workers)) }
        ensures empty { IfOk result (λ q. (worker : ℕ) → queue_in (lists_of q) worker ≡ []) }
    {
        let mut queues = Vec::with_capacity(alloc, workers)?;
        queues.push(VecDeque::with_capacity(alloc, slots)?)?;
        for _ in 1..workers {
            queues.push(VecDeque::with_capacity(alloc, slots)?)?;
        }
        Ok(Queues { queues })
    }

    /// The worker of the connection of this number.
    pub fn worker_of(&self, number: u64) -> usize
        ensures value { result ≡ number % length (lists_of self.now) }
        ensures within { result < length (lists_of self.now) }
    {
        number as usize % self.queues.len()
    }

    /// Whether a slot is in a worker's queue.
    pub fn has(&self, worker: usize) -> bool
        ensures value { result ≡ nat_lt 0 (length (queue_in (lists_of self.now) worker)) }
    {
        match self.queues.get(worker) {
            None => false,
            Some(queue) => !queue.is_empty(),
        }
    }

    /// The slot at the front of a worker's queue.
    pub fn first(&self, worker: usize) -> Option<usize>
        ensures some { IfSome result (λ slot. queue_in (lists_of self.now) worker ≡ slot ∷ drop 1 (queue_in (lists_of self.now) worker)) }
        ensures none { IfNone result (queue_in (lists_of self.now) worker ≡ []) }
    {
        self.queues.get(worker)?.front().copied()
    }

    /// Makes room for one more slot in a worker's queue; whether there is.
    pub fn reserve(&mut self, worker: usize) -> bool
        requires within { worker < length (lists_of self.old) }
        ensures same { lists_of self.new ≡ lists_of self.old }
        ensures room { result ≡ true → HasRoomAt self.new worker }
    {
        self.queues[worker].reserve(1).is_ok()
    }

    /// Puts a slot at the end of a worker's queue, which has room for it.
    pub fn put(&mut self, worker: usize, slot: usize)
        requires within { worker < length (lists_of self.old) }
        requires room { HasRoomAt self.old worker }
        ensures becomes { Becomes (lists_of self.old) (lists_of self.new) worker (queue_in (lists_of self.old) worker ++ slot ∷ []) }
    {
        self.queues[worker].push_back_reserved(slot);
    }

    /// Takes the slot at the front of a worker's queue out of it.
    pub fn drop_first(&mut self, worker: usize)
        requires within { worker < length (lists_of self.old) }
        ensures becomes { Becomes (lists_of self.old) (lists_of self.new) worker (drop 1 (queue_in (lists_of self.old) worker)) }
    {
        self.queues[worker].pop_front();
    }

    /// Takes the slot of the connection of this number out of its worker's queue; does nothing without a number.
    pub fn leave(&mut self, number: Option<u64>, slot: usize)
        ensures leaves { MatchOption number (lists_of self.new ≡ lists_of self.old) (λ n.
            Becomes (lists_of self.old) (lists_of self.new) (n % length (lists_of self.old))
            (without slot (queue_in (lists_of self.old) (n % length (lists_of self.old))))) }
    {
        if let Some(number) = number {
            let worker = self.worker_of(number);
            self.remove(worker, slot);
        }
    }

    // Takes a slot out of a worker's queue.
    fn remove(&mut self, worker: usize, slot: usize)
        requires within { worker < length (lists_of self.old) }
        ensures becomes { Becomes (lists_of self.old) (lists_of self.new) worker (without slot (queue_in (lists_of self.old) worker)) }
    {
        self.queues[worker].retain(|queued| *queued != slot);
    }
}
