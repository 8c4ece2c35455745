//! What is published of a principal's keys.
ghost use Rattle.std.specs.Prelude.{◌≡◌, ◌≤◌, Option, Some, None};
ghost use Rattle.chpw_snapshots.specs.Rows.{keys_after, with_key};

use chpw_changelog::KeysChange;
use chpw_table::{Counts, newest};

/// What is published of a principal's keys. Its size is fixed, so that a change takes no memory.
#[derive(Drop)]
pub struct KeysShown {
    /// The kvno of its newest keys.
    pub kvno: u32,
    /// The iteration counts of its keys, newest first.
    pub counts: Counts,
}

impl KeysShown {
    // A key in front of these counts, of which the newest are kept.
    fn with_key(kept: u8, kvno: u32, count: u32, counts: &[u32]) -> KeysShown
        requires kept { (1 ≤ kept) × (kept ≤ 16) }
        ensures value { result ≡ with_key kept kvno count counts.now }
    {
        let mut all = Counts::new();
        let _ = all.push(count);
        all.extend(newest(counts, usize::from(kept) - 1));
        KeysShown { kvno, counts: all }
    }

    fn after(self, kept: u8, change: KeysChange) -> Option<KeysShown>
        requires kept { (1 ≤ kept) × (kept ≤ 16) }
        ensures value { result ≡ keys_after kept change (Some self) }
    {
        match change {
            KeysChange::Key { kvno, count } | KeysChange::Adopted { kvno, count } => {
                Some(KeysShown::with_key(kept, kvno, count, self.counts.as_slice()))
            }
            KeysChange::Lifted(kvno) => Some(KeysShown {
                kvno,
                counts: self.counts,
            }),
            KeysChange::Removed => None,
        }
    }

    // The keys of a name of which nothing is shown, after a change.
    fn first(kept: u8, change: KeysChange) -> Option<KeysShown>
        requires kept { (1 ≤ kept) × (kept ≤ 16) }
        ensures value { result ≡ keys_after kept change None }
    {
        match change {
            KeysChange::Adopted { kvno, count } => Some(KeysShown::with_key(
                kept,
                kvno,
                count,
                &[],
            )),
            _ => None,
        }
    }

    // What is shown after a change; `kept` counts are kept, 1 to 16.
    pub(crate) fn change(shown: &mut Option<KeysShown>, kept: u8, change: KeysChange)
        requires kept { (1 ≤ kept) × (kept ≤ 16) }
        ensures value { shown.new ≡ keys_after kept change shown.old }
    {
        *shown = match shown.take() {
            Some(keys) => keys.after(kept, change),
            None => KeysShown::first(kept, change),
        };
    }
}
