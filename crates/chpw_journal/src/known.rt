//! Calls that compute nothing: each gives a proof what the type of its argument keeps.
ghost use Rattle.std.specs.Prelude.{◌≡◌, length};
ghost use Rattle.chpw_journal.specs.Compact.{HasOrder};
ghost use Rattle.chpw_journal.specs.Runs.{IsWholeKey};

use chpw_record::KeyRow;
use chpw_table::Table;

/// A table's names are in their order, each once.
pub fn know_order(table: &Table)
    ensures order { HasOrder table.now.state }
{
    let _ = table.name_at(0);
}

/// A key has the lengths of its type.
pub fn know_key(key: &KeyRow)
    ensures whole { IsWholeKey key.now }
{
    know_length(&key.aes128);
    know_length(&key.aes256);
}

// An array has as many bytes as its type says.
fn know_length<const N: usize>(bytes: &[u8; N])
    ensures length { length bytes.now ≡ N }
{}
