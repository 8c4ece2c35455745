//! Whether keys are the same.
ghost use Rattle.std.specs.Prelude.{◌≡◌, ◌↔◌, IsTrue};

use chpw_record::KeyRow;
use krb_keys::are_equal;

/// Whether the keys are the same, row by row: version, iteration count and both keys.
pub fn are_same_keys(keys: &[KeyRow], others: &[KeyRow]) -> bool
    ensures value { IsTrue result ↔ keys.now ≡ others.now }
{
    if keys.len() != others.len() {
        return false;
    }
    for place in 0..keys.len() {
        if !is_same_key(&keys[place], &others[place]) {
            return false;
        }
    }
    true
}

pub(crate) fn is_same_key(key: &KeyRow, other: &KeyRow) -> bool
    ensures value { IsTrue result ↔ key.now ≡ other.now }
{
    key.kvno == other.kvno
        && key.count == other.count
        && are_equal(&key.aes128, &other.aes128)
        && are_equal(&key.aes256, &other.aes256)
}
