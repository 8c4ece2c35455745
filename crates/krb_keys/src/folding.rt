//! n-fold (RFC 3961 section 5.1).
ghost use Rattle.std.specs.Prelude.{◌≡◌, ℕ, ◌+◌, ◌-◌, ◌*◌, ◌/◌, ◌%◌, ◌^◌, ◌<◌, ◌≤◌, length, take, drop, slice_index};
ghost use Rattle.krb_keys.specs.Nfold.{value, copy, copy_count, joined, ones_complement, nfold};

/// The most bytes that `nfold` takes and returns.
pub const FOLD_MAX_LEN: usize = 1024;

// The bits by which each copy of the input is rotated right from the one before.
const ROTATION: usize = 13;

// How many copies of `len` bytes make up whole parts of `part_len` bytes.
fn copy_count(len: usize, part_len: usize) -> usize
    requires some_bytes { 1 ≤ len }
    requires short { len ≤ FOLD_MAX_LEN }
    requires some_part { 1 ≤ part_len }
    requires short_part { part_len ≤ FOLD_MAX_LEN }
    ensures value { result ≡ copy_count len part_len }
    ensures short { result ≤ part_len }
{
    for count in 1..part_len {
        if count * len % part_len == 0 {
            return count;
        }
    }
    part_len
}

// Byte `place` of copy `turns` of the input.
fn rotated_byte(input: &[u8], turns: usize, place: usize) -> u8
    requires few { turns < FOLD_MAX_LEN * FOLD_MAX_LEN }
    requires short { length input.now ≤ FOLD_MAX_LEN }
    requires inside { place < length input.now }
    ensures { result ≡ slice_index (copy input.now turns) place }
{
    let len = input.len();
    // The byte's lowest bit, counted from the low end of the input written twice.
    let low = ROTATION * turns % (8 * len) + 8 * (len - 1 - place);
    let left = input[(2 * len - 2 - low / 8) % len];
    let right = input[(2 * len - 1 - low / 8) % len];
    let pair = u16::from(left) * 256 + u16::from(right);
    ((pair >> (low % 8)) % 256) as u8
}

// Takes the bytes from `start` on out of the joined copies.
fn take_part(input: &[u8], start: usize, part: &mut [u8])
    requires some { 1 ≤ length input.now }
    requires short_input { length input.now ≤ FOLD_MAX_LEN }
    requires short_text { length (joined input.now (length part.old))
        ≤ FOLD_MAX_LEN * FOLD_MAX_LEN }
    requires inside { start + length part.old ≤ length (joined input.now (length part.old)) }
    ensures { part.new ≡ take (length part.old) (drop start (joined input.now (length part.old))) }
{
    let len = input.len();
    for k in 0..part.len() {
        let place = start + k;
        part[k] = rotated_byte(input, place / len, place % len);
    }
}

// Adds `part` to `sum`, as numbers of as many bytes, and returns the carry.
fn add_bytes(sum: &mut [u8], part: &[u8]) -> u16
    requires { length sum.old ≡ length part.now }
    ensures small { result ≤ 1 }
    ensures total { value sum.new + result * 256 ^ length part.now
        ≡ value sum.old + value part.now }
{
    let mut carry = 0;
    for k in (0..part.len()).rev() {
        let total = u16::from(sum[k]) + u16::from(part[k]) + carry;
        sum[k] = (total % 256) as u8;
        carry = total / 256;
    }
    carry
}

// Adds a carry at the low end.
fn add_carry(sum: &mut [u8], carry: u16)
    requires small { carry ≤ 1 }
    requires fits { value sum.old + carry < 256 ^ length sum.old }
    ensures { value sum.new ≡ value sum.old + carry }
{
    let mut left = carry;
    for k in (0..sum.len()).rev() {
        let total = u16::from(sum[k]) + left;
        sum[k] = (total % 256) as u8;
        left = total / 256;
    }
}

// Adds `part` to `sum` in ones' complement.
fn add_part(sum: &mut [u8], part: &[u8])
    requires some { 1 ≤ length part.now }
    requires alike { length sum.old ≡ length part.now }
    ensures { (s : ℕ) → value sum.old ≡ ones_complement (256 ^ length part.now - 1) s
        → value sum.new ≡ ones_complement (256 ^ length part.now - 1) (s + value part.now) }
{
    let carry = add_bytes(sum, part);
    add_carry(sum, carry);
}

/// Fills `out` with the n-fold of `input`, n being the bits of `out` (RFC 3961 section 5.1).
///
/// Both have 1 to 1024 bytes.
pub fn nfold(input: &[u8], out: &mut [u8])
    requires some_input { 1 ≤ length input.now }
    requires short_input { length input.now ≤ FOLD_MAX_LEN }
    requires some_output { 1 ≤ length out.old }
    requires short_output { length out.old ≤ FOLD_MAX_LEN }
    ensures value { out.new ≡ nfold input.now (length out.old) }
{
    let len = out.len();
    let part_count = copy_count(input.len(), len) * input.len() / len;
    let mut buffer = [0; FOLD_MAX_LEN];
    let part = &mut buffer[..len];
    out.fill(0);
    for p in 0..part_count {
        take_part(input, len * p, part);
        add_part(out, part);
    }
}
