//! AES on one block (FIPS 197 sections 5.1 and 5.3).

ghost use Rattle.std.specs.Prelude.{◌≡◌, ◌+◌, ◌-◌, ◌*◌, ◌/◌, ◌<◌, ◌≤◌, ◌||◌, nat_eq, IsTrue, length, take, drop, Some, None, if◌then◌else◌};
ghost use Rattle.krb_aes.specs.Bytes.{xor_bytes};
ghost use Rattle.krb_aes.specs.KeyExpansion.{IsKey, is_key_length};
ghost use Rattle.krb_aes.specs.Aes.{sub_bytes, shift_rows, mix_columns, inv_sub_bytes, inv_shift_rows, inv_mix_columns, add_round_key};
ghost use Rattle.krb_aes.specs.Aes.{cipher, inv_cipher, aes, unaes};
ghost use Rattle.krb_aes.specs.EquivalentInverse.{IsKeyExpansionEic};

use crate::BLOCK_LEN;
use crate::column::{add_key_column, inv_sub_and_mix_column, sub_and_mix_column};
use crate::field::{inv_sub_byte, sub_byte};
use crate::key_schedule::{SCHEDULE_LEN, key_expansion, round_count};
use crate::xor::xor_into;
use std::marker::Model;

// The bytes of a block, column by column.
type State = [u8; BLOCK_LEN];

// SubBytes and ShiftRows.
fn sub_bytes_and_shift_rows(state: &State) -> State
    ensures { result ≡ shift_rows (sub_bytes state.now) }
{
    let mut out = [0; BLOCK_LEN];
    for k in 0..BLOCK_LEN {
        out[k] = sub_byte(state[(k + 4 * (k % 4)) % BLOCK_LEN]);
    }
    out
}

// InvShiftRows and InvSubBytes.
fn inv_shift_rows_and_sub_bytes(state: &State) -> State
    ensures { result ≡ inv_sub_bytes (inv_shift_rows state.now) }
{
    let mut out = [0; BLOCK_LEN];
    for k in 0..BLOCK_LEN {
        out[k] = inv_sub_byte(state[(k + 12 * (k % 4)) % BLOCK_LEN]);
    }
    out
}

// AddRoundKey.
fn add_round_key(words: &[u8; SCHEDULE_LEN], round: usize, state: &mut State)
    requires { round < 15 }
    ensures { state.new ≡ add_round_key words.now round state.old }
{
    xor_into(
        state,
        &words[BLOCK_LEN * round..BLOCK_LEN * round + BLOCK_LEN],
    );
}

// The words of round `round` in a schedule.
fn round_key(words: &[u8; SCHEDULE_LEN], round: usize) -> State
    requires { round < 15 }
    ensures { result ≡ take 16 (drop (16 * round) words.now) }
{
    let mut key = [0; BLOCK_LEN];
    key.copy_from_slice(&words[BLOCK_LEN * round..BLOCK_LEN * round + BLOCK_LEN]);
    key
}

// SubBytes, ShiftRows, MixColumns and AddRoundKey, a column of four bytes at a time. The key is
// added to a column while it is a word: adding it to the whole state afterwards takes half as long
// again.
fn enciphering_round(state: &State, key: &State) -> State
    ensures { result ≡ xor_bytes (mix_columns (shift_rows (sub_bytes state.now))) key.now }
{
    let [a0, a1, a2, a3] = add_key_column(
        sub_and_mix_column(state[0], state[5], state[10], state[15]),
        &[key[0], key[1], key[2], key[3]],
    );
    let [b0, b1, b2, b3] = add_key_column(
        sub_and_mix_column(state[4], state[9], state[14], state[3]),
        &[key[4], key[5], key[6], key[7]],
    );
    let [c0, c1, c2, c3] = add_key_column(
        sub_and_mix_column(state[8], state[13], state[2], state[7]),
        &[key[8], key[9], key[10], key[11]],
    );
    let [d0, d1, d2, d3] = add_key_column(
        sub_and_mix_column(state[12], state[1], state[6], state[11]),
        &[key[12], key[13], key[14], key[15]],
    );
    [
        a0, a1, a2, a3, b0, b1, b2, b3, c0, c1, c2, c3, d0, d1, d2, d3,
    ]
}

// InvShiftRows, InvSubBytes and InvMixColumns, and the key added, likewise.
fn deciphering_round(state: &State, key: &State) -> State
    ensures { result ≡ xor_bytes (inv_mix_columns (inv_sub_bytes (inv_shift_rows state.now))) key.now }
{
    let [a0, a1, a2, a3] = add_key_column(
        inv_sub_and_mix_column(state[0], state[13], state[10], state[7]),
        &[key[0], key[1], key[2], key[3]],
    );
    let [b0, b1, b2, b3] = add_key_column(
        inv_sub_and_mix_column(state[4], state[1], state[14], state[11]),
        &[key[4], key[5], key[6], key[7]],
    );
    let [c0, c1, c2, c3] = add_key_column(
        inv_sub_and_mix_column(state[8], state[5], state[2], state[15]),
        &[key[8], key[9], key[10], key[11]],
    );
    let [d0, d1, d2, d3] = add_key_column(
        inv_sub_and_mix_column(state[12], state[9], state[6], state[3]),
        &[key[12], key[13], key[14], key[15]],
    );
    [
        a0, a1, a2, a3, b0, b1, b2, b3, c0, c1, c2, c3, d0, d1, d2, d3,
    ]
}

// Cipher, of `rounds` rounds. Were it inlined where the block is a local, LLVM would keep the block
// in a vector register and take out each byte, at near twice the cost.
#[inline(never)]
fn cipher(words: &[u8; SCHEDULE_LEN], rounds: usize, block: &mut State)
    requires low { 1 ≤ rounds }
    requires high { rounds < 15 }
    ensures { block.new ≡ cipher words.now rounds block.old }
{
    add_round_key(words, 0, block);
    for round in 1..rounds {
        *block = enciphering_round(block, &round_key(words, round));
    }
    *block = sub_bytes_and_shift_rows(block);
    add_round_key(words, rounds, block);
}

// InvMixColumns: a deciphering round under zeros, whose other steps undo the substitution.
fn inv_mix_columns(state: &State) -> State
    ensures { result ≡ inv_mix_columns state.now }
{
    deciphering_round(&sub_bytes_and_shift_rows(state), &[0; BLOCK_LEN])
}

// The words of the equivalent inverse cipher (section 5.3.5), of `rounds` rounds. Those of the
// first and the last key addition are those of the schedule.
fn key_expansion_eic(words: &[u8; SCHEDULE_LEN], rounds: usize) -> [u8; SCHEDULE_LEN]
    requires { rounds < 15 }
    ensures { IsKeyExpansionEic result words.now rounds }
{
    let mut back = *words;
    for round in 1..rounds {
        let key = inv_mix_columns(&round_key(words, round));
        back[BLOCK_LEN * round..BLOCK_LEN * round + BLOCK_LEN].copy_from_slice(&key);
    }
    back
}

// InvCipher, of `rounds` rounds, by the equivalent inverse cipher. As `cipher` it is never
// inlined.
#[inline(never)]
fn eq_inv_cipher(
    words: &[u8; SCHEDULE_LEN],
    back: &[u8; SCHEDULE_LEN],
    rounds: usize,
    block: &mut State,
)
    requires low { 1 ≤ rounds }
    requires high { rounds < 15 }
    requires back { IsKeyExpansionEic back.now words.now rounds }
    ensures { block.new ≡ inv_cipher words.now rounds block.old }
{
    add_round_key(words, rounds, block);
    for round in (1..rounds).rev() {
        *block = deciphering_round(block, &round_key(back, round));
    }
    *block = inv_shift_rows_and_sub_bytes(block);
    add_round_key(words, 0, block);
}

/// AES under a key of 16 or 32 bytes. Contracts see it as the key's bytes.
#[derive(Drop)]
pub struct Aes {
    // The key schedule. It begins with the key.
    words: [u8; SCHEDULE_LEN],
    // The words of the equivalent inverse cipher.
    back: [u8; SCHEDULE_LEN],
    key_len: usize,
}

impl Model for Aes {
    ghost use Rattle.std.specs.Prelude.{◌≡◌, ◌+◌, ◌*◌, ℕ, List, IsTrue, take};
    ghost use Rattle.krb_aes.specs.Bytes.{AreBytes};
    ghost use Rattle.krb_aes.specs.KeyExpansion.{is_key_length, rounds_of, key_expansion};
    ghost use Rattle.krb_aes.specs.EquivalentInverse.{IsKeyExpansionEic};

    ghost Value = { List ℕ };

    ghost view = { λ a. take a.key_len a.words };

    ghost invariant = { λ a. IsTrue (is_key_length a.key_len) × AreBytes (take a.key_len a.words)
        × (take (16 * (rounds_of a.key_len + 1)) a.words ≡ key_expansion (take a.key_len a.words))
        × IsKeyExpansionEic a.back a.words (rounds_of a.key_len) };
}

impl Aes {
    /// The cipher under `key`, of 16 or 32 bytes, with its key schedule (FIPS 197 section 5.2).
    pub fn of(key: &[u8]) -> Aes
        requires { IsTrue (is_key_length (length key.now)) }
        ensures value { result ≡ key.now }
    {
        let words = key_expansion(key);
        Aes {
            words,
            back: key_expansion_eic(&words, round_count(key.len())),
            key_len: key.len(),
        }
    }

    /// The cipher under `key`. None unless the key has 16 or 32 bytes.
    pub fn new(key: &[u8]) -> Option<Aes>
        ensures value { result ≡ (if is_key_length (length key.now) then Some key.now else None) }
    {
        if key.len() != 16 && key.len() != 32 {
            return None;
        }
        Some(Aes::of(key))
    }

    /// Enciphers the block in place (FIPS 197 section 5.1).
    pub fn encrypt_block(&self, block: &mut [u8; BLOCK_LEN])
        ensures key { IsKey self.now }
        ensures value { block.new ≡ aes self.now block.old }
    {
        cipher(&self.words, round_count(self.key_len), block);
    }

    /// Deciphers the block in place (FIPS 197 section 5.3).
    pub fn decrypt_block(&self, block: &mut [u8; BLOCK_LEN])
        ensures key { IsKey self.now }
        ensures value { block.new ≡ unaes self.now block.old }
    {
        eq_inv_cipher(&self.words, &self.back, round_count(self.key_len), block);
    }
}
