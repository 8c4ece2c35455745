//! Numbers as they are printed.
ghost use Rattle.std.specs.Prelude.{◌≡◌, ◌++◌, true, OnOk};
ghost use Rattle.std.specs.Fmt.{decimal, signed_decimal};
ghost use Rattle.chpw_printing.specs.Quoting.{is_field, number_text};

use std::alloc::AllocError;

/// Puts a number at the end, in decimal digits.
#[tactic(auto, using(crate::proofs::QuotingLemmas::decimal_field))]
pub fn put_number(text: &mut Vec<u8>, number: u64) -> Result<(), AllocError>
    ensures value { OnOk result (text.new.items ≡ text.old.items ++ decimal number) }
    ensures field { is_field (decimal number) ≡ true }
{
    let digits = number.to_string(*text.allocator())?;
    text.extend_from_slice(digits.as_bytes())
}

/// Puts a number at the end, in decimal digits, a negative one after `-`.
#[tactic(auto, using(crate::proofs::QuotingLemmas::signed_field))]
pub fn put_signed(text: &mut Vec<u8>, number: i64) -> Result<(), AllocError>
    ensures value { OnOk result (text.new.items ≡ text.old.items ++ signed_decimal number) }
    ensures field { is_field (signed_decimal number) ≡ true }
{
    let digits = number.to_string(*text.allocator())?;
    text.extend_from_slice(digits.as_bytes())
}

/// Adds a space and a number.
pub fn put_after_space(text: &mut Vec<u8>, number: u32) -> Result<(), AllocError>
    ensures value { OnOk result (text.new.items ≡ text.old.items ++ number_text number) }
{
    text.push(b' ')?;
    put_number(text, u64::from(number))
}
