//! Words of a case, in whichever topic.

use std::str::FromStr;
use support_cases::Fault;

/// A number in decimal digits, or whatever else has a text.
pub fn parsed<N: FromStr>(word: &str) -> Result<N, Fault>
where
    N::Err: Drop,
{
    match word.parse() {
        Ok(number) => Ok(number),
        Err(_) => Err(Fault::NoSuchCase),
    }
}
