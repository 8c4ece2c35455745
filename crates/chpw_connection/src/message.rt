//! A message with its length before it, of which some bytes have come, or all.
ghost use Rattle.std.specs.Prelude.{◌≡◌, ◌≤◌, length, take};
ghost use Rattle.chpw_connection.specs.Messages.{wanted_after as wanted_of, whole_after as whole_of};

use chpw_frame::LONGEST_MESSAGE;

/// The bytes of a message's length.
const HEADER: usize = 4;

/// A message with its length, and no byte less or more; of one that is too long its length alone.
#[derive(Drop)]
pub struct WholeMessage {
    pub bytes: Vec<u8>,
    pub ghost whole: { length bytes.items ≡ whole_of bytes.items },
}

/// As many of these bytes as are wanted, from the front.
#[tactic(auto, using(crate::proofs::TakeLemmas::taken_whole))]
pub fn at_most(bytes: &[u8], wanted: usize) -> &[u8]
    ensures value { result.now ≡ take wanted bytes.now }
{
    if bytes.len() <= wanted {
        bytes
    } else {
        &bytes[..wanted]
    }
}

/// How many bytes are wanted after these of a message: the rest of its length, or of the message. A message that is too
/// long has only its length.
pub fn wanted_after(received: &[u8]) -> usize
    ensures value { result ≡ wanted_of received.now }
{
    match received.split_first_chunk::<HEADER>() {
        None => HEADER - received.len(),
        Some((header, body)) => {
            let length = u32::from_be_bytes(*header) as usize;
            if length > LONGEST_MESSAGE {
                0
            } else {
                length.saturating_sub(body.len())
            }
        }
    }
}

/// How many bytes a message has with its length, as far as that is known.
pub fn whole_after(received: &[u8]) -> usize
    ensures value { result ≡ whole_of received.now }
    ensures few { result ≤ 65539 }
{
    match received.first_chunk::<HEADER>() {
        None => HEADER,
        Some(header) => {
            let length = u32::from_be_bytes(*header) as usize;
            if length > LONGEST_MESSAGE {
                HEADER
            } else {
                HEADER + length
            }
        }
    }
}
