//! The random words of a request.
ghost use Rattle.std.specs.Prelude.{◌≡◌, ◌++◌};
ghost use Rattle.krb_msgs.specs.Making.{word_bytes};
ghost use Rattle.chpw_serve.specs.InTurn.{InTurn};
ghost use Rattle.chpw_client.specs.Words.{words_of};

use chpw_serve::{Words, next_words};
use krb_msgs::word_bytes;

/// The words of a request: 8 words for a key, 4 for a confounder.
#[derive(Clone, Copy, Drop)]
pub(crate) struct RequestWords {
    pub session: [u32; 8],
    pub subkey: [u32; 8],
    /// The confounders of ticket, authenticator and KRB-PRIV.
    pub ticket: [u32; 4],
    pub authenticator: [u32; 4],
    pub private: [u32; 4],
}

/// Draws them in turn.
pub(crate) fn draw_words<X: Words>(words: &mut X) -> RequestWords
    ensures words { InTurn X.gives words.old (words_of result) words.new }
{
    let session = next_words::<8, X>(words);
    let subkey = next_words::<8, X>(words);
    let ticket = next_words::<4, X>(words);
    let authenticator = next_words::<4, X>(words);
    let private = next_words::<4, X>(words);
    RequestWords {
        session,
        subkey,
        ticket,
        authenticator,
        private,
    }
}

/// Eight words as bytes.
pub(crate) fn key_bytes(words: [u32; 8]) -> [u8; 32]
    ensures value { result ≡ word_bytes words }
{
    join_halves(
        word_bytes([words[0], words[1], words[2], words[3]]),
        word_bytes([words[4], words[5], words[6], words[7]]),
    )
}

fn join_halves(first: [u8; 16], second: [u8; 16]) -> [u8; 32]
    ensures value { result ≡ first ++ second }
{
    let mut bytes = [0; 32];
    bytes[..16].copy_from_slice(&first);
    bytes[16..].copy_from_slice(&second);
    bytes
}
