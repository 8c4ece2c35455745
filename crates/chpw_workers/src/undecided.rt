//! Messages that are opened and not decided.
ghost use Rattle.std.specs.Prelude.{◌≡◌};
ghost use Rattle.chpw_serve.specs.Holding.{answer_in};
ghost use Rattle.chpw_workers.specs.Undecided.{kdc_out_of_reach};

use chpw_endpoints::Endpoints;
use chpw_serve::{Messages, OpenResult, Seal};
use chpw_table::Moment;
use krb_protocol::Refusal;
use krb_protocol::codes::{KRB_ERR_GENERIC, KRB5_KPASSWD_HARDERROR};
use std::alloc::{AllocError, Global};

/// A service's realm and keys while the KDC is out of reach: a request that opens is refused.
#[derive(Drop)]
pub(crate) struct WithoutKdc<'a, M> {
    pub messages: &'a M,
}

impl<'a, M: Messages> Messages for WithoutKdc<'a, M> {
    ghost use Rattle.chpw_workers.specs.Undecided.{OpensUndecided};

    ghost opens = { λ s. OpensUndecided (M.opens s.messages.now) };

    ghost error_frame = { λ s. M.error_frame s.messages.now };

    ghost private_frame = { λ s. M.private_frame s.messages.now };

    fn realm(&self) -> &[u8] {
        self.messages.realm()
    }

    fn open(
        &self,
        alloc: Global,
        ends: Endpoints,
        message: &[u8],
    ) -> Result<OpenResult, AllocError> {
        match self.messages.open(alloc, ends, message)? {
            OpenResult::Opened(_) => Ok(OpenResult::Refused(kdc_out_of_reach())),
            OpenResult::Refused(refusal) => Ok(OpenResult::Refused(refusal)),
        }
    }

    fn make_error(
        &self,
        alloc: Global,
        refusal: Refusal,
        now: Moment,
    ) -> Result<Vec<u8>, AllocError> {
        self.messages.make_error(alloc, refusal, now)
    }

    fn make_private(
        &self,
        alloc: Global,
        seal: &Seal,
        code: u16,
        text: &str,
        words: [u32; 9],
    ) -> Result<Vec<u8>, AllocError> {
        self.messages.make_private(alloc, seal, code, text, words)
    }
}

/// The answer to a request that isn't decided.
fn kdc_out_of_reach() -> Refusal
    ensures value { answer_in result ≡ kdc_out_of_reach }
{
    Refusal {
        code: KRB5_KPASSWD_HARDERROR,
        error: KRB_ERR_GENERIC,
        text: "KDC out of reach",
    }
}
