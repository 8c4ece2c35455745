//! The line for a change that the KDC hasn't confirmed.
ghost use Rattle.std.specs.Prelude.{◌≡◌, ◌++◌, ◌<◌, codes, true, IfOk, OnOk};
ghost use Rattle.std.specs.Fmt.{decimal};
ghost use Rattle.chpw_printing.specs.Quoting.{are_printed, is_field};
ghost use Rattle.chpw_table.specs.Times.{IsMoment};
ghost use Rattle.chpw_log.specs.Lines.{IsRecord, address_text, are_fields};
ghost use Rattle.chpw_log.specs.Moments.{moment_text};
ghost use Rattle.chpw_log.specs.Unconfirmed.{unconfirmed_fields, unconfirmed_line, unconfirmed_words};

use crate::moment::put_moment;
use crate::writing::put_address;
use chpw_printing::put_number;
use chpw_table::Moment;
use std::alloc::{AllocError, Global};
use std::net::IpAddr;

/// The line that says that the reply to a change was sent to this peer before the KDC had confirmed it, the `ticket`-th
/// since the service started; with its newline. It has the fields of every line, with `-` for all
/// but the moment, the peer and the text.
pub fn write_unconfirmed(
    alloc: Global,
    moment: Moment,
    peer: IpAddr,
    ticket: u64,
) -> Result<Vec<u8>, AllocError>
    requires moment { IsMoment moment }
    requires micros { moment.micros < 1000000 }
    ensures value { IfOk result (λ text. text.items ≡ unconfirmed_line moment peer ticket) }
    ensures fields { IfOk result (λ _. are_fields (unconfirmed_fields moment peer ticket) ≡ true) }
    ensures record { IfOk result (λ text. IsRecord text.items) }
{
    let mut text = Vec::new(alloc);
    put_start(&mut text, moment, peer)?;
    text.extend_from_slice(b" client - target - code - error - kvno - text ")?;
    put_ticket(&mut text, ticket)?;
    text.push(b'\n')?;
    Ok(text)
}

// Adds the moment and the peer.
fn put_start(text: &mut Vec<u8>, moment: Moment, peer: IpAddr) -> Result<(), AllocError>
    requires moment { IsMoment moment }
    requires micros { moment.micros < 1000000 }
    ensures value { OnOk result (text.new.items ≡ text.old.items ++ moment_text moment
        ++ codes " worker - peer " ++ address_text peer) }
    ensures moment { OnOk result (is_field (moment_text moment) ≡ true) }
    ensures peer { OnOk result (is_field (address_text peer) ≡ true) }
{
    put_moment(text, moment)?;
    text.extend_from_slice(b" worker - peer ")?;
    put_address(text, peer)
}

// Adds which change isn't confirmed, in words.
fn put_ticket(text: &mut Vec<u8>, ticket: u64) -> Result<(), AllocError>
    ensures value { OnOk result (text.new.items ≡ text.old.items ++ unconfirmed_words ticket) }
    ensures printed { OnOk result (are_printed (unconfirmed_words ticket) ≡ true) }
{
    text.extend_from_slice(b"not confirmed by the KDC: change ")?;
    put_number(text, ticket)?;
    Ok(())
}
