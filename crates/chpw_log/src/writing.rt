//! A line, built from its fields.
ghost use Rattle.std.specs.Prelude.{◌≡◌, ◌++◌, ◌∷◌, [], true, codes, IfOk, OnOk};
ghost use Rattle.std.specs.Option.{option_map};
ghost use Rattle.std.specs.List.{join_with_byte};
ghost use Rattle.std.specs.Fmt.{decimal, signed_decimal};
ghost use Rattle.std.specs.Net.Text.{ipv6_text};
ghost use Rattle.chpw_printing.specs.Quoting.{are_printed, is_field, quoted, words_text};
ghost use Rattle.chpw_log.specs.Lines.{IsRecord, address_text, are_fields, dotted, fields_of, line_of, named, or_dash, outcome_fields, party_text};
ghost use Rattle.chpw_log.specs.Moments.{moment_text};
ghost use Rattle.chpw_log.specs.Tellings.{said};

use crate::line::Line;
use crate::message_event::{LogFields, Party};
use crate::moment::put_moment;
use chpw_printing::{put_number, put_principal, put_quoted, put_signed, put_words};
use std::alloc::{AllocError, Global};
use std::net::{IpAddr, Ipv6Addr};

/// A line with its newline: its fields in their order, a space between any two.
pub fn write_line(alloc: Global, line: &Line<'_>) -> Result<Vec<u8>, AllocError>
    ensures value { IfOk result (λ text. text.items ≡ line_of line.now) }
    ensures fields { IfOk result (λ _. are_fields (fields_of line.now) ≡ true) }
    ensures record { IfOk result (λ text. IsRecord text.items) }
{
    let mut text = Vec::new(alloc);
    put_front(&mut text, line)?;
    put_told(&mut text, &line.news.fields())?;
    text.push(b'\n')?;
    Ok(text)
}

// Adds moment, worker and peer.
fn put_front(text: &mut Vec<u8>, line: &Line<'_>) -> Result<(), AllocError>
    ensures value { OnOk result (text.new.items ≡ text.old.items ++ moment_text line.now.moment
        ++ codes " worker " ++ decimal line.now.worker
        ++ codes " peer " ++ address_text line.now.peer) }
    ensures moment { OnOk result (is_field (moment_text line.now.moment) ≡ true) }
    ensures worker { OnOk result (is_field (decimal line.now.worker) ≡ true) }
    ensures peer { OnOk result (is_field (address_text line.now.peer) ≡ true) }
{
    put_moment(text, line.moment)?;
    text.extend_from_slice(b" worker ")?;
    put_number(text, u64::from(line.worker))?;
    text.extend_from_slice(b" peer ")?;
    put_address(text, line.peer)
}

// Adds the fields for the result of the message, each after a space.
fn put_told(text: &mut Vec<u8>, told: &LogFields<'_>) -> Result<(), AllocError>
    ensures value { OnOk result (text.new.items ≡ text.old.items ++ 32 ∷ join_with_byte 32 (outcome_fields (said told.now))) }
    ensures fields { OnOk result (are_fields (outcome_fields (said told.now)) ≡ true) }
{
    put_parties(text, told)?;
    put_codes(text, told)?;
    put_end(text, told)
}

// Adds client and target.
fn put_parties(text: &mut Vec<u8>, told: &LogFields<'_>) -> Result<(), AllocError>
    ensures value { OnOk result (text.new.items ≡ text.old.items
        ++ codes " client " ++ or_dash party_text (said told.now).client
        ++ codes " target " ++ or_dash party_text (said told.now).target) }
    ensures client { OnOk result (is_field (or_dash party_text (said told.now).client) ≡ true) }
    ensures target { OnOk result (is_field (or_dash party_text (said told.now).target) ≡ true) }
{
    text.extend_from_slice(b" client ")?;
    put_party(text, told.client)?;
    text.extend_from_slice(b" target ")?;
    put_party(text, told.target)
}

// Adds result code and error code.
fn put_codes(text: &mut Vec<u8>, told: &LogFields<'_>) -> Result<(), AllocError>
    ensures value { OnOk result (text.new.items ≡ text.old.items
        ++ codes " code " ++ decimal told.now.code
        ++ codes " error " ++ or_dash signed_decimal told.now.error) }
    ensures code { OnOk result (is_field (decimal told.now.code) ≡ true) }
    ensures error { OnOk result (is_field (or_dash signed_decimal told.now.error) ≡ true) }
{
    text.extend_from_slice(b" code ")?;
    put_number(text, u64::from(told.code))?;
    text.extend_from_slice(b" error ")?;
    put_error(text, told.error)
}

// Adds the version and the text.
fn put_end(text: &mut Vec<u8>, told: &LogFields<'_>) -> Result<(), AllocError>
    ensures value { OnOk result (text.new.items ≡ text.old.items
        ++ codes " kvno " ++ or_dash decimal told.now.kvno
        ++ codes " text " ++ words_text told.now.text.now) }
    ensures kvno { OnOk result (is_field (or_dash decimal told.now.kvno) ≡ true) }
    ensures text { OnOk result (are_printed (words_text told.now.text.now) ≡ true) }
{
    text.extend_from_slice(b" kvno ")?;
    put_kvno(text, told.kvno)?;
    text.extend_from_slice(b" text ")?;
    put_words(text, told.text.as_bytes())
}

// Adds a principal, or `-`.
fn put_party(text: &mut Vec<u8>, party: Option<Party<'_>>) -> Result<(), AllocError>
    ensures value { OnOk result (text.new.items ≡ text.old.items ++ or_dash party_text (option_map named party.entry)) }
    ensures field { OnOk result (is_field (or_dash party_text (option_map named party.entry)) ≡ true) }
{
    match party {
        Some(party) => put_principal(text, party.realm, party.name),
        None => put_dash(text),
    }
}

// Adds an error code, or `-`.
fn put_error(text: &mut Vec<u8>, error: Option<i32>) -> Result<(), AllocError>
    ensures value { OnOk result (text.new.items ≡ text.old.items ++ or_dash signed_decimal error) }
    ensures field { OnOk result (is_field (or_dash signed_decimal error) ≡ true) }
{
    match error {
        Some(error) => put_signed(text, i64::from(error)),
        None => put_dash(text),
    }
}

// Adds a version, or `-`.
fn put_kvno(text: &mut Vec<u8>, kvno: Option<u32>) -> Result<(), AllocError>
    ensures value { OnOk result (text.new.items ≡ text.old.items ++ or_dash decimal kvno) }
    ensures field { OnOk result (is_field (or_dash decimal kvno) ≡ true) }
{
    match kvno {
        Some(kvno) => put_number(text, u64::from(kvno)),
        None => put_dash(text),
    }
}

fn put_dash(text: &mut Vec<u8>) -> Result<(), AllocError>
    ensures value { OnOk result (text.new.items ≡ text.old.items ++ 45 ∷ []) }
{
    text.push(b'-')?;
    Ok(())
}

// Adds an address: of IPv4 its numbers with `.` between them, of IPv6 the text of RFC 5952.
pub(crate) fn put_address(text: &mut Vec<u8>, address: IpAddr) -> Result<(), AllocError>
    ensures value { OnOk result (text.new.items ≡ text.old.items ++ address_text address) }
    ensures field { OnOk result (is_field (address_text address) ≡ true) }
{
    match address {
        IpAddr::V4(ip) => put_ipv4(text, ip.octets()),
        IpAddr::V6(ip) => put_ipv6(text, ip.segments()),
    }
}

// Adds four numbers with `.` between them.
fn put_ipv4(text: &mut Vec<u8>, address: [u8; 4]) -> Result<(), AllocError>
    ensures value { OnOk result (text.new.items ≡ text.old.items ++ dotted address) }
    ensures field { OnOk result (is_field (dotted address) ≡ true) }
{
    let mut numbers: &[u8] = &address;
    while let [number, rest @ ..] = numbers {
        put_number(text, u64::from(*number))?;
        if !rest.is_empty() {
            text.push(b'.')?;
        }
        numbers = rest;
    }
    Ok(())
}

// Adds an IPv6 address.
fn put_ipv6(text: &mut Vec<u8>, segments: [u16; 8]) -> Result<(), AllocError>
    ensures value { OnOk result (text.new.items ≡ text.old.items ++ quoted (ipv6_text segments)) }
    ensures field { OnOk result (is_field (quoted (ipv6_text segments)) ≡ true) }
{
    let groups = Ipv6Addr::from_segments(segments).to_string(*text.allocator())?;
    put_quoted(text, groups.as_bytes())?;
    Ok(())
}
