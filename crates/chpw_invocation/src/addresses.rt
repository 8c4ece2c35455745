//! Reads the values of `--listen`.
ghost use Rattle.std.specs.Prelude.{◌≡◌, ◌∷◌, map, IfErr, IfOk, OnOk};
ghost use Rattle.clap.specs.Walk.{Text};
ghost use Rattle.chpw_invocation.specs.Addresses.{AreListed, HasAddress, IsListening, IsNoList, IsOneMore, NamesNoAddress, RefusesText};
ghost use Rattle.chpw_invocation.specs.Listening.{listened};

use crate::listening::{DEFAULT_ADDRESS, ListenAddresses};
use crate::refusing::Refusal;
use std::net::IpAddr;

/// The addresses that these texts have, in their order; 127.0.0.1 if there are none.
pub(crate) fn addresses_of(texts: &[&str]) -> Result<ListenAddresses, Refusal>
    ensures value { IfOk result (λ l. IsListening (map (λ t. t.now) texts.now) (listened l)) }
    ensures refused { IfErr result (IsNoList (map (λ t. t.now) texts.now)) }
{
    match texts {
        [] => Ok(ListenAddresses::of(DEFAULT_ADDRESS)),
        [first, others @ ..] => match address_of(first) {
            Ok(address) => addresses_from(address, others),
            Err(refusal) => Err(refusal),
        },
    }
}

// The address of a first text, and those that the other texts have.
fn addresses_from(first: IpAddr, others: &[&str]) -> Result<ListenAddresses, Refusal>
    ensures value { IfOk result (λ l. (text : Text) → HasAddress text first
        → AreListed (text ∷ map (λ t. t.now) others.now) (listened l)) }
    ensures refused { IfErr result (λ refusal. (text : Text) → HasAddress text first
        → IsNoList (text ∷ map (λ t. t.now) others.now) refusal) }
{
    let mut addresses = ListenAddresses::of(first);
    for text in others {
        add_text(&mut addresses, text)?;
    }
    Ok(addresses)
}

// Adds the address that a text has.
fn add_text(addresses: &mut ListenAddresses, text: &str) -> Result<(), Refusal>
    ensures added { OnOk result (IsOneMore (listened addresses.old) text.now (listened addresses.new)) }
    ensures refused { IfErr result (RefusesText (listened addresses.old) text.now) }
{
    match address_of(text) {
        Ok(address) => addresses.add(address),
        Err(refusal) => Err(refusal),
    }
}

// The address that a text has; an IPv4-mapped IPv6 address is the IPv4 address.
fn address_of(text: &str) -> Result<IpAddr, Refusal>
    ensures address { IfOk result (HasAddress text.now) }
    ensures none { IfErr result (λ refusal. (refusal ≡ Refusal.NoAddress) × NamesNoAddress text.now) }
{
    match text.parse::<IpAddr>() {
        Ok(address) => Ok(address.to_canonical()),
        Err(_) => Err(Refusal::NoAddress),
    }
}
