//! The shares that datagrams and connections over TCP have of the connections' places.
ghost use Rattle.std.specs.Prelude.{◌≡◌, ◌≤◌};
ghost use Rattle.chpw_sockets.specs.Shares.{datagrams_in as datagrams, streams_in as streams, one_datagram, one_stream};
ghost use Rattle.chpw_sockets.specs.Shares.{most_datagrams as most, kept_for_datagrams as kept, most_streams as most_over_tcp};
ghost use Rattle.chpw_sockets.specs.Shares.{may_place_datagram as may_datagram, may_place_stream as may_stream};

use crate::sockets::Transport;

/// Whether one more datagram may have one of these places: datagrams hold at most half of them, but one may always.
pub(crate) fn may_place_datagram<S>(places: &[Option<Transport<S>>]) -> bool
    ensures value { result ≡ may_datagram places.now }
{
    datagrams_in(places) < most_datagrams(places.len())
}

/// Whether one more connection over TCP may have one of these places: with a socket for datagrams some are kept for
/// those.
pub(crate) fn may_place_stream<S>(has_datagrams: bool, places: &[Option<Transport<S>>]) -> bool
    ensures value { result ≡ may_stream has_datagrams places.now }
{
    streams_in(places) < most_streams(has_datagrams, places.len())
}

// How many datagrams there are at most at so many places.
fn most_datagrams(places: usize) -> usize
    ensures value { result ≡ most places }
{
    (places / 2).max(1)
}

// How many of so many places connections over TCP never hold.
fn kept_for_datagrams(places: usize) -> usize
    ensures value { result ≡ kept places }
{
    if places < 2 { 0 } else { (places / 8).max(1) }
}

// How many connections over TCP there are at most at so many places.
fn most_streams(has_datagrams: bool, places: usize) -> usize
    ensures value { result ≡ most_over_tcp has_datagrams places }
{
    if has_datagrams {
        places.saturating_sub(kept_for_datagrams(places))
    } else {
        places
    }
}

// How many datagrams have one of these places.
fn datagrams_in<S>(places: &[Option<Transport<S>>]) -> usize
    ensures value { result ≡ datagrams places.now }
{
    let mut count = 0;
    for slot in 0..places.len() {
        count += one_datagram(&places[slot]);
    }
    count
}

// How many connections over TCP do.
fn streams_in<S>(places: &[Option<Transport<S>>]) -> usize
    ensures value { result ≡ streams places.now }
{
    let mut count = 0;
    for slot in 0..places.len() {
        count += one_stream(&places[slot]);
    }
    count
}

fn one_datagram<S>(place: &Option<Transport<S>>) -> usize
    ensures value { result ≡ one_datagram place.now }
    ensures few { result ≤ 1 }
{
    match place {
        Some(Transport::Datagram(_)) => 1,
        Some(Transport::Stream(_)) | None => 0,
    }
}

fn one_stream<S>(place: &Option<Transport<S>>) -> usize
    ensures value { result ≡ one_stream place.now }
    ensures few { result ≤ 1 }
{
    match place {
        Some(Transport::Stream(_)) => 1,
        Some(Transport::Datagram(_)) | None => 0,
    }
}
