//! The list that an agent answers with.
ghost use Rattle.std.specs.Prelude.{◌≡◌, ◌==◌, ◌++◌, ◌∷◌, ◌⊎◌, [], map, true, Ok, Err, OnOk, IfOk, IfErr};
ghost use Rattle.std.specs.List.{slice_split};
ghost use Rattle.chpw_rules.specs.Fitting.{are_distinct};
ghost use Rattle.chpw_rules.specs.Names.{is_same_name};
ghost use Rattle.chpw_import.specs.KdcLists.{IsListFault, ListedUnlessMemory, after_line, at_end, heard_from, is_new, line_of, listing_in, names_in, start};
ghost use Rattle.chpw_import.specs.KdcSeen.{KnowsNames, state_of};

use crate::kdc::fault::ListFault;
use chpw_kdc::{Answer, KeyPair, LINE, LineFault, Reason};
use chpw_rules::Name;
use std::alloc::{AllocError, Global};
use std::collections::BTreeSet;

/// The newest keys of a principal.
#[derive(Clone, Copy, Drop)]
pub struct KdcKeys {
    /// 1 to 4,294,967,295.
    pub kvno: u32,
    pub keys: KeyPair,
}

/// A principal of the KDC, with its keys or why they aren't told.
#[derive(Drop)]
pub struct Listed {
    pub name: Name,
    pub found: Result<KdcKeys, Reason>,
}

/// A line of a list.
#[derive(Drop)]
pub(crate) enum ListLine {
    Principal(Listed),
    End(u32),
    Changed,
}

/// What was read of a list.
#[derive(Drop)]
pub(crate) struct Hearing {
    seen: BTreeSet<Name>,
    listed: Vec<Listed>,
    // The number of names that the list's end said.
    said: Option<u32>,
}

/// The principals that an agent's answer to `list keys` has, in their order, or the first fault in its bytes. `changed`
/// may be said anywhere; nothing else follows the end.
pub fn listing_of(alloc: Global, bytes: &[u8]) -> Result<Vec<Listed>, ListFault>
    ensures value { IfOk result (λ listed. listing_in bytes.now ≡ Ok listed.items) }
    ensures distinct { IfOk result (λ listed.
        are_distinct is_same_name (names_in listed.items) ≡ true) }
    ensures fault { IfErr result (IsListFault (listing_in bytes.now)) }
{
    if bytes.is_empty() {
        return Err(ListFault::NoAnswer);
    }
    let pieces = pieces_of(alloc, bytes)?;
    // What follows the last newline is no line.
    let Some((rest, lines)) = pieces.as_slice().split_last() else {
        return Err(ListFault::CutOff);
    };
    let hearing = read_lines(alloc, lines)?;
    finish(hearing, rest)
}

// What is between the newlines.
fn pieces_of<'a>(alloc: Global, bytes: &'a [u8]) -> Result<Vec<&'a [u8]>, AllocError>
    ensures value { IfOk result (λ pieces. map (λ piece. piece.now) pieces.items
        ≡ slice_split (λ byte. byte == 10) bytes.now) }
{
    bytes.split(|byte| *byte == b'\n').collect(alloc)
}

// The list, if it has ended and says the number of its names.
fn finish(hearing: Hearing, rest: &[u8]) -> Result<Vec<Listed>, ListFault>
    ensures value { IfOk result (λ listed. (at_end (state_of hearing) rest.now ≡ Ok listed.items)
        × (listed.items ≡ hearing.listed.items)) }
    ensures fault { IfErr result (λ fault. at_end (state_of hearing) rest.now ≡ Err fault) }
{
    let Some(said) = hearing.said else {
        return Err(ListFault::CutOff);
    };
    if !rest.is_empty() {
        return Err(ListFault::CutOff);
    }
    if hearing.listed.len() != said as usize {
        return Err(ListFault::WrongCount);
    }
    Ok(hearing.listed)
}

// Lines of a list, one after the other.
fn read_lines(alloc: Global, lines: &[&[u8]]) -> Result<Hearing, ListFault>
    ensures value { IfOk result (λ h. heard_from start (map (λ line. line.now) lines.now) ≡ Ok (state_of h)) }
    ensures distinct { IfOk result (λ h.
        are_distinct is_same_name (names_in h.listed.items) ≡ true) }
    ensures fault { IfErr result (IsListFault (heard_from start (map (λ line. line.now) lines.now))) }
{
    let mut hearing = Hearing {
        seen: BTreeSet::new(alloc),
        listed: Vec::new(alloc),
        said: None,
    };
    for line in lines {
        hear(alloc, &mut hearing, line)?;
    }
    Ok(hearing)
}

// One more line of a list.
fn hear(alloc: Global, hearing: &mut Hearing, line: &[u8]) -> Result<(), ListFault>
    requires { KnowsNames hearing.old.seen (names_in hearing.old.listed.items) }
    ensures value { OnOk result (after_line (state_of hearing.old) line.now ≡ Ok (state_of hearing.new)) }
    ensures knows { OnOk result (KnowsNames hearing.new.seen (names_in hearing.new.listed.items)) }
    ensures distinct { are_distinct is_same_name (names_in hearing.old.listed.items) ≡ true
        → OnOk result (are_distinct is_same_name (names_in hearing.new.listed.items) ≡ true) }
    ensures fault { IfErr result (IsListFault (after_line (state_of hearing.old) line.now)) }
{
    match read_line(alloc, line)? {
        ListLine::Changed => Ok(()),
        ListLine::End(count) => {
            if hearing.said.is_some() {
                return Err(ListFault::OutOfTurn);
            }
            hearing.said = Some(count);
            Ok(())
        }
        ListLine::Principal(principal) => {
            if hearing.said.is_some() {
                return Err(ListFault::OutOfTurn);
            }
            add(&mut hearing.seen, &mut hearing.listed, principal)
        }
    }
}

// What a line of a list says.
fn read_line(alloc: Global, line: &[u8]) -> Result<ListLine, ListFault>
    ensures value { ListedUnlessMemory result (line_of line.now) }
{
    if line.len() >= LINE {
        return Err(ListFault::LongLine);
    }
    match Answer::of(alloc, line) {
        Ok(Answer::Has { name, kvno, keys }) => {
            let found = Ok(KdcKeys { kvno, keys });
            Ok(ListLine::Principal(Listed { name, found }))
        }
        Ok(Answer::Other { name, reason }) => {
            let found = Err(reason);
            Ok(ListLine::Principal(Listed { name, found }))
        }
        Ok(Answer::End { count }) => Ok(ListLine::End(count)),
        Ok(Answer::Changed) => Ok(ListLine::Changed),
        Ok(Answer::ListFailed { .. }) => Err(ListFault::Failed),
        Ok(_) => Err(ListFault::OutOfTurn),
        Err(LineFault::Memory) => Err(ListFault::Memory),
        Err(fault) => Err(ListFault::BadLine(fault)),
    }
}

// Adds a principal whose name isn't listed yet.
fn add(
    seen: &mut BTreeSet<Name>,
    listed: &mut Vec<Listed>,
    principal: Listed,
) -> Result<(), ListFault>
    requires { KnowsNames seen.old (names_in listed.old.items) }
    ensures added { OnOk result (listed.new.items ≡ listed.old.items ++ principal ∷ []) }
    ensures value { OnOk result (is_new listed.old.items principal.name ≡ Ok tt) }
    ensures knows { OnOk result (KnowsNames seen.new (names_in listed.new.items)) }
    ensures distinct { are_distinct is_same_name (names_in listed.old.items) ≡ true
        → OnOk result (are_distinct is_same_name (names_in listed.new.items) ≡ true) }
    ensures fault { IfErr result (IsListFault (is_new listed.old.items principal.name)) }
{
    let name = principal.name.clone()?;
    if !seen.insert(name)? {
        return Err(ListFault::NamedTwice);
    }
    listed.push(principal)?;
    Ok(())
}
