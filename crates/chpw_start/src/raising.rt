//! A raise of the iteration count of new keys, before the service listens.
ghost use Rattle.std.specs.Prelude.{◌≡◌, ◌≤◌, ℕ, IfErr, IfOk, Some, true, length};
ghost use Rattle.chpw_rules.specs.Limits.{is_in, iteration_counts};
ghost use Rattle.chpw_changelog.specs.Pens.{opening_state};
ghost use Rattle.chpw_start.specs.Faults.{IsLate};
ghost use Rattle.chpw_start.specs.Raised.{told_as, IsRaise, IsRaiseOfFirst, IsRaisedWhereAsked};
ghost use Rattle.chpw_start.specs.declared.fault.ServeFault.TheVariants.{CannotPrint};

use crate::fault::ServeFault;
use chpw_book::{Desk, DeskName, Pass, RaiseFault};
use chpw_journal::FileSink;
use chpw_serve::Clock;
use chpw_table::RaiseVerdict;
use std::fmt;
use std::fs::File;
use std::sync::Wait;

/// The result of a raise, displayed as the line that the program prints.
#[derive(Clone, Copy, Drop)]
pub enum RaiseReport {
    /// New keys are made under this count.
    Raised(u32),
    /// New keys are already made under this count or a higher one.
    NotHigher,
    /// The journal did not take the raise.
    Broken,
    /// The history has as many entries as allowed.
    Full,
}

impl fmt::Display for RaiseReport {
    ghost use Rattle.std.specs.Prelude.{Some};
    ghost use Rattle.chpw_start.specs.Raised.{raised_line};

    ghost output = { λ told. Some (raised_line told) };

    fn fmt<W: fmt::Write>(&self, f: &mut fmt::Formatter<W>) -> fmt::Result {
        match self {
            RaiseReport::Raised(count) => write!(f, "raised {count}"),
            RaiseReport::NotHigher => f.write_str("count not higher"),
            RaiseReport::Broken => f.write_str("journal failed"),
            RaiseReport::Full => f.write_str("history full"),
        }
    }
}

/// Raises the iteration count of new keys to the one that is asked for, if one is, and prints and returns the result. The
/// raise is an event of the first history, by the first pass. It is refused if memory is, and then nothing was raised; or if
/// the result can't be printed.
pub fn raise_where_asked<'a, D: DeskName, R: Wait + Print, C: Clock>(
    rt: &R,
    desk: &Desk<D, FileSink<File>>,
    passes: &mut [Pass<D>],
    clock: &mut C,
    asked: Option<u32>,
) -> Result<Option<RaiseReport>, ServeFault<'a>>
    requires count { (count : ℕ) → asked ≡ Some count → (1 ≤ count) × (count ≤ 16777216) }
    ensures raised { IfOk result (IsRaisedWhereAsked C.gives (opening_state D.root) clock.old clock.new
        passes.old passes.new asked) }
    ensures passes { length passes.new ≡ length passes.old }
    ensures fault { IfErr result IsLate }
{
    match asked {
        None => Ok(None),
        Some(count) => raise_by_first(rt, desk, passes, clock, count),
    }
}

// Raises by the first pass, and prints the result.
fn raise_by_first<'a, D: DeskName, R: Wait + Print, C: Clock>(
    rt: &R,
    desk: &Desk<D, FileSink<File>>,
    passes: &mut [Pass<D>],
    clock: &mut C,
    count: u32,
) -> Result<Option<RaiseReport>, ServeFault<'a>>
    requires count { is_in iteration_counts count ≡ true }
    ensures raised { IfOk result (IsRaiseOfFirst C.gives (opening_state D.root) clock.old clock.new
        passes.old passes.new count) }
    ensures passes { length passes.new ≡ length passes.old }
    ensures fault { IfErr result IsLate }
{
    let [pass, ..] = passes else {
        return Ok(None);
    };
    let Some(told) = raise(rt, desk, pass, clock, count) else {
        return Err(ServeFault::Memory);
    };
    print_raised(rt, told)?;
    Ok(Some(told))
}

// A raise to this count, at the clock's moment. None if memory was refused, and then nothing was raised.
fn raise<D: DeskName, R: Wait, C: Clock>(
    rt: &R,
    desk: &Desk<D, FileSink<File>>,
    pass: &mut Pass<D>,
    clock: &mut C,
    count: u32,
) -> Option<RaiseReport>
    requires count { is_in iteration_counts count ≡ true }
    ensures raised { IsRaise C.gives (opening_state D.root) clock.old clock.new pass.old pass.new count result }
{
    let now = clock.now();
    report_of(count, desk.raise(rt, pass, now, count))
}

// The result for this answer; none if memory was refused.
fn report_of(count: u32, raised: Result<RaiseVerdict, RaiseFault>) -> Option<RaiseReport>
    ensures value { result ≡ told_as count raised }
{
    match raised {
        Ok(RaiseVerdict::Raised) => Some(RaiseReport::Raised(count)),
        Ok(RaiseVerdict::NotHigher) => Some(RaiseReport::NotHigher),
        Ok(RaiseVerdict::Broken) => Some(RaiseReport::Broken),
        Err(RaiseFault::Full) => Some(RaiseReport::Full),
        Err(RaiseFault::Memory) => None,
    }
}

fn print_raised<'a, R: Print>(rt: &R, told: RaiseReport) -> Result<(), ServeFault<'a>>
    ensures fault { IfErr result (λ fault. fault ≡ CannotPrint) }
{
    match println!(rt; "{told}") {
        Ok(()) => Ok(()),
        Err(_) => Err(ServeFault::CannotPrint),
    }
}
