//! The command `check`.
ghost use Rattle.std.specs.Prelude.{◌≡◌};
ghost use Rattle.chpw_endings.specs.Checking.{HasChecked, IsChecked, PrintsCheck};

use crate::ending::Ending;
use crate::new_password::unread_ending;
use chpw_check::{explain_check, run_check, warn_check};
use chpw_commands::DrillFault;
use chpw_start::read_configuration;
use std::alloc::Global;
use std::fs::{File, Files};
use std::io::{self, Write};

/// The configuration in a file: prints the line about it, and writes warnings to `errors` (docs/ADMIN.md, The configuration).
#[tactic(auto, using(crate::proofs::CheckLemmas::has_checked, crate::proofs::CheckLemmas::has_unread))]
pub fn check_file<'a, W: Write>(
    rt: &(impl Files<File = File> + Print + AllocGlobal),
    errors: &mut W,
    file: &'a str,
) -> Ending<'a>
    ensures checked { HasChecked file.now result }
{
    match read_configuration(rt, file) {
        Ok(text) => check_text(
            rt.alloc(),
            file,
            text.as_slice(),
            &mut io::writer(rt),
            errors,
        ),
        Err(error) => unread_ending(file, &error),
    }
}

// Writes the line about the configuration with this text, and its warnings, which change no ending.
fn check_text<'a, W: Write, E: Write>(
    alloc: Global,
    file: &'a str,
    text: &[u8],
    out: &mut W,
    errors: &mut E,
) -> Ending<'a>
    ensures checked { IsChecked file.now text.now result }
    ensures printed { PrintsCheck text.now result (W.contents out.old) (W.contents out.new) }
{
    let ending = print_check(alloc, file, text, out);
    warn(alloc, file, text, errors);
    ending
}

// Writes the warnings about the configuration with this text. If there is no memory for them a line says so.
fn warn<E: Write>(alloc: Global, file: &str, text: &[u8], errors: &mut E) {
    if let Err(DrillFault::Memory) = warn_check(alloc, file, text, errors) {
        let _ = writeln!(errors, "{file}: memory: warnings are left out");
    }
}

// Writes the line about the configuration with this text, and ends accordingly.
fn print_check<'a, W: Write>(alloc: Global, file: &'a str, text: &[u8], out: &mut W) -> Ending<'a>
    ensures checked { IsChecked file.now text.now result }
    ensures printed { PrintsCheck text.now result (W.contents out.old) (W.contents out.new) }
{
    match run_check(alloc, text, out) {
        Err(fault) => Ending::Early(fault),
        Ok(_) => match explain_check(alloc, text) {
            Err(_) => Ending::Early(DrillFault::Memory),
            Ok(None) => Ending::Good,
            Ok(Some(words)) => Ending::Faulty { file, words },
        },
    }
}
