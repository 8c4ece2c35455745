//! What `client` says of its seed.
ghost use Rattle.std.specs.Prelude.{OnOk};
ghost use Rattle.std.specs.Io.KnownBytes.{Appends};
ghost use Rattle.chpw_endings.specs.Seeds.{seed_line};

use std::fmt;
use std::fs::{self, Files};
use std::io::{self, Write};

/// The warning of a seed in the regular file at this path.
#[derive(Drop)]
struct SeedWarning<'a> {
    file: &'a str,
}

impl fmt::Display for SeedWarning<'_> {
    ghost use Rattle.std.specs.Prelude.{Some};
    ghost use Rattle.chpw_endings.specs.Seeds.{warning_of};

    ghost output = { λ warning. Some (warning_of warning.file.now) };

    fn fmt<W: fmt::Write>(&self, f: &mut fmt::Formatter<W>) -> fmt::Result {
        let file = self.file;
        write!(f, "the seed {file} is a regular file: use it only once")
    }
}

/// Warns of a seed in a regular file, which gives the same bytes each time: the keys and confounders of two requests of
/// one seed are the same. If the line can't be written the request is made all the same.
pub(crate) fn warn_of_seed<R: Files, W: Write>(rt: &R, errors: &mut W, file: &str) {
    let is_regular = match fs::metadata(rt, file) {
        Ok(metadata) => metadata.is_file(),
        Err(_) => false,
    };
    let _ = tell_seed(errors, file, is_regular);
}

// Writes the line about a seed, if it has one.
fn tell_seed<W: Write>(errors: &mut W, file: &str, is_regular: bool) -> io::Result<()>
    ensures told { OnOk result (Appends (W.contents errors.old) (W.contents errors.new) (seed_line file.now is_regular)) }
{
    if is_regular {
        let warning = SeedWarning { file };
        writeln!(errors, "{warning}")
    } else {
        Ok(())
    }
}
