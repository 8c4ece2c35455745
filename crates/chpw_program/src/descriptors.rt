//! The standard descriptors.
ghost use Rattle.std.specs.Prelude.{◌↔◌, ◌≤ℤ◌, IsTrue, pos};

use std::fs::{File, Files};
use std::io;
use std::os::fd::{AsRawFd, IntoRawFd};

/// The file that is opened in place of a closed one.
pub const NOTHING: &str = "/dev/null";

/// Opens `/dev/null` at each of the descriptors 0, 1 and 2 that is closed: otherwise the next file to be opened would
/// be there, and be read or written as standard input, output or error. The system gives a file the lowest free number.
pub fn hold_standard<R: Files<File = File>>(rt: &R) -> io::Result<()> {
    for _ in 0..3 {
        let file = File::options().read(true).write(true).open(rt, NOTHING)?;
        if !is_standard(file.as_raw_fd()) {
            return Ok(());
        }
        let _held = file.into_raw_fd();
    }
    Ok(())
}

// Whether a descriptor, which isn't negative, is standard input, output or error.
fn is_standard(descriptor: i32) -> bool
    ensures value { IsTrue result ↔ (descriptor ≤ℤ pos 2) }
{
    descriptor <= 2
}
