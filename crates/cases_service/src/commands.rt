//! Cases of the commands `drill` and `check` whose reader or writer stops and goes on, or fails, a line each: `read WAY`, `write
//! WAY` or `check WAY`, of a script that is read in this way, or of what it prints, or its check as a configuration, that is
//! written in this way (support_streams).

use chpw_check::run_check;
use chpw_commands::run_drill;
use std::alloc::Global;
use std::io::{self, Error};
use support_cases::no_case;
use support_streams::{Course, Giver, Taker, Way};

/// It has 86 bytes, and prints 16.
const SCRIPT: &str =
    "realm EXAMPLE.COM\npolicy 0 0 2 4096 no\nprincipal alice 1 4096:a1\nopen 10 -1\nshow alice";

/// The answer to a case.
pub fn answer(alloc: Global, case: &str) -> io::Result<String> {
    let (what, way) = case.split_once(' ').unwrap_or((case, ""));
    let (way, whole) = (Way::of(way), Way::of(""));
    match what {
        "read" => drilled(alloc, way, whole),
        "write" => drilled(alloc, whole, way),
        "check" => checked(alloc, way),
        _ => Err(no_case()),
    }
}

fn taker(alloc: Global, way: Way) -> Taker {
    Taker {
        taken: Vec::new(alloc),
        course: Course::start(way),
    }
}

/// How the script ends, how many bytes it prints and in how many reads it is read.
fn drilled(alloc: Global, reads: Way, writes: Way) -> io::Result<String> {
    let mut reader = Giver {
        left: SCRIPT.as_bytes(),
        course: Course::start(reads),
    };
    let mut writer = taker(alloc, writes);
    let ended = run_drill(alloc, &mut reader, &mut writer);
    let (bytes, reads) = (writer.taken.len(), reader.course.calls);
    match ended {
        Ok(()) => format!(in alloc; "ends, {bytes} bytes printed, {reads} reads"),
        Err(fault) => format!(in alloc; "{fault}, {bytes} bytes printed, {reads} reads"),
    }
    .map_err(Error::from)
}

/// The status of the check, and how many bytes it prints.
fn checked(alloc: Global, way: Way) -> io::Result<String> {
    let mut writer = taker(alloc, way);
    let ended = run_check(alloc, SCRIPT.as_bytes(), &mut writer);
    let bytes = writer.taken.len();
    match ended {
        Ok(status) => format!(in alloc; "status {status}, {bytes} bytes printed"),
        Err(fault) => format!(in alloc; "{fault}, {bytes} bytes printed"),
    }
    .map_err(Error::from)
}
