//! The limit on the length of a file that the process may write.
ghost use Rattle.std.specs.Prelude.{◌≡◌, ◌-◌, ◌≤◌, min};

use libc::types::rlimit;
use std::fs::OpenFile;

/// What getrlimit(2) is asked: the most bytes of a file.
const RLIMIT_FSIZE: i32 = 1;

/// How many of so many bytes an open file takes at its end, as far as the process's limit on the length of files goes: a
/// write past that limit would end the process by a signal. All of them if the limit or the file's length isn't known.
pub fn room_for<F: OpenFile>(file: &F, bytes: usize) -> usize
    ensures most { result ≤ bytes }
{
    let Some(limit) = file_limit() else {
        return bytes;
    };
    match file.metadata() {
        Ok(metadata) => room_within(limit, metadata.len(), bytes),
        Err(_) => bytes,
    }
}

// How many of so many bytes a file of this length takes, where it may have as many as the limit.
fn room_within(limit: u64, length: u64, bytes: usize) -> usize
    ensures value { result ≡ min bytes (limit - length) }
{
    let left = limit.saturating_sub(length);
    if bytes as u64 <= left {
        bytes
    } else {
        left as usize
    }
}

// The process's limit on the length of files, if it has one.
fn file_limit() -> Option<u64> {
    let mut limit = rlimit {
        rlim_cur: u64::MAX,
        rlim_max: u64::MAX,
    };
    match libc::getrlimit(RLIMIT_FSIZE, &mut limit) {
        0 if limit.rlim_cur != u64::MAX => Some(limit.rlim_cur),
        _ => None,
    }
}
