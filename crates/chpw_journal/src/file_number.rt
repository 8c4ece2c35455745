//! Which file is open, and which one a name leads to.
use std::fs::{self, Files, Metadata};
use std::os::unix::fs::MetadataExt;

/// The device of a file, and its number there. As long as a file is open no other one has both.
#[derive(Clone, Copy, Drop)]
pub struct FileNumber {
    pub device: u64,
    pub number: u64,
}

impl FileNumber {
    /// That of the file of which the system reports this.
    pub fn of(metadata: &Metadata) -> FileNumber {
        FileNumber {
            device: metadata.dev(),
            number: metadata.ino(),
        }
    }

    /// That of the file to which a path leads, if there is one that can be examined.
    pub fn at<R: Files>(rt: &R, path: &str) -> Option<FileNumber> {
        match fs::metadata(rt, path) {
            Ok(metadata) => Some(FileNumber::of(&metadata)),
            Err(_) => None,
        }
    }
}
