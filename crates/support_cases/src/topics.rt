//! Topics, each of which has cases of its own.

use std::alloc::Global;
use std::io::{self, BufWriter, Write};

/// A program that answers cases of several topics.
pub trait Topics {
    /// The answer to a case of a topic, or `no_topic` if there is none of this name. An error ends the program.
    fn answer(&mut self, alloc: Global, topic: &str, case: &str) -> io::Result<String>;
}

/// Copies each heading, a topic's name in brackets, and each line that is empty or begins with `#`; any other line is a
/// case of the topic whose heading came last, and its answer is printed. Lines before the first heading are cases of a
/// topic without a name.
pub fn print_topics<R, T>(rt: &R, topics: &mut T) -> io::Result<()>
where
    R: Input + Print + AllocGlobal,
    T: Topics,
{
    let alloc = rt.alloc();
    let text = io::read_to_string(alloc, rt.reader())?;
    let mut out = BufWriter::new(alloc, io::writer(rt))?;
    let mut topic = String::new(alloc);
    for line in text.as_str().lines() {
        if let Some(name) = name_in(line) {
            topic = String::from_str(alloc, name)?;
            writeln!(out, "{line}")?;
        } else if line.is_empty() || line.starts_with('#') {
            writeln!(out, "{line}")?;
        } else {
            let answer = topics.answer(alloc, topic.as_str(), line)?;
            writeln!(out, "{answer}")?;
        }
    }
    out.flush()
}

/// The answer to a case of a topic that doesn't exist.
pub fn no_topic(alloc: Global) -> io::Result<String> {
    Ok(String::from_str(alloc, "refused: no such topic")?)
}

/// The text in brackets, if nothing else stands in a line.
fn name_in(line: &str) -> Option<&str> {
    line.strip_prefix('[')?.strip_suffix(']')
}
