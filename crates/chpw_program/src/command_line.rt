//! The words of the command line.
ghost use Rattle.std.specs.Prelude.{◌≡◌, ◌≢◌, ◌⊎◌, IfErr};
ghost use Rattle.std.specs.IoError.{error_kind};

use chpw_commands::DrillFault;
use chpw_endings::Ending;
use std::io::ErrorKind;
use std::rt::Env;
use std::{env, io};

/// The words, the program's name first.
pub fn words<'a>(rt: &(impl Env + AllocGlobal)) -> Result<Vec<String>, Ending<'a>>
    ensures none { IfErr result (λ ending. (ending ≡ Ending.NotText) ⊎ (ending ≡ Ending.Early DrillFault.Memory)) }
{
    match copy_words(rt) {
        Ok(words) => Ok(words),
        Err(error) => Err(without_words(&error)),
    }
}

fn copy_words(rt: &(impl Env + AllocGlobal)) -> io::Result<Vec<String>> {
    let mut words = Vec::new(rt.alloc());
    for word in env::args(rt)? {
        words.push(word)?;
    }
    Ok(words)
}

// How the program ends if they can't be had. A word that isn't UTF-8 is the only fault besides memory.
fn without_words<'a>(error: &io::Error) -> Ending<'a>
    ensures memory { error_kind error.now ≡ ErrorKind.OutOfMemory
        → result ≡ Ending.Early DrillFault.Memory }
    ensures text { error_kind error.now ≢ ErrorKind.OutOfMemory → result ≡ Ending.NotText }
    ensures one { (result ≡ Ending.NotText) ⊎ (result ≡ Ending.Early DrillFault.Memory) }
{
    match error.kind() {
        ErrorKind::OutOfMemory => Ending::Early(DrillFault::Memory),
        _ => Ending::NotText,
    }
}
