//! Layer: commands. Touches: all that the program may. Called by: nobody, it is run.
//!
//! The service's program. Its commands are `drill`, which runs a script of decisions on standard input; `check`, which
//! checks a configuration file; `table`, which prints the current principal table; `import` and `key`, which convert
//! the keys of a keytab and of a password; `serve`, the service on a port of this machine; `control`, a command for a
//! running service; and `client`, one request to it.
#![tactic(auto)]

use chpw_program::run_program;
use std::io;
use std::process::ExitCode;

/// Runs the command that the command line asks for, and ends with its status.
fn main(rt: HostRuntime) -> ExitCode {
    let stderr = rt.stderr();
    ExitCode::from(run_program(&rt, &mut io::writer(&stderr)))
}
