//! The program's commands, each with its texts and its options.
ghost use Rattle.std.specs.Prelude.{◌≡◌, codes, false, fold, IfOk, map};
ghost use Rattle.clap.specs.Simple.{App, new_shape, with_subcommand};
ghost use Rattle.clap.specs.Words.{app_of};
ghost use Rattle.chpw_invocation.specs.Options.{rule_for};
ghost use Rattle.chpw_invocation.specs.Program as specs_of;

use crate::option_lists::{
    CHECK_OPTIONS, CLIENT_OPTIONS, CONTROL_OPTIONS, IMPORT_OPTIONS, KEY_OPTIONS,
    NEW_JOURNAL_OPTIONS, SERVE_OPTIONS, TABLE_OPTIONS,
};
use crate::options::{OptionLine, argument_of};
use crate::texts::{
    ABOUT, CHECK, CHECK_MORE, CLIENT, CLIENT_MORE, CONTROL, CONTROL_MORE, DRILL, DRILL_MORE,
    IMPORT, IMPORT_MORE, KEY, KEY_MORE, NEW_JOURNAL, NEW_JOURNAL_MORE, SERVE, SERVE_MORE, STATUSES,
    TABLE, TABLE_MORE,
};
use clap::Command;
use std::alloc::{AllocError, Global};

/// The version that `status` prints.
pub const VERSION: &str = "0.2";

// What `--version` prints: the version, and the toolchain by which the program is proved and compiled. `tools/documents`
// compares both with the documents.
const LONG_VERSION: &str = "0.2\ntoolchain rattle-kit-13 logic dac8208d650f15bf";

// A command with this name and these texts: one in the list, one below the options.
fn titled<'a>(alloc: Global, name: &'a str, about: &'a str, more: &'a str) -> Command<'a>
    ensures shape { app_of result ≡ specs_of.alone (new_shape name.entry.now) }
    ensures local { specs_of.IsLocal result }
{
    Command::new(alloc, name).about(about).after_help(more)
}

// A command with this name, these texts, and these options.
fn command_with<'a>(
    alloc: Global,
    name: &'a str,
    about: &'a str,
    more: &'a str,
    options: &[OptionLine],
) -> Result<Command<'a>, AllocError>
    ensures shape { IfOk result (λ c. app_of c
        ≡ specs_of.alone (specs_of.command name.entry.now (map rule_for options.now))) }
    ensures local { IfOk result specs_of.IsLocal }
{
    let mut command = titled(alloc, name, about, more);
    for option in options {
        command = command.arg(argument_of(alloc, option))?;
    }
    Ok(command)
}

// The program with one more command, unless memory has run out for either.
fn with_command<'a>(
    alloc: Global,
    program: Result<Command<'a>, AllocError>,
    name: &'a str,
    about: &'a str,
    more: &'a str,
    options: &[OptionLine],
) -> Result<Command<'a>, AllocError>
    ensures shape { (a : App) → specs_of.IsBuilt a program.entry
        → specs_of.IsBuilt (with_subcommand a (specs_of.command name.entry.now (map rule_for options.now))) result }
{
    let program = program?;
    let command = command_with(alloc, name, about, more, options)?;
    program.subcommand(command)
}

// The program with the commands that need no running service.
fn with_offline_commands<'a>(
    alloc: Global,
    program: Result<Command<'a>, AllocError>,
) -> Result<Command<'a>, AllocError>
    ensures shape { (a : App) → specs_of.IsBuilt a program.entry
        → specs_of.IsBuilt (fold with_subcommand a specs_of.offline) result }
{
    let program = with_command(alloc, program, "drill", DRILL, DRILL_MORE, &[]);
    let program = with_command(alloc, program, "check", CHECK, CHECK_MORE, &CHECK_OPTIONS);
    let program = with_command(alloc, program, "table", TABLE, TABLE_MORE, &TABLE_OPTIONS);
    let program = with_command(
        alloc,
        program,
        "import",
        IMPORT,
        IMPORT_MORE,
        &IMPORT_OPTIONS,
    );
    let program = with_command(alloc, program, "key", KEY, KEY_MORE, &KEY_OPTIONS);
    with_command(
        alloc,
        program,
        "new-journal",
        NEW_JOURNAL,
        NEW_JOURNAL_MORE,
        &NEW_JOURNAL_OPTIONS,
    )
}

// The program with a version, which requires a command.
fn leading<'a>(alloc: Global) -> Command<'a>
    ensures shape { app_of result ≡ specs_of.leading (specs_of.alone (new_shape (codes "chpw_server"))) }
    ensures local { specs_of.IsLocal result }
{
    titled(alloc, "chpw_server", ABOUT, STATUSES)
        .version(LONG_VERSION)
        .subcommand_required(true)
        .arg_required_else_help(true)
}

/// The program, with all its commands.
pub(crate) fn program<'a>(alloc: Global) -> Result<Command<'a>, AllocError>
    ensures shape { IfOk result (λ c. app_of c ≡ specs_of.program) }
    ensures local { IfOk result specs_of.IsLocal }
{
    let program = with_offline_commands(alloc, Ok(leading(alloc)));
    let program = with_command(alloc, program, "serve", SERVE, SERVE_MORE, &SERVE_OPTIONS);
    let program = with_command(
        alloc,
        program,
        "control",
        CONTROL,
        CONTROL_MORE,
        &CONTROL_OPTIONS,
    );
    with_command(
        alloc,
        program,
        "client",
        CLIENT,
        CLIENT_MORE,
        &CLIENT_OPTIONS,
    )
}
