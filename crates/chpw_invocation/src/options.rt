//! The kinds of options. Each has only its long name.
ghost use Rattle.std.specs.Prelude.{◌≡◌, Some, false, pos};
ghost use Rattle.clap.specs.Walk.{rule_of};
ghost use Rattle.clap.specs.declared.builder.value_parser.ValueParser.TheVariants as parser;
ghost use Rattle.chpw_invocation.specs.Options as specs_of;

use clap::builder::ValueParser;
use clap::{Arg, ArgAction, value_parser};
use std::alloc::Global;

/// What an option takes.
#[derive(Clone, Copy, Drop)]
pub(crate) enum OptionKind {
    /// A required value.
    Required,
    /// An optional value.
    Optional,
    /// A value as often as it is given.
    Repeated,
    /// A required number from 1 to a limit.
    Number(u32),
    /// An optional number from 1 to a limit.
    OptionalNumber(u32),
    /// No value.
    Flag,
    /// A required positional word.
    Word,
    /// An optional positional word.
    OptionalWord,
}

/// An option of a command.
#[derive(Clone, Copy, Drop)]
pub(crate) struct OptionLine {
    pub name: &'static str,
    pub kind: OptionKind,
    /// The name of its value in the help.
    pub value: &'static str,
    /// What the help says of it, with its limits and its default.
    pub help: &'static str,
}

/// The option as a clap argument.
pub(crate) fn argument_of<'a>(alloc: Global, line: &OptionLine) -> Arg<'a>
    ensures rule { rule_of result ≡ specs_of.rule_for line.now }
    ensures help { specs_of.help_of result ≡ Some line.now.help.now }
    ensures local { result.global ≡ false }
{
    match line.kind {
        OptionKind::Required => option_arg(alloc, line, true),
        OptionKind::Optional => option_arg(alloc, line, false),
        OptionKind::Repeated => option_arg(alloc, line, false).action(ArgAction::Append),
        OptionKind::Number(limit) => option_arg(alloc, line, true).value_parser(up_to(limit)),
        OptionKind::OptionalNumber(limit) => option_arg(alloc, line, false).value_parser(up_to(
            limit,
        )),
        OptionKind::Flag => Arg::new(alloc, line.name)
            .long(line.name)
            .action(ArgAction::SetTrue)
            .help(line.help),
        OptionKind::Word => positional_arg(alloc, line, true),
        OptionKind::OptionalWord => positional_arg(alloc, line, false),
    }
}

// The positional word, required or optional.
fn positional_arg<'a>(alloc: Global, line: &OptionLine, is_required: bool) -> Arg<'a>
    ensures rule { rule_of result ≡ record (specs_of.optional_word line.now.name.now) { required = is_required } }
    ensures help { specs_of.help_of result ≡ Some line.now.help.now }
    ensures local { result.global ≡ false }
{
    Arg::new(alloc, line.name)
        .required(is_required)
        .action(ArgAction::Set)
        .value_name(line.value)
        .help(line.help)
}

// The option with a value, required or optional.
fn option_arg<'a>(alloc: Global, line: &OptionLine, is_required: bool) -> Arg<'a>
    ensures rule { rule_of result ≡ record (specs_of.optional line.now.name.now) { required = is_required } }
    ensures help { specs_of.help_of result ≡ Some line.now.help.now }
    ensures local { result.global ≡ false }
{
    positional_arg(alloc, line, is_required).long(line.name)
}

// A number from 1 to a limit.
fn up_to<'a>(limit: u32) -> ValueParser<'a>
    ensures { result ≡ parser.Signed (pos 1) (pos limit) }
{
    value_parser!(u32).range(1..=i64::from(limit))
}
