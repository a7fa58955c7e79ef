//! The options of a command as a table, from which its command line and its help are made.
ghost use Rattle.std.specs.Prelude.{◌≡◌, None, false, IfOk};
ghost use Rattle.clap.specs.Words.{AddsInTurn};
ghost use Rattle.program.specs.Options.{AddsOption, IsArgument, default_by, default_of};
ghost use Rattle.program.specs.Options.{is_required, parser_of, value_parser};

use clap::builder::ValueParser;
use clap::{Arg, ArgAction, Command, value_parser};
use std::alloc::{AllocError, Global};

/// An option of a command.
#[derive(Clone, Copy)]
pub struct OptionText {
    /// Its name, without the hyphens.
    pub name: &'static str,
    /// What follows it.
    pub value: OptionValue,
    /// Whether it must be given, and its value if it is not.
    pub presence: Presence,
    /// Its line of the help.
    pub help: &'static str,
}

/// What follows an option: nothing, or a value with this name in the help.
#[derive(Clone, Copy)]
pub enum OptionValue {
    /// Nothing.
    Nothing,
    /// A text.
    Text(&'static str),
    /// A text; the option may be given several times.
    Texts(&'static str),
    /// A number in this range.
    Number(&'static str, NumberRange),
    /// One of these words.
    Word(&'static str, &'static [&'static str]),
}

/// The type of a number, with the least and the greatest one.
#[derive(Clone, Copy)]
pub enum NumberRange {
    /// A `u8`.
    U8(u8, u8),
    /// A `u16`.
    U16(u16, u16),
    /// A `u32`.
    U32(u32, u32),
    /// Any `u64`.
    U64,
}

/// Whether an option must be given, and its value if it is not.
#[derive(Clone, Copy)]
pub enum Presence {
    /// It need not be given, and has no value then.
    Optional,
    /// The command line is wrong without it.
    Required,
    /// The command line is wrong without it, unless a password is given otherwise.
    Password,
    /// It has this value if it is not given.
    Default(&'static str),
}

/// `--password`: the password of the management client.
pub const PASSWORD: OptionText = OptionText {
    name: "password",
    value: OptionValue::Text("TEXT"),
    presence: Presence::Password,
    help: "Password of the management client, 1 to 32 bytes; default: METER_PASSWORD",
};

/// `--password-file`: the file of that password.
pub const PASSWORD_FILE: OptionText = OptionText {
    name: "password-file",
    value: OptionValue::Text("FILE"),
    presence: Presence::Optional,
    help: "File whose one line is the password; only its owner may have access to it",
};

/// `--verbose` of a command that has nothing more to report: it describes each fault in any case.
pub const VERBOSE: OptionText = OptionText {
    name: "verbose",
    value: OptionValue::Nothing,
    presence: Presence::Optional,
    help: "No effect: faults are always described",
};

/// The formats of records that `--format` names.
pub const FORMATS: &[&str] = &["csv", "json"];

// Returns the parser of a number in a range.
fn parser_of<'a>(range: NumberRange) -> ValueParser<'a>
    ensures { result ≡ parser_of range }
{
    match range {
        NumberRange::U8(least, greatest) => {
            value_parser!(u8).range(i64::from(least)..=i64::from(greatest))
        }
        NumberRange::U16(least, greatest) => {
            value_parser!(u16).range(i64::from(least)..=i64::from(greatest))
        }
        NumberRange::U32(least, greatest) => {
            value_parser!(u32).range(i64::from(least)..=i64::from(greatest))
        }
        NumberRange::U64 => value_parser!(u64),
    }
}

// Adds what follows an option to its argument.
fn with_value<'a>(argument: Arg<'a>, value: OptionValue) -> Arg<'a>
    ensures others { result ≡ record argument.entry {
      action = result.action;
      val_names = result.val_names;
      value_parser = result.value_parser;
    } }
    ensures parser { argument.entry.value_parser ≡ None
        → result.value_parser ≡ value_parser value }
{
    match value {
        OptionValue::Nothing => argument.action(ArgAction::SetTrue),
        OptionValue::Text(name) => argument.value_name(name).action(ArgAction::Set),
        OptionValue::Texts(name) => argument.value_name(name).action(ArgAction::Append),
        OptionValue::Number(name, range) => argument
            .value_name(name)
            .value_parser(parser_of(range))
            .action(ArgAction::Set),
        OptionValue::Word(name, words) => argument
            .value_name(name)
            .value_parser(words)
            .action(ArgAction::Set),
    }
}

// Adds whether an option must be given, or its default, to its argument.
fn with_presence<'a>(argument: Arg<'a>, presence: Presence, has_password: bool) -> Arg<'a>
    ensures others { result ≡ record argument.entry {
      required = result.required;
      default_vals = result.default_vals;
    } }
    ensures required { argument.entry.required ≡ false
        → result.required ≡ is_required has_password presence }
    ensures default { default_of argument.entry ≡ None → default_of result ≡ default_by presence }
{
    match presence {
        Presence::Optional => argument,
        Presence::Required => argument.required(true),
        Presence::Password => argument.required(!has_password),
        Presence::Default(text) => argument.default_value(text),
    }
}

// Returns the argument of an option.
fn argument<'a>(alloc: Global, option: &OptionText, has_password: bool) -> Arg<'a>
    ensures { IsArgument has_password option.now result }
{
    let named = Arg::new(alloc, option.name)
        .long(option.name)
        .help(option.help);
    with_presence(
        with_value(named, option.value),
        option.presence,
        has_password,
    )
}

/// Adds options to a command, in their order. `has_password` says whether a password is given
/// without the option `--password`. Returns an error if out of memory; then drops the command.
pub fn with_options<'a>(
    alloc: Global,
    command: Command<'a>,
    options: &[OptionText],
    has_password: bool,
) -> Result<Command<'a>, AllocError>
    ensures { IfOk result
        (λ made. AddsInTurn (AddsOption has_password) command.entry options.now made) }
{
    let mut command = command;
    for option in options {
        command = command.arg(argument(alloc, option, has_password))?;
    }
    Ok(command)
}
