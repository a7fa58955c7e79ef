//! The options of the command line as values.
ghost use Rattle.std.specs.Prelude.{◌≡◌, ◌↔◌, codes, false, IsTrue};
ghost use Rattle.clap.specs.Matches.{found_of};
ghost use Rattle.trace_player_cli.specs.Options.{AreInOrder, IsBound, IsFormat};
ghost use Rattle.program.specs.Values.{IsFlag};
ghost use Rattle.trace_player_cli.specs.Options.{IsView};
ghost use Rattle.trace_views.specs.Views.{whole_view};
ghost use Rattle.trace_views.specs.declared.format.TraceFormat.TheVariants.{Csv, Json};

use clap::ArgMatches;
use trace_views::{TraceFormat, TraceView};

// The operand and the options.
#[derive(Clone, Copy, Debug)]
pub(crate) struct Options<'a> {
    // The path of the trace; `None`: standard input.
    pub(crate) file: Option<&'a str>,
    pub(crate) view: TraceView,
    // Whether the whole events before the first wrong line are played.
    pub(crate) is_partial: bool,
}

impl Options<'_> {
    // Returns whether the whole output of a whole trace is asked for.
    pub(crate) fn is_plain(&self) -> bool
        ensures view { IsTrue result → self.now.view ≡ whole_view }
        ensures whole { IsTrue result → self.now.is_partial ≡ false }
    {
        !self.is_partial && self.view == TraceView::whole()
    }
}

// Returns whether an option without a value is given.
fn is_set(matches: &ArgMatches<'_>, name: &str) -> bool
    ensures { IsFlag (found_of matches.now) name.now result }
{
    matches.get_flag(name)
}

// Returns the number of an event that an option has.
fn number_of(matches: &ArgMatches<'_>, name: &str) -> Option<u32>
    ensures { IsBound (found_of matches.now) name.now result }
{
    matches.get_one::<u32>(name)
}

// Returns the format of this name. The command line has no other names.
fn format_named(name: &str) -> TraceFormat
    ensures csv { name.now ≡ codes "csv" → result ≡ Csv }
    ensures json { name.now ≡ codes "json" → result ≡ Json }
{
    if name == "csv" {
        TraceFormat::Csv
    } else if name == "json" {
        TraceFormat::Json
    } else {
        TraceFormat::Lines
    }
}

// Returns the format that the option `--format` names.
fn format_of(matches: &ArgMatches<'_>) -> TraceFormat
    ensures { IsFormat (found_of matches.now) result }
{
    match matches.get_str("format") {
        Some(name) => format_named(name),
        None => TraceFormat::Lines,
    }
}

// Returns the view that the options describe.
fn view_of(matches: &ArgMatches<'_>) -> TraceView
    ensures { IsView (found_of matches.now) result }
{
    TraceView {
        first: number_of(matches, "from"),
        last: number_of(matches, "to"),
        changes_only: is_set(matches, "changes"),
        with_events: is_set(matches, "events"),
        format: format_of(matches),
    }
}

// Returns the operand and the options.
pub(crate) fn options_of<'a>(matches: &ArgMatches<'a>) -> Options<'a>
    ensures view { IsView (found_of matches.now) result.view }
    ensures is_partial { IsFlag (found_of matches.now) (codes "partial") result.is_partial }
{
    let file = match matches.get_str("file") {
        Some("-") => None,
        file => file,
    };
    Options {
        file,
        view: view_of(matches),
        is_partial: is_set(matches, "partial"),
    }
}

// Returns whether the last event of a view is not before its first one.
pub(crate) fn is_in_order(view: &TraceView) -> bool
    ensures { IsTrue result ↔ AreInOrder view.now.first view.now.last }
{
    match (view.first, view.last) {
        (Some(first), Some(last)) => first <= last,
        _ => true,
    }
}
