//! Reads the lines of a limiter in a trace's opening, in their order.
ghost use Rattle.std.specs.Prelude.{◌≡◌, ◌≤◌, length, IfOk};
ghost use Rattle.relay_core.specs.Opening.{IsFitLimiterOpening};
ghost use Rattle.trace_openings.specs.OpeningReading.{value_line, settings_from, limiter_from, new_limiter, export_from};
ghost use Rattle.trace_openings.specs.OpeningFields.{label};
ghost use Rattle.trace_words.specs.Labels.{labelled_value};
ghost use Rattle.trace_words.specs.Places.{ReadsLines, line_as};
ghost use Rattle.trace_words.specs.Reading.{value_in};

use crate::limiter_fields::{
    read_actions, read_groups, read_labelled_number, read_over, read_profile, read_under,
};
use cosem_names::Which;
use limiter_core::{Count, Settings};
use relay_core::LimiterOpening;
use std::alloc::Global;
use trace_words::{TraceFault, TraceLines, Version};
use wire_bytes::and_keep;

// Reads the line of one value of a limiter, with the label `word`.
fn read_value(which: Which, word: &[u8], lines: &mut TraceLines) -> Result<u32, TraceFault>
    ensures { ReadsLines (λ value. value) result lines.new
        (line_as (labelled_value (label which word.now) value_in) lines.old) }
{
    lines.read(|words| read_labelled_number(which, word, words))
}

// Reads the line of a limiter's last sample, in watts.
pub(crate) fn read_last(which: Which, lines: &mut TraceLines) -> Result<u32, TraceFault>
    ensures { ReadsLines (λ value. value) result lines.new (value_line which lines.old) }
{
    read_value(which, b"value", lines)
}

// Reads the lines of a limiter's settings.
#[tactic(auto, unfolding(crate::specs::OpeningReading::settings_from))]
fn read_settings(
    alloc: Global,
    which: Which,
    lines: &mut TraceLines,
) -> Result<Settings, TraceFault>
    ensures reads { ReadsLines (λ settings. settings) result lines.new
        (settings_from which lines.old) }
    ensures within_max { IfOk result (λ settings. length settings.groups ≤ 32) }
{
    let threshold_normal = read_value(which, b"normal", lines)?;
    let threshold_emergency = read_value(which, b"emergency", lines)?;
    let min_over_threshold_duration = read_value(which, b"minover", lines)?;
    let min_under_threshold_duration = read_value(which, b"minunder", lines)?;
    let profile = lines.read(|words| read_profile(alloc, which, words))?;
    let groups = lines.read(|words| read_groups(alloc, which, words))?;
    let (groups, actions) = and_keep(groups, lines.read(|words| read_actions(which, words)))?;
    Ok(Settings {
        threshold_normal,
        threshold_emergency,
        min_over_threshold_duration,
        min_under_threshold_duration,
        profile,
        groups,
        actions,
    })
}

// Reads the lines of a limiter after that of its last sample, `last`.
#[tactic(auto, unfolding(crate::specs::OpeningReading::limiter_from))]
pub(crate) fn read_limiter(
    alloc: Global,
    which: Which,
    last: u32,
    lines: &mut TraceLines,
) -> Result<LimiterOpening, TraceFault>
    ensures reads { ReadsLines (λ limiter. limiter) result lines.new
        (limiter_from which last lines.old) }
    ensures fit { IfOk result IsFitLimiterOpening }
{
    let settings = read_settings(alloc, which, lines)?;
    let (settings, over) = and_keep(settings, lines.read(|words| read_over(which, last, words)))?;
    let under = lines.read(|words| read_under(which, last, over, words));
    let (settings, under) = and_keep(settings, under)?;
    Ok(LimiterOpening {
        settings,
        value: last,
        over,
        under,
    })
}

// Returns a new limiter.
fn new_limiter(alloc: Global) -> LimiterOpening
    ensures new { result ≡ new_limiter }
    ensures fit { IsFitLimiterOpening result }
{
    LimiterOpening {
        settings: Settings::new(alloc),
        value: 0,
        over: Count::zero(),
        under: Count::zero(),
    }
}

// Reads the lines of the export limiter. In version 1 there are none, and the limiter is new.
#[tactic(auto, unfolding(crate::specs::OpeningReading::export_from))]
pub(crate) fn read_export(
    alloc: Global,
    version: Version,
    lines: &mut TraceLines,
) -> Result<LimiterOpening, TraceFault>
    ensures reads { ReadsLines (λ limiter. limiter) result lines.new
        (export_from version lines.old) }
    ensures fit { IfOk result IsFitLimiterOpening }
{
    match version {
        Version::One => Ok(new_limiter(alloc)),
        Version::Two => {
            let last = read_last(Which::Export, lines)?;
            read_limiter(alloc, Which::Export, last, lines)
        }
    }
}
