//! Writes the lines of a limiter in a trace's opening.
#![tactic(auto, unfolding(text_lines::specs::Lines::rows_text, text_lines::specs::Lines::text_of, text_lines::specs::Words::line_of))]

ghost use Rattle.std.specs.Prelude.{◌≡◌, ◌++◌, ◌∷◌, [], OnOk, codes, decimal};
ghost use Rattle.text_lines.specs.Lines.{rows_text};
ghost use Rattle.trace_openings.specs.OpeningFields.{label};
ghost use Rattle.trace_words.specs.Labels.{number_row};
ghost use Rattle.trace_openings.specs.OpeningRows.{actions_row, count_row, profile_row, groups_row, value_row, settings_rows, limiter_rows};
ghost use Rattle.trace_words.specs.Writing.{words_after_blanks, all_words, value_words};

use cosem_names::Which;
use limiter_core::{Actions, Count, Profile, Settings};
use relay_core::LimiterOpening;
use std::alloc::{AllocError, Global};
use text_lines::{add_hex, add_number, end_line};
use trace_words::add_flag;
use wire_bytes::Listed;

// Appends the label of a line of a limiter. Labels of the export limiter begin with an x.
fn write_label(out: &mut Vec<u8>, which: Which, name: &[u8]) -> Result<(), AllocError>
    ensures { OnOk result (out.new.items ≡ out.old.items ++ label which name.now) }
{
    if let Which::Export = which {
        out.push(b'x')?;
    }
    out.extend_from_slice(name)
}

// Appends a line of one number.
fn write_value(out: &mut Vec<u8>, which: Which, name: &[u8], value: u32) -> Result<(), AllocError>
    ensures { OnOk result (out.new.items ≡ out.old.items
        ++ rows_text (number_row (label which name.now) value ∷ [])) }
{
    write_label(out, which, name)?;
    add_number(out, u64::from(value))?;
    end_line(out)
}

// Appends the line of an emergency profile: id, start and duration.
fn write_profile(
    alloc: Global,
    out: &mut Vec<u8>,
    which: Which,
    profile: &Profile,
) -> Result<(), AllocError>
    ensures { OnOk result (out.new.items ≡ out.old.items
        ++ rows_text (profile_row which profile.now ∷ [])) }
{
    write_label(out, which, b"profile")?;
    add_number(out, u64::from(profile.id))?;
    add_hex(alloc, out, profile.start.bytes().as_slice())?;
    add_number(out, u64::from(profile.duration))?;
    end_line(out)
}

// Appends ids, each as a word.
fn add_ids(out: &mut Vec<u8>, ids: &[u16]) -> Result<(), AllocError>
    ensures { OnOk result (out.new.items ≡ out.old.items
        ++ words_after_blanks (all_words value_words ids.now)) }
{
    for id in ids {
        add_number(out, u64::from(*id))?;
    }
    Ok(())
}

// Appends the line of the group ids.
fn write_groups(out: &mut Vec<u8>, which: Which, groups: &Listed<u16>) -> Result<(), AllocError>
    ensures { OnOk result (out.new.items ≡ out.old.items
        ++ rows_text (groups_row which groups.now ∷ [])) }
{
    write_label(out, which, b"groups")?;
    add_ids(out, groups.as_slice())?;
    end_line(out)
}

// Appends the line of the actions: the script selectors over and under the threshold.
fn write_actions(out: &mut Vec<u8>, which: Which, actions: &Actions) -> Result<(), AllocError>
    ensures { OnOk result (out.new.items ≡ out.old.items
        ++ rows_text (actions_row which actions.now ∷ [])) }
{
    write_label(out, which, b"actions")?;
    add_number(out, u64::from(actions.over))?;
    add_number(out, u64::from(actions.under))?;
    end_line(out)
}

// Appends the line of a run: its length in samples, and whether it has fired.
fn write_count(
    out: &mut Vec<u8>,
    which: Which,
    name: &[u8],
    count: &Count,
) -> Result<(), AllocError>
    ensures { OnOk result (out.new.items ≡ out.old.items
        ++ rows_text (count_row (label which name.now) count.now ∷ [])) }
{
    write_label(out, which, name)?;
    add_number(out, count.run)?;
    add_flag(out, count.fired)?;
    end_line(out)
}

// Appends the line of a limiter's last sample.
pub(crate) fn write_last(
    out: &mut Vec<u8>,
    which: Which,
    limiter: &LimiterOpening,
) -> Result<(), AllocError>
    ensures { OnOk result (out.new.items ≡ out.old.items
        ++ rows_text (value_row which limiter.now ∷ [])) }
{
    write_value(out, which, b"value", limiter.value)
}

// Appends the lines of a limiter's settings.
#[tactic(auto)]
fn write_settings(
    alloc: Global,
    out: &mut Vec<u8>,
    which: Which,
    settings: &Settings,
) -> Result<(), AllocError>
    ensures { OnOk result (out.new.items ≡ out.old.items
        ++ rows_text (settings_rows which settings.now)) }
{
    write_value(out, which, b"normal", settings.threshold_normal)?;
    write_value(out, which, b"emergency", settings.threshold_emergency)?;
    write_value(out, which, b"minover", settings.min_over_threshold_duration)?;
    write_value(
        out,
        which,
        b"minunder",
        settings.min_under_threshold_duration,
    )?;
    write_profile(alloc, out, which, &settings.profile)?;
    write_groups(out, which, &settings.groups)?;
    write_actions(out, which, &settings.actions)
}

// Appends a limiter's lines after that of its last sample.
#[tactic(auto)]
pub(crate) fn write_limiter(
    alloc: Global,
    out: &mut Vec<u8>,
    which: Which,
    limiter: &LimiterOpening,
) -> Result<(), AllocError>
    ensures { OnOk result (out.new.items ≡ out.old.items
        ++ rows_text (limiter_rows which limiter.now)) }
{
    write_settings(alloc, out, which, &limiter.settings)?;
    write_count(out, which, b"over", &limiter.over)?;
    write_count(out, which, b"under", &limiter.under)
}
