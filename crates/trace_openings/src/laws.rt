//! Laws of the lines of an opening. Each function is a law: its contract states it, and a call
//! makes it known to the prover.
ghost use Rattle.std.specs.Prelude.{◌≡◌, ℕ, ◌+◌, List, ◌++◌, IsTrue, Ok};
ghost use Rattle.std.specs.List.{list_all};
ghost use Rattle.text_lines.specs.Lines.{is_row};
ghost use Rattle.relay_core.specs.declared.opening.Opening.{Opening};
ghost use Rattle.trace_openings.specs.OpeningForms.{Forms, AreFormsOf, written_forms, rows_with};
ghost use Rattle.trace_openings.specs.OpeningReading.{opening_from};
ghost use Rattle.trace_openings.specs.OpeningRows.{opening_rows};
ghost use Rattle.trace_openings.specs.OpeningTraced.{IsWritable};
ghost use Rattle.trace_words.specs.Places.{Place};
ghost use Rattle.trace_words.specs.Rows.{Row};
ghost use Rattle.trace_words.specs.declared.version.Version.TheVariants.{Two};

use limiter_core::fit_runs_mean;

/// Proves that an opening that a core can have, with numbers in the ranges of their types, is read
/// back from the 30 lines that are written for it, whatever follows them. Every one of these is a
/// line of words.
pub fn written_opening_is_read()
    ensures read_back { (opening : Opening) (rows : List Row) (unended : List ℕ)
        → IsWritable opening
        → opening_from (record {
          number = 1;
          rows = opening_rows opening ++ rows;
          unended = unended;
        })
        ≡ Ok ((Two, opening), record { number = 31; rows = rows; unended = unended }) }
    ensures rows { (opening : Opening) → IsWritable opening
        → IsTrue (list_all is_row (opening_rows opening)) }
{
    // (no effect: the contract needs this law)
    fit_runs_mean();
}

/// Proves that the lines of version 2 that an opening is read from are the 30 lines that
/// [`write_opening`](crate::write_opening) appends for it, except that the script table and the
/// entries of a schedule may be other values of type Data that are read as the same table or
/// entries. With the values that [`write_opening`](crate::write_opening) writes, all 30
/// lines are equal.
#[tactic(auto, using(crate::proofs::OpeningBack::opening_back, crate::proofs::OpeningBack::opening_lines, crate::proofs::OpeningBack::written_rows))]
pub fn read_opening_is_written()
    ensures lines { (place later : Place) (opening : Opening)
        → opening_from place ≡ Ok ((Two, opening), later)
        → (forms : Forms) × AreFormsOf opening forms
        × (place.rows ≡ rows_with opening forms ++ later.rows) }
    ensures place_after { (place later : Place) (opening : Opening)
        → opening_from place ≡ Ok ((Two, opening), later)
        → (later.number ≡ place.number + 30) × (later.unended ≡ place.unended) }
    ensures written { (opening : Opening)
        → rows_with opening (written_forms opening) ≡ opening_rows opening }
{}
