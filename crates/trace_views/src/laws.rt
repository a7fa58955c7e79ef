//! Laws of views and of fronts. Each function is a law: its contract states it, and a call makes it
//! known to the prover.
ghost use Rattle.std.specs.Prelude.{◌≡◌, ℕ, List};
ghost use Rattle.relay_recorder.specs.declared.trace.Trace.{Trace};
ghost use Rattle.trace_player.specs.Playing.{output_of_trace};
ghost use Rattle.trace_player.specs.Traces.{trace_of};
ghost use Rattle.trace_views.specs.Fronts.{front_of, trace_by};
ghost use Rattle.trace_views.specs.Views.{view_text, whole_view};

/// Proves that the view that shows each line, without its event, is what the trace prints.
#[tactic(auto, using(crate::proofs::Whole::whole_is_output))]
pub fn whole_view_is_output()
    ensures { (trace : Trace) → view_text whole_view trace ≡ output_of_trace trace }
{}

/// Proves that the trace of a text is that of its front if the front ends without a fault, and that
/// otherwise the text has the same fault.
#[tactic(auto, using(crate::proofs::WholeFronts::text_whole))]
pub fn whole_front_is_trace()
    ensures { (text : List ℕ) → trace_of text ≡ trace_by (front_of text) }
{}
