//! Proves that two definitions of a session agree: one looks back over all earlier frames, one
//! keeps a state.
ghost use Rattle.session_core.specs.Law.{HasSameEvents, HasSameAnswers};

/// Proves that the session defined by looking back over earlier frames has the events and the
/// answers of the session that keeps its association and its transfers.
#[tactic(auto, using(crate::proofs::Meet::same_events, crate::proofs::Meet::same_texts))]
pub fn one_session()
    ensures events { HasSameEvents }
    ensures answers { HasSameAnswers }
{}
