//! What holds of the answers to every list of events. The function here does nothing: its clauses are
//! laws.

ghost use Rattle.node_core.specs.Laws.{FindsAsked, NeverFalls, IsWithin};

/// What is found is what was asked. No reader falls behind what it had seen. What is entered is within
/// the window.
pub fn answers_keep_their_laws()
    ensures found { FindsAsked }
    ensures newest { NeverFalls }
    ensures within { IsWithin }
{}
