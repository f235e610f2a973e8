//! Turnrounds and cards worked out by hand.
ghost use Rattle.graph_cases.specs.Turnrounds.{WorkedTurnrounds, RefusedCards};

/// Carries what the definitions say of the worked turnrounds.
pub fn worked_turnrounds()
    ensures { WorkedTurnrounds }
{}

/// Carries what the definitions answer to cards that are refused.
pub fn refused_cards()
    ensures { RefusedCards }
{}
