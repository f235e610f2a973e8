//! Cards worked out by hand.
ghost use Rattle.cases.specs.Worked.{WorkedCards};

/// Carries what the definitions answer to the worked cards.
pub fn worked_cards()
    ensures { WorkedCards }
{}
