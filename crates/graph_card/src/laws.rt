//! One graph, one card.
ghost use Rattle.graph_card.specs.Laws.{ReadsBack, OneGraph, OneCard, Largest};

/// Carries the laws of cards: the card of a graph is taken and gives that graph back, two graphs with one card are equal, a
/// graph has one card, and no card has more than 345 bytes.
pub fn card_laws()
    ensures back { ReadsBack }
    ensures graph { OneGraph }
    ensures card { OneCard }
    ensures largest { Largest }
{}
