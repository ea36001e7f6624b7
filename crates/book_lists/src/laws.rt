//! Laws of the definitions.

ghost use Rattle.book_lists.specs.Decisions.{DecidersDecide};
ghost use Rattle.book_lists.specs.Widening.{NeedsAreWidened, WidenedListsDecideAlike, WidenedMasksAreWidenedSets};

/// Laws of what becomes of entries of schema version 1, which knew eight leaves: of a list and a need the decision stays
/// where both are widened; each need of a request is a widened one, but that of the report of names; and a set is
/// widened by its mask.
pub fn widened_lists_decide_alike()
    ensures decided { WidenedListsDecideAlike }
    ensures needs { NeedsAreWidened }
    ensures masks { WidenedMasksAreWidenedSets }
{}

/// A law of the decision: what is found as the decider of a leaf is exactly what decides it.
pub fn deciders_decide()
    ensures { DecidersDecide }
{}
