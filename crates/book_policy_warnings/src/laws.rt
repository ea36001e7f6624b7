//! What the definitions imply.

ghost use Rattle.book_policy_warnings.specs.Laws.{CardsHaveNoPart};

/// What is told of a policy over a copy of an Office without its cards is told over the Office itself.
pub fn cards_have_no_part()
    ensures { CardsHaveNoPart }
{}
