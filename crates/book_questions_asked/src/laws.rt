//! What the definitions imply.

ghost use Rattle.book_questions_asked.specs.Laws.{ExplainAnswersAsk, ExplainTellsWhy, StatedDecisionsAreTheOffices};

/// What answers a question of what is stated is what answers it of the Office (RFC 3744, section 6).
pub fn stated_decisions_are_the_offices()
    ensures { StatedDecisionsAreTheOffices }
{}

/// To the text that `ask` tells of a sound Office `explain` answers exactly the decision of the Office: whether the need is
/// granted, or by which entry it is denied, and the leaves that are granted (RFC 3744, section 6).
pub fn explain_answers_ask()
    ensures { ExplainAnswersAsk }
{}

/// The first line of that answer is the decision that `why` tells of the same caller, leaves and resource: the same
/// privilege, and the entry with the same number.
pub fn explain_tells_why()
    ensures { ExplainTellsWhy }
{}
