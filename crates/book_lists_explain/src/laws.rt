//! Laws of the definitions that the contract of `explain` cites.

ghost use Rattle.book_lists_explain.specs.Explanations.{HasOneAnswer, HasOneFault, AnswerExcludesFault, HasAnswerOrFault};

/// A law: a text has at most one answer.
pub fn answers_are_one()
    ensures one_answer { HasOneAnswer }
{}

/// A law: a text has at most one fault beside want of memory.
pub fn explain_faults_are_one()
    ensures one_fault { HasOneFault }
{}

/// A law: a text that has an answer has no fault but want of memory.
pub fn answers_exclude_faults()
    ensures no_fault { AnswerExcludesFault }
{}

/// A law: each text has an answer, or a fault other than want of memory.
pub fn texts_have_answers_or_faults()
    ensures answer_or_fault { HasAnswerOrFault }
{}
