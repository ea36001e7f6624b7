//! What the definitions imply.

ghost use Rattle.book_questions_json.specs.Laws.{ObjectsTellTheWords, RightsTellTheHeld, TextsTellTheFacts};

/// The text of an answer has the words of the facts whose objects are told, in the same order.
pub fn texts_tell_the_facts()
    ensures { TextsTellTheFacts }
{}

/// The lines of `rights` at a place, and at equal cards, have the words of those whose objects are told there, in the same
/// order.
pub fn rights_tell_the_held()
    ensures { RightsTellTheHeld }
{}

/// An object tells each value of the words of its fact: facts with one object have the same words.
pub fn objects_tell_the_words()
    ensures { ObjectsTellTheWords }
{}
