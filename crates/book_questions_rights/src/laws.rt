//! What the definitions imply.

ghost use Rattle.book_questions_rights.specs.Laws.{AlikeIsTested, CardsHaveOneClass, ClassesTellTheGrants, EachIsTold, LinesTellTheGrants};

/// A leaf stands in the line of a caller exactly where the decision grants it, at a resource and at each of equal cards
/// (RFC 3744, section 6).
pub fn rights_are_the_grants()
    ensures resources { LinesTellTheGrants }
    ensures cards { ClassesTellTheGrants }
{}

/// Two cards of a book are told in one class exactly where their owners and own lists are equal.
pub fn classes_are_of_equal_cards()
    ensures tested { AlikeIsTested }
    ensures one { CardsHaveOneClass }
{}

/// Each resource at a path and below it is told, and each class of the cards of a book, once.
pub fn each_resource_is_told()
    ensures { EachIsTold }
{}
