//! What the definitions imply.

ghost use Rattle.book_questions_differs.specs.Laws.{AlikeIsTested, CardsHaveOneClass, ClassesTellWhatDiffers, EachIsTold, EverybodyIsAsked, LinesTellWhatDiffers};

/// A line tells exactly the decisions that differ, at a resource and at each of equal cards (RFC 3744, section 6): `lost`
/// has a leaf of a caller exactly where the Office before grants it and the one after does not, and `gained` exactly the
/// other way round.
pub fn lines_tell_what_differs()
    ensures resources { LinesTellWhatDiffers }
    ensures cards { ClassesTellWhatDiffers }
{}

/// Two cards of a book are told in one class exactly where their owners and own lists are equal in both Offices.
pub fn classes_are_of_equal_pairs()
    ensures tested { AlikeIsTested }
    ensures one { CardsHaveOneClass }
{}

/// Nobody, each person and each resource of either Office is told, once, and so is each class of the cards of a book.
pub fn everything_is_told()
    ensures callers { EverybodyIsAsked }
    ensures resources { EachIsTold }
{}
