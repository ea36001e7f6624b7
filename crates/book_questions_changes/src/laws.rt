//! What the definitions imply.

ghost use Rattle.book_questions_changes.specs.Laws.{UnchangedIsEqual, UnchangedIsNoAdoption, UnchangedIsTold};

/// `unchanged` is told exactly where two Offices have the same direct memberships and the same resources that are no
/// cards, each with its owner, its label and its lists, and grant the same rights (own profile).
pub fn unchanged_is_told()
    ensures { UnchangedIsTold }
{}

/// `unchanged` is told exactly where two Offices with the same cards are equal but for the epoch (own profile).
pub fn unchanged_is_equal()
    ensures { UnchangedIsEqual }
{}

/// `unchanged` is told of an Office and of what an adoption makes of it exactly where the adoption changes nothing (own
/// profile).
pub fn unchanged_is_no_adoption()
    ensures { UnchangedIsNoAdoption }
{}
