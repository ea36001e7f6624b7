//! What the definitions imply.

ghost use Rattle.book_office_members.specs.Members.{EqualViewsHaveEqualMembers, MembersExist};
ghost use Rattle.book_office_members.specs.Names.{NamesExist};
ghost use Rattle.book_office_members.specs.Steps.{MembersAreDetermined};

/// The members of a card among cards are one value.
pub fn members_are_determined()
    ensures { MembersAreDetermined }
{}

/// The members of a card depend on the view alone: where two callers, perhaps of two Offices, see the same of a book, the
/// members of each name are the same. What a caller may not read of the book changes nothing.
pub fn equal_views_have_equal_members()
    ensures { EqualViewsHaveEqualMembers }
{}

/// Each name of each book has members, and each book has its names, in the view of each caller.
pub fn members_exist()
    ensures members { MembersExist }
    ensures names { NamesExist }
{}
