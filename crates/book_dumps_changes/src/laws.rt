//! Laws of the definitions.

ghost use Rattle.book_dumps_changes.specs.Laws.{JoinedListsAreChangedApart, OthersAreRuledAlike};

/// Laws of a person who is gone: of everybody else each list rules of each leaf what it ruled before, at a resource whose
/// owner stays; and so do lists that are joined, as those of a resource and of the levels above it.
pub fn others_are_ruled_alike()
    ensures alike { OthersAreRuledAlike }
    ensures joined { JoinedListsAreChangedApart }
{}
