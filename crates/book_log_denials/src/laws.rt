//! What the definitions imply.

ghost use Rattle.book_log_denials.specs.Laws.{EmptyGroupsAreUntold, ObjectsAreJson, TalliesTellFirstAndLast};

/// Of a group that is told there are as many denials as its count, as far as 64 bits go; the first time is that of one of
/// them and none is before it, and the last is that of one of them and none is after it. A group without a denial is not
/// told.
pub fn tallies_tell_first_and_last()
    ensures told { TalliesTellFirstAndLast }
    ensures untold { EmptyGroupsAreUntold }
{}

/// The line of a group as an object is the text of one JSON object (RFC 8259): its count and times, and then its members.
pub fn objects_are_json()
    ensures { ObjectsAreJson }
{}
