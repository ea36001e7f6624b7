//! What the definitions imply.

ghost use Rattle.book_questions_audit.specs.Laws.{PartsAreOfTheAudit, PartsTellEveryResource};

/// An audit of a part of a sound Office tells each resource at the path and below it once, with its owner and its two lists,
/// and nothing else; where cards without a list of their own are not wanted, none of these.
pub fn parts_tell_every_resource()
    ensures { PartsTellEveryResource }
{}

/// Where labels are not wanted, what an audit of a part tells of a resource of a sound Office is what the whole audit tells
/// of it.
pub fn parts_are_of_the_audit()
    ensures { PartsAreOfTheAudit }
{}
