//! What the definitions imply.

ghost use Rattle.book_dumps.specs.Laws.{DumpsAreExact, DumpsTellEveryResource, LinesAreDumped};

/// A text is the dump of at most one sound Office.
pub fn dumps_are_exact()
    ensures { DumpsAreExact }
{}

/// The dump of a sound Office has a line for each of its resources and no other, in byte order of the texts of the paths; and
/// the line that `show` gives is one of them.
pub fn dumps_tell_every_resource()
    ensures resources { DumpsTellEveryResource }
    ensures lines { LinesAreDumped }
{}
