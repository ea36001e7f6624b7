//! What the definitions imply.

ghost use Rattle.book_log_replies.specs.Laws.{DenialsNameTheEntry, EditsTellTheirChanges, LinesTellNoContents, PlacesAreInForce};

/// A line tells of a request its method, its path and its destination, and of a reply its status and its refusal, and
/// nothing more: requests and replies that differ in anything else, as the text of a card or a label, have the same line.
pub fn lines_tell_no_contents()
    ensures { LinesTellNoContents }
{}

/// Of a denial by an entry (RFC 3744, section 7.1.1) the line tells that entry: it stands at its place in its list at the
/// resource where the denial says that it stands, and has its number in the effective list.
pub fn denials_name_the_entry()
    ensures in_force { PlacesAreInForce }
    ensures named { DenialsNameTheEntry }
{}

/// What a line tells of an edit is what changed: each number is that of its card's last change in the Office after the edit,
/// and in a book that is there before and after, no other name changed.
pub fn edits_tell_their_changes()
    ensures { EditsTellTheirChanges }
{}
