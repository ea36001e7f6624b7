//! What the definitions imply.

ghost use Rattle.book_log_lines.specs.Laws.{LinesEndOnce};

/// A line of a log has one line feed, and that is its last byte.
pub fn lines_end_once()
    ensures { LinesEndOnce }
{}
