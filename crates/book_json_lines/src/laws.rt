//! What the definitions imply.

ghost use Rattle.book_json_lines.specs.Laws.{ValuesAreLines};

/// The text of a value whose numbers are numerals has one line feed, and that is its last byte.
pub fn values_are_lines()
    ensures { ValuesAreLines }
{}
