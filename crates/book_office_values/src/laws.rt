//! What the definitions of paths imply, stated on public functions since only what a contract names is proved.

ghost use Rattle.book_office_values.specs.Paths.{TextsSpellOnePath, TextsTellPaths, LevelsGoUp};

/// A text spells at most one path; so different paths have different texts.
pub fn texts_spell_one_path()
    ensures spelled { TextsSpellOnePath }
    ensures told { TextsTellPaths }
{}

/// The levels of a path are the path and the levels of the path above it, up to the root.
pub fn levels_go_up()
    ensures { LevelsGoUp }
{}
