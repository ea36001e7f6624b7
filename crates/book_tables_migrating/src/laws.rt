//! A law of the definitions.

ghost use Rattle.book_tables_migrating.specs.Migrating.{WidenedOfficesDecideAlike};

/// A law: for an Office of a store of version 1, each caller may do after a migration what it might do before, and each
/// denial names the same entry, at the same path, and the same privilege.
pub fn widened_offices_decide_alike()
    ensures { WidenedOfficesDecideAlike }
{}
