//! What the definitions imply, stated on a public function since only what a contract names is proved.

ghost use Rattle.book_tables.specs.Laws.{TablesStandForOneOffice};

/// Tables stand for one Office at most. So what a stop leaves of a store is one Office, or none.
pub fn tables_stand_for_one_office()
    ensures { TablesStandForOneOffice }
{}
