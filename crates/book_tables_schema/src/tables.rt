//! The texts that make the tables and their indexes.

ghost use Rattle.std.specs.Prelude.{◌≡◌, OnOk, IsTrue};
ghost use Rattle.sqlite.specs.Held.{state};
ghost use Rattle.sqlite.specs.State.{HasCleanDisk, Survives};
ghost use Rattle.book_tables_rows.specs.Steps.{Keeps};
ghost use Rattle.book_tables_schema.specs.Founding.{Extending, GetsDerived, Indexing, Ran, Renews, no_schema, with_member, with_meta, with_ace2, with_reach, with_owner, with_members, with_all};

use sqlite::{Alter, Error, Transaction};

/// Runs a text that has no parameters.
pub(crate) fn run<S: Alter>(transaction: &mut Transaction<'_, S>, sql: &str) -> Result<(), Error>
    ensures same_reference { transaction.new.conn.ghost_name ≡ transaction.old.conn.ghost_name }
    ensures survives { Survives (state S.Store transaction.old.conn.now)
        (state S.Store transaction.new.conn.now) (λ _. ⊥) }
    ensures kept { Keeps (state S.Store transaction.old.conn.now)
        (state S.Store transaction.new.conn.now) }
    ensures done { HasCleanDisk (state S.Store transaction.new.conn.now)
        → IsTrue (state S.Store transaction.old.conn.now).in_transaction
        → OnOk result (Ran sql.now (state S.Store transaction.old.conn.now)
        (state S.Store transaction.new.conn.now)) }
{
    transaction.execute(sql, &[])?;
    Ok(())
}

/// Makes the tables of nodes, of entries of version 1, which stays empty, and of members.
fn make_first_tables<S: Alter>(transaction: &mut Transaction<'_, S>) -> Result<(), Error>
    ensures same_reference { transaction.new.conn.ghost_name ≡ transaction.old.conn.ghost_name }
    ensures survives { Survives (state S.Store transaction.old.conn.now)
        (state S.Store transaction.new.conn.now) (λ _. ⊥) }
    ensures kept { Keeps (state S.Store transaction.old.conn.now)
        (state S.Store transaction.new.conn.now) }
    ensures done { Extending (state S.Store transaction.old.conn.now)
        (state S.Store transaction.new.conn.now) result no_schema with_member }
{
    run(
        transaction,
        "CREATE TABLE node (id INTEGER PRIMARY KEY, path TEXT NOT NULL UNIQUE, parent INTEGER REFERENCES node ON DELETE CASCADE, kind INTEGER NOT NULL, owner TEXT REFERENCES node (path), label TEXT NOT NULL, text TEXT, number INTEGER NOT NULL) STRICT",
    )?;
    run(
        transaction,
        "CREATE TABLE ace (node INTEGER NOT NULL REFERENCES node ON DELETE CASCADE, protected INTEGER NOT NULL, place INTEGER NOT NULL, form INTEGER NOT NULL, principal TEXT REFERENCES node (path), invert INTEGER NOT NULL, deny INTEGER NOT NULL, mask INTEGER NOT NULL, PRIMARY KEY (node, protected, place)) STRICT",
    )?;
    run(
        transaction,
        "CREATE TABLE member (grp TEXT NOT NULL REFERENCES node (path), member TEXT NOT NULL REFERENCES node (path), PRIMARY KEY (grp, member)) STRICT",
    )
}

/// Makes the tables of removed names and of the version.
fn make_last_tables<S: Alter>(transaction: &mut Transaction<'_, S>) -> Result<(), Error>
    ensures same_reference { transaction.new.conn.ghost_name ≡ transaction.old.conn.ghost_name }
    ensures survives { Survives (state S.Store transaction.old.conn.now)
        (state S.Store transaction.new.conn.now) (λ _. ⊥) }
    ensures kept { Keeps (state S.Store transaction.old.conn.now)
        (state S.Store transaction.new.conn.now) }
    ensures done { Extending (state S.Store transaction.old.conn.now)
        (state S.Store transaction.new.conn.now) result with_member with_meta }
{
    run(
        transaction,
        "CREATE TABLE gone (book INTEGER NOT NULL REFERENCES node ON DELETE CASCADE, name TEXT NOT NULL, number INTEGER NOT NULL, PRIMARY KEY (book, name)) STRICT",
    )?;
    run(
        transaction,
        "CREATE TABLE meta (version INTEGER NOT NULL, epoch INTEGER NOT NULL) STRICT",
    )
}

/// Makes the table of entries that version 2 has beside the tables of version 1. In a store that is founded, and in one
/// that has rows.
pub fn make_second_table<S: Alter>(transaction: &mut Transaction<'_, S>) -> Result<(), Error>
    ensures same_reference { transaction.new.conn.ghost_name ≡ transaction.old.conn.ghost_name }
    ensures survives { Survives (state S.Store transaction.old.conn.now)
        (state S.Store transaction.new.conn.now) (λ _. ⊥) }
    ensures kept { Keeps (state S.Store transaction.old.conn.now)
        (state S.Store transaction.new.conn.now) }
    ensures done { Extending (state S.Store transaction.old.conn.now)
        (state S.Store transaction.new.conn.now) result with_meta with_ace2 }
    ensures renewed { HasCleanDisk (state S.Store transaction.new.conn.now)
        → IsTrue (state S.Store transaction.old.conn.now).in_transaction
        → OnOk result (Renews (state S.Store transaction.old.conn.now)
        (state S.Store transaction.new.conn.now)) }
{
    run(
        transaction,
        "CREATE TABLE ace2 (node INTEGER NOT NULL REFERENCES node ON DELETE CASCADE, protected INTEGER NOT NULL, place INTEGER NOT NULL, form INTEGER NOT NULL, principal TEXT REFERENCES node (path), invert INTEGER NOT NULL, deny INTEGER NOT NULL, mask INTEGER NOT NULL, PRIMARY KEY (node, protected, place)) STRICT",
    )
}

/// Makes the indexes of children and of owners.
fn make_node_indexes<S: Alter>(transaction: &mut Transaction<'_, S>) -> Result<(), Error>
    ensures same_reference { transaction.new.conn.ghost_name ≡ transaction.old.conn.ghost_name }
    ensures survives { Survives (state S.Store transaction.old.conn.now)
        (state S.Store transaction.new.conn.now) (λ _. ⊥) }
    ensures kept { Keeps (state S.Store transaction.old.conn.now)
        (state S.Store transaction.new.conn.now) }
    ensures done { Indexing (state S.Store transaction.old.conn.now)
        (state S.Store transaction.new.conn.now) result with_reach with_owner }
{
    run(
        transaction,
        "CREATE INDEX node_parent ON node (parent, number)",
    )?;
    run(transaction, "CREATE INDEX node_owner ON node (owner)")
}

/// Makes the indexes of principals of version 1 and of members.
fn make_principal_indexes<S: Alter>(transaction: &mut Transaction<'_, S>) -> Result<(), Error>
    ensures same_reference { transaction.new.conn.ghost_name ≡ transaction.old.conn.ghost_name }
    ensures survives { Survives (state S.Store transaction.old.conn.now)
        (state S.Store transaction.new.conn.now) (λ _. ⊥) }
    ensures kept { Keeps (state S.Store transaction.old.conn.now)
        (state S.Store transaction.new.conn.now) }
    ensures done { Indexing (state S.Store transaction.old.conn.now)
        (state S.Store transaction.new.conn.now) result with_owner with_members }
{
    run(transaction, "CREATE INDEX ace_principal ON ace (principal)")?;
    run(transaction, "CREATE INDEX member_member ON member (member)")
}

/// Makes the indexes of principals, of removed names and of groups.
fn make_last_indexes<S: Alter>(transaction: &mut Transaction<'_, S>) -> Result<(), Error>
    ensures same_reference { transaction.new.conn.ghost_name ≡ transaction.old.conn.ghost_name }
    ensures survives { Survives (state S.Store transaction.old.conn.now)
        (state S.Store transaction.new.conn.now) (λ _. ⊥) }
    ensures kept { Keeps (state S.Store transaction.old.conn.now)
        (state S.Store transaction.new.conn.now) }
    ensures done { Indexing (state S.Store transaction.old.conn.now)
        (state S.Store transaction.new.conn.now) result with_members with_all }
{
    run(
        transaction,
        "CREATE INDEX ace2_principal ON ace2 (principal)",
    )?;
    run(transaction, "CREATE INDEX gone_book ON gone (book, number)")?;
    run(transaction, "CREATE INDEX reach_grp ON reach (grp)")
}

fn make_indexes<S: Alter>(transaction: &mut Transaction<'_, S>) -> Result<(), Error>
    ensures same_reference { transaction.new.conn.ghost_name ≡ transaction.old.conn.ghost_name }
    ensures survives { Survives (state S.Store transaction.old.conn.now)
        (state S.Store transaction.new.conn.now) (λ _. ⊥) }
    ensures kept { Keeps (state S.Store transaction.old.conn.now)
        (state S.Store transaction.new.conn.now) }
    ensures done { Indexing (state S.Store transaction.old.conn.now)
        (state S.Store transaction.new.conn.now) result with_reach with_all }
{
    make_node_indexes(transaction)?;
    make_principal_indexes(transaction)?;
    make_last_indexes(transaction)
}

/// Makes the table of the groups that chains of members lead to, behind all other tables, and then the indexes that only
/// make look-ups fast: in a store that is founded, and in one that has rows.
pub fn make_derived<S: Alter>(transaction: &mut Transaction<'_, S>) -> Result<(), Error>
    ensures same_reference { transaction.new.conn.ghost_name ≡ transaction.old.conn.ghost_name }
    ensures survives { Survives (state S.Store transaction.old.conn.now)
        (state S.Store transaction.new.conn.now) (λ _. ⊥) }
    ensures kept { Keeps (state S.Store transaction.old.conn.now)
        (state S.Store transaction.new.conn.now) }
    ensures done { Extending (state S.Store transaction.old.conn.now)
        (state S.Store transaction.new.conn.now) result with_ace2 with_all }
    ensures got { HasCleanDisk (state S.Store transaction.new.conn.now)
        → IsTrue (state S.Store transaction.old.conn.now).in_transaction
        → OnOk result (GetsDerived (state S.Store transaction.old.conn.now)
        (state S.Store transaction.new.conn.now)) }
{
    run(
        transaction,
        "CREATE TABLE reach (grp TEXT NOT NULL REFERENCES node (path), member TEXT NOT NULL REFERENCES node (path), PRIMARY KEY (member, grp)) STRICT",
    )?;
    make_indexes(transaction)
}

/// Makes the tables, and then the indexes that only make look-ups fast.
pub(crate) fn make_tables<S: Alter>(transaction: &mut Transaction<'_, S>) -> Result<(), Error>
    ensures same_reference { transaction.new.conn.ghost_name ≡ transaction.old.conn.ghost_name }
    ensures survives { Survives (state S.Store transaction.old.conn.now)
        (state S.Store transaction.new.conn.now) (λ _. ⊥) }
    ensures kept { Keeps (state S.Store transaction.old.conn.now)
        (state S.Store transaction.new.conn.now) }
    ensures done { Extending (state S.Store transaction.old.conn.now)
        (state S.Store transaction.new.conn.now) result no_schema with_all }
{
    make_first_tables(transaction)?;
    make_last_tables(transaction)?;
    make_second_table(transaction)?;
    make_derived(transaction)
}
