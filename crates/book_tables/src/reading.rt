//! What the tables tell of a resource, and the access epoch.

ghost use Rattle.std.specs.Prelude.{◌≡◌, IfOk, option_map, string_bytes};
ghost use Rattle.sqlite.specs.Held.{state};
ghost use Rattle.sqlite.specs.State.{HasCleanDisk, Survives};
ghost use Rattle.book_office.specs.Resources.{node_at};
ghost use Rattle.book_tables_rows.specs.Nodes.{told};
ghost use Rattle.book_tables_rows.specs.Steps.{Keeps, Spares};
ghost use Rattle.book_tables.specs.Inside.{ReadsInside, inside_of};
ghost use Rattle.book_tables.specs.Reading.{ShowsNode, node_told};
ghost use Rattle.book_tables.specs.Rows.{kind_numbered};

use crate::faults::fault_of;
use crate::texts::text_of;
use book_lists::Principal;
use book_office::{Node, StoreFault};
use book_office_values::{Kind, Path, Text};
use book_tables_rows::{FoundNode, look_up, read_epoch};
use sqlite::{Alter, Error, ErrorCode, Transaction};
use std::alloc::Global;

/// The kind with a code; an error for a code that no kind has.
pub(crate) fn kind_of(code: u32) -> Result<Kind, Error>
    ensures { IfOk result (λ kind. kind ≡ kind_numbered code) }
{
    match code {
        0 => Ok(Kind::Root),
        1 => Ok(Kind::Home),
        2 => Ok(Kind::Person),
        3 => Ok(Kind::Group),
        4 => Ok(Kind::Book),
        5 => Ok(Kind::Card),
        _ => Err(Error::SqliteFailure(ErrorCode::DatabaseCorrupt)),
    }
}

/// The principal with this path; an error where it is the path of none.
pub(crate) fn principal_of(alloc: Global, path: &str) -> Result<Principal, Error>
    ensures { IfOk result (λ principal. principal ≡ path.now) }
{
    let Some(principal) = Principal::parse(alloc, path)? else {
        return Err(Error::SqliteFailure(ErrorCode::DatabaseCorrupt));
    };
    if principal.text() != path {
        return Err(Error::SqliteFailure(ErrorCode::DatabaseCorrupt));
    }
    Ok(principal)
}

/// The owner with this path, if there is one.
pub(crate) fn owner_of(alloc: Global, path: Option<String>) -> Result<Option<Principal>, Error>
    ensures { IfOk result (λ owner. owner ≡ option_map string_bytes path) }
{
    let Some(path) = path else {
        return Ok(None);
    };
    Ok(Some(principal_of(alloc, path.as_str())?))
}

/// The resource that a row tells.
fn node_of(alloc: Global, found: FoundNode) -> Result<Node, Error>
    ensures { IfOk result (λ node. node ≡ node_told (told found)) }
{
    let kind = kind_of(found.kind)?;
    let owner = owner_of(alloc, found.owner)?;
    Ok(Node {
        kind,
        owner,
        label: Text::from_string(found.label),
        text: found.text.map(Text::from_string),
        number: found.number,
    })
}

/// The resource at a path, without its lists; none where no row has the path.
fn shown_node<S: Alter>(
    alloc: Global,
    transaction: &mut Transaction<'_, S>,
    path: &str,
) -> Result<Option<Node>, Error>
    ensures same_reference { transaction.new.conn.ghost_name ≡ transaction.old.conn.ghost_name }
    ensures survives { Survives (state S.Store transaction.old.conn.now)
        (state S.Store transaction.new.conn.now) (λ _. ⊥) }
    ensures kept { Keeps (state S.Store transaction.old.conn.now)
        (state S.Store transaction.new.conn.now) }
    ensures stays { Spares (state S.Store transaction.old.conn.now)
        (state S.Store transaction.new.conn.now) result }
    ensures found { HasCleanDisk (state S.Store transaction.new.conn.now)
        → IfOk result (λ node. ShowsNode (state S.Store transaction.old.conn.now) path.now node) }
{
    let Some(found) = look_up(transaction, path)? else {
        return Ok(None);
    };
    Ok(Some(node_of(alloc, found)?))
}

/// The resource at a path, without its lists; none where none is mapped. One look-up by path. `Memory` is want of
/// memory, `Store` any other failure of the store.
pub(crate) fn find<S: Alter>(
    alloc: Global,
    transaction: &mut Transaction<'_, S>,
    failures: &mut u64,
    path: &Path,
) -> Result<Option<Node>, StoreFault>
    ensures same_reference { transaction.new.conn.ghost_name ≡ transaction.old.conn.ghost_name }
    ensures reads { ReadsInside (inside_of (state S.Store transaction.old.conn.now) failures.old)
        (inside_of (state S.Store transaction.new.conn.now) failures.new) result
        (λ o node. node ≡ node_at o path.now) }
{
    path.known();
    let text = text_of(alloc, path)?;
    match shown_node(alloc, transaction, text.as_str()) {
        Ok(node) => Ok(node),
        Err(error) => Err(fault_of(error, failures)),
    }
}

/// The access epoch. `Memory` is want of memory, `Store` any other failure of the store.
pub(crate) fn epoch<S: Alter>(
    transaction: &mut Transaction<'_, S>,
    failures: &mut u64,
) -> Result<u64, StoreFault>
    ensures same_reference { transaction.new.conn.ghost_name ≡ transaction.old.conn.ghost_name }
    ensures reads { ReadsInside (inside_of (state S.Store transaction.old.conn.now) failures.old)
        (inside_of (state S.Store transaction.new.conn.now) failures.new) result
        (λ o epoch. epoch ≡ o.epoch) }
{
    match read_epoch(transaction) {
        Ok(epoch) => Ok(epoch),
        Err(error) => Err(fault_of(error, failures)),
    }
}
