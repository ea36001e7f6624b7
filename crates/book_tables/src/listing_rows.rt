//! The children of a resource, and how many there are.

ghost use Rattle.std.specs.Prelude.{◌≡◌, List, IfOk, map};
ghost use Rattle.sqlite.specs.Held.{state};
ghost use Rattle.sqlite.specs.State.{HasCleanDisk, Survives};
ghost use Rattle.book_lists.specs.declared.entries.Entry.{Entry as EntryTold};
ghost use Rattle.book_office.specs.Resources.{children_at, count_at};
ghost use Rattle.book_office_values.specs.Paths.{path_text};
ghost use Rattle.book_tables_rows.specs.Steps.{Keeps, Spares};
ghost use Rattle.book_tables.specs.Inside.{ReadsInside, inside_of};
ghost use Rattle.book_tables.specs.Children.{ShowsChildCount, ShowsChildrenOf, ShowsListing, listed_shown, text_above};
ghost use Rattle.book_tables.specs.Shares.{DoNotFall, child_among};

use crate::changes::name_behind;
use crate::faults::fault_of;
use crate::reading::{kind_of, owner_of};
use crate::shares::{entries_of_node, list_told};
use crate::spans::have_no_entries;
use crate::texts::text_of;
use book_lists::{Entry, Name, Principal};
use book_office::{Listed, StoreFault};
use book_office_values::{Items, Kind, Path, Text};
use book_tables_rows::{child_entry_rows, child_rows, count_children, look_up};
use sqlite::{Alter, Error, ErrorCode, Row, Transaction};
use std::alloc::{AllocError, Global};

/// The count at which SQL stops.
const COUNT_END: u64 = 9_223_372_036_854_775_807;

/// What the texts of the paths right below a path begin with: its text and a slash, for the root a slash alone.
fn text_before(alloc: Global, path: &Path) -> Result<Text, AllocError>
    ensures { IfOk result (λ text. text ≡ text_above path.now) }
{
    match path {
        Path::Root => Text::copy_of(alloc, "/"),
        Path::People => Text::copy_of(alloc, "/people/"),
        Path::Groups => Text::copy_of(alloc, "/groups/"),
        Path::Books => Text::copy_of(alloc, "/books/"),
        Path::Person(_) | Path::Group(_) | Path::Book(_) | Path::Card(_, _) => {
            let text = path.text(alloc)?;
            Ok(Text::from_string(format!(in alloc; "{text}/")?))
        }
    }
}

/// A child without its lists.
#[derive(Drop)]
struct Head {
    name: Name,
    kind: Kind,
    owner: Option<Principal>,
    label: Text,
    number: u64,
}

/// The child of a row without its lists: number of its row, path, kind, owner, label and change number are read.
fn head_of(alloc: Global, front: &str, row: &Row) -> Result<Head, Error>
    ensures { IfOk result (λ head. (protected own : List EntryTold)
        → listed_shown front.now protected own row.now ≡ record {
          name = head.name;
          kind = head.kind;
          owner = head.owner;
          label = head.label;
          number = head.number;
          protected = protected;
          own = own;
        }) }
{
    let path: String = row.get(1)?;
    let kind = row.get(2)?;
    let owner = row.get(3)?;
    let label = row.get(4)?;
    let number = row.get(5)?;
    let kind = kind_of(kind)?;
    let owner = owner_of(alloc, owner)?;
    let name = name_behind(alloc, front, path.as_str())?;
    Ok(Head {
        name,
        kind,
        owner,
        label: Text::from_string(label),
        number,
    })
}

/// The child that has these lists.
fn listed_of(
    alloc: Global,
    front: &str,
    row: &Row,
    protected: Items<Entry>,
    own: Items<Entry>,
) -> Result<Listed, Error>
    ensures { IfOk result (λ listed. listed ≡ listed_shown front.now protected own row.now) }
{
    let head = head_of(alloc, front, row)?;
    Ok(Listed {
        name: head.name,
        kind: head.kind,
        owner: head.owner,
        label: head.label,
        number: head.number,
        protected,
        own,
    })
}

/// A child with its lists, among the entries of all children in order of the child's number.
fn child_listed(alloc: Global, front: &str, row: &Row, entries: &[Row]) -> Result<Listed, Error>
    ensures { IfOk result (λ listed. DoNotFall entries.now
        → listed ≡ child_among entries.now front.now row.now) }
{
    let its = entries_of_node(entries, row.get(0)?);
    let protected = list_told(alloc, its, true)?;
    let own = list_told(alloc, its, false)?;
    listed_of(alloc, front, row, protected, own)
}

/// The children whose rows are given, with their lists.
fn children_listed(
    alloc: Global,
    front: &str,
    rows: &[Row],
    entries: &[Row],
) -> Result<Vec<Listed>, Error>
    ensures { IfOk result (λ children. DoNotFall entries.now
        → children.items ≡ map (child_among entries.now front.now) rows.now) }
{
    let mut children = Vec::with_capacity(alloc, rows.len())?;
    'children: for row in rows {
        children.push(child_listed(alloc, front, row, entries)?)?;
    }
    Ok(children)
}

/// The children of the node with a number, whose rows are given, with their lists, among the entries of all of them.
fn children_joined<S: Alter>(
    alloc: Global,
    transaction: &mut Transaction<'_, S>,
    node: i64,
    front: &str,
    rows: &[Row],
) -> Result<Vec<Listed>, Error>
    ensures same_reference { transaction.new.conn.ghost_name ≡ transaction.old.conn.ghost_name }
    ensures survives { Survives (state S.Store transaction.old.conn.now)
        (state S.Store transaction.new.conn.now) (λ _. ⊥) }
    ensures kept { Keeps (state S.Store transaction.old.conn.now)
        (state S.Store transaction.new.conn.now) }
    ensures stays { Spares (state S.Store transaction.old.conn.now)
        (state S.Store transaction.new.conn.now) result }
    ensures shown { HasCleanDisk (state S.Store transaction.new.conn.now)
        → IfOk result (λ children. ShowsChildrenOf
        (state S.Store transaction.old.conn.now) node front.now rows.now children.items) }
{
    let entries = child_entry_rows(transaction, node)?;
    children_listed(alloc, front, rows, &entries)
}

/// The same; where it is told that none has an entry, their entries are not looked up.
fn children_told<S: Alter>(
    alloc: Global,
    transaction: &mut Transaction<'_, S>,
    node: i64,
    front: &str,
    rows: &[Row],
) -> Result<Vec<Listed>, Error>
    ensures same_reference { transaction.new.conn.ghost_name ≡ transaction.old.conn.ghost_name }
    ensures survives { Survives (state S.Store transaction.old.conn.now)
        (state S.Store transaction.new.conn.now) (λ _. ⊥) }
    ensures kept { Keeps (state S.Store transaction.old.conn.now)
        (state S.Store transaction.new.conn.now) }
    ensures stays { Spares (state S.Store transaction.old.conn.now)
        (state S.Store transaction.new.conn.now) result }
    ensures shown { HasCleanDisk (state S.Store transaction.new.conn.now)
        → IfOk result (λ children. ShowsChildrenOf
        (state S.Store transaction.old.conn.now) node front.now rows.now children.items) }
{
    if have_no_entries(transaction, rows)? {
        return children_listed(alloc, front, rows, &[]);
    }
    children_joined(alloc, transaction, node, front, rows)
}

/// The children of the node at a path, in order of their paths; none where no row has the path.
fn listing_at<S: Alter>(
    alloc: Global,
    transaction: &mut Transaction<'_, S>,
    path: &str,
    front: &str,
) -> Result<Vec<Listed>, Error>
    ensures same_reference { transaction.new.conn.ghost_name ≡ transaction.old.conn.ghost_name }
    ensures survives { Survives (state S.Store transaction.old.conn.now)
        (state S.Store transaction.new.conn.now) (λ _. ⊥) }
    ensures kept { Keeps (state S.Store transaction.old.conn.now)
        (state S.Store transaction.new.conn.now) }
    ensures stays { Spares (state S.Store transaction.old.conn.now)
        (state S.Store transaction.new.conn.now) result }
    ensures shown { HasCleanDisk (state S.Store transaction.new.conn.now)
        → IfOk result (λ children. ShowsListing
        (state S.Store transaction.old.conn.now) path.now front.now children.items) }
{
    let Some(node) = look_up(transaction, path)? else {
        return Ok(Vec::new(alloc));
    };
    let id = node.id;
    drop(node);
    let rows = child_rows(transaction, id)?;
    children_told(alloc, transaction, id, front, &rows)
}

/// How many children the resource at a path has; an error where there are more than SQL counts.
fn shown_count<S: Alter>(transaction: &mut Transaction<'_, S>, path: &str) -> Result<usize, Error>
    ensures same_reference { transaction.new.conn.ghost_name ≡ transaction.old.conn.ghost_name }
    ensures survives { Survives (state S.Store transaction.old.conn.now)
        (state S.Store transaction.new.conn.now) (λ _. ⊥) }
    ensures kept { Keeps (state S.Store transaction.old.conn.now)
        (state S.Store transaction.new.conn.now) }
    ensures stays { Spares (state S.Store transaction.old.conn.now)
        (state S.Store transaction.new.conn.now) result }
    ensures counted { HasCleanDisk (state S.Store transaction.new.conn.now)
        → IfOk result (λ count. ShowsChildCount (state S.Store transaction.old.conn.now) path.now count) }
{
    let count = count_children(transaction, path)?;
    if count >= COUNT_END {
        return Err(Error::SqliteFailure(ErrorCode::IntegerOverflow));
    }
    Ok(count as usize)
}

/// The children of a resource, in byte order of their names; none where none is mapped. At most four
/// statements, however many there are: their entries are not looked up where more than eight have none. `Memory` is
/// want of memory, `Store` any other failure of the store.
pub(crate) fn children<S: Alter>(
    alloc: Global,
    transaction: &mut Transaction<'_, S>,
    failures: &mut u64,
    path: &Path,
) -> Result<Items<Listed>, StoreFault>
    ensures same_reference { transaction.new.conn.ghost_name ≡ transaction.old.conn.ghost_name }
    ensures reads { ReadsInside (inside_of (state S.Store transaction.old.conn.now) failures.old)
        (inside_of (state S.Store transaction.new.conn.now) failures.new) result
        (λ o children. children ≡ children_at o path.now) }
{
    path.known();
    let text = text_of(alloc, path)?;
    let front = text_before(alloc, path)?;
    match listing_at(alloc, transaction, text.as_str(), front.as_str()) {
        Ok(children) => Ok(Items::from_vec(children)),
        Err(error) => Err(fault_of(error, failures)),
    }
}

/// How many children a path has; 0 where none is mapped there. It walks the index of the children. `Memory` is want
/// of memory, `Store` any other failure of the store.
pub(crate) fn count<S: Alter>(
    alloc: Global,
    transaction: &mut Transaction<'_, S>,
    failures: &mut u64,
    path: &Path,
) -> Result<usize, StoreFault>
    ensures same_reference { transaction.new.conn.ghost_name ≡ transaction.old.conn.ghost_name }
    ensures reads { ReadsInside (inside_of (state S.Store transaction.old.conn.now) failures.old)
        (inside_of (state S.Store transaction.new.conn.now) failures.new) result
        (λ o count. count ≡ count_at o path.now) }
{
    path.known();
    let text = text_of(alloc, path)?;
    match shown_count(transaction, text.as_str()) {
        Ok(count) => Ok(count),
        Err(error) => Err(fault_of(error, failures)),
    }
}
