//! The Office without cards and changes, put together from what reads tell of it.

ghost use Rattle.std.specs.Prelude.{◌≡◌};
ghost use Rattle.sqlite.specs.Held.{state};
ghost use Rattle.book_office_adopting.specs.Adopting.{adoption_of as adoption_told};
ghost use Rattle.book_office_adopting.specs.TakingOver.{bare, bare_books};
ghost use Rattle.book_office.specs.Levels.{lists_at};
ghost use Rattle.book_office.specs.Resources.{node_at};
ghost use Rattle.book_office_values.specs.declared.paths.Path.TheVariants as path;
ghost use Rattle.book_tables.specs.BareOffice.{homes_of as homes_in, places_of};
ghost use Rattle.book_tables.specs.Inside.{ReadsInside, inside_of};

use crate::faults::fault_of;
use crate::levels::lists;
use crate::listing_rows::children;
use crate::members::pairs;
use crate::places::{Homes, Places, books_of, homes_of, office_of, principals_of, root_of};
use crate::reading::{epoch, find};
use book_lists::Pairs;
use book_office::{Lists, Node, StoreFault};
use book_office_adopting::{Adoption, adoption_of};
use book_office_values::{Book, NameMap, Office, Path, Properties};
use book_policy_values::Policy;
use sqlite::{Alter, Error, ErrorCode, Transaction};
use std::alloc::Global;

/// The resource at the root, and its lists.
fn find_root<S: Alter>(
    alloc: Global,
    transaction: &mut Transaction<'_, S>,
    failures: &mut u64,
) -> Result<(Option<Node>, Lists), StoreFault>
    ensures same_reference { transaction.new.conn.ghost_name ≡ transaction.old.conn.ghost_name }
    ensures reads { ReadsInside (inside_of (state S.Store transaction.old.conn.now) failures.old)
        (inside_of (state S.Store transaction.new.conn.now) failures.new) result
        (λ o found. found ≡ (node_at o path.Root, lists_at o path.Root)) }
{
    let node = find(alloc, transaction, failures, &Path::Root)?;
    let lists = match lists(alloc, transaction, failures, &Path::Root) {
        Ok(lists) => lists,
        Err(fault) => return Err(fault),
    };
    Ok((node, lists))
}

/// The root.
fn read_root<S: Alter>(
    alloc: Global,
    transaction: &mut Transaction<'_, S>,
    failures: &mut u64,
) -> Result<Properties, StoreFault>
    ensures same_reference { transaction.new.conn.ghost_name ≡ transaction.old.conn.ghost_name }
    ensures reads { ReadsInside (inside_of (state S.Store transaction.old.conn.now) failures.old)
        (inside_of (state S.Store transaction.new.conn.now) failures.new) result
        (λ o root. root ≡ o.root) }
{
    let found = find_root(alloc, transaction, failures)?;
    let Some(root) = root_of(found.0, found.1) else {
        let error = Error::SqliteFailure(ErrorCode::DatabaseCorrupt);
        return Err(fault_of(error, failures));
    };
    Ok(root)
}

/// The homes.
fn read_homes<S: Alter>(
    alloc: Global,
    transaction: &mut Transaction<'_, S>,
    failures: &mut u64,
) -> Result<Homes, StoreFault>
    ensures same_reference { transaction.new.conn.ghost_name ≡ transaction.old.conn.ghost_name }
    ensures reads { ReadsInside (inside_of (state S.Store transaction.old.conn.now) failures.old)
        (inside_of (state S.Store transaction.new.conn.now) failures.new) result
        (λ o homes. homes ≡ homes_in o) }
{
    let listed = children(alloc, transaction, failures, &Path::Root)?;
    let Some(homes) = homes_of(listed) else {
        let error = Error::SqliteFailure(ErrorCode::DatabaseCorrupt);
        return Err(fault_of(error, failures));
    };
    Ok(homes)
}

/// The persons.
fn read_persons<S: Alter>(
    alloc: Global,
    transaction: &mut Transaction<'_, S>,
    failures: &mut u64,
) -> Result<NameMap<Properties>, StoreFault>
    ensures same_reference { transaction.new.conn.ghost_name ≡ transaction.old.conn.ghost_name }
    ensures reads { ReadsInside (inside_of (state S.Store transaction.old.conn.now) failures.old)
        (inside_of (state S.Store transaction.new.conn.now) failures.new) result
        (λ o persons. persons ≡ o.persons) }
{
    let listed = children(alloc, transaction, failures, &Path::People)?;
    Ok(principals_of(alloc, listed)?)
}

/// The groups.
fn read_groups<S: Alter>(
    alloc: Global,
    transaction: &mut Transaction<'_, S>,
    failures: &mut u64,
) -> Result<NameMap<Properties>, StoreFault>
    ensures same_reference { transaction.new.conn.ghost_name ≡ transaction.old.conn.ghost_name }
    ensures reads { ReadsInside (inside_of (state S.Store transaction.old.conn.now) failures.old)
        (inside_of (state S.Store transaction.new.conn.now) failures.new) result
        (λ o groups. groups ≡ o.groups) }
{
    let listed = children(alloc, transaction, failures, &Path::Groups)?;
    Ok(principals_of(alloc, listed)?)
}

/// The books without cards and changes.
fn read_books<S: Alter>(
    alloc: Global,
    transaction: &mut Transaction<'_, S>,
    failures: &mut u64,
) -> Result<NameMap<Book>, StoreFault>
    ensures same_reference { transaction.new.conn.ghost_name ≡ transaction.old.conn.ghost_name }
    ensures reads { ReadsInside (inside_of (state S.Store transaction.old.conn.now) failures.old)
        (inside_of (state S.Store transaction.new.conn.now) failures.new) result
        (λ o books. books ≡ bare_books o.books) }
{
    let listed = children(alloc, transaction, failures, &Path::Books)?;
    Ok(books_of(alloc, listed)?)
}

/// The persons, the groups, and the books without cards and changes.
fn read_places<S: Alter>(
    alloc: Global,
    transaction: &mut Transaction<'_, S>,
    failures: &mut u64,
) -> Result<Places, StoreFault>
    ensures same_reference { transaction.new.conn.ghost_name ≡ transaction.old.conn.ghost_name }
    ensures reads { ReadsInside (inside_of (state S.Store transaction.old.conn.now) failures.old)
        (inside_of (state S.Store transaction.new.conn.now) failures.new) result
        (λ o places. places ≡ places_of o) }
{
    let persons = read_persons(alloc, transaction, failures)?;
    let groups = read_groups(alloc, transaction, failures)?;
    let books = read_books(alloc, transaction, failures)?;
    Ok(Places {
        persons,
        groups,
        books,
    })
}

/// The root and the homes.
fn read_top<S: Alter>(
    alloc: Global,
    transaction: &mut Transaction<'_, S>,
    failures: &mut u64,
) -> Result<(Properties, Homes), StoreFault>
    ensures same_reference { transaction.new.conn.ghost_name ≡ transaction.old.conn.ghost_name }
    ensures reads { ReadsInside (inside_of (state S.Store transaction.old.conn.now) failures.old)
        (inside_of (state S.Store transaction.new.conn.now) failures.new) result
        (λ o top. top ≡ (o.root, homes_in o)) }
{
    let root = read_root(alloc, transaction, failures)?;
    let homes = read_homes(alloc, transaction, failures)?;
    Ok((root, homes))
}

/// The direct members of all groups, and the epoch.
fn read_rest<S: Alter>(
    alloc: Global,
    transaction: &mut Transaction<'_, S>,
    failures: &mut u64,
) -> Result<(Pairs, u64), StoreFault>
    ensures same_reference { transaction.new.conn.ghost_name ≡ transaction.old.conn.ghost_name }
    ensures reads { ReadsInside (inside_of (state S.Store transaction.old.conn.now) failures.old)
        (inside_of (state S.Store transaction.new.conn.now) failures.new) result
        (λ o rest. rest ≡ (o.pairs, o.epoch)) }
{
    let pairs = pairs(alloc, transaction, failures)?;
    let epoch = epoch(transaction, failures)?;
    Ok((pairs, epoch))
}

/// The Office without cards and changes. No row of a card is read. `Memory` is want of memory, `Store` any other
/// failure of the store.
pub(crate) fn bare_office<S: Alter>(
    alloc: Global,
    transaction: &mut Transaction<'_, S>,
    failures: &mut u64,
) -> Result<Office, StoreFault>
    ensures same_reference { transaction.new.conn.ghost_name ≡ transaction.old.conn.ghost_name }
    ensures reads { ReadsInside (inside_of (state S.Store transaction.old.conn.now) failures.old)
        (inside_of (state S.Store transaction.new.conn.now) failures.new) result
        (λ o office. office ≡ bare o) }
{
    let top = read_top(alloc, transaction, failures)?;
    let places = read_places(alloc, transaction, failures)?;
    let rest = read_rest(alloc, transaction, failures)?;
    Ok(office_of(top, places, rest))
}

/// Whether adopting a policy changes anything, and how many books there are then (own profile). No row of a card is
/// read. `Memory` is want of memory, `Store` any other failure of the store.
pub(crate) fn adoption<S: Alter>(
    alloc: Global,
    transaction: &mut Transaction<'_, S>,
    failures: &mut u64,
    policy: &Policy,
) -> Result<Adoption, StoreFault>
    ensures same_reference { transaction.new.conn.ghost_name ≡ transaction.old.conn.ghost_name }
    ensures reads { ReadsInside (inside_of (state S.Store transaction.old.conn.now) failures.old)
        (inside_of (state S.Store transaction.new.conn.now) failures.new) result
        (λ o told. told ≡ adoption_told policy.now o) }
{
    let office = bare_office(alloc, transaction, failures)?;
    Ok(adoption_of(alloc, &office, policy)?)
}
