//! Goes over all tables of a policy's text, and adds each fault behind those before it.

ghost use Rattle.std.specs.Prelude.{◌≡◌, ◌++◌, nat_le, option_map, IfOk, OnOk};
ghost use Rattle.std.specs.FinMap.{insert};
ghost use Rattle.book_limits.specs.declared.TheConstants.{MAX_MEMBERS};
ghost use Rattle.toml.specs.View.{items_view, table_view, view};
ghost use Rattle.book_policy_faults.specs.Values.{is_among, keys_of};
ghost use Rattle.book_policy_faults.specs.Placing.{next, no_faults, noted};
ghost use Rattle.book_policy_faults.specs.Problems.{unless};
ghost use Rattle.book_policy_faults.specs.declared.places.Problem.TheVariants.{TooMany, UnknownKey};
ghost use Rattle.book_policy_faults.specs.declared.places.Key.TheVariants.{Persons, Groups, Books, Entries};
ghost use Rattle.book_policy_faults.specs.declared.places.TableKind.TheVariants.{Person, Group, Book, Entry};
ghost use Rattle.book_policy_faults.specs.Tables.{action_faults, action_problem, array_faults, body_faults, count_in, counted_entry, distinct, entry_faults, entry_place, faults_in, full_lists, is_protected, items_faults, list_problem, members_faults, named_faults, named_of, names_faults, noted_full, path_in, rows_at, rows_faults, seen_after, spot_at, table_faults, top_faults, unknown_keys};

use crate::known::{Paths, known_at, member, paths_of, rows_of};
use crate::places::{Key, PlacedFaults, Problem, Spot, TableKind, note};
use crate::problems::{
    ItemRule, array_problem, at_problem, item_problem, label_problem, mark_problem, name_problem,
    names_problem, owner_problem, version_problem, who_problem,
};
use book_limits::{MAX_ENTRIES, MAX_MEMBERS, MAX_NAMED};
use book_office_values::{Items, Text, TextMap};
use std::alloc::{AllocError, Global};
use toml::{Table, Value};

/// What the whole text names, and which entries are the 65th of their lists.
#[derive(Debug, Drop)]
pub struct Named {
    /// What it names.
    pub paths: Paths,
    /// The numbers of the entries that are the 65th of their lists.
    pub full: Items<usize>,
}

/// How many entries each list has so far, by the path where it stands.
#[derive(Debug, Drop)]
pub struct Counts {
    /// Of protected lists.
    pub protected: TextMap<usize>,
    /// Of own lists.
    pub own: TextMap<usize>,
    /// The numbers of the entries that are the 65th of their lists.
    pub full: Items<usize>,
}

/// The path that a text spells, if the policy names what is there.
fn path_in(alloc: Global, paths: &Paths, value: &Value) -> Result<Option<Text>, AllocError>
    ensures { IfOk result (λ path. path ≡ path_in paths.now (view value.now)) }
{
    let Some(text) = value.as_str() else {
        return Ok(None);
    };
    match known_at(alloc, paths, text)? {
        Some(known) => Ok(Some(known.path.clone()?)),
        None => Ok(None),
    }
}

/// The path at which an entry stands, if the policy names what is there.
fn entry_place(alloc: Global, paths: &Paths, value: &Value) -> Result<Option<Text>, AllocError>
    ensures { IfOk result (λ path. path ≡ entry_place paths.now (view value.now)) }
{
    let Some(table) = value.as_table() else {
        return Ok(None);
    };
    match member(table, Key::At) {
        Some(at) => path_in(alloc, paths, at),
        None => Ok(None),
    }
}

/// Whether an entry is of a protected list.
fn is_protected(value: &Value) -> bool
    ensures { result ≡ is_protected (view value.now) }
{
    let Some(table) = value.as_table() else {
        return false;
    };
    match member(table, Key::Protected) {
        Some(value) => value.as_bool().unwrap_or(false),
        None => false,
    }
}

/// How many there were at a path; now there is one more.
fn counted(counts: &mut TextMap<usize>, path: Text) -> Result<usize, AllocError>
    ensures before { IfOk result (λ count. count ≡ count_in counts.old path) }
    ensures after { OnOk result (counts.new
        ≡ insert counts.old path (next (count_in counts.old path))) }
{
    let count = match counts.get(&path) {
        Some(count) => *count,
        None => 0,
    };
    counts.insert(path, count.saturating_add(1))?;
    Ok(count)
}

/// Notes the number of an entry before which a list has 64.
fn note_full(full: &mut Items<usize>, number: usize, count: usize) -> Result<(), AllocError>
    ensures { OnOk result (full.new ≡ noted_full full.old number count) }
{
    if count == MAX_ENTRIES {
        full.push(number)?;
    }
    Ok(())
}

/// Counts the entry of a number in its list.
fn count_entry(
    alloc: Global,
    paths: &Paths,
    counts: &mut Counts,
    number: usize,
    value: &Value,
) -> Result<(), AllocError>
    ensures { OnOk result (counts.new
        ≡ counted_entry paths.now counts.old number (view value.now)) }
{
    let Some(path) = entry_place(alloc, paths, value)? else {
        return Ok(());
    };
    if is_protected(value) {
        let count = counted(&mut counts.protected, path)?;
        note_full(&mut counts.full, number, count)
    } else {
        let count = counted(&mut counts.own, path)?;
        note_full(&mut counts.full, number, count)
    }
}

/// The numbers of the entries that are the 65th of their lists.
fn full_lists(alloc: Global, paths: &Paths, values: &[Value]) -> Result<Items<usize>, AllocError>
    ensures { IfOk result (λ full. full ≡ full_lists paths.now (items_view values.now)) }
{
    let mut counts = Counts {
        protected: TextMap::new(alloc),
        own: TextMap::new(alloc),
        full: Items::new(alloc),
    };
    let mut number = 1usize;
    for value in values {
        count_entry(alloc, paths, &mut counts, number, value)?;
        number += 1;
    }
    Ok(counts.full)
}

/// What the whole text names.
fn named_of(alloc: Global, table: &Table) -> Result<Named, AllocError>
    ensures { IfOk result (λ named. named ≡ named_of (table_view table.now)) }
{
    let paths = paths_of(alloc, table)?;
    let entries = rows_of(member(table, Key::Entries));
    let full = full_lists(alloc, &paths, entries)?;
    Ok(Named { paths, full })
}

/// What is wrong with a key of a table of a kind.
fn key_problem(kind: TableKind, key: &str) -> Option<Problem>
    ensures { result ≡ unless (is_among key.now (keys_of kind)) UnknownKey }
{
    if kind.has_key(key) {
        None
    } else {
        Some(Problem::UnknownKey)
    }
}

/// Adds the keys that tables of the kind have not.
#[tactic(auto, using(crate::proofs::Noting::noted_append))]
fn unknown_keys(
    kind: TableKind,
    number: usize,
    table: &Table,
    faults: &mut PlacedFaults,
) -> Result<(), AllocError>
    ensures { OnOk result (faults.new
        ≡ noted faults.old (unknown_keys kind number 1 (table_view table.now))) }
{
    let mut item = 1usize;
    for (key, _value) in table.iter() {
        let spot = Spot {
            kind,
            number,
            key: Key::Itself,
            item,
        };
        note(faults, spot, key_problem(kind, key.as_str()))?;
        item = item.saturating_add(1);
    }
    Ok(())
}

/// Adds what is wrong with the items of an array.
#[tactic(auto, using(crate::proofs::Noting::noted_append))]
fn items_faults(
    alloc: Global,
    named: &Named,
    rule: ItemRule,
    spot: Spot,
    values: &[Value],
    faults: &mut PlacedFaults,
) -> Result<(), AllocError>
    ensures { OnOk result (faults.new
        ≡ noted faults.old (items_faults named.now.paths rule spot 1 (items_view values.now))) }
{
    let mut item = 1usize;
    for value in values {
        let problem = item_problem(alloc, &named.paths, rule, value)?;
        let at = Spot {
            kind: spot.kind,
            number: spot.number,
            key: spot.key,
            item,
        };
        note(faults, at, problem)?;
        item = item.saturating_add(1);
    }
    Ok(())
}

/// A place in a table: the value at a key.
fn spot_at(kind: TableKind, number: usize, key: Key) -> Spot
    ensures { result ≡ spot_at kind number key }
{
    Spot {
        kind,
        number,
        key,
        item: 0,
    }
}

/// Adds what is wrong with a name and a label.
#[tactic(auto, using(crate::proofs::Noting::noted_append))]
fn named_faults(
    alloc: Global,
    named: &Named,
    kind: TableKind,
    number: usize,
    table: &Table,
    faults: &mut PlacedFaults,
) -> Result<(), AllocError>
    ensures { OnOk result (faults.new
        ≡ noted faults.old (named_faults named.now.paths kind number (table_view table.now))) }
{
    let name = member(table, Key::Name);
    let problem = name_problem(alloc, &named.paths, kind, number, name)?;
    note(faults, spot_at(kind, number, Key::Name), problem)?;
    let problem = label_problem(member(table, Key::Label));
    note(faults, spot_at(kind, number, Key::Label), problem)
}

/// Paths that were seen, and how many they are.
#[derive(Debug, Drop)]
pub struct Seen {
    /// The paths.
    pub paths: TextMap<bool>,
    /// How many they are.
    pub count: usize,
}

/// Counts a path, if it was not seen before.
fn see(seen: &mut Seen, path: Option<Text>) -> Result<(), AllocError>
    ensures { OnOk result (seen.new ≡ seen_after seen.old path) }
{
    let Some(path) = path else {
        return Ok(());
    };
    if seen.paths.insert(path, true)?.is_none() {
        seen.count = seen.count.saturating_add(1);
    }
    Ok(())
}

/// How many persons and groups of the policy an array names; repeated ones count once.
fn distinct(alloc: Global, paths: &Paths, values: &[Value]) -> Result<usize, AllocError>
    ensures { IfOk result (λ count. count ≡ distinct paths.now (items_view values.now)) }
{
    let mut seen = Seen {
        paths: TextMap::new(alloc),
        count: 0,
    };
    for value in values {
        let path = path_in(alloc, paths, value)?;
        see(&mut seen, path)?;
    }
    Ok(seen.count)
}

/// What is wrong with so many members of a group.
fn count_problem(count: usize) -> Option<Problem>
    ensures { result ≡ unless (nat_le count MAX_MEMBERS) TooMany }
{
    if count > MAX_MEMBERS {
        Some(Problem::TooMany)
    } else {
        None
    }
}

/// Adds what is wrong with the members of a group.
#[tactic(auto, using(crate::proofs::Noting::noted_append))]
fn members_faults(
    alloc: Global,
    named: &Named,
    number: usize,
    value: Option<&Value>,
    faults: &mut PlacedFaults,
) -> Result<(), AllocError>
    ensures { OnOk result (faults.new ≡ noted faults.old
        (members_faults named.now.paths number (option_map (λ v. view v.now) value.entry))) }
{
    let spot = spot_at(TableKind::Group, number, Key::Members);
    note(faults, spot, array_problem(value, None))?;
    let values = rows_of(value);
    items_faults(alloc, named, ItemRule::Principals, spot, values, faults)?;
    let count = distinct(alloc, &named.paths, values)?;
    note(faults, spot, count_problem(count))
}

/// Adds what is wrong with an array of names of privileges.
#[tactic(auto, using(crate::proofs::Noting::noted_append))]
fn names_faults(
    alloc: Global,
    named: &Named,
    spot: Spot,
    value: Option<&Value>,
    faults: &mut PlacedFaults,
) -> Result<(), AllocError>
    ensures { OnOk result (faults.new ≡ noted faults.old
        (names_faults named.now.paths spot (option_map (λ v. view v.now) value.entry))) }
{
    let Some(value) = value else {
        return Ok(());
    };
    note(faults, spot, names_problem(value))?;
    items_faults(
        alloc,
        named,
        ItemRule::Privileges,
        spot,
        rows_of(Some(value)),
        faults,
    )
}

/// What is wrong with `grant` and `deny` together.
fn action_problem(grant: Option<&Value>, deny: Option<&Value>) -> Option<Problem>
    ensures { result ≡ action_problem (option_map (λ v. view v.now) grant.entry)
        (option_map (λ v. view v.now) deny.entry) }
{
    match (grant, deny) {
        (None, None) => Some(Problem::Missing),
        (Some(_), Some(_)) => Some(Problem::Both),
        (Some(_), None) => None,
        (None, Some(_)) => None,
    }
}

/// Adds what is wrong with what an entry grants or denies.
#[tactic(auto, using(crate::proofs::Noting::noted_append))]
fn action_faults(
    alloc: Global,
    named: &Named,
    number: usize,
    table: &Table,
    faults: &mut PlacedFaults,
) -> Result<(), AllocError>
    ensures { OnOk result (faults.new
        ≡ noted faults.old (action_faults named.now.paths number (table_view table.now))) }
{
    let grant = member(table, Key::Grant);
    let deny = member(table, Key::Deny);
    let at_grant = spot_at(TableKind::Entry, number, Key::Grant);
    let at_deny = spot_at(TableKind::Entry, number, Key::Deny);
    note(faults, at_grant, action_problem(grant, deny))?;
    names_faults(alloc, named, at_grant, grant, faults)?;
    names_faults(alloc, named, at_deny, deny, faults)
}

/// What is wrong with the list of an entry.
fn list_problem(named: &Named, number: usize) -> Option<Problem>
    ensures { result ≡ list_problem named.now.full number }
{
    if named.full.as_slice().contains(&number) {
        Some(Problem::LongList)
    } else {
        None
    }
}

/// Adds what is wrong with an entry.
#[tactic(auto, using(crate::proofs::Noting::noted_append))]
fn entry_faults(
    alloc: Global,
    named: &Named,
    number: usize,
    table: &Table,
    faults: &mut PlacedFaults,
) -> Result<(), AllocError>
    ensures { OnOk result (faults.new
        ≡ noted faults.old (entry_faults named.now number (table_view table.now))) }
{
    let kind = TableKind::Entry;
    let problem = at_problem(alloc, &named.paths, member(table, Key::At))?;
    note(faults, spot_at(kind, number, Key::At), problem)?;
    note(
        faults,
        spot_at(kind, number, Key::Itself),
        list_problem(named, number),
    )?;
    let problem = who_problem(alloc, &named.paths, member(table, Key::Who))?;
    note(faults, spot_at(kind, number, Key::Who), problem)?;
    let problem = mark_problem(member(table, Key::Invert));
    note(faults, spot_at(kind, number, Key::Invert), problem)?;
    action_faults(alloc, named, number, table, faults)?;
    let problem = mark_problem(member(table, Key::Protected));
    note(faults, spot_at(kind, number, Key::Protected), problem)
}

/// Adds what is wrong with the values of a table of a kind.
#[tactic(auto, using(crate::proofs::Noting::noted_append))]
fn body_faults(
    alloc: Global,
    named: &Named,
    kind: TableKind,
    number: usize,
    table: &Table,
    faults: &mut PlacedFaults,
) -> Result<(), AllocError>
    ensures { OnOk result (faults.new
        ≡ noted faults.old (body_faults named.now kind number (table_view table.now))) }
{
    match kind {
        TableKind::Top => Ok(()),
        TableKind::Person => named_faults(alloc, named, kind, number, table, faults),
        TableKind::Group => {
            named_faults(alloc, named, kind, number, table, faults)?;
            members_faults(alloc, named, number, member(table, Key::Members), faults)
        }
        TableKind::Book => {
            named_faults(alloc, named, kind, number, table, faults)?;
            let problem = owner_problem(alloc, &named.paths, member(table, Key::Owner))?;
            note(faults, spot_at(kind, number, Key::Owner), problem)
        }
        TableKind::Entry => entry_faults(alloc, named, number, table, faults),
    }
}

/// Adds what is wrong with a table of a kind.
#[tactic(auto, using(crate::proofs::Noting::noted_append))]
fn table_faults(
    alloc: Global,
    named: &Named,
    kind: TableKind,
    number: usize,
    value: &Value,
    faults: &mut PlacedFaults,
) -> Result<(), AllocError>
    ensures { OnOk result (faults.new
        ≡ noted faults.old (table_faults named.now kind number (view value.now))) }
{
    let Some(table) = value.as_table() else {
        let spot = spot_at(kind, number, Key::Itself);
        return note(faults, spot, Some(Problem::OtherKind));
    };
    unknown_keys(kind, number, table, faults)?;
    body_faults(alloc, named, kind, number, table, faults)
}

/// Adds what is wrong with the tables of a kind.
#[tactic(auto, using(crate::proofs::Noting::noted_append))]
fn rows_faults(
    alloc: Global,
    named: &Named,
    kind: TableKind,
    values: &[Value],
    faults: &mut PlacedFaults,
) -> Result<(), AllocError>
    ensures { OnOk result (faults.new
        ≡ noted faults.old (rows_faults named.now kind 1 (items_view values.now))) }
{
    let mut number = 1usize;
    for value in values {
        table_faults(alloc, named, kind, number, value, faults)?;
        number += 1;
    }
    Ok(())
}

/// Adds what is wrong with an array of tables as a whole.
fn array_faults(
    key: Key,
    most: Option<usize>,
    table: &Table,
    faults: &mut PlacedFaults,
) -> Result<(), AllocError>
    ensures { OnOk result (faults.new
        ≡ noted faults.old (array_faults key most (table_view table.now))) }
{
    let problem = array_problem(member(table, key), most);
    note(faults, spot_at(TableKind::Top, 0, key), problem)
}

/// Adds what is wrong with the keys of the whole text.
#[tactic(auto, using(crate::proofs::Noting::noted_append))]
fn top_faults(table: &Table, faults: &mut PlacedFaults) -> Result<(), AllocError>
    ensures { OnOk result (faults.new ≡ noted faults.old (top_faults (table_view table.now))) }
{
    unknown_keys(TableKind::Top, 0, table, faults)?;
    let problem = version_problem(member(table, Key::Version));
    note(faults, spot_at(TableKind::Top, 0, Key::Version), problem)?;
    array_faults(Key::Persons, Some(MAX_NAMED), table, faults)?;
    array_faults(Key::Groups, Some(MAX_NAMED), table, faults)?;
    array_faults(Key::Books, Some(MAX_NAMED), table, faults)?;
    array_faults(Key::Entries, None, table, faults)
}

/// Adds what is wrong with the tables of a kind, which are at a key of the text.
fn rows_at(
    alloc: Global,
    named: &Named,
    kind: TableKind,
    key: Key,
    table: &Table,
    faults: &mut PlacedFaults,
) -> Result<(), AllocError>
    ensures { OnOk result (faults.new
        ≡ noted faults.old (rows_at named.now kind key (table_view table.now))) }
{
    let values = rows_of(member(table, key));
    rows_faults(alloc, named, kind, values, faults)
}

/// Adds what is wrong with the persons, groups, books and entries.
#[tactic(auto, using(crate::proofs::Noting::noted_append))]
fn all_rows(
    alloc: Global,
    named: &Named,
    table: &Table,
    faults: &mut PlacedFaults,
) -> Result<(), AllocError>
    ensures { OnOk result (faults.new ≡ noted faults.old
        (rows_at named.now Person Persons (table_view table.now)
        ++ (rows_at named.now Group Groups (table_view table.now)
        ++ (rows_at named.now Book Books (table_view table.now)
        ++ rows_at named.now Entry Entries (table_view table.now))))) }
{
    rows_at(alloc, named, TableKind::Person, Key::Persons, table, faults)?;
    rows_at(alloc, named, TableKind::Group, Key::Groups, table, faults)?;
    rows_at(alloc, named, TableKind::Book, Key::Books, table, faults)?;
    rows_at(alloc, named, TableKind::Entry, Key::Entries, table, faults)
}

/// All faults of the table of a text, in the order of their places. An error is want of memory.
#[tactic(auto, using(crate::proofs::Noting::noted_append))]
pub fn faults_of(alloc: Global, table: &Table) -> Result<PlacedFaults, AllocError>
    ensures { IfOk result (λ faults. faults ≡ noted no_faults (faults_in (table_view table.now))) }
{
    let mut faults = PlacedFaults::new(alloc);
    top_faults(table, &mut faults)?;
    let named = named_of(alloc, table)?;
    all_rows(alloc, &named, table, &mut faults)?;
    Ok(faults)
}
