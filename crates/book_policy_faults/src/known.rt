//! What a policy's text names: the paths of its persons, groups and books, and those of the root and of the homes.

ghost use Rattle.std.specs.Prelude.{◌≡◌, ◌++◌, codes, option_map, IfOk, OnOk};
ghost use Rattle.toml.specs.Data.{get_member};
ghost use Rattle.toml.specs.View.{items_view, table_view, view};
ghost use Rattle.book_policy_faults.specs.Keys.{key_text};
ghost use Rattle.book_policy_faults.specs.declared.places.TableKind.TheVariants.{Top};
ghost use Rattle.book_policy_faults.specs.Known.{homes, is_name, is_principal, known_at, name_in, paths_of, prefix_of, rows_of, with_both, with_named, with_path, with_paths};

use crate::places::{Key, TableKind};
use book_lists::Name;
use book_office_values::{Text, TextMap};
use std::alloc::{AllocError, Global};
use toml::{Table, Value};

/// A resource that a text names.
#[derive(Debug, Drop)]
pub struct Known {
    /// The kind of its table; that of the whole text for the root and a home.
    pub kind: TableKind,
    /// The number of the first table that names it; 0 for the root and a home.
    pub number: usize,
    /// Its path, without a slash at the end.
    pub path: Text,
}

/// What a text names, by each text that spells a path of it.
pub(crate) type Paths = TextMap<Known>;

/// The value at a key.
pub fn member<'a>(table: &'a Table, key: Key) -> Option<&'a Value>
    ensures { option_map (λ v. view v.now) result ≡ get_member (key_text key)
        (table_view table.now) }
{
    table.get(key.text())
}

/// The tables of an array of tables, or what stands in their place; none where there is no array.
pub fn rows_of(value: Option<&Value>) -> &[Value]
    ensures { items_view result.now ≡ rows_of (option_map (λ v. view v.now) value.entry) }
{
    let Some(value) = value else {
        return &[];
    };
    match value.as_array() {
        Some(values) => values.as_slice(),
        None => &[],
    }
}

/// Whether the text is a name.
pub(crate) fn is_name(alloc: Global, text: &str) -> Result<bool, AllocError>
    ensures { IfOk result (λ is. is ≡ is_name text.now) }
{
    let Some(_name) = Name::parse(alloc, text)? else {
        return Ok(false);
    };
    Ok(true)
}

/// What stands before the names of resources of a kind in their paths.
fn prefix_of(kind: TableKind) -> &'static str
    ensures { result.now ≡ prefix_of kind }
{
    match kind {
        TableKind::Top => "",
        TableKind::Person => "/people/",
        TableKind::Group => "/groups/",
        TableKind::Book => "/books/",
        TableKind::Entry => "",
    }
}

/// One text and then another.
fn joined(alloc: Global, front: &str, back: &str) -> Result<Text, AllocError>
    ensures { IfOk result (λ joined. joined ≡ front.now ++ back.now) }
{
    let mut joined = String::new(alloc);
    joined.push_str(front)?;
    joined.push_str(back)?;
    Ok(Text::from_string(joined))
}

/// The path of the resource of a kind with a name.
pub(crate) fn path_of(alloc: Global, kind: TableKind, name: &str) -> Result<Text, AllocError>
    ensures { IfOk result (λ path. path ≡ prefix_of kind ++ name.now) }
{
    joined(alloc, prefix_of(kind), name)
}

/// Adds a path, where it is not there.
fn add_path(
    alloc: Global,
    paths: &mut Paths,
    kind: TableKind,
    number: usize,
    spelled: Text,
    path: &Text,
) -> Result<(), AllocError>
    ensures { OnOk result (paths.new ≡ with_path paths.old kind number spelled path.now) }
{
    if paths.get(&spelled).is_some() {
        return Ok(());
    }
    let path = path.clone()?;
    paths.insert(spelled, Known { kind, number, path })?;
    Ok(())
}

/// Adds a path, and the same with a slash at its end.
fn add_both(
    alloc: Global,
    paths: &mut Paths,
    kind: TableKind,
    number: usize,
    path: &Text,
) -> Result<(), AllocError>
    ensures { OnOk result (paths.new ≡ with_both paths.old kind number path.now) }
{
    let spelled = path.clone()?;
    add_path(alloc, paths, kind, number, spelled, path)?;
    let spelled = joined(alloc, path.as_str(), "/")?;
    add_path(alloc, paths, kind, number, spelled, path)
}

/// The name in a table.
fn name_in(value: &Value) -> Option<&str>
    ensures { option_map (λ n. n.now) result ≡ name_in (view value.now) }
{
    let Some(table) = value.as_table() else {
        return None;
    };
    match member(table, Key::Name) {
        Some(value) => value.as_str(),
        None => None,
    }
}

/// Adds the path of what a table names, if that is a name.
fn add_named(
    alloc: Global,
    paths: &mut Paths,
    kind: TableKind,
    number: usize,
    value: &Value,
) -> Result<(), AllocError>
    ensures { OnOk result (paths.new ≡ with_named paths.old kind number (view value.now)) }
{
    let Some(name) = name_in(value) else {
        return Ok(());
    };
    if !is_name(alloc, name)? {
        return Ok(());
    }
    let path = path_of(alloc, kind, name)?;
    add_both(alloc, paths, kind, number, &path)
}

/// Adds the paths of what tables of a kind name.
fn add_all(
    alloc: Global,
    paths: &mut Paths,
    kind: TableKind,
    values: &[Value],
) -> Result<(), AllocError>
    ensures { OnOk result (paths.new ≡ with_paths paths.old kind 1 (items_view values.now)) }
{
    let mut number = 1usize;
    for value in values {
        add_named(alloc, paths, kind, number, value)?;
        number += 1;
    }
    Ok(())
}

/// Adds the path of the root.
fn add_root(alloc: Global, paths: &mut Paths) -> Result<(), AllocError>
    ensures { OnOk result (paths.new ≡ with_path paths.old Top 0 (codes "/") (codes "/")) }
{
    let root = Text::copy_of(alloc, "/")?;
    let spelled = root.clone()?;
    add_path(alloc, paths, TableKind::Top, 0, spelled, &root)
}

/// Adds the path of a home.
fn add_home(alloc: Global, paths: &mut Paths, home: &str) -> Result<(), AllocError>
    ensures { OnOk result (paths.new ≡ with_both paths.old Top 0 home.now) }
{
    let path = Text::copy_of(alloc, home)?;
    add_both(alloc, paths, TableKind::Top, 0, &path)
}

/// The root and the homes.
fn homes(alloc: Global) -> Result<Paths, AllocError>
    ensures { IfOk result (λ paths. paths ≡ homes) }
{
    let mut paths = TextMap::new(alloc);
    add_root(alloc, &mut paths)?;
    add_home(alloc, &mut paths, "/people")?;
    add_home(alloc, &mut paths, "/groups")?;
    add_home(alloc, &mut paths, "/books")?;
    Ok(paths)
}

/// What a text names.
pub(crate) fn paths_of(alloc: Global, table: &Table) -> Result<Paths, AllocError>
    ensures { IfOk result (λ paths. paths ≡ paths_of (table_view table.now)) }
{
    let mut paths = homes(alloc)?;
    let persons = rows_of(member(table, Key::Persons));
    add_all(alloc, &mut paths, TableKind::Person, persons)?;
    let groups = rows_of(member(table, Key::Groups));
    add_all(alloc, &mut paths, TableKind::Group, groups)?;
    let books = rows_of(member(table, Key::Books));
    add_all(alloc, &mut paths, TableKind::Book, books)?;
    Ok(paths)
}

/// The path that a text spells, if the text of the policy names what is there.
pub(crate) fn known_at<'a>(
    alloc: Global,
    paths: &'a Paths,
    text: &str,
) -> Result<Option<&'a Known>, AllocError>
    ensures { IfOk result (λ found. option_map (λ k. k.now) found ≡ known_at paths.now text.now) }
{
    let text = Text::copy_of(alloc, text)?;
    Ok(paths.get(&text))
}

/// Whether it is a person or a group.
pub(crate) fn is_principal(known: &Known) -> bool
    ensures { result ≡ is_principal known.now }
{
    match known.kind {
        TableKind::Person | TableKind::Group => true,
        TableKind::Top | TableKind::Book | TableKind::Entry => false,
    }
}
