//! What differs between an Office and what it becomes, as the rows that are to be written say it.

ghost use Rattle.std.specs.Prelude.{◌≡◌, ◌↔◌, List, [], map, option_map, string_bytes, IfOk, IsTrue, MatchOption, OnOk};
ghost use Rattle.std.specs.FinMap.{entries};
ghost use Rattle.std.specs.Option.{option_copied};
ghost use Rattle.book_lists.specs.Memberships.{set_of};
ghost use Rattle.book_lists.specs.Principals.{group_path};
ghost use Rattle.book_lists.specs.declared.memberships.Membership.{Membership as MembershipOf};
ghost use Rattle.book_tables_rows.specs.Adopting.{joined, listed_row, placed_row};
ghost use Rattle.book_tables_rows.specs.Reach.{pair_said};
ghost use Rattle.book_office_values.specs.Paths.{kind_code, parent_of};
ghost use Rattle.book_office_values.specs.declared.paths.Path.TheVariants as path;
ghost use Rattle.book_tables.specs.Adopting.{Adds, AddsGroups, AddsLists, AddsPlaces, AreDifferences, HasLists, HasPlace, compared, compared_books, compared_homes, compared_in, group_said, lists_said, members_in, place_said, properties_of, text_or_empty};
ghost use Rattle.book_tables.specs.Reach.{Renews};

use crate::renewals::{Renewal, renewal_of};
use crate::settings::rows_of;
use book_lists::{Membership, Name, Principal};
use book_office_adopting::{same_lists, same_place};
use book_office_values::{Book, Kind, NameMap, Office, Path, Properties};
use book_tables_rows::{GroupRow, ListsRow, PlaceRow};
use std::alloc::{AllocError, Global};

/// The rows that are to be written where an Office becomes another.
#[derive(Debug, Drop)]
pub(crate) struct Differences {
    /// The places that are new, or have another owner or label.
    pub(crate) places: Vec<PlaceRow>,
    /// The places with other lists.
    pub(crate) lists: Vec<ListsRow>,
    /// The groups with other direct members.
    pub(crate) groups: Vec<GroupRow>,
    /// How `reach` is renewed.
    pub(crate) renewal: Renewal,
}

/// The code of a kind.
fn code_of(kind: Kind) -> u32
    ensures { result ≡ kind_code kind }
{
    match kind {
        Kind::Root => 0,
        Kind::Home => 1,
        Kind::Person => 2,
        Kind::Group => 3,
        Kind::Book => 4,
        Kind::Card => 5,
    }
}

/// The text of the path above a path, empty above the root.
fn parent_text(alloc: Global, path: &Path) -> Result<String, AllocError>
    ensures { IfOk result (λ text. string_bytes text ≡ text_or_empty (parent_of path.now)) }
{
    match path.parent()? {
        Some(above) => above.text(alloc),
        None => Ok(String::new(alloc)),
    }
}

/// The text of an owner's path, if there is an owner.
fn owner_text(alloc: Global, owner: &Option<Principal>) -> Result<Option<String>, AllocError>
    ensures { IfOk result (λ text. option_map string_bytes text ≡ owner.now) }
{
    match owner {
        Some(owner) => Ok(Some(String::from_str(alloc, owner.text())?)),
        None => Ok(None),
    }
}

/// The row of a place.
fn place_row(alloc: Global, path: &Path, properties: &Properties) -> Result<PlaceRow, AllocError>
    ensures { IfOk result (λ row. placed_row row ≡ place_said path.now properties.now) }
{
    Ok(PlaceRow {
        path: path.text(alloc)?,
        parent: parent_text(alloc, path)?,
        kind: code_of(path.kind()),
        owner: owner_text(alloc, &properties.owner)?,
        label: String::from_str(alloc, properties.label.as_str())?,
    })
}

/// The rows of its lists.
fn lists_row(alloc: Global, path: &Path, properties: &Properties) -> Result<ListsRow, AllocError>
    ensures { IfOk result (λ row. listed_row row ≡ lists_said path.now properties.now) }
{
    Ok(ListsRow {
        path: path.text(alloc)?,
        protected: rows_of(alloc, properties.protected.as_slice())?,
        own: rows_of(alloc, properties.own.as_slice())?,
    })
}

/// Whether the place is there, and has the owner and the label.
fn has_place(old: Option<&Properties>, new: &Properties) -> bool
    ensures { IsTrue result ↔ HasPlace (option_copied old.entry) new.now }
{
    match old {
        Some(old) => same_place(old, new),
        None => false,
    }
}

/// Whether the place has the lists; a new one has none.
fn has_lists(old: Option<&Properties>, new: &Properties) -> bool
    ensures { IsTrue result ↔ HasLists (option_copied old.entry) new.now }
{
    match old {
        Some(old) => same_lists(old, new),
        None => new.protected.len() == 0 && new.own.len() == 0,
    }
}

/// Adds the row of a place, unless it is there with owner and label.
fn add_place(
    alloc: Global,
    places: &mut Vec<PlaceRow>,
    path: &Path,
    old: Option<&Properties>,
    new: &Properties,
) -> Result<(), AllocError>
    ensures { OnOk result (Adds (place_said path.now new.now)
        (HasPlace (option_copied old.entry) new.now) (map placed_row places.old.items)
        (map placed_row places.new.items)) }
{
    if !has_place(old, new) {
        places.push(place_row(alloc, path, new)?)?;
    }
    Ok(())
}

/// Adds the rows of its lists, unless it has them.
fn add_lists(
    alloc: Global,
    lists: &mut Vec<ListsRow>,
    path: &Path,
    old: Option<&Properties>,
    new: &Properties,
) -> Result<(), AllocError>
    ensures { OnOk result (Adds (lists_said path.now new.now)
        (HasLists (option_copied old.entry) new.now) (map listed_row lists.old.items)
        (map listed_row lists.new.items)) }
{
    if !has_lists(old, new) {
        lists.push(lists_row(alloc, path, new)?)?;
    }
    Ok(())
}

/// Adds what differs at a path.
fn compare(
    alloc: Global,
    places: &mut Vec<PlaceRow>,
    lists: &mut Vec<ListsRow>,
    path: &Path,
    old: Option<&Properties>,
    new: &Properties,
) -> Result<(), AllocError>
    ensures places { OnOk result (Adds (place_said path.now new.now)
        (HasPlace (option_copied old.entry) new.now) (map placed_row places.old.items)
        (map placed_row places.new.items)) }
    ensures lists { OnOk result (Adds (lists_said path.now new.now)
        (HasLists (option_copied old.entry) new.now) (map listed_row lists.old.items)
        (map listed_row lists.new.items)) }
{
    add_place(alloc, places, path, old, new)?;
    add_lists(alloc, lists, path, old, new)
}

/// Adds what differs at the root and the homes.
fn compare_homes(
    alloc: Global,
    places: &mut Vec<PlaceRow>,
    lists: &mut Vec<ListsRow>,
    old: &Office,
    new: &Office,
) -> Result<(), AllocError>
    ensures places { OnOk result (AddsPlaces (compared_homes old.now new.now)
        (map placed_row places.old.items) (map placed_row places.new.items)) }
    ensures lists { OnOk result (AddsLists (compared_homes old.now new.now)
        (map listed_row lists.old.items) (map listed_row lists.new.items)) }
{
    compare(
        alloc,
        places,
        lists,
        &Path::Root,
        Some(&old.root),
        &new.root,
    )?;
    compare(
        alloc,
        places,
        lists,
        &Path::People,
        Some(&old.people),
        &new.people,
    )?;
    compare(
        alloc,
        places,
        lists,
        &Path::Groups,
        Some(&old.groups_home),
        &new.groups_home,
    )?;
    compare(
        alloc,
        places,
        lists,
        &Path::Books,
        Some(&old.books_home),
        &new.books_home,
    )
}

/// Adds what differs at a person.
fn compare_person(
    alloc: Global,
    places: &mut Vec<PlaceRow>,
    lists: &mut Vec<ListsRow>,
    name: &Name,
    old: Option<&Properties>,
    new: &Properties,
) -> Result<(), AllocError>
    ensures places { OnOk result (Adds (place_said (path.Person name.now) new.now)
        (HasPlace (option_copied old.entry) new.now) (map placed_row places.old.items)
        (map placed_row places.new.items)) }
    ensures lists { OnOk result (Adds (lists_said (path.Person name.now) new.now)
        (HasLists (option_copied old.entry) new.now) (map listed_row lists.old.items)
        (map listed_row lists.new.items)) }
{
    let path = Path::Person(name.clone()?);
    compare(alloc, places, lists, &path, old, new)
}

/// Adds what differs at the persons.
fn compare_persons(
    alloc: Global,
    places: &mut Vec<PlaceRow>,
    lists: &mut Vec<ListsRow>,
    old: &NameMap<Properties>,
    new: &NameMap<Properties>,
) -> Result<(), AllocError>
    ensures places { OnOk result (AddsPlaces (compared_in path.Person old.now (entries new.now))
        (map placed_row places.old.items) (map placed_row places.new.items)) }
    ensures lists { OnOk result (AddsLists (compared_in path.Person old.now (entries new.now))
        (map listed_row lists.old.items) (map listed_row lists.new.items)) }
{
    for (name, properties) in new.iter() {
        compare_person(alloc, places, lists, name, old.get(name), properties)?;
    }
    Ok(())
}

/// Adds what differs at a group.
fn compare_group(
    alloc: Global,
    places: &mut Vec<PlaceRow>,
    lists: &mut Vec<ListsRow>,
    name: &Name,
    old: Option<&Properties>,
    new: &Properties,
) -> Result<(), AllocError>
    ensures places { OnOk result (Adds (place_said (path.Group name.now) new.now)
        (HasPlace (option_copied old.entry) new.now) (map placed_row places.old.items)
        (map placed_row places.new.items)) }
    ensures lists { OnOk result (Adds (lists_said (path.Group name.now) new.now)
        (HasLists (option_copied old.entry) new.now) (map listed_row lists.old.items)
        (map listed_row lists.new.items)) }
{
    let path = Path::Group(name.clone()?);
    compare(alloc, places, lists, &path, old, new)
}

/// Adds what differs at the groups.
fn compare_groups(
    alloc: Global,
    places: &mut Vec<PlaceRow>,
    lists: &mut Vec<ListsRow>,
    old: &NameMap<Properties>,
    new: &NameMap<Properties>,
) -> Result<(), AllocError>
    ensures places { OnOk result (AddsPlaces (compared_in path.Group old.now (entries new.now))
        (map placed_row places.old.items) (map placed_row places.new.items)) }
    ensures lists { OnOk result (AddsLists (compared_in path.Group old.now (entries new.now))
        (map listed_row lists.old.items) (map listed_row lists.new.items)) }
{
    for (name, properties) in new.iter() {
        compare_group(alloc, places, lists, name, old.get(name), properties)?;
    }
    Ok(())
}

/// What a book has beside cards and changes, if there is a book.
fn properties_in(book: Option<&Book>) -> Option<&Properties>
    ensures { option_copied result ≡ option_map properties_of (option_copied book.entry) }
{
    match book {
        Some(book) => Some(&book.properties),
        None => None,
    }
}

/// Adds what differs at a book, but for its cards.
fn compare_book(
    alloc: Global,
    places: &mut Vec<PlaceRow>,
    lists: &mut Vec<ListsRow>,
    name: &Name,
    old: Option<&Book>,
    new: &Book,
) -> Result<(), AllocError>
    ensures places { OnOk result (Adds (place_said (path.Book name.now) new.now.properties)
        (HasPlace (option_map properties_of (option_copied old.entry)) new.now.properties)
        (map placed_row places.old.items) (map placed_row places.new.items)) }
    ensures lists { OnOk result (Adds (lists_said (path.Book name.now) new.now.properties)
        (HasLists (option_map properties_of (option_copied old.entry)) new.now.properties)
        (map listed_row lists.old.items) (map listed_row lists.new.items)) }
{
    let path = Path::Book(name.clone()?);
    compare(
        alloc,
        places,
        lists,
        &path,
        properties_in(old),
        &new.properties,
    )
}

/// Adds what differs at the books, but for their cards.
fn compare_books(
    alloc: Global,
    places: &mut Vec<PlaceRow>,
    lists: &mut Vec<ListsRow>,
    old: &NameMap<Book>,
    new: &NameMap<Book>,
) -> Result<(), AllocError>
    ensures places { OnOk result (AddsPlaces (compared_books old.now (entries new.now))
        (map placed_row places.old.items) (map placed_row places.new.items)) }
    ensures lists { OnOk result (AddsLists (compared_books old.now (entries new.now))
        (map listed_row lists.old.items) (map listed_row lists.new.items)) }
{
    for (name, book) in new.iter() {
        compare_book(alloc, places, lists, name, old.get(name), book)?;
    }
    Ok(())
}

/// The direct members of a group, among pairs.
fn members_of(alloc: Global, group: &str, pairs: &[Membership]) -> Result<Vec<String>, AllocError>
    ensures { IfOk result (λ members. map string_bytes members.items ≡
        members_in group.now pairs.now) }
{
    let mut members = Vec::new(alloc);
    'pairs: for pair in pairs {
        if pair.group.text() == group {
            members.push(String::from_str(alloc, pair.member.text())?)?;
        }
    }
    Ok(members)
}

/// Whether two texts are equal.
fn same_text(text: &String, other: &String) -> bool
    ensures { IsTrue result ↔ (string_bytes text.now ≡ string_bytes other.now) }
{
    text.as_str() == other.as_str()
}

/// Whether two lists of texts are equal.
fn same_texts(texts: &[String], others: &[String]) -> bool
    ensures { IsTrue result ↔ (map string_bytes texts.now ≡ map string_bytes others.now) }
{
    if texts.len() != others.len() {
        return false;
    }
    for (i, text) in texts.iter().enumerate() {
        if !same_text(text, &others[i]) {
            return false;
        }
    }
    true
}

/// The text of the path of a group.
fn group_text(alloc: Global, name: &Name) -> Result<String, AllocError>
    ensures { IfOk result (λ text. string_bytes text ≡ group_path name.now) }
{
    let group = Path::Group(name.clone()?);
    group.text(alloc)
}

/// The direct members that a group gets; none where they are those that it has.
fn members_changed(
    alloc: Global,
    group: &str,
    before: &[Membership],
    after: &[Membership],
) -> Result<Option<Vec<String>>, AllocError>
    ensures { IfOk result (λ changed. MatchOption changed
        (members_in group.now before.now ≡ members_in group.now after.now)
        (λ members. map string_bytes members.items ≡ members_in group.now after.now)) }
{
    let old = members_of(alloc, group, before)?;
    let new = members_of(alloc, group, after)?;
    if same_texts(old.as_slice(), new.as_slice()) {
        return Ok(None);
    }
    Ok(Some(new))
}

/// Adds the row of a group, unless it has the members.
fn add_group(
    alloc: Global,
    groups: &mut Vec<GroupRow>,
    name: &Name,
    before: &[Membership],
    after: &[Membership],
) -> Result<(), AllocError>
    ensures { OnOk result (Adds (group_said (group_path name.now) after.now)
        (members_in (group_path name.now) before.now ≡ members_in (group_path name.now) after.now)
        (map joined groups.old.items) (map joined groups.new.items)) }
{
    let group = group_text(alloc, name)?;
    let Some(members) = members_changed(alloc, group.as_str(), before, after)? else {
        return Ok(());
    };
    groups.push(GroupRow { group, members })?;
    Ok(())
}

/// The groups with other direct members.
fn compare_members(
    alloc: Global,
    names: &NameMap<Properties>,
    before: &[Membership],
    after: &[Membership],
) -> Result<Vec<GroupRow>, AllocError>
    ensures { IfOk result (λ groups. AddsGroups before.now after.now
        (map (λ e. e.0) (entries names.now)) [] (map joined groups.items)) }
{
    let mut groups = Vec::new(alloc);
    for (name, _) in names.iter() {
        add_group(alloc, &mut groups, name, before, after)?;
    }
    Ok(groups)
}

/// The groups of an Office that have other direct members than in another.
fn changed_groups(alloc: Global, old: &Office, new: &Office) -> Result<Vec<GroupRow>, AllocError>
    ensures { IfOk result (λ groups. (before : List MembershipOf) × (set_of before ≡ old.now.pairs)
        × (after : List MembershipOf) × (set_of after ≡ new.now.pairs)
        × AddsGroups before after (map (λ e. e.0) (entries new.now.groups)) []
        (map joined groups.items)) }
{
    let before = old.pairs.list()?;
    let after = new.pairs.list()?;
    compare_members(alloc, &new.groups, before.as_slice(), after.as_slice())
}

/// Adds what differs at the places of an Office, but for its cards.
fn compare_places(
    alloc: Global,
    places: &mut Vec<PlaceRow>,
    lists: &mut Vec<ListsRow>,
    old: &Office,
    new: &Office,
) -> Result<(), AllocError>
    ensures places { OnOk result (AddsPlaces (compared old.now new.now)
        (map placed_row places.old.items) (map placed_row places.new.items)) }
    ensures lists { OnOk result (AddsLists (compared old.now new.now)
        (map listed_row lists.old.items) (map listed_row lists.new.items)) }
{
    compare_homes(alloc, places, lists, old, new)?;
    compare_persons(alloc, places, lists, &old.persons, &new.persons)?;
    compare_groups(alloc, places, lists, &old.groups, &new.groups)?;
    compare_books(alloc, places, lists, &old.books, &new.books)?;
    Ok(())
}

/// What differs between an Office and what it becomes, but for cards and changes. The steps grow with the resources
/// other than cards, and with groups times pairs; no closure is made where the pairs are the same. An error is want of
/// memory.
pub(crate) fn compare_offices(
    alloc: Global,
    old: &Office,
    new: &Office,
) -> Result<Differences, AllocError>
    ensures differ { IfOk result (λ d. AreDifferences old.now new.now
        (map placed_row d.places.items) (map listed_row d.lists.items)
        (map joined d.groups.items)) }
    ensures renews { IfOk result (λ d. Renews old.now.pairs new.now.pairs
        (map pair_said d.renewal.gone.items) (map pair_said d.renewal.come.items)) }
{
    let renewal = renewal_of(alloc, &old.pairs, &new.pairs)?;
    let groups = changed_groups(alloc, old, new)?;
    let mut places = Vec::new(alloc);
    let mut lists = Vec::new(alloc);
    compare_places(alloc, &mut places, &mut lists, old, new)?;
    Ok(Differences {
        places,
        lists,
        groups,
        renewal,
    })
}
