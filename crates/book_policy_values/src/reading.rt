//! The reading of a policy's parts, one after the other. Where a part has a fault, the answer is none.

ghost use Rattle.std.specs.Prelude.{◌≡◌, ◌↔◌, ◌<◌, ◌++◌, ◌∷◌, [], true, false, length, map, option_map, IsTrue, IfOk, OnOk, IfSome, IfNone};
ghost use Rattle.std.specs.FinMap.{empty, insert};
ghost use Rattle.std.specs.FinSet as set;
ghost use Rattle.std.specs.List.{AllByRecursion};
ghost use Rattle.book_office_values.specs.Paths.{IsPath, SpellsPath, SpellsNone, path_text};
ghost use Rattle.book_policy_values.specs.Policies.{HoldsSome, IsKnown, IsPlaceOf, IsPrincipalOf, NamesForm, NamesOwner, NamesPlace, NamesPrincipal, added, direct, entry_of, given_members, named_book, list_at, named_group, named_person, paired, paired_all, spelled};
ghost use Rattle.book_policy_values.specs.Reading.{BookFits, CanAdd, EntriesFit, EntryFits, GroupsFit, HasRoom, IsNew, MembersFit, PersonsFit, pushed_at, with_entries, with_entry};

use crate::parts::{BookPart, EntryPart, GroupPart, PersonPart, PolicyBook, PolicyEntry};
use book_limits::{MAX_ENTRIES, MAX_LABEL_BYTES, MAX_MEMBERS};
use book_lists::{Entry, Name, Pairs, Principal, Who};
use book_office_values::{Items, NameMap, Path, PathFault, Text, TextMap};
use book_rights::LeafSet;
use std::alloc::{AllocError, Global};

/// The name of something that is added to a map, if it is a name, the label is short, and the name is not there.
fn new_name<V>(
    alloc: Global,
    map: &NameMap<V>,
    name: &Text,
    label: &Text,
) -> Result<Option<Name>, AllocError>
    ensures some { IfOk result (λ found. IfSome found
        (λ read. (read ≡ name.now) × IsNew map.now name.now label.now)) }
    ensures none { IfOk result (λ found. IfNone found (IsNew map.now name.now label.now → ⊥)) }
{
    label.known();
    if label.len() > MAX_LABEL_BYTES {
        return Ok(None);
    }
    let Some(name) = Name::parse(alloc, name.as_str())? else {
        return Ok(None);
    };
    if map.get(&name).is_some() {
        return Ok(None);
    }
    Ok(Some(name))
}

/// Adds a person with its label, if its name and its label fit.
fn add_person(
    alloc: Global,
    persons: &mut NameMap<Text>,
    part: PersonPart,
) -> Result<bool, AllocError>
    ensures fit { IfOk result (λ fine. IsTrue fine ↔ IsNew persons.old part.name part.label) }
    ensures added { IfOk result (λ fine. IsTrue fine
        → persons.new ≡ insert persons.old part.name part.label) }
{
    let Some(name) = new_name(alloc, persons, &part.name, &part.label)? else {
        return Ok(false);
    };
    let PersonPart { label, .. } = part;
    drop(persons.insert(name, label)?);
    Ok(true)
}

/// The persons, with their labels.
fn read_persons(
    alloc: Global,
    parts: Items<PersonPart>,
) -> Result<Option<NameMap<Text>>, AllocError>
    ensures some { IfOk result (λ found. IfSome found
        (λ persons. PersonsFit empty parts × (persons ≡ added empty (map named_person parts)))) }
    ensures none { IfOk result (λ found. IfNone found (PersonsFit empty parts → ⊥)) }
{
    let mut persons = NameMap::new(alloc);
    for part in parts.into_vec() {
        if !add_person(alloc, &mut persons, part)? {
            return Ok(None);
        }
    }
    Ok(Some(persons))
}

/// Adds a group with its label, and its members as they were given, if its name and its label fit.
fn add_group(
    alloc: Global,
    groups: &mut NameMap<Text>,
    members: &mut Vec<(Principal, Items<Text>)>,
    part: GroupPart,
) -> Result<bool, AllocError>
    ensures fit { IfOk result (λ fine. IsTrue fine ↔ IsNew groups.old part.name part.label) }
    ensures added { IfOk result (λ fine. IsTrue fine
        → groups.new ≡ insert groups.old part.name part.label) }
    ensures given { IfOk result (λ fine. IsTrue fine
        → members.new.items ≡ members.old.items ++ given_members part ∷ []) }
{
    let Some(name) = new_name(alloc, groups, &part.name, &part.label)? else {
        return Ok(false);
    };
    let group = Principal::group(alloc, &name)?;
    let GroupPart {
        label,
        members: listed,
        ..
    } = part;
    drop(groups.insert(name, label)?);
    members.push((group, listed))?;
    Ok(true)
}

/// The groups with their labels, and their members as they were given.
fn read_groups(
    alloc: Global,
    parts: Items<GroupPart>,
) -> Result<Option<(NameMap<Text>, Items<(Principal, Items<Text>)>)>, AllocError>
    ensures some { IfOk result (λ found. IfSome found (λ read. GroupsFit empty parts
        × (read.0 ≡ added empty (map named_group parts)) × (read.1 ≡ map given_members parts))) }
    ensures none { IfOk result (λ found. IfNone found (GroupsFit empty parts → ⊥)) }
{
    let mut groups = NameMap::new(alloc);
    let mut members = Vec::new(alloc);
    for part in parts.into_vec() {
        if !add_group(alloc, &mut groups, &mut members, part)? {
            return Ok(None);
        }
    }
    Ok(Some((groups, Items::from_vec(members))))
}

/// The path that the text spells.
fn path_at(alloc: Global, text: &str) -> Result<Option<Path>, AllocError>
    ensures some { IfOk result (λ found. IfSome found
        (λ path. IsPath path × SpellsPath text.now path)) }
    ensures none { IfOk result (λ found. IfNone found (SpellsNone text.now)) }
{
    match Path::parse(alloc, text) {
        Ok(path) => Ok(Some(path)),
        Err(PathFault::BadPath) => Ok(None),
        Err(PathFault::Memory) => Err(AllocError),
    }
}

/// The principal that the path is, if it is a person or a group that is there.
fn principal_of(
    alloc: Global,
    persons: &NameMap<Text>,
    groups: &NameMap<Text>,
    path: &Path,
) -> Result<Option<Principal>, AllocError>
    ensures some { IfOk result (λ found. IfSome found
        (λ principal. (principal ≡ path_text path.now)
        × IsPrincipalOf persons.now groups.now path.now)) }
    ensures none { IfOk result (λ found. IfNone found
        (IsPrincipalOf persons.now groups.now path.now → ⊥)) }
{
    match path {
        Path::Person(name) => {
            if persons.get(name).is_none() {
                return Ok(None);
            }
            Ok(Some(Principal::person(alloc, name)?))
        }
        Path::Group(name) => {
            if groups.get(name).is_none() {
                return Ok(None);
            }
            Ok(Some(Principal::group(alloc, name)?))
        }
        _ => Ok(None),
    }
}

/// The principal that the text spells, if it is a person or a group that is there.
fn principal_at(
    alloc: Global,
    persons: &NameMap<Text>,
    groups: &NameMap<Text>,
    text: &str,
) -> Result<Option<Principal>, AllocError>
    ensures some { IfOk result (λ found. IfSome found
        (λ principal. (principal ≡ spelled text.now)
        × NamesPrincipal persons.now groups.now text.now)) }
    ensures none { IfOk result (λ found. IfNone found
        (NamesPrincipal persons.now groups.now text.now → ⊥)) }
{
    let Some(path) = path_at(alloc, text)? else {
        return Ok(None);
    };
    principal_of(alloc, persons, groups, &path)
}

/// A book's label and owner, if the owner is there.
fn book_of(
    alloc: Global,
    persons: &NameMap<Text>,
    groups: &NameMap<Text>,
    label: Text,
    owner: Option<Text>,
) -> Result<Option<PolicyBook>, AllocError>
    ensures some { IfOk result (λ found. IfSome found
        (λ book. (book ≡ record { label = label; owner = option_map spelled owner })
        × NamesOwner persons.now groups.now owner)) }
    ensures none { IfOk result (λ found. IfNone found
        (NamesOwner persons.now groups.now owner → ⊥)) }
{
    let Some(text) = owner else {
        return Ok(Some(PolicyBook { label, owner: None }));
    };
    let Some(principal) = principal_at(alloc, persons, groups, text.as_str())? else {
        return Ok(None);
    };
    Ok(Some(PolicyBook {
        label,
        owner: Some(principal),
    }))
}

/// Adds a book with its label and owner, if its name and its label fit, and its owner is there.
fn add_book(
    alloc: Global,
    persons: &NameMap<Text>,
    groups: &NameMap<Text>,
    books: &mut NameMap<PolicyBook>,
    part: BookPart,
) -> Result<bool, AllocError>
    ensures fit { IfOk result (λ fine. IsTrue fine ↔ IsNew books.old part.name part.label
        × NamesOwner persons.now groups.now part.owner) }
    ensures added { IfOk result (λ fine. IsTrue fine
        → books.new ≡ insert books.old part.name (named_book part).1) }
{
    let Some(name) = new_name(alloc, books, &part.name, &part.label)? else {
        return Ok(false);
    };
    let BookPart { label, owner, .. } = part;
    let Some(book) = book_of(alloc, persons, groups, label, owner)? else {
        return Ok(false);
    };
    drop(books.insert(name, book)?);
    Ok(true)
}

/// The books, with their labels and owners.
pub(crate) fn read_books(
    alloc: Global,
    persons: &NameMap<Text>,
    groups: &NameMap<Text>,
    parts: Items<BookPart>,
) -> Result<Option<NameMap<PolicyBook>>, AllocError>
    ensures some { IfOk result (λ found. IfSome found
        (λ books. CanAdd (BookFits persons.now groups.now) named_book empty parts
        × (books ≡ added empty (map named_book parts)))) }
    ensures none { IfOk result (λ found. IfNone found
        (CanAdd (BookFits persons.now groups.now) named_book empty parts → ⊥)) }
{
    let mut books = NameMap::new(alloc);
    for part in parts.into_vec() {
        if !add_book(alloc, persons, groups, &mut books, part)? {
            return Ok(None);
        }
    }
    Ok(Some(books))
}

/// Adds a pair of a group and a member.
fn add_pair(pairs: &mut Pairs, group: &Principal, member: &Principal) -> Result<(), AllocError>
    ensures { OnOk result (pairs.new ≡ set.insert pairs.old
        record { group = group.now; member = member.now }) }
{
    let group = group.clone()?;
    let member = member.clone()?;
    pairs.add(group, member)
}

/// Adds the members of one group, if each of them is there and there are not too many.
fn add_members(
    alloc: Global,
    pairs: &mut Pairs,
    persons: &NameMap<Text>,
    groups: &NameMap<Text>,
    group: &Principal,
    texts: Items<Text>,
) -> Result<bool, AllocError>
    ensures fit { IfOk result (λ fine. IsTrue fine
        ↔ MembersFit persons.now groups.now (group.now, texts)) }
    ensures added { IfOk result (λ fine. IsTrue fine
        → pairs.new ≡ paired pairs.old (direct group.now texts)) }
{
    let mut alone = Pairs::new(alloc);
    for text in texts.into_vec() {
        let Some(member) = principal_at(alloc, persons, groups, text.as_str())? else {
            return Ok(false);
        };
        add_pair(&mut alone, group, &member)?;
        add_pair(pairs, group, &member)?;
    }
    Ok(alone.len() <= MAX_MEMBERS)
}

/// The direct members of all groups.
fn read_members(
    alloc: Global,
    persons: &NameMap<Text>,
    groups: &NameMap<Text>,
    given: Items<(Principal, Items<Text>)>,
) -> Result<Option<Pairs>, AllocError>
    ensures some { IfOk result (λ found. IfSome found
        (λ pairs. AllByRecursion (MembersFit persons.now groups.now) given
        × (pairs ≡ paired_all set.empty given))) }
    ensures none { IfOk result (λ found. IfNone found
        (AllByRecursion (MembersFit persons.now groups.now) given → ⊥)) }
{
    let mut pairs = Pairs::new(alloc);
    for (group, texts) in given.into_vec() {
        if !add_members(alloc, &mut pairs, persons, groups, &group, texts)? {
            return Ok(None);
        }
    }
    Ok(Some(pairs))
}

/// Persons and groups with their labels, by name, and the direct members of the groups.
#[derive(Drop)]
pub(crate) struct ReadPrincipals {
    pub(crate) persons: NameMap<Text>,
    pub(crate) groups: NameMap<Text>,
    pub(crate) members: Pairs,
}

/// The persons, the groups and their direct members.
pub(crate) fn read_principals(
    alloc: Global,
    persons: Items<PersonPart>,
    groups: Items<GroupPart>,
) -> Result<Option<ReadPrincipals>, AllocError>
    ensures some { IfOk result (λ found. IfSome found
        (λ read. PersonsFit empty persons × GroupsFit empty groups
        × AllByRecursion (MembersFit read.persons read.groups) (map given_members groups)
        × (read.persons ≡ added empty (map named_person persons))
        × (read.groups ≡ added empty (map named_group groups))
        × (read.members ≡ paired_all set.empty (map given_members groups)))) }
    ensures none { IfOk result (λ found. IfNone found
        (PersonsFit empty persons → GroupsFit empty groups
        → AllByRecursion (MembersFit (added empty (map named_person persons))
        (added empty (map named_group groups))) (map given_members groups) → ⊥)) }
{
    let Some(persons) = read_persons(alloc, persons)? else {
        return Ok(None);
    };
    let Some((groups, given)) = read_groups(alloc, groups)? else {
        return Ok(None);
    };
    let Some(members) = read_members(alloc, &persons, &groups, given)? else {
        return Ok(None);
    };
    Ok(Some(ReadPrincipals {
        persons,
        groups,
        members,
    }))
}

/// Whether the principal is a person or a group that is there.
fn is_known(
    alloc: Global,
    persons: &NameMap<Text>,
    groups: &NameMap<Text>,
    principal: &Principal,
) -> Result<bool, AllocError>
    ensures { IfOk result (λ fine. IsTrue fine ↔ IsKnown persons.now groups.now principal.now) }
{
    principal.known();
    let found = principal_at(alloc, persons, groups, principal.text())?;
    Ok(found.is_some())
}

/// Whether the form names nobody, or a person or a group that is there.
fn form_fits(
    alloc: Global,
    persons: &NameMap<Text>,
    groups: &NameMap<Text>,
    who: &Who,
) -> Result<bool, AllocError>
    ensures { IfOk result (λ fine. IsTrue fine ↔ NamesForm persons.now groups.now who.now) }
{
    match who {
        Who::Href(principal) => is_known(alloc, persons, groups, principal),
        Who::Everyone => Ok(true),
        Who::Authenticated => Ok(true),
        Who::Unauthenticated => Ok(true),
        Who::Owner => Ok(true),
        Who::Own => Ok(true),
    }
}

/// Whether the path is the root, a home, or a person, a group or a book that is there.
fn is_place(
    persons: &NameMap<Text>,
    groups: &NameMap<Text>,
    books: &NameMap<PolicyBook>,
    path: &Path,
) -> bool
    ensures { IsTrue result ↔ IsPlaceOf persons.now groups.now books.now path.now }
{
    match path {
        Path::Root | Path::People | Path::Groups | Path::Books => true,
        Path::Person(name) => persons.get(name).is_some(),
        Path::Group(name) => groups.get(name).is_some(),
        Path::Book(name) => books.get(name).is_some(),
        Path::Card(_, _) => false,
    }
}

/// The text of the place that the text spells, without a slash at its end, if the place is there.
fn place_at(
    alloc: Global,
    persons: &NameMap<Text>,
    groups: &NameMap<Text>,
    books: &NameMap<PolicyBook>,
    text: &str,
) -> Result<Option<Text>, AllocError>
    ensures some { IfOk result (λ found. IfSome found
        (λ at. (at ≡ spelled text.now) × NamesPlace persons.now groups.now books.now text.now)) }
    ensures none { IfOk result (λ found. IfNone found
        (NamesPlace persons.now groups.now books.now text.now → ⊥)) }
{
    let Some(path) = path_at(alloc, text)? else {
        return Ok(None);
    };
    if !is_place(persons, groups, books, &path) {
        return Ok(None);
    }
    Ok(Some(Text::from_string(path.text(alloc)?)))
}

/// Whether the set has a leaf.
fn holds_some(set: LeafSet) -> bool
    ensures { IsTrue result ↔ HoldsSome set }
{
    set.least().is_some()
}

/// The entry with the place where it stands, if both fit.
fn read_entry(
    alloc: Global,
    persons: &NameMap<Text>,
    groups: &NameMap<Text>,
    books: &NameMap<PolicyBook>,
    part: EntryPart,
) -> Result<Option<PolicyEntry>, AllocError>
    ensures some { IfOk result (λ found. IfSome found
        (λ entry. (entry ≡ entry_of part) × EntryFits persons.now groups.now books.now part)) }
    ensures none { IfOk result (λ found. IfNone found
        (EntryFits persons.now groups.now books.now part → ⊥)) }
{
    let EntryPart {
        at,
        protected,
        entry,
    } = part;
    if !holds_some(entry.set) {
        return Ok(None);
    }
    if !form_fits(alloc, persons, groups, &entry.who)? {
        return Ok(None);
    }
    let Some(at) = place_at(alloc, persons, groups, books, at.as_str())? else {
        return Ok(None);
    };
    Ok(Some(PolicyEntry {
        at,
        protected,
        entry,
    }))
}

/// Adds an entry to the list at a text, if the list has room.
fn push_at(
    alloc: Global,
    lists: &mut TextMap<Items<Entry>>,
    at: &Text,
    entry: &Entry,
) -> Result<bool, AllocError>
    ensures room { IfOk result (λ fine. IsTrue fine
        ↔ length (list_at lists.old at.now) < MAX_ENTRIES) }
    ensures pushed { IfOk result (λ fine. IsTrue fine
        → lists.new ≡ pushed_at lists.old at.now entry.now) }
{
    let mut list = match lists.remove(at) {
        Some(list) => list,
        None => Items::new(alloc),
    };
    if list.len() >= MAX_ENTRIES {
        return Ok(false);
    }
    list.push(entry.clone()?)?;
    lists.insert(at.clone()?, list)?;
    Ok(true)
}

/// Adds an entry to its list, if the list has room.
fn list_entry(
    alloc: Global,
    protected: &mut TextMap<Items<Entry>>,
    own: &mut TextMap<Items<Entry>>,
    entry: &PolicyEntry,
) -> Result<bool, AllocError>
    ensures room { IfOk result (λ fine. IsTrue fine ↔ HasRoom protected.old own.old entry.now) }
    ensures protected { IfOk result (λ fine. IsTrue fine
        → protected.new ≡ with_entry true protected.old entry.now) }
    ensures own { IfOk result (λ fine. IsTrue fine → own.new ≡ with_entry false own.old entry.now) }
{
    if entry.protected {
        push_at(alloc, protected, &entry.at, &entry.entry)
    } else {
        push_at(alloc, own, &entry.at, &entry.entry)
    }
}

/// Entries in order, and their lists by the text of the path where they stand.
#[derive(Drop)]
pub(crate) struct ReadEntries {
    pub(crate) entries: Items<PolicyEntry>,
    pub(crate) protected: TextMap<Items<Entry>>,
    pub(crate) own: TextMap<Items<Entry>>,
}

/// Adds an entry, if it fits and its list has room.
fn add_entry(
    alloc: Global,
    persons: &NameMap<Text>,
    groups: &NameMap<Text>,
    books: &NameMap<PolicyBook>,
    read: &mut ReadEntries,
    part: EntryPart,
) -> Result<bool, AllocError>
    ensures fit { IfOk result (λ fine. IsTrue fine
        ↔ EntryFits persons.now groups.now books.now part
        × HasRoom read.old.protected read.old.own (entry_of part)) }
    ensures entries { IfOk result (λ fine. IsTrue fine
        → read.new.entries ≡ read.old.entries ++ entry_of part ∷ []) }
    ensures protected { IfOk result (λ fine. IsTrue fine
        → read.new.protected ≡ with_entry true read.old.protected (entry_of part)) }
    ensures own { IfOk result (λ fine. IsTrue fine
        → read.new.own ≡ with_entry false read.old.own (entry_of part)) }
{
    let Some(entry) = read_entry(alloc, persons, groups, books, part)? else {
        return Ok(false);
    };
    if !list_entry(alloc, &mut read.protected, &mut read.own, &entry)? {
        return Ok(false);
    }
    read.entries.push(entry)?;
    Ok(true)
}

/// The entries.
pub(crate) fn read_entries(
    alloc: Global,
    persons: &NameMap<Text>,
    groups: &NameMap<Text>,
    books: &NameMap<PolicyBook>,
    parts: Items<EntryPart>,
) -> Result<Option<ReadEntries>, AllocError>
    ensures some { IfOk result (λ found. IfSome found
        (λ read. EntriesFit (EntryFits persons.now groups.now books.now) empty empty parts
        × (read.entries ≡ map entry_of parts)
        × (read.protected ≡ with_entries true empty (map entry_of parts))
        × (read.own ≡ with_entries false empty (map entry_of parts)))) }
    ensures none { IfOk result (λ found. IfNone found
        (EntriesFit (EntryFits persons.now groups.now books.now) empty empty parts → ⊥)) }
{
    let mut read = ReadEntries {
        entries: Items::new(alloc),
        protected: TextMap::new(alloc),
        own: TextMap::new(alloc),
    };
    for part in parts.into_vec() {
        if !add_entry(alloc, persons, groups, books, &mut read, part)? {
            return Ok(None);
        }
    }
    Ok(Some(read))
}
