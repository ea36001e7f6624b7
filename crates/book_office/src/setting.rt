//! Labels, own lists and the members of groups, set in an Office in memory. Each is set whole, or on an error not at
//! all.

ghost use Rattle.std.specs.Prelude.{◌≡◌, ℕ, ◌+◌, ◌^◌, ◌<◌, List, map, not, IfOk, OnOk, OnErr};
ghost use Rattle.std.specs.FinMap.{get};
ghost use Rattle.std.specs.FinSet as set;
ghost use Rattle.std.specs.Str.{bytes_eq};
ghost use Rattle.book_lists.specs.Memberships.{set_of};
ghost use Rattle.book_lists.specs.declared.memberships.Membership.{Membership};
ghost use Rattle.book_office.specs.Edits.{changed_at, card_labelled, label_card, label_set, list_set, listed_card, members_set, own_list_set, set_label, set_list, set_members, with_cards, with_properties, with_book_properties};
ghost use Rattle.book_office.specs.Moving.{AreNumbered};
ghost use Rattle.book_office_values.specs.declared.offices.Book.{Book};

use book_limits::LAST_NUMBER;
use book_lists::{Entry, Membership, Name, Pairs, Principal};
use book_office_values::{Book, Items, NameMap, Office, Path, Properties, StoredCard, Text};
use std::alloc::{AllocError, Global};

/// Replaces the label of the person or the group of a name, if there is one.
fn label_principal(principals: &mut NameMap<Properties>, name: &Name, label: Text)
    ensures { principals.new ≡ changed_at (label_set label) principals.old name.now }
{
    if let Some(properties) = principals.get_mut(name) {
        properties.label = label;
    }
}

/// Replaces the label of the book of a name, if there is one.
fn label_book(books: &mut NameMap<Book>, name: &Name, label: Text)
    ensures { books.new ≡ changed_at (with_book_properties (label_set label)) books.old name.now }
{
    if let Some(book) = books.get_mut(name) {
        book.properties.label = label;
    }
}

/// Replaces the label at a path that is no card's.
fn label_properties(office: &mut Office, path: &Path, label: Text)
    ensures { office.new ≡ with_properties (label_set label) office.old path.now }
{
    match path {
        Path::Root => office.root.label = label,
        Path::People => office.people.label = label,
        Path::Groups => office.groups_home.label = label,
        Path::Books => office.books_home.label = label,
        Path::Person(name) => label_principal(&mut office.persons, name, label),
        Path::Group(name) => label_principal(&mut office.groups, name, label),
        Path::Book(name) => label_book(&mut office.books, name, label),
        Path::Card(_, _) => {}
    }
}

/// Replaces the label of the card of a name, if there is one.
fn replace_label(cards: &mut NameMap<StoredCard>, name: &Name, label: Text)
    ensures { cards.new ≡ changed_at (card_labelled label) cards.old name.now }
{
    if let Some(card) = cards.get_mut(name) {
        card.label = label;
    }
}

/// Labels the card of a name, which is touched; nothing where there is none.
fn label_card(book: &mut Book, name: &Name, label: Text) -> Result<(), AllocError>
    requires { book.old.changes.number + 1 < 2 ^ 64 }
    ensures ok { OnOk result (book.new ≡ label_card name.now label
        (get book.old.cards name.now) book.old) }
    ensures err { OnErr result (book.new ≡ book.old) }
{
    if book.cards.get(name).is_none() {
        return Ok(());
    }
    book.changes.touch(name)?;
    replace_label(&mut book.cards, name, label);
    Ok(())
}

/// Labels a card of one of the books.
fn label_card_in(
    books: &mut NameMap<Book>,
    book: &Name,
    card: &Name,
    label: Text,
) -> Result<(), AllocError>
    ensures ok { OnOk result (AreNumbered books.old
        → books.new ≡ changed_at (λ (b : Book). label_card card.now label (get b.cards card.now) b)
        books.old book.now) }
    ensures err { OnErr result (books.new ≡ books.old) }
{
    match books.get_mut(book) {
        Some(book) if book.changes.number() <= LAST_NUMBER => label_card(book, card, label),
        _ => Ok(()),
    }
}

/// Sets the label of a resource.
pub(crate) fn set_label(office: &mut Office, path: &Path, label: &Text) -> Result<(), AllocError>
    ensures ok { OnOk result (AreNumbered office.old.books
        → office.new ≡ set_label path.now label.now office.old) }
    ensures pairs { office.new.pairs ≡ office.old.pairs }
    ensures err { OnErr result (office.new ≡ office.old) }
{
    let label = label.clone()?;
    match path {
        Path::Card(book, card) => label_card_in(&mut office.books, book, card, label),
        Path::Root
        | Path::People
        | Path::Groups
        | Path::Books
        | Path::Person(_)
        | Path::Group(_)
        | Path::Book(_) => {
            label_properties(office, path, label);
            Ok(())
        }
    }
}

/// Replaces the own list of the person or the group of a name, if there is one.
fn list_principal(principals: &mut NameMap<Properties>, name: &Name, own: Items<Entry>)
    ensures { principals.new ≡ changed_at (list_set own) principals.old name.now }
{
    if let Some(properties) = principals.get_mut(name) {
        properties.own = own;
    }
}

/// Replaces the own list of the book of a name, if there is one.
fn list_book(books: &mut NameMap<Book>, name: &Name, own: Items<Entry>)
    ensures { books.new ≡ changed_at (with_book_properties (list_set own)) books.old name.now }
{
    if let Some(book) = books.get_mut(name) {
        book.properties.own = own;
    }
}

/// Replaces the own list of the card of a name, if there is one.
fn replace_list(cards: &mut NameMap<StoredCard>, name: &Name, own: Items<Entry>)
    ensures { cards.new ≡ changed_at (listed_card own) cards.old name.now }
{
    if let Some(card) = cards.get_mut(name) {
        card.own = own;
    }
}

/// Replaces the own list of a card of one of the books.
fn list_card_in(books: &mut NameMap<Book>, book: &Name, card: &Name, own: Items<Entry>)
    ensures { books.new ≡ changed_at (with_cards
        (λ cards. changed_at (listed_card own) cards card.now)) books.old book.now }
{
    if let Some(book) = books.get_mut(book) {
        replace_list(&mut book.cards, card, own);
    }
}

/// Replaces the own list of a resource.
fn replace_own(office: &mut Office, path: &Path, own: Items<Entry>)
    ensures { office.new ≡ own_list_set path.now own office.old }
{
    match path {
        Path::Root => office.root.own = own,
        Path::People => office.people.own = own,
        Path::Groups => office.groups_home.own = own,
        Path::Books => office.books_home.own = own,
        Path::Person(name) => list_principal(&mut office.persons, name, own),
        Path::Group(name) => list_principal(&mut office.groups, name, own),
        Path::Book(name) => list_book(&mut office.books, name, own),
        Path::Card(book, card) => list_card_in(&mut office.books, book, card, own),
    }
}

/// Sets the own list of a resource; access has changed.
pub(crate) fn set_list(
    office: &mut Office,
    path: &Path,
    entries: &Items<Entry>,
) -> Result<(), AllocError>
    requires { office.old.epoch + 1 < 2 ^ 64 }
    ensures ok { OnOk result (office.new ≡ set_list path.now entries.now office.old) }
    ensures err { OnErr result (office.new ≡ office.old) }
{
    let own = entries.clone()?;
    replace_own(office, path, own);
    office.epoch += 1;
    Ok(())
}

/// The pairs of other groups.
#[tactic(auto, using(crate::proofs::GroupMembers::others_kept))]
fn pairs_of_others(
    alloc: Global,
    pairs: Vec<Membership>,
    group: &Principal,
) -> Result<Pairs, AllocError>
    ensures { IfOk result (λ others. others ≡ set.retain (set_of pairs.items)
        (λ (m : Membership). not (bytes_eq m.group group.now))) }
{
    let mut others = Pairs::new(alloc);
    for pair in pairs {
        if pair.group != *group {
            let Membership { group, member } = pair;
            others.add(group, member)?;
        }
    }
    Ok(others)
}

/// Adds direct members to a group.
#[tactic(auto, using(crate::proofs::GroupMembers::members_joined))]
fn add_members(
    pairs: &mut Pairs,
    group: &Principal,
    members: &[Principal],
) -> Result<(), AllocError>
    ensures { OnOk result (pairs.new ≡ set.union pairs.old
        (set.from_list (map (λ member. record { group = group.now; member = member })
        members.now))) }
{
    for member in members {
        pairs.add(group.clone()?, member.clone()?)?;
    }
    Ok(())
}

/// Direct memberships where a group has these members, and every other group has those that it had. An error is want of
/// memory.
pub fn with_members(
    alloc: Global,
    pairs: &Pairs,
    group: &Principal,
    members: &[Principal],
) -> Result<Pairs, AllocError>
    ensures { IfOk result (λ all. all ≡ members_set pairs.now group.now members.now) }
{
    let mut all = pairs_of_others(alloc, pairs.list()?, group)?;
    add_members(&mut all, group, members)?;
    Ok(all)
}

/// Sets the direct members of a group; access has changed. The new pairs are made aside.
pub(crate) fn set_members(
    alloc: Global,
    office: &mut Office,
    group: &Principal,
    members: &Items<Principal>,
) -> Result<(), AllocError>
    requires { office.old.epoch + 1 < 2 ^ 64 }
    ensures ok { OnOk result (office.new ≡ set_members group.now members.now office.old) }
    ensures err { OnErr result (office.new ≡ office.old) }
{
    office.pairs = with_members(alloc, &office.pairs, group, members.as_slice())?;
    office.epoch += 1;
    Ok(())
}
