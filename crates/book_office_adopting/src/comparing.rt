//! Whether two Offices have the same places and pairs.

ghost use Rattle.std.specs.Prelude.{◌≡◌, ◌↔◌, true, Some, option_map, IsTrue, IfOk};
ghost use Rattle.std.specs.FinMap.{get, entries};
ghost use Rattle.std.specs.FinSet as set;
ghost use Rattle.std.specs.List.{AllByRecursion};
ghost use Rattle.std.specs.Option.{option_copied};
ghost use Rattle.book_lists.specs.declared.memberships.Membership.{Membership as Pair};
ghost use Rattle.book_office_values.specs.declared.offices.Book.{Book as BookValue};
ghost use Rattle.book_office_adopting.specs.TakingOver.{bare, bare_books};

use book_lists::{Entry, Membership, Pairs, Principal, Who};
use book_office_values::{Book, Items, NameMap, Office, Properties, Text};
use std::alloc::AllocError;

/// Whether two forms are equal.
fn same_form(who: &Who, other: &Who) -> bool
    ensures { IsTrue result ↔ (who.now ≡ other.now) }
{
    who == other
}

/// Whether two entries are equal.
fn same_entry(entry: &Entry, other: &Entry) -> bool
    ensures { IsTrue result ↔ (entry.now ≡ other.now) }
{
    same_form(&entry.who, &other.who)
        && entry.invert == other.invert
        && entry.deny == other.deny
        && entry.set == other.set
}

/// Whether two lists are equal.
fn same_list(list: &Items<Entry>, other: &Items<Entry>) -> bool
    ensures { IsTrue result ↔ (list.now ≡ other.now) }
{
    let list = list.as_slice();
    let other = other.as_slice();
    if list.len() != other.len() {
        return false;
    }
    for (i, entry) in list.iter().enumerate() {
        if !same_entry(entry, &other[i]) {
            return false;
        }
    }
    true
}

/// Whether two owners are equal.
fn same_owner(owner: &Option<Principal>, other: &Option<Principal>) -> bool
    ensures { IsTrue result ↔ (owner.now ≡ other.now) }
{
    owner == other
}

/// Whether two texts are equal.
fn same_text(text: &Text, other: &Text) -> bool
    ensures { IsTrue result ↔ (text.now ≡ other.now) }
{
    text == other
}

/// Whether two places have the same owner and label.
pub fn same_place(properties: &Properties, other: &Properties) -> bool
    ensures { IsTrue result ↔ ((properties.now.owner ≡ other.now.owner)
        × (properties.now.label ≡ other.now.label)) }
{
    same_owner(&properties.owner, &other.owner) && same_text(&properties.label, &other.label)
}

/// Whether two places have the same lists.
pub fn same_lists(properties: &Properties, other: &Properties) -> bool
    ensures { IsTrue result ↔ ((properties.now.protected ≡ other.now.protected)
        × (properties.now.own ≡ other.now.own)) }
{
    same_list(&properties.protected, &other.protected) && same_list(&properties.own, &other.own)
}

/// Whether two places are equal.
fn same_properties(properties: &Properties, other: &Properties) -> bool
    ensures { IsTrue result ↔ (properties.now ≡ other.now) }
{
    same_owner(&properties.owner, &other.owner)
        && same_text(&properties.label, &other.label)
        && same_list(&properties.protected, &other.protected)
        && same_list(&properties.own, &other.own)
}

/// Whether each pair of a list is there.
fn are_there(list: Vec<Membership>, pairs: &Pairs) -> bool
    ensures { IsTrue result ↔ AllByRecursion
        (λ (q : Pair). set.contains pairs.now q ≡ true) list.items }
{
    for pair in list {
        if !pairs.has(&pair.group, &pair.member) {
            return false;
        }
    }
    true
}

/// Whether there are the same pairs.
fn same_pairs(pairs: &Pairs, other: &Pairs) -> Result<bool, AllocError>
    ensures { IfOk result (λ same. IsTrue same ↔ (pairs.now ≡ other.now)) }
{
    if !are_there(pairs.list()?, other) {
        return Ok(false);
    }
    Ok(are_there(other.list()?, pairs))
}

/// Whether a place is the other, if there is one.
fn properties_stands(properties: &Properties, other: Option<&Properties>) -> bool
    ensures { IsTrue result ↔ (option_copied other.entry ≡ Some properties.now) }
{
    match other {
        Some(other) => same_properties(other, properties),
        None => false,
    }
}

/// Whether the place of a book is that of the other, if there is one.
fn book_stands(book: &Book, other: Option<&Book>) -> bool
    ensures { IsTrue result ↔ (option_map (λ (b : BookValue). b.properties)
        (option_copied other.entry) ≡ Some book.now.properties) }
{
    match other {
        Some(other) => same_properties(&other.properties, &book.properties),
        None => false,
    }
}

/// Whether each place of a map stands in another.
fn principals_stand(principals: &NameMap<Properties>, other: &NameMap<Properties>) -> bool
    ensures { IsTrue result ↔ AllByRecursion (λ e. get other.now e.0 ≡ Some e.1)
        (entries principals.now) }
{
    for (name, properties) in principals.iter() {
        if !properties_stands(properties, other.get(name)) {
            return false;
        }
    }
    true
}

/// Whether the place of each book of a map stands in another.
fn books_stand(books: &NameMap<Book>, other: &NameMap<Book>) -> bool
    ensures { IsTrue result ↔ AllByRecursion
        (λ e. option_map (λ (book : BookValue). book.properties)
        (get other.now e.0) ≡ Some e.1.properties) (entries books.now) }
{
    for (name, book) in books.iter() {
        if !book_stands(book, other.get(name)) {
            return false;
        }
    }
    true
}

/// Whether two maps have the same places.
fn same_principals(principals: &NameMap<Properties>, other: &NameMap<Properties>) -> bool
    ensures { IsTrue result ↔ (principals.now ≡ other.now) }
{
    principals_stand(principals, other) && principals_stand(other, principals)
}

/// Whether two maps have the same books, but for their cards and changes.
fn same_books(books: &NameMap<Book>, other: &NameMap<Book>) -> bool
    ensures { IsTrue result ↔ (bare_books books.now ≡ bare_books other.now) }
{
    books_stand(books, other) && books_stand(other, books)
}

/// Whether two Offices have the same root and the same homes.
fn same_homes(office: &Office, other: &Office) -> bool
    ensures { IsTrue result ↔ ((office.now.root ≡ other.now.root)
        × (office.now.people ≡ other.now.people) × (office.now.groups_home ≡ other.now.groups_home)
        × (office.now.books_home ≡ other.now.books_home)) }
{
    same_properties(&office.root, &other.root)
        && same_properties(&office.people, &other.people)
        && same_properties(&office.groups_home, &other.groups_home)
        && same_properties(&office.books_home, &other.books_home)
}

/// Whether two Offices have the same persons, groups and books, but for cards and changes.
fn same_maps(office: &Office, other: &Office) -> bool
    ensures { IsTrue result ↔ ((office.now.persons ≡ other.now.persons)
        × (office.now.groups ≡ other.now.groups)
        × (bare_books office.now.books ≡ bare_books other.now.books)) }
{
    same_principals(&office.persons, &other.persons)
        && same_principals(&office.groups, &other.groups)
        && same_books(&office.books, &other.books)
}

/// Whether two Offices are equal, but for cards and changes.
pub(crate) fn same_but_cards(office: &Office, other: &Office) -> Result<bool, AllocError>
    ensures { IfOk result (λ same. IsTrue same ↔ (bare office.now ≡ bare other.now)) }
{
    if office.epoch != other.epoch || !same_homes(office, other) || !same_maps(office, other) {
        return Ok(false);
    }
    same_pairs(&office.pairs, &other.pairs)
}
