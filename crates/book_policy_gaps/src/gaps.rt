//! The facts that are told of one resource or one caller, each with where it holds.

ghost use Rattle.std.specs.Prelude.{◌≡◌, ◌++◌, OnOk};
ghost use Rattle.book_policy_gaps.specs.Gaps.{closed_gap, closed_gaps, empty_gap, empty_gaps, has_person, has_right, is_closed, is_read_for, is_shut_out, owner_gaps, persons_change_list, plain_gaps, reads_for, right_gap, right_gaps, unread_gap};

use crate::askers::{Asker, Everybody};
use crate::places::{Place, may, may_anything, may_read};
use book_lists::{Circle, Name, Principal};
use book_office::Listed;
use book_office_values::Path;
use book_rights::Leaf;
use std::alloc::{AllocError, Global};

/// A fact that a sound policy leaves open (own profile).
#[derive(Debug, Drop)]
pub enum Gap {
    /// No person belongs to the group, by any chain.
    EmptyGroup(Name),
    /// To the person no leaf is granted at any book.
    NoRight(Name),
    /// At the resource `write-acl` is granted to no person and not to nobody.
    ClosedList(Path),
    /// The owner of the book is this person or group, and `read` is granted there to nobody who belongs to it; somebody does.
    UnreadByOwner(Path, Principal),
    /// The book is read by a caller, who is nobody where no person is told, by an entry that stands at the second path, above
    /// it; and no entry of its own and its protected list denies `all` to all or to who does not belong to a principal.
    OpenedAbove(Path, Option<Principal>, Path),
    /// In the own list of the book an entry grants to `owner`, and no entry in force before it denies `all` to all or to who
    /// does not belong to a principal.
    KeptByOwners(Path),
    /// A protected entry in force at the book grants to `owner`: the second path is where it stands. No entry in force before
    /// it denies so.
    KeptByProtected(Path, Path),
    /// The person may read `/books`, and reads the book by an entry that stands above it.
    ReadByListing(Name, Path),
}

/// A resource that is no card, with whether nobody may change its list.
#[derive(Debug, Drop)]
pub(crate) struct Judged {
    pub(crate) path: Path,
    pub(crate) closed: bool,
}

/// Whether one of these persons belongs to the group.
fn has_person(persons: &[Asker], group: &Principal) -> bool
    ensures { result ≡ has_person persons.now group.now }
{
    persons.iter().any(|person| person.circle.has(group))
}

/// Tells of a group that nobody is in it, where that is so.
fn push_empty(
    alloc: Global,
    gaps: &mut Vec<Gap>,
    persons: &[Asker],
    group: &Listed,
) -> Result<(), AllocError>
    ensures { OnOk result (gaps.new.items ≡ gaps.old.items ++ empty_gap persons.now group.now) }
{
    let principal = Principal::group(alloc, &group.name)?;
    if has_person(persons, &principal) {
        return Ok(());
    }
    let name = group.name.clone()?;
    gaps.push(Gap::EmptyGroup(name))?;
    Ok(())
}

/// Tells of each group that nobody is in it.
fn push_empty_groups(
    alloc: Global,
    gaps: &mut Vec<Gap>,
    persons: &[Asker],
    groups: &[Listed],
) -> Result<(), AllocError>
    ensures { OnOk result (gaps.new.items ≡ gaps.old.items ++ empty_gaps persons.now groups.now) }
{
    for group in groups {
        push_empty(alloc, gaps, persons, group)?;
    }
    Ok(())
}

/// Whether a leaf is granted to the person at one of these books.
fn has_right(books: &[Place], circle: &Circle) -> bool
    ensures { result ≡ has_right books.now circle.now }
{
    books.iter().any(|book| may_anything(book, circle))
}

/// Tells of a person who has no right at any book.
fn push_right(gaps: &mut Vec<Gap>, books: &[Place], person: &Asker) -> Result<(), AllocError>
    ensures { OnOk result (gaps.new.items ≡ gaps.old.items ++ right_gap books.now person.now) }
{
    if has_right(books, &person.circle) {
        return Ok(());
    }
    let name = person.name.clone()?;
    gaps.push(Gap::NoRight(name))?;
    Ok(())
}

/// Tells of each person who has no right at any book.
fn push_rights(gaps: &mut Vec<Gap>, books: &[Place], persons: &[Asker]) -> Result<(), AllocError>
    ensures { OnOk result (gaps.new.items ≡ gaps.old.items ++ right_gaps books.now persons.now) }
{
    for person in persons {
        push_right(gaps, books, person)?;
    }
    Ok(())
}

/// Whether one of these persons may change the list at a place.
fn persons_change_list(persons: &[Asker], place: &Place) -> bool
    ensures { result ≡ persons_change_list persons.now place.now }
{
    persons
        .iter()
        .any(|person| may(place, &person.circle, Leaf::WriteAcl))
}

/// Whether nobody may change the list at a place: neither who is nobody nor a person.
pub(crate) fn is_closed(everybody: &Everybody, place: &Place) -> bool
    ensures { result ≡ is_closed everybody.now place.now }
{
    !may(place, &everybody.nobody, Leaf::WriteAcl)
        && !persons_change_list(everybody.persons.as_slice(), place)
}

/// Tells of a resource that nobody may change its list, where that is so.
fn push_closed(gaps: &mut Vec<Gap>, judged: &Judged) -> Result<(), AllocError>
    ensures { OnOk result (gaps.new.items ≡ gaps.old.items ++ closed_gap judged.now) }
{
    if !judged.closed {
        return Ok(());
    }
    let path = judged.path.clone()?;
    gaps.push(Gap::ClosedList(path))?;
    Ok(())
}

/// Tells of each resource whose list nobody may change.
fn push_closed_lists(gaps: &mut Vec<Gap>, judged: &[Judged]) -> Result<(), AllocError>
    ensures { OnOk result (gaps.new.items ≡ gaps.old.items ++ closed_gaps judged.now) }
{
    for resource in judged {
        push_closed(gaps, resource)?;
    }
    Ok(())
}

/// Whether the person belongs to the owner of a book, and may read it.
fn reads_for(book: &Place, owner: &Principal, person: &Asker) -> bool
    ensures { result ≡ reads_for book.now owner.now person.now }
{
    person.circle.has(owner) && may_read(book, &person.circle)
}

/// Whether one of these persons belongs to the owner of a book, and may read it.
fn is_read_for(persons: &[Asker], book: &Place, owner: &Principal) -> bool
    ensures { result ≡ is_read_for persons.now book.now owner.now }
{
    persons.iter().any(|person| reads_for(book, owner, person))
}

/// Whether somebody belongs to the owner of a book, and nobody who does may read it.
fn is_shut_out(persons: &[Asker], book: &Place, owner: &Principal) -> bool
    ensures { result ≡ is_shut_out persons.now book.now owner.now }
{
    has_person(persons, owner) && !is_read_for(persons, book, owner)
}

/// Tells of the owner of a book, if it has one, who may not read it.
fn push_unread(
    gaps: &mut Vec<Gap>,
    persons: &[Asker],
    book: &Place,
    owner: &Option<Principal>,
) -> Result<(), AllocError>
    ensures { OnOk result (gaps.new.items ≡ gaps.old.items
        ++ unread_gap persons.now book.now owner.now) }
{
    let Some(owner) = owner else {
        return Ok(());
    };
    if !is_shut_out(persons, book, owner) {
        return Ok(());
    }
    let path = book.path.clone()?;
    let owner = owner.clone()?;
    gaps.push(Gap::UnreadByOwner(path, owner))?;
    Ok(())
}

/// Tells of the owner of each book who may not read it.
fn push_owners(gaps: &mut Vec<Gap>, persons: &[Asker], books: &[Place]) -> Result<(), AllocError>
    ensures { OnOk result (gaps.new.items ≡ gaps.old.items ++ owner_gaps persons.now books.now) }
{
    for book in books {
        push_unread(gaps, persons, book, &book.here.owner)?;
    }
    Ok(())
}

/// Tells the facts of each group, of each person, of each resource that is no card, and of the owner of each book.
pub(crate) fn push_plain(
    alloc: Global,
    gaps: &mut Vec<Gap>,
    groups: &[Listed],
    persons: &[Asker],
    judged: &[Judged],
    books: &[Place],
) -> Result<(), AllocError>
    ensures { OnOk result (gaps.new.items ≡ gaps.old.items
        ++ plain_gaps groups.now persons.now judged.now books.now) }
{
    push_empty_groups(alloc, gaps, persons, groups)?;
    push_rights(gaps, books, persons)?;
    push_closed_lists(gaps, judged)?;
    push_owners(gaps, persons, books)
}
