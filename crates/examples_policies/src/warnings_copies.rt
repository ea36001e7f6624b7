//! An Office, copied out of a keeper: each last change is in the copy, those of removed names too; without cards it has none.

use crate::checks::check_text;
use crate::making::{act, adopted};
use book_lists::{Name, Principal};
use book_office::{Edit, Keeper, MemoryKeeper};
use book_office_copies::{copy, copy_without_cards};
use book_office_values::{Office, Path, Text};
use std::alloc::Global;
use std::process::Abort;

/// Ann is in the group staff, and owns the book team.
const POLICY: &str = "version = 1\n\
    [[person]]\nname = \"ann\"\n[[group]]\nname = \"staff\"\nmembers = [\"/people/ann\"]\n\
    [[book]]\nname = \"team\"\nowner = \"/people/ann\"\n";

/// The last change of a comes third: the first number was that of an earlier one. The name b was removed.
const TOLD: &str = "/people/ann\n5\n3 a three\n4 b -\n5 c four\n";

/// The same where the number of the book was raised.
const RAISED: &str = "/people/ann\n9\n3 a three\n4 b -\n5 c four\n";

/// Without cards.
const BARE: &str = "/people/ann\n0\n";

/// A name.
fn name(rt: &impl Abort, alloc: Global, text: &str) -> Name {
    let parsed = Name::parse(alloc, text).expect(rt, "memory");
    parsed.expect(rt, "a name")
}

/// Puts a card with a text into the book team.
fn put<K: Keeper>(rt: &impl Abort, alloc: Global, keeper: &mut K, card: &str, text: &str) {
    let edit = Edit::PutCard {
        book: name(rt, alloc, "team"),
        card: name(rt, alloc, card),
        owner: None,
        text: Text::copy_of(alloc, text).expect(rt, "memory"),
    };
    act(rt, alloc, keeper, edit);
}

/// A keeper of the Office of the example.
fn keeper(rt: &impl Abort, alloc: Global) -> MemoryKeeper {
    let mut keeper = adopted(rt, alloc, POLICY);
    put(rt, alloc, &mut keeper, "a", "one");
    put(rt, alloc, &mut keeper, "b", "two");
    put(rt, alloc, &mut keeper, "a", "three");
    let edit = Edit::RemoveCard {
        book: name(rt, alloc, "team"),
        card: name(rt, alloc, "b"),
    };
    act(rt, alloc, &mut keeper, edit);
    put(rt, alloc, &mut keeper, "c", "four");
    keeper
}

/// The members of the group staff, a line for each.
fn push_members<K: Keeper>(rt: &impl Abort, alloc: Global, keeper: &mut K, told: &mut String) {
    let staff = name(rt, alloc, "staff");
    let group = Principal::group(alloc, &staff).expect(rt, "memory");
    let pairs = keeper.members(alloc, &group).expect(rt, "memory");
    let list = pairs.list().expect(rt, "memory");
    for pair in &list {
        told.push_str(pair.member.text()).expect(rt, "memory");
        told.push_str("\n").expect(rt, "memory");
    }
    drop(list);
    drop(pairs);
}

/// The number of the book team, and its last changes, a line for each.
fn push_changes<K: Keeper>(rt: &impl Abort, alloc: Global, keeper: &mut K, told: &mut String) {
    let team = name(rt, alloc, "team");
    let changes = keeper
        .changes_after(alloc, &team, 0, None)
        .expect(rt, "memory");
    let book = keeper
        .find(alloc, &Path::Book(team))
        .expect(rt, "memory")
        .expect(rt, "a book");
    let number = book.number;
    drop(book);
    let line = format!(in alloc; "{number}\n").expect(rt, "memory");
    told.push_str(line.as_str()).expect(rt, "memory");
    for change in changes.as_slice() {
        let (number, name) = (change.number, change.name.text());
        let text = match &change.card {
            Some(card) => card.text.as_str(),
            None => "-",
        };
        let line = format!(in alloc; "{number} {name} {text}\n").expect(rt, "memory");
        told.push_str(line.as_str()).expect(rt, "memory");
    }
    drop(changes);
}

/// What is told of an Office is this.
fn check(rt: &impl Abort, alloc: Global, office: Office, wanted: &str) {
    let mut told = String::new(alloc);
    let mut keeper = MemoryKeeper::from_office(office);
    push_members(rt, alloc, &mut keeper, &mut told);
    push_changes(rt, alloc, &mut keeper, &mut told);
    drop(keeper);
    check_text(rt, told.as_str(), wanted);
}

#[test]
fn copies_have_every_change(rt: HostRuntime) {
    let alloc = rt.alloc();
    let mut keeper = keeper(&rt, alloc);
    let whole = copy(alloc, &mut keeper).expect(&rt, "memory");
    check(&rt, alloc, whole, TOLD);
    let bare = copy_without_cards(alloc, &mut keeper).expect(&rt, "memory");
    check(&rt, alloc, bare, BARE);
    drop(keeper);
}

/// A number that is above each last change stays, as where names are known no more.
#[test]
fn copies_have_the_numbers_of_books(rt: HostRuntime) {
    let alloc = rt.alloc();
    let team = name(&rt, alloc, "team");
    let mut first = keeper(&rt, alloc);
    let mut office = copy(alloc, &mut first).expect(&rt, "memory");
    drop(first);
    office
        .books
        .get_mut(&team)
        .expect(&rt, "a book")
        .changes
        .raise(9);
    let mut raised = MemoryKeeper::from_office(office);
    let whole = copy(alloc, &mut raised).expect(&rt, "memory");
    drop(raised);
    drop(team);
    check(&rt, alloc, whole, RAISED);
}
