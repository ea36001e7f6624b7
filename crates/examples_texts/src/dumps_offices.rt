//! The Office of the examples, with each kind of thing that a dump tells.

use book_lists::{Entry, Name, Principal, Who};
use book_office::{Edit, Items, Keeper, MemoryKeeper, Path, Text};
use book_policy::read_policy;
use book_rights::{LeafSet, Privilege};
use std::alloc::Global;
use std::process::Abort;

/// Persons ann, bob and gus. The group staff has bob and ann, and the group crew has staff. Entries stand in both lists of
/// the root, and in one of the home of books and of the book sales. The name of the book sales-old begins as that of sales
/// and goes on with a character that comes before the slash.
const POLICY: &str = "version = 1\n\
    [[person]]\nname = \"ann\"\n[[person]]\nname = \"bob\"\n[[person]]\nname = \"gus\"\n\
    [[group]]\nname = \"staff\"\nmembers = [\"/people/bob\", \"/people/ann\"]\n\
    [[group]]\nname = \"crew\"\nlabel = \"The crew\"\nmembers = [\"/groups/staff\"]\n\
    [[book]]\nname = \"sales-old\"\n\
    [[book]]\nname = \"sales\"\nlabel = \"Sales\"\nowner = \"/people/ann\"\n\
    [[entry]]\nat = \"/\"\nwho = \"/people/ann\"\ngrant = [\"read\"]\nprotected = true\n\
    [[entry]]\nat = \"/\"\nwho = \"all\"\ngrant = [\"bind\", \"read\"]\n\
    [[entry]]\nat = \"/books\"\nwho = \"/people/gus\"\ndeny = [\"all\"]\nprotected = true\n\
    [[entry]]\nat = \"/books/sales\"\nwho = \"/groups/crew\"\ngrant = [\"write\", \"read-acl\"]\n";

/// The text of each card.
const CARD: &str = "BEGIN:VCARD\r\nFN:Bo\r\nEND:VCARD\r\n";

pub(crate) fn name(rt: &impl Abort, alloc: Global, word: &str) -> Name {
    let name = Name::parse(alloc, word).expect(rt, "memory");
    name.expect(rt, "a name")
}

fn principal(rt: &impl Abort, alloc: Global, word: &str) -> Principal {
    let principal = Principal::parse(alloc, word).expect(rt, "memory");
    principal.expect(rt, "a principal")
}

fn act<K: Keeper>(rt: &impl Abort, alloc: Global, keeper: &mut K, edit: Edit) {
    keeper.act(alloc, &edit).expect(rt, "memory");
    drop(edit);
}

/// Puts a card of ann's into the book sales.
fn put_card<K: Keeper>(rt: &impl Abort, alloc: Global, keeper: &mut K, card: &str) {
    let edit = Edit::PutCard {
        book: name(rt, alloc, "sales"),
        card: name(rt, alloc, card),
        owner: Some(principal(rt, alloc, "/people/ann")),
        text: Text::copy_of(alloc, CARD).expect(rt, "memory"),
    };
    act(rt, alloc, keeper, edit);
}

/// Removes a card of the book sales.
fn remove_card<K: Keeper>(rt: &impl Abort, alloc: Global, keeper: &mut K, card: &str) {
    let edit = Edit::RemoveCard {
        book: name(rt, alloc, "sales"),
        card: name(rt, alloc, card),
    };
    act(rt, alloc, keeper, edit);
}

/// The path of the card `b.vcf`.
pub(crate) fn card_path(rt: &impl Abort, alloc: Global) -> Path {
    Path::Card(name(rt, alloc, "sales"), name(rt, alloc, "b.vcf"))
}

/// Gives the card a label with a line feed, a character of two bytes, a quote and a backslash.
fn set_label<K: Keeper>(rt: &impl Abort, alloc: Global, keeper: &mut K) {
    let edit = Edit::SetLabel {
        path: card_path(rt, alloc),
        label: Text::copy_of(alloc, "Bo\nß \"q\" \\").expect(rt, "memory"),
    };
    act(rt, alloc, keeper, edit);
}

/// Gives the card its own list: `deny not /groups/staff read`, and a grant to itself of nothing.
fn set_list<K: Keeper>(rt: &impl Abort, alloc: Global, keeper: &mut K) {
    let mut entries = Items::new(alloc);
    let first = Entry {
        who: Who::Href(principal(rt, alloc, "/groups/staff")),
        invert: true,
        deny: true,
        set: Privilege::Read.leaves(),
    };
    entries.push(first).expect(rt, "memory");
    let second = Entry {
        who: Who::Own,
        invert: false,
        deny: false,
        set: LeafSet::empty(),
    };
    entries.push(second).expect(rt, "memory");
    let edit = Edit::SetList {
        path: card_path(rt, alloc),
        entries,
    };
    act(rt, alloc, keeper, edit);
}

/// A keeper of the Office. In the book sales the changes are, from 1: b.vcf, c.vcf and d.vcf were put, d.vcf and c.vcf were
/// removed, and b.vcf got a label. The import and the own list raised the epoch.
pub(crate) fn keeper(rt: &impl Abort, alloc: Global) -> MemoryKeeper {
    let mut keeper = MemoryKeeper::new(alloc);
    let policy = read_policy(alloc, POLICY).expect(rt, "a policy");
    act(rt, alloc, &mut keeper, Edit::Adopt { policy });
    put_card(rt, alloc, &mut keeper, "b.vcf");
    put_card(rt, alloc, &mut keeper, "c.vcf");
    put_card(rt, alloc, &mut keeper, "d.vcf");
    remove_card(rt, alloc, &mut keeper, "d.vcf");
    remove_card(rt, alloc, &mut keeper, "c.vcf");
    set_label(rt, alloc, &mut keeper);
    set_list(rt, alloc, &mut keeper);
    keeper
}
