//! The members of group cards (RFC 6350, section 6.6.5).

use crate::checks::check_text;
use crate::edited_offices::{circle, keeper, put, set_list};
use crate::words::{name, word};
use book_lists::Name;
use book_office::{Items, Keeper};
use book_office_members::{Members, equal_views_have_equal_members, group_members};
use std::alloc::Global;
use std::process::Abort;

fn push(rt: &impl Abort, text: &mut String, more: &str) {
    text.push_str(more).expect(rt, "memory");
}

/// The card of a line `CARD UID MEMBER ..`: it has no UID at a dash, and is a group where it has members.
fn card_text(rt: &impl Abort, alloc: Global, line: &str) -> String {
    let mut text = String::new(alloc);
    push(rt, &mut text, "BEGIN:VCARD\r\nVERSION:4.0\r\nFN:X\r\n");
    if word(line, 1) != "-" {
        push(rt, &mut text, "UID:");
        push(rt, &mut text, word(line, 1));
        push(rt, &mut text, "\r\n");
    }
    if word(line, 2) != "" {
        push(rt, &mut text, "KIND:group\r\n");
    }
    for member in line.split(' ').skip(2) {
        push(rt, &mut text, "MEMBER:");
        push(rt, &mut text, member);
        push(rt, &mut text, "\r\n");
    }
    push(rt, &mut text, "END:VCARD\r\n");
    text
}

/// Puts the cards of the lines into the book sales; `no card` is a text that is no card.
fn put_all<K: Keeper>(rt: &impl Abort, alloc: Global, keeper: &mut K, lines: &[&str]) {
    for line in lines {
        if word(line, 1) == "no" {
            let content = "BEGIN:VCARD\r\nVERSION:4.0\r\nUID:urn:p\r\nEND:VCARD\r\n";
            put(
                rt,
                alloc,
                keeper,
                ("sales", word(line, 0)),
                "/people/ann",
                content,
            );
        } else {
            let content = card_text(rt, alloc, line);
            put(
                rt,
                alloc,
                keeper,
                ("sales", word(line, 0)),
                "/people/ann",
                content.as_str(),
            );
        }
    }
}

fn push_names(rt: &impl Abort, text: &mut String, names: &Items<Name>) {
    for name in names.as_slice() {
        push(rt, text, " ");
        push(rt, text, name.text());
    }
}

/// Each value with its names, and then what is reached, all on lines of their own.
fn members_text(rt: &impl Abort, alloc: Global, members: &Members) -> String {
    let mut text = String::new(alloc);
    for line in members.lines.as_slice() {
        push(rt, &mut text, line.value.as_str());
        push_names(rt, &mut text, &line.names);
        push(rt, &mut text, "\n");
    }
    push(rt, &mut text, "reached");
    push_names(rt, &mut text, &members.reached);
    text
}

/// What the person is told of the card in the book sales.
fn told<K: Keeper>(
    rt: &impl Abort,
    alloc: Global,
    keeper: &mut K,
    person: &str,
    card: &str,
) -> String {
    let circle = circle(rt, alloc, keeper, person);
    let book = name(rt, alloc, "sales");
    let card = name(rt, alloc, card);
    let members = group_members(alloc, keeper, &circle, &book, &card).expect(rt, "memory");
    drop(circle);
    let text = members_text(rt, alloc, &members);
    drop(members);
    text
}

fn compare<K: Keeper>(
    rt: &impl Abort,
    alloc: Global,
    keeper: &mut K,
    asked: &[(&str, &str, &str)],
) {
    for (person, card, wanted) in asked {
        let members = told(rt, alloc, keeper, person, card);
        check_text(rt, members.as_str(), wanted, card);
    }
}

/// Groups of groups, one of which leads back to the first. Two cards have one UID; they are told in byte order of their
/// names, which is not the order in which they came. A line that stands twice is told twice. A text that is no card has
/// no UID. What is no group has no members; nor has what is not there.
const MANY_GROUPS: &[&str] = &[
    "z.vcf urn:p",
    "b.vcf urn:p",
    "a.vcf no",
    "one.vcf urn:one urn:two urn:p urn:two",
    "two.vcf urn:two urn:one urn:three",
    "lone.vcf urn:lone urn:none",
    "self.vcf urn:self urn:self",
];

const ASKED_OF_MANY: &[(&str, &str, &str)] = &[
    (
        "/people/bob",
        "one.vcf",
        "urn:two two.vcf\nurn:p b.vcf z.vcf\nurn:two two.vcf\nreached b.vcf one.vcf two.vcf z.vcf",
    ),
    (
        "/people/bob",
        "two.vcf",
        "urn:one one.vcf\nurn:three\nreached b.vcf one.vcf two.vcf z.vcf",
    ),
    ("/people/bob", "lone.vcf", "urn:none\nreached"),
    (
        "/people/bob",
        "self.vcf",
        "urn:self self.vcf\nreached self.vcf",
    ),
    ("/people/bob", "a.vcf", "reached"),
    ("/people/bob", "none.vcf", "reached"),
];

/// Once bob may not read the second group, no step goes through it.
const ASKED_WITHOUT_TWO: &[(&str, &str, &str)] = &[
    (
        "/people/bob",
        "one.vcf",
        "urn:two\nurn:p b.vcf z.vcf\nurn:two\nreached b.vcf z.vcf",
    ),
    ("/people/bob", "two.vcf", "reached"),
];

#[test]
fn steps_go_from_group_to_group(rt: HostRuntime) {
    let alloc = rt.alloc();
    let mut keeper = keeper(&rt, alloc);
    put_all(&rt, alloc, &mut keeper, MANY_GROUPS);
    compare(&rt, alloc, &mut keeper, ASKED_OF_MANY);
    set_list(
        &rt,
        alloc,
        &mut keeper,
        "/books/sales/two.vcf",
        &["deny /people/bob read"],
    );
    compare(&rt, alloc, &mut keeper, ASKED_WITHOUT_TWO);
    drop(keeper);
    equal_views_have_equal_members();
}
