//! Paths of resources.

use crate::checks::{check_fact, check_text};
use crate::lists::{LONGEST, TOO_LONG};
use crate::names::named;
use book_office_values::{
    Kind, Path, PathFault, levels_go_up, push_book_path, push_card_path, texts_spell_one_path,
};
use std::alloc::Global;
use std::process::Abort;

fn at(rt: &impl Abort, alloc: Global, text: &str) -> Path {
    Path::parse(alloc, text).ok().expect(rt, "a path")
}

/// The text of the path above; empty above the root.
fn text_above(rt: &impl Abort, alloc: Global, path: &Path) -> String {
    match path.parent().expect(rt, "memory") {
        Some(above) => above.text(alloc).expect(rt, "memory"),
        None => String::new(alloc),
    }
}

fn check_spelled(
    rt: &impl Abort,
    alloc: Global,
    spelled: &str,
    text: &str,
    above: &str,
    kind: Kind,
) {
    let path = at(rt, alloc, spelled);
    check_fact(rt, path.kind() == kind, spelled);
    let own = path.text(alloc).expect(rt, "memory");
    check_text(rt, own.as_str(), text, spelled);
    let told = text_above(rt, alloc, &path);
    check_text(rt, told.as_str(), above, spelled);
    path.known();
}

/// A text, the text of its path, that of the path above, and the kind.
const SPELLED: &[(&str, &str, &str, Kind)] = &[
    ("/", "/", "", Kind::Root),
    ("/people", "/people", "/", Kind::Home),
    ("/people/", "/people", "/", Kind::Home),
    ("/groups", "/groups", "/", Kind::Home),
    ("/groups/", "/groups", "/", Kind::Home),
    ("/books", "/books", "/", Kind::Home),
    ("/books/", "/books", "/", Kind::Home),
    ("/people/ann", "/people/ann", "/people", Kind::Person),
    ("/people/ann/", "/people/ann", "/people", Kind::Person),
    ("/groups/legal", "/groups/legal", "/groups", Kind::Group),
    ("/groups/legal/", "/groups/legal", "/groups", Kind::Group),
    ("/books/law", "/books/law", "/books", Kind::Book),
    ("/books/law/", "/books/law", "/books", Kind::Book),
    (
        "/books/law/a.vcf",
        "/books/law/a.vcf",
        "/books/law",
        Kind::Card,
    ),
    ("/books/law/law", "/books/law/law", "/books/law", Kind::Card),
];

#[test]
fn paths_are_spelled(rt: HostRuntime) {
    for (spelled, text, above, kind) in SPELLED {
        check_spelled(&rt, rt.alloc(), spelled, text, above, *kind);
    }
}

const NO_PATHS: &[&str] = &[
    "",
    "people",
    "//",
    "/x",
    "/peoples",
    "/people//",
    "/people/ann//",
    "/people/ann/x",
    "/books//",
    "/books//a.vcf",
    "/books/.a",
    "/books/law/.a",
    "/books/law//",
    "/books/law/a.vcf/",
    "/books/law/a.vcf/x",
    "/books/law/ä.vcf",
];

#[test]
fn other_texts_spell_no_path(rt: HostRuntime) {
    for text in NO_PATHS {
        let answer = Path::parse(rt.alloc(), text);
        check_fact(&rt, matches!(answer, Err(PathFault::BadPath)), text);
    }
}

fn check_compared(rt: &impl Abort, alloc: Global, text: &str, other: &str, are_one: bool) {
    let path = at(rt, alloc, text);
    let copy = path.clone().expect(rt, "memory");
    check_fact(rt, copy == path, text);
    let other = at(rt, alloc, other);
    check_fact(rt, (copy == other) == are_one, text);
}

/// Two texts, and whether they spell one path.
const COMPARED: &[(&str, &str, bool)] = &[
    ("/books/law/a.vcf", "/books/law/a.vcf", true),
    ("/books/law/a.vcf", "/books/law/b.vcf", false),
    ("/people/ann", "/groups/ann", false),
    ("/books/law", "/books/law/", true),
];

#[test]
fn paths_are_compared(rt: HostRuntime) {
    for (text, other, are_one) in COMPARED {
        check_compared(&rt, rt.alloc(), text, other, *are_one);
    }
    texts_spell_one_path();
    levels_go_up();
}

/// A name may have 64 bytes.
#[test]
fn a_name_may_have_64_bytes(rt: HostRuntime) {
    for (name, is_path) in [(LONGEST, true), (TOO_LONG, false)] {
        for front in ["/people/", "/groups/", "/books/", "/books/law/"] {
            let text = format!(in rt.alloc(); "{front}{name}").expect(&rt, "memory");
            let path = Path::parse(rt.alloc(), text.as_str());
            check_fact(&rt, path.is_ok() == is_path, text.as_str());
        }
    }
}

/// A resource, its parent, and so on up to the root.
#[test]
fn levels_lead_to_the_root(rt: HostRuntime) {
    let alloc = rt.alloc();
    let levels = at(&rt, alloc, "/books/law/a.vcf").levels(alloc);
    let levels = levels.expect(&rt, "memory");
    check_fact(&rt, levels.len() == 4, "levels");
    let wanted = ["/books/law/a.vcf", "/books/law", "/books", "/"];
    for (path, text) in levels.as_slice().iter().zip(wanted) {
        let told = path.text(alloc).expect(&rt, "memory");
        check_text(&rt, told.as_str(), text, "a level");
    }
}

/// A path is added after what a string holds.
#[test]
fn paths_are_added_to_a_string(rt: HostRuntime) {
    let alloc = rt.alloc();
    let book = named(&rt, alloc, "sales");
    let card = named(&rt, alloc, "b.vcf");
    let mut text = String::from_str(alloc, "of ").expect(&rt, "memory");
    push_book_path(&mut text, &book).expect(&rt, "memory");
    check_text(&rt, text.as_str(), "of /books/sales", "a book");
    push_card_path(&mut text, &book, &card).expect(&rt, "memory");
    check_text(
        &rt,
        text.as_str(),
        "of /books/sales/books/sales/b.vcf",
        "a card",
    );
    let person = at(&rt, alloc, "/people/ann");
    person.push_text(&mut text).expect(&rt, "memory");
    check_text(
        &rt,
        text.as_str(),
        "of /books/sales/books/sales/b.vcf/people/ann",
        "a person",
    );
}
