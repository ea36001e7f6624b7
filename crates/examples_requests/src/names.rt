//! The report on the names of a book's cards (own profile): the book, and a line for each card, `CARD [NAME]`, or
//! `CARD null` where the text is no card.

use crate::scripts::{Step, run_on, run_on_new};
use book_lists::Name;
use book_machine::NamedCard;
use std::alloc::Global;
use std::process::Abort;

fn tell_card(rt: &impl Abort, answer: &mut String, card: &NamedCard) {
    let name = card.name.text();
    match &card.formatted {
        Some(formatted) => {
            let formatted = formatted.as_str();
            write!(answer, "\n{name} [{formatted}]").expect(rt, "memory");
        }
        None => write!(answer, "\n{name} null").expect(rt, "memory"),
    }
}

/// The book, and a line for each card.
pub(crate) fn tell_named(
    rt: &impl Abort,
    alloc: Global,
    book: &Name,
    names: &[NamedCard],
) -> String {
    let book = book.text();
    let mut answer = format!(in alloc; " {book}").expect(rt, "memory");
    for card in names {
        tell_card(rt, &mut answer, card);
    }
    answer
}

/// Who may read names alone sees who is in the book, and no text. Each card is decided by itself, by the one leaf; a name
/// is the first FN, without its folds.
const NAMES: &[Step] = &[
    ("adopt office", "changed, epoch 1"),
    ("ann PUT /books/sales/b.vcf BO", "201"),
    (
        "ann ACL /books/sales list grant /people/gus x-read-names",
        "200",
    ),
    ("epoch", "2"),
    (
        "gus GET /books/sales/b.vcf",
        "403 need-privileges read /books/sales/b.vcf null",
    ),
    ("gus REPORT /books/sales names", "200 sales\nb.vcf [Bo]"),
    (
        "- REPORT /books/sales names",
        "403 need-privileges x-read-names /books/sales null",
    ),
    (
        "gus REPORT /books/sales sync",
        "403 need-privileges read /books/sales null",
    ),
    (
        "gus PROPFIND /books/sales find displayname",
        "403 need-privileges read /books/sales null",
    ),
    ("ann PUT /books/sales/a.vcf BELL", "201"),
    (
        "gus REPORT /books/sales names",
        "200 sales\na.vcf [Ann Bell]\nb.vcf [Bo]",
    ),
    (
        "ann ACL /books/sales/b.vcf list grant /people/gus x-read-texts ; deny /people/gus read",
        "200",
    ),
    (
        "gus REPORT /books/sales names",
        "200 sales\na.vcf [Ann Bell]",
    ),
    (
        "ann REPORT /books/sales names",
        "200 sales\na.vcf [Ann Bell]\nb.vcf [Bo]",
    ),
    (
        "ann ACL /books/sales/b.vcf list deny /people/gus x-read-texts",
        "200",
    ),
    (
        "gus REPORT /books/sales names",
        "200 sales\na.vcf [Ann Bell]\nb.vcf [Bo]",
    ),
    ("epoch", "4"),
];

#[test]
fn names_are_told_to_who_may_read_them(rt: HostRuntime) {
    run_on_new(&rt, rt.alloc(), NAMES);
}

/// A text that is no card has no name.
const OTHER_TEXT: &[&str] = &[
    "own /books/sales grant all x-read-names",
    "b.vcf B OTHER_VERSION",
];

const OTHER_TEXT_STEPS: &[Step] = &[(
    "- REPORT /books/sales names",
    "200 sales\na.vcf [Bo]\nb.vcf null",
)];

#[test]
fn texts_that_are_no_cards_have_no_name(rt: HostRuntime) {
    run_on(&rt, rt.alloc(), OTHER_TEXT, OTHER_TEXT_STEPS);
}

/// Names are asked of books. The path is looked at before any privilege.
const REFUSED: &[Step] = &[
    ("adopt office", "changed, epoch 1"),
    (
        "gus REPORT /books names",
        "405 not-allowed ACL, OPTIONS, PROPFIND, REPORT",
    ),
    (
        "gus REPORT /groups/staff names",
        "405 not-allowed ACL, OPTIONS, PROPFIND, PROPPATCH, REPORT",
    ),
    ("gus REPORT /books/none names", "404 not-found"),
    ("ann PUT /books/sales/b.vcf BO", "201"),
    (
        "gus REPORT /books/sales/b.vcf names",
        "405 not-allowed ACL, COPY, DELETE, GET, HEAD, MOVE, OPTIONS, PROPFIND, PROPPATCH, PUT, REPORT",
    ),
    (
        "gus REPORT /books/sales names",
        "403 need-privileges x-read-names /books/sales null",
    ),
    ("bob REPORT /books/law names", "200 law"),
];

#[test]
fn names_are_asked_of_books(rt: HostRuntime) {
    run_on_new(&rt, rt.alloc(), REFUSED);
}
