//! COPY and MOVE of cards (RFC 4918, sections 9.8 and 9.9; that a copy over a card keeps its owner and own list is own
//! profile).
//!
//! The line of such a request is `CALLER METHOD PATH DESTINATION OVERWRITE`: the destination is absent where there is no
//! such word, and Overwrite is `T` there.

use crate::scripts::{Step, run_on, run_on_new};
use crate::words::word;
use book_machine::Flag;
use book_office::Path;
use std::alloc::Global;

/// The destination of the request of a line.
pub(crate) fn destination(alloc: Global, line: &str) -> Option<Path> {
    match word(line, 1) {
        "COPY" | "MOVE" => Path::parse(alloc, word(line, 3)).ok(),
        _ => None,
    }
}

/// The field Overwrite of the request of a line.
pub(crate) fn overwrite(line: &str) -> Flag {
    match word(line, 1) {
        "COPY" | "MOVE" => match word(line, 4) {
            "" | "T" => Flag::Yes,
            "F" => Flag::No,
            _ => Flag::Unread,
        },
        _ => Flag::Yes,
    }
}

/// A MOVE over a card needs `unbind` in its book. It takes the whole card with it, so that who might read the old card may
/// not read the new one, and is told that the name was removed. Within one book the name that it had has one number, and
/// the new name the next.
const MOVES: &[Step] = &[
    ("adopt office", "changed, epoch 1"),
    ("ann PUT /books/law/a.vcf BO", "201"),
    (
        "ann ACL /books/law/a.vcf list deny /people/ann all ; deny /people/bob read",
        "200",
    ),
    ("bob PUT /books/sales/b.vcf BELL", "201"),
    (
        "bob MOVE /books/law/a.vcf /books/sales/b.vcf",
        "403 need-privileges unbind /books/sales null",
    ),
    ("changes law 0", "1 a.vcf [] 44 bytes\n"),
    ("changes sales 0", "1 b.vcf [] 47 bytes\n"),
    ("ann PUT /books/sales/f.vcf BELL", "201"),
    (
        "bob HEAD /books/sales/f.vcf",
        "200 BEGIN:VCARD\nVERSION:4.0\nFN:An\n n Bell\nEND:VCARD",
    ),
    (
        "bob REPORT /books/sales sync",
        "207\n1 b.vcf [] 47 bytes\n2 f.vcf [] 47 bytes\ndata:,sales/2/2",
    ),
    ("ann MOVE /books/law/a.vcf /books/sales/f.vcf", "204"),
    (
        "bob REPORT /books/sales sync data:,sales/2/2",
        "207\n3 f.vcf removed\ndata:,sales/2/3",
    ),
    ("changes law 0", "2 a.vcf removed\n"),
    (
        "changes sales 0",
        "1 b.vcf [] 47 bytes\n3 f.vcf [] 44 bytes\n",
    ),
    (
        "bob HEAD /books/sales/f.vcf",
        "403 need-privileges read /books/sales/f.vcf /books/sales/f.vcf 3",
    ),
    (
        "gus COPY /books/sales/b.vcf /books/sales/f.vcf F",
        "412 overwrite",
    ),
    ("ann PUT /books/sales/p.vcf BO", "201"),
    ("ann PUT /books/sales/g.vcf BO", "201"),
    ("ann MOVE /books/sales/b.vcf /books/sales/h.vcf", "201"),
    ("changes sales 5", "6 b.vcf removed\n7 h.vcf [] 47 bytes\n"),
    (
        "bob REPORT /books/sales sync data:,sales/2/5",
        "207\n6 b.vcf removed\n7 h.vcf [] 47 bytes\ndata:,sales/2/7",
    ),
    ("ann DELETE /books/sales/h.vcf", "204"),
    ("bob PUT /books/sales/h.vcf BELL", "201"),
    (
        "bob REPORT /books/sales sync data:,sales/2/7",
        "207\n9 h.vcf [] 47 bytes\ndata:,sales/2/9",
    ),
    ("ann COPY /books/sales/h.vcf /books/sales/f.vcf", "204"),
    (
        "bob REPORT /books/sales sync data:,sales/2/9",
        "207\n10 f.vcf removed\ndata:,sales/2/10",
    ),
    (
        "changes sales 7",
        "9 h.vcf [] 47 bytes\n10 f.vcf [] 47 bytes\n",
    ),
    (
        "node /books/sales/f.vcf",
        "Card 10 of /people/ann [] 47 bytes",
    ),
    (
        "lists /books/sales/f.vcf",
        "/books/sales/f.vcf own deny /people/ann all\n\
         /books/sales/f.vcf own deny /people/bob read\n\
         /books/sales protected grant /people/ann all\n\
         /books/sales own grant /groups/staff read bind\n",
    ),
    ("epoch", "2"),
];

#[test]
fn a_move_takes_the_card_with_its_list(rt: HostRuntime) {
    run_on_new(&rt, rt.alloc(), MOVES);
}

/// Everything is granted to all, and there is a card with an own list.
const OPEN: &[&str] = &[
    "own /books grant all all",
    "own /books/sales/b.vcf grant owner read",
];

/// A copy at a new name is the caller's, and has no own list; over a card it keeps the owner and the own list of that
/// card. A MOVE within a book over a card takes two numbers.
const COPIES: &[Step] = &[
    ("gus COPY /books/sales/b.vcf /books/law/cem", "201"),
    ("node /books/law/cem", "Card 1 of /people/gus [B] 47 bytes"),
    ("lists /books/law/cem", "/books own grant all all\n"),
    (
        "node /books/sales/b.vcf",
        "Card 2 of /people/bob [B] 47 bytes",
    ),
    ("- COPY /books/sales/a.vcf /books/law/ann F", "201"),
    ("node /books/law/ann", "Card 2 of nobody [A] 44 bytes"),
    ("gus COPY /books/sales/a.vcf /books/sales/b.vcf", "204"),
    (
        "node /books/sales/b.vcf",
        "Card 3 of /people/bob [A] 44 bytes",
    ),
    (
        "lists /books/sales/b.vcf",
        "/books/sales/b.vcf own grant owner read\n/books own grant all all\n",
    ),
    ("gus MOVE /books/sales/b.vcf /books/sales/a.vcf T", "204"),
    ("changes sales 0", "4 b.vcf removed\n5 a.vcf [A] 44 bytes\n"),
    (
        "node /books/sales/a.vcf",
        "Card 5 of /people/bob [A] 44 bytes",
    ),
    (
        "lists /books/sales/a.vcf",
        "/books/sales/a.vcf own grant owner read\n/books own grant all all\n",
    ),
    ("gus MOVE /books/law/cem /books/sales/b.vcf", "201"),
    ("changes law 0", "2 ann [A] 44 bytes\n3 cem removed\n"),
    (
        "node /books/sales/b.vcf",
        "Card 6 of /people/gus [B] 47 bytes",
    ),
    ("epoch", "0"),
];

#[test]
fn a_copy_is_the_callers_or_keeps_what_was_there(rt: HostRuntime) {
    run_on(&rt, rt.alloc(), OPEN, COPIES);
}

/// Of several refusals the first in this order is told, and none asks for a privilege: a destination that is no other
/// card, or an Overwrite that is no flag; a source that is not there, or is no card; a book that is not there; a card that
/// may not be replaced.
const REFUSED: &[Step] = &[
    ("gus COPY /books/sales/a.vcf", "400 bad-request"),
    ("gus COPY /books/sales/a.vcf nowhere", "400 bad-request"),
    ("gus COPY /cellar /books/law", "400 bad-request"),
    ("gus MOVE /books/sales/a.vcf /", "400 bad-request"),
    ("gus MOVE /books/sales/a.vcf /people", "400 bad-request"),
    ("gus MOVE /books/sales/a.vcf /groups", "400 bad-request"),
    ("gus MOVE /books/sales/a.vcf /books", "400 bad-request"),
    ("gus MOVE /books/sales/a.vcf /people/ann", "400 bad-request"),
    (
        "gus MOVE /books/sales/a.vcf /groups/staff",
        "400 bad-request",
    ),
    (
        "gus COPY /books/sales/a.vcf /books/sales/a.vcf",
        "400 bad-request",
    ),
    (
        "gus MOVE /books/sales/a.vcf /books/sales/a.vcf F",
        "400 bad-request",
    ),
    (
        "gus COPY /books/none/a.vcf /books/none/c.vcf x",
        "400 bad-request",
    ),
    ("gus COPY /cellar /books/none/c.vcf", "404 not-found"),
    (
        "gus COPY /books/sales/none.vcf /books/none/c.vcf",
        "404 not-found",
    ),
    (
        "gus MOVE /books/none/a.vcf /books/sales/b.vcf F",
        "404 not-found",
    ),
    (
        "gus MOVE /books/sales /books/none/c.vcf",
        "405 not-allowed ACL, DELETE, OPTIONS, PROPFIND, PROPPATCH, REPORT",
    ),
    (
        "gus COPY /people/ann /books/sales/b.vcf F",
        "405 not-allowed ACL, OPTIONS, PROPFIND, PROPPATCH, REPORT",
    ),
    (
        "gus COPY /books /books/law/c.vcf",
        "405 not-allowed ACL, OPTIONS, PROPFIND, REPORT",
    ),
    (
        "gus COPY /books/sales/a.vcf /books/none/a.vcf F",
        "409 no-parent",
    ),
    (
        "gus MOVE /books/sales/a.vcf /books/none/a.vcf",
        "409 no-parent",
    ),
    (
        "gus COPY /books/sales/a.vcf /books/sales/b.vcf F",
        "412 overwrite",
    ),
    (
        "gus MOVE /books/sales/a.vcf /books/sales/b.vcf F",
        "412 overwrite",
    ),
    (
        "gus COPY /books/sales/a.vcf /books/sales/b.vcf",
        "403 need-privileges read /books/sales/a.vcf null",
    ),
    (
        "gus MOVE /books/sales/a.vcf /books/sales/b.vcf T",
        "403 need-privileges unbind /books/sales null",
    ),
    ("node /books/sales", "Book 2 of /people/ann [Sales]"),
];

#[test]
fn what_is_wrong_comes_before_what_is_needed(rt: HostRuntime) {
    run_on(&rt, rt.alloc(), &[], REFUSED);
}

/// Some may do a part of what is needed.
const PARTS: &[&str] = &[
    "own /books/sales grant /people/ann unbind",
    "own /books/sales grant /people/bob unbind bind",
    "own /books/sales/a.vcf grant all read",
    "own /books/sales/b.vcf grant /people/gus write-content",
    "own /books/law grant /people/bob bind",
];

/// COPY needs `read` of the source, and at the destination both privileges to write a card that is there, or `bind` in its
/// book. MOVE needs `unbind` in the source's book, `bind` in the destination's, and `unbind` there over a card; it reads
/// nothing.
const NEEDS: &[Step] = &[
    (
        "gus COPY /books/sales/b.vcf /books/law/c.vcf",
        "403 need-privileges read /books/sales/b.vcf null",
    ),
    (
        "gus COPY /books/sales/a.vcf /books/law/c.vcf",
        "403 need-privileges bind /books/law null",
    ),
    (
        "ann COPY /books/sales/a.vcf /books/sales/b.vcf",
        "403 need-privileges write-content /books/sales/b.vcf null",
    ),
    (
        "gus COPY /books/sales/a.vcf /books/sales/b.vcf",
        "403 need-privileges write-properties /books/sales/b.vcf null",
    ),
    (
        "gus MOVE /books/sales/a.vcf /books/law/c.vcf",
        "403 need-privileges unbind /books/sales null",
    ),
    (
        "ann MOVE /books/sales/a.vcf /books/law/c.vcf",
        "403 need-privileges bind /books/law null",
    ),
    (
        "ann MOVE /books/sales/a.vcf /books/sales/b.vcf",
        "403 need-privileges bind /books/sales null",
    ),
    ("bob COPY /books/sales/a.vcf /books/law/a.vcf", "201"),
    (
        "bob MOVE /books/sales/b.vcf /books/law/a.vcf",
        "403 need-privileges unbind /books/law null",
    ),
    ("bob MOVE /books/sales/b.vcf /books/law/b.vcf", "201"),
    (
        "bob GET /books/law/b.vcf",
        "403 need-privileges read /books/law/b.vcf null",
    ),
    ("bob MOVE /books/sales/a.vcf /books/sales/b.vcf", "201"),
];

#[test]
fn both_ends_are_asked(rt: HostRuntime) {
    run_on(&rt, rt.alloc(), PARTS, NEEDS);
}

/// Two cards and 9,998 more.
const MOST_CARDS: &[&str] = &["own /books grant all all", "cards 9998"];

/// A full book takes no card more by COPY or MOVE, but a card in the place of another; within it a card may be moved.
const CARD_STEPS: &[Step] = &[
    ("bob PUT /books/law/x BO", "201"),
    ("bob COPY /books/law/x /books/sales/new", "507 full"),
    ("bob MOVE /books/law/x /books/sales/new", "507 full"),
    ("bob COPY /books/sales/a.vcf /books/sales/new", "507 full"),
    ("bob MOVE /books/sales/a.vcf /books/sales/new", "201"),
    ("node /books/sales", "Book 10002 of /people/ann [Sales]"),
    ("bob COPY /books/law/x /books/sales/b.vcf", "204"),
    ("bob MOVE /books/law/x /books/sales/c0", "204"),
    ("node /books/law", "Book 2 of nobody []"),
    ("bob MOVE /books/sales/c1 /books/law/y", "201"),
    ("bob COPY /books/law/y /books/sales/z", "201"),
    ("bob COPY /books/law/y /books/sales/c1", "507 full"),
    ("node /books/sales", "Book 10006 of /people/ann [Sales]"),
];

#[test]
fn a_full_book_takes_no_card_more(rt: HostRuntime) {
    run_on(&rt, rt.alloc(), MOST_CARDS, CARD_STEPS);
}
