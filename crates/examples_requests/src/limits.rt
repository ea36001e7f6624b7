//! Limits that are reached: 10,000 cards of a book, 1,000 books, and 9,007,199,254,740,991 as epoch.

use crate::scripts::{Step, run_on, run_on_new};

/// Two cards and 9,998 more.
const MOST_CARDS: &[&str] = &["own /books grant all all", "cards 9998"];

/// One more is refused, and a card that is there may still be put. A card that is removed makes room for one.
const CARD_STEPS: &[Step] = &[
    ("node /books/sales", "Book 10000 of /people/ann [Sales]"),
    ("bob PUT /books/sales/d.vcf BO", "507 full"),
    (
        "bob PUT /books/sales/d.vcf TWO_UIDS",
        "400 bad-card twice 4",
    ),
    ("bob PUT /books/sales/a.vcf BO", "204"),
    ("bob DELETE /books/sales/c0", "204"),
    ("bob PUT /books/sales/d.vcf BO", "201"),
    ("bob PUT /books/sales/c0 BO", "507 full"),
    ("bob PUT /books/law/d.vcf BO", "201"),
    ("node /books/sales", "Book 10003 of /people/ann [Sales]"),
];

#[test]
fn a_book_may_have_10000_cards(rt: HostRuntime) {
    run_on(&rt, rt.alloc(), MOST_CARDS, CARD_STEPS);
}

/// Two books and 998 more.
const MOST_BOOKS: &[&str] = &["own /books grant all all", "books 998"];

/// One more is refused, also one that a policy names; a policy that names none but those that are there is adopted.
const BOOK_STEPS: &[Step] = &[
    ("bob MKCOL /books/new", "507 full"),
    ("adopt other", "full"),
    ("bob DELETE /books/b0", "204"),
    ("bob MKCOL /books/new", "201"),
    ("bob MKCOL /books/b0", "507 full"),
    ("adopt office", "changed, epoch 2"),
    ("epoch", "2"),
];

#[test]
fn there_may_be_1000_books(rt: HostRuntime) {
    run_on(&rt, rt.alloc(), MOST_BOOKS, BOOK_STEPS);
}

/// A new Office takes 1,000 books from a policy, and then no other.
const ADOPTED_BOOKS: &[Step] = &[
    ("adopt thousand-books", "changed, epoch 1"),
    ("adopt thousand-books", "unchanged, epoch 1"),
    ("adopt bare", "full"),
    ("node /books/b999", "Book 0 of nobody []"),
    ("node /books/sales", "nothing"),
];

#[test]
fn a_policy_may_bring_1000_books(rt: HostRuntime) {
    run_on_new(&rt, rt.alloc(), ADOPTED_BOOKS);
}

/// The last epoch but one.
const LAST_EPOCH: &[&str] = &["own /books grant all all", "epoch 9007199254740990"];

/// It rises once more. At its last value nothing that would raise it is taken, and no policy; all else is.
const EPOCH_STEPS: &[Step] = &[
    ("bob DELETE /books/law", "204"),
    ("epoch", "9007199254740991"),
    ("bob DELETE /books/sales", "507 full"),
    ("adopt office", "full"),
    ("node /people/zoe", "nothing"),
    ("bob MKCOL /books/law", "201"),
    ("bob PUT /books/law/a.vcf BO", "201"),
    ("epoch", "9007199254740991"),
];

#[test]
fn the_last_epoch_does_not_rise(rt: HostRuntime) {
    run_on(&rt, rt.alloc(), LAST_EPOCH, EPOCH_STEPS);
}
