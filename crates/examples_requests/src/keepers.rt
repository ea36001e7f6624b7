//! A keeper in memory, asked and edited through the trait by edits that fit.

use crate::checks::check_fact;
use crate::scripts::{Step, run_on, run_on_new};
use book_office::{
    StoreFault, access_changes_raise_the_epoch, edits_within_the_limits_fit,
    own_lists_leave_protected_entries, resources_stand_in_place, resources_tell_the_office,
    touched_names_alone_change,
};
use std::alloc::AllocError;

/// The root has three homes, in byte order; nothing else is there, nobody belongs to anything, and the epoch is 0.
const NEW_OFFICE: &[Step] = &[
    ("node /", "Root 0 of nobody []"),
    (
        "children /",
        "books: Home 0 of nobody []\ngroups: Home 0 of nobody []\npeople: Home 0 of nobody []\n",
    ),
    ("node /people", "Home 0 of nobody []"),
    ("node /books/", "Home 0 of nobody []"),
    ("children /people", ""),
    ("children /groups", ""),
    ("children /books", ""),
    ("node /people/ann", "nothing"),
    ("node /groups/staff", "nothing"),
    ("node /books/sales", "nothing"),
    ("node /books/sales/bo", "nothing"),
    ("lists /books", ""),
    ("effective /books", ""),
    ("belongs - /people/ann", "false"),
    ("belongs /people/ann /people/ann", "true"),
    ("belongs /people/ann /groups/staff", "false"),
    ("pairs", "0"),
    ("epoch", "0"),
    ("failures", "0"),
];

#[test]
fn a_new_office_has_the_root_and_the_homes(rt: HostRuntime) {
    run_on_new(&rt, rt.alloc(), NEW_OFFICE);
}

/// Cards are listed by name, without their texts. A put over a card keeps its owner and its label; each change takes
/// the next number of its book. A removed name is gone; put again, it is a new card.
const PUTS: &[Step] = &[
    ("put law bo /people/bob BO", ""),
    ("put law ann /people/ann BELL", ""),
    (
        "children /books/law",
        "ann: Card 2 of /people/ann []\nbo: Card 1 of /people/bob []\n",
    ),
    ("put law bo /people/ann BELL", ""),
    ("put sales b.vcf /groups/staff BO", ""),
    ("node /books/law/bo", "Card 3 of /people/bob [] 47 bytes"),
    (
        "node /books/sales/b.vcf",
        "Card 3 of /people/bob [B] 44 bytes",
    ),
    (
        "lists /books/sales/b.vcf",
        "/books/sales/b.vcf own grant owner all\n",
    ),
    ("remove law bo", ""),
    ("node /books/law/bo", "nothing"),
    ("node /books/law", "Book 4 of nobody []"),
    ("changes law 2", "4 bo removed\n"),
    ("cards law 2", ""),
    ("cards law 0", "2 ann [] 47 bytes\n"),
    ("put law bo - BO", ""),
    ("node /books/law/bo", "Card 5 of nobody [] 44 bytes"),
    ("changes law 0", "2 ann [] 47 bytes\n5 bo [] 44 bytes\n"),
    ("remove sales b.vcf", ""),
    ("put sales b.vcf - BO", ""),
    ("lists /books/sales/b.vcf", ""),
    ("epoch", "0"),
];

/// A card with an own list.
const LISTED: &[&str] = &["own /books/sales/b.vcf grant owner all"];

#[test]
fn each_change_takes_the_next_number(rt: HostRuntime) {
    run_on(&rt, rt.alloc(), LISTED, PUTS);
}

/// A book goes with its cards and its numbers. Made again, it has the number 0.
const REMOVED_BOOK: &[Step] = &[
    ("take sales", ""),
    ("epoch", "1"),
    ("node /books/sales", "nothing"),
    ("node /books/sales/a.vcf", "nothing"),
    ("children /books", "law: Book 0 of nobody []\n"),
    ("add sales /groups/staff", ""),
    ("node /books/sales", "Book 0 of /groups/staff []"),
    ("children /books/sales", ""),
    ("changes sales 0", ""),
    ("epoch", "1"),
    ("failures", "0"),
];

#[test]
fn a_removed_book_raises_the_epoch(rt: HostRuntime) {
    run_on(&rt, rt.alloc(), LISTED, REMOVED_BOOK);
}

/// A copy takes the text and the label, and a new card the owner given and no own list; a card that is there keeps
/// its own. The source stays.
const COPIES: &[Step] = &[
    ("copy sales b.vcf law cem /people/gus", ""),
    ("node /books/law/cem", "Card 1 of /people/gus [B] 47 bytes"),
    ("lists /books/law/cem", ""),
    ("copy sales a.vcf sales b.vcf /people/gus", ""),
    (
        "node /books/sales/b.vcf",
        "Card 3 of /people/bob [A] 44 bytes",
    ),
    (
        "lists /books/sales/b.vcf",
        "/books/sales/b.vcf own grant owner all\n",
    ),
    (
        "node /books/sales/a.vcf",
        "Card 1 of /people/ann [A] 44 bytes",
    ),
    ("copy sales a.vcf sales a.vcf -", ""),
    (
        "changes sales 0",
        "3 b.vcf [A] 44 bytes\n4 a.vcf [A] 44 bytes\n",
    ),
    ("changes law 0", "1 cem [B] 47 bytes\n"),
    ("changes none 0", ""),
    ("epoch", "0"),
];

#[test]
fn a_copy_takes_text_and_label(rt: HostRuntime) {
    run_on(&rt, rt.alloc(), LISTED, COPIES);
}

/// The whole card moves, in place of one that is there; the name that it had is kept as removed. Within one book a
/// move takes two numbers, the source first.
const MOVES: &[Step] = &[
    ("put law cem /people/gus BO", ""),
    ("move sales b.vcf sales c.vcf", ""),
    ("node /books/sales/b.vcf", "nothing"),
    (
        "node /books/sales/c.vcf",
        "Card 4 of /people/bob [B] 47 bytes",
    ),
    (
        "lists /books/sales/c.vcf",
        "/books/sales/c.vcf own grant owner all\n",
    ),
    (
        "changes sales 0",
        "1 a.vcf [A] 44 bytes\n3 b.vcf removed\n4 c.vcf [B] 47 bytes\n",
    ),
    (
        "cards sales 0",
        "1 a.vcf [A] 44 bytes\n4 c.vcf [B] 47 bytes\n",
    ),
    ("cards sales 0 1", "1 a.vcf [A] 44 bytes\n"),
    ("cards sales 4", ""),
    ("cards none 0", ""),
    ("move sales c.vcf law cem", ""),
    ("node /books/law/cem", "Card 2 of /people/bob [B] 47 bytes"),
    (
        "lists /books/law/cem",
        "/books/law/cem own grant owner all\n",
    ),
    (
        "children /books/sales",
        "a.vcf: Card 1 of /people/ann [A]\n",
    ),
    ("changes sales 4", "5 c.vcf removed\n"),
    ("changes sales 5", ""),
    ("changes law 0", "2 cem [B] 47 bytes\n"),
    ("epoch", "0"),
    ("failures", "0"),
];

#[test]
fn a_move_takes_the_whole_card(rt: HostRuntime) {
    run_on(&rt, rt.alloc(), LISTED, MOVES);
}

#[test]
fn laws_are_called(rt: HostRuntime) {
    access_changes_raise_the_epoch();
    edits_within_the_limits_fit();
    own_lists_leave_protected_entries();
    resources_stand_in_place();
    resources_tell_the_office();
    touched_names_alone_change();
    let fault = StoreFault::from(AllocError);
    check_fact(&rt, fault == StoreFault::Memory, "memory");
}
