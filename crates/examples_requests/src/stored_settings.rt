//! Labels, own lists and members of groups, set by a keeper in memory. Each line's answer tells the number that it took,
//! or the epoch.

use crate::scripts::{Step, run_on};

/// Protected entries above and at a book, and an own list of a card.
const LISTED: &[&str] = &[
    "protected /books grant /people/gus read-acl",
    "protected /books/sales grant owner read",
    "own /books/sales/b.vcf grant owner all",
];

/// A card's label takes the next number of its book, also where it is the one that the card has; no other label takes
/// one. No label raises the epoch.
const LABELS: &[Step] = &[
    ("label /books/sales/b.vcf Bell", ""),
    (
        "node /books/sales/b.vcf",
        "Card 3 of /people/bob [Bell] 47 bytes",
    ),
    ("label /books/sales/b.vcf Bell", ""),
    ("label /books/sales/a.vcf", ""),
    (
        "changes sales 0",
        "4 b.vcf [Bell] 47 bytes\n5 a.vcf [] 44 bytes\n",
    ),
    (
        "lists /books/sales/b.vcf",
        "/books/sales/b.vcf own grant owner all\n/books/sales protected grant owner read\n/books protected grant /people/gus read-acl\n",
    ),
    ("label /books/sales Trade", ""),
    ("node /books/sales", "Book 5 of /people/ann [Trade]"),
    ("label /people/ann Ann", ""),
    ("node /people/ann", "Person 0 of nobody [Ann]"),
    ("label /groups/staff Staff", ""),
    ("label /groups/staff Crew", ""),
    ("node /groups/staff", "Group 0 of nobody [Crew]"),
    ("node /groups/crew", "Group 0 of nobody []"),
    ("epoch", "0"),
    ("failures", "0"),
];

#[test]
fn a_label_of_a_card_takes_a_number(rt: HostRuntime) {
    run_on(&rt, rt.alloc(), LISTED, LABELS);
}

/// An own list is replaced where it stands and nowhere else; protected lists stay. Each list raises the epoch, also one
/// that is equal, and none takes a number.
const LISTS: &[Step] = &[
    ("list /books/sales/b.vcf deny /people/ann all", ""),
    ("epoch", "1"),
    (
        "effective /books/sales/b.vcf",
        "/books/sales protected grant owner read\n/books protected grant /people/gus read-acl\n/books/sales/b.vcf own deny /people/ann all\n",
    ),
    ("list /books/sales/b.vcf deny /people/ann all", ""),
    ("epoch", "2"),
    ("list /books/sales grant not /groups/staff bind", ""),
    ("list / grant all read", ""),
    ("list /people/bob grant self write", ""),
    ("list /groups/staff deny unauthenticated read", ""),
    ("epoch", "6"),
    (
        "lists /books/sales/a.vcf",
        "/books/sales protected grant owner read\n/books/sales own grant not /groups/staff bind\n/books protected grant /people/gus read-acl\n/ own grant all read\n",
    ),
    (
        "lists /people/bob",
        "/people/bob own grant self write\n/ own grant all read\n",
    ),
    (
        "lists /groups/staff",
        "/groups/staff own deny unauthenticated read\n/ own grant all read\n",
    ),
    ("list /", ""),
    ("list /books/sales/b.vcf", ""),
    (
        "effective /books/sales/b.vcf",
        "/books/sales protected grant owner read\n/books protected grant /people/gus read-acl\n/books/sales own grant not /groups/staff bind\n",
    ),
    ("epoch", "8"),
    (
        "changes sales 0",
        "1 a.vcf [A] 44 bytes\n2 b.vcf [B] 47 bytes\n",
    ),
    ("failures", "0"),
];

#[test]
fn an_own_list_raises_the_epoch(rt: HostRuntime) {
    run_on(&rt, rt.alloc(), LISTED, LISTS);
}

/// The direct members of a group become those of the list, each once; those of other groups stay. Each change raises the
/// epoch, also one to the members that the group has. A group may be its own member.
const MEMBERS: &[Step] = &[
    ("pairs", "3"),
    ("belongs /people/ann /groups/crew", "true"),
    (
        "members /groups/staff /people/bob /people/gus /people/bob",
        "",
    ),
    ("epoch", "1"),
    ("pairs", "3"),
    ("belongs /people/ann /groups/staff", "false"),
    ("belongs /people/ann /groups/crew", "false"),
    ("belongs /people/bob /groups/staff", "true"),
    ("belongs /people/gus /groups/crew", "true"),
    ("members /groups/staff /people/gus /people/bob", ""),
    ("epoch", "2"),
    ("pairs", "3"),
    ("members /groups/crew /groups/crew /people/ann", ""),
    ("pairs", "4"),
    ("belongs /people/gus /groups/crew", "false"),
    ("belongs /people/gus /groups/staff", "true"),
    ("belongs /people/ann /groups/crew", "true"),
    ("members /groups/staff", ""),
    ("pairs", "2"),
    ("belongs /people/gus /groups/staff", "false"),
    ("epoch", "4"),
    ("node /books/sales", "Book 2 of /people/ann [Sales]"),
    ("failures", "0"),
];

#[test]
fn members_are_replaced(rt: HostRuntime) {
    run_on(&rt, rt.alloc(), &[], MEMBERS);
}
