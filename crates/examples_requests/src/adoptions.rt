//! Policies that an Office adopts, one after the other.

use crate::scripts::{Step, run_on, run_on_new};
use book_office::adopting_twice_is_adopting_once;

/// The second time nothing changes, and a wider policy changes something.
const ONCE: &[Step] = &[
    ("adopt office", "changed, epoch 1"),
    ("adopt office", "unchanged, epoch 1"),
    (
        "children /books",
        "law: Book 0 of /people/ann []\n\
         law protected grant owner all\n\
         law own grant /people/bob read unbind\n\
         sales: Book 0 of /people/ann [Sales]\n\
         sales protected grant /people/ann all\n\
         sales own grant /groups/staff read bind\n",
    ),
    (
        "children /people",
        "ann: Person 0 of nobody []\nbob: Person 0 of nobody []\ngus: Person 0 of nobody []\n",
    ),
    ("children /groups", "staff: Group 0 of nobody []\n"),
    ("pairs", "2"),
    ("adopt wider", "changed, epoch 2"),
    ("lists /books", "/books own grant /people/ann bind unbind\n"),
    ("adopt wider", "unchanged, epoch 2"),
    ("epoch", "2"),
];

#[test]
fn a_policy_is_adopted_once(rt: HostRuntime) {
    run_on_new(&rt, rt.alloc(), ONCE);
}

/// Another policy over books with cards. Labels and owners become the policy's; what it doesn't name stays, as do the
/// cards with their numbers, and the members of groups that it doesn't name. Protected lists become the policy's
/// everywhere, own lists where it has entries of them, in its order.
const OTHERS: &[Step] = &[
    ("adopt other", "changed, epoch 8"),
    (
        "children /books/sales",
        "a.vcf: Card 1 of /people/ann [A]\n\
         b.vcf: Card 2 of /people/bob [B]\n\
         b.vcf own deny /people/gus read\n",
    ),
    (
        "node /books/sales/a.vcf",
        "Card 1 of /people/ann [A] 44 bytes",
    ),
    ("changes sales 1", "2 b.vcf [B] 47 bytes\n"),
    (
        "children /books",
        "law: Book 0 of nobody []\n\
         law own grant /people/bob read\n\
         parts: Book 0 of nobody [Parts]\n\
         sales: Book 2 of /groups/staff [Sold]\n\
         sales own deny not /groups/crew read write\n\
         sales own grant /people/gus all\n",
    ),
    (
        "children /people",
        "ann: Person 0 of nobody [Ann]\n\
         bob: Person 0 of nobody []\n\
         bob own grant self read\n\
         gus: Person 0 of nobody [Gus]\n\
         zoe: Person 0 of nobody []\n",
    ),
    (
        "children /groups",
        "crew: Group 0 of nobody []\nstaff: Group 0 of nobody [Staff]\n",
    ),
    (
        "lists /people",
        "/people protected grant self read\n/ protected grant authenticated read-acl\n",
    ),
    ("belongs /people/gus /groups/crew", "true"),
    ("belongs /people/bob /groups/staff", "false"),
    ("pairs", "2"),
    (
        "gus GET /books/sales/a.vcf",
        "200 BEGIN:VCARD\r\nVERSION:4.0\r\nFN:Bo\r\nEND:VCARD\r\n",
    ),
    ("lists /books", "/ protected grant authenticated read-acl\n"),
    ("adopt other", "unchanged, epoch 8"),
    ("adopt bare", "changed, epoch 9"),
    ("node /books/sales", "Book 2 of nobody []"),
    ("node /books/parts", "Book 0 of nobody [Parts]"),
    ("node /people/gus", "Person 0 of nobody [Gus]"),
    ("node /people/ann", "Person 0 of nobody []"),
    ("lists /people", ""),
    (
        "lists /books/sales",
        "/books/sales own deny not /groups/crew read write\n\
         /books/sales own grant /people/gus all\n",
    ),
    ("belongs /people/gus /groups/staff", "false"),
    ("belongs - /groups/staff", "false"),
    ("pairs", "1"),
    (
        "gus GET /books/sales/a.vcf",
        "403 need-privileges read /books/sales/a.vcf /books/sales 1",
    ),
    (
        "node /books/sales/b.vcf",
        "Card 2 of /people/bob [B] 47 bytes",
    ),
];

/// What the policies take away, and what they leave.
const BEFORE: &[&str] = &[
    "epoch 7",
    "protected /books/law grant all read",
    "protected /books grant all read",
    "own /books/law grant /people/bob read",
    "own /books/sales grant all bind",
    "own /books/sales/b.vcf deny /people/gus read",
    "own /people/bob grant self read",
];

#[test]
fn cards_stay_when_policies_change(rt: HostRuntime) {
    run_on(&rt, rt.alloc(), BEFORE, OTHERS);
}

#[test]
fn laws_are_called() {
    adopting_twice_is_adopting_once();
}
