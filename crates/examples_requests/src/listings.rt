//! What PROPFIND tells of a resource and of its children (RFC 4918, section 9.1; RFC 3744, section 5).

use crate::scripts::{Step, run_on, run_on_new};

/// Each child is decided by itself; of one that is denied the denial alone is told, with its entry.
const CHILDREN: &[Step] = &[
    ("adopt office", "changed, epoch 1"),
    ("bob PUT /books/sales/b.vcf BO", "201"),
    ("ann PUT /books/sales/f.vcf BELL", "201"),
    (
        "ann ACL /books/sales/f.vcf list grant /people/gus read ; deny /people/bob read",
        "200",
    ),
    (
        "bob PROPFIND /books/sales find-children displayname resourcetype",
        "207\n\
         200 /books/sales | displayname [Sales] | resourcetype Book\n\
         200 /books/sales/b.vcf | displayname [] | resourcetype Card\n\
         403 read /books/sales/f.vcf /books/sales/f.vcf 3",
    ),
    (
        "ann PROPFIND /books/sales find-children owner",
        "207\n\
         200 /books/sales | owner /people/ann\n\
         200 /books/sales/b.vcf | owner /people/bob\n\
         200 /books/sales/f.vcf | owner /people/ann",
    ),
    (
        "ann PROPFIND /books/sales/f.vcf find acl",
        "207\n\
         200 /books/sales/f.vcf | acl protected grant /people/ann all from /books/sales; \
         grant /people/gus read; deny /people/bob read; grant /groups/staff read bind from /books/sales;",
    ),
    (
        "gus PROPFIND /books/sales/f.vcf find displayname",
        "207\n200 /books/sales/f.vcf | displayname []",
    ),
    (
        "gus PROPFIND /books/sales find-children displayname",
        "403 need-privileges read /books/sales null",
    ),
    ("epoch", "2"),
];

#[test]
fn children_are_decided_by_themselves(rt: HostRuntime) {
    run_on_new(&rt, rt.alloc(), CHILDREN);
}

/// The effective list and the caller's privileges are told to whom they are granted, beside `read`.
const LISTS: &[Step] = &[
    ("adopt office", "changed, epoch 1"),
    (
        "bob PROPFIND /books/sales find acl current-user-privilege-set",
        "403 need-privileges read-acl /books/sales null",
    ),
    (
        "bob PROPFIND /books/sales find current-user-privilege-set",
        "403 need-privileges read-current-user-privilege-set /books/sales null",
    ),
    (
        "ann PROPFIND /books/sales find acl current-user-privilege-set",
        "207\n\
         200 /books/sales | acl protected grant /people/ann all; grant /groups/staff read bind; \
         | privileges all read write x-read-texts write-content write-properties bind unbind read-acl write-acl \
         read-current-user-privilege-set x-read-names",
    ),
    (
        "ann PROPFIND /books/sales find sync-token group-member-set",
        "207\n200 /books/sales | sync-token data:,sales/1/0 | members null",
    ),
    (
        "ann PROPFIND /groups/staff find group-member-set sync-token",
        "207\n200 /groups/staff | members /people/ann /people/bob | sync-token null",
    ),
];

#[test]
fn lists_and_privileges_are_told_where_granted(rt: HostRuntime) {
    run_on_new(&rt, rt.alloc(), LISTS);
}

/// A child may deny what its parent grants. Owners are those of the child, and `self` is the child.
const APART: &[&str] = &[
    "own /books grant owner read",
    "own /books/sales grant /people/bob read read-acl",
    "own /books/sales/a.vcf deny /people/bob read-acl",
    "own /people grant all read",
    "own /people/bob deny not self read",
];

const APART_STEPS: &[Step] = &[
    (
        "ann PROPFIND /books/sales find-children displayname",
        "207\n\
         200 /books/sales | displayname [Sales]\n\
         200 /books/sales/a.vcf | displayname [A]\n\
         403 read /books/sales/b.vcf null",
    ),
    (
        "bob PROPFIND /books/sales find-children acl",
        "207\n\
         200 /books/sales | acl grant /people/bob read read-acl; grant owner read from /books;\n\
         403 read-acl /books/sales/a.vcf /books/sales/a.vcf 1\n\
         200 /books/sales/b.vcf | acl grant /people/bob read read-acl from /books/sales; \
         grant owner read from /books;",
    ),
    (
        "bob PROPFIND /books/sales find-children displayname",
        "207\n\
         200 /books/sales | displayname [Sales]\n\
         200 /books/sales/a.vcf | displayname [A]\n\
         200 /books/sales/b.vcf | displayname [B]",
    ),
    (
        "ann PROPFIND /people find-children displayname",
        "207\n\
         200 /people | displayname []\n\
         200 /people/ann | displayname []\n\
         403 read /people/bob /people/bob 1\n\
         200 /people/gus | displayname []",
    ),
    (
        "bob PROPFIND /people find-children displayname",
        "207\n\
         200 /people | displayname []\n\
         200 /people/ann | displayname []\n\
         200 /people/bob | displayname []\n\
         200 /people/gus | displayname []",
    ),
];

#[test]
fn needs_and_owners_are_those_of_the_child(rt: HostRuntime) {
    run_on(&rt, rt.alloc(), APART, APART_STEPS);
}

const TOLD_TO_ALL: &[&str] = &["own / grant all read read-acl read-current-user-privilege-set"];

/// 1 to 7 different properties, in the order in which they are asked; an empty body asks three. The depth is 0 or 1.
const SHAPES: &[Step] = &[
    (
        "gus PROPFIND /books/law",
        "207\n200 /books/law | displayname [] | resourcetype Book | owner null",
    ),
    (
        "- PROPFIND /books children",
        "207\n\
         200 /books | displayname [] | resourcetype Home | owner null\n\
         200 /books/law | displayname [] | resourcetype Book | owner null\n\
         200 /books/sales | displayname [Sales] | resourcetype Book | owner /people/ann",
    ),
    (
        "gus PROPFIND / find-children resourcetype",
        "207\n\
         200 / | resourcetype Root\n\
         200 /books | resourcetype Home\n\
         200 /groups | resourcetype Home\n\
         200 /people | resourcetype Home",
    ),
    (
        "gus PROPFIND /groups/crew find-children group-member-set",
        "207\n200 /groups/crew | members /groups/staff",
    ),
    (
        "gus PROPFIND /books/sales find sync-token displayname",
        "207\n200 /books/sales | sync-token data:,sales/0/2 | displayname [Sales]",
    ),
    (
        "gus PROPFIND /books/sales/a.vcf find-children sync-token resourcetype",
        "207\n200 /books/sales/a.vcf | sync-token null | resourcetype Card",
    ),
    (
        "gus PROPFIND /groups find displayname resourcetype owner acl current-user-privilege-set \
         group-member-set sync-token",
        "207\n\
         200 /groups | displayname [] | resourcetype Home | owner null \
         | acl grant all read read-acl read-current-user-privilege-set from /; \
         | privileges read x-read-texts read-acl read-current-user-privilege-set x-read-names \
         | members null | sync-token null",
    ),
    (
        "gus PROPFIND /groups find displayname resourcetype owner acl current-user-privilege-set \
         group-member-set sync-token owner",
        "400 bad-request",
    ),
    ("gus PROPFIND /groups find owner owner", "400 bad-request"),
    (
        "gus PROPFIND /groups find owner acl owner",
        "400 bad-request",
    ),
    ("gus PROPFIND /groups find", "400 bad-request"),
    ("gus PROPFIND /groups find-all owner", "400 bad-request"),
    ("gus PROPFIND /groups unread", "400 bad-request"),
    ("gus PROPFIND /groups BO", "400 bad-request"),
    ("gus PROPFIND /groups list", "400 bad-request"),
    ("gus PROPFIND /cellar find-all owner", "400 bad-request"),
    ("gus PROPFIND /books/none find owner", "404 not-found"),
    ("epoch", "0"),
];

#[test]
fn listings_have_their_shape(rt: HostRuntime) {
    run_on(&rt, rt.alloc(), TOLD_TO_ALL, SHAPES);
}
