//! Requests that set labels, members and own lists (RFC 4918, section 9.2; RFC 3744, section 8.1).

use crate::scripts::{Step, run_on, run_on_new};

/// An own list can't take away what a protected entry grants: who denies herself all still reads. The denial of another
/// names the own entry, behind the protected one.
const OWN_LISTS: &[Step] = &[
    ("adopt office", "changed, epoch 1"),
    ("ann PUT /books/law/a.vcf BO", "201"),
    (
        "ann ACL /books/law/a.vcf list deny /people/ann all ; deny /people/bob read",
        "200",
    ),
    ("epoch", "2"),
    (
        "ann GET /books/law/a.vcf",
        "200 BEGIN:VCARD\r\nVERSION:4.0\r\nFN:Bo\r\nEND:VCARD\r\n",
    ),
    (
        "bob GET /books/law/a.vcf",
        "403 need-privileges read /books/law/a.vcf /books/law/a.vcf 3",
    ),
    ("changes law 0", "1 a.vcf [] 44 bytes\n"),
    ("ann ACL /books/law/a.vcf list", "200"),
    (
        "bob GET /books/law/a.vcf",
        "200 BEGIN:VCARD\r\nVERSION:4.0\r\nFN:Bo\r\nEND:VCARD\r\n",
    ),
    ("ann ACL /books/law/a.vcf list", "200"),
    ("epoch", "4"),
];

#[test]
fn protected_entries_outlast_own_lists(rt: HostRuntime) {
    run_on_new(&rt, rt.alloc(), OWN_LISTS);
}

/// The first entry with a fault decides, and of its faults the least; more than 64 entries come before all of them. A
/// refused list leaves the own list.
const REFUSED_LISTS: &[Step] = &[
    ("adopt office", "changed, epoch 1"),
    (
        "ann ACL /books/sales list grant all unlock",
        "403 not-supported-privilege",
    ),
    (
        "ann ACL /books/sales entries 65",
        "403 limited-number-of-aces",
    ),
    (
        "ann ACL /books/sales list deny /people/ann read",
        "403 no-protected-ace-conflict",
    ),
    (
        "ann ACL /books/sales list protected grant all read",
        "403 no-protected-ace-conflict",
    ),
    (
        "ann ACL /books/sales list inherited grant all read",
        "403 no-inherited-ace-conflict",
    ),
    (
        "ann ACL /books/sales list grant /people/zoe read",
        "403 recognized-principal",
    ),
    (
        "ann ACL /books/sales list grant anyone read",
        "403 recognized-principal",
    ),
    (
        "ann ACL /books/sales list grant /people/zoe unlock",
        "403 not-supported-privilege",
    ),
    (
        "ann ACL /books/sales list inherited grant all unlock",
        "403 no-inherited-ace-conflict",
    ),
    (
        "ann ACL /books/sales list grant /people/zoe read ; grant all unlock",
        "403 recognized-principal",
    ),
    (
        "lists /books/sales",
        "/books/sales protected grant /people/ann all\n/books/sales own grant /groups/staff read bind\n",
    ),
    ("epoch", "1"),
    ("ann PUT /books/sales/a.vcf BO", "201"),
    (
        "ann ACL /books/sales/a.vcf list deny /people/ann write",
        "403 no-protected-ace-conflict",
    ),
    ("ann ACL /books/sales", "400 bad-request"),
    ("ann ACL /books/sales BO", "400 bad-request"),
    ("ann ACL /books/none list", "404 not-found"),
    (
        "bob ACL /books/sales list",
        "403 need-privileges write-acl /books/sales null",
    ),
    (
        "ann ACL /people/ann list",
        "403 need-privileges write-acl /people/ann null",
    ),
    ("epoch", "1"),
];

#[test]
fn refused_lists_change_nothing(rt: HostRuntime) {
    run_on_new(&rt, rt.alloc(), REFUSED_LISTS);
}

/// Entries that differ from the protected one in their form, their inversion or their action are no conflict. A list has
/// up to 64 entries.
const ACCEPTED_LISTS: &[Step] = &[
    ("adopt office", "changed, epoch 1"),
    ("ann ACL /books/sales list grant /people/ann read", "200"),
    ("ann ACL /books/sales list deny not /people/ann read", "200"),
    (
        "bob OPTIONS /books/sales",
        "403 need-privileges read /books/sales /books/sales 2",
    ),
    (
        "lists /books/sales",
        "/books/sales protected grant /people/ann all\n/books/sales own deny not /people/ann read\n",
    ),
    ("ann ACL /books/sales list deny owner read", "200"),
    ("ann ACL /books/sales entries 64", "200"),
    (
        "gus OPTIONS /books/sales",
        "200 allow ACL, DELETE, OPTIONS, PROPFIND, PROPPATCH, REPORT",
    ),
    ("epoch", "5"),
];

#[test]
fn own_lists_are_replaced(rt: HostRuntime) {
    run_on_new(&rt, rt.alloc(), ACCEPTED_LISTS);
}

/// Each member counts once, and the epoch rises each time, also where the members stay the same.
const MEMBERS: &[Step] = &[
    ("adopt office", "changed, epoch 1"),
    (
        "ann PROPPATCH /groups/staff members /people/bob /people/bob",
        "200",
    ),
    ("epoch", "2"),
    ("pairs", "1"),
    ("belongs /people/ann /groups/staff", "false"),
    ("belongs /people/bob /groups/staff", "true"),
    ("ann PROPPATCH /groups/staff members /people/bob", "200"),
    ("epoch", "3"),
    (
        "ann PROPPATCH /groups/staff members /people/bob /people/zoe",
        "403 recognized-principal",
    ),
    (
        "gus PROPPATCH /groups/staff members /people/bob",
        "403 need-privileges write-properties /groups/staff null",
    ),
    (
        "ann PROPPATCH /books/sales members /people/bob",
        "405 not-allowed ACL, DELETE, OPTIONS, PROPFIND, PROPPATCH, REPORT",
    ),
    (
        "ann PROPPATCH /groups/staff persons 1000",
        "403 recognized-principal",
    ),
    (
        "ann PROPPATCH /groups/staff persons-twice 1000",
        "403 recognized-principal",
    ),
    (
        "ann PROPPATCH /groups/staff persons 1001",
        "400 bad-request",
    ),
    ("epoch", "3"),
    ("pairs", "1"),
    ("ann PROPPATCH /groups/staff members /groups/staff", "200"),
    ("belongs /people/bob /groups/staff", "false"),
    ("ann PROPPATCH /groups/staff members", "200"),
    ("pairs", "0"),
    ("epoch", "5"),
];

#[test]
fn members_are_replaced(rt: HostRuntime) {
    run_on_new(&rt, rt.alloc(), MEMBERS);
}

/// A card's label takes a number of its book, also where it stays the same; any other label takes none, and no label
/// raises the epoch. The root and the homes have no labels to set.
const LABELS: &[Step] = &[
    ("adopt office", "changed, epoch 1"),
    ("ann PROPPATCH /groups/staff label Team", "200"),
    ("node /groups/staff", "Group 0 of nobody [Team]"),
    ("ann PROPPATCH /books/sales label Shop", "200"),
    ("node /books/sales", "Book 0 of /people/ann [Shop]"),
    ("ann PUT /books/sales/b.vcf BO", "201"),
    ("ann PROPPATCH /books/sales/b.vcf label Bo", "200"),
    (
        "node /books/sales/b.vcf",
        "Card 2 of /people/ann [Bo] 44 bytes",
    ),
    ("ann PROPPATCH /books/sales/b.vcf label Bo", "200"),
    ("changes sales 0", "3 b.vcf [Bo] 44 bytes\n"),
    (
        "ann PROPPATCH /books/sales/b.vcf label-of 257",
        "400 bad-request",
    ),
    ("ann PROPPATCH /books/sales/b.vcf label-of 256", "200"),
    ("ann PROPPATCH /books/sales label-of 0", "200"),
    ("node /books/sales", "Book 4 of /people/ann []"),
    (
        "ann PROPPATCH /books label Books",
        "405 not-allowed ACL, OPTIONS, PROPFIND, REPORT",
    ),
    (
        "ann PROPPATCH / label Root",
        "405 not-allowed ACL, OPTIONS, PROPFIND, REPORT",
    ),
    ("ann PROPPATCH /books/none label None", "404 not-found"),
    (
        "bob PROPPATCH /books/sales label Mine",
        "403 need-privileges write-properties /books/sales null",
    ),
    ("ann PROPPATCH /books/sales", "400 bad-request"),
    ("ann PROPPATCH /books/sales BO", "400 bad-request"),
    ("ann PROPPATCH /books/sales list", "400 bad-request"),
    ("epoch", "1"),
];

#[test]
fn labels_are_set(rt: HostRuntime) {
    run_on_new(&rt, rt.alloc(), LABELS);
}

/// Everything is granted in books and groups, and the epoch is the last one, 2^53 - 1.
const LAST_EPOCH: &[&str] = &["own / grant all all", "epoch 9007199254740991"];

/// What raises the epoch is full there; a label is set.
const AT_LAST_EPOCH: &[Step] = &[
    ("ann ACL /books/sales list", "507 full"),
    ("ann PROPPATCH /groups/staff members", "507 full"),
    ("ann PROPPATCH /groups/staff label Team", "200"),
    ("ann PROPPATCH /books/sales/b.vcf label Bo", "200"),
    ("epoch", "9007199254740991"),
];

#[test]
fn the_last_epoch_is_kept(rt: HostRuntime) {
    run_on(&rt, rt.alloc(), LAST_EPOCH, AT_LAST_EPOCH);
}
