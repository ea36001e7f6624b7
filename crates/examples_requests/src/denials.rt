//! Who may read what, and which entry a denial names.

use crate::scripts::{Step, run_on};

/// A GET or an OPTIONS that is granted, and its reply.
const BELL_READ: &str = "200 BEGIN:VCARD\nVERSION:4.0\nFN:An\n n Bell\nEND:VCARD";

const BO_READ: &str = "200 BEGIN:VCARD\r\nVERSION:4.0\r\nFN:Bo\r\nEND:VCARD\r\n";

const PRINCIPAL_READ: &str = "200 allow ACL, OPTIONS, PROPFIND, PROPPATCH, REPORT";

const BOOK_READ: &str = "200 allow ACL, DELETE, OPTIONS, PROPFIND, PROPPATCH, REPORT";

/// At each level entries of both lists.
const LEVELS: &[&str] = &[
    "protected / grant /people/ann read",
    "protected /books deny /people/gus all",
    "protected /books/sales grant /people/ann all",
    "own / grant all read bind",
    "own /books deny /people/bob read",
    "own /books/sales grant /groups/staff bind",
    "own /books/sales/b.vcf deny not /groups/staff read",
    "own /books/sales/b.vcf deny /people/bob write-content",
];

/// First the protected lists, from the resource up to the root, and then the own lists likewise: the entries of each
/// list in their order, with numbers from 1 over all of them. Each denial names where its entry stands.
const LEVEL_STEPS: &[Step] = &[
    (
        "effective /books/sales/b.vcf",
        "/books/sales protected grant /people/ann all\n\
         /books protected deny /people/gus all\n\
         / protected grant /people/ann read\n\
         /books/sales/b.vcf own deny not /groups/staff read\n\
         /books/sales/b.vcf own deny /people/bob write-content\n\
         /books/sales own grant /groups/staff bind\n\
         /books own deny /people/bob read\n\
         / own grant all read bind\n",
    ),
    (
        "lists /books/sales/b.vcf",
        "/books/sales/b.vcf own deny not /groups/staff read\n\
         /books/sales/b.vcf own deny /people/bob write-content\n\
         /books/sales protected grant /people/ann all\n\
         /books/sales own grant /groups/staff bind\n\
         /books protected deny /people/gus all\n\
         /books own deny /people/bob read\n\
         / protected grant /people/ann read\n\
         / own grant all read bind\n",
    ),
    ("ann GET /books/sales/b.vcf", BELL_READ),
    (
        "gus GET /books/sales/b.vcf",
        "403 need-privileges read /books/sales/b.vcf /books 2",
    ),
    (
        "- GET /books/sales/b.vcf",
        "403 need-privileges read /books/sales/b.vcf /books/sales/b.vcf 4",
    ),
    (
        "bob PUT /books/sales/b.vcf BO",
        "403 need-privileges write-content /books/sales/b.vcf /books/sales/b.vcf 5",
    ),
    (
        "bob GET /books/sales/b.vcf",
        "403 need-privileges read /books/sales/b.vcf /books 7",
    ),
    (
        "bob GET /books/sales/a.vcf",
        "403 need-privileges read /books/sales/a.vcf /books 5",
    ),
    ("- GET /books/sales/a.vcf", BO_READ),
    (
        "bob DELETE /books/sales/a.vcf",
        "403 need-privileges unbind /books/sales null",
    ),
    ("bob PUT /books/sales/c.vcf BO", "201"),
    ("- PUT /books/law/c.vcf BO", "201"),
    (
        "gus PUT /books/law/d.vcf BO",
        "403 need-privileges bind /books/law /books 1",
    ),
];

#[test]
fn denials_name_the_entry_where_it_stands(rt: HostRuntime) {
    run_on(&rt, rt.alloc(), LEVELS, LEVEL_STEPS);
}

/// A protected entry further up comes before an own entry at the resource; of two protected ones that nearer to it is
/// first.
const PROTECTED: &[&str] = &[
    "protected / deny all read write-content",
    "protected /books/sales grant /people/bob read",
    "own /books/sales/b.vcf grant /people/bob all",
];

const PROTECTED_STEPS: &[Step] = &[
    ("bob GET /books/sales/b.vcf", BELL_READ),
    (
        "bob PUT /books/sales/b.vcf BO",
        "403 need-privileges write-content /books/sales/b.vcf / 2",
    ),
    (
        "gus GET /books/sales/b.vcf",
        "403 need-privileges read /books/sales/b.vcf / 2",
    ),
];

#[test]
fn protected_entries_come_first(rt: HostRuntime) {
    run_on(&rt, rt.alloc(), PROTECTED, PROTECTED_STEPS);
}

/// An inherited `owner` is the owner of the resource that is asked, and not of the one at which the entry stands. Where
/// there is no owner, `owner` applies to nobody, and `not owner` to each caller.
const OWNERS: &[&str] = &[
    "own /books grant owner read",
    "own /books deny not owner write-content",
    "own /books grant all write-content",
    "own / deny not owner read",
];

const OWNER_STEPS: &[Step] = &[
    ("bob GET /books/sales/b.vcf", BELL_READ),
    (
        "bob GET /books/sales/a.vcf",
        "403 need-privileges read /books/sales/a.vcf / 4",
    ),
    ("ann GET /books/sales/a.vcf", BO_READ),
    (
        "ann GET /books/sales/b.vcf",
        "403 need-privileges read /books/sales/b.vcf / 4",
    ),
    ("ann OPTIONS /books/sales", BOOK_READ),
    (
        "ann OPTIONS /books/law",
        "403 need-privileges read /books/law / 4",
    ),
    ("- OPTIONS /books", "403 need-privileges read /books / 4"),
    ("- OPTIONS /", "403 need-privileges read / / 1"),
    (
        "ann PUT /books/sales/b.vcf BO",
        "403 need-privileges write-content /books/sales/b.vcf /books 2",
    ),
    ("bob PUT /books/sales/b.vcf BO", "204"),
];

#[test]
fn owners_are_those_of_the_resource(rt: HostRuntime) {
    run_on(&rt, rt.alloc(), OWNERS, OWNER_STEPS);
}

/// `self` applies at a principal to which the caller belongs, and nowhere else.
const SELVES: &[&str] = &[
    "own / deny not self read",
    "own /people grant self read",
    "own /groups/crew grant self read",
    "own /books grant not self read",
    "own /books/sales deny self read",
];

const SELF_STEPS: &[Step] = &[
    ("bob OPTIONS /people/bob", PRINCIPAL_READ),
    (
        "bob OPTIONS /people/ann",
        "403 need-privileges read /people/ann / 2",
    ),
    ("bob OPTIONS /groups/crew", PRINCIPAL_READ),
    (
        "gus OPTIONS /groups/crew",
        "403 need-privileges read /groups/crew / 2",
    ),
    (
        "bob OPTIONS /groups/staff",
        "403 need-privileges read /groups/staff null",
    ),
    ("ann OPTIONS /books/sales", BOOK_READ),
    (
        "ann OPTIONS /people",
        "403 need-privileges read /people / 2",
    ),
];

#[test]
fn selves_are_principals(rt: HostRuntime) {
    run_on(&rt, rt.alloc(), SELVES, SELF_STEPS);
}

/// Staff is within crew, and ann and bob are within staff. Known persons and nobody are apart.
const GROUPS: &[&str] = &[
    "own /books/sales grant /groups/crew read",
    "own /books/law grant authenticated read",
    "own /books/law deny unauthenticated read",
    "own /books grant unauthenticated bind",
];

const GROUP_STEPS: &[Step] = &[
    ("bob GET /books/sales/a.vcf", BO_READ),
    (
        "gus GET /books/sales/a.vcf",
        "403 need-privileges read /books/sales/a.vcf null",
    ),
    ("gus OPTIONS /books/law", BOOK_READ),
    (
        "- OPTIONS /books/law",
        "403 need-privileges read /books/law /books/law 2",
    ),
    ("- MKCOL /books/new", "201"),
    (
        "gus MKCOL /books/other",
        "403 need-privileges bind /books null",
    ),
];

#[test]
fn groups_let_their_members_in(rt: HostRuntime) {
    run_on(&rt, rt.alloc(), GROUPS, GROUP_STEPS);
}

/// DELETE of a book needs `unbind` at the home of the books, and then at the book.
const UNBINDING: &[&str] = &[
    "own /books grant /groups/staff unbind",
    "own /books/sales grant /groups/staff read",
    "own /books/sales deny /people/bob unbind",
];

const UNBINDING_STEPS: &[Step] = &[
    (
        "gus DELETE /books/sales",
        "403 need-privileges unbind /books null",
    ),
    (
        "bob DELETE /books/sales",
        "403 need-privileges unbind /books/sales /books/sales 2",
    ),
    (
        "bob DELETE /books/sales/b.vcf",
        "403 need-privileges unbind /books/sales /books/sales 2",
    ),
    ("bob DELETE /books/law", "204"),
    ("ann DELETE /books/sales/b.vcf", "204"),
    ("ann DELETE /books/sales", "204"),
    ("epoch", "2"),
];

#[test]
fn a_book_is_unbound_at_both_ends(rt: HostRuntime) {
    run_on(&rt, rt.alloc(), UNBINDING, UNBINDING_STEPS);
}

/// What bob may not read, he cannot tell from other contents.
const UNREADABLE: &[&str] = &["own /books/sales grant /groups/staff bind unbind write-content"];

/// The same Office, but for the label and the text of a card.
const UNREADABLE_OTHERWISE: &[&str] = &[
    "own /books/sales grant /groups/staff bind unbind write-content",
    "b.vcf Other no-card-at-all",
];

const UNSEEN_STEPS: &[Step] = &[
    (
        "bob GET /books/sales/b.vcf",
        "403 need-privileges read /books/sales/b.vcf null",
    ),
    (
        "bob HEAD /books/sales/b.vcf",
        "403 need-privileges read /books/sales/b.vcf null",
    ),
    (
        "bob OPTIONS /books/sales/b.vcf",
        "403 need-privileges read /books/sales/b.vcf null",
    ),
    (
        "bob PUT /books/sales/b.vcf TWO_UIDS",
        "400 bad-card twice 4",
    ),
    ("bob PUT /books/sales/c.vcf BO", "201"),
    ("bob PUT /books/sales/b.vcf BO", "204"),
    ("bob DELETE /books/sales/b.vcf", "204"),
    ("bob GET /books/sales/b.vcf", "404 not-found"),
];

#[test]
fn unreadable_contents_stay_unseen(rt: HostRuntime) {
    for lines in [UNREADABLE, UNREADABLE_OTHERWISE] {
        run_on(&rt, rt.alloc(), lines, UNSEEN_STEPS);
    }
}
