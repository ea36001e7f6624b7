//! The worked examples: each method, accepted and refused, in turn. The wanted replies stand in `examples/streams` and in
//! the examples of the machine.

use crate::pairs::requests::{ANN, BOB, GUS, NOBODY, Row};
use crate::policies::NEW_BOOKS;

/// A card of 44 bytes.
const CARD: &str = "BEGIN:VCARD\r\nVERSION:4.0\r\nFN:Bo\r\nEND:VCARD\r\n";

/// Cards, an own list that goes with its card, what is refused, a report of what changed, and the members of a group.
const CARD_ROWS: &[Row<'static>] = &[
    (ANN, "PUT", "/books/law/a.vcf", "", CARD),
    (
        ANN,
        "ACL",
        "/books/law/a.vcf",
        "",
        "{\"acl\":[{\"deny\":[\"all\"],\"principal\":\"/people/ann\"},{\"deny\":[\"read\"],\"principal\":\"/people/bob\"}]}",
    ),
    (ANN, "GET", "/books/law/a.vcf", "", ""),
    (ANN, "HEAD", "/books/law/a.vcf", "", ""),
    (BOB, "PUT", "/books/sales/b.vcf", "", CARD),
    (BOB, "PUT", "/books/sales/b.vcf", "", CARD),
    (
        BOB,
        "MOVE",
        "/books/law/a.vcf",
        "Destination: /books/sales/b.vcf\r\n",
        "",
    ),
    (GUS, "GET", "/books/sales/none.vcf", "", ""),
    (GUS, "GET", "/books/sales/b.vcf", "", ""),
    (
        ANN,
        "ACL",
        "/books/sales",
        "",
        "{\"acl\":[{\"grant\":[\"unlock\"],\"principal\":\"all\"}]}",
    ),
    (
        ANN,
        "ACL",
        "/books/sales",
        "",
        "{\"acl\":[{\"deny\":[\"read\"],\"principal\":\"/people/ann\"}]}",
    ),
    (
        ANN,
        "PUT",
        "/books/sales/f.vcf",
        "",
        "BEGIN:VCARD\nVERSION:4.0\nFN:An\n n Bell\nEND:VCARD",
    ),
    (ANN, "GET", "/books/sales/f.vcf", "", ""),
    (
        ANN,
        "PUT",
        "/books/sales/x.vcf",
        "",
        "BEGIN:VCARD\r\nVERSION:3.0\r\nFN:A\r\nEND:VCARD\r\n",
    ),
    (
        ANN,
        "PUT",
        "/books/sales/x.vcf",
        "",
        "BEGIN:VCARD\r\nVERSION:4.0\r\nFN:A\r\nMEMBER:urn:uuid:1\r\nEND:VCARD\r\n",
    ),
    (
        ANN,
        "PUT",
        "/books/sales/x.vcf",
        "",
        "BEGIN:VCARD\r\nVERSION:4.0\r\nUID:a\r\nUID:b\r\nFN:A\r\nEND:VCARD\r\n",
    ),
    (ANN, "PUT", "/books/sales/x.vcf", "", ""),
    (
        BOB,
        "REPORT",
        "/books/sales",
        "",
        "{\"report\":\"sync-collection\",\"sync-token\":\"\"}",
    ),
    (
        ANN,
        "MOVE",
        "/books/law/a.vcf",
        "Destination: /books/sales/f.vcf\r\n",
        "",
    ),
    (
        BOB,
        "REPORT",
        "/books/sales",
        "",
        "{\"report\":\"sync-collection\",\"sync-token\":\"data:,sales/2/2\"}",
    ),
    (
        BOB,
        "PROPFIND",
        "/books/sales",
        "Depth: 1\r\n",
        "{\"prop\":[\"displayname\",\"resourcetype\"]}",
    ),
    (
        ANN,
        "REPORT",
        "/books/sales/f.vcf",
        "",
        "{\"principal\":\"/people/bob\",\"report\":\"effective\"}",
    ),
    (
        ANN,
        "PROPPATCH",
        "/groups/staff",
        "",
        "{\"set\":{\"group-member-set\":[\"/people/bob\"]}}",
    ),
    (
        BOB,
        "REPORT",
        "/books/sales",
        "",
        "{\"report\":\"sync-collection\",\"sync-token\":\"data:,sales/2/3\"}",
    ),
    (
        BOB,
        "REPORT",
        "/books/sales",
        "",
        "{\"report\":\"sync-collection\",\"sync-token\":\"data:,sales/3/9\"}",
    ),
];

/// After the policy was adopted again: tokens from then on, cards that come, go and come again, and a group card.
const REPORT_ROWS: &[Row<'static>] = &[
    (
        BOB,
        "REPORT",
        "/books/sales",
        "",
        "{\"report\":\"sync-collection\",\"sync-token\":\"\"}",
    ),
    (
        BOB,
        "REPORT",
        "/books/sales",
        "",
        "{\"report\":\"sync-collection\",\"sync-token\":\"data:,sales/4/3\"}",
    ),
    (GUS, "MKCOL", "/books/new", "", ""),
    (GUS, "MKCOL", "/books/sales", "", ""),
    (GUS, "PUT", "/books/none/x.vcf", "", CARD),
    (ANN, "MKCOL", "/books/new", "", "x"),
    (
        ANN,
        "COPY",
        "/books/sales/b.vcf",
        "Destination: /books/sales/f.vcf\r\nOverwrite: F\r\n",
        "",
    ),
    (
        "x-office-caller: zoe\r\n",
        "OPTIONS",
        "/books/sales",
        "",
        "",
    ),
    (BOB, "OPTIONS", "/books/sales", "", ""),
    (
        ANN,
        "PUT",
        "/books/sales/p.vcf",
        "",
        "BEGIN:VCARD\r\nVERSION:4.0\r\nUID:urn:uuid:p\r\nFN:P\r\nEND:VCARD\r\n",
    ),
    (
        ANN,
        "PUT",
        "/books/sales/g.vcf",
        "",
        "BEGIN:VCARD\r\nVERSION:4.0\r\nKIND:group\r\nFN:G\r\nMEMBER:urn:uuid:p\r\nMEMBER:urn:uuid:q\r\nEND:VCARD\r\n",
    ),
    (
        BOB,
        "REPORT",
        "/books/sales/g.vcf",
        "",
        "{\"report\":\"group-members\"}",
    ),
    (
        ANN,
        "MOVE",
        "/books/sales/b.vcf",
        "Destination: /books/sales/h.vcf\r\n",
        "",
    ),
    (
        BOB,
        "REPORT",
        "/books/sales",
        "",
        "{\"report\":\"sync-collection\",\"sync-token\":\"data:,sales/4/3\"}",
    ),
    (ANN, "DELETE", "/books/sales/h.vcf", "", ""),
    (BOB, "PUT", "/books/sales/h.vcf", "", CARD),
    (
        BOB,
        "REPORT",
        "/books/sales",
        "",
        "{\"report\":\"sync-collection\",\"sync-token\":\"data:,sales/4/7\"}",
    ),
    (
        ANN,
        "COPY",
        "/books/sales/h.vcf",
        "Destination: /books/sales/f.vcf\r\n",
        "",
    ),
    (
        BOB,
        "REPORT",
        "/books/sales",
        "",
        "{\"report\":\"sync-collection\",\"sync-token\":\"data:,sales/4/9\"}",
    ),
    (
        ANN,
        "ACL",
        "/books/sales/p.vcf",
        "",
        "{\"acl\":[{\"deny\":[\"read\"],\"principal\":\"/people/bob\"}]}",
    ),
    (
        BOB,
        "REPORT",
        "/books/sales/g.vcf",
        "",
        "{\"report\":\"group-members\"}",
    ),
    (
        ANN,
        "REPORT",
        "/books/sales/g.vcf",
        "",
        "{\"report\":\"group-members\"}",
    ),
    (BOB, "REPORT", "/books/sales", "", "{\"report\":\"names\"}"),
    (
        ANN,
        "ACL",
        "/books/sales",
        "",
        "{\"acl\":[{\"grant\":[\"x-read-names\"],\"principal\":\"/groups/staff\"}]}",
    ),
    (BOB, "REPORT", "/books/sales", "", "{\"report\":\"names\"}"),
    (BOB, "GET", "/books/sales/g.vcf", "", ""),
    (
        NOBODY,
        "REPORT",
        "/books/sales",
        "",
        "{\"report\":\"names\"}",
    ),
];

/// No entry grants the removal of a book.
const REFUSED_ROWS: &[Row<'static>] = &[(ANN, "DELETE", "/books/sales", "", "")];

/// With the entry: a book that comes, goes and comes again, with no card and the number 0.
const BOOK_ROWS: &[Row<'static>] = &[
    (ANN, "MKCOL", "/books/new", "", ""),
    (ANN, "PUT", "/books/new/a.vcf", "", CARD),
    (ANN, "GET", "/books/new/a.vcf", "", ""),
    (ANN, "DELETE", "/books/new", "", ""),
    (ANN, "GET", "/books/new/a.vcf", "", ""),
    (ANN, "MKCOL", "/books/new", "", ""),
    (ANN, "MKCOL", "/books/new", "", ""),
];

/// Lists that are told, and members that are set.
const MEMBER_ROWS: &[Row<'static>] = &[
    (
        BOB,
        "PROPFIND",
        "/books/sales",
        "",
        "{\"prop\":[\"acl\",\"current-user-privilege-set\"]}",
    ),
    (
        ANN,
        "PROPFIND",
        "/books/sales",
        "",
        "{\"prop\":[\"acl\",\"current-user-privilege-set\"]}",
    ),
    (
        ANN,
        "PROPPATCH",
        "/groups/staff",
        "",
        "{\"set\":{\"group-member-set\":[\"/people/bob\",\"/people/bob\"]}}",
    ),
    (
        ANN,
        "PROPPATCH",
        "/groups/staff",
        "",
        "{\"set\":{\"group-member-set\":[\"/people/bob\",\"/people/bob\"]}}",
    ),
    (
        ANN,
        "PROPPATCH",
        "/groups/staff",
        "",
        "{\"set\":{\"group-member-set\":[\"/people/zoe\"]}}",
    ),
    (
        GUS,
        "PROPPATCH",
        "/groups/staff",
        "",
        "{\"set\":{\"group-member-set\":[\"/people/bob\",\"/people/bob\"]}}",
    ),
    (
        ANN,
        "PROPPATCH",
        "/books/sales",
        "",
        "{\"set\":{\"group-member-set\":[\"/people/bob\",\"/people/bob\"]}}",
    ),
    (
        ANN,
        "PROPPATCH",
        "/books/sales",
        "",
        "{\"set\":{\"displayname\":\"Sales and service\"}}",
    ),
    (
        NOBODY,
        "PROPFIND",
        "/",
        "",
        "{\"prop\":[\"acl\",\"current-user-privilege-set\"]}",
    ),
];

/// An own list of a card: it holds in a book whose cards were told before it came, goes with the card to another, and
/// ends; a card without one is moved as well.
const OWN_ROWS: &[Row<'static>] = &[
    (ANN, "PUT", "/books/law/o.vcf", "", CARD),
    (
        ANN,
        "PROPFIND",
        "/books/law",
        "Depth: 1\r\n",
        "{\"prop\":[\"acl\"]}",
    ),
    (BOB, "GET", "/books/law/o.vcf", "", ""),
    (
        ANN,
        "ACL",
        "/books/law/o.vcf",
        "",
        "{\"acl\":[{\"deny\":[\"read\"],\"principal\":\"/people/bob\"}]}",
    ),
    (BOB, "GET", "/books/law/o.vcf", "", ""),
    (
        ANN,
        "PROPFIND",
        "/books/sales",
        "Depth: 1\r\n",
        "{\"prop\":[\"acl\"]}",
    ),
    (
        ANN,
        "MOVE",
        "/books/law/o.vcf",
        "Destination: /books/sales/o.vcf\r\n",
        "",
    ),
    (BOB, "GET", "/books/sales/o.vcf", "", ""),
    (ANN, "PUT", "/books/law/n.vcf", "", CARD),
    (BOB, "GET", "/books/law/n.vcf", "", ""),
    (
        ANN,
        "MOVE",
        "/books/law/n.vcf",
        "Destination: /books/sales/n.vcf\r\n",
        "",
    ),
    (BOB, "GET", "/books/sales/n.vcf", "", ""),
    (ANN, "ACL", "/books/sales/o.vcf", "", "{\"acl\":[]}"),
    (BOB, "GET", "/books/sales/o.vcf", "", ""),
];

/// What is done in turn: a policy with this end is adopted, and then these requests are served.
pub(crate) type Part<'a> = (&'a str, &'a [Row<'a>]);

/// Cards, lists and reports; then the policy once more.
pub(crate) const CARDS: &[Part<'static>] = &[("", CARD_ROWS), ("", REPORT_ROWS), ("", &[])];

/// A book that is made and removed.
pub(crate) const BOOKS: &[Part<'static>] = &[("", REFUSED_ROWS), (NEW_BOOKS, BOOK_ROWS)];

/// Lists that are told, and members that are set; then own lists of cards.
pub(crate) const MEMBERS: &[Part<'static>] = &[("", MEMBER_ROWS), ("", OWN_ROWS)];
