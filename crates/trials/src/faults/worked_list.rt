//! The worked list: policies that are adopted, and requests of each method, one after the other on an empty Office, with the
//! answers that the rules give (RFC 3744, RFC 4918, RFC 6578 and own profile), worked out by hand.

use crate::faults::requests::Says;
use book_rights::Method;

/// What is asked in a turn.
#[derive(Clone, Copy)]
pub(crate) enum Step {
    /// The policy is adopted, or the wider one.
    Adopt(bool),
    /// A request: who asks, where `-` is nobody; the method, the path, and what else it says.
    Ask(&'static str, Method, &'static str, Says),
}

/// A turn, and its answer: the status of a reply, and the name of the refusal, if it is one; of an adoption the epoch, and
/// whether it changed the Office.
pub(crate) type Line = (Step, u64, &'static str);

/// 44 bytes.
const BO: &str = "BEGIN:VCARD\r\nVERSION:4.0\r\nFN:Bo\r\nEND:VCARD\r\n";

/// 47 bytes, folded.
const BELL: &str = "BEGIN:VCARD\nVERSION:4.0\nFN:An\n n Bell\nEND:VCARD";

const OLD: &str = "BEGIN:VCARD\r\nVERSION:3.0\r\nFN:A\r\nEND:VCARD\r\n";

const LONELY: &str = "BEGIN:VCARD\r\nVERSION:4.0\r\nFN:A\r\nMEMBER:urn:uuid:1\r\nEND:VCARD\r\n";

const TWICE: &str = "BEGIN:VCARD\r\nVERSION:4.0\r\nUID:a\r\nUID:b\r\nFN:A\r\nEND:VCARD\r\n";

const PERSON: &str = "BEGIN:VCARD\r\nVERSION:4.0\r\nUID:urn:uuid:p\r\nFN:P\r\nEND:VCARD\r\n";

const GROUP: &str =
    "BEGIN:VCARD\r\nVERSION:4.0\r\nKIND:group\r\nFN:G\r\nMEMBER:urn:uuid:p\r\nMEMBER:urn:uuid:q\r\nEND:VCARD\r\n";

/// A card put, denied to its owner, and read by the entry before; what a move needs at both ends; who may read a card.
const ACCESS: &[Line] = &[
    (Step::Adopt(false), 1, "changed"),
    (
        Step::Ask("ann", Method::Put, "/books/law/a.vcf", Says::Text(BO)),
        201,
        "",
    ),
    (
        Step::Ask(
            "ann",
            Method::Acl,
            "/books/law/a.vcf",
            Says::List(&[
                (true, "/people/ann", &["all"]),
                (true, "/people/bob", &["read"]),
            ]),
        ),
        200,
        "",
    ),
    (
        Step::Ask("ann", Method::Get, "/books/law/a.vcf", Says::Nothing),
        200,
        "",
    ),
    (
        Step::Ask("bob", Method::Put, "/books/sales/b.vcf", Says::Text(BO)),
        201,
        "",
    ),
    (
        Step::Ask("bob", Method::Put, "/books/sales/b.vcf", Says::Text(BO)),
        403,
        "need-privileges",
    ),
    (
        Step::Ask(
            "bob",
            Method::Move,
            "/books/law/a.vcf",
            Says::To("/books/sales/b.vcf"),
        ),
        403,
        "need-privileges",
    ),
    (
        Step::Ask("gus", Method::Get, "/books/sales/none.vcf", Says::Nothing),
        404,
        "not-found",
    ),
    (
        Step::Ask("gus", Method::Get, "/books/sales/b.vcf", Says::Nothing),
        403,
        "need-privileges",
    ),
    (
        Step::Ask("-", Method::Propfind, "/", Says::Rights),
        403,
        "need-privileges",
    ),
    (
        Step::Ask("ann", Method::Propfind, "/books/sales", Says::Rights),
        207,
        "",
    ),
];

/// Lists and cards that are refused.
const REFUSED: &[Line] = &[
    (
        Step::Ask(
            "ann",
            Method::Acl,
            "/books/sales",
            Says::List(&[(false, "all", &["unlock"])]),
        ),
        403,
        "not-supported-privilege",
    ),
    (
        Step::Ask("ann", Method::Acl, "/books/sales", Says::Readers(65)),
        403,
        "limited-number-of-aces",
    ),
    (
        Step::Ask(
            "ann",
            Method::Acl,
            "/books/sales",
            Says::List(&[(true, "/people/ann", &["read"])]),
        ),
        403,
        "no-protected-ace-conflict",
    ),
    (
        Step::Ask("ann", Method::Put, "/books/sales/f.vcf", Says::Text(BELL)),
        201,
        "",
    ),
    (
        Step::Ask("ann", Method::Get, "/books/sales/f.vcf", Says::Nothing),
        200,
        "",
    ),
    (
        Step::Ask("ann", Method::Put, "/books/sales/x.vcf", Says::Text(OLD)),
        400,
        "bad-card",
    ),
    (
        Step::Ask("ann", Method::Put, "/books/sales/x.vcf", Says::Text(LONELY)),
        400,
        "bad-card",
    ),
    (
        Step::Ask("ann", Method::Put, "/books/sales/x.vcf", Says::Text(TWICE)),
        400,
        "bad-card",
    ),
    (
        Step::Ask("ann", Method::Put, "/books/sales/x.vcf", Says::Nothing),
        400,
        "bad-card",
    ),
];

/// A copy kept by reports, through a move of a card that its owner may not read, a change of members, and the policy adopted
/// again, which changes nothing the second time.
const SYNCED: &[Line] = &[
    (
        Step::Ask("bob", Method::Report, "/books/sales", Says::Changes),
        207,
        "",
    ),
    (
        Step::Ask(
            "ann",
            Method::Move,
            "/books/law/a.vcf",
            Says::To("/books/sales/f.vcf"),
        ),
        204,
        "",
    ),
    (
        Step::Ask(
            "bob",
            Method::Report,
            "/books/sales",
            Says::ChangesAfter(2, 2),
        ),
        207,
        "",
    ),
    (
        Step::Ask("bob", Method::Propfind, "/books/sales", Says::Children),
        207,
        "",
    ),
    (
        Step::Ask("ann", Method::Report, "/books/sales/f.vcf", Says::Deciding),
        200,
        "",
    ),
    (
        Step::Ask("ann", Method::Proppatch, "/groups/staff", Says::Members),
        200,
        "",
    ),
    (
        Step::Ask(
            "bob",
            Method::Report,
            "/books/sales",
            Says::ChangesAfter(2, 3),
        ),
        403,
        "valid-sync-token",
    ),
    (Step::Adopt(false), 4, "changed"),
    (
        Step::Ask("bob", Method::Report, "/books/sales", Says::Changes),
        207,
        "",
    ),
    (Step::Adopt(false), 4, "unchanged"),
    (
        Step::Ask(
            "bob",
            Method::Report,
            "/books/sales",
            Says::ChangesAfter(4, 3),
        ),
        207,
        "",
    ),
];

/// Requests that are refused by what is there and what they ask; group cards; and then each other method once, with a book
/// that is made and removed.
const OTHERS: &[Line] = &[
    (
        Step::Ask("gus", Method::Mkcol, "/books/new", Says::Nothing),
        403,
        "need-privileges",
    ),
    (
        Step::Ask("gus", Method::Mkcol, "/books/sales", Says::Nothing),
        405,
        "not-allowed",
    ),
    (
        Step::Ask("gus", Method::Put, "/books/none/x.vcf", Says::Text(BO)),
        409,
        "no-parent",
    ),
    (
        Step::Ask("ann", Method::Mkcol, "/books/new", Says::Text("x")),
        415,
        "body-on-mkcol",
    ),
    (
        Step::Ask(
            "ann",
            Method::Copy,
            "/books/sales/b.vcf",
            Says::Beside("/books/sales/f.vcf"),
        ),
        412,
        "overwrite",
    ),
    (
        Step::Ask("zoe", Method::Get, "/books/sales/b.vcf", Says::Nothing),
        400,
        "unknown-caller",
    ),
    (
        Step::Ask("ann", Method::Put, "/books/sales/p.vcf", Says::Text(PERSON)),
        201,
        "",
    ),
    (
        Step::Ask("ann", Method::Put, "/books/sales/g.vcf", Says::Text(GROUP)),
        201,
        "",
    ),
    (
        Step::Ask("bob", Method::Report, "/books/sales/g.vcf", Says::Cards),
        200,
        "",
    ),
    (
        Step::Ask("bob", Method::Report, "/books/sales", Says::Names),
        200,
        "",
    ),
    (
        Step::Ask(
            "ann",
            Method::Move,
            "/books/sales/b.vcf",
            Says::To("/books/sales/h.vcf"),
        ),
        201,
        "",
    ),
    (
        Step::Ask(
            "ann",
            Method::Copy,
            "/books/sales/h.vcf",
            Says::To("/books/law/c.vcf"),
        ),
        201,
        "",
    ),
    (
        Step::Ask("bob", Method::Head, "/books/sales/p.vcf", Says::Nothing),
        200,
        "",
    ),
    (
        Step::Ask("bob", Method::Options, "/books/sales", Says::Nothing),
        200,
        "",
    ),
    (
        Step::Ask("ann", Method::Proppatch, "/books/sales", Says::Label),
        200,
        "",
    ),
    (
        Step::Ask("ann", Method::Delete, "/books/sales/h.vcf", Says::Nothing),
        204,
        "",
    ),
    (Step::Adopt(true), 5, "changed"),
    (
        Step::Ask("ann", Method::Mkcol, "/books/new", Says::Nothing),
        201,
        "",
    ),
    (
        Step::Ask("ann", Method::Delete, "/books/new", Says::Nothing),
        204,
        "",
    ),
];

/// The parts of the list, one after the other.
pub(crate) const PARTS: [&[Line]; 4] = [ACCESS, REFUSED, SYNCED, OTHERS];
