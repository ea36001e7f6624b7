//! The words of a line, and what they name.

use book_lists::{Entry, Name, Principal, Who};
use book_office::{Path, Text};
use book_rights::{LeafSet, Method, Privilege};
use std::alloc::Global;
use std::process::Abort;

/// 44 bytes.
pub(crate) const BO: &str = "BEGIN:VCARD\r\nVERSION:4.0\r\nFN:Bo\r\nEND:VCARD\r\n";

/// 47 bytes, with a folded line and no line end at its end.
pub(crate) const BELL: &str = "BEGIN:VCARD\nVERSION:4.0\nFN:An\n n Bell\nEND:VCARD";

const OTHER_VERSION: &str = "BEGIN:VCARD\r\nVERSION:3.0\r\nFN:A\r\nEND:VCARD\r\n";

const MEMBER_WITHOUT_GROUP: &str =
    "BEGIN:VCARD\r\nVERSION:4.0\r\nFN:A\r\nMEMBER:urn:uuid:1\r\nEND:VCARD\r\n";

/// The UID p.
const CARD_P: &str = "BEGIN:VCARD\r\nVERSION:4.0\r\nUID:urn:uuid:p\r\nFN:P\r\nEND:VCARD\r\n";

/// A group of p and q.
const GROUP_G: &str =
    "BEGIN:VCARD\r\nVERSION:4.0\r\nKIND:group\r\nFN:G\r\nMEMBER:urn:uuid:p\r\nMEMBER:urn:uuid:q\r\nEND:VCARD\r\n";

/// The group x, of y.
const GROUP_X: &str =
    "BEGIN:VCARD\r\nVERSION:4.0\r\nKIND:group\r\nUID:urn:uuid:x\r\nFN:X\r\nMEMBER:urn:uuid:y\r\nEND:VCARD\r\n";

/// The group y, of x.
const GROUP_Y: &str =
    "BEGIN:VCARD\r\nVERSION:4.0\r\nKIND:group\r\nUID:urn:uuid:y\r\nFN:Y\r\nMEMBER:urn:uuid:x\r\nEND:VCARD\r\n";

const TWO_UIDS: &str = "BEGIN:VCARD\r\nVERSION:4.0\r\nUID:a\r\nUID:b\r\nFN:A\r\nEND:VCARD\r\n";

/// The word at an index; empty where the line has fewer.
pub(crate) fn word(line: &str, index: usize) -> &str {
    line.split(' ').nth(index).unwrap_or("")
}

/// The text of this name, else the name.
pub(crate) fn text_named(word: &str) -> &str {
    match word {
        "BO" => BO,
        "BELL" => BELL,
        "OTHER_VERSION" => OTHER_VERSION,
        "MEMBER_WITHOUT_GROUP" => MEMBER_WITHOUT_GROUP,
        "TWO_UIDS" => TWO_UIDS,
        "CARD_P" => CARD_P,
        "GROUP_G" => GROUP_G,
        "GROUP_X" => GROUP_X,
        "GROUP_Y" => GROUP_Y,
        _ => word,
    }
}

pub(crate) fn text(rt: &impl Abort, alloc: Global, text: &str) -> Text {
    Text::copy_of(alloc, text).expect(rt, "memory")
}

pub(crate) fn number(rt: &impl Abort, word: &str) -> u64 {
    word.parse::<u64>().ok().expect(rt, "a number")
}

pub(crate) fn name(rt: &impl Abort, alloc: Global, word: &str) -> Name {
    let name = Name::parse(alloc, word).expect(rt, "memory");
    name.expect(rt, "a name")
}

pub(crate) fn path(rt: &impl Abort, alloc: Global, word: &str) -> Path {
    Path::parse(alloc, word).ok().expect(rt, "a path")
}

pub(crate) fn principal(rt: &impl Abort, alloc: Global, word: &str) -> Principal {
    let principal = Principal::parse(alloc, word).expect(rt, "memory");
    principal.expect(rt, "a principal")
}

/// The owner; none at a dash.
pub(crate) fn owner(rt: &impl Abort, alloc: Global, word: &str) -> Option<Principal> {
    match word {
        "-" => None,
        _ => Some(principal(rt, alloc, word)),
    }
}

pub(crate) fn method(word: &str) -> Option<Method> {
    match word {
        "GET" => Some(Method::Get),
        "HEAD" => Some(Method::Head),
        "OPTIONS" => Some(Method::Options),
        "PUT" => Some(Method::Put),
        "PROPFIND" => Some(Method::Propfind),
        "PROPPATCH" => Some(Method::Proppatch),
        "ACL" => Some(Method::Acl),
        "COPY" => Some(Method::Copy),
        "MOVE" => Some(Method::Move),
        "DELETE" => Some(Method::Delete),
        "MKCOL" => Some(Method::Mkcol),
        "REPORT" => Some(Method::Report),
        _ => None,
    }
}

/// The principal form of a word, but for paths.
pub(crate) fn form(word: &str) -> Option<Who> {
    match word {
        "all" => Some(Who::Everyone),
        "authenticated" => Some(Who::Authenticated),
        "unauthenticated" => Some(Who::Unauthenticated),
        "owner" => Some(Who::Owner),
        "self" => Some(Who::Own),
        _ => None,
    }
}

pub(crate) fn who(rt: &impl Abort, alloc: Global, word: &str) -> Who {
    match form(word) {
        Some(form) => form,
        None => Who::Href(principal(rt, alloc, word)),
    }
}

/// The leaves of the privileges that stand after so many words.
pub(crate) fn leaves(rt: &impl Abort, line: &str, words: usize) -> LeafSet {
    let mut set = LeafSet::empty();
    for word in line.split(' ').skip(words) {
        let privilege = Privilege::from_name(word).expect(rt, "a privilege");
        set = set.union(privilege.leaves());
    }
    set
}

/// The entry of a line `LIST PATH grant WHO NAME ..`, with `deny` for `grant` and `not WHO` for `WHO`.
pub(crate) fn entry(rt: &impl Abort, alloc: Global, line: &str) -> Entry {
    let invert = word(line, 3) == "not";
    let (at, before) = if invert { (4, 5) } else { (3, 4) };
    Entry {
        who: who(rt, alloc, word(line, at)),
        invert,
        deny: word(line, 2) == "deny",
        set: leaves(rt, line, before),
    }
}
