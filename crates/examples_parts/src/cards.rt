//! Texts that are cards, and texts that are none (RFC 6350).

use crate::checks::{check_fact, check_text};
use book_cards::{
    Card, Line, faultless_texts_are_the_cards, fields_are_of_the_grammar, lines_make_up_the_text,
    read_card, unescape, unfold, unfolded_is_what_unfolds,
};
use std::alloc::Global;
use std::process::Abort;

/// 44 bytes.
const BO: &str = "BEGIN:VCARD\r\nVERSION:4.0\r\nFN:Bo\r\nEND:VCARD\r\n";

/// 47 bytes, with a folded line and no line end at its end.
const FOLDED: &str = "BEGIN:VCARD\nVERSION:4.0\nFN:An\n n Bell\nEND:VCARD";

const GROUP: &str =
    "BEGIN:VCARD\r\nVERSION:4.0\r\nKIND:group\r\nFN:G\r\nMEMBER:urn:uuid:p\r\nMEMBER:urn:uuid:q\r\nEND:VCARD\r\n";

/// A text, and the text without its folds.
const UNFOLDED: &[(&str, &str)] = &[
    (FOLDED, "BEGIN:VCARD\nVERSION:4.0\nFN:Ann Bell\nEND:VCARD"),
    ("a\r\n\tb\n \n  c", "ab c"),
    ("a\r\nb\n\n c", "a\r\nb\nc"),
    ("a\r b\r\r\n c\n", "a\r b\rc\n"),
    ("\n \r\n ", ""),
];

/// A value, and the text that it stands for (RFC 6350, section 3.4).
const UNESCAPED: &[(&str, &str)] = &[
    ("a\\,b\\x", "a,b\\x"),
    ("\\\\n\\n\\N\\;\\", "\\n\n\n;\\"),
    ("", ""),
];

#[test]
fn texts_are_unfolded_and_unescaped(rt: HostRuntime) {
    for (text, wanted) in UNFOLDED {
        let unfolded = unfold(rt.alloc(), text).expect(&rt, "memory");
        check_text(&rt, unfolded.as_str(), wanted, text);
    }
    for (text, wanted) in UNESCAPED {
        let unescaped = unescape(rt.alloc(), text).expect(&rt, "memory");
        check_text(&rt, unescaped.as_str(), wanted, text);
    }
}

/// A text that is no card, and its fault: first rows of single faults, then texts that have both of two faults which
/// are neighbours in the order.
const REFUSED: &[(&str, &str)] = &[
    (
        "BEGIN:VCARD\r\nVERSION:3.0\r\nFN:A\r\nEND:VCARD\r\n",
        "line 2: other-version",
    ),
    (
        "BEGIN:VCARD\r\nVERSION:4.0\r\nFN:A\r\nMEMBER:urn:uuid:1\r\nEND:VCARD\r\n",
        "line 4: member-without-group",
    ),
    (
        "BEGIN:VCARD\r\nVERSION:4.0\r\nUID:a\r\nUID:b\r\nFN:A\r\nEND:VCARD\r\n",
        "line 4: twice",
    ),
    ("", "line 1: no-begin"),
    // a value that its property may not have
    (
        "BEGIN:VCARD\nVERSION:4.0\nKIND:\nFN:A\nEND:VCARD",
        "line 3: bad-line",
    ),
    (
        "BEGIN:VCARD\nVERSION:4.0\nKIND:or_g\nFN:A\nEND:VCARD",
        "line 3: bad-line",
    ),
    (
        "BEGIN:VCARD\nVERSION:4.0\nKIND:group\nMEMBER:9a:b\nFN:A\nEND:VCARD",
        "line 4: bad-line",
    ),
    (
        "BEGIN:VCARD\nVERSION:4.0\nKIND:group\nMEMBER:+a:b\nFN:A\nEND:VCARD",
        "line 4: bad-line",
    ),
    (
        "BEGIN:VCARD\nVERSION:4.0\nKIND:group\nMEMBER:a:\nFN:A\nEND:VCARD",
        "line 4: bad-line",
    ),
    (
        "BEGIN:VCARD\nVERSION:4.0\nKIND:group\nMEMBER:a\nFN:A\nEND:VCARD",
        "line 4: bad-line",
    ),
    (
        "BEGIN:VCARD\nVERSION:4.0\nKIND:group\nMEMBER::b\nFN:A\nEND:VCARD",
        "line 4: bad-line",
    ),
    (
        "BEGIN:VCARD\nVERSION:4.0\nKIND:group\nMEMBER:a:b\tc\nFN:A\nEND:VCARD",
        "line 4: bad-line",
    ),
    (
        "BEGIN:VCARD\nVERSION:4.0\nKIND:group\nMEMBER:a_b:c\nFN:A\nEND:VCARD",
        "line 4: bad-line",
    ),
    (
        "BEGIN:VCARD\nVERSION:4.0\nFN:A\n\nTEL:1\nEND:VCARD",
        "line 4: bad-line",
    ),
    (
        "BEGIN:VCARD\nVERSION;A=b:4.0\nFN:A\nEND:VCARD",
        "line 2: no-version",
    ),
    (
        "BEGIN:VCARD \nVERSION:4.0\nFN:A\nEND:VCARD",
        "line 1: no-begin",
    ),
    // the order of faults
    (
        "VERSION:4.0\nBEGIN:VCARD\nFN:A\nEND:VCARD",
        "line 1: no-begin",
    ),
    ("BEGIN:VCARD\nFN:A\n:\nEND:VCARD", "line 2: no-version"),
    (
        "BEGIN:VCARD\nVERSION:2.1\n:\nEND:VCARD",
        "line 2: other-version",
    ),
    (
        "BEGIN:VCARD\nVERSION:4.0\nUID:a\n:\nUID:b\nFN:A\nEND:VCARD",
        "line 4: bad-line",
    ),
    (
        "BEGIN:VCARD\nVERSION:4.0\nUID:a\nUID:b\n:\nFN:A\nEND:VCARD",
        "line 4: twice",
    ),
    (
        "BEGIN:VCARD\nVERSION:4.0\nKIND:a\nKIND:a b\nFN:A\nEND:VCARD",
        "line 4: bad-line",
    ),
    (
        "BEGIN:VCARD\nVERSION:4.0\nKIND:a\nKIND:b\nFN:A\nEND:VCARD",
        "line 4: twice",
    ),
    (
        "BEGIN:VCARD\nVERSION:4.0\nUID:a\nUID:\u{1}\nFN:A\nEND:VCARD",
        "line 4: bad-line",
    ),
    (
        "BEGIN:VCARD\nVERSION:4.0\nFN:A\nVERSION:\u{7f}\nEND:VCARD",
        "line 4: bad-line",
    ),
    (
        "BEGIN:VCARD\nVERSION:4.0\nFN:A\nx.version;A=b:4.0\nEND:VCARD",
        "line 4: twice",
    ),
    ("begin", "line 1: no-begin"),
    ("BEGIN:VCARD\nFN:A", "line 2: no-version"),
    ("BEGIN:VCARD\nVERSION:4.1", "line 2: other-version"),
    ("BEGIN:VCARD\nVERSION:4.0\nFN:A\nFN", "line 4: bad-line"),
    (
        "BEGIN:VCARD\nVERSION:4.0\nFN:A\nVERSION:4.0",
        "line 4: twice",
    ),
    ("VERSION:4.0\nFN:A\nEND:VCARD\nx", "line 1: no-begin"),
    ("BEGIN:VCARD\nFN:A\nEND:VCARD\nx", "line 2: no-version"),
    (
        "BEGIN:VCARD\nVERSION:\nFN:A\nEND:VCARD\nx",
        "line 2: other-version",
    ),
    (
        "BEGIN:VCARD\nVERSION:4.0\nFN:A\n.TEL:1\nEND:VCARD\nx",
        "line 4: bad-line",
    ),
    (
        "BEGIN:VCARD\nVERSION:4.0\nUID:\nFN:A\nUID:\nEND:VCARD\nx",
        "line 5: twice",
    ),
    (
        "BEGIN:VCARD\nVERSION:4.0\nFN:A\nEND:VCARD\nEND:VCARD",
        "line 5: after-end",
    ),
    (
        "BEGIN:VCARD\nVERSION:4.0\nFN:A\nEND:VCARD\n\n:\n",
        "line 6: after-end",
    ),
    ("BEGIN:VCARD\nVERSION:4.0\nUID:a", "line 4: no-end"),
    (
        "BEGIN:VCARD\nVERSION:4.0\nUID:a\nEND:VCARD\n\r\n \n\r",
        "line 6: after-end",
    ),
    (
        "BEGIN:VCARD\nVERSION:4.0\nFN:A\nMEMBER:a:b\n",
        "line 5: no-end",
    ),
    (
        "BEGIN:VCARD\nVERSION:4.0\nFN:A\nMEMBER:a:b\nEND:VCARD\n\n\nx",
        "line 8: after-end",
    ),
    (
        "BEGIN:VCARD\nVERSION:4.0\nMEMBER:a:b\nEND:VCARD\n\n",
        "line 4: no-fn",
    ),
    (
        "BEGIN:VCARD\nVERSION:4.0\nFN:A\nMEMBER:a:b\nMEMBER:a:c\nEND:VCARD",
        "line 4: member-without-group",
    ),
    (
        "BEGIN:VCARD\nVERSION:4.0\nKIND:org\nMEMBER:a:b\nFN:A\nEND:VCARD",
        "line 4: member-without-group",
    ),
    (
        "BEGIN:VCARD\nVERSION:4.0\nFN:A\n b\n:\nEND:VCARD",
        "line 4: bad-line",
    ),
    (
        "BEGIN:VCARD\nVERSION:4.0\nFN:A\nx.END:VCARD\nEND:VCARD",
        "line 4: bad-line",
    ),
    (
        "BEGIN:VCARD\nVERSION:4.0\nKIND:group\nMEMBER:a b:c\nFN:A\nEND:VCARD",
        "line 4: bad-line",
    ),
];

/// The fault; nothing for a card.
fn fault_of(rt: &impl Abort, alloc: Global, text: &str) -> String {
    match read_card(alloc, text) {
        Ok(card) => {
            drop(card);
            String::new(alloc)
        }
        Err(fault) => format!(in alloc; "{fault}").expect(rt, "memory"),
    }
}

fn check(rt: &impl Abort, alloc: Global, text: &str, wanted: &str) {
    let fault = fault_of(rt, alloc, text);
    check_text(rt, fault.as_str(), wanted, text);
}

#[test]
fn the_first_fault_is_told(rt: HostRuntime) {
    for (text, fault) in REFUSED {
        check(&rt, rt.alloc(), text, fault);
    }
}

/// Texts that are cards.
const UNUSUAL: &[&str] = &[
    "begin:vcard\nversion:4.0\nMEMBER:a:b\nKIND:GROUP\nfn:A\nend:vcard\n\n\r\n",
    "BEGIN:VCA\n RD\nVERSION\n\t:4.0\nFN:\nEND:VCARD",
    "BEGIN:VCARD\nVERSION:4.0\nFN;X=é,\"ü:;\":Zo\n ë\u{85}\nEND:VCARD",
    // a tab in a value, and nothing after the colon
    "BEGIN:VCARD\nVERSION:4.0\nFN:A\tB\nNOTE;A=\tb:\t\nTEL:\nUID:\nEND:VCARD",
    // a KIND of letters, digits and hyphens
    "BEGIN:VCARD\nVERSION:4.0\nKIND:x-Team-2\nFN:A\nEND:VCARD",
    // a scheme with a digit, a plus sign, a hyphen and a dot, and a value of one more character
    "BEGIN:VCARD\nVERSION:4.0\nKIND:group\nMEMBER:a9+-.:b\nMEMBER:Z::\nFN:A\nEND:VCARD",
    // two FN, of which none says anything
    "BEGIN:VCARD\nVERSION:4.0\nFN:\nFN:\nEND:VCARD",
];

#[test]
fn unusual_cards_are_cards(rt: HostRuntime) {
    for text in UNUSUAL {
        check(&rt, rt.alloc(), text, "");
    }
}

/// The fault of the first so many bytes of a text.
const FRONTS: &[(usize, &str)] = &[
    (0, "line 1: no-begin"),
    (10, "line 1: no-begin"),
    (11, "line 2: no-end"),
    (12, "line 1: no-begin"),
    (13, "line 2: no-end"),
    (25, "line 2: other-version"),
    (32, "line 3: bad-line"),
    (33, "line 4: no-end"),
    (41, "line 4: bad-line"),
    (42, ""),
    (43, "line 4: bad-line"),
    (44, ""),
];

fn front(text: &str, len: usize) -> &str {
    match text.split_at_checked(len) {
        Some((front, _)) => front,
        None => text,
    }
}

#[test]
fn fronts_of_a_card_are_told(rt: HostRuntime) {
    for (len, fault) in FRONTS {
        check(&rt, rt.alloc(), front(BO, *len), fault);
    }
    for len in 0..GROUP.len() {
        let front = front(GROUP, len);
        let fault = fault_of(&rt, rt.alloc(), front);
        check_fact(&rt, fault.as_str() != "line 0: memory", front);
    }
}

/// A card with so many bytes of FN, and 37 more.
fn long_card(rt: &impl Abort, alloc: Global, count: usize) -> String {
    let mut text = String::new(alloc);
    text.push_str("BEGIN:VCARD\nVERSION:4.0\nFN:")
        .expect(rt, "memory");
    for _ in 0..count {
        text.push('A').expect(rt, "memory");
    }
    text.push_str("\nEND:VCARD").expect(rt, "memory");
    text
}

/// A card may have 65,536 bytes.
#[test]
fn a_card_may_have_65536_bytes(rt: HostRuntime) {
    for (count, len, fault) in [(65_499, 65_536, ""), (65_500, 65_537, "line 0: too-long")] {
        let text = long_card(&rt, rt.alloc(), count);
        check_fact(&rt, text.len() == len, fault);
        let told = fault_of(&rt, rt.alloc(), text.as_str());
        check_text(&rt, told.as_str(), fault, "a long card");
    }
}

/// What a card says: its kind, its UID, its name as it is written, and its members; then its lines.
fn tell_card(rt: &impl Abort, answer: &mut String, card: &Card) {
    let (kind, uid, formatted) = (card.kind(), card.uid(), card.formatted());
    write!(answer, "{kind} {uid:?} {formatted}").expect(rt, "memory");
    for member in card.members() {
        write!(answer, ", {member}").expect(rt, "memory");
    }
    for line in card.lines() {
        let (name, value) = (line.name, line.value);
        write!(answer, "; {name} {value}").expect(rt, "memory");
    }
}

fn check_card(rt: &impl Abort, alloc: Global, text: &str, wanted: &str) {
    let card = read_card(alloc, text).ok().expect(rt, "a card");
    check_fact(rt, card.line_count() == card.lines().count(), text);
    let mut answer = String::new(alloc);
    tell_card(rt, &mut answer, &card);
    drop(card);
    check_text(rt, answer.as_str(), wanted, text);
}

#[test]
fn cards_say_what_their_lines_say(rt: HostRuntime) {
    let alloc = rt.alloc();
    check_card(
        &rt,
        alloc,
        FOLDED,
        "individual None Ann Bell; BEGIN VCARD; VERSION 4.0; FN Ann Bell; END VCARD",
    );
    check_card(
        &rt,
        alloc,
        GROUP,
        "group None G, urn:uuid:p, urn:uuid:q; BEGIN VCARD; VERSION 4.0; KIND group; FN G; \
         MEMBER urn:uuid:p; MEMBER urn:uuid:q; END VCARD",
    );
    check_card(
        &rt,
        alloc,
        "begin:vcard\nversion:4.0\nx.fn;a=b:B\\, A\nFN:C\nKind:ORG\ng.Uid:urn:uuid:p\nend:vcard\n",
        "ORG Some(\"urn:uuid:p\") B\\, A; begin vcard; version 4.0; fn B\\, A; FN C; Kind ORG; \
         Uid urn:uuid:p; end vcard",
    );
}

const NO_LINES: &[&str] = &[
    "TEL;TYPE=a\"b:c",
    ".TEL:c",
    "a..TEL:c",
    "a.b.TEL:c",
    "T_EL:c",
    "TEL;=a:c",
    "TEL;A:c",
    "TEL;A=\"b:c",
    "TEL",
    ":c",
    "",
];

const LINES: &[&str] = &[
    "TEL:",
    "TEL;A=:",
    "TEL;A=,\"\",:c",
    "TEL;A= b c:",
    "9-a.T-1:",
];

#[test]
fn lines_have_fields(rt: HostRuntime) {
    let line = Line::read("item1.TEL;TYPE=\"cell:a\",home;PREF=1:+1 555");
    let line = line.expect(&rt, "a content line");
    check_fact(&rt, line.group == Some("item1"), "a group");
    check_text(&rt, line.name, "TEL", "a name");
    check_text(
        &rt,
        line.params,
        ";TYPE=\"cell:a\",home;PREF=1",
        "parameters",
    );
    check_text(&rt, line.value, "+1 555", "a value");
    for text in NO_LINES {
        check_fact(&rt, Line::read(text).is_none(), text);
    }
    for text in LINES {
        check_fact(&rt, Line::read(text).is_some(), text);
    }
}

#[test]
fn laws_are_called() {
    faultless_texts_are_the_cards();
    fields_are_of_the_grammar();
    lines_make_up_the_text();
    unfolded_is_what_unfolds();
}
