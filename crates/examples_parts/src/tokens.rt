//! Sync tokens as texts.

use crate::checks::{check_fact, check_text};
use crate::lists::{LONGEST, TOO_LONG};
use book_office_sync::{Token, texts_tell_tokens};
use std::alloc::Global;
use std::process::Abort;

fn read(rt: &impl Abort, alloc: Global, text: &str) -> Option<Token> {
    Token::parse(alloc, text).expect(rt, "memory")
}

fn check_spelled(rt: &impl Abort, alloc: Global, text: &str, book: &str, epoch: u64, number: u64) {
    let token = read(rt, alloc, text).expect(rt, "a token");
    check_text(rt, token.book.text(), book, text);
    check_fact(rt, token.epoch == epoch && token.number == number, text);
    let again = token.text(alloc).expect(rt, "memory");
    check_text(rt, again.as_str(), text, text);
}

/// The text of a token, its book, its epoch, and its number.
const SPELLED: &[(&str, &str, u64, u64)] = &[
    ("data:,sales/2/3", "sales", 2, 3),
    ("data:,law/0/0", "law", 0, 0),
    ("data:,7/10/100", "7", 10, 100),
    ("data:,Data_-./1/20", "Data_-.", 1, 20),
    (
        "data:,sales/9007199254740991/9007199254740991",
        "sales",
        9_007_199_254_740_991,
        9_007_199_254_740_991,
    ),
];

/// The text of a token tells its parts, and the parts give the text again.
#[test]
fn tokens_are_spelled(rt: HostRuntime) {
    for (text, book, epoch, number) in SPELLED {
        check_spelled(&rt, rt.alloc(), text, book, *epoch, *number);
    }
    texts_tell_tokens();
}

const NO_TOKENS: &[&str] = &[
    "",
    "data:,",
    "data:,sales",
    "data:,sales/2",
    "data:,sales/2/",
    "data:,sales//3",
    "data:,/2/3",
    "sales/2/3",
    "data:sales/2/3",
    "data:;,sales/2/3",
    "http:,sales/2/3",
    "DATA:,sales/2/3",
    " data:,sales/2/3",
    "data:,sales/2/3 ",
    "data:,sales/2/3\n",
    "data:,sales/2/3/",
    "data:,sales/2/3/4",
    "data:,sales/02/3",
    "data:,sales/2/03",
    "data:,sales/00/3",
    "data:,sales/2/00",
    "data:,sales/+2/3",
    "data:,sales/2/+3",
    "data:,sales/-2/3",
    "data:,sales/2.0/3",
    "data:,sales/0x2/3",
    "data:,sales/2/3a",
    "data:,sales/2/٣",
    "data:,sales/9007199254740992/3",
    "data:,sales/2/9007199254740992",
    "data:,sales/18446744073709551618/3",
    "data:,.sales/2/3",
    "data:,sä/2/3",
    "data:,/books/sales/2/3",
];

#[test]
fn other_texts_spell_no_token(rt: HostRuntime) {
    for text in NO_TOKENS {
        check_fact(&rt, read(&rt, rt.alloc(), text).is_none(), text);
    }
}

/// The name of a book may have 64 bytes.
#[test]
fn a_token_names_a_book(rt: HostRuntime) {
    for (name, is_token) in [(LONGEST, true), (TOO_LONG, false)] {
        let text = format!(in rt.alloc(); "data:,{name}/2/3").expect(&rt, "memory");
        let token = read(&rt, rt.alloc(), text.as_str());
        check_fact(&rt, token.is_some() == is_token, text.as_str());
    }
}
