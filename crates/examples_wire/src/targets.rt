//! Targets, methods by their names, and phrases.

use crate::checks::{check_fact, check_text, check_text_of};
use book_rights::Method;
use book_wire_targets::{homes, method_named, path_in, phrase, target_path};
use std::alloc::Global;
use std::process::Abort;

/// Each target, and the path for which it asks; none at a dash (RFC 9110, section 7.1; own profile).
const TARGETS: &[(&str, &str)] = &[
    ("/", "/"),
    ("/people", "/people"),
    ("/people/", "/people"),
    ("/groups", "/groups"),
    ("/books", "/books"),
    ("/books/", "/books"),
    ("/books/sales", "/books/sales"),
    ("/books/sales/", "/books/sales"),
    ("/books/sales/b.vcf", "/books/sales/b.vcf"),
    ("/people/ann", "/people/ann"),
    ("/groups/staff", "/groups/staff"),
    ("http://localhost/books/sales/b.vcf", "/books/sales/b.vcf"),
    ("https://other.example:8443/books/sales", "/books/sales"),
    ("HTTP://localhost/people/ann", "/people/ann"),
    ("http://localhost", "/"),
    ("http://localhost/", "/"),
    ("http://localhost/books/law/../sales", "/books/sales"),
    ("", "-"),
    ("*", "-"),
    ("books/sales", "-"),
    ("/bookshelf", "-"),
    ("/books/sales/b.vcf/", "-"),
    ("/books//b.vcf", "-"),
    ("/books/law/../sales", "-"),
    ("/books/sales?x", "-"),
    ("/books/sales#x", "-"),
    ("/books/sa%6ces", "-"),
    ("http://localhost/books/sales?x", "-"),
    ("http://localhost/books/sales?", "-"),
    ("http://localhost/books/sales#x", "-"),
    ("http://localhost/cards", "-"),
    ("ftp://localhost/books/sales", "-"),
    ("localhost:80", "-"),
    ("http://", "-"),
];

/// Texts by themselves: a URL spells no path.
const SPELLED: &[(&str, &str)] = &[
    ("/groups", "/groups"),
    ("/groups/staff", "/groups/staff"),
    ("http://localhost/groups", "-"),
];

/// The path for which a target asks, or that a text by itself spells; a dash where there is none, and nothing where memory
/// was refused.
fn asked(rt: &impl Abort, alloc: Global, text: &str, is_target: bool) -> String {
    let Ok(router) = homes(alloc) else {
        return String::new(alloc);
    };
    let path = if is_target {
        target_path(alloc, &router, text)
    } else {
        path_in(alloc, &router, text)
    };
    drop(router);
    match path.expect(rt, "memory") {
        Some(path) => path.text(alloc).expect(rt, "memory"),
        None => String::from_str(alloc, "-").expect(rt, "memory"),
    }
}

#[test]
fn targets_ask_for_paths(rt: HostRuntime) {
    for (target, wanted) in TARGETS {
        let answer = asked(&rt, rt.alloc(), target, true);
        check_text_of(&rt, answer.as_str(), wanted, target);
    }
    for (text, wanted) in SPELLED {
        let answer = asked(&rt, rt.alloc(), text, false);
        check_text_of(&rt, answer.as_str(), wanted, text);
    }
}

/// The twelve methods, with case, and nothing else.
const METHODS: &[(&str, Option<Method>)] = &[
    ("GET", Some(Method::Get)),
    ("HEAD", Some(Method::Head)),
    ("OPTIONS", Some(Method::Options)),
    ("PUT", Some(Method::Put)),
    ("PROPFIND", Some(Method::Propfind)),
    ("PROPPATCH", Some(Method::Proppatch)),
    ("ACL", Some(Method::Acl)),
    ("COPY", Some(Method::Copy)),
    ("MOVE", Some(Method::Move)),
    ("DELETE", Some(Method::Delete)),
    ("MKCOL", Some(Method::Mkcol)),
    ("REPORT", Some(Method::Report)),
    ("", None),
    ("get", None),
    ("Get", None),
    ("GET ", None),
    ("POST", None),
    ("PATCH", None),
    ("LOCK", None),
    ("TRACE", None),
    ("MKCALENDAR", None),
];

/// The statuses of this server (RFC 9110, section 15; RFC 4918, section 11; RFC 6585), and numbers that are none.
const PHRASES: &[(u16, &str)] = &[
    (200, "OK"),
    (201, "Created"),
    (204, "No Content"),
    (207, "Multi-Status"),
    (400, "Bad Request"),
    (403, "Forbidden"),
    (404, "Not Found"),
    (405, "Method Not Allowed"),
    (409, "Conflict"),
    (412, "Precondition Failed"),
    (413, "Payload Too Large"),
    (415, "Unsupported Media Type"),
    (431, "Request Header Fields Too Large"),
    (501, "Not Implemented"),
    (503, "Service Unavailable"),
    (507, "Insufficient Storage"),
    (0, ""),
    (99, ""),
    (299, ""),
    (1000, ""),
];

#[test]
fn methods_and_statuses_have_names(rt: HostRuntime) {
    for (name, method) in METHODS {
        check_fact(&rt, method_named(name.as_bytes()) == *method, name);
    }
    for (status, wanted) in PHRASES {
        check_text(&rt, phrase(*status), wanted);
    }
}
