//! Bodies of requests: each form, and each way to have none.

use crate::telling::told;
use crate::texts::{Pieces, written};
use std::alloc::Global;
use std::process::Abort;

/// Texts, and what each is as a body.
type Cases = &'static [(&'static str, &'static str)];

/// PROPFIND asks for 1 to 7 different properties (RFC 4918, section 9.1).
const FOUND: Cases = &[
    ("", "empty"),
    ("{\"prop\":[\"displayname\"]}", "find label"),
    (
        "{\"prop\":[\"resourcetype\",\"displayname\"]}",
        "find kind label",
    ),
    (
        "{\"prop\":[\"sync-token\",\"group-member-set\",\"current-user-privilege-set\",\"acl\",\"owner\",\"resourcetype\",\"displayname\"]}",
        "find token members privileges list owner kind label",
    ),
    (" { \"prop\" :\n[ \"acl\" ] }\t", "find list"),
    ("{\"prop\":[\"\\u0061cl\"]}", "find list"),
    ("{\"prop\":[\"owner\"],\"prop\":[\"acl\"]}", "find list"),
    ("{\"prop\":[]}", "unread"),
    ("{\"prop\":[\"acl\",\"acl\"]}", "unread"),
    ("{\"prop\":[\"acl\",\"owner\",\"acl\"]}", "unread"),
    ("{\"prop\":[\"ACL\"]}", "unread"),
    ("{\"prop\":[\"getetag\"]}", "unread"),
    ("{\"prop\":[\"acl\",\"getetag\"]}", "unread"),
    ("{\"prop\":[\"acl\",1]}", "unread"),
    ("{\"prop\":\"acl\"}", "unread"),
    ("{\"prop\":{\"acl\":null}}", "unread"),
    ("{\"prop\":[\"acl\"],\"depth\":1}", "unread"),
    ("{\"allprop\":null,\"prop\":[\"acl\"]}", "unread"),
    ("{\"Prop\":[\"acl\"]}", "unread"),
    ("{}", "unread"),
    ("[\"acl\"]", "unread"),
    ("null", "unread"),
    ("{\"prop\":[\"acl\"]", "unread"),
    ("{\"prop\":[\"acl\"]}}", "unread"),
    ("{\"prop\":[\"acl\",]}", "unread"),
    (" ", "unread"),
];

/// PROPPATCH sets a label or the members of a group (RFC 4918, section 9.2).
const PATCHES: Cases = &[
    ("", "empty"),
    ("{\"set\":{\"displayname\":\"Sales\"}}", "label \"Sales\""),
    ("{\"set\":{\"displayname\":\"\"}}", "label \"\""),
    (
        "{\"set\":{\"displayname\":\"B\\u00fcro\"}}",
        "label \"Büro\"",
    ),
    ("{\"set\":{\"group-member-set\":[]}}", "members"),
    (
        "{\"set\":{\"group-member-set\":[\"/people/bob\",\"/groups/law/\",\"/people/ann\",\"/people/bob\"]}}",
        "members /people/bob /groups/law /people/ann /people/bob",
    ),
    ("{\"set\":{\"displayname\":1}}", "unread"),
    ("{\"set\":{\"displayname\":null}}", "unread"),
    (
        "{\"set\":{\"displayname\":\"A\",\"group-member-set\":[]}}",
        "unread",
    ),
    ("{\"set\":{\"owner\":\"/people/ann\"}}", "unread"),
    ("{\"set\":{\"group-member-set\":\"/people/ann\"}}", "unread"),
    (
        "{\"set\":{\"group-member-set\":[\"/people/ann\",\"/books/sales\"]}}",
        "unread",
    ),
    (
        "{\"set\":{\"group-member-set\":[\"/people/ann\",\"all\"]}}",
        "unread",
    ),
    (
        "{\"set\":{\"group-member-set\":[\"/people/ann\",null]}}",
        "unread",
    ),
    ("{\"set\":{\"group-member-set\":[\"ann\"]}}", "unread"),
    ("{\"set\":{}}", "unread"),
    ("{\"set\":[]}", "unread"),
    ("{\"set\":{\"displayname\":\"A\"},\"remove\":{}}", "unread"),
    ("{\"displayname\":\"A\"}", "unread"),
];

/// ACL submits a list (RFC 3744, sections 5.5 and 8.1).
const LISTS: Cases = &[
    ("", "empty"),
    ("{\"acl\":[]}", "list"),
    (
        "{\"acl\":[{\"deny\":[\"all\"],\"principal\":\"/people/ann\"},{\"deny\":[\"read\"],\"principal\":\"/people/bob\"}]}",
        "list; deny /people/ann x-read-texts write-content write-properties bind unbind read-acl write-acl read-current-user-privilege-set x-read-names; deny /people/bob x-read-texts x-read-names",
    ),
    (
        "{\"acl\":[{\"principal\":\"all\",\"grant\":[\"read\",\"bind\",\"read\"]},{\"grant\":[\"write\"],\"invert\":\"/groups/staff/\"}]}",
        "list; grant everyone x-read-texts bind x-read-names; grant all but /groups/staff write-content write-properties bind unbind",
    ),
    (
        "{\"acl\":[{\"grant\":[\"read\"],\"principal\":\"authenticated\"},{\"grant\":[\"read\"],\"principal\":\"unauthenticated\"},{\"grant\":[\"read\"],\"principal\":\"owner\"},{\"grant\":[\"read\"],\"principal\":\"self\"}]}",
        "list; grant known callers x-read-texts x-read-names; grant unknown callers x-read-texts x-read-names; grant the owner x-read-texts x-read-names; grant itself x-read-texts x-read-names",
    ),
    (
        "{\"acl\":[{\"grant\":[\"unlock\",\"read\"],\"principal\":\"ann\",\"protected\":true},{\"grant\":[\"read\"],\"principal\":\"All\",\"protected\":false,\"inherited\":\"\"}]}",
        "list; grant nobody known unknown, protected; grant nobody known x-read-texts x-read-names, inherited",
    ),
    ("{\"acl\":[{\"grant\":[\"read\"]}]}", "unread"),
    ("{\"acl\":[{\"principal\":\"all\"}]}", "unread"),
    (
        "{\"acl\":[{\"grant\":[\"read\"],\"principal\":\"all\",\"invert\":\"self\"}]}",
        "unread",
    ),
    (
        "{\"acl\":[{\"grant\":[\"read\"],\"deny\":[\"read\"],\"principal\":\"all\"}]}",
        "unread",
    ),
    ("{\"acl\":[{\"grant\":[],\"principal\":\"all\"}]}", "unread"),
    (
        "{\"acl\":[{\"grant\":\"read\",\"principal\":\"all\"}]}",
        "unread",
    ),
    (
        "{\"acl\":[{\"grant\":[\"read\",7],\"principal\":\"all\"}]}",
        "unread",
    ),
    (
        "{\"acl\":[{\"grant\":[\"read\"],\"principal\":null}]}",
        "unread",
    ),
    (
        "{\"acl\":[{\"grant\":[\"read\"],\"principal\":\"all\",\"protected\":\"true\"}]}",
        "unread",
    ),
    (
        "{\"acl\":[{\"grant\":[\"read\"],\"principal\":\"all\",\"inherited\":true}]}",
        "unread",
    ),
    (
        "{\"acl\":[{\"grant\":[\"read\"],\"principal\":\"all\",\"abstract\":true}]}",
        "unread",
    ),
    (
        "{\"acl\":[{\"grant\":[\"read\"],\"principal\":\"all\"},null]}",
        "unread",
    ),
    (
        "{\"acl\":{\"grant\":[\"read\"],\"principal\":\"all\"}}",
        "unread",
    ),
    ("{\"acl\":[],\"owner\":\"/people/ann\"}", "unread"),
];

/// REPORT asks one of four (RFC 3253, section 3.6; RFC 6578, section 3.2; own profile).
const REPORTS: Cases = &[
    ("", "empty"),
    (
        "{\"report\":\"sync-collection\",\"sync-token\":\"\"}",
        "changes from the start",
    ),
    (
        "{\"sync-token\":\"data:,sales/2/3\",\"report\":\"sync-collection\"}",
        "changes of sales in 2 after 3",
    ),
    (
        "{\"report\":\"sync-collection\",\"sync-token\":\"data:,sales/02/3\"}",
        "changes from no token",
    ),
    (
        "{\"report\":\"sync-collection\",\"sync-token\":\" \"}",
        "changes from no token",
    ),
    ("{\"report\":\"group-members\"}", "group members"),
    ("{\"report\":\"names\"}", "names"),
    (
        "{\"principal\":\"/people/bob/\",\"report\":\"effective\"}",
        "effective for /people/bob",
    ),
    (
        "{\"report\":\"effective\",\"principal\":null}",
        "effective for nobody",
    ),
    ("{\"report\":\"sync-collection\"}", "unread"),
    (
        "{\"report\":\"sync-collection\",\"sync-token\":null}",
        "unread",
    ),
    (
        "{\"report\":\"sync-collection\",\"sync-token\":\"\",\"limit\":1}",
        "changes from the start, at most 1",
    ),
    (
        "{\"limit\":10000,\"report\":\"sync-collection\",\"sync-token\":\"data:,sales/2/3\"}",
        "changes of sales in 2 after 3, at most 10000",
    ),
    (
        "{\"report\":\"sync-collection\",\"sync-token\":\"\",\"limit\":0}",
        "unread",
    ),
    (
        "{\"report\":\"sync-collection\",\"sync-token\":\"\",\"limit\":10001}",
        "unread",
    ),
    (
        "{\"report\":\"sync-collection\",\"sync-token\":\"\",\"limit\":1.0}",
        "unread",
    ),
    (
        "{\"report\":\"sync-collection\",\"sync-token\":\"\",\"limit\":1e3}",
        "unread",
    ),
    (
        "{\"report\":\"sync-collection\",\"sync-token\":\"\",\"limit\":-1}",
        "unread",
    ),
    (
        "{\"report\":\"sync-collection\",\"sync-token\":\"\",\"limit\":\"1\"}",
        "unread",
    ),
    (
        "{\"report\":\"sync-collection\",\"sync-token\":\"\",\"limit\":null}",
        "unread",
    ),
    ("{\"report\":\"group-members\",\"limit\":1}", "unread"),
    ("{\"report\":\"names\",\"limit\":1}", "unread"),
    (
        "{\"report\":\"effective\",\"principal\":null,\"limit\":1}",
        "unread",
    ),
    (
        "{\"report\":\"sync-collection\",\"sync-token\":null,\"limit\":1}",
        "unread",
    ),
    (
        "{\"report\":\"group-members\",\"sync-token\":\"\"}",
        "unread",
    ),
    ("{\"report\":\"effective\"}", "unread"),
    (
        "{\"principal\":\"/groups/staff\",\"report\":\"effective\"}",
        "unread",
    ),
    ("{\"principal\":\"all\",\"report\":\"effective\"}", "unread"),
    (
        "{\"principal\":\"/people/bob\",\"report\":\"group-members\"}",
        "unread",
    ),
    ("{\"report\":\"Effective\",\"principal\":null}", "unread"),
    ("{\"report\":\"names\",\"sync-token\":\"\"}", "unread"),
    ("{\"principal\":null,\"report\":\"names\"}", "unread"),
    ("{\"report\":\"Names\"}", "unread"),
    ("{\"report\":[\"names\"]}", "unread"),
    ("{\"report\":\"expand-property\"}", "unread"),
    ("{\"report\":null}", "unread"),
];

/// PUT has any text; MKCOL may have none (RFC 4918, section 9.3); the bodies of other methods are not looked at.
const OTHERS: &[(&str, &str, &str)] = &[
    ("PUT", "", "empty"),
    ("PUT", "x", "text \"x\""),
    (
        "PUT",
        "BEGIN:VCARD\r\nFN:Zoë",
        "text \"BEGIN:VCARD\\r\\nFN:Zoë\"",
    ),
    (
        "PUT",
        "{\"prop\":[\"acl\"]}",
        "text \"{\\\"prop\\\":[\\\"acl\\\"]}\"",
    ),
    ("MKCOL", "", "empty"),
    ("MKCOL", "x", "unread"),
    ("MKCOL", "{\"prop\":[\"acl\"]}", "unread"),
    ("GET", "x", "empty"),
    ("HEAD", "x", "empty"),
    ("OPTIONS", "x", "empty"),
    ("COPY", "x", "empty"),
    ("MOVE", "x", "empty"),
    ("DELETE", "x", "empty"),
];

/// Bytes that are not UTF-8 are no text and no JSON.
const OTHER_BYTES: &[&[u8]] = &[b"\xff", b"{\"prop\":[\"acl\xc3\"]}"];

/// An entry has 1 to 16 names of privileges. How many entries a list may have, how many members a group and how many bytes
/// a label, the body does not say.
const LIMITS: &[(&str, Pieces<'static>, Pieces<'static>)] = &[
    (
        "ACL",
        &[("{\"acl\":[{\"principal\":\"all\",\"grant\":[]}]}", 1)],
        &[("unread", 1)],
    ),
    (
        "ACL",
        &[
            ("{\"acl\":[{\"principal\":\"all\",\"grant\":[\"bind\"", 1),
            (",\"bind\"", 15),
            ("]}]}", 1),
        ],
        &[("list; grant everyone bind", 1)],
    ),
    (
        "ACL",
        &[
            ("{\"acl\":[{\"principal\":\"all\",\"grant\":[\"bind\"", 1),
            (",\"bind\"", 16),
            ("]}]}", 1),
        ],
        &[("unread", 1)],
    ),
    (
        "ACL",
        &[
            ("{\"acl\":[{\"principal\":\"all\",\"grant\":[\"bind\"]}", 1),
            (",{\"principal\":\"all\",\"grant\":[\"bind\"]}", 64),
            ("]}", 1),
        ],
        &[("list", 1), ("; grant everyone bind", 65)],
    ),
    (
        "PROPPATCH",
        &[("{\"set\":{\"displayname\":\"", 1), ("x", 257), ("\"}}", 1)],
        &[("label \"", 1), ("x", 257), ("\"", 1)],
    ),
    (
        "PROPPATCH",
        &[
            ("{\"set\":{\"group-member-set\":[\"/people/a\"", 1),
            (",\"/people/a\"", 1000),
            ("]}}", 1),
        ],
        &[("members", 1), (" /people/a", 1001)],
    ),
];

fn check(rt: &impl Abort, alloc: Global, method: &str, bytes: &[u8], wanted: &str) {
    let answer = told(rt, alloc, method, bytes);
    assert_eq!(rt; answer.as_str(), wanted, "{method} {bytes:?}");
}

/// What a method's bodies are.
fn check_all(rt: &impl Abort, alloc: Global, method: &str, cases: Cases) {
    for (text, wanted) in cases {
        check(rt, alloc, method, text.as_bytes(), wanted);
    }
}

#[test]
fn bodies_are_read_by_the_method(rt: HostRuntime) {
    check_all(&rt, rt.alloc(), "PROPFIND", FOUND);
    check_all(&rt, rt.alloc(), "PROPPATCH", PATCHES);
    check_all(&rt, rt.alloc(), "ACL", LISTS);
    check_all(&rt, rt.alloc(), "REPORT", REPORTS);
    for (method, text, wanted) in OTHERS {
        check(&rt, rt.alloc(), method, text.as_bytes(), wanted);
    }
    for method in ["PUT", "PROPFIND", "PROPPATCH", "ACL", "REPORT", "MKCOL"] {
        for bytes in OTHER_BYTES {
            check(&rt, rt.alloc(), method, bytes, "unread");
        }
    }
}

#[test]
fn long_bodies_are_read(rt: HostRuntime) {
    for (method, body, wanted) in LIMITS {
        let body = written(&rt, rt.alloc(), body);
        let wanted = written(&rt, rt.alloc(), wanted);
        check(
            &rt,
            rt.alloc(),
            method,
            body.as_str().as_bytes(),
            wanted.as_str(),
        );
    }
}
