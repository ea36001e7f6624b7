//! Conversations: requests on one connection, each with its reply. Each form of a body of a reply is told once.

use crate::checks::check_text;
use crate::offices::{POLICY, WHOLE, answered};
use std::alloc::Global;
use std::process::Abort;

/// Who asks, the request line and further fields, and the body; then the status with its type, and the body.
type Turn<'a> = (&'a str, &'a str, &'a str, &'a str, &'a str);

const DONE: &str = "200 OK";

const CREATED: &str = "201 Created";

const TOLD: &str = "200 OK\r\nContent-Type: application/json";

const LISTED: &str = "207 Multi-Status\r\nContent-Type: application/json";

const WRONG: &str = "400 Bad Request\r\nContent-Type: application/json";

const FORBIDDEN: &str = "403 Forbidden\r\nContent-Type: application/json";

const MISSING: &str = "404 Not Found\r\nContent-Type: application/json";

/// A card of 44 bytes.
const BO: &str = "BEGIN:VCARD\r\nVERSION:4.0\r\nFN:Bo\r\nEND:VCARD\r\n";

/// A card of 47 bytes.
const BELL: &str = "BEGIN:VCARD\nVERSION:4.0\nFN:An\n n Bell\nEND:VCARD";

/// A listing tells each resource, or its denial with the entry that decides it, which stands at the card or above it; a
/// refusal has a name alone, a card's fault with its line, or a denial.
const LISTINGS: &[Turn<'static>] = &[
    ("bob", "PUT /books/sales/b.vcf HTTP/1.1", BO, CREATED, ""),
    ("ann", "PUT /books/sales/f.vcf HTTP/1.1", BELL, CREATED, ""),
    (
        "ann",
        "ACL /books/sales/f.vcf HTTP/1.1",
        "{\"acl\":[{\"deny\":[\"all\"],\"principal\":\"owner\"},{\"deny\":[\"read\"],\"principal\":\"/people/bob\"}]}",
        DONE,
        "",
    ),
    (
        "bob",
        "PROPFIND /books/sales HTTP/1.1\r\nDepth: 1",
        "{\"prop\":[\"resourcetype\",\"displayname\"]}",
        LISTED,
        "{\"responses\":[{\"href\":\"/books/sales\",\"prop\":{\"displayname\":\"Sales\",\"resourcetype\":\"book\"},\"status\":200},{\"href\":\"/books/sales/b.vcf\",\"prop\":{\"displayname\":\"\",\"resourcetype\":\"card\"},\"status\":200},{\"href\":\"/books/sales/f.vcf\",\"need-privileges\":{\"entry\":{\"from\":\"/books/sales/f.vcf\",\"number\":3},\"privilege\":\"read\",\"resource\":\"/books/sales/f.vcf\"},\"status\":403}]}",
    ),
    (
        "bob",
        "GET /books/sales/f.vcf HTTP/1.1",
        "",
        FORBIDDEN,
        "{\"entry\":{\"from\":\"/books/sales/f.vcf\",\"number\":3},\"error\":\"need-privileges\",\"privilege\":\"read\",\"resource\":\"/books/sales/f.vcf\"}",
    ),
    (
        "bob",
        "PUT /books/sales/b.vcf HTTP/1.1",
        BELL,
        FORBIDDEN,
        "{\"entry\":null,\"error\":\"need-privileges\",\"privilege\":\"write-content\",\"resource\":\"/books/sales/b.vcf\"}",
    ),
    (
        "ann",
        "PUT /books/sales/x.vcf HTTP/1.1",
        "BEGIN:VCARD\r\nVERSION:3.0\r\nFN:A\r\nEND:VCARD\r\n",
        WRONG,
        "{\"error\":\"bad-card\",\"fault\":\"other-version\",\"line\":2}",
    ),
    (
        "ann",
        "GET /books/sales/x.vcf HTTP/1.1",
        "",
        MISSING,
        "{\"error\":\"not-found\"}",
    ),
    (
        "ann",
        "ACL /books/sales HTTP/1.1",
        "{\"acl\":[{\"grant\":[\"bind\"],\"principal\":\"/groups/staff\"},{\"deny\":[\"read\"],\"principal\":\"/people/bob\"}]}",
        DONE,
        "",
    ),
    (
        "bob",
        "GET /books/sales/b.vcf HTTP/1.1",
        "",
        FORBIDDEN,
        "{\"entry\":{\"from\":\"/books/sales\",\"number\":3},\"error\":\"need-privileges\",\"privilege\":\"read\",\"resource\":\"/books/sales/b.vcf\"}",
    ),
];

/// What a caller to whom everything is granted sees of a book: its list, and what it is granted. The names of the
/// properties stand in byte order, whatever the order in which they were asked. Then two cards with their texts, a card
/// under another name, and no change.
const LISTS_AND_CHANGES: &[Turn<'static>] = &[
    (
        "ann",
        "PROPFIND /books/sales HTTP/1.1",
        "{\"prop\":[\"current-user-privilege-set\",\"acl\"]}",
        LISTED,
        "{\"responses\":[{\"href\":\"/books/sales\",\"prop\":{\"acl\":[{\"grant\":[\"all\"],\"principal\":\"/people/ann\",\"protected\":true},{\"grant\":[\"read\",\"bind\"],\"principal\":\"/groups/staff\"}],\"current-user-privilege-set\":[\"all\",\"read\",\"write\",\"x-read-texts\",\"write-content\",\"write-properties\",\"bind\",\"unbind\",\"read-acl\",\"write-acl\",\"read-current-user-privilege-set\",\"x-read-names\"]},\"status\":200}]}",
    ),
    ("bob", "PUT /books/sales/b.vcf HTTP/1.1", BO, CREATED, ""),
    ("ann", "PUT /books/sales/f.vcf HTTP/1.1", BELL, CREATED, ""),
    (
        "bob",
        "REPORT /books/sales HTTP/1.1",
        "{\"report\":\"sync-collection\",\"sync-token\":\"\"}",
        LISTED,
        "{\"responses\":[{\"displayname\":\"\",\"href\":\"/books/sales/b.vcf\",\"number\":1,\"status\":200,\"text\":\"BEGIN:VCARD\\r\\nVERSION:4.0\\r\\nFN:Bo\\r\\nEND:VCARD\\r\\n\"},{\"displayname\":\"\",\"href\":\"/books/sales/f.vcf\",\"number\":2,\"status\":200,\"text\":\"BEGIN:VCARD\\nVERSION:4.0\\nFN:An\\n n Bell\\nEND:VCARD\"}],\"sync-token\":\"data:,sales/1/2\"}",
    ),
    (
        "ann",
        "MOVE /books/sales/f.vcf HTTP/1.1\r\nDestination: /books/sales/g.vcf",
        "",
        CREATED,
        "",
    ),
    (
        "bob",
        "REPORT /books/sales HTTP/1.1",
        "{\"report\":\"sync-collection\",\"sync-token\":\"data:,sales/1/2\"}",
        LISTED,
        "{\"responses\":[{\"href\":\"/books/sales/f.vcf\",\"status\":404},{\"displayname\":\"\",\"href\":\"/books/sales/g.vcf\",\"number\":4,\"status\":200,\"text\":\"BEGIN:VCARD\\nVERSION:4.0\\nFN:An\\n n Bell\\nEND:VCARD\"}],\"sync-token\":\"data:,sales/1/4\"}",
    ),
    (
        "bob",
        "REPORT /books/sales HTTP/1.1",
        "{\"report\":\"sync-collection\",\"sync-token\":\"data:,sales/1/4\"}",
        LISTED,
        "{\"responses\":[],\"sync-token\":\"data:,sales/1/4\"}",
    ),
];

/// The reports of own profile: the members of a group card, and what decides each leaf. A member that is there and one that
/// is not; equal UIDs; a card that is no group. An entry that denies, a leaf that nothing decides, and an entry that
/// grants.
const OWN_REPORTS: &[Turn<'static>] = &[
    (
        "ann",
        "PUT /books/sales/p.vcf HTTP/1.1",
        "BEGIN:VCARD\r\nVERSION:4.0\r\nUID:urn:uuid:p\r\nFN:P\r\nEND:VCARD\r\n",
        CREATED,
        "",
    ),
    (
        "ann",
        "PUT /books/sales/g.vcf HTTP/1.1",
        "BEGIN:VCARD\r\nVERSION:4.0\r\nKIND:group\r\nFN:G\r\nMEMBER:urn:uuid:p\r\nMEMBER:urn:uuid:q\r\nEND:VCARD\r\n",
        CREATED,
        "",
    ),
    (
        "bob",
        "REPORT /books/sales/g.vcf HTTP/1.1",
        "{\"report\":\"group-members\"}",
        TOLD,
        "{\"members\":[{\"hrefs\":[\"/books/sales/p.vcf\"],\"uri\":\"urn:uuid:p\"},{\"hrefs\":[],\"uri\":\"urn:uuid:q\"}],\"reached\":[\"/books/sales/p.vcf\"]}",
    ),
    (
        "ann",
        "COPY /books/sales/p.vcf HTTP/1.1\r\nDestination: /books/sales/a.vcf",
        "",
        CREATED,
        "",
    ),
    (
        "bob",
        "REPORT /books/sales/g.vcf HTTP/1.1",
        "{\"report\":\"group-members\"}",
        TOLD,
        "{\"members\":[{\"hrefs\":[\"/books/sales/a.vcf\",\"/books/sales/p.vcf\"],\"uri\":\"urn:uuid:p\"},{\"hrefs\":[],\"uri\":\"urn:uuid:q\"}],\"reached\":[\"/books/sales/a.vcf\",\"/books/sales/p.vcf\"]}",
    ),
    (
        "bob",
        "REPORT /books/sales/p.vcf HTTP/1.1",
        "{\"report\":\"group-members\"}",
        TOLD,
        "{\"members\":[],\"reached\":[]}",
    ),
    ("ann", "PUT /books/sales/f.vcf HTTP/1.1", BELL, CREATED, ""),
    (
        "ann",
        "ACL /books/sales/f.vcf HTTP/1.1",
        "{\"acl\":[{\"deny\":[\"all\"],\"principal\":\"owner\"},{\"deny\":[\"read\"],\"principal\":\"/people/bob\"}]}",
        DONE,
        "",
    ),
    (
        "ann",
        "REPORT /books/sales/f.vcf HTTP/1.1",
        "{\"principal\":\"/people/bob\",\"report\":\"effective\"}",
        TOLD,
        "{\"leaves\":[{\"entry\":{\"from\":\"/books/sales/f.vcf\",\"number\":3},\"grant\":false,\"privilege\":\"x-read-texts\"},{\"entry\":null,\"grant\":false,\"privilege\":\"write-content\"},{\"entry\":null,\"grant\":false,\"privilege\":\"write-properties\"},{\"entry\":{\"from\":\"/books/sales\",\"number\":4},\"grant\":true,\"privilege\":\"bind\"},{\"entry\":null,\"grant\":false,\"privilege\":\"unbind\"},{\"entry\":null,\"grant\":false,\"privilege\":\"read-acl\"},{\"entry\":null,\"grant\":false,\"privilege\":\"write-acl\"},{\"entry\":null,\"grant\":false,\"privilege\":\"read-current-user-privilege-set\"},{\"entry\":{\"from\":\"/books/sales/f.vcf\",\"number\":3},\"grant\":false,\"privilege\":\"x-read-names\"}]}",
    ),
];

/// The names of cards are told to who may read names alone: as they are written, without folds, in byte order of the
/// cards, and none of a card on which that is denied.
const NAMES: &[Turn<'static>] = &[
    ("ann", "PUT /books/sales/b.vcf HTTP/1.1", BO, CREATED, ""),
    (
        "ann",
        "ACL /books/sales HTTP/1.1",
        "{\"acl\":[{\"grant\":[\"x-read-names\"],\"principal\":\"/people/gus\"}]}",
        DONE,
        "",
    ),
    (
        "gus",
        "GET /books/sales/b.vcf HTTP/1.1",
        "",
        FORBIDDEN,
        "{\"entry\":null,\"error\":\"need-privileges\",\"privilege\":\"read\",\"resource\":\"/books/sales/b.vcf\"}",
    ),
    (
        "gus",
        "REPORT /books/sales HTTP/1.1",
        "{\"report\":\"names\"}",
        TOLD,
        "{\"names\":[{\"fn\":\"Bo\",\"href\":\"/books/sales/b.vcf\"}]}",
    ),
    (
        "bob",
        "REPORT /books/sales HTTP/1.1",
        "{\"report\":\"names\"}",
        FORBIDDEN,
        "{\"entry\":null,\"error\":\"need-privileges\",\"privilege\":\"x-read-names\",\"resource\":\"/books/sales\"}",
    ),
    ("ann", "PUT /books/sales/a.vcf HTTP/1.1", BELL, CREATED, ""),
    (
        "ann",
        "PUT /books/sales/c.vcf HTTP/1.1",
        "BEGIN:VCARD\r\nVERSION:4.0\r\nFN:Zoë\\, \"Z\"\r\nFN:Z\r\nEND:VCARD\r\n",
        CREATED,
        "",
    ),
    (
        "gus",
        "REPORT /books/sales HTTP/1.1",
        "{\"report\":\"names\"}",
        TOLD,
        "{\"names\":[{\"fn\":\"Ann Bell\",\"href\":\"/books/sales/a.vcf\"},{\"fn\":\"Bo\",\"href\":\"/books/sales/b.vcf\"},{\"fn\":\"Zoë\\\\, \\\"Z\\\"\",\"href\":\"/books/sales/c.vcf\"}]}",
    ),
    (
        "ann",
        "ACL /books/sales/a.vcf HTTP/1.1",
        "{\"acl\":[{\"grant\":[\"x-read-texts\"],\"principal\":\"all\"},{\"deny\":[\"read\"],\"principal\":\"/people/gus\"}]}",
        DONE,
        "",
    ),
    (
        "gus",
        "REPORT /books/sales HTTP/1.1",
        "{\"report\":\"names\"}",
        TOLD,
        "{\"names\":[{\"fn\":\"Bo\",\"href\":\"/books/sales/b.vcf\"},{\"fn\":\"Zoë\\\\, \\\"Z\\\"\",\"href\":\"/books/sales/c.vcf\"}]}",
    ),
    (
        "gus",
        "GET /books/sales/a.vcf HTTP/1.1",
        "",
        FORBIDDEN,
        "{\"entry\":{\"from\":\"/books/sales/a.vcf\",\"number\":3},\"error\":\"need-privileges\",\"privilege\":\"x-read-names\",\"resource\":\"/books/sales/a.vcf\"}",
    ),
];

/// Each form of a principal; entries that deny, that are inverted, that are protected. Ann may do all but where she is
/// not the owner and writes.
const FORMS_POLICY: &str = "\
version = 1
[[person]]
name = \"ann\"
[[person]]
name = \"bob\"
[[group]]
name = \"law\"
[[group]]
name = \"staff\"
members = [\"/people/bob\", \"/groups/law\"]
[[book]]
name = \"sales\"
owner = \"/people/ann\"
[[entry]]
at = \"/\"
who = \"owner\"
invert = true
deny = [\"write\"]
protected = true
[[entry]]
at = \"/\"
who = \"/people/ann\"
grant = [\"all\"]
[[entry]]
at = \"/people/ann\"
who = \"all\"
grant = [\"read\"]
[[entry]]
at = \"/people/ann\"
who = \"authenticated\"
grant = [\"read\"]
[[entry]]
at = \"/people/ann\"
who = \"unauthenticated\"
grant = [\"read\"]
[[entry]]
at = \"/people/ann\"
who = \"self\"
grant = [\"read\"]
";

/// A list of entries by their forms. An owner, members and a token, and null where there are none; a label with other
/// than ASCII characters as themselves.
const PROPERTIES: &[Turn<'static>] = &[
    (
        "ann",
        "PROPFIND /people/ann HTTP/1.1",
        "{\"prop\":[\"resourcetype\",\"acl\"]}",
        LISTED,
        "{\"responses\":[{\"href\":\"/people/ann\",\"prop\":{\"acl\":[{\"deny\":[\"write\"],\"inherited\":\"/\",\"invert\":\"owner\",\"protected\":true},{\"grant\":[\"read\"],\"principal\":\"all\"},{\"grant\":[\"read\"],\"principal\":\"authenticated\"},{\"grant\":[\"read\"],\"principal\":\"unauthenticated\"},{\"grant\":[\"read\"],\"principal\":\"self\"},{\"grant\":[\"all\"],\"inherited\":\"/\",\"principal\":\"/people/ann\"}],\"resourcetype\":\"person\"},\"status\":200}]}",
    ),
    (
        "ann",
        "PROPFIND / HTTP/1.1",
        "{\"prop\":[\"sync-token\",\"resourcetype\",\"owner\",\"group-member-set\"]}",
        LISTED,
        "{\"responses\":[{\"href\":\"/\",\"prop\":{\"group-member-set\":null,\"owner\":null,\"resourcetype\":\"root\",\"sync-token\":null},\"status\":200}]}",
    ),
    (
        "ann",
        "PROPFIND /groups HTTP/1.1\r\nDepth: 1",
        "{\"prop\":[\"resourcetype\",\"group-member-set\"]}",
        LISTED,
        "{\"responses\":[{\"href\":\"/groups\",\"prop\":{\"group-member-set\":null,\"resourcetype\":\"home\"},\"status\":200},{\"href\":\"/groups/law\",\"prop\":{\"group-member-set\":[],\"resourcetype\":\"group\"},\"status\":200},{\"href\":\"/groups/staff\",\"prop\":{\"group-member-set\":[\"/groups/law\",\"/people/bob\"],\"resourcetype\":\"group\"},\"status\":200}]}",
    ),
    (
        "ann",
        "PROPPATCH /books/sales HTTP/1.1",
        "{\"set\":{\"displayname\":\"Büro \\\"\\n\"}}",
        DONE,
        "",
    ),
    (
        "ann",
        "PROPFIND /books/sales HTTP/1.1",
        "{\"prop\":[\"owner\",\"sync-token\",\"displayname\"]}",
        LISTED,
        "{\"responses\":[{\"href\":\"/books/sales\",\"prop\":{\"displayname\":\"Büro \\\"\\n\",\"owner\":\"/people/ann\",\"sync-token\":\"data:,sales/1/0\"},\"status\":200}]}",
    ),
];

/// Adds a request, and the reply that is wanted.
fn push_turn(rt: &impl Abort, input: &mut String, wanted: &mut String, turn: &Turn<'_>) {
    let (caller, asked, body, status, reply) = *turn;
    let size = body.len();
    write!(
        input,
        "{asked}\r\nx-office-caller: {caller}\r\nContent-Length: {size}\r\n\r\n{body}"
    )
    .expect(rt, "memory");
    let size = reply.len();
    write!(
        wanted,
        "HTTP/1.1 {status}\r\nContent-Length: {size}\r\n\r\n{reply}"
    )
    .expect(rt, "memory");
}

fn check(rt: &impl Abort, alloc: Global, policy: &str, turns: &[Turn<'_>]) {
    let mut input = String::new(alloc);
    let mut wanted = String::new(alloc);
    for turn in turns {
        push_turn(rt, &mut input, &mut wanted, turn);
    }
    let answer = answered(rt, alloc, policy, input.as_str().as_bytes(), WHOLE);
    check_text(rt, answer.text.as_str(), wanted.as_str());
}

#[test]
fn requests_have_their_replies(rt: HostRuntime) {
    for (policy, turns) in [
        (POLICY, LISTINGS),
        (POLICY, LISTS_AND_CHANGES),
        (POLICY, OWN_REPORTS),
        (POLICY, NAMES),
        (FORMS_POLICY, PROPERTIES),
    ] {
        check(&rt, rt.alloc(), policy, turns);
    }
}
