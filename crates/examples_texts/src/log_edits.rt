//! What the line of an edit tells: the cards that it touched, each with its number, and the epoch after it.

use crate::log_serving::{
    CARD, check_noted, check_served, check_taken, kept_by, output_of, request,
};
use book_machine::{Body, Patch};
use book_office_values::{Items, Path, Text};
use book_rights::Method;
use book_wire_serving::Service;
use std::alloc::Global;
use std::process::Abort;

/// Ann may do all.
const POLICY: &str = "\
version = 1
[[person]]
name = \"ann\"
[[group]]
name = \"guests\"
[[book]]
name = \"sales\"
[[book]]
name = \"team\"
[[entry]]
at = \"/\"
who = \"/people/ann\"
grant = [\"all\"]
protected = true
";

/// What is in a body.
#[derive(Clone, Copy, Debug, PartialEq, Eq)]
enum Has {
    Nothing,
    Card,
    Label,
    List,
    Members,
}

/// Edits, one after the other: method, path, destination, body, and the status of the reply. Two are refused: one into a
/// book that is not there, and a MOVE of a card to itself.
const EDITS: [(Method, &str, Option<&str>, Has, u16); 14] = [
    (Method::Put, "/books/sales/a", None, Has::Card, 201),
    (Method::Put, "/books/sales/a", None, Has::Card, 204),
    (
        Method::Move,
        "/books/sales/a",
        Some("/books/sales/b"),
        Has::Nothing,
        201,
    ),
    (
        Method::Move,
        "/books/sales/b",
        Some("/books/team/b"),
        Has::Nothing,
        201,
    ),
    (
        Method::Copy,
        "/books/team/b",
        Some("/books/sales/a"),
        Has::Nothing,
        201,
    ),
    (Method::Proppatch, "/books/sales/a", None, Has::Label, 200),
    (Method::Proppatch, "/books/sales", None, Has::Label, 200),
    (Method::Acl, "/books/sales", None, Has::List, 200),
    (Method::Proppatch, "/groups/guests", None, Has::Members, 200),
    (Method::Put, "/books/none/a", None, Has::Card, 409),
    (
        Method::Move,
        "/books/sales/a",
        Some("/books/sales/a"),
        Has::Nothing,
        400,
    ),
    (Method::Delete, "/books/sales/a", None, Has::Nothing, 204),
    (Method::Mkcol, "/books/made", None, Has::Nothing, 201),
    (Method::Delete, "/books/sales", None, Has::Nothing, 204),
];

/// Their lines: within a book a MOVE takes two numbers, and between books one of each. An own list, members and the end of a
/// book raise the epoch.
const LOG: &str =
    "{\"time\":\"2026-11-29T09:00:00.000Z\",\"connection\":0,\"caller\":\"ann\",\"method\":\"PUT\",\"path\":\"/books/sales/a\",\"status\":201,\"touched\":[{\"path\":\"/books/sales/a\",\"number\":1}],\"epoch\":1}\n\
    {\"time\":\"2026-11-29T09:00:00.000Z\",\"connection\":0,\"caller\":\"ann\",\"method\":\"PUT\",\"path\":\"/books/sales/a\",\"status\":204,\"touched\":[{\"path\":\"/books/sales/a\",\"number\":2}],\"epoch\":1}\n\
    {\"time\":\"2026-11-29T09:00:00.000Z\",\"connection\":0,\"caller\":\"ann\",\"method\":\"MOVE\",\"path\":\"/books/sales/a\",\"destination\":\"/books/sales/b\",\"status\":201,\"touched\":[{\"path\":\"/books/sales/a\",\"number\":3},{\"path\":\"/books/sales/b\",\"number\":4}],\"epoch\":1}\n\
    {\"time\":\"2026-11-29T09:00:00.000Z\",\"connection\":0,\"caller\":\"ann\",\"method\":\"MOVE\",\"path\":\"/books/sales/b\",\"destination\":\"/books/team/b\",\"status\":201,\"touched\":[{\"path\":\"/books/sales/b\",\"number\":5},{\"path\":\"/books/team/b\",\"number\":1}],\"epoch\":1}\n\
    {\"time\":\"2026-11-29T09:00:00.000Z\",\"connection\":0,\"caller\":\"ann\",\"method\":\"COPY\",\"path\":\"/books/team/b\",\"destination\":\"/books/sales/a\",\"status\":201,\"touched\":[{\"path\":\"/books/sales/a\",\"number\":6}],\"epoch\":1}\n\
    {\"time\":\"2026-11-29T09:00:00.000Z\",\"connection\":0,\"caller\":\"ann\",\"method\":\"PROPPATCH\",\"path\":\"/books/sales/a\",\"status\":200,\"touched\":[{\"path\":\"/books/sales/a\",\"number\":7}],\"epoch\":1}\n\
    {\"time\":\"2026-11-29T09:00:00.000Z\",\"connection\":0,\"caller\":\"ann\",\"method\":\"PROPPATCH\",\"path\":\"/books/sales\",\"status\":200,\"epoch\":1}\n\
    {\"time\":\"2026-11-29T09:00:00.000Z\",\"connection\":0,\"caller\":\"ann\",\"method\":\"ACL\",\"path\":\"/books/sales\",\"status\":200,\"epoch\":2}\n\
    {\"time\":\"2026-11-29T09:00:00.000Z\",\"connection\":0,\"caller\":\"ann\",\"method\":\"PROPPATCH\",\"path\":\"/groups/guests\",\"status\":200,\"epoch\":3}\n\
    {\"time\":\"2026-11-29T09:00:00.000Z\",\"connection\":0,\"caller\":\"ann\",\"method\":\"PUT\",\"path\":\"/books/none/a\",\"status\":409,\"error\":\"no-parent\"}\n\
    {\"time\":\"2026-11-29T09:00:00.000Z\",\"connection\":0,\"caller\":\"ann\",\"method\":\"MOVE\",\"path\":\"/books/sales/a\",\"destination\":\"/books/sales/a\",\"status\":400,\"error\":\"bad-request\"}\n\
    {\"time\":\"2026-11-29T09:00:00.000Z\",\"connection\":0,\"caller\":\"ann\",\"method\":\"DELETE\",\"path\":\"/books/sales/a\",\"status\":204,\"touched\":[{\"path\":\"/books/sales/a\",\"number\":8}],\"epoch\":3}\n\
    {\"time\":\"2026-11-29T09:00:00.000Z\",\"connection\":0,\"caller\":\"ann\",\"method\":\"MKCOL\",\"path\":\"/books/made\",\"status\":201,\"epoch\":3}\n\
    {\"time\":\"2026-11-29T09:00:00.000Z\",\"connection\":0,\"caller\":\"ann\",\"method\":\"DELETE\",\"path\":\"/books/sales\",\"status\":204,\"epoch\":4}\n";

fn body(rt: &impl Abort, alloc: Global, has: Has) -> Body {
    match has {
        Has::Nothing => Body::Empty,
        Has::Card => Body::Text(Text::copy_of(alloc, CARD).expect(rt, "memory")),
        Has::Label => Body::Patch(Patch::DisplayName(Text::copy_of(alloc, "Label").expect(
            rt, "memory",
        ))),
        Has::List => Body::List(Items::new(alloc)),
        Has::Members => Body::Patch(Patch::GroupMembers(Items::new(alloc))),
    }
}

#[test]
fn lines_tell_what_edits_did(rt: HostRuntime) {
    let alloc = rt.alloc();
    let mut kept = kept_by(&rt, alloc, POLICY, output_of(alloc, 1_000, 1_000), 0, 0);
    for (method, path, destination, has, status) in EDITS {
        let to = match destination {
            Some(text) => Path::parse(alloc, text).ok(),
            None => None,
        };
        let mut asked = request(&rt, alloc, method, path, body(&rt, alloc, has));
        asked.destination = to;
        check_served(&rt, alloc, &mut kept, Some("ann"), asked, status);
        check_noted(&rt, &mut kept, true, Ok(()));
    }
    check_taken(&rt, kept, LOG.as_bytes());
}
