//! Refusals as their bodies tell them, each by its name.

use crate::checks::check_bytes;
use crate::texts::body_bytes;
use book_machine::{Content, Refusal};
use std::alloc::Global;
use std::process::Abort;

fn check(rt: &impl Abort, alloc: Global, refusal: Refusal, wanted: &str) {
    let text = body_bytes(rt, alloc, &Content::Refusal(refusal));
    check_bytes(rt, text.as_slice(), wanted.as_bytes());
}

/// The preconditions of RFC 3744 (section 8.1.1) and RFC 6578 (section 3.2) have their names there; the others are of
/// own profile.
#[test]
fn refusals_are_told_by_their_names(rt: HostRuntime) {
    let alloc = rt.alloc();
    let refusals = [
        (Refusal::BadRequest, "{\"error\":\"bad-request\"}"),
        (Refusal::UnknownCaller, "{\"error\":\"unknown-caller\"}"),
        (
            Refusal::NoProtectedAceConflict,
            "{\"error\":\"no-protected-ace-conflict\"}",
        ),
        (
            Refusal::NoInheritedAceConflict,
            "{\"error\":\"no-inherited-ace-conflict\"}",
        ),
        (
            Refusal::LimitedNumberOfAces,
            "{\"error\":\"limited-number-of-aces\"}",
        ),
        (
            Refusal::NotSupportedPrivilege,
            "{\"error\":\"not-supported-privilege\"}",
        ),
        (
            Refusal::RecognizedPrincipal,
            "{\"error\":\"recognized-principal\"}",
        ),
        (Refusal::ValidSyncToken, "{\"error\":\"valid-sync-token\"}"),
        (Refusal::NotFound, "{\"error\":\"not-found\"}"),
        (Refusal::NoParent, "{\"error\":\"no-parent\"}"),
        (Refusal::Overwrite, "{\"error\":\"overwrite\"}"),
        (Refusal::BodyOnMkcol, "{\"error\":\"body-on-mkcol\"}"),
        (Refusal::Full, "{\"error\":\"full\"}"),
        (Refusal::Unavailable, "{\"error\":\"unavailable\"}"),
    ];
    for (refusal, wanted) in refusals {
        check(&rt, alloc, refusal, wanted);
    }
}
