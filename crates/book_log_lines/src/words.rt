//! Methods, adoptions and principal forms, as a log names them.

ghost use Rattle.std.specs.Prelude.{◌≡◌};
ghost use Rattle.book_log_lines.specs.Words.{action_key, adoption_name, form_key, form_text, method_name};

use crate::lines::Adoption;
use book_lists::Who;
use book_rights::Method;

/// The name of a method (RFC 9110, section 9.1).
pub fn method_name(method: Method) -> &'static str
    ensures { result.now ≡ method_name method }
{
    match method {
        Method::Get => "GET",
        Method::Head => "HEAD",
        Method::Options => "OPTIONS",
        Method::Put => "PUT",
        Method::Propfind => "PROPFIND",
        Method::Proppatch => "PROPPATCH",
        Method::Acl => "ACL",
        Method::Copy => "COPY",
        Method::Move => "MOVE",
        Method::Delete => "DELETE",
        Method::Mkcol => "MKCOL",
        Method::Report => "REPORT",
    }
}

/// The word for what came of adopting a policy.
pub(crate) fn adoption_name(adoption: Adoption) -> &'static str
    ensures { result.now ≡ adoption_name adoption }
{
    match adoption {
        Adoption::Changed => "changed",
        Adoption::Unchanged => "unchanged",
        Adoption::Full => "full",
        Adoption::Unavailable => "unavailable",
    }
}

/// The path of a principal, or the word for a principal form (RFC 3744, section 5.5.1).
pub(crate) fn form_text(who: &Who) -> &str
    ensures { result.now ≡ form_text who.now }
{
    match who {
        Who::Href(principal) => principal.text(),
        Who::Everyone => "all",
        Who::Authenticated => "authenticated",
        Who::Unauthenticated => "unauthenticated",
        Who::Owner => "owner",
        Who::Own => "self",
    }
}

/// The key of the privileges of an entry.
pub(crate) fn action_key(deny: bool) -> &'static str
    ensures { result.now ≡ action_key deny }
{
    if deny { "deny" } else { "grant" }
}

/// The key of the principal form of an entry.
pub(crate) fn form_key(invert: bool) -> &'static str
    ensures { result.now ≡ form_key invert }
{
    if invert { "invert" } else { "principal" }
}
