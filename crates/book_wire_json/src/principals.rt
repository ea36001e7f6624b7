//! The texts of principals.

ghost use Rattle.std.specs.Prelude.{ℕ, List, IfOk, IfSome, IfNone, MatchOption, map};
ghost use Rattle.book_lists.specs.Principals.{IsPerson};
ghost use Rattle.book_wire_json.specs.Principals.{AllName, HasUnnamed, IsFormIn};
ghost use Rattle.book_lists_explain.specs.Lines.{Names};

use book_lists::{Principal, Who};
use book_office_values::Items;
use std::alloc::{AllocError, Global};

/// The principal form that the text is (RFC 3744, section 5.5.1); none where it is none. An error is want of memory.
pub(crate) fn form_in(alloc: Global, text: &str) -> Result<Option<Who>, AllocError>
    ensures { IfOk result (IsFormIn text.now) }
{
    match text {
        "all" => Ok(Some(Who::Everyone)),
        "authenticated" => Ok(Some(Who::Authenticated)),
        "unauthenticated" => Ok(Some(Who::Unauthenticated)),
        "owner" => Ok(Some(Who::Owner)),
        "self" => Ok(Some(Who::Own)),
        _ => match Principal::parse(alloc, text)? {
            Some(principal) => Ok(Some(Who::Href(principal))),
            None => Ok(None),
        },
    }
}

/// The principals that the texts name, in order, if each names one. An error is want of memory.
pub(crate) fn all_named(
    alloc: Global,
    texts: &[&str],
) -> Result<Option<Items<Principal>>, AllocError>
    ensures { IfOk result (λ found. MatchOption found
        (HasUnnamed (map (λ t. t.now) texts.now)) (AllName (map (λ t. t.now) texts.now))) }
{
    let mut found = Items::new(alloc);
    for text in texts {
        match Principal::parse(alloc, text)? {
            Some(principal) => found.push(principal)?,
            None => return Ok(None),
        }
    }
    Ok(Some(found))
}

/// The person that the text names, if it names one. An error is want of memory.
pub(crate) fn person_in(alloc: Global, text: &str) -> Result<Option<Principal>, AllocError>
    ensures named { IfOk result (λ found. IfSome found
        (λ path. IsPerson path × Names text.now path)) }
    ensures none { IfOk result (λ found. IfNone found
        ((path : List ℕ) → IsPerson path → Names text.now path → ⊥)) }
{
    match Principal::parse(alloc, text)? {
        Some(principal) => {
            if principal.is_group() {
                Ok(None)
            } else {
                Ok(Some(principal))
            }
        }
        None => Ok(None),
    }
}
