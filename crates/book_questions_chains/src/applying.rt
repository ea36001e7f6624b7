//! By which chain an entry applies.

ghost use Rattle.std.specs.Prelude.{◌≡◌};
ghost use Rattle.std.specs.Option.{option_copied};
ghost use Rattle.book_questions_chains.specs.Chains.{asked_by, chain_by};

use crate::chains::{Chain, chain_to};
use book_lists::{Entry, Here, Principal, Who};

/// The principal to which an entry asks the caller to belong, if it asks for one.
fn asked_by<'a>(entry: &'a Entry, here: &'a Here) -> Option<&'a Principal>
    ensures { option_copied result ≡ asked_by entry.now here.now }
{
    if entry.invert {
        return None;
    }
    match &entry.who {
        Who::Href(principal) => Some(principal),
        Who::Everyone | Who::Authenticated | Who::Unauthenticated => None,
        Who::Owner => here.owner.as_ref(),
        Who::Own => here.principal.as_ref(),
    }
}

/// The chain by which an entry applies, if it asks for a principal to which one of the chains leads.
pub fn chain_by<'a>(here: &Here, chains: &'a [Chain], entry: &Entry) -> Option<&'a Chain>
    ensures { option_copied result ≡ chain_by here.now chains.now entry.now }
{
    let principal = asked_by(entry, here)?;
    chain_to(chains, principal)
}
