//! Chains of memberships.

ghost use Rattle.std.specs.Prelude.{◌≡◌};
ghost use Rattle.std.specs.Option.{option_copied};
ghost use Rattle.book_questions_chains.specs.Chains.{chain_to, has_chain};

use book_lists::Principal;
use book_office_values::Items;

/// A chain of memberships from a group down to a caller (RFC 3744, section 2).
#[derive(Debug, Drop)]
pub struct Chain {
    /// The group; or the caller itself, where there is no member.
    pub group: Principal,
    /// A direct member of the group, a direct member of that, and so on down to the caller, who is the last.
    pub members: Items<Principal>,
}

/// The first of some chains that leads from a group.
pub(crate) fn chain_to<'a>(chains: &'a [Chain], group: &Principal) -> Option<&'a Chain>
    ensures { option_copied result ≡ chain_to chains.now group.now }
{
    chains.iter().find(|chain| chain.group == *group)
}

/// Whether one of some chains leads from a group.
pub(crate) fn has_chain(chains: &[Chain], group: &Principal) -> bool
    ensures { result ≡ has_chain chains.now group.now }
{
    chains.iter().any(|chain| chain.group == *group)
}
