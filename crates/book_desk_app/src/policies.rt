//! The policy that bytes spell.

ghost use Rattle.std.specs.Prelude.{IfOk, IfErr};
ghost use Rattle.book_desk_app.specs.Policies.{GivesNoPolicy, SpellsPolicy};

use crate::failures::Failure;
use crate::text_failures::InputFault;
use book_office::Policy;
use book_policy::read_policy;
use std::alloc::Global;

/// The policy that the bytes of a file spell. Of the bytes no copy is made.
///
/// # Errors
///
/// `Input` where they are not UTF-8, else `Policy` with the fault of the text.
pub fn policy_of(alloc: Global, bytes: Vec<u8>) -> Result<Policy, Failure>
    ensures policy { IfOk result (λ policy. SpellsPolicy bytes.items policy) }
    ensures refused { IfErr result (λ failure. GivesNoPolicy bytes.items failure) }
{
    let Ok(text) = String::from_utf8(bytes) else {
        return Err(Failure::Input(InputFault::NotUtf8));
    };
    match read_policy(alloc, text.as_str()) {
        Ok(policy) => Ok(policy),
        Err(fault) => Err(Failure::Policy(fault)),
    }
}
