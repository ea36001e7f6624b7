//! What is to be done, as the words and the policy's file say it: the policy is bytes that nobody has read yet.

ghost use Rattle.std.specs.Prelude.{IfOk, IfErr};
ghost use Rattle.book_desk_serving.specs.Works.{GivesNoTask, IsGiven, IsNotGiven, SpellsTask};

use crate::tasks::Task;
use book_desk_app::{Failure, InputFault, policy_of};
use book_office::Policy;
use std::alloc::Global;

/// What is to be done over a store.
#[derive(Clone, Copy, Debug, PartialEq, Eq)]
pub enum Work {
    /// Adopt the policy, and tell whether anything changed.
    Import,
    /// Tell the direct members of groups, and each resource with its owner and its lists.
    Audit,
    /// Adopt the policy, if there is one, and serve the requests on standard input.
    Pipe,
}

/// The policy that the bytes spell, if there are any.
///
/// # Errors
///
/// As `policy_of`.
pub fn given_policy(alloc: Global, bytes: Option<Vec<u8>>) -> Result<Option<Policy>, Failure>
    ensures policy { IfOk result (λ policy. IsGiven (λ given. given.items) bytes policy) }
    ensures refused { IfErr result (λ failure. IsNotGiven (λ given. given.items) bytes failure) }
{
    match bytes {
        Some(bytes) => Ok(Some(policy_of(alloc, bytes)?)),
        None => Ok(None),
    }
}

/// Reads the policy of the work. An audit has none.
///
/// # Errors
///
/// As `policy_of`; and `Input` where there is nothing to import.
pub fn task_of(alloc: Global, work: Work, bytes: Option<Vec<u8>>) -> Result<Task, Failure>
    ensures task { IfOk result (λ task. SpellsTask (λ given. given.items) work bytes task) }
    ensures refused { IfErr result (λ failure. GivesNoTask
        (λ given. given.items) work bytes failure) }
{
    match work {
        Work::Import => match bytes {
            Some(bytes) => Ok(Task::Import(policy_of(alloc, bytes)?)),
            None => Err(Failure::Input(InputFault::Read)),
        },
        Work::Audit => Ok(Task::Audit),
        Work::Pipe => Ok(Task::Pipe(given_policy(alloc, bytes)?)),
    }
}
