//! What is asked of a machine, and what it answers.

use crate::faults::failures::Failure;
use crate::faults::requests::request;
use crate::faults::worked_list::Step;
use crate::policies::{NEW_BOOKS, TWO_BOOKS};
use book_machine::{AdoptFault, Adopted, Content, Machine, Reply, Request};
use book_office::{Keeper, Policy};
use book_policy::{PolicyFault, read_policy};
use std::alloc::{AllocError, Global};

/// What is asked of a machine.
#[derive(Drop)]
pub(crate) enum Question {
    /// That it adopts a policy.
    Policy(Policy),
    /// The reply to a request of a caller, where `-` is nobody.
    Request(&'static str, Request),
}

/// The name of a caller, where `-` is nobody.
fn name_of(caller: &str) -> Option<&str> {
    match caller {
        "-" => None,
        name => Some(name),
    }
}

/// The policy of the two books, and whether ann makes and removes books.
fn policy(alloc: Global, wider: bool) -> Result<Policy, Failure> {
    let end = if wider { NEW_BOOKS } else { "" };
    let text = format!(in alloc; "{TWO_BOOKS}{end}")?;
    match read_policy(alloc, text.as_str()) {
        Ok(policy) => Ok(policy),
        Err(PolicyFault::Memory) => Err(Failure::Memory),
        Err(_) => Err(Failure::Wrong("a policy is none")),
    }
}

impl Question {
    pub(crate) fn of(alloc: Global, step: Step) -> Result<Question, Failure> {
        match step {
            Step::Adopt(wider) => Ok(Question::Policy(policy(alloc, wider)?)),
            Step::Ask(caller, method, path, says) => {
                Ok(Question::Request(caller, request(alloc, method, path, says)?))
            }
        }
    }

    /// Asks the machine, and tells the answer.
    pub(crate) fn told<K: Keeper>(
        &self,
        alloc: Global,
        machine: &mut Machine<K>,
    ) -> Result<Told, AllocError> {
        let answer = self.ask(alloc, machine);
        let (text, number, word) = (answer.text(alloc), answer.number(), answer.word());
        drop(answer);
        Ok(Told {
            text: text?,
            number,
            word,
        })
    }

    /// Asks the machine; whether that was unavailable.
    pub(crate) fn is_unavailable<K: Keeper>(
        &self,
        alloc: Global,
        machine: &mut Machine<K>,
    ) -> bool {
        let answer = self.ask(alloc, machine);
        let is_unavailable = answer.is_unavailable();
        drop(answer);
        is_unavailable
    }

    /// Asks the machine.
    pub(crate) fn ask<K: Keeper>(&self, alloc: Global, machine: &mut Machine<K>) -> Answer {
        match self {
            Question::Policy(policy) => Answer::Adoption(machine.adopt(alloc, policy)),
            Question::Request(caller, request) => {
                Answer::Reply(machine.serve(alloc, name_of(caller), request))
            }
        }
    }
}

/// What is told of an answer.
#[derive(Drop)]
pub(crate) struct Told {
    /// All of it.
    pub(crate) text: String,
    pub(crate) number: u64,
    pub(crate) word: &'static str,
}

/// What a machine answers.
#[derive(Debug, Drop)]
pub(crate) enum Answer {
    Adoption(Result<Adopted, AdoptFault>),
    Reply(Reply),
}

impl Answer {
    /// The status of a reply; the epoch after an adoption, and 0 where there was none.
    pub(crate) fn number(&self) -> u64 {
        match self {
            Answer::Adoption(Ok(adopted)) => adopted.epoch,
            Answer::Adoption(Err(_)) => 0,
            Answer::Reply(reply) => u64::from(reply.status),
        }
    }

    /// The name of the refusal, and no word where a reply is none; whether an adoption changed the Office, or its fault.
    pub(crate) fn word(&self) -> &'static str {
        match self {
            Answer::Adoption(Ok(adopted)) if adopted.changed => "changed",
            Answer::Adoption(Ok(_)) => "unchanged",
            Answer::Adoption(Err(AdoptFault::Full)) => "full",
            Answer::Adoption(Err(AdoptFault::Unavailable)) => "unavailable",
            Answer::Reply(reply) => match &reply.content {
                Content::Refusal(refusal) => refusal.name(),
                _ => "",
            },
        }
    }

    pub(crate) fn is_unavailable(&self) -> bool {
        self.word() == "unavailable"
    }

    /// All that is told.
    pub(crate) fn text(&self, alloc: Global) -> Result<String, AllocError> {
        format!(in alloc; "{self:?}")
    }
}
