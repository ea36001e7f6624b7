//! A run of the worked list in which nothing fails, to which the other runs are compared.

use crate::faults::failures::{Failure, check};
use crate::faults::turns::{Answer, Question, Told};
use crate::faults::worked_list::{Line, PARTS};
use crate::offices::office_text;
use book_machine::Machine;
use book_office::{Items, Keeper};
use std::alloc::Global;

/// All that a keeper tells of its Office.
fn described<K: Keeper>(alloc: Global, keeper: &mut K) -> Result<String, Failure> {
    office_text(alloc, keeper)
        .ok()
        .ok_or(Failure::Wrong("an Office is not told"))
}

/// A turn of the run.
#[derive(Drop)]
pub(crate) struct Turn {
    pub(crate) question: Question,
    /// The Office before it.
    pub(crate) before: String,
    pub(crate) answer: Told,
    /// The Office after it.
    pub(crate) after: String,
    /// Whether the answer is that of the example.
    pub(crate) is_right: bool,
}

impl Turn {
    /// The answer has to be that of the run.
    pub(crate) fn check_answer(&self, alloc: Global, answer: &Answer) -> Result<(), Failure> {
        check(answer.text(alloc)? == self.answer.text, "an answer differs")
    }

    /// The keeper has to have the Office before the turn.
    pub(crate) fn check_before<K: Keeper>(
        &self,
        alloc: Global,
        keeper: &mut K,
    ) -> Result<(), Failure> {
        let told = described(alloc, keeper)?;
        check(
            told == self.before,
            "what was unavailable has changed the Office",
        )
    }

    /// The keeper has to have the Office after the turn.
    pub(crate) fn check_after<K: Keeper>(
        &self,
        alloc: Global,
        keeper: &mut K,
    ) -> Result<(), Failure> {
        let told = described(alloc, keeper)?;
        check(told == self.after, "the Office after an answer differs")
    }

    /// The machine has to answer as in the run.
    pub(crate) fn check_again<K: Keeper>(
        &self,
        alloc: Global,
        machine: &mut Machine<K>,
    ) -> Result<(), Failure> {
        let answer = self.question.ask(alloc, machine);
        let checked = self.check_answer(alloc, &answer);
        drop(answer);
        checked
    }
}

/// What is told of a turn: the Office before it, the answer, and the Office after it.
fn told_of<K: Keeper>(
    alloc: Global,
    machine: &mut Machine<K>,
    question: &Question,
) -> Result<(String, Told, String), Failure> {
    let before = described(alloc, &mut machine.keeper)?;
    let answer = question.told(alloc, machine)?;
    let after = described(alloc, &mut machine.keeper)?;
    Ok((before, answer, after))
}

/// Takes a turn.
fn taken<K: Keeper>(alloc: Global, machine: &mut Machine<K>, line: Line) -> Result<Turn, Failure> {
    let (step, number, word) = line;
    let question = Question::of(alloc, step)?;
    match told_of(alloc, machine, &question) {
        Ok((before, answer, after)) => {
            let is_right = answer.number == number && answer.word == word;
            Ok(Turn {
                question,
                before,
                answer,
                after,
                is_right,
            })
        }
        Err(failure) => {
            drop(question);
            Err(failure)
        }
    }
}

fn take_part<K: Keeper>(
    alloc: Global,
    machine: &mut Machine<K>,
    turns: &mut Items<Turn>,
    part: &[Line],
) -> Result<(), Failure> {
    for line in part {
        turns.push(taken(alloc, machine, *line)?)?;
    }
    Ok(())
}

/// The turns of the whole list.
pub(crate) fn take_list<K: Keeper>(
    alloc: Global,
    machine: &mut Machine<K>,
) -> Result<Items<Turn>, Failure> {
    let mut turns = Items::new(alloc);
    for part in PARTS {
        take_part(alloc, machine, &mut turns, part)?;
    }
    Ok(turns)
}
