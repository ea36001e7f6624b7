//! Questions: what the lines of an `explain` text ask.

ghost use Rattle.std.specs.Prelude.{◌≡◌, ◌⊎◌, ◌++◌, ◌∷◌, [], List, IfOk, IfErr, OnOk};
ghost use Rattle.book_lists_explain.specs.declared.lines.Line.{Line as SaidLine};
ghost use Rattle.book_lists_explain.specs.declared.faults.ExplainFaultKind.TheVariants.{Memory};
ghost use Rattle.book_lists_explain.specs.Lines.{OrMemory, Says, lines_of};
ghost use Rattle.book_lists_explain.specs.Questions.{IsQuestion, Fits, Excess, LineFault, LinesSay, FirstFault};

use crate::faults::{ExplainFault, ExplainFaultKind, fault_at};
use crate::lines::{Line, line_of, pieces};
use book_limits::{MAX_ENTRIES, MAX_MEMBERS};
use book_lists::{Caller, Entry, Here, Pairs};
use book_rights::LeafSet;
use std::alloc::Global;

/// What the lines so far ask.
#[derive(Drop)]
pub(crate) struct Question {
    pub(crate) pairs: Pairs,
    members: usize,
    pub(crate) caller: Option<Caller>,
    pub(crate) need: Option<LeafSet>,
    pub(crate) here: Here,
    pub(crate) entries: Vec<Entry>,
}

impl Question {
    fn new(alloc: Global) -> Question
        ensures { IsQuestion [] result }
    {
        Question {
            pairs: Pairs::new(alloc),
            members: 0,
            caller: None,
            need: None,
            here: Here {
                owner: None,
                principal: None,
            },
            entries: Vec::new(alloc),
        }
    }

    /// Adds what one more line says.
    fn take(&mut self, line: Line) -> Result<(), ExplainFaultKind>
        ensures taken { OnOk result ((said : List SaidLine) → IsQuestion said self.old
            → Fits said line × IsQuestion (said ++ line ∷ []) self.new) }
        ensures faulty { IfErr result (OrMemory
            (λ kind. (said : List SaidLine) → IsQuestion said self.old → Excess said line kind)) }
    {
        match line {
            Line::Blank => {}
            Line::Member(group, member) => {
                if self.members >= MAX_MEMBERS {
                    return Err(ExplainFaultKind::TooMany);
                }
                self.pairs.add(group, member)?;
                self.members += 1;
            }
            Line::Asks(caller) => {
                if self.caller.is_some() {
                    return Err(ExplainFaultKind::Twice);
                }
                self.caller = Some(caller);
            }
            Line::Need(set) => {
                if self.need.is_some() {
                    return Err(ExplainFaultKind::Twice);
                }
                self.need = Some(set);
            }
            Line::Owner(owner) => {
                if self.here.owner.is_some() {
                    return Err(ExplainFaultKind::Twice);
                }
                self.here.owner = Some(owner);
            }
            Line::Here(principal) => {
                if self.here.principal.is_some() {
                    return Err(ExplainFaultKind::Twice);
                }
                self.here.principal = Some(principal);
            }
            Line::Listed(entry) => {
                if self.entries.len() >= MAX_ENTRIES {
                    return Err(ExplainFaultKind::TooMany);
                }
                self.entries.push(entry)?;
            }
        }
        Ok(())
    }
}

impl Question {
    /// Reads one more line, and adds what it says.
    fn take_text(&mut self, alloc: Global, text: &str) -> Result<(), ExplainFaultKind>
        ensures taken { OnOk result ((said : List SaidLine) → IsQuestion said self.old
            → (line : SaidLine) × Says text.now line × Fits said line
            × IsQuestion (said ++ line ∷ []) self.new) }
        ensures faulty { IfErr result (OrMemory
            (λ kind. (said : List SaidLine) → IsQuestion said self.old
            → LineFault said text.now kind)) }
    {
        let line = line_of(alloc, text)?;
        self.take(line)
    }
}

pub(crate) fn read_question(alloc: Global, text: &str) -> Result<Question, ExplainFault>
    ensures read { IfOk result (λ question. (said : List SaidLine)
        × LinesSay [] (lines_of text.now) said × IsQuestion said question) }
    ensures faulty { IfErr result (λ fault. ((fault.kind ≡ Memory) × (fault.line ≡ 0))
        ⊎ FirstFault (lines_of text.now) fault.kind fault.line) }
{
    let lines = match pieces(alloc, text, '\n') {
        Ok(lines) => lines,
        Err(error) => return Err(fault_at(error.into(), 0)),
    };
    let mut question = Question::new(alloc);
    for (index, line) in lines.iter().enumerate() {
        if let Err(kind) = question.take_text(alloc, line) {
            return Err(fault_at(kind, index + 1));
        }
    }
    Ok(question)
}
