//! Rights that differ, as lines of text.

ghost use Rattle.std.specs.Prelude.{◌≡◌, ◌++◌, IfOk, OnOk, string_bytes};
ghost use Rattle.book_questions_rights.specs.Lines.{line};
ghost use Rattle.book_questions_differs.specs.Lines.{lines_at, party_lines};

use crate::forces::{Force, held};
use crate::parties::Party;
use book_lists::Caller;
use book_lists_explain::short_privileges;
use book_office_values::Text;
use book_questions::{caller_text, push_names};
use book_rights::LeafSet;
use std::alloc::{AllocError, Global};

/// Adds the line of a caller for a set of leaves, after two words; none for no leaf.
fn push_line(
    alloc: Global,
    text: &mut String,
    word: &str,
    head: &str,
    caller: &Caller,
    set: LeafSet,
) -> Result<(), AllocError>
    ensures { OnOk result (string_bytes text.new ≡
        string_bytes text.old ++ line (word.now ++ head.now) caller.now set) }
{
    if set == LeafSet::empty() {
        return Ok(());
    }
    let names = short_privileges(alloc, set)?;
    text.push_str(word)?;
    text.push_str(head)?;
    text.push_str(" ")?;
    text.push_str(caller_text(caller))?;
    push_names(text, &names)?;
    text.push_str("\n")
}

/// Adds the lines of a caller: what it holds before and not after, and what it holds after and not before.
fn push_party(
    alloc: Global,
    text: &mut String,
    head: &str,
    before: &Option<Force>,
    after: &Option<Force>,
    party: &Party,
) -> Result<(), AllocError>
    ensures { OnOk result (string_bytes text.new ≡
        string_bytes text.old ++ party_lines head.now before.now after.now party.now) }
{
    let was = held(before, &party.before);
    let is = held(after, &party.after);
    push_line(alloc, text, "lost ", head, &party.caller, was.minus(is))?;
    push_line(alloc, text, "gained ", head, &party.caller, is.minus(was))
}

/// The lines of each caller, each after the same words.
pub(crate) fn lines_at(
    alloc: Global,
    head: &str,
    before: &Option<Force>,
    after: &Option<Force>,
    parties: &[Party],
) -> Result<Text, AllocError>
    ensures { IfOk result (λ lines. lines ≡
        lines_at head.now before.now after.now parties.now) }
{
    let mut text = String::new(alloc);
    for party in parties {
        push_party(alloc, &mut text, head, before, after, party)?;
    }
    Ok(Text::from_string(text))
}
