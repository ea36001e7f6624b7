//! Rights as lines of text.

ghost use Rattle.std.specs.Prelude.{◌≡◌, ◌++◌, IfOk, OnOk, string_bytes};
ghost use Rattle.std.specs.List.{list_any};
ghost use Rattle.book_questions_rights.specs.Lines.{asker_line, gains, granted_by, line, lines_at};

use crate::askers::Asker;
use book_lists::{Caller, Circle, Entry, Here, granted};
use book_lists_explain::short_privileges;
use book_office_values::Text;
use book_questions::{caller_text, push_names};
use book_rights::LeafSet;
use std::alloc::{AllocError, Global};

/// The leaves that the entries grant, as a set.
pub fn granted_by(entries: &[Entry], circle: &Circle, here: &Here) -> LeafSet
    ensures { result ≡ granted_by entries.now circle.now here.now }
{
    granted(entries, circle, here)
}

/// Adds the line of a caller to whom leaves are granted; none of one to whom none is.
fn push_line(
    alloc: Global,
    text: &mut String,
    head: &str,
    caller: &Caller,
    set: LeafSet,
) -> Result<(), AllocError>
    ensures { OnOk result (string_bytes text.new ≡
        string_bytes text.old ++ line head.now caller.now set) }
{
    if set == LeafSet::empty() {
        return Ok(());
    }
    let names = short_privileges(alloc, set)?;
    text.push_str(head)?;
    text.push_str(" ")?;
    text.push_str(caller_text(caller))?;
    push_names(text, &names)?;
    text.push_str("\n")
}

/// Adds the line of one who is asked about.
fn push_asker(
    alloc: Global,
    text: &mut String,
    head: &str,
    entries: &[Entry],
    here: &Here,
    asker: &Asker,
) -> Result<(), AllocError>
    ensures { OnOk result (string_bytes text.new ≡
        string_bytes text.old ++ asker_line head.now entries.now here.now asker.now) }
{
    let set = granted_by(entries, &asker.circle, here);
    push_line(alloc, text, head, &asker.caller, set)
}

/// The lines of those who are asked about, each after the same words.
pub(crate) fn lines_at(
    alloc: Global,
    head: &str,
    entries: &[Entry],
    here: &Here,
    askers: &[Asker],
) -> Result<Text, AllocError>
    ensures { IfOk result (λ lines. lines ≡ lines_at head.now entries.now here.now askers.now) }
{
    let mut text = String::new(alloc);
    for asker in askers {
        push_asker(alloc, &mut text, head, entries, here, asker)?;
    }
    Ok(Text::from_string(text))
}

/// Whether some entries grant a leaf that others do not.
fn gains(entries: &[Entry], others: &[Entry], here: &Here, asker: &Asker) -> bool
    ensures { result ≡ gains entries.now others.now here.now asker.now }
{
    let set = granted_by(entries, &asker.circle, here);
    let without = granted_by(others, &asker.circle, here);
    set.minus(without) != LeafSet::empty()
}

/// Whether some entries grant somebody a leaf that others do not.
pub(crate) fn any_gains(entries: &[Entry], others: &[Entry], here: &Here, askers: &[Asker]) -> bool
    ensures { result ≡ list_any (gains entries.now others.now here.now) askers.now }
{
    askers
        .iter()
        .any(|asker| gains(entries, others, here, asker))
}
