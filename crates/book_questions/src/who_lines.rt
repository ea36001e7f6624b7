//! Who is told, as lines of text.

ghost use Rattle.std.specs.Prelude.{◌≡◌, ◌++◌, IfOk, OnOk, string_bytes};
ghost use Rattle.book_questions.specs.Who.{caller_text, holder_lines, is_denied, told_lines, who_text};

use crate::denials::earliest;
use crate::holders::Holder;
use crate::lines::push_set;
use crate::whys::InForce;
use book_lists::Caller;
use book_rights::LeafSet;
use std::alloc::{AllocError, Global};

/// The text of a caller: the path of a person, or `nobody`.
pub fn caller_text(caller: &Caller) -> &str
    ensures { result.now ≡ caller_text caller.now }
{
    match caller {
        Caller::Nobody => "nobody",
        Caller::Known(person) => person.text(),
    }
}

/// Adds the lines of a caller.
fn push_holder(
    alloc: Global,
    text: &mut String,
    force: &InForce,
    set: LeafSet,
    holder: &Holder,
) -> Result<(), AllocError>
    ensures { OnOk result (string_bytes text.new ≡
        string_bytes text.old ++ holder_lines force.now set holder.now) }
{
    text.push_str(caller_text(&holder.caller))?;
    text.push_str("\n")?;
    push_set(
        alloc,
        text,
        force,
        holder.chains.as_slice(),
        set,
        holder.rulings.as_slice(),
    )
}

/// Whether a leaf of the set is not granted.
pub fn is_denied(set: LeafSet, holder: &Holder) -> bool
    ensures { result ≡ is_denied set holder.now }
{
    earliest(holder.rulings.as_slice(), set).is_some()
}

/// Adds the lines of a caller to whom the set is granted, or of one to whom it is denied.
fn push_told(
    alloc: Global,
    text: &mut String,
    denied: bool,
    force: &InForce,
    set: LeafSet,
    holder: &Holder,
) -> Result<(), AllocError>
    ensures { OnOk result (string_bytes text.new ≡
        string_bytes text.old ++ told_lines denied force.now set holder.now) }
{
    let told = if denied {
        is_denied(set, holder)
    } else {
        !is_denied(set, holder)
    };
    if told {
        push_holder(alloc, text, force, set, holder)
    } else {
        Ok(())
    }
}

/// The lines of each caller to whom the set is granted, or of each other.
pub(crate) fn who_text(
    alloc: Global,
    denied: bool,
    force: &InForce,
    set: LeafSet,
    holders: &[Holder],
) -> Result<String, AllocError>
    ensures { IfOk result (λ text. string_bytes text ≡ who_text denied force.now set holders.now) }
{
    let mut text = String::new(alloc);
    for holder in holders {
        push_told(alloc, &mut text, denied, force, set, holder)?;
    }
    Ok(text)
}
