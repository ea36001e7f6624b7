//! Decisions as lines of text.

ghost use Rattle.std.specs.Prelude.{◌≡◌, ◌++◌, ◌<◌, length, decimal, IfOk, OnOk, string_bytes};
ghost use Rattle.std.specs.List.{flat_map};
ghost use Rattle.book_lists_explain.specs.Answers.{spaced};
ghost use Rattle.book_questions.specs.Lines.{by_text, decided_lines, decision_word, need_lines, numbered_lines, ruled_lines, ruling_lines, set_lines, standing_lines, verdict_line, why_text};

use crate::denials::first_denial;
use crate::places::count_in;
use crate::whys::{InForce, Why, WhyNeed};
use book_lists_explain::short_privileges;
use book_office::EffectiveEntry;
use book_office_audit::push_entry;
use book_office_listings::{DecidingEntry, Denial, Ruling};
use book_questions_chains::{Chain, push_chain_by};
use book_rights::{LeafSet, Privilege};
use std::alloc::{AllocError, Global};

/// Adds a number.
fn push_number(alloc: Global, text: &mut String, number: usize) -> Result<(), AllocError>
    ensures { OnOk result (string_bytes text.new ≡ string_bytes text.old ++ decimal number) }
{
    let digits = format!(in alloc; "{number}")?;
    text.push_str(digits.as_str())
}

/// Adds the entry at an index: its number where it stands, that resource, and the entry as an audit has it.
fn push_standing(
    alloc: Global,
    text: &mut String,
    force: &InForce,
    chains: &[Chain],
    index: usize,
    entry: &EffectiveEntry,
) -> Result<(), AllocError>
    requires { index < length force.now.list }
    ensures { OnOk result (string_bytes text.new ≡
        string_bytes text.old ++ standing_lines force.now chains.now index entry.now) }
{
    let place = entry.path.text(alloc)?;
    let number = count_in(
        alloc,
        place.as_str(),
        entry.protected,
        &force.list.as_slice()[..index],
    )? + 1;
    text.push_str(", ")?;
    push_number(alloc, text, number)?;
    text.push_str(" at ")?;
    text.push_str(place.as_str())?;
    text.push_str("\n")?;
    push_entry(alloc, text, entry.protected, &entry.entry)?;
    push_chain_by(text, &force.here, chains, &entry.entry)
}

/// Adds the entry with a number of the effective list, which counts from 1.
fn push_numbered(
    alloc: Global,
    text: &mut String,
    force: &InForce,
    chains: &[Chain],
    number: usize,
) -> Result<(), AllocError>
    ensures { OnOk result (string_bytes text.new ≡
        string_bytes text.old ++ numbered_lines force.now chains.now number) }
{
    if number == 0 {
        return text.push_str("\n");
    }
    let index = number - 1;
    match force.list.as_slice().get(index) {
        Some(entry) => push_standing(alloc, text, force, chains, index, entry),
        None => text.push_str("\n"),
    }
}

/// The word for what an entry decides.
fn decision_word(grant: bool) -> &'static str
    ensures { result.now ≡ decision_word grant }
{
    if grant { " granted by " } else { " denied by " }
}

/// Adds what decides a leaf, after its name.
fn push_decided(
    alloc: Global,
    text: &mut String,
    force: &InForce,
    chains: &[Chain],
    ruling: &Ruling,
) -> Result<(), AllocError>
    ensures { OnOk result (string_bytes text.new ≡
        string_bytes text.old ++ decided_lines force.now chains.now ruling.now.grant
        ruling.now.entry) }
{
    match &ruling.entry {
        None => text.push_str(" denied, none granted\n"),
        Some(entry) => {
            text.push_str(decision_word(ruling.grant))?;
            push_number(alloc, text, entry.number)?;
            push_numbered(alloc, text, force, chains, entry.number)
        }
    }
}

/// Adds the lines of a ruling.
fn push_ruling(
    alloc: Global,
    text: &mut String,
    force: &InForce,
    chains: &[Chain],
    ruling: &Ruling,
) -> Result<(), AllocError>
    ensures { OnOk result (string_bytes text.new ≡
        string_bytes text.old ++ ruling_lines force.now chains.now ruling.now) }
{
    text.push_str(" ")?;
    text.push_str(ruling.leaf.name())?;
    push_decided(alloc, text, force, chains, ruling)
}

/// Adds the lines of a ruling, where its leaf is one of the set.
fn push_ruled(
    alloc: Global,
    text: &mut String,
    force: &InForce,
    chains: &[Chain],
    set: LeafSet,
    ruling: &Ruling,
) -> Result<(), AllocError>
    ensures { OnOk result (string_bytes text.new ≡
        string_bytes text.old ++ ruled_lines force.now chains.now set ruling.now) }
{
    if set.has(ruling.leaf) {
        push_ruling(alloc, text, force, chains, ruling)
    } else {
        Ok(())
    }
}

/// Adds the lines of the rulings on the leaves of a set.
pub(crate) fn push_set(
    alloc: Global,
    text: &mut String,
    force: &InForce,
    chains: &[Chain],
    set: LeafSet,
    rulings: &[Ruling],
) -> Result<(), AllocError>
    ensures { OnOk result (string_bytes text.new ≡
        string_bytes text.old ++ set_lines force.now chains.now set rulings.now) }
{
    for ruling in rulings {
        push_ruled(alloc, text, force, chains, set, ruling)?;
    }
    Ok(())
}

/// Adds each name, after a space. An error is want of memory.
pub fn push_names(text: &mut String, names: &[Privilege]) -> Result<(), AllocError>
    ensures { OnOk result (string_bytes text.new ≡
        string_bytes text.old ++ flat_map spaced names.now) }
{
    for name in names {
        text.push_str(" ")?;
        text.push_str(name.name())?;
    }
    Ok(())
}

/// Adds the lines of a need.
fn push_need(
    alloc: Global,
    text: &mut String,
    chains: &[Chain],
    why: &WhyNeed,
) -> Result<(), AllocError>
    ensures { OnOk result (string_bytes text.new ≡
        string_bytes text.old ++ need_lines chains.now why.now) }
{
    let names = short_privileges(alloc, why.set)?;
    text.push_str("need")?;
    push_names(text, &names)?;
    text.push_str(" at ")?;
    why.resource.push_text(text)?;
    text.push_str("\n")?;
    push_set(
        alloc,
        text,
        &why.force,
        chains,
        why.set,
        why.rulings.as_slice(),
    )
}

/// Adds the lines of each need.
fn push_needs(
    alloc: Global,
    text: &mut String,
    chains: &[Chain],
    whys: &[WhyNeed],
) -> Result<(), AllocError>
    ensures { OnOk result (string_bytes text.new ≡ string_bytes text.old ++ flat_map
        (need_lines chains.now) whys.now) }
{
    for why in whys {
        push_need(alloc, text, chains, why)?;
    }
    Ok(())
}

/// Adds the entry of a denial.
fn push_by(
    alloc: Global,
    text: &mut String,
    entry: &Option<DecidingEntry>,
) -> Result<(), AllocError>
    ensures { OnOk result (string_bytes text.new ≡ string_bytes text.old ++ by_text entry.now) }
{
    match entry {
        None => text.push_str(", none granted\n"),
        Some(entry) => {
            text.push_str(" by ")?;
            push_number(alloc, text, entry.number)?;
            text.push_str("\n")
        }
    }
}

/// Adds the verdict.
fn push_verdict(alloc: Global, text: &mut String, denial: &Option<Denial>) -> Result<(), AllocError>
    ensures { OnOk result (string_bytes text.new ≡
        string_bytes text.old ++ verdict_line denial.now) }
{
    match denial {
        None => text.push_str("granted\n"),
        Some(denial) => {
            text.push_str("denied ")?;
            text.push_str(denial.privilege.name())?;
            text.push_str(" at ")?;
            denial.resource.push_text(text)?;
            push_by(alloc, text, &denial.entry)
        }
    }
}

/// The verdict, and then each need.
pub(crate) fn why_text(alloc: Global, why: &Why) -> Result<String, AllocError>
    ensures { IfOk result (λ text. string_bytes text ≡ why_text why.now) }
{
    let denial = first_denial(why.needs.as_slice())?;
    let mut text = String::new(alloc);
    let told = push_verdict(alloc, &mut text, &denial);
    drop(denial);
    told?;
    push_needs(
        alloc,
        &mut text,
        why.chains.as_slice(),
        why.needs.as_slice(),
    )?;
    Ok(text)
}
