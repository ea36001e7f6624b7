//! Facts as objects, one on a line.

ghost use Rattle.std.specs.Prelude.{◌≡◌, ◌++◌, ◌∷◌, [], IfOk, OnOk, false, map, string_bytes};
ghost use Rattle.serde_json.specs.View.{view};
ghost use Rattle.serde_json.specs.Written.{has_float};
ghost use Rattle.book_questions_json.specs.Facts.{holder_fact, is_told, need_fact, verdict, who_facts, why_facts};
ghost use Rattle.book_questions_json.specs.Objects.{data_line, data_of, denial_data, number_data, object_line, objects_text};

use crate::arrays::names_value;
use crate::leaves::leaves_value;
use book_office_listings::{DecidingEntry, Denial};
use book_questions::{Holder, InForce, Why, WhyNeed, caller_text, first_denial, is_denied};
use book_questions_chains::Chain;
use book_rights::LeafSet;
use serde_json::{Value, json};
use std::alloc::{AllocError, Global};

/// Adds the text of a value without fractions, as a line.
pub(crate) fn push_line(alloc: Global, text: &mut String, value: &Value) -> Result<(), AllocError>
    requires { has_float (view value.now) ≡ false }
    ensures { OnOk result (string_bytes text.new ≡ string_bytes text.old ++ data_line
        (view value.now)) }
{
    let line = value.to_string(alloc)?;
    text.push_str(line.as_str())?;
    text.push_str("\n")
}

/// The number of an entry; null where none decides.
fn number_value(entry: &Option<DecidingEntry>) -> Value
    ensures { view result ≡ number_data entry.now }
{
    match entry {
        Some(entry) => Value::from(entry.number),
        None => Value::Null,
    }
}

/// A denial; null where nothing is denied.
fn denial_value(alloc: Global, denial: &Option<Denial>) -> Result<Value, AllocError>
    ensures { IfOk result (λ value. view value ≡ denial_data denial.now) }
{
    let Some(denial) = denial else {
        return Ok(Value::Null);
    };
    let number = number_value(&denial.entry);
    let resource = denial.resource.text(alloc)?;
    json!(in alloc; {
        "number": number,
        "privilege": denial.privilege.name(),
        "resource": resource.as_str()
    })
}

/// The verdict.
fn verdict_value(alloc: Global, denial: &Option<Denial>) -> Result<Value, AllocError>
    ensures { IfOk result (λ value. view value ≡ data_of (verdict denial.now)) }
{
    let denial = denial_value(alloc, denial)?;
    json!(in alloc; {"denied": denial})
}

/// Adds the verdict.
#[tactic(auto, using(crate::proofs::Floats::no_float))]
fn push_verdict(alloc: Global, text: &mut String, denial: &Option<Denial>) -> Result<(), AllocError>
    ensures { OnOk result (string_bytes text.new ≡
        string_bytes text.old ++ object_line (verdict denial.now)) }
{
    let value = verdict_value(alloc, denial)?;
    push_line(alloc, text, &value)
}

/// A need.
fn need_value(alloc: Global, chains: &[Chain], why: &WhyNeed) -> Result<Value, AllocError>
    ensures { IfOk result (λ value. view value ≡ data_of (need_fact chains.now why.now)) }
{
    let leaves = leaves_value(alloc, &why.force, chains, why.set, why.rulings.as_slice())?;
    let names = names_value(alloc, why.set)?;
    let resource = why.resource.text(alloc)?;
    json!(in alloc; {
        "leaves": leaves,
        "privileges": names,
        "resource": resource.as_str()
    })
}

/// Adds a need.
fn push_need(
    alloc: Global,
    text: &mut String,
    chains: &[Chain],
    why: &WhyNeed,
) -> Result<(), AllocError>
    ensures { OnOk result (string_bytes text.new ≡
        string_bytes text.old ++ object_line (need_fact chains.now why.now)) }
{
    let value = need_value(alloc, chains, why)?;
    push_line(alloc, text, &value)
}

/// Adds each need.
fn push_needs(
    alloc: Global,
    text: &mut String,
    chains: &[Chain],
    whys: &[WhyNeed],
) -> Result<(), AllocError>
    ensures { OnOk result (string_bytes text.new ≡
        string_bytes text.old ++ objects_text (map (need_fact chains.now) whys.now)) }
{
    for why in whys {
        push_need(alloc, text, chains, why)?;
    }
    Ok(())
}

/// The objects of the verdict and of each need.
pub(crate) fn why_lines(alloc: Global, why: &Why) -> Result<String, AllocError>
    ensures { IfOk result (λ text. string_bytes text ≡ objects_text (why_facts why.now)) }
{
    let denial = first_denial(why.needs.as_slice())?;
    let mut text = String::new(alloc);
    push_verdict(alloc, &mut text, &denial)?;
    push_needs(
        alloc,
        &mut text,
        why.chains.as_slice(),
        why.needs.as_slice(),
    )?;
    Ok(text)
}

/// A caller.
fn holder_value(
    alloc: Global,
    force: &InForce,
    set: LeafSet,
    holder: &Holder,
) -> Result<Value, AllocError>
    ensures { IfOk result (λ value. view value ≡ data_of (holder_fact force.now set holder.now)) }
{
    let leaves = leaves_value(
        alloc,
        force,
        holder.chains.as_slice(),
        set,
        holder.rulings.as_slice(),
    )?;
    json!(in alloc; {"caller": caller_text(&holder.caller), "leaves": leaves})
}

/// Adds a caller.
fn push_holder(
    alloc: Global,
    text: &mut String,
    force: &InForce,
    set: LeafSet,
    holder: &Holder,
) -> Result<(), AllocError>
    ensures { OnOk result (string_bytes text.new ≡
        string_bytes text.old ++ object_line (holder_fact force.now set holder.now)) }
{
    let value = holder_value(alloc, force, set, holder)?;
    push_line(alloc, text, &value)
}

/// Whether a caller is one of those who are told.
fn is_told(denied: bool, set: LeafSet, holder: &Holder) -> bool
    ensures { result ≡ is_told denied set holder.now }
{
    if denied {
        is_denied(set, holder)
    } else {
        !is_denied(set, holder)
    }
}

/// Adds a caller who is told.
fn push_told(
    alloc: Global,
    text: &mut String,
    denied: bool,
    force: &InForce,
    set: LeafSet,
    holder: &Holder,
) -> Result<(), AllocError>
    ensures { OnOk result (string_bytes text.new ≡ string_bytes text.old ++
        objects_text (who_facts denied force.now set (holder.now ∷ []))) }
{
    if is_told(denied, set, holder) {
        push_holder(alloc, text, force, set, holder)
    } else {
        Ok(())
    }
}

/// The objects of the callers to whom a set is granted, or of the others.
pub(crate) fn who_lines(
    alloc: Global,
    denied: bool,
    force: &InForce,
    set: LeafSet,
    holders: &[Holder],
) -> Result<String, AllocError>
    ensures { IfOk result (λ text. string_bytes text ≡
        objects_text (who_facts denied force.now set holders.now)) }
{
    let mut text = String::new(alloc);
    for holder in holders {
        push_told(alloc, &mut text, denied, force, set, holder)?;
    }
    Ok(text)
}
