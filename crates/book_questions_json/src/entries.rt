//! Entries that decide.

ghost use Rattle.std.specs.Prelude.{◌≡◌, ◌<◌, IfOk, None, length, option_map};
ghost use Rattle.book_office_audit.specs.EntryLines.{who_text};
ghost use Rattle.book_questions.specs.Lines.{number_there};
ghost use Rattle.serde_json.specs.View.{view};
ghost use Rattle.book_questions_json.specs.Facts.{decided_of, numbered, standing_of};
ghost use Rattle.book_questions_json.specs.Objects.{decided_data, entry_data, standing_data, standing_with};

use crate::arrays::{chain_value, names_value};
use book_lists::Who;
use book_office::EffectiveEntry;
use book_office_listings::DecidingEntry;
use book_questions::{InForce, count_in};
use book_questions_chains::{Chain, chain_by};
use serde_json::{Value, json};
use std::alloc::{AllocError, Global};

/// The word for a principal form, or the path of a principal.
fn who_text(who: &Who) -> &str
    ensures { result.now ≡ who_text who.now }
{
    match who {
        Who::Href(principal) => principal.text(),
        Who::Everyone => "all",
        Who::Authenticated => "authenticated",
        Who::Unauthenticated => "unauthenticated",
        Who::Owner => "owner",
        Who::Own => "self",
    }
}

/// The number of the entry at an index in the list where it stands, from 1.
fn number_there(
    alloc: Global,
    force: &InForce,
    index: usize,
    entry: &EffectiveEntry,
) -> Result<usize, AllocError>
    requires { index < length force.now.list }
    ensures { IfOk result (λ number. number ≡ number_there force.now.list index entry.now) }
{
    let place = entry.path.text(alloc)?;
    let count = count_in(
        alloc,
        place.as_str(),
        entry.protected,
        &force.list.as_slice()[..index],
    )?;
    Ok(count + 1)
}

/// An entry, with what was read for it.
fn standing_with(
    alloc: Global,
    by: Value,
    names: Value,
    number: usize,
    there: usize,
    place: &str,
    entry: &EffectiveEntry,
) -> Result<Value, AllocError>
    ensures { IfOk result (λ value. view value ≡
        standing_with (view by) (view names) number there place.now entry.now) }
{
    json!(in alloc; {
        "by": by,
        "deny": entry.entry.deny,
        "from": place,
        "invert": entry.entry.invert,
        "number": number,
        "number-there": there,
        "privileges": names,
        "protected": entry.protected,
        "who": who_text(&entry.entry.who)
    })
}

/// The entry at an index in full.
fn standing_value(
    alloc: Global,
    force: &InForce,
    chains: &[Chain],
    number: usize,
    index: usize,
    entry: &EffectiveEntry,
) -> Result<Value, AllocError>
    requires { index < length force.now.list }
    ensures { IfOk result (λ value. view value ≡
        standing_data number (standing_of force.now chains.now index entry.now)) }
{
    let there = number_there(alloc, force, index, entry)?;
    let by = chain_value(alloc, chain_by(&force.here, chains, &entry.entry))?;
    let names = names_value(alloc, entry.entry.set)?;
    let place = entry.path.text(alloc)?;
    standing_with(alloc, by, names, number, there, place.as_str(), entry)
}

/// A number alone.
fn number_value(alloc: Global, number: usize) -> Result<Value, AllocError>
    ensures { IfOk result (λ value. view value ≡ entry_data number None) }
{
    json!(in alloc; {"number": number})
}

/// The entry with a number of the list in force, which counts from 1.
fn entry_value(
    alloc: Global,
    force: &InForce,
    chains: &[Chain],
    number: usize,
) -> Result<Value, AllocError>
    ensures { IfOk result (λ value. view value ≡
        entry_data number (numbered force.now chains.now number)) }
{
    if number == 0 {
        return number_value(alloc, number);
    }
    let index = number - 1;
    match force.list.as_slice().get(index) {
        Some(entry) => standing_value(alloc, force, chains, number, index, entry),
        None => number_value(alloc, number),
    }
}

/// The entry that decides; null where none does.
pub(crate) fn decided_value(
    alloc: Global,
    force: &InForce,
    chains: &[Chain],
    entry: &Option<DecidingEntry>,
) -> Result<Value, AllocError>
    ensures { IfOk result (λ value. view value ≡
        decided_data (option_map (decided_of force.now chains.now) entry.now)) }
{
    match entry {
        None => Ok(Value::Null),
        Some(entry) => entry_value(alloc, force, chains, entry.number),
    }
}
