//! Who holds which leaves, as objects.

ghost use Rattle.std.specs.Prelude.{◌≡◌, ◌++◌, IfOk, OnOk, string_bytes};
ghost use Rattle.std.specs.List.{flat_map};
ghost use Rattle.serde_json.specs.View.{view};
ghost use Rattle.book_questions_json.specs.Held.{count_data, held_at, held_by, held_data, held_if, held_line};

use crate::arrays::names_value;
use crate::lines::push_line;
use book_lists::{Caller, Entry, Here};
use book_office_values::Text;
use book_questions::caller_text;
use book_questions_rights::{Asker, granted_by};
use book_rights::LeafSet;
use serde_json::{Value, json};
use std::alloc::{AllocError, Global};

/// How many cards there are; null for a resource by itself.
fn count_value(cards: Option<usize>) -> Value
    ensures { view result ≡ count_data cards }
{
    match cards {
        Some(count) => Value::from(count),
        None => Value::Null,
    }
}

/// A caller who holds leaves.
fn held_value(
    alloc: Global,
    place: &str,
    cards: Option<usize>,
    caller: &Caller,
    set: LeafSet,
) -> Result<Value, AllocError>
    ensures { IfOk result (λ value. view value ≡ held_data
        (record { place = place.now; cards = cards; caller = caller.now; set = set })) }
{
    let count = count_value(cards);
    let names = names_value(alloc, set)?;
    json!(in alloc; {
        "caller": caller_text(caller),
        "cards": count,
        "path": place,
        "privileges": names
    })
}

/// Adds a caller who holds leaves.
fn push_holding(
    alloc: Global,
    text: &mut String,
    place: &str,
    cards: Option<usize>,
    caller: &Caller,
    set: LeafSet,
) -> Result<(), AllocError>
    ensures { OnOk result (string_bytes text.new ≡ string_bytes text.old ++
        held_line (record { place = place.now; cards = cards; caller = caller.now; set = set })) }
{
    let value = held_value(alloc, place, cards, caller, set)?;
    push_line(alloc, text, &value)
}

/// Adds a caller, if it holds a leaf.
fn push_held(
    alloc: Global,
    text: &mut String,
    place: &str,
    cards: Option<usize>,
    caller: &Caller,
    set: LeafSet,
) -> Result<(), AllocError>
    ensures { OnOk result (string_bytes text.new ≡
        string_bytes text.old ++ flat_map held_line (held_if place.now cards caller.now set)) }
{
    if set == LeafSet::empty() {
        return Ok(());
    }
    push_holding(alloc, text, place, cards, caller, set)
}

/// Adds one who is asked about, if it holds a leaf by the entries.
fn push_asker(
    alloc: Global,
    text: &mut String,
    place: &str,
    cards: Option<usize>,
    entries: &[Entry],
    here: &Here,
    asker: &Asker,
) -> Result<(), AllocError>
    ensures { OnOk result (string_bytes text.new ≡ string_bytes text.old ++
        flat_map held_line (held_by place.now cards entries.now here.now asker.now)) }
{
    let set = granted_by(entries, &asker.circle, here);
    push_held(alloc, text, place, cards, &asker.caller, set)
}

/// The objects of those who are asked about that hold a leaf by the entries.
pub(crate) fn held_lines(
    alloc: Global,
    place: &str,
    cards: Option<usize>,
    entries: &[Entry],
    here: &Here,
    askers: &[Asker],
) -> Result<Text, AllocError>
    ensures { IfOk result (λ lines. lines ≡ flat_map held_line
        (held_at place.now cards entries.now here.now askers.now)) }
{
    let mut text = String::new(alloc);
    for asker in askers {
        push_asker(alloc, &mut text, place, cards, entries, here, asker)?;
    }
    Ok(Text::from_string(text))
}
