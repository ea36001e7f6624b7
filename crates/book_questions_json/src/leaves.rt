//! What decides each leaf.

ghost use Rattle.std.specs.Prelude.{◌≡◌, ◌++◌, ◌∷◌, [], IfOk, OnOk, map};
ghost use Rattle.serde_json.specs.View.{view};
ghost use Rattle.book_questions_json.specs.Facts.{leaf_fact, leaf_facts};
ghost use Rattle.book_questions_json.specs.Objects.{leaf_data, leaves_data};

use crate::entries::decided_value;
use book_office_listings::Ruling;
use book_questions::InForce;
use book_questions_chains::Chain;
use book_rights::LeafSet;
use serde_json::{Value, json};
use std::alloc::{AllocError, Global};

/// What decides a leaf.
fn leaf_value(
    alloc: Global,
    force: &InForce,
    chains: &[Chain],
    ruling: &Ruling,
) -> Result<Value, AllocError>
    ensures { IfOk result (λ value. view value ≡
        leaf_data (leaf_fact force.now chains.now ruling.now)) }
{
    let entry = decided_value(alloc, force, chains, &ruling.entry)?;
    json!(in alloc; {
        "entry": entry,
        "grant": ruling.grant,
        "privilege": ruling.leaf.name()
    })
}

/// Adds what decides a leaf, where it is one of the set.
fn push_leaf(
    alloc: Global,
    values: &mut Vec<Value>,
    force: &InForce,
    chains: &[Chain],
    set: LeafSet,
    ruling: &Ruling,
) -> Result<(), AllocError>
    ensures { OnOk result (map view values.new.items ≡ map view values.old.items ++
        map leaf_data (leaf_facts force.now chains.now set (ruling.now ∷ []))) }
{
    if set.has(ruling.leaf) {
        values.push(leaf_value(alloc, force, chains, ruling)?)?;
    }
    Ok(())
}

/// What decides each leaf of a set.
pub(crate) fn leaves_value(
    alloc: Global,
    force: &InForce,
    chains: &[Chain],
    set: LeafSet,
    rulings: &[Ruling],
) -> Result<Value, AllocError>
    ensures { IfOk result (λ value. view value ≡
        leaves_data (leaf_facts force.now chains.now set rulings.now)) }
{
    let mut values = Vec::new(alloc);
    for ruling in rulings {
        push_leaf(alloc, &mut values, force, chains, set, ruling)?;
    }
    Ok(Value::Array(values))
}
