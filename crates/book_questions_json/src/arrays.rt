//! Arrays of texts.

ghost use Rattle.std.specs.Prelude.{◌≡◌, ◌++◌, ◌∷◌, [], IfOk, OnOk, Some, map};
ghost use Rattle.std.specs.Option.{option_copied};
ghost use Rattle.serde_json.specs.Data.{string};
ghost use Rattle.serde_json.specs.View.{view};
ghost use Rattle.book_questions_json.specs.Facts.{by_chain, upward};
ghost use Rattle.book_questions_json.specs.Objects.{name_data, names_data, texts_data};

use book_lists::Principal;
use book_lists_explain::short_privileges;
use book_questions_chains::Chain;
use book_rights::{LeafSet, Privilege};
use serde_json::Value;
use std::alloc::{AllocError, Global};

/// The name of each privilege.
fn name_values(alloc: Global, names: &[Privilege]) -> Result<Vec<Value>, AllocError>
    ensures { IfOk result (λ values. map view values.items ≡ map name_data names.now) }
{
    let mut values = Vec::new(alloc);
    for name in names {
        values.push(Value::try_from_str(alloc, name.name())?)?;
    }
    Ok(values)
}

/// The short names of a set.
pub(crate) fn names_value(alloc: Global, set: LeafSet) -> Result<Value, AllocError>
    ensures { IfOk result (λ value. view value ≡ names_data set) }
{
    let names = short_privileges(alloc, set)?;
    Ok(Value::Array(name_values(alloc, &names)?))
}

/// Adds the path of a principal.
fn push_principal(
    alloc: Global,
    values: &mut Vec<Value>,
    principal: &Principal,
) -> Result<(), AllocError>
    ensures { OnOk result (map view values.new.items ≡
        map view values.old.items ++ map string (principal.now ∷ [])) }
{
    values.push(Value::try_from_str(alloc, principal.text())?)?;
    Ok(())
}

/// Adds the last of the members, and each before it up to the group.
fn push_upward(
    alloc: Global,
    values: &mut Vec<Value>,
    group: &Principal,
    members: &[Principal],
) -> Result<(), AllocError>
    ensures { OnOk result (map view values.new.items ≡
        map view values.old.items ++ map string (upward group.now members.now)) }
{
    let Some((member, others)) = members.split_first() else {
        return push_principal(alloc, values, group);
    };
    push_upward(alloc, values, member, others)?;
    push_principal(alloc, values, group)
}

/// Adds the principals of a chain, unless it is the caller itself.
fn push_chain(alloc: Global, values: &mut Vec<Value>, chain: &Chain) -> Result<(), AllocError>
    ensures { OnOk result (map view values.new.items ≡
        map view values.old.items ++ map string (by_chain (Some chain.now))) }
{
    let members = chain.members.as_slice();
    if members.is_empty() {
        return Ok(());
    }
    push_upward(alloc, values, &chain.group, members)
}

/// The principals of a chain, from the caller up.
pub(crate) fn chain_value(alloc: Global, chain: Option<&Chain>) -> Result<Value, AllocError>
    ensures { IfOk result (λ value. view value ≡
        texts_data (by_chain (option_copied chain.entry))) }
{
    let mut values = Vec::new(alloc);
    if let Some(chain) = chain {
        push_chain(alloc, &mut values, chain)?;
    }
    Ok(Value::Array(values))
}
