//! The policy of a text.

ghost use Rattle.std.specs.Prelude.{◌≡◌, ◌⊎◌, Some, None, codes, option_and_then, IfOk, IfErr, IfSome, IfNone};
ghost use Rattle.toml.specs.Data.{as_integer, get_member};
ghost use Rattle.toml.specs.Parse.{parse_document};
ghost use Rattle.toml.specs.View.{table_view};
ghost use Rattle.book_policy.specs.Passes.{IsNoPolicy, IsPolicyOfParts, IsShaped, SpellsPolicy, fault_numbered};
ghost use Rattle.book_policy.specs.Rules.{IsFaultOf, IsPolicyOf};
ghost use Rattle.book_policy.specs.Shapes.{has_version_one};
ghost use Rattle.book_policy.specs.declared.faults.PolicyFault.TheVariants.{Memory, NotToml};
ghost use Rattle.book_policy_values.specs.declared.parts.PolicyTables.{PolicyTables};
ghost use Rattle.book_policy_faults.specs.Laws.{least_of};
ghost use Rattle.book_policy_faults.specs.Placing.{no_faults, noted};
ghost use Rattle.book_policy_faults.specs.Tables.{faults_in};

use crate::entries::entry_parts;
use crate::faults::PolicyFault;
use crate::parts::Parts;
use crate::shapes::{member, parts_in};
use book_limits::MAX_POLICY_BYTES;
use book_policy_faults::faults_of;
use book_policy_values::Policy;
use std::alloc::{AllocError, Global};
use toml::Table;

/// The table of a text.
fn table_of(alloc: Global, text: &str) -> Result<Table, PolicyFault>
    ensures ok { IfOk result (λ table. parse_document text.now ≡ Some (table_view table)) }
    ensures err { IfErr result (λ fault. (fault ≡ Memory)
        ⊎ ((fault ≡ NotToml) × (parse_document text.now ≡ None))) }
{
    match toml::table_from_str(alloc, text) {
        Ok(table) => Ok(table),
        Err(error) => {
            if error.is_memory() {
                Err(PolicyFault::Memory)
            } else {
                Err(PolicyFault::NotToml)
            }
        }
    }
}

/// The version, where it is a whole number.
fn version_of(table: &Table) -> Option<i64>
    ensures { result ≡ option_and_then as_integer
        (get_member (codes "version") (table_view table.now)) }
{
    match member(table, "version") {
        Some(value) => value.as_integer(),
        None => None,
    }
}

/// Whether the version is the whole number 1.
fn has_version_one(table: &Table) -> bool
    ensures { result ≡ has_version_one (table_view table.now) }
{
    match version_of(table) {
        Some(version) => version == 1,
        None => false,
    }
}

/// The policy of parts, if they keep every rule.
fn made(alloc: Global, parts: Parts) -> Result<Option<Policy>, AllocError>
    ensures some { IsShaped parts → IfOk result (λ found. IfSome found (IsPolicyOfParts parts)) }
    ensures none { IsShaped parts → IfOk result (λ found. IfNone found (IsNoPolicy parts)) }
{
    let Parts {
        persons,
        groups,
        books,
        entries,
    } = parts;
    let Some(entries) = entry_parts(alloc, entries)? else {
        return Ok(None);
    };
    Policy::new(alloc, persons, groups, books, entries)
}

/// The policy that a table spells, if it breaks no rule.
fn policy_in(alloc: Global, table: &Table) -> Result<Option<Policy>, AllocError>
    ensures some { IfOk result (λ found. IfSome found (SpellsPolicy (table_view table.now))) }
    ensures none { IfOk result (λ found. IfNone found
        ((policy : PolicyTables) → SpellsPolicy (table_view table.now) policy → ⊥)) }
{
    if !has_version_one(table) {
        return Ok(None);
    }
    let Some(parts) = parts_in(alloc, table)? else {
        return Ok(None);
    };
    made(alloc, parts)
}

/// The fault with a number in their order.
fn fault_numbered(number: usize) -> PolicyFault
    ensures { result ≡ fault_numbered number }
{
    match number {
        1 => PolicyFault::NotToml,
        2 => PolicyFault::OtherVersion,
        3 => PolicyFault::BadKey,
        4 => PolicyFault::BadName,
        5 => PolicyFault::NameTwice,
        6 => PolicyFault::UnknownPrincipal,
        7 => PolicyFault::UnknownResource,
        8 => PolicyFault::UnknownPrivilege,
        9 => PolicyFault::TooMany,
        _ => PolicyFault::Memory,
    }
}

/// The least fault of a table.
fn fault_in(alloc: Global, table: &Table) -> Result<PolicyFault, AllocError>
    ensures { IfOk result (λ fault. fault ≡ fault_numbered
        (least_of (noted no_faults (faults_in (table_view table.now))))) }
{
    let faults = faults_of(alloc, table)?;
    Ok(fault_numbered(faults.least))
}

/// The policy that a text spells in TOML (own profile): `version = 1`, and arrays of tables, each optional. `person`
/// has `name` and `label`. `group` has `name`, `label` and `members`, paths of persons and groups of the policy, of
/// which repeated ones count once. `book` has `name`, `label` and `owner`, such a path. `entry` has `at`, a path;
/// `who`, the path of a person or a group, or one of the words `all`, `authenticated`, `unauthenticated`, `owner` and
/// `self` (RFC 3744, section 5.5.1); `invert`; one of `grant` and `deny`, with 1 to 16 names of privileges; and
/// `protected`. An absent label is empty, an absent owner and absent members are none, and absent `invert` and
/// `protected` are false. One slash at the end of a path is dropped.
///
/// It takes a number of steps that grows with the text, and for each a number of comparisons that grows with the
/// logarithm of the number of tables.
///
/// # Errors
///
/// `TooMany` where the text has more than 1,048,576 bytes, whatever else it has. Else the earliest of these over the
/// whole text: `NotToml`, `OtherVersion`, `BadKey`, `BadName`, `NameTwice`, `UnknownPrincipal`, `UnknownResource`,
/// `UnknownPrivilege`, `TooMany`, as each says of itself. `Memory` where memory is refused, in place of any other
/// answer.
pub fn read_policy(alloc: Global, text: &str) -> Result<Policy, PolicyFault>
    ensures policy { IfOk result (λ policy. IsPolicyOf text.now policy) }
    ensures fault { IfErr result (λ fault. (fault ≡ Memory) ⊎ IsFaultOf text.now fault) }
{
    if text.len() > MAX_POLICY_BYTES {
        return Err(PolicyFault::TooMany);
    }
    let table = match table_of(alloc, text) {
        Ok(table) => table,
        Err(fault) => return Err(fault),
    };
    match policy_in(alloc, &table)? {
        Some(policy) => Ok(policy),
        None => Err(fault_in(alloc, &table)?),
    }
}
