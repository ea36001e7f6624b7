//! The entries of a policy that are in force at a path, each with its place in the policy.

ghost use Rattle.std.specs.Prelude.{◌≡◌, ◌++◌, ◌∷◌, [], IfOk, OnOk};
ghost use Rattle.book_policy_values.specs.Policies.{stands_at};
ghost use Rattle.book_policy_idle.specs.Idle.{placed_along, placed_at, placed_in_force};

use book_lists::Entry;
use book_office_values::{Items, Path};
use book_policy_values::PolicyEntry;
use std::alloc::{AllocError, Global};

/// An entry of a policy.
#[derive(Drop)]
pub struct Placed {
    /// Its index among the entries of the policy.
    pub index: usize,
    /// The entry.
    pub entry: Entry,
}

/// Whether an entry of a policy stands in the list.
fn stands_at(protected: bool, at: &str, entry: &PolicyEntry) -> bool
    ensures { result ≡ stands_at protected at.now entry.now }
{
    if protected {
        entry.protected && at == entry.at.as_str()
    } else {
        !entry.protected && at == entry.at.as_str()
    }
}

/// Adds the entry, where it stands in the list.
fn add_one(
    protected: bool,
    at: &str,
    index: usize,
    entry: &PolicyEntry,
    list: &mut Items<Placed>,
) -> Result<(), AllocError>
    ensures { OnOk result (list.new ≡ list.old ++ placed_at protected at.now index
        (entry.now ∷ [])) }
{
    if stands_at(protected, at, entry) {
        list.push(Placed {
            index,
            entry: entry.entry.clone()?,
        })?;
    }
    Ok(())
}

/// Adds the entries of one list.
fn add_placed(
    entries: &[PolicyEntry],
    protected: bool,
    at: &str,
    list: &mut Items<Placed>,
) -> Result<(), AllocError>
    ensures { OnOk result (list.new ≡ list.old ++ placed_at protected at.now 0 entries.now) }
{
    for (index, entry) in entries.iter().enumerate() {
        add_one(protected, at, index, entry, list)?;
    }
    Ok(())
}

/// Adds the lists of one kind at the paths, one after the other.
pub(crate) fn add_along(
    alloc: Global,
    entries: &[PolicyEntry],
    protected: bool,
    paths: &[Path],
    list: &mut Items<Placed>,
) -> Result<(), AllocError>
    ensures { OnOk result (list.new ≡ list.old ++ placed_along protected entries.now paths.now) }
{
    for path in paths {
        let at = path.text(alloc)?;
        add_placed(entries, protected, at.as_str(), list)?;
    }
    Ok(())
}

/// The entries in force at a path.
pub(crate) fn placed_in_force(
    alloc: Global,
    entries: &[PolicyEntry],
    path: &Path,
) -> Result<Items<Placed>, AllocError>
    ensures { IfOk result (λ list. list ≡ placed_in_force entries.now path.now) }
{
    let paths = path.levels(alloc)?;
    let mut list = Items::new(alloc);
    add_along(alloc, entries, true, paths.as_slice(), &mut list)?;
    add_along(alloc, entries, false, paths.as_slice(), &mut list)?;
    Ok(list)
}
