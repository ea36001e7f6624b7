//! Short names of sets of leaves.

ghost use Rattle.std.specs.Prelude.{◌≡◌, IfOk};
ghost use Rattle.book_lists_explain.specs.ShortNames.{short_list, short_name, has_read, has_write};

use book_rights::{Leaf, LeafSet, Privilege};
use std::alloc::{AllocError, Global};

/// The short names of a set: `all` for every leaf; else the leaves in order, with `read` in the place of
/// x-read-texts where both of its leaves are held and `write` in the place of write-content where all four of its are (own
/// profile). An error is want of memory.
pub fn short_privileges(alloc: Global, set: LeafSet) -> Result<Vec<Privilege>, AllocError>
    ensures { IfOk result (λ names. names.items ≡ short_list set) }
{
    let mut names = Vec::new(alloc);
    if LeafSet::all().minus(set).least().is_none() {
        names.push(Privilege::All)?;
        return Ok(names);
    }
    for leaf in Leaf::ALL {
        if let Some(name) = short_name(set, leaf) {
            names.push(name)?;
        }
    }
    Ok(names)
}

/// Whether every leaf of `read` is in the set.
pub fn has_read(set: LeafSet) -> bool
    ensures { result ≡ has_read set }
{
    set.has(Leaf::ReadTexts) && set.has(Leaf::ReadNames)
}

/// Whether every leaf of `write` is in the set.
pub fn has_write(set: LeafSet) -> bool
    ensures { result ≡ has_write set }
{
    set.has(Leaf::WriteContent)
        && (set.has(Leaf::WriteProperties) && (set.has(Leaf::Bind) && set.has(Leaf::Unbind)))
}

/// What stands for a leaf in a list of short names.
fn short_name(set: LeafSet, leaf: Leaf) -> Option<Privilege>
    ensures { result ≡ short_name set leaf }
{
    if !set.has(leaf) {
        None
    } else if has_read(set) && Privilege::Read.leaves().has(leaf) {
        if leaf == Leaf::ReadTexts {
            Some(Privilege::Read)
        } else {
            None
        }
    } else if has_write(set) && Privilege::Write.leaves().has(leaf) {
        if leaf == Leaf::WriteContent {
            Some(Privilege::Write)
        } else {
            None
        }
    } else {
        Some(Privilege::One(leaf))
    }
}
