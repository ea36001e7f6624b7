//! Why a store is not sound.

use crate::findings::Finding;

/// What is at fault in a store.
#[derive(Debug, Drop)]
pub enum Fault {
    /// Its tables, keys or indexes are none of a store of version 2, whatever table `reach` it has.
    Schema,
    /// `ace`, which version 1 had for the entries, has rows.
    Former,
    /// What is found in its rows.
    Found(Finding),
}
