//! Why the tables of a store were refused, told as a cause where that is wanted: another version, or the first row that breaks
//! a rule.

use crate::tasks::TellingRefusal;
use book_desk_files::{Cause, open_untold_copy, tell_cause, tell_row, wants_causes};
use book_tables_findings::{examine, fault_line};
use sqlite::types::ValueRef;
use sqlite::{Alter, Connection};

/// The version of the stores that the program makes.
pub const STORE_VERSION: u8 = 2;

/// The version that a store says that it is of, where that is another one.
fn other_version<S: Alter>(connection: &mut Connection<S>) -> Option<i64> {
    let Ok(rows) = connection.query_all("SELECT version FROM meta", &[]) else {
        return None;
    };
    let [row] = rows.as_slice() else {
        return None;
    };
    match row.get_ref(0) {
        Ok(ValueRef::Int(version)) if version != i64::from(STORE_VERSION) => Some(version),
        _ => None,
    }
}

/// Tells the first row of a store that breaks a rule, if one does.
fn tell_broken_row<S: Alter + Drop>(rt: &HostRuntime, store: Connection<S>) {
    let examined = match examine(rt.alloc(), store) {
        Ok(examined) => examined,
        Err(_) => return,
    };
    let (found, read) = examined;
    drop(read);
    if let Some(fault) = found {
        if let Ok(row) = fault_line(rt.alloc(), &fault) {
            tell_row(rt, row.as_slice());
        }
    }
}

/// Tells why the tables of a store were refused, if they were and it is wanted. Of one of an earlier version that a migration
/// refused, the rows are none of that version.
pub fn tell_refusal<S: Alter + Drop>(rt: &HostRuntime, mut store: Connection<S>, migrates: bool) {
    if !wants_causes(rt) {
        return;
    }
    match other_version(&mut store) {
        Some(version) => {
            if !migrates || version > i64::from(STORE_VERSION) {
                tell_cause(rt, Cause::OtherVersion(version, STORE_VERSION));
            }
        }
        None => tell_broken_row(rt, store),
    }
}

/// Tells why the tables of the store of a file were refused, if they were and it is wanted: over a copy of its files in memory.
pub fn tell_refusal_of(rt: &HostRuntime, name: &str, migrates: bool) {
    if !wants_causes(rt) {
        return;
    }
    if let Some(copy) = open_untold_copy(rt, name) {
        let _ = copy.run(TellingRefusal { rt, migrates });
    }
}
