//! The entries that rows of `ace` spell.

ghost use Rattle.std.specs.Prelude.{◌≡◌, ◌+◌, ◌<◌, ◌^◌, IfOk, option_map, pos, string_bytes};
ghost use Rattle.sqlite.specs.declared.types.Value.TheVariants.{Int};
ghost use Rattle.sqlite.specs.Order.{column};
ghost use Rattle.book_rights.specs.Leaves.{mask_of};
ghost use Rattle.book_tables_rows.specs.Writes.{flag, or_null};
ghost use Rattle.book_tables.specs.Listing.{entry_columns_at, entry_shown};
ghost use Rattle.book_tables.specs.Rows.{entry_values, form_code, principal_value};

use crate::reading::principal_of;
use book_lists::{Entry, Who};
use book_rights::LeafSet;
use sqlite::{Error, ErrorCode, Row};
use std::alloc::Global;

/// The truth value with a code; an error for a code that none has.
fn flag_of(code: u32) -> Result<bool, Error>
    ensures { IfOk result (λ truth. Int (pos code) ≡ flag truth) }
{
    match code {
        0 => Ok(false),
        1 => Ok(true),
        _ => Err(Error::SqliteFailure(ErrorCode::DatabaseCorrupt)),
    }
}

/// The principal form with a code, and with the path that stands beside it where the form is a path (RFC 3744, section
/// 5.5.1); an error where they are those of none.
fn who_of(alloc: Global, form: u32, path: Option<String>) -> Result<Who, Error>
    ensures form { IfOk result (λ who. form_code who ≡ form) }
    ensures path { IfOk result (λ who. principal_value who ≡ or_null
        (option_map string_bytes path)) }
{
    match (form, path) {
        (0, Some(path)) => Ok(Who::Href(principal_of(alloc, path.as_str())?)),
        (1, None) => Ok(Who::Everyone),
        (2, None) => Ok(Who::Authenticated),
        (3, None) => Ok(Who::Unauthenticated),
        (4, None) => Ok(Who::Owner),
        (5, None) => Ok(Who::Own),
        _ => Err(Error::SqliteFailure(ErrorCode::DatabaseCorrupt)),
    }
}

/// The set of leaves with a mask; an error for a mask that none has.
fn set_of(mask: u32) -> Result<LeafSet, Error>
    ensures { IfOk result (λ set. mask_of set ≡ mask) }
{
    let Ok(mask) = u16::try_from(mask) else {
        return Err(Error::SqliteFailure(ErrorCode::DatabaseCorrupt));
    };
    LeafSet::from_mask(mask).ok_or(Error::SqliteFailure(ErrorCode::DatabaseCorrupt))
}

/// Whether an entry of a row inverts and denies, and its set of leaves: invert, deny and mask stand behind form and
/// principal. An error where they are the codes of none.
fn effect_at(row: &Row, place: usize) -> Result<(bool, bool, LeafSet), Error>
    requires { place < 2 ^ 32 }
    ensures invert { IfOk result (λ effect. column row.now (place + 2) ≡ flag effect.0) }
    ensures deny { IfOk result (λ effect. column row.now (place + 3) ≡ flag effect.1) }
    ensures mask { IfOk result (λ effect. column row.now (place + 4)
        ≡ Int (pos (mask_of effect.2))) }
{
    let invert = row.get(place + 2)?;
    let deny = row.get(place + 3)?;
    let mask = row.get(place + 4)?;
    Ok((flag_of(invert)?, flag_of(deny)?, set_of(mask)?))
}

/// The entry that five columns of a row spell, from a place on: form, principal, invert, deny and mask; an error where
/// they spell none.
pub(crate) fn entry_at(alloc: Global, row: &Row, place: usize) -> Result<Entry, Error>
    requires { place < 2 ^ 32 }
    ensures spelled { IfOk result (λ entry. entry_columns_at place row.now ≡ entry_values entry) }
    ensures told { IfOk result (λ entry. entry ≡ entry_shown place row.now) }
{
    let form = row.get(place)?;
    let path = row.get(place + 1)?;
    let (invert, deny, set) = effect_at(row, place)?;
    let who = who_of(alloc, form, path)?;
    Ok(Entry {
        who,
        invert,
        deny,
        set,
    })
}
