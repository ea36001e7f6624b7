//! Sync reports.

ghost use Rattle.std.specs.Prelude.{Some};
ghost use Rattle.book_office_values.specs.Paths.{book_path, card_path};
ghost use Rattle.book_wire_json.specs.SyncReports.{changed_data, item_data, status_data};
ghost use Rattle.book_wire_json.specs.Writing.{Tells};

use crate::writing::JsonText;
use book_lists::Name;
use book_office_sync::{Found, Item};
use std::alloc::AllocError;

/// Writes what a report says of a card that is there and may be read. An error is want of memory.
fn write_found(
    out: &mut JsonText,
    book: &Name,
    item: &Item,
    found: &Found,
) -> Result<(), AllocError>
    ensures { Tells result out.old out.new
        (changed_data (card_path book.now item.now.name) item.now.number (Some found.now)) }
{
    out.begin_object()?;
    out.string_member("displayname", found.label.as_str())?;
    out.card_member("href", book, &item.name)?;
    out.number_member("number", item.number)?;
    out.number_member("status", 200)?;
    out.string_member("text", found.text.as_str())?;
    out.end_object()
}

/// Writes what a report says of a card that is removed or may not be read. An error is want of memory.
fn write_gone(out: &mut JsonText, book: &Name, card: &Name) -> Result<(), AllocError>
    ensures { Tells result out.old out.new (status_data (card_path book.now card.now) 404) }
{
    out.begin_object()?;
    out.card_member("href", book, card)?;
    out.number_member("status", 404)?;
    out.end_object()
}

/// Writes what a report says of an item. An error is want of memory.
pub(crate) fn write_item(out: &mut JsonText, book: &Name, item: &Item) -> Result<(), AllocError>
    ensures { Tells result out.old out.new (item_data book.now item.now) }
{
    match &item.found {
        Some(found) => write_found(out, book, item, found),
        None => write_gone(out, book, &item.name),
    }
}

/// Writes that changes remain (RFC 6578, section 3.6). An error is want of memory.
pub(crate) fn write_remaining(out: &mut JsonText, book: &Name) -> Result<(), AllocError>
    ensures { Tells result out.old out.new (status_data (book_path book.now) 507) }
{
    out.begin_object()?;
    out.book_member("href", book)?;
    out.number_member("status", 507)?;
    out.end_object()
}
