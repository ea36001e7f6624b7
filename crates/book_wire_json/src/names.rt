//! The names of a book's cards.

ghost use Rattle.book_wire_json.specs.Names.{formatted_data, named_data};
ghost use Rattle.book_wire_json.specs.Writing.{Tells};

use crate::writing::JsonText;
use book_lists::Name;
use book_office_members::NamedCard;
use book_office_values::Text;
use std::alloc::AllocError;

/// Writes the name that a card says, or null. An error is want of memory.
fn write_formatted(out: &mut JsonText, formatted: &Option<Text>) -> Result<(), AllocError>
    ensures { Tells result out.old out.new (formatted_data formatted.now) }
{
    match formatted {
        Some(name) => out.string(name.as_str()),
        None => out.null(),
    }
}

/// Writes what the report says of a card. An error is want of memory.
pub(crate) fn write_named(
    out: &mut JsonText,
    book: &Name,
    card: &NamedCard,
) -> Result<(), AllocError>
    ensures { Tells result out.old out.new (named_data book.now card.now) }
{
    out.begin_object()?;
    out.key("fn")?;
    write_formatted(out, &card.formatted)?;
    out.card_member("href", book, &card.name)?;
    out.end_object()
}
