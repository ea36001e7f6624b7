//! The members of a group card.

ghost use Rattle.std.specs.Prelude.{map};
ghost use Rattle.book_wire_json.specs.Members.{href_data, hrefs_data, line_data};
ghost use Rattle.book_wire_json.specs.Writing.{Tells, TellsEach};

use crate::writing::JsonText;
use book_lists::Name;
use book_office_members::MemberLine;
use std::alloc::AllocError;

/// Writes the path of each card of a book. An error is want of memory.
fn write_each_href(out: &mut JsonText, book: &Name, names: &[Name]) -> Result<(), AllocError>
    ensures { TellsEach result out.old out.new (map (href_data book.now) names.now) }
{
    for name in names {
        out.card(book, name)?;
    }
    Ok(())
}

/// Writes the paths of cards of a book. An error is want of memory.
#[tactic(auto, using(crate::proofs::Written::array_told))]
pub(crate) fn write_hrefs(out: &mut JsonText, book: &Name, names: &[Name]) -> Result<(), AllocError>
    ensures { Tells result out.old out.new (hrefs_data book.now names.now) }
{
    out.begin_array()?;
    write_each_href(out, book, names)?;
    out.end_array()
}

/// Writes what the report says of a MEMBER line. An error is want of memory.
#[tactic(auto, using(crate::proofs::Written::added_three))]
pub(crate) fn write_line(
    out: &mut JsonText,
    book: &Name,
    line: &MemberLine,
) -> Result<(), AllocError>
    ensures { Tells result out.old out.new (line_data book.now line.now) }
{
    out.begin_object()?;
    out.key("hrefs")?;
    write_hrefs(out, book, line.names.as_slice())?;
    out.string_member("uri", line.value.as_str())?;
    out.end_object()
}
