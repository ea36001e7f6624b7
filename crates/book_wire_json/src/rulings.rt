//! What decides each leaf.

ghost use Rattle.std.specs.Prelude.{map};
ghost use Rattle.serde_json.specs.Data.{array};
ghost use Rattle.serde_json.specs.View.{items_of};
ghost use Rattle.book_wire_json.specs.Rulings.{ruling_data, rulings_data};
ghost use Rattle.book_wire_json.specs.Writing.{Tells, TellsEach};

use crate::denials::write_entry;
use crate::writing::JsonText;
use book_office_listings::Ruling;
use std::alloc::AllocError;

/// Writes what the report says of a leaf. An error is want of memory.
fn write_ruling(out: &mut JsonText, ruling: &Ruling) -> Result<(), AllocError>
    ensures { Tells result out.old out.new (ruling_data ruling.now) }
{
    out.begin_object()?;
    out.key("entry")?;
    write_entry(out, &ruling.entry)?;
    out.key("grant")?;
    out.boolean(ruling.grant)?;
    out.string_member("privilege", ruling.leaf.name())?;
    out.end_object()
}

/// Writes what the report says of each leaf. An error is want of memory.
fn write_each(out: &mut JsonText, rulings: &[Ruling]) -> Result<(), AllocError>
    ensures { TellsEach result out.old out.new (map ruling_data rulings.now) }
{
    for ruling in rulings {
        write_ruling(out, ruling)?;
    }
    Ok(())
}

/// Writes what the report says of the leaves. An error is want of memory.
#[tactic(auto, using(crate::proofs::Written::array_told))]
fn write_leaves(out: &mut JsonText, rulings: &[Ruling]) -> Result<(), AllocError>
    ensures { Tells result out.old out.new (array (items_of (map ruling_data rulings.now))) }
{
    out.begin_array()?;
    write_each(out, rulings)?;
    out.end_array()
}

/// Writes what the report says. An error is want of memory.
#[tactic(auto, using(crate::proofs::Written::added_one))]
pub(crate) fn write_rulings(out: &mut JsonText, rulings: &[Ruling]) -> Result<(), AllocError>
    ensures { Tells result out.old out.new (rulings_data rulings.now) }
{
    out.begin_object()?;
    out.key("leaves")?;
    write_leaves(out, rulings)?;
    out.end_object()
}
