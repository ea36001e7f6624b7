//! Listings.

ghost use Rattle.book_office_listings.specs.declared.messages.Response.TheVariants.{Denied, Told};
ghost use Rattle.book_wire_json.specs.Listings.{response_data};
ghost use Rattle.book_wire_json.specs.Writing.{Tells};

use crate::denials::write_denial;
use crate::property_values::write_prop;
use crate::writing::JsonText;
use book_office_listings::{Denial, PropertyValue, Response};
use book_office_values::Path;
use std::alloc::AllocError;

/// Writes what a listing says of a resource that may be read. An error is want of memory.
#[tactic(auto, using(crate::proofs::Written::added_three))]
fn write_told(
    out: &mut JsonText,
    path: &Path,
    properties: &[PropertyValue],
) -> Result<(), AllocError>
    ensures { Tells result out.old out.new (response_data (Told path.now properties.now)) }
{
    out.begin_object()?;
    out.path_member("href", path)?;
    out.key("prop")?;
    write_prop(out, properties)?;
    out.number_member("status", 200)?;
    out.end_object()
}

/// Writes what a listing says of a resource that is denied. An error is want of memory.
#[tactic(auto, using(crate::proofs::Written::added_three))]
fn write_denied(out: &mut JsonText, denial: &Denial) -> Result<(), AllocError>
    ensures { Tells result out.old out.new (response_data (Denied denial.now)) }
{
    out.begin_object()?;
    out.path_member("href", &denial.resource)?;
    out.key("need-privileges")?;
    write_denial(out, denial)?;
    out.number_member("status", 403)?;
    out.end_object()
}

/// Writes what a listing says of one resource. An error is want of memory.
pub(crate) fn write_response(out: &mut JsonText, response: &Response) -> Result<(), AllocError>
    ensures { Tells result out.old out.new (response_data response.now) }
{
    match response {
        Response::Told { path, properties } => { write_told(out, path, properties.as_slice()) }
        Response::Denied(denial) => write_denied(out, denial),
    }
}
