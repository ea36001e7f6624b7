//! The phrases of statuses.

ghost use Rattle.std.specs.Prelude.{◌≡◌, ◌≤◌, length};
ghost use Rattle.book_wire_targets.specs.Targets.{phrase_of};

use http::StatusCode;

/// The phrase, without a word on its length.
fn phrase_text(status: u16) -> &'static str
    ensures { result.now ≡ phrase_of status }
{
    match StatusCode::from_u16(status) {
        Ok(code) => code.canonical_reason().unwrap_or(""),
        Err(_) => "",
    }
}

/// The phrase of a status (RFC 9110, section 15.1), as `http` has it: at most 40 bytes; no bytes where it has none, or
/// the number is no status. Takes no memory.
pub fn phrase(status: u16) -> &'static str
    ensures value { result.now ≡ phrase_of status }
    ensures short { length result.now ≤ 40 }
{
    phrase_text(status)
}
