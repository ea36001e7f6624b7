//! Times, as a log has them.

ghost use Rattle.std.specs.Prelude.{◌≡◌, ◌↔◌, IsTrue, IfOk, IfSome, IfNone, codes};
ghost use Rattle.std.specs.Ordering.{is_lt};
ghost use Rattle.book_log_lines.specs.Times.{fits, IsTime, time_cmp, time_form};

use std::alloc::{AllocError, Global};
use std::marker::Model;

/// The form of a time, with `0` for each digit.
const TIME_FORM: &str = "0000-00-00T00:00:00.000Z";

/// An instant in UTC to milliseconds, as RFC 3339 (section 5.6) writes it: `2026-11-29T00:45:58.123Z`. Of two instants the
/// later is the greater in byte order. A contract sees its bytes.
#[derive(Debug, Drop)]
pub struct Time {
    text: String,
}

impl Model for Time {
    ghost use Rattle.std.specs.Prelude.{List, ℕ};
    ghost use Rattle.std.specs.String.{string_bytes};
    ghost use Rattle.book_log_lines.specs.Times.{IsTime};

    ghost Value = { List ℕ };

    ghost view = { λ t. string_bytes t.text };

    ghost invariant = { λ t. IsTime (string_bytes t.text) };
}

/// A copy equals its source. An error is want of memory.
impl Clone for Time {
    ghost is_clone = { λ source copy. copy ≡ source };

    fn clone(&self) -> Result<Time, AllocError> {
        Ok(Time {
            text: self.text.clone()?,
        })
    }
}

/// Whether the byte may stand where the form has this one: a digit for a digit, and else the same.
fn fits(form: u8, byte: u8) -> bool
    ensures { result ≡ fits form byte }
{
    if form == b'0' {
        byte.is_ascii_digit()
    } else {
        byte == form
    }
}

/// Whether the text has the form of a time.
fn is_time(text: &str) -> bool
    ensures { IsTrue result ↔ IsTime text.now }
{
    let bytes = text.as_bytes();
    let form = TIME_FORM.as_bytes();
    if bytes.len() != form.len() {
        return false;
    }
    for index in 0..form.len() {
        if !fits(form[index], bytes[index]) {
            return false;
        }
    }
    true
}

impl Time {
    /// The time that the text is; none where it has not the form of one. Whether the day is one of its month is not asked.
    /// An error is want of memory.
    pub fn parse(alloc: Global, text: &str) -> Result<Option<Time>, AllocError>
        ensures found { IfOk result (λ found. IfSome found
            (λ time. (time ≡ text.now) × IsTime time)) }
        ensures none { IfOk result (λ found. IfNone found (IsTime text.now → ⊥)) }
    {
        if !is_time(text) {
            return Ok(None);
        }
        Ok(Some(Time {
            text: String::from_str(alloc, text)?,
        }))
    }

    /// The time as a text.
    pub fn text(&self) -> &str
        ensures { result.now ≡ self.now }
    {
        self.text.as_str()
    }

    /// Whether it is an earlier instant than another.
    pub fn is_before(&self, other: &Time) -> bool
        ensures { result ≡ is_lt (time_cmp self.now other.now) }
    {
        self.text.cmp(&other.text).is_lt()
    }

    /// Hands out the rule that each time meets.
    pub fn known(&self)
        ensures { IsTime self.now }
    {
        let _ = &self.text;
    }
}
