//! The line that stands where memory was refused for another.

ghost use Rattle.std.specs.Prelude.{◌≡◌, IfOk, option_map, Some};
ghost use Rattle.book_log_service.specs.Texts.{IsUnavailableText};

use crate::clocks::Clock;
use crate::texts::bare_text;
use book_log_lines::Time;
use book_office_values::Items;
use std::alloc::{AllocError, Global};
use std::marker::Model;

/// The text of a line that a request is unavailable, which is made before it is needed. A contract sees its bytes.
#[derive(Drop)]
pub(crate) struct Spare {
    text: Items<u8>,
}

impl Model for Spare {
    ghost use Rattle.std.specs.Prelude.{List, ℕ};
    ghost use Rattle.book_log_service.specs.Texts.{IsUnavailableText};

    ghost Value = { List ℕ };

    ghost view = { λ s. s.text };

    ghost invariant = { λ s. IsUnavailableText s.text };
}

impl Spare {
    /// The line at a time, on a connection. An error is want of memory.
    fn new(alloc: Global, time: Time, connection: u64) -> Result<Spare, AllocError> {
        let text = bare_text(alloc, time, connection, 503, "unavailable")?;
        Ok(Spare { text })
    }

    /// The text. Takes no memory.
    pub(crate) fn text(&self) -> &[u8]
        ensures text { result.now ≡ self.now }
        ensures known { IsUnavailableText self.now }
    {
        self.text.as_slice()
    }
}

/// The time, and the line that a request at that time is unavailable. An error is want of memory.
pub(crate) fn stamp<C: Clock>(
    clock: &mut C,
    alloc: Global,
    connection: u64,
) -> Result<(Time, Spare), AllocError> {
    let time = clock.now(alloc)?;
    let copy = time.clone()?;
    let spare = Spare::new(alloc, copy, connection)?;
    Ok((time, spare))
}
