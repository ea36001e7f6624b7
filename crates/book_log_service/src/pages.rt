//! The lines of a round, which stand in memory until what was served is kept.

ghost use Rattle.std.specs.Prelude.{◌≡◌, [], IfOk};
ghost use Rattle.book_log_service.specs.Kept.{AppendsFront, log_of};
ghost use Rattle.book_log_service.specs.Rounds.{log_on};
ghost use Rattle.book_wire_serving.specs.Rounds.{IsFollowed};

use crate::appending::append;
use std::alloc::{AllocError, Global};
use std::io::Write;

/// For how many bytes of lines a round has memory as it begins.
const ROOM: usize = 65_536;

/// The lines of a round.
#[derive(Drop)]
pub(crate) struct Page {
    /// The text of the lines.
    pub(crate) text: Vec<u8>,
    /// Whether a line could not be made, or there was no memory for it.
    pub(crate) failed: bool,
}

impl Page {
    /// A page without lines, of a log that may have failed. An error is want of memory.
    pub(crate) fn new(alloc: Global, failed: bool) -> Result<Page, AllocError>
        ensures empty { IfOk result (λ page. page.text.items ≡ []) }
        ensures failed { IfOk result (λ page. page.failed ≡ failed) }
    {
        let text = Vec::with_capacity(alloc, ROOM)?;
        Ok(Page { text, failed })
    }

    /// Writes the lines. Where one could not be noted, or written, the log has failed.
    pub(crate) fn write<W: Write>(&self, writer: &mut W, failed: &mut bool)
        ensures followed { IsFollowed (log_of failed.old (W.contents writer.old)) (log_on self.now)
            (log_of failed.new (W.contents writer.new)) }
        ensures front { AppendsFront (W.contents writer.old) (W.contents writer.new)
            self.now.text.items }
    {
        let written = append(writer, failed, self.text.as_slice());
        *failed = written.is_err() || self.failed;
    }
}
