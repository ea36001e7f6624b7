//! A conversation with a control: a request is sent, and its reply read.

ghost use Rattle.std.specs.Prelude.{IfOk};
ghost use Rattle.book_desk_asking.specs.Asking.{Asks};

use crate::questions::Question;
use crate::replies::{Answer, Fault, receive};
use crate::requests::request_of;
use std::alloc::Global;
use std::io::{BufReader, Read, Write};

/// Sends the request of a question, reads its reply, and prints what the command wrote as it comes.
///
/// # Errors
///
/// `Control` where the request can't be sent, or as `receive`; `Output` as that.
pub fn ask_control<S: Read + Write + Drop, W: Write>(
    alloc: Global,
    mut stream: S,
    question: &Question<'_>,
    writer: &mut W,
) -> Result<Answer, Fault>
    ensures { IfOk result (λ answer. Asks S.Write.contents S.Read.remaining stream question.now
        (W.contents writer.old) (W.contents writer.new) answer.status answer.told.items) }
{
    let request = request_of(alloc, question)?;
    if stream.write_all(request.as_slice()).is_err() || stream.flush().is_err() {
        return Err(Fault::Control);
    }
    drop(request);
    let Ok(mut reader) = BufReader::new(alloc, stream) else {
        return Err(Fault::Control);
    };
    receive(alloc, &mut reader, writer)
}
