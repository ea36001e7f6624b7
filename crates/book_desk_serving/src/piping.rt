//! The requests that a reader gives.

ghost use Rattle.std.specs.Prelude.{◌≡◌, ◌≢◌, false};
ghost use Rattle.std.specs.Io.KnownBytes.{Keeps};
ghost use Rattle.book_desk_serving.specs.Streams.{Pipes, StopsToPipe, ended_status, told_fault};
ghost use Rattle.book_desk_app.specs.Telling.{TellsFailure};

use book_desk_app::{DONE, Failure, Lines, REFUSED, StreamFailure, tell_line};
use book_wire::{Ended, serve_stream};
use book_wire_serving::{Service, StreamFault};
use std::alloc::Global;
use std::io::{Read, Write};

/// The status of a stream that was served: 0 where each request was answered or the connection closed, 1 where the
/// input ends within a request.
fn ended_status(ended: Ended) -> u8
    ensures { result ≡ ended_status ended }
{
    match ended {
        Ended::Clean | Ended::Closed => DONE,
        Ended::Cut => REFUSED,
    }
}

/// The fault that is told: that a line of the log could not be written comes first.
fn told_fault(failed_log: bool, fault: StreamFault) -> StreamFault
    ensures { result ≡ told_fault failed_log fault }
{
    if failed_log { StreamFault::Log } else { fault }
}

/// Serves the requests that the reader gives, and gives the status of the program: 3 where memory was refused, a read or a
/// write failed, or a line of the log could not be written, which is told on `errors`; else by how the stream ended.
pub fn pipe<M: Service, R: Read, W: Write, E: Lines>(
    alloc: Global,
    service: &mut M,
    reader: &mut R,
    writer: &mut W,
    errors: &mut E,
) -> u8
    ensures ended { result ≢ 3 → Pipes (M.serving service.old) (R.remaining reader.old)
        (W.contents writer.old) (W.contents writer.new) result (M.serving service.new) }
    ensures sound { result ≢ 3 → (M.serving service.new).log.failed ≡ false }
    ensures stopped { result ≡ 3 → StopsToPipe
        (TellsFailure (E.is_whole errors.new) (E.Write.contents errors.old)
        (E.Write.contents errors.new)) (M.serving service.old) (R.remaining reader.old)
        (R.remaining reader.new) (W.contents writer.old) (W.contents writer.new)
        (M.serving service.new) }
    ensures silent { result ≢ 3 → Keeps (E.Write.contents errors.old)
        (E.Write.contents errors.new) }
{
    match serve_stream(alloc, service, reader, writer) {
        Ok(served) => {
            if service.has_failed_log() {
                let fault = StreamFault::Log;
                return tell_line(errors, &Failure::Stream(StreamFailure { fault }));
            }
            ended_status(served.ended)
        }
        Err(fault) => {
            let fault = told_fault(service.has_failed_log(), fault);
            tell_line(errors, &Failure::Stream(StreamFailure { fault }))
        }
    }
}
