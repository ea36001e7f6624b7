//! Connections, one after the other (RFC 9112, section 9).

ghost use Rattle.std.specs.Prelude.{◌≡◌, ◌≢◌, Err, IfOk, List, false, true};
ghost use Rattle.std.specs.Io.KnownBytes.{Keeps};
ghost use Rattle.book_wire_serving.specs.Serving.{Answered, Runs};
ghost use Rattle.book_desk_serving.specs.Connections.{AreConnections, ComesTo, AreAllServed, ServedConnection, had_no_fault, line_of_connection, lines_of_connections, none_had_a_fault, outcomes_of};
ghost use Rattle.book_desk_app.specs.Telling.{Tells};

use book_desk_app::{Failure, Lines, StreamFailure, tell_line};
use book_desk_loop::close_in_stages;
use book_wire::{Ended, Served, serve_stream};
use book_wire_serving::{Service, StreamFault};
use std::alloc::Global;
use std::io;
use std::io::{Read, Write};
use std::net::{OpenListener, OpenStream};
use std::rt::Clock;

/// Serves the requests of the connection of that number, and says how it ended. A fault is told on `errors`, as a line.
fn serve_one<M: Service, R: Read, W: Write, E: Lines>(
    alloc: Global,
    service: &mut M,
    number: u64,
    reader: &mut R,
    writer: &mut W,
    errors: &mut E,
) -> Result<Served, StreamFault>
    ensures served { ComesTo (M.serving service.old) (R.remaining reader.old)
        (R.remaining reader.new) (W.contents writer.old) (W.contents writer.new) result
        (M.serving service.new) }
    ensures silent { had_no_fault result ≡ true
        → Keeps (E.Write.contents errors.old) (E.Write.contents errors.new) }
    ensures told { Tells (E.is_whole errors.old) (E.is_whole errors.new)
        (E.Write.contents errors.old) (E.Write.contents errors.new) (line_of_connection result) }
{
    service.turn_to(number);
    match serve_stream(alloc, service, reader, writer) {
        Ok(served) => Ok(served),
        Err(fault) => {
            // Where this can't be written, the status of the program alone tells it.
            tell_line(errors, &Failure::Stream(StreamFailure { fault }));
            Err(fault)
        }
    }
}

/// Whether a connection that ended so had no fault.
fn is_sound(outcome: &Result<Served, StreamFault>) -> bool
    ensures { result ≡ had_no_fault outcome.now }
{
    match outcome {
        Ok(_) => true,
        Err(_) => false,
    }
}

/// Whether the line of a reply could not be written.
fn is_unlogged(outcome: &Result<Served, StreamFault>) -> bool
    ensures unlogged { result ≡ true → outcome.now ≡ Err StreamFault.Log }
    ensures logged { result ≡ false → outcome.now ≢ Err StreamFault.Log }
{
    match outcome {
        Ok(_) => false,
        Err(fault) => match fault {
            StreamFault::Log => true,
            StreamFault::Memory | StreamFault::Read | StreamFault::Write => false,
        },
    }
}

/// Closes a connection in stages that ended after a reply that closes, so that the reply reaches a client that still
/// sends. The caller lets it go.
fn close<C: Clock, S: Read + OpenStream>(
    clock: &C,
    stream: &mut S,
    outcome: &Result<Served, StreamFault>,
) {
    if let Ok(served) = outcome {
        if served.ended == Ended::Closed {
            close_in_stages(clock, stream);
        }
    }
}

/// Serves so many connections of the listener, one after the other. One that is cut or fails ends no other; the fault
/// of one that fails is told on `errors`, as a line. True if none failed. Where a line of the log could not be written, none
/// is served after that.
///
/// The Office afterwards is that of the connections in turn, each a stream by itself, and so that of a run of requests.
/// What each was sent, by what it brought, is what the contract of `serve_stream` says of the two halves of its stream.
/// One that ends after a reply that closes is closed in stages.
///
/// # Errors
///
/// Where a connection can't be accepted; those before it were served.
pub fn serve_connections<
    C: Clock,
    M: Service,
    S: Read + Write + OpenStream + Drop,
    L: OpenListener<Stream = S>,
    E: Lines,
>(
    clock: &C,
    alloc: Global,
    service: &mut M,
    listener: &L,
    count: u64,
    errors: &mut E,
) -> io::Result<bool>
    ensures served { (connections : List (ServedConnection S))
        × AreConnections S.remaining S.contents M.serving service.old connections
        service.new × Tells (E.is_whole errors.old) (E.is_whole errors.new)
        (E.Write.contents errors.old) (E.Write.contents errors.new)
        (lines_of_connections (outcomes_of connections))
        × IfOk result (λ sound. AreAllServed count (outcomes_of connections)
        × (sound ≡ none_had_a_fault (outcomes_of connections))) }
    ensures runs { (answered : List Answered)
        × Runs (M.serving service.old) (M.serving service.new) answered }
    ensures silent { IfOk result (λ sound. sound ≡ true
        → Keeps (E.Write.contents errors.old) (E.Write.contents errors.new)) }
{
    let mut sound = true;
    for number in 0..count {
        let (mut writer, _) = listener.accept()?;
        let mut reader = writer.try_clone()?;
        // Without it a reply in two writes waits for the client's acknowledgement of the first.
        let _ = writer.set_nodelay(true);
        let outcome = serve_one(alloc, service, number, &mut reader, &mut writer, errors);
        close(clock, &mut reader, &outcome);
        if !is_sound(&outcome) {
            sound = false;
        }
        if is_unlogged(&outcome) {
            return Ok(sound);
        }
    }
    Ok(sound)
}
