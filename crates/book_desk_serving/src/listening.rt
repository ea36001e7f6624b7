//! The connections of a listener.

ghost use Rattle.std.specs.Prelude.{◌≡◌, ◌⊎◌, ◌++◌, codes, cond, false, true, IfErr, List, OnOk};
ghost use Rattle.std.specs.Io.KnownBytes.{Appends, Keeps};
ghost use Rattle.book_desk_sockets.specs.Places.{SaysWhere};
ghost use Rattle.book_wire_serving.specs.Serving.{Answered, Runs};
ghost use Rattle.book_desk_app.specs.Failures.{failure_status, failure_text, log_failure};
ghost use Rattle.book_desk_serving.specs.Streams.{Serves, ServesSoundly};
ghost use Rattle.book_desk_app.specs.Telling.{Tells};
ghost use Rattle.book_desk_app.specs.declared.failures.Failure.TheVariants.{Listen, Output};

use crate::connections::serve_connections;
use book_desk_app::{BROKEN, DONE, Failure, Lines, StreamFailure, tell_line};
use book_desk_sockets::{Listens, write_where};
use book_wire_serving::{Service, StreamFault};
use std::alloc::Global;
use std::io::{Read, Write};
use std::net::{OpenListener, OpenStream};
use std::rt::Clock;

/// Says where a listener listens.
///
/// # Errors
///
/// What is told where that is not known, or can't be written.
pub(crate) fn say_where<L: Listens, W: Write>(listener: &L, writer: &mut W) -> Result<(), Failure>
    ensures said { OnOk result (SaysWhere (L.has_port listener.now) (L.socket_path listener.now)
        (W.contents writer.old) (W.contents writer.new)) }
    ensures broken { IfErr result (λ failure. failure_status failure ≡ 3) }
    ensures why { IfErr result (λ failure. (failure ≡ Listen) ⊎ (failure ≡ Output)) }
{
    let Ok(address) = listener.port_address() else {
        return Err(Failure::Listen);
    };
    if write_where(writer, address, listener.socket_path()).is_err() {
        return Err(Failure::Output);
    }
    Ok(())
}

/// The status of connections that were served: 0 where none had a fault. Where the log has failed all the same, that is
/// told.
fn status_of<E: Lines>(sound: bool, failed_log: bool, errors: &mut E) -> u8
    ensures statuses { (result ≡ 0) ⊎ (result ≡ 3) }
    ensures done { result ≡ 0 → (sound ≡ true) × (failed_log ≡ false) }
    ensures silent { (sound ≡ false) ⊎ (failed_log ≡ false) → (errors.new ≡ errors.old)
        × (result ≡ cond sound 0 3) }
    ensures told { sound ≡ true → failed_log ≡ true → (result ≡ 3)
        × Tells (E.is_whole errors.old) (E.is_whole errors.new) (E.Write.contents errors.old)
        (E.Write.contents errors.new) (failure_text log_failure ++ codes "\n") }
{
    if !sound {
        return BROKEN;
    }
    if failed_log {
        let fault = StreamFault::Log;
        return tell_line(errors, &Failure::Stream(StreamFailure { fault }));
    }
    DONE
}

/// Says where it listens, and serves so many connections, as `serve_connections`. The status is 0 where none had a fault,
/// else 3; it is 3 at once where that can't be said, or a connection can't be accepted, which is told on `errors` after the
/// faults of those before it. With status 0 the log has not failed.
pub fn serve<
    C: Clock,
    M: Service,
    S: Read + Write + OpenStream + Drop,
    L: OpenListener<Stream = S> + Listens,
    W: Write,
    E: Lines,
>(
    clock: &C,
    alloc: Global,
    service: &mut M,
    listener: &L,
    connections: u64,
    writer: &mut W,
    errors: &mut E,
) -> u8
    ensures statuses { (result ≡ 0) ⊎ (result ≡ 3) }
    ensures sound { result ≡ 0 → ServesSoundly S.remaining S.contents M.serving
        (L.has_port listener.now) (L.socket_path listener.now) service.old
        (W.contents writer.old) (W.contents writer.new) connections service.new }
    ensures runs { (answered : List Answered)
        × Runs (M.serving service.old) (M.serving service.new) answered }
    ensures silent { result ≡ 0 → Keeps (E.Write.contents errors.old)
        (E.Write.contents errors.new) }
    ensures serves { Serves S.remaining S.contents M.serving (L.has_port listener.now)
        (L.socket_path listener.now) (E.is_whole errors.old)
        (E.is_whole errors.new) (E.Write.contents errors.old)
        (E.Write.contents errors.new) service.old (W.contents writer.old)
        (W.contents writer.new) connections result service.new }
{
    if let Err(failure) = say_where(listener, writer) {
        return tell_line(errors, &failure);
    }
    match serve_connections(clock, alloc, service, listener, connections, errors) {
        Ok(sound) => status_of(sound, service.has_failed_log(), errors),
        Err(_) => tell_line(errors, &Failure::Listen),
    }
}
