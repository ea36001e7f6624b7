//! The connections of a listener, many at once.

ghost use Rattle.std.specs.Prelude.{◌≡◌, List, [], cond};
ghost use Rattle.book_wire_serving.specs.Serving.{Answered};
ghost use Rattle.book_wire_steps.specs.Steps.{ServesInSteps};
ghost use Rattle.book_desk_serving.specs.AtOnce.{ServesAtOnce, last_line, served_status, stop_failure};
ghost use Rattle.book_desk_app.specs.Telling.{Tells};

use crate::listening::say_where;
use book_desk_app::{BROKEN, DONE, Failure, Lines, StoreFailure, StreamFailure, tell_line};
use book_desk_loop::{Faults, Limits, Readiness, Stop, serve_at_once};
use book_desk_sockets::Listens;
use book_wire_serving::{RoundService, StreamFault};
use book_wire_steps::Control;
use std::alloc::Global;
use std::io::{Read, Write};
use std::net::{OpenListener, OpenStream};

/// The most lines on clients in one life: an end of standard error that nobody reads takes so many.
const LINES_ON_CLIENTS: u16 = 1_000;

/// The last line on a client.
const NO_MORE: &str = "stream: no more are told\n";

/// Where the fault of each connection that has one is told, as a line, and whether none had one.
struct Told<E> {
    errors: E,
    sound: bool,
    /// How many had one.
    count: u64,
    /// How many lines on clients may be told yet.
    lines: u16,
}

impl<E: Lines> Faults for Told<E> {
    ghost use Rattle.std.specs.Prelude.{◌≡◌, ◌-◌, false};
    ghost use Rattle.book_desk_serving.specs.AtOnce.{line_of_client};
    ghost use Rattle.book_desk_app.specs.Telling.{Tells};

    ghost tells = { λ old fault new. (new.sound ≡ false) × (new.lines ≡ old.lines - 1)
        × Tells (E.is_whole old.errors) (E.is_whole new.errors) (E.Write.contents old.errors) (E.Write.contents new.errors)
        (line_of_client old.lines fault) };

    fn tell(&mut self, fault: StreamFault) {
        self.sound = false;
        self.count = self.count.saturating_add(1);
        if self.lines == 0 {
            return;
        }
        self.lines -= 1;
        if self.lines == 0 {
            self.errors.put(NO_MORE.as_bytes());
            return;
        }
        // Where this can't be written, the status of the program alone tells it.
        tell_line(&mut self.errors, &Failure::Stream(StreamFailure { fault }));
    }

    fn count(&self) -> u64 {
        self.count
    }
}

/// What is told where connections are served no more.
fn failure_of(stop: Stop) -> Failure
    ensures { result ≡ stop_failure stop }
{
    match stop {
        Stop::Failed => Failure::Listen,
        Stop::Store => Failure::Store(StoreFailure::Store),
        Stop::Log => Failure::Stream(StreamFailure {
            fault: StreamFault::Log,
        }),
    }
}

/// Tells what ended it, where it did not end well, and gives the status.
fn status_of<E: Lines>(errors: &mut E, served: Result<(), Stop>, sound: bool) -> u8
    ensures status { result ≡ cond sound (served_status [] served) 3 }
    ensures line { Tells (E.is_whole errors.old) (E.is_whole errors.new)
        (E.Write.contents errors.old) (E.Write.contents errors.new) (last_line served) }
{
    match served {
        Ok(()) => { if sound { DONE } else { BROKEN } }
        Err(stop) => tell_line(errors, &failure_of(stop)),
    }
}

/// Says where it listens, and serves connections, many at once, and gives the service and `errors` back. The status is 0
/// where none had a fault, else 3; it is 3 at once where that can't be said, or a connection can't be accepted. The fault of
/// each client is told on `errors`, as a line, and at most 1,000 lines: the last says that no more are told. Where there is
/// no end of connections, and the store has failed and shows nothing, that is told, and the status is 3. Where a line of the
/// log could not be written, that is told, once, and the status is 3. Where a control wished an end, it is as after the last
/// connection.
///
/// Whatever the order in which the bytes of the connections come, each is answered for its own requests alone. The requests
/// of all, in the order in which they were completed, and the policies that the control adopted between two of them, are steps
/// in one order; where the server is not administered the requests are one run. What each stream gave and was given is what
/// its connection received and was sent; why each was let go is known.
pub fn serve_many<
    M: RoundService,
    S: Read + Write + OpenStream + Drop,
    L: OpenListener<Stream = S> + Listens,
    P: Readiness<S>,
    C: Control<M>,
    W: Write,
    E: Lines,
>(
    alloc: Global,
    service: M,
    listener: &L,
    readiness: &mut P,
    control: &mut C,
    limits: Limits,
    writer: &mut W,
    mut errors: E,
) -> (M, E, u8)
    ensures served { ServesAtOnce S.remaining S.contents M.serving
        (L.has_port listener.now) (L.socket_path listener.now) limits service
        (E.is_whole errors) (E.is_whole result.1) (E.Write.contents errors)
        (E.Write.contents result.1) (W.contents writer.old)
        (W.contents writer.new) result.2 result.0 }
    ensures steps { (answered : List Answered)
        × ServesInSteps M.serving limits.is_administered service result.0 answered }
{
    if let Err(failure) = say_where(listener, writer) {
        let status = tell_line(&mut errors, &failure);
        return (service, errors, status);
    }
    let mut told = Told {
        errors,
        sound: true,
        count: 0,
        lines: LINES_ON_CLIENTS,
    };
    let (service, served) = serve_at_once(
        alloc, service, listener, readiness, control, limits, &mut told,
    );
    let Told {
        mut errors,
        sound,
        count: _,
        lines: _,
    } = told;
    let status = status_of(&mut errors, served, sound);
    (service, errors, status)
}
