//! The commands that serve: `pipe` with a log, and `serve`.

use crate::controls::{Controls, Stopwatch};
use crate::logs::{open_log, refuse_log};
use book_desk_administering::{Administered, adopt_noted};
use book_desk_app::{
    AdoptionFailure, BROKEN, Failure, Lines, StreamFailure, kept_connection, tell,
};
use book_desk_files::{
    Named, OverAnyStore, Stage, open_store_named, read_policy_file, run_and_close_any, tell_stage,
};
use book_desk_logs::{LogFile, Pace, SystemClock};
use book_desk_loop::{Limits, Polled};
use book_desk_metrics::Counted;
use book_desk_serving::{Prepared, given_policy, pipe, prepare, serve, serve_many};
use book_desk_sockets::{Doors, LocalDoor, NotMade, SocketPath, make_socket};
use book_desk_stores::{connection_of, tell_refusal};
use book_log_service::Logged;
use book_machine::Machine;
use book_office::{Keeper, MemoryKeeper, Policy, Rounds};
use book_office_cache::Cached;
use book_tables::Tables;
use book_tables_opening::Found;
use book_tables_schema::Unopened;
use book_wire_serving::{RoundService, Service, StreamFault};
use book_wire_steps::{Control, Traffic, Wish};
use sqlite::{Alter, Connection};
use std::alloc::Global;
use std::io::{self, Write};
use std::net::{Ipv4Addr, OpenListener, SocketAddr, TcpListener};
use std::os::fd::{AsFd, RawFd};
use std::time::Duration;

/// The line that tells that another server answers at the socket.
const TAKEN: &str = "socket: taken\n";

/// The line that tells that another server answers at the socket of the control.
const CONTROL_TAKEN: &str = "control: taken\n";

/// The line that tells that there is no control.
const CONTROL_FAILED: &str = "control: failed\n";

/// The permissions of the socket of the control: its owner alone may connect.
const CONTROL_MODE: u16 = 0o600;

/// A Unix socket at which `serve` listens.
#[derive(Clone, Copy)]
pub struct Socket<'w> {
    /// Its path.
    pub path: &'w str,
    /// Its permissions.
    pub mode: u16,
}

/// The socket at a path, if one is given.
pub fn socket_at(path: Option<&str>, mode: u16) -> Option<Socket<'_>> {
    match path {
        Some(path) => Some(Socket { path, mode }),
        None => None,
    }
}

/// Where `serve` listens, how many connections it serves, and how.
#[derive(Clone, Copy)]
pub struct Listening<'w> {
    /// The port, if it is given.
    pub port: Option<u16>,
    /// The socket, if it is given.
    pub socket: Option<Socket<'w>>,
    /// How many connections; none where there is no end.
    pub connections: Option<u16>,
    /// How many at once; none where they are served one after the other.
    pub at_once: Option<u16>,
    /// After how many seconds in which it moves no byte a connection is closed.
    pub idle: Option<u16>,
    /// The path of the socket of its control, if it has one.
    pub control: Option<&'w str>,
    /// The file of the store, if there is one.
    pub store: Option<&'w str>,
}

/// The port and the socket at which it listens.
type HostDoors<'w> = Doors<'w, TcpListener, LocalDoor>;

/// How connections are served by the loop: so many at once, or one after the other, of which none gives its place away.
fn limits_of(listening: Listening<'_>) -> Limits {
    let idle = match listening.idle {
        Some(seconds) => Some(Duration::from_secs(u64::from(seconds))),
        None => None,
    };
    Limits {
        at_once: usize::from(listening.at_once.unwrap_or(1)),
        total: listening.connections,
        idle,
        gives_way: listening.at_once.is_some(),
        is_administered: listening.control.is_some(),
    }
}

/// No control: nothing is done in its turn.
#[derive(Drop)]
struct NoControl;

impl<M: Service> Control<M> for NoControl {
    fn take_turn(&mut self, _service: &mut M, _traffic: Traffic) -> Wish {
        Wish::GoOn
    }
}

/// What tells when a connection may wait, at doors which do not wait from now on; and when a control may go on, if that is by
/// this descriptor.
fn readiness_of<'r>(
    rt: &'r HostRuntime,
    doors: &HostDoors<'_>,
    control: Option<RawFd>,
) -> io::Result<Polled<'r, HostRuntime>> {
    doors.set_nonblocking(true)?;
    let mut readiness = Polled::new(rt, rt.alloc())?;
    if let Some(descriptor) = control {
        readiness.wake_control_by(descriptor)?;
    }
    if let Some(port) = &doors.port {
        readiness.listen_to(port)?;
    }
    if let Some(local) = &doors.local {
        readiness.listen_to(&local.0)?;
    }
    Ok(readiness)
}

/// Serves the connections of the doors by the loop, which gives the control its turn when its descriptor can be read.
fn serve_at_once_on<M: RoundService, C: Control<M>, W: Write, E: Lines>(
    rt: &HostRuntime,
    service: M,
    doors: &HostDoors<'_>,
    limits: Limits,
    control: &mut C,
    descriptor: Option<RawFd>,
    writer: &mut W,
    errors: &mut E,
) -> (M, u8) {
    match readiness_of(rt, doors, descriptor) {
        Ok(mut readiness) => {
            let (service, _, status) = serve_many(
                rt.alloc(),
                service,
                doors,
                &mut readiness,
                control,
                limits,
                writer,
                errors,
            );
            (service, status)
        }
        Err(_) => (service, tell(errors, &Failure::Listen)),
    }
}

/// Tells why there is no control, and gives the status.
fn refuse_control<E: Lines>(errors: &mut E, why: NotMade) -> u8 {
    let line = match why {
        NotMade::Taken => CONTROL_TAKEN,
        NotMade::Failed => CONTROL_FAILED,
    };
    errors.put(line.as_bytes());
    BROKEN
}

/// The control at the path of a socket, which is made.
fn control_at<'r>(
    rt: &'r HostRuntime,
    place: &mut SocketPath<'_, HostRuntime>,
    store: Option<&'r str>,
) -> Result<Controls<'r>, NotMade> {
    let listener = make_socket(place, CONTROL_MODE)?;
    let made = place.identity();
    match Controls::new(rt, listener, store) {
        Ok(controls) => Ok(controls),
        Err(_) => {
            place.remove(made);
            Err(NotMade::Failed)
        }
    }
}

/// Serves the connections of the doors by the loop, with a control, and counts the replies.
fn serve_counted<M: Administered + RoundService, W: Write, E: Lines>(
    rt: &HostRuntime,
    service: M,
    doors: &HostDoors<'_>,
    limits: Limits,
    controls: &mut Controls<'_>,
    writer: &mut W,
    errors: &mut E,
) -> (M, u8) {
    let counted = Counted::new(service, Stopwatch::new(rt));
    let descriptor = Some(controls.descriptor());
    let (counted, status) = serve_at_once_on(
        rt, counted, doors, limits, controls, descriptor, writer, errors,
    );
    (counted.release(), status)
}

/// Makes the socket of the control, serves the connections of the doors by the loop, and removes the socket's file.
fn serve_with_control<M: Administered + RoundService, W: Write, E: Lines>(
    rt: &HostRuntime,
    service: M,
    doors: &HostDoors<'_>,
    listening: Listening<'_>,
    path: &str,
    writer: &mut W,
    errors: &mut E,
) -> (M, u8) {
    let Ok(mut place) = SocketPath::new(rt, rt.alloc(), path) else {
        return (service, refuse_control(errors, NotMade::Failed));
    };
    match control_at(rt, &mut place, listening.store) {
        Ok(mut controls) => {
            let made = place.identity();
            let (service, status) = serve_counted(
                rt,
                service,
                doors,
                limits_of(listening),
                &mut controls,
                writer,
                errors,
            );
            place.remove(made);
            (service, status)
        }
        Err(why) => (service, refuse_control(errors, why)),
    }
}

/// Serves the connections of the doors by the loop, with a control where one is wanted.
fn serve_by_loop<M: Administered + RoundService, W: Write, E: Lines>(
    rt: &HostRuntime,
    service: M,
    doors: &HostDoors<'_>,
    listening: Listening<'_>,
    writer: &mut W,
    errors: &mut E,
) -> (M, u8) {
    match listening.control {
        Some(path) => serve_with_control(rt, service, doors, listening, path, writer, errors),
        None => {
            let limits = limits_of(listening);
            serve_at_once_on(
                rt,
                service,
                doors,
                limits,
                &mut NoControl,
                None,
                writer,
                errors,
            )
        }
    }
}

/// How many connections are served one after the other, each of which is waited for; none where the loop serves them: where
/// many are at once, there is no end of them, or they come over the port and over the socket.
fn in_turn(listening: Listening<'_>) -> Option<u16> {
    let has_both = listening.port.is_some() && listening.socket.is_some();
    if listening.at_once.is_some() || has_both {
        None
    } else {
        listening.connections
    }
}

/// Serves the connections of the doors.
fn serve_all<M: Administered + RoundService, W: Write, E: Lines>(
    rt: &HostRuntime,
    mut service: M,
    doors: &HostDoors<'_>,
    listening: Listening<'_>,
    writer: &mut W,
    errors: &mut E,
) -> (M, u8) {
    match in_turn(listening) {
        Some(connections) => {
            let status = serve(
                rt,
                rt.alloc(),
                &mut service,
                doors,
                u64::from(connections),
                writer,
                errors,
            );
            (service, status)
        }
        None => serve_by_loop(rt, service, doors, listening, writer, errors),
    }
}

/// A listener of this host at the port, which waits, with the longest backlog that the system allows; none without one.
fn listener_at(rt: &HostRuntime, port: Option<u16>) -> io::Result<Option<TcpListener>> {
    let Some(port) = port else {
        return Ok(None);
    };
    let address = SocketAddr::from((Ipv4Addr::LOCALHOST, port));
    let listener = mio::net::TcpListener::bind(rt, address)?;
    let listener = TcpListener::from(listener.as_fd().try_clone_to_owned()?);
    listener.set_nonblocking(false)?;
    Ok(Some(listener))
}

/// Makes the socket, serves the connections, and removes the socket's file.
fn serve_at_socket<M: Administered + RoundService, W: Write, E: Lines>(
    rt: &HostRuntime,
    service: M,
    port: Option<TcpListener>,
    socket: Socket<'_>,
    listening: Listening<'_>,
    writer: &mut W,
    errors: &mut E,
) -> (M, u8) {
    let Ok(mut place) = SocketPath::new(rt, rt.alloc(), socket.path) else {
        return (service, tell(errors, &Failure::Listen));
    };
    match make_socket(&mut place, socket.mode) {
        Ok(local) => {
            let made = place.identity();
            let doors = Doors::new(port, Some(local), Some(socket.path));
            let (service, status) = serve_all(rt, service, &doors, listening, writer, errors);
            place.remove(made);
            (service, status)
        }
        Err(NotMade::Taken) => {
            errors.put(TAKEN.as_bytes());
            (service, BROKEN)
        }
        Err(NotMade::Failed) => (service, tell(errors, &Failure::Listen)),
    }
}

/// Listens on the port, at the socket, or at both, and serves the connections.
fn serve_on<M: Administered + RoundService, W: Write, E: Lines>(
    rt: &HostRuntime,
    service: M,
    listening: Listening<'_>,
    writer: &mut W,
    errors: &mut E,
) -> (M, u8) {
    let Ok(port) = listener_at(rt, listening.port) else {
        return (service, tell(errors, &Failure::Listen));
    };
    match listening.socket {
        Some(socket) => { serve_at_socket(rt, service, port, socket, listening, writer, errors) }
        None => {
            let doors = Doors::new(port, None, None);
            serve_all(rt, service, &doors, listening, writer, errors)
        }
    }
}

/// What is served.
#[derive(Clone, Copy)]
pub enum Served<'w> {
    /// The requests on standard input.
    Requests,
    /// Connections.
    Connections(Listening<'w>),
}

/// When the name of the log is looked at: each second where connections are served at once, and else before each line.
fn pace_of(served: Served<'_>) -> Pace {
    match served {
        Served::Connections(listening) if listening.at_once.is_some() => Pace::EachSecond,
        Served::Requests | Served::Connections(_) => Pace::EachLine,
    }
}

/// Serves what is to be served, and gives the service back.
fn serve_by<M: Administered + RoundService, W: Write, E: Lines>(
    rt: &HostRuntime,
    mut service: M,
    served: Served<'_>,
    writer: &mut W,
    errors: &mut E,
) -> (M, u8) {
    match served {
        Served::Requests => {
            let mut reader = rt.reader();
            let status = pipe(rt.alloc(), &mut service, &mut reader, writer, errors);
            (service, status)
        }
        Served::Connections(listening) => serve_on(rt, service, listening, writer, errors),
    }
}

/// A machine that keeps a log in a file.
type LoggedMachine<'r, K> = Logged<K, LogFile<'r, HostRuntime>, SystemClock<'r, HostRuntime>>;

/// The failure of a line of the log that could not be written.
fn log_failure() -> Failure {
    Failure::Stream(StreamFailure {
        fault: StreamFault::Log,
    })
}

/// Adopts a policy, if there is one, and notes in the log what came of it.
///
/// # Errors
///
/// `Adoption` where it was not adopted; `Stream` where the line could not be written.
fn adopt_logged<K: Keeper>(
    alloc: Global,
    logged: &mut LoggedMachine<'_, K>,
    policy: &Option<Policy>,
) -> Result<(), Failure> {
    let Some(policy) = policy else {
        return Ok(());
    };
    match adopt_noted(alloc, logged, policy) {
        Ok(_) if logged.failed => Err(log_failure()),
        Ok(_) => Ok(()),
        Err(fault) => Err(Failure::Adoption(AdoptionFailure { fault })),
    }
}

/// Adopts a policy over a machine, if there is one, and serves what is to be served, with a log, and gives the machine
/// back.
fn serve_logged<'r, K: Rounds, W: Write, E: Lines>(
    rt: &'r HostRuntime,
    machine: Machine<K>,
    log: LogFile<'r, HostRuntime>,
    policy: &Option<Policy>,
    served: Served<'_>,
    writer: &mut W,
    errors: &mut E,
) -> (Machine<K>, u8) {
    let alloc = rt.alloc();
    let mut logged = Logged::new(alloc, machine, log, SystemClock::new(rt));
    let (logged, status) = match adopt_logged(alloc, &mut logged, policy) {
        Ok(()) => serve_by(rt, logged, served, writer, errors),
        Err(failure) => (logged, tell(errors, &failure)),
    };
    let (machine, log) = logged.release();
    drop(log);
    (machine, status)
}

/// A log, and the policy that is adopted by the machine that keeps it.
#[derive(Drop)]
struct Logging<'r> {
    log: LogFile<'r, HostRuntime>,
    policy: Option<Policy>,
}

/// Serves the Office of a machine that is ready, and gives the machine back. With a log a policy is adopted first.
fn serve_machine<'r, K: Rounds, W: Write, E: Lines>(
    rt: &'r HostRuntime,
    machine: Machine<K>,
    logging: Option<Logging<'r>>,
    served: Served<'_>,
    writer: &mut W,
    errors: &mut E,
) -> (Machine<K>, u8) {
    match logging {
        Some(Logging { log, policy }) => {
            serve_logged(rt, machine, log, &policy, served, writer, errors)
        }
        None => serve_by(rt, machine, served, writer, errors),
    }
}

/// The same of one over an Office in memory, which is let go.
fn serve_in_memory<'r, W: Write, E: Lines>(
    rt: &'r HostRuntime,
    machine: Machine<MemoryKeeper>,
    logging: Option<Logging<'r>>,
    served: Served<'_>,
    writer: &mut W,
    errors: &mut E,
) -> u8 {
    let (machine, status) = serve_machine(rt, machine, logging, served, writer, errors);
    drop(machine);
    status
}

/// The same of one over a store, which comes back.
fn serve_tables<'r, S: Alter + Drop, W: Write, E: Lines>(
    rt: &'r HostRuntime,
    machine: Machine<Cached<Tables<S>>>,
    logging: Option<Logging<'r>>,
    served: Served<'_>,
    writer: &mut W,
    errors: &mut E,
) -> (u8, Option<Connection<S>>) {
    let (machine, status) = serve_machine(rt, machine, logging, served, writer, errors);
    (status, Prepared::Store(machine).release())
}

/// The same of one over either.
fn serve_prepared<'r, S: Alter + Drop, W: Write, E: Lines>(
    rt: &'r HostRuntime,
    prepared: Prepared<S>,
    logging: Option<Logging<'r>>,
    served: Served<'_>,
    writer: &mut W,
    errors: &mut E,
) -> (u8, Option<Connection<S>>) {
    match prepared {
        Prepared::Memory(machine) => {
            let status = serve_in_memory(rt, machine, logging, served, writer, errors);
            (status, None)
        }
        Prepared::Store(machine) => serve_tables(rt, machine, logging, served, writer, errors),
    }
}

/// The connection that is left where nothing could be prepared. A store whose tables were not had is let go as it is.
fn left_of<S: Alter + Drop>(
    rt: &HostRuntime,
    failure: &Failure,
    left: Option<Unopened<S>>,
) -> Option<Connection<S>> {
    match (failure, left) {
        (Failure::Store(_), Some(left)) => {
            if let Some(store) = connection_of(left) {
                tell_refusal(rt, store, false);
            }
            None
        }
        (Failure::Store(_), None) => None,
        (_, Some(left)) => connection_of(left),
        (_, None) => None,
    }
}

/// Prepares an Office, serves it, and gives its store back, if there is one.
fn serve_opened<'r, S: Alter + Drop, W: Write, E: Lines>(
    rt: &'r HostRuntime,
    store: Option<Found<S>>,
    policy: Option<Vec<u8>>,
    logging: Option<Logging<'r>>,
    served: Served<'_>,
    writer: &mut W,
    errors: &mut E,
) -> (u8, Option<Connection<S>>) {
    match prepare(rt.alloc(), store, policy) {
        Ok(prepared) => serve_prepared(rt, prepared, logging, served, writer, errors),
        Err((failure, left)) => {
            drop(logging);
            (tell(errors, &failure), left_of(rt, &failure, left))
        }
    }
}

/// The same with a log: the policy is adopted by the machine that keeps it.
fn serve_with_log<'r, S: Alter + Drop, W: Write, E: Lines>(
    rt: &'r HostRuntime,
    store: Option<Found<S>>,
    policy: Option<Vec<u8>>,
    log: LogFile<'r, HostRuntime>,
    served: Served<'_>,
    writer: &mut W,
    errors: &mut E,
) -> (u8, Option<Connection<S>>) {
    match given_policy(rt.alloc(), policy) {
        Ok(policy) => {
            let logging = Some(Logging { log, policy });
            serve_opened(rt, store, None, logging, served, writer, errors)
        }
        Err(failure) => {
            drop(log);
            (tell(errors, &failure), kept_connection(store))
        }
    }
}

/// What is served over a store, or without one.
struct Serving<'r, 'w, 'a, W, E> {
    rt: &'r HostRuntime,
    policy: Option<Vec<u8>>,
    log: Option<LogFile<'r, HostRuntime>>,
    served: Served<'w>,
    writer: &'a mut W,
    errors: &'a mut E,
}

impl<W: Write, E: Lines> OverAnyStore for Serving<'_, '_, '_, W, E> {
    fn run<S: Alter + Drop>(self, store: Option<Found<S>>) -> (u8, Option<Connection<S>>) {
        let Serving {
            rt,
            policy,
            log,
            served,
            writer,
            errors,
        } = self;
        match log {
            Some(log) => serve_with_log(rt, store, policy, log, served, writer, errors),
            None => serve_opened(rt, store, policy, None, served, writer, errors),
        }
    }
}

/// Opens the store, if one is named, and serves.
fn serve_store<'r, W: Write, E: Lines>(
    rt: &'r HostRuntime,
    named: Named<'_>,
    policy: Option<Vec<u8>>,
    log: Option<LogFile<'r, HostRuntime>>,
    served: Served<'_>,
    writer: &mut W,
    errors: &mut E,
) -> u8 {
    let store = match open_store_named(rt, named.store, named.existing) {
        Ok(store) => store,
        Err(failure) => return tell(errors, &failure),
    };
    if policy.is_some() {
        tell_stage(rt, Stage::Adopting);
    }
    let task = Serving {
        rt,
        policy,
        log,
        served,
        writer,
        errors,
    };
    run_and_close_any(store, task)
}

/// The commands `serve`, and `pipe` with a log: the policy's file is read, the log and the store's file are opened,
/// and what is to be served is.
pub fn serve_named<W: Write, E: Lines>(
    rt: &HostRuntime,
    named: Named<'_>,
    log: Option<&str>,
    served: Served<'_>,
    writer: &mut W,
    errors: &mut E,
) -> u8 {
    let policy = match read_policy_file(rt, named.policy) {
        Ok(policy) => policy,
        Err(failure) => return tell(errors, &failure),
    };
    match open_log(rt, log, pace_of(served)) {
        Ok(log) => serve_store(rt, named, policy, log, served, writer, errors),
        Err(_) => refuse_log(errors),
    }
}
