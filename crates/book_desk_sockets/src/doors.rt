//! A listener at a port and at a Unix socket.

ghost use Rattle.std.specs.Prelude.{◌≡◌, ◌≢◌, IfErr, IfOk, IfSome, option_map};
ghost use Rattle.std.specs.IoError.{error_kind};
ghost use Rattle.book_desk_sockets.specs.Lines.{IsGiven, IsGivenBy, IsOne, IsThereAnd};

use crate::lines::{Line, LocalStream};
use crate::listens::Listens;
use std::cell::Cell;
use std::io::{self, ErrorKind};
use std::net::{Ipv4Addr, OpenListener, SocketAddr, TcpListener, TcpStream};
use std::os::unix::net::UnixListener;

/// What gives connections.
pub trait Door {
    /// The stream of a connection.
    type Stream: Drop;

    /// That it gives this one.
    ghost gives: { Self → Self.Stream → Type 0 } = { λ _ _. Unit {0} };

    /// That none waits.
    ghost is_empty: { Self → Type 0 } = { λ _. Unit {0} };

    /// That none can be had.
    ghost fails: { Self → Type 0 } = { λ _. Unit {0} };

    /// Gives a connection.
    ///
    /// # Errors
    ///
    /// `WouldBlock` where none waits; another where none can be had.
    fn give(&self) -> io::Result<Self::Stream>
        ensures gives { IfOk result (gives self.now) }
        ensures empty { IfErr result (λ e. error_kind e ≡ ErrorKind.WouldBlock
            → is_empty self.now) }
        ensures fails { IfErr result (λ e. error_kind e ≢ ErrorKind.WouldBlock → fails self.now) };

    /// Has `give` wait for a connection, or not.
    ///
    /// # Errors
    ///
    /// Where that can't be set.
    fn set_waiting(&self, waiting: bool) -> io::Result<()>;
}

impl Door for TcpListener {
    type Stream = TcpStream;

    fn give(&self) -> io::Result<TcpStream> {
        let (stream, _) = self.accept()?;
        Ok(stream)
    }

    fn set_waiting(&self, waiting: bool) -> io::Result<()> {
        self.set_nonblocking(!waiting)
    }
}

/// A Unix socket that listens.
#[derive(Drop)]
pub struct LocalDoor(pub UnixListener);

impl Door for LocalDoor {
    type Stream = LocalStream;

    fn give(&self) -> io::Result<LocalStream> {
        let (stream, _) = self.0.accept()?;
        Ok(LocalStream(stream))
    }

    fn set_waiting(&self, waiting: bool) -> io::Result<()> {
        self.0.set_nonblocking(!waiting)
    }
}

/// A connection of a door; none waits where there is no door.
fn give_of<D: Door>(door: &Option<D>) -> io::Result<D::Stream>
    ensures gives { IfOk result (λ stream. IsGivenBy D.gives door.now stream) }
    ensures empty { IfErr result (λ e. error_kind e ≡ ErrorKind.WouldBlock
        → IfSome door.now D.is_empty) }
    ensures fails { IfErr result (λ e. error_kind e ≢ ErrorKind.WouldBlock
        → IsThereAnd D.fails door.now) }
{
    match door {
        Some(door) => door.give(),
        None => Err(ErrorKind::WouldBlock.into()),
    }
}

/// A connection of the port, or of the socket: of the one that is asked first, or where none waits there, of the other.
///
/// # Errors
///
/// `WouldBlock` where none waits at either; another where none can be had of one of them.
pub fn accept_from<P: Door, U: Door>(
    port: &Option<P>,
    local: &Option<U>,
    local_first: bool,
) -> io::Result<Line<P::Stream, U::Stream>>
    ensures gives { IfOk result (IsGiven P.gives U.gives port.now local.now) }
    ensures empty { IfErr result (λ e. error_kind e ≡ ErrorKind.WouldBlock
        → IfSome port.now P.is_empty × IfSome local.now U.is_empty) }
    ensures fails { IfErr result (λ e. error_kind e ≢ ErrorKind.WouldBlock
        → IsOne P.fails U.fails port.now local.now) }
{
    if local_first {
        match give_of(local) {
            Ok(stream) => Ok(Line::Local(stream)),
            Err(error) => {
                if error.kind() != ErrorKind::WouldBlock {
                    return Err(error);
                }
                Ok(Line::Port(give_of(port)?))
            }
        }
    } else {
        match give_of(port) {
            Ok(stream) => Ok(Line::Port(stream)),
            Err(error) => {
                if error.kind() != ErrorKind::WouldBlock {
                    return Err(error);
                }
                Ok(Line::Local(give_of(local)?))
            }
        }
    }
}

/// A port, a Unix socket at a path, or both, as one listener. Each is asked first every other time.
#[derive(Drop)]
pub struct Doors<'p, P, U> {
    /// The port, if there is one.
    pub port: Option<P>,
    /// The socket, if there is one.
    pub local: Option<U>,
    /// Its path.
    pub path: Option<&'p str>,
    /// Whether the socket is asked first next.
    local_first: Cell<bool>,
}

impl<'p, P, U> Doors<'p, P, U> {
    /// A listener at what is there of the two.
    pub fn new(port: Option<P>, local: Option<U>, path: Option<&'p str>) -> Doors<'p, P, U>
        ensures { (result.port ≡ port) × (result.local ≡ local)
            × (option_map (λ t. t.now) result.path ≡ option_map (λ t. t.now) path.entry) }
    {
        Doors {
            port,
            local,
            path,
            local_first: Cell::new(false),
        }
    }
}

/// The address of a peer on a Unix socket, which has none.
fn no_address() -> SocketAddr {
    SocketAddr::from((Ipv4Addr::UNSPECIFIED, 0))
}

/// Has a door wait for a connection, or not.
fn set_waiting<D: Door>(door: &Option<D>, waiting: bool) -> io::Result<()> {
    match door {
        Some(door) => door.set_waiting(waiting),
        None => Ok(()),
    }
}

impl<P: Door, U: Door> OpenListener for Doors<'_, P, U> {
    type Stream = Line<P::Stream, U::Stream>;

    fn accept(&self) -> io::Result<(Line<P::Stream, U::Stream>, SocketAddr)>
        ensures gives { IfOk result (λ given. IsGiven P.gives U.gives self.now.port
            self.now.local given.0) }
        ensures empty { IfErr result (λ e. error_kind e ≡ ErrorKind.WouldBlock
            → IfSome self.now.port P.is_empty × IfSome self.now.local U.is_empty) }
        ensures fails { IfErr result (λ e. error_kind e ≢ ErrorKind.WouldBlock
            → IsOne P.fails U.fails self.now.port self.now.local) }
    {
        let local_first = self.local_first.get();
        self.local_first.set(!local_first);
        let line = accept_from(&self.port, &self.local, local_first)?;
        Ok((line, no_address()))
    }

    fn set_nonblocking(&self, nonblocking: bool) -> io::Result<()> {
        set_waiting(&self.port, !nonblocking)?;
        set_waiting(&self.local, !nonblocking)
    }
}

impl<P: OpenListener, U> Listens for Doors<'_, P, U> {
    ghost use Rattle.std.specs.Prelude.{is_some, option_map};

    ghost has_port = { λ doors. is_some doors.port };

    ghost socket_path = { λ doors. option_map (λ t. t.now) doors.path };

    fn port_address(&self) -> io::Result<Option<SocketAddr>> {
        match &self.port {
            Some(port) => Ok(Some(port.local_addr()?)),
            None => Ok(None),
        }
    }

    fn socket_path(&self) -> Option<&str> {
        self.path
    }
}
