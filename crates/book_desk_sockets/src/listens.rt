//! Where a listener listens.

ghost use Rattle.std.specs.Prelude.{◌≡◌, ◌++◌, ℕ, Bool, List, Option, IfOk, OnOk, is_some, option_map};
ghost use Rattle.std.specs.Io.KnownBytes.{Appends};
ghost use Rattle.book_desk_sockets.specs.Places.{port_line, socket_line};

use std::io::{self, Write};
use std::net::SocketAddr;

/// Where a listener listens: at a port, at the path of a Unix socket, or at both.
pub trait Listens {
    /// Whether it listens at a port.
    ghost has_port: { Self → Bool };

    /// The path of its socket, if it has one.
    ghost socket_path: { Self → Option (List ℕ) };

    /// The address of its port, if it has one.
    ///
    /// # Errors
    ///
    /// Where that is not known.
    fn port_address(&self) -> io::Result<Option<SocketAddr>>
        ensures { IfOk result (λ address. is_some address ≡ has_port self.now) };

    /// The path of its socket, if it has one.
    fn socket_path(&self) -> Option<&str>
        ensures { option_map (λ t. t.now) result ≡ socket_path self.now };
}

/// Writes the line of the port, if there is one.
fn write_port<W: Write>(writer: &mut W, address: Option<SocketAddr>) -> io::Result<()>
    ensures { OnOk result (Appends (W.contents writer.old) (W.contents writer.new)
        (port_line address)) }
{
    match address {
        Some(address) => writeln!(writer, "listening on {address}"),
        None => Ok(()),
    }
}

/// Writes the line of the socket, if there is one.
fn write_socket<W: Write>(writer: &mut W, path: Option<&str>) -> io::Result<()>
    ensures { OnOk result (Appends (W.contents writer.old) (W.contents writer.new)
        (socket_line (option_map (λ t. t.now) path.entry))) }
{
    match path {
        Some(path) => writeln!(writer, "listening on unix:{path}"),
        None => Ok(()),
    }
}

/// Writes where is listened: a line for the port, if there is one, and then one for the socket, if there is one.
///
/// # Errors
///
/// Where they can't be written.
pub fn write_where<W: Write>(
    writer: &mut W,
    address: Option<SocketAddr>,
    path: Option<&str>,
) -> io::Result<()>
    ensures { OnOk result (Appends (W.contents writer.old) (W.contents writer.new)
        (port_line address ++ socket_line (option_map (λ t. t.now) path.entry))) }
{
    write_port(writer, address)?;
    write_socket(writer, path)?;
    writer.flush()
}
