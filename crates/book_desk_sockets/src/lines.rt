//! Streams of connections, over a port or over a Unix socket.

ghost use Rattle.std.specs.Io.{ReadsAtMost, WritesAtMost};

use std::io::{self, Read, Write};
use std::net::{OpenStream, Shutdown};
use std::os::fd::{AsRawFd, RawFd};
use std::os::unix::net::UnixStream;
use std::time::Duration;

/// The stream of a connection over a Unix socket.
#[derive(Drop)]
pub struct LocalStream(pub UnixStream);

impl Read for LocalStream {
    fn read(&mut self, buf: &mut [u8]) -> io::Result<usize> {
        self.0.read(buf)
    }
}

impl Write for LocalStream {
    fn write(&mut self, buf: &[u8]) -> io::Result<usize> {
        self.0.write(buf)
    }

    fn flush(&mut self) -> io::Result<()> {
        self.0.flush()
    }
}

impl OpenStream for LocalStream {
    fn shutdown(&self, how: Shutdown) -> io::Result<()> {
        self.0.shutdown(how)
    }

    fn set_nonblocking(&self, nonblocking: bool) -> io::Result<()> {
        self.0.set_nonblocking(nonblocking)
    }

    fn set_read_timeout(&self, dur: Option<Duration>) -> io::Result<()> {
        self.0.set_read_timeout(dur)
    }

    fn set_write_timeout(&self, dur: Option<Duration>) -> io::Result<()> {
        self.0.set_write_timeout(dur)
    }

    fn take_error(&self) -> io::Result<Option<io::Error>> {
        self.0.take_error()
    }

    fn try_clone(&self) -> io::Result<LocalStream> {
        Ok(LocalStream(self.0.try_clone()?))
    }
}

impl AsRawFd for LocalStream {
    ghost use Rattle.std.specs.Prelude.{Some};
    ghost use Rattle.std.specs.Net.Unix.{unix_stream_raw_fd};

    ghost raw_fd = { λ s. Some (unix_stream_raw_fd s.0) };

    fn as_raw_fd(&self) -> RawFd {
        self.0.as_raw_fd()
    }
}

/// The stream of a connection: one over the port, or one over the socket.
#[derive(Drop)]
pub enum Line<P, U> {
    /// Over the port.
    Port(P),
    /// Over the socket.
    Local(U),
}

impl<P: Read, U: Read> Read for Line<P, U> {
    ghost use Rattle.book_desk_sockets.specs.Lines.{of_line};

    ghost remaining = { of_line P.remaining U.remaining };

    fn read(&mut self, buf: &mut [u8]) -> io::Result<usize> {
        match self {
            Line::Port(stream) => stream.read(buf),
            Line::Local(stream) => stream.read(buf),
        }
    }
}

impl<P: Write, U: Write> Write for Line<P, U> {
    ghost use Rattle.book_desk_sockets.specs.Lines.{of_line};

    ghost contents = { of_line P.contents U.contents };

    fn write(&mut self, buf: &[u8]) -> io::Result<usize> {
        match self {
            Line::Port(stream) => stream.write(buf),
            Line::Local(stream) => stream.write(buf),
        }
    }

    fn flush(&mut self) -> io::Result<()> {
        match self {
            Line::Port(stream) => stream.flush(),
            Line::Local(stream) => stream.flush(),
        }
    }
}

impl<P: OpenStream, U: OpenStream> OpenStream for Line<P, U> {
    fn shutdown(&self, how: Shutdown) -> io::Result<()> {
        match self {
            Line::Port(stream) => stream.shutdown(how),
            Line::Local(stream) => stream.shutdown(how),
        }
    }

    fn set_nodelay(&self, nodelay: bool) -> io::Result<()> {
        match self {
            Line::Port(stream) => stream.set_nodelay(nodelay),
            Line::Local(stream) => stream.set_nodelay(nodelay),
        }
    }

    fn set_nonblocking(&self, nonblocking: bool) -> io::Result<()> {
        match self {
            Line::Port(stream) => stream.set_nonblocking(nonblocking),
            Line::Local(stream) => stream.set_nonblocking(nonblocking),
        }
    }

    fn set_read_timeout(&self, dur: Option<Duration>) -> io::Result<()> {
        match self {
            Line::Port(stream) => stream.set_read_timeout(dur),
            Line::Local(stream) => stream.set_read_timeout(dur),
        }
    }

    fn set_write_timeout(&self, dur: Option<Duration>) -> io::Result<()> {
        match self {
            Line::Port(stream) => stream.set_write_timeout(dur),
            Line::Local(stream) => stream.set_write_timeout(dur),
        }
    }

    fn take_error(&self) -> io::Result<Option<io::Error>> {
        match self {
            Line::Port(stream) => stream.take_error(),
            Line::Local(stream) => stream.take_error(),
        }
    }

    fn try_clone(&self) -> io::Result<Line<P, U>> {
        match self {
            Line::Port(stream) => Ok(Line::Port(stream.try_clone()?)),
            Line::Local(stream) => Ok(Line::Local(stream.try_clone()?)),
        }
    }
}

impl<P: AsRawFd, U: AsRawFd> AsRawFd for Line<P, U> {
    ghost use Rattle.book_desk_sockets.specs.Lines.{of_line};

    ghost raw_fd = { of_line P.raw_fd U.raw_fd };

    fn as_raw_fd(&self) -> RawFd {
        match self {
            Line::Port(stream) => stream.as_raw_fd(),
            Line::Local(stream) => stream.as_raw_fd(),
        }
    }
}
