//! A stream of requests (RFC 9112, section 9.3).

ghost use Rattle.std.specs.Prelude.{◌≡◌, ◌≢◌, ◌⊎◌, ℕ, ◌+◌, ◌-◌, ◌^◌, min, false, true, List, [], ◌++◌, IfOk, IfErr, OnOk, OnErr, Err};
ghost use Rattle.std.specs.Io.KnownBytes.{Appends, Consumes, Keeps};
ghost use Rattle.book_wire.specs.Connection.{IsFed, fresh};
ghost use Rattle.book_wire_serving.specs.Serving.{Stays};
ghost use Rattle.book_wire.specs.Stream.{IsStream, IsInput};
ghost use Rattle.book_wire.specs.Turn.{StopsBy, StopsReading, StopsWriting};

use crate::connection::{Connection, Wire};
use crate::output::put;
use crate::turns::Turn;
use book_wire_serving::{Service, StreamFault};
use std::alloc::Global;
use std::io::{Read, Write};

/// What was served of a stream (own profile).
#[derive(Clone, Copy, Debug, PartialEq, Eq)]
pub struct Served {
    /// How many whole requests were answered; those that can't be read are none. It stays at its last value.
    pub requests: u64,
    /// How the stream ended.
    pub ended: Ended,
}

/// How a stream ended.
#[derive(Clone, Copy, Debug, PartialEq, Eq)]
pub enum Ended {
    /// No byte follows the last whole request.
    Clean,
    /// The input ends within a request, which is not answered and does nothing.
    Cut,
    /// The connection closes after the last reply.
    Closed,
}

/// Sends all that is to be sent, the front of it first.
fn send_all<W: Write>(
    alloc: Global,
    connection: &mut Connection,
    writer: &mut W,
) -> Result<(), StreamFault>
    ensures ok { OnOk result (Appends (W.contents writer.old)
        (W.contents writer.new) connection.old.unsent × (connection.new.unsent ≡ [])) }
    ensures err { IfErr result (λ e. (e ≡ StreamFault.Write)
        × ((front left : List ℕ) × (connection.old.unsent ≡ front ++ left)
        × Appends (W.contents writer.old) (W.contents writer.new) front)) }
    ensures unread { connection.new.unread ≡ connection.old.unread }
    ensures closing { connection.new.closing ≡ connection.old.closing }
    ensures stalled { connection.new.stalled ≡ connection.old.stalled }
{
    loop {
        let unsent = connection.unsent();
        let count = unsent.len();
        if count == 0 {
            return Ok(());
        }
        match put(writer, unsent) {
            Ok(()) => match connection.did_send(alloc, count) {
                Ok(()) => {}
                Err(fault) => return Err(fault),
            },
            Err(fault) => return Err(fault),
        }
    }
}

/// Answers each whole request that is there, and sends each reply before the next request is read. It says how many
/// requests were answered with those before.
fn answer_all<M: Service, W: Write>(
    alloc: Global,
    service: &mut M,
    wire: &mut Wire,
    connection: &mut Connection,
    writer: &mut W,
    before: u64,
) -> Result<u64, StreamFault>
    requires open { connection.old.closing ≡ false }
    requires going { connection.old.stalled ≡ false }
    requires sent { connection.old.unsent ≡ [] }
    ensures ok { IfOk result (λ requests. (more : List ℕ) × (count : ℕ)
        × Appends (W.contents writer.old) (W.contents writer.new) more
        × (requests ≡ min (before + count) (2 ^ 64 - 1))
        × IsFed (M.serving service.old) connection.old.unread more count
        (M.serving service.new) connection.new × (connection.new.stalled ≡ false)
        × (connection.new.unsent ≡ [])) }
    ensures err { OnErr result ((more : List ℕ)
        × Appends (W.contents writer.old) (W.contents writer.new) more
        × StopsWriting (M.serving service.old) connection.old.unread more
        (M.serving service.new)) }
    ensures fault { IfErr result (λ e. StopsBy e (M.serving service.new)) }
{
    let mut requests = before;
    loop {
        match connection.answer_next(alloc, service, wire) {
            Ok(turn) => match turn {
                Turn::Wait(_) => return Ok(requests),
                Turn::Answered => match send_all(alloc, connection, writer) {
                    Ok(()) => requests = requests.saturating_add(1),
                    Err(fault) => return Err(fault),
                },
                Turn::Last => {
                    return match send_all(alloc, connection, writer) {
                        Ok(()) => Ok(requests.saturating_add(1)),
                        Err(fault) => Err(fault),
                    };
                }
                Turn::Refused => {
                    return match send_all(alloc, connection, writer) {
                        Ok(()) => Ok(requests),
                        Err(fault) => Err(fault),
                    };
                }
            },
            Err(fault) => return Err(fault),
        }
    }
}

/// How a stream ends whose input ends with so much unread.
fn end_at(unread: &[u8]) -> Ended
    ensures { ((unread.now ≡ []) × (result ≡ Ended.Clean))
        ⊎ ((unread.now ≢ []) × (result ≡ Ended.Cut)) }
{
    match unread {
        [] => Ended::Clean,
        _ => Ended::Cut,
    }
}

/// Serves the requests of a reader one after the other, and writes the replies (RFC 9112; own profile).
///
/// What is written does not depend on how the input was cut into pieces. A request of which memory was refused before
/// it was read is answered unavailable, and so is one whose reply can't be made for want of memory. The buffers and the
/// router are made before the first byte is read.
///
/// No clause says when it writes: it answers each whole request, and sends the reply, before the next one is answered, and
/// before it reads on. A reply of at most 64 KB is sent by one write. A longer one of several items is sent by several,
/// and no more of it is made at once than 64 KB and one item; all memory for it is taken before its first byte is sent.
///
/// # Errors
///
/// `Memory` before the first byte is read. `Read` where a read failed, and `Write` where a write failed or took
/// nothing: neither is repeated. `Log` where the line of a reply could not be written, which is not sent then.
pub fn serve_stream<M: Service, R: Read, W: Write>(
    alloc: Global,
    service: &mut M,
    reader: &mut R,
    writer: &mut W,
) -> Result<Served, StreamFault>
    ensures served { IfOk result (λ served. (input written : List ℕ)
        × IsInput (R.remaining reader.old) input
        × Appends (W.contents writer.old) (W.contents writer.new) written
        × IsStream (M.serving service.old) input written served
        (M.serving service.new)) }
    ensures memory { result ≡ Err StreamFault.Memory
        → Stays (M.serving service.old) (M.serving service.new)
        × Keeps (R.remaining reader.old) (R.remaining reader.new)
        × Keeps (W.contents writer.old) (W.contents writer.new) }
    ensures read { result ≡ Err StreamFault.Read → (input written : List ℕ)
        × Consumes (R.remaining reader.old) (R.remaining reader.new) input
        × Appends (W.contents writer.old) (W.contents writer.new) written
        × StopsReading (M.serving service.old) input written
        (M.serving service.new) }
    ensures write { result ≡ Err StreamFault.Write → (input written : List ℕ)
        × Consumes (R.remaining reader.old) (R.remaining reader.new) input
        × Appends (W.contents writer.old) (W.contents writer.new) written
        × StopsWriting (M.serving service.old) input written
        (M.serving service.new) }
    ensures log { result ≡ Err StreamFault.Log → (input written : List ℕ)
        × Consumes (R.remaining reader.old) (R.remaining reader.new) input
        × Appends (W.contents writer.old) (W.contents writer.new) written
        × StopsWriting (M.serving service.old) input written (M.serving service.new)
        × ((M.serving service.new).log.failed ≡ true) }
{
    let mut wire = match Wire::new(alloc) {
        Ok(wire) => wire,
        Err(_) => return Err(StreamFault::Memory),
    };
    let mut connection = match Connection::whole(alloc) {
        Ok(connection) => connection,
        Err(_) => return Err(StreamFault::Memory),
    };
    serve_from(alloc, service, &mut wire, &mut connection, reader, writer)
}

/// Serves the requests of a reader, with nothing read so far.
fn serve_from<M: Service, R: Read, W: Write>(
    alloc: Global,
    service: &mut M,
    wire: &mut Wire,
    connection: &mut Connection,
    reader: &mut R,
    writer: &mut W,
) -> Result<Served, StreamFault>
    requires { connection.old ≡ fresh }
    ensures served { IfOk result (λ served. (input written : List ℕ)
        × IsInput (R.remaining reader.old) input
        × Appends (W.contents writer.old) (W.contents writer.new) written
        × IsStream (M.serving service.old) input written served
        (M.serving service.new)) }
    ensures memory { result ≢ Err StreamFault.Memory }
    ensures read { result ≡ Err StreamFault.Read → (input written : List ℕ)
        × Consumes (R.remaining reader.old) (R.remaining reader.new) input
        × Appends (W.contents writer.old) (W.contents writer.new) written
        × StopsReading (M.serving service.old) input written
        (M.serving service.new) }
    ensures write { result ≡ Err StreamFault.Write → (input written : List ℕ)
        × Consumes (R.remaining reader.old) (R.remaining reader.new) input
        × Appends (W.contents writer.old) (W.contents writer.new) written
        × StopsWriting (M.serving service.old) input written
        (M.serving service.new) }
    ensures log { result ≡ Err StreamFault.Log → (input written : List ℕ)
        × Consumes (R.remaining reader.old) (R.remaining reader.new) input
        × Appends (W.contents writer.old) (W.contents writer.new) written
        × StopsWriting (M.serving service.old) input written (M.serving service.new)
        × ((M.serving service.new).log.failed ≡ true) }
{
    let mut requests = 0;
    for _ in 0..u64::MAX {
        let count = match connection.fill(reader) {
            Ok(count) => count,
            Err(fault) => return Err(fault),
        };
        if count == 0 {
            let ended = end_at(connection.unread());
            return Ok(Served { requests, ended });
        }
        match answer_all(alloc, service, wire, connection, writer, requests) {
            Ok(answered) => requests = answered,
            Err(fault) => return Err(fault),
        }
        if connection.is_closing() {
            return Ok(Served {
                requests,
                ended: Ended::Closed,
            });
        }
    }
    Err(StreamFault::Read)
}
