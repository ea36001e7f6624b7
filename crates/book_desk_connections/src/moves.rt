//! Bytes between a connection and its socket, or any other reader and writer that does not wait.

ghost use Rattle.std.specs.Prelude.{◌≡◌, ◌≢◌, ◌⊎◌, ℕ, ◌<◌, List, [], ◌++◌, length, map, false, true};
ghost use Rattle.std.specs.Io.KnownBytes.{Appends, Consumes, IsAtEnd};
ghost use Rattle.book_wire_serving.specs.Serving.{Runs};
ghost use Rattle.book_wire.specs.Stream.{Exchange, answered_of};
ghost use Rattle.book_wire_serving.specs.declared.faults.StreamFault.{StreamFault as Fault};
ghost use Rattle.book_desk_connections.specs.ManyConnections.{History, Entry, AreServed, Holds, TakesBytes, OthersStay, entries, receives, is_sent, number_at};
ghost use Rattle.book_desk_connections.specs.declared.connections.Accepted.{Accepted};
ghost use Rattle.book_desk_connections.specs.Streams.{HasNoWhole, IsAnsweredAt, IsDoneAt, IsStillAt, Serves, TakesATurn, WasAtEnd};

use crate::connections::Connections;
use book_wire_serving::{Service, StreamFault};
use std::alloc::Global;
use std::io::{ErrorKind, Read, Write};
use std::net::OpenStream;

/// What became of a read or a write.
#[derive(Clone, Copy, Debug, PartialEq, Eq)]
pub enum Moved {
    /// Bytes were moved, or it is to be tried again.
    Some,
    /// There was nothing to move, or it would wait.
    Nothing,
    /// The input is at its end.
    Ended,
    /// It failed, or memory was refused. The connection is to be let go.
    Failed(StreamFault),
}

/// Reads once, and answers the requests that are whole then.
#[tactic(auto, using(crate::proofs::Places::others_same))]
pub fn read_once<M: Service, R: Read>(
    alloc: Global,
    connections: &mut Connections<M>,
    place: usize,
    reader: &mut R,
    memory: &mut [u8],
) -> Moved
    requires { TakesBytes connections.old.places.items place }
    ensures served { (bytes : List ℕ) × Consumes (R.remaining reader.old)
        (R.remaining reader.new) bytes ×
        ((histories : ℕ → History) (log : List Entry)
        → AreServed histories log connections.old.opened connections.old.places.items
        → (more : List Exchange) × AreServed
        (receives histories (number_at connections.old.places.items place) bytes)
        (log ++ entries (number_at connections.old.places.items place) more) connections.new.opened
        connections.new.places.items × Runs (M.serving connections.old.service)
        (M.serving connections.new.service) (map answered_of more)) }
    ensures others { OthersStay place connections.old.places.items connections.new.places.items }
    ensures opened { connections.new.opened ≡ connections.old.opened }
    ensures there { ((fault : Fault) → result ≢ Moved.Failed fault)
        → IsStillAt place connections.old.places.items connections.new.places.items }
    ensures ended { result ≡ Moved.Ended → IsAtEnd (R.remaining reader.new) }
    ensures still { result ≡ Moved.Ended → connections.new ≡ connections.old }
{
    if memory.is_empty() {
        return Moved::Nothing;
    }
    match reader.read(memory) {
        Ok(0) => Moved::Ended,
        Ok(count) => match connections.feed(alloc, place, &memory[..count]) {
            Ok(()) => Moved::Some,
            Err(fault) => Moved::Failed(fault),
        },
        Err(e) => waits_or_failed(e.kind(), StreamFault::Read),
    }
}

/// Reads once, and answers nothing yet.
#[tactic(auto, using(crate::proofs::Places::others_same))]
fn hold_once<M: Service, R: Read>(
    connections: &mut Connections<M>,
    place: usize,
    reader: &mut R,
    memory: &mut [u8],
) -> Moved
    requires { TakesBytes connections.old.places.items place }
    ensures service { connections.new.service ≡ connections.old.service }
    ensures held { (bytes : List ℕ) × Consumes (R.remaining reader.old) (R.remaining reader.new)
        bytes × ((histories : ℕ → History) (log : List Entry)
        → AreServed histories log connections.old.opened connections.old.places.items
        → AreServed (receives histories (number_at connections.old.places.items place) bytes) log
        connections.new.opened connections.new.places.items) }
    ensures others { OthersStay place connections.old.places.items connections.new.places.items }
    ensures opened { connections.new.opened ≡ connections.old.opened }
    ensures there { ((fault : Fault) → result ≢ Moved.Failed fault)
        → IsStillAt place connections.old.places.items connections.new.places.items }
    ensures ended { result ≡ Moved.Ended → IsAtEnd (R.remaining reader.new) }
{
    if memory.is_empty() {
        return Moved::Nothing;
    }
    match reader.read(memory) {
        Ok(0) => Moved::Ended,
        Ok(count) => match connections.hold(place, &memory[..count]) {
            Ok(()) => Moved::Some,
            Err(fault) => Moved::Failed(fault),
        },
        Err(e) => waits_or_failed(e.kind(), StreamFault::Read),
    }
}

/// Writes once of what waits to be sent.
#[tactic(auto, using(crate::proofs::Places::others_same))]
pub fn write_once<M: Service, W: Write>(
    alloc: Global,
    connections: &mut Connections<M>,
    place: usize,
    writer: &mut W,
) -> Moved
    ensures service { connections.new.service ≡ connections.old.service }
    ensures others { OthersStay place connections.old.places.items connections.new.places.items }
    ensures opened { connections.new.opened ≡ connections.old.opened }
    ensures there { ((fault : Fault) → result ≢ Moved.Failed fault)
        → IsStillAt place connections.old.places.items connections.new.places.items }
    ensures sent { (bytes : List ℕ) × Appends (W.contents writer.old) (W.contents writer.new) bytes
        × ((histories : ℕ → History) (log : List Entry)
        → AreServed histories log connections.old.opened connections.old.places.items
        → AreServed (is_sent histories (number_at connections.old.places.items place) bytes) log
        connections.new.opened connections.new.places.items) }
{
    let bytes = match connections.unsent(place) {
        Some(bytes) => bytes,
        None => return Moved::Nothing,
    };
    if bytes.is_empty() {
        return Moved::Nothing;
    }
    match writer.write(bytes) {
        Ok(0) => Moved::Failed(StreamFault::Write),
        Ok(count) => match connections.did_send(alloc, place, count) {
            Ok(()) => Moved::Some,
            Err(fault) => Moved::Failed(fault),
        },
        Err(e) => waits_or_failed(e.kind(), StreamFault::Write),
    }
}

/// What an error says.
fn waits_or_failed(kind: ErrorKind, fault: StreamFault) -> Moved
    ensures { result ≢ Moved.Ended }
{
    match kind {
        ErrorKind::WouldBlock => Moved::Nothing,
        ErrorKind::Interrupted => Moved::Some,
        _ => Moved::Failed(fault),
    }
}

/// What became of a connection.
#[derive(Clone, Copy, Debug, PartialEq, Eq)]
pub enum Turn {
    /// It waits for its client: for bytes, or to take bytes.
    Waits,
    /// There may be more at once.
    Again,
    /// Its last reply is sent, and it is to be closed in stages.
    Done,
    /// Its input ended, and all is sent.
    Ended,
    /// It had a fault.
    Failed(StreamFault),
}

/// Sends once of what waits.
fn send_some<M: Service, S: Read + Write>(
    alloc: Global,
    connections: &mut Connections<M>,
    place: usize,
    stream: &mut S,
) -> Moved
    ensures served { (went : List ℕ) × Serves M.serving S.remaining S.contents place
        connections.old connections.new stream.old stream.new [] went }
    ensures there { ((fault : Fault) → result ≢ Moved.Failed fault)
        → IsStillAt place connections.old.places.items connections.new.places.items }
{
    write_once(alloc, connections, place, stream)
}

/// Reads once, and answers.
fn take_some<M: Service, S: Read + Write>(
    alloc: Global,
    connections: &mut Connections<M>,
    place: usize,
    stream: &mut S,
    memory: &mut [u8],
) -> Moved
    requires { TakesBytes connections.old.places.items place }
    ensures served { (came : List ℕ) × Serves M.serving S.remaining S.contents place
        connections.old connections.new stream.old stream.new came [] }
    ensures there { ((fault : Fault) → result ≢ Moved.Failed fault)
        → IsStillAt place connections.old.places.items connections.new.places.items }
    ensures ended { result ≡ Moved.Ended → IsAtEnd (S.remaining stream.new) }
    ensures still { result ≡ Moved.Ended → connections.new ≡ connections.old }
{
    read_once(alloc, connections, place, stream, memory)
}

/// Goes on with the whole requests that are there. No byte is read for them.
fn answer_more<M: Service>(alloc: Global, connections: &mut Connections<M>, place: usize) -> Moved
    requires { TakesBytes connections.old.places.items place }
    ensures served { (histories : ℕ → History) (log : List Entry)
        → AreServed histories log connections.old.opened connections.old.places.items
        → (more : List Exchange) × AreServed
        (receives histories (number_at connections.old.places.items place) [])
        (log ++ entries (number_at connections.old.places.items place) more) connections.new.opened
        connections.new.places.items × Runs (M.serving connections.old.service)
        (M.serving connections.new.service) (map answered_of more) }
    ensures others { OthersStay place connections.old.places.items connections.new.places.items }
    ensures opened { connections.new.opened ≡ connections.old.opened }
    ensures there { ((fault : Fault) → result ≢ Moved.Failed fault)
        → IsStillAt place connections.old.places.items connections.new.places.items }
    ensures ended { result ≢ Moved.Ended }
{
    match connections.feed(alloc, place, &[]) {
        Ok(()) => Moved::Some,
        Err(fault) => Moved::Failed(fault),
    }
}

/// Goes on with the requests of a connection that takes bytes: with those that are there, or with those that come.
fn bring<M: Service, S: Read + Write>(
    alloc: Global,
    connections: &mut Connections<M>,
    place: usize,
    stream: &mut S,
    memory: &mut [u8],
    at_end: bool,
) -> Moved
    requires { TakesBytes connections.old.places.items place }
    ensures served { (came : List ℕ) × Serves M.serving S.remaining S.contents place
        connections.old connections.new stream.old stream.new came []
        × (at_end ≡ true → came ≡ []) }
    ensures there { ((fault : Fault) → result ≢ Moved.Failed fault)
        → IsStillAt place connections.old.places.items connections.new.places.items }
    ensures ended { result ≡ Moved.Ended → (at_end ≡ true) ⊎ IsAtEnd (S.remaining stream.new) }
    ensures still { result ≡ Moved.Ended → (connections.new ≡ connections.old)
        × ((l : Accepted) → Holds connections.old.places.items place l → HasNoWhole l.connection) }
{
    if connections.is_stalled(place) {
        return answer_more(alloc, connections, place);
    }
    if at_end {
        return Moved::Ended;
    }
    take_some(alloc, connections, place, stream, memory)
}

/// What a connection does next that was written to and can't go on at once.
fn waits(wrote: Moved) -> Turn
    ensures done { result ≢ Turn.Done }
    ensures ended { result ≢ Turn.Ended }
{
    match wrote {
        Moved::Nothing => Turn::Waits,
        Moved::Some | Moved::Ended => Turn::Again,
        Moved::Failed(fault) => Turn::Failed(fault),
    }
}

/// What a connection does next that was written to and of which nothing can be read now.
fn rests<M: Service>(connections: &Connections<M>, place: usize, wrote: Moved) -> Turn
    ensures done { result ≢ Turn.Done }
    ensures ended { result ≢ Turn.Ended }
{
    match connections.unsent(place) {
        Some([]) => Turn::Waits,
        Some(_) => waits(wrote),
        None => Turn::Waits,
    }
}

/// What a connection does next whose input is at its end.
fn ends<M: Service>(connections: &Connections<M>, place: usize, wrote: Moved) -> Turn
    ensures done { result ≢ Turn.Done }
    ensures ended { result ≡ Turn.Ended → (l : Accepted)
        × Holds connections.now.places.items place l × (l.connection.unsent ≡ []) }
{
    match connections.unsent(place) {
        Some([]) => Turn::Ended,
        Some(_) => waits(wrote),
        None => Turn::Waits,
    }
}

/// The first step of a turn: a write, and then a read or an answer.
fn step<M: Service, S: Read + Write>(
    alloc: Global,
    connections: &mut Connections<M>,
    place: usize,
    stream: &mut S,
    memory: &mut [u8],
    at_end: &mut bool,
) -> Turn
    ensures turn { TakesATurn M.serving S.remaining S.contents place connections.old
        connections.new stream.old stream.new at_end.old }
    ensures there { ((fault : Fault) → result ≢ Turn.Failed fault)
        → IsStillAt place connections.old.places.items connections.new.places.items }
    ensures at_end { at_end.new ≡ true →
        (at_end.old ≡ true → WasAtEnd S.remaining S.contents stream.old)
        → WasAtEnd S.remaining S.contents stream.new }
    ensures stays_at_end { at_end.old ≡ true → at_end.new ≡ true }
    ensures done { result ≡ Turn.Done → IsDoneAt connections.new.places.items place }
    ensures ended { result ≡ Turn.Ended → (at_end.new ≡ true)
        × IsAnsweredAt connections.new.places.items place }
{
    let wrote = send_some(alloc, connections, place, stream);
    if let Moved::Failed(fault) = wrote {
        return Turn::Failed(fault);
    }
    if connections.is_done(place) {
        return Turn::Done;
    }
    if !connections.takes_bytes(place) {
        return waits(wrote);
    }
    match bring(alloc, connections, place, stream, memory, *at_end) {
        Moved::Some => Turn::Again,
        Moved::Nothing => rests(connections, place, wrote),
        Moved::Ended => {
            *at_end = true;
            ends(connections, place, wrote)
        }
        Moved::Failed(fault) => Turn::Failed(fault),
    }
}

/// The last step of a turn: what waits is sent once more.
fn finish<M: Service, S: Read + Write>(
    alloc: Global,
    connections: &mut Connections<M>,
    place: usize,
    stream: &mut S,
) -> Turn
    ensures served { (went : List ℕ) × Serves M.serving S.remaining S.contents place
        connections.old connections.new stream.old stream.new [] went }
    ensures there { ((fault : Fault) → result ≢ Turn.Failed fault)
        → IsStillAt place connections.old.places.items connections.new.places.items }
    ensures done { result ≡ Turn.Done → IsDoneAt connections.new.places.items place }
    ensures ended { result ≢ Turn.Ended }
{
    let wrote = send_some(alloc, connections, place, stream);
    if let Moved::Failed(fault) = wrote {
        return Turn::Failed(fault);
    }
    if connections.is_done(place) {
        return Turn::Done;
    }
    Turn::Again
}

/// One turn of a connection: it is sent what waits, it is read once, and one request of it is answered, if one is whole.
/// No more is read of one whose client takes too little, or of which whole requests are unread.
///
/// What the stream gave and took is what the connection received and was sent, and the requests that were answered are
/// its own. `at_end` is whether a read of the stream found its end: then it is not read.
pub fn go_on<M: Service, S: Read + Write>(
    alloc: Global,
    connections: &mut Connections<M>,
    place: usize,
    stream: &mut S,
    memory: &mut [u8],
    at_end: &mut bool,
) -> Turn
    ensures turn { TakesATurn M.serving S.remaining S.contents place connections.old
        connections.new stream.old stream.new at_end.old }
    ensures there { ((fault : Fault) → result ≢ Turn.Failed fault)
        → IsStillAt place connections.old.places.items connections.new.places.items }
    ensures at_end { at_end.new ≡ true →
        (at_end.old ≡ true → WasAtEnd S.remaining S.contents stream.old)
        → WasAtEnd S.remaining S.contents stream.new }
    ensures done { result ≡ Turn.Done → IsDoneAt connections.new.places.items place }
    ensures ended { result ≡ Turn.Ended → (at_end.new ≡ true)
        × IsAnsweredAt connections.new.places.items place }
{
    let turn = step(alloc, connections, place, stream, memory, at_end);
    match turn {
        Turn::Again => finish(alloc, connections, place, stream),
        Turn::Waits | Turn::Done | Turn::Ended | Turn::Failed(_) => turn,
    }
}

/// Reads once, as the first part of a turn.
fn hold_some<M: Service, S: Read + Write>(
    connections: &mut Connections<M>,
    place: usize,
    stream: &mut S,
    memory: &mut [u8],
) -> Moved
    requires { TakesBytes connections.old.places.items place }
    ensures served { (came : List ℕ) × Serves M.serving S.remaining S.contents place
        connections.old connections.new stream.old stream.new came [] }
    ensures there { ((fault : Fault) → result ≢ Moved.Failed fault)
        → IsStillAt place connections.old.places.items connections.new.places.items }
    ensures ended { result ≡ Moved.Ended → IsAtEnd (S.remaining stream.new) }
{
    hold_once(connections, place, stream, memory)
}

/// The first part of a turn: a connection that waits for bytes is read once, and nothing is answered. There is more to do, unless
/// nothing came.
fn read_ahead<M: Service, S: Read + Write>(
    connections: &mut Connections<M>,
    place: usize,
    stream: &mut S,
    memory: &mut [u8],
    at_end: &mut bool,
) -> Turn
    ensures turn { TakesATurn M.serving S.remaining S.contents place connections.old
        connections.new stream.old stream.new at_end.old }
    ensures there { ((fault : Fault) → result ≢ Turn.Failed fault)
        → IsStillAt place connections.old.places.items connections.new.places.items }
    ensures at_end { at_end.new ≡ true →
        (at_end.old ≡ true → WasAtEnd S.remaining S.contents stream.old)
        → WasAtEnd S.remaining S.contents stream.new }
    ensures done { result ≢ Turn.Done }
    ensures ended { result ≢ Turn.Ended }
{
    if *at_end || !connections.waits_for_bytes(place) {
        return Turn::Again;
    }
    match hold_some(connections, place, stream, memory) {
        Moved::Some => Turn::Again,
        Moved::Nothing => Turn::Waits,
        Moved::Ended => {
            *at_end = true;
            Turn::Again
        }
        Moved::Failed(fault) => Turn::Failed(fault),
    }
}

/// A part of the turn of a connection.
#[derive(Clone, Copy, Debug, PartialEq, Eq)]
pub enum Part {
    /// It is read once, if it waits for bytes.
    Reads,
    /// The rest: it is sent what waits, read once, if no whole request of it is unread, and one request is answered.
    Answers,
    /// What was answered in a round is sent.
    Sends,
}

/// Whether the client has reset the connection, as far as its stream can tell.
fn is_reset<S: OpenStream>(stream: &S) -> bool {
    match stream.take_error() {
        Ok(Some(_)) => true,
        Ok(None) => false,
        Err(_) => false,
    }
}

/// A part of the turn of a connection. A turn is not begun of one whose client has reset it while whole requests of it are unread:
/// these are not served.
pub fn take_turn<M: Service, S: Read + Write + OpenStream>(
    alloc: Global,
    connections: &mut Connections<M>,
    place: usize,
    stream: &mut S,
    memory: &mut [u8],
    at_end: &mut bool,
    part: Part,
) -> Turn
    ensures turn { TakesATurn M.serving S.remaining S.contents place connections.old
        connections.new stream.old stream.new at_end.old }
    ensures there { ((fault : Fault) → result ≢ Turn.Failed fault)
        → IsStillAt place connections.old.places.items connections.new.places.items }
    ensures at_end { at_end.new ≡ true →
        (at_end.old ≡ true → WasAtEnd S.remaining S.contents stream.old)
        → WasAtEnd S.remaining S.contents stream.new }
    ensures done { result ≡ Turn.Done → IsDoneAt connections.new.places.items place }
    ensures ended { result ≡ Turn.Ended → (at_end.new ≡ true)
        × IsAnsweredAt connections.new.places.items place }
{
    match part {
        Part::Reads => {
            if connections.is_stalled(place) && is_reset(stream) {
                return Turn::Failed(StreamFault::Read);
            }
            read_ahead(connections, place, stream, memory, at_end)
        }
        Part::Answers => go_on(alloc, connections, place, stream, memory, at_end),
        Part::Sends => finish(alloc, connections, place, stream),
    }
}
