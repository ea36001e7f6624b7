//! The loop: one thread, and readiness of sockets that do not wait (RFC 9112, section 9).

ghost use Rattle.std.specs.Prelude.{◌≡◌, ◌≢◌, ℕ, List, Option, None, Some, IfSome, Ok, Err, IfOk, OnOk, OnErr, true, false};
ghost use Rattle.book_wire_serving.specs.Serving.{Answered};
ghost use Rattle.book_wire_serving.specs.declared.faults.StreamFault.{StreamFault as Fault};
ghost use Rattle.book_desk_loop.specs.Serving.{AreServedAtOnce, AreTold, Begins, BeginsAt, BeginsNone, EndsSo, GoesOn, KeepsOn, LetsGo, Line, LinesStay, MayGoAt, RestStays, ToldFault, TurnsAt, line_at};
ghost use Rattle.book_desk_connections.specs.Streams.{IsAnsweredAt, IsDoneAt, IsStillAt};
ghost use Rattle.book_wire_steps.specs.Steps.{ServesInSteps};

use crate::closing::LINGER;
use crate::giving_way::gives_way;
use crate::limits::{
    Ended, Faults, Limits, Stop, StoreState, fault_of, fewer, is_endless, none_left, stop_of, tell,
};
use crate::readiness::{EVENTS, Readiness};
use crate::socket_places::{
    are_none, close_at, close_for_writing, drop_at, join, note_begin, note_queued,
};
use crate::sockets::{DRAINED, RESTED, Socket, has_passed, is_late, is_short, passes};
use book_desk_connections::{Connections, Lost, Part, Round, Turn, take_turn};
use book_wire::Wire;
use book_wire_serving::{RoundService, StreamFault};
use book_wire_steps::{Control, Traffic, Wish};
use std::alloc::Global;
use std::io::{ErrorKind, Read, Write};
use std::net::{OpenListener, OpenStream};
use std::time::{Duration, Instant};
use std::{io, mem};

/// The most bytes of a read.
const READ: usize = 16_384;

/// The most requests of a round.
const MOST_OF_ROUND: usize = 256;

/// The longest wait where a time passes that is looked at, in milliseconds.
const STEP: u64 = 250;

/// The connections of a service, and their sockets, each at the place of its connection.
#[derive(Drop)]
struct Server<M, S> {
    limits: Limits,
    connections: Connections<M>,
    sockets: Vec<Option<Socket<S>>>,
    /// One that was accepted while no place was free.
    held: Option<S>,
    /// How many are at a place.
    open: usize,
    /// How many more are to come; none where there is no end.
    left: Option<u16>,
    /// Those that may go on at once, each once. There is room for each that has a place, so that none asks for memory.
    again: Vec<usize>,
    /// The same room, for those that come to be so while these have their turn.
    next: Vec<usize>,
    /// The same room, for those that join a round.
    joined: Vec<usize>,
    /// Whether one may wait to be accepted.
    waiting: bool,
    /// Whether none could be accepted, and may be later.
    paused: bool,
    /// Whether that was for want of file descriptors.
    short: bool,
    /// How it stands with the store.
    store: StoreState,
    /// How often the store had failed when it was looked at last.
    failures: u64,
}

impl<M: RoundService, S: Read + Write + OpenStream + Drop> Server<M, S> {
    /// Whether no more are to come, and none is there.
    fn is_done(&self) -> bool
        ensures { result ≡ true → (self.now.left ≡ Some 0) × (self.now.held ≡ None)
            × ((i : ℕ) → line_at self.now.sockets.items i ≡ None) }
    {
        none_left(self.left)
            && self.open == 0
            && self.held.is_none()
            && are_none(self.sockets.as_slice())
    }

    /// Whether a connection may be taken from the listener.
    fn may_take(&self) -> bool
        ensures { result ≡ true → (self.now.held ≡ None) × (self.now.left ≢ Some 0) }
    {
        self.held.is_none()
            && !self.connections.has_failed_log()
            && self.waiting
            && !self.paused
            && !none_left(self.left)
            && matches!(self.store, StoreState::Shows)
    }

    /// How long to wait at most until something can go on.
    fn patience(&self) -> Option<Duration> {
        if !self.again.is_empty() || self.may_take() {
            return Some(Duration::ZERO);
        }
        if self.held.is_some() {
            return Some(Duration::from_millis(RESTED));
        }
        if self.paused || self.open > 0 || !matches!(self.store, StoreState::Shows) {
            return Some(Duration::from_millis(STEP));
        }
        None
    }

    /// Lets a connection go, and closes its socket.
    fn let_go(&mut self, place: usize)
        ensures { LetsGo S.remaining S.contents M.serving place self.old self.new }
    {
        self.connections.let_go(place);
        if close_at(&mut self.sockets, place) {
            self.open = self.open.saturating_sub(1);
            self.paused = false;
            self.short = false;
        }
    }

    /// Lets a connection go that may go.
    fn release(&mut self, place: usize)
        requires { MayGoAt S.remaining S.contents self.old.limits self.old.connections.places.items
            self.old.sockets.items place }
        ensures { KeepsOn S.remaining S.contents M.serving self.old self.new }
    {
        self.let_go(place);
    }

    /// Begins with a connection that was accepted, at the place of its connection.
    fn begin<P: Readiness<S>>(
        &mut self,
        alloc: Global,
        readiness: &mut P,
        stream: S,
        now: Instant,
    ) -> io::Result<()>
        ensures begins { Begins S.remaining S.contents M.serving self.old self.new }
        ensures ok { OnOk result ((place : ℕ)
            × BeginsAt S.remaining S.contents M.serving place stream self.old self.new) }
        ensures err { OnErr result (BeginsNone S.remaining S.contents M.serving self.old
            self.new) }
    {
        self.again.reserve(self.open.saturating_add(1))?;
        self.next.reserve(self.open.saturating_add(1))?;
        self.joined.reserve(self.open.saturating_add(1))?;
        stream.set_nonblocking(true)?;
        // Without it a reply in two writes waits for the client's acknowledgement of the first.
        let _ = stream.set_nodelay(true);
        let place = self.connections.open(alloc)?;
        match join(&mut self.sockets, readiness, place, stream, now) {
            Ok(()) => {
                self.open = self.open.saturating_add(1);
                Ok(())
            }
            Err(error) => {
                self.connections.let_go(place);
                Err(error)
            }
        }
    }

    /// Whether one waits and no place is free, or none can be accepted for want of file descriptors.
    fn wants_room(&self) -> bool {
        let waits = self.held.is_some() && self.open >= self.limits.at_once;
        self.limits.gives_way && (waits || self.short)
    }

    /// Makes room for a connection that waits, if it can.
    fn make_room(&mut self, now: Instant)
        ensures { KeepsOn S.remaining S.contents M.serving self.old self.new }
    {
        if !self.wants_room() {
            return;
        }
        match gives_way(&self.connections, self.sockets.as_slice(), now) {
            Some(place) => self.release(place),
            None => {}
        }
    }

    /// Takes a connection from the listener, if one waits, and holds it.
    fn take<L: OpenListener<Stream = S>>(&mut self, listener: &L) -> io::Result<()>
        requires none_held { self.old.held ≡ None }
        requires more { self.old.left ≢ Some 0 }
        ensures { KeepsOn S.remaining S.contents M.serving self.old self.new }
    {
        match listener.accept() {
            Ok((stream, _)) => {
                self.left = fewer(self.left);
                self.held = Some(stream);
                Ok(())
            }
            Err(error) => {
                if error.kind() == ErrorKind::WouldBlock {
                    self.waiting = false;
                    return Ok(());
                }
                if passes(&error) {
                    self.paused = true;
                    self.short = is_short(&error);
                    return Ok(());
                }
                Err(error)
            }
        }
    }

    /// Takes a connection from the listener, if one waits and none is held.
    fn take_waiting<L: OpenListener<Stream = S>>(&mut self, listener: &L) -> io::Result<()>
        ensures { KeepsOn S.remaining S.contents M.serving self.old self.new }
    {
        if !self.may_take() {
            return Ok(());
        }
        self.take(listener)
    }

    /// Begins with the connection that is held, if there is room for it. A fault is told.
    fn begin_held<P: Readiness<S>, F: Faults>(
        &mut self,
        alloc: Global,
        readiness: &mut P,
        now: Instant,
        faults: &mut F,
    )
        ensures { GoesOn S.remaining S.contents M.serving F.tells self.old faults.old self.new
            faults.new }
    {
        if self.open >= self.limits.at_once {
            return;
        }
        match mem::replace(&mut self.held, None) {
            Some(stream) => match self.begin(alloc, readiness, stream, now) {
                Ok(()) => {}
                Err(error) => tell(faults, fault_of(&error)),
            },
            None => {}
        }
    }

    /// Begins with the connection that is held, and makes room for it, if it can.
    fn make_room_and_begin<P: Readiness<S>, F: Faults>(
        &mut self,
        alloc: Global,
        readiness: &mut P,
        now: Instant,
        faults: &mut F,
    )
        ensures { GoesOn S.remaining S.contents M.serving F.tells self.old faults.old self.new
            faults.new }
    {
        self.make_room(now);
        self.begin_held(alloc, readiness, now, faults);
    }

    /// Takes one more connection, if one waits and none is held, and begins with it, if there is room.
    fn accept_one<L: OpenListener<Stream = S>, P: Readiness<S>, F: Faults>(
        &mut self,
        alloc: Global,
        readiness: &mut P,
        listener: &L,
        now: Instant,
        faults: &mut F,
    ) -> io::Result<()>
        ensures { GoesOn S.remaining S.contents M.serving F.tells self.old faults.old self.new
            faults.new }
    {
        self.take_waiting(listener)?;
        self.make_room_and_begin(alloc, readiness, now, faults);
        Ok(())
    }

    /// Takes the connections that wait, as far as there is room.
    fn accept<L: OpenListener<Stream = S>, P: Readiness<S>, F: Faults>(
        &mut self,
        alloc: Global,
        readiness: &mut P,
        listener: &L,
        now: Instant,
        faults: &mut F,
    ) -> io::Result<()>
        ensures { GoesOn S.remaining S.contents M.serving F.tells self.old faults.old self.new
            faults.new }
    {
        for _ in 0..self.limits.at_once {
            if !self.may_take() {
                break;
            }
            self.accept_one(alloc, readiness, listener, now, faults)?;
        }
        self.make_room_and_begin(alloc, readiness, now, faults);
        Ok(())
    }

    /// Notes that a connection may go on at once.
    fn queue(&mut self, place: usize) -> io::Result<()>
        ensures { KeepsOn S.remaining S.contents M.serving self.old self.new }
    {
        note_queued(&mut self.sockets, place);
        self.again.push(place)?;
        Ok(())
    }

    /// Whether the connection is there, and its turn does not come anyway.
    fn wants_turn(&self, place: usize) -> bool {
        match self.sockets.get(place) {
            Some(Some(socket)) => !socket.queued,
            Some(None) => false,
            None => false,
        }
    }

    /// Whether the last reply of the connection is sent.
    fn is_lingering(&self, place: usize) -> bool
        ensures { (line : Line S) → line_at self.now.sockets.items place ≡ Some line
            → line.lingers ≡ result }
    {
        match self.sockets.get(place) {
            Some(Some(socket)) => socket.dropped.is_some(),
            Some(None) => false,
            None => false,
        }
    }

    /// Begins to close a connection whose last reply is sent: the client is told that no more comes, and what it still
    /// sends is read and dropped, so that the reply reaches it (RFC 9112, section 9.6).
    fn begin_to_close(&mut self, place: usize)
        requires done { IsDoneAt self.old.connections.places.items place }
        requires serves { (line : Line S) → line_at self.old.sockets.items place ≡ Some line
            → line.lingers ≡ false }
        ensures { KeepsOn S.remaining S.contents M.serving self.old self.new }
    {
        close_for_writing(&mut self.sockets, place);
    }

    /// A turn of a connection whose last reply is sent: what came is dropped. It ends where no more comes, or enough did.
    fn linger(&mut self, place: usize, memory: &mut [u8]) -> Turn
        requires { (line : Line S) → line_at self.old.sockets.items place ≡ Some line
            → line.lingers ≡ true }
        ensures keeps { KeepsOn S.remaining S.contents M.serving self.old self.new }
        ensures done { result ≢ Turn.Done }
        ensures ended { result ≡ Turn.Ended
            → MayGoAt S.remaining S.contents self.new.limits self.new.connections.places.items
            self.new.sockets.items place }
        ensures failed { (fault : Fault) → result ≢ Turn.Failed fault }
    {
        drop_at(&mut self.sockets, place, memory)
    }

    /// A part of the turn of the connection at a place, by its own socket.
    fn turn_at(
        &mut self,
        alloc: Global,
        place: usize,
        part: Part,
        memory: &mut [u8],
        now: Instant,
    ) -> Turn
        ensures none { line_at self.old.sockets.items place ≡ None → (result ≡ Turn.Waits)
            × RestStays S.remaining S.contents M.serving self.old self.new
            × (self.new.connections ≡ self.old.connections)
            × LinesStay self.old.sockets.items self.new.sockets.items }
        ensures turns { (line : Line S) → line_at self.old.sockets.items place ≡ Some line
            → (line_then : Line S) × TurnsAt S.remaining S.contents M.serving place self.old
            self.new line line_then × (((fault : Fault) → result ≢ Turn.Failed fault)
            → IsStillAt place self.old.connections.places.items self.new.connections.places.items)
            × (result ≡ Turn.Ended → line_then.at_end ≡ true) }
        ensures done { result ≡ Turn.Done → IsDoneAt self.new.connections.places.items place }
        ensures ended { result ≡ Turn.Ended → IsAnsweredAt self.new.connections.places.items place }
    {
        match self.sockets.get_mut(place) {
            Some(there) => match there {
                Some(socket) => {
                    socket.moved = now;
                    socket.queued = false;
                    take_turn(
                        alloc,
                        &mut self.connections,
                        place,
                        &mut socket.stream,
                        memory,
                        &mut socket.at_end,
                        part,
                    )
                }
                None => Turn::Waits,
            },
            None => Turn::Waits,
        }
    }

    /// Tells the fault of a connection. Where a line of the log could not be written, that ends all, and no fault is
    /// told.
    fn tell_fault<F: Faults>(&self, fault: StreamFault, faults: &mut F)
        ensures told { (M.serving self.now.connections.service).log.failed ≡ false
            → F.tells faults.old fault faults.new }
        ensures silent { (M.serving self.now.connections.service).log.failed ≡ true
            → faults.new ≡ faults.old }
    {
        if !self.connections.has_failed_log() {
            tell(faults, fault);
        }
    }

    /// A part of the turn of a connection that is served. One that has a fault is let go, and the fault is told, unless the log has
    /// failed.
    fn serve<F: Faults>(
        &mut self,
        alloc: Global,
        place: usize,
        part: Part,
        memory: &mut [u8],
        now: Instant,
        faults: &mut F,
    ) -> Turn
        requires { (line : Line S) → line_at self.old.sockets.items place ≡ Some line
            → line.lingers ≡ false }
        ensures goes { GoesOn S.remaining S.contents M.serving F.tells self.old faults.old self.new
            faults.new }
        ensures done { result ≡ Turn.Done → IsDoneAt self.new.connections.places.items place }
        ensures ended { result ≡ Turn.Ended
            → MayGoAt S.remaining S.contents self.new.limits self.new.connections.places.items
            self.new.sockets.items place }
        ensures serves { (line : Line S) → line_at self.new.sockets.items place ≡ Some line
            → line.lingers ≡ false }
    {
        let turn = self.turn_at(alloc, place, part, memory, now);
        match turn {
            Turn::Failed(fault) => {
                self.tell_fault(fault, faults);
                self.let_go(place);
                turn
            }
            Turn::Waits => turn,
            Turn::Again => turn,
            Turn::Done => turn,
            Turn::Ended => turn,
        }
    }

    /// What a turn of a connection comes to. Where it had a fault, that is told already.
    fn after_turn(&mut self, place: usize, turn: Turn) -> io::Result<()>
        requires done { turn ≡ Turn.Done → IsDoneAt self.old.connections.places.items place
            × ((line : Line S) → line_at self.old.sockets.items place ≡ Some line
            → line.lingers ≡ false) }
        requires ended { turn ≡ Turn.Ended
            → MayGoAt S.remaining S.contents self.old.limits self.old.connections.places.items
            self.old.sockets.items place }
        ensures { KeepsOn S.remaining S.contents M.serving self.old self.new }
    {
        match turn {
            Turn::Waits | Turn::Failed(_) => Ok(()),
            Turn::Again => self.queue(place),
            Turn::Done => {
                self.begin_to_close(place);
                self.queue(place)
            }
            Turn::Ended => {
                self.release(place);
                Ok(())
            }
        }
    }

    /// Gives a connection that is served the part of its turn in which it is answered, or sent what was answered.
    fn give_served<F: Faults>(
        &mut self,
        alloc: Global,
        place: usize,
        part: Part,
        memory: &mut [u8],
        now: Instant,
        faults: &mut F,
    ) -> io::Result<()>
        requires { (line : Line S) → line_at self.old.sockets.items place ≡ Some line
            → line.lingers ≡ false }
        ensures { GoesOn S.remaining S.contents M.serving F.tells self.old faults.old self.new
            faults.new }
    {
        let answered = self.connections.answered;
        let turn = self.serve(alloc, place, part, memory, now, faults);
        let within = self.connections.is_within_request(place);
        let answered = self.connections.answered != answered;
        note_begin(&mut self.sockets, place, within, answered, now);
        self.after_turn(place, turn)
    }

    /// Gives a connection its turn whose last reply is sent.
    fn give_lingering(&mut self, place: usize, memory: &mut [u8]) -> io::Result<()>
        requires { (line : Line S) → line_at self.old.sockets.items place ≡ Some line
            → line.lingers ≡ true }
        ensures { KeepsOn S.remaining S.contents M.serving self.old self.new }
    {
        let turn = self.linger(place, memory);
        self.after_turn(place, turn)
    }

    /// Has a connection join the round. One that does not fit in any more goes on with the next.
    fn join_round(&mut self, place: usize) -> io::Result<()>
        ensures { KeepsOn S.remaining S.contents M.serving self.old self.new }
    {
        if self.joined.len() >= MOST_OF_ROUND {
            return self.queue(place);
        }
        self.joined.push(place)?;
        Ok(())
    }

    /// Gives a connection the rest of its turn, or has it join the round.
    fn go_on<F: Faults>(
        &mut self,
        alloc: Global,
        place: usize,
        memory: &mut [u8],
        now: Instant,
        faults: &mut F,
    ) -> io::Result<()>
        requires { (line : Line S) → line_at self.old.sockets.items place ≡ Some line
            → line.lingers ≡ false }
        ensures { GoesOn S.remaining S.contents M.serving F.tells self.old faults.old self.new
            faults.new }
    {
        if self.connections.may_join(place) {
            return self.join_round(place);
        }
        self.give_served(alloc, place, Part::Answers, memory, now, faults)
    }

    /// Reads a connection that is served, and gives it the rest of its turn, or has it join the round, if there is more to do.
    fn read_and_go_on<F: Faults>(
        &mut self,
        alloc: Global,
        place: usize,
        memory: &mut [u8],
        now: Instant,
        faults: &mut F,
    ) -> io::Result<()>
        requires { (line : Line S) → line_at self.old.sockets.items place ≡ Some line
            → line.lingers ≡ false }
        ensures { GoesOn S.remaining S.contents M.serving F.tells self.old faults.old self.new
            faults.new }
    {
        match self.serve(alloc, place, Part::Reads, memory, now, faults) {
            Turn::Again => self.go_on(alloc, place, memory, now, faults),
            Turn::Waits | Turn::Done | Turn::Ended | Turn::Failed(_) => Ok(()),
        }
    }

    /// Gives a connection its turn, or the first part of it, where it joins the round. None has a turn once a line of the log
    /// could not be written.
    fn give_turn<F: Faults>(
        &mut self,
        alloc: Global,
        place: usize,
        memory: &mut [u8],
        now: Instant,
        faults: &mut F,
    ) -> io::Result<()>
        ensures goes { GoesOn S.remaining S.contents M.serving F.tells self.old faults.old self.new
            faults.new }
        ensures none { (M.serving self.old.connections.service).log.failed ≡ true
            → (self.new ≡ self.old) × (faults.new ≡ faults.old) }
    {
        if self.connections.has_failed_log() {
            return Ok(());
        }
        if self.is_lingering(place) {
            return self.give_lingering(place, memory);
        }
        self.read_and_go_on(alloc, place, memory, now, faults)
    }

    /// Gives a connection that joined a round the rest of its turn. None has one once a line of the log could not be written.
    fn give_rest<F: Faults>(
        &mut self,
        alloc: Global,
        place: usize,
        part: Part,
        memory: &mut [u8],
        now: Instant,
        faults: &mut F,
    ) -> io::Result<()>
        ensures goes { GoesOn S.remaining S.contents M.serving F.tells self.old faults.old self.new
            faults.new }
        ensures none { (M.serving self.old.connections.service).log.failed ≡ true
            → (self.new ≡ self.old) × (faults.new ≡ faults.old) }
    {
        if self.connections.has_failed_log() || self.is_lingering(place) {
            return Ok(());
        }
        self.give_served(alloc, place, part, memory, now, faults)
    }

    /// Lets the connection go that had a fault in a round. The fault is told, unless the log has failed.
    fn let_lost_go<F: Faults>(&mut self, lost: Lost, faults: &mut F)
        ensures goes { LetsGo S.remaining S.contents M.serving lost.place self.old self.new }
        ensures told { (M.serving self.old.connections.service).log.failed ≡ false
            → F.tells faults.old lost.fault faults.new }
        ensures silent { (M.serving self.old.connections.service).log.failed ≡ true
            → faults.new ≡ faults.old }
    {
        self.tell_fault(lost.fault, faults);
        self.let_go(lost.place);
    }

    /// Serves one request of each of these connections, if there are two at least, and keeps by one commit what they edited. It
    /// says which part of their turn is left.
    fn serve_round<F: Faults>(&mut self, alloc: Global, joined: &[usize], faults: &mut F) -> Part
        ensures { GoesOn S.remaining S.contents M.serving F.tells self.old faults.old self.new
            faults.new }
    {
        match self.connections.round(alloc, joined) {
            Round::Kept(None) => Part::Sends,
            Round::Kept(Some(lost)) => {
                self.let_lost_go(lost, faults);
                Part::Sends
            }
            Round::Undone => Part::Answers,
        }
    }

    /// Gives those that joined a round the rest of their turn.
    fn give_rests<F: Faults>(
        &mut self,
        alloc: Global,
        joined: &[usize],
        part: Part,
        memory: &mut [u8],
        now: Instant,
        faults: &mut F,
    ) -> io::Result<()>
        ensures { GoesOn S.remaining S.contents M.serving F.tells self.old faults.old self.new
            faults.new }
    {
        for place in joined {
            self.give_rest(alloc, *place, part, memory, now, faults)?;
        }
        Ok(())
    }

    /// Serves those that joined a round, and gives them the rest of their turn.
    fn give_round<F: Faults>(
        &mut self,
        alloc: Global,
        memory: &mut [u8],
        now: Instant,
        faults: &mut F,
    ) -> io::Result<()>
        ensures { GoesOn S.remaining S.contents M.serving F.tells self.old faults.old self.new
            faults.new }
    {
        let mut joined = mem::replace(&mut self.joined, Vec::new(alloc));
        let part = self.serve_round(alloc, joined.as_slice(), faults);
        self.give_rests(alloc, joined.as_slice(), part, memory, now, faults)?;
        joined.clear();
        self.joined = joined;
        Ok(())
    }

    /// Whether the connection is there, and its time is up.
    fn is_over(&self, place: usize, now: Instant) -> bool
        ensures { result ≡ true → MayGoAt S.remaining S.contents self.now.limits
            self.now.connections.places.items self.now.sockets.items place }
    {
        match self.sockets.get(place) {
            Some(Some(socket)) => {
                if socket.dropped.is_some() {
                    return has_passed(socket.moved, now, Some(Duration::from_secs(LINGER)));
                }
                if none_left(self.left) && self.connections.is_idle(place) {
                    return has_passed(socket.moved, now, Some(Duration::from_secs(DRAINED)));
                }
                has_passed(socket.moved, now, self.limits.idle)
                    || is_late(socket.begun, now, self.limits.idle)
            }
            Some(None) => false,
            None => false,
        }
    }

    /// Lets a connection go whose time is up.
    fn release_if_over(&mut self, place: usize, now: Instant)
        ensures { KeepsOn S.remaining S.contents M.serving self.old self.new }
    {
        if self.is_over(place, now) {
            self.release(place);
        }
    }

    /// Lets those go whose time is up.
    fn sweep(&mut self, now: Instant)
        ensures { KeepsOn S.remaining S.contents M.serving self.old self.new }
    {
        let count = self.sockets.len();
        for place in 0..count {
            self.release_if_over(place, now);
        }
    }

    /// Lets those go whose time is up, if the last time was so long ago, and says when the last time was.
    fn sweep_at(&mut self, now: Instant, swept: Instant) -> Instant
        ensures { KeepsOn S.remaining S.contents M.serving self.old self.new }
    {
        if now.saturating_duration_since(swept) < Duration::from_millis(STEP) {
            return swept;
        }
        self.paused = false;
        self.short = false;
        self.sweep(now);
        now
    }

    /// Looks at the store, and lets those go whose time is up, if the last time was so long ago. It says when the last time
    /// was.
    fn look_round(&mut self, now: Instant, swept: Instant) -> Instant
        ensures { KeepsOn S.remaining S.contents M.serving self.old self.new }
    {
        self.note_store(now);
        self.sweep_at(now, swept)
    }

    /// Gives those their turn that may go on at once.
    fn give_again<F: Faults>(
        &mut self,
        alloc: Global,
        memory: &mut [u8],
        now: Instant,
        faults: &mut F,
    ) -> io::Result<()>
        ensures { GoesOn S.remaining S.contents M.serving F.tells self.old faults.old self.new
            faults.new }
    {
        let next = mem::replace(&mut self.next, Vec::new(alloc));
        let mut places = mem::replace(&mut self.again, next);
        for place in &places {
            self.give_turn(alloc, *place, memory, now, faults)?;
        }
        places.clear();
        self.next = places;
        Ok(())
    }

    /// Has a connection its turn that is ready, unless its turn comes anyway.
    fn queue_ready_one(&mut self, place: usize) -> io::Result<()>
        ensures { KeepsOn S.remaining S.contents M.serving self.old self.new }
    {
        if self.wants_turn(place) {
            return self.queue(place);
        }
        Ok(())
    }

    /// Has those their turn that are ready.
    fn queue_ready(&mut self, ready: &[usize]) -> io::Result<()>
        ensures { KeepsOn S.remaining S.contents M.serving self.old self.new }
    {
        for place in ready {
            self.queue_ready_one(*place)?;
        }
        Ok(())
    }

    /// Gives those their turn that can go on, and then takes the connections that wait.
    fn give_all<L: OpenListener<Stream = S>, P: Readiness<S>, F: Faults>(
        &mut self,
        alloc: Global,
        readiness: &mut P,
        listener: &L,
        ready: &[usize],
        memory: &mut [u8],
        now: Instant,
        faults: &mut F,
    ) -> io::Result<()>
        ensures { GoesOn S.remaining S.contents M.serving F.tells self.old faults.old self.new
            faults.new }
    {
        self.queue_ready(ready)?;
        self.give_again(alloc, memory, now, faults)?;
        self.give_round(alloc, memory, now, faults)?;
        self.accept(alloc, readiness, listener, now, faults)
    }

    /// Whether the store has failed since it was looked at last, and shows nothing.
    fn fails(&mut self) -> bool
        ensures { KeepsOn S.remaining S.contents M.serving self.old self.new }
    {
        let failures = self.connections.failures();
        if failures == self.failures {
            return false;
        }
        self.failures = failures;
        self.connections.shows_nothing()
    }

    /// Whether nothing of the connection at a place is left to be answered or sent.
    fn is_answered(&self, place: usize) -> bool {
        match self.sockets.get(place) {
            Some(Some(socket)) => socket.dropped.is_none() && self.connections.is_at_rest(place),
            Some(None) => true,
            None => true,
        }
    }

    /// Whether each whole request that came is answered, and all is sent.
    fn are_answered(&self) -> bool {
        for place in 0..self.sockets.len() {
            if !self.is_answered(place) {
                return false;
            }
        }
        self.again.is_empty()
    }

    /// Notes that the store shows nothing, where there is no end of connections.
    fn note_failure(&mut self, now: Instant)
        ensures { KeepsOn S.remaining S.contents M.serving self.old self.new }
    {
        if !is_endless(self.limits.total) {
            return;
        }
        if !self.fails() {
            return;
        }
        self.store = StoreState::Failed(now);
    }

    /// Notes that the store shows nothing; and then that each is answered.
    fn note_store(&mut self, now: Instant)
        ensures { KeepsOn S.remaining S.contents M.serving self.old self.new }
    {
        match self.store {
            StoreState::Shows => self.note_failure(now),
            StoreState::Failed(since) => {
                let late = has_passed(since, now, Some(Duration::from_secs(LINGER)));
                if late || (since < now && self.are_answered()) {
                    self.store = StoreState::Left;
                }
            }
            StoreState::Left => {}
        }
    }

    /// Whether it ends since the store has failed more often than so.
    fn is_left(&self, failures: u64) -> bool
        ensures { result ≡ true → EndsSo S.remaining S.contents M.serving Ended.StoreFailed
            self.now failures }
    {
        matches!(self.store, StoreState::Left)
            && is_endless(self.limits.total)
            && self.connections.failures() != failures
    }

    /// How it ends, if it does, where the store had failed so often when it began.
    fn ended(&self, failures: u64) -> Option<Ended>
        ensures { IfSome result (λ ended. EndsSo S.remaining S.contents M.serving ended self.now
            failures) }
    {
        let failed_log = self.connections.has_failed_log();
        if failed_log {
            return Some(Ended::LogFailed);
        }
        if self.is_done() {
            return Some(Ended::Done);
        }
        if self.is_left(failures) {
            return Some(Ended::StoreFailed);
        }
        None
    }

    /// Notes whether a connection may wait to be accepted.
    fn note_waiting(&mut self, waits: bool)
        ensures { KeepsOn S.remaining S.contents M.serving self.old self.new }
    {
        if waits {
            self.waiting = true;
        }
    }

    /// How it stands with the connections, of which so many had a fault, and with the store.
    fn traffic(&mut self, faults: u64) -> Traffic
        ensures keeps { KeepsOn S.remaining S.contents M.serving self.old self.new }
        ensures limits { self.new.limits ≡ self.old.limits }
    {
        let shows_nothing = self.connections.shows_nothing();
        Traffic {
            came: self.connections.opened,
            open: self.open,
            faults,
            answered: self.connections.answered,
            received: self.connections.received,
            sent: self.connections.sent,
            shows_nothing,
        }
    }

    /// Takes no more connections.
    fn end(&mut self)
        requires { self.old.limits.is_administered ≡ true }
        ensures { KeepsOn S.remaining S.contents M.serving self.old self.new }
    {
        self.left = Some(0);
    }

    /// Does what the control wishes.
    fn follow(&mut self, wish: Wish)
        requires { self.old.limits.is_administered ≡ true }
        ensures { KeepsOn S.remaining S.contents M.serving self.old self.new }
    {
        match wish {
            Wish::GoOn => {}
            Wish::End => self.end(),
        }
    }

    /// Gives the control its turn with the service, and says what it wishes.
    fn administer<C: Control<M>>(&mut self, control: &mut C, traffic: Traffic) -> Wish
        requires { self.old.limits.is_administered ≡ true }
        ensures keeps { KeepsOn S.remaining S.contents M.serving self.old self.new }
        ensures limits { self.new.limits ≡ self.old.limits }
    {
        self.connections.administer(control, traffic)
    }

    /// Gives the control its turn, and does what it wishes. So many connections had a fault.
    fn heed<C: Control<M>>(&mut self, control: &mut C, faults: u64)
        requires { self.old.limits.is_administered ≡ true }
        ensures { KeepsOn S.remaining S.contents M.serving self.old self.new }
    {
        let traffic = self.traffic(faults);
        let wish = self.administer(control, traffic);
        self.follow(wish);
    }

    /// Gives the control its turn, if it may go on and the server is administered.
    fn give_control<C: Control<M>>(&mut self, control: &mut C, woken: bool, faults: u64)
        ensures { KeepsOn S.remaining S.contents M.serving self.old self.new }
    {
        if woken && self.limits.is_administered {
            self.heed(control, faults);
        }
    }

    /// Waits until something can go on, gives the control its turn if it can, and tells the time then, and in `ready` what
    /// is ready. So many connections had a fault.
    fn wait<P: Readiness<S>, C: Control<M>>(
        &mut self,
        readiness: &mut P,
        control: &mut C,
        ready: &mut Vec<usize>,
        faults: u64,
    ) -> io::Result<Instant>
        ensures { KeepsOn S.remaining S.contents M.serving self.old self.new }
    {
        ready.clear();
        let woken = readiness.wait(self.patience(), ready)?;
        self.note_waiting(woken.listener);
        self.give_control(control, woken.control, faults);
        readiness.now()
    }

    /// One round of the loop: a turn of each connection that can go on, then those that wait to be accepted, and then
    /// those go whose time is up. It says when that was looked at last. Then the store is looked at.
    fn round<L: OpenListener<Stream = S>, P: Readiness<S>, C: Control<M>, F: Faults>(
        &mut self,
        alloc: Global,
        readiness: &mut P,
        control: &mut C,
        listener: &L,
        ready: &mut Vec<usize>,
        memory: &mut [u8],
        swept: Instant,
        faults: &mut F,
    ) -> io::Result<Instant>
        ensures { GoesOn S.remaining S.contents M.serving F.tells self.old faults.old self.new
            faults.new }
    {
        let now = self.wait(readiness, control, ready, faults.count())?;
        self.give_all(
            alloc,
            readiness,
            listener,
            ready.as_slice(),
            memory,
            now,
            faults,
        )?;
        Ok(self.look_round(now, swept))
    }

    /// Rounds of the loop, until no more are to come and none is there, or the store has failed more often than so, where
    /// there is no end of connections, or a line of the log could not be written.
    ///
    /// # Errors
    ///
    /// As `serve_at_once`.
    fn run<L: OpenListener<Stream = S>, P: Readiness<S>, C: Control<M>, F: Faults>(
        &mut self,
        alloc: Global,
        listener: &L,
        readiness: &mut P,
        control: &mut C,
        faults: &mut F,
        failures: u64,
    ) -> io::Result<Ended>
        ensures goes { GoesOn S.remaining S.contents M.serving F.tells self.old faults.old self.new
            faults.new }
        ensures ended { IfOk result (λ ended.
            EndsSo S.remaining S.contents M.serving ended self.new failures) }
    {
        let mut memory = vec![in alloc; 0u8; READ]?;
        let mut ready = Vec::with_capacity(alloc, EVENTS)?;
        let mut swept = readiness.now()?;
        for _ in 0..u64::MAX {
            if let Some(ended) = self.ended(failures) {
                return Ok(ended);
            }
            swept = self.round(
                alloc,
                readiness,
                control,
                listener,
                &mut ready,
                &mut memory,
                swept,
                faults,
            )?;
        }
        // No loop is as long.
        Err(ErrorKind::TimedOut.into())
    }
}

/// Serves connections of the listener, which does not wait, many at once, and gives the service back. One that is cut or
/// fails ends no other; the fault of one that fails is told. Where none can be accepted for want of file descriptors,
/// memory or the network, or since one was given up, none is until one is closed, or 0.25 seconds have passed. After a
/// last reply the client is told that no more comes, and what it still sends is read and dropped for at most 2 seconds
/// (RFC 9112, section 9.6).
///
/// Whatever the order in which the bytes of the connections come, each is answered for its own requests alone. The requests
/// of all, in the order in which they were completed, and the policies that the control adopted between two of them, are
/// steps in one order: where none was adopted, and so where the server is not administered, the requests are one run of the
/// service. What each stream gave is what its connection received, and what it was given is what its connection was sent.
/// Where it ends so, as many came as were to come, or the control wished an end, and may; and each was let go for a reason:
/// its last reply was sent, nothing of it was unread or unsent, its input was at its end and each whole request answered, its
/// time was up, or it had a fault, which was told.
///
/// Where the server is administered the control has its turn whenever it may go on, also where the store shows nothing; else
/// it has none.
///
/// # Errors
///
/// `Failed` where a connection can't be accepted, nothing can be waited for, the time can't be told, or for want of memory.
/// `Store` where the store has failed and shows nothing, and there is no end of connections: none was accepted since, each
/// whole request that came was answered, and what waited was sent, for at most 2 seconds. `Log` where a line of the log could
/// not be written, and only there: no connection had a turn since.
pub fn serve_at_once<
    M: RoundService,
    S: Read + Write + OpenStream + Drop,
    L: OpenListener<Stream = S>,
    P: Readiness<S>,
    C: Control<M>,
    F: Faults,
>(
    alloc: Global,
    service: M,
    listener: &L,
    readiness: &mut P,
    control: &mut C,
    limits: Limits,
    faults: &mut F,
) -> (M, Result<(), Stop>)
    ensures served { (told : List ToldFault) × AreTold F.tells faults.old told faults.new
        × AreServedAtOnce S.remaining S.contents M.serving limits service told result.1
        result.0 }
    ensures steps { (answered : List Answered)
        × ServesInSteps M.serving limits.is_administered service result.0 answered }
{
    let wire = match Wire::new(alloc) {
        Ok(wire) => wire,
        Err(_) => {
            let failed = service.has_failed_log();
            return (service, stop_of(Err(ErrorKind::OutOfMemory.into()), failed));
        }
    };
    let failures = service.failures();
    let connections = Connections::new(alloc, wire, service);
    let mut server: Server<M, S> = Server {
        limits,
        connections,
        sockets: Vec::new(alloc),
        held: None,
        open: 0,
        left: limits.total,
        again: Vec::new(alloc),
        next: Vec::new(alloc),
        joined: Vec::new(alloc),
        waiting: true,
        paused: false,
        short: false,
        store: StoreState::Shows,
        failures,
    };
    let ended = server.run(alloc, listener, readiness, control, faults, failures);
    let service = server.connections.release();
    let failed = service.has_failed_log();
    (service, stop_of(ended, failed))
}
