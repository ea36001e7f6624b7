//! A port and a Unix socket as one listener, and how a socket's file is made.

use crate::checks::check_fact;
use book_desk_sockets::{Door, Found, Ground, Line, NotMade, SocketPath, accept_from, make_socket};
use std::cell::Cell;
use std::io::{self, ErrorKind};
use std::os::unix::fs::MetadataExt;
use std::{fs, process};

/// What a door gives: the number of a connection, or why none can be had.
#[derive(Clone, Copy)]
struct Gives<'a> {
    given: Result<u8, ErrorKind>,
    asked: &'a Cell<u8>,
}

impl Door for Gives<'_> {
    type Stream = u8;

    fn give(&self) -> io::Result<u8> {
        self.asked.set(self.asked.get().saturating_add(1));
        match self.given {
            Ok(number) => Ok(number),
            Err(kind) => Err(kind.into()),
        }
    }

    fn set_waiting(&self, _waiting: bool) -> io::Result<()> {
        Ok(())
    }
}

const NONE: Result<u8, ErrorKind> = Err(ErrorKind::WouldBlock);

const FAILS: Result<u8, ErrorKind> = Err(ErrorKind::Other);

/// What the port gives, if there is one, and the socket, if there is one; whether the socket is asked first; what comes of
/// it, a connection of the socket from 100 on; and how many were asked.
type Row = (
    Option<Result<u8, ErrorKind>>,
    Option<Result<u8, ErrorKind>>,
    bool,
    Result<u8, ErrorKind>,
    u8,
);

const ROWS: &[Row] = &[
    (Some(Ok(1)), Some(Ok(2)), false, Ok(1), 1),
    (Some(Ok(1)), Some(Ok(2)), true, Ok(102), 1),
    (Some(NONE), Some(Ok(2)), false, Ok(102), 2),
    (Some(Ok(1)), Some(NONE), true, Ok(1), 2),
    (Some(NONE), Some(NONE), false, NONE, 2),
    (Some(NONE), Some(NONE), true, NONE, 2),
    (Some(FAILS), Some(Ok(2)), false, FAILS, 1),
    (Some(Ok(1)), Some(FAILS), true, FAILS, 1),
    (Some(NONE), Some(FAILS), false, FAILS, 2),
    (Some(Ok(1)), None, true, Ok(1), 1),
    (None, Some(Ok(2)), false, Ok(102), 1),
    (None, None, false, NONE, 0),
];

#[test]
fn a_connection_comes_from_either(rt: HostRuntime) {
    for (port, local, local_first, wanted, count) in ROWS {
        let asked = Cell::new(0);
        let door = |given: Result<u8, ErrorKind>| Gives {
            given,
            asked: &asked,
        };
        let port = match *port {
            Some(given) => Some(door(given)),
            None => None,
        };
        let local = match *local {
            Some(given) => Some(door(given)),
            None => None,
        };
        let came = match accept_from(&port, &local, *local_first) {
            Ok(Line::Port(number)) => Ok(number),
            Ok(Line::Local(number)) => Ok(number.saturating_add(100)),
            Err(error) => Err(error.kind()),
        };
        check_fact(&rt, came == *wanted, "what came");
        check_fact(&rt, asked.get() == *count, "how often it was asked");
    }
}

/// What is at a path; which step fails, none where it is 0; and what was done.
#[derive(Drop)]
struct Steps {
    found: Found,
    fails: usize,
    done: Vec<&'static str>,
}

impl Steps {
    /// Does a step, or fails.
    fn step(&mut self, name: &'static str) -> io::Result<()> {
        self.done.push(name)?;
        if self.done.len() == self.fails {
            return Err(ErrorKind::Other.into());
        }
        Ok(())
    }
}

impl Ground for Steps {
    ghost use Rattle.std.specs.Prelude.{None};

    type Listener = ();

    ghost names = { λ _. None };

    fn look(&self) -> io::Result<Found> {
        Ok(self.found)
    }

    fn make_folder(&mut self) -> io::Result<()> {
        self.step("folder")
    }

    fn bind(&mut self) -> io::Result<()> {
        self.step("bind")
    }

    fn permit(&mut self, mode: u16) -> io::Result<()> {
        self.step(if mode == 0o660 {
            "0660"
        } else {
            "another mode"
        })
    }

    fn rename(&mut self) -> io::Result<()> {
        self.step("rename")
    }

    fn remove_folder(&mut self) {
        let _ = self.step("remove");
    }
}

const WHOLE: &[&str] = &["folder", "bind", "0660", "rename", "remove"];

/// What is at the path, the number of the step that fails, what comes of it, and what is done.
const MADE: &[(Found, usize, Result<(), NotMade>, &[&str])] = &[
    (Found::Missing, 0, Ok(()), WHOLE),
    (Found::Left, 0, Ok(()), WHOLE),
    (Found::Answers, 0, Err(NotMade::Taken), &[]),
    (Found::Other, 0, Err(NotMade::Failed), &[]),
    (Found::Missing, 1, Err(NotMade::Failed), &["folder"]),
    (
        Found::Missing,
        2,
        Err(NotMade::Failed),
        &["folder", "bind", "remove"],
    ),
    (
        Found::Left,
        3,
        Err(NotMade::Failed),
        &["folder", "bind", "0660", "remove"],
    ),
    (Found::Left, 4, Err(NotMade::Failed), WHOLE),
];

#[test]
fn a_socket_takes_its_name_when_it_is_whole(rt: HostRuntime) {
    for (found, fails, wanted, done) in MADE {
        let mut steps = Steps {
            found: *found,
            fails: *fails,
            done: Vec::new(rt.alloc()),
        };
        let made = make_socket(&mut steps, 0o660);
        check_fact(&rt, made == *wanted, "what was made");
        check_fact(&rt, steps.done.as_slice() == *done, "what was done");
    }
}

/// Why no socket was made, and the permissions of what is at the path then.
type Made = (Option<NotMade>, Option<u32>);

/// The permissions of what is at a path.
fn mode_at(rt: &HostRuntime, path: &str) -> Option<u32> {
    match fs::symlink_metadata(rt, path) {
        Ok(metadata) => Some(metadata.mode() & 0o7777),
        Err(_) => None,
    }
}

/// Makes a socket at a path, and lets it go: it is left there.
fn made_at(rt: &HostRuntime, path: &str, mode: u16) -> io::Result<Made> {
    let mut place = SocketPath::new(rt, rt.alloc(), path)?;
    let made = make_socket(&mut place, mode).err();
    Ok((made, mode_at(rt, path)))
}

/// Where nothing is, where one was left, and where one answers.
fn sockets(rt: &HostRuntime, path: &str) -> io::Result<(Made, Made, Made)> {
    let first = made_at(rt, path, 0o640)?;
    let second = made_at(rt, path, 0o600)?;
    let mut place = SocketPath::new(rt, rt.alloc(), path)?;
    let kept = make_socket(&mut place, 0o660);
    let third = made_at(rt, path, 0o666)?;
    drop(kept);
    Ok((first, second, third))
}

/// Removes what is at a path, where it is what was made there; what is there before and after.
fn removed(rt: &HostRuntime, path: &str) -> io::Result<(bool, bool)> {
    let place = SocketPath::new(rt, rt.alloc(), path)?;
    let left = place.identity();
    place.remove(None);
    let before = mode_at(rt, path).is_some();
    place.remove(left);
    Ok((before, mode_at(rt, path).is_some()))
}

/// Where a file is that is no socket: why none was made, and whether the file has its text still.
fn beside_a_file(rt: &HostRuntime, path: &str) -> io::Result<(Option<NotMade>, bool)> {
    fs::write(rt, path, "a text")?;
    let (made, _) = made_at(rt, path, 0o600)?;
    let kept = fs::read(rt, path)?.as_slice() == "a text".as_bytes();
    fs::remove_file(rt, path)?;
    Ok((made, kept))
}

#[test]
fn a_socket_that_answers_stays(rt: HostRuntime) {
    let id = process::id(rt.process());
    let folder = format!(in rt.alloc(); "book_desk_sockets.{id}").expect(&rt, "memory");
    let path = format!(in rt.alloc(); "{folder}/socket").expect(&rt, "memory");
    fs::create_dir(&rt, folder.as_str()).expect(&rt, "a folder");
    let (first, second, third) = sockets(&rt, path.as_str()).expect(&rt, "sockets");
    check_fact(&rt, first == (None, Some(0o640)), "a new socket");
    check_fact(
        &rt,
        second == (None, Some(0o600)),
        "one in the place of one that is gone",
    );
    check_fact(
        &rt,
        third == (Some(NotMade::Taken), Some(0o660)),
        "one that answers stays",
    );
    let left = removed(&rt, path.as_str()).expect(&rt, "memory");
    check_fact(&rt, left == (true, false), "it is removed");
    let file = beside_a_file(&rt, path.as_str()).expect(&rt, "a file");
    check_fact(&rt, file == (Some(NotMade::Failed), true), "a file stays");
    // The folder in which sockets are made is gone: this one is empty.
    fs::remove_dir(&rt, folder.as_str()).expect(&rt, "an empty folder");
}
