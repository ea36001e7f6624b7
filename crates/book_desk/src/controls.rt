//! The control of a server: a Unix socket on which whoever keeps the server asks, which has its turn in the loop of the server.

use crate::backups::backup_of;
use book_desk_administering::Administered;
use book_desk_answering::Copying;
use book_desk_app::Lines;
use book_desk_control::Sizes;
use book_desk_files::{length_of, log_name};
use book_desk_logs::time_now;
use book_desk_metrics::{Clock, Counted};
use book_desk_sockets::LocalDoor;
use book_desk_stores::STORE_VERSION;
use book_desk_visitors::{Facts, Places};
use book_desk_words::VERSION;
use book_log_lines::Time;
use book_wire_steps::{Control, Traffic, Wish};
use std::io;
use std::os::fd::RawFd;
use std::time::{Instant, SystemTime};

/// Tells how much time has passed since it was made.
#[derive(Drop)]
pub struct Stopwatch<'r> {
    rt: &'r HostRuntime,
    begun: Option<Instant>,
}

impl<'r> Stopwatch<'r> {
    /// One that begins now.
    pub fn new(rt: &'r HostRuntime) -> Stopwatch<'r> {
        Stopwatch {
            rt,
            begun: Instant::now(rt).ok(),
        }
    }
}

/// Where the clock can't be read, no time has passed.
impl Clock for Stopwatch<'_> {
    ghost tells = { λ _ _ _. Unit {0} };

    fn micros(&mut self) -> u64 {
        match (self.begun, Instant::now(self.rt)) {
            (Some(begun), Ok(now)) => {
                let passed = now.saturating_duration_since(begun).as_micros();
                u64::try_from(passed).unwrap_or(u64::MAX)
            }
            _ => 0,
        }
    }
}

/// How large the files of a store are.
fn sizes_of(rt: &HostRuntime, store: Option<&str>) -> Option<Sizes> {
    let name = store?;
    let file = length_of(rt, name)?;
    let Ok(log) = log_name(rt.alloc(), name) else {
        return None;
    };
    let log = length_of(rt, log.as_str()).unwrap_or(0);
    Some(Sizes { file, log })
}

/// The seconds since the first instant of 1970; none where the clock can't be read.
fn seconds_now(rt: &HostRuntime) -> u64 {
    let Ok(now) = SystemTime::now(rt) else {
        return 0;
    };
    match now.duration_since(SystemTime::UNIX_EPOCH) {
        Ok(since) => since.as_secs(),
        Err(_) => 0,
    }
}

/// Makes copies in files of this host.
#[derive(Drop)]
struct Copier<'r> {
    rt: &'r HostRuntime,
}

/// What files hold no contract tells.
impl<M: Administered> Copying<M> for Copier<'_> {
    ghost copies = { λ _ _ _ _ _ _ _ _ _. Unit {0} };

    fn copy<E: Lines>(&mut self, service: &mut M, to: &str, errors: &mut E) -> u8 {
        backup_of(self.rt, service, to, errors)
    }
}

/// The control of a server.
#[derive(Drop)]
pub struct Controls<'r> {
    rt: &'r HostRuntime,
    /// The file of the store, where there is one.
    store: Option<&'r str>,
    /// Since when it serves.
    since: Time,
    /// The same in seconds since the first instant of 1970.
    began: u64,
    places: Places,
}

impl<'r> Controls<'r> {
    /// The control at a listener.
    ///
    /// # Errors
    ///
    /// Where the system tells of no readiness, and for want of memory.
    pub fn new(
        rt: &'r HostRuntime,
        listener: LocalDoor,
        store: Option<&'r str>,
    ) -> io::Result<Controls<'r>> {
        let since = time_now(rt, rt.alloc())?;
        let began = seconds_now(rt);
        let places = Places::new(rt, rt.alloc(), listener)?;
        Ok(Controls {
            rt,
            store,
            since,
            began,
            places,
        })
    }

    /// What can be read when it may go on.
    pub fn descriptor(&self) -> RawFd {
        self.places.descriptor()
    }
}

/// Over a service whose replies are counted.
impl<M: Administered, C: Clock> Control<Counted<M, C>> for Controls<'_> {
    fn take_turn(&mut self, service: &mut Counted<M, C>, traffic: Traffic) -> Wish {
        let facts = Facts {
            version: VERSION,
            schema: u64::from(STORE_VERSION),
            since: self.since.text(),
            began: self.began,
            traffic,
            store: sizes_of(self.rt, self.store),
            replies: &service.counts,
            times: &service.times,
        };
        let mut copier = Copier { rt: self.rt };
        self.places
            .take_turn(&mut service.service, &mut copier, &facts)
    }
}
