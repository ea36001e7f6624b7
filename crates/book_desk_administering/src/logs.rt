//! A machine that keeps a log is asked as it is without one; and what came of a policy is noted.

use crate::administered::Administered;
use crate::adopting::{adopt_noted, log_failure, tell_adoption};
use crate::counting::{Counts, counts_of};
use book_desk_app::{Lines, tell_line};
use book_desk_checks::{policy_in, tell_no_policy};
use book_desk_questions::Words;
use book_log_service::{Clock, Logged};
use book_office::{Keeper, StoreFault};
use sqlite::{Alter, Connection};
use std::alloc::Global;
use std::io::Write;

impl<K: Keeper, W: Write, C: Clock> Administered for Logged<K, W, C> {
    fn ask<O: Write, E: Lines>(
        &mut self,
        alloc: Global,
        words: &Words<'_>,
        writer: &mut O,
        errors: &mut E,
    ) -> u8 {
        self.machine.ask(alloc, words, writer, errors)
    }

    fn audit<O: Write, E: Lines>(&mut self, alloc: Global, writer: &mut O, errors: &mut E) -> u8 {
        self.machine.audit(alloc, writer, errors)
    }

    fn dump<O: Write, E: Lines>(&mut self, alloc: Global, writer: &mut O, errors: &mut E) -> u8 {
        self.machine.dump(alloc, writer, errors)
    }

    fn backup<T: Alter + Drop, E: Lines>(
        &mut self,
        alloc: Global,
        fresh: Connection<T>,
        errors: &mut E,
    ) -> (u8, Option<Connection<T>>) {
        self.machine.backup(alloc, fresh, errors)
    }

    fn check<O: Write, E: Lines>(
        &mut self,
        alloc: Global,
        bytes: Vec<u8>,
        strict: bool,
        writer: &mut O,
        errors: &mut E,
    ) -> u8 {
        self.machine.check(alloc, bytes, strict, writer, errors)
    }

    fn differs<O: Write, E: Lines>(
        &mut self,
        alloc: Global,
        bytes: Vec<u8>,
        strict: bool,
        writer: &mut O,
        errors: &mut E,
    ) -> u8 {
        self.machine.differs(alloc, bytes, strict, writer, errors)
    }

    fn put_policy<O: Write, E: Lines>(
        &mut self,
        alloc: Global,
        bytes: Vec<u8>,
        writer: &mut O,
        errors: &mut E,
    ) -> u8 {
        if self.failed {
            return tell_line(errors, &log_failure());
        }
        match policy_in(alloc, bytes.as_slice()) {
            Some(policy) => {
                let outcome = adopt_noted(alloc, self, &policy);
                drop(policy);
                tell_adoption(outcome, self.failed, writer, errors)
            }
            None => tell_no_policy(alloc, bytes, errors),
        }
    }

    fn counts(&mut self, alloc: Global) -> Result<Counts, StoreFault> {
        counts_of(alloc, &mut self.machine.keeper)
    }
}
