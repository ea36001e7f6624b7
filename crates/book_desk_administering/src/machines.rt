//! A machine, which keeps no log, is asked and put in force.

use crate::administered::Administered;
use crate::adopting::tell_adoption;
use crate::counting::{Counts, counts_of};
use book_desk_app::{DONE, Lines, audit, tell_line};
use book_desk_checks::{check_copy, policy_in, tell_no_policy};
use book_desk_keeping::copy_keeper;
use book_desk_questions::{Words, answer_words, differs_by, dump_of};
use book_machine::Machine;
use book_office::{Keeper, StoreFault};
use sqlite::{Alter, Connection};
use std::alloc::Global;
use std::io::Write;

impl<K: Keeper> Administered for Machine<K> {
    fn ask<O: Write, E: Lines>(
        &mut self,
        alloc: Global,
        words: &Words<'_>,
        writer: &mut O,
        errors: &mut E,
    ) -> u8 {
        answer_words(alloc, self, words, writer, errors)
    }

    fn audit<O: Write, E: Lines>(&mut self, alloc: Global, writer: &mut O, errors: &mut E) -> u8 {
        match audit(alloc, &mut self.keeper, writer) {
            Ok(()) => DONE,
            Err(failure) => tell_line(errors, &failure),
        }
    }

    fn dump<O: Write, E: Lines>(&mut self, alloc: Global, writer: &mut O, errors: &mut E) -> u8 {
        dump_of(alloc, &mut self.keeper, writer, errors)
    }

    fn backup<T: Alter + Drop, E: Lines>(
        &mut self,
        alloc: Global,
        fresh: Connection<T>,
        errors: &mut E,
    ) -> (u8, Option<Connection<T>>) {
        copy_keeper(alloc, &mut self.keeper, fresh, false, errors)
    }

    fn check<O: Write, E: Lines>(
        &mut self,
        alloc: Global,
        bytes: Vec<u8>,
        strict: bool,
        writer: &mut O,
        errors: &mut E,
    ) -> u8 {
        check_copy(alloc, bytes, strict, &mut self.keeper, writer, errors)
    }

    fn differs<O: Write, E: Lines>(
        &mut self,
        alloc: Global,
        bytes: Vec<u8>,
        strict: bool,
        writer: &mut O,
        errors: &mut E,
    ) -> u8 {
        differs_by(alloc, bytes, strict, &mut self.keeper, writer, errors)
    }

    fn put_policy<O: Write, E: Lines>(
        &mut self,
        alloc: Global,
        bytes: Vec<u8>,
        writer: &mut O,
        errors: &mut E,
    ) -> u8 {
        match policy_in(alloc, bytes.as_slice()) {
            Some(policy) => {
                let outcome = self.adopt(alloc, &policy);
                drop(policy);
                tell_adoption(outcome, false, writer, errors)
            }
            None => tell_no_policy(alloc, bytes, errors),
        }
    }

    fn counts(&mut self, alloc: Global) -> Result<Counts, StoreFault> {
        counts_of(alloc, &mut self.keeper)
    }
}
