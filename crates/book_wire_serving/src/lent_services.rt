//! A service that is lent.

ghost use Rattle.std.specs.Prelude.{◌∷◌, []};
ghost use Rattle.book_wire_serving.specs.Rounds.{by_names};

use crate::services::{LogFault, Service};
use book_machine::{Reply, Request};
use std::alloc::Global;

/// A service that is lent serves as it does, and stands for what it stands for. Its fallback names the reference, so that who
/// lent it knows afterwards that it is the same.
impl<M: Service> Service for &mut M {
    ghost serving = { λ s. by_names (s.ghost_name ∷ []) (M.serving s.now) };

    ghost owed = { λ s. M.owed s.now };

    fn turn_to(&mut self, connection: u64) {
        M::turn_to(&mut **self, connection);
    }

    fn serve(&mut self, alloc: Global, name: Option<&str>, request: &Request) -> Reply {
        M::serve(&mut **self, alloc, name, request)
    }

    fn note(&mut self, as_made: bool) -> Result<(), LogFault> {
        M::note(&mut **self, as_made)
    }

    fn note_refusal(&mut self, status: u16, error: &str) -> Result<(), LogFault> {
        M::note_refusal(&mut **self, status, error)
    }

    fn has_failed_log(&self) -> bool {
        M::has_failed_log(&**self)
    }

    fn failures(&self) -> u64 {
        M::failures(&**self)
    }

    fn shows_nothing(&mut self) -> bool {
        M::shows_nothing(&mut **self)
    }
}
