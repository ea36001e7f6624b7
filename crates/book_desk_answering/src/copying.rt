//! What copies the Office that is served.

ghost use Rattle.std.specs.Prelude.{[]};
ghost use Rattle.book_wire_serving.specs.Serving.{Runs};

use book_desk_app::Lines;
use book_wire_serving::Service;

/// Makes copies of the Office of a service. The files are its own: what it makes at a path it tells itself (`copies`).
pub trait Copying<M: Service> {
    ghost use Rattle.book_desk_answering.specs.Copies.{Copied};

    /// With itself and the service before and after a copy.
    ghost copies: { Self → M → M → Self → Copied };

    /// Makes a copy at a path as the command `backup` does, and gives its status; a failure is told on `errors`. The Office is
    /// read, and nothing else is done to the service.
    fn copy<E: Lines>(&mut self, service: &mut M, to: &str, errors: &mut E) -> u8
        ensures copies { copies self.old service.old service.new self.new to.now
            (E.is_whole errors.new) (E.Write.contents errors.old) (E.Write.contents errors.new)
            result }
        ensures reads { Runs (M.serving service.old) (M.serving service.new) [] };
}
