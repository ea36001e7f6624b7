//! What a service is asked by whoever keeps it.

ghost use Rattle.std.specs.Prelude.{◌≡◌, [], false};
ghost use Rattle.std.specs.Io.KnownBytes.{Keeps};
ghost use Rattle.sqlite.specs.Held.{state};
ghost use Rattle.book_desk_administering.specs.Counting.{counts_of};
ghost use Rattle.book_desk_administering.specs.Putting.{PutsPolicy};
ghost use Rattle.book_desk_app.specs.Audits.{Audits, FailsToAudit};
ghost use Rattle.book_desk_app.specs.Endings.{EndsWith};
ghost use Rattle.book_desk_app.specs.Telling.{TellsFailure, TellsLine};
ghost use Rattle.book_desk_checks.specs.Checking.{ChecksCopy};
ghost use Rattle.book_desk_keeping.specs.Keeping.{EndsMaking, IsCopyOf};
ghost use Rattle.book_desk_questions.specs.Answers.{AnswersWords};
ghost use Rattle.book_desk_questions.specs.Differing.{DiffersBy};
ghost use Rattle.book_desk_questions.specs.Dumping.{EndsDump};
ghost use Rattle.book_office.specs.Keeping.{Reads};
ghost use Rattle.book_wire_serving.specs.Serving.{Runs};
ghost use Rattle.book_wire_steps.specs.Steps.{OnlyAdopts};

use crate::counting::Counts;
use book_desk_app::Lines;
use book_desk_questions::Words;
use book_office::StoreFault;
use book_wire_serving::Service;
use sqlite::{Alter, Connection};
use std::alloc::Global;
use std::io::Write;

/// A service whose Office is read, and whose policy is put in force, by whoever keeps it. Each call does what the command of
/// its name does over a store, and gives that one's status; what it has to tell is written, and a failure told on `errors`.
///
/// Of all calls `put_policy` alone changes the Office.
pub trait Administered: Service {
    /// Answers a question in words: `why`, `who`, `rights`, `ask`, `show`, or the `audit` of a part.
    fn ask<O: Write, E: Lines>(
        &mut self,
        alloc: Global,
        words: &Words<'_>,
        writer: &mut O,
        errors: &mut E,
    ) -> u8
        ensures answers { AnswersWords (TellsLine (E.is_whole errors.new)
            (E.Write.contents errors.old) (E.Write.contents errors.new)) words.now
            (Self.Service.serving self.old).standing (O.contents writer.old) (O.contents writer.new)
            result (Self.Service.serving self.new).standing }
        ensures silent { result ≡ 0 → Keeps (E.Write.contents errors.old)
            (E.Write.contents errors.new) }
        ensures reads { Runs (Self.Service.serving self.old) (Self.Service.serving self.new) [] };

    /// Writes the audit: the epoch, the direct members of the groups, and each resource with its owner and its lists.
    fn audit<O: Write, E: Lines>(&mut self, alloc: Global, writer: &mut O, errors: &mut E) -> u8
        ensures audits { EndsWith (TellsFailure (E.is_whole errors.new)
            (E.Write.contents errors.old) (E.Write.contents errors.new))
            (Audits (Self.Service.serving self.old).standing (O.contents writer.old)
            (O.contents writer.new) (Self.Service.serving self.new).standing)
            (λ failure. FailsToAudit (Self.Service.serving self.old).standing failure
            (O.contents writer.old) (O.contents writer.new)
            (Self.Service.serving self.new).standing) result }
        ensures silent { result ≡ 0 → Keeps (E.Write.contents errors.old)
            (E.Write.contents errors.new) }
        ensures reads { Runs (Self.Service.serving self.old) (Self.Service.serving self.new) [] };

    /// Writes the Office as text. Where it can't be read or written to its end, a beginning of the text may be written.
    fn dump<O: Write, E: Lines>(&mut self, alloc: Global, writer: &mut O, errors: &mut E) -> u8
        ensures dumps { EndsDump (TellsLine (E.is_whole errors.new) (E.Write.contents errors.old)
            (E.Write.contents errors.new)) (Self.Service.serving self.old).standing
            (O.contents writer.old) (O.contents writer.new) result
            (Self.Service.serving self.new).standing }
        ensures silent { result ≡ 0 → Keeps (E.Write.contents errors.old)
            (E.Write.contents errors.new) }
        ensures reads { Runs (Self.Service.serving self.old) (Self.Service.serving self.new) [] };

    /// Makes a copy of the Office in the store of a connection without table, index or view, as the command does of that of
    /// a store. The connection comes back, but where its store could not be opened again.
    fn backup<T: Alter + Drop, E: Lines>(
        &mut self,
        alloc: Global,
        fresh: Connection<T>,
        errors: &mut E,
    ) -> (u8, Option<Connection<T>>)
        ensures makes { EndsMaking (state T.Store) (TellsLine (E.is_whole errors.new)
            (E.Write.contents errors.old) (E.Write.contents errors.new)) fresh
            (IsCopyOf (state T.Store) false (Self.Service.serving self.old).standing
            (Self.Service.serving self.new).standing) result.0 result.1 }
        ensures silent { result.0 ≡ 0 → Keeps (E.Write.contents errors.old)
            (E.Write.contents errors.new) }
        ensures reads { Runs (Self.Service.serving self.old) (Self.Service.serving self.new) [] };

    /// Tells of the bytes of a policy: what it would leave open where the Office adopts it, or each fault.
    fn check<O: Write, E: Lines>(
        &mut self,
        alloc: Global,
        bytes: Vec<u8>,
        strict: bool,
        writer: &mut O,
        errors: &mut E,
    ) -> u8
        ensures checks { ChecksCopy bytes.items strict (E.is_whole errors.new)
            (Self.Service.serving self.old).standing (O.contents writer.old) (O.contents writer.new)
            (E.Write.contents errors.old) (E.Write.contents errors.new) result
            (Self.Service.serving self.new).standing }
        ensures reads { Runs (Self.Service.serving self.old) (Self.Service.serving self.new) [] };

    /// Writes what adopting the policy of these bytes would leave and change.
    fn differs<O: Write, E: Lines>(
        &mut self,
        alloc: Global,
        bytes: Vec<u8>,
        strict: bool,
        writer: &mut O,
        errors: &mut E,
    ) -> u8
        ensures differs { DiffersBy (TellsLine (E.is_whole errors.new) (E.Write.contents errors.old)
            (E.Write.contents errors.new)) (Keeps (E.Write.contents errors.old)
            (E.Write.contents errors.new)) bytes.items strict
            (Self.Service.serving self.old).standing (O.contents writer.old) (O.contents writer.new)
            result (Self.Service.serving self.new).standing }
        ensures reads { Runs (Self.Service.serving self.old) (Self.Service.serving self.new) [] };

    /// Puts the policy of these bytes in force: it is adopted as `import` does it, and its line is noted, where a log is kept.
    /// Where they are no policy each fault is told, as `check` does. Where a line of the log could not be written before,
    /// nothing is done.
    fn put_policy<O: Write, E: Lines>(
        &mut self,
        alloc: Global,
        bytes: Vec<u8>,
        writer: &mut O,
        errors: &mut E,
    ) -> u8
        ensures puts { PutsPolicy Self.Service.serving bytes.items (E.is_whole errors.new)
            (E.Write.contents errors.old) (E.Write.contents errors.new) self.old
            (O.contents writer.old) (O.contents writer.new) result self.new }
        ensures only { OnlyAdopts Self.Service.serving self.old self.new };

    /// How much the Office has.
    ///
    /// # Errors
    ///
    /// As `counts_of`.
    fn counts(&mut self, alloc: Global) -> Result<Counts, StoreFault>
        ensures counts { Reads (Self.Service.serving self.old).standing
            (Self.Service.serving self.new).standing result (λ o counts. counts ≡ counts_of o) }
        ensures reads { Runs (Self.Service.serving self.old) (Self.Service.serving self.new) [] };
}
