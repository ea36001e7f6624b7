//! Files to begin with, in a folder.

ghost use Rattle.std.specs.Prelude.{◌≡◌, IfErr, IfSome, List, OnOk, Option, true};
ghost use Rattle.std.specs.Io.KnownBytes.{Keeps};
ghost use Rattle.book_desk_app.specs.Beginnings.{AddsFile, Begins, FailsToBegin, FailsToMake, File, KeepsFiles, MakesBoth, TakesBack, is_named};
ghost use Rattle.book_desk_app.specs.Endings.{EndsWith};
ghost use Rattle.book_desk_app.specs.Telling.{TellsFailure};
ghost use Rattle.book_desk_app.specs.declared.failures.InitFault.TheVariants.{Exists};

use crate::endings::ended;
use crate::failures::{Failure, InitFault};
use crate::lines::Lines;
use std::io::Write;

/// The name of the policy's file.
const POLICY_NAME: &str = "policy.toml";

/// The name of the file of the gateway's settings.
const SETTINGS_NAME: &str = "gateway.toml";

/// A folder in which files are made.
pub trait Folder {
    /// The files in it, where they are known; the last that was made comes first.
    ghost files: { Self → Option (List File) };

    /// Whether a file of that name is there.
    fn has(&self, name: &str) -> bool
        ensures { IfSome (files self.now) (λ known. result ≡ is_named name.now known) };

    /// Makes a file of that name with that text. Where it can't be made, nothing of it is left.
    ///
    /// # Errors
    ///
    /// `Exists` where a file of that name is there, and `Write` where it could not be made.
    fn make(&mut self, name: &str, text: &str) -> Result<(), InitFault>
        ensures made { OnOk result (AddsFile (files self.old) (files self.new) name.now text.now) }
        ensures failed { IfErr result (λ fault. KeepsFiles (files self.old) (files self.new)) }
        ensures there { IfErr result (λ fault. fault ≡ Exists
            → IfSome (files self.old) (λ known. is_named name.now known ≡ true)) };

    /// Removes the file of that name, if it was made last.
    fn remove(&mut self, name: &str)
        ensures { TakesBack (files self.old) (files self.new) name.now };
}

/// The texts of what is made to begin with, and what is told of it.
#[derive(Clone, Copy, Drop)]
pub struct Beginning<'a> {
    /// The text of the policy's file.
    pub policy: &'a str,
    /// The text of the file of the gateway's settings.
    pub settings: &'a str,
    /// What is written where both were made.
    pub next: &'a str,
}

/// Makes the two files, where neither is there.
///
/// # Errors
///
/// `Exists` where one of them is there, and `Write` where one could not be made. Nothing is left then.
fn make_both<F: Folder>(folder: &mut F, policy: &str, settings: &str) -> Result<(), InitFault>
    ensures made { OnOk result (MakesBoth (F.files folder.old)
        (F.files folder.new) policy.now settings.now) }
    ensures failed { IfErr result (FailsToMake (F.files folder.old) (F.files folder.new)) }
{
    if folder.has(POLICY_NAME) || folder.has(SETTINGS_NAME) {
        return Err(InitFault::Exists);
    }
    folder.make(POLICY_NAME, policy)?;
    match folder.make(SETTINGS_NAME, settings) {
        Ok(()) => Ok(()),
        Err(fault) => {
            folder.remove(POLICY_NAME);
            Err(fault)
        }
    }
}

/// Makes them, and writes what is told of it.
fn make_and_tell<F: Folder, W: Write>(
    folder: &mut F,
    beginning: &Beginning<'_>,
    writer: &mut W,
) -> Result<(), Failure>
    ensures begun { OnOk result (Begins (F.files folder.old)
        (F.files folder.new) beginning.now.policy.now beginning.now.settings.now
        beginning.now.next.now (W.contents writer.old) (W.contents writer.new)) }
    ensures failed { IfErr result (λ failure. FailsToBegin (F.files folder.old)
        (F.files folder.new) beginning.now.policy.now beginning.now.settings.now failure
        (W.contents writer.old) (W.contents writer.new)) }
{
    if let Err(fault) = make_both(folder, beginning.policy, beginning.settings) {
        return Err(Failure::Init(fault));
    }
    if writer.write_all(beginning.next.as_bytes()).is_err() || writer.flush().is_err() {
        return Err(Failure::Output);
    }
    Ok(())
}

/// Makes a policy and settings to begin with in a folder, `policy.toml` and `gateway.toml`, writes what comes next, and
/// gives the status of the program: 0 where that is done, 1 where a file of one of these names is there, 3 where one could
/// not be made, or the text not written. Where they were not made nothing is left of them, and nothing is written. A
/// failure is told on `errors`.
pub fn begin<F: Folder, W: Write, E: Lines>(
    folder: &mut F,
    beginning: &Beginning<'_>,
    writer: &mut W,
    errors: &mut E,
) -> u8
    ensures ends { EndsWith (TellsFailure (E.is_whole errors.new) (E.Write.contents errors.old)
        (E.Write.contents errors.new)) (Begins (F.files folder.old)
        (F.files folder.new) beginning.now.policy.now beginning.now.settings.now
        beginning.now.next.now (W.contents writer.old) (W.contents writer.new))
        (λ failure. FailsToBegin (F.files folder.old)
        (F.files folder.new) beginning.now.policy.now beginning.now.settings.now failure
        (W.contents writer.old) (W.contents writer.new)) result }
    ensures silent { result ≡ 0 → Keeps (E.Write.contents errors.old)
        (E.Write.contents errors.new) }
{
    let outcome = make_and_tell(folder, beginning, writer);
    ended(errors, outcome)
}
