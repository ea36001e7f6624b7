//! Telling what is wrong with a policy's file, or what the policy leaves open.

ghost use Rattle.std.specs.Prelude.{◌≡◌, ◌≢◌, IfSome};
ghost use Rattle.book_desk_app.specs.Policies.{SpellsPolicy};
ghost use Rattle.book_desk_checks.specs.Checking.{Checks, EndsChecked, EndsTold, TellsNoPolicy, checked_status, told_status};
ghost use Rattle.book_policy_checks.specs.Telling.{TellsChecked};
ghost use Rattle.book_policy_checks.specs.declared.telling.Checked.TheVariants.{Sound};

use book_desk_app::{DONE, Failure, InputFault, Lines, REFUSED, tell_line};
use book_policy::{PolicyFault, read_policy};
use book_policy_checks::{Checked, tell_faults};
use book_policy_values::Policy;
use book_policy_warnings::{Told, tell_policy};
use std::alloc::Global;
use std::io::Write;

/// Ends a check of what is no policy, and gives the status of the program.
fn end_checked<E: Lines>(checked: Checked, errors: &mut E) -> u8
    ensures status { result ≡ checked_status checked }
    ensures told { EndsChecked (E.is_whole errors.new) (E.Write.contents errors.old)
        (E.Write.contents errors.new) checked }
{
    match checked {
        Checked::Sound => DONE,
        Checked::Faulty(_) => REFUSED,
        Checked::NotUtf8 => tell_line(errors, &Failure::Input(InputFault::NotUtf8)),
        Checked::Memory => tell_line(errors, &Failure::Policy(PolicyFault::Memory)),
    }
}

/// Ends a check, and gives the status of the program.
pub(crate) fn end_told<E: Lines>(told: Told, strict: bool, errors: &mut E) -> u8
    ensures status { result ≡ told_status strict told }
    ensures told { EndsTold (E.is_whole errors.new) (E.Write.contents errors.old)
        (E.Write.contents errors.new) told }
{
    match told {
        Told::Sound(warned) => { if strict && warned { REFUSED } else { DONE } }
        Told::Unwritten => tell_line(errors, &Failure::Output),
        Told::Unsound(checked) => end_checked(checked, errors),
    }
}

/// Tells of the bytes of a policy's file: of a policy what it leaves open, and else each fault (`tell_policy`). It gives the
/// status of the program: 0 of a policy, 1 where there is a fault, or a warning and the check is strict, 3 where memory was
/// refused, or the warnings could not be written.
pub fn check<W: Write, E: Lines>(
    alloc: Global,
    bytes: Vec<u8>,
    strict: bool,
    writer: &mut W,
    errors: &mut E,
) -> u8
    ensures { Checks bytes.items strict (E.is_whole errors.new) (W.contents writer.old)
        (W.contents writer.new) (E.Write.contents errors.old) (E.Write.contents errors.new) result }
{
    let told = tell_policy(alloc, bytes, writer, errors);
    end_told(told, strict, errors)
}

/// The policy that bytes spell; none where they spell none, or memory was refused. Of the bytes no copy is made.
pub fn policy_in(alloc: Global, bytes: &[u8]) -> Option<Policy>
    ensures { IfSome result (λ policy. SpellsPolicy bytes.now policy) }
{
    let Ok(text) = str::from_utf8(bytes) else {
        return None;
    };
    match read_policy(alloc, text) {
        Ok(policy) => Some(policy),
        Err(_) => None,
    }
}

/// What is told of bytes that were not read as a policy.
fn tell_unsound<E: Lines>(alloc: Global, bytes: Vec<u8>, errors: &mut E) -> Checked
    ensures unsound { result ≢ Sound }
    ensures told { TellsChecked bytes.items (E.Write.contents errors.old)
        (E.Write.contents errors.new) result }
{
    match tell_faults(alloc, bytes, errors) {
        // They are a policy, so that memory was refused where they were read before.
        Checked::Sound => Checked::Memory,
        Checked::Faulty(whole) => Checked::Faulty(whole),
        Checked::NotUtf8 => Checked::NotUtf8,
        Checked::Memory => Checked::Memory,
    }
}

/// Tells each fault of bytes that `policy_in` did not read as a policy, as `check` does, or that memory was refused, and gives
/// the status of the program, which is never that of a policy.
pub fn tell_no_policy<E: Lines>(alloc: Global, bytes: Vec<u8>, errors: &mut E) -> u8
    ensures { TellsNoPolicy bytes.items (E.is_whole errors.new) (E.Write.contents errors.old)
        (E.Write.contents errors.new) result }
{
    let checked = tell_unsound(alloc, bytes, errors);
    end_checked(checked, errors)
}
