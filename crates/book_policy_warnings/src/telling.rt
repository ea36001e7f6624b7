//! Telling of a policy's file: its faults, or what it leaves open.

ghost use Rattle.std.specs.Prelude.{◌≡◌};
ghost use Rattle.book_policy_warnings.specs.Telling.{TellsOver, TellsPolicy, TellsPolicyOver, TellsUnsound, TellsWarnings};
ghost use Rattle.book_policy_warnings.specs.Warnings.{AreWarningsOf};

use crate::warnings::{Warning, warnings_of, warnings_over, warnings_text};
use book_machine::AdoptFault;
use book_office_values::Office;
use book_policy::read_policy;
use book_policy_checks::{Checked, tell_faults};
use book_policy_values::Policy;
use std::alloc::Global;
use std::io::Write;

/// What was told of a policy's file.
#[derive(Clone, Copy, Debug, PartialEq, Eq, Drop)]
pub enum Told {
    /// It is a policy. Its warnings were written, a line for each: whether there was one.
    Sound(bool),
    /// It is a policy, and its warnings could not be written.
    Unwritten,
    /// It is none, or want of memory left it open: what was told then. This is never `Checked::Sound`.
    Unsound(Checked),
}

/// What was told of a policy's file over an Office.
#[derive(Clone, Copy, Debug, PartialEq, Eq, Drop)]
pub enum ToldOver {
    /// As without one.
    Told(Told),
    /// It is a policy that the Office would not adopt: it would pass a limit, or its epoch is at the last value. Nothing
    /// was written.
    Full,
}

/// Tells warnings.
fn tell_each<W: Write>(alloc: Global, warnings: &[Warning], writer: &mut W) -> Told
    ensures { TellsWarnings (λ told. told ≡ warnings.now) (W.contents writer.old)
        (W.contents writer.new) result }
{
    let Ok(text) = warnings_text(alloc, warnings) else {
        return Told::Unsound(Checked::Memory);
    };
    match writer.write_all(text.as_bytes()) {
        Ok(()) => Told::Sound(warnings.len() > 0),
        Err(_) => Told::Unwritten,
    }
}

/// Tells what a policy leaves open.
fn tell_warnings<W: Write>(alloc: Global, policy: &Policy, writer: &mut W) -> Told
    ensures { TellsWarnings (AreWarningsOf policy.now) (W.contents writer.old)
        (W.contents writer.new) result }
{
    match warnings_of(alloc, policy) {
        Ok(warnings) => tell_each(alloc, warnings.as_slice(), writer),
        Err(_) => Told::Unsound(Checked::Memory),
    }
}

/// Tells what a policy leaves open over an Office.
fn tell_over<W: Write>(alloc: Global, policy: &Policy, start: Office, writer: &mut W) -> ToldOver
    ensures { TellsOver start policy.now (W.contents writer.old) (W.contents writer.new) result }
{
    match warnings_over(alloc, policy, start) {
        Ok(warnings) => ToldOver::Told(tell_each(alloc, warnings.as_slice(), writer)),
        Err(AdoptFault::Full) => ToldOver::Full,
        Err(AdoptFault::Unavailable) => ToldOver::Told(Told::Unsound(Checked::Memory)),
    }
}

/// Tells the faults of what is no policy.
fn tell_unsound<E: Write>(alloc: Global, bytes: Vec<u8>, errors: &mut E) -> Told
    ensures { TellsUnsound bytes.items (E.contents errors.old) (E.contents errors.new) result }
{
    match tell_faults(alloc, bytes, errors) {
        // It is a policy, so that memory was refused where it was read before.
        Checked::Sound => Told::Unsound(Checked::Memory),
        Checked::Faulty(whole) => Told::Unsound(Checked::Faulty(whole)),
        Checked::NotUtf8 => Told::Unsound(Checked::NotUtf8),
        Checked::Memory => Told::Unsound(Checked::Memory),
    }
}

/// Tells of the bytes of a policy's file (own profile): of a policy what it leaves open (`warnings_of`), a line for each
/// on `writer`, and else each fault, a line for each on `errors` (`tell_faults`). It flushes neither.
pub fn tell_policy<W: Write, E: Write>(
    alloc: Global,
    bytes: Vec<u8>,
    writer: &mut W,
    errors: &mut E,
) -> Told
    ensures { TellsPolicy bytes.items (W.contents writer.old) (W.contents writer.new)
        (E.contents errors.old) (E.contents errors.new) result }
{
    let Ok(text) = String::from_utf8(bytes) else {
        return Told::Unsound(Checked::NotUtf8);
    };
    match read_policy(alloc, text.as_str()) {
        Ok(policy) => tell_warnings(alloc, &policy, writer),
        Err(_) => tell_unsound(alloc, text.into_bytes(), errors),
    }
}

/// Tells of the bytes of a policy's file over an Office (own profile): of a policy what it leaves open where the Office
/// adopts it (`warnings_over`), a line for each on `writer`, and else each fault, a line for each on `errors`. Where the
/// Office would not adopt it, nothing is written. It flushes neither.
pub fn tell_policy_over<W: Write, E: Write>(
    alloc: Global,
    bytes: Vec<u8>,
    start: Office,
    writer: &mut W,
    errors: &mut E,
) -> ToldOver
    ensures { TellsPolicyOver start bytes.items (W.contents writer.old) (W.contents writer.new)
        (E.contents errors.old) (E.contents errors.new) result }
{
    let Ok(text) = String::from_utf8(bytes) else {
        return ToldOver::Told(Told::Unsound(Checked::NotUtf8));
    };
    match read_policy(alloc, text.as_str()) {
        Ok(policy) => tell_over(alloc, &policy, start, writer),
        Err(_) => ToldOver::Told(tell_unsound(alloc, text.into_bytes(), errors)),
    }
}
