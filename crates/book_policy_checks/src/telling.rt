//! Telling each fault of a policy's file.

ghost use Rattle.book_policy_checks.specs.Telling.{TellsChecked, TellsReport};

use crate::reports::{Report, check_policy};
use std::alloc::Global;
use std::io::Write;

/// What was told of a policy's file.
#[derive(Clone, Copy, Debug, PartialEq, Eq, Drop)]
pub enum Checked {
    /// It is a policy. Nothing was written.
    Sound,
    /// It is none: its faults were written, a line for each; or that failed.
    Faulty(bool),
    /// It is not UTF-8. Nothing was written.
    NotUtf8,
    /// Memory was refused. Nothing was written.
    Memory,
}

/// Writes the lines of a report.
fn tell_report<W: Write>(alloc: Global, report: &Report, writer: &mut W) -> Checked
    ensures { TellsReport (W.contents writer.old) (W.contents writer.new) report.now result }
{
    if report.is_sound() {
        return Checked::Sound;
    }
    match report.text(alloc) {
        Ok(text) => match writer.write_all(text.as_bytes()) {
            Ok(()) => Checked::Faulty(true),
            Err(_) => Checked::Faulty(false),
        },
        Err(_) => Checked::Memory,
    }
}

/// Tells of the bytes of a policy's file: nothing where they are a policy, and else each fault, a line for each
/// (`check_policy`).
pub fn tell_faults<W: Write>(alloc: Global, bytes: Vec<u8>, writer: &mut W) -> Checked
    ensures { TellsChecked bytes.items (W.contents writer.old) (W.contents writer.new) result }
{
    let Ok(text) = String::from_utf8(bytes) else {
        return Checked::NotUtf8;
    };
    match check_policy(alloc, text.as_str()) {
        Ok(report) => tell_report(alloc, &report, writer),
        Err(_) => Checked::Memory,
    }
}
