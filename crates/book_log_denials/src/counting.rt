//! The denials of a log, in their groups.

ghost use Rattle.std.specs.Prelude.{◌≡◌, ℕ, List, IfOk, OnOk, option_copied};
ghost use Rattle.std.specs.FinMap as map;
ghost use Rattle.book_log_lines.specs.Lines.{line_text};
ghost use Rattle.book_log_lines.specs.declared.lines.Line.{Line as line_type};
ghost use Rattle.book_log_denials.specs.Denials.{group_text, if_from, is_from, times_of, told_in};
ghost use Rattle.book_log_denials.specs.Tallies.{tally_of, with_told};

use crate::faults::Unread;
use crate::forms::Form;
use crate::groups::Groups;
use crate::reading::read_line;
use crate::telling::group_of;
use book_log_lines::{Denied, Line, ReplyLine, Time};
use json::Scratch;
use std::alloc::{AllocError, Global};

/// Whether a time is not before another, if there is one.
fn is_from(since: Option<&Time>, time: &Time) -> bool
    ensures { result ≡ is_from (option_copied since.entry) time.now }
{
    match since {
        Some(since) => !time.is_before(since),
        None => true,
    }
}

/// Adds a denial to its group, where it is not before a time. An error is want of memory.
fn add_denied(
    alloc: Global,
    form: Form,
    groups: &mut Groups,
    since: Option<&Time>,
    line: &ReplyLine,
    denied: &Denied,
) -> Result<(), AllocError>
    ensures { OnOk result (groups.new ≡ with_told groups.old
        (if_from (option_copied since.entry)
        (group_text form line.now denied.now, line.now.time))) }
{
    if is_from(since, &line.time) {
        let group = group_of(alloc, form, line, denied)?;
        groups.add(group, &line.time)?;
    }
    Ok(())
}

/// Adds the denial of a line to its group, if there is one and it is not before a time. An error is want of memory.
fn add_line(
    alloc: Global,
    form: Form,
    groups: &mut Groups,
    since: Option<&Time>,
    line: &Line,
) -> Result<(), AllocError>
    ensures { OnOk result (groups.new ≡ with_told groups.old
        (told_in form (option_copied since.entry) line.now)) }
{
    match line {
        Line::Reply(line) => match &line.denied {
            Some(denied) => add_denied(alloc, form, groups, since, line, denied),
            None => Ok(()),
        },
        Line::Adoption(_) => Ok(()),
    }
}

/// The denials of lines, those before a time left out, in their groups. Each has the count of its denials, and the times of
/// the first and the last; no group is without a denial. An error is want of memory.
pub fn groups_of(
    alloc: Global,
    form: Form,
    lines: &[Line],
    since: Option<&Time>,
) -> Result<Groups, AllocError>
    ensures { IfOk result (λ groups. (group : List ℕ) → map.get groups group ≡
        tally_of (times_of form (option_copied since.entry) group lines.now)) }
{
    let mut groups = Groups::new(alloc);
    for line in lines {
        add_line(alloc, form, &mut groups, since, line)?;
    }
    Ok(groups)
}

/// Reads a line of a log, with its line feed, and adds its denial to its group, if there is one and it is not before a time.
///
/// # Errors
///
/// `Memory` where memory was refused; `Bad` where the text is no line of a log, to the letter.
pub fn count_line(
    alloc: Global,
    scratch: &mut Scratch,
    form: Form,
    groups: &mut Groups,
    since: Option<&Time>,
    text: &[u8],
) -> Result<(), Unread>
    ensures { OnOk result ((line : line_type) × (text.now ≡ line_text line)
        × (groups.new ≡ with_told groups.old
        (told_in form (option_copied since.entry) line))) }
{
    let line = read_line(alloc, scratch, text)?;
    add_line(alloc, form, groups, since, &line)?;
    Ok(())
}
