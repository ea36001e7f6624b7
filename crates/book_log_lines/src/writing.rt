//! A line as text.

ghost use Rattle.std.specs.Prelude.{◌≡◌, ◌++◌, ◌∷◌, [], IfOk, OnErr, OnOk, codes, map, option_map};
ghost use Rattle.json.specs.Json.{string};
ghost use Rattle.book_json_lines.specs.Objects.{if_some, Tells, TellsEach, TellsMembers, unless_empty};
ghost use Rattle.book_log_lines.specs.Lines.{adoption_members, answer_members, asked_members, decided_members, denied_if, denied_members, edit_members, line_json, line_members, line_text, method_json, path_json, reply_members, stamp_members, touched_json, touched_list};

use crate::entries::write_entry;
use crate::lines::{AdoptionLine, Decided, Denied, Line, ReplyLine, Touched};
use crate::words::{adoption_name, method_name};
use book_json_lines::JsonText;
use book_office_values::{Path, Text};
use book_rights::Method;
use std::alloc::{AllocError, Global};

/// Writes a path under a key. An error is want of memory.
fn write_path(alloc: Global, out: &mut JsonText, key: &str, path: &Path) -> Result<(), AllocError>
    ensures { TellsMembers result out.old out.new ((key.now, path_json path.now) ∷ []) }
{
    let text = path.text(alloc)?;
    out.string_member(key, text.as_str())
}

/// Writes a path under a key, if there is one. An error is want of memory.
fn write_path_if(
    alloc: Global,
    out: &mut JsonText,
    key: &str,
    path: &Option<Path>,
) -> Result<(), AllocError>
    ensures { TellsMembers result out.old out.new
        (if_some key.now (option_map path_json path.now)) }
{
    match path {
        Some(path) => write_path(alloc, out, key, path),
        None => Ok(()),
    }
}

/// Writes a text under a key, if there is one. An error is want of memory.
fn write_text_if(out: &mut JsonText, key: &str, text: &Option<Text>) -> Result<(), AllocError>
    ensures { TellsMembers result out.old out.new (if_some key.now (option_map string text.now)) }
{
    match text {
        Some(text) => out.string_member(key, text.as_str()),
        None => Ok(()),
    }
}

/// Writes a method, if there is one. An error is want of memory.
fn write_method(out: &mut JsonText, method: Option<Method>) -> Result<(), AllocError>
    ensures { TellsMembers result out.old out.new
        (if_some (codes "method") (option_map method_json method)) }
{
    match method {
        Some(method) => out.string_member("method", method_name(method)),
        None => Ok(()),
    }
}

/// Writes when a reply was made, and on which connection. An error is want of memory.
fn write_stamp(out: &mut JsonText, line: &ReplyLine) -> Result<(), AllocError>
    ensures { TellsMembers result out.old out.new (stamp_members line.now) }
{
    out.string_member("time", line.time.text())?;
    out.number_member("connection", line.connection)
}

/// Writes what was asked, and by whom. An error is want of memory.
fn write_asked(alloc: Global, out: &mut JsonText, line: &ReplyLine) -> Result<(), AllocError>
    ensures { TellsMembers result out.old out.new (asked_members line.now) }
{
    write_text_if(out, "caller", &line.caller)?;
    write_method(out, line.method)?;
    write_path_if(alloc, out, "path", &line.path)?;
    write_path_if(alloc, out, "destination", &line.destination)
}

/// Writes what was answered. An error is want of memory.
fn write_answer(out: &mut JsonText, line: &ReplyLine) -> Result<(), AllocError>
    ensures { TellsMembers result out.old out.new (answer_members line.now) }
{
    out.number_member("status", line.status as u64)?;
    write_text_if(out, "error", &line.error)
}

/// Writes where an entry stands, and the entry. An error is want of memory.
fn write_decided(alloc: Global, out: &mut JsonText, by: &Decided) -> Result<(), AllocError>
    ensures { TellsMembers result out.old out.new (decided_members by.now) }
{
    write_path(alloc, out, "from", &by.from)?;
    out.boolean_member("protected", by.protected)?;
    out.number_member("place", by.place)?;
    out.number_member("number", by.number)?;
    out.key("entry")?;
    write_entry(alloc, out, &by.entry)
}

/// Writes what was denied, and by which entry. An error is want of memory.
fn write_denied(alloc: Global, out: &mut JsonText, denied: &Denied) -> Result<(), AllocError>
    ensures { TellsMembers result out.old out.new (denied_members denied.now) }
{
    write_path(alloc, out, "resource", &denied.resource)?;
    out.string_member("privilege", denied.privilege.name())?;
    match &denied.by {
        Some(by) => write_decided(alloc, out, by),
        None => Ok(()),
    }
}

/// Writes what was denied, if it was. An error is want of memory.
fn write_denied_if(
    alloc: Global,
    out: &mut JsonText,
    denied: &Option<Denied>,
) -> Result<(), AllocError>
    ensures { TellsMembers result out.old out.new (denied_if denied.now) }
{
    match denied {
        Some(denied) => write_denied(alloc, out, denied),
        None => Ok(()),
    }
}

/// Writes a resource that an edit changed. An error is want of memory.
#[tactic(auto, using(crate::proofs::Common::object_told))]
fn write_touched(alloc: Global, out: &mut JsonText, touched: &Touched) -> Result<(), AllocError>
    ensures { Tells result out.old out.new (touched_json touched.now) }
{
    out.begin_object()?;
    write_path(alloc, out, "path", &touched.path)?;
    out.number_member("number", touched.number)?;
    out.end_object()
}

/// Writes each resource that an edit changed. An error is want of memory.
fn write_each_touched(
    alloc: Global,
    out: &mut JsonText,
    touched: &[Touched],
) -> Result<(), AllocError>
    ensures { TellsEach result out.old out.new (map touched_json touched.now) }
{
    for each in touched {
        write_touched(alloc, out, each)?;
    }
    Ok(())
}

/// Writes the resources that an edit changed. An error is want of memory.
#[tactic(auto, using(crate::proofs::Common::array_told))]
fn write_all_touched(
    alloc: Global,
    out: &mut JsonText,
    touched: &[Touched],
) -> Result<(), AllocError>
    ensures { Tells result out.old out.new (touched_list touched.now) }
{
    out.begin_array()?;
    write_each_touched(alloc, out, touched)?;
    out.end_array()
}

/// Writes the resources that an edit changed, if there are any. An error is want of memory.
fn write_touched_if(
    alloc: Global,
    out: &mut JsonText,
    touched: &[Touched],
) -> Result<(), AllocError>
    ensures { TellsMembers result out.old out.new
        (if_some (codes "touched") (unless_empty touched_list touched.now)) }
{
    if touched.is_empty() {
        return Ok(());
    }
    out.key("touched")?;
    write_all_touched(alloc, out, touched)
}

/// Writes what an edit did. An error is want of memory.
fn write_edit(alloc: Global, out: &mut JsonText, line: &ReplyLine) -> Result<(), AllocError>
    ensures { TellsMembers result out.old out.new (edit_members line.now) }
{
    write_touched_if(alloc, out, line.touched.as_slice())?;
    out.number_member_if("epoch", line.epoch)
}

/// Writes the keys of a reply. An error is want of memory.
fn write_reply(alloc: Global, out: &mut JsonText, line: &ReplyLine) -> Result<(), AllocError>
    ensures { TellsMembers result out.old out.new (reply_members line.now) }
{
    write_stamp(out, line)?;
    write_asked(alloc, out, line)?;
    write_answer(out, line)?;
    write_denied_if(alloc, out, &line.denied)?;
    write_edit(alloc, out, line)
}

/// Writes the keys of an adoption. An error is want of memory.
fn write_adoption(out: &mut JsonText, line: &AdoptionLine) -> Result<(), AllocError>
    ensures { TellsMembers result out.old out.new (adoption_members line.now) }
{
    out.string_member("time", line.time.text())?;
    out.number_member("epoch", line.epoch)?;
    out.string_member("adopted", adoption_name(line.adopted))
}

/// Writes the keys of a line. An error is want of memory.
fn write_members(alloc: Global, out: &mut JsonText, line: &Line) -> Result<(), AllocError>
    ensures { TellsMembers result out.old out.new (line_members line.now) }
{
    match line {
        Line::Reply(line) => write_reply(alloc, out, line),
        Line::Adoption(line) => write_adoption(out, line),
    }
}

/// Writes a line. An error is want of memory.
#[tactic(auto, using(crate::proofs::Common::object_told))]
fn write_line(alloc: Global, out: &mut JsonText, line: &Line) -> Result<(), AllocError>
    ensures { Tells result out.old out.new (line_json line.now) }
{
    out.begin_object()?;
    write_members(alloc, out, line)?;
    out.end_object()
}

/// The bytes of a line, with its line feed. An error is want of memory.
#[tactic(auto, using(crate::proofs::Common::text_written))]
pub fn line_bytes(alloc: Global, line: &Line) -> Result<Vec<u8>, AllocError>
    ensures { IfOk result (λ bytes. bytes.items ≡ line_text line.now) }
{
    let mut out = JsonText::new(alloc);
    write_line(alloc, &mut out, line)?;
    out.into_line()
}

/// Adds the bytes of a line, with its line feed. An error is want of memory; nothing is added then.
pub fn push_line(alloc: Global, out: &mut Vec<u8>, line: &Line) -> Result<(), AllocError>
    ensures ok { OnOk result (out.new.items ≡ out.old.items ++ line_text line.now) }
    ensures err { OnErr result (out.new.items ≡ out.old.items) }
{
    let bytes = line_bytes(alloc, line)?;
    out.extend_from_slice(bytes.as_slice())
}
