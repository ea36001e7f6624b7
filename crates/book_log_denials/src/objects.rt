//! A group of denials as the members of a JSON object.

ghost use Rattle.std.specs.Prelude.{◌≡◌, ◌++◌, ◌∷◌, [], IfOk, codes, option_map, string_bytes};
ghost use Rattle.json.specs.Json.{string};
ghost use Rattle.json.specs.Print.{print};
ghost use Rattle.json.specs.Token.{end_object};
ghost use Rattle.book_json_lines.specs.Objects.{if_some, told_members, TellsMembers};
ghost use Rattle.book_log_lines.specs.Lines.{method_json, path_json};
ghost use Rattle.book_log_denials.specs.Denials.{by_members, caller_members, denial_members, group_members, members_text, standing_members};

use book_json_lines::JsonText;
use book_log_lines::{Decided, Denied, ReplyLine, entry_string, method_name};
use book_office_values::{Path, Text};
use book_rights::Method;
use std::alloc::{AllocError, Global};

/// Writes a path under a key. An error is want of memory.
fn write_path(alloc: Global, out: &mut JsonText, name: &str, path: &Path) -> Result<(), AllocError>
    ensures { TellsMembers result out.old out.new ((name.now, path_json path.now) ∷ []) }
{
    let text = path.text(alloc)?;
    out.string_member(name, text.as_str())
}

/// Writes the caller, if there is one. An error is want of memory.
fn write_caller(out: &mut JsonText, caller: &Option<Text>) -> Result<(), AllocError>
    ensures { TellsMembers result out.old out.new
        (if_some (codes "caller") (option_map string caller.now)) }
{
    match caller {
        Some(caller) => out.string_member("caller", caller.as_str()),
        None => Ok(()),
    }
}

/// Writes the method, if there is one. An error is want of memory.
fn write_method(out: &mut JsonText, method: Option<Method>) -> Result<(), AllocError>
    ensures { TellsMembers result out.old out.new
        (if_some (codes "method") (option_map method_json method)) }
{
    match method {
        Some(method) => out.string_member("method", method_name(method)),
        None => Ok(()),
    }
}

/// Writes the path, if there is one. An error is want of memory.
fn write_path_if(alloc: Global, out: &mut JsonText, path: &Option<Path>) -> Result<(), AllocError>
    ensures { TellsMembers result out.old out.new
        (if_some (codes "path") (option_map path_json path.now)) }
{
    match path {
        Some(path) => write_path(alloc, out, "path", path),
        None => Ok(()),
    }
}

/// Writes the caller, the method and the path. An error is want of memory.
fn write_asked(alloc: Global, out: &mut JsonText, line: &ReplyLine) -> Result<(), AllocError>
    ensures { TellsMembers result out.old out.new (caller_members line.now) }
{
    write_caller(out, &line.caller)?;
    write_method(out, line.method)?;
    write_path_if(alloc, out, &line.path)
}

/// Writes what was denied. An error is want of memory.
fn write_denial(alloc: Global, out: &mut JsonText, denied: &Denied) -> Result<(), AllocError>
    ensures { TellsMembers result out.old out.new (denial_members denied.now) }
{
    write_path(alloc, out, "resource", &denied.resource)?;
    out.string_member("privilege", denied.privilege.name())
}

/// Writes where an entry stands. An error is want of memory.
fn write_standing(alloc: Global, out: &mut JsonText, by: &Decided) -> Result<(), AllocError>
    ensures { TellsMembers result out.old out.new (standing_members by.now) }
{
    write_path(alloc, out, "from", &by.from)?;
    out.boolean_member("protected", by.protected)?;
    out.number_member("place", by.place)
}

/// The text of the members so far, of those of the entry that denies, and the brace behind them. An error is want of memory.
fn with_entry(alloc: Global, mut out: JsonText, by: &Decided) -> Result<String, AllocError>
    ensures { IfOk result (λ text. string_bytes text ≡
        print (told_members out (by_members (Some by.now)) ++ end_object ∷ [])) }
{
    write_standing(alloc, &mut out, by)?;
    out.key("entry")?;
    let entry = entry_string(alloc, &by.entry)?;
    let mut text = out.into_string(alloc);
    text.push_str(entry.as_str())?;
    text.push_str("}")?;
    Ok(text)
}

/// The text of the members so far, and the brace behind them. An error is want of memory.
fn without_entry(alloc: Global, mut out: JsonText) -> Result<String, AllocError>
    ensures { IfOk result (λ text. string_bytes text ≡ print (out ++ end_object ∷ [])) }
{
    out.end_object()?;
    Ok(out.into_string(alloc))
}

/// The text of the members of the group of a denial, and the brace behind them. An error is want of memory.
pub(crate) fn members_of(
    alloc: Global,
    line: &ReplyLine,
    denied: &Denied,
) -> Result<String, AllocError>
    ensures { IfOk result (λ text. string_bytes text ≡
        members_text (group_members line.now denied.now)) }
{
    let mut out = JsonText::new(alloc);
    write_asked(alloc, &mut out, line)?;
    write_denial(alloc, &mut out, denied)?;
    match &denied.by {
        Some(by) => with_entry(alloc, out, by),
        None => without_entry(alloc, out),
    }
}
