//! Resources as lines of text.

ghost use Rattle.std.specs.Prelude.{◌≡◌, ◌++◌, IfOk, OnOk, string_bytes};
ghost use Rattle.std.specs.List.{flat_map};
ghost use Rattle.std.specs.Str.{IsUtf8};
ghost use Rattle.json.specs.Print.{quoted};
ghost use Rattle.book_office_audit.specs.EntryLines.{entry_line, owner_text};
ghost use Rattle.book_questions_audit.specs.Lines.{label_text, told_lines};

use book_lists::{Entry, Principal};
use book_office_audit::{owner_text, push_entry};
use book_office_values::Text;
use json::Writer;
use std::alloc::{AllocError, Global};

/// The bytes of a text as a JSON text.
#[tactic(auto, using(crate::proofs::Printed::string_alone))]
fn written(alloc: Global, text: &str) -> Result<Vec<u8>, AllocError>
    ensures items { IfOk result (λ bytes. bytes.items ≡ quoted text.now) }
    ensures utf8 { IfOk result (λ bytes. IsUtf8 bytes.items) }
{
    let mut writer = Writer::new(Vec::new(alloc));
    writer.string(text)?;
    Ok(writer.into_inner())
}

/// A text as a JSON text (RFC 8259, section 7).
fn quoted(alloc: Global, text: &str) -> Result<String, AllocError>
    ensures { IfOk result (λ json. string_bytes json ≡ quoted text.now) }
{
    let bytes = written(alloc, text)?;
    String::from_utf8_lossy(alloc, bytes.as_slice())
}

/// Adds the words for a label, where labels are wanted.
fn push_label(
    alloc: Global,
    text: &mut String,
    labels: bool,
    label: &Text,
) -> Result<(), AllocError>
    ensures { OnOk result (string_bytes text.new ≡
        string_bytes text.old ++ label_text labels label.now) }
{
    if !labels {
        return Ok(());
    }
    let json = quoted(alloc, label.as_str())?;
    text.push_str(" label ")?;
    text.push_str(json.as_str())
}

/// Adds the lines of entries.
fn push_entries(
    alloc: Global,
    text: &mut String,
    protected: bool,
    entries: &[Entry],
) -> Result<(), AllocError>
    ensures { OnOk result (string_bytes text.new ≡ string_bytes text.old ++ flat_map
        (entry_line protected) entries.now) }
{
    for entry in entries {
        push_entry(alloc, text, protected, entry)?;
    }
    Ok(())
}

/// The lines of a resource: as the whole audit has them, with the label where labels are wanted.
pub(crate) fn told_lines(
    alloc: Global,
    labels: bool,
    path: &str,
    owner: &Option<Principal>,
    label: &Text,
    protected: &[Entry],
    own: &[Entry],
) -> Result<Text, AllocError>
    ensures { IfOk result
        (λ lines. lines ≡ told_lines labels path.now owner.now label.now protected.now own.now) }
{
    let mut text = String::from_str(alloc, path)?;
    text.push_str(" owner ")?;
    text.push_str(owner_text(owner))?;
    push_label(alloc, &mut text, labels, label)?;
    text.push_str("\n")?;
    push_entries(alloc, &mut text, true, protected)?;
    push_entries(alloc, &mut text, false, own)?;
    Ok(Text::from_string(text))
}
