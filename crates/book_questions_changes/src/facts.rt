//! What two Offices have at a path, as lines of text.

ghost use Rattle.std.specs.Prelude.{◌≡◌, ◌++◌, [], true, false, map, IfOk, OnOk, string_bytes};
ghost use Rattle.std.specs.Str.{IsUtf8};
ghost use Rattle.json.specs.Print.{quoted};
ghost use Rattle.book_lists.specs.declared.entries.Entry.{Entry as EntryOf};
ghost use Rattle.book_office.specs.InForce.{list_in};
ghost use Rattle.book_office_audit.specs.EntryLines.{entry_line, owner_text};
ghost use Rattle.book_office_values.specs.Paths.{path_text};
ghost use Rattle.book_questions_changes.specs.Facts.{both_alike, first_list, label_changes, label_line, label_lines, list_changes, list_lines, owner_changes, owner_line, owner_lines, same_labels, same_lists, same_owners, signed, spot_changes};

use book_lists::{Entry, Principal};
use book_office::Level;
use book_office_audit::{owner_text, push_entry};
use book_office_values::Text;
use book_questions_differs::{Found, Spot, same_list, same_owner};
use json::Writer;
use std::alloc::{AllocError, Global};

/// Adds the line of an owner after a sign.
fn push_owner_line(
    text: &mut String,
    sign: &str,
    at: &str,
    owner: &Option<Principal>,
) -> Result<(), AllocError>
    ensures { OnOk result (string_bytes text.new ≡
        string_bytes text.old ++ (sign.now ++ owner_line at.now owner.now)) }
{
    text.push_str(sign)?;
    text.push_str(at)?;
    text.push_str(" owner ")?;
    text.push_str(owner_text(owner))?;
    text.push_str("\n")
}

/// Adds the line of an owner after a sign, if the resource is there.
#[tactic(auto, using(crate::proofs::Signed::one_line))]
fn push_owner(
    text: &mut String,
    sign: &str,
    at: &str,
    found: &Option<Found>,
) -> Result<(), AllocError>
    ensures { OnOk result (string_bytes text.new ≡
        string_bytes text.old ++ signed sign.now (owner_lines at.now found.now)) }
{
    match found {
        Some(found) => push_owner_line(text, sign, at, &found.node.owner),
        None => Ok(()),
    }
}

/// The bytes of a text as a JSON text.
#[tactic(auto, using(crate::proofs::Printed::string_alone))]
fn written(alloc: Global, text: &str) -> Result<Vec<u8>, AllocError>
    ensures items { IfOk result (λ bytes. bytes.items ≡ quoted text.now) }
    ensures utf8 { IfOk result (λ bytes. IsUtf8 bytes.items) }
{
    let mut writer = Writer::new(Vec::new(alloc));
    writer.string(text)?;
    Ok(writer.into_inner())
}

/// A text as a JSON text (RFC 8259, section 7).
fn quoted(alloc: Global, text: &str) -> Result<String, AllocError>
    ensures { IfOk result (λ json. string_bytes json ≡ quoted text.now) }
{
    let bytes = written(alloc, text)?;
    String::from_utf8_lossy(alloc, bytes.as_slice())
}

/// Adds the line of a label after a sign.
fn push_label_line(
    alloc: Global,
    text: &mut String,
    sign: &str,
    at: &str,
    label: &Text,
) -> Result<(), AllocError>
    ensures { OnOk result (string_bytes text.new ≡
        string_bytes text.old ++ (sign.now ++ label_line at.now label.now)) }
{
    let json = quoted(alloc, label.as_str())?;
    text.push_str(sign)?;
    text.push_str(at)?;
    text.push_str(" label ")?;
    text.push_str(json.as_str())?;
    text.push_str("\n")
}

/// Adds the line of a label after a sign, if the resource is there.
#[tactic(auto, using(crate::proofs::Signed::one_line))]
fn push_label(
    alloc: Global,
    text: &mut String,
    sign: &str,
    at: &str,
    found: &Option<Found>,
) -> Result<(), AllocError>
    ensures { OnOk result (string_bytes text.new ≡
        string_bytes text.old ++ signed sign.now (label_lines at.now found.now)) }
{
    match found {
        Some(found) => push_label_line(alloc, text, sign, at, &found.node.label),
        None => Ok(()),
    }
}

/// The protected list of a level, or its own list.
fn list_in(level: &Level, protected: bool) -> &[Entry]
    ensures { result.now ≡ list_in protected level.now }
{
    if protected {
        level.protected.as_slice()
    } else {
        level.own.as_slice()
    }
}

/// The list that stands at a resource itself.
fn first_list(levels: &[Level], protected: bool) -> &[Entry]
    ensures { result.now ≡ first_list protected levels.now }
{
    match levels.first() {
        Some(level) => list_in(level, protected),
        None => &[],
    }
}

/// Adds the line of an entry after a sign.
fn push_signed(
    alloc: Global,
    text: &mut String,
    sign: &str,
    at: &str,
    protected: bool,
    entry: &Entry,
) -> Result<(), AllocError>
    ensures { OnOk result (string_bytes text.new ≡
        string_bytes text.old ++ (sign.now ++ (at.now ++ entry_line protected entry.now))) }
{
    text.push_str(sign)?;
    text.push_str(at)?;
    push_entry(alloc, text, protected, entry)
}

/// Adds the line of each entry after a sign.
fn push_entries(
    alloc: Global,
    text: &mut String,
    sign: &str,
    at: &str,
    protected: bool,
    entries: &[Entry],
) -> Result<(), AllocError>
    ensures { OnOk result (string_bytes text.new ≡ string_bytes text.old ++ signed sign.now
        (map (λ (entry : EntryOf). at.now ++ entry_line protected entry) entries.now)) }
{
    for entry in entries {
        push_signed(alloc, text, sign, at, protected, entry)?;
    }
    Ok(())
}

/// Adds the lines of a list that stands at a resource, each after a sign, if the resource is there.
fn push_list(
    alloc: Global,
    text: &mut String,
    sign: &str,
    at: &str,
    protected: bool,
    found: &Option<Found>,
) -> Result<(), AllocError>
    ensures { OnOk result (string_bytes text.new ≡
        string_bytes text.old ++ signed sign.now (list_lines protected at.now found.now)) }
{
    match found {
        Some(found) => {
            let entries = first_list(found.lists.levels.as_slice(), protected);
            push_entries(alloc, text, sign, at, protected, entries)
        }
        None => Ok(()),
    }
}

/// Whether two resources have equal owners.
fn owners_alike(before: &Found, after: &Found) -> bool
    ensures { result ≡ same_owners before.now after.now }
{
    same_owner(&before.node.owner, &after.node.owner)
}

/// Whether two resources have equal labels.
fn labels_alike(before: &Found, after: &Found) -> bool
    ensures { result ≡ same_labels before.now after.now }
{
    before.node.label.as_str() == after.node.label.as_str()
}

/// Whether equal lists stand at two resources.
fn lists_alike(protected: bool, before: &Found, after: &Found) -> bool
    ensures { result ≡ same_lists protected before.now after.now }
{
    same_list(
        first_list(before.lists.levels.as_slice(), protected),
        first_list(after.lists.levels.as_slice(), protected),
    )
}

/// Whether both are there with equal owners, or none is there.
fn same_owners(before: &Option<Found>, after: &Option<Found>) -> bool
    ensures { result ≡ both_alike same_owners before.now after.now }
{
    match before {
        Some(before) => match after {
            Some(after) => owners_alike(before, after),
            None => false,
        },
        None => after.is_none(),
    }
}

/// Whether both are there with equal labels, or none is there.
fn same_labels(before: &Option<Found>, after: &Option<Found>) -> bool
    ensures { result ≡ both_alike same_labels before.now after.now }
{
    match before {
        Some(before) => match after {
            Some(after) => labels_alike(before, after),
            None => false,
        },
        None => after.is_none(),
    }
}

/// Whether equal lists stand at both, or none is there.
fn same_lists(protected: bool, before: &Option<Found>, after: &Option<Found>) -> bool
    ensures { result ≡ both_alike (same_lists protected) before.now after.now }
{
    match before {
        Some(before) => match after {
            Some(after) => lists_alike(protected, before, after),
            None => false,
        },
        None => after.is_none(),
    }
}

/// Adds the lines of the owners, unless these are equal.
fn push_owners(text: &mut String, at: &str, spot: &Spot) -> Result<(), AllocError>
    ensures { OnOk result (at.now ≡ path_text spot.now.path → string_bytes text.new ≡
        string_bytes text.old ++ owner_changes spot.now) }
{
    if same_owners(&spot.before, &spot.after) {
        return Ok(());
    }
    push_owner(text, "- ", at, &spot.before)?;
    push_owner(text, "+ ", at, &spot.after)
}

/// Adds the lines of the labels, unless these are equal.
fn push_labels(alloc: Global, text: &mut String, at: &str, spot: &Spot) -> Result<(), AllocError>
    ensures { OnOk result (at.now ≡ path_text spot.now.path → string_bytes text.new ≡
        string_bytes text.old ++ label_changes spot.now) }
{
    if same_labels(&spot.before, &spot.after) {
        return Ok(());
    }
    push_label(alloc, text, "- ", at, &spot.before)?;
    push_label(alloc, text, "+ ", at, &spot.after)
}

/// Adds the lines of the protected lists, or of the own lists, unless these are equal.
fn push_lists(
    alloc: Global,
    text: &mut String,
    at: &str,
    protected: bool,
    spot: &Spot,
) -> Result<(), AllocError>
    ensures { OnOk result (at.now ≡ path_text spot.now.path → string_bytes text.new ≡
        string_bytes text.old ++ list_changes spot.now protected) }
{
    if same_lists(protected, &spot.before, &spot.after) {
        return Ok(());
    }
    push_list(alloc, text, "- ", at, protected, &spot.before)?;
    push_list(alloc, text, "+ ", at, protected, &spot.after)
}

/// The lines of what differs at a path, which has this text.
pub(crate) fn spot_changes(alloc: Global, at: &str, spot: &Spot) -> Result<Text, AllocError>
    ensures { IfOk result (λ text. at.now ≡ path_text spot.now.path
        → text ≡ spot_changes spot.now) }
{
    let mut text = String::new(alloc);
    push_owners(&mut text, at, spot)?;
    push_labels(alloc, &mut text, at, spot)?;
    push_lists(alloc, &mut text, at, true, spot)?;
    push_lists(alloc, &mut text, at, false, spot)?;
    Ok(Text::from_string(text))
}
