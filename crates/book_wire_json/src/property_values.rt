//! The properties of a resource.

ghost use Rattle.std.specs.Prelude.{◌≡◌, [], map};
ghost use Rattle.serde_json.specs.Data.{no_members, put, string};
ghost use Rattle.book_wire_json.specs.PropertyValues.{acl_data, acl_entry_data, action_key, form_key, form_text, inherited_member, kind_name, member_if, paths_data, paths_or_null, present, privilege_data, privileges_data, prop_data, property_data, property_name, protected_member, slots, text_or_null, token_or_null, with_properties};
ghost use Rattle.book_wire_json.specs.Writing.{Tells, TellsEach, TellsMembers, members_of};

use crate::writing::JsonText;
use book_lists::{Principal, Who};
use book_office_listings::{AclEntry, PropertyValue};
use book_office_sync::Token;
use book_office_values::{Items, Kind, Path};
use book_rights::Privilege;
use std::alloc::AllocError;

/// The text of a principal form (RFC 3744, section 5.5.1).
fn form_text(who: &Who) -> &str
    ensures { result.now ≡ form_text who.now }
{
    match who {
        Who::Href(principal) => principal.text(),
        Who::Everyone => "all",
        Who::Authenticated => "authenticated",
        Who::Unauthenticated => "unauthenticated",
        Who::Owner => "owner",
        Who::Own => "self",
    }
}

/// The name of a kind (RFC 4918, section 15.9; own profile).
fn kind_name(kind: Kind) -> &'static str
    ensures { result.now ≡ kind_name kind }
{
    match kind {
        Kind::Root => "root",
        Kind::Home => "home",
        Kind::Person => "person",
        Kind::Group => "group",
        Kind::Book => "book",
        Kind::Card => "card",
    }
}

fn action_key(deny: bool) -> &'static str
    ensures { result.now ≡ action_key deny }
{
    if deny { "deny" } else { "grant" }
}

fn form_key(invert: bool) -> &'static str
    ensures { result.now ≡ form_key invert }
{
    if invert { "invert" } else { "principal" }
}

/// Writes the name of each privilege. An error is want of memory.
fn write_each_privilege(out: &mut JsonText, privileges: &[Privilege]) -> Result<(), AllocError>
    ensures { TellsEach result out.old out.new (map privilege_data privileges.now) }
{
    for privilege in privileges {
        out.string(privilege.name())?;
    }
    Ok(())
}

/// Writes the names of privileges. An error is want of memory.
#[tactic(auto, using(crate::proofs::Written::array_told))]
fn write_privileges(out: &mut JsonText, privileges: &[Privilege]) -> Result<(), AllocError>
    ensures { Tells result out.old out.new (privileges_data privileges.now) }
{
    out.begin_array()?;
    write_each_privilege(out, privileges)?;
    out.end_array()
}

/// Writes where an entry stands that is inherited (RFC 3744, section 5.5.4). An error is want of memory.
fn write_inherited(out: &mut JsonText, inherited: &Option<Path>) -> Result<(), AllocError>
    ensures { TellsMembers result out.old out.new (inherited_member inherited.now) }
{
    if let Some(from) = inherited {
        out.path_member("inherited", from)?;
    }
    Ok(())
}

/// Writes the mark of an entry that is protected (RFC 3744, section 5.5.3). An error is want of memory.
fn write_protected(out: &mut JsonText, protected: bool) -> Result<(), AllocError>
    ensures { TellsMembers result out.old out.new (protected_member protected) }
{
    if protected {
        out.key("protected")?;
        out.boolean(true)?;
    }
    Ok(())
}

/// Writes an entry of the property `acl` (RFC 3744, section 5.5). An error is want of memory.
fn write_acl_entry(out: &mut JsonText, entry: &AclEntry) -> Result<(), AllocError>
    ensures { Tells result out.old out.new (acl_entry_data entry.now) }
{
    out.begin_object()?;
    out.key(action_key(entry.deny))?;
    write_privileges(out, entry.privileges.as_slice())?;
    write_inherited(out, &entry.inherited)?;
    out.string_member(form_key(entry.invert), form_text(&entry.who))?;
    write_protected(out, entry.protected)?;
    out.end_object()
}

/// Writes each entry of the effective list. An error is want of memory.
fn write_each_entry(out: &mut JsonText, entries: &[AclEntry]) -> Result<(), AllocError>
    ensures { TellsEach result out.old out.new (map acl_entry_data entries.now) }
{
    for entry in entries {
        write_acl_entry(out, entry)?;
    }
    Ok(())
}

/// Writes the effective list (RFC 3744, section 5.5). An error is want of memory.
#[tactic(auto, using(crate::proofs::Written::array_told))]
fn write_acl(out: &mut JsonText, entries: &[AclEntry]) -> Result<(), AllocError>
    ensures { Tells result out.old out.new (acl_data entries.now) }
{
    out.begin_array()?;
    write_each_entry(out, entries)?;
    out.end_array()
}

/// Writes an owner (RFC 3744, section 5.1); null where there is none. An error is want of memory.
fn write_owner(out: &mut JsonText, owner: &Option<Principal>) -> Result<(), AllocError>
    ensures { Tells result out.old out.new (text_or_null owner.now) }
{
    match owner {
        Some(principal) => out.string(principal.text()),
        None => out.null(),
    }
}

/// Writes the path of each principal. An error is want of memory.
fn write_each_path(out: &mut JsonText, principals: &[Principal]) -> Result<(), AllocError>
    ensures { TellsEach result out.old out.new (map string principals.now) }
{
    for principal in principals {
        out.string(principal.text())?;
    }
    Ok(())
}

/// Writes paths of principals. An error is want of memory.
#[tactic(auto, using(crate::proofs::Written::array_told))]
fn write_paths(out: &mut JsonText, principals: &[Principal]) -> Result<(), AllocError>
    ensures { Tells result out.old out.new (paths_data principals.now) }
{
    out.begin_array()?;
    write_each_path(out, principals)?;
    out.end_array()
}

/// Writes the members of a group (RFC 3744, section 4.3); null where the resource is no group. An error is want of memory.
fn write_members(out: &mut JsonText, members: &Option<Items<Principal>>) -> Result<(), AllocError>
    ensures { Tells result out.old out.new (paths_or_null members.now) }
{
    match members {
        Some(members) => write_paths(out, members.as_slice()),
        None => out.null(),
    }
}

/// Writes a token (RFC 6578, section 4); null where the resource is no book. An error is want of memory.
fn write_token(out: &mut JsonText, token: &Option<Token>) -> Result<(), AllocError>
    ensures { Tells result out.old out.new (token_or_null token.now) }
{
    match token {
        Some(token) => out.token(token),
        None => out.null(),
    }
}

/// Writes the value of a property. An error is want of memory.
fn write_value(out: &mut JsonText, value: &PropertyValue) -> Result<(), AllocError>
    ensures { Tells result out.old out.new (property_data value.now) }
{
    match value {
        PropertyValue::DisplayName(label) => out.string(label.as_str()),
        PropertyValue::ResourceType(kind) => out.string(kind_name(*kind)),
        PropertyValue::Owner(owner) => write_owner(out, owner),
        PropertyValue::Acl(entries) => write_acl(out, entries.as_slice()),
        PropertyValue::CurrentUserPrivilegeSet(privileges) => {
            write_privileges(out, privileges.as_slice())
        }
        PropertyValue::GroupMemberSet(members) => write_members(out, members),
        PropertyValue::SyncToken(token) => write_token(out, token),
    }
}

/// The last value of each property, in the byte order of the names.
#[derive(Clone, Copy)]
struct LastValues<'v> {
    acl: Option<&'v PropertyValue>,
    privileges: Option<&'v PropertyValue>,
    label: Option<&'v PropertyValue>,
    members: Option<&'v PropertyValue>,
    owner: Option<&'v PropertyValue>,
    kind: Option<&'v PropertyValue>,
    token: Option<&'v PropertyValue>,
}

/// No values.
fn no_values<'v>() -> LastValues<'v>
    ensures { present (slots result) ≡ [] }
{
    LastValues {
        acl: None,
        privileges: None,
        label: None,
        members: None,
        owner: None,
        kind: None,
        token: None,
    }
}

/// The values, and this one in the place of its property.
fn with_value<'v>(last: LastValues<'v>, value: &'v PropertyValue) -> LastValues<'v>
    ensures { members_of (present (slots result)) ≡ put (property_name value.now)
        (property_data value.now) (members_of (present (slots last.entry))) }
{
    match value {
        PropertyValue::Acl(_) => LastValues {
            acl: Some(value),
            ..last
        },
        PropertyValue::CurrentUserPrivilegeSet(_) => LastValues {
            privileges: Some(value),
            ..last
        },
        PropertyValue::DisplayName(_) => LastValues {
            label: Some(value),
            ..last
        },
        PropertyValue::GroupMemberSet(_) => LastValues {
            members: Some(value),
            ..last
        },
        PropertyValue::Owner(_) => LastValues {
            owner: Some(value),
            ..last
        },
        PropertyValue::ResourceType(_) => LastValues {
            kind: Some(value),
            ..last
        },
        PropertyValue::SyncToken(_) => LastValues {
            token: Some(value),
            ..last
        },
    }
}

/// Puts a value in the place of its property.
fn put_value<'v>(last: &mut LastValues<'v>, value: &'v PropertyValue)
    ensures { members_of (present (slots last.new)) ≡ put (property_name value.now)
        (property_data value.now) (members_of (present (slots last.old))) }
{
    *last = with_value(*last, value);
}

/// The last value of each property among these.
fn last_values<'v>(values: &'v [PropertyValue]) -> LastValues<'v>
    ensures { members_of (present (slots result)) ≡ with_properties no_members values.now }
{
    let mut last = no_values();
    for value in values {
        put_value(&mut last, value);
    }
    last
}

/// Writes a value under its name, where there is one. An error is want of memory.
fn write_slot(
    out: &mut JsonText,
    name: &str,
    slot: Option<&PropertyValue>,
) -> Result<(), AllocError>
    ensures { TellsMembers result out.old out.new (member_if name.now slot.entry) }
{
    match slot {
        Some(value) => {
            out.key(name)?;
            write_value(out, value)
        }
        None => Ok(()),
    }
}

/// Writes each value under its name. An error is want of memory.
fn write_slots<'v>(out: &mut JsonText, last: LastValues<'v>) -> Result<(), AllocError>
    ensures { TellsMembers result out.old out.new (present (slots last.entry)) }
{
    write_slot(out, "acl", last.acl)?;
    write_slot(out, "current-user-privilege-set", last.privileges)?;
    write_slot(out, "displayname", last.label)?;
    write_slot(out, "group-member-set", last.members)?;
    write_slot(out, "owner", last.owner)?;
    write_slot(out, "resourcetype", last.kind)?;
    write_slot(out, "sync-token", last.token)
}

/// Writes the properties by their names. An error is want of memory.
#[tactic(auto, using(crate::proofs::Written::object_told))]
pub(crate) fn write_prop(out: &mut JsonText, values: &[PropertyValue]) -> Result<(), AllocError>
    ensures { Tells result out.old out.new (prop_data values.now) }
{
    let last = last_values(values);
    out.begin_object()?;
    write_slots(out, last)?;
    out.end_object()
}
