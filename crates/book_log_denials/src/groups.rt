//! Groups of denials by their texts.

ghost use Rattle.std.specs.Prelude.{◌≡◌, ◌++◌, OnOk, option_copied, string_bytes};
ghost use Rattle.std.specs.FinMap as map;
ghost use Rattle.book_log_denials.specs.Denials.{groups_text, span_text, tally_line, times_text};
ghost use Rattle.book_log_denials.specs.Tallies.{more};
ghost use Rattle.book_log_denials.specs.declared.forms.Form.TheVariants as form;

use crate::forms::Form;
use crate::tallies::{Tally, more};
use crate::telling::push_number;
use book_log_lines::Time;
use book_office_values::Text;
use std::alloc::{AllocError, Global};
use std::collections::BTreeMap;
use std::marker::Model;

/// What is told of groups of denials, seen as the finite map from their texts, in byte order.
#[derive(Debug, Drop)]
pub struct Groups {
    tree: BTreeMap<Text, Tally>,
}

impl Model for Groups {
    ghost use Rattle.std.specs.Prelude.{List, ℕ};
    ghost use Rattle.std.specs.FinMap as map;
    ghost use Rattle.std.specs.Coded.{coded_ℕ, coded_list};
    ghost use Rattle.std.specs.BTreeMap.{IsOrdered};
    ghost use Rattle.book_lists.specs.Names.{name_cmp};
    ghost use Rattle.book_office_values.specs.Names.{NamesTo};
    ghost use Rattle.book_log_denials.specs.declared.tallies.Tally.{Tally};
    ghost use Rattle.book_log_denials.specs.contracts.tallies.Tally as tally_type;

    ghost Value = { NamesTo Tally };

    ghost coded = { map.code (coded_list coded_ℕ) tally_type.the_row.coded };

    ghost view = { λ a. map.from_entries a.tree.entries };

    ghost invariant = { λ a. IsOrdered name_cmp a.tree };
}

impl Groups {
    /// No groups. Takes no memory until a denial is added.
    pub fn new(alloc: Global) -> Groups
        ensures { result ≡ map.empty }
    {
        Groups {
            tree: BTreeMap::new(alloc),
        }
    }

    /// What is told of a group, if it has a denial. Takes no memory.
    pub fn tally(&self, group: &Text) -> Option<&Tally>
        ensures { option_copied result ≡ map.get self.now group.now }
    {
        self.tree.get(group)
    }

    /// Adds a denial to its group. An error is want of memory.
    pub(crate) fn add(&mut self, group: Text, time: &Time) -> Result<(), AllocError>
        ensures { OnOk result (self.new ≡ map.insert self.old group
            (more time.now (map.get self.old group))) }
    {
        let tally = more(time, self.tally(&group))?;
        let _before = self.tree.insert(group, tally)?;
        Ok(())
    }

    /// Adds a line for each group, in byte order of their texts: how many denials it has, when the first and the last was,
    /// who was refused what where, and by which entry. An error is want of memory.
    pub fn push_lines(&self, alloc: Global, form: Form, text: &mut String) -> Result<(), AllocError>
        ensures { OnOk result (string_bytes text.new ≡
            string_bytes text.old ++ groups_text form self.now) }
    {
        for (group, tally) in self.tree.iter() {
            push_group(alloc, form, text, group, tally)?;
        }
        Ok(())
    }
}

/// Adds when the first and the last denial was. An error is want of memory.
fn push_times(text: &mut String, tally: &Tally) -> Result<(), AllocError>
    ensures { OnOk result (string_bytes text.new ≡ string_bytes text.old ++ times_text tally.now) }
{
    text.push_str(tally.first.text())?;
    text.push_str(" ")?;
    text.push_str(tally.last.text())
}

/// Adds the line of a group, as text. An error is want of memory.
fn push_sentence(
    alloc: Global,
    text: &mut String,
    group: &Text,
    tally: &Tally,
) -> Result<(), AllocError>
    ensures { OnOk result (string_bytes text.new ≡
        string_bytes text.old ++ tally_line form.Text group.now tally.now) }
{
    push_number(alloc, text, tally.count)?;
    text.push_str(" ")?;
    push_times(text, tally)?;
    text.push_str(" ")?;
    text.push_str(group.as_str())?;
    text.push_str("\n")
}

/// Adds the members that tell when the first and the last denial was. An error is want of memory.
fn push_span(text: &mut String, tally: &Tally) -> Result<(), AllocError>
    ensures { OnOk result (string_bytes text.new ≡ string_bytes text.old ++ span_text tally.now) }
{
    text.push_str(",\"first\":\"")?;
    text.push_str(tally.first.text())?;
    text.push_str("\",\"last\":\"")?;
    text.push_str(tally.last.text())?;
    text.push_str("\",")
}

/// Adds the line of a group, as an object. An error is want of memory.
fn push_object(
    alloc: Global,
    text: &mut String,
    group: &Text,
    tally: &Tally,
) -> Result<(), AllocError>
    ensures { OnOk result (string_bytes text.new ≡
        string_bytes text.old ++ tally_line form.Object group.now tally.now) }
{
    text.push_str("{\"count\":")?;
    push_number(alloc, text, tally.count)?;
    push_span(text, tally)?;
    text.push_str(group.as_str())?;
    text.push_str("\n")
}

/// Adds the line of a group. An error is want of memory.
fn push_group(
    alloc: Global,
    form: Form,
    text: &mut String,
    group: &Text,
    tally: &Tally,
) -> Result<(), AllocError>
    ensures { OnOk result (string_bytes text.new ≡
        string_bytes text.old ++ tally_line form group.now tally.now) }
{
    match form {
        Form::Text => push_sentence(alloc, text, group, tally),
        Form::Object => push_object(alloc, text, group, tally),
    }
}
