//! Warnings, and the line that tells each.

ghost use Rattle.std.specs.Prelude.{◌≡◌, ◌++◌, IfErr, IfOk, OnOk, string_bytes, ◌-◌};
ghost use Rattle.book_lists.specs.Principals.{group_path, person_path};
ghost use Rattle.book_office.specs.Sound.{IsSound};
ghost use Rattle.book_office_values.specs.Paths.{path_text};
ghost use Rattle.book_policy_gaps.specs.Finding.{AreGaps};
ghost use Rattle.book_policy_openings.specs.Openings.{IsRefused};
ghost use Rattle.book_policy_warnings.specs.Warnings.{AreWarningsIn, AreWarningsOf, AreWarningsOver, gain_warnings, gap_warnings, idle_warnings, opening_warnings};
ghost use Rattle.book_policy_warnings.specs.Sentences.{ahead_text, caller_text, form_text, gain_line, gained_text, grant_text, granted_text, idle_line, join_text, leaves_text, list_text, more_line, opening_line, place_text, reason_text, second_text, short_text, step_text, then_text, warning_line, warning_lines, warnings_text, who_text};

use book_lists::{Name, Who};
use book_lists_explain::short_privileges;
use book_machine::AdoptFault;
use book_office::{MemoryKeeper, StoreFault};
use book_office_values::{Items, Office, Path};
use book_policy_gaps::{Gap, gaps_of, push_gap_line};
use book_policy_idle::{Ahead, IdleEntry, Reason, idle_entries};
use book_policy_openings::{Gain, Opening, Step, adopted, adopted_over, gains_in, openings_in};
use book_policy_values::Policy;
use book_questions::push_names;
use book_rights::LeafSet;
use std::alloc::{AllocError, Global};

/// The most warnings that are told, each by a line.
const MOST_LINES: usize = 1_000;

/// What a sound policy leaves open (own profile).
#[derive(Debug, Drop)]
pub enum Warning {
    /// An entry changes no decision: it never decides, or the same is decided without it.
    NeverDecides(IdleEntry),
    /// A plain fact of the Office that the policy makes.
    LeavesOpen(Gap),
    /// A caller may open a book that is closed to them.
    Opens(Opening),
    /// A caller may get leaves at a resource.
    Gets(Gain),
}

/// Adds two texts.
fn push_both(text: &mut String, first: &str, second: &str) -> Result<(), AllocError>
    ensures { OnOk result (string_bytes text.new ≡ string_bytes text.old ++
        (first.now ++ second.now)) }
{
    text.push_str(first)?;
    text.push_str(second)
}

/// Adds the path of a person.
fn push_person(text: &mut String, person: &Name) -> Result<(), AllocError>
    ensures { OnOk result (string_bytes text.new ≡
        string_bytes text.old ++ person_path person.now) }
{
    push_both(text, "/people/", person.text())
}

/// Adds the path of a group.
fn push_group(text: &mut String, group: &Name) -> Result<(), AllocError>
    ensures { OnOk result (string_bytes text.new ≡ string_bytes text.old ++ group_path group.now) }
{
    push_both(text, "/groups/", group.text())
}

/// A caller, as it is told.
fn caller_text(caller: &Option<Name>) -> &str
    ensures { result.now ≡ caller_text caller.now }
{
    match caller {
        Some(person) => person.text(),
        None => "a caller who is not known",
    }
}

/// Adds the form of an entry that is for a caller alone.
fn push_form(text: &mut String, caller: &Option<Name>) -> Result<(), AllocError>
    ensures { OnOk result (string_bytes text.new ≡
        string_bytes text.old ++ form_text caller.now) }
{
    match caller {
        Some(person) => push_person(text, person),
        None => text.push_str("unauthenticated"),
    }
}

/// Adds the short names of leaves, each after a space.
fn push_short(alloc: Global, text: &mut String, leaves: LeafSet) -> Result<(), AllocError>
    ensures { OnOk result (string_bytes text.new ≡ string_bytes text.old ++ short_text leaves) }
{
    let names = short_privileges(alloc, leaves)?;
    push_names(text, names.as_slice())
}

/// Adds the request by which a caller is a member of a group.
fn push_join(text: &mut String, caller: &Option<Name>, group: &Name) -> Result<(), AllocError>
    ensures { OnOk result (string_bytes text.new ≡
        string_bytes text.old ++ join_text caller.now group.now) }
{
    text.push_str("PROPPATCH ")?;
    push_group(text, group)?;
    text.push_str(" (+ ")?;
    push_form(text, caller)?;
    text.push_str(")")
}

/// Adds the request by which a caller is granted leaves at a path.
fn push_grant(
    alloc: Global,
    text: &mut String,
    caller: &Option<Name>,
    path: &Path,
    leaves: LeafSet,
) -> Result<(), AllocError>
    ensures { OnOk result (string_bytes text.new ≡
        string_bytes text.old ++ grant_text caller.now path.now leaves) }
{
    text.push_str("ACL ")?;
    path.push_text(text)?;
    text.push_str(" (grant ")?;
    push_form(text, caller)?;
    push_short(alloc, text, leaves)?;
    text.push_str(")")
}

/// Adds what a step asks.
fn push_step(
    alloc: Global,
    text: &mut String,
    caller: &Option<Name>,
    step: &Step,
) -> Result<(), AllocError>
    ensures { OnOk result (string_bytes text.new ≡
        string_bytes text.old ++ step_text caller.now step.now) }
{
    match step {
        Step::Join(group) => push_join(text, caller, group),
        Step::Grant(path, leaves) => push_grant(alloc, text, caller, path, *leaves),
    }
}

/// Adds what a second step asks, if there is one.
fn push_second(
    alloc: Global,
    text: &mut String,
    caller: &Option<Name>,
    step: &Option<Step>,
) -> Result<(), AllocError>
    ensures { OnOk result (string_bytes text.new ≡
        string_bytes text.old ++ second_text caller.now step.now) }
{
    match step {
        Some(step) => {
            text.push_str("; ")?;
            push_step(alloc, text, caller, step)
        }
        None => Ok(()),
    }
}

/// Adds what is granted then.
fn push_granted(text: &mut String, book: &Name) -> Result<(), AllocError>
    ensures { OnOk result (string_bytes text.new ≡ string_bytes text.old ++ granted_text book.now) }
{
    text.push_str("; then GET /books/")?;
    text.push_str(book.text())?;
    text.push_str("/* is granted\n")
}

/// Adds the line of an opening.
fn push_opening(alloc: Global, text: &mut String, opening: &Opening) -> Result<(), AllocError>
    ensures { OnOk result (string_bytes text.new ≡
        string_bytes text.old ++ opening_line opening.now) }
{
    text.push_str(caller_text(&opening.caller))?;
    text.push_str(": ")?;
    push_step(alloc, text, &opening.caller, &opening.first)?;
    push_second(alloc, text, &opening.caller, &opening.second)?;
    push_granted(text, &opening.book)
}

/// Adds the short names of leaves, and ends the line.
fn push_leaves(alloc: Global, text: &mut String, leaves: LeafSet) -> Result<(), AllocError>
    ensures { OnOk result (string_bytes text.new ≡ string_bytes text.old ++ leaves_text leaves) }
{
    push_short(alloc, text, leaves)?;
    text.push_str("\n")
}

/// Adds the text of a path, and what is said of it.
fn push_at(text: &mut String, at: &Path, said: &str) -> Result<(), AllocError>
    ensures { OnOk result (string_bytes text.new ≡
        string_bytes text.old ++ (path_text at.now ++ said.now)) }
{
    at.push_text(text)?;
    text.push_str(said)
}

/// Adds where leaves are granted then.
fn push_then(text: &mut String, at: &Path) -> Result<(), AllocError>
    ensures { OnOk result (string_bytes text.new ≡ string_bytes text.old ++ then_text at.now) }
{
    text.push_str("; then at ")?;
    push_at(text, at, " is granted:")
}

/// Adds where leaves are granted then, and which.
fn push_gained(
    alloc: Global,
    text: &mut String,
    at: &Path,
    leaves: LeafSet,
) -> Result<(), AllocError>
    ensures { OnOk result (string_bytes text.new ≡
        string_bytes text.old ++ gained_text at.now leaves) }
{
    push_then(text, at)?;
    push_leaves(alloc, text, leaves)
}

/// Adds the line of a gain.
fn push_gain(alloc: Global, text: &mut String, gain: &Gain) -> Result<(), AllocError>
    ensures { OnOk result (string_bytes text.new ≡ string_bytes text.old ++ gain_line gain.now) }
{
    text.push_str(caller_text(&gain.caller))?;
    text.push_str(": ")?;
    push_step(alloc, text, &gain.caller, &gain.first)?;
    push_second(alloc, text, &gain.caller, &gain.second)?;
    push_gained(alloc, text, &gain.at, gain.leaves)
}

/// The text of a principal form.
fn who_text(who: &Who) -> &str
    ensures { result.now ≡ who_text who.now }
{
    match who {
        Who::Href(principal) => principal.text(),
        Who::Everyone => "all",
        Who::Authenticated => "authenticated",
        Who::Unauthenticated => "unauthenticated",
        Who::Owner => "owner",
        Who::Own => "self",
    }
}

/// Adds where an entry stands, and for whom it is.
fn push_place(text: &mut String, at: &str, who: &Who) -> Result<(), AllocError>
    ensures { OnOk result (string_bytes text.new ≡
        string_bytes text.old ++ place_text at.now who.now) }
{
    text.push_str(" (at ")?;
    text.push_str(at)?;
    text.push_str(", who ")?;
    text.push_str(who_text(who))?;
    text.push_str("): ")
}

/// The list in which an entry stands.
fn list_text(protected: bool) -> &'static str
    ensures { result.now ≡ list_text protected }
{
    if protected { "protected" } else { "own" }
}

/// Adds the entry behind which one is.
fn push_ahead(alloc: Global, text: &mut String, ahead: &Ahead) -> Result<(), AllocError>
    ensures { OnOk result (string_bytes text.new ≡
        string_bytes text.old ++ ahead_text ahead.now) }
{
    let number = ahead.number;
    let digits = format!(in alloc; "{number}")?;
    text.push_str(list_text(ahead.protected))?;
    text.push_str(" entry ")?;
    text.push_str(digits.as_str())?;
    push_both(text, " at ", ahead.at.as_str())
}

/// Adds why an entry changes no decision.
fn push_reason(alloc: Global, text: &mut String, reason: &Reason) -> Result<(), AllocError>
    ensures { OnOk result (string_bytes text.new ≡
        string_bytes text.old ++ reason_text reason.now) }
{
    match reason {
        Reason::ForNobody => text.push_str("never decides: it is for nobody\n"),
        Reason::BehindOne(ahead) => {
            text.push_str("never decides: behind ")?;
            push_ahead(alloc, text, ahead)?;
            text.push_str("\n")
        }
        Reason::BehindSeveral => text.push_str("never decides: behind the entries before it\n"),
        Reason::DecidedAlike => {
            text.push_str("can be left out: without it the same is decided\n")
        }
    }
}

/// Adds the line of an entry that changes no decision.
fn push_idle(alloc: Global, text: &mut String, idle: &IdleEntry) -> Result<(), AllocError>
    ensures { OnOk result (string_bytes text.new ≡ string_bytes text.old ++ idle_line idle.now) }
{
    let number = idle.number;
    let digits = format!(in alloc; "{number}")?;
    text.push_str("entry ")?;
    text.push_str(digits.as_str())?;
    push_place(text, idle.at.as_str(), &idle.who)?;
    push_reason(alloc, text, &idle.reason)
}

impl Warning {
    /// Adds the line that tells it. An error is want of memory.
    pub fn push_line(&self, alloc: Global, text: &mut String) -> Result<(), AllocError>
        ensures { OnOk result (string_bytes text.new ≡
            string_bytes text.old ++ warning_line self.now) }
    {
        match self {
            Warning::NeverDecides(idle) => push_idle(alloc, text, idle),
            Warning::LeavesOpen(gap) => push_gap_line(text, gap),
            Warning::Opens(opening) => push_opening(alloc, text, opening),
            Warning::Gets(gain) => push_gain(alloc, text, gain),
        }
    }
}

/// Adds the lines of warnings.
fn push_lines(alloc: Global, text: &mut String, warnings: &[Warning]) -> Result<(), AllocError>
    ensures { OnOk result (string_bytes text.new ≡
        string_bytes text.old ++ warning_lines warnings.now) }
{
    for warning in warnings {
        warning.push_line(alloc, text)?;
    }
    Ok(())
}

/// Adds the line that tells how many more there are, if there are any.
fn push_more(alloc: Global, text: &mut String, more: usize) -> Result<(), AllocError>
    ensures { OnOk result (string_bytes text.new ≡ string_bytes text.old ++ more_line more) }
{
    if more == 0 {
        return Ok(());
    }
    let digits = format!(in alloc; "{more}")?;
    push_both(text, digits.as_str(), " more\n")
}

/// The lines of the first 1,000 warnings, and how many more there are, if there are any. An error is want of memory.
pub fn warnings_text(alloc: Global, warnings: &[Warning]) -> Result<String, AllocError>
    ensures { IfOk result (λ text. string_bytes text ≡ warnings_text warnings.now) }
{
    let mut text = String::new(alloc);
    let told = warnings.len().min(MOST_LINES);
    push_lines(alloc, &mut text, &warnings[..told])?;
    push_more(alloc, &mut text, warnings.len() - told)?;
    Ok(text)
}

/// Adds entries that change no decision.
fn add_idle(idle: Items<IdleEntry>, warnings: &mut Items<Warning>) -> Result<(), AllocError>
    ensures { OnOk result (warnings.new ≡ warnings.old ++ idle_warnings idle) }
{
    for entry in idle.into_vec() {
        warnings.push(Warning::NeverDecides(entry))?;
    }
    Ok(())
}

/// Adds plain facts.
fn add_gaps(gaps: Items<Gap>, warnings: &mut Items<Warning>) -> Result<(), AllocError>
    ensures { OnOk result (warnings.new ≡ warnings.old ++ gap_warnings gaps) }
{
    for gap in gaps.into_vec() {
        warnings.push(Warning::LeavesOpen(gap))?;
    }
    Ok(())
}

/// Adds openings.
fn add_openings(openings: Items<Opening>, warnings: &mut Items<Warning>) -> Result<(), AllocError>
    ensures { OnOk result (warnings.new ≡ warnings.old ++ opening_warnings openings) }
{
    for opening in openings.into_vec() {
        warnings.push(Warning::Opens(opening))?;
    }
    Ok(())
}

/// Adds gains.
fn add_gains(gains: Items<Gain>, warnings: &mut Items<Warning>) -> Result<(), AllocError>
    ensures { OnOk result (warnings.new ≡ warnings.old ++ gain_warnings gains) }
{
    for gain in gains.into_vec() {
        warnings.push(Warning::Gets(gain))?;
    }
    Ok(())
}

/// The plain facts of an Office in memory. An error is want of memory.
fn gaps_in(alloc: Global, keeper: &mut MemoryKeeper) -> Result<Items<Gap>, StoreFault>
    ensures gaps { IfOk result (λ gaps. IsSound keeper.old → AreGaps keeper.old gaps) }
    ensures kept { IsSound keeper.old → keeper.new ≡ keeper.old }
{
    gaps_of(alloc, keeper)
}

/// What a policy leaves open where an Office in memory has adopted it. An error is want of memory.
fn warnings_in(
    alloc: Global,
    policy: &Policy,
    keeper: &mut MemoryKeeper,
) -> Result<Items<Warning>, StoreFault>
    ensures { IfOk result (λ warnings. IsSound keeper.old
        → AreWarningsIn policy.now keeper.old warnings) }
{
    let idle = idle_entries(alloc, policy)?;
    let gaps = gaps_in(alloc, keeper)?;
    let openings = openings_in(alloc, keeper)?;
    let gains = gains_in(alloc, keeper)?;
    let mut warnings = Items::new(alloc);
    add_idle(idle, &mut warnings)?;
    add_gaps(gaps, &mut warnings)?;
    add_openings(openings, &mut warnings)?;
    add_gains(gains, &mut warnings)?;
    Ok(warnings)
}

/// What a policy leaves open (own profile): exactly the entries that change no decision, in order, and why
/// (`idle_entries`); then exactly the plain facts of the Office that it makes of an empty one (`gaps_of`); and then who may
/// open what is closed, and who may get leaves at a resource, each with its witness. That none is told is no promise.
///
/// # Errors
///
/// Want of memory.
pub fn warnings_of(alloc: Global, policy: &Policy) -> Result<Items<Warning>, StoreFault>
    ensures { IfOk result (AreWarningsOf policy.now) }
{
    let mut machine = adopted(alloc, policy)?;
    warnings_in(alloc, policy, &mut machine.keeper)
}

/// What a policy leaves open over another Office than the empty one (own profile): the same, of the Office that it makes of
/// this one, so that persons, groups, members, books and lists count which the policy does not name. The entries that change
/// no decision are those of the policy alone: where the Office has other persons or books, or own lists at places at which
/// the policy has no entry, such an entry may decide there.
///
/// # Errors
///
/// `Full` where the Office would pass a limit or its epoch is at the last value, so that the policy would not be adopted;
/// `Unavailable` where memory was refused.
pub fn warnings_over(
    alloc: Global,
    policy: &Policy,
    start: Office,
) -> Result<Items<Warning>, AdoptFault>
    ensures told { IfOk result (λ warnings. IsSound start
        → AreWarningsOver policy.now start warnings) }
    ensures refused { IfErr result (IsRefused policy.now start) }
{
    let mut machine = adopted_over(alloc, policy, start)?;
    match warnings_in(alloc, policy, &mut machine.keeper) {
        Ok(warnings) => Ok(warnings),
        Err(_) => Err(AdoptFault::Unavailable),
    }
}
