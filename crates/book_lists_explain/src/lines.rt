//! The lines of an `explain` text.

ghost use Rattle.std.specs.Prelude.{◌≡◌, ◌≢◌, ◌<◌, ◌==◌, ◌↔◌, ◌∷◌, ℕ, Bool, false, List, codes, IfOk, IfErr, IfSome, IfNone, IsTrue, nat_eq, length, map};
ghost use Rattle.std.specs.List.{slice_split, list_any};
ghost use Rattle.book_rights.specs.declared.privileges.Leaf.{Leaf};
ghost use Rattle.book_lists.specs.declared.entries.Who.{Who};
ghost use Rattle.book_lists_explain.specs.declared.lines.Line.{Line};
ghost use Rattle.book_lists_explain.specs.declared.faults.ExplainFaultKind.TheVariants.{BadName, UnknownPrivilege};
ghost use Rattle.book_lists_explain.specs.Lines.{Names, IsWho, AreLeaves, HasUnknown, action, WordsSay, FaultOfWords, OrMemory, Means, FormFault, member_form, caller_form, inverted, owner_form, here_form, IsBlank, Says, OwnFault};

use crate::faults::ExplainFaultKind;
use book_lists::{Caller, Entry, Principal, Who};
use book_rights::{LeafSet, Privilege};
use std::alloc::{AllocError, Global};

/// What one line of an `explain` text says (own profile).
#[derive(Debug, Drop)]
pub enum Line {
    /// Nothing: blanks, or a comment.
    Blank,
    /// The second is a member of the first.
    Member(Principal, Principal),
    /// Who asks.
    Asks(Caller),
    /// The leaves that are needed.
    Need(LeafSet),
    /// Who owns the resource.
    Owner(Principal),
    /// The principal that the resource is.
    Here(Principal),
    /// The next entry of the list.
    Listed(Entry),
}

/// The pieces of a text that a character separates.
pub(crate) fn pieces<'a>(
    alloc: Global,
    text: &'a str,
    separator: char,
) -> Result<Vec<&'a str>, AllocError>
    requires { separator < 128 }
    ensures { IfOk result (λ pieces. map (λ w. w.now) pieces.items ≡ slice_split
        (λ b. b == separator) text.now) }
{
    text.split(separator).collect(alloc)
}

/// The principal that the word names.
fn principal(alloc: Global, word: &str) -> Result<Principal, ExplainFaultKind>
    ensures named { IfOk result (λ path. Names word.now path) }
    ensures bad { IfErr result (OrMemory (λ kind. (kind ≡ BadName)
        × ((path : List ℕ) → Names word.now path → ⊥))) }
{
    Principal::parse(alloc, word)?.ok_or(ExplainFaultKind::BadName)
}

/// The principal form that the word names.
fn who(alloc: Global, word: &str) -> Result<Who, ExplainFaultKind>
    ensures named { IfOk result (λ who. IsWho word.now who) }
    ensures bad { IfErr result (OrMemory
        (λ kind. (kind ≡ BadName) × ((who : Who) → IsWho word.now who → ⊥))) }
{
    Ok(match word {
        "all" => Who::Everyone,
        "authenticated" => Who::Authenticated,
        "unauthenticated" => Who::Unauthenticated,
        "owner" => Who::Owner,
        "self" => Who::Own,
        _ => Who::Href(principal(alloc, word)?),
    })
}

/// The leaves of the privileges with these names.
fn leaves(names: &[&str]) -> Option<LeafSet>
    ensures known { IfSome result (λ set. AreLeaves (map (λ w. w.now) names.now) set) }
    ensures unknown { IfNone result (HasUnknown (map (λ w. w.now) names.now)) }
{
    let mut set = LeafSet::empty();
    for name in names {
        let privilege = Privilege::from_name(name)?;
        set = set.union(privilege.leaves());
    }
    Some(set)
}

/// The entry of a line that begins with `grant` or `deny`, and `not` where it is inverted.
fn entry(alloc: Global, deny: bool, invert: bool, words: &[&str]) -> Result<Line, ExplainFaultKind>
    requires { invert ≡ false → (rest : List (List ℕ))
        → map (λ w. w.now) words.now ≢ codes "not" ∷ rest }
    ensures told { IfOk result (WordsSay
        (action deny ∷ inverted invert (map (λ w. w.now) words.now))) }
    ensures faulty { IfErr result (OrMemory
        (FaultOfWords (action deny ∷ inverted invert (map (λ w. w.now) words.now)))) }
{
    let [word, names @ ..] = words else {
        return Err(ExplainFaultKind::BadLine);
    };
    if names.is_empty() || *word == "not" {
        return Err(ExplainFaultKind::BadLine);
    }
    let who = who(alloc, word)?;
    let set = leaves(names).ok_or(ExplainFaultKind::UnknownPrivilege)?;
    Ok(Line::Listed(Entry {
        who,
        invert,
        deny,
        set,
    }))
}

/// What a line says that begins with `grant` or `deny`.
fn listed(alloc: Global, deny: bool, words: &[&str]) -> Result<Line, ExplainFaultKind>
    ensures told { IfOk result (WordsSay (action deny ∷ map (λ w. w.now) words.now)) }
    ensures faulty { IfErr result (OrMemory
        (FaultOfWords (action deny ∷ map (λ w. w.now) words.now))) }
{
    match words {
        ["not", rest @ ..] => entry(alloc, deny, true, rest),
        _ => entry(alloc, deny, false, words),
    }
}

fn need(names: &[&str]) -> Result<Line, ExplainFaultKind>
    ensures told { IfOk result (WordsSay (codes "need" ∷ map (λ w. w.now) names.now)) }
    ensures faulty { IfErr result (FaultOfWords (codes "need" ∷ map (λ w. w.now) names.now)) }
{
    if names.is_empty() {
        return Err(ExplainFaultKind::BadLine);
    }
    let set = leaves(names).ok_or(ExplainFaultKind::UnknownPrivilege)?;
    Ok(Line::Need(set))
}

fn owner(alloc: Global, word: &str) -> Result<Line, ExplainFaultKind>
    ensures told { IfOk result (Means (owner_form word.now)) }
    ensures faulty { IfErr result (OrMemory (FormFault (owner_form word.now))) }
{
    let path = principal(alloc, word)?;
    Ok(Line::Owner(path))
}

fn here(alloc: Global, word: &str) -> Result<Line, ExplainFaultKind>
    ensures told { IfOk result (Means (here_form word.now)) }
    ensures faulty { IfErr result (OrMemory (FormFault (here_form word.now))) }
{
    let path = principal(alloc, word)?;
    Ok(Line::Here(path))
}

fn member(alloc: Global, group: &str, member: &str) -> Result<Line, ExplainFaultKind>
    ensures told { IfOk result (Means (member_form group.now member.now)) }
    ensures faulty { IfErr result (OrMemory (FormFault (member_form group.now member.now))) }
{
    let group = principal(alloc, group)?;
    let member = principal(alloc, member)?;
    if !group.is_group() {
        return Err(ExplainFaultKind::BadName);
    }
    Ok(Line::Member(group, member))
}

fn caller(alloc: Global, word: &str) -> Result<Line, ExplainFaultKind>
    ensures told { IfOk result (Means (caller_form word.now)) }
    ensures faulty { IfErr result (OrMemory (FormFault (caller_form word.now))) }
{
    if word == "-" {
        return Ok(Line::Asks(Caller::Nobody));
    }
    let person = principal(alloc, word)?;
    if person.is_group() {
        return Err(ExplainFaultKind::BadName);
    }
    Ok(Line::Asks(Caller::Known(person)))
}

/// What these words say.
fn tell(alloc: Global, words: &[&str]) -> Result<Line, ExplainFaultKind>
    ensures told { IfOk result (WordsSay (map (λ w. w.now) words.now)) }
    ensures faulty { IfErr result (OrMemory (FaultOfWords (map (λ w. w.now) words.now))) }
{
    match words {
        ["member", group, of] => member(alloc, group, of),
        ["caller", word] => caller(alloc, word),
        ["need", rest @ ..] => need(rest),
        ["owner", word] => owner(alloc, word),
        ["here", word] => here(alloc, word),
        ["grant", rest @ ..] => listed(alloc, false, rest),
        ["deny", rest @ ..] => listed(alloc, true, rest),
        _ => Err(ExplainFaultKind::BadLine),
    }
}

fn is_blank(line: &str) -> bool
    ensures { IsTrue result ↔ IsBlank line.now }
{
    line.is_empty() || line.strip_prefix("#").is_some()
}

fn has_empty(words: &[&str]) -> bool
    ensures { result ≡ list_any (λ w. nat_eq (length w.now) 0) words.now }
{
    words.iter().any(|word| word.is_empty())
}

/// Reads one line, without its end.
pub(crate) fn line_of(alloc: Global, line: &str) -> Result<Line, ExplainFaultKind>
    ensures said { IfOk result (Says line.now) }
    ensures faulty { IfErr result (OrMemory (OwnFault line.now)) }
{
    if is_blank(line) {
        return Ok(Line::Blank);
    }
    let words = pieces(alloc, line, ' ')?;
    if has_empty(&words) {
        return Err(ExplainFaultKind::BadLine);
    }
    tell(alloc, &words)
}
