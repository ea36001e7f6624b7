//! Cards and books that pass from one owner to another.

ghost use Rattle.std.specs.Prelude.{◌≡◌, ◌≢◌, ◌≤◌, ◌++◌, ◌⊎◌, false, true, [], IfErr, IfOk, OnOk, map, string_bytes};
ghost use Rattle.book_limits.specs.declared.TheConstants.{LAST_NUMBER};
ghost use Rattle.book_dumps_changes.specs.Changing.{has_principal};
ghost use Rattle.book_dumps_changes.specs.Owners.{has_book, has_line_of, in_book, is_of_book, is_owner, may_pass, owner_line, passed, passes, told_owners, told_passing, with_owner};

use crate::changed::{ChangeFault, Changed, check_principal, raised};
use book_dumps::Line;
use book_dumps_reading::Dumped;
use book_lists::{Name, Principal};
use book_office_values::{Items, Path, Text};
use std::alloc::{AllocError, Global};
use std::mem;

/// Whether a book is the one that is given, if one is.
fn in_book(at: &Option<Name>, book: &Name) -> bool
    ensures { result ≡ in_book at.now book.now }
{
    match at {
        None => true,
        Some(wanted) => *wanted == *book,
    }
}

/// Whether a line is that of a book.
fn is_of_book(book: &Name, line: &Line) -> bool
    ensures { result ≡ is_of_book book.now line.now }
{
    match &line.path {
        Path::Book(name) => *name == *book,
        Path::Root
        | Path::People
        | Path::Groups
        | Path::Books
        | Path::Person(_)
        | Path::Group(_)
        | Path::Card(_, _) => false,
    }
}

/// Whether a book has a line.
fn has_line_of(lines: &[Line], book: &Name) -> bool
    ensures { result ≡ has_line_of lines.now book.now }
{
    lines.iter().any(|line| is_of_book(book, line))
}

/// Whether the book that is given has a line, if one is given.
fn has_book(lines: &[Line], at: &Option<Name>) -> bool
    ensures { result ≡ has_book lines.now at.now }
{
    match at {
        None => true,
        Some(book) => has_line_of(lines, book),
    }
}

/// The book that is given has a line, if one is given. It is `UnknownPrincipal` else.
fn check_book(lines: &[Line], at: &Option<Name>) -> Result<(), ChangeFault>
    ensures ok { OnOk result (has_book lines.now at.now ≡ true) }
    ensures err { IfErr result (λ fault. (fault ≡ ChangeFault.UnknownPrincipal)
        × (has_book lines.now at.now ≡ false)) }
{
    if !has_book(lines, at) {
        return Err(ChangeFault::UnknownPrincipal);
    }
    Ok(())
}

/// Whether what stands at a path may pass: a card of the book that is given; each card and each book where none is.
fn may_pass(at: &Option<Name>, path: &Path) -> bool
    ensures { result ≡ may_pass at.now path.now }
{
    match path {
        Path::Root | Path::People | Path::Groups | Path::Books | Path::Person(_) | Path::Group(_) =>
            false,
        Path::Book(_) => at.is_none(),
        Path::Card(book, _) => in_book(at, book),
    }
}

/// Whether an owner is this one.
pub(crate) fn is_owner(from: &Principal, owner: &Option<Principal>) -> bool
    ensures { result ≡ is_owner from.now owner.now }
{
    match owner {
        None => false,
        Some(owner) => *owner == *from,
    }
}

/// Whether a resource passes.
fn passes(from: &Principal, at: &Option<Name>, line: &Line) -> bool
    ensures { result ≡ passes from.now at.now line.now }
{
    may_pass(at, &line.path) && is_owner(from, &line.owner)
}

/// Tells that a resource passes: `owner PATH FROM -> TO`. An error is want of memory.
fn push_owner(
    told: &mut String,
    path: &Path,
    from: &Principal,
    to: &Principal,
) -> Result<(), AllocError>
    ensures { OnOk result (string_bytes told.new ≡
        string_bytes told.old ++ owner_line path.now from.now to.now) }
{
    told.push_str("owner ")?;
    path.push_text(told)?;
    told.push_str(" ")?;
    told.push_str(from.text())?;
    told.push_str(" -> ")?;
    told.push_str(to.text())?;
    told.push_str("\n")
}

/// Tells that a resource passes, and copies its owner after that. An error is want of memory.
fn told_owner(
    told: &mut String,
    path: &Path,
    from: &Principal,
    to: &Principal,
) -> Result<Principal, AllocError>
    ensures owner { IfOk result (λ owner. owner ≡ to.now) }
    ensures told { OnOk result (string_bytes told.new ≡
        string_bytes told.old ++ owner_line path.now from.now to.now) }
{
    push_owner(told, path, from, to)?;
    to.clone()
}

/// What becomes of a resource. An error is want of memory.
fn pass(
    told: &mut String,
    from: &Principal,
    to: &Principal,
    at: &Option<Name>,
    line: Line,
) -> Result<Line, AllocError>
    ensures line { IfOk result (λ after. after ≡ passed from.now to.now at.now line) }
    ensures told { OnOk result (string_bytes told.new ≡
        string_bytes told.old ++ told_passing from.now to.now at.now line) }
{
    if !passes(from, at, &line) {
        return Ok(line);
    }
    let owner = told_owner(told, &line.path, from, to)?;
    let mut line = line;
    drop(mem::replace(&mut line.owner, Some(owner)));
    Ok(line)
}

/// What becomes of resources. An error is want of memory.
fn pass_all(
    alloc: Global,
    told: &mut String,
    from: &Principal,
    to: &Principal,
    at: &Option<Name>,
    lines: Items<Line>,
) -> Result<Items<Line>, AllocError>
    ensures lines { IfOk result (λ after. after ≡ map (passed from.now to.now at.now) lines) }
    ensures told { OnOk result (string_bytes told.new ≡
        string_bytes told.old ++ told_owners from.now to.now at.now lines) }
{
    let mut after = Vec::with_capacity(alloc, lines.len())?;
    for line in lines.into_vec() {
        after.push(pass(told, from, to, at, line)?)?;
    }
    Ok(Items::from_vec(after))
}

/// Gives what a principal owns to another one: each card of a book, or, where no book is given, each card and each
/// book whose owner is `from` has the owner `to`, and all else is as it was. `owner PATH FROM -> TO` is told of each.
/// The epoch is one more where there is one, so that tokens of before are refused.
///
/// # Errors
///
/// `UnknownPrincipal` where `from`, `to` or the book has no line. `LastNumber` where the epoch was the last. `Memory` where
/// memory was refused, in place of any other answer.
pub fn own_by(
    alloc: Global,
    dumped: Dumped,
    from: &Principal,
    to: &Principal,
    at: &Option<Name>,
) -> Result<Changed, ChangeFault>
    ensures ok { IfOk result (λ changed. changed ≡ with_owner from.now to.now at.now dumped) }
    ensures known { OnOk result ((has_principal dumped.lines from.now ≡ true)
        × (has_principal dumped.lines to.now ≡ true) × (has_book dumped.lines at.now ≡ true)) }
    ensures within { IfOk result (λ changed. dumped.epoch ≤ LAST_NUMBER
        → changed.dumped.epoch ≤ LAST_NUMBER) }
    ensures unknown { IfErr result (λ fault. fault ≡ ChangeFault.UnknownPrincipal
        → (has_principal dumped.lines from.now ≡ false)
        ⊎ ((has_principal dumped.lines to.now ≡ false)
        ⊎ (has_book dumped.lines at.now ≡ false))) }
    ensures last { IfErr result (λ fault. fault ≡ ChangeFault.LastNumber
        → (told_owners from.now to.now at.now dumped.lines ≢ [])
        × (LAST_NUMBER ≤ dumped.epoch)) }
{
    check_principal(alloc, dumped.lines.as_slice(), from)?;
    check_principal(alloc, dumped.lines.as_slice(), to)?;
    check_book(dumped.lines.as_slice(), at)?;
    let Dumped { epoch, lines } = dumped;
    let mut told = String::new(alloc);
    let lines = pass_all(alloc, &mut told, from, to, at, lines)?;
    let told = Text::from_string(told);
    let epoch = raised(epoch, &told)?;
    Ok(Changed {
        dumped: Dumped { epoch, lines },
        told,
    })
}
