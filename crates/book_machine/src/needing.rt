//! What a request needs, without its verdict.

ghost use Rattle.std.specs.Prelude.{◌≡◌, ◌++◌, ◌∷◌, [], map, IfOk, OnOk};
ghost use Rattle.std.specs.Option.{option_copied};
ghost use Rattle.book_rights.specs.Needs.{need_list, listed_others, listed_too};
ghost use Rattle.book_machine.specs.Asked.{destination_in};
ghost use Rattle.book_machine.specs.Asking.{Meets, StageAsks};
ghost use Rattle.book_machine.specs.Needing.{mapped_at, needed_at, needed_by, needed_of, placed, placed_needs};
ghost use Rattle.book_machine.specs.Targets.{ready_seen};

use crate::machine::Machine;
use crate::messages::Request;
use crate::plans::Ready;
use crate::refusals::Refusal;
use crate::stages::{place_path, shape_at};
use book_lists::Caller;
use book_office::{Items, Keeper, Path};
use book_rights::{LeafSet, Need, Needs, needs};
use std::alloc::{AllocError, Global};

/// Leaves that are needed at a resource, each of them.
#[derive(Debug, Drop)]
pub struct PlacedNeed {
    /// The resource.
    pub resource: Path,
    /// The leaves.
    pub set: LeafSet,
}

/// Who asks, and what the request needs.
#[derive(Debug, Drop)]
pub struct Needed {
    /// Who asks.
    pub caller: Caller,
    /// One to three needs, in the order in which they are checked.
    pub needs: Items<PlacedNeed>,
}

/// Adds a need, with the resource that its place names.
fn push_need(needs: &mut Vec<PlacedNeed>, ready: &Ready<'_>, need: Need) -> Result<(), AllocError>
    ensures { OnOk result (needs.new.items ≡ needs.old.items ++ placed
        (destination_in ready.now.asked) ready.now.target.path.now need ∷ []) }
{
    let resource = place_path(ready, need.place)?;
    needs.push(PlacedNeed {
        resource,
        set: need.set,
    })?;
    Ok(())
}

/// Adds a need, if there is one.
fn push_any(
    needs: &mut Vec<PlacedNeed>,
    ready: &Ready<'_>,
    need: Option<Need>,
) -> Result<(), AllocError>
    ensures { OnOk result (needs.new.items ≡ needs.old.items ++ map
        (placed (destination_in ready.now.asked) ready.now.target.path.now) (listed_too need [])) }
{
    match need {
        Some(need) => push_need(needs, ready, need),
        None => Ok(()),
    }
}

/// Adds the needs after the first.
fn push_others(
    needs: &mut Vec<PlacedNeed>,
    ready: &Ready<'_>,
    others: Option<(Need, Option<Need>)>,
) -> Result<(), AllocError>
    ensures { OnOk result (needs.new.items ≡ needs.old.items ++ map
        (placed (destination_in ready.now.asked) ready.now.target.path.now)
        (listed_others others)) }
{
    let Some((second, third)) = others else {
        return Ok(());
    };
    push_need(needs, ready, second)?;
    push_any(needs, ready, third)
}

/// The needs in turn, each with its resource.
fn placed_needs(alloc: Global, ready: &Ready<'_>) -> Result<Items<PlacedNeed>, AllocError>
    ensures { IfOk result (λ needs. needs ≡ placed_needs (ready_seen ready.now)) }
{
    let Needs { first, others } = needs(ready.asked.method(), shape_at(ready));
    let mut needs = Vec::new(alloc);
    push_need(&mut needs, ready, first)?;
    push_others(&mut needs, ready, others)?;
    Ok(Items::from_vec(needs))
}

/// One need.
fn one_need(alloc: Global, resource: Path, set: LeafSet) -> Result<Items<PlacedNeed>, AllocError>
    ensures { IfOk result (λ needs. needs ≡ record { resource = resource; set = set } ∷ []) }
{
    let mut needs = Items::new(alloc);
    needs.push(PlacedNeed { resource, set })?;
    Ok(needs)
}

/// Who asks, and the needs. What is asked is let go.
fn needed_of(alloc: Global, ready: Ready<'_>) -> Result<Needed, AllocError>
    ensures { IfOk result (λ needed. needed ≡ needed_of (ready_seen ready.entry)) }
{
    let told = placed_needs(alloc, &ready);
    let Ready {
        caller,
        asked,
        target,
    } = ready;
    drop((asked, target));
    let needs = told?;
    Ok(Needed { caller, needs })
}

impl<K: Keeper> Machine<K> {
    /// What a request needs, of a caller by its bare name; none is nobody. Nothing is decided, and nothing changes.
    ///
    /// # Errors
    ///
    /// The refusal of the stage that ends the request before its verdict, as `serve` answers it: the caller, the shape or
    /// the path. `Unavailable` where memory was refused or the store failed.
    pub fn needed(
        &mut self,
        alloc: Global,
        name: Option<&str>,
        request: &Request,
    ) -> Result<Needed, Refusal>
        ensures { StageAsks K.standing self.old self.new result
            (λ o r. Meets r (needed_by o (option_copied name.entry) request.now)) }
    {
        let ready = self.ready(alloc, name, request)?;
        Ok(needed_of(alloc, ready)?)
    }

    /// The path, where something is mapped at it; a path that was not read is none. Nothing changes.
    ///
    /// # Errors
    ///
    /// `NotFound` where nothing is mapped at the path. `Unavailable` where memory was refused or the store failed.
    pub fn mapped(&mut self, alloc: Global, path: &Option<Path>) -> Result<Path, Refusal>
        ensures { StageAsks K.standing self.old self.new result
            (λ o r. Meets r (mapped_at o path.now)) }
    {
        let Some(path) = path else {
            return Err(Refusal::NotFound);
        };
        match self.keeper.has(alloc, path)? {
            true => Ok(path.clone()?),
            false => Err(Refusal::NotFound),
        }
    }

    /// These leaves as the one need of a caller at a path; a path that was not read is none. Nothing is decided, and
    /// nothing changes.
    ///
    /// # Errors
    ///
    /// `UnknownCaller` where the caller is no person; else `NotFound` where nothing is mapped at the path. `Unavailable`
    /// where memory was refused or the store failed.
    pub fn needed_at(
        &mut self,
        alloc: Global,
        name: Option<&str>,
        path: &Option<Path>,
        set: LeafSet,
    ) -> Result<Needed, Refusal>
        ensures { StageAsks K.standing self.old self.new result
            (λ o r. Meets r (needed_at o (option_copied name.entry) path.now set)) }
    {
        let caller = self.caller(alloc, name)?;
        let resource = self.mapped(alloc, path)?;
        Ok(Needed {
            caller,
            needs: one_need(alloc, resource, set)?,
        })
    }
}
