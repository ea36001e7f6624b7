//! Requests by which a caller may get a right.

ghost use Rattle.std.specs.Prelude.{◌≡◌, ◌∷◌, [], IfOk, map};
ghost use Rattle.book_lists.specs.declared.memberships.Membership.{Membership as MembershipOf};
ghost use Rattle.book_office.specs.Sound.{IsSound};
ghost use Rattle.book_policy_openings.specs.Steps.{AreListedAnd, AreMembersAnd, IsJoin, IsJoinOf, IsRequestOf, caller_of, form_of, grant_request, granting, plain};

use crate::in_memory::members_in;
use book_lists::{Caller, Membership, Name, Pairs, Principal, Submitted, Who};
use book_machine::{Body, Depth, Flag, Patch, Request};
use book_office::{MemoryKeeper, StoreFault};
use book_office_values::{Items, Path};
use book_rights::{LeafSet, Method};
use std::alloc::{AllocError, Global};

/// A request of a caller, by which they may get a right.
#[derive(Clone, Debug, Drop)]
pub enum Step {
    /// PROPPATCH of the members of a group (RFC 3744, section 4.3): to those that it has, the person.
    Join(Name),
    /// ACL (RFC 3744, section 8.1): in place of the own list of a resource one entry, which grants the caller these leaves: a
    /// person by their path, and who is not known by `unauthenticated`.
    Grant(Path, LeafSet),
}

/// A request that names no destination.
pub(crate) fn plain(method: Method, path: Path, body: Body) -> Request
    ensures { result ≡ plain method path body }
{
    Request {
        method,
        path: Some(path),
        destination: None,
        overwrite: Flag::Yes,
        depth: Depth::Zero,
        body,
    }
}

/// The members of the pairs.
fn members_among(alloc: Global, pairs: &[Membership]) -> Result<Items<Principal>, AllocError>
    ensures { IfOk result (λ members. members ≡ map (λ (m : MembershipOf). m.member) pairs.now) }
{
    let mut members = Vec::with_capacity(alloc, pairs.len())?;
    for pair in pairs {
        members.push(pair.member.clone()?)?;
    }
    Ok(Items::from_vec(members))
}

/// The members of the pairs, and the person.
fn listed_and(
    alloc: Global,
    pairs: &Pairs,
    person: &Principal,
) -> Result<Items<Principal>, AllocError>
    ensures { IfOk result (AreListedAnd pairs.now person.now) }
{
    let listed = pairs.list()?;
    let mut members = members_among(alloc, listed.as_slice())?;
    members.push(person.clone()?)?;
    Ok(members)
}

/// The members of a group, and the person.
fn members_and(
    alloc: Global,
    keeper: &mut MemoryKeeper,
    group: &Principal,
    person: &Principal,
) -> Result<Items<Principal>, StoreFault>
    ensures members { IfOk result (λ members. IsSound keeper.old
        → AreMembersAnd keeper.old group.now person.now members) }
    ensures kept { IsSound keeper.old → keeper.new ≡ keeper.old }
{
    let pairs = members_in(alloc, keeper, group)?;
    Ok(listed_and(alloc, &pairs, person)?)
}

/// A caller, by the bare name of the person; nobody without one.
pub(crate) fn caller_of(alloc: Global, name: &Option<Name>) -> Result<Caller, AllocError>
    ensures { IfOk result (λ caller. caller ≡ caller_of name.now) }
{
    match name {
        Some(name) => Ok(Caller::Known(Principal::person(alloc, name)?)),
        None => Ok(Caller::Nobody),
    }
}

/// The form of an entry that is for a caller alone.
pub(crate) fn form_of(alloc: Global, caller: &Option<Name>) -> Result<Who, AllocError>
    ensures { IfOk result (λ form. form ≡ form_of caller.now) }
{
    match caller {
        Some(name) => Ok(Who::Href(Principal::person(alloc, name)?)),
        None => Ok(Who::Unauthenticated),
    }
}

/// A list of one entry of a form, which grants leaves.
fn granting(alloc: Global, form: Who, leaves: LeafSet) -> Result<Items<Submitted>, AllocError>
    ensures { IfOk result (λ list. list ≡ granting form leaves ∷ []) }
{
    let mut list = Items::new(alloc);
    list.push(Submitted {
        who: Some(form),
        invert: false,
        deny: false,
        set: Some(leaves),
        protected: false,
        inherited: false,
    })?;
    Ok(list)
}

/// The request that adds the person to a group.
fn join_request(
    alloc: Global,
    keeper: &mut MemoryKeeper,
    person: &Name,
    group: &Name,
) -> Result<Request, StoreFault>
    ensures request { IfOk result (λ request. IsSound keeper.old
        → IsJoin keeper.old person.now group.now request) }
    ensures kept { IsSound keeper.old → keeper.new ≡ keeper.old }
{
    let who = Principal::person(alloc, person)?;
    let to = Principal::group(alloc, group)?;
    let path = Path::Group(group.clone()?);
    let members = members_and(alloc, keeper, &to, &who)?;
    Ok(plain(
        Method::Proppatch,
        path,
        Body::Patch(Patch::GroupMembers(members)),
    ))
}

/// The request that adds the caller to a group. The search asks it of no caller who is not known: of one it is an error.
fn join_of(
    alloc: Global,
    keeper: &mut MemoryKeeper,
    caller: &Option<Name>,
    group: &Name,
) -> Result<Request, StoreFault>
    ensures request { IfOk result (λ request. IsSound keeper.old
        → IsJoinOf keeper.old caller.now group.now request) }
    ensures kept { IsSound keeper.old → keeper.new ≡ keeper.old }
{
    match caller {
        Some(person) => join_request(alloc, keeper, person, group),
        None => Err(StoreFault::Memory),
    }
}

/// The request that grants the caller leaves at a path.
fn grant_request(
    alloc: Global,
    caller: &Option<Name>,
    path: &Path,
    leaves: LeafSet,
) -> Result<Request, AllocError>
    ensures { IfOk result (λ request. request ≡ grant_request caller.now path.now leaves) }
{
    let form = form_of(alloc, caller)?;
    let list = granting(alloc, form, leaves)?;
    Ok(plain(Method::Acl, path.clone()?, Body::List(list)))
}

/// The request of a step.
pub(crate) fn request_of(
    alloc: Global,
    keeper: &mut MemoryKeeper,
    caller: &Option<Name>,
    step: &Step,
) -> Result<Request, StoreFault>
    ensures request { IfOk result (λ request. IsSound keeper.old
        → IsRequestOf keeper.old caller.now step.now request) }
    ensures kept { IsSound keeper.old → keeper.new ≡ keeper.old }
{
    match step {
        Step::Join(group) => join_of(alloc, keeper, caller, group),
        Step::Grant(path, leaves) => Ok(grant_request(alloc, caller, path, *leaves)?),
    }
}
