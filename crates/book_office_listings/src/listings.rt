//! Listings over a keeper.

ghost use Rattle.std.specs.Prelude.{◌≡◌, ◌∷◌, true, Some, IfOk};
ghost use Rattle.std.specs.List.{AllZip};
ghost use Rattle.std.specs.List.Sorted.{IsStrictlySortedBy};
ghost use Rattle.book_lists.specs.Memberships.{membership_cmp, set_of};
ghost use Rattle.book_office.specs.Keeping.{Reads};
ghost use Rattle.book_office.specs.Levels.{effective_of};
ghost use Rattle.book_office.specs.Resources.{node_at};
ghost use Rattle.book_office_listings.specs.Listings.{AreResponses, IsResponseTo, child_path, home_path};
ghost use Rattle.book_office_listings.specs.Listings.{asks_members, asks_token};
ghost use Rattle.book_office_listings.specs.Reading.{AreRead, IsChildResponse, IsWholeRead};
ghost use Rattle.book_office_listings.specs.Reading.{child_level, child_subject, children_for, groups_told, node_subject, pairs_about};
ghost use Rattle.book_office_listings.specs.Scanning.{IsVerdict};
ghost use Rattle.book_office_listings.specs.Sifting.{IsSifted};
ghost use Rattle.book_office_listings.specs.Verdicts.{principal_of};

use crate::asked_properties::is_asked;
use crate::denials::judge;
use crate::memberships::OrderedPairs;
use crate::messages::{Denial, Extent, Find, Property, Response};
use crate::property_values::values;
use crate::sifting::{Sifted, judge_below, sift};
use crate::subjects::{Subject, Whole};
use book_lists::{Circle, Here, Name, Pairs, Principal};
use book_office::{Keeper, Level, Listed, Node, StoreFault};
use book_office_values::{Items, Path};
use std::alloc::{AllocError, Global};

/// The home with a name.
fn home_path(name: &Name) -> Path
    ensures { result ≡ home_path name.now }
{
    let text = name.text();
    if text == "books" {
        return Path::Books;
    }
    if text == "groups" {
        return Path::Groups;
    }
    Path::People
}

/// The path of the child with a name.
fn child_path(path: &Path, name: Name) -> Result<Path, AllocError>
    ensures { IfOk result (λ child. child ≡ child_path path.now name) }
{
    Ok(match path {
        Path::Root => home_path(&name),
        Path::People => Path::Person(name),
        Path::Groups => Path::Group(name),
        Path::Books => Path::Book(name),
        Path::Book(book) => Path::Card(book.clone()?, name),
        Path::Person(_) | Path::Group(_) | Path::Card(_, _) => path.clone()?,
    })
}

/// The resource itself, where it is a principal.
fn principal_of(alloc: Global, path: &Path) -> Result<Option<Principal>, AllocError>
    ensures { IfOk result (λ principal. principal ≡ principal_of path.now) }
{
    match path {
        Path::Person(name) => Ok(Some(Principal::person(alloc, name)?)),
        Path::Group(name) => Ok(Some(Principal::group(alloc, name)?)),
        Path::Root | Path::People | Path::Groups | Path::Books | Path::Book(_) | Path::Card(_, _) =>
            Ok(None),
    }
}

/// The lists of a child, and what entries and properties ask of it.
fn read_child(alloc: Global, path: &Path, child: Listed) -> Result<(Level, Subject), AllocError>
    ensures level { IfOk result (λ read. read.0 ≡ child_level path.now child) }
    ensures subject { IfOk result (λ read. read.1 ≡ child_subject path.now child) }
{
    let Listed {
        name,
        kind,
        owner,
        label,
        number,
        protected,
        own,
    } = child;
    let path = child_path(path, name)?;
    let principal = principal_of(alloc, &path)?;
    let level = Level {
        path,
        protected,
        own,
    };
    let subject = Subject {
        here: Here { owner, principal },
        kind,
        label,
        number,
    };
    Ok((level, subject))
}

/// The owner, if there is one.
fn copied(owner: &Option<Principal>) -> Result<Option<Principal>, AllocError>
    ensures { IfOk result (λ copy. copy ≡ owner.now) }
{
    match owner {
        Some(owner) => Ok(Some(owner.clone()?)),
        None => Ok(None),
    }
}

/// What entries and properties ask of the resource that was asked for.
fn node_subject(alloc: Global, path: &Path, node: &Node) -> Result<Subject, AllocError>
    ensures { IfOk result (λ subject. subject ≡ node_subject path.now node.now) }
{
    let owner = copied(&node.owner)?;
    let principal = principal_of(alloc, path)?;
    Ok(Subject {
        here: Here { owner, principal },
        kind: node.kind,
        label: node.label.clone()?,
        number: node.number,
    })
}

/// The response for a resource once it is decided, by its own level and those above it.
fn decided(
    alloc: Global,
    find: &Find,
    circle: &Circle,
    whole: &Whole,
    own: &Level,
    above: &[Level],
    subject: &Subject,
    verdict: Option<Denial>,
) -> Result<Response, AllocError>
    ensures { IsVerdict (effective_of (own.now ∷ above.now)) circle.now subject.now.here
        own.now.path find.now.needed verdict
        → IfOk result (IsResponseTo find.now circle.now whole.now own.now.path subject.now
        (effective_of (own.now ∷ above.now))) }
{
    if let Some(denial) = verdict {
        return Ok(Response::Denied(denial));
    }
    let properties = values(
        alloc,
        whole,
        circle,
        own,
        above,
        subject,
        find.properties.as_slice(),
    )?;
    let path = own.path.clone()?;
    Ok(Response::Told { path, properties })
}

/// The response for a resource, by its own level and those above it. Nothing is told before the verdict.
fn response(
    alloc: Global,
    find: &Find,
    circle: &Circle,
    whole: &Whole,
    own: &Level,
    above: &[Level],
    subject: &Subject,
) -> Result<Response, AllocError>
    ensures { IfOk result (IsResponseTo find.now circle.now whole.now own.now.path subject.now
        (effective_of (own.now ∷ above.now))) }
{
    let verdict = judge(own, above, circle, &subject.here, find.needed)?;
    decided(alloc, find, circle, whole, own, above, subject, verdict)
}

/// The response for a child below these levels, of which what may apply to the caller is sifted.
fn child_response(
    alloc: Global,
    find: &Find,
    circle: &Circle,
    whole: &Whole,
    path: &Path,
    levels: &[Level],
    sifted: &Sifted,
    child: Listed,
) -> Result<Response, AllocError>
    ensures { IsSifted circle.now levels.now sifted.now
        → IfOk result (IsChildResponse find.now circle.now whole.now path.now levels.now child) }
{
    let (level, subject) = read_child(alloc, path, child)?;
    let verdict = judge_below(&level, levels, sifted, circle, &subject.here, find.needed)?;
    decided(
        alloc, find, circle, whole, &level, levels, &subject, verdict,
    )
}

/// The responses for the children below these levels, of which what may apply to the caller is sifted, in their order.
fn responses_below(
    alloc: Global,
    find: &Find,
    circle: &Circle,
    whole: &Whole,
    path: &Path,
    levels: &[Level],
    sifted: &Sifted,
    children: Items<Listed>,
) -> Result<Vec<Response>, AllocError>
    requires { IsSifted circle.now levels.now sifted.now }
    ensures { IfOk result (λ responses. AllZip
        (IsChildResponse find.now circle.now whole.now path.now levels.now) children
        responses.items) }
{
    let mut responses = Vec::with_capacity(alloc, children.len().saturating_add(1))?;
    for child in children.into_vec() {
        let told = child_response(alloc, find, circle, whole, path, levels, sifted, child)?;
        responses.push(told)?;
    }
    Ok(responses)
}

/// The responses for the children below these levels, in their order. What may apply to the caller is sifted once.
fn child_responses(
    alloc: Global,
    find: &Find,
    circle: &Circle,
    whole: &Whole,
    path: &Path,
    levels: &[Level],
    children: Items<Listed>,
) -> Result<Vec<Response>, AllocError>
    ensures { IfOk result (λ responses. AllZip
        (IsChildResponse find.now circle.now whole.now path.now levels.now) children
        responses.items) }
{
    let sifted = sift(alloc, levels, circle)?;
    responses_below(alloc, find, circle, whole, path, levels, &sifted, children)
}

/// The response for the resource that was asked for, by its own level and those above it.
fn node_response(
    alloc: Global,
    find: &Find,
    circle: &Circle,
    whole: &Whole,
    own: &Level,
    above: &[Level],
    node: &Node,
) -> Result<Response, AllocError>
    ensures { IfOk result (IsResponseTo find.now circle.now whole.now own.now.path
        (node_subject own.now.path node.now) (effective_of (own.now ∷ above.now))) }
{
    let subject = node_subject(alloc, &own.path, node)?;
    response(alloc, find, circle, whole, own, above, &subject)
}

/// A response, and others after it. An error is want of memory.
fn in_front(first: Response, rest: Vec<Response>) -> Result<Items<Response>, AllocError>
    ensures { IfOk result (λ responses. responses ≡ first ∷ rest.items) }
{
    let mut responses = rest;
    responses.insert(0, first)?;
    Ok(Items::from_vec(responses))
}

/// The responses for a resource, by its levels, and for its children.
fn responses(
    alloc: Global,
    find: &Find,
    circle: &Circle,
    whole: &Whole,
    levels: &[Level],
    node: &Node,
    children: Items<Listed>,
) -> Result<Items<Response>, AllocError>
    ensures { IfOk result (AreRead find.now circle.now whole.now levels.now node.now children) }
{
    let Some((own, above)) = levels.split_first() else {
        return Ok(Items::new(alloc));
    };
    let rest = child_responses(alloc, find, circle, whole, &own.path, levels, children)?;
    let first = node_response(alloc, find, circle, whole, own, above, node)?;
    in_front(first, rest)
}

/// Whether the memberships have to be read.
fn asks_members(asked: &[Property]) -> bool
    ensures { result ≡ asks_members asked.now }
{
    is_asked(Property::GroupMemberSet, asked)
}

/// Whether the epoch has to be read.
fn asks_token(asked: &[Property]) -> bool
    ensures { result ≡ asks_token asked.now }
{
    is_asked(Property::SyncToken, asked)
}

/// The children, where they are asked for.
fn children_for<K: Keeper>(
    alloc: Global,
    keeper: &mut K,
    path: &Path,
    extent: Extent,
) -> Result<Items<Listed>, StoreFault>
    ensures { Reads (K.standing keeper.old) (K.standing keeper.new) result
        (λ o children. children ≡ children_for o path.now extent) }
{
    match extent {
        Extent::Resource => Ok(Items::new(alloc)),
        Extent::Children => keeper.children(alloc, path),
    }
}

/// Of which groups a listing tells the members.
#[derive(Drop)]
pub(crate) enum GroupsTold {
    /// Of none.
    NoGroup,
    /// Of one.
    OneGroup(Principal),
    /// Of all.
    AllGroups,
}

/// Of which groups a listing tells the members: of the resource where it is a group, of all where its children are.
fn groups_told(alloc: Global, path: &Path, extent: Extent) -> Result<GroupsTold, AllocError>
    ensures { IfOk result (λ groups. groups ≡ groups_told path.now extent) }
{
    match (path, extent) {
        (Path::Group(name), _) => Ok(GroupsTold::OneGroup(Principal::group(alloc, name)?)),
        (Path::Groups, Extent::Children) => Ok(GroupsTold::AllGroups),
        (Path::Groups, Extent::Resource) => Ok(GroupsTold::NoGroup),
        (
            Path::Root
            | Path::People
            | Path::Books
            | Path::Person(_)
            | Path::Book(_)
            | Path::Card(_, _),
            _,
        ) => Ok(GroupsTold::NoGroup),
    }
}

/// The direct memberships of groups, if they are asked for.
fn pairs_about<K: Keeper>(
    alloc: Global,
    keeper: &mut K,
    groups: &GroupsTold,
) -> Result<Pairs, StoreFault>
    ensures { Reads (K.standing keeper.old) (K.standing keeper.new) result
        (λ o pairs. pairs ≡ pairs_about o.pairs groups.now) }
{
    match groups {
        GroupsTold::NoGroup => Ok(Pairs::new(alloc)),
        GroupsTold::OneGroup(group) => keeper.members(alloc, group),
        GroupsTold::AllGroups => keeper.pairs(alloc),
    }
}

/// The direct memberships in order of the groups of which a listing tells, where they are asked for.
fn memberships_for<K: Keeper>(
    alloc: Global,
    keeper: &mut K,
    path: &Path,
    extent: Extent,
    asked: bool,
) -> Result<OrderedPairs, StoreFault>
    ensures { Reads (K.standing keeper.old) (K.standing keeper.new) result
        (λ o memberships. (asked ≡ true → set_of memberships ≡ pairs_about o.pairs
        (groups_told path.now extent)) ×
        (asked ≡ true → IsStrictlySortedBy membership_cmp memberships)) }
{
    if !asked {
        return Ok(OrderedPairs::none(alloc));
    }
    let groups = groups_told(alloc, path, extent)?;
    let pairs = pairs_about(alloc, keeper, &groups)?;
    Ok(OrderedPairs::from_pairs(&pairs)?)
}

/// The epoch, where it is asked for; else 0.
fn epoch_for<K: Keeper>(keeper: &mut K, asked: bool) -> Result<u64, StoreFault>
    ensures { Reads (K.standing keeper.old) (K.standing keeper.new) result
        (λ o epoch. asked ≡ true → epoch ≡ o.epoch) }
{
    if asked { keeper.epoch() } else { Ok(0) }
}

/// What properties ask of the whole Office, as far as it is asked for.
fn whole_for<K: Keeper>(
    alloc: Global,
    keeper: &mut K,
    path: &Path,
    extent: Extent,
    asked: &[Property],
) -> Result<Whole, StoreFault>
    ensures { Reads (K.standing keeper.old) (K.standing keeper.new) result
        (λ o whole. IsWholeRead o path.now extent asked.now whole) }
{
    let memberships = memberships_for(alloc, keeper, path, extent, asks_members(asked))?;
    let epoch = epoch_for(keeper, asks_token(asked))?;
    Ok(Whole { memberships, epoch })
}

/// What PROPFIND tells (RFC 4918, section 9.1): a response for the resource, and at depth 1 for each of its children,
/// in byte order of their names. Each is decided by itself: where the needed leaves are granted its properties are
/// told, in the order in which they are asked, and else the denial alone (own profile). `node` is the resource at the
/// path. An error is want of memory, or a store that failed.
///
/// Beside the lists of the resource it reads the children, the memberships of the groups of which it tells, and the
/// epoch at most once each, and nothing for a child. Entries above the children that can't apply to the caller are
/// sifted out once: a granted child costs at most a look at each other entry in force, a denied one a look at each, and
/// more only for what is told of it.
pub fn listing<K: Keeper>(
    alloc: Global,
    keeper: &mut K,
    circle: &Circle,
    path: &Path,
    node: &Node,
    find: &Find,
) -> Result<Items<Response>, StoreFault>
    ensures { Reads (K.standing keeper.old) (K.standing keeper.new) result
        (λ o responses. node_at o path.now ≡ Some node.now
        → AreResponses find.now circle.now o path.now responses) }
{
    let lists = keeper.lists(alloc, path)?;
    let children = children_for(alloc, keeper, path, find.extent)?;
    let asked = find.properties.as_slice();
    let whole = whole_for(alloc, keeper, path, find.extent, asked)?;
    Ok(responses(
        alloc,
        find,
        circle,
        &whole,
        lists.levels.as_slice(),
        node,
        children,
    )?)
}
