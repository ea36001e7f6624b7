//! The machine: it serves one request after the other.

ghost use Rattle.std.specs.Prelude.{◌≡◌, [], Ok, IfOk, OnOk, OnErr, None, Some, is_some, nat_lt};
ghost use Rattle.std.specs.FinMap.{get};
ghost use Rattle.std.specs.Option.{option_copied};
ghost use Rattle.book_rights.specs.Needs.{need_list, listed_others, listed_too};
ghost use Rattle.book_office.specs.Resources.{count_at, node_at};
ghost use Rattle.book_office.specs.Sound.{IsMapped};
ghost use Rattle.book_office_values.specs.declared.paths.Path.TheVariants as path;
ghost use Rattle.book_machine.specs.Asked.{destination_in};
ghost use Rattle.book_machine.specs.Asking.{IsWellFormed, Meets, MeetsAny, MeetsItems, MeetsPlan, MeetsSeen, StageAsks, TellsChecked, TellsCheckedEntry, TellsWhether};
ghost use Rattle.book_machine.specs.LeadingRuns.{AreWellFormed};
ghost use Rattle.book_machine.specs.Promises.{ServeAllPromise, ServeHidesUnread, ServePromise};
ghost use Rattle.book_machine.specs.Runs.{calls_of, name_of};
ghost use Rattle.book_machine.specs.SyncedCopies.{Synced};
ghost use Rattle.book_machine.specs.Stages.{at_node, at_unmapped, can_change, caller_of, delete_limits, keeps_limits, label_limits, limits_of, new_book_at, new_card, patch_limits, put_limits, ready_of, target_of, IsAclAnswer, IsBodyAnswer, IsGrantedPlan, IsKnownWho, IsListed, IsMembersAnswer, IsPatchAnswer, IsSuccess, protected_entries_at};
ghost use Rattle.book_machine.specs.Targets.{ready_seen, target_seen};
ghost use Rattle.book_office_listings.specs.Verdicts.{here_of, owner_at};
ghost use Rattle.book_machine.specs.Verdicts.{IsTarget, JudgesNeed, JudgesNeeds, needs_at, owned_by, owner_in, place_path};

use crate::allowed_methods::AllowedMethods;
use crate::asked::{Asked, asked_of, copy_of_entry};
use crate::entries_in_force::{judge, protected_in};
use crate::messages::{Content, Patch, Reply, Request};
use crate::plans::{Plan, Ready, Target};
use crate::refusals::{Refusal, refuse, refused};
use crate::stages::{
    acl_plan, allow_plan, can_change, card_plan, check_card, check_kind, check_suits, copy_plan,
    delete_plan, is_young, list_refusal, mkcol_plan, move_plan, patch_plan, path_of, place_path,
    principal_of, put_plan, replied, shape_at,
};
use book_limits::{LAST_NUMBER, MAX_BOOKS, MAX_CARDS, MAX_ENTRIES};
use book_lists::{Caller, Circle, Entry, Here, Name, Principal, Submitted, Who, check_edit};
use book_office::{Items, Keeper, Node, Path};
use book_office_listings::{Find, listing};
use book_rights::{LeafSet, Method, Need, Needs, Place, needs};
use std::alloc::{AllocError, Global};

/// The machine over a keeper.
#[derive(Drop)]
pub struct Machine<K> {
    /// What keeps the Office.
    pub keeper: K,
}

impl<K: Keeper> Machine<K> {
    /// A machine over the keeper. Takes no memory.
    pub fn new(keeper: K) -> Machine<K>
        ensures { result.keeper ≡ keeper }
    {
        Machine { keeper }
    }

    /// Gives the keeper back. Takes no memory.
    pub fn release(self) -> K
        ensures { result ≡ self.keeper }
    {
        let Machine { keeper } = self;
        keeper
    }

    /// The caller: nobody, or the person of that name.
    pub(crate) fn caller(&mut self, alloc: Global, name: Option<&str>) -> Result<Caller, Refusal>
        ensures { StageAsks K.standing self.old self.new result
            (λ o r. Meets r (caller_of o (option_copied name.entry))) }
    {
        let Some(text) = name else {
            return Ok(Caller::Nobody);
        };
        let Some(name) = Name::parse(alloc, text)? else {
            return Err(Refusal::UnknownCaller);
        };
        self.person(alloc, name)
    }

    /// The caller of a name: the person of that name.
    fn person(&mut self, alloc: Global, name: Name) -> Result<Caller, Refusal>
        ensures { StageAsks K.standing self.old self.new result
            (λ o r. Meets r (caller_of o (Some name))) }
    {
        let person = Principal::person(alloc, &name)?;
        let path = Path::Person(name);
        let told = self.keeper.has(alloc, &path);
        drop(path);
        match told? {
            true => Ok(Caller::Known(person)),
            false => Err(Refusal::UnknownCaller),
        }
    }

    /// Whether a book is there.
    pub(crate) fn has_book(&mut self, alloc: Global, book: &Name) -> Result<bool, Refusal>
        ensures { StageAsks K.standing self.old self.new result
            (λ o r. Meets r (Ok (is_some (get o.books book.now)))) }
    {
        let path = Path::Book(book.clone()?);
        Ok(self.keeper.has(alloc, &path)?)
    }

    /// A PUT at a path where nothing is mapped: the path of a card whose book is there.
    fn check_new_card(&mut self, alloc: Global, path: &Path) -> Result<(), Refusal>
        ensures { StageAsks K.standing self.old self.new result
            (λ o r. Meets r (new_card o path.now)) }
    {
        match path {
            Path::Card(book, _) => match self.has_book(alloc, book)? {
                true => Ok(()),
                false => Err(Refusal::NoParent),
            },
            Path::Book(_) => Err(Refusal::NotAllowed(AllowedMethods::OfNewBook)),
            Path::Root
            | Path::People
            | Path::Groups
            | Path::Books
            | Path::Person(_)
            | Path::Group(_) => Err(Refusal::NotFound),
        }
    }

    /// A MKCOL at a path where nothing is mapped: the path of a book.
    fn check_new_book(&mut self, alloc: Global, path: &Path) -> Result<(), Refusal>
        ensures { StageAsks K.standing self.old self.new result
            (λ o r. Meets r (new_book_at o path.now)) }
    {
        match path {
            Path::Book(_) => Ok(()),
            Path::Card(book, _) => match self.has_book(alloc, book)? {
                true => Err(Refusal::NotAllowed(AllowedMethods::OfNewCard)),
                false => Err(Refusal::NoParent),
            },
            Path::Root
            | Path::People
            | Path::Groups
            | Path::Books
            | Path::Person(_)
            | Path::Group(_) => Err(Refusal::NotFound),
        }
    }

    /// The path of a request at which nothing is mapped.
    fn check_unmapped(&mut self, alloc: Global, method: Method, path: &Path) -> Result<(), Refusal>
        ensures { StageAsks K.standing self.old self.new result
            (λ o r. Meets r (at_unmapped o method path.now)) }
    {
        match method {
            Method::Put => self.check_new_card(alloc, path),
            Method::Mkcol => self.check_new_book(alloc, path),
            Method::Get
            | Method::Head
            | Method::Options
            | Method::Propfind
            | Method::Proppatch
            | Method::Acl
            | Method::Copy
            | Method::Move
            | Method::Delete
            | Method::Report => Err(Refusal::NotFound),
        }
    }

    /// The path of a request, with what is mapped there.
    fn target_at<'r>(
        &mut self,
        alloc: Global,
        method: Method,
        path: &'r Path,
        node: Option<Node>,
    ) -> Result<Target<'r>, Refusal>
        ensures { StageAsks K.standing self.old self.new result
            (λ o r. MeetsSeen target_seen r (at_node o method path.now node)) }
    {
        match node {
            None => {
                self.check_unmapped(alloc, method, path)?;
                Ok(Target {
                    path,
                    node: None,
                    replaces: false,
                })
            }
            Some(node) => {
                check_kind(method, node.kind)?;
                Ok(Target {
                    path,
                    node: Some(node),
                    replaces: false,
                })
            }
        }
    }

    /// The path: what the request asks for. Its number is not looked up.
    fn target<'r>(&mut self, alloc: Global, request: &'r Request) -> Result<Target<'r>, Refusal>
        ensures { StageAsks K.standing self.old self.new result
            (λ o r. MeetsSeen target_seen r (target_of o request.now.method request.now.path)) }
    {
        let Some(path) = &request.path else {
            return Err(Refusal::NotFound);
        };
        let node = self.keeper.find_unnumbered(alloc, path)?;
        self.target_at(alloc, request.method, path, node)
    }

    /// The stages before the verdict.
    pub(crate) fn ready<'r>(
        &mut self,
        alloc: Global,
        name: Option<&str>,
        request: &'r Request,
    ) -> Result<Ready<'r>, Refusal>
        ensures { StageAsks K.standing self.old self.new result
            (λ o r. MeetsSeen ready_seen r (ready_of o (option_copied name.entry) request.now)) }
    {
        let caller = self.caller(alloc, name)?;
        let asked = asked_of(alloc, request.method, request)?;
        let target = match self.target(alloc, request) {
            Ok(target) => target,
            Err(refusal) => return refuse((caller, asked), refusal),
        };
        let mut ready = Ready {
            caller,
            asked,
            target,
        };
        if let Err(refusal) = check_suits(&ready.asked, &ready.target) {
            return refuse(ready, refusal);
        }
        match self.replaces(alloc, &ready.asked) {
            Ok(replaces) => {
                ready.target.replaces = replaces;
                Ok(ready)
            }
            Err(refusal) => refuse(ready, refusal),
        }
    }

    /// The owner of the resource at a path.
    fn owner(&mut self, alloc: Global, path: &Path) -> Result<Option<Principal>, Refusal>
        ensures { StageAsks K.standing self.old self.new result
            (λ o r. Meets r (Ok (owner_at o path.now))) }
    {
        match self.keeper.find(alloc, path)? {
            Some(Node { owner, .. }) => Ok(owner),
            None => Ok(None),
        }
    }

    /// The verdict on one need at a resource. The lists in force are told where it is not granted alone: then a denial
    /// names its entry by them.
    fn check_here(
        &mut self,
        alloc: Global,
        circle: &Circle,
        path: &Path,
        here: &Here,
        set: LeafSet,
    ) -> Result<(), Refusal>
        ensures { StageAsks K.standing self.old self.new result
            (λ o r. here.now ≡ here_of o path.now → JudgesNeed o circle.now path.now set r) }
    {
        match self.keeper.unless_granted(alloc, path, circle, here, set)? {
            None => Ok(()),
            Some(lists) => judge(alloc, lists.levels.as_slice(), circle, path, here, set),
        }
    }

    /// The verdict on one need at a path of which nothing is known yet.
    fn check_at(
        &mut self,
        alloc: Global,
        circle: &Circle,
        path: &Path,
        set: LeafSet,
    ) -> Result<(), Refusal>
        ensures { StageAsks K.standing self.old self.new result
            (λ o r. JudgesNeed o circle.now path.now set r) }
    {
        let principal = principal_of(alloc, path)?;
        let owner = self.owner(alloc, path)?;
        self.check_here(alloc, circle, path, &Here { owner, principal }, set)
    }

    /// The verdict on one need. What entries ask of the target is known, and its path is not copied.
    fn check_need(
        &mut self,
        alloc: Global,
        circle: &Circle,
        ready: &Ready<'_>,
        target: &Here,
        need: Need,
    ) -> Result<(), Refusal>
        ensures { StageAsks K.standing self.old self.new result
            (λ o r. target.now ≡ here_of o ready.now.target.path.now
            → JudgesNeed o circle.now (place_path
            (destination_in ready.now.asked) ready.now.target.path.now need.place) need.set r) }
    {
        if need.place == Place::Target {
            return self.check_here(alloc, circle, ready.target.path, target, need.set);
        }
        let path = place_path(ready, need.place)?;
        let verdict = self.check_at(alloc, circle, &path, need.set);
        drop(path);
        verdict
    }

    /// The verdict on a need, if there is one.
    fn check_any(
        &mut self,
        alloc: Global,
        circle: &Circle,
        ready: &Ready<'_>,
        target: &Here,
        need: Option<Need>,
    ) -> Result<(), Refusal>
        ensures { StageAsks K.standing self.old self.new result
            (λ o r. target.now ≡ here_of o ready.now.target.path.now
            → JudgesNeeds o circle.now (destination_in ready.now.asked) ready.now.target.path.now
            (listed_too need []) r) }
    {
        match need {
            Some(need) => self.check_need(alloc, circle, ready, target, need),
            None => Ok(()),
        }
    }

    /// The verdict on the needs after the first.
    fn check_others(
        &mut self,
        alloc: Global,
        circle: &Circle,
        ready: &Ready<'_>,
        target: &Here,
        others: Option<(Need, Option<Need>)>,
    ) -> Result<(), Refusal>
        ensures { StageAsks K.standing self.old self.new result
            (λ o r. target.now ≡ here_of o ready.now.target.path.now
            → JudgesNeeds o circle.now (destination_in ready.now.asked) ready.now.target.path.now
            (listed_others others) r) }
    {
        let Some((second, third)) = others else {
            return Ok(());
        };
        self.check_need(alloc, circle, ready, target, second)?;
        self.check_any(alloc, circle, ready, target, third)
    }

    /// The verdict on each need in turn.
    fn check_each(
        &mut self,
        alloc: Global,
        circle: &Circle,
        ready: &Ready<'_>,
        target: &Here,
        needs: Needs,
    ) -> Result<(), Refusal>
        ensures { StageAsks K.standing self.old self.new result
            (λ o r. target.now ≡ here_of o ready.now.target.path.now
            → JudgesNeeds o circle.now (destination_in ready.now.asked) ready.now.target.path.now
            (need_list needs) r) }
    {
        let Needs { first, others } = needs;
        self.check_need(alloc, circle, ready, target, first)?;
        self.check_others(alloc, circle, ready, target, others)
    }

    /// The verdict: each need of the request in turn. To save a copy, the owner of the target is moved out of its node
    /// while they are checked, and put back after them.
    fn check_needs(
        &mut self,
        alloc: Global,
        circle: &Circle,
        ready: &mut Ready<'_>,
    ) -> Result<(), Refusal>
        ensures judges { StageAsks K.standing self.old self.new result
            (λ o r. IsTarget o (target_seen ready.old.target)
            → JudgesNeeds o circle.now (destination_in ready.old.asked) ready.old.target.path.now
            (needs_at (ready_seen ready.old)) r) }
        ensures kept { ready.new ≡ ready.old }
    {
        let needs = needs(ready.asked.method(), shape_at(ready));
        let principal = principal_of(alloc, ready.target.path)?;
        let owner = take_owner(&mut ready.target.node);
        let here = Here { owner, principal };
        let verdict = self.check_each(alloc, circle, ready, &here, needs);
        put_owner(&mut ready.target.node, here.owner);
        verdict
    }

    /// Whether the number of a book can rise.
    pub(crate) fn can_change(&mut self, alloc: Global, book: &Name) -> Result<bool, Refusal>
        ensures { StageAsks K.standing self.old self.new result
            (λ o r. Meets r (Ok (can_change (node_at o (path.Book book.now))))) }
    {
        let path = Path::Book(book.clone()?);
        Ok(can_change(&self.keeper.find(alloc, &path)?))
    }

    /// Whether a path has fewer children than the most. They are counted only where one is to be added.
    fn has_room(&mut self, alloc: Global, path: &Path, most: usize) -> Result<bool, Refusal>
        ensures { StageAsks K.standing self.old self.new result
            (λ o r. Meets r (Ok (nat_lt (count_at o path.now) most))) }
    {
        Ok(self.keeper.has_room(alloc, path, most)?)
    }

    /// Whether a book has fewer cards than the most. Each card took a number of its own, so that they are counted only
    /// where the book has had as many changes as it may have cards.
    fn has_card_room(&mut self, alloc: Global, book: &Name) -> Result<bool, Refusal>
        ensures { StageAsks K.standing self.old self.new result
            (λ o r. Meets r (Ok (nat_lt (count_at o (path.Book book.now)) MAX_CARDS))) }
    {
        let path = Path::Book(book.clone()?);
        let node = self.keeper.find(alloc, &path)?;
        let young = is_young(&node);
        drop(node);
        if young {
            return Ok(true);
        }
        self.has_room(alloc, &path, MAX_CARDS)
    }

    /// Whether the epoch can rise.
    fn epoch_can_rise(&mut self) -> Result<bool, Refusal>
        ensures { StageAsks K.standing self.old self.new result
            (λ o r. Meets r (Ok (nat_lt o.epoch LAST_NUMBER))) }
    {
        Ok(self.keeper.epoch()? < LAST_NUMBER)
    }

    /// Whether the limits are kept where a label is set: a card's takes a number.
    fn keeps_label_limits(&mut self, alloc: Global, path: &Path) -> Result<bool, Refusal>
        ensures { StageAsks K.standing self.old self.new result
            (λ o r. Meets r (Ok (label_limits o path.now))) }
    {
        match path {
            Path::Card(book, _) => self.can_change(alloc, book),
            Path::Root
            | Path::People
            | Path::Groups
            | Path::Books
            | Path::Person(_)
            | Path::Group(_)
            | Path::Book(_) => Ok(true),
        }
    }

    /// Whether the limits are kept where a property is set.
    fn keeps_patch_limits(
        &mut self,
        alloc: Global,
        patch: &Patch,
        path: &Path,
    ) -> Result<bool, Refusal>
        ensures { StageAsks K.standing self.old self.new result
            (λ o r. Meets r (Ok (patch_limits o patch.now path.now))) }
    {
        match patch {
            Patch::DisplayName(_) => self.keeps_label_limits(alloc, path),
            Patch::GroupMembers(_) => self.epoch_can_rise(),
        }
    }

    /// Whether the limits are kept where a text is put.
    pub(crate) fn keeps_put_limits(
        &mut self,
        alloc: Global,
        path: &Path,
        mapped: bool,
    ) -> Result<bool, Refusal>
        ensures { StageAsks K.standing self.old self.new result
            (λ o r. Meets r (Ok (put_limits o path.now mapped))) }
    {
        match path {
            Path::Card(book, _) => {
                if !self.can_change(alloc, book)? {
                    return Ok(false);
                }
                if mapped {
                    return Ok(true);
                }
                self.has_card_room(alloc, book)
            }
            Path::Root
            | Path::People
            | Path::Groups
            | Path::Books
            | Path::Person(_)
            | Path::Group(_)
            | Path::Book(_) => Ok(true),
        }
    }

    /// Whether the limits are kept where a resource is removed.
    fn keeps_delete_limits(&mut self, alloc: Global, path: &Path) -> Result<bool, Refusal>
        ensures { StageAsks K.standing self.old self.new result
            (λ o r. Meets r (Ok (delete_limits o path.now))) }
    {
        match path {
            Path::Card(book, _) => self.can_change(alloc, book),
            Path::Book(_) => self.epoch_can_rise(),
            Path::Root
            | Path::People
            | Path::Groups
            | Path::Books
            | Path::Person(_)
            | Path::Group(_) => Ok(true),
        }
    }

    /// Whether the Office keeps its limits after the edit.
    fn keeps_limits(
        &mut self,
        alloc: Global,
        asked: &Asked,
        target: &Target<'_>,
    ) -> Result<bool, Refusal>
        ensures { StageAsks K.standing self.old self.new result
            (λ o r. Meets r (Ok (keeps_limits o asked.now target.now.path.now
            (is_some target.now.node) target.now.replaces))) }
    {
        match asked {
            Asked::Put(_) => self.keeps_put_limits(alloc, target.path, target.node.is_some()),
            Asked::Proppatch(patch) => self.keeps_patch_limits(alloc, patch, target.path),
            Asked::Acl(_) => self.epoch_can_rise(),
            Asked::Copy(to) => self.keeps_copy_limits(alloc, to, target.replaces),
            Asked::Move(to) => self.keeps_move_limits(alloc, target.path, to, target.replaces),
            Asked::Delete => self.keeps_delete_limits(alloc, target.path),
            Asked::Mkcol => self.has_room(alloc, &Path::Books, MAX_BOOKS),
            Asked::Get | Asked::Head | Asked::Options | Asked::Propfind(_) | Asked::Report(_) => Ok(
                true,
            ),
        }
    }

    /// The limits, which the Office keeps after the edit.
    fn check_limits(
        &mut self,
        alloc: Global,
        asked: &Asked,
        target: &Target<'_>,
    ) -> Result<(), Refusal>
        ensures { StageAsks K.standing self.old self.new result
            (λ o r. Meets r (limits_of o asked.now (target_seen target.now))) }
    {
        match self.keeps_limits(alloc, asked, target)? {
            true => Ok(()),
            false => Err(Refusal::Full),
        }
    }

    /// Whether a principal is there.
    pub(crate) fn is_mapped(
        &mut self,
        alloc: Global,
        principal: &Principal,
    ) -> Result<bool, Refusal>
        ensures { StageAsks K.standing self.old self.new result
            (λ o r. TellsWhether (IsMapped o principal.now) r) }
    {
        let path = path_of(alloc, principal)?;
        Ok(self.keeper.has(alloc, &path)?)
    }

    /// Each member is there.
    fn check_members(&mut self, alloc: Global, members: &[Principal]) -> Result<(), Refusal>
        ensures { StageAsks K.standing self.old self.new result
            (λ o r. MeetsAny (IsMembersAnswer o members.now) r) }
    {
        for member in members {
            if !self.is_mapped(alloc, member)? {
                return Err(Refusal::RecognizedPrincipal);
            }
        }
        Ok(())
    }

    /// Whether a form names no principal, or one that is there.
    fn is_known(&mut self, alloc: Global, who: &Option<Who>) -> Result<bool, Refusal>
        ensures { StageAsks K.standing self.old self.new result
            (λ o r. TellsWhether (IsKnownWho o who.now) r) }
    {
        match who {
            Some(Who::Href(principal)) => self.is_mapped(alloc, principal),
            None
            | Some(Who::Everyone)
            | Some(Who::Authenticated)
            | Some(Who::Unauthenticated)
            | Some(Who::Owner)
            | Some(Who::Own) => Ok(true),
        }
    }

    /// An entry as it is checked: without a form where its form names a principal that is not there.
    fn checked_entry(&mut self, alloc: Global, entry: &Submitted) -> Result<Submitted, Refusal>
        ensures { StageAsks K.standing self.old self.new result
            (λ o r. TellsCheckedEntry o entry.now r) }
    {
        let copy = copy_of_entry(entry)?;
        if self.is_known(alloc, &entry.who)? {
            return Ok(copy);
        }
        Ok(Submitted { who: None, ..copy })
    }

    /// A list as it is checked.
    fn checked_list(
        &mut self,
        alloc: Global,
        list: &[Submitted],
    ) -> Result<Items<Submitted>, Refusal>
        ensures { StageAsks K.standing self.old self.new result (λ o r. TellsChecked o list.now r) }
    {
        let mut checked = Items::new(alloc);
        for entry in list {
            let entry = self.checked_entry(alloc, entry)?;
            checked.push(entry)?;
        }
        Ok(checked)
    }

    /// The protected entries in force at a resource.
    fn protected(&mut self, alloc: Global, path: &Path) -> Result<Vec<Entry>, Refusal>
        ensures { StageAsks K.standing self.old self.new result
            (λ o r. MeetsItems r (protected_entries_at o path.now)) }
    {
        let lists = self.keeper.lists(alloc, path)?;
        Ok(protected_in(alloc, lists)?)
    }

    /// The list of an ACL: it has no fault at the resource. A list that is too long is refused before its principals
    /// are looked up.
    fn check_list(&mut self, alloc: Global, path: &Path, list: &[Submitted]) -> Result<(), Refusal>
        ensures { StageAsks K.standing self.old self.new result
            (λ o r. MeetsAny (IsAclAnswer o path.now list.now) r) }
    {
        if list.len() > MAX_ENTRIES {
            return Err(Refusal::LimitedNumberOfAces);
        }
        let checked = self.checked_list(alloc, list)?;
        let protected = self.protected(alloc, path)?;
        match check_edit(checked.as_slice(), protected.as_slice()) {
            Ok(()) => Ok(()),
            Err(fault) => Err(list_refusal(fault)),
        }
    }

    /// What a PROPPATCH sets: each member is there.
    fn check_patch(&mut self, alloc: Global, patch: &Patch) -> Result<(), Refusal>
        ensures { StageAsks K.standing self.old self.new result
            (λ o r. MeetsAny (IsPatchAnswer o patch.now) r) }
    {
        match patch {
            Patch::DisplayName(_) => Ok(()),
            Patch::GroupMembers(members) => self.check_members(alloc, members.as_slice()),
        }
    }

    /// The body of a request.
    fn check_body(&mut self, alloc: Global, asked: &Asked, path: &Path) -> Result<(), Refusal>
        ensures { StageAsks K.standing self.old self.new result
            (λ o r. MeetsAny (IsBodyAnswer o asked.now path.now) r) }
    {
        match asked {
            Asked::Put(text) => check_card(alloc, text),
            Asked::Proppatch(patch) => self.check_patch(alloc, patch),
            Asked::Acl(list) => self.check_list(alloc, path, list.as_slice()),
            Asked::Report(kind) => self.check_report(alloc, kind),
            Asked::Get
            | Asked::Head
            | Asked::Options
            | Asked::Propfind(_)
            | Asked::Copy(_)
            | Asked::Move(_)
            | Asked::Delete
            | Asked::Mkcol => Ok(()),
        }
    }

    /// What a PROPFIND tells: a listing of what is mapped at a path. A book's sync token has its number, so that the
    /// resource is asked for with it.
    fn listed(
        &mut self,
        alloc: Global,
        circle: &Circle,
        path: &Path,
        find: &Find,
    ) -> Result<Plan, Refusal>
        ensures { StageAsks K.standing self.old self.new result
            (λ o r. MeetsAny (IsListed o circle.now find.now path.now (node_at o path.now)) r) }
    {
        let Some(node) = self.keeper.find(alloc, path)? else {
            return Err(Refusal::NotFound);
        };
        let responses = listing(alloc, &mut self.keeper, circle, path, &node, find)?;
        Ok(replied(207, Content::Listing(responses), None))
    }

    /// The reply, and the edit that is to be made.
    fn success(&mut self, alloc: Global, circle: &Circle, ready: Ready<'_>) -> Result<Plan, Refusal>
        ensures { StageAsks K.standing self.old self.new result
            (λ o r. IsTarget o (target_seen ready.entry.target)
            → MeetsAny (IsSuccess o circle.now (ready_seen ready.entry)) r) }
    {
        let Ready {
            caller,
            asked,
            target,
        } = ready;
        match asked {
            Asked::Get | Asked::Head => card_plan(target.node),
            Asked::Options => allow_plan(target.path),
            Asked::Put(text) => put_plan(caller, text, target),
            Asked::Propfind(find) => self.listed(alloc, circle, target.path, &find),
            Asked::Proppatch(patch) => patch_plan(alloc, target.path, patch),
            Asked::Acl(list) => acl_plan(alloc, target.path, list),
            Asked::Copy(to) => copy_plan(caller, to, target),
            Asked::Move(to) => move_plan(to, target),
            Asked::Delete => delete_plan(target.path),
            Asked::Mkcol => mkcol_plan(caller, target.path),
            Asked::Report(kind) => self.reported(alloc, circle, target.path, &kind),
        }
    }

    /// The stages after a verdict that grants.
    fn granted(&mut self, alloc: Global, circle: &Circle, ready: Ready<'_>) -> Result<Plan, Refusal>
        ensures { StageAsks K.standing self.old self.new result
            (λ o r. IsTarget o (target_seen ready.entry.target)
            → MeetsAny (IsGrantedPlan o circle.now (ready_seen ready.entry)) r) }
    {
        if let Err(refusal) = self.check_body(alloc, &ready.asked, ready.target.path) {
            return refuse(ready, refusal);
        }
        if let Err(refusal) = self.check_limits(alloc, &ready.asked, &ready.target) {
            return refuse(ready, refusal);
        }
        self.success(alloc, circle, ready)
    }

    /// What is to be done for a request.
    fn plan(
        &mut self,
        alloc: Global,
        name: Option<&str>,
        request: &Request,
    ) -> Result<Plan, Refusal>
        ensures { StageAsks K.standing self.old self.new result
            (λ o r. MeetsPlan o (option_copied name.entry) request.now r) }
    {
        let mut ready = self.ready(alloc, name, request)?;
        let Ok(circle) = self.keeper.circle(alloc, &ready.caller) else {
            return refuse(ready, Refusal::Unavailable);
        };
        if let Err(refusal) = self.check_needs(alloc, &circle, &mut ready) {
            return refuse(ready, refusal);
        }
        self.granted(alloc, &circle, ready)
    }

    /// Serves one request.
    ///
    /// The caller is its bare name; none is nobody. The request is worked in this order: the caller, the shape, the
    /// path, the needs, the body, the limits, and then the edit. The reply is made before the edit, and nothing is
    /// allocated between the edit and the return. Each refusal leaves the Office as it was. A reply tells nothing of
    /// the labels and texts of cards that the caller may not read.
    pub fn serve(&mut self, alloc: Global, name: Option<&str>, request: &Request) -> Reply
        ensures served { ServePromise (K.standing self.old.keeper) (K.standing self.new.keeper)
            (option_copied name.entry) request.now result }
        ensures unseen { ServeHidesUnread (K.standing self.old.keeper) (K.standing self.new.keeper)
            (option_copied name.entry) request.now result }
        ensures well_formed { IsWellFormed request.now }
    {
        request.known();
        match self.plan(alloc, name, request) {
            Err(refusal) => refused(refusal),
            Ok(Plan { reply, edit }) => match edit {
                None => reply,
                Some(edit) => {
                    let made = self.keeper.act(alloc, &edit);
                    drop(edit);
                    match made {
                        Ok(()) => reply,
                        Err(_) => {
                            drop(reply);
                            refused(Refusal::Unavailable)
                        }
                    }
                }
            },
        }
    }

    /// Serves requests in order, each with the caller's bare name. All replies are reserved first: an error is want of
    /// memory for them, and none was served then.
    ///
    /// A copy that a caller keeps by its sync reports is what the caller may read of the book (RFC 6578, section 3),
    /// whatever others asked in between; and a token from before a change of access is refused.
    pub fn serve_all(
        &mut self,
        alloc: Global,
        calls: &[(Option<String>, Request)],
    ) -> Result<Vec<Reply>, AllocError>
        ensures served { IfOk result (λ replies. ServeAllPromise (K.standing self.old.keeper)
            (K.standing self.new.keeper) (calls_of calls.now) replies.items) }
        ensures copies { IfOk result (λ replies. Synced (K.standing self.old.keeper)
            (calls_of calls.now) replies.items) }
        ensures well_formed { OnOk result (AreWellFormed (calls_of calls.now)) }
        ensures err { OnErr result (self.new ≡ self.old) }
    {
        let mut replies = Vec::with_capacity(alloc, calls.len())?;
        for call in calls {
            let name = name_text(&call.0);
            let reply = self.serve(alloc, name, &call.1);
            replies.push_reserved(reply);
        }
        Ok(replies)
    }
}

/// The text of a name, if there is one.
fn name_text(name: &Option<String>) -> Option<&str>
    ensures { option_copied result ≡ name_of name.now }
{
    match name {
        Some(name) => Some(name.as_str()),
        None => None,
    }
}

/// Takes the owner out of what is mapped.
fn take_owner(node: &mut Option<Node>) -> Option<Principal>
    ensures owner { result ≡ owner_in node.old }
    ensures rest { node.new ≡ owned_by None node.old }
{
    match node {
        Some(node) => node.owner.take(),
        None => None,
    }
}

/// Puts an owner into what is mapped.
fn put_owner(node: &mut Option<Node>, owner: Option<Principal>)
    ensures { node.new ≡ owned_by owner node.old }
{
    if let Some(node) = node {
        node.owner = owner;
    }
}
