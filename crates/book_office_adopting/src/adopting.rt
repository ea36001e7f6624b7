//! The adopting of a policy in memory: what the Office becomes is made aside, and then put in its place.

ghost use Rattle.std.specs.Prelude.{◌≡◌, ◌≢◌, ◌++◌, ℕ, ◌+◌, ◌^◌, ◌<◌, List, [], is_some, unwrap_or, codes, IfOk, IfSome, IfNone, OnOk, OnErr};
ghost use Rattle.std.specs.FinMap.{empty, get, entries};
ghost use Rattle.std.specs.Option.{option_copied};
ghost use Rattle.book_office_adopting.specs.Adopting.{adopt, adopted_pairs, adoption_of, is_group_of, or_else, taken_over};
ghost use Rattle.book_office_values.specs.Names.{changed_at};
ghost use Rattle.book_office_adopting.specs.TakingOver.{bare, bare_book, bare_books, fresh_book, kept_pairs, with_lists_taken, moved, new_properties, old_properties, all_inserted, relabelled, reowned, with_contents};

use crate::comparing::same_but_cards;
use book_lists::{Entry, Membership, Name, Pairs, Principal};
use book_office_values::{Book, Changes, Items, NameMap, Office, Properties, Text};
use book_policy_values::{Policy, PolicyBook};
use std::alloc::{AllocError, Global};
use std::mem;

/// Whether adopting a policy changes anything, and how many books there are then.
#[derive(Clone, Copy, Debug, PartialEq, Eq)]
pub struct Adoption {
    /// Whether the Office is then another than before.
    pub changed: bool,
    /// How many books it then has.
    pub books: usize,
}

/// The root and the homes.
#[derive(Drop)]
struct Homes {
    root: Properties,
    people: Properties,
    groups_home: Properties,
    books_home: Properties,
}

/// The text of a member's path.
fn member_text(alloc: Global, home: &str, name: &Name) -> Result<Text, AllocError>
    ensures { IfOk result (λ at. at ≡ home.now ++ name.now) }
{
    let mut text = String::from_str(alloc, home)?;
    text.push_str(name.text())?;
    Ok(Text::from_string(text))
}

/// A list of the policy, or the list that was there where the policy has none.
fn list_or(list: Option<&Items<Entry>>, old: &Items<Entry>) -> Result<Items<Entry>, AllocError>
    ensures { IfOk result (λ new. new ≡ or_else (unwrap_or (option_copied list.entry) []) old.now) }
{
    match list {
        Some(list) => {
            if list.len() > 0 {
                list.clone()
            } else {
                old.clone()
            }
        }
        None => old.clone(),
    }
}

/// A place with this owner, this label, and the lists that an old one has under the policy.
fn listed_principal(
    alloc: Global,
    policy: &Policy,
    at: &Text,
    owner: Option<Principal>,
    label: Text,
    old: &Properties,
) -> Result<Properties, AllocError>
    ensures { IfOk result (λ properties. properties ≡ with_lists_taken policy.now at.now
        (record old.now { owner = owner; label = label })) }
{
    let none: Items<Entry> = Items::new(alloc);
    let protected = list_or(policy.protected_at(at), &none)?;
    let own = list_or(policy.own_at(at), &old.own)?;
    Ok(Properties {
        owner,
        label,
        protected,
        own,
    })
}

/// The label that a place has under the policy.
fn label_of(properties: &Properties, label: Option<&Text>) -> Result<Text, AllocError>
    ensures { IfOk result (λ text. text ≡
        (relabelled (option_copied label.entry) properties.now).label) }
{
    match label {
        Some(label) => label.clone(),
        None => properties.label.clone(),
    }
}

/// A person or a group that the policy names, as a new one.
fn new_principal(
    alloc: Global,
    policy: &Policy,
    home: &str,
    name: &Name,
    label: &Text,
) -> Result<Properties, AllocError>
    ensures { IfOk result (λ properties. properties ≡ new_properties policy.now home.now name.now
        label.now) }
{
    let at = member_text(alloc, home, name)?;
    let label = label.clone()?;
    let new = Properties::empty(alloc, None);
    listed_principal(alloc, policy, &at, None, label, &new)
}

/// The persons or groups that the policy names, as new ones.
fn new_principals(
    alloc: Global,
    policy: &Policy,
    home: &str,
    labels: &NameMap<Text>,
) -> Result<NameMap<Properties>, AllocError>
    ensures { IfOk result (λ principals. principals ≡ all_inserted
        (new_properties policy.now home.now) empty (entries labels.now)) }
{
    let mut principals = NameMap::new(alloc);
    for (name, label) in labels.iter() {
        let key = name.clone()?;
        let properties = new_principal(alloc, policy, home, name, label)?;
        principals.insert(key, properties)?;
    }
    Ok(principals)
}

/// What a person or a group that is there becomes.
fn old_properties_of(
    alloc: Global,
    policy: &Policy,
    home: &str,
    labels: &NameMap<Text>,
    name: &Name,
    properties: &Properties,
) -> Result<Properties, AllocError>
    ensures { IfOk result (λ new. new ≡ old_properties policy.now home.now labels.now name.now
        properties.now) }
{
    let at = member_text(alloc, home, name)?;
    let label = label_of(properties, labels.get(name))?;
    let owner = properties.owner.clone()?;
    listed_principal(alloc, policy, &at, owner, label, properties)
}

/// Puts the persons or groups that are there in the places of new ones.
fn put_principals(
    alloc: Global,
    policy: &Policy,
    home: &str,
    labels: &NameMap<Text>,
    principals: &mut NameMap<Properties>,
    old: &NameMap<Properties>,
) -> Result<(), AllocError>
    ensures { OnOk result (principals.new ≡ all_inserted
        (old_properties policy.now home.now labels.now) principals.old (entries old.now)) }
{
    for (name, properties) in old.iter() {
        let properties = old_properties_of(alloc, policy, home, labels, name, properties)?;
        principals.insert(name.clone()?, properties)?;
    }
    Ok(())
}

/// A book with this place, and no cards.
fn bare(alloc: Global, properties: Properties) -> Book
    ensures { result ≡ record {
      properties = properties;
      cards = empty;
      changes = record
          { number = 0; last = empty };
    } }
{
    Book {
        properties,
        cards: NameMap::new(alloc),
        changes: Changes::new(alloc),
    }
}

/// A book that the policy names, as a new one.
fn fresh_book_of(
    alloc: Global,
    policy: &Policy,
    name: &Name,
    named: &PolicyBook,
) -> Result<Book, AllocError>
    ensures { IfOk result (λ book. book ≡ fresh_book policy.now name.now named.now) }
{
    let at = member_text(alloc, "/books/", name)?;
    let owner = named.owner.clone()?;
    let label = named.label.clone()?;
    let new = Properties::empty(alloc, None);
    let properties = listed_principal(alloc, policy, &at, owner, label, &new)?;
    Ok(bare(alloc, properties))
}

/// The books that the policy names, as new ones.
fn new_books(
    alloc: Global,
    policy: &Policy,
    named: &NameMap<PolicyBook>,
) -> Result<NameMap<Book>, AllocError>
    ensures { IfOk result (λ books. books ≡ all_inserted (fresh_book policy.now) empty
        (entries named.now)) }
{
    let mut books = NameMap::new(alloc);
    for (name, book) in named.iter() {
        let key = name.clone()?;
        let book = fresh_book_of(alloc, policy, name, book)?;
        books.insert(key, book)?;
    }
    Ok(books)
}

/// The owner that a place has under the policy.
fn owner_of(
    properties: &Properties,
    named: Option<&PolicyBook>,
) -> Result<Option<Principal>, AllocError>
    ensures { IfOk result (λ owner. owner ≡
        (reowned (option_copied named.entry) properties.now).owner) }
{
    match named {
        Some(named) => named.owner.clone(),
        None => properties.owner.clone(),
    }
}

/// The label that a book has under the policy.
fn book_label_of(properties: &Properties, named: Option<&PolicyBook>) -> Result<Text, AllocError>
    ensures { IfOk result (λ label. label ≡
        (reowned (option_copied named.entry) properties.now).label) }
{
    match named {
        Some(named) => named.label.clone(),
        None => properties.label.clone(),
    }
}

/// What a book that is there becomes, without its cards.
fn bare_book_of(
    alloc: Global,
    policy: &Policy,
    named: &NameMap<PolicyBook>,
    name: &Name,
    book: &Book,
) -> Result<Book, AllocError>
    requires { named.now ≡ policy.now.books }
    ensures { IfOk result (λ new. new ≡ bare_book policy.now name.now book.now) }
{
    let at = member_text(alloc, "/books/", name)?;
    let owner = owner_of(&book.properties, named.get(name))?;
    let label = book_label_of(&book.properties, named.get(name))?;
    let properties = listed_principal(alloc, policy, &at, owner, label, &book.properties)?;
    Ok(bare(alloc, properties))
}

/// Puts the books that are there in the places of new ones, without their cards.
fn put_books(
    alloc: Global,
    policy: &Policy,
    named: &NameMap<PolicyBook>,
    books: &mut NameMap<Book>,
    old: &NameMap<Book>,
) -> Result<(), AllocError>
    requires { named.now ≡ policy.now.books }
    ensures { OnOk result (books.new ≡ all_inserted (bare_book policy.now) books.old
        (entries old.now)) }
{
    for (name, book) in old.iter() {
        let key = name.clone()?;
        let book = bare_book_of(alloc, policy, named, name, book)?;
        books.insert(key, book)?;
    }
    Ok(())
}

/// Gives the book of a name the cards and changes of another, if there is one.
fn give_contents(books: &mut NameMap<Book>, name: &Name, old: Book)
    ensures { books.new ≡ changed_at (with_contents old) books.old name.now }
{
    let Book {
        properties: _,
        cards,
        changes,
    } = old;
    if let Some(book) = books.get_mut(name) {
        book.cards = cards;
        book.changes = changes;
    }
}

/// Moves the cards and changes of books to the books of their names. No card is copied.
fn move_contents(books: &mut NameMap<Book>, old: NameMap<Book>)
    ensures { books.new ≡ moved books.old (entries old) }
{
    for (name, book) in old.into_entries() {
        give_contents(books, &name, book);
    }
}

/// Whether the principal is a group of the policy. An error is want of memory.
pub fn is_group(alloc: Global, policy: &Policy, principal: &Principal) -> Result<bool, AllocError>
    ensures { IfOk result (λ is. is ≡ is_group_of policy.now principal.now) }
{
    policy.known();
    let Some(rest) = after_groups(principal.text()) else {
        return Ok(false);
    };
    let Some(name) = Name::parse(alloc, rest)? else {
        return Ok(false);
    };
    Ok(has_group(policy, &name))
}

/// Whether the policy has a group of this name.
fn has_group(policy: &Policy, name: &Name) -> bool
    ensures { result ≡ is_some (get policy.now.groups name.now) }
{
    policy.tables().groups.get(name).is_some()
}

/// What follows the home of the groups, if the text begins with it.
fn after_groups(text: &str) -> Option<&str>
    ensures some { IfSome result (λ rest. text.now ≡ codes "/groups/" ++ rest.now) }
    ensures none { IfNone result ((rest : List ℕ) → text.now ≢ codes "/groups/" ++ rest) }
{
    text.strip_prefix("/groups/")
}

/// Adds the pairs of other groups than the policy's.
fn keep_pairs(
    alloc: Global,
    policy: &Policy,
    pairs: &mut Pairs,
    old: Vec<Membership>,
) -> Result<(), AllocError>
    ensures { OnOk result (pairs.new ≡ kept_pairs policy.now pairs.old old.items) }
{
    for pair in old {
        let Membership { group, member } = pair;
        if !is_group(alloc, policy, &group)? {
            pairs.add(group, member)?;
        }
    }
    Ok(())
}

/// The direct members of all groups under the policy.
fn pairs_under(alloc: Global, policy: &Policy, old: &Pairs) -> Result<Pairs, AllocError>
    ensures { IfOk result (λ pairs. pairs ≡ adopted_pairs policy.now old.now) }
{
    let mut pairs = policy.tables().members.clone()?;
    keep_pairs(alloc, policy, &mut pairs, old.list()?)?;
    Ok(pairs)
}

/// The root or a home under the policy.
fn home_under(
    alloc: Global,
    policy: &Policy,
    at: &str,
    properties: &Properties,
) -> Result<Properties, AllocError>
    ensures { IfOk result (λ new. new ≡ with_lists_taken policy.now at.now properties.now) }
{
    let at = Text::copy_of(alloc, at)?;
    let owner = properties.owner.clone()?;
    let label = properties.label.clone()?;
    listed_principal(alloc, policy, &at, owner, label, properties)
}

/// The root and the homes under the policy.
fn homes_under(alloc: Global, policy: &Policy, office: &Office) -> Result<Homes, AllocError>
    ensures { IfOk result (λ homes. homes ≡ record {
      root = with_lists_taken policy.now (codes "/") office.now.root;
      people = with_lists_taken policy.now (codes "/people") office.now.people;
      groups_home = with_lists_taken policy.now (codes "/groups") office.now.groups_home;
      books_home = with_lists_taken policy.now (codes "/books") office.now.books_home;
    }) }
{
    Ok(Homes {
        root: home_under(alloc, policy, "/", &office.root)?,
        people: home_under(alloc, policy, "/people", &office.people)?,
        groups_home: home_under(alloc, policy, "/groups", &office.groups_home)?,
        books_home: home_under(alloc, policy, "/books", &office.books_home)?,
    })
}

/// The persons under the policy.
fn persons_under(
    alloc: Global,
    policy: &Policy,
    office: &Office,
) -> Result<NameMap<Properties>, AllocError>
    ensures { IfOk result (λ persons. persons ≡ (taken_over policy.now office.now).persons) }
{
    let labels = &policy.tables().persons;
    let mut persons = new_principals(alloc, policy, "/people/", labels)?;
    put_principals(
        alloc,
        policy,
        "/people/",
        labels,
        &mut persons,
        &office.persons,
    )?;
    Ok(persons)
}

/// The groups under the policy.
fn groups_under(
    alloc: Global,
    policy: &Policy,
    office: &Office,
) -> Result<NameMap<Properties>, AllocError>
    ensures { IfOk result (λ groups. groups ≡ (taken_over policy.now office.now).groups) }
{
    let labels = &policy.tables().groups;
    let mut groups = new_principals(alloc, policy, "/groups/", labels)?;
    put_principals(
        alloc,
        policy,
        "/groups/",
        labels,
        &mut groups,
        &office.groups,
    )?;
    Ok(groups)
}

/// The books under the policy, without their cards and changes.
fn books_under(alloc: Global, policy: &Policy, office: &Office) -> Result<NameMap<Book>, AllocError>
    ensures { IfOk result (λ books. books ≡ bare_books (taken_over policy.now office.now).books) }
{
    let named = &policy.tables().books;
    let mut books = new_books(alloc, policy, named)?;
    put_books(alloc, policy, named, &mut books, &office.books)?;
    Ok(books)
}

/// What an Office becomes when it takes over a policy, without cards and changes, and with its epoch as it was. An error is
/// want of memory.
pub fn office_under(alloc: Global, policy: &Policy, office: &Office) -> Result<Office, AllocError>
    ensures { IfOk result (λ new. new ≡ bare (taken_over policy.now office.now)) }
{
    let pairs = pairs_under(alloc, policy, &office.pairs)?;
    let persons = persons_under(alloc, policy, office)?;
    let groups = groups_under(alloc, policy, office)?;
    let books = books_under(alloc, policy, office)?;
    let Homes {
        root,
        people,
        groups_home,
        books_home,
    } = homes_under(alloc, policy, office)?;
    Ok(Office {
        root,
        people,
        groups_home,
        books_home,
        persons,
        groups,
        books,
        pairs,
        epoch: office.epoch,
    })
}

/// Whether adopting a policy changes anything, and how many books there are then. An error is want of memory.
///
/// It takes a number of steps that grows with the policy and the resources other than cards, and for each a number of
/// comparisons that grows with the logarithm of their number.
pub fn adoption_of(alloc: Global, office: &Office, policy: &Policy) -> Result<Adoption, AllocError>
    ensures { IfOk result (λ told. told ≡ adoption_of policy.now office.now) }
{
    let new = office_under(alloc, policy, office)?;
    let told = same_but_cards(office, &new);
    let books = new.books.len();
    drop(new);
    let same = told?;
    Ok(Adoption {
        changed: !same,
        books,
    })
}

/// Puts another Office in the place of this one, with this epoch. The books keep their cards and changes; no card is
/// copied.
fn replace(office: &mut Office, new: Office, epoch: u64)
    ensures { office.new ≡ record new {
      books = moved new.books
          (entries office.old.books);
      epoch = epoch;
    } }
{
    let old = mem::replace(office, new);
    move_contents(&mut office.books, old.books);
    office.epoch = epoch;
}

/// Adopts a policy. An error is want of memory; the Office is then as it was. The epoch of an Office that keeps the limits
/// is at most 2^53 - 1, and can rise.
///
/// It takes as many steps as `adoption_of`. No card is visited.
pub fn adopt_policy(alloc: Global, office: &mut Office, policy: &Policy) -> Result<(), AllocError>
    requires { office.old.epoch + 1 < 2 ^ 64 }
    ensures ok { OnOk result (office.new ≡ adopt policy.now office.old) }
    ensures err { OnErr result (office.new ≡ office.old) }
{
    let new = office_under(alloc, policy, office)?;
    match same_but_cards(office, &new) {
        Ok(false) => {
            let epoch = office.epoch + 1;
            replace(office, new, epoch);
            Ok(())
        }
        Ok(true) => {
            drop(new);
            Ok(())
        }
        Err(refused) => {
            drop(new);
            Err(refused)
        }
    }
}
