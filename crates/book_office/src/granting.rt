//! Whether the entries in force grant a set, by one scan over lists where they lie.

ghost use Rattle.std.specs.Prelude.{◌≡◌, ◌↔◌, ◌∷◌, ◌++◌, [], true, option_map, unwrap_or};
ghost use Rattle.std.specs.List.{flat_map};
ghost use Rattle.book_lists.specs.Decisions.{IsAllowed};
ghost use Rattle.book_lists.specs.Deciders.{IfJudged, IsJudged};
ghost use Rattle.book_lists.specs.Readings.{IsAllowedRead, read_by};
ghost use Rattle.book_office.specs.InForce.{in_force, in_force_at, list_in, lists_in};
ghost use Rattle.book_office.specs.Levels.{level_at};
ghost use Rattle.book_office.specs.Resources.{Resource, card_in};
ghost use Rattle.book_office_values.specs.Paths.{levels};
ghost use Rattle.book_office_values.specs.declared.paths.Path.TheVariants as paths;

use crate::nodes::Level;
use crate::reads::{own_list, protected_list};
use book_lists::{Circle, Deciders, Entry, Here, Name, Outcome};
use book_office_values::{Book, Office, Path};
use book_rights::LeafSet;

/// Whether all of the need is granted by what the scan has come over.
fn is_granted(deciders: &Deciders) -> bool
    ensures { IfJudged deciders.now (λ need readings.
        (result ≡ true) ↔ IsAllowedRead readings need) }
{
    match deciders.outcome() {
        Outcome::Allowed => true,
        Outcome::Denied { .. } => false,
    }
}

/// The protected list of a level, or its own list.
fn list_in(level: &Level, protected: bool) -> &[Entry]
    ensures { result.now ≡ list_in protected level.now }
{
    if protected {
        level.protected.as_slice()
    } else {
        level.own.as_slice()
    }
}

/// Goes over the lists of one kind of levels in turn.
fn over_levels(
    levels: &[Level],
    protected: bool,
    circle: &Circle,
    here: &Here,
    deciders: &mut Deciders,
)
    ensures { IfJudged deciders.old (λ need readings. IsJudged need
        (readings ++ read_by circle.now here.now (lists_in protected levels.now)) deciders.new) }
{
    for level in levels {
        deciders.judge_over(list_in(level, protected), circle, here);
    }
}

/// Whether the lists of these levels grant the set.
pub(crate) fn grant(levels: &[Level], circle: &Circle, here: &Here, set: LeafSet) -> bool
    ensures { (result ≡ true) ↔ IsAllowed (in_force levels.now) circle.now here.now set }
{
    let mut deciders = Deciders::start(set);
    over_levels(levels, true, circle, here, &mut deciders);
    over_levels(levels, false, circle, here, &mut deciders);
    is_granted(&deciders)
}

/// The protected list that stands at a path, or the own list.
fn list_at<'a>(office: &'a Office, path: &Path, protected: bool) -> &'a [Entry]
    ensures { result.now ≡ list_in protected (level_at office.now path.now) }
{
    let list = if protected {
        protected_list(office, path)
    } else {
        own_list(office, path)
    };
    match list {
        Some(list) => list.as_slice(),
        None => &[],
    }
}

/// Goes over a list.
fn over_list(list: &[Entry], circle: &Circle, here: &Here, deciders: &mut Deciders)
    ensures { IfJudged deciders.old (λ need readings.
        IsJudged need (readings ++ read_by circle.now here.now list.now) deciders.new) }
{
    if !list.is_empty() {
        deciders.judge_over(list, circle, here);
    }
}

/// Goes over lists in turn.
fn over_lists(lists: &[&[Entry]], circle: &Circle, here: &Here, deciders: &mut Deciders)
    ensures { IfJudged deciders.old (λ need readings. IsJudged need
        (readings ++ read_by circle.now here.now (flat_map (λ l. l.now) lists.now)) deciders.new) }
{
    for list in lists {
        over_list(list, circle, here, deciders);
    }
}

/// Whether the protected lists and then the own lists grant the set.
fn grant_in(
    protected: &[&[Entry]],
    own: &[&[Entry]],
    circle: &Circle,
    here: &Here,
    set: LeafSet,
) -> bool
    ensures { (result ≡ true) ↔ IsAllowed
        (flat_map (λ l. l.now) protected.now ++ flat_map (λ l. l.now) own.now)
        circle.now here.now set }
{
    let mut deciders = Deciders::start(set);
    over_lists(protected, circle, here, &mut deciders);
    over_lists(own, circle, here, &mut deciders);
    is_granted(&deciders)
}

/// The own list of the card that has a name in a book.
fn own_in<'a>(book: &'a Book, name: &Name) -> &'a [Entry]
    ensures own { result.now ≡ unwrap_or
        (option_map (λ (r : Resource). r.own) (card_in book.now name.now)) [] }
    ensures protected { unwrap_or (option_map (λ (r : Resource). r.protected)
        (card_in book.now name.now)) [] ≡ [] }
{
    match book.cards.get(name) {
        Some(card) => card.own.as_slice(),
        None => &[],
    }
}

/// Whether the lists at the path of a card and at each of its ancestors grant the set. Its book is looked up once.
fn grant_at_card(
    office: &Office,
    book: &Name,
    name: &Name,
    circle: &Circle,
    here: &Here,
    set: LeafSet,
) -> bool
    ensures { (result ≡ true) ↔ IsAllowed
        (in_force_at office.now (paths.Card book.now name.now)) circle.now here.now set }
{
    let Office {
        root,
        books_home,
        ..
    } = office;
    match office.books.get(book) {
        Some(found) => grant_in(
            &[
                found.properties.protected.as_slice(),
                books_home.protected.as_slice(),
                root.protected.as_slice(),
            ],
            &[
                own_in(found, name),
                found.properties.own.as_slice(),
                books_home.own.as_slice(),
                root.own.as_slice(),
            ],
            circle,
            here,
            set,
        ),
        None => grant_in(
            &[books_home.protected.as_slice(), root.protected.as_slice()],
            &[books_home.own.as_slice(), root.own.as_slice()],
            circle,
            here,
            set,
        ),
    }
}

/// Whether the lists at a path, at its home and at the root grant the set.
fn grant_below(
    office: &Office,
    path: &Path,
    home: &Path,
    circle: &Circle,
    here: &Here,
    set: LeafSet,
) -> bool
    requires { levels path.now ≡ path.now ∷ home.now ∷ paths.Root ∷ [] }
    ensures { (result ≡ true) ↔ IsAllowed
        (in_force_at office.now path.now) circle.now here.now set }
{
    let root = &office.root;
    grant_in(
        &[
            list_at(office, path, true),
            list_at(office, home, true),
            root.protected.as_slice(),
        ],
        &[
            list_at(office, path, false),
            list_at(office, home, false),
            root.own.as_slice(),
        ],
        circle,
        here,
        set,
    )
}

/// Whether the lists at the path of a home and at the root grant the set.
fn grant_home(office: &Office, path: &Path, circle: &Circle, here: &Here, set: LeafSet) -> bool
    requires { levels path.now ≡ path.now ∷ paths.Root ∷ [] }
    ensures { (result ≡ true) ↔ IsAllowed
        (in_force_at office.now path.now) circle.now here.now set }
{
    let root = &office.root;
    grant_in(
        &[list_at(office, path, true), root.protected.as_slice()],
        &[list_at(office, path, false), root.own.as_slice()],
        circle,
        here,
        set,
    )
}

/// Whether the lists at a path and at each of its ancestors grant the set. Takes no memory.
pub(crate) fn grant_at(
    office: &Office,
    path: &Path,
    circle: &Circle,
    here: &Here,
    set: LeafSet,
) -> bool
    ensures { (result ≡ true) ↔ IsAllowed
        (in_force_at office.now path.now) circle.now here.now set }
{
    match path {
        Path::Root => grant_in(
            &[office.root.protected.as_slice()],
            &[office.root.own.as_slice()],
            circle,
            here,
            set,
        ),
        Path::People | Path::Groups | Path::Books => grant_home(office, path, circle, here, set),
        Path::Person(_) => grant_below(office, path, &Path::People, circle, here, set),
        Path::Group(_) => grant_below(office, path, &Path::Groups, circle, here, set),
        Path::Book(_) => grant_below(office, path, &Path::Books, circle, here, set),
        Path::Card(book, name) => grant_at_card(office, book, name, circle, here, set),
    }
}
