//! `reach` has the pairs of the closure after each of many edits of members, which a generator of numbers chooses.

ghost use Rattle.std.specs.Prelude.{◌<◌};

use crate::acts::Acts;
use crate::checks::check_fact;
use crate::new_tables::principal;
use crate::row_texts::{add, begin};
use book_lists::{Pairs, Principal, closure};
use book_office::Keeper;
use book_office_values::Items;
use book_tables::Tables;
use book_tables_opening::open;
use book_tables_rows::reach_rows;
use book_tables_schema::create;
use sqlite::{Connection, MemStore, Row};
use std::alloc::Global;
use std::process::Abort;

/// How many edits are chosen of each kind of office.
const EDITS: usize = 334;

const PERSONS: [&str; 2] = ["/people/ann", "/people/bob"];

const GROUPS: [&str; 4] = ["/groups/a", "/groups/b", "/groups/c", "/groups/d"];

/// Which groups may be members of a group.
#[derive(Clone, Copy)]
enum Nesting {
    /// None.
    Flat,
    /// Those after it.
    Descending,
    /// All, and the group itself.
    Cyclic,
}

fn may_have(nesting: Nesting, group: usize, member: usize) -> bool {
    match nesting {
        Nesting::Flat => false,
        Nesting::Descending => group < member,
        Nesting::Cyclic => true,
    }
}

/// Numbers that choose, each made of the one before it.
#[derive(Drop)]
struct Chooser {
    last: u64,
}

impl Chooser {
    /// The next choice: 75 times the number before it and 74, modulo 65,537, and of that the remainder.
    fn below(&mut self, count: usize) -> usize
        requires { 0 < count }
        ensures { result < count }
    {
        self.last = (self.last % 65_537 * 75 + 74) % 65_537;
        self.last as usize % count
    }
}

/// Members of a group: about half of the persons, and a third of the groups that it may have.
fn chosen(
    rt: &impl Abort,
    alloc: Global,
    chooser: &mut Chooser,
    nesting: Nesting,
    group: usize,
) -> Items<Principal> {
    let mut members = Items::new(alloc);
    for person in PERSONS {
        if chooser.below(2) == 0 {
            members
                .push(principal(rt, alloc, person))
                .expect(rt, "memory");
        }
    }
    for (at, member) in GROUPS.iter().enumerate() {
        if may_have(nesting, group, at) && chooser.below(3) == 0 {
            members
                .push(principal(rt, alloc, member))
                .expect(rt, "memory");
        }
    }
    members
}

/// A store with the persons and the groups.
fn new_tables(rt: &impl Abort, alloc: Global) -> Tables<MemStore> {
    let mut connection = Connection::open_in_memory(alloc).expect(rt, "memory");
    create(&mut connection).expect(rt, "a new store");
    for person in PERSONS {
        add(rt, &mut connection, person, 2, 2);
    }
    for group in GROUPS {
        add(rt, &mut connection, group, 3, 3);
    }
    open(alloc, connection).ok().expect(rt, "an Office")
}

fn check_row(rt: &impl Abort, alloc: Global, row: &Row, closed: &Pairs) {
    let group: String = row.get(0).expect(rt, "a text");
    let member: String = row.get(1).expect(rt, "a text");
    let group = principal(rt, alloc, group.as_str());
    let member = principal(rt, alloc, member.as_str());
    check_fact(rt, closed.has(&group, &member), "a pair");
}

/// The rows of `reach` are as many as these pairs, and each is one of them.
fn check_reach(
    rt: &impl Abort,
    alloc: Global,
    connection: &mut Connection<MemStore>,
    closed: &Pairs,
) {
    let mut transaction = begin(rt, connection);
    let rows = reach_rows(&mut transaction).expect(rt, "rows");
    drop(transaction);
    check_fact(rt, rows.len() == closed.len(), "as many rows");
    for row in &rows {
        check_row(rt, alloc, row, closed);
    }
}

/// Gives the tables back after one edit.
fn edited(
    rt: &impl Abort,
    alloc: Global,
    mut tables: Tables<MemStore>,
    chooser: &mut Chooser,
    nesting: Nesting,
) -> Tables<MemStore> {
    let group = chooser.below(4);
    let members = chosen(rt, alloc, chooser, nesting, group);
    let group = principal(rt, alloc, GROUPS[group]);
    tables
        .set_members(alloc, &group, &members)
        .expect(rt, "members");
    let pairs = tables.pairs(alloc).expect(rt, "pairs");
    let closed = closure(&pairs).expect(rt, "memory");
    let mut connection = tables.release();
    check_reach(rt, alloc, &mut connection, &closed);
    Tables::over(connection)
}

fn check_edits(rt: &impl Abort, alloc: Global, nesting: Nesting) {
    let mut tables = new_tables(rt, alloc);
    let mut chooser = Chooser { last: 1 };
    for _ in 0..EDITS {
        tables = edited(rt, alloc, tables, &mut chooser, nesting);
    }
    drop(tables);
}

const ANN: &str = "/people/ann";

const BOB: &str = "/people/bob";

const A: &str = "/groups/a";

const B: &str = "/groups/b";

const C: &str = "/groups/c";

/// A group, the members that it gets, and the pairs of `reach` then: ann comes below c by two ways, and goes from one of
/// them; then a and c are in a cycle, and then no more.
const STEPS: &[(&str, &[&str], &[(&str, &str)])] = &[
    (A, &[ANN], &[(A, ANN)]),
    (B, &[A], &[(A, ANN), (B, A), (B, ANN)]),
    (
        A,
        &[ANN, BOB],
        &[(A, ANN), (A, BOB), (B, A), (B, ANN), (B, BOB)],
    ),
    (A, &[ANN], &[(A, ANN), (B, A), (B, ANN)]),
    (
        C,
        &[A, B],
        &[(A, ANN), (B, A), (B, ANN), (C, A), (C, B), (C, ANN)],
    ),
    (B, &[], &[(A, ANN), (C, A), (C, B), (C, ANN)]),
    (
        A,
        &[ANN, C],
        &[
            (A, A),
            (A, B),
            (A, C),
            (A, ANN),
            (C, A),
            (C, B),
            (C, C),
            (C, ANN),
        ],
    ),
    (A, &[C], &[(A, A), (A, B), (A, C), (C, A), (C, B), (C, C)]),
    (A, &[C], &[(A, A), (A, B), (A, C), (C, A), (C, B), (C, C)]),
    (C, &[B, BOB], &[(A, B), (A, C), (A, BOB), (C, B), (C, BOB)]),
    (C, &[C], &[(A, C), (C, C)]),
];

fn pairs_of(rt: &impl Abort, alloc: Global, wanted: &[(&str, &str)]) -> Pairs {
    let mut pairs = Pairs::new(alloc);
    for (group, member) in wanted {
        let group = principal(rt, alloc, group);
        let member = principal(rt, alloc, member);
        pairs.add(group, member).expect(rt, "memory");
    }
    pairs
}

fn principals(rt: &impl Abort, alloc: Global, paths: &[&str]) -> Items<Principal> {
    let mut all = Items::new(alloc);
    for path in paths {
        all.push(principal(rt, alloc, path)).expect(rt, "memory");
    }
    all
}

/// Gives the tables back after one step.
fn stepped(
    rt: &impl Abort,
    alloc: Global,
    mut tables: Tables<MemStore>,
    group: &str,
    members: &[&str],
    wanted: &[(&str, &str)],
) -> Tables<MemStore> {
    let group = principal(rt, alloc, group);
    let members = principals(rt, alloc, members);
    let set = tables.set_members(alloc, &group, &members);
    set.expect(rt, "members");
    let wanted = pairs_of(rt, alloc, wanted);
    let mut connection = tables.release();
    check_reach(rt, alloc, &mut connection, &wanted);
    Tables::over(connection)
}

#[test]
fn reach_follows_members_by_two_ways_and_in_a_cycle(rt: HostRuntime) {
    let alloc = rt.alloc();
    let mut tables = new_tables(&rt, alloc);
    for (group, members, wanted) in STEPS {
        tables = stepped(&rt, alloc, tables, group, members, wanted);
    }
    drop(tables);
}

#[test]
fn reach_is_the_closure_of_groups_of_persons(rt: HostRuntime) {
    check_edits(&rt, rt.alloc(), Nesting::Flat);
}

#[test]
fn reach_is_the_closure_of_nested_groups(rt: HostRuntime) {
    check_edits(&rt, rt.alloc(), Nesting::Descending);
}

#[test]
fn reach_is_the_closure_of_groups_in_cycles(rt: HostRuntime) {
    check_edits(&rt, rt.alloc(), Nesting::Cyclic);
}
