//! How often each reply was made.

ghost use Rattle.std.specs.Prelude.{◌≡◌, ◌<◌, ◌≤◌, length};
ghost use Rattle.book_desk_metrics.specs.Counting as spec;

use book_rights::{Leaf, Method, Privilege};

/// The statuses that replies have (RFC 9110, section 15; RFC 4918, section 11; RFC 6585, section 5).
pub(crate) const STATUSES: [u16; 16] = [
    200, 201, 204, 207, 400, 403, 404, 405, 409, 412, 413, 415, 431, 501, 503, 507,
];

/// A reply, as it is counted.
#[derive(Clone, Copy)]
pub struct Told {
    /// The method of the request; none where none was read.
    pub method: Option<Method>,
    /// The status.
    pub status: u16,
    /// The privilege that was missing, where it is a denial.
    pub denied: Option<Privilege>,
}

/// How often each reply was made. A counter that is full stays so.
#[derive(Clone, Copy)]
pub struct Counts {
    /// By the method, and among those of a method by the status: a row of seventeen for each.
    pub(crate) replies: [u64; 221],
    /// The denials, by the privilege that was missing.
    pub(crate) denials: [u64; 12],
}

/// The place of a number in a list, or the list's length.
fn place_in(x: u16, xs: &[u16]) -> usize
    ensures { result ≡ spec.place_in x xs.now }
{
    for (place, y) in xs.iter().enumerate() {
        if x == *y {
            return place;
        }
    }
    xs.len()
}

/// The place of a status; none is another one.
#[tactic(auto, unfolding(crate::specs::Counting::statuses))]
fn status_place(status: Option<u16>) -> usize
    ensures place { result ≡ spec.status_place status }
{
    match status {
        Some(status) => place_in(status, &STATUSES),
        None => 16,
    }
}

/// The place of a method; none is that of a request that was not read.
fn method_place(method: Option<Method>) -> usize
    ensures { result ≡ spec.method_place method }
{
    match method {
        Some(Method::Get) => 0,
        Some(Method::Head) => 1,
        Some(Method::Options) => 2,
        Some(Method::Put) => 3,
        Some(Method::Propfind) => 4,
        Some(Method::Proppatch) => 5,
        Some(Method::Acl) => 6,
        Some(Method::Copy) => 7,
        Some(Method::Move) => 8,
        Some(Method::Delete) => 9,
        Some(Method::Mkcol) => 10,
        Some(Method::Report) => 11,
        None => 12,
    }
}

/// The place of a leaf.
fn leaf_place(leaf: Leaf) -> usize
    ensures { result ≡ spec.leaf_place leaf }
{
    match leaf {
        Leaf::ReadTexts => 0,
        Leaf::WriteContent => 1,
        Leaf::WriteProperties => 2,
        Leaf::Bind => 3,
        Leaf::Unbind => 4,
        Leaf::ReadAcl => 5,
        Leaf::WriteAcl => 6,
        Leaf::ReadCurrentUserPrivilegeSet => 7,
        Leaf::ReadNames => 8,
    }
}

/// The place of a privilege.
fn privilege_place(privilege: Privilege) -> usize
    ensures { result ≡ spec.privilege_place privilege }
{
    match privilege {
        Privilege::One(leaf) => leaf_place(leaf),
        Privilege::Read => 9,
        Privilege::Write => 10,
        Privilege::All => 11,
    }
}

/// Where the replies to a method with a status are counted.
#[tactic(auto, using(crate::proofs::Places::status_place_below, crate::proofs::Places::method_place_below))]
fn cell(method: Option<Method>, status: Option<u16>) -> usize
    ensures cell { result ≡ spec.cell method status }
    ensures room { result < 221 }
{
    17 * method_place(method) + status_place(status)
}

/// One more at a place.
fn count_at(counters: &mut [u64], place: usize)
    requires { place < length counters.old }
    ensures { counters.new ≡ spec.counted_at counters.old place }
{
    counters[place] = counters[place].saturating_add(1);
}

/// One more at the place of a privilege, if there is one.
#[tactic(auto, using(crate::proofs::Places::privilege_place_below))]
fn count_for(denials: &mut [u64; 12], denied: Option<Privilege>)
    ensures { denials.new ≡ spec.counted_for denials.old denied }
{
    match denied {
        Some(privilege) => count_at(denials, privilege_place(privilege)),
        None => {}
    }
}

impl Counts {
    /// Nothing is counted yet.
    pub fn new() -> Counts
        ensures { spec.IsZero result }
    {
        Counts {
            replies: [0; 221],
            denials: [0; 12],
        }
    }

    /// Counts a reply, once.
    pub fn count(&mut self, told: Told)
        ensures { self.new ≡ spec.counted self.old told }
    {
        count_at(&mut self.replies, cell(told.method, Some(told.status)));
        count_for(&mut self.denials, told.denied);
    }

    /// How many replies to the method had the status; none is another one.
    pub fn replies_to(&self, method: Option<Method>, status: Option<u16>) -> u64
        ensures { result ≡ spec.replies_to self.now method status }
    {
        self.replies[cell(method, status)]
    }

    /// How many denials named the privilege.
    #[tactic(auto, using(crate::proofs::Places::privilege_place_below))]
    pub fn denials_of(&self, privilege: Privilege) -> u64
        ensures { result ≡ spec.denials_of self.now privilege }
    {
        self.denials[privilege_place(privilege)]
    }
}
