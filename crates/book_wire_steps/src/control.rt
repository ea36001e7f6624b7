//! What has its turn between the requests of a server.

ghost use Rattle.std.specs.Prelude.{◌≡◌, None};
ghost use Rattle.book_wire_steps.specs.Steps.{OnlyAdopts};

use book_wire_serving::Service;

/// How it stands with the connections, and with the store.
#[derive(Clone, Copy)]
pub struct Traffic {
    /// How many connections came.
    pub came: u64,
    /// How many are there.
    pub open: usize,
    /// How many had a fault.
    pub faults: u64,
    /// How many requests were answered.
    pub answered: u64,
    /// How many bytes were taken from connections. It stays at its last value.
    pub received: u64,
    /// How many bytes were sent to connections. It stays at its last value.
    pub sent: u64,
    /// Whether the store shows nothing.
    pub shows_nothing: bool,
}

/// What a control wishes of the server.
#[derive(Clone, Copy)]
pub enum Wish {
    /// That it goes on.
    GoOn,
    /// That it ends: no more connections are taken, and those that are there are served to their end.
    End,
}

/// What has its turn between two requests, and administers the service: it may read its Office, and adopt policies. It answers no
/// request of a connection.
pub trait Control<M: Service> {
    /// Goes on as far as it can without waiting, and says what it wishes.
    fn take_turn(&mut self, service: &mut M, traffic: Traffic) -> Wish
        ensures { OnlyAdopts M.serving service.old service.new };
}

/// Where there is none, nothing is done or wished.
impl<M: Service, C: Control<M>> Control<M> for Option<C> {
    fn take_turn(&mut self, service: &mut M, traffic: Traffic) -> Wish
        ensures adopts { OnlyAdopts M.serving service.old service.new }
        ensures none { self.old ≡ None → (result ≡ Wish.GoOn) × (service.new ≡ service.old) }
    {
        match self {
            Some(control) => control.take_turn(service, traffic),
            None => Wish::GoOn,
        }
    }
}
