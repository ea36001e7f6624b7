//! How a socket's file is made.

ghost use Rattle.std.specs.Prelude.{◌≡◌, Err, IfErr, IfOk};
ghost use Rattle.book_desk_sockets.specs.Making.{IsTaken, KeepsPath, Makes, PutsSocket, empty, no_folder};

use std::io;

/// What is at the path of a socket.
#[derive(Clone, Copy, Debug, PartialEq, Eq)]
pub enum Found {
    /// Nothing.
    Missing,
    /// A socket at which nobody answers.
    Left,
    /// A socket at which somebody answers.
    Answers,
    /// Something else.
    Other,
}

/// Why no socket was made.
#[derive(Clone, Copy, Debug, PartialEq, Eq)]
pub enum NotMade {
    /// Somebody answers at the path.
    Taken,
    /// It can't be made.
    Failed,
}

impl From<io::Error> for NotMade {
    ghost use Rattle.std.specs.Prelude.{◌≡◌};
    ghost use Rattle.book_desk_sockets.specs.declared.making.NotMade.TheVariants.{Failed};

    ghost from_gives = { λ _ e. e ≡ Failed };

    fn from(_error: io::Error) -> NotMade {
        NotMade::Failed
    }
}

/// The path of a socket, and the folder in which it is made.
pub trait Ground {
    ghost use Rattle.std.specs.Prelude.{◌≡◌, Option, IfErr, IfOk, IfSome, None, OnOk};
    ghost use Rattle.book_desk_sockets.specs.Making.{Names, Permits, Puts, Moves, IsAt, Stays, no_folder, empty, holds};

    /// The socket, which listens.
    type Listener: Drop;

    /// What is at the path and in the folder, where that is known.
    ghost names: { Self → Option Names };

    /// What is at the path.
    ///
    /// # Errors
    ///
    /// Where that can't be told.
    fn look(&self) -> io::Result<Found>
        ensures { IfOk result (IsAt (names self.now)) };

    /// Makes the folder, which its owner alone may enter.
    ///
    /// # Errors
    ///
    /// Where it can't be made.
    fn make_folder(&mut self) -> io::Result<()>
        ensures made { OnOk result (Puts empty (names self.old) (names self.new)) }
        ensures failed { IfErr result (λ e. Stays (names self.old) (names self.new)) };

    /// Makes the socket in the folder, and listens there.
    ///
    /// # Errors
    ///
    /// Where it can't be made.
    fn bind(&mut self) -> io::Result<Self::Listener>
        ensures made { IfOk result (λ l. Puts (holds None) (names self.old) (names self.new)) }
        ensures failed { IfErr result (λ e. Stays (names self.old) (names self.new)) };

    /// Gives the socket in the folder its mode.
    ///
    /// # Errors
    ///
    /// Where that can't be done.
    fn permit(&mut self, mode: u16) -> io::Result<()>
        ensures done { OnOk result (Permits mode (names self.old) (names self.new)) }
        ensures failed { IfErr result (λ e. Stays (names self.old) (names self.new)) };

    /// Gives the socket its name, in the place of what is there.
    ///
    /// # Errors
    ///
    /// Where that can't be done.
    fn rename(&mut self) -> io::Result<()>
        ensures done { OnOk result (Moves (names self.old) (names self.new)) }
        ensures failed { IfErr result (λ e. Stays (names self.old) (names self.new)) };

    /// Removes the folder, and the socket that is in it.
    fn remove_folder(&mut self)
        ensures { Puts no_folder (names self.old) (names self.new) };
}

/// Makes the socket in the folder, and gives it its mode and its name.
fn make_within<G: Ground>(ground: &mut G, mode: u16) -> io::Result<G::Listener>
    ensures made { IfOk result (λ l. PutsSocket mode empty
        (G.names ground.old) (G.names ground.new)) }
    ensures failed { IfErr result (λ e. KeepsPath (G.names ground.old) (G.names ground.new)) }
{
    let listener = ground.bind()?;
    ground.permit(mode)?;
    ground.rename()?;
    Ok(listener)
}

/// Makes the folder, the socket in it, and removes the folder.
fn make_privately<G: Ground>(ground: &mut G, mode: u16) -> io::Result<G::Listener>
    ensures made { IfOk result (λ l. PutsSocket mode no_folder
        (G.names ground.old) (G.names ground.new)) }
    ensures failed { IfErr result (λ e. KeepsPath (G.names ground.old) (G.names ground.new)) }
{
    ground.make_folder()?;
    let made = make_within(ground, mode);
    ground.remove_folder();
    made
}

/// Makes a socket at the path, with this mode, where nothing is, or in the place of one at which nobody answers. Until it
/// has its mode its owner alone may reach it.
///
/// # Errors
///
/// `Taken` where somebody answers at the path, and nothing was done; `Failed` where something else is there, or it can't
/// be made: what is at the path stays.
pub fn make_socket<G: Ground>(ground: &mut G, mode: u16) -> Result<G::Listener, NotMade>
    ensures made { IfOk result (λ l. Makes mode (G.names ground.old) (G.names ground.new)) }
    ensures taken { result ≡ Err NotMade.Taken
        → IsTaken (G.names ground.old) (G.names ground.new) }
    ensures failed { IfErr result (λ e. KeepsPath (G.names ground.old) (G.names ground.new)) }
{
    match ground.look()? {
        Found::Missing | Found::Left => Ok(make_privately(ground, mode)?),
        Found::Answers => Err(NotMade::Taken),
        Found::Other => Err(NotMade::Failed),
    }
}
