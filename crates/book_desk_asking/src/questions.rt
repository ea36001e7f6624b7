//! What a command asks of a server, with its words.

/// The words of an audit.
#[derive(Clone, Copy)]
pub struct Part<'a> {
    /// The path at which and below which resources are told; without one, everywhere.
    pub at: Option<&'a str>,
    /// Whether cards without a list of their own are left out.
    pub books: bool,
    /// Whether labels are told.
    pub labels: bool,
}

/// The words of a question about a caller.
#[derive(Clone, Copy)]
pub struct Why<'a> {
    /// The bare name of a person; a dash is nobody.
    pub caller: &'a str,
    /// A method, or a privilege.
    pub what: &'a str,
    /// The path of the resource.
    pub path: &'a str,
    /// The path of a destination.
    pub destination: Option<&'a str>,
    /// Whether the answer is told as objects.
    pub json: bool,
}

/// The words of a question about everybody.
#[derive(Clone, Copy)]
pub struct Who<'a> {
    /// The privilege.
    pub privilege: &'a str,
    /// The path of the resource.
    pub path: &'a str,
    /// Whether those to whom it is denied are told.
    pub denied: bool,
    /// Whether the answer is told as objects.
    pub json: bool,
}

/// The words of a question about all rights.
#[derive(Clone, Copy)]
pub struct Rights<'a> {
    /// The path at which and below which they are told; without one, everywhere.
    pub at: Option<&'a str>,
    /// The bare name of the person whose rights are told; without one, everybody's.
    pub caller: Option<&'a str>,
    /// Whether only cards are told whose own list gives more than their book.
    pub shared: bool,
    /// Whether the answer is told as objects.
    pub json: bool,
}

/// The words of a decision.
#[derive(Clone, Copy)]
pub struct Decision<'a> {
    /// The bare name of a person; a dash is nobody.
    pub caller: &'a str,
    /// The path of the resource.
    pub path: &'a str,
    /// The privileges, at least one.
    pub privileges: &'a [String],
}

/// What a command asks of a server.
#[derive(Clone, Copy)]
pub enum Question<'a> {
    /// The owners and lists: `audit`.
    Audit(Part<'a>),
    /// Why something is granted to a caller, or denied: `why`.
    Why(Why<'a>),
    /// To whom a privilege is granted, or denied: `who`.
    Who(Who<'a>),
    /// Who holds which rights: `rights`.
    Rights(Rights<'a>),
    /// What a decision rests on: `ask`.
    Ask(Decision<'a>),
    /// The resource at this path: `show`.
    Show(&'a str),
    /// The Office as text: `dump`.
    Dump,
    /// The faults of this policy, and what it leaves open; whether it is to leave nothing open: `check`.
    Check(&'a [u8], bool),
    /// What adopting this policy would change; whether it is to change nothing: `differs`.
    Differs(&'a [u8], bool),
    /// That this policy is adopted: `import`.
    Import(&'a [u8]),
}
