//! The command that the words name.

ghost use Rattle.std.specs.Prelude.{◌≡◌, ◌≢◌, ◌≤◌, ◌⊎◌, ℕ, IfErr, IfNone, IfOk, IfSome, Option, codes, is_some, map, string_bytes, option_map};
ghost use Rattle.clap.specs.Faults.{fault_of};
ghost use Rattle.clap.specs.Values.{kind_of};
ghost use Rattle.clap.specs.Words.{first_of, found_of, rows_of, subcommand_of, subcommand_rows_of};
ghost use Rattle.book_desk_words.specs.CommandLine.{program_app, has_flag, HasCounts, HasNumber, HasTexts, IsAskedBy, IsMatched, IsRefused, MatchesNone, MayHaveNumber, NamesFile, Reads, ReadsAs, ReadsNone};
ghost use Rattle.book_desk_words.specs.WordsFaults.{IsUsage, not_text, not_time, usage_text, words_status};

use crate::helps::{NOT_TEXT, NOT_TIME, SERVE_WANTS, USAGE_LINES};
use crate::keeping::{backup_of, compact_of, doctor_of, load_of, restore_of};
use crate::listening::{Places, places_of};
use crate::offices::{Office, office_if, office_in};
use crate::programs::program;
use crate::questions::{
    ask_of, denials_of, differs_of, dump_of, rights_of, show_of, who_of, why_of,
};
use clap::ArgMatches;
use clap::error::ErrorKind;
use std::alloc::{AllocError, Global};
use std::fmt;

/// The status where the words name nothing to do.
const USAGE: u8 = 2;
/// The status where memory was refused.
const BROKEN: u8 = 3;

/// The most connections that one run serves.
const MAX_CONNECTIONS: u16 = 10_000;

/// The most connections at once.
const MAX_AT_ONCE: u16 = 1_000;

/// The most seconds in which a connection may move no byte.
const MAX_IDLE: u16 = 3_600;

/// What the program is to do.
#[derive(Debug, Drop)]
pub enum Command {
    /// Decide the question on standard input.
    Explain,
    /// Tell what the card on standard input says.
    Card,
    /// Write a policy and settings to begin with.
    Init {
        /// The folder in which they are made.
        folder: String,
    },
    /// Adopt a policy in a store.
    Import {
        /// Of which Office it asks.
        office: Office,
        /// The file of the policy.
        policy: String,
    },
    /// Tell each fault of a policy, with its place, and what a sound one leaves open.
    Check {
        /// The file of the policy.
        policy: String,
        /// Whether what it leaves open ends with status 1.
        strict: bool,
        /// The Office over which it would be adopted; without one it is adopted over an empty one.
        office: Option<Office>,
    },
    /// Tell what adopting a policy would change in a store, and what stays.
    Differs {
        /// Of which Office it asks.
        office: Office,
        /// The file of the policy.
        policy: String,
        /// Whether a difference ends with status 1.
        strict: bool,
    },
    /// Print the direct members of groups, and each resource of a store with its owner and its lists.
    Audit {
        /// Of which Office it asks.
        office: Office,
        /// Whether the store has to be there already: a file that is missing or empty is no store. It has to be where one of
        /// the following is given.
        existing: bool,
        /// The path at which and below which resources are printed; without one, everywhere.
        at: Option<String>,
        /// Whether cards without an own list are left out.
        books: bool,
        /// Whether labels are printed.
        labels: bool,
    },
    /// Make a store of version 1 one of version 2.
    Migrate {
        /// The file of the store.
        store: String,
    },
    /// Tell why a caller may do something in a store, or may not.
    Why {
        /// Of which Office it asks.
        office: Office,
        /// The bare name of a person; `-` is nobody.
        caller: String,
        /// A method, or a privilege.
        what: String,
        /// The path of the resource.
        path: String,
        /// The path of a destination. Never missing where `what` is COPY or MOVE.
        destination: Option<String>,
        /// Whether each line is an object.
        json: bool,
    },
    /// Tell to whom a privilege is granted in a store.
    Who {
        /// Of which Office it asks.
        office: Office,
        /// The privilege.
        privilege: String,
        /// The path of the resource.
        path: String,
        /// Whether those to whom it is denied are told.
        denied: bool,
        /// Whether each line is an object.
        json: bool,
    },
    /// Tell who holds which rights in a store.
    Rights {
        /// Of which Office it asks.
        office: Office,
        /// The path at which and below which they are told; without one, those everywhere.
        at: Option<String>,
        /// The bare name of the person whose rights are told; without one, everybody's.
        caller: Option<String>,
        /// Whether only cards are told whose own list gives somebody more than their book.
        shared: bool,
        /// Whether each line is an object.
        json: bool,
    },
    /// Print what a decision rests on as a text that `Explain` reads.
    Ask {
        /// Of which Office it asks.
        office: Office,
        /// The bare name of a person; `-` is nobody.
        caller: String,
        /// The path of the resource.
        path: String,
        /// The privileges, of which there is one at least.
        privileges: Vec<String>,
    },
    /// Print a store as text.
    Dump {
        /// Of which Office it asks.
        office: Office,
    },
    /// Print one resource of a store as its line of the dump.
    Show {
        /// Of which Office it asks.
        office: Office,
        /// The path of the resource.
        path: String,
    },
    /// Make a store of a dump.
    Load {
        /// The file of the store, in which there is none.
        store: String,
        /// The file of the dump; without one, or where it is `-`, it is read from standard input.
        dump: Option<String>,
        /// Texts `FROM=TO`: what the one principal owns, the other owns.
        owners: Option<Vec<String>>,
        /// The book whose cards alone get other owners; without one, all cards and books do.
        at: Option<String>,
        /// Persons that are taken out.
        without: Option<Vec<String>>,
        /// The principal that owns what they owned; without one, nobody does.
        heir: Option<String>,
        /// Whether removed names are left out.
        forget_removed: bool,
        /// Whether the epoch is one that no token was given under.
        new_epoch: bool,
        /// An epoch above which it is, in decimal digits.
        above: Option<String>,
    },
    /// Write a store anew, without what was removed of its texts.
    Compact {
        /// The file of the store.
        store: String,
        /// Whether removed names are left out.
        forget_removed: bool,
    },
    /// Copy a store.
    Backup {
        /// The file of the store.
        store: String,
        /// The file of the copy, which is not there.
        to: String,
    },
    /// Tell whether a copy has the same Office.
    CheckBackup {
        /// The file of the store.
        store: String,
        /// The file of the copy.
        copy: String,
    },
    /// Put resources of a backup into a store.
    Restore {
        /// The file of the store.
        store: String,
        /// The file of the backup.
        from: String,
        /// The paths of cards and books, of which there is one at least.
        paths: Vec<String>,
    },
    /// Tell whether a store is sound, what it holds, and how large it is.
    Doctor {
        /// The file of the store.
        store: String,
    },
    /// Tell who was refused what, from a log.
    Denials {
        /// The file of the log.
        log: String,
        /// A text that is to be a time in the form that a log has: what was before it is not told.
        since: Option<String>,
        /// Whether each line is an object.
        json: bool,
    },
    /// Serve the requests on standard input.
    Pipe {
        /// The file of the store; without one it is in memory.
        store: Option<String>,
        /// The file of a policy that is adopted first.
        policy: Option<String>,
        /// The file of the log; without one there is none.
        log: Option<String>,
    },
    /// Serve connections.
    Serve {
        /// The port of 127.0.0.1; 0 for a free one. Never missing without a socket.
        port: Option<u16>,
        /// The path of a Unix socket.
        socket: Option<String>,
        /// The permissions of the socket, 0600 where none are given.
        mode: u16,
        /// How many connections are served, 1 to 10,000; without a number there is no end.
        connections: Option<u16>,
        /// How many are served at once, 1 to 1,000; without a number they are served one after the other.
        at_once: Option<u16>,
        /// After how many seconds in which it moves no byte a connection is closed, 1 to 3,600. Never without `at_once`.
        idle: Option<u16>,
        /// The path of the socket at which whoever keeps the server asks. Never without `at_once`.
        control: Option<String>,
        /// The file of the store; without one it is in memory.
        store: Option<String>,
        /// The file of a policy that is adopted first.
        policy: Option<String>,
        /// Whether the store has to be there already: a file that is missing or empty is no store. Never without one.
        existing: bool,
        /// The file of the log; without one there is none.
        log: Option<String>,
    },
    /// Print this text, the help that the words ask for.
    Help(String),
    /// Print what the program is: this line with its name and its version, which the words ask for, and how it was built.
    Version(String),
}

/// Why the words name nothing to do. It prints as what is told on standard error.
#[derive(Debug, Drop)]
pub enum WordsFault {
    /// The words are no command: what is wrong with them, and the usage.
    Usage(String),
    /// Memory was refused.
    Memory,
}

impl WordsFault {
    /// The status of the program: 2 where the words are no command, 3 where memory was refused.
    pub fn status(&self) -> u8
        ensures { result ≡ words_status self.now }
    {
        match self {
            WordsFault::Usage(_) => USAGE,
            WordsFault::Memory => BROKEN,
        }
    }
}

impl From<AllocError> for WordsFault {
    ghost use Rattle.std.specs.Prelude.{◌≡◌};
    ghost use Rattle.book_desk_words.specs.declared.commands.WordsFault.TheVariants.{Memory};

    ghost from_gives = { λ _ e. e ≡ Memory };

    fn from(_error: AllocError) -> WordsFault {
        WordsFault::Memory
    }
}

impl fmt::Display for WordsFault {
    ghost use Rattle.std.specs.Prelude.{Some};
    ghost use Rattle.book_desk_words.specs.WordsFaults.{words_text};

    ghost output = { λ fault. Some (words_text fault) };

    fn fmt<W: fmt::Write>(&self, f: &mut fmt::Formatter<W>) -> fmt::Result {
        match self {
            WordsFault::Usage(text) => f.write_str(text.as_str()),
            WordsFault::Memory => f.write_str("words: memory\n"),
        }
    }
}

/// The file that an option or a word names, if the words have it.
pub(crate) fn file_in(
    alloc: Global,
    found: &ArgMatches<'_>,
    id: &str,
) -> Result<Option<String>, AllocError>
    ensures { IfOk result (NamesFile (rows_of (found_of found.now)) id.now) }
{
    match found.get_str(id) {
        Some(text) => Ok(Some(String::from_str(alloc, text)?)),
        None => Ok(None),
    }
}

/// Copies of texts.
fn copies_of(alloc: Global, texts: &[&str]) -> Result<Vec<String>, AllocError>
    ensures { IfOk result (λ copies. map string_bytes copies.items ≡ map (λ t. t.now) texts.now) }
{
    let mut copies = Vec::new(alloc);
    for text in texts {
        copies.push(String::from_str(alloc, text)?)?;
    }
    Ok(copies)
}

/// The texts that the words give under a name, if they have one.
pub(crate) fn texts_in(
    alloc: Global,
    found: &ArgMatches<'_>,
    id: &str,
) -> Result<Option<Vec<String>>, AllocError>
    ensures { IfOk result (HasTexts (rows_of (found_of found.now)) id.now) }
{
    match found.get_strs(id) {
        Some(texts) => Ok(Some(copies_of(alloc, texts)?)),
        None => Ok(None),
    }
}

/// The number that the words give to an option.
pub(crate) fn number_in(found: &ArgMatches<'_>, id: &str) -> Option<u16>
    ensures read { IfSome result (λ n. HasNumber (rows_of (found_of found.now)) id.now n) }
    ensures none { IfNone result ((n : ℕ) → n ≤ 65535
        → HasNumber (rows_of (found_of found.now)) id.now n → ⊥) }
{
    found.get_one::<u16>(id)
}

/// Whether the words have an option with a value.
pub(crate) fn is_given(found: &ArgMatches<'_>, id: &str) -> bool
    ensures { result ≡ is_some (first_of id.now (rows_of (found_of found.now))) }
{
    match found.get_str(id) {
        Some(_) => true,
        None => false,
    }
}

/// The number from 1 to `most` that the words give to an option, or that they have no such option; none where what they give
/// is no such number.
fn count_in(found: &ArgMatches<'_>, id: &str, most: u16) -> Option<Option<u16>>
    ensures read { IfSome result (MayHaveNumber (rows_of (found_of found.now)) id.now most) }
    ensures none { IfNone result ((count : Option ℕ)
        → MayHaveNumber (rows_of (found_of found.now)) id.now most count → ⊥) }
{
    if !is_given(found, id) {
        return Some(None);
    }
    let number = number_in(found, id)?;
    if number == 0 || number > most {
        return None;
    }
    Some(Some(number))
}

/// Whether the words have an option without a value.
pub(crate) fn flag_in(found: &ArgMatches<'_>, id: &str) -> bool
    ensures { result ≡ has_flag (rows_of (found_of found.now)) id.now }
{
    match found.get_str(id) {
        Some(text) => text == "true",
        None => false,
    }
}

/// How many connections are served, and how.
#[derive(Drop)]
struct Counts {
    /// How many in all; without a number there is no end.
    connections: Option<u16>,
    /// How many at once; without a number one after the other.
    at_once: Option<u16>,
    /// After how many seconds an idle one is closed, if ever.
    idle: Option<u16>,
}

/// How many connections the words say, and how they are served; none where a number is out of range, where they have not
/// one of `--connections` and `--forever`, or have `--idle` or `--control` without `--at-once`.
fn counts_of(found: &ArgMatches<'_>) -> Option<Counts>
    ensures read { IfSome result (λ counts. HasCounts
        (rows_of (found_of found.now)) counts.connections counts.at_once counts.idle) }
    ensures none { IfNone result ((connections at_once idle : Option ℕ)
        → HasCounts (rows_of (found_of found.now)) connections at_once idle → ⊥) }
{
    let connections = count_in(found, "connections", MAX_CONNECTIONS)?;
    let forever = flag_in(found, "forever");
    if connections.is_none() != forever {
        return None;
    }
    let at_once = count_in(found, "at-once", MAX_AT_ONCE)?;
    let idle = count_in(found, "idle", MAX_IDLE)?;
    if idle.is_some() && at_once.is_none() {
        return None;
    }
    if is_given(found, "control") && at_once.is_none() {
        return None;
    }
    Some(Counts {
        connections,
        at_once,
        idle,
    })
}

/// The command `serve` with what the words give it; none where a number is out of range, where the words give neither a port
/// nor a socket, have `--mode` without `--socket`, not one of `--connections` and `--forever`, or `--idle` or `--control`
/// without `--at-once`, or where a store that has to be there is not named.
fn serve_of(alloc: Global, found: &ArgMatches<'_>) -> Result<Option<Command>, AllocError>
    ensures read { IfOk result (λ command. IfSome command
        (ReadsAs (codes "serve") (rows_of (found_of found.now)))) }
    ensures none { IfOk result (λ command. IfNone command
        (ReadsNone (codes "serve") (rows_of (found_of found.now)))) }
{
    let Some(counts) = counts_of(found) else {
        return Ok(None);
    };
    let Some(Places { port, socket, mode }) = places_of(alloc, found)? else {
        return Ok(None);
    };
    let control = file_in(alloc, found, "control")?;
    let store = file_in(alloc, found, "store")?;
    let policy = file_in(alloc, found, "policy")?;
    let existing = flag_in(found, "existing");
    if existing && store.is_none() {
        return Ok(None);
    }
    let log = file_in(alloc, found, "log")?;
    Ok(Some(Command::Serve {
        port,
        socket,
        mode,
        connections: counts.connections,
        at_once: counts.at_once,
        idle: counts.idle,
        control,
        store,
        policy,
        existing,
        log,
    }))
}

/// The command `pipe` with what the words give it.
fn pipe_of(alloc: Global, found: &ArgMatches<'_>) -> Result<Option<Command>, AllocError>
    ensures read { IfOk result (λ command. IfSome command
        (ReadsAs (codes "pipe") (rows_of (found_of found.now)))) }
    ensures none { IfOk result (λ command. IfNone command ⊥) }
{
    let store = file_in(alloc, found, "store")?;
    let policy = file_in(alloc, found, "policy")?;
    let log = file_in(alloc, found, "log")?;
    Ok(Some(Command::Pipe { store, policy, log }))
}

/// The command `init` with what the words give it; none where the folder is missing.
fn init_of(alloc: Global, found: &ArgMatches<'_>) -> Result<Option<Command>, AllocError>
    ensures read { IfOk result (λ command. IfSome command
        (ReadsAs (codes "init") (rows_of (found_of found.now)))) }
    ensures none { IfOk result (λ command. IfNone command
        (ReadsNone (codes "init") (rows_of (found_of found.now)))) }
{
    let Some(folder) = file_in(alloc, found, "folder")? else {
        return Ok(None);
    };
    Ok(Some(Command::Init { folder }))
}

/// The command `import` with what the words give it; none where the policy or the Office is missing.
fn import_of(alloc: Global, found: &ArgMatches<'_>) -> Result<Option<Command>, AllocError>
    ensures read { IfOk result (λ command. IfSome command
        (ReadsAs (codes "import") (rows_of (found_of found.now)))) }
    ensures none { IfOk result (λ command. IfNone command
        (ReadsNone (codes "import") (rows_of (found_of found.now)))) }
{
    let Some(office) = office_in(alloc, found)? else {
        return Ok(None);
    };
    let Some(policy) = file_in(alloc, found, "policy")? else {
        return Ok(None);
    };
    Ok(Some(Command::Import { office, policy }))
}

/// The command `check` with what the words give it; none where the policy is missing, or the words name two Offices.
fn check_of(alloc: Global, found: &ArgMatches<'_>) -> Result<Option<Command>, AllocError>
    ensures read { IfOk result (λ command. IfSome command
        (ReadsAs (codes "check") (rows_of (found_of found.now)))) }
    ensures none { IfOk result (λ command. IfNone command
        (ReadsNone (codes "check") (rows_of (found_of found.now)))) }
{
    let Some(policy) = file_in(alloc, found, "policy")? else {
        return Ok(None);
    };
    let strict = flag_in(found, "strict");
    let Some(office) = office_if(alloc, found)? else {
        return Ok(None);
    };
    Ok(Some(Command::Check {
        policy,
        strict,
        office,
    }))
}

/// The command `audit` with what the words give it; none where the Office is missing.
fn audit_of(alloc: Global, found: &ArgMatches<'_>) -> Result<Option<Command>, AllocError>
    ensures read { IfOk result (λ command. IfSome command
        (ReadsAs (codes "audit") (rows_of (found_of found.now)))) }
    ensures none { IfOk result (λ command. IfNone command
        (ReadsNone (codes "audit") (rows_of (found_of found.now)))) }
{
    let Some(office) = office_in(alloc, found)? else {
        return Ok(None);
    };
    let existing = flag_in(found, "existing");
    let at = file_in(alloc, found, "at")?;
    let books = flag_in(found, "books");
    let labels = flag_in(found, "labels");
    Ok(Some(Command::Audit {
        office,
        existing,
        at,
        books,
        labels,
    }))
}

/// The command `migrate` with what the words give it; none where the file is missing.
fn migrate_of(alloc: Global, found: &ArgMatches<'_>) -> Result<Option<Command>, AllocError>
    ensures read { IfOk result (λ command. IfSome command
        (ReadsAs (codes "migrate") (rows_of (found_of found.now)))) }
    ensures none { IfOk result (λ command. IfNone command
        (ReadsNone (codes "migrate") (rows_of (found_of found.now)))) }
{
    let Some(store) = file_in(alloc, found, "store")? else {
        return Ok(None);
    };
    Ok(Some(Command::Migrate { store }))
}

/// The subcommand that was met, with its matches.
fn met<'m, 'a>(matches: &'m ArgMatches<'a>) -> Option<(&'a str, &'m ArgMatches<'a>)>
    ensures { option_map (λ p. (p.0.now, rows_of (found_of p.1.now))) result ≡
        subcommand_rows_of matches.now }
{
    matches.subcommand()
}

/// The command of that name with what the words give it; none where it lacks something.
fn command_named(
    alloc: Global,
    name: &str,
    found: &ArgMatches<'_>,
) -> Result<Option<Command>, AllocError>
    ensures read { IfOk result (λ command. IfSome command
        (ReadsAs name.now (rows_of (found_of found.now)))) }
    ensures none { IfOk result (λ command. IfNone command
        (ReadsNone name.now (rows_of (found_of found.now)))) }
{
    match name {
        "explain" => Ok(Some(Command::Explain)),
        "card" => Ok(Some(Command::Card)),
        "init" => init_of(alloc, found),
        "import" => import_of(alloc, found),
        "check" => check_of(alloc, found),
        "audit" => audit_of(alloc, found),
        "migrate" => migrate_of(alloc, found),
        "why" => why_of(alloc, found),
        "who" => who_of(alloc, found),
        "rights" => rights_of(alloc, found),
        "ask" => ask_of(alloc, found),
        "differs" => differs_of(alloc, found),
        "dump" => dump_of(alloc, found),
        "show" => show_of(alloc, found),
        "load" => load_of(alloc, found),
        "compact" => compact_of(alloc, found),
        "backup" => backup_of(alloc, found),
        "restore" => restore_of(alloc, found),
        "doctor" => doctor_of(alloc, found),
        "denials" => denials_of(alloc, found),
        "pipe" => pipe_of(alloc, found),
        "serve" => serve_of(alloc, found),
        _ => Ok(None),
    }
}

/// The command that the matches give; none where they give none, which clap lets come where the options of `serve` or
/// `load` lack what they want of each other, `why` its destination, `backup` its file or a command its Office, and nowhere else.
fn read_command(alloc: Global, matches: &ArgMatches<'_>) -> Result<Option<Command>, AllocError>
    ensures read { IfOk result (λ command. IfSome command
        (IsMatched (subcommand_rows_of matches.now))) }
    ensures none { IfOk result (λ command. IfNone command
        (MatchesNone (subcommand_rows_of matches.now))) }
{
    match met(matches) {
        Some((name, found)) => command_named(alloc, name, found),
        None => Ok(None),
    }
}

/// What clap says in place of a command: help or the version, which were asked for, or what is wrong.
fn answer_of(alloc: Global, error: &clap::Error) -> Result<Command, WordsFault>
    ensures asked { IfOk result (IsAskedBy (kind_of error.now)) }
    ensures wrong { IfErr result (λ fault. (fault ≡ WordsFault.Memory)
        ⊎ (kind_of error.now ≢ ErrorKind.OutOfMemory) × (kind_of error.now ≢ ErrorKind.DisplayHelp)
        × (kind_of error.now ≢ ErrorKind.DisplayVersion)) }
{
    match error.kind() {
        ErrorKind::OutOfMemory => Err(WordsFault::Memory),
        ErrorKind::DisplayHelp => Ok(Command::Help(format!(in alloc; "{error}")?)),
        ErrorKind::DisplayVersion => Ok(Command::Version(format!(in alloc; "{error}")?)),
        _ => Err(WordsFault::Usage(format!(in alloc; "{error}")?)),
    }
}

/// What is wrong with the words, and the usage, as clap tells it.
fn usage_text(alloc: Global, wrong: &str) -> Result<String, AllocError>
    ensures { IfOk result (λ text. string_bytes text ≡ usage_text wrong.now) }
{
    let mut text = String::from_str(alloc, "error: ")?;
    text.push_str(wrong)?;
    text.push_str(USAGE_LINES)?;
    Ok(text)
}

fn usage(alloc: Global, wrong: &str) -> WordsFault
    ensures { IsUsage wrong.now result }
{
    match usage_text(alloc, wrong) {
        Ok(text) => WordsFault::Usage(text),
        Err(_) => WordsFault::Memory,
    }
}

/// A text of `denials` that is no time makes the words no command: `Usage` with the text that tells it, or `Memory` where
/// memory was refused.
pub fn words_not_time(alloc: Global) -> WordsFault
    ensures { IsUsage not_time result }
{
    usage(alloc, NOT_TIME)
}

/// Words that are not UTF-8 are no command: `Usage` with the text that tells it, or `Memory` where memory was refused.
pub fn words_not_text(alloc: Global) -> WordsFault
    ensures { IsUsage not_text result }
{
    usage(alloc, NOT_TEXT)
}

/// Reads the words after the program's name. Help or the version that they ask for is a command of its own.
///
/// A command that it answers is the one that clap's matches of the words give: the subcommand that was met, its port
/// from 0 to 65,535, its socket with its permissions, its number of connections from 1 to 10,000 or that there is no end, how many at once from 1 to 1,000
/// and the seconds from 1 to 3,600 after which an idle one is closed, if they are given, the files of its store, its
/// policy and its log, if they name them, whether the store has to be there already, and the folder of `init`. Help, or the version, is
/// answered only where clap takes the words to ask for it.
///
/// # Errors
///
/// `Usage` where the words name no command: clap refuses them for another reason than a wish for help or the version, or
/// lets them pass and no command can be read of its matches, which the text tells then. `Memory` where memory was refused.
pub fn command_of(alloc: Global, words: &[String]) -> Result<Command, WordsFault>
    ensures read { let texts = map string_bytes words.now in IfOk result
        (Reads (subcommand_of program_app texts) (fault_of program_app texts)) }
    ensures wrong { let texts = map string_bytes words.now in IfErr result
        (IsRefused (subcommand_of program_app texts) (fault_of program_app texts)) }
{
    let matches = match program(alloc)?.try_get_matches_from(words) {
        Ok(matches) => matches,
        Err(error) => return answer_of(alloc, &error),
    };
    match read_command(alloc, &matches)? {
        Some(command) => Ok(command),
        // Clap requires a subcommand and what each one needs, but for what the words want of each other.
        None => Err(usage(alloc, SERVE_WANTS)),
    }
}
