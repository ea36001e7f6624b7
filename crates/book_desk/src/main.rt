//! The program `book_desk` of the shared contact books. Its words are read by `book_desk_words`. `run_text` of `book_desk_app`
//! does what `explain`, `card` and help do, and `begin` what `init` does in a folder. What is done over the store of a file is in
//! `book_desk_stores`, over the files of `book_desk_files`. `Logged` of `book_log_service` serves where a log is named, and
//! `run_denials` of `book_desk_denials` does what `denials` does. Their contracts say what is written where these tell their
//! bytes. Nothing stands above it: `main` joins them to the process and to the port. The commands that ask a server are in
//! `asking`, over `book_desk_asking`; those that serve are in `serving` with `controls` and `backups`, and the log's file and
//! `denials` in `logs`, over `book_desk_logs`.
#![tactic(auto)]

ghost use Rattle.std.specs.Prelude.{◌≡◌};
ghost use Rattle.book_desk_words.specs.WordsFaults.{words_status};

mod asking;
mod backups;
mod beginnings;
mod builds;
mod changes;
mod controls;
mod logs;
mod refusals;
mod serving;

use asking::{ask_at, check_at, differs_at, import_at, question_of, whole_audit};
use beginnings::BEGINNING;
use book_desk_app::{
    Failure, InputFault, Lines, Noting, TextCommand, begin, run_text, tell, tell_line,
};
use book_desk_asking::Question;
use book_desk_files::{DiskFolder, Named, make_folder, remove_folder, viewed};
use book_desk_keeping::tell_fault;
use book_desk_questions::{DecisionWords, PartWords, RightsWords, WhoWords, WhyWords, Words};
use book_desk_serving::Work;
use book_desk_stores::{
    STORE_VERSION, ask_store, backup, check_backup, check_files, compact, dump_store, examine,
    load, migrate, restore, tell_differences, work,
};
use book_desk_words::{Command, Office, WordsFault, command_of, words_not_text};
use book_questions_audit::Wanted;
use builds::BUILD;
use changes::{LoadWords, changes_of};
use logs::denials;
use refusals::tell_why;
use serving::{Listening, Served, serve_named, socket_at};
use std::env;
use std::io::{self, BufReader, Write};
use std::process::ExitCode;
use std::rt::Env;

/// The words after the program's name.
fn words_of(rt: &(impl Env + AllocGlobal)) -> Result<Vec<String>, WordsFault> {
    match env::args(rt) {
        Ok(words) => Ok(words.skip(1).collect(rt.alloc())?),
        Err(error) => match error.kind() {
            io::ErrorKind::InvalidData => Err(words_not_text(rt.alloc())),
            _ => Err(WordsFault::Memory),
        },
    }
}

/// Tells why the words name nothing to do, and gives the status.
fn refuse<E: Write>(errors: &mut E, fault: &WordsFault) -> u8
    ensures { result ≡ words_status fault.now }
{
    // Where this can't be written, the status alone tells it.
    let _ = write!(errors, "{fault}");
    fault.status()
}

/// The commands that read one text, in blocks, and help.
fn print<W: Write, E: Write>(
    rt: &HostRuntime,
    command: &TextCommand,
    writer: &mut W,
    errors: &mut E,
) -> u8 {
    match BufReader::new(rt.alloc(), rt.reader()) {
        Ok(reader) => run_text(rt.alloc(), command, reader, writer, errors),
        Err(_) => tell(errors, &Failure::Input(InputFault::Read)),
    }
}

/// Prints what the program is: its name and version, the version of the stores that it makes, and how it was built.
fn print_version<W: Write, E: Write>(
    rt: &HostRuntime,
    name: &str,
    writer: &mut W,
    errors: &mut E,
) -> u8 {
    match format!(in rt.alloc(); "{name}store version {STORE_VERSION}\n{BUILD}\n") {
        Ok(text) => print(rt, &TextCommand::Help(text), writer, errors),
        Err(_) => refuse(errors, &WordsFault::Memory),
    }
}

/// The command `init`: the folder is made where it is missing, and the files in it. A folder that was made goes again where
/// they were not.
fn init<W: Write, E: Lines>(rt: &HostRuntime, path: &str, writer: &mut W, errors: &mut E) -> u8 {
    let was_missing = match make_folder(rt, path) {
        Ok(was_missing) => was_missing,
        Err(fault) => return tell_line(errors, &Failure::Init(fault)),
    };
    let status = begin(&mut DiskFolder::new(rt, path), &BEGINNING, writer, errors);
    if was_missing && status != 0 {
        remove_folder(rt, path);
    }
    status
}

/// The command `import`, over the store of a file, or of the server at a control.
fn import<W: Write, E: Lines>(
    rt: &HostRuntime,
    office: &Office,
    policy: &str,
    writer: &mut W,
    errors: &mut E,
) -> u8 {
    match office {
        Office::Store(store) => {
            let named = Named {
                store: Some(store.as_str()),
                policy: Some(policy),
                existing: false,
            };
            work(rt, Work::Import, named, writer, errors)
        }
        Office::Control(path) => import_at(rt, path.as_str(), policy, writer, errors),
    }
}

/// The command `audit` of all resources, over the store of a file, or of the server at a control.
fn audit<W: Write, E: Lines>(
    rt: &HostRuntime,
    office: &Office,
    existing: bool,
    writer: &mut W,
    errors: &mut E,
) -> u8 {
    match office {
        Office::Store(store) => {
            let named = Named {
                store: Some(store.as_str()),
                policy: None,
                existing,
            };
            work(rt, Work::Audit, named, writer, errors)
        }
        Office::Control(path) => ask_at(rt, path.as_str(), &whole_audit(), writer, errors),
    }
}

/// The command `check`, over nothing, over the store of a file, or over that of the server at a control.
fn check_policy<W: Write, E: Lines>(
    rt: &HostRuntime,
    policy: &str,
    strict: bool,
    office: &Option<Office>,
    writer: &mut W,
    errors: &mut E,
) -> u8 {
    let store = match office {
        Some(Office::Control(path)) => {
            return check_at(rt, path.as_str(), policy, strict, writer, errors);
        }
        Some(Office::Store(store)) => Some(store.as_str()),
        None => None,
    };
    let named = Named {
        store,
        policy: Some(policy),
        existing: true,
    };
    check_files(rt, named, strict, writer, errors)
}

/// The words of `why`.
fn words_of_why<'a>(
    caller: &'a str,
    what: &'a str,
    path: &'a str,
    destination: Option<&'a str>,
    json: bool,
) -> Words<'a> {
    Words::Why(WhyWords {
        caller,
        what,
        path,
        destination,
        json,
    })
}

/// The words of `who`.
fn words_of_who<'a>(privilege: &'a str, path: &'a str, denied: bool, json: bool) -> Words<'a> {
    Words::Who(WhoWords {
        privilege,
        path,
        denied,
        json,
    })
}

/// The words of `rights`.
fn words_of_rights<'a>(
    at: Option<&'a str>,
    caller: Option<&'a str>,
    shared: bool,
    json: bool,
) -> Words<'a> {
    Words::Rights(RightsWords {
        at,
        caller,
        shared,
        json,
    })
}

/// The words of `ask`.
fn words_of_ask<'a>(caller: &'a str, path: &'a str, privileges: &'a [String]) -> Words<'a> {
    Words::Decision(DecisionWords {
        caller,
        path,
        privileges,
    })
}

/// The words of an `audit` of a part.
fn words_of_part<'a>(at: Option<&'a str>, wanted: Wanted) -> Words<'a> {
    Words::Part(PartWords { at, wanted })
}

/// The words of `show`.
fn words_of_show<'a>(path: &'a str) -> Words<'a> {
    Words::Show(path)
}

/// The commands that ask, of the store of a file, or of the server at a control.
fn ask<W: Write, E: Lines>(
    rt: &HostRuntime,
    office: &Office,
    words: &Words<'_>,
    writer: &mut W,
    errors: &mut E,
) -> u8 {
    match office {
        Office::Store(store) => ask_store(rt, store.as_str(), words, writer, errors),
        Office::Control(path) => ask_at(rt, path.as_str(), &question_of(words), writer, errors),
    }
}

/// The command `dump`, of the store of a file, or of the server at a control.
fn dump<W: Write, E: Lines>(
    rt: &HostRuntime,
    office: &Office,
    writer: &mut W,
    errors: &mut E,
) -> u8 {
    match office {
        Office::Store(store) => dump_store(rt, store.as_str(), writer, errors),
        Office::Control(path) => ask_at(rt, path.as_str(), &Question::Dump, writer, errors),
    }
}

/// The command `differs`, of the store of a file, or of the server at a control.
fn differs<W: Write, E: Lines>(
    rt: &HostRuntime,
    office: &Office,
    policy: &str,
    strict: bool,
    writer: &mut W,
    errors: &mut E,
) -> u8 {
    match office {
        Office::Store(store) => {
            let named = viewed(store.as_str(), Some(policy));
            tell_differences(rt, named, strict, writer, errors)
        }
        Office::Control(path) => { differs_at(rt, path.as_str(), policy, strict, writer, errors) }
    }
}

/// Prints the help that the words ask for.
fn print_help<W: Write, E: Write>(
    rt: &HostRuntime,
    text: &str,
    writer: &mut W,
    errors: &mut E,
) -> u8 {
    match String::from_str(rt.alloc(), text) {
        Ok(text) => print(rt, &TextCommand::Help(text), writer, errors),
        Err(_) => refuse(errors, &WordsFault::Memory),
    }
}

/// Does what the words ask for, and gives the status.
fn perform<W: Write, E: Lines>(
    rt: &HostRuntime,
    command: &Command,
    writer: &mut W,
    errors: &mut E,
) -> u8 {
    match command {
        Command::Explain => print(rt, &TextCommand::Explain, writer, errors),
        Command::Card => print(rt, &TextCommand::Card, writer, errors),
        Command::Help(text) => print_help(rt, text.as_str(), writer, errors),
        Command::Version(name) => print_version(rt, name.as_str(), writer, errors),
        Command::Init { folder } => init(rt, folder.as_str(), writer, errors),
        Command::Import { office, policy } => {
            import(rt, office, policy.as_str(), writer, errors)
        }
        Command::Check {
            policy,
            strict,
            office,
        } => check_policy(rt, policy.as_str(), *strict, office, writer, errors),
        Command::Audit {
            office,
            existing,
            at: None,
            books: false,
            labels: false,
        } => audit(rt, office, *existing, writer, errors),
        Command::Audit {
            office,
            existing: _,
            at,
            books,
            labels,
        } => {
            let wanted = Wanted {
                listed: *books,
                labels: *labels,
            };
            let words = words_of_part(at.as_deref(), wanted);
            ask(rt, office, &words, writer, errors)
        }
        Command::Pipe { store, policy, log } => {
            let named = Named {
                store: store.as_deref(),
                policy: policy.as_deref(),
                existing: false,
            };
            match log.as_deref() {
                None => work(rt, Work::Pipe, named, writer, errors),
                log => serve_named(rt, named, log, Served::Requests, writer, errors),
            }
        }
        Command::Denials { log, since, json } => {
            denials(rt, log.as_str(), since.as_deref(), *json, writer, errors)
        }
        Command::Migrate { store } => migrate(rt, store.as_str(), writer, errors),
        Command::Why {
            office,
            caller,
            what,
            path,
            destination,
            json,
        } => {
            let words = words_of_why(
                caller.as_str(),
                what.as_str(),
                path.as_str(),
                destination.as_deref(),
                *json,
            );
            ask(rt, office, &words, writer, errors)
        }
        Command::Who {
            office,
            privilege,
            path,
            denied,
            json,
        } => {
            let words = words_of_who(privilege.as_str(), path.as_str(), *denied, *json);
            ask(rt, office, &words, writer, errors)
        }
        Command::Rights {
            office,
            at,
            caller,
            shared,
            json,
        } => {
            let words = words_of_rights(at.as_deref(), caller.as_deref(), *shared, *json);
            ask(rt, office, &words, writer, errors)
        }
        Command::Ask {
            office,
            caller,
            path,
            privileges,
        } => {
            let words = words_of_ask(caller.as_str(), path.as_str(), privileges.as_slice());
            ask(rt, office, &words, writer, errors)
        }
        Command::Show { office, path } => {
            let words = words_of_show(path.as_str());
            ask(rt, office, &words, writer, errors)
        }
        Command::Dump { office } => dump(rt, office, writer, errors),
        Command::Load {
            store,
            dump,
            owners,
            at,
            without,
            heir,
            forget_removed,
            new_epoch,
            above,
        } => {
            let words = LoadWords {
                owners: owners.as_deref(),
                at: at.as_deref(),
                without: without.as_deref(),
                heir: heir.as_deref(),
                forget_removed: *forget_removed,
                new_epoch: *new_epoch,
                above: above.as_deref(),
            };
            match changes_of(rt.alloc(), &words) {
                Ok(changes) => load(
                    rt,
                    store.as_str(),
                    dump.as_deref(),
                    changes.as_slice(),
                    writer,
                    errors,
                ),
                Err(fault) => tell_fault(errors, &fault),
            }
        }
        Command::Compact {
            store,
            forget_removed,
        } => compact(rt, store.as_str(), *forget_removed, writer, errors),
        Command::Restore { store, from, paths } => {
            restore(
                rt,
                store.as_str(),
                from.as_str(),
                paths.as_slice(),
                writer,
                errors,
            )
        }
        Command::Doctor { store } => examine(rt, store.as_str(), writer, errors),
        Command::Backup { store, to } => backup(rt, store.as_str(), to.as_str(), errors),
        Command::CheckBackup { store, copy } => {
            check_backup(rt, store.as_str(), copy.as_str(), errors)
        }
        Command::Differs {
            office,
            policy,
            strict,
        } => differs(rt, office, policy.as_str(), *strict, writer, errors),
        Command::Serve {
            port,
            socket,
            mode,
            connections,
            at_once,
            idle,
            control,
            store,
            policy,
            existing,
            log,
        } => {
            let named = Named {
                store: store.as_deref(),
                policy: policy.as_deref(),
                existing: *existing,
            };
            let served = Served::Connections(Listening {
                port: *port,
                socket: socket_at(socket.as_deref(), *mode),
                connections: *connections,
                at_once: *at_once,
                idle: *idle,
                control: control.as_deref(),
                store: store.as_deref(),
            });
            serve_named(rt, named, log.as_deref(), served, writer, errors)
        }
    }
}

fn main(rt: HostRuntime) -> ExitCode {
    let mut writer = rt.stdout();
    let mut errors = Noting::new(rt.stderr());
    let command = match words_of(&rt) {
        Ok(words) => command_of(rt.alloc(), words.as_slice()),
        Err(fault) => Err(fault),
    };
    let status = match command {
        Ok(command) => {
            let status = perform(&rt, &command, &mut writer, &mut errors);
            tell_why(&rt, &command, status);
            drop(command);
            status
        }
        Err(fault) => refuse(&mut errors, &fault),
    };
    ExitCode::from(status)
}
