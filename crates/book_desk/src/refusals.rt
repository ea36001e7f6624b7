//! Of which store's tables a command tells why they were refused.

use book_desk_app::BROKEN;
use book_desk_stores::tell_refusal_of;
use book_desk_words::{Command, Office};

/// The file of a store, where an Office is that of one.
fn store_of(office: &Office) -> Option<&str> {
    match office {
        Office::Store(store) => Some(store.as_str()),
        Office::Control(_) => None,
    }
}

/// The store whose tables a command may have refused, if it has one and does not tell why itself.
fn store_in(command: &Command) -> Option<&str> {
    match command {
        Command::Import { office, .. }
        | Command::Audit { office, .. }
        | Command::Why { office, .. }
        | Command::Who { office, .. }
        | Command::Rights { office, .. }
        | Command::Ask { office, .. }
        | Command::Show { office, .. }
        | Command::Dump { office }
        | Command::Differs { office, .. }
        | Command::Check {
            office: Some(office),
            ..
        } => store_of(office),
        Command::Migrate { store }
        | Command::Compact { store, .. }
        | Command::Restore { store, .. }
        | Command::Backup { store, .. }
        | Command::CheckBackup { store, .. } => Some(store.as_str()),
        Command::Pipe {
            store,
            log: None,
            ..
        } => store.as_deref(),
        Command::Pipe { log: Some(_), .. }
        | Command::Check { office: None, .. }
        | Command::Explain
        | Command::Card
        | Command::Help(_)
        | Command::Version(_)
        | Command::Init { .. }
        | Command::Denials { .. }
        | Command::Load { .. }
        | Command::Doctor { .. }
        | Command::Serve { .. } => None,
    }
}

/// Tells why a command failed, where that was for the tables of its store and it is wanted.
pub fn tell_why(rt: &HostRuntime, command: &Command, status: u8) {
    if status != BROKEN {
        return;
    }
    if let Some(name) = store_in(command) {
        tell_refusal_of(rt, name, matches!(command, Command::Migrate { .. }));
    }
}
