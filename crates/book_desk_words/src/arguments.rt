//! The arguments of each command, as tables.

use crate::helps::{
    ABOVE, ASK, ASK_TEXT, ASKED_CONTROL, ASKED_STORE, AT_ONCE, AUDIT, AUDIT_TEXT, BACKUP,
    BACKUP_CHECK, BACKUP_TEXT, BACKUP_TO, BELOW, BOOKS, CALLER, CARD, CARD_TEXT, CAUSE, CHECK,
    CHECK_TEXT, CHECKED_STORE, COMPACT, COMPACT_TEXT, CONNECTIONS, CONTROL, DENIALS, DENIALS_TEXT,
    DENIED, DESTINATION, DIFFERS, DIFFERS_STRICT, DIFFERS_TEXT, DOCTOR, DOCTOR_TEXT, DUMP,
    DUMP_TEXT, DUMP_WORD, EXISTING, EXPLAIN, FIRST_STORE, FOLDER, FOREVER, FORGET_REMOVED,
    FOUNDED_STORE, HEIR, IDLE, IMPORT, IMPORT_TEXT, INIT, INIT_TEXT, JSON, KEPT_STORE, LABELS,
    LOAD, LOAD_TEXT, LOG, LOG_WORD, MIGRATE, MIGRATE_TEXT, MODE, NEW_EPOCH, NEW_STORE, OWNED_AT,
    OWNER, PERSON, PIPE, PIPE_TEXT, POLICY, POLICY_WORD, PORT, PRIVILEGE, QUESTION, RESOURCE,
    RESTORE, RESTORE_FROM, RESTORE_TEXT, RESTORED, RIGHTS, RIGHTS_TEXT, SERVE, SERVE_TEXT, SHARED,
    SHOW, SHOW_TEXT, SINCE, SOCKET, STRICT, WHAT, WHO, WHO_TEXT, WHY, WHY_TEXT, WITHOUT,
};

/// An argument of a command. The first of its parts is its name, the last is what help tells of it; the one between them is
/// what help calls its value.
#[derive(Clone, Copy)]
pub(crate) enum Argument<'a> {
    /// An option without a value.
    Flag(&'a str, &'a str),
    /// An option with a value.
    Value(&'a str, &'a str, &'a str),
    /// An option that names a file and is required.
    File(&'a str, &'a str),
    /// An option with a value that may be given more than once.
    Values(&'a str, &'a str, &'a str),
    /// An option that gives a number, and from which to which it is.
    Number(&'a str, u16, u16, &'a str),
    /// An option that gives a number of 64 bits.
    Whole(&'a str, &'a str),
    /// A word that is required and follows no option's name.
    Word(&'a str, &'a str, &'a str),
    /// A word that may follow, and follows no option's name.
    LastWord(&'a str, &'a str, &'a str),
    /// Words, one at least, that follow no option's name.
    Words(&'a str, &'a str, &'a str),
}

/// The arguments of `init`.
pub(crate) const INIT_ARGUMENTS: &[Argument] = &[Argument::Word("folder", "DIR", FOLDER)];

/// The arguments of `import`.
pub(crate) const IMPORT_ARGUMENTS: &[Argument] = &[
    Argument::Value("store", "FILE", FOUNDED_STORE),
    Argument::Value("control", "PATH", ASKED_CONTROL),
    Argument::Flag("cause", CAUSE),
    Argument::Word("policy", "POLICY", POLICY_WORD),
];

/// The arguments of `audit`.
pub(crate) const AUDIT_ARGUMENTS: &[Argument] = &[
    Argument::Value("store", "FILE", FOUNDED_STORE),
    Argument::Value("control", "PATH", ASKED_CONTROL),
    Argument::Flag("cause", CAUSE),
    Argument::Flag("existing", EXISTING),
    Argument::Value("at", "PATH", BELOW),
    Argument::Flag("books", BOOKS),
    Argument::Flag("labels", LABELS),
];

/// The arguments of `migrate`.
pub(crate) const MIGRATE_ARGUMENTS: &[Argument] = &[
    Argument::File("store", FIRST_STORE),
    Argument::Flag("cause", CAUSE),
];

/// The arguments of `why`.
pub(crate) const WHY_ARGUMENTS: &[Argument] = &[
    Argument::Value("store", "FILE", ASKED_STORE),
    Argument::Value("control", "PATH", ASKED_CONTROL),
    Argument::Flag("cause", CAUSE),
    Argument::Word("caller", "CALLER", CALLER),
    Argument::Word("what", "METHOD|PRIVILEGE", WHAT),
    Argument::Word("path", "PATH", RESOURCE),
    Argument::LastWord("destination", "DESTINATION", DESTINATION),
    Argument::Flag("json", JSON),
];

/// The arguments of `pipe`.
pub(crate) const PIPE_ARGUMENTS: &[Argument] = &[
    Argument::Value("store", "FILE", KEPT_STORE),
    Argument::Value("policy", "FILE", POLICY),
    Argument::Flag("cause", CAUSE),
    Argument::Value("log", "FILE", LOG),
];

/// The arguments of `serve`.
pub(crate) const SERVE_ARGUMENTS: &[Argument] = &[
    Argument::Number("port", 0, 65_535, PORT),
    Argument::Value("socket", "PATH", SOCKET),
    Argument::Value("mode", "OCTAL", MODE),
    Argument::Number("connections", 1, 10_000, CONNECTIONS),
    Argument::Flag("forever", FOREVER),
    Argument::Number("at-once", 1, 1_000, AT_ONCE),
    Argument::Number("idle", 1, 3_600, IDLE),
    Argument::Value("control", "PATH", CONTROL),
    Argument::Flag("existing", EXISTING),
    Argument::Value("store", "FILE", KEPT_STORE),
    Argument::Value("policy", "FILE", POLICY),
    Argument::Flag("cause", CAUSE),
    Argument::Value("log", "FILE", LOG),
];

/// The arguments of `check`.
pub(crate) const CHECK_ARGUMENTS: &[Argument] = &[
    Argument::Word("policy", "POLICY", POLICY_WORD),
    Argument::Flag("strict", STRICT),
    Argument::Value("store", "FILE", CHECKED_STORE),
    Argument::Value("control", "PATH", ASKED_CONTROL),
    Argument::Flag("cause", CAUSE),
];

/// The arguments of `who`.
pub(crate) const WHO_ARGUMENTS: &[Argument] = &[
    Argument::Value("store", "FILE", ASKED_STORE),
    Argument::Value("control", "PATH", ASKED_CONTROL),
    Argument::Flag("cause", CAUSE),
    Argument::Word("privilege", "PRIVILEGE", PRIVILEGE),
    Argument::Word("path", "PATH", RESOURCE),
    Argument::Flag("denied", DENIED),
    Argument::Flag("json", JSON),
];

/// The arguments of `rights`.
pub(crate) const RIGHTS_ARGUMENTS: &[Argument] = &[
    Argument::Value("store", "FILE", ASKED_STORE),
    Argument::Value("control", "PATH", ASKED_CONTROL),
    Argument::Flag("cause", CAUSE),
    Argument::Value("at", "PATH", BELOW),
    Argument::Value("caller", "PERSON", PERSON),
    Argument::Flag("shared", SHARED),
    Argument::Flag("json", JSON),
];

/// The arguments of `dump`.
pub(crate) const DUMP_ARGUMENTS: &[Argument] = &[
    Argument::Value("store", "FILE", ASKED_STORE),
    Argument::Value("control", "PATH", ASKED_CONTROL),
    Argument::Flag("cause", CAUSE),
];

/// The arguments of `show`.
pub(crate) const SHOW_ARGUMENTS: &[Argument] = &[
    Argument::Value("store", "FILE", ASKED_STORE),
    Argument::Value("control", "PATH", ASKED_CONTROL),
    Argument::Flag("cause", CAUSE),
    Argument::Word("path", "PATH", RESOURCE),
];

/// The arguments of `ask`.
pub(crate) const ASK_ARGUMENTS: &[Argument] = &[
    Argument::Value("store", "FILE", ASKED_STORE),
    Argument::Value("control", "PATH", ASKED_CONTROL),
    Argument::Flag("cause", CAUSE),
    Argument::Word("caller", "CALLER", CALLER),
    Argument::Word("path", "PATH", RESOURCE),
    Argument::Words("privilege", "PRIVILEGE", PRIVILEGE),
];

/// The arguments of `differs`.
pub(crate) const DIFFERS_ARGUMENTS: &[Argument] = &[
    Argument::Value("store", "FILE", ASKED_STORE),
    Argument::Value("control", "PATH", ASKED_CONTROL),
    Argument::Flag("cause", CAUSE),
    Argument::Word("policy", "POLICY", POLICY_WORD),
    Argument::Flag("strict", DIFFERS_STRICT),
];

/// The arguments of `denials`.
pub(crate) const DENIALS_ARGUMENTS: &[Argument] = &[
    Argument::Word("log", "FILE", LOG_WORD),
    Argument::Value("since", "TIME", SINCE),
    Argument::Flag("json", JSON),
];

/// The arguments of `load`.
pub(crate) const LOAD_ARGUMENTS: &[Argument] = &[
    Argument::File("store", NEW_STORE),
    Argument::Flag("cause", CAUSE),
    Argument::LastWord("dump", "DUMP", DUMP_WORD),
    Argument::Values("owner", "FROM=TO", OWNER),
    Argument::Value("at", "BOOK", OWNED_AT),
    Argument::Values("without", "PERSON", WITHOUT),
    Argument::Value("heir", "PRINCIPAL", HEIR),
    Argument::Flag("forget-removed", FORGET_REMOVED),
    Argument::Flag("new-epoch", NEW_EPOCH),
    Argument::Whole("above", ABOVE),
];

/// The arguments of `compact`.
pub(crate) const COMPACT_ARGUMENTS: &[Argument] = &[
    Argument::File("store", ASKED_STORE),
    Argument::Flag("cause", CAUSE),
    Argument::Flag("forget-removed", FORGET_REMOVED),
];

/// The arguments of `backup`.
pub(crate) const BACKUP_ARGUMENTS: &[Argument] = &[
    Argument::File("store", ASKED_STORE),
    Argument::Flag("cause", CAUSE),
    Argument::Value("to", "NEW", BACKUP_TO),
    Argument::Value("check", "COPY", BACKUP_CHECK),
];

/// The arguments of `restore`.
pub(crate) const RESTORE_ARGUMENTS: &[Argument] = &[
    Argument::File("store", ASKED_STORE),
    Argument::Flag("cause", CAUSE),
    Argument::File("from", RESTORE_FROM),
    Argument::Words("path", "PATH", RESTORED),
];

/// The arguments of `doctor`.
pub(crate) const DOCTOR_ARGUMENTS: &[Argument] = &[Argument::File("store", ASKED_STORE)];
