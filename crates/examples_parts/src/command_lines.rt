//! The command that the words name, or what is wrong with them.

use crate::checks::{check_fact, check_text};
use book_desk_words::{Command, WordsFault, command_of, words_not_text, words_not_time};
use std::alloc::{AllocError, Global};

/// What the words after the program's name are read as (own profile).
const COMMANDS: &[(&str, &str)] = &[
    ("explain", "Explain"),
    ("card", "Card"),
    ("init office", "Init { folder: \"office\" }"),
    (
        "import --store office.db office.toml",
        "Import { office: Store(\"office.db\"), policy: \"office.toml\" }",
    ),
    (
        "import office.toml --store=office.db",
        "Import { office: Store(\"office.db\"), policy: \"office.toml\" }",
    ),
    (
        "check office.toml",
        "Check { policy: \"office.toml\", strict: false, office: None }",
    ),
    (
        "check office.toml --store office.db",
        "Check { policy: \"office.toml\", strict: false, office: Some(Store(\"office.db\")) }",
    ),
    (
        "check --strict office.toml",
        "Check { policy: \"office.toml\", strict: true, office: None }",
    ),
    (
        "audit --store office.db",
        "Audit { office: Store(\"office.db\"), existing: false, at: None, books: false, labels: false }",
    ),
    (
        "audit --existing --store office.db",
        "Audit { office: Store(\"office.db\"), existing: true, at: None, books: false, labels: false }",
    ),
    (
        "audit --labels --store office.db --at /books --books",
        "Audit { office: Store(\"office.db\"), existing: false, at: Some(\"/books\"), books: true, labels: true }",
    ),
    (
        "differs --store office.db office.toml",
        "Differs { office: Store(\"office.db\"), policy: \"office.toml\", strict: false }",
    ),
    (
        "differs office.toml --strict --store office.db",
        "Differs { office: Store(\"office.db\"), policy: \"office.toml\", strict: true }",
    ),
    (
        "load --store new.db",
        "Load { store: \"new.db\", dump: None, owners: None, at: None, without: None, heir: None, forget_removed: false, new_epoch: false, above: None }",
    ),
    (
        "load - --owner /people/ann=/people/bo --store new.db --at sales --owner /groups/a=/groups/b",
        "Load { store: \"new.db\", dump: Some(\"-\"), owners: Some([\"/people/ann=/people/bo\", \"/groups/a=/groups/b\"]), at: Some(\"sales\"), without: None, heir: None, forget_removed: false, new_epoch: false, above: None }",
    ),
    (
        "load --store new.db --without /people/ann --heir /people/bo --new-epoch --above 7 --forget-removed office.jsonl",
        "Load { store: \"new.db\", dump: Some(\"office.jsonl\"), owners: None, at: None, without: Some([\"/people/ann\"]), heir: Some(\"/people/bo\"), forget_removed: true, new_epoch: true, above: Some(\"7\") }",
    ),
    ("load --store new.db --at sales", SERVE_WANTS),
    ("load --store new.db --heir /people/bo", SERVE_WANTS),
    ("load --store new.db --above 7", SERVE_WANTS),
    (
        "compact --store office.db",
        "Compact { store: \"office.db\", forget_removed: false }",
    ),
    (
        "compact --forget-removed --store office.db",
        "Compact { store: \"office.db\", forget_removed: true }",
    ),
    (
        "backup --store office.db --to monday.db",
        "Backup { store: \"office.db\", to: \"monday.db\" }",
    ),
    (
        "backup --check monday.db --store office.db",
        "CheckBackup { store: \"office.db\", copy: \"monday.db\" }",
    ),
    ("backup --store office.db", SERVE_WANTS),
    (
        "backup --store office.db --to a.db --check a.db",
        SERVE_WANTS,
    ),
    (
        "restore --store office.db --from monday.db /books/a/b.vcf",
        "Restore { store: \"office.db\", from: \"monday.db\", paths: [\"/books/a/b.vcf\"] }",
    ),
    (
        "restore /books/a /books/c/d.vcf --from monday.db --cause --store office.db",
        "Restore { store: \"office.db\", from: \"monday.db\", paths: [\"/books/a\", \"/books/c/d.vcf\"] }",
    ),
    (
        "doctor --store office.db",
        "Doctor { store: \"office.db\" }",
    ),
    (
        "ask --store office.db - /books read",
        "Ask { office: Store(\"office.db\"), caller: \"-\", path: \"/books\", privileges: [\"read\"] }",
    ),
    (
        "ask bob /books/a/b.vcf read --store office.db write-acl",
        "Ask { office: Store(\"office.db\"), caller: \"bob\", path: \"/books/a/b.vcf\", privileges: [\"read\", \"write-acl\"] }",
    ),
    (
        "migrate --store office.db",
        "Migrate { store: \"office.db\" }",
    ),
    (
        "why --store office.db - GET /books",
        "Why { office: Store(\"office.db\"), caller: \"-\", what: \"GET\", path: \"/books\", destination: None, json: false }",
    ),
    (
        "why bob COPY /books/a/b.vcf /books/c/d.vcf --store office.db",
        "Why { office: Store(\"office.db\"), caller: \"bob\", what: \"COPY\", path: \"/books/a/b.vcf\", destination: Some(\"/books/c/d.vcf\"), json: false }",
    ),
    ("why --store office.db bob MOVE /books/a/b.vcf", SERVE_WANTS),
    (
        "who --store office.db read /books",
        "Who { office: Store(\"office.db\"), privilege: \"read\", path: \"/books\", denied: false, json: false }",
    ),
    (
        "who read --denied /books --store office.db",
        "Who { office: Store(\"office.db\"), privilege: \"read\", path: \"/books\", denied: true, json: false }",
    ),
    (
        "why --json --store office.db bob read /books",
        "Why { office: Store(\"office.db\"), caller: \"bob\", what: \"read\", path: \"/books\", destination: None, json: true }",
    ),
    (
        "who read /books --store office.db --json",
        "Who { office: Store(\"office.db\"), privilege: \"read\", path: \"/books\", denied: false, json: true }",
    ),
    (
        "rights --store office.db --json",
        "Rights { office: Store(\"office.db\"), at: None, caller: None, shared: false, json: true }",
    ),
    (
        "rights --store office.db",
        "Rights { office: Store(\"office.db\"), at: None, caller: None, shared: false, json: false }",
    ),
    (
        "rights --shared --caller bob --at /books --store office.db",
        "Rights { office: Store(\"office.db\"), at: Some(\"/books\"), caller: Some(\"bob\"), shared: true, json: false }",
    ),
    (
        "dump --store office.db",
        "Dump { office: Store(\"office.db\") }",
    ),
    (
        "show --store office.db /books/a",
        "Show { office: Store(\"office.db\"), path: \"/books/a\" }",
    ),
    (
        "import office.toml --control office.control",
        "Import { office: Control(\"office.control\"), policy: \"office.toml\" }",
    ),
    (
        "check --control office.control --strict office.toml",
        "Check { policy: \"office.toml\", strict: true, office: Some(Control(\"office.control\")) }",
    ),
    (
        "audit --control=office.control --at /books",
        "Audit { office: Control(\"office.control\"), existing: false, at: Some(\"/books\"), books: false, labels: false }",
    ),
    (
        "differs --control office.control --strict office.toml",
        "Differs { office: Control(\"office.control\"), policy: \"office.toml\", strict: true }",
    ),
    (
        "why --control office.control bob GET /books",
        "Why { office: Control(\"office.control\"), caller: \"bob\", what: \"GET\", path: \"/books\", destination: None, json: false }",
    ),
    (
        "who --control office.control read /books",
        "Who { office: Control(\"office.control\"), privilege: \"read\", path: \"/books\", denied: false, json: false }",
    ),
    (
        "rights --control office.control",
        "Rights { office: Control(\"office.control\"), at: None, caller: None, shared: false, json: false }",
    ),
    (
        "ask --control office.control bob /books read bind",
        "Ask { office: Control(\"office.control\"), caller: \"bob\", path: \"/books\", privileges: [\"read\", \"bind\"] }",
    ),
    (
        "dump --control office.control",
        "Dump { office: Control(\"office.control\") }",
    ),
    (
        "show /books --control office.control",
        "Show { office: Control(\"office.control\"), path: \"/books\" }",
    ),
    (
        "denials office.log",
        "Denials { log: \"office.log\", since: None, json: false }",
    ),
    (
        "denials --json office.log --since 2026-11-29T00:45:58.123Z",
        "Denials { log: \"office.log\", since: Some(\"2026-11-29T00:45:58.123Z\"), json: true }",
    ),
    ("pipe", "Pipe { store: None, policy: None, log: None }"),
    (
        "pipe --policy office.toml --store office.db",
        "Pipe { store: Some(\"office.db\"), policy: Some(\"office.toml\"), log: None }",
    ),
    (
        "pipe --log office.log",
        "Pipe { store: None, policy: None, log: Some(\"office.log\") }",
    ),
    (
        "serve --port 0 --connections 1",
        "Serve { port: Some(0), socket: None, mode: 384, connections: Some(1), at_once: None, idle: None, control: None, store: None, policy: None, existing: false, log: None }",
    ),
    (
        "serve --port 65535 --connections 10000 --store office.db --policy office.toml --existing",
        "Serve { port: Some(65535), socket: None, mode: 384, connections: Some(10000), at_once: None, idle: None, control: None, store: Some(\"office.db\"), policy: Some(\"office.toml\"), existing: true, log: None }",
    ),
    (
        "serve --forever --port 80",
        "Serve { port: Some(80), socket: None, mode: 384, connections: None, at_once: None, idle: None, control: None, store: None, policy: None, existing: false, log: None }",
    ),
    (
        "serve --port 80 --forever --at-once 1 --idle 1",
        "Serve { port: Some(80), socket: None, mode: 384, connections: None, at_once: Some(1), idle: Some(1), control: None, store: None, policy: None, existing: false, log: None }",
    ),
    (
        "serve --port 80 --connections 7 --at-once 1000 --idle 3600 --store office.db",
        "Serve { port: Some(80), socket: None, mode: 384, connections: Some(7), at_once: Some(1000), idle: Some(3600), control: None, store: Some(\"office.db\"), policy: None, existing: false, log: None }",
    ),
    (
        "serve --port 80 --forever --log office.log --at-once 64",
        "Serve { port: Some(80), socket: None, mode: 384, connections: None, at_once: Some(64), idle: None, control: None, store: None, policy: None, existing: false, log: Some(\"office.log\") }",
    ),
    (
        "serve --socket office.sock --connections 1",
        "Serve { port: None, socket: Some(\"office.sock\"), mode: 384, connections: Some(1), at_once: None, idle: None, control: None, store: None, policy: None, existing: false, log: None }",
    ),
    (
        "serve --socket office.sock --mode 0660 --forever --port 80",
        "Serve { port: Some(80), socket: Some(\"office.sock\"), mode: 432, connections: None, at_once: None, idle: None, control: None, store: None, policy: None, existing: false, log: None }",
    ),
    (
        "serve --socket office.sock --mode 777 --forever",
        "Serve { port: None, socket: Some(\"office.sock\"), mode: 511, connections: None, at_once: None, idle: None, control: None, store: None, policy: None, existing: false, log: None }",
    ),
    (
        "serve --port 80 --forever --at-once 64 --control office.control",
        "Serve { port: Some(80), socket: None, mode: 384, connections: None, at_once: Some(64), idle: None, control: Some(\"office.control\"), store: None, policy: None, existing: false, log: None }",
    ),
    ("--help", "Help"),
    ("--version", "Version"),
    ("serve --help", "Help"),
];

/// The status where the words name no command, and the first line of what is told.
const REFUSED: &[(&str, &str)] = &[
    (
        "",
        "2 error: 'book_desk' requires a subcommand but one was not provided",
    ),
    ("exlain", "2 error: unrecognized subcommand 'exlain'"),
    (
        "pipe office.toml",
        "2 error: unexpected argument 'office.toml' found",
    ),
    (
        "init",
        "2 error: the following required arguments were not provided:",
    ),
    (
        "init office other",
        "2 error: unexpected argument 'other' found",
    ),
    (
        "import --store office.db",
        "2 error: the following required arguments were not provided:",
    ),
    (
        "who --store office.db read",
        "2 error: the following required arguments were not provided:",
    ),
    (
        "ask --store office.db bob /books",
        "2 error: the following required arguments were not provided:",
    ),
    (
        "differs --store office.db",
        "2 error: the following required arguments were not provided:",
    ),
    (
        "show --store office.db",
        "2 error: the following required arguments were not provided:",
    ),
    (
        "load office.jsonl",
        "2 error: the following required arguments were not provided:",
    ),
    (
        "compact",
        "2 error: the following required arguments were not provided:",
    ),
    (
        "restore --store office.db --from monday.db",
        "2 error: the following required arguments were not provided:",
    ),
    (
        "doctor",
        "2 error: the following required arguments were not provided:",
    ),
    (
        "denials --since 2026-11-29T00:45:58.123Z",
        "2 error: the following required arguments were not provided:",
    ),
    (
        "backup --to monday.db",
        "2 error: the following required arguments were not provided:",
    ),
    (
        "migrate",
        "2 error: the following required arguments were not provided:",
    ),
    (
        "serve --port 65536 --connections 1",
        "2 error: invalid value '65536' for '--port <N>': 65536 is not in 0..=65535",
    ),
    (
        "serve --port 0 --connections 0",
        "2 error: invalid value '0' for '--connections <N>': 0 is not in 1..=10000",
    ),
    (
        "serve --port 0 --connections 10001",
        "2 error: invalid value '10001' for '--connections <N>': 10001 is not in 1..=10000",
    ),
    (
        "serve --port 0 --forever --at-once 0",
        "2 error: invalid value '0' for '--at-once <N>': 0 is not in 1..=1000",
    ),
    (
        "serve --port 0 --forever --at-once 1001",
        "2 error: invalid value '1001' for '--at-once <N>': 1001 is not in 1..=1000",
    ),
    (
        "serve --port 0 --forever --at-once 1 --idle 0",
        "2 error: invalid value '0' for '--idle <N>': 0 is not in 1..=3600",
    ),
    (
        "serve --port 0 --forever --at-once 1 --idle 3601",
        "2 error: invalid value '3601' for '--idle <N>': 3601 is not in 1..=3600",
    ),
    ("import office.toml", SERVE_WANTS),
    ("differs office.toml", SERVE_WANTS),
    ("audit", SERVE_WANTS),
    ("why bob GET /books", SERVE_WANTS),
    ("who read /books", SERVE_WANTS),
    ("rights --at /books", SERVE_WANTS),
    ("ask bob /books read", SERVE_WANTS),
    ("dump", SERVE_WANTS),
    ("show /books", SERVE_WANTS),
    ("import --store a.db --control c office.toml", SERVE_WANTS),
    ("differs --store a.db --control c office.toml", SERVE_WANTS),
    ("check --store a.db --control c office.toml", SERVE_WANTS),
    ("audit --store a.db --control c", SERVE_WANTS),
    ("why --store a.db --control c bob GET /books", SERVE_WANTS),
    ("who --store a.db --control c read /books", SERVE_WANTS),
    ("rights --store a.db --control c", SERVE_WANTS),
    ("ask --store a.db --control c bob /books read", SERVE_WANTS),
    ("dump --store a.db --control c", SERVE_WANTS),
    ("show --store a.db --control c /books", SERVE_WANTS),
    ("serve --connections 1", SERVE_WANTS),
    ("serve --port 0", SERVE_WANTS),
    ("serve --port 0 --mode 0660 --connections 1", SERVE_WANTS),
    ("serve --socket s --mode 66 --connections 1", SERVE_WANTS),
    ("serve --socket s --mode 00660 --connections 1", SERVE_WANTS),
    ("serve --socket s --mode 0680 --connections 1", SERVE_WANTS),
    ("serve --socket s --mode +660 --connections 1", SERVE_WANTS),
    ("serve --port 0 --at-once 2", SERVE_WANTS),
    ("serve --port 0 --connections 1 --forever", SERVE_WANTS),
    ("serve --port 0 --forever --idle 5", SERVE_WANTS),
    ("serve --port 0 --connections 1 --idle 5", SERVE_WANTS),
    ("serve --port 0 --forever --control c", SERVE_WANTS),
    ("serve --port 0 --connections 1 --existing", SERVE_WANTS),
];

/// What is told where options lack what they want of each other.
const SERVE_WANTS: &str =
    "2 error: serve wants '--port <N>' or '--socket <PATH>', with '--mode <OCTAL>', of three or four digits, also '--socket <PATH>', one of '--connections <N>' and '--forever', with '--idle <N>' or '--control <PATH>' also '--at-once <N>', and with '--existing' also '--store <FILE>'; import, differs, audit, why, who, rights, ask, dump and show want one of '--store <FILE>' and '--control <PATH>', and check one at most; why wants DESTINATION with COPY and MOVE; backup wants one of '--to <NEW>' and '--check <COPY>'; load wants with '--at <BOOK>' also '--owner <FROM=TO>', with '--heir <PRINCIPAL>' also '--without <PERSON>', and with '--above <N>' also '--new-epoch'";

/// The status, and the first line of what is told.
fn first_line(alloc: Global, fault: &WordsFault) -> Result<String, AllocError> {
    let text = format!(in alloc; "{fault}")?;
    let line = text.as_str().lines().next().unwrap_or("");
    format!(in alloc; "{} {line}", fault.status())
}

/// What the words are read as.
fn told(alloc: Global, words: &str) -> Result<String, AllocError> {
    let mut list = Vec::new(alloc);
    for word in words.split_whitespace() {
        list.push(String::from_str(alloc, word)?)?;
    }
    match command_of(alloc, list.as_slice()) {
        Ok(Command::Help(_)) => String::from_str(alloc, "Help"),
        Ok(Command::Version(_)) => String::from_str(alloc, "Version"),
        Ok(command) => format!(in alloc; "{command:?}"),
        Err(fault) => first_line(alloc, &fault),
    }
}

#[test]
fn words_name_commands(rt: HostRuntime) {
    for (words, wanted) in COMMANDS {
        let answer = told(rt.alloc(), words).expect(&rt, "memory");
        check_text(&rt, answer.as_str(), wanted, words);
    }
}

#[test]
fn other_words_are_refused(rt: HostRuntime) {
    for (words, wanted) in REFUSED {
        let answer = told(rt.alloc(), words).expect(&rt, "memory");
        check_text(&rt, answer.as_str(), wanted, words);
    }
    let answer = first_line(rt.alloc(), &words_not_text(rt.alloc())).expect(&rt, "memory");
    let wanted = "2 error: invalid UTF-8 was detected in one or more arguments";
    check_text(&rt, answer.as_str(), wanted, "no text");
    let answer = first_line(rt.alloc(), &words_not_time(rt.alloc())).expect(&rt, "memory");
    let wanted = "2 error: denials wants '--since <TIME>' as 2026-11-29T00:45:58.123Z";
    check_text(&rt, answer.as_str(), wanted, "no time");
    check_fact(&rt, WordsFault::Memory.status() == 3, "memory");
}
