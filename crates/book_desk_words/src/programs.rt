//! The command line, as clap is told of it.

ghost use Rattle.std.specs.Prelude.{◌≡◌, false};
ghost use Rattle.clap.specs.Words.{App, app_of, new_app, rule_of, with_subcommand};
ghost use Rattle.clap.specs.declared.builder.command.Command.TheViews.{out-Command};
ghost use Rattle.book_desk_words.specs.CommandLine.{explain_app, card_app, IsMade, IsProgram, program_app, top_app, ask_app, audit_app, backup_app, check_app, compact_app, denials_app, differs_app, doctor_app, dump_app, import_app, init_app, load_app, migrate_app, pipe_app, restore_app, rights_app, serve_app, show_app, who_app, why_app, flag_rule, last_word_rule, option_rule, options_rule, counted_rule, required_rule, with_asking, with_first, with_keeping, with_serving, whole_rule, word_rule, words_rule};
ghost use Rattle.book_desk_words.specs.Arguments.{argument_rule, with_arguments};

use crate::arguments::{
    ASK_ARGUMENTS, AUDIT_ARGUMENTS, Argument, BACKUP_ARGUMENTS, CHECK_ARGUMENTS, COMPACT_ARGUMENTS,
    DENIALS_ARGUMENTS, DIFFERS_ARGUMENTS, DOCTOR_ARGUMENTS, DUMP_ARGUMENTS, IMPORT_ARGUMENTS,
    INIT_ARGUMENTS, LOAD_ARGUMENTS, MIGRATE_ARGUMENTS, PIPE_ARGUMENTS, RESTORE_ARGUMENTS,
    RIGHTS_ARGUMENTS, SERVE_ARGUMENTS, SHOW_ARGUMENTS, WHO_ARGUMENTS, WHY_ARGUMENTS,
};
use crate::helps::{
    ABOUT, ASK, ASK_TEXT, AUDIT, AUDIT_TEXT, BACKUP, BACKUP_TEXT, CARD, CARD_TEXT, CHECK,
    CHECK_TEXT, COMPACT, COMPACT_TEXT, DENIALS, DENIALS_TEXT, DIFFERS, DIFFERS_TEXT, DOCTOR,
    DOCTOR_TEXT, DUMP, DUMP_TEXT, EXPLAIN, IMPORT, IMPORT_TEXT, INIT, INIT_TEXT, LOAD, LOAD_TEXT,
    MIGRATE, MIGRATE_TEXT, PIPE, PIPE_TEXT, QUESTION, RESTORE, RESTORE_TEXT, RIGHTS, RIGHTS_TEXT,
    SERVE, SERVE_TEXT, SHOW, SHOW_TEXT, VERSION, WHO, WHO_TEXT, WHY, WHY_TEXT,
};
use clap::builder::ValueParser;
use clap::{Arg, ArgAction};
use std::alloc::{AllocError, Global};

/// An option with a value.
fn value_option<'a>(alloc: Global, name: &'a str, value_name: &'a str, help: &'a str) -> Arg<'a>
    ensures rule { rule_of result ≡ option_rule name.entry.now }
    ensures local { result.global ≡ false }
{
    Arg::new(alloc, name)
        .long(name)
        .value_name(value_name)
        .help(help)
}

/// An option that names a file and is required.
fn file_needed<'a>(alloc: Global, name: &'a str, help: &'a str) -> Arg<'a>
    ensures rule { rule_of result ≡ required_rule name.entry.now }
    ensures local { result.global ≡ false }
{
    Arg::new(alloc, name)
        .long(name)
        .value_name("FILE")
        .help(help)
        .required(true)
}

/// A word that is required and follows no option's name.
fn word_needed<'a>(alloc: Global, name: &'a str, value_name: &'a str, help: &'a str) -> Arg<'a>
    ensures rule { rule_of result ≡ word_rule name.entry.now }
    ensures local { result.global ≡ false }
{
    Arg::new(alloc, name)
        .value_name(value_name)
        .help(help)
        .required(true)
}

/// A word that may follow, and follows no option's name.
fn word_option<'a>(alloc: Global, name: &'a str, value_name: &'a str, help: &'a str) -> Arg<'a>
    ensures rule { rule_of result ≡ last_word_rule name.entry.now }
    ensures local { result.global ≡ false }
{
    Arg::new(alloc, name).value_name(value_name).help(help)
}

/// Words, one at least, that follow no option's name.
fn words_needed<'a>(alloc: Global, name: &'a str, value_name: &'a str, help: &'a str) -> Arg<'a>
    ensures rule { rule_of result ≡ words_rule name.entry.now }
    ensures local { result.global ≡ false }
{
    Arg::new(alloc, name)
        .value_name(value_name)
        .help(help)
        .required(true)
        .action(ArgAction::Append)
}

/// An option that gives a number.
fn number_option<'a>(alloc: Global, name: &'a str, help: &'a str, least: u16, most: u16) -> Arg<'a>
    ensures rule { rule_of result ≡ counted_rule name.entry.now least most }
    ensures local { result.global ≡ false }
{
    Arg::new(alloc, name)
        .long(name)
        .value_name("N")
        .help(help)
        .value_parser(ValueParser::signed(least as i64, most as i64))
}

/// An option without a value.
fn flag_option<'a>(alloc: Global, name: &'a str, help: &'a str) -> Arg<'a>
    ensures rule { rule_of result ≡ flag_rule name.entry.now }
    ensures local { result.global ≡ false }
{
    Arg::new(alloc, name)
        .long(name)
        .help(help)
        .action(ArgAction::SetTrue)
}

/// A command; none where memory was refused.
type Made<'a> = Result<clap::Command<'a>, AllocError>;

/// An option that gives a number of 64 bits.
fn whole_option<'a>(alloc: Global, name: &'a str, help: &'a str) -> Arg<'a>
    ensures rule { rule_of result ≡ whole_rule name.entry.now }
    ensures local { result.global ≡ false }
{
    Arg::new(alloc, name)
        .long(name)
        .value_name("N")
        .help(help)
        .value_parser(ValueParser::unsigned(0, u64::MAX))
}

/// An option with a value that may be given more than once.
fn values_option<'a>(alloc: Global, name: &'a str, value_name: &'a str, help: &'a str) -> Arg<'a>
    ensures rule { rule_of result ≡ options_rule name.entry.now }
    ensures local { result.global ≡ false }
{
    Arg::new(alloc, name)
        .long(name)
        .value_name(value_name)
        .help(help)
        .action(ArgAction::Append)
}

/// A command of this name, with what help tells of it.
fn begun<'a>(alloc: Global, name: &'a str, about: &'a str, text: &'a str) -> clap::Command<'a>
    ensures app { app_of result ≡ new_app name.entry.now }
    ensures local { (out-Command result).has_globals ≡ false }
{
    clap::Command::new(alloc, name)
        .about(about)
        .after_help(text)
}

/// The argument, as clap is told of it.
fn argument<'a>(alloc: Global, argument: &Argument<'a>) -> Arg<'a>
    ensures rule { rule_of result ≡ argument_rule argument.now }
    ensures local { result.global ≡ false }
{
    match *argument {
        Argument::Flag(name, help) => flag_option(alloc, name, help),
        Argument::Value(name, value, help) => value_option(alloc, name, value, help),
        Argument::File(name, help) => file_needed(alloc, name, help),
        Argument::Values(name, value, help) => values_option(alloc, name, value, help),
        Argument::Number(name, least, most, help) => {
            number_option(alloc, name, help, least, most)
        }
        Argument::Whole(name, help) => whole_option(alloc, name, help),
        Argument::Word(name, value, help) => word_needed(alloc, name, value, help),
        Argument::LastWord(name, value, help) => word_option(alloc, name, value, help),
        Argument::Words(name, value, help) => words_needed(alloc, name, value, help),
    }
}

/// The command of this name with these arguments.
fn command<'a>(
    alloc: Global,
    name: &'a str,
    about: &'a str,
    text: &'a str,
    arguments: &[Argument<'a>],
) -> Made<'a>
    ensures { IsMade (with_arguments (new_app name.entry.now) arguments.now) result }
{
    let mut command = begun(alloc, name, about, text);
    for word in arguments {
        command = command.arg(argument(alloc, word))?;
    }
    Ok(command)
}

fn explain<'a>(alloc: Global) -> Made<'a>
    ensures { IsMade explain_app result }
{
    command(alloc, "explain", EXPLAIN, QUESTION, &[])
}

fn card<'a>(alloc: Global) -> Made<'a>
    ensures { IsMade card_app result }
{
    command(alloc, "card", CARD, CARD_TEXT, &[])
}

fn init<'a>(alloc: Global) -> Made<'a>
    ensures { IsMade init_app result }
{
    command(alloc, "init", INIT, INIT_TEXT, INIT_ARGUMENTS)
}

fn import<'a>(alloc: Global) -> Made<'a>
    ensures { IsMade import_app result }
{
    command(alloc, "import", IMPORT, IMPORT_TEXT, IMPORT_ARGUMENTS)
}

fn audit<'a>(alloc: Global) -> Made<'a>
    ensures { IsMade audit_app result }
{
    command(alloc, "audit", AUDIT, AUDIT_TEXT, AUDIT_ARGUMENTS)
}

fn migrate<'a>(alloc: Global) -> Made<'a>
    ensures { IsMade migrate_app result }
{
    command(alloc, "migrate", MIGRATE, MIGRATE_TEXT, MIGRATE_ARGUMENTS)
}

fn why<'a>(alloc: Global) -> Made<'a>
    ensures { IsMade why_app result }
{
    command(alloc, "why", WHY, WHY_TEXT, WHY_ARGUMENTS)
}

fn pipe<'a>(alloc: Global) -> Made<'a>
    ensures { IsMade pipe_app result }
{
    command(alloc, "pipe", PIPE, PIPE_TEXT, PIPE_ARGUMENTS)
}

fn serve<'a>(alloc: Global) -> Made<'a>
    ensures { IsMade serve_app result }
{
    command(alloc, "serve", SERVE, SERVE_TEXT, SERVE_ARGUMENTS)
}

fn check<'a>(alloc: Global) -> Made<'a>
    ensures { IsMade check_app result }
{
    command(alloc, "check", CHECK, CHECK_TEXT, CHECK_ARGUMENTS)
}

fn who<'a>(alloc: Global) -> Made<'a>
    ensures { IsMade who_app result }
{
    command(alloc, "who", WHO, WHO_TEXT, WHO_ARGUMENTS)
}

fn rights<'a>(alloc: Global) -> Made<'a>
    ensures { IsMade rights_app result }
{
    command(alloc, "rights", RIGHTS, RIGHTS_TEXT, RIGHTS_ARGUMENTS)
}

fn dump<'a>(alloc: Global) -> Made<'a>
    ensures { IsMade dump_app result }
{
    command(alloc, "dump", DUMP, DUMP_TEXT, DUMP_ARGUMENTS)
}

fn show<'a>(alloc: Global) -> Made<'a>
    ensures { IsMade show_app result }
{
    command(alloc, "show", SHOW, SHOW_TEXT, SHOW_ARGUMENTS)
}

fn ask<'a>(alloc: Global) -> Made<'a>
    ensures { IsMade ask_app result }
{
    command(alloc, "ask", ASK, ASK_TEXT, ASK_ARGUMENTS)
}

fn differs<'a>(alloc: Global) -> Made<'a>
    ensures { IsMade differs_app result }
{
    command(alloc, "differs", DIFFERS, DIFFERS_TEXT, DIFFERS_ARGUMENTS)
}

fn denials<'a>(alloc: Global) -> Made<'a>
    ensures { IsMade denials_app result }
{
    command(alloc, "denials", DENIALS, DENIALS_TEXT, DENIALS_ARGUMENTS)
}

fn load<'a>(alloc: Global) -> Made<'a>
    ensures { IsMade load_app result }
{
    command(alloc, "load", LOAD, LOAD_TEXT, LOAD_ARGUMENTS)
}

fn compact<'a>(alloc: Global) -> Made<'a>
    ensures { IsMade compact_app result }
{
    command(alloc, "compact", COMPACT, COMPACT_TEXT, COMPACT_ARGUMENTS)
}

fn backup<'a>(alloc: Global) -> Made<'a>
    ensures { IsMade backup_app result }
{
    command(alloc, "backup", BACKUP, BACKUP_TEXT, BACKUP_ARGUMENTS)
}

fn restore<'a>(alloc: Global) -> Made<'a>
    ensures { IsMade restore_app result }
{
    command(alloc, "restore", RESTORE, RESTORE_TEXT, RESTORE_ARGUMENTS)
}

fn doctor<'a>(alloc: Global) -> Made<'a>
    ensures { IsMade doctor_app result }
{
    command(alloc, "doctor", DOCTOR, DOCTOR_TEXT, DOCTOR_ARGUMENTS)
}

fn top<'a>(alloc: Global) -> Made<'a>
    ensures { IsProgram top_app result }
{
    let command = clap::Command::new(alloc, "book_desk")
        .about(ABOUT)
        .version(VERSION)
        .bin_name("book_desk")?
        .no_binary_name(true)
        .subcommand_required(true);
    Ok(command)
}

/// The program with one more command.
fn added<'a>(program: Made<'a>, command: Made<'a>) -> Made<'a>
    ensures { (app sub : App) → IsProgram app program.entry → IsMade sub command.entry
        → IsProgram (with_subcommand app sub.top) result }
{
    let command = command?;
    program?.subcommand(command)
}

/// The program with the commands over texts, and those that make, adopt and print.
fn with_first<'a>(alloc: Global, program: Made<'a>) -> Made<'a>
    ensures { (app : App) → IsProgram app program.entry → IsProgram (with_first app) result }
{
    let program = added(program, explain(alloc));
    let program = added(program, card(alloc));
    let program = added(program, init(alloc));
    let program = added(program, import(alloc));
    added(program, audit(alloc))
}

/// The program with the commands that migrate, tell why, serve and check.
fn with_serving<'a>(alloc: Global, program: Made<'a>) -> Made<'a>
    ensures { (app : App) → IsProgram app program.entry → IsProgram (with_serving app) result }
{
    let program = added(program, migrate(alloc));
    let program = added(program, why(alloc));
    let program = added(program, pipe(alloc));
    let program = added(program, serve(alloc));
    added(program, check(alloc))
}

/// The program with the commands that ask a store, and the one that asks a log.
fn with_asking<'a>(alloc: Global, program: Made<'a>) -> Made<'a>
    ensures { (app : App) → IsProgram app program.entry → IsProgram (with_asking app) result }
{
    let program = added(program, who(alloc));
    let program = added(program, rights(alloc));
    let program = added(program, dump(alloc));
    let program = added(program, show(alloc));
    let program = added(program, ask(alloc));
    let program = added(program, differs(alloc));
    added(program, denials(alloc))
}

/// The program with the commands that make and keep stores.
fn with_keeping<'a>(alloc: Global, program: Made<'a>) -> Made<'a>
    ensures { (app : App) → IsProgram app program.entry → IsProgram (with_keeping app) result }
{
    let program = added(program, load(alloc));
    let program = added(program, compact(alloc));
    let program = added(program, backup(alloc));
    let program = added(program, restore(alloc));
    added(program, doctor(alloc))
}

/// The commands, their options and their help.
pub(crate) fn program<'a>(alloc: Global) -> Made<'a>
    ensures { IsProgram program_app result }
{
    let program = with_first(alloc, top(alloc));
    let program = with_serving(alloc, program);
    let program = with_asking(alloc, program);
    with_keeping(alloc, program)
}
