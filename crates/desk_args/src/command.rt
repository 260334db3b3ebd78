//! The program's commands, as clap reads them.

ghost use Rattle.std.specs.Prelude.{◌≡◌, ◌++◌, List, IfOk, IfErr, OnOk};
ghost use Rattle.std.specs.Prelude.{[], ◌∷◌, map, string_bytes, false};
ghost use Rattle.clap.specs.Words.{App, Rule, fault_of, kind_of, new_app};
ghost use Rattle.clap.specs.Words.{rule_of, subcommand_of, subcommand_rows_of};
ghost use Rattle.desk_args.specs.CommandLine as line;
ghost use Rattle.desk_args.specs.CommandLine.{desk_app};
ghost use Rattle.desk_args.specs.private.Commands.{AreCommands, HasRules, IsCommand, with_rules};
ghost use Rattle.desk_args.specs.declared.fault.JobFault.TheVariants.{BadWord, NoMemory};

use crate::fault::JobFault;
use clap::error::ErrorKind;
use clap::{Arg, ArgAction, ArgMatches, Command};
use std::alloc::{AllocError, Global};

/// The program's version, and the logic that it is proved in, as `rt version` names it.
const VERSION: &str = "0.19.0\nproved with rattle logic dac8208d650f15bf";

/// The text below each help.
const ENDS: &str =
    "Exit status: 0 done or allowed; 1 denied or found; 2 refused, with a code.\nManual page: desk(1).";

/// The arguments of `decide` that have one value each.
const DECIDE_ARGS: [(&str, &str); 6] = [
    ("FILE", "The policy"),
    ("USER", "Who runs the command"),
    ("HOST", "The host that it runs on"),
    ("RUNAS", "The user that it runs as"),
    ("AT", "When it runs, as yyyymmddHHMMSSZ"),
    ("PATH", "The command's path"),
];

/// The arguments that `beyond` wants.
const BEYOND_ARGS: [(&str, &str); 2] = [
    ("A", "The policy that may allow more"),
    ("B", "The policy that it is compared with"),
];

/// The options of `beyond`: their names, how they are written, and their helps.
const BEYOND_OPTIONS: [(&str, &str, &str); 3] = [
    ("USER", "user", "Look at this user alone"),
    ("HOST", "host", "Look at this host alone"),
    ("RUNAS", "runas", "Look at this target alone"),
];

/// The option of each command on a desk.
const SYNC: (&str, &str, &str) = (
    "SYNC",
    "sync",
    "Sync STORE once or twice a commit [default: once]",
);

/// The options of `print`.
const PRINT_OPTIONS: [(&str, &str, &str); 2] = [
    SYNC,
    (
        "AFTER",
        "after",
        "Leave out the lines that end before this moment",
    ),
];

/// The options of `serve`.
const SERVE_OPTIONS: [(&str, &str, &str); 3] = [
    SYNC,
    ("REQUESTS", "requests", "End after so many connections"),
    (
        "QUESTIONS",
        "questions",
        "An address for questions alone, without messages",
    ),
];

/// The arguments that `rebuild` wants.
const REBUILD_ARGS: [(&str, &str); 3] = [
    ("ROSTER", "The roster that the desk is to have"),
    ("BASE", "The base policy"),
    ("STORE", STORE_HELP),
];

/// The help of STORE.
const STORE_HELP: &str = "The database that keeps the messages, or `-`: kept in memory alone";

fn wanted<'a>(alloc: Global, id: &'a str, help: &'a str) -> Arg<'a>
    ensures rule { rule_of result ≡ line.wanted id.entry.now }
    ensures global { result.global ≡ false }
{
    Arg::new(alloc, id)
        .required(true)
        .action(ArgAction::Set)
        .help(help)
}

fn several<'a>(alloc: Global, id: &'a str, help: &'a str) -> Arg<'a>
    ensures rule { rule_of result ≡ line.several id.entry.now }
    ensures global { result.global ≡ false }
{
    Arg::new(alloc, id).action(ArgAction::Append).help(help)
}

fn optional<'a>(alloc: Global, id: &'a str, long: &'a str, help: &'a str) -> Arg<'a>
    ensures rule { rule_of result ≡ line.optional id.entry.now long.entry.now }
    ensures global { result.global ≡ false }
{
    Arg::new(alloc, id)
        .long(long)
        .action(ArgAction::Set)
        .help(help)
}

/// Adds arguments that have one value each and may not be left out, by their names and helps.
fn push_wanted<'a>(
    alloc: Global,
    args: &mut Vec<Arg<'a>>,
    names: &[(&'a str, &'a str)],
) -> Result<(), AllocError>
    ensures { (rules : List Rule) → HasRules args.old.items rules → OnOk result
        (HasRules args.new.items (rules ++ map (λ n. line.wanted n.0.now) names.now)) }
{
    for (id, help) in names {
        args.push(wanted(alloc, id, help))?;
    }
    Ok(())
}

/// Adds an argument that has any number of values.
fn push_several<'a>(
    alloc: Global,
    args: &mut Vec<Arg<'a>>,
    id: &'a str,
    help: &'a str,
) -> Result<(), AllocError>
    ensures { (rules : List Rule) → HasRules args.old.items rules
        → OnOk result (HasRules args.new.items (rules ++ line.several id.entry.now ∷ [])) }
{
    Ok(args.push(several(alloc, id, help))?)
}

/// Adds options, by their names, how they are written, and helps.
fn push_options<'a>(
    alloc: Global,
    args: &mut Vec<Arg<'a>>,
    options: &[(&'a str, &'a str, &'a str)],
) -> Result<(), AllocError>
    ensures { (rules : List Rule) → HasRules args.old.items rules → OnOk result
        (HasRules args.new.items (rules ++ map (λ o. line.optional o.0.now o.1.now) options.now)) }
{
    for (id, long, help) in options {
        args.push(optional(alloc, id, long, help))?;
    }
    Ok(())
}

/// The command of this name with these arguments.
fn command_of<'a>(
    alloc: Global,
    name: &'a str,
    about: &'a str,
    args: Vec<Arg<'a>>,
) -> Result<Command<'a>, AllocError>
    ensures { (rules : List Rule) → HasRules args.entry.items rules
        → IfOk result (IsCommand (with_rules (new_app name.entry.now) rules)) }
{
    Command::new(alloc, name)
        .about(about)
        .after_help(ENDS)
        .args(args)
}

/// The command of this name, which wants arguments and takes options, by their names and helps.
fn command_with<'a>(
    alloc: Global,
    name: &'a str,
    about: &'a str,
    names: &[(&'a str, &'a str)],
    options: &[(&'a str, &'a str, &'a str)],
) -> Result<Command<'a>, AllocError>
    ensures { IfOk result (IsCommand (with_rules (new_app name.entry.now) (map (λ n.
        line.wanted n.0.now) names.now ++ map (λ o. line.optional o.0.now o.1.now) options.now))) }
{
    let mut args: Vec<Arg<'a>> = Vec::new(alloc);
    push_wanted(alloc, &mut args, names)?;
    push_options(alloc, &mut args, options)?;
    command_of(alloc, name, about, args)
}

/// A command on a desk, which wants its roster, its base policy and its store, and then an argument
/// of its own.
fn on_desk<'a>(
    alloc: Global,
    name: &'a str,
    about: &'a str,
    id: &'a str,
    help: &'a str,
    options: &[(&'a str, &'a str, &'a str)],
) -> Result<Command<'a>, AllocError>
    ensures { IfOk result (IsCommand (with_rules (new_app name.entry.now) (map line.wanted
        (line.desk_args id.entry.now) ++ map (λ o. line.optional o.0.now o.1.now) options.now))) }
{
    let names = [
        ("ROSTER", "The roster"),
        ("BASE", "The base policy"),
        ("STORE", STORE_HELP),
        (id, help),
    ];
    command_with(alloc, name, about, &names, options)
}

fn check<'a>(alloc: Global) -> Result<Command<'a>, AllocError>
    ensures { IfOk result (IsCommand line.check) }
{
    let about = "Print the canonical text of a policy";
    command_with(alloc, "check", about, &[("FILE", "The policy")], &[])
}

fn decide<'a>(alloc: Global) -> Result<Command<'a>, AllocError>
    ensures { IfOk result (IsCommand line.decide) }
{
    let about = "Decide one run of a command by a policy";
    let mut args: Vec<Arg<'a>> = Vec::new(alloc);
    push_wanted(alloc, &mut args, &DECIDE_ARGS)?;
    let help = "The command's arguments, behind `--` where one begins with `-`";
    push_several(alloc, &mut args, "ARGS", help)?;
    command_of(alloc, "decide", about, args)
}

fn beyond<'a>(alloc: Global) -> Result<Command<'a>, AllocError>
    ensures { IfOk result (IsCommand line.beyond) }
{
    let about = "Find what one policy allows and another refuses";
    command_with(alloc, "beyond", about, &BEYOND_ARGS, &BEYOND_OPTIONS)
}

fn deliver<'a>(alloc: Global) -> Result<Command<'a>, AllocError>
    ensures { IfOk result (IsCommand line.deliver) }
{
    let about = "Deliver the messages on standard input, and print the answer to each";
    let help = "The relay that the messages come from";
    on_desk(alloc, "deliver", about, "RELAY", help, &[SYNC])
}

fn print<'a>(alloc: Global) -> Result<Command<'a>, AllocError>
    ensures { IfOk result (IsCommand line.print) }
{
    let about = "Print a host's sudoers file, from a base policy and a desk's messages";
    on_desk(alloc, "print", about, "HOST", "The host", &PRINT_OPTIONS)
}

fn review<'a>(alloc: Global) -> Result<Command<'a>, AllocError>
    ensures { IfOk result (IsCommand line.review) }
{
    let about = "Print who holds what at a moment, and which approvals do not count";
    let help = "The moment, as 20260105093000Z";
    on_desk(alloc, "review", about, "AT", help, &[SYNC])
}

fn rebuild<'a>(alloc: Global) -> Result<Command<'a>, AllocError>
    ensures { IfOk result (IsCommand line.rebuild) }
{
    let about = "Take a desk over to another roster, and keep its messages";
    command_with(alloc, "rebuild", about, &REBUILD_ARGS, &[SYNC])
}

fn serve<'a>(alloc: Global) -> Result<Command<'a>, AllocError>
    ensures { IfOk result (IsCommand line.serve) }
{
    let about = "Serve a desk over HTTP";
    let help = "The address and port to listen at, or unix: and a path";
    on_desk(alloc, "serve", about, "ADDR", help, &SERVE_OPTIONS)
}

/// Adds a command, if it could be made.
fn push_made<'a>(
    commands: &mut Vec<Command<'a>>,
    made: Result<Command<'a>, AllocError>,
) -> Result<(), AllocError>
    ensures { (apps : List App) (app : App) → AreCommands commands.old.items apps → IfOk made.entry
        (IsCommand app) → OnOk result (AreCommands commands.new.items (apps ++ app ∷ [])) }
{
    Ok(commands.push(made?)?)
}

/// Adds the commands on policies.
fn push_on_policies<'a>(alloc: Global, commands: &mut Vec<Command<'a>>) -> Result<(), AllocError>
    ensures { (apps : List App) → AreCommands commands.old.items apps
        → OnOk result (AreCommands commands.new.items (apps ++ line.on_policies)) }
{
    push_made(commands, check(alloc))?;
    push_made(commands, decide(alloc))?;
    push_made(commands, beyond(alloc))
}

/// Adds the commands on a desk.
fn push_on_desks<'a>(alloc: Global, commands: &mut Vec<Command<'a>>) -> Result<(), AllocError>
    ensures { (apps : List App) → AreCommands commands.old.items apps
        → OnOk result (AreCommands commands.new.items (apps ++ line.on_desks)) }
{
    push_made(commands, deliver(alloc))?;
    push_made(commands, print(alloc))?;
    push_made(commands, review(alloc))?;
    push_made(commands, rebuild(alloc))?;
    push_made(commands, serve(alloc))
}

fn command<'a>(alloc: Global) -> Result<Command<'a>, AllocError>
    ensures { IfOk result (IsCommand desk_app) }
{
    let mut commands = Vec::new(alloc);
    push_on_policies(alloc, &mut commands)?;
    push_on_desks(alloc, &mut commands)?;
    Command::new(alloc, "desk")
        .about("A privileged access desk")
        .version(VERSION)
        .after_help(ENDS)
        .subcommand_required(true)
        .subcommands(commands)
}

fn fault_of_error(error: clap::Error) -> JobFault
    ensures memory { kind_of error ≡ ErrorKind.OutOfMemory → result ≡ NoMemory }
    ensures word { result ≡ BadWord → ⊥ }
{
    match error.kind() {
        ErrorKind::OutOfMemory => JobFault::NoMemory,
        _ => JobFault::Usage(error),
    }
}

/// The matches of the words, by clap's rules.
pub fn parsed<'a>(alloc: Global, words: &'a [String]) -> Result<ArgMatches<'a>, JobFault>
    ensures faultless { IfOk result
        (λ m. fault_of desk_app (map string_bytes words.entry.now) ≡ []) }
    ensures matches { IfOk result
        (λ m. subcommand_rows_of m ≡ subcommand_of desk_app (map string_bytes words.entry.now)) }
    ensures only { IfErr result
        (λ e. fault_of desk_app (map string_bytes words.entry.now) ≡ [] → e ≡ NoMemory) }
    ensures word { IfErr result (λ e. e ≡ BadWord → ⊥) }
{
    let command = command(alloc)?;
    match command.try_get_matches_from(words) {
        Ok(matches) => Ok(matches),
        Err(error) => Err(fault_of_error(error)),
    }
}
