//! The commands, each with its own reading.
ghost use Rattle.std.specs.Prelude.{◌≡◌, ◌∷◌, IfOk, IfSome, codes, drop, map, true};
ghost use Rattle.std.specs.List.{list_all};
ghost use Rattle.clap.specs.Words.{first_value, found_of};
ghost use Rattle.command_words.specs.Reading.{goes_to_clap};
ghost use Rattle.command_words.specs.Names.{NamesAreText};
ghost use Rattle.command_words.specs.CommandLines.{analyse_by, analyse_of, command_reading, debug_by, debug_of, load_by, load_of, replay_by, replay_of, run_by, run_of, serve_by, serve_of};

use crate::any::read;
use crate::line::CommandLine;
use crate::number::{
    analyse_budget, edition_budget, load_functions, load_number, serve_hands, serve_port,
    serve_rounds,
};
use crate::said::texts_of;
use clap::ArgMatches;
use gob_tree::{Memory, Text};
use std::alloc::Global;

static NONE: [&str; 0] = [];

/// The reading of the words after the program's name, the first of which is the command; `None`
/// exactly where they have none. `Memory` is want of memory.
pub fn read_command(alloc: Global, words: &[Text]) -> Result<Option<CommandLine>, Memory>
    ensures read { IfOk result (λ o. o ≡ command_reading words.now) }
    ensures names { IfOk result (λ o. IfSome o NamesAreText) }
{
    match words {
        [] => Ok(None),
        [command, rest @ ..] => match texts_of(alloc, rest)? {
            Some(texts) => command_with(alloc, command.as_bytes(), texts.as_slice()),
            None => Ok(None),
        },
    }
}

/// The reading of a command and of the texts, after the program's name, that follow it.
fn command_with<'a>(
    alloc: Global,
    command: &[u8],
    texts: &'a [&'a str],
) -> Result<Option<CommandLine>, Memory>
    requires { list_all goes_to_clap (drop 1 (map (λ s. s.now) texts.now)) ≡ true }
    ensures { IfOk result (λ o. o ≡ command_reading (command.now ∷ drop 1 (map (λ s. s.now) texts.entry.now))) }
{
    if command == b"analyse".as_slice() {
        return analyse_of(alloc, texts);
    }
    if command == b"run".as_slice() {
        return run_of(alloc, texts);
    }
    if command == b"replay".as_slice() {
        return replay_of(alloc, texts);
    }
    if command == b"load".as_slice() {
        return load_of(alloc, texts);
    }
    if command == b"debug".as_slice() {
        return debug_of(alloc, texts);
    }
    if command == b"serve".as_slice() {
        return serve_of(alloc, texts);
    }
    Ok(None)
}

// ---- analyse FILE [--budget N]

fn analyse_of<'a>(alloc: Global, texts: &'a [&'a str]) -> Result<Option<CommandLine>, Memory>
    requires { list_all goes_to_clap (drop 1 (map (λ s. s.now) texts.now)) ≡ true }
    ensures { IfOk result (λ o. o ≡ analyse_of (drop 1 (map (λ s. s.now) texts.entry.now))) }
{
    match read(
        alloc,
        "analyse",
        ["file"].as_slice(),
        ["budget"].as_slice(),
        texts,
    )? {
        Some(matches) => analyse_by(alloc, &matches),
        None => Ok(None),
    }
}

fn analyse_by(alloc: Global, matches: &ArgMatches<'_>) -> Result<Option<CommandLine>, Memory>
    ensures { IfOk result (λ o. o ≡ analyse_by (first_value (found_of matches.now) (codes "file")) (first_value (found_of matches.now) (codes "budget"))) }
{
    let Some(file) = matches.get_str("file") else {
        return Ok(None);
    };
    let budget = matches.get_str("budget");
    let Some(budget) = analyse_budget(budget) else {
        return Ok(None);
    };
    let file = Text::of(alloc, file.as_bytes())?;
    Ok(Some(CommandLine::Analyse { file, budget }))
}

// ---- run FILE SCHEDULE

fn run_of<'a>(alloc: Global, texts: &'a [&'a str]) -> Result<Option<CommandLine>, Memory>
    requires { list_all goes_to_clap (drop 1 (map (λ s. s.now) texts.now)) ≡ true }
    ensures { IfOk result (λ o. o ≡ run_of (drop 1 (map (λ s. s.now) texts.entry.now))) }
{
    match read(
        alloc,
        "run",
        ["file", "schedule"].as_slice(),
        NONE.as_slice(),
        texts,
    )? {
        Some(matches) => run_by(alloc, &matches),
        None => Ok(None),
    }
}

fn run_by(alloc: Global, matches: &ArgMatches<'_>) -> Result<Option<CommandLine>, Memory>
    ensures { IfOk result (λ o. o ≡ run_by (first_value (found_of matches.now) (codes "file")) (first_value (found_of matches.now) (codes "schedule"))) }
{
    let Some(file) = matches.get_str("file") else {
        return Ok(None);
    };
    let Some(schedule) = matches.get_str("schedule") else {
        return Ok(None);
    };
    let file = Text::of(alloc, file.as_bytes())?;
    let schedule = Text::of(alloc, schedule.as_bytes())?;
    Ok(Some(CommandLine::Run { file, schedule }))
}

// ---- replay SCRIPT

fn replay_of<'a>(alloc: Global, texts: &'a [&'a str]) -> Result<Option<CommandLine>, Memory>
    requires { list_all goes_to_clap (drop 1 (map (λ s. s.now) texts.now)) ≡ true }
    ensures { IfOk result (λ o. o ≡ replay_of (drop 1 (map (λ s. s.now) texts.entry.now))) }
{
    match read(
        alloc,
        "replay",
        ["script"].as_slice(),
        NONE.as_slice(),
        texts,
    )? {
        Some(matches) => replay_by(alloc, &matches),
        None => Ok(None),
    }
}

fn replay_by(alloc: Global, matches: &ArgMatches<'_>) -> Result<Option<CommandLine>, Memory>
    ensures { IfOk result (λ o. o ≡ replay_by (first_value (found_of matches.now) (codes "script"))) }
{
    let Some(script) = matches.get_str("script") else {
        return Ok(None);
    };
    let script = Text::of(alloc, script.as_bytes())?;
    Ok(Some(CommandLine::Replay { script }))
}

// ---- load NUMBER [--functions N]

fn load_of<'a>(alloc: Global, texts: &'a [&'a str]) -> Result<Option<CommandLine>, Memory>
    requires { list_all goes_to_clap (drop 1 (map (λ s. s.now) texts.now)) ≡ true }
    ensures { IfOk result (λ o. o ≡ load_of (drop 1 (map (λ s. s.now) texts.entry.now))) }
{
    match read(
        alloc,
        "load",
        ["number"].as_slice(),
        ["functions"].as_slice(),
        texts,
    )? {
        Some(matches) => load_by(alloc, &matches),
        None => Ok(None),
    }
}

fn load_by(alloc: Global, matches: &ArgMatches<'_>) -> Result<Option<CommandLine>, Memory>
    ensures { IfOk result (λ o. o ≡ load_by (first_value (found_of matches.now) (codes "number")) (first_value (found_of matches.now) (codes "functions"))) }
{
    let Some(number) = matches.get_str("number") else {
        return Ok(None);
    };
    let Some(number) = load_number(number) else {
        return Ok(None);
    };
    let functions = matches.get_str("functions");
    let Some(functions) = load_functions(functions) else {
        return Ok(None);
    };
    Ok(Some(CommandLine::Load { number, functions }))
}

// ---- debug FILE [--budget N]

fn debug_of<'a>(alloc: Global, texts: &'a [&'a str]) -> Result<Option<CommandLine>, Memory>
    requires { list_all goes_to_clap (drop 1 (map (λ s. s.now) texts.now)) ≡ true }
    ensures { IfOk result (λ o. o ≡ debug_of (drop 1 (map (λ s. s.now) texts.entry.now))) }
{
    match read(
        alloc,
        "debug",
        ["file"].as_slice(),
        ["budget"].as_slice(),
        texts,
    )? {
        Some(matches) => debug_by(alloc, &matches),
        None => Ok(None),
    }
}

fn debug_by(alloc: Global, matches: &ArgMatches<'_>) -> Result<Option<CommandLine>, Memory>
    ensures { IfOk result (λ o. o ≡ debug_by (first_value (found_of matches.now) (codes "file")) (first_value (found_of matches.now) (codes "budget"))) }
{
    let Some(file) = matches.get_str("file") else {
        return Ok(None);
    };
    let budget = matches.get_str("budget");
    let Some(budget) = edition_budget(budget) else {
        return Ok(None);
    };
    let file = Text::of(alloc, file.as_bytes())?;
    Ok(Some(CommandLine::Debug { file, budget }))
}

// ---- serve FILE [--hands H] [--rounds R] [--port P] [--budget N]

fn serve_of<'a>(alloc: Global, texts: &'a [&'a str]) -> Result<Option<CommandLine>, Memory>
    requires { list_all goes_to_clap (drop 1 (map (λ s. s.now) texts.now)) ≡ true }
    ensures { IfOk result (λ o. o ≡ serve_of (drop 1 (map (λ s. s.now) texts.entry.now))) }
{
    match read(
        alloc,
        "serve",
        ["file"].as_slice(),
        ["hands", "rounds", "port", "budget"].as_slice(),
        texts,
    )? {
        Some(matches) => serve_by(alloc, &matches),
        None => Ok(None),
    }
}

fn serve_by(alloc: Global, matches: &ArgMatches<'_>) -> Result<Option<CommandLine>, Memory>
    ensures { IfOk result (λ o. o ≡ serve_by (first_value (found_of matches.now) (codes "file")) (first_value (found_of matches.now) (codes "hands")) (first_value (found_of matches.now) (codes "rounds")) (first_value (found_of matches.now) (codes "port")) (first_value (found_of matches.now) (codes "budget"))) }
{
    let Some(file) = matches.get_str("file") else {
        return Ok(None);
    };
    let hands = matches.get_str("hands");
    let Some(hands) = serve_hands(hands) else {
        return Ok(None);
    };
    let rounds = matches.get_str("rounds");
    let Some(rounds) = serve_rounds(rounds) else {
        return Ok(None);
    };
    let port = matches.get_str("port");
    let Some(port) = serve_port(port) else {
        return Ok(None);
    };
    let budget = matches.get_str("budget");
    let Some(budget) = edition_budget(budget) else {
        return Ok(None);
    };
    let file = Text::of(alloc, file.as_bytes())?;
    Ok(Some(CommandLine::Serve {
        file,
        hands,
        rounds,
        port,
        budget,
    }))
}
