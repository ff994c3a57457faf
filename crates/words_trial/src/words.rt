use command_words::{CommandLine, read_command};
use gob_tree::Text;
use std::alloc::Global;
use std::test::Fail;

/// The text of these words' reading: the command and its fields, or `none`.
fn reading(alloc: Global, all: &[&str]) -> Result<String, Fail> {
    let mut words = Vec::new(alloc);
    for word in all {
        words.push(Text::of(alloc, word.as_bytes())?)?;
    }
    match read_command(alloc, words.as_slice())? {
        Some(line) => shown(alloc, &line),
        None => Ok(String::from_str(alloc, "none")?),
    }
}

fn shown(alloc: Global, line: &CommandLine) -> Result<String, Fail> {
    let text = match line {
        CommandLine::Analyse { file, budget } => {
            format!(in alloc; "analyse {} {budget}", name(file))?
        }
        CommandLine::Run { file, schedule } => {
            format!(in alloc; "run {} {}", name(file), name(schedule))?
        }
        CommandLine::Replay { script } => format!(in alloc; "replay {}", name(script))?,
        CommandLine::Load { number, functions } => format!(in alloc; "load {number} {functions}")?,
        CommandLine::Debug { file, budget } => format!(in alloc; "debug {} {budget}", name(file))?,
        CommandLine::Serve {
            file,
            hands,
            rounds,
            port,
            budget,
        } => format!(in alloc; "serve {} {hands} {rounds} {port} {budget}", name(file))?,
    };
    Ok(text)
}

fn name(text: &Text) -> &str {
    text.as_str().unwrap_or("")
}

/// Each command with each option, in both forms and in several places.
const READ: [(&[&str], &str); 21] = [
    (&["analyse", "f.c"], "analyse f.c 100000"),
    (&["analyse", "f.c", "--budget", "5"], "analyse f.c 5"),
    (&["analyse", "f.c", "--budget=5"], "analyse f.c 5"),
    (&["analyse", "--budget", "5", "f.c"], "analyse f.c 5"),
    (
        &["analyse", "--budget=10000000", "f.c"],
        "analyse f.c 10000000",
    ),
    (
        &["analyse", "--budget", "00000001", "analyse"],
        "analyse analyse 1",
    ),
    (&["analyse", "a=b"], "analyse a=b 100000"),
    (&["analyse", "\u{e9}.c"], "analyse \u{e9}.c 100000"),
    (&["run", "f.c", "s.txt"], "run f.c s.txt"),
    (&["replay", "r.txt"], "replay r.txt"),
    (&["load", "0"], "load 0 40"),
    (
        &["load", "999999999999999999", "--functions=120"],
        "load 999999999999999999 120",
    ),
    (&["load", "--functions", "1", "007"], "load 7 1"),
    (&["debug", "f.c"], "debug f.c 20000"),
    (&["debug", "f.c", "--budget", "50000"], "debug f.c 50000"),
    (&["debug", "--budget=1", "f.c"], "debug f.c 1"),
    (&["serve", "f.c"], "serve f.c 1 1 4711 20000"),
    (
        &["serve", "--hands=8", "f.c", "--rounds", "1000"],
        "serve f.c 8 1000 4711 20000",
    ),
    (
        &["serve", "f.c", "--port=1024", "--budget=50000"],
        "serve f.c 1 1 1024 50000",
    ),
    (
        &["serve", "--port", "65000", "--hands", "2", "f.c"],
        "serve f.c 2 1 65000 20000",
    ),
    (
        &["serve", "--rounds=2", "--budget", "7", "f.c"],
        "serve f.c 1 2 4711 7",
    ),
];

/// Words that have no reading, one refusal each.
const REFUSED: [&[&str]; 46] = [
    &[],
    &[""],
    &["solve", "f.c"],
    &["Analyse", "f.c"],
    &["--budget=5", "analyse", "f.c"],
    &["analyse"],
    &["analyse", "f.c", "g.c"],
    &["analyse", "--budget", "5"],
    &["analyse", "f.c", "--budget"],
    &["analyse", "--budget", "--budget=5", "f.c"],
    &["analyse", "f.c", "--budget=5", "--budget=5"],
    &["analyse", "f.c", "--budget", "5", "--budget=6"],
    &["analyse", "f.c", "--hands=1"],
    &["analyse", "f.c", "--budge=5"],
    &["analyse", "f.c", "-b5"],
    &["analyse", ""],
    &["analyse", "-"],
    &["analyse", "-5"],
    &["analyse", "-f.c"],
    &["analyse", "--", "f.c"],
    &["analyse", "f.c", "--"],
    &["analyse", "--help"],
    &["analyse", "f.c", "--help"],
    &["analyse", "--budget", "--help", "f.c"],
    &["analyse", "-h"],
    &["analyse", "f.c", "-h"],
    &["analyse", "f.c", "--=5"],
    &["analyse", "f.c", "--budget="],
    &["analyse", "f.c", "--budget", ""],
    &["analyse", "f.c", "--budget=-5"],
    &["analyse", "f.c", "--budget=+5"],
    &["analyse", "f.c", "--budget=5x"],
    &["analyse", "f.c", "--budget=0"],
    &["analyse", "f.c", "--budget=10000001"],
    &["analyse", "f.c", "--budget=000000001"],
    &["run", "f.c"],
    &["run", "f.c", "s.txt", "t.txt"],
    &["run", "f.c", "s.txt", "--budget=5"],
    &["replay"],
    &["load", "1000000000000000000"],
    &["load", "1", "--functions=121"],
    &["load", "x"],
    &["debug", "f.c", "--budget=50001"],
    &["serve", "f.c", "--hands", "9"],
    &["serve", "f.c", "--rounds=1001"],
    &["serve", "f.c", "--port=1023"],
];

#[test]
fn words_are_read(rt: HostRuntime) -> Result<(), Fail> {
    for (words, wanted) in READ {
        let text = reading(rt.alloc(), words)?;
        assert_eq!(rt; text.as_str(), wanted);
    }
    Ok(())
}

#[test]
fn words_without_a_reading_are_refused(rt: HostRuntime) -> Result<(), Fail> {
    for (i, words) in REFUSED.iter().enumerate() {
        let text = reading(rt.alloc(), *words)?;
        assert_eq!(rt; text.as_str(), "none", "list {i}");
    }
    Ok(())
}

#[test]
fn words_that_are_not_utf8_are_refused(rt: HostRuntime) -> Result<(), Fail> {
    let mut words = Vec::new(rt.alloc());
    words.push(Text::of(rt.alloc(), b"analyse")?)?;
    words.push(Text::of(rt.alloc(), b"\xff.c")?)?;
    assert!(rt; read_command(rt.alloc(), words.as_slice())?.is_none());
    Ok(())
}
