//! The arguments of the program.
ghost use Rattle.std.specs.Prelude.{Some};

use crate::ran::NAME;
use gob_outside::{MemFiles, MemSink};
use gob_tree::{Memory, Text};
use gobpie_main::{Arguments, Status, run_arguments};
use std::alloc::Global;
use std::process::ExitCode;
use std::test::Fail;

/// Arguments in memory.
#[derive(Drop)]
struct MemArguments {
    all: Vec<Text>,
}

impl Arguments for MemArguments {
    ghost told = { λ arguments. Some arguments.all.items };

    fn argument(&self, alloc: Global, place: usize) -> Result<Option<Text>, Memory> {
        match self.all.get(place) {
            Some(argument) => {
                let copy = argument.copy(alloc)?;
                Ok(Some(copy))
            }
            None => Ok(None),
        }
    }
}

/// How the program ends that is started with these arguments.
fn ended(alloc: Global, arguments: &[&[u8]]) -> Result<ExitCode, Fail> {
    let mut all = Vec::new(alloc);
    for argument in arguments {
        all.push(Text::of(alloc, *argument)?)?;
    }
    let mut held = Vec::new(alloc);
    held.push((
        Text::of(alloc, NAME.as_bytes())?,
        Vec::from_slice(alloc, b"int main(void) { return 0; }")?,
    ))?;
    let mut files = MemFiles::new(alloc, held, Vec::new(alloc))?;
    let mut out = MemSink::new(alloc, 1000, 7, Vec::new(alloc))?;
    Ok(run_arguments(alloc, &MemArguments { all }, &mut files, &mut out))
}

#[test]
fn the_words_are_all_arguments_but_the_name(rt: HostRuntime) -> Result<(), Fail> {
    let rows: [(&[&[u8]], u8); 9] = [
        (&[], 2),
        (&[b"gobpie"], 2),
        (&[b"gobpie", b"analyse"], 2),
        (&[b"gobpie", b"analyse", b"one.c"], 0),
        (&[b"\xff", b"analyse", b"one.c"], 0),
        (&[b"gobpie", b"analyse", b"\xff"], 2),
        (&[b"gobpie", b"analyse", b"one.c", b"\xff"], 2),
        (&[b"gobpie", b"analyse", b"one.c", b"one.c"], 2),
        (&[b"gobpie", b"analyse", b"one.c", b"--budget", b"1"], 7),
    ];
    for (arguments, wanted) in rows {
        assert!(rt;
            ended(rt.alloc(), arguments)? == ExitCode::from(wanted),
            "{wanted}"
        );
    }
    Ok(())
}

#[test]
fn statuses_have_their_numbers(rt: HostRuntime) {
    let rows = [
        (Status::Ok, 0),
        (Status::Usage, 2),
        (Status::ReadFault, 3),
        (Status::WriteFault, 4),
        (Status::SourceRefused, 5),
        (Status::Spent, 7),
        (Status::Memory, 9),
    ];
    for (status, number) in rows {
        assert_eq!(rt; status.number(), number);
    }
}
