//! A load that answers want of memory.
ghost use Rattle.std.specs.Prelude.{None};

use gob_outside::{FileFail, Files, MemSink};
use gob_tree::Text;
use gobpie_main::{Status, run_batch};
use std::alloc::Global;
use std::test::Fail;

/// Files of which none can be loaded for want of memory.
#[derive(Drop)]
struct HeavyFiles {}

impl Files for HeavyFiles {
    ghost seen = { λ _. record { contents = None; faults = λ _. 0; asked = None } };

    fn load(&mut self, _alloc: Global, _name: &str, _limit: usize) -> Result<Vec<u8>, FileFail> {
        Err(FileFail::Memory)
    }
}

#[test]
fn want_of_memory_has_its_status_and_its_line(rt: HostRuntime) -> Result<(), Fail> {
    let mut words = Vec::new(rt.alloc());
    words.push(Text::of(rt.alloc(), b"analyse")?)?;
    words.push(Text::of(rt.alloc(), b"one.c")?)?;
    let mut out = MemSink::new(rt.alloc(), 100, 100, Vec::new(rt.alloc()))?;
    let status = run_batch(rt.alloc(), words.as_slice(), &mut HeavyFiles {}, &mut out);
    assert_eq!(rt; status, Status::Memory);
    assert_eq!(rt; status.number(), 9);
    assert_eq!(rt; out.written(), b"memory\n".as_slice());
    Ok(())
}
