ghost use Rattle.std.specs.Prelude.{◌≡◌, Some, IsOk, IfOk, refl};
ghost use Rattle.std.proofs.Common.{ap, ◌∙◌};
ghost use Rattle.gob_outside.specs.MemSource.{ReadsOn};
ghost use Rattle.gob_outside.specs.MemSink.{WritesOn, told};
ghost use Rattle.gob_outside.specs.Steps.{reads_stay, reads_go_on, writes_stay, writes_go_on};

use crate::connection::Connection;
use crate::failed::Failed;
use crate::mem_sink::MemSink;
use crate::mem_source::MemSource;
use crate::sink::Sink;
use crate::source::Source;
use gob_tree::Memory;

/// A connection in memory: a source and a sink, side by side.
#[derive(Debug, Drop)]
pub struct MemConn {
    source: MemSource,
    sink: MemSink,
}

impl MemConn {
    /// A connection of these two. It takes no memory.
    pub fn new(source: MemSource, sink: MemSink) -> Result<MemConn, Memory>
        ensures made { IsOk result }
        ensures source { IfOk result (λ conn. conn.source ≡ source) }
        ensures sink { IfOk result (λ conn. conn.sink ≡ sink) }
    {
        Ok(MemConn { source, sink })
    }

    /// What was written to the connection.
    pub fn sink(&self) -> &MemSink
        ensures { result.now ≡ self.now.sink }
    {
        &self.sink
    }
}

impl Source for MemConn {
    ghost left = { λ conn. Some conn.source.left };

    ghost read_faults = { λ conn. conn.source.faults };

    ghost ends = { λ conn. conn.source.ends };

    ghost read_step = { λ before after. ReadsOn before.source after.source × (after.sink ≡ before.sink) };

    fn read(&mut self, into: &mut [u8]) -> Result<usize, Failed> {
        self.source.read(into)
    }

    ghost read_stays = { λ before. (reads_stay before.source, refl) };

    ghost read_goes_on = { λ before between after first second.
        (reads_go_on before.source between.source after.source first.0 second.0, second.1 ∙ first.1) };
}

impl Sink for MemConn {
    ghost seen = { λ conn. told conn.sink };

    ghost write_step = { λ before after. WritesOn before.sink after.sink × (after.source ≡ before.source) };

    fn write(&mut self, piece: &[u8]) -> Result<usize, Failed> {
        self.sink.write(piece)
    }

    fn flush(&mut self) -> Result<(), Failed> {
        self.sink.flush()
    }

    ghost write_stays = { λ before. (writes_stay before.sink, refl) };

    ghost write_goes_on = { λ before between after first second.
        (writes_go_on before.sink between.sink after.sink first.0 second.0, second.1 ∙ first.1) };
}

impl Connection for MemConn {
    ghost read_leaves = { λ before after step. ap told step.1 };

    ghost write_leaves = { λ before after step. (
      ap (λ source. Some source.left) step.1,
      ap (λ source. source.ends) step.1,
      ap (λ source. source.faults) step.1,
    ) };
}
