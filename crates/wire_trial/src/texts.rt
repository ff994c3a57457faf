ghost use Rattle.std.specs.Prelude.{IfOk};
ghost use Rattle.dap_wire.specs.Texts.{IsText};

use gob_tree::{Memory, Text};

/// A text that a message may have.
#[tactic(auto, using(dap_wire::proofs::TextFacts::utf8_text))]
pub(crate) fn text(rt: &HostRuntime, words: &str) -> Result<Text, Memory>
    ensures { IfOk result IsText }
{
    Text::of(rt.alloc(), words.as_bytes())
}
