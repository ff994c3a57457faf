//! What names are made of.
ghost use Rattle.std.specs.Prelude.{List, ℕ, IsUtf8};
ghost use Rattle.gob_tree.specs.Words.{IsWord};

/// A word is text: its bytes are UTF-8 (RFC 3629).
pub fn words_are_text()
    ensures { (word : List ℕ) → IsWord word → IsUtf8 word }
{}
