ghost use Rattle.std.specs.Prelude.{◌≡◌, ◌≢◌, ◌≤◌, ℕ, List, [], All, length};
ghost use Rattle.c_lex.specs.declared.fault.LexFault.{LexFault};
ghost use Rattle.c_lex.specs.declared.fault.LexFault.TheVariants.{Memory};
ghost use Rattle.c_lex.specs.declared.token.Token.{Token};
ghost use Rattle.c_lex.specs.Tokens.{Piece, texts, Cuts, AreTokens, IsFirstFault, IsInText};

/// A text has at most one cut, whose pieces together are the text, and one outcome: its tokens or its
/// first fault. Its tokens are parts of it, and no more than its bytes.
pub fn one_cut()
    ensures cut { (text : List ℕ) (a b : List Piece) → Cuts text a [] → Cuts text b [] → a ≡ b }
    ensures whole { (text : List ℕ) (pieces : List Piece) → Cuts text pieces [] → texts pieces ≡ text }
    ensures tokens { (text : List ℕ) (a b : List Token) → AreTokens text a → AreTokens text b → a ≡ b }
    ensures fault { (text : List ℕ) (f g : LexFault) → IsFirstFault text f → IsFirstFault text g
        → f ≢ Memory → g ≢ Memory → f ≡ g }
    ensures either { (text : List ℕ) (tokens : List Token) (f : LexFault) → AreTokens text tokens
        → f ≢ Memory → ¬ (IsFirstFault text f) }
    ensures inside { (text : List ℕ) (tokens : List Token) → AreTokens text tokens
        → All (IsInText text) tokens }
    ensures count { (text : List ℕ) (tokens : List Token) → AreTokens text tokens
        → length tokens ≤ length text }
{}
