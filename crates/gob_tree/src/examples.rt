ghost use Rattle.std.specs.Prelude.{◌≡◌, true, false, map, replicate, [], ◌∷◌, All, codes};
ghost use Rattle.gob_tree.specs.Formed.{IsFormed};
ghost use Rattle.gob_tree.specs.WellMade.{IsWellMade, is_made, is_made_expr, ends_in_return};
ghost use Rattle.gob_tree.specs.WellMadeExamples.{good_unit, sample, good_exprs, bad_exprs, good_stmts, bad_stmts, main_body, increment, program_returning};
ghost use Rattle.gob_tree.specs.Words.{IsWord, HasWordNames};
ghost use Rattle.gob_tree.specs.WordExamples.{some_words, no_words, program_of_names};

use crate::expr::Width;

/// A well-made unit with functions of every kind; expressions and statements that may stand in it
/// and ones that may not; and a body that doesn't end in a `return`.
pub fn well_made_by_hand()
    ensures unit { IsWellMade good_unit }
    ensures expressions { map (is_made_expr good_unit sample) good_exprs ≡ replicate 8 true }
    ensures wrong_expressions { map (is_made_expr good_unit sample) bad_exprs ≡ replicate 14 false }
    ensures statements { map (is_made good_unit sample) good_stmts ≡ replicate 15 true }
    ensures wrong_statements { map (is_made good_unit sample) bad_stmts ≡ replicate 22 false }
    ensures no_return { ends_in_return (increment ∷ []) ≡ false }
{}

/// A program of `main` alone is formed where it returns an int, and not where it returns a `long`.
pub fn formed_by_hand()
    ensures int_main { IsFormed (program_returning Width.W32) }
    ensures long_main { ¬ IsFormed (program_returning Width.W64) }
{}

/// Words, and texts that are none. A program has word names where its function, global, mutex and
/// thread variable are named by words and its slot by a word or not at all, and not where one of
/// them has another name.
pub fn words_by_hand()
    ensures words { All IsWord some_words }
    ensures no_words { All (λ name. ¬ IsWord name) no_words }
    ensures named { HasWordNames (program_of_names (codes "f") (codes "g") (codes "m") (codes "t") (codes "x")) }
    ensures unnamed_slot { HasWordNames (program_of_names (codes "f") (codes "g") (codes "m") (codes "t") []) }
    ensures function { ¬ HasWordNames (program_of_names [] (codes "g") (codes "m") (codes "t") (codes "x")) }
    ensures global { ¬ HasWordNames (program_of_names (codes "f") [] (codes "m") (codes "t") (codes "x")) }
    ensures mutex { ¬ HasWordNames (program_of_names (codes "f") (codes "g") [] (codes "t") (codes "x")) }
    ensures thread { ¬ HasWordNames (program_of_names (codes "f") (codes "g") (codes "m") [] (codes "x")) }
    ensures slot { ¬ HasWordNames (program_of_names (codes "f") (codes "g") (codes "m") (codes "t") (codes "2")) }
{}
