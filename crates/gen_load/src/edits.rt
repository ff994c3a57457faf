ghost use Rattle.std.specs.Prelude.{◌≡◌, ◌<◌, ◌≤◌, length, IfOk};
ghost use Rattle.gen_load.specs.Drawing.{choices};
ghost use Rattle.gen_load.specs.Generated.{raised_at, edit_texts};

use crate::choice::{Choice, choices_of};
use crate::program::text_with;
use gob_tree::{Memory, Seq, Text};
use std::alloc::Global;

// How many edits a program gets.
const EDITS: u32 = 8;

/// The texts of the eight edits of the program with this number and this many functions, each an
/// edit of the one before: edit k, counted from 0, gives function `k % functions` its next
/// constant, which after 99 is 0.
#[tactic(auto, using(crate::proofs::Counting::after_edits_next, crate::proofs::Counting::edit_texts_next))]
pub fn edits_of(alloc: Global, number: u64, functions: u32) -> Result<Seq<Text>, Memory>
    requires some { 0 < functions }
    requires few { functions ≤ 120 }
    ensures { IfOk result (λ texts. texts ≡ edit_texts functions (choices number functions) 8) }
{
    let mut choices = choices_of(alloc, number, functions)?;
    let mut texts = Seq::new(alloc);
    for edit in 0..EDITS {
        raise_constant(choices.as_mut_slice(), (edit % functions) as usize);
        let text = text_with(alloc, functions, choices.as_slice())?;
        texts.push(Text::of(alloc, text.as_bytes())?)?;
    }
    Ok(texts)
}

// Gives a function its next constant.
#[tactic(auto, using(crate::proofs::Raising::raised_at_is_set, crate::proofs::Raising::raised_at_past, crate::proofs::Raising::next_constant))]
fn raise_constant(choices: &mut [Choice], function: usize)
    ensures { choices.new ≡ raised_at choices.old function }
{
    if function < choices.len() {
        let choice = choices[function];
        choices[function] = Choice {
            form: choice.form,
            constant: (choice.constant % 100 + 1) % 100,
            global: choice.global,
        };
    }
}

#[cfg(test)]
mod tests {
    use super::*;
    use crate::program::program_of;

    // The text of a program of one function with this line.
    fn whole(alloc: Global, line: &str) -> Result<String, Memory> {
        let text = format!(in alloc;
            "int g0 = 0;\nint g1 = 0;\nint g2 = 0;\nint g3 = 0;\npthread_mutex_t m0 = PTHREAD_MUTEX_INITIALIZER;\n{line}\nint main(void) {{\n  int r = 0;\n  r = f0(0);\n  return r;\n}}\n"
        )?;
        Ok(text)
    }

    #[test]
    fn each_form(rt: HostRuntime) -> Result<(), Memory> {
        for (number, line) in [
            (107, "int f0(int n) { int x = n + 64; g0 = 64; return x; }"),
            (
                2,
                "int f0(int n) { int x = g0; if (x > 82) x = 82; return x; }",
            ),
            (
                1,
                "int f0(int n) { pthread_mutex_lock(&m0); g0 = 53; pthread_mutex_unlock(&m0); return n; }",
            ),
        ] {
            let program = program_of(rt.alloc(), number, 1)?;
            assert!(rt;
                program.as_slice() == whole(rt.alloc(), line)?.as_bytes(),
                "of {number}"
            );
        }
        Ok(())
    }

    #[test]
    fn eight_edits_of_one_function(rt: HostRuntime) -> Result<(), Memory> {
        let texts = edits_of(rt.alloc(), 1, 1)?;
        assert_eq!(rt; texts.len(), 8);
        let last =
            "int f0(int n) { pthread_mutex_lock(&m0); g0 = 61; pthread_mutex_unlock(&m0); return n; }";
        for (edit, text) in texts.as_slice().iter().enumerate() {
            if edit == 7 {
                assert!(rt; text.as_bytes() == whole(rt.alloc(), last)?.as_bytes());
            }
        }
        Ok(())
    }
}
