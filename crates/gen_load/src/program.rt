ghost use Rattle.std.specs.Prelude.{◌≡◌, ◌<◌, ◌≤◌, ◌++◌, length, IfOk, OnOk, string_bytes, decimal};
ghost use Rattle.gen_load.specs.Generated.{head_text, adds_text, caps_text, locks_text, body_text, function_text, functions_text, call_text, calls_text, text_of, program_text};

use crate::choice::{Choice, Form, choices_of};
use gob_tree::Memory;
use std::alloc::{AllocError, Global};

/// The text of the program with this number and this many functions. It is ASCII and ends with a
/// line feed.
pub fn program_of(alloc: Global, number: u64, functions: u32) -> Result<Vec<u8>, Memory>
    requires some { 0 < functions }
    requires few { functions ≤ 120 }
    ensures { IfOk result (λ bytes. bytes.items ≡ program_text number functions) }
{
    let choices = choices_of(alloc, number, functions)?;
    let text = text_with(alloc, functions, choices.as_slice())?;
    Ok(text.into_bytes())
}

// The text of the program with these choices.
pub(crate) fn text_with(
    alloc: Global,
    functions: u32,
    choices: &[Choice],
) -> Result<String, AllocError>
    ensures { IfOk result (λ text. string_bytes text ≡ text_of functions choices.now) }
{
    let mut text = String::new(alloc);
    push_head(&mut text)?;
    push_functions(&mut text, choices)?;
    text.push_str("int main(void) {\n  int r = 0;\n")?;
    push_calls(&mut text, functions)?;
    text.push_str("  return r;\n}\n")?;
    Ok(text)
}

// Writes the globals and the mutex.
fn push_head(text: &mut String) -> Result<(), AllocError>
    ensures { OnOk result (string_bytes text.new ≡ string_bytes text.old ++ head_text) }
{
    text.push_str(
        "int g0 = 0;\nint g1 = 0;\nint g2 = 0;\nint g3 = 0;\npthread_mutex_t m0 = PTHREAD_MUTEX_INITIALIZER;\n",
    )
}

// Writes each function's line.
fn push_functions(text: &mut String, choices: &[Choice]) -> Result<(), AllocError>
    ensures { OnOk result (string_bytes text.new ≡ string_bytes text.old ++ functions_text 0 choices.now) }
{
    for (number, choice) in choices.iter().enumerate() {
        push_function(text, number, choice)?;
    }
    Ok(())
}

// Writes a function's line.
fn push_function(text: &mut String, number: usize, choice: &Choice) -> Result<(), AllocError>
    ensures { OnOk result (string_bytes text.new ≡ string_bytes text.old ++ function_text number choice.now) }
{
    write!(text, "int f{number}")?;
    text.push_str("(int n) { ")?;
    push_body(text, choice)?;
    text.push_str(" }\n")
}

// Writes what a function does.
fn push_body(text: &mut String, choice: &Choice) -> Result<(), AllocError>
    ensures { OnOk result (string_bytes text.new ≡ string_bytes text.old ++ body_text choice.now) }
{
    match choice.form {
        Form::Adds => push_adds(text, choice.constant, choice.global),
        Form::Caps => push_caps(text, choice.constant, choice.global),
        Form::Locks => push_locks(text, choice.constant, choice.global),
    }
}

// Writes that a function adds the constant to its parameter and writes it to the global.
fn push_adds(text: &mut String, constant: u32, global: u32) -> Result<(), AllocError>
    ensures { OnOk result (string_bytes text.new ≡ string_bytes text.old ++ adds_text constant global) }
{
    push_after(text, "int x = n + ", constant)?;
    push_after(text, "; g", global)?;
    push_after(text, " = ", constant)?;
    text.push_str("; return x;")
}

// Writes that a function caps what it reads of the global at the constant.
fn push_caps(text: &mut String, constant: u32, global: u32) -> Result<(), AllocError>
    ensures { OnOk result (string_bytes text.new ≡ string_bytes text.old ++ caps_text constant global) }
{
    push_after(text, "int x = g", global)?;
    push_after(text, "; if (x > ", constant)?;
    push_after(text, ") x = ", constant)?;
    text.push_str("; return x;")
}

// Writes that a function writes the constant to the global under the mutex.
fn push_locks(text: &mut String, constant: u32, global: u32) -> Result<(), AllocError>
    ensures { OnOk result (string_bytes text.new ≡ string_bytes text.old ++ locks_text constant global) }
{
    push_after(text, "pthread_mutex_lock(&m0); g", global)?;
    push_after(text, " = ", constant)?;
    push_words(text, "; pthread_mutex_unlock(&m0); return n;")
}

// Writes some words.
fn push_words(text: &mut String, words: &str) -> Result<(), AllocError>
    ensures { OnOk result (string_bytes text.new ≡ string_bytes text.old ++ words.now) }
{
    text.push_str(words)
}

// Writes some words and a number.
fn push_after(text: &mut String, words: &str, number: u32) -> Result<(), AllocError>
    ensures { OnOk result (string_bytes text.new ≡ string_bytes text.old ++ (words.now ++ decimal number)) }
{
    write!(text, "{words}{number}")
}

// Writes main's calls.
fn push_calls(text: &mut String, functions: u32) -> Result<(), AllocError>
    ensures { OnOk result (string_bytes text.new ≡ string_bytes text.old ++ calls_text functions) }
{
    for number in 0..functions {
        push_call(text, number)?;
    }
    Ok(())
}

// Writes main's call of a function.
fn push_call(text: &mut String, number: u32) -> Result<(), AllocError>
    ensures { OnOk result (string_bytes text.new ≡ string_bytes text.old ++ call_text number) }
{
    push_after(text, "  r = f", number)?;
    push_after(text, "(", number % 3)?;
    text.push_str(");\n")
}
