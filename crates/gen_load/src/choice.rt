ghost use Rattle.std.specs.Prelude.{◌≡◌, ◌<◌, length, IfOk};
ghost use Rattle.gen_load.specs.Drawing.{next_state, drawn_below, form_of, choice_from, choices};

use gob_tree::Memory;
use std::alloc::Global;

/// What a generated function does.
#[derive(Clone, Copy, Debug, PartialEq, Eq)]
pub enum Form {
    /// It adds the constant to its parameter, and writes the constant to the global.
    Adds,
    /// It caps what it reads of the global at the constant.
    Caps,
    /// It writes the constant to the global under the mutex.
    Locks,
}

/// What was drawn for one function.
#[derive(Clone, Copy, Debug, PartialEq, Eq)]
pub struct Choice {
    /// What the function does.
    pub form: Form,
    /// Its constant, below 100.
    pub constant: u32,
    /// The number of its global, below 4.
    pub global: u32,
}

// Draws the choices of this many functions.
pub(crate) fn choices_of(alloc: Global, number: u64, functions: u32) -> Result<Vec<Choice>, Memory>
    ensures { IfOk result (λ made. made.items ≡ choices number functions) }
{
    let mut state = number;
    let mut made = Vec::new(alloc);
    for count in 0..functions {
        made.push(draw_choice(&mut state))?;
    }
    Ok(made)
}

// Draws one function's choice.
fn draw_choice(state: &mut u64) -> Choice
    ensures choice { result ≡ choice_from state.old }
    ensures state { state.new ≡ next_state (next_state (next_state state.old)) }
{
    let form = form_at(draw(state, 3));
    let constant = draw(state, 100);
    let global = draw(state, 4);
    Choice {
        form,
        constant,
        global,
    }
}

// The form of a number below 3.
fn form_at(number: u32) -> Form
    ensures { result ≡ form_of number }
{
    match number {
        0 => Form::Adds,
        1 => Form::Caps,
        _ => Form::Locks,
    }
}

// Draws a number below `below`.
fn draw(state: &mut u64, below: u32) -> u32
    requires { 0 < below }
    ensures state { state.new ≡ next_state state.old }
    ensures drawn { result ≡ drawn_below below state.new }
{
    let next = u128::from(*state) * 6364136223846793005 + 1442695040888963407;
    *state = (next % (1 << 64)) as u64;
    ((*state >> 33) % u64::from(below)) as u32
}
