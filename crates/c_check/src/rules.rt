//! What is asked of each use of a name, of each call, and of `return`, `break` and `continue`.

ghost use Rattle.std.specs.Prelude.{◌≡◌, Some, None, length, OnOk, IfErr, MatchResult, []};
ghost use Rattle.std.specs.Option.{option_map};
ghost use Rattle.c_check.specs.Faults.{Checks, Passes, IsFirst};
ghost use Rattle.c_check.specs.Names.{meaning};
ghost use Rattle.gob_tree.specs.WellMade.{is_int, is_thread};
ghost use Rattle.c_check.specs.Rules.{gives_number, is_callable, arity_faults, number_faults, thread_faults, mutex_faults, started_faults, value_call_faults, plain_call_faults, local_faults, return_faults, jump_faults, fits_return};
ghost use Rattle.c_check.specs.Bodies.{variable_of, target_of, thread_number, mutex_number, function_number};

use crate::fault::{FrontFault, FrontKind, ask, fault_at};
use crate::meaning::Meaning;
use crate::scope::{BodyScope, FileScope, is_main, meaning};
use c_parse::{RawName, RawReturn};
use gob_tree::{Expr, FuncKind, Place, Target, Text};

/// A variable of the type `int` or `long` in an expression.
#[tactic(auto, using(crate::specs::Faults::first))]
pub(crate) fn variable(
    file: &FileScope,
    body: &BodyScope,
    name: &RawName,
) -> Result<Expr, FrontFault>
    ensures { Checks result (number_faults file.now body.now name.now) (variable_of (meaning file.now body.now name.now.text)) }
{
    match meaning(file, body, &name.text) {
        None => Err(fault_at(FrontKind::Undeclared, name.place)),
        Some(Meaning::Local(slot)) => Ok(Expr::Local(slot)),
        Some(Meaning::Global(global, width)) => Ok(Expr::Global(global, width)),
        Some(_) => Err(fault_at(FrontKind::WrongKind, name.place)),
    }
}

/// A variable of the type `int` or `long` on the left side of an assignment.
#[tactic(auto, using(crate::specs::Faults::first))]
pub(crate) fn target(
    file: &FileScope,
    body: &BodyScope,
    name: &RawName,
) -> Result<Target, FrontFault>
    ensures { Checks result (number_faults file.now body.now name.now) (target_of (meaning file.now body.now name.now.text)) }
{
    match meaning(file, body, &name.text) {
        None => Err(fault_at(FrontKind::Undeclared, name.place)),
        Some(Meaning::Local(slot)) => Ok(Target::Local(slot)),
        Some(Meaning::Global(global, _)) => Ok(Target::Global(global)),
        Some(_) => Err(fault_at(FrontKind::WrongKind, name.place)),
    }
}

/// A thread variable that is created or joined.
#[tactic(auto, using(crate::specs::Faults::first))]
pub(crate) fn thread_variable(
    file: &FileScope,
    body: &BodyScope,
    name: &RawName,
) -> Result<u16, FrontFault>
    ensures { Checks result (thread_faults file.now body.now name.now) (thread_number (meaning file.now body.now name.now.text)) }
{
    match meaning(file, body, &name.text) {
        None => Err(fault_at(FrontKind::Undeclared, name.place)),
        Some(Meaning::Thread(thread)) => Ok(thread),
        Some(_) => Err(fault_at(FrontKind::WrongKind, name.place)),
    }
}

/// A mutex that is locked or unlocked.
#[tactic(auto, using(crate::specs::Faults::first))]
pub(crate) fn mutex(file: &FileScope, body: &BodyScope, name: &RawName) -> Result<u16, FrontFault>
    ensures { Checks result (mutex_faults file.now body.now name.now) (mutex_number (meaning file.now body.now name.now.text)) }
{
    match meaning(file, body, &name.text) {
        None => Err(fault_at(FrontKind::Undeclared, name.place)),
        Some(Meaning::Mutex(mutex)) => Ok(mutex),
        Some(_) => Err(fault_at(FrontKind::WrongKind, name.place)),
    }
}

fn is_thread(kind: FuncKind) -> bool
    ensures { result ≡ is_thread kind }
{
    matches!(kind, FuncKind::Thread)
}

fn is_int(kind: FuncKind) -> bool
    ensures { result ≡ is_int kind }
{
    matches!(kind, FuncKind::Int)
}

/// The function that a new thread starts in.
#[tactic(auto, using(crate::specs::Faults::first))]
pub(crate) fn started(file: &FileScope, body: &BodyScope, name: &RawName) -> Result<u16, FrontFault>
    ensures { Checks result (started_faults file.now body.now name.now) (function_number (meaning file.now body.now name.now.text)) }
{
    match meaning(file, body, &name.text) {
        None => Err(fault_at(FrontKind::Undeclared, name.place)),
        Some(Meaning::Function(function)) => {
            ask(is_thread(function.kind), FrontKind::WrongKind, name.place)?;
            Ok(function.number)
        }
        Some(_) => Err(fault_at(FrontKind::WrongKind, name.place)),
    }
}

/// Whether a call of the name has a value.
fn gives_number(name: &Text, meaning: Meaning) -> bool
    ensures { result ≡ gives_number name.now meaning }
{
    match meaning {
        Meaning::Function(function) => is_int(function.kind) && !is_main(name),
        Meaning::Arbitrary(_) => true,
        _ => false,
    }
}

/// Whether a call of the name may stand alone.
fn is_callable(name: &Text, meaning: Meaning) -> bool
    ensures { result ≡ is_callable name.now meaning }
{
    match meaning {
        Meaning::Function(function) => !is_thread(function.kind) && !is_main(name),
        _ => false,
    }
}

/// The number of arguments of a call.
fn check_arity(meaning: Meaning, args: usize, place: Place) -> Result<(), FrontFault>
    ensures { Passes result (arity_faults args place (Some meaning)) }
{
    match meaning {
        Meaning::Function(function) => ask(function.params == args, FrontKind::WrongArity, place),
        Meaning::Arbitrary(_) => ask(args == 0, FrontKind::WrongArity, place),
        _ => Ok(()),
    }
}

/// What is called in an expression with so many arguments.
#[tactic(auto, using(crate::specs::Faults::first, crate::proofs::Firsts::first_left, crate::proofs::Firsts::first_right, crate::proofs::Firsts::none_of))]
pub(crate) fn called_for_value(
    file: &FileScope,
    body: &BodyScope,
    name: &RawName,
    args: usize,
) -> Result<Meaning, FrontFault>
    ensures { MatchResult result (λ m. (value_call_faults file.now body.now name.now args ≡ []) × (meaning file.now body.now name.now.text ≡ Some m)) (λ fault. IsFirst fault (value_call_faults file.now body.now name.now args)) }
{
    match meaning(file, body, &name.text) {
        None => Err(fault_at(FrontKind::Undeclared, name.place)),
        Some(meaning) => {
            let fits = gives_number(&name.text, meaning);
            ask(fits, FrontKind::WrongKind, name.place)?;
            check_arity(meaning, args, name.place)?;
            Ok(meaning)
        }
    }
}

/// The function that is called alone with so many arguments.
#[tactic(auto, using(crate::specs::Faults::first, crate::proofs::Firsts::first_left, crate::proofs::Firsts::first_right, crate::proofs::Firsts::none_of))]
pub(crate) fn called_alone(
    file: &FileScope,
    body: &BodyScope,
    name: &RawName,
    args: usize,
) -> Result<u16, FrontFault>
    ensures { Checks result (plain_call_faults file.now body.now name.now args) (function_number (meaning file.now body.now name.now.text)) }
{
    match meaning(file, body, &name.text) {
        None => Err(fault_at(FrontKind::Undeclared, name.place)),
        Some(meaning) => {
            let fits = is_callable(&name.text, meaning);
            ask(fits, FrontKind::WrongKind, name.place)?;
            check_arity(meaning, args, name.place)?;
            Ok(function_number(meaning))
        }
    }
}

fn function_number(meaning: Meaning) -> u16
    ensures { result ≡ function_number (Some meaning) }
{
    match meaning {
        Meaning::Function(function) => function.number,
        _ => 0,
    }
}

/// A declaration in a function is the first of its name in its block.
pub(crate) fn check_local(body: &BodyScope, name: &RawName) -> Result<(), FrontFault>
    ensures { Passes result (local_faults body.now name.now) }
{
    let declared = body.is_declared_here(&name.text);
    ask(!declared, FrontKind::Redeclared, name.place)
}

fn fits_return(kind: FuncKind, value: &RawReturn) -> bool
    ensures { result ≡ fits_return kind value.now }
{
    match (kind, value) {
        (FuncKind::Int, RawReturn::Value(_)) => true,
        (FuncKind::Void, RawReturn::Plain) => true,
        (FuncKind::Thread, RawReturn::Plain) => true,
        (FuncKind::Thread, RawReturn::Null) => true,
        _ => false,
    }
}

/// A `return` fits the kind of its function.
pub(crate) fn check_return(
    kind: FuncKind,
    value: &RawReturn,
    place: Place,
) -> Result<(), FrontFault>
    ensures { Passes result (return_faults kind value.now place) }
{
    ask(fits_return(kind, value), FrontKind::WrongKind, place)
}

/// A `break` or `continue` stands in a loop.
pub(crate) fn check_jump(in_loop: bool, place: Place) -> Result<(), FrontFault>
    ensures { Passes result (jump_faults in_loop place) }
{
    ask(in_loop, FrontKind::WrongKind, place)
}
