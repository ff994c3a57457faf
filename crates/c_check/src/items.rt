//! Items of a unit: which declarations may share a name, prototypes and functions.

ghost use Rattle.std.specs.Prelude.{◌≡◌, ◌++◌, ◌∷◌, [], map, IfOk, MatchResult};
ghost use Rattle.gob_tree.specs.WellMade.{is_return, ends_in_return};
ghost use Rattle.c_check.specs.Faults.{Checks, Passes, IsFirst};
ghost use Rattle.c_check.specs.Names.{is_among};
ghost use Rattle.c_check.specs.Stages.{declaring_faults, body_faults, names_behind, body_becomes, assembled};
ghost use Rattle.c_check.specs.Units.{is_value, is_defined, is_declared, value_faults, has_definition, agrees_with_definition, is_dropped, prototype_faults, function_faults, function_of, last_value, with_return, param_count};

use crate::fault::{FrontFault, FrontKind, ask};
use crate::heads::{add_params, agrees, check_main, is_main_head, signature};
use crate::named::Named;
use crate::scope::{BodyScope, FileScope, is_arbitrary, is_main, next_number};
use crate::stmts::sequence;
use c_parse::{RawHead, RawName, RawPlaced};
use gob_tree::{Expr, FuncKind, Function, Memory, Place, Placed, Seq, Stmt, Text, Width};
use std::alloc::Global;

/// Whether a name is one of these.
#[tactic(auto, using(crate::proofs::Among::found, crate::proofs::Among::missing))]
fn is_among(names: &Named<()>, name: &Text) -> bool
    ensures { result ≡ is_among name.now (map (λ e. e.0) names.now) }
{
    match names.find(name) {
        Some(_) => true,
        None => false,
    }
}

/// Whether a name stands for an arbitrary number, or a global or a mutex above has it.
fn is_value(file: &FileScope, name: &Text) -> bool
    ensures { result ≡ is_value file.now name.now }
{
    is_arbitrary(name) || file.values.find(name).is_some()
}

/// Whether a function above has the name too.
fn is_defined(file: &FileScope, name: &Text) -> bool
    ensures { result ≡ is_defined file.now name.now }
{
    is_value(file, name) || is_among(&file.defined, name)
}

/// Whether a prototype above has the name too.
fn is_declared(file: &FileScope, name: &Text) -> bool
    ensures { result ≡ is_declared file.now name.now }
{
    is_defined(file, name) || is_among(&file.prototyped, name)
}

/// A global or a mutex is the only declaration of its name, and isn't called `main`.
#[tactic(auto, using(crate::proofs::Firsts::first_left, crate::proofs::Firsts::first_right, crate::proofs::Firsts::none_of))]
pub(crate) fn check_value(file: &FileScope, name: &RawName) -> Result<(), FrontFault>
    ensures { Passes result (value_faults file.now name.now) }
{
    let declared = is_declared(file, &name.text);
    ask(!declared, FrontKind::Redeclared, name.place)?;
    ask(!is_main(&name.text), FrontKind::WrongKind, name.place)
}

fn has_definition(file: &FileScope, name: &Text) -> bool
    ensures { result ≡ has_definition file.now name.now }
{
    !is_arbitrary(name) && file.definitions.find(name).is_some()
}

/// Whether a prototype agrees with the definition of its name, if there is one.
fn agrees_with_definition(alloc: Global, file: &FileScope, head: &RawHead) -> Result<bool, Memory>
    ensures { IfOk result (λ b. b ≡ agrees_with_definition file.now head.now) }
{
    match file.definitions.find(&head.name.text) {
        None => Ok(true),
        Some(definition) => {
            let own = signature(alloc, 0, head)?;
            Ok(agrees(&own, definition))
        }
    }
}

/// A prototype of an arbitrary number without parameters declares what is there anyway.
fn is_dropped(head: &RawHead) -> bool
    ensures { result ≡ is_dropped head.now }
{
    is_arbitrary(&head.name.text) && head.params.len() == 0
}

/// A prototype has a definition that it agrees with.
#[tactic(auto, using(crate::proofs::Firsts::first_left, crate::proofs::Firsts::first_right, crate::proofs::Firsts::none_of, crate::proofs::Firsts::want_is_first))]
fn check_declaring(alloc: Global, file: &FileScope, head: &RawHead) -> Result<(), FrontFault>
    ensures { Passes result (declaring_faults file.now head.now) }
{
    let defined = has_definition(file, &head.name.text);
    ask(defined, FrontKind::Undeclared, head.name.place)?;
    let value = is_value(file, &head.name.text);
    ask(!value, FrontKind::Redeclared, head.name.place)?;
    let agrees = agrees_with_definition(alloc, file, head)?;
    let fits = agrees && (!is_main(&head.name.text) || is_main_head(head));
    ask(fits, FrontKind::WrongKind, head.name.place)?;
    let mut scope = BodyScope::new(alloc, head.kind, head.width)?;
    add_params(alloc, &mut scope, head.params.as_slice())
}

/// A prototype.
pub(crate) fn check_prototype(
    alloc: Global,
    file: &FileScope,
    head: &RawHead,
) -> Result<(), FrontFault>
    ensures { Passes result (prototype_faults file.now head.now) }
{
    if is_dropped(head) {
        return Ok(());
    }
    check_declaring(alloc, file, head)
}

/// What `main` returns at its end, and what any other function does.
fn last_value(head: &RawHead) -> Option<Expr>
    ensures { result ≡ last_value head.now }
{
    match head.kind {
        FuncKind::Int => {
            if is_main(&head.name.text) {
                Some(Expr::Number(0, Width::W32))
            } else {
                Some(Expr::Nondet(head.width))
            }
        }
        _ => None,
    }
}

fn is_return(placed: &Placed) -> bool
    ensures { result ≡ is_return placed.now }
{
    match &placed.stmt {
        Stmt::Return(_) => true,
        _ => false,
    }
}

/// Whether the last statement is a `return`.
fn ends_in_return(body: &[Placed]) -> bool
    ensures { result ≡ ends_in_return body.now }
{
    match body.last() {
        Some(last) => is_return(last),
        None => false,
    }
}

/// A body whose last item is no `return` gets one, at its closing brace.
fn with_return(head: &RawHead, end: Place, body: Seq<Placed>) -> Result<Seq<Placed>, Memory>
    ensures { IfOk result (λ list. list ≡ with_return head.now end body) }
{
    if ends_in_return(body.as_slice()) {
        return Ok(body);
    }
    let mut body = body;
    body.push(Placed {
        place: end,
        stmt: Stmt::Return(last_value(head)),
    })?;
    Ok(body)
}

/// The number of parameters that a call passes.
fn param_count(head: &RawHead) -> Result<u16, Memory>
    ensures { IfOk result (λ n. n ≡ param_count head.now) }
{
    match head.kind {
        FuncKind::Thread => Ok(0),
        _ => next_number(head.params.len()),
    }
}

/// The parameters and the body of a function.
#[tactic(auto, using(crate::proofs::Firsts::first_left, crate::proofs::Firsts::first_right, crate::proofs::Firsts::none_of, crate::proofs::Firsts::want_is_first))]
fn body_of(
    alloc: Global,
    file: &FileScope,
    head: &RawHead,
    body: &[RawPlaced],
) -> Result<(BodyScope, Seq<Placed>), FrontFault>
    ensures { MatchResult result (λ made. (body_faults file.now head.now body.now ≡ []) × (made.0 ≡ names_behind file.now head.now body.now) × (made.1 ≡ body_becomes file.now head.now body.now)) (λ fault. IsFirst fault (body_faults file.now head.now body.now)) }
{
    let mut scope = BodyScope::new(alloc, head.kind, head.width)?;
    add_params(alloc, &mut scope, head.params.as_slice())?;
    let list = sequence(alloc, file, &mut scope, false, body)?;
    Ok((scope, list))
}

/// A function that its head and its body make.
fn assembled(
    alloc: Global,
    head: &RawHead,
    end: Place,
    scope: BodyScope,
    list: Seq<Placed>,
) -> Result<Function, Memory>
    ensures { IfOk result (λ f. f ≡ assembled head.now end scope list) }
{
    let name = head.name.text.copy(alloc)?;
    let params = param_count(head)?;
    let body = with_return(head, end, list)?;
    let (slots, threads) = scope.into_parts();
    Ok(Function {
        name,
        place: head.name.place,
        end,
        kind: head.kind,
        params,
        slots,
        threads,
        body,
    })
}

/// A function, with numbers for names.
#[tactic(auto, using(crate::proofs::Firsts::first_left, crate::proofs::Firsts::first_right, crate::proofs::Firsts::none_of, crate::proofs::Firsts::want_is_first))]
pub(crate) fn function(
    alloc: Global,
    file: &FileScope,
    head: &RawHead,
    end: Place,
    body: &[RawPlaced],
) -> Result<Function, FrontFault>
    ensures { Checks result (function_faults file.now head.now body.now) (function_of file.now head.now end body.now) }
{
    let defined = is_defined(file, &head.name.text);
    ask(!defined, FrontKind::Redeclared, head.name.place)?;
    check_main(head)?;
    let (scope, list) = body_of(alloc, file, head, body)?;
    let made = assembled(alloc, head, end, scope, list)?;
    Ok(made)
}
