//! Heads of functions and their parameters.

ghost use Rattle.std.specs.Prelude.{◌≡◌, ◌++◌, [], map, length, IfOk, OnOk, MatchResult};
ghost use Rattle.c_check.specs.Faults.{Passes, IsFirst};
ghost use Rattle.c_check.specs.Units.{signature, agrees, same_kind, is_main_head, main_faults, with_param, with_param_named, with_nameless, with_params, param_faults, params_faults, width_of};
ghost use Rattle.gob_tree.specs.Widths.{same_width};
ghost use Rattle.std.specs.Cmp.Lexicographic.{pointwise};

use crate::fault::{FrontFault, FrontKind, ask};
use crate::meaning::{Meaning, Signature};
use crate::rules::check_local;
use crate::scope::{BodyScope, is_main};
use c_parse::{RawHead, RawName, RawParam};
use gob_tree::{FuncKind, Memory, Seq, Text, Width};
use std::alloc::Global;

/// A function as its head tells it.
pub(crate) fn signature(alloc: Global, number: u16, head: &RawHead) -> Result<Signature, Memory>
    ensures { IfOk result (λ s. s ≡ signature number head.now) }
{
    let params = widths(alloc, head.params.as_slice())?;
    Ok(Signature {
        number,
        kind: head.kind,
        width: head.width,
        params,
    })
}

/// The widths of parameters.
fn widths(alloc: Global, params: &[RawParam]) -> Result<Seq<Width>, Memory>
    ensures { IfOk result (λ list. list ≡ map width_of params.now) }
{
    let mut list = Seq::new(alloc);
    for param in params {
        list.push(param.width)?;
    }
    Ok(list)
}

fn same_width(a: Width, b: Width) -> bool
    ensures { result ≡ same_width a b }
{
    match (a, b) {
        (Width::W32, Width::W32) => true,
        (Width::W64, Width::W64) => true,
        _ => false,
    }
}

fn same_kind(a: FuncKind, b: FuncKind) -> bool
    ensures { result ≡ same_kind a b }
{
    match (a, b) {
        (FuncKind::Int, FuncKind::Int) => true,
        (FuncKind::Void, FuncKind::Void) => true,
        (FuncKind::Thread, FuncKind::Thread) => true,
        _ => false,
    }
}

fn same_widths(a: &[Width], b: &[Width]) -> bool
    ensures { result ≡ pointwise same_width a.now b.now }
{
    if a.len() != b.len() {
        return false;
    }
    for i in 0..a.len() {
        if !same_width(a[i], b[i]) {
            return false;
        }
    }
    true
}

/// Whether two heads agree in the kind of the function and in the types of its result and of its
/// parameters.
pub(crate) fn agrees(a: &Signature, b: &Signature) -> bool
    ensures { result ≡ agrees a.now b.now }
{
    same_kind(a.kind, b.kind)
        && same_width(a.width, b.width)
        && same_widths(a.params.as_slice(), b.params.as_slice())
}

/// Whether a head is one that `main` may have.
pub(crate) fn is_main_head(head: &RawHead) -> bool
    ensures { result ≡ is_main_head head.now }
{
    matches!(head.kind, FuncKind::Int)
        && same_width(head.width, Width::W32)
        && head.params.len() == 0
}

/// A `main` is an int function without parameters.
pub(crate) fn check_main(head: &RawHead) -> Result<(), FrontFault>
    ensures { Passes result (main_faults head.now) }
{
    let fits = !is_main(&head.name.text) || is_main_head(head);
    ask(fits, FrontKind::WrongKind, head.name.place)
}

/// Declares a parameter with a name.
fn add_named(
    alloc: Global,
    body: &mut BodyScope,
    width: Width,
    name: &RawName,
) -> Result<(), Memory>
    ensures { OnOk result (body.new ≡ with_param_named body.old.kind name.now width body.old) }
{
    match body.kind() {
        FuncKind::Thread => body.add_name(alloc, &name.text, Meaning::Argument),
        _ => {
            body.add_local(alloc, &name.text, width)?;
            Ok(())
        }
    }
}

/// Declares a parameter without a name.
fn add_nameless(alloc: Global, body: &mut BodyScope, width: Width) -> Result<(), Memory>
    ensures { OnOk result (body.new ≡ with_nameless body.old.kind width body.old) }
{
    match body.kind() {
        FuncKind::Thread => Ok(()),
        _ => {
            let name = Text::of(alloc, b"")?;
            body.add_slot(alloc, &name, width)
        }
    }
}

/// Declares a parameter, the first of its name.
#[tactic(auto, using(crate::proofs::Firsts::want_is_first))]
fn add_param(alloc: Global, body: &mut BodyScope, param: &RawParam) -> Result<(), FrontFault>
    ensures { MatchResult result (λ _. (param_faults param.now.name body.old ≡ []) × (body.new ≡ with_param param.now.width param.now.name body.old)) (λ fault. IsFirst fault (param_faults param.now.name body.old)) }
{
    match &param.name {
        None => {
            add_nameless(alloc, body, param.width)?;
            Ok(())
        }
        Some(name) => {
            check_local(body, name)?;
            add_named(alloc, body, param.width, name)?;
            Ok(())
        }
    }
}

/// Declares the parameters of a function, no two of one name.
pub(crate) fn add_params(
    alloc: Global,
    body: &mut BodyScope,
    params: &[RawParam],
) -> Result<(), FrontFault>
    ensures { MatchResult result (λ _. (params_faults params.now body.old ≡ []) × (body.new ≡ with_params params.now body.old)) (λ fault. IsFirst fault (params_faults params.now body.old)) }
{
    for param in params {
        add_param(alloc, body, param)?;
    }
    Ok(())
}
