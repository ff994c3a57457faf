//! Declarations within functions, by descent. What is declared goes onto a list.

ghost use Rattle.std.specs.Prelude.{◌≡◌, IfOk, IfErr};
ghost use Rattle.c_parse.specs.Descent.{ReadsLocal, MoreLocalsOnto, NumbersOnto, MoreThreadsOnto, ThreadsOnto, DeclOnto};
ghost use Rattle.c_parse.specs.Grammar as grammar;
ghost use Rattle.c_parse.specs.Grammar.{within, ReadsInitial, ReadsLongTail, ReadsType};
ghost use Rattle.c_parse.specs.Machine as machine;
ghost use Rattle.c_parse.specs.Machine.{Breaks};

use crate::raw::{RawExpr, RawPlaced, RawStmt};
use crate::simple::{ident, whole};
use crate::stop::{Stop, Trouble};
use crate::terminal::{Kind, Terminal};
use gob_tree::{Place, Seq, Width};
use std::alloc::Global;

/// The place of the first token; no part of a unit is read where there is none.
pub(crate) fn place_at(tokens: &[Terminal]) -> Place
    ensures { result ≡ grammar.place_at tokens.now }
{
    match tokens.split_first() {
        Some((token, _)) => token.place,
        None => Place { line: 0, column: 0 },
    }
}

/// What follows `long`: `[ "int" ]`.
#[tactic(auto, using(crate::proofs::DeclarationExits::long_int_found, crate::proofs::DeclarationExits::no_long_int_found, crate::proofs::DeclarationExits::no_long_int_at_end))]
fn long_tail(tokens: &[Terminal]) -> &[Terminal]
    ensures { ReadsLongTail tokens.now result.now }
{
    let Some((token, rest)) = tokens.split_first() else {
        return tokens;
    };
    match &token.kind {
        Kind::Int => rest,
        _ => tokens,
    }
}

/// `"int" | "long" [ "int" ]`
#[tactic(auto, using(crate::proofs::DeclarationExits::int_found, crate::proofs::DeclarationExits::long_found))]
pub(crate) fn type_of(tokens: &[Terminal]) -> Result<(Width, &[Terminal]), Stop>
    ensures found { IfOk result (λ read. ReadsType tokens.now read.0 read.1.now) }
    ensures stop { IfErr result (Breaks machine.Part.type (within 0) tokens.now) }
{
    let Some((token, rest)) = tokens.split_first() else {
        return Err(Stop::At(Trouble::Bad, 0));
    };
    match &token.kind {
        Kind::Int => Ok((Width::W32, rest)),
        Kind::Long => Ok((Width::W64, long_tail(rest))),
        _ => Err(Stop::At(Trouble::Bad, tokens.len())),
    }
}

/// `[ "=" expr ]`
#[tactic(auto, using(crate::proofs::DeclarationExits::initial_found, crate::proofs::DeclarationExits::no_initial_found, crate::proofs::DeclarationExits::no_initial_at_end, crate::proofs::DeclarationExits::initial_stop))]
fn initial(alloc: Global, tokens: &[Terminal]) -> Result<(Option<RawExpr>, &[Terminal]), Stop>
    ensures found { IfOk result (λ read. ReadsInitial (within 0) tokens.now read.0 read.1.now (within 0)) }
    ensures stop { IfErr result (Breaks machine.Part.initial (within 0) tokens.now) }
{
    let Some((token, rest)) = tokens.split_first() else {
        return Ok((None, tokens));
    };
    match &token.kind {
        Kind::Equals => {
            let (value, rest) = whole(alloc, rest)?;
            Ok((Some(value), rest))
        }
        _ => Ok((None, tokens)),
    }
}

/// `name [ "=" expr ]`, a declaration at a place.
#[tactic(auto, using(crate::proofs::DeclarationExits::local_found, crate::proofs::DeclarationExits::local_0_stop, crate::proofs::DeclarationExits::local_1_stop))]
fn local(
    alloc: Global,
    place: Place,
    width: Width,
    tokens: &[Terminal],
) -> Result<(RawPlaced, &[Terminal]), Stop>
    ensures found { IfOk result (λ read. ReadsLocal place width tokens.now read.0 read.1.now) }
    ensures stop { IfErr result (Breaks machine.Part.locals (within 0) tokens.now) }
{
    let (name, rest) = ident(alloc, tokens)?;
    let (value, rest) = initial(alloc, rest)?;
    let stmt = RawStmt::Declare(width, name, value);
    Ok((RawPlaced { place, stmt }, rest))
}

/// `{ "," name [ "=" expr ] } ";"`; each one has the place of its name.
#[tactic(auto, using(crate::proofs::Descent::runs_from, crate::proofs::DeclarationExits::locals_closed, crate::proofs::DeclarationExits::next_local_stop, crate::proofs::DeclarationExits::more_locals_mark, crate::proofs::DeclarationExits::more_locals_end, crate::proofs::DeclarationExits::shorter_local))]
fn more_locals(
    alloc: Global,
    front: Seq<RawPlaced>,
    width: Width,
    tokens: &[Terminal],
) -> Result<(Seq<RawPlaced>, &[Terminal]), Stop>
    ensures found { IfOk result (λ read. MoreLocalsOnto width front tokens.now read.0 read.1.now) }
    ensures stop { IfErr result (Breaks machine.Part.more_locals (within 0) tokens.now) }
{
    let mut list = front;
    let mut rest = tokens;
    while let Some((token, after)) = rest.split_first() {
        match &token.kind {
            Kind::Semicolon => return Ok((list, after)),
            Kind::Comma => {
                let (one, next) = local(alloc, place_at(after), width, after)?;
                list.push(one)?;
                rest = next;
            }
            _ => return Err(Stop::At(Trouble::Bad, rest.len())),
        }
    }
    Err(Stop::At(Trouble::Bad, 0))
}

/// A declaration that begins with a type.
#[tactic(auto, using(crate::proofs::DeclarationExits::numbers_found, crate::proofs::DeclarationExits::numbers_type_stop, crate::proofs::DeclarationExits::numbers_local_stop, crate::proofs::DeclarationExits::numbers_more_stop))]
pub(crate) fn numbers(
    alloc: Global,
    front: Seq<RawPlaced>,
    tokens: &[Terminal],
) -> Result<(Seq<RawPlaced>, &[Terminal]), Stop>
    ensures found { IfOk result (λ read. NumbersOnto front tokens.now read.0 read.1.now) }
    ensures stop { IfErr result (Breaks machine.Part.numbers (within 0) tokens.now) }
{
    let mut list = front;
    let (width, rest) = type_of(tokens)?;
    let (first, rest) = local(alloc, place_at(tokens), width, rest)?;
    list.push(first)?;
    more_locals(alloc, list, width, rest)
}

/// `{ "," name } ";"`; each one has the place of its name.
#[tactic(auto, using(crate::proofs::Descent::runs_from, crate::proofs::DeclarationExits::threads_closed, crate::proofs::DeclarationExits::next_thread_stop, crate::proofs::DeclarationExits::more_threads_mark, crate::proofs::DeclarationExits::more_threads_end, crate::proofs::Descent::shorter_name))]
fn more_threads(
    alloc: Global,
    front: Seq<RawPlaced>,
    tokens: &[Terminal],
) -> Result<(Seq<RawPlaced>, &[Terminal]), Stop>
    ensures found { IfOk result (λ read. MoreThreadsOnto front tokens.now read.0 read.1.now) }
    ensures stop { IfErr result (Breaks machine.Part.more_threads (within 0) tokens.now) }
{
    let mut list = front;
    let mut rest = tokens;
    while let Some((token, after)) = rest.split_first() {
        match &token.kind {
            Kind::Semicolon => return Ok((list, after)),
            Kind::Comma => {
                let (name, next) = ident(alloc, after)?;
                let place = name.place;
                let stmt = RawStmt::DeclareThread(name);
                list.push(RawPlaced { place, stmt })?;
                rest = next;
            }
            _ => return Err(Stop::At(Trouble::Bad, rest.len())),
        }
    }
    Err(Stop::At(Trouble::Bad, 0))
}

/// `name { "," name } ";"` behind `pthread_t`; the first one has the place.
#[tactic(auto, using(crate::proofs::DeclarationExits::threads_found, crate::proofs::DeclarationExits::threads_0_stop, crate::proofs::DeclarationExits::threads_1_stop))]
fn threads(
    alloc: Global,
    front: Seq<RawPlaced>,
    place: Place,
    tokens: &[Terminal],
) -> Result<(Seq<RawPlaced>, &[Terminal]), Stop>
    ensures found { IfOk result (λ read. ThreadsOnto place front tokens.now read.0 read.1.now) }
    ensures stop { IfErr result (Breaks machine.Part.threads (within 0) tokens.now) }
{
    let mut list = front;
    let (name, rest) = ident(alloc, tokens)?;
    let stmt = RawStmt::DeclareThread(name);
    list.push(RawPlaced { place, stmt })?;
    more_threads(alloc, list, rest)
}

/// A declaration: of numbers, or of thread variables.
#[tactic(auto, using(crate::proofs::DeclarationExits::thread_decl_found, crate::proofs::DeclarationExits::number_decl_found, crate::proofs::DeclarationExits::thread_decl_stop, crate::proofs::DeclarationExits::number_decl_stop))]
pub(crate) fn decl(
    alloc: Global,
    front: Seq<RawPlaced>,
    tokens: &[Terminal],
) -> Result<(Seq<RawPlaced>, &[Terminal]), Stop>
    ensures found { IfOk result (λ read. DeclOnto front tokens.now read.0 read.1.now) }
    ensures stop { IfErr result (Breaks machine.Part.decl (within 0) tokens.now) }
{
    let Some((token, rest)) = tokens.split_first() else {
        return Err(Stop::At(Trouble::Bad, 0));
    };
    match &token.kind {
        Kind::Thread => threads(alloc, front, token.place, rest),
        _ => numbers(alloc, front, tokens),
    }
}
