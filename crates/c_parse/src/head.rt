//! Heads of functions and what follows them, by descent. `may` says whether a body may stand.

ghost use Rattle.std.specs.Prelude.{◌≡◌, [], ◌∷◌, Option, IfOk, IfErr};
ghost use Rattle.c_parse.specs.Descent.{ReadsOneParam};
ghost use Rattle.c_parse.specs.Grammar as grammar;
ghost use Rattle.c_parse.specs.Grammar.{within, ReadsAfterHead, ReadsMoreParams, ReadsParams, ReadsThreadParam, ReadsThreadName, ReadsVoided};
ghost use Rattle.c_parse.specs.Machine as machine;
ghost use Rattle.c_parse.specs.Machine.{Breaks};

use crate::declaration::type_of;
use crate::raw::{RawHead, RawItem, RawName, RawParam};
use crate::simple::ident;
use crate::statement::items;
use crate::stop::{Sign, Stop, Trouble, name_of, past};
use crate::terminal::{Kind, Terminal};
use gob_tree::{FuncKind, Seq, Width};
use std::alloc::Global;

/// A head without parameters.
pub(crate) fn head_of(alloc: Global, name: RawName, kind: FuncKind, width: Width) -> RawHead
    ensures { result ≡ grammar.head_of name kind width }
{
    RawHead {
        name,
        kind,
        width,
        params: Seq::new(alloc),
    }
}

/// The head with one more parameter.
fn with_param(head: RawHead, width: Width, name: Option<RawName>) -> Result<RawHead, Stop>
    ensures head { IfOk result (λ now. now ≡ grammar.with_param head width name) }
    ensures memory { IfErr result (λ s. s ≡ machine.want) }
{
    let mut params = head.params;
    params.push(RawParam { width, name })?;
    Ok(RawHead {
        name: head.name,
        kind: head.kind,
        width: head.width,
        params,
    })
}

/// The head of a thread function, with its parameter.
fn thread_head(alloc: Global, name: RawName, param: Option<RawName>) -> Result<RawHead, Stop>
    ensures head { IfOk result (λ now. now ≡ grammar.thread_head name param) }
    ensures memory { IfErr result (λ s. s ≡ machine.want) }
{
    let head = head_of(alloc, name, FuncKind::Thread, Width::W32);
    with_param(head, Width::W32, param)
}

/// What follows a head: `";"`, or a block where a body may stand.
#[tactic(auto, using(crate::proofs::HeadExits::prototype_found, crate::proofs::HeadExits::body_found, crate::proofs::HeadExits::body_stop, crate::proofs::HeadExits::no_body_stop, crate::proofs::HeadExits::after_head_stop))]
fn after_head(
    alloc: Global,
    head: RawHead,
    may: bool,
    tokens: &[Terminal],
) -> Result<(RawItem, &[Terminal]), Stop>
    ensures found { IfOk result (λ read. ReadsAfterHead head may (within 0) tokens.now (read.0 ∷ []) read.1.now (within 0)) }
    ensures stop { IfErr result (Breaks (machine.Part.after_head may) (within 0) tokens.now) }
{
    let Some((token, rest)) = tokens.split_first() else {
        return Err(Stop::At(Trouble::Bad, 0));
    };
    match &token.kind {
        Kind::Semicolon => Ok((RawItem::Prototype(head), rest)),
        Kind::OpenBrace => {
            if may {
                let (body, end, rest) = items(alloc, 1, rest)?;
                return Ok((RawItem::Function { head, end, body }, rest));
            }
            Err(Stop::At(Trouble::Bad, tokens.len()))
        }
        _ => Err(Stop::At(Trouble::Bad, tokens.len())),
    }
}

/// `type [ name ]`, onto the head; where the name misses, no body may stand.
#[tactic(auto, using(crate::proofs::HeadExits::named_param_found, crate::proofs::HeadExits::unnamed_param_found, crate::proofs::HeadExits::param_type_stop, crate::proofs::HeadExits::param_end_stop, crate::proofs::Descent::wanted))]
fn param(
    alloc: Global,
    head: RawHead,
    may: bool,
    tokens: &[Terminal],
) -> Result<(RawHead, bool, &[Terminal]), Stop>
    ensures found { IfOk result (λ read. ReadsOneParam head may tokens.now read.0 read.1 read.2.now) }
    ensures stop { IfErr result (Breaks (machine.Part.param may) (within 0) tokens.now) }
{
    let (width, rest) = type_of(tokens)?;
    let Some((token, after)) = rest.split_first() else {
        return Err(Stop::At(Trouble::Bad, 0));
    };
    match &token.kind {
        Kind::Name(text) => {
            let name = name_of(alloc, text, token.place)?;
            let head = with_param(head, width, Some(name))?;
            Ok((head, may, after))
        }
        _ => {
            let head = with_param(head, width, None)?;
            Ok((head, false, rest))
        }
    }
}

/// `{ "," par } ")"` and what follows the head.
#[tactic(auto, using(crate::proofs::HeadExits::params_run_from, crate::proofs::HeadExits::last_param_stop, crate::proofs::HeadExits::next_param_stop, crate::proofs::HeadExits::more_params_mark, crate::proofs::HeadExits::more_params_end, crate::proofs::HeadExits::shorter_param))]
fn more_params(
    alloc: Global,
    first: RawHead,
    may_at_first: bool,
    tokens: &[Terminal],
) -> Result<(RawItem, &[Terminal]), Stop>
    ensures found { IfOk result (λ read. ReadsMoreParams first may_at_first (within 0) tokens.now (read.0 ∷ []) read.1.now (within 0)) }
    ensures stop { IfErr result (Breaks (machine.Part.more_params may_at_first) (within 0) tokens.now) }
{
    let mut head = first;
    let mut may = may_at_first;
    let mut rest = tokens;
    while let Some((token, after)) = rest.split_first() {
        match &token.kind {
            Kind::CloseParen => return after_head(alloc, head, may, after),
            Kind::Comma => {
                let (now, still, next) = param(alloc, head, may, after)?;
                head = now;
                may = still;
                rest = next;
            }
            _ => return Err(Stop::At(Trouble::Bad, rest.len())),
        }
    }
    Err(Stop::At(Trouble::Bad, 0))
}

/// What follows the `"("` of a head: `[ "void" | par { "," par } ] ")"` and what follows the head.
#[tactic(auto, using(crate::proofs::HeadExits::no_params_found, crate::proofs::HeadExits::no_params_stop, crate::proofs::HeadExits::void_params_found, crate::proofs::HeadExits::void_close_stop, crate::proofs::HeadExits::void_after_stop))]
pub(crate) fn params(
    alloc: Global,
    head: RawHead,
    may: bool,
    tokens: &[Terminal],
) -> Result<(RawItem, &[Terminal]), Stop>
    ensures found { IfOk result (λ read. ReadsParams head may (within 0) tokens.now (read.0 ∷ []) read.1.now (within 0)) }
    ensures stop { IfErr result (Breaks (machine.Part.params may) (within 0) tokens.now) }
{
    let Some((token, rest)) = tokens.split_first() else {
        return Err(Stop::At(Trouble::Bad, 0));
    };
    match &token.kind {
        Kind::CloseParen => after_head(alloc, head, may, rest),
        Kind::Void => {
            let rest = past(Sign::CloseParen, rest)?;
            after_head(alloc, head, may, rest)
        }
        _ => {
            let (now, still, rest) = param(alloc, head, may, tokens)?;
            more_params(alloc, now, still, rest)
        }
    }
}

/// What follows the `"*"` of the parameter of a thread function: `[ name ] ")"` and what follows
/// the head.
#[tactic(auto, using(crate::proofs::HeadExits::named_thread_found, crate::proofs::HeadExits::named_thread_close_stop, crate::proofs::HeadExits::named_thread_after_stop, crate::proofs::HeadExits::unnamed_thread_found, crate::proofs::HeadExits::unnamed_thread_stop, crate::proofs::Descent::wanted))]
fn thread_param(
    alloc: Global,
    name: RawName,
    may: bool,
    tokens: &[Terminal],
) -> Result<(RawItem, &[Terminal]), Stop>
    ensures found { IfOk result (λ read. ReadsThreadParam name may (within 0) tokens.now (read.0 ∷ []) read.1.now (within 0)) }
    ensures stop { IfErr result (Breaks (machine.Part.thread_param may) (within 0) tokens.now) }
{
    let Some((token, rest)) = tokens.split_first() else {
        return Err(Stop::At(Trouble::Bad, 0));
    };
    match &token.kind {
        Kind::Name(text) => {
            let param = name_of(alloc, text, token.place)?;
            let rest = past(Sign::CloseParen, rest)?;
            let head = thread_head(alloc, name, Some(param))?;
            after_head(alloc, head, may, rest)
        }
        Kind::CloseParen => {
            let head = thread_head(alloc, name, None)?;
            after_head(alloc, head, may, rest)
        }
        _ => Err(Stop::At(Trouble::Bad, tokens.len())),
    }
}

/// What follows `"void" "*"` in front of a thread function: `name "(" "void" "*" [ name ] ")"` and
/// what follows the head.
#[tactic(auto, using(crate::proofs::HeadExits::thread_name_found, crate::proofs::HeadExits::thread_name_0_stop, crate::proofs::HeadExits::thread_name_1_stop, crate::proofs::HeadExits::thread_name_2_stop, crate::proofs::HeadExits::thread_name_3_stop, crate::proofs::HeadExits::thread_name_4_stop))]
fn thread_name(
    alloc: Global,
    may: bool,
    tokens: &[Terminal],
) -> Result<(RawItem, &[Terminal]), Stop>
    ensures found { IfOk result (λ read. ReadsThreadName may (within 0) tokens.now (read.0 ∷ []) read.1.now (within 0)) }
    ensures stop { IfErr result (Breaks (machine.Part.thread_name may) (within 0) tokens.now) }
{
    let (name, rest) = ident(alloc, tokens)?;
    let rest = past(Sign::OpenParen, rest)?;
    let rest = past(Sign::Void, rest)?;
    let rest = past(Sign::Star, rest)?;
    thread_param(alloc, name, may, rest)
}

/// What follows `void`: the head of a void function or of a thread function, and what follows it.
#[tactic(auto, using(crate::proofs::HeadExits::void_function_found, crate::proofs::HeadExits::void_open_stop, crate::proofs::HeadExits::void_params_stop, crate::proofs::HeadExits::thread_function_found, crate::proofs::HeadExits::thread_function_stop, crate::proofs::Descent::wanted))]
pub(crate) fn voided(
    alloc: Global,
    may: bool,
    tokens: &[Terminal],
) -> Result<(RawItem, &[Terminal]), Stop>
    ensures found { IfOk result (λ read. ReadsVoided may (within 0) tokens.now (read.0 ∷ []) read.1.now (within 0)) }
    ensures stop { IfErr result (Breaks (machine.Part.voided may) (within 0) tokens.now) }
{
    let Some((token, rest)) = tokens.split_first() else {
        return Err(Stop::At(Trouble::Bad, 0));
    };
    match &token.kind {
        Kind::Name(text) => {
            let name = name_of(alloc, text, token.place)?;
            let rest = past(Sign::OpenParen, rest)?;
            let head = head_of(alloc, name, FuncKind::Void, Width::W32);
            params(alloc, head, may, rest)
        }
        Kind::Star => thread_name(alloc, may, rest),
        _ => Err(Stop::At(Trouble::Bad, tokens.len())),
    }
}
