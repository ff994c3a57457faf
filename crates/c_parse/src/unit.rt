//! Units, by descent. What is declared or defined goes onto a list; `may` says whether no `extern`
//! stands in front.

ghost use Rattle.std.specs.Prelude.{◌≡◌, pos, [], ◌∷◌, IfOk, IfErr};
ghost use Rattle.c_parse.specs.Literals.{ReadsNumber};
ghost use Rattle.c_parse.specs.Descent.{ReadsGlobal, MoreGlobalsOnto, GlobalsOnto, NamedOnto, TypedOnto, OuterOnto, ItemOnto};
ghost use Rattle.c_parse.specs.Grammar as grammar;
ghost use Rattle.c_parse.specs.Grammar.{within, ReadsLiteral, ReadsMutexName, IsUnit};
ghost use Rattle.c_parse.specs.Machine as machine;
ghost use Rattle.c_parse.specs.Machine.{Breaks, BreaksUnit};
ghost use Rattle.c_parse.specs.Unsigned.{AreUnsigned};

use crate::declaration::type_of;
use crate::head::{head_of, params, voided};
use crate::raw::{RawItem, RawName};
use crate::simple::ident;
use crate::stop::{Sign, Stop, Trouble, past};
use crate::terminal::{Kind, Terminal};
use gob_tree::{FuncKind, Place, Seq, Width};
use std::alloc::Global;

/// A number, with its place.
#[tactic(auto, using(crate::proofs::UnitExits::number_found))]
fn number(tokens: &[Terminal]) -> Result<(i64, Place, &[Terminal]), Stop>
    ensures found { IfOk result (λ read. ReadsNumber tokens.now read.0 read.1 read.2.now) }
    ensures stop { IfErr result (Breaks machine.Part.number (within 0) tokens.now) }
{
    let Some((token, rest)) = tokens.split_first() else {
        return Err(Stop::At(Trouble::Bad, 0));
    };
    match &token.kind {
        Kind::Number(value, _) => Ok((*value, token.place, rest)),
        _ => Err(Stop::At(Trouble::Bad, tokens.len())),
    }
}

/// `[ "-" ] number`, with the place of the number.
#[tactic(auto, using(crate::proofs::UnitExits::negative_found, crate::proofs::UnitExits::negative_stop, crate::proofs::Kept::unsigned_rest, crate::proofs::Kept::unsigned_number))]
fn literal(tokens: &[Terminal]) -> Result<(i64, Place, &[Terminal]), Stop>
    requires { AreUnsigned tokens.now }
    ensures found { IfOk result (λ read. ReadsLiteral tokens.now read.0 read.1 read.2.now) }
    ensures stop { IfErr result (Breaks machine.Part.literal (within 0) tokens.now) }
{
    let Some((token, rest)) = tokens.split_first() else {
        return Err(Stop::At(Trouble::Bad, 0));
    };
    match &token.kind {
        Kind::Minus => {
            let (value, place, rest) = number(rest)?;
            Ok((-value, place, rest))
        }
        _ => number(tokens),
    }
}

/// A global of an initial number, which is written at the place.
fn global_of(name: RawName, width: Width, initial: i64, literal: Place) -> RawItem
    ensures { result ≡ grammar.global name width initial literal }
{
    RawItem::Global {
        name,
        width,
        initial,
        literal,
    }
}

/// A global without a number.
fn unset(width: Width, name: RawName) -> RawItem
    ensures { result ≡ grammar.global name width (pos 0) name.place }
{
    let place = name.place;
    global_of(name, width, 0, place)
}

/// `[ "=" [ "-" ] number ]`, the global of this name.
#[tactic(auto, using(crate::proofs::UnitExits::given_found, crate::proofs::UnitExits::unset_found, crate::proofs::UnitExits::unset_at_end, crate::proofs::UnitExits::given_stop, crate::proofs::Kept::unsigned_rest, crate::proofs::Kept::kept_literal))]
fn global(width: Width, name: RawName, tokens: &[Terminal]) -> Result<(RawItem, &[Terminal]), Stop>
    requires { AreUnsigned tokens.now }
    ensures found { IfOk result (λ read. ReadsGlobal width name tokens.now read.0 read.1.now) }
    ensures unsigned { IfOk result (λ read. AreUnsigned read.1.now) }
    ensures stop { IfErr result (Breaks machine.Part.globals (within 0) tokens.now) }
{
    let Some((token, rest)) = tokens.split_first() else {
        return Ok((unset(width, name), tokens));
    };
    match &token.kind {
        Kind::Equals => {
            let (initial, literal, rest) = literal(rest)?;
            Ok((global_of(name, width, initial, literal), rest))
        }
        _ => Ok((unset(width, name), tokens)),
    }
}

/// `{ "," name [ "=" [ "-" ] number ] } ";"`
#[tactic(auto, using(crate::proofs::Descent::runs_from, crate::proofs::UnitExits::globals_closed, crate::proofs::UnitExits::next_name_stop, crate::proofs::UnitExits::next_global_stop, crate::proofs::UnitExits::more_globals_mark, crate::proofs::UnitExits::more_globals_end, crate::proofs::UnitExits::shorter_global, crate::proofs::Kept::unsigned_rest, crate::proofs::Kept::kept_name))]
fn more_globals(
    alloc: Global,
    front: Seq<RawItem>,
    width: Width,
    tokens: &[Terminal],
) -> Result<(Seq<RawItem>, &[Terminal]), Stop>
    requires { AreUnsigned tokens.now }
    ensures found { IfOk result (λ read. MoreGlobalsOnto width front tokens.now read.0 read.1.now) }
    ensures stop { IfErr result (Breaks machine.Part.more_globals (within 0) tokens.now) }
{
    let mut list = front;
    let mut rest = tokens;
    while let Some((token, after)) = rest.split_first() {
        match &token.kind {
            Kind::Semicolon => return Ok((list, after)),
            Kind::Comma => {
                let (name, behind) = ident(alloc, after)?;
                let (one, next) = global(width, name, behind)?;
                list.push(one)?;
                rest = next;
            }
            _ => return Err(Stop::At(Trouble::Bad, rest.len())),
        }
    }
    Err(Stop::At(Trouble::Bad, 0))
}

/// What follows the name of a global: `[ "=" [ "-" ] number ] { "," ginit } ";"`.
#[tactic(auto, using(crate::proofs::UnitExits::globals_found, crate::proofs::UnitExits::globals_stop))]
fn globals(
    alloc: Global,
    front: Seq<RawItem>,
    width: Width,
    name: RawName,
    tokens: &[Terminal],
) -> Result<(Seq<RawItem>, &[Terminal]), Stop>
    requires { AreUnsigned tokens.now }
    ensures found { IfOk result (λ read. GlobalsOnto width name front tokens.now read.0 read.1.now) }
    ensures stop { IfErr result (Breaks machine.Part.globals (within 0) tokens.now) }
{
    let mut list = front;
    let (first, rest) = global(width, name, tokens)?;
    list.push(first)?;
    more_globals(alloc, list, width, rest)
}

/// What follows a type and a name: the parameters of a function, or globals.
#[tactic(auto, using(crate::proofs::UnitExits::number_function_found, crate::proofs::UnitExits::number_function_stop, crate::proofs::Descent::wanted))]
fn named(
    alloc: Global,
    front: Seq<RawItem>,
    may: bool,
    width: Width,
    name: RawName,
    tokens: &[Terminal],
) -> Result<(Seq<RawItem>, &[Terminal]), Stop>
    requires { AreUnsigned tokens.now }
    ensures found { IfOk result (λ read. NamedOnto may width name front tokens.now read.0 read.1.now) }
    ensures stop { IfErr result (Breaks (machine.Part.named may) (within 0) tokens.now) }
{
    let Some((token, rest)) = tokens.split_first() else {
        return Err(Stop::At(Trouble::Bad, 0));
    };
    match &token.kind {
        Kind::OpenParen => {
            let mut list = front;
            let head = head_of(alloc, name, FuncKind::Int, width);
            let (function, rest) = params(alloc, head, may, rest)?;
            list.push(function)?;
            Ok((list, rest))
        }
        _ => {
            if may {
                return globals(alloc, front, width, name, tokens);
            }
            Err(Stop::At(Trouble::Bad, tokens.len()))
        }
    }
}

/// What follows a type: a name, and what follows both.
#[tactic(auto, using(crate::proofs::UnitExits::typed_found, crate::proofs::UnitExits::typed_0_stop, crate::proofs::UnitExits::typed_1_stop, crate::proofs::Kept::kept_name))]
fn typed(
    alloc: Global,
    front: Seq<RawItem>,
    may: bool,
    width: Width,
    tokens: &[Terminal],
) -> Result<(Seq<RawItem>, &[Terminal]), Stop>
    requires { AreUnsigned tokens.now }
    ensures found { IfOk result (λ read. TypedOnto may width front tokens.now read.0 read.1.now) }
    ensures stop { IfErr result (Breaks (machine.Part.typed may) (within 0) tokens.now) }
{
    let (name, rest) = ident(alloc, tokens)?;
    named(alloc, front, may, width, name, rest)
}

/// `name "=" "PTHREAD_MUTEX_INITIALIZER" ";"`
#[tactic(auto, using(crate::proofs::UnitExits::mutex_name_found, crate::proofs::UnitExits::mutex_name_0_stop, crate::proofs::UnitExits::mutex_name_1_stop, crate::proofs::UnitExits::mutex_name_2_stop, crate::proofs::UnitExits::mutex_name_3_stop))]
fn mutex_name(alloc: Global, tokens: &[Terminal]) -> Result<(RawItem, &[Terminal]), Stop>
    ensures found { IfOk result (λ read. ReadsMutexName tokens.now (read.0 ∷ []) read.1.now) }
    ensures stop { IfErr result (Breaks machine.Part.mutex_name (within 0) tokens.now) }
{
    let (name, rest) = ident(alloc, tokens)?;
    let rest = past(Sign::Equals, rest)?;
    let rest = past(Sign::Initializer, rest)?;
    let rest = past(Sign::Semicolon, rest)?;
    Ok((RawItem::Mutex(name), rest))
}

/// What follows `static` or `extern`; behind `extern` stands a prototype.
#[tactic(auto, using(crate::proofs::Kept::kept_type, crate::proofs::UnitExits::void_item_found, crate::proofs::UnitExits::void_item_stop, crate::proofs::UnitExits::mutex_item_found, crate::proofs::UnitExits::mutex_item_stop, crate::proofs::UnitExits::no_mutex_stop, crate::proofs::Descent::wanted))]
fn outer(
    alloc: Global,
    front: Seq<RawItem>,
    may: bool,
    tokens: &[Terminal],
) -> Result<(Seq<RawItem>, &[Terminal]), Stop>
    requires { AreUnsigned tokens.now }
    ensures found { IfOk result (λ read. OuterOnto may front tokens.now read.0 read.1.now) }
    ensures stop { IfErr result (Breaks (machine.Part.outer may) (within 0) tokens.now) }
{
    let Some((token, rest)) = tokens.split_first() else {
        return Err(Stop::At(Trouble::Bad, 0));
    };
    let mut list = front;
    match &token.kind {
        Kind::Void => {
            let (function, rest) = voided(alloc, may, rest)?;
            list.push(function)?;
            Ok((list, rest))
        }
        Kind::Mutex => {
            if may {
                let (mutex, rest) = mutex_name(alloc, rest)?;
                list.push(mutex)?;
                return Ok((list, rest));
            }
            Err(Stop::At(Trouble::Bad, tokens.len()))
        }
        _ => {
            let (width, rest) = type_of(tokens)?;
            typed(alloc, list, may, width, rest)
        }
    }
}

/// `[ "static" | "extern" ] item`
#[tactic(auto, using(crate::proofs::UnitExits::static_found, crate::proofs::UnitExits::static_stop, crate::proofs::UnitExits::extern_found, crate::proofs::UnitExits::extern_stop, crate::proofs::Kept::unsigned_rest))]
fn item(
    alloc: Global,
    front: Seq<RawItem>,
    tokens: &[Terminal],
) -> Result<(Seq<RawItem>, &[Terminal]), Stop>
    requires { AreUnsigned tokens.now }
    ensures found { IfOk result (λ read. ItemOnto front tokens.now read.0 read.1.now) }
    ensures stop { IfErr result (Breaks machine.Part.unit_item (within 0) tokens.now) }
{
    let Some((token, rest)) = tokens.split_first() else {
        return Err(Stop::At(Trouble::Bad, 0));
    };
    match &token.kind {
        Kind::Static => outer(alloc, front, true, rest),
        Kind::Extern => outer(alloc, front, false, rest),
        _ => outer(alloc, front, true, tokens),
    }
}

/// `{ item }`, all of the tokens.
#[tactic(auto, using(crate::proofs::UnitExits::unit_runs_from, crate::proofs::UnitExits::unit_begun, crate::proofs::Kept::kept_item))]
pub(crate) fn unit(alloc: Global, tokens: &[Terminal]) -> Result<Seq<RawItem>, Stop>
    requires { AreUnsigned tokens.now }
    ensures found { IfOk result (λ items. IsUnit tokens.now items) }
    ensures stop { IfErr result (BreaksUnit tokens.now) }
{
    let mut list = Seq::new(alloc);
    let mut rest = tokens;
    while !rest.is_empty() {
        let (now, next) = item(alloc, list, rest)?;
        list = now;
        rest = next;
    }
    Ok(list)
}
