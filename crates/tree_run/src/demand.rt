ghost use Rattle.std.specs.Prelude.{◌≡◌, ◌++◌, drop, IfOk, Ok, Err};
ghost use Rattle.c_meaning.specs.Demand.{next_input, binary_value, binary_width, wider};
ghost use Rattle.tree_run.specs.Answering.{Answers, AnswersAll, number_of};

use crate::value::{
    binary, early, number_at, unary, wider_of, width_at, width_of_binary, width_of_unary,
};
use c_meaning::Demand;
use gob_tree::{BinOp, Expr, Memory, Seq, Slot, Width};
use std::alloc::Global;

/// A number of a width.
#[derive(Clone, Copy)]
pub(crate) struct Typed {
    pub number: i64,
    pub width: Width,
}

/// A number, or what stands in its way, and the inputs that are left.
#[derive(Drop)]
pub(crate) struct Found<'i> {
    pub value: Result<Typed, Demand>,
    pub rest: &'i [i64],
}

/// The numbers of a list of expressions, or what stands in their way, and the inputs that are left.
#[derive(Drop)]
pub(crate) struct FoundAll<'i> {
    pub values: Result<Seq<i64>, Demand>,
    pub rest: &'i [i64],
}

/// A number that needs no input.
fn known(number: i64, width: Width, ins: &[i64]) -> Found<'_>
    ensures value { number_of result.value ≡ Ok number }
    ensures width { IfOk result.value (λ v. v.width ≡ width) }
    ensures rest { result.rest.now ≡ ins.now }
{
    Found {
        value: Ok(Typed { number, width }),
        rest: ins,
    }
}

/// What stands in the way of a number.
fn stopped(demand: Demand, ins: &[i64]) -> Found<'_>
    ensures value { number_of result.value ≡ Err demand }
    ensures rest { result.rest.now ≡ ins.now }
{
    Found {
        value: Err(demand),
        rest: ins,
    }
}

/// The next input as a number of this width, or what is missing.
fn next(missing: Demand, width: Width, ins: &[i64]) -> Found<'_>
    ensures value { number_of result.value ≡ (next_input missing ins.now).0 }
    ensures width { IfOk result.value (λ v. v.width ≡ width) }
    ensures rest { result.rest.now ≡ (next_input missing ins.now).1 }
{
    match ins.split_first() {
        None => Found {
            value: Err(missing),
            rest: ins,
        },
        Some((number, rest)) => known(*number, width, rest),
    }
}

/// The value of an expression from left to right, with each input taken from the front, or the
/// first thing that stands in its way, and the inputs that are left.
#[cycle(evaluate)]
pub(crate) fn evaluate<'i>(
    alloc: Global,
    e: &Expr,
    slots: &[Slot],
    values: &[i64],
    ins: &'i [i64],
) -> Result<Found<'i>, Memory>
    ensures { IfOk result (λ found. Answers found e.now slots.now values.now ins.now) }
{
    match e {
        Expr::Number(n, w) => Ok(known(*n, *w, ins)),
        Expr::Local(x) => Ok(known(number_at(values, *x), width_at(slots, *x), ins)),
        Expr::Global(g, w) => Ok(next(Demand::Global(*g), *w, ins)),
        Expr::Nondet(w) => Ok(next(Demand::Nondet(*w), *w, ins)),
        Expr::Unary(op, a) => {
            let Found { value, rest } = evaluate(alloc, a.get(), slots, values, ins)?;
            match value {
                Err(demand) => Ok(stopped(demand, rest)),
                Ok(v) => {
                    let number = unary(*op, v.width, v.number);
                    Ok(known(number, width_of_unary(*op, v.width), rest))
                }
            }
        }
        Expr::Binary(op, a, b) => {
            let Found { value, rest } = evaluate(alloc, a.get(), slots, values, ins)?;
            match value {
                Err(demand) => Ok(stopped(demand, rest)),
                Ok(left) => match early(*op, left.number) {
                    Some(n) => Ok(known(n, Width::W32, rest)),
                    None => {
                        let Found { value, rest } = evaluate(alloc, b.get(), slots, values, rest)?;
                        match value {
                            Err(demand) => Ok(stopped(demand, rest)),
                            Ok(right) => Ok(combined(*op, left, right, rest)),
                        }
                    }
                },
            }
        }
        Expr::Call(f, w, args) => {
            let FoundAll { values, rest } = evaluate_all(
                alloc,
                args.as_slice(),
                slots,
                values,
                ins,
            )?;
            match values {
                Err(demand) => Ok(stopped(demand, rest)),
                Ok(numbers) => Ok(next(Demand::Call(*f, numbers), *w, rest)),
            }
        }
    }
}

/// What an operator makes of two numbers, at the wider width of the two.
fn combined(op: BinOp, v: Typed, w: Typed, ins: &[i64]) -> Found<'_>
    ensures value { number_of result.value ≡ binary_value op (wider v.width w.width) v.number w.number }
    ensures width { IfOk result.value (λ x. x.width ≡ binary_width op v.width w.width) }
    ensures rest { result.rest.now ≡ ins.now }
{
    let width = width_of_binary(op, v.width, w.width);
    match binary(op, wider_of(v.width, w.width), v.number, w.number) {
        Err(demand) => Found {
            value: Err(demand),
            rest: ins,
        },
        Ok(number) => known(number, width, ins),
    }
}

/// The values of a list of expressions, from left to right, up to the first that has none.
#[cycle(evaluate)]
pub(crate) fn evaluate_all<'i>(
    alloc: Global,
    all: &[Expr],
    slots: &[Slot],
    values: &[i64],
    ins: &'i [i64],
) -> Result<FoundAll<'i>, Memory>
    ensures { IfOk result (λ found. AnswersAll found all.now slots.now values.now ins.now) }
{
    let mut numbers = Seq::new(alloc);
    let mut rest = ins;
    for e in all {
        let Found { value, rest: left } = evaluate(alloc, e, slots, values, rest)?;
        rest = left;
        match value {
            Err(demand) => {
                return Ok(FoundAll {
                    values: Err(demand),
                    rest,
                });
            }
            Ok(v) => numbers.push(v.number)?,
        }
    }
    Ok(FoundAll {
        values: Ok(numbers),
        rest,
    })
}
