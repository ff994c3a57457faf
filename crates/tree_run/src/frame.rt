ghost use Rattle.std.specs.Prelude.{◌≡◌, ◌∷◌, List, IfOk, OnOk, OnErr};
ghost use Rattle.c_meaning.specs.Config.{first_values, param_values, unset_vars};
ghost use Rattle.c_meaning.specs.Tree.{new_frame, frame_of, with_input, front_demand, func_slots};
ghost use Rattle.tree_run.specs.Framing.{shown};
ghost use Rattle.tree_run.specs.Stack.{IsReady};

use crate::front::{exprs_of, values_of};
use crate::todo::{Next, Part};
use crate::value::converted;
use c_meaning::Demand;
use gob_tree::{Function, Memory, Seq, Slot, Text, Unit};
use std::alloc::Global;

/// A call that has not returned: its function, what is still to do, the values of its slots, the
/// thread that each thread variable has, and the inputs got for what stands in front.
#[derive(Drop)]
pub(crate) struct Frame<'u> {
    pub func: u16,
    pub todo: Vec<Part<'u>>,
    pub slots: Vec<i64>,
    pub vars: Vec<Option<u32>>,
    pub ins: Vec<i64>,
}

/// The value of the next parameter of this width, and the arguments that are left; 0 where none is.
fn next_param<'a>(slot: &Slot, args: &'a [i64]) -> (i64, &'a [i64])
    ensures { (slots : List Slot) → param_values (slot.now ∷ slots) args.now ≡ result.0 ∷ param_values slots result.1.now }
{
    match args.split_first() {
        None => (0, args),
        Some((number, rest)) => (converted(slot.width, *number as i128), rest),
    }
}

/// The slots of a new frame: 0 in slot 0, then the parameters, and 0 in every other slot.
fn first_numbers(alloc: Global, slots: &[Slot], args: &[i64]) -> Result<Vec<i64>, Memory>
    ensures { IfOk result (λ v. v.items ≡ first_values slots.now args.now) }
{
    let mut numbers = Vec::new(alloc);
    match slots.split_first() {
        None => Ok(numbers),
        Some((_, named)) => {
            numbers.push(0)?;
            let mut left = args;
            for slot in named {
                let (number, rest) = next_param(slot, left);
                left = rest;
                numbers.push(number)?;
            }
            Ok(numbers)
        }
    }
}

/// No thread variable has a thread.
pub(crate) fn no_threads(alloc: Global, names: &[Text]) -> Result<Vec<Option<u32>>, Memory>
    ensures { IfOk result (λ v. v.items ≡ unset_vars names.now) }
{
    let mut vars = Vec::new(alloc);
    for _name in names {
        vars.push(None)?;
    }
    Ok(vars)
}

impl<'u> Frame<'u> {
    /// A new frame of a function that is there.
    fn of(
        alloc: Global,
        func: u16,
        function: &'u Function,
        args: &[i64],
    ) -> Result<Frame<'u>, Memory>
        ensures { IfOk result (λ f. shown f ≡ frame_of func function.now args.now) }
    {
        let slots = first_numbers(alloc, function.slots.as_slice(), args)?;
        let vars = no_threads(alloc, function.threads.as_slice())?;
        let mut todo = Vec::new(alloc);
        todo.push(Part::Rest(function.body.as_slice()))?;
        Ok(Frame {
            func,
            todo,
            slots,
            vars,
            ins: Vec::new(alloc),
        })
    }

    /// A new frame of a function, by its number.
    pub(crate) fn new(
        alloc: Global,
        unit: &'u Unit,
        func: u16,
        args: &[i64],
    ) -> Result<Frame<'u>, Memory>
        ensures { IfOk result (λ f. shown f ≡ new_frame unit.now func args.now) }
    {
        match unit.funcs.as_slice().get(func as usize) {
            Some(function) => Frame::of(alloc, func, function, args),
            None => Ok(Frame {
                func,
                todo: Vec::new(alloc),
                slots: Vec::new(alloc),
                vars: Vec::new(alloc),
                ins: Vec::new(alloc),
            }),
        }
    }

    /// One more input for what stands in front.
    pub(crate) fn get_input(&mut self, number: i64) -> Result<(), Memory>
        ensures ok { OnOk result (shown self.new ≡ with_input (shown self.old) number) }
        ensures err { OnErr result (shown self.new ≡ shown self.old) }
    {
        self.ins.push(number)?;
        Ok(())
    }

    /// The values of the front's expressions, or the first thing that stands in their way.
    pub(crate) fn demand(
        &self,
        alloc: Global,
        unit: &Unit,
        next: Option<Next<'u>>,
    ) -> Result<Result<Seq<i64>, Demand>, Memory>
        requires { IsReady self.now.todo.items next }
        ensures { IfOk result (λ r. r ≡ front_demand unit.now (shown self.now)) }
    {
        match next {
            None => Ok(Ok(Seq::new(alloc))),
            Some(next) => {
                let slots = slots_of(unit, self.func);
                values_of(
                    alloc,
                    exprs_of(next),
                    slots,
                    self.slots.as_slice(),
                    self.ins.as_slice(),
                )
            }
        }
    }
}

/// The slots of a function by its number; none where there is no such function.
pub(crate) fn slots_of(unit: &Unit, func: u16) -> &[Slot]
    ensures { result.now ≡ func_slots unit.now func }
{
    match unit.funcs.as_slice().get(func as usize) {
        Some(function) => function.slots.as_slice(),
        None => &[],
    }
}
