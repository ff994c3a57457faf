ghost use Rattle.std.specs.Prelude.{◌≡◌, [], ◌∷◌, ◌++◌, IfOk, OnOk, IsSorted, map, if◌then◌else◌, pos, ◌+ℤ◌, ◌-ℤ◌};
ghost use Rattle.std.specs.List.Sorted.{IsStrictlySortedBy};
ghost use Rattle.std.specs.Ordering.{int_cmp};
ghost use Rattle.std.specs.List.{flat_map, list_any};
ghost use Rattle.gob_tree.specs.Widths.{fits, lowest, greatest};
ghost use Rattle.gob_tree.specs.declared.graph.FuncGraph.{FuncGraph as TheFunction};
ghost use Rattle.gob_tree.specs.declared.unit.GlobalDecl.{GlobalDecl as TheGlobal};
ghost use Rattle.gob_tree.specs.declared.unit.Slot.{Slot as TheSlot};
ghost use Rattle.state_dom.specs.ThresholdValues.{numbers_of, numbers_of_action, numbers_of_edges, numbers_of_program, neighbours, fitting, ends_of_type, thresholds_of, has_wide, is_wide, widest, HasSameMembers, AreThresholdsOf};

use gob_tree::{Action, Edge, Expr, FuncGraph, GlobalDecl, Memory, Program, Width};
use std::alloc::Global;
use std::marker::Model;

/// The numbers at which an end of an interval comes to rest once it moves: a set, kept in ascending
/// order, each number once.
#[derive(Debug, Drop)]
pub struct Thresholds {
    marks: Vec<i64>,
}

impl Model for Thresholds {
    ghost use Rattle.std.specs.Prelude.{List, ℤ};
    ghost use Rattle.std.specs.List.Sorted.{IsStrictlySortedBy};
    ghost use Rattle.std.specs.Ordering.{int_cmp};

    ghost Value = { List ℤ };

    ghost view = { λ t. t.marks.items };

    ghost invariant = { λ t. IsStrictlySortedBy int_cmp t.marks.items };
}

impl Thresholds {
    /// The thresholds of a program: each number in its edges and each initial value with its two
    /// neighbours, and the ends of its types. `Memory` is want of memory.
    pub fn of(alloc: Global, program: &Program) -> Result<Thresholds, Memory>
        ensures { IfOk result (λ t. AreThresholdsOf program.now t) }
    {
        let mut marks = listed(alloc, program)?;
        marks.sort()?;
        keep_each_once(&mut marks);
        Ok(Thresholds { marks })
    }

    /// The thresholds, in ascending order, each once.
    pub fn as_slice(&self) -> &[i64]
        ensures value { result.now ≡ self.now }
        ensures ascending { IsSorted int_cmp self.now }
        ensures once { IsStrictlySortedBy int_cmp self.now }
    {
        self.marks.as_slice()
    }
}

/// The thresholds one by one, as the definition lists them.
fn listed(alloc: Global, program: &Program) -> Result<Vec<i64>, Memory>
    ensures { IfOk result (λ marks. marks.items ≡ thresholds_of program.now) }
{
    let wide = has_wide(program);
    let widest = if wide { Width::W64 } else { Width::W32 };
    let numbers = numbers_of_program(alloc, program)?;
    let mut marks = Vec::new(alloc);
    push_all_neighbours(&mut marks, &numbers, widest)?;
    push_ends(&mut marks, Width::W32)?;
    if wide {
        push_ends(&mut marks, Width::W64)?;
    }
    Ok(marks)
}

/// Leaves of an ascending list each number once.
fn keep_each_once(marks: &mut Vec<i64>)
    requires { IsSorted int_cmp marks.old.items }
    ensures once { IsStrictlySortedBy int_cmp marks.new.items }
    ensures same { HasSameMembers marks.old.items marks.new.items }
{
    marks.dedup();
}

fn has_wide(program: &Program) -> bool
    ensures { result ≡ has_wide program.now }
{
    has_wide_slot(program.funcs.as_slice()) || has_wide_global(program.globals.as_slice())
}

fn has_wide_slot(functions: &[FuncGraph]) -> bool
    ensures { result ≡ list_any (λ (f : TheFunction). list_any (λ (s : TheSlot). is_wide s.width) f.slots) functions.now }
{
    functions.iter().any(|f| is_wide_function(f))
}

fn is_wide_function(function: &FuncGraph) -> bool
    ensures { result ≡ list_any (λ (s : TheSlot). is_wide s.width) function.now.slots }
{
    function.slots.as_slice().iter().any(|s| is_wide(s.width))
}

fn has_wide_global(globals: &[GlobalDecl]) -> bool
    ensures { result ≡ list_any (λ (g : TheGlobal). is_wide g.width) globals.now }
{
    globals.iter().any(|g| is_wide(g.width))
}

fn is_wide(w: Width) -> bool
    ensures { result ≡ is_wide w }
{
    match w {
        Width::W32 => false,
        Width::W64 => true,
    }
}

fn lowest(w: Width) -> i64
    ensures { result ≡ lowest w }
{
    match w {
        Width::W32 => -2147483648,
        Width::W64 => i64::MIN,
    }
}

fn greatest(w: Width) -> i64
    ensures { result ≡ greatest w }
{
    match w {
        Width::W32 => 2147483647,
        Width::W64 => i64::MAX,
    }
}

fn push_ends(marks: &mut Vec<i64>, w: Width) -> Result<(), Memory>
    ensures { OnOk result (marks.new.items ≡ marks.old.items ++ ends_of_type w) }
{
    marks.push(lowest(w))?;
    marks.push(greatest(w))?;
    Ok(())
}

/// Adds a number and its two neighbours, each where it fits the width.
fn push_neighbours(marks: &mut Vec<i64>, c: i64, w: Width) -> Result<(), Memory>
    ensures { OnOk result (marks.new.items ≡ marks.old.items ++ neighbours w c) }
{
    push_fitting(marks, predecessor(c), w)?;
    push_fitting(marks, i128::from(c), w)?;
    push_fitting(marks, successor(c), w)?;
    Ok(())
}

fn push_all_neighbours(marks: &mut Vec<i64>, numbers: &[i64], w: Width) -> Result<(), Memory>
    ensures { OnOk result (marks.new.items ≡ marks.old.items ++ flat_map (neighbours w) numbers.now) }
{
    for c in numbers {
        push_neighbours(marks, *c, w)?;
    }
    Ok(())
}

fn predecessor(c: i64) -> i128
    ensures { result ≡ c -ℤ pos 1 }
{
    i128::from(c) - 1
}

fn successor(c: i64) -> i128
    ensures { result ≡ c +ℤ pos 1 }
{
    i128::from(c) + 1
}

fn push_fitting(marks: &mut Vec<i64>, c: i128, w: Width) -> Result<(), Memory>
    ensures { OnOk result (marks.new.items ≡ marks.old.items ++ fitting w c) }
{
    if i128::from(lowest(w)) <= c && c <= i128::from(greatest(w)) {
        marks.push(c as i64)?;
    }
    Ok(())
}

fn numbers_of_program(alloc: Global, program: &Program) -> Result<Vec<i64>, Memory>
    ensures { IfOk result (λ numbers. numbers.items ≡ numbers_of_program program.now) }
{
    let mut numbers = Vec::new(alloc);
    for function in program.funcs.as_slice() {
        push_edges(&mut numbers, function.edges.as_slice())?;
    }
    for global in program.globals.as_slice() {
        numbers.push(global.initial)?;
    }
    Ok(numbers)
}

fn push_edges(numbers: &mut Vec<i64>, edges: &[Edge]) -> Result<(), Memory>
    ensures { OnOk result (numbers.new.items ≡ numbers.old.items ++ numbers_of_edges edges.now) }
{
    for edge in edges {
        push_action(numbers, &edge.act)?;
    }
    Ok(())
}

fn push_action(numbers: &mut Vec<i64>, act: &Action) -> Result<(), Memory>
    ensures { OnOk result (numbers.new.items ≡ numbers.old.items ++ numbers_of_action act.now) }
{
    match act {
        Action::Assign(_, e) => push_expr(numbers, e),
        Action::Write(_, e) => push_expr(numbers, e),
        Action::Guard(e, _) => push_expr(numbers, e),
        Action::Assert(e) => push_expr(numbers, e),
        Action::Call(_, _, args) => push_exprs(numbers, args.as_slice()),
        _ => Ok(()),
    }
}

fn push_exprs(numbers: &mut Vec<i64>, exprs: &[Expr]) -> Result<(), Memory>
    ensures { OnOk result (numbers.new.items ≡ numbers.old.items ++ flat_map numbers_of exprs.now) }
{
    for expr in exprs {
        push_expr(numbers, expr)?;
    }
    Ok(())
}

fn push_expr(numbers: &mut Vec<i64>, e: &Expr) -> Result<(), Memory>
    ensures { OnOk result (numbers.new.items ≡ numbers.old.items ++ numbers_of e.now) }
{
    match e {
        Expr::Number(n, _) => {
            numbers.push(*n)?;
            Ok(())
        }
        Expr::Local(_) => Ok(()),
        Expr::Global(_, _) => Ok(()),
        Expr::Nondet(_) => Ok(()),
        Expr::Unary(_, a) => push_expr(numbers, a.get()),
        Expr::Binary(_, a, b) => {
            push_expr(numbers, a.get())?;
            push_expr(numbers, b.get())
        }
        Expr::Call(_, _, args) => {
            for arg in args.as_slice() {
                push_expr(numbers, arg)?;
            }
            Ok(())
        }
    }
}
