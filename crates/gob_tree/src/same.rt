ghost use Rattle.std.specs.Prelude.{◌≡◌, ◌↔◌, map, IsTrue};
ghost use Rattle.gob_tree.specs.Named.{function_name, global_name, mutex_name, named_expr, named_exprs, named_action, named_edge, named_graph, SameFunction};

use crate::expr::Expr;
use crate::graph::{Action, Edge, FuncGraph, Program};
use crate::text::Text;
use crate::unit::Slot;

fn same_function_name(a: &Program, f: u16, b: &Program, g: u16) -> bool
    ensures { IsTrue result ↔ (function_name a.now f ≡ function_name b.now g) }
{
    let x = a.funcs.as_slice().get(f as usize);
    let y = b.funcs.as_slice().get(g as usize);
    match (x, y) {
        (Some(x), Some(y)) => x.name.same(&y.name),
        (None, None) => true,
        _ => false,
    }
}

fn same_global_name(a: &Program, x: u16, b: &Program, y: u16) -> bool
    ensures { IsTrue result ↔ (global_name a.now x ≡ global_name b.now y) }
{
    let x = a.globals.as_slice().get(x as usize);
    let y = b.globals.as_slice().get(y as usize);
    match (x, y) {
        (Some(x), Some(y)) => x.name.same(&y.name),
        (None, None) => true,
        _ => false,
    }
}

fn same_mutex_name(a: &Program, m: u16, b: &Program, n: u16) -> bool
    ensures { IsTrue result ↔ (mutex_name a.now m ≡ mutex_name b.now n) }
{
    let x = a.mutexes.as_slice().get(m as usize);
    let y = b.mutexes.as_slice().get(n as usize);
    match (x, y) {
        (Some(x), Some(y)) => x.same(y),
        (None, None) => true,
        _ => false,
    }
}

#[cycle(same_expr)]
fn same_expr(a: &Program, x: &Expr, b: &Program, y: &Expr) -> bool
    ensures { IsTrue result ↔ (named_expr a.now x.now ≡ named_expr b.now y.now) }
{
    match (x, y) {
        (Expr::Number(m, v), Expr::Number(n, w)) => m == n && v == w,
        (Expr::Local(x), Expr::Local(y)) => x == y,
        (Expr::Global(x, v), Expr::Global(y, w)) => v == w && same_global_name(a, *x, b, *y),
        (Expr::Nondet(v), Expr::Nondet(w)) => v == w,
        (Expr::Unary(o, x), Expr::Unary(p, y)) => o == p && same_expr(a, x.get(), b, y.get()),
        (Expr::Binary(o, x, u), Expr::Binary(p, y, v)) => {
            o == p && same_expr(a, x.get(), b, y.get()) && same_expr(a, u.get(), b, v.get())
        }
        (Expr::Call(f, v, xs), Expr::Call(g, w, ys)) => {
            v == w
                && same_function_name(a, *f, b, *g)
                && same_arguments(a, xs.as_slice(), b, ys.as_slice())
        }
        _ => false,
    }
}

#[cycle(same_expr)]
fn same_arguments(a: &Program, xs: &[Expr], b: &Program, ys: &[Expr]) -> bool
    ensures { IsTrue result ↔ (named_exprs a.now xs.now ≡ named_exprs b.now ys.now) }
{
    same_exprs(a, xs, b, ys)
}

#[cycle(same_expr)]
fn same_exprs(a: &Program, xs: &[Expr], b: &Program, ys: &[Expr]) -> bool
    ensures { IsTrue result ↔ (map (named_expr a.now) xs.now ≡ map (named_expr b.now) ys.now) }
{
    if xs.len() != ys.len() {
        return false;
    }
    for (i, x) in xs.iter().enumerate() {
        if !same_expr(a, x, b, &ys[i]) {
            return false;
        }
    }
    true
}

fn same_action(a: &Program, x: &Action, b: &Program, y: &Action) -> bool
    ensures { IsTrue result ↔ (named_action a.now x.now ≡ named_action b.now y.now) }
{
    match (x, y) {
        (Action::Assign(x, d), Action::Assign(y, e)) => x == y && same_expr(a, d, b, e),
        (Action::Read(x, g), Action::Read(y, h)) => x == y && same_global_name(a, *g, b, *h),
        (Action::Write(g, d), Action::Write(h, e)) => {
            same_global_name(a, *g, b, *h) && same_expr(a, d, b, e)
        }
        (Action::Nondet(x), Action::Nondet(y)) => x == y,
        (Action::Guard(d, p), Action::Guard(e, q)) => p == q && same_expr(a, d, b, e),
        (Action::Assert(d), Action::Assert(e)) => same_expr(a, d, b, e),
        (Action::Lock(m), Action::Lock(n)) => same_mutex_name(a, *m, b, *n),
        (Action::Unlock(m), Action::Unlock(n)) => same_mutex_name(a, *m, b, *n),
        (Action::Create(t, f), Action::Create(u, g)) => {
            t == u && same_function_name(a, *f, b, *g)
        }
        (Action::Join(t), Action::Join(u)) => t == u,
        (Action::Call(x, f, ds), Action::Call(y, g, es)) => {
            x == y
                && same_function_name(a, *f, b, *g)
                && same_arguments(a, ds.as_slice(), b, es.as_slice())
        }
        (Action::Skip, Action::Skip) => true,
        _ => false,
    }
}

fn same_edge(a: &Program, x: &Edge, b: &Program, y: &Edge) -> bool
    ensures { IsTrue result ↔ (named_edge a.now x.now ≡ named_edge b.now y.now) }
{
    x.from == y.from && x.to == y.to && same_action(a, &x.act, b, &y.act)
}

fn same_edges(a: &Program, xs: &[Edge], b: &Program, ys: &[Edge]) -> bool
    ensures { IsTrue result ↔ (map (named_edge a.now) xs.now ≡ map (named_edge b.now) ys.now) }
{
    if xs.len() != ys.len() {
        return false;
    }
    for (i, x) in xs.iter().enumerate() {
        if !same_edge(a, x, b, &ys[i]) {
            return false;
        }
    }
    true
}

fn same_slots(xs: &[Slot], ys: &[Slot]) -> bool
    ensures { IsTrue result ↔ (xs.now ≡ ys.now) }
{
    if xs.len() != ys.len() {
        return false;
    }
    for (i, x) in xs.iter().enumerate() {
        let y = &ys[i];
        if x.width != y.width || !x.name.same(&y.name) {
            return false;
        }
    }
    true
}

fn same_texts(xs: &[Text], ys: &[Text]) -> bool
    ensures { IsTrue result ↔ (xs.now ≡ ys.now) }
{
    if xs.len() != ys.len() {
        return false;
    }
    for (i, x) in xs.iter().enumerate() {
        if !x.same(&ys[i]) {
            return false;
        }
    }
    true
}

fn same_graph(a: &Program, x: &FuncGraph, b: &Program, y: &FuncGraph) -> bool
    ensures { IsTrue result ↔ (named_graph a.now x.now ≡ named_graph b.now y.now) }
{
    x.kind == y.kind
        && x.params == y.params
        && x.nodes.len() == y.nodes.len()
        && x.name.same(&y.name)
        && same_slots(x.slots.as_slice(), y.slots.as_slice())
        && same_texts(x.threads.as_slice(), y.threads.as_slice())
        && same_edges(a, x.edges.as_slice(), b, y.edges.as_slice())
}

/// Whether function `f` of `a` and function `g` of `b` are the same: both are there, and their
/// graphs are equal when each number of a function, a global or a mutex is read as its name in its
/// program. Places are ignored. It takes no memory, and time linear in the two functions.
pub fn same_function(a: &Program, f: u16, b: &Program, g: u16) -> bool
    ensures { IsTrue result ↔ SameFunction a.now f b.now g }
{
    let x = a.funcs.as_slice().get(f as usize);
    let y = b.funcs.as_slice().get(g as usize);
    match (x, y) {
        (Some(x), Some(y)) => same_graph(a, x, b, y),
        _ => false,
    }
}
