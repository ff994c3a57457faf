use crate::expr::Expr;
use crate::place::Place;
use crate::seq::Seq;
use crate::text::Text;
use crate::unit::{FuncKind, GlobalDecl, Slot};

/// What an edge does. Numbers name slots, globals, thread variables, mutexes and functions:
/// `Read` is a slot and the global that it gets, `Write` a global and its new value, `Guard` a
/// condition and the truth that is wanted, `Create` a thread variable and the started function,
/// `Call` the slot that gets the result (if one does), the called function and the arguments.
#[derive(Drop)]
pub enum Action {
    Assign(u16, Expr),
    Read(u16, u16),
    Write(u16, Expr),
    Nondet(u16),
    Guard(Expr, bool),
    Assert(Expr),
    Lock(u16),
    Unlock(u16),
    Create(u16, u16),
    Join(u16),
    Call(Option<u16>, u16, Seq<Expr>),
    Skip,
}

/// An edge between two nodes of one function.
#[derive(Drop)]
pub struct Edge {
    pub from: u16,
    pub act: Action,
    pub to: u16,
}

/// The graph of a function. Node 0 is the entry, node 1 the exit; `nodes` has the place of each
/// node, and `slots` the temporaries too.
#[derive(Drop)]
pub struct FuncGraph {
    pub name: Text,
    pub kind: FuncKind,
    pub params: u16,
    pub slots: Seq<Slot>,
    pub threads: Seq<Text>,
    pub nodes: Seq<Place>,
    pub edges: Seq<Edge>,
}

/// A program as graphs: its functions, globals and mutexes by number, and which function is
/// `main`.
#[derive(Drop)]
pub struct Program {
    pub funcs: Seq<FuncGraph>,
    pub globals: Seq<GlobalDecl>,
    pub mutexes: Seq<Text>,
    pub main: u16,
}
