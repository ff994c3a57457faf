use crate::expr::Width;
use crate::place::Place;
use crate::seq::Seq;
use crate::stmt::Placed;
use crate::text::Text;

/// The kind of a function: one that returns a number, one without a value, or a thread's start.
#[derive(Clone, Copy, Debug, PartialEq, Eq)]
pub enum FuncKind {
    Int,
    Void,
    Thread,
}

/// A slot of a frame. Slot 0 is the returned value; then come the parameters, the declared
/// locals in order, and the temporaries, whose names are empty.
#[derive(Drop)]
pub struct Slot {
    pub name: Text,
    pub width: Width,
}

/// A function with its body. `place` is that of its name, `end` that of its closing brace, and
/// `threads` are the names of its thread variables. A function of the kind `Int` whose slot 0 has
/// the width `W64` returns a `long`.
#[derive(Drop)]
pub struct Function {
    pub name: Text,
    pub place: Place,
    pub end: Place,
    pub kind: FuncKind,
    pub params: u16,
    pub slots: Seq<Slot>,
    pub threads: Seq<Text>,
    pub body: Seq<Placed>,
}

/// A global with its initial value, which is in its width.
#[derive(Drop)]
pub struct GlobalDecl {
    pub name: Text,
    pub width: Width,
    pub initial: i64,
}

/// A translation unit (C17, 6.9): its functions, globals and mutexes by number, and which
/// function is `main`.
#[derive(Drop)]
pub struct Unit {
    pub funcs: Seq<Function>,
    pub globals: Seq<GlobalDecl>,
    pub mutexes: Seq<Text>,
    pub main: u16,
}
