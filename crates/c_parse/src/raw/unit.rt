use crate::raw::expr::RawName;
use crate::raw::stmt::RawPlaced;
use gob_tree::{FuncKind, Place, Seq, Width};

/// A parameter; its name may be left out in a prototype, and in the head of a thread function.
#[derive(Drop)]
pub struct RawParam {
    pub width: Width,
    pub name: Option<RawName>,
}

/// The head of a function. The widths are those written, and 32 bits where none is written: `width`
/// is that of the result, and the one parameter of a thread function has a width too.
#[derive(Drop)]
pub struct RawHead {
    pub name: RawName,
    pub kind: FuncKind,
    pub width: Width,
    pub params: Seq<RawParam>,
}

/// A declaration or a definition outside the functions (C17, 6.9). The `literal` of a global is the
/// place of its number, or that of its name where there is none; the `end` of a function is the
/// place of its closing brace.
#[derive(Drop)]
pub enum RawItem {
    Global {
        name: RawName,
        width: Width,
        initial: i64,
        literal: Place,
    },
    Mutex(RawName),
    Prototype(RawHead),
    Function {
        head: RawHead,
        end: Place,
        body: Seq<RawPlaced>,
    },
}

/// A translation unit: what it declares and defines, in the order of the text.
#[derive(Drop)]
pub struct RawUnit {
    pub items: Seq<RawItem>,
}
