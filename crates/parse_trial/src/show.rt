//! Trees as texts. Every part of an expression with an operator stands in parentheses; `@` and a
//! place stand in front of a statement and behind a name where places are asked.

use c_lex::lex;
use c_parse::{
    ParseFault, RawExpr, RawHead, RawItem, RawName, RawParam, RawPlaced, RawReturn, RawStmt,
    RawUnit, parse,
};
use gob_tree::{BinOp, FuncKind, Memory, Place, Seq, UnOp, Width};

fn put(out: &mut Vec<u8>, bytes: &[u8]) -> Result<(), Memory> {
    out.extend_from_slice(bytes)?;
    Ok(())
}

fn put_number(out: &mut Vec<u8>, n: i64) -> Result<(), Memory> {
    let mut digits = itoa::Buffer::new();
    put(out, digits.format(n).as_bytes())
}

fn put_place(out: &mut Vec<u8>, place: Place) -> Result<(), Memory> {
    put(out, b"@")?;
    put_number(out, i64::from(place.line))?;
    put(out, b".")?;
    put_number(out, i64::from(place.column))
}

fn put_width(out: &mut Vec<u8>, width: Width) -> Result<(), Memory> {
    match width {
        Width::W32 => put(out, b"int "),
        Width::W64 => put(out, b"long "),
    }
}

fn put_name(out: &mut Vec<u8>, places: bool, name: &RawName) -> Result<(), Memory> {
    put(out, name.text.as_bytes())?;
    if places {
        put_place(out, name.place)?;
    }
    Ok(())
}

fn binary(op: BinOp) -> &'static [u8] {
    match op {
        BinOp::Add => b" + ",
        BinOp::Sub => b" - ",
        BinOp::Mul => b" * ",
        BinOp::Div => b" / ",
        BinOp::Rem => b" % ",
        BinOp::Lt => b" < ",
        BinOp::Le => b" <= ",
        BinOp::Gt => b" > ",
        BinOp::Ge => b" >= ",
        BinOp::Eq => b" == ",
        BinOp::Ne => b" != ",
        BinOp::And => b" && ",
        BinOp::Or => b" || ",
    }
}

#[cycle(show_expr)]
fn put_expr(out: &mut Vec<u8>, places: bool, expr: &RawExpr) -> Result<(), Memory> {
    match expr {
        RawExpr::Number(n, Width::W32) => put_number(out, *n),
        RawExpr::Number(n, Width::W64) => {
            put_number(out, *n)?;
            put(out, b"L")
        }
        RawExpr::Name(x) => put_name(out, places, x),
        RawExpr::Unary(op, a) => {
            match op {
                UnOp::Neg => put(out, b"(-")?,
                UnOp::Not => put(out, b"(!")?,
            }
            put_expr(out, places, a.get())?;
            put(out, b")")
        }
        RawExpr::Binary(op, a, b) => {
            put(out, b"(")?;
            put_expr(out, places, a.get())?;
            put(out, binary(*op))?;
            put_expr(out, places, b.get())?;
            put(out, b")")
        }
        RawExpr::Call(f, args) => {
            put_name(out, places, f)?;
            put_args(out, places, args.as_slice())
        }
    }
}

#[cycle(show_expr)]
fn put_args(out: &mut Vec<u8>, places: bool, args: &[RawExpr]) -> Result<(), Memory> {
    put(out, b"[")?;
    for (i, arg) in args.iter().enumerate() {
        if 0 < i {
            put(out, b", ")?;
        }
        put_expr(out, places, arg)?;
    }
    put(out, b"]")
}

fn put_option(out: &mut Vec<u8>, places: bool, expr: &Option<RawExpr>) -> Result<(), Memory> {
    match expr {
        Some(expr) => put_expr(out, places, expr),
        None => Ok(()),
    }
}

fn put_return(out: &mut Vec<u8>, places: bool, value: &RawReturn) -> Result<(), Memory> {
    match value {
        RawReturn::Plain => put(out, b"return;"),
        RawReturn::Null => put(out, b"return NULL;"),
        RawReturn::Value(value) => {
            put(out, b"return ")?;
            put_expr(out, places, value)?;
            put(out, b";")
        }
    }
}

fn put_call(out: &mut Vec<u8>, places: bool, word: &[u8], name: &RawName) -> Result<(), Memory> {
    put(out, word)?;
    put_name(out, places, name)?;
    put(out, b";")
}

#[cycle(show_stmt)]
fn put_stmt(out: &mut Vec<u8>, places: bool, stmt: &RawStmt) -> Result<(), Memory> {
    match stmt {
        RawStmt::Declare(width, name, value) => {
            put_width(out, *width)?;
            put_name(out, places, name)?;
            if value.is_some() {
                put(out, b" = ")?;
            }
            put_option(out, places, value)?;
            put(out, b";")
        }
        RawStmt::DeclareThread(name) => put_call(out, places, b"thread ", name),
        RawStmt::Assign(name, value) => {
            put_name(out, places, name)?;
            put(out, b" = ")?;
            put_expr(out, places, value)?;
            put(out, b";")
        }
        RawStmt::CallOnly(name, args) => {
            put_name(out, places, name)?;
            put_args(out, places, args.as_slice())?;
            put(out, b";")
        }
        RawStmt::If(test, branch, other) => {
            put(out, b"if ")?;
            put_expr(out, places, test)?;
            put(out, b" {")?;
            put_placed(out, places, branch.get())?;
            put(out, b"}")?;
            match other {
                Some(other) => {
                    put(out, b" else {")?;
                    put_placed(out, places, other.get())?;
                    put(out, b"}")
                }
                None => Ok(()),
            }
        }
        RawStmt::While(test, body) => {
            put(out, b"while ")?;
            put_expr(out, places, test)?;
            put(out, b" {")?;
            put_placed(out, places, body.get())?;
            put(out, b"}")
        }
        RawStmt::DoWhile(body, test) => {
            put(out, b"do {")?;
            put_placed(out, places, body.get())?;
            put(out, b"} while ")?;
            put_expr(out, places, test)?;
            put(out, b";")
        }
        RawStmt::For(first, test, last, body) => {
            put(out, b"for {")?;
            put_list(out, places, first.as_slice())?;
            put(out, b"} ")?;
            put_option(out, places, test)?;
            put(out, b"; ")?;
            match last {
                Some(last) => put_placed(out, places, last.get())?,
                None => put(out, b"-")?,
            }
            put(out, b" {")?;
            put_placed(out, places, body.get())?;
            put(out, b"}")
        }
        RawStmt::Block(list) => {
            put(out, b"{")?;
            put_list(out, places, list.as_slice())?;
            put(out, b"}")
        }
        RawStmt::Break => put(out, b"break;"),
        RawStmt::Continue => put(out, b"continue;"),
        RawStmt::Return(value) => put_return(out, places, value),
        RawStmt::Create(thread, function) => {
            put(out, b"create ")?;
            put_name(out, places, thread)?;
            put_call(out, places, b" ", function)
        }
        RawStmt::Join(name) => put_call(out, places, b"join ", name),
        RawStmt::Lock(name) => put_call(out, places, b"lock ", name),
        RawStmt::Unlock(name) => put_call(out, places, b"unlock ", name),
        RawStmt::Assert(test) => {
            put(out, b"assert ")?;
            put_expr(out, places, test)?;
            put(out, b";")
        }
        RawStmt::Empty => put(out, b";"),
    }
}

#[cycle(show_stmt)]
fn put_placed(out: &mut Vec<u8>, places: bool, placed: &RawPlaced) -> Result<(), Memory> {
    if places {
        put_place(out, placed.place)?;
        put(out, b" ")?;
    }
    put_stmt(out, places, &placed.stmt)
}

#[cycle(show_stmt)]
fn put_list(out: &mut Vec<u8>, places: bool, list: &[RawPlaced]) -> Result<(), Memory> {
    for (i, placed) in list.iter().enumerate() {
        if 0 < i {
            put(out, b" ")?;
        }
        put_placed(out, places, placed)?;
    }
    Ok(())
}

fn put_param(out: &mut Vec<u8>, places: bool, param: &RawParam) -> Result<(), Memory> {
    put_width(out, param.width)?;
    match &param.name {
        Some(name) => put_name(out, places, name),
        None => put(out, b"-"),
    }
}

fn put_head(out: &mut Vec<u8>, places: bool, head: &RawHead) -> Result<(), Memory> {
    match head.kind {
        FuncKind::Int => put(out, b"number ")?,
        FuncKind::Void => put(out, b"void ")?,
        FuncKind::Thread => put(out, b"thread ")?,
    }
    put_width(out, head.width)?;
    put_name(out, places, &head.name)?;
    put(out, b"(")?;
    for (i, param) in head.params.as_slice().iter().enumerate() {
        if 0 < i {
            put(out, b", ")?;
        }
        put_param(out, places, param)?;
    }
    put(out, b")")
}

fn put_item(out: &mut Vec<u8>, places: bool, item: &RawItem) -> Result<(), Memory> {
    match item {
        RawItem::Global {
            name,
            width,
            initial,
            literal,
        } => {
            put_width(out, *width)?;
            put_name(out, places, name)?;
            put(out, b" = ")?;
            put_number(out, *initial)?;
            if places {
                put_place(out, *literal)?;
            }
            put(out, b";")
        }
        RawItem::Mutex(name) => put_call(out, places, b"mutex ", name),
        RawItem::Prototype(head) => {
            put_head(out, places, head)?;
            put(out, b";")
        }
        RawItem::Function { head, end, body } => {
            put_head(out, places, head)?;
            put(out, b" {")?;
            put_list(out, places, body.as_slice())?;
            put(out, b"}")?;
            if places {
                put_place(out, *end)?;
            }
            Ok(())
        }
    }
}

fn put_unit(out: &mut Vec<u8>, places: bool, unit: &RawUnit) -> Result<(), Memory> {
    for (i, item) in unit.items.as_slice().iter().enumerate() {
        if 0 < i {
            put(out, b" ")?;
        }
        put_item(out, places, item)?;
    }
    Ok(())
}

fn put_fault(out: &mut Vec<u8>, fault: ParseFault) -> Result<(), Memory> {
    match fault {
        ParseFault::Unexpected(place) => {
            put(out, b"unexpected ")?;
            put_place(out, place)
        }
        ParseFault::Unsupported(place) => {
            put(out, b"unsupported ")?;
            put_place(out, place)
        }
        ParseFault::TooDeep(place) => {
            put(out, b"too deep ")?;
            put_place(out, place)
        }
        ParseFault::Memory => put(out, b"memory"),
    }
}

/// Whether a text is read as the tree or the fault that is wanted.
pub fn reads(rt: HostRuntime, places: bool, text: &[u8], wanted: &[u8]) -> bool {
    let alloc = rt.alloc();
    let Ok(tokens) = lex(alloc, text) else {
        return false;
    };
    let mut out = Vec::new(alloc);
    let written = match parse(alloc, text, tokens.as_slice()) {
        Ok(unit) => put_unit(&mut out, places, &unit),
        Err(fault) => put_fault(&mut out, fault),
    };
    written.is_ok() && out.as_slice() == wanted
}
