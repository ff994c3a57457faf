ghost use Rattle.std.specs.Prelude.{◌≡◌, int_div, int_rem};
ghost use Rattle.std.specs.Int.{int_wrap, w32, w64};
ghost use Rattle.c_meaning.specs.Demand.{conversion, unary_value, binary_value, early_value, wider, binary_width, unary_width, slot_width, value_at, truth, quotient_or_fault};

use c_meaning::Demand;
use gob_tree::{BinOp, Slot, UnOp, Width};

/// The number of 32 bits that equals `n` modulo 2 ^ 32.
fn low_32(n: i128) -> i32
    ensures { result ≡ int_wrap w32 n }
{
    if -2_147_483_648 <= n && n <= 2_147_483_647 {
        return n as i32;
    }
    let low = n.rem_euclid(4_294_967_296) as u32;
    low.cast_signed()
}

/// The number of 64 bits that equals `n` modulo 2 ^ 64.
fn low_64(n: i128) -> i64
    ensures { result ≡ int_wrap w64 n }
{
    if -9_223_372_036_854_775_808 <= n && n <= 9_223_372_036_854_775_807 {
        return n as i64;
    }
    let low = n.rem_euclid(18_446_744_073_709_551_616) as u64;
    low.cast_signed()
}

/// The number of a width that equals `n` modulo 2 ^ 32 or 2 ^ 64.
pub(crate) fn converted(width: Width, n: i128) -> i64
    ensures { result ≡ conversion width n }
{
    match width {
        Width::W32 => i64::from(low_32(n)),
        Width::W64 => low_64(n),
    }
}

/// The width of a slot.
pub(crate) fn width_at(slots: &[Slot], x: u16) -> Width
    ensures { result ≡ slot_width slots.now x }
{
    match slots.get(x as usize) {
        Some(slot) => slot.width,
        None => Width::W32,
    }
}

/// The value of a slot.
pub(crate) fn number_at(values: &[i64], x: u16) -> i64
    ensures { result ≡ value_at values.now x }
{
    match values.get(x as usize) {
        Some(n) => *n,
        None => 0,
    }
}

/// W64 where one of the two is.
pub(crate) fn wider_of(v: Width, w: Width) -> Width
    ensures { result ≡ wider v w }
{
    match v {
        Width::W32 => w,
        Width::W64 => Width::W64,
    }
}

/// The width of what an operator makes of operands of these widths (C17, 6.3.1.8).
pub(crate) fn width_of_binary(op: BinOp, v: Width, w: Width) -> Width
    ensures { result ≡ binary_width op v w }
{
    match op {
        BinOp::Add | BinOp::Sub | BinOp::Mul | BinOp::Div | BinOp::Rem => wider_of(v, w),
        _ => Width::W32,
    }
}

pub(crate) fn width_of_unary(op: UnOp, w: Width) -> Width
    ensures { result ≡ unary_width op w }
{
    match op {
        UnOp::Neg => w,
        UnOp::Not => Width::W32,
    }
}

fn truth(b: bool) -> i64
    ensures { result ≡ truth b }
{
    if b { 1 } else { 0 }
}

/// What a prefix operator of this width makes of a number (C17, 6.5.3.3).
pub(crate) fn unary(op: UnOp, width: Width, n: i64) -> i64
    ensures { result ≡ unary_value op width n }
{
    match op {
        UnOp::Neg => converted(width, -(n as i128)),
        UnOp::Not => truth(n == 0),
    }
}

/// A quotient, which rounds towards zero (C17, 6.5.5); `Fault` by zero.
fn quotient(width: Width, n: i64, m: i64) -> Result<i64, Demand>
    ensures { result ≡ quotient_or_fault int_div width n m }
{
    if m == 0 {
        return Err(Demand::Fault);
    }
    Ok(converted(width, n as i128 / m as i128))
}

/// A remainder, which has the sign of the first number (C17, 6.5.5); `Fault` by zero.
fn remainder(width: Width, n: i64, m: i64) -> Result<i64, Demand>
    ensures { result ≡ quotient_or_fault int_rem width n m }
{
    if m == 0 {
        return Err(Demand::Fault);
    }
    Ok(converted(width, n as i128 % m as i128))
}

/// What a binary operator of this width makes of two numbers (C17, 6.5.5 to 6.5.14).
pub(crate) fn binary(op: BinOp, width: Width, n: i64, m: i64) -> Result<i64, Demand>
    ensures { result ≡ binary_value op width n m }
{
    match op {
        BinOp::Add => Ok(converted(width, n as i128 + m as i128)),
        BinOp::Sub => Ok(converted(width, n as i128 - m as i128)),
        BinOp::Mul => Ok(converted(width, n as i128 * m as i128)),
        BinOp::Div => quotient(width, n, m),
        BinOp::Rem => remainder(width, n, m),
        BinOp::Lt => Ok(truth(n < m)),
        BinOp::Le => Ok(truth(n <= m)),
        BinOp::Gt => Ok(truth(n > m)),
        BinOp::Ge => Ok(truth(n >= m)),
        BinOp::Eq => Ok(truth(n == m)),
        BinOp::Ne => Ok(truth(n != m)),
        BinOp::And => Ok(truth(n != 0 && m != 0)),
        BinOp::Or => Ok(truth(n != 0 || m != 0)),
    }
}

/// The value that the left operand decides alone (C17, 6.5.13 and 6.5.14).
pub(crate) fn early(op: BinOp, n: i64) -> Option<i64>
    ensures { result ≡ early_value op n }
{
    match op {
        BinOp::And => if n == 0 { Some(0) } else { None },
        BinOp::Or => if n == 0 { None } else { Some(1) },
        _ => None,
    }
}
