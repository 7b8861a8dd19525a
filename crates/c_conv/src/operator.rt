//! Operators on two integers (ANSI C X3.159-1989, 3.3.5 to 3.3.12).
ghost use Rattle.std.specs.Prelude.{◌≡◌, not, is_some};
ghost use Rattle.c_conv.specs.Operators as spec;
ghost use Rattle.c_type.specs.declared.operator.BinOp.TheVariants.{Divide, Remainder, ShiftLeft, ShiftRight};

use crate::conversion::{promote, usual};
use c_type::kind::{IntKind, is_signed};
use c_type::operator::BinOp;
use qv_base::word::{add, div_signed, less_signed, mul, rem_signed, sar, shl, shr, sub};

/// The type in which an operator works on operands of two types.
pub fn working_kind(op: BinOp, a: IntKind, b: IntKind) -> IntKind
    ensures { result ≡ spec.working op a b }
{
    match op {
        BinOp::ShiftLeft | BinOp::ShiftRight => promote(a),
        _ => usual(a, b),
    }
}

/// The type of what an operator gives on operands of two types.
pub fn result_kind(op: BinOp, a: IntKind, b: IntKind) -> IntKind
    ensures { result ≡ spec.given op a b }
{
    match op {
        BinOp::Less
        | BinOp::Greater
        | BinOp::AtMost
        | BinOp::AtLeast
        | BinOp::Equal
        | BinOp::NotEqual => IntKind::Int,
        _ => working_kind(op, a, b),
    }
}

/// An operator on two values of the type in which it works, which is one that promotion gives. Sums,
/// differences and products wrap, division cuts toward zero, and a right shift of a negative value
/// keeps its sign; of a shift's count the type doesn't matter.
///
/// None where C leaves it undefined: a division or remainder by zero, or of the least value by -1 in
/// a type that has negative ones, and a shift by 32 or more.
pub fn fold(op: BinOp, k: IntKind, a: u32, b: u32) -> Option<u32>
    ensures { result ≡ spec.binary op k a b }
{
    match op {
        BinOp::Multiply => Some(mul(a, b)),
        BinOp::Divide => quotient(k, a, b),
        BinOp::Remainder => remainder(k, a, b),
        BinOp::Add => Some(add(a, b)),
        BinOp::Subtract => Some(sub(a, b)),
        BinOp::ShiftLeft => shifted_left(k, a, b),
        BinOp::ShiftRight => shifted_right(k, a, b),
        BinOp::Less => Some(u32::from(is_less(k, a, b))),
        BinOp::Greater => Some(u32::from(is_less(k, b, a))),
        BinOp::AtMost => Some(u32::from(!is_less(k, b, a))),
        BinOp::AtLeast => Some(u32::from(!is_less(k, a, b))),
        BinOp::Equal => Some(u32::from(a == b)),
        BinOp::NotEqual => Some(u32::from(a != b)),
        BinOp::And => Some(a & b),
        BinOp::Xor => Some(a ^ b),
        BinOp::Or => Some(a | b),
    }
}

// Whether a value is below another one.
fn is_less(k: IntKind, a: u32, b: u32) -> bool
    ensures { result ≡ spec.is_less k a b }
{
    if is_signed(k) {
        less_signed(a, b)
    } else {
        a < b
    }
}

// Whether a quotient is defined.
fn divides(k: IntKind, a: u32, b: u32) -> bool
    ensures { result ≡ not (is_some (spec.undefined_quotient k a b)) }
{
    b != 0 && !(is_signed(k) && a == 1 << 31 && b == u32::MAX)
}

fn quotient(k: IntKind, a: u32, b: u32) -> Option<u32>
    ensures { result ≡ spec.binary Divide k a b }
{
    if !divides(k, a, b) {
        None
    } else if is_signed(k) {
        Some(div_signed(a, b))
    } else {
        Some(a / b)
    }
}

fn remainder(k: IntKind, a: u32, b: u32) -> Option<u32>
    ensures { result ≡ spec.binary Remainder k a b }
{
    if !divides(k, a, b) {
        None
    } else if is_signed(k) {
        Some(rem_signed(a, b))
    } else {
        Some(a % b)
    }
}

fn shifted_left(k: IntKind, a: u32, b: u32) -> Option<u32>
    ensures { result ≡ spec.binary ShiftLeft k a b }
{
    if b < 32 { Some(shl(a, b)) } else { None }
}

fn shifted_right(k: IntKind, a: u32, b: u32) -> Option<u32>
    ensures { result ≡ spec.binary ShiftRight k a b }
{
    if b >= 32 {
        None
    } else if is_signed(k) {
        Some(sar(a, b))
    } else {
        Some(shr(a, b))
    }
}
