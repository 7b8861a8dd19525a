//! What is kept of an expression while a condition is read.
ghost use Rattle.std.specs.Prelude.{◌≡◌, ◌≢◌, ◌+◌, ◌-◌, ◌^◌, ◌||◌, ◌⊎◌, option_and_then, if◌then◌else◌, Some, None};
ghost use Rattle.qv_base.specs.Word.{shifted_right, shifted_signed};
ghost use Rattle.pp_dir.specs.Tree as tree;
ghost use Rattle.pp_dir.specs.Worth as spec;

use crate::operator::{BinaryOp, UnaryOp};
use crate::value::Value;
use qv_base::word;

/// The depth, the type and the word of an expression.
#[derive(Clone, Copy, Debug)]
pub struct Worth {
    /// How deep it is; 201 stands for more, too.
    pub depth: u32,
    /// Whether its type is unsigned.
    pub unsigned: bool,
    /// Its word. None where a part that is evaluated has no value.
    pub word: Option<u32>,
}

impl Worth {
    /// That of a constant.
    pub fn constant(value: Value) -> Worth
        ensures { result ≡ spec.constant_worth value }
    {
        Worth {
            depth: 1,
            unsigned: value.unsigned,
            word: Some(value.word),
        }
    }

    /// That of the expression in parentheses.
    pub fn grouped(self) -> Worth
        ensures { result ≡ spec.grouped_worth self }
    {
        Worth {
            depth: deeper(self.depth),
            ..self
        }
    }

    /// That of the expression behind an operator.
    pub fn unary(self, op: UnaryOp) -> Worth
        ensures { result ≡ spec.unary_worth op self }
    {
        Worth {
            depth: deeper(self.depth),
            unsigned: op != UnaryOp::Not && self.unsigned,
            word: self.word.map(|word| unary_word(op, word)),
        }
    }

    /// That of both expressions with an operator between them.
    pub fn binary(self, op: BinaryOp, right: Worth) -> Worth
        ensures { result ≡ spec.binary_worth op self right }
    {
        Worth {
            depth: deeper(self.depth.max(right.depth)),
            unsigned: is_unsigned(op, self.unsigned, right.unsigned),
            word: binary_word(op, self, right),
        }
    }

    /// That of a choice, by the test.
    pub fn choice(self, yes: Worth, no: Worth) -> Worth
        ensures { result ≡ spec.choice_worth self yes no }
    {
        Worth {
            depth: deeper(self.depth.max(yes.depth.max(no.depth))),
            unsigned: yes.unsigned || no.unsigned,
            word: chosen(self.word, yes.word, no.word),
        }
    }
}

// A depth and one more, up to 201.
fn deeper(depth: u32) -> u32
    ensures { result ≡ spec.cut (1 + depth) }
{
    1 + depth.min(200)
}

fn truth(b: bool) -> u32
    ensures { result ≡ tree.truth b }
{
    u32::from(b)
}

fn unary_word(op: UnaryOp, word: u32) -> u32
    ensures { result ≡ tree.unary_word op word }
{
    match op {
        UnaryOp::Plus => word,
        UnaryOp::Minus => word::neg(word),
        UnaryOp::Complement => !word,
        UnaryOp::Not => truth(word == 0),
    }
}

fn is_unsigned(op: BinaryOp, left: bool, right: bool) -> bool
    ensures { result ≡ tree.binary_unsigned op left right }
{
    match op {
        BinaryOp::Less
        | BinaryOp::Greater
        | BinaryOp::LessEqual
        | BinaryOp::GreaterEqual
        | BinaryOp::Equal
        | BinaryOp::NotEqual
        | BinaryOp::And
        | BinaryOp::Or => false,
        BinaryOp::ShiftLeft | BinaryOp::ShiftRight => left,
        _ => left || right,
    }
}

fn chosen(test: Option<u32>, yes: Option<u32>, no: Option<u32>) -> Option<u32>
    ensures { result ≡ option_and_then (λ w. if tree.is_true w then yes else no) test }
{
    if test? != 0 { yes } else { no }
}

fn binary_word(op: BinaryOp, left: Worth, right: Worth) -> Option<u32>
    ensures { result ≡ option_and_then (λ w. tree.lazy_word op left.unsigned (left.unsigned || right.unsigned) w right.word) left.word }
{
    let a = left.word?;
    match op {
        BinaryOp::And if a == 0 => Some(0),
        BinaryOp::Or if a != 0 => Some(1),
        _ => word_of_two(
            op,
            left.unsigned,
            left.unsigned || right.unsigned,
            a,
            right.word?,
        ),
    }
}

fn is_less(unsigned: bool, a: u32, b: u32) -> bool
    ensures { result ≡ tree.is_less unsigned a b }
{
    if unsigned {
        a < b
    } else {
        word::less_signed(a, b)
    }
}

// Whether `a` has a quotient by `b`.
fn divides(unsigned: bool, a: u32, b: u32) -> bool
    ensures { result ≡ tree.divides unsigned a b }
{
    b != 0 && (unsigned || !(a == 1 << 31 && b == u32::MAX))
}

fn quotient(unsigned: bool, a: u32, b: u32) -> Option<u32>
    ensures { result ≡ (if tree.divides unsigned a b then Some (tree.quotient unsigned a b) else None) }
{
    if !divides(unsigned, a, b) {
        return None;
    }
    Some(if unsigned {
        a / b
    } else {
        word::div_signed(a, b)
    })
}

fn remainder(unsigned: bool, a: u32, b: u32) -> Option<u32>
    ensures { result ≡ (if tree.divides unsigned a b then Some (tree.remainder unsigned a b) else None) }
{
    if !divides(unsigned, a, b) {
        return None;
    }
    Some(if unsigned {
        a % b
    } else {
        word::rem_signed(a, b)
    })
}

// The word of a shift, which has none where the count is too large.
fn shifted(count: u32, word: u32) -> Option<u32>
    ensures { result ≡ tree.shifted count word }
{
    if count < 32 { Some(word) } else { None }
}

fn shifted_right(unsigned: bool, a: u32, count: u32) -> u32
    ensures { result ≡ (if unsigned then shifted_right a count else shifted_signed a count) }
{
    if unsigned {
        word::shr(a, count)
    } else {
        word::sar(a, count)
    }
}

// `left` says whether the left operand is unsigned, `unsigned` whether one of them is.
fn word_of_two(op: BinaryOp, left: bool, unsigned: bool, a: u32, b: u32) -> Option<u32>
    ensures { result ≡ tree.binary_word op left unsigned a b }
{
    match op {
        BinaryOp::Multiply => Some(word::mul(a, b)),
        BinaryOp::Divide => quotient(unsigned, a, b),
        BinaryOp::Remainder => remainder(unsigned, a, b),
        BinaryOp::Add => Some(word::add(a, b)),
        BinaryOp::Subtract => Some(word::sub(a, b)),
        BinaryOp::ShiftLeft => shifted(b, word::shl(a, b)),
        BinaryOp::ShiftRight => shifted(b, shifted_right(left, a, b)),
        BinaryOp::Less => Some(truth(is_less(unsigned, a, b))),
        BinaryOp::Greater => Some(truth(is_less(unsigned, b, a))),
        BinaryOp::LessEqual => Some(truth(!is_less(unsigned, b, a))),
        BinaryOp::GreaterEqual => Some(truth(!is_less(unsigned, a, b))),
        BinaryOp::Equal => Some(truth(a == b)),
        BinaryOp::NotEqual => Some(truth(a != b)),
        BinaryOp::BitAnd => Some(a & b),
        BinaryOp::BitXor => Some(a ^ b),
        BinaryOp::BitOr => Some(a | b),
        BinaryOp::And => Some(truth(a != 0 && b != 0)),
        BinaryOp::Or => Some(truth(a != 0 || b != 0)),
    }
}
