//! The operators of conditions (ANSI C X3.159-1989, 3.8.1 and 3.3).
ghost use Rattle.std.specs.Prelude.{◌≡◌, map};
ghost use Rattle.pp_dir.specs.Reading as spec;
ghost use Rattle.pp_dir.specs.Shown.{named_op};

use pp_tok::token::{PpKind, PpTok};

/// An operator before its operand.
#[derive(Clone, Copy, Debug, PartialEq, Eq)]
pub enum UnaryOp {
    /// `+`: the value itself.
    Plus,
    /// `-`: the value negated.
    Minus,
    /// `~`: each bit turned round.
    Complement,
    /// `!`: whether the value is 0.
    Not,
}

/// An operator between its operands.
#[derive(Clone, Copy, Debug, PartialEq, Eq)]
pub enum BinaryOp {
    /// `*`: the product.
    Multiply,
    /// `/`: the quotient.
    Divide,
    /// `%`: the remainder.
    Remainder,
    /// `+`: the sum.
    Add,
    /// `-`: the difference.
    Subtract,
    /// `<<`: the bits moved up.
    ShiftLeft,
    /// `>>`: the bits moved down.
    ShiftRight,
    /// `<`: whether the left one is less.
    Less,
    /// `>`: whether it is greater.
    Greater,
    /// `<=`: whether it isn't greater.
    LessEqual,
    /// `>=`: whether it isn't less.
    GreaterEqual,
    /// `==`: whether both are the same.
    Equal,
    /// `!=`: whether they aren't.
    NotEqual,
    /// `&`: the bits that both have.
    BitAnd,
    /// `^`: the bits that one alone has.
    BitXor,
    /// `|`: the bits that one has.
    BitOr,
    /// `&&`: whether neither is 0.
    And,
    /// `||`: whether one isn't 0.
    Or,
}

static UNARY_OPS: [(&str, UnaryOp); 4] = [
    ("+", UnaryOp::Plus),
    ("-", UnaryOp::Minus),
    ("~", UnaryOp::Complement),
    ("!", UnaryOp::Not),
];

static BINARY_OPS: [(&str, BinaryOp); 18] = [
    ("*", BinaryOp::Multiply),
    ("/", BinaryOp::Divide),
    ("%", BinaryOp::Remainder),
    ("+", BinaryOp::Add),
    ("-", BinaryOp::Subtract),
    ("<<", BinaryOp::ShiftLeft),
    (">>", BinaryOp::ShiftRight),
    ("<", BinaryOp::Less),
    (">", BinaryOp::Greater),
    ("<=", BinaryOp::LessEqual),
    (">=", BinaryOp::GreaterEqual),
    ("==", BinaryOp::Equal),
    ("!=", BinaryOp::NotEqual),
    ("&", BinaryOp::BitAnd),
    ("^", BinaryOp::BitXor),
    ("|", BinaryOp::BitOr),
    ("&&", BinaryOp::And),
    ("||", BinaryOp::Or),
];

fn unary_ops() -> &'static [(&'static str, UnaryOp)]
    ensures { map named_op result.now ≡ spec.unary_ops }
{
    &UNARY_OPS
}

fn binary_ops() -> &'static [(&'static str, BinaryOp)]
    ensures { map named_op result.now ≡ spec.binary_ops }
{
    &BINARY_OPS
}

/// What a spelling stands for in a table of operators.
pub fn named_in<T: Copy>(ops: &[(&str, T)], spelling: &[u8]) -> Option<T>
    ensures { result ≡ spec.named_in (map named_op ops.now) spelling.now }
{
    for (name, op) in ops {
        if spelling == name.as_bytes() {
            return Some(*op);
        }
    }
    None
}

/// The operator that the token is before an operand.
pub fn unary_op(tok: &PpTok) -> Option<UnaryOp>
    ensures { result ≡ spec.unary_op tok.now }
{
    if tok.kind != PpKind::Punct {
        return None;
    }
    named_in(unary_ops(), tok.spelling.bytes())
}

/// The operator that the token is between operands.
pub fn binary_op(tok: &PpTok) -> Option<BinaryOp>
    ensures { result ≡ spec.binary_op tok.now }
{
    if tok.kind != PpKind::Punct {
        return None;
    }
    named_in(binary_ops(), tok.spelling.bytes())
}

/// The rank of an operator: one of a lower rank binds tighter.
pub fn rank(op: BinaryOp) -> usize
    ensures { result ≡ spec.rank_of op }
{
    match op {
        BinaryOp::Multiply | BinaryOp::Divide | BinaryOp::Remainder => 1,
        BinaryOp::Add | BinaryOp::Subtract => 2,
        BinaryOp::ShiftLeft | BinaryOp::ShiftRight => 3,
        BinaryOp::Less | BinaryOp::Greater | BinaryOp::LessEqual | BinaryOp::GreaterEqual => 4,
        BinaryOp::Equal | BinaryOp::NotEqual => 5,
        BinaryOp::BitAnd => 6,
        BinaryOp::BitXor => 7,
        BinaryOp::BitOr => 8,
        BinaryOp::And => 9,
        BinaryOp::Or => 10,
    }
}
