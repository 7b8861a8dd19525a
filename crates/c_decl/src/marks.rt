//! What marks stand for.

ghost use Rattle.std.specs.Prelude.{◌≡◌, Bool, Some, None};
ghost use Rattle.c_decl.specs.Marks as spec;
ghost use Rattle.c_decl.specs.Grammar as grammar;
ghost use Rattle.c_decl.specs.Input.{head};
ghost use Rattle.c_decl.specs.State.{State};

use crate::cursor::Cursor;
use crate::kind::{Control, Jump};
use c_tok::mark::Mark;
use c_tok::token::CTokKind;
use c_tree::operator::{Access, Infix, PointerWord, RecordKind, SpecWord, Step, UnaryOp};
use c_type::operator::BinOp;

/// How tightly a mark joins what stands behind it to an expression before it, and 0 for one that
/// can't.
pub fn tightness(mark: Mark) -> u8
    ensures { result ≡ spec.tightness mark }
{
    match mark {
        Mark::Comma => 1,
        Mark::Assign
        | Mark::StarAssign
        | Mark::SlashAssign
        | Mark::PercentAssign
        | Mark::PlusAssign
        | Mark::MinusAssign
        | Mark::ShiftLeftAssign
        | Mark::ShiftRightAssign
        | Mark::AmpersandAssign
        | Mark::CaretAssign
        | Mark::BarAssign => 2,
        Mark::Question => 3,
        Mark::OrOr => 4,
        Mark::AndAnd => 5,
        Mark::Bar => 6,
        Mark::Caret => 7,
        Mark::Ampersand => 8,
        Mark::EqualEqual | Mark::NotEqual => 9,
        Mark::Less | Mark::Greater | Mark::LessEqual | Mark::GreaterEqual => 10,
        Mark::ShiftLeft | Mark::ShiftRight => 11,
        Mark::Plus | Mark::Minus => 12,
        Mark::Star | Mark::Slash | Mark::Percent => 13,
        Mark::OpenBracket
        | Mark::OpenParen
        | Mark::Dot
        | Mark::Arrow
        | Mark::PlusPlus
        | Mark::MinusMinus => 14,
        _ => 0,
    }
}

/// The operator between two operands that a mark is.
pub fn infix(mark: Mark) -> Option<Infix>
    ensures { result ≡ spec.infix_of (Some (CTokKind.Mark mark)) }
{
    match mark {
        Mark::OrOr => Some(Infix::LogicalOr),
        Mark::AndAnd => Some(Infix::LogicalAnd),
        Mark::Bar => Some(Infix::Plain(BinOp::Or)),
        Mark::Caret => Some(Infix::Plain(BinOp::Xor)),
        Mark::Ampersand => Some(Infix::Plain(BinOp::And)),
        Mark::EqualEqual => Some(Infix::Plain(BinOp::Equal)),
        Mark::NotEqual => Some(Infix::Plain(BinOp::NotEqual)),
        Mark::Less => Some(Infix::Plain(BinOp::Less)),
        Mark::Greater => Some(Infix::Plain(BinOp::Greater)),
        Mark::LessEqual => Some(Infix::Plain(BinOp::AtMost)),
        Mark::GreaterEqual => Some(Infix::Plain(BinOp::AtLeast)),
        Mark::ShiftLeft => Some(Infix::Plain(BinOp::ShiftLeft)),
        Mark::ShiftRight => Some(Infix::Plain(BinOp::ShiftRight)),
        Mark::Plus => Some(Infix::Plain(BinOp::Add)),
        Mark::Minus => Some(Infix::Plain(BinOp::Subtract)),
        Mark::Star => Some(Infix::Plain(BinOp::Multiply)),
        Mark::Slash => Some(Infix::Plain(BinOp::Divide)),
        Mark::Percent => Some(Infix::Plain(BinOp::Remainder)),
        _ => None,
    }
}

/// The operator before the `=` of an assignment that a mark is.
pub fn assign(mark: Mark) -> Option<Option<BinOp>>
    ensures { result ≡ spec.assign_of (Some (CTokKind.Mark mark)) }
{
    match mark {
        Mark::Assign => Some(None),
        Mark::StarAssign => Some(Some(BinOp::Multiply)),
        Mark::SlashAssign => Some(Some(BinOp::Divide)),
        Mark::PercentAssign => Some(Some(BinOp::Remainder)),
        Mark::PlusAssign => Some(Some(BinOp::Add)),
        Mark::MinusAssign => Some(Some(BinOp::Subtract)),
        Mark::ShiftLeftAssign => Some(Some(BinOp::ShiftLeft)),
        Mark::ShiftRightAssign => Some(Some(BinOp::ShiftRight)),
        Mark::AmpersandAssign => Some(Some(BinOp::And)),
        Mark::CaretAssign => Some(Some(BinOp::Xor)),
        Mark::BarAssign => Some(Some(BinOp::Or)),
        _ => None,
    }
}

/// The operator before an operand that a mark is.
pub fn unary(mark: Mark) -> Option<UnaryOp>
    ensures { result ≡ spec.unary_of (Some (CTokKind.Mark mark)) }
{
    match mark {
        Mark::Ampersand => Some(UnaryOp::Address),
        Mark::Star => Some(UnaryOp::Indirection),
        Mark::Plus => Some(UnaryOp::Plus),
        Mark::Minus => Some(UnaryOp::Negate),
        Mark::Tilde => Some(UnaryOp::Complement),
        Mark::Exclamation => Some(UnaryOp::Not),
        _ => None,
    }
}

/// `++` or `--`.
pub fn step(mark: Mark) -> Option<Step>
    ensures { result ≡ spec.step_of (Some (CTokKind.Mark mark)) }
{
    match mark {
        Mark::PlusPlus => Some(Step::Increment),
        Mark::MinusMinus => Some(Step::Decrement),
        _ => None,
    }
}

/// `.` or `->`.
pub fn access(mark: Mark) -> Option<Access>
    ensures { result ≡ spec.access_of (Some (CTokKind.Mark mark)) }
{
    match mark {
        Mark::Dot => Some(Access::Dot),
        Mark::Arrow => Some(Access::Arrow),
        _ => None,
    }
}

/// The keyword among specifiers that a mark is.
pub fn word(mark: Mark) -> Option<SpecWord>
    ensures { result ≡ spec.word_of (Some (CTokKind.Mark mark)) }
{
    match mark {
        Mark::Typedef => Some(SpecWord::Typedef),
        Mark::Extern => Some(SpecWord::Extern),
        Mark::Static => Some(SpecWord::Static),
        Mark::Auto => Some(SpecWord::Auto),
        Mark::Register => Some(SpecWord::Register),
        Mark::Const => Some(SpecWord::Const),
        Mark::Volatile => Some(SpecWord::Volatile),
        Mark::Void => Some(SpecWord::Void),
        Mark::Char => Some(SpecWord::Char),
        Mark::Short => Some(SpecWord::Short),
        Mark::Int => Some(SpecWord::Int),
        Mark::Long => Some(SpecWord::Long),
        Mark::Signed => Some(SpecWord::Signed),
        Mark::Unsigned => Some(SpecWord::Unsigned),
        _ => None,
    }
}

/// Whether a mark is a word of specifiers.
pub fn is_word(mark: Mark) -> bool
    ensures { (S : State) (typed : Bool) → result ≡ grammar.is_word S typed (CTokKind.Mark mark) }
{
    match mark {
        Mark::Typedef
        | Mark::Extern
        | Mark::Static
        | Mark::Auto
        | Mark::Register
        | Mark::Const
        | Mark::Volatile
        | Mark::Void
        | Mark::Char
        | Mark::Short
        | Mark::Int
        | Mark::Long
        | Mark::Signed
        | Mark::Unsigned
        | Mark::Struct
        | Mark::Union
        | Mark::Enum => true,
        _ => false,
    }
}

/// `struct` or `union`.
pub fn record(mark: Mark) -> Option<RecordKind>
    ensures { result ≡ spec.record_of (Some (CTokKind.Mark mark)) }
{
    match mark {
        Mark::Struct => Some(RecordKind::Struct),
        Mark::Union => Some(RecordKind::Union),
        _ => None,
    }
}

/// The word of a pointer that a mark is.
pub fn pointer(mark: Mark) -> Option<PointerWord>
    ensures { result ≡ spec.pointer_of (Some (CTokKind.Mark mark)) }
{
    match mark {
        Mark::Star => Some(PointerWord::Star),
        Mark::Const => Some(PointerWord::Const),
        Mark::Volatile => Some(PointerWord::Volatile),
        _ => None,
    }
}

/// `switch` or `while`.
pub fn control(mark: Mark) -> Option<Control>
    ensures { result ≡ spec.control_of (Some (CTokKind.Mark mark)) }
{
    match mark {
        Mark::Switch => Some(Control::Switch),
        Mark::While => Some(Control::While),
        _ => None,
    }
}

/// `continue` or `break`.
pub fn jump(mark: Mark) -> Option<Jump>
    ensures { result ≡ spec.jump_of (Some (CTokKind.Mark mark)) }
{
    match mark {
        Mark::Continue => Some(Jump::Continue),
        Mark::Break => Some(Jump::Break),
        _ => None,
    }
}

/// Whether a span passes over a mark; `inside` brackets over a comma too.
pub fn passable(inside: bool, mark: Mark) -> bool
    ensures { result ≡ spec.passable inside (CTokKind.Mark mark) }
{
    match mark {
        Mark::Comma => inside,
        Mark::OpenParen
        | Mark::CloseParen
        | Mark::OpenBracket
        | Mark::CloseBracket
        | Mark::OpenBrace
        | Mark::CloseBrace
        | Mark::Semicolon
        | Mark::Question
        | Mark::Colon => false,
        _ => true,
    }
}

/// The mark that closes an opening one.
pub fn closer(mark: Mark) -> Option<Mark>
    ensures { result ≡ spec.closer (CTokKind.Mark mark) }
{
    match mark {
        Mark::OpenParen => Some(Mark::CloseParen),
        Mark::OpenBracket => Some(Mark::CloseBracket),
        Mark::Question => Some(Mark::Colon),
        _ => None,
    }
}

impl Cursor<'_> {
    /// How tightly what comes next joins to an expression before it.
    pub fn tight(&self) -> u8
        ensures { result ≡ spec.tight (head self.now) }
    {
        match self.peek() {
            Some(CTokKind::Mark(mark)) => tightness(*mark),
            _ => 0,
        }
    }

    /// What comes next, as `infix` says.
    pub fn infix(&self) -> Option<Infix>
        ensures { result ≡ spec.infix_of (head self.now) }
    {
        match self.peek() {
            Some(CTokKind::Mark(mark)) => infix(*mark),
            _ => None,
        }
    }

    /// What comes next, as `assign` says.
    pub fn assign(&self) -> Option<Option<BinOp>>
        ensures { result ≡ spec.assign_of (head self.now) }
    {
        match self.peek() {
            Some(CTokKind::Mark(mark)) => assign(*mark),
            _ => None,
        }
    }

    /// What comes next, as `unary` says.
    pub fn unary(&self) -> Option<UnaryOp>
        ensures { result ≡ spec.unary_of (head self.now) }
    {
        match self.peek() {
            Some(CTokKind::Mark(mark)) => unary(*mark),
            _ => None,
        }
    }

    /// What comes next, as `step` says.
    pub fn step(&self) -> Option<Step>
        ensures { result ≡ spec.step_of (head self.now) }
    {
        match self.peek() {
            Some(CTokKind::Mark(mark)) => step(*mark),
            _ => None,
        }
    }

    /// What comes next, as `access` says.
    pub fn access(&self) -> Option<Access>
        ensures { result ≡ spec.access_of (head self.now) }
    {
        match self.peek() {
            Some(CTokKind::Mark(mark)) => access(*mark),
            _ => None,
        }
    }

    /// What comes next, as `word` says.
    pub fn word(&self) -> Option<SpecWord>
        ensures { result ≡ spec.word_of (head self.now) }
    {
        match self.peek() {
            Some(CTokKind::Mark(mark)) => word(*mark),
            _ => None,
        }
    }

    /// What comes next, as `record` says.
    pub fn record(&self) -> Option<RecordKind>
        ensures { result ≡ spec.record_of (head self.now) }
    {
        match self.peek() {
            Some(CTokKind::Mark(mark)) => record(*mark),
            _ => None,
        }
    }

    /// What comes next, as `pointer` says.
    pub fn pointer(&self) -> Option<PointerWord>
        ensures { result ≡ spec.pointer_of (head self.now) }
    {
        match self.peek() {
            Some(CTokKind::Mark(mark)) => pointer(*mark),
            _ => None,
        }
    }

    /// What comes next, as `control` says.
    pub fn control(&self) -> Option<Control>
        ensures { result ≡ spec.control_of (head self.now) }
    {
        match self.peek() {
            Some(CTokKind::Mark(mark)) => control(*mark),
            _ => None,
        }
    }

    /// What comes next, as `jump` says.
    pub fn jump(&self) -> Option<Jump>
        ensures { result ≡ spec.jump_of (head self.now) }
    {
        match self.peek() {
            Some(CTokKind::Mark(mark)) => jump(*mark),
            _ => None,
        }
    }
}
