//! Keywords and punctuators.
ghost use Rattle.std.specs.Prelude.{◌≡◌, map};
ghost use Rattle.c_tok.specs.Marks as spec;
ghost use Rattle.c_tok.specs.Shown.{row_of};

/// A token that has one spelling: a keyword or a punctuator (ANSI C X3.159-1989, 3.1.1, 3.1.5 and
/// 3.1.6).
#[derive(Clone, Copy, Debug, PartialEq, Eq)]
pub enum Mark {
    /// `auto`
    Auto,
    /// `break`
    Break,
    /// `case`
    Case,
    /// `char`
    Char,
    /// `const`
    Const,
    /// `continue`
    Continue,
    /// `default`
    Default,
    /// `do`
    Do,
    /// `double`
    Double,
    /// `else`
    Else,
    /// `enum`
    Enum,
    /// `extern`
    Extern,
    /// `float`
    Float,
    /// `for`
    For,
    /// `goto`
    Goto,
    /// `if`
    If,
    /// `int`
    Int,
    /// `long`
    Long,
    /// `register`
    Register,
    /// `return`
    Return,
    /// `short`
    Short,
    /// `signed`
    Signed,
    /// `sizeof`
    Sizeof,
    /// `static`
    Static,
    /// `struct`
    Struct,
    /// `switch`
    Switch,
    /// `typedef`
    Typedef,
    /// `union`
    Union,
    /// `unsigned`
    Unsigned,
    /// `void`
    Void,
    /// `volatile`
    Volatile,
    /// `while`
    While,
    /// `[`
    OpenBracket,
    /// `]`
    CloseBracket,
    /// `(`
    OpenParen,
    /// `)`
    CloseParen,
    /// `{`
    OpenBrace,
    /// `}`
    CloseBrace,
    /// `.`
    Dot,
    /// `->`
    Arrow,
    /// `++`
    PlusPlus,
    /// `--`
    MinusMinus,
    /// `&`
    Ampersand,
    /// `*`
    Star,
    /// `+`
    Plus,
    /// `-`
    Minus,
    /// `~`
    Tilde,
    /// `!`
    Exclamation,
    /// `/`
    Slash,
    /// `%`
    Percent,
    /// `<<`
    ShiftLeft,
    /// `>>`
    ShiftRight,
    /// `<`
    Less,
    /// `>`
    Greater,
    /// `<=`
    LessEqual,
    /// `>=`
    GreaterEqual,
    /// `==`
    EqualEqual,
    /// `!=`
    NotEqual,
    /// `^`
    Caret,
    /// `|`
    Bar,
    /// `&&`
    AndAnd,
    /// `||`
    OrOr,
    /// `?`
    Question,
    /// `:`
    Colon,
    /// `;`
    Semicolon,
    /// `...`
    Ellipsis,
    /// `=`
    Assign,
    /// `*=`
    StarAssign,
    /// `/=`
    SlashAssign,
    /// `%=`
    PercentAssign,
    /// `+=`
    PlusAssign,
    /// `-=`
    MinusAssign,
    /// `<<=`
    ShiftLeftAssign,
    /// `>>=`
    ShiftRightAssign,
    /// `&=`
    AmpersandAssign,
    /// `^=`
    CaretAssign,
    /// `|=`
    BarAssign,
    /// `,`
    Comma,
    /// `#`
    Hash,
    /// `##`
    HashHash,
}

static KEYWORDS: [(&str, Mark); 32] = [
    ("auto", Mark::Auto),
    ("break", Mark::Break),
    ("case", Mark::Case),
    ("char", Mark::Char),
    ("const", Mark::Const),
    ("continue", Mark::Continue),
    ("default", Mark::Default),
    ("do", Mark::Do),
    ("double", Mark::Double),
    ("else", Mark::Else),
    ("enum", Mark::Enum),
    ("extern", Mark::Extern),
    ("float", Mark::Float),
    ("for", Mark::For),
    ("goto", Mark::Goto),
    ("if", Mark::If),
    ("int", Mark::Int),
    ("long", Mark::Long),
    ("register", Mark::Register),
    ("return", Mark::Return),
    ("short", Mark::Short),
    ("signed", Mark::Signed),
    ("sizeof", Mark::Sizeof),
    ("static", Mark::Static),
    ("struct", Mark::Struct),
    ("switch", Mark::Switch),
    ("typedef", Mark::Typedef),
    ("union", Mark::Union),
    ("unsigned", Mark::Unsigned),
    ("void", Mark::Void),
    ("volatile", Mark::Volatile),
    ("while", Mark::While),
];

static PUNCTUATORS: [(&str, Mark); 48] = [
    ("[", Mark::OpenBracket),
    ("]", Mark::CloseBracket),
    ("(", Mark::OpenParen),
    (")", Mark::CloseParen),
    ("{", Mark::OpenBrace),
    ("}", Mark::CloseBrace),
    (".", Mark::Dot),
    ("->", Mark::Arrow),
    ("++", Mark::PlusPlus),
    ("--", Mark::MinusMinus),
    ("&", Mark::Ampersand),
    ("*", Mark::Star),
    ("+", Mark::Plus),
    ("-", Mark::Minus),
    ("~", Mark::Tilde),
    ("!", Mark::Exclamation),
    ("/", Mark::Slash),
    ("%", Mark::Percent),
    ("<<", Mark::ShiftLeft),
    (">>", Mark::ShiftRight),
    ("<", Mark::Less),
    (">", Mark::Greater),
    ("<=", Mark::LessEqual),
    (">=", Mark::GreaterEqual),
    ("==", Mark::EqualEqual),
    ("!=", Mark::NotEqual),
    ("^", Mark::Caret),
    ("|", Mark::Bar),
    ("&&", Mark::AndAnd),
    ("||", Mark::OrOr),
    ("?", Mark::Question),
    (":", Mark::Colon),
    (";", Mark::Semicolon),
    ("...", Mark::Ellipsis),
    ("=", Mark::Assign),
    ("*=", Mark::StarAssign),
    ("/=", Mark::SlashAssign),
    ("%=", Mark::PercentAssign),
    ("+=", Mark::PlusAssign),
    ("-=", Mark::MinusAssign),
    ("<<=", Mark::ShiftLeftAssign),
    (">>=", Mark::ShiftRightAssign),
    ("&=", Mark::AmpersandAssign),
    ("^=", Mark::CaretAssign),
    ("|=", Mark::BarAssign),
    (",", Mark::Comma),
    ("#", Mark::Hash),
    ("##", Mark::HashHash),
];

fn keywords() -> &'static [(&'static str, Mark)]
    ensures { map row_of result.now ≡ spec.keywords }
{
    &KEYWORDS
}

fn punctuators() -> &'static [(&'static str, Mark)]
    ensures { map row_of result.now ≡ spec.punctuators }
{
    &PUNCTUATORS
}

// The token that has this spelling in a table.
fn spelled_in(rows: &[(&str, Mark)], spelling: &[u8]) -> Option<Mark>
    ensures { result ≡ spec.spelled_in (map row_of rows.now) spelling.now }
{
    for (text, mark) in rows {
        if spelling == text.as_bytes() {
            return Some(*mark);
        }
    }
    None
}

/// The keyword that has this spelling.
pub fn keyword(spelling: &[u8]) -> Option<Mark>
    ensures { result ≡ spec.spelled_in spec.keywords spelling.now }
{
    spelled_in(keywords(), spelling)
}

/// The punctuator that has this spelling.
pub fn punctuator(spelling: &[u8]) -> Option<Mark>
    ensures { result ≡ spec.spelled_in spec.punctuators spelling.now }
{
    spelled_in(punctuators(), spelling)
}
