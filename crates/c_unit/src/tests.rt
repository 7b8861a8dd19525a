//! Texts, and what parsing them gives.

use crate::unit::parse_unit;
use c_decl::fault::ParseFault;
use c_decl::marking::Marked;
use c_tok::tokens::c_tokens;
use c_tree::stmt::{Block, External, Stmt, Unit};
use pp_tok::lines::pp_tokens;
use qv_base::NoMemory;
use std::alloc::Global;
use std::test::Fail;

// A unit has the number of its external declarations, and of its last function how many declarations and statements
// it has and what the first of these is. A fault has its line.
const ROWS: &[(&str, &str)] = &[
    (
        "int a = 1, b[2]; typedef int T; struct s { int m; } s;",
        "3 declaration",
    ),
    (
        "typedef int T; T f(T T) { T: if (T) goto T; else return T; }",
        "2 0+1 label",
    ),
    ("int f(int a) { if (a) if (a) ; else ; }", "1 0+1 if"),
    (
        "int f(int a) { if (a) { if (a) ; } else ; }",
        "1 0+1 if else",
    ),
    (
        "typedef int t; int f(void) { t * x; x; }",
        "2 1+1 expression",
    ),
    (
        "typedef int t; int f(int t, int x) { t * x; }",
        "2 0+1 expression",
    ),
    (
        "typedef int t; int f(void) { { int t; } { t x; } }",
        "2 0+2 other",
    ),
    ("int f(int a, int b)\n{ a = b =\n; }", "syntax 3"),
    ("int g(void)\n{ T x; }", "syntax 2"),
    ("", "syntax 1"),
    ("int a\n;\nint\n", "syntax 3"),
    ("int a\nb;\nfloat c; double d;", "float 3"),
    ("int f(a, b)\nint a;\n{ }\n;", "syntax 4"),
    ("int a;\nf(void) { }\nint g(a) { }", "implicit 2"),
    ("int a;\nint f(a)\nint a;\n{ }\ng(void) { }", "old 2"),
];

// 66 parentheses.
const OPEN: &str = "((((((((((((((((((((((((((((((((((((((((((((((((((((((((((((((((((";

const CLOSE: &str = "))))))))))))))))))))))))))))))))))))))))))))))))))))))))))))))))))";

// What stands about 198 parentheses: with one more the name in them is the 200th level, which is the last.
const DEEP: &[(&str, &str, &str)] = &[
    ("int f(void) { (", "); }", "1 0+1 expression"),
    ("int f(void) { ((\n", ")); }", "syntax 2"),
];

fn fault_shown(alloc: Global, fault: ParseFault) -> Result<String, NoMemory> {
    let (word, place) = match fault {
        ParseFault::Syntax(place) => ("syntax", place),
        ParseFault::FloatType(place) => ("float", place),
        ParseFault::LeftOut(Marked::ImplicitInt, place) => ("implicit", place),
        ParseFault::LeftOut(Marked::OldStyle, place) => ("old", place),
        ParseFault::LeftOut(Marked::BitField, place) => ("width", place),
        ParseFault::NoMemory => return Err(NoMemory),
    };
    Ok(format!(in alloc; "{word} {}", place.line)?)
}

fn word(body: &Block) -> &'static str {
    match body.statements.as_slice().first() {
        Some(Stmt::If(_, _, _, None)) => "if",
        Some(Stmt::If(..)) => "if else",
        Some(Stmt::Label(..)) => "label",
        Some(Stmt::Expression(..)) => "expression",
        _ => "other",
    }
}

fn unit_shown(alloc: Global, unit: &Unit) -> Result<String, NoMemory> {
    let count = unit.externals.len();
    let Some(External::Function(last)) = unit.externals.as_slice().last() else {
        return Ok(format!(in alloc; "{count} declaration")?);
    };
    let body = last.body.get();
    let (declared, stated) = (body.declarations.len(), body.statements.len());
    Ok(format!(in alloc; "{count} {declared}+{stated} {}", word(body))?)
}

fn shown(alloc: Global, source: &str) -> Result<String, NoMemory> {
    let Ok(pieces) = pp_tokens(alloc, 0, source.as_bytes()) else {
        return Err(NoMemory);
    };
    let Ok(toks) = c_tokens(alloc, pieces.as_slice()) else {
        return Err(NoMemory);
    };
    match parse_unit(alloc, toks.as_slice()) {
        Ok(unit) => unit_shown(alloc, &unit),
        Err(fault) => fault_shown(alloc, fault),
    }
}

#[test]
fn units_are_told(rt: HostRuntime) -> Result<(), Fail> {
    for (source, wanted) in ROWS {
        let text = shown(rt.alloc(), source)?;
        assert_eq!(rt; text.as_str(), *wanted, "at {source:?}");
    }
    for (before, behind, wanted) in DEEP {
        let source = format!(in rt.alloc();
            "{before}{OPEN}{OPEN}{OPEN}x{CLOSE}{CLOSE}{CLOSE}{behind}"
        )?;
        let text = shown(rt.alloc(), source.as_str())?;
        assert_eq!(rt; text.as_str(), *wanted, "at {source:?}");
    }
    Ok(())
}
