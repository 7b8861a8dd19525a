//! Texts, and what is read in them where T is a typedef name, specifiers at the beginning, a declarator or an expression
//! behind one token: how many tokens stand before what follows, the construct that is left out, and behind a colon the
//! names; or a fault with its line.

use c_decl::fault::ParseFault;
use c_decl::kind::DeclKind;
use c_decl::marking::Marked;
use c_decl::read::{Read, read_declarator, read_specs};
use c_expr::read::{ExprClass, read_expr};
use c_names::Names;
use c_tok::token::CTok;
use c_tok::tokens::c_tokens;
use pp_tok::lines::pp_tokens;
use qv_base::NoMemory;
use qv_base::place::Place;
use sqlite_items::Items;
use std::alloc::Global;
use std::test::Fail;

const SPECS: &[(&str, &str)] = &[
    ("const T x;", "2 : T"),
    ("T T;", "1 : T"),
    ("enum e { A, B = sizeof(enum { C }) } a;", "15 : T A C B"),
    ("\nstatic x;", "1 implicit 2 : T"),
    ("int struct\n;", "syntax 2"),
];

const DECLARATORS: &[(&str, &str)] = &[
    ("int *f(T a, enum { E } b), g", "13 : T"),
    ("int a[sizeof(enum { E })] = 1", "11 : T E"),
    ("int\nf(a, b)", "7 old 2 : T"),
    ("int (*a\n)\n[", "syntax 3"),
];

const EXPRESSIONS: &[(ExprClass, &str, &str)] = &[
    (ExprClass::Expr, "( a = b, c )", "6 : T"),
    (ExprClass::Assignment, "( a = b, c )", "4 : T"),
    (
        ExprClass::Conditional,
        "[ sizeof(enum { E }) ? T : E ]",
        "syntax 1",
    ),
    (
        ExprClass::Conditional,
        "[ sizeof(enum { E }) ? E : 1 ]",
        "12 : T E",
    ),
    (ExprClass::Conditional, "[ (const)\nc ]", "5 implicit 1 : T"),
    (ExprClass::Init, "= { 1, { 2 }, } ,", "9 : T"),
    (ExprClass::Init, "= { 1,\n2\n;", "syntax 3"),
];

fn tokens_in(alloc: Global, source: &str) -> Result<Items<CTok>, NoMemory> {
    let Ok(pieces) = pp_tokens(alloc, 0, source.as_bytes()) else {
        return Err(NoMemory);
    };
    match c_tokens(alloc, pieces.as_slice()) {
        Ok(toks) => Ok(toks),
        Err(_) => Err(NoMemory),
    }
}

fn append(text: &mut Vec<u8>, more: &[u8]) -> Result<(), NoMemory> {
    text.extend_from_slice(more)?;
    Ok(())
}

fn append_marked(
    alloc: Global,
    text: &mut Vec<u8>,
    marked: Option<(Place, Marked)>,
) -> Result<(), NoMemory> {
    let Some((place, kind)) = marked else {
        return Ok(());
    };
    let word = match kind {
        Marked::OldStyle => "old",
        Marked::ImplicitInt => "implicit",
        Marked::BitField => "bits",
    };
    append(
        text,
        format!(in alloc; " {word} {}", place.line)?.as_bytes(),
    )
}

fn append_names(alloc: Global, text: &mut Vec<u8>, names: &Names) -> Result<(), NoMemory> {
    append(text, b" :")?;
    let all = names.since(0)?;
    for one in all.as_slice() {
        append(text, b" ")?;
        append(text, one.name.bytes())?;
    }
    Ok(())
}

fn shown<X: Drop>(
    alloc: Global,
    told: Result<Read<X>, ParseFault>,
    names: &Names,
) -> Result<Vec<u8>, NoMemory> {
    let mut text = Vec::new(alloc);
    match told {
        Ok(read) => {
            append(&mut text, format!(in alloc; "{}", read.next)?.as_bytes())?;
            append_marked(alloc, &mut text, read.marked)?;
            append_names(alloc, &mut text, names)?;
        }
        Err(ParseFault::Syntax(place)) => {
            append(
                &mut text,
                format!(in alloc; "syntax {}", place.line)?.as_bytes(),
            )?;
        }
        Err(_) => return Err(NoMemory),
    }
    Ok(text)
}

#[test]
fn specifiers_are_read(rt: HostRuntime) -> Result<(), Fail> {
    let alloc = rt.alloc();
    for (source, wanted) in SPECS {
        let toks = tokens_in(alloc, source)?;
        let mut names = Names::new(alloc);
        names.declare(b"T", true)?;
        let told = read_specs(alloc, toks.as_slice(), 0, &mut names);
        let text = shown(alloc, told, &names)?;
        assert_eq!(rt; text.as_slice(), wanted.as_bytes(), "at {source:?}");
    }
    Ok(())
}

#[test]
fn declarators_are_read(rt: HostRuntime) -> Result<(), Fail> {
    let alloc = rt.alloc();
    for (source, wanted) in DECLARATORS {
        let toks = tokens_in(alloc, source)?;
        let mut names = Names::new(alloc);
        names.declare(b"T", true)?;
        let at = toks.len().min(1);
        let told = read_declarator(
            alloc,
            toks.as_slice(),
            at,
            &mut names,
            DeclKind::Named,
            true,
        );
        let text = shown(alloc, told, &names)?;
        assert_eq!(rt; text.as_slice(), wanted.as_bytes(), "at {source:?}");
    }
    Ok(())
}

#[test]
fn expressions_are_read(rt: HostRuntime) -> Result<(), Fail> {
    let alloc = rt.alloc();
    for (class, source, wanted) in EXPRESSIONS {
        let toks = tokens_in(alloc, source)?;
        let mut names = Names::new(alloc);
        names.declare(b"T", true)?;
        let at = toks.len().min(1);
        let told = read_expr(alloc, toks.as_slice(), at, &mut names, *class);
        let text = shown(alloc, told, &names)?;
        assert_eq!(rt; text.as_slice(), wanted.as_bytes(), "at {source:?}");
    }
    Ok(())
}
