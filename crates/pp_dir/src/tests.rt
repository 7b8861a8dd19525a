//! Units and what they come to.
use crate::fault::{PpFaultKind, PpStop};
use crate::unit::{Preprocessed, preprocess};
use qv_base::NoMemory;
use qv_base::name::Name;
use qv_outside::steady_files::SteadyFiles;
use std::alloc::Global;
use std::test::Fail;

// A unit, and its tokens with a space between, or its fault.
const UNITS: &[(&str, &str)] = &[
    ("#define f(x) f(x+1)\nf(f(2))\n", "f ( f ( 2 + 1 ) + 1 )"),
    ("#define x x y\nx\n", "x y"),
    ("#define s(a) #a\ns( 1  +  2 )\n", "\"1 + 2\""),
    ("#if 0\n", "main.c:1: open if"),
    ("#define f() 1\nf(2)\n", "main.c:2: argument count"),
    ("a\n#if 1\nb\n#else\nc\n#endif\nd\n", "a b d"),
    (
        "#if 0\nb\n#elif 1\nc\n#elif 1/0\nd\n#else\ne\n#endif\n",
        "c",
    ),
    ("#if 1\n#elif 1/0\n#endif\nx", "x"),
    ("#if 0\n#elif 1/0\n#endif\n", "main.c:2: bad condition"),
    (
        "#if 0\n#if 1\n#foo\n#else junk\n#endif junk\n# 12\n__DATE__\n#else\n#ifdef\n#endif\nok\n#endif\n",
        "main.c:9: bad directive",
    ),
    ("#if 0\n#if\n#else x\n#endif y\n#bad\n#endif\nok\n", "ok"),
    (
        "#if 0\n#if\n#else x\n#elif y\n#endif y\n#endif\nok\n",
        "main.c:4: bad directive",
    ),
    ("#else\n", "main.c:1: bad directive"),
    ("#endif\n", "main.c:1: bad directive"),
    ("#if 1\n#else\n#else\n#endif", "main.c:3: bad directive"),
    ("#if 1\n#endif x", "main.c:2: bad directive"),
    (
        "#define a b\n#define a b\n#define a  b\n#undef a\n#define a c\na",
        "c",
    ),
    ("#define a b c\n#define a b  c\na", "b c"),
    ("#define a b c\n#define a bc\n", "main.c:2: redefinition a"),
    (
        "#define a b+c\n#define a b + c\n",
        "main.c:2: redefinition a",
    ),
    (
        "#define f(x) x\n#define f(y) y\n",
        "main.c:2: redefinition f",
    ),
    ("#define defined\n", "main.c:1: bad directive"),
    ("#undef __LINE__\n", "main.c:1: bad directive"),
    ("#undef a b\n", "main.c:1: bad directive"),
    ("#undef a\nx", "x"),
    ("#define\n", "main.c:1: bad directive"),
    ("#define 1 2\n", "main.c:1: bad directive"),
    ("#define f(x,x) x\n", "main.c:1: bad directive"),
    ("#define f(x,) x\n", "main.c:1: bad directive"),
    ("#define f( x , y ) y x\nf(1,2)", "2 1"),
    ("#define f (x)\nf", "( x )"),
    ("#define f(x\n", "main.c:1: bad directive"),
    ("#define a ## b\n", "main.c:1: bad directive"),
    ("#define a b ##\n", "main.c:1: bad directive"),
    ("#define a # b\na", "# b"),
    ("#define f(x) #y\n", "main.c:1: bad directive"),
    ("#define f(x) x#\n", "main.c:1: bad directive"),
    (
        "#ifdef defined\na\n#endif\n#ifndef __LINE__\nb\n#endif\n#ifdef Q3_VM\nc\n#endif",
        "a c",
    ),
    ("#ifdef\n", "main.c:1: bad directive"),
    ("#ifdef a b\n", "main.c:1: bad directive"),
    (
        "#if defined Q3_VM && defined(Q3_VM) && !defined x && !defined ( y ) && !defined\nok\n#endif",
        "ok",
    ),
    ("#error  a  b+c  'x'\n", "main.c:1: error a b + c 'x'"),
    ("#pragma foo\n#\nx", "x"),
    ("#line 3\n", "main.c:1: left out line"),
    ("#foo\n", "main.c:1: bad directive"),
    ("x __DATE__\n", "main.c:1: left out __DATE__"),
    ("#define a __TIME__\n", "main.c:1: left out __TIME__"),
    ("# __DATE__\n", "main.c:1: left out __DATE__"),
    (
        "#if 1\n#else __DATE__\n#endif",
        "main.c:2: left out __DATE__",
    ),
    (
        "#if 1\n#elif __DATE__\n#endif x\n",
        "main.c:3: bad directive",
    ),
    ("#if 0\n__DATE__\n#endif\nok", "ok"),
    ("#define p(a,b) a##b\np(__DA,TE__)", "__DATE__"),
    ("x /* \n\n y", "main.c:1: open comment"),
    ("__LINE__ __FILE__ \\\n__LINE__\n", "1 \"main.c\" 2"),
    ("#define f(x) x __LINE__\n\nf(\n__LINE__\n)", "3 3"),
    ("#define f(x) x\nf(1\n#define g\n)", "main.c:2: open call"),
    ("#define f(x) x\nf\n#define g\n(1)", "f ( 1 )"),
    ("#define p(a,b) a##b\np(+,/)", "main.c:2: bad paste"),
    ("a\r\n#define b\\\r\n c\r\nb", "a c"),
    (
        "#define str(x) # x\nstr(\"\\n\" '\\0')",
        "\"\\\"\\\\n\\\" '\\\\0'\"",
    ),
    ("#if 1 //\n#endif", "main.c:1: bad condition"),
    ("/**/ # /**/ define a /**/ b\na", "b"),
];

// A unit, other files, directories, and what it comes to.
type Included<'a> = (&'a str, &'a [(&'a str, &'a str)], &'a [&'a str], &'a str);

const INCLUDED: &[Included<'static>] = &[
    ("#include \"a.h\"\nx", &[("a.h", "1\n")], &[], "1 x"),
    (
        "#include <a.h>\nx",
        &[("a.h", "1\n"), ("inc/a.h", "2")],
        &["inc"],
        "2 x",
    ),
    (
        "#include \"a.h\"\nx",
        &[("inc/a.h", "2"), ("lib/a.h", "3")],
        &["none", "inc", "lib"],
        "2 x",
    ),
    (
        "#include \"d/b.h\"\n",
        &[
            ("d/b.h", "#include \"c.h\"\n"),
            ("d/c.h", "3"),
            ("c.h", "4"),
        ],
        &[],
        "3",
    ),
    ("#include \"a.h\"\n", &[], &[], "main.c:1: no include a.h"),
    (
        "#include <a.h>\n",
        &[("a.h", "")],
        &[],
        "main.c:1: no include a.h",
    ),
    (
        "#define H \"a.h\"\n#include H\n",
        &[("a.h", "1\n")],
        &[],
        "1",
    ),
    (
        "#define H <a.h>\n#include H\n",
        &[("a.h", "1\n")],
        &["."],
        "main.c:2: bad directive",
    ),
    (
        "#define E\n#include \"a.h\" E\n",
        &[("a.h", "1\n")],
        &[],
        "main.c:2: bad directive",
    ),
    ("#include \"\"\n", &[], &[], "main.c:1: bad directive"),
    ("#include\n", &[], &[], "main.c:1: bad directive"),
    ("#include \"a\tb\"\n", &[], &[], "main.c:1: bad directive"),
    ("#include \"main.c\"\n", &[], &[], "main.c:1: include depth"),
    (
        "#include \"a.h\"\n\n#include \"b.h\"\n",
        &[("a.h", ""), ("b.h", "\n#if 1/\n#endif")],
        &[],
        "b.h:2: bad condition",
    ),
    (
        "#include \"a.h\"\n",
        &[("a.h", "#if 1\n")],
        &[],
        "a.h:1: open if",
    ),
    (
        "#include \"a\\b.h\"\n",
        &[("a\\b.h", "__FILE__ __LINE__")],
        &[],
        "\"a\\\\b.h\" 1",
    ),
    (
        "#include \"a.h\"\nx",
        &[
            ("a.h", "#include \"b.h\"\n"),
            ("b.h", "#include \"c.h\"\n"),
            ("c.h", "1\n\n#if 2/0\n"),
        ],
        &[],
        "c.h:3: bad condition",
    ),
];

// A unit, definitions of the command line, and what it comes to.
type Defined<'a> = (&'a str, &'a [(&'a str, &'a str)], &'a str);

const DEFINED: &[Defined<'static>] = &[
    ("Q3_VM a b", &[("a", "2"), ("b", "+")], "1 2 +"),
    ("Q3_VM a", &[("a", "2"), ("Q3_VM", "7"), ("a", "3")], "7 3"),
];

fn entry(alloc: Global, name: &str, text: &str) -> Result<(Name, Vec<u8>), NoMemory> {
    let bytes = text.as_bytes().to_vec(alloc)?;
    Ok((Name::from_bytes(alloc, name.as_bytes())?, bytes))
}

fn pair(alloc: Global, name: &str, text: &str) -> Result<(String, String), NoMemory> {
    let name = String::from_str(alloc, name)?;
    Ok((name, String::from_str(alloc, text)?))
}

fn append(text: &mut Vec<u8>, more: &[u8]) -> Result<(), NoMemory> {
    text.extend_from_slice(more)?;
    Ok(())
}

fn append_kind(text: &mut Vec<u8>, kind: &PpFaultKind) -> Result<(), NoMemory> {
    let (words, name): (&str, &[u8]) = match kind {
        PpFaultKind::OpenComment => ("open comment", b""),
        PpFaultKind::Redefinition(name) => ("redefinition ", name.bytes()),
        PpFaultKind::ArgCount => ("argument count", b""),
        PpFaultKind::OpenCall => ("open call", b""),
        PpFaultKind::BadPaste => ("bad paste", b""),
        PpFaultKind::MacroLimit => ("macro limit", b""),
        PpFaultKind::Directive => ("bad directive", b""),
        PpFaultKind::Condition => ("bad condition", b""),
        PpFaultKind::ErrorDirective(text) => ("error ", text.bytes()),
        PpFaultKind::NoInclude(name) => ("no include ", name.bytes()),
        PpFaultKind::IncludeDepth => ("include depth", b""),
        PpFaultKind::LeftOut(name) => ("left out ", name.bytes()),
        PpFaultKind::OpenIf => ("open if", b""),
        PpFaultKind::TokenLimit => ("token limit", b""),
    };
    append(text, words.as_bytes())?;
    append(text, name)
}

fn shown(alloc: Global, read: Result<Preprocessed, PpStop>) -> Result<Vec<u8>, NoMemory> {
    let mut text = Vec::new(alloc);
    match read {
        Ok(unit) => {
            for (i, tok) in unit.toks.as_slice().iter().enumerate() {
                if i > 0 {
                    append(&mut text, b" ")?;
                }
                append(&mut text, tok.spelling.bytes())?;
            }
        }
        Err(PpStop::Fault(fault)) => {
            let line = fault.line;
            append(&mut text, fault.file.bytes())?;
            append(&mut text, format!(in alloc; ":{line}: ")?.as_bytes())?;
            append_kind(&mut text, &fault.kind)?;
        }
        Err(PpStop::File { name, .. }) => {
            append(&mut text, b"unread: ")?;
            append(&mut text, name.bytes())?;
        }
        Err(PpStop::NoMemory) => return Err(NoMemory),
    }
    Ok(text)
}

fn come_to(
    alloc: Global,
    unit: &str,
    others: &[(&str, &str)],
    dirs: &[&str],
    defs: &[(&str, &str)],
) -> Result<Vec<u8>, NoMemory> {
    let mut entries = Vec::new(alloc);
    entries.push(entry(alloc, "main.c", unit)?)?;
    for (name, text) in others {
        entries.push(entry(alloc, name, text)?)?;
    }
    let mut names = Vec::new(alloc);
    for dir in dirs {
        names.push(String::from_str(alloc, dir)?)?;
    }
    let mut macros = Vec::new(alloc);
    for (name, text) in defs {
        macros.push(pair(alloc, name, text)?)?;
    }
    let mut files = SteadyFiles::new(entries);
    let read = preprocess(
        alloc,
        &mut files,
        names.as_slice(),
        macros.as_slice(),
        "main.c",
    );
    shown(alloc, read)
}

#[test]
fn units(rt: HostRuntime) -> Result<(), Fail> {
    for (unit, wanted) in UNITS {
        let text = come_to(rt.alloc(), unit, &[], &[], &[])?;
        assert_eq!(rt; text.as_slice(), wanted.as_bytes());
    }
    Ok(())
}

#[test]
fn included(rt: HostRuntime) -> Result<(), Fail> {
    for (unit, others, dirs, wanted) in INCLUDED {
        let text = come_to(rt.alloc(), unit, others, dirs, &[])?;
        assert_eq!(rt; text.as_slice(), wanted.as_bytes());
    }
    Ok(())
}

#[test]
fn defined(rt: HostRuntime) -> Result<(), Fail> {
    for (unit, defs, wanted) in DEFINED {
        let text = come_to(rt.alloc(), unit, &[], &[], defs)?;
        assert_eq!(rt; text.as_slice(), wanted.as_bytes());
    }
    Ok(())
}

// A unit with 2^22 tokens takes no further one. The section that has it begins with a blank line.
#[test]
fn many_tokens(rt: HostRuntime) -> Result<(), Fail> {
    let alloc = rt.alloc();
    let some = "x ".repeat(alloc, 1 << 16)?;
    let lines = "#include \"a.h\"\n".repeat(alloc, 64)?;
    let unit = format!(in alloc; "{lines}\nx\n")?;
    let text = come_to(alloc, unit.as_str(), &[("a.h", some.as_str())], &[], &[])?;
    assert_eq!(rt; text.as_slice(), b"main.c:65: token limit".as_slice());
    Ok(())
}

// 1,000,000 replacements, each `a` being 1000, and one more.
#[test]
fn many_replacements(rt: HostRuntime) -> Result<(), Fail> {
    let alloc = rt.alloc();
    let body = "e ".repeat(alloc, 999)?;
    let lines = "a a a a a a a a a a\n".repeat(alloc, 100)?;
    let unit = format!(in alloc; "#define e\n#define a {body}\n{lines}#\ne\n")?;
    let text = come_to(alloc, unit.as_str(), &[], &[], &[])?;
    assert_eq!(rt; text.as_slice(), b"main.c:104: macro limit".as_slice());
    Ok(())
}

// The unit isn't there.
#[test]
fn absent(rt: HostRuntime) -> Result<(), Fail> {
    let mut files = SteadyFiles::new(Vec::new(rt.alloc()));
    let read = preprocess(rt.alloc(), &mut files, &[], &[], "main.c");
    let text = shown(rt.alloc(), read)?;
    assert_eq!(rt; text.as_slice(), b"unread: main.c".as_slice());
    Ok(())
}
