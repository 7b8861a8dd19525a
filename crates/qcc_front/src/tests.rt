// Jobs and what they come to.
use crate::compile::{Compiled, compile};
use crate::fault::{CompileStop, SourceKind};
use crate::job::SourceJob;
use qv_base::NoMemory;
use qv_base::name::Name;
use qv_outside::steady_files::SteadyFiles;
use std::alloc::Global;
use std::test::Fail;

// The file `main.c`, and the text that it is compiled to or why it isn't.
const UNITS: &[(&str, &str)] = &[
    (
        "int vmMain(int command) { return command+1; }",
        "proc vmMain 0 0\nADDRFP4 0\nINDIRI4\nCNSTI4 1\nADDI4\nRETI4\nendproc vmMain 0 0\n",
    ),
    (
        "#include <one.h>\nint vmMain(int command) { return ONE - X; /* three */ }",
        "proc vmMain 0 0\nCNSTI4 1\nCNSTI4 3\nSUBI4\nRETI4\nendproc vmMain 0 0\n",
    ),
    ("int vmMain(int command) { return 00; }", "not yet"),
    ("int vmMain(int command) { return command / 2; }", "not yet"),
    ("\n#if 1", "main.c:2: open if"),
    ("#include \"inc/two.h\"\n", "inc/two.h:1: left out line"),
    ("#include <no.h>\n", "main.c:1: no include no.h"),
];

// The file `main.c`, and what is told of the first token that isn't one of C, or of the tokens that are in no unit.
const REFUSED_UNITS: &[(&str, &str)] = &[
    ("", "main.c:1: syntax"),
    ("int a;\n@ float", "main.c:2: stray byte"),
    ("int a;\n\n'a\n", "main.c:3: open quote"),
    ("int a = 08;", "main.c:1: bad constant"),
    (
        "#include <one.h>\nfloat f(int) {\n1.0",
        "main.c:3: float constant",
    ),
    ("int a = 4294967296;", "main.c:1: constant too large"),
    (
        "#define N(a) a##a##a##a\nint\nN(nnnnnnnnnnnnnnnnnnnnnnnnnnnnnnnn);",
        "main.c:1: name too long",
    ),
    ("char *a =\nL\"a\";", "main.c:2: left out wide"),
    ("int a\nint;\ndouble b;", "main.c:3: float type"),
    ("f() { }\nint a\nint;", "main.c:3: syntax"),
    (
        "int f(a)\nint a;\n{ return a; }",
        "main.c:1: left out old-style",
    ),
    ("\nf(void) { return 1; }", "main.c:2: left out implicit int"),
    ("struct S {\nint a : 1; };", "main.c:2: left out bit-field"),
    ("#include \"inc/three.h\"\nint b;", "inc/three.h:2: syntax"),
    (
        "#include \"inc/four.h\"\nint b;",
        "inc/four.h:3: float constant",
    ),
];

fn append(text: &mut Vec<u8>, more: &[u8]) -> Result<(), NoMemory> {
    text.extend_from_slice(more)?;
    Ok(())
}

fn append_kind(text: &mut Vec<u8>, kind: &SourceKind) -> Result<(), NoMemory> {
    let (words, name): (&str, &[u8]) = match kind {
        SourceKind::OpenIf => ("open if", b""),
        SourceKind::LeftOut(name) => ("left out ", name.bytes()),
        SourceKind::NoInclude(name) => ("no include ", name.bytes()),
        SourceKind::StrayByte => ("stray byte", b""),
        SourceKind::OpenQuote => ("open quote", b""),
        SourceKind::BadConstant => ("bad constant", b""),
        SourceKind::FloatConstant => ("float constant", b""),
        SourceKind::ConstantTooLarge => ("constant too large", b""),
        SourceKind::NameTooLong => ("name too long", b""),
        SourceKind::FloatType => ("float type", b""),
        SourceKind::Syntax => ("syntax", b""),
        _ => ("another fault", b""),
    };
    append(text, words.as_bytes())?;
    append(text, name)
}

fn shown(alloc: Global, come: Result<Compiled, CompileStop>) -> Result<Vec<u8>, NoMemory> {
    let mut text = Vec::new(alloc);
    match come {
        Ok(compiled) => {
            for file in &compiled.texts {
                append(&mut text, &file.text)?;
            }
        }
        Err(CompileStop::Source(fault)) => {
            let line = fault.line;
            append(&mut text, fault.file.bytes())?;
            append(&mut text, format!(in alloc; ":{line}: ")?.as_bytes())?;
            append_kind(&mut text, &fault.kind)?;
        }
        Err(CompileStop::Absent(name)) => {
            append(&mut text, b"absent: ")?;
            append(&mut text, name.bytes())?;
        }
        Err(CompileStop::NotYet) => append(&mut text, b"not yet")?,
        Err(_) => return Err(NoMemory),
    }
    Ok(text)
}

fn entry(alloc: Global, name: &str, text: &str) -> Result<(Name, Vec<u8>), NoMemory> {
    let bytes = text.as_bytes().to_vec(alloc)?;
    Ok((Name::from_bytes(alloc, name.as_bytes())?, bytes))
}

fn files(alloc: Global, unit: &str) -> Result<SteadyFiles, NoMemory> {
    let mut entries = Vec::new(alloc);
    entries.push(entry(alloc, "main.c", unit)?)?;
    entries.push(entry(alloc, "inc/one.h", "#define ONE 1\n")?)?;
    entries.push(entry(alloc, "inc/two.h", "#line 2\n")?)?;
    entries.push(entry(alloc, "inc/three.h", "int a\n}\n")?)?;
    entries.push(entry(alloc, "inc/four.h", "int a;\n\nint b = 1.5;\n")?)?;
    Ok(SteadyFiles::new(entries))
}

// A job of this unit, with the folder `inc` and the macro `X`.
fn job(alloc: Global, unit: &str) -> Result<SourceJob, NoMemory> {
    let mut units = Vec::new(alloc);
    units.push(String::from_str(alloc, unit)?)?;
    let mut dirs = Vec::new(alloc);
    dirs.push(String::from_str(alloc, "inc")?)?;
    let mut defs = Vec::new(alloc);
    defs.push((String::from_str(alloc, "X")?, String::from_str(alloc, "3")?))?;
    Ok(SourceJob {
        units,
        dirs,
        defs,
        binds: None,
    })
}

#[test]
fn jobs(rt: HostRuntime) -> Result<(), Fail> {
    let alloc = rt.alloc();
    for (unit, wanted) in UNITS.iter().chain(REFUSED_UNITS) {
        let mut files = files(alloc, unit)?;
        let job = job(alloc, "main.c")?;
        let text = shown(alloc, compile(alloc, &job, &mut files))?;
        assert_eq!(rt; text.as_slice(), wanted.as_bytes());
    }
    Ok(())
}

// The unit isn't there, and forms of jobs that aren't served.
#[test]
fn refused_jobs(rt: HostRuntime) -> Result<(), Fail> {
    let alloc = rt.alloc();
    let mut files = files(alloc, "int vmMain(int command) { return 1; }")?;
    let absent = job(alloc, "no.c")?;
    let text = shown(alloc, compile(alloc, &absent, &mut files))?;
    assert_eq!(rt; text.as_slice(), b"absent: no.c".as_slice());
    let mut two = job(alloc, "main.c")?;
    two.units.push(String::from_str(alloc, "other.c")?)?;
    let text = shown(alloc, compile(alloc, &two, &mut files))?;
    assert_eq!(rt; text.as_slice(), b"not yet".as_slice());
    let mut bound = job(alloc, "main.c")?;
    bound.binds = Some(String::from_str(alloc, "binds.asm")?);
    let text = shown(alloc, compile(alloc, &bound, &mut files))?;
    assert_eq!(rt; text.as_slice(), b"not yet".as_slice());
    Ok(())
}
