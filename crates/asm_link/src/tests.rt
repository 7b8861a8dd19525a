// Texts that are linked, and texts that are refused.
use crate::fault::{AsmFault, AsmFile, AsmKind};
use crate::lent::LentKind;
use crate::link::link;
use asm_line::line::LineFault;
use qv_base::NoMemory;
use qv_base::name::Name;
use qv_image::image::Image;
use qv_ops::instr::Instr;
use qv_ops::op::Op;
use std::alloc::Global;
use std::test::Fail;

// Blanks, comments and line ends in each form, and no line feed at the end.
const UNIT: &[u8] = b"\tcode ; of the module\r
proc vmMain 5 6;one
ADDRFP4 0
 INDIRI4\t\r
ADDRLP4 -4

LABELV $1
ARGI4
ADDRGP4 $1+1
CALLI4
ARGI4
RETI4
endproc vmMain 5 6";

fn instr(op: Op, operand: u32) -> Instr {
    Instr { op, operand }
}

// Links files of these texts, three at the most.
fn link_texts(alloc: Global, texts: &[&[u8]]) -> Result<Image, AsmFault> {
    let files = files(alloc, texts)?;
    link(alloc, &files[..files.len().min(3)])
}

fn files(alloc: Global, texts: &[&[u8]]) -> Result<Vec<AsmFile>, NoMemory> {
    let mut files = Vec::new(alloc);
    for text in texts {
        files.push(AsmFile {
            name: Name::from_bytes(alloc, b"main.asm")?,
            text: text.to_vec(alloc)?,
        })?;
    }
    Ok(files)
}

#[test]
fn links_a_unit(rt: HostRuntime) -> Result<(), Fail> {
    let image = link_texts(rt.alloc(), &[UNIT])?;
    let code = [
        instr(Op::Enter, 24),
        instr(Op::Local, 32),
        instr(Op::Load4, 0),
        instr(Op::Local, 12),
        instr(Op::Arg, 8),
        instr(Op::Const, 5),
        instr(Op::Call, 0),
        instr(Op::Arg, 8),
        instr(Op::Leave, 24),
        instr(Op::Push, 0),
        instr(Op::Leave, 24),
    ];
    assert!(rt; image.code.as_slice() == code.as_slice(), "{image:?}");
    assert!(rt; holds(&image, &[0; 4], &[], 65_536), "{image:?}");
    Ok(())
}

// Zero bytes in each segment, a word of each kind, and a name of two files.
const SEGMENTS: [&[u8]; 3] = [
    b"LABELV $1\npop\ndata\nskip 3\nalign 8\naddress $1-1",
    b"LABELV $1\npop\nlit\nbyte 1 265\nskip 2\nalign 8\nbyte 1 8\naddress $1",
    b"equ x 258\nbss\nskip 5\nalign 4\nbyte 4 4294967295\naddress x",
];

// The data and the literals of `SEGMENTS`.
const DATA: [u8; 24] = [
    0, 0, 0, 0, 0, 0, 0, 0, 255, 255, 255, 255, 1, 0, 0, 0, 255, 255, 255, 255, 2, 1, 0, 0,
];

const LIT: [u8; 12] = [9, 0, 0, 0, 0, 0, 0, 0, 8, 0, 0, 0];

#[test]
fn links_segments(rt: HostRuntime) -> Result<(), Fail> {
    let image = link_texts(rt.alloc(), &SEGMENTS)?;
    assert!(rt; holds(&image, &DATA, &LIT, 65_544), "{image:?}");
    Ok(())
}

fn holds(image: &Image, data: &[u8], lit: &[u8], bss: u32) -> bool {
    image.data_part.as_slice() == data && image.lit.as_slice() == lit && image.bss == bss
}

// Where a label x stands, by the line that settles it.
const LABELS: [(&[u8], u32); 7] = [
    (b"LABELV x", 1),
    (b"data\nLABELV x\nbyte 1 1", 8),
    (b"lit\nbyte 1 1\nLABELV x\naddress 0", 4),
    (b"lit\nbyte 1 1\nbss\nskip 8\nLABELV x\nskip 4", 20),
    (b"lit\nbyte 1 1\nLABELV x\nalign 4", 9),
    (b"lit\nbyte 1 1\nLABELV x\ndata\nbyte 4 0", 13),
    (b"lit\nbyte 1 1\nLABELV x", 9),
];

#[test]
fn settles_labels(rt: HostRuntime) -> Result<(), Fail> {
    for &(text, value) in &LABELS {
        let image = link_texts(rt.alloc(), &[b"CNSTP4 x", text, b"data\naddress 0"])?;
        assert!(rt; image.code[0] == instr(Op::Const, value), "{text:?}");
    }
    Ok(())
}

// The place of the 62nd argument is at byte 252.
#[test]
fn passes_arguments(rt: HostRuntime) -> Result<(), Fail> {
    let text = b"ARGI4\n".repeat(rt.alloc(), 62)?;
    let image = link_texts(rt.alloc(), &[&text])?;
    assert!(rt; image.code.last() == Some(&instr(Op::Arg, 252)));
    Ok(())
}

// Files that aren't linked, and the file, the line and the kind of their first fault.
const REFUSALS: [(&[&[u8]], u32, u32, LentKind<'static>); 11] = [
    (
        &[b"pop", b"\npop\nfoo"],
        1,
        3,
        LentKind::Line(LineFault::UnknownWord),
    ),
    (&[b"LABELV a", b"equ a 1"], 1, 1, LentKind::Redefined(b"a")),
    (
        &[b"proc p 0 0\nproc p 32760 0"],
        0,
        2,
        LentKind::Redefined(b"p"),
    ),
    (
        &[b"lit\nLABELV x\nbyte 1 1\naddress y"],
        0,
        4,
        LentKind::MixedSegments(b"x"),
    ),
    (
        &[b"proc p 0 0", b"endproc p 0 0"],
        1,
        1,
        LentKind::OutsideProc,
    ),
    (
        &[b"ADDRGP4 $1", b"LABELV $1"],
        0,
        1,
        LentKind::UndefinedName(b"$1"),
    ),
    (&[b"LABELV x\nEQI4 x\nEQI4 x+2"], 0, 3, LentKind::BranchFar),
    (&[], 0, 0, LentKind::EmptyCode),
    (&[b"data\nbyte 4 1"], 1, 0, LentKind::EmptyCode),
    (
        &[b"pop\ndata\nskip 4294967295\nlit\nskip 4294967295"],
        1,
        0,
        LentKind::DataTooLarge(8_590_000_132),
    ),
    (
        &[b"bss\nskip 67043325\npop\nRETV"],
        0,
        4,
        LentKind::OutsideProc,
    ),
];

#[test]
fn refuses(rt: HostRuntime) {
    for (texts, file, line, kind) in &REFUSALS {
        assert!(rt;
            is_refused(rt.alloc(), texts, *file, *line, kind),
            "{texts:?}"
        );
    }
}

fn is_refused(alloc: Global, texts: &[&[u8]], file: u32, line: u32, kind: &LentKind<'_>) -> bool {
    match link_texts(alloc, texts) {
        Ok(_) => false,
        Err(fault) => fault.file == file && fault.line == line && is_kind(&fault.kind, kind),
    }
}

fn is_kind(kind: &AsmKind, expected: &LentKind<'_>) -> bool {
    match (kind, expected) {
        (AsmKind::Line(a), LentKind::Line(b)) => a == b,
        (AsmKind::Redefined(a), LentKind::Redefined(b))
        | (AsmKind::MixedSegments(a), LentKind::MixedSegments(b))
        | (AsmKind::UndefinedName(a), LentKind::UndefinedName(b)) => a.bytes() == *b,
        (AsmKind::DataTooLarge(a), LentKind::DataTooLarge(b)) => a == b,
        (AsmKind::OutsideProc, LentKind::OutsideProc)
        | (AsmKind::BranchFar, LentKind::BranchFar)
        | (AsmKind::EmptyCode, LentKind::EmptyCode) => true,
        _ => false,
    }
}
