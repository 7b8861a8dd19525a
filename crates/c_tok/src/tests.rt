//! Texts and the C tokens that they are.

use crate::constant::Constant;
use crate::fault::TokFault;
use crate::token::{CTok, CTokKind};
use crate::tokens::c_tokens;
use pp_tok::lines::pp_tokens;
use qv_base::NoMemory;
use sqlite_items::Items;
use std::alloc::Global;
use std::test::Fail;

// Names have quotes here, numbers their type; a fault has its line.
const NAMES: &[(&str, &str)] = &[
    ("", ""),
    ("int x;", "Int 'x' Semicolon "),
    ("Int _if sizeofx", "'Int' '_if' 'sizeofx' "),
    ("float sizeof volatile", "Float Sizeof Volatile "),
    (
        "a>>=b...c#d##e",
        "'a' ShiftRightAssign 'b' Ellipsis 'c' Hash 'd' HashHash 'e' ",
    ),
    (
        "n234567890123456789012345678901234567890123456789012345678901234567890123456789012345678901234567890123456789012345678901234567",
        "'n234567890123456789012345678901234567890123456789012345678901234567890123456789012345678901234567890123456789012345678901234567' ",
    ),
    (
        "a\nn2345678901234567890123456789012345678901234567890123456789012345678901234567890123456789012345678901234567890123456789012345678",
        "NameTooLong 2",
    ),
    ("a $ 08", "StrayByte 1"),
];

const NUMBERS: &[(&str, &str)] = &[
    ("0 1 2147483647", "0:Int 1:Int 2147483647:Int "),
    (
        "2147483648 4294967295",
        "2147483648:UnsignedLong 4294967295:UnsignedLong ",
    ),
    (
        "017 017777777777 020000000000",
        "15:Int 2147483647:Int 2147483648:UnsignedInt ",
    ),
    (
        "0x7fffffff 0X80000000",
        "2147483647:Int 2147483648:UnsignedInt ",
    ),
    ("0xffffffff", "4294967295:UnsignedInt "),
    (
        "1u 0xFfU 1l 1L",
        "1:UnsignedInt 255:UnsignedInt 1:Long 1:Long ",
    ),
    ("1ul 1Lu", "1:UnsignedLong 1:UnsignedLong "),
    (
        "2147483648l 0x80000000L",
        "2147483648:UnsignedLong 2147483648:UnsignedLong ",
    ),
    ("4294967295u 0u", "4294967295:UnsignedInt 0:UnsignedInt "),
    ("00000000000000000001", "1:Int "),
    ("4294967296", "ConstantTooLarge 1"),
    ("0x100000000", "ConstantTooLarge 1"),
    ("99999999999999999999999u", "ConstantTooLarge 1"),
    ("99999999999999999999999x", "BadConstant 1"),
    ("08", "BadConstant 1"),
    ("0x", "BadConstant 1"),
    ("0xg", "BadConstant 1"),
    ("1uu", "BadConstant 1"),
    ("1ll", "BadConstant 1"),
    ("1ulu", "BadConstant 1"),
    ("1a", "BadConstant 1"),
    ("1f", "BadConstant 1"),
    ("1e", "BadConstant 1"),
    ("1e+", "BadConstant 1"),
    ("0xe+1", "BadConstant 1"),
    ("1e5", "FloatConstant 1"),
    ("1E+5", "FloatConstant 1"),
    ("01e5", "FloatConstant 1"),
    ("08e-1f", "FloatConstant 1"),
    ("1.", "FloatConstant 1"),
    (".5", "FloatConstant 1"),
    ("0x1.8", "FloatConstant 1"),
    ("0x1e5", "485:Int "),
];

const TEXTS: &[(&str, &str)] = &[
    ("'a' '\"' '\\''", "97:Int 34:Int 39:Int "),
    ("'\\377' '\\177' '\\0'", "4294967295:Int 127:Int 0:Int "),
    ("'\\x80' '\\x00041'", "4294967168:Int 65:Int "),
    (
        "'\\a' '\\b' '\\f' '\\n' '\\r' '\\t' '\\v'",
        "7:Int 8:Int 12:Int 10:Int 13:Int 9:Int 11:Int ",
    ),
    ("'\\?' '\\\\' '?'", "63:Int 92:Int 63:Int "),
    ("''", "BadConstant 1"),
    ("'ab'", "BadConstant 1"),
    ("'\\q'", "BadConstant 1"),
    ("'\\8'", "BadConstant 1"),
    ("'\\400'", "BadConstant 1"),
    ("'\\1234'", "BadConstant 1"),
    ("'\\x'", "BadConstant 1"),
    ("'\\x100'", "BadConstant 1"),
    ("'\\n '", "BadConstant 1"),
    ("\n L'ab'", "LeftOut 2"),
    ("'a", "OpenQuote 1"),
    ("x\n\"a", "OpenQuote 2"),
    ("\"\" ; \"\" \"a\"", "\"\" Semicolon \"a\" "),
    ("\"a\\t\\101\\x41\"", "\"a\tAA\" "),
    ("\"\\1234\" ; \"\\x00041\"", "\"S4\" Semicolon \"A\" "),
    ("\"a\" \"b\"\n\"c\" d \"e\"", "\"abc\" 'd' \"e\" "),
    ("\"\\x4\" \"1\"", "\"\u{4}1\" "),
    ("\"\\400\"", "BadConstant 1"),
    ("\"\\x\"", "BadConstant 1"),
    ("\"\\8\"", "BadConstant 1"),
    ("\"a\"\n\"\\q\" 08", "BadConstant 2"),
    ("L\"a\" @", "LeftOut 1"),
    ("\"a\"\nL\"b\"", "LeftOut 2"),
    ("1 08 1.5", "BadConstant 1"),
];

// The lines of tokens: adjacent strings stand on the line of the first.
const LINES: &[(&str, &str)] = &[
    ("a b\nc", "1 1 2 "),
    ("\"a\"\n\n\"b\"\n;\n\"c\"", "1 4 5 "),
    ("\\\n1 /*\n*/ 'a'", "2 3 "),
];

fn append(text: &mut Vec<u8>, more: &[u8]) -> Result<(), NoMemory> {
    text.extend_from_slice(more)?;
    Ok(())
}

fn append_token(alloc: Global, text: &mut Vec<u8>, token: &CTok) -> Result<(), NoMemory> {
    match &token.kind {
        CTokKind::Mark(mark) => append(text, format!(in alloc; "{mark:?}")?.as_bytes())?,
        CTokKind::Ident(name) => {
            append(text, b"'")?;
            append(text, name.bytes())?;
            append(text, b"'")?;
        }
        CTokKind::Constant(Constant { value, kind }) => {
            append(text, format!(in alloc; "{value}:{kind:?}")?.as_bytes())?;
        }
        CTokKind::Text(bytes) => {
            append(text, b"\"")?;
            append(text, bytes.as_slice())?;
            append(text, b"\"")?;
        }
    }
    append(text, b" ")
}

fn append_fault(alloc: Global, text: &mut Vec<u8>, fault: TokFault) -> Result<(), NoMemory> {
    let (words, place) = match fault {
        TokFault::StrayByte(place) => ("StrayByte", place),
        TokFault::OpenQuote(place) => ("OpenQuote", place),
        TokFault::LeftOut(place) => ("LeftOut", place),
        TokFault::BadConstant(place) => ("BadConstant", place),
        TokFault::FloatConstant(place) => ("FloatConstant", place),
        TokFault::ConstantTooLarge(place) => ("ConstantTooLarge", place),
        TokFault::NameTooLong(place) => ("NameTooLong", place),
        TokFault::NoMemory => return Err(NoMemory),
    };
    append(
        text,
        format!(in alloc; "{words} {}", place.line)?.as_bytes(),
    )
}

fn tokens_in(alloc: Global, source: &str) -> Result<Result<Items<CTok>, TokFault>, NoMemory> {
    match pp_tokens(alloc, 0, source.as_bytes()) {
        Ok(toks) => Ok(c_tokens(alloc, toks.as_slice())),
        Err(_) => Err(NoMemory),
    }
}

fn shown(alloc: Global, source: &str) -> Result<Vec<u8>, NoMemory> {
    let mut text = Vec::new(alloc);
    match tokens_in(alloc, source)? {
        Ok(tokens) => {
            for token in tokens.as_slice() {
                append_token(alloc, &mut text, token)?;
            }
        }
        Err(fault) => append_fault(alloc, &mut text, fault)?,
    }
    Ok(text)
}

fn lines(alloc: Global, source: &str) -> Result<Vec<u8>, NoMemory> {
    let mut text = Vec::new(alloc);
    if let Ok(tokens) = tokens_in(alloc, source)? {
        for token in tokens.as_slice() {
            append(
                &mut text,
                format!(in alloc; "{} ", token.place.line)?.as_bytes(),
            )?;
        }
    }
    Ok(text)
}

#[test]
fn tokens_are_told(rt: HostRuntime) -> Result<(), Fail> {
    for rows in [NAMES, NUMBERS, TEXTS] {
        for (source, wanted) in rows {
            let text = shown(rt.alloc(), source)?;
            assert_eq!(rt; text.as_slice(), wanted.as_bytes(), "at {source:?}");
        }
    }
    Ok(())
}

#[test]
fn tokens_keep_their_lines(rt: HostRuntime) -> Result<(), Fail> {
    for (source, wanted) in LINES {
        let text = lines(rt.alloc(), source)?;
        assert_eq!(rt; text.as_slice(), wanted.as_bytes(), "at {source:?}");
    }
    Ok(())
}
