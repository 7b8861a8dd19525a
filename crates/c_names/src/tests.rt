//! Declarations and the typedef names that they leave.

use crate::{Declared, Names};
use qv_base::NoMemory;
use std::alloc::Global;
use std::test::Fail;

// What is done: a letter declares its name, a capital one as a typedef name, and a digit truncates to so
// many. Then the typedef names among a, b and c, and all declarations.
const ROWS: &[(&str, &str, &str)] = &[
    ("", "", ""),
    ("a", "", "a"),
    ("A", "a", "A"),
    ("Ab", "a", "Ab"),
    ("Aa", "", "Aa"),
    ("aA", "a", "aA"),
    ("Aa1", "a", "A"),
    ("aA1", "", "a"),
    ("aAa2", "a", "aA"),
    ("aAa1", "", "a"),
    ("A0", "", ""),
    ("A0C", "c", "C"),
    ("AB9", "ab", "AB"),
    ("ABCabc4", "bc", "ABCa"),
    ("ABCabc3", "abc", "ABC"),
    ("Aa1Ba2", "ab", "AB"),
    ("Aa1a2AA3", "a", "AaA"),
];

fn done(alloc: Global, script: &str) -> Result<Names, NoMemory> {
    let mut names = Names::new(alloc);
    for byte in script.bytes() {
        if byte.is_ascii_digit() {
            names.truncate(usize::from(byte - b'0'));
        } else {
            names.declare(&[byte.to_ascii_lowercase()], byte.is_ascii_uppercase())?;
        }
    }
    Ok(names)
}

fn typedef_names(alloc: Global, names: &Names) -> Result<Vec<u8>, NoMemory> {
    let mut text = Vec::new(alloc);
    for byte in b"abc" {
        if names.is_typedef_name(&[*byte]) {
            text.push(*byte)?;
        }
    }
    Ok(text)
}

fn letters(alloc: Global, declared: &[Declared]) -> Result<Vec<u8>, NoMemory> {
    let mut text = Vec::new(alloc);
    for one in declared {
        for byte in one.name.bytes() {
            text.push(if one.is_typedef {
                byte.to_ascii_uppercase()
            } else {
                *byte
            })?;
        }
    }
    Ok(text)
}

#[test]
fn latest_declarations_count(rt: HostRuntime) -> Result<(), Fail> {
    let alloc = rt.alloc();
    for (script, typedefs, declared) in ROWS {
        let names = done(alloc, script)?;
        let all = names.since(0)?;
        assert_eq!(rt; names.len(), declared.len(), "at {script:?}");
        assert_eq!(rt;
            letters(alloc, all.as_slice())?.as_slice(),
            declared.as_bytes(),
            "at {script:?}"
        );
        assert_eq!(rt;
            typedef_names(alloc, &names)?.as_slice(),
            typedefs.as_bytes(),
            "at {script:?}"
        );
    }
    Ok(())
}

#[test]
fn scopes_are_declared_again(rt: HostRuntime) -> Result<(), Fail> {
    let alloc = rt.alloc();
    let mut names = done(alloc, "AbAaC")?;
    let scope = names.since(2)?;
    names.truncate(2);
    assert_eq!(rt; typedef_names(alloc, &names)?.as_slice(), b"a".as_slice());
    names.declare_all(scope.as_slice())?;
    assert_eq!(rt; typedef_names(alloc, &names)?.as_slice(), b"c".as_slice());
    assert_eq!(rt;
        letters(alloc, names.since(1)?.as_slice())?.as_slice(),
        b"bAaC".as_slice()
    );
    assert_eq!(rt; names.since(5)?.len(), 0);
    assert_eq!(rt; names.since(6)?.len(), 0);
    Ok(())
}
