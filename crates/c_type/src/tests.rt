//! Layouts of records, and compatible types.

use crate::compatibility::compatible;
use crate::ctype::{CType, Shape};
use crate::kind::IntKind;
use crate::layout::{align, offset, size};
use crate::tags::{Member, TagKind, Tags};
use qv_base::NoMemory;
use qv_base::name::Name;
use sqlite_items::{Boxed, Items};
use std::alloc::Global;
use std::test::Fail;

// The tags: their kind, and the types of their members, parted by commas. `-` is incomplete.
const TAGS: &[(TagKind, &str)] = &[
    (TagKind::Struct, "c,s,c"),
    (TagKind::Union, "cE,s"),
    (TagKind::Struct, "-"),
    (TagKind::Enum, "-"),
    (TagKind::Struct, "0B,1,e"),
    (TagKind::Struct, "c,4,2*"),
    (TagKind::Struct, "c"),
    (TagKind::Union, "i,cI"),
];

// A type, its size and its alignment.
const LAYOUTS: &[(&str, Option<u32>, u32)] = &[
    ("v", None, 0),
    ("c", Some(1), 1),
    ("s", Some(2), 2),
    ("i", Some(4), 4),
    ("e", Some(4), 4),
    ("v*", Some(4), 4),
    ("i(", None, 0),
    ("i(*", Some(4), 4),
    ("s[", None, 0),
    ("sC", Some(6), 2),
    ("sCB", Some(12), 2),
    ("0", Some(6), 2),
    ("1", Some(6), 2),
    ("2", None, 0),
    ("2*", Some(4), 4),
    ("4", Some(24), 4),
    ("5", Some(32), 4),
    ("6", Some(1), 1),
    ("7", Some(12), 4),
    ("0CD", Some(72), 2),
    ("9", None, 0),
];

// A record, a member, and where it stands.
const OFFSETS: &[(u32, u32, Option<u32>)] = &[
    (0, 0, Some(0)),
    (0, 1, Some(2)),
    (0, 2, Some(4)),
    (0, 3, None),
    (1, 0, Some(0)),
    (1, 1, Some(0)),
    (2, 0, None),
    (3, 0, None),
    (4, 1, Some(12)),
    (4, 2, Some(20)),
    (5, 1, Some(4)),
    (5, 2, Some(28)),
    (9, 0, None),
];

const COMPATIBLE: &[(&str, &str, bool)] = &[
    ("v", "v", true),
    ("v", "c", false),
    ("c", "S", false),
    ("i", "l", false),
    ("i", "u", false),
    ("e", "i", true),
    ("i", "e", true),
    ("e", "u", false),
    ("e", "e", true),
    ("e*", "i*", true),
    ("c*", "v*", false),
    ("i[", "iC", true),
    ("iC", "iD", false),
    ("iC", "e[", true),
    ("iC", "i*", false),
    ("0", "0", true),
    ("0", "6", false),
    ("0*", "6*", false),
    ("i(", "e(", true),
    ("i(", "i)", false),
    ("i)", "i)", true),
    ("i)", "i.", false),
    ("i(", "v(", false),
];

fn boxed(alloc: Global, t: CType) -> Result<Boxed<CType>, NoMemory> {
    Ok(Boxed::new(alloc, t)?)
}

// A function: `(` takes nothing, `)` a char, `.` a char and more.
fn function(alloc: Global, gives: CType, mark: u8) -> Result<CType, NoMemory> {
    let mut params = Items::new(alloc);
    if mark != b'(' {
        params.push(CType::Int(IntKind::Char))?;
    }
    let shape = Shape {
        result: gives,
        params,
        variadic: mark == b'.',
    };
    Ok(CType::Function(Boxed::new(alloc, shape)?))
}

// A letter or a tag, and what is made of it: `*` a pointer, `A` to `I` an array of 1 to 9, `[` one of
// an unknown count.
fn made(alloc: Global, text: &[u8]) -> Result<CType, NoMemory> {
    let mut t = CType::Void;
    for byte in text {
        t = match *byte {
            b'c' => CType::Int(IntKind::Char),
            b'S' => CType::Int(IntKind::SignedChar),
            b's' => CType::Int(IntKind::Short),
            b'i' => CType::Int(IntKind::Int),
            b'u' => CType::Int(IntKind::UnsignedInt),
            b'l' => CType::Int(IntKind::Long),
            b'e' => CType::Enum(3),
            b'*' => CType::Pointer(boxed(alloc, t)?),
            b'[' => CType::Array(boxed(alloc, t)?, None),
            b'(' | b')' | b'.' => function(alloc, t, *byte)?,
            count @ b'A'..=b'I' => CType::Array(boxed(alloc, t)?, Some(u32::from(count - b'@'))),
            tag @ b'0'..=b'9' => CType::Record(u32::from(tag - b'0')),
            _ => CType::Void,
        };
    }
    Ok(t)
}

fn members(alloc: Global, text: &str) -> Result<Items<Member>, NoMemory> {
    let mut items = Items::new(alloc);
    for part in text.split(",") {
        items.push(Member {
            name: Name::from_bytes(alloc, b"m")?,
            type_of: made(alloc, part.as_bytes())?,
        })?;
    }
    Ok(items)
}

fn tags(alloc: Global) -> Result<Tags, NoMemory> {
    let mut tags = Tags::new(alloc);
    for (kind, _) in TAGS {
        tags.declare(*kind, None)?;
    }
    for (k, (_, text)) in TAGS.iter().enumerate() {
        if *text != "-" {
            tags.complete(k as u32, members(alloc, text)?)?;
        }
    }
    Ok(tags)
}

#[test]
fn layouts(rt: HostRuntime) -> Result<(), Fail> {
    let alloc = rt.alloc();
    let tags = tags(alloc)?;
    for (text, bytes, multiple) in LAYOUTS {
        let t = made(alloc, text.as_bytes())?;
        assert_eq!(rt; size(&tags, &t), *bytes, "{text}");
        assert_eq!(rt; align(&tags, &t), bytes.map(|_| *multiple), "{text}");
    }
    for (tag, member, place) in OFFSETS {
        assert_eq!(rt; offset(&tags, *tag, *member), *place, "{tag} {member}");
    }
    Ok(())
}

#[test]
fn records_are_completed_once(rt: HostRuntime) -> Result<(), Fail> {
    let alloc = rt.alloc();
    let mut tags = tags(alloc)?;
    for (tag, text) in [
        (0, "c"),
        (2, "2"),
        (2, "c,v"),
        (2, "s["),
        (2, "i("),
        (3, "c"),
        (9, "c"),
    ] {
        assert_eq!(rt;
            tags.complete(tag, members(alloc, text)?)?,
            false,
            "{tag} {text}"
        );
    }
    let mut large = members(alloc, "c")?;
    large.push(Member {
        name: Name::from_bytes(alloc, b"m")?,
        type_of: CType::Array(
            boxed(alloc, CType::Int(IntKind::Char))?,
            Some((1 << 26) - 1),
        ),
    })?;
    assert_eq!(rt; tags.complete(2, large)?, true);
    assert_eq!(rt; size(&tags, &CType::Record(2)), Some(1 << 26));
    let last = tags.declare(TagKind::Union, None)?;
    assert_eq!(rt; tags.len(), 9);
    assert_eq!(rt; tags.complete(last, members(alloc, "2,cB,2")?)?, true);
    assert_eq!(rt; size(&tags, &CType::Record(last)), Some(1 << 26));
    let other = tags.declare(TagKind::Struct, None)?;
    assert_eq!(rt; tags.complete(other, members(alloc, "2,c")?)?, false);
    assert_eq!(rt; size(&tags, &CType::Record(other)), None);
    assert_eq!(rt; size(&tags, &made(alloc, b"2IIII")?), Some(u32::MAX));
    Ok(())
}

#[test]
fn types_agree(rt: HostRuntime) -> Result<(), Fail> {
    let alloc = rt.alloc();
    let tags = tags(alloc)?;
    for (a, b, want) in COMPATIBLE {
        let (t, u) = (made(alloc, a.as_bytes())?, made(alloc, b.as_bytes())?);
        assert_eq!(rt; compatible(&tags, &t, &u), *want, "{a} {b}");
        assert_eq!(rt; compatible(&tags, &u, &t), *want, "{b} {a}");
    }
    Ok(())
}
