use crate::conversion::{convert, promote, usual};
use crate::operator::{fold, result_kind, working_kind};
use c_type::kind::IntKind::{self, *};
use c_type::operator::BinOp::{self, *};

const KINDS: [IntKind; 9] = [
    Char,
    SignedChar,
    UnsignedChar,
    Short,
    UnsignedShort,
    Int,
    UnsignedInt,
    Long,
    UnsignedLong,
];

#[test]
fn kinds_meet(rt: HostRuntime) {
    let narrow = [
        Int,
        Int,
        Int,
        Int,
        Int,
        Int,
        UnsignedInt,
        Long,
        UnsignedLong,
    ];
    let want = [
        narrow,
        narrow,
        narrow,
        narrow,
        narrow,
        narrow,
        [
            UnsignedInt,
            UnsignedInt,
            UnsignedInt,
            UnsignedInt,
            UnsignedInt,
            UnsignedInt,
            UnsignedInt,
            UnsignedLong,
            UnsignedLong,
        ],
        [
            Long,
            Long,
            Long,
            Long,
            Long,
            Long,
            UnsignedLong,
            Long,
            UnsignedLong,
        ],
        [UnsignedLong; 9],
    ];
    for i in 0..9 {
        assert_eq!(rt; promote(KINDS[i]), narrow[i], "{i}");
        for j in 0..9 {
            let (a, b) = (KINDS[i], KINDS[j]);
            assert_eq!(rt; usual(a, b), want[i][j], "{i} {j}");
            assert_eq!(rt; working_kind(Add, a, b), want[i][j], "{i} {j}");
            assert_eq!(rt; working_kind(ShiftRight, a, b), narrow[i], "{i} {j}");
            assert_eq!(rt; result_kind(ShiftLeft, a, b), narrow[i], "{i} {j}");
            assert_eq!(rt; result_kind(AtMost, a, b), Int, "{i} {j}");
            assert_eq!(rt; result_kind(Xor, a, b), want[i][j], "{i} {j}");
        }
    }
}

#[test]
fn conversions(rt: HostRuntime) {
    for (k, v, want) in [
        (Char, 127, 127),
        (Char, 128, 0xffff_ff80),
        (SignedChar, 255, 0xffff_ffff),
        (SignedChar, 0x1234, 0x34),
        (UnsignedChar, 0xffff_ffff, 255),
        (UnsignedChar, 256, 0),
        (Short, 0x7fff, 0x7fff),
        (Short, 0x8000, 0xffff_8000),
        (UnsignedShort, 0xffff_8000, 0x8000),
        (UnsignedShort, 0x1_0000, 0),
        (Int, 0x8000_0000, 0x8000_0000),
        (UnsignedInt, 0xffff_ffff, 0xffff_ffff),
        (Long, 0xffff_ffff, 0xffff_ffff),
        (UnsignedLong, 0x8000_0000, 0x8000_0000),
    ] {
        assert_eq!(rt; convert(v, k), want, "{k:?} {v}");
    }
}

#[test]
fn operators(rt: HostRuntime) {
    let minus: [u32; 9] = [
        0,
        0xffff_ffff,
        0xffff_fffe,
        0xffff_fffd,
        0xffff_fffc,
        0xffff_fffb,
        0xffff_fffa,
        0xffff_fff9,
        0xffff_fff8,
    ];
    let least = 0x8000_0000;
    let rows: [(BinOp, IntKind, u32, u32, Option<u32>); 48] = [
        (Multiply, Int, minus[3], 5, Some(0xffff_fff1)),
        (Multiply, UnsignedInt, 0x1_0001, 0x1_0001, Some(0x2_0001)),
        (Divide, Int, minus[7], 2, Some(minus[3])),
        (Divide, Long, 7, minus[2], Some(minus[3])),
        (Divide, Long, minus[7], minus[2], Some(3)),
        (Divide, UnsignedInt, minus[7], 2, Some(0x7fff_fffc)),
        (Divide, UnsignedLong, least, minus[1], Some(0)),
        (Divide, Int, 7, 0, None),
        (Divide, UnsignedInt, 0, 0, None),
        (Divide, Int, least, minus[1], None),
        (Divide, Long, least, minus[1], None),
        (Divide, Int, least, 1, Some(least)),
        (Divide, Int, 0x7fff_ffff, minus[1], Some(0x8000_0001)),
        (Remainder, Int, minus[7], 2, Some(minus[1])),
        (Remainder, Int, 7, minus[2], Some(1)),
        (Remainder, Long, minus[7], minus[4], Some(minus[3])),
        (Remainder, UnsignedInt, minus[7], 2, Some(1)),
        (Remainder, UnsignedInt, least, minus[1], Some(least)),
        (Remainder, Int, least, minus[1], None),
        (Remainder, Long, 0, 0, None),
        (Remainder, UnsignedLong, 5, 0, None),
        (Add, Int, 0x7fff_ffff, 1, Some(least)),
        (Add, UnsignedInt, minus[1], 2, Some(1)),
        (Subtract, Int, 0, 1, Some(minus[1])),
        (Subtract, UnsignedLong, 3, 5, Some(minus[2])),
        (ShiftLeft, Int, 1, 31, Some(least)),
        (ShiftLeft, UnsignedInt, 3, 31, Some(least)),
        (ShiftLeft, Int, 1, 32, None),
        (ShiftLeft, UnsignedLong, 0, minus[1], None),
        (ShiftRight, Int, minus[8], 1, Some(minus[4])),
        (ShiftRight, Long, least, 31, Some(minus[1])),
        (ShiftRight, UnsignedInt, minus[8], 1, Some(0x7fff_fffc)),
        (ShiftRight, UnsignedLong, least, 31, Some(1)),
        (ShiftRight, Int, 1, 32, None),
        (ShiftRight, UnsignedInt, 1, minus[1], None),
        (Less, Int, minus[1], 0, Some(1)),
        (Less, UnsignedInt, minus[1], 0, Some(0)),
        (Less, Long, 4, 4, Some(0)),
        (Greater, Long, 0, minus[1], Some(1)),
        (Greater, UnsignedLong, 0, minus[1], Some(0)),
        (AtMost, Int, minus[1], 0, Some(1)),
        (AtMost, UnsignedInt, 4, 4, Some(1)),
        (AtLeast, Int, minus[1], 0, Some(0)),
        (AtLeast, UnsignedInt, minus[1], 0, Some(1)),
        (Equal, Int, 4, 4, Some(1)),
        (NotEqual, UnsignedInt, 4, 4, Some(0)),
        (And, Int, 12, 10, Some(8)),
        (Or, UnsignedInt, 12, 10, Some(14)),
    ];
    for (op, k, a, b, want) in rows {
        assert_eq!(rt; fold(op, k, a, b), want, "{op:?} {k:?} {a} {b}");
    }
    assert_eq!(rt; fold(Xor, Long, 12, 10), Some(6));
}
