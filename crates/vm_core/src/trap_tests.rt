// Tests of trap calls.
use crate::stop::Stop;
use crate::tests::load;
use qv_ops::op::Op;
use qv_outside::fixed_host::FixedHost;
use qv_outside::mem_sink::MemSink;
use qv_outside::signature::{Kind, Sig};
use std::alloc::Global;
use std::process::Abort;
use std::test::Fail;

// The data of each module: the bytes 1 to 8, and two texts.
const DATA: [u8; 12] = [1, 2, 3, 4, 5, 6, 7, 8, 97, 98, 0, 99];

// The size of its block.
const SIZE: u32 = 131_072;

// The word that the host's trap 2 replies.
const REPLY: u32 = 7;

const FILLED: [u8; 12] = [1, 0xab, 0xab, 4, 5, 6, 7, 8, 97, 98, 0, 99];

const MOVED: [u8; 12] = [1, 2, 3, 4, 1, 2, 3, 4, 5, 6, 7, 8];

const PADDED: [u8; 12] = [97, 98, 0, 0, 5, 6, 7, 8, 97, 98, 0, 99];

const CUT: [u8; 12] = [97, 2, 3, 4, 5, 6, 7, 8, 97, 98, 0, 99];

// A trap's number, its arguments, how its call ends, the front of the block afterwards, and what is printed.
const ROWS: [(u32, [u32; 3], Stop, [u8; 12], &[u8]); 25] = [
    (0, [8, 0, 0], Stop::Returned(0), DATA, b"ab"),
    (0, [10, 0, 0], Stop::Returned(0), DATA, b""),
    (0, [SIZE - 1, 0, 0], Stop::Returned(0), DATA, b""),
    (
        0,
        [SIZE, 0, 0],
        Stop::TrapRange {
            number: 0,
            argument: 0,
        },
        DATA,
        b"",
    ),
    (1, [8, 0, 0], Stop::ModuleError, DATA, b"ab\n"),
    (
        1,
        [u32::MAX, 0, 0],
        Stop::TrapRange {
            number: 1,
            argument: 0,
        },
        DATA,
        b"",
    ),
    (2, [0, 0, 0], Stop::Returned(REPLY), DATA, b""),
    (3, [0, 0, 0], Stop::UnknownTrap(3), DATA, b""),
    (100, [1, 0x1ab, 2], Stop::Returned(1), FILLED, b""),
    (100, [SIZE - 8, 1, 8], Stop::Returned(SIZE - 8), DATA, b""),
    (
        100,
        [SIZE - 7, 1, 8],
        Stop::TrapRange {
            number: 100,
            argument: 0,
        },
        DATA,
        b"",
    ),
    (100, [SIZE, 1, 0], Stop::Returned(SIZE), DATA, b""),
    (
        100,
        [0, 1, u32::MAX],
        Stop::TrapRange {
            number: 100,
            argument: 0,
        },
        DATA,
        b"",
    ),
    (101, [4, 0, 8], Stop::Returned(4), MOVED, b""),
    (
        101,
        [SIZE - 7, 0, 8],
        Stop::TrapRange {
            number: 101,
            argument: 0,
        },
        DATA,
        b"",
    ),
    (
        101,
        [0, SIZE - 7, 8],
        Stop::TrapRange {
            number: 101,
            argument: 1,
        },
        DATA,
        b"",
    ),
    (
        101,
        [0, SIZE + 1, 0],
        Stop::TrapRange {
            number: 101,
            argument: 1,
        },
        DATA,
        b"",
    ),
    (
        101,
        [SIZE + 1, SIZE + 1, 0],
        Stop::TrapRange {
            number: 101,
            argument: 0,
        },
        DATA,
        b"",
    ),
    (102, [0, 8, 4], Stop::Returned(0), PADDED, b""),
    (102, [0, 8, 1], Stop::Returned(0), CUT, b""),
    (102, [0, 10, 0], Stop::Returned(0), DATA, b""),
    (
        102,
        [SIZE - 3, 8, 4],
        Stop::TrapRange {
            number: 102,
            argument: 0,
        },
        DATA,
        b"",
    ),
    (102, [8, SIZE, 0], Stop::Returned(8), DATA, b""),
    (
        102,
        [8, SIZE, 1],
        Stop::TrapRange {
            number: 102,
            argument: 1,
        },
        DATA,
        b"",
    ),
    (
        102,
        [0, 0, u32::MAX],
        Stop::TrapRange {
            number: 102,
            argument: 0,
        },
        DATA,
        b"",
    ),
];

// A call of a trap, whose reply is returned.
fn calls(number: u32, args: &[u32; 3]) -> [(Op, u32); 10] {
    [
        (Op::Enter, 24),
        (Op::Const, args[0]),
        (Op::Arg, 8),
        (Op::Const, args[1]),
        (Op::Arg, 12),
        (Op::Const, args[2]),
        (Op::Arg, 16),
        (Op::Const, !number),
        (Op::Call, 0),
        (Op::Leave, 24),
    ]
}

// A host with trap 2 alone.
fn host(alloc: Global) -> Result<FixedHost, Fail> {
    let sigs = [(2, Sig::new(&[]))];
    Ok(FixedHost::new(Vec::from_array(alloc, sigs)?, REPLY))
}

// How the call ends, and whether it leaves this at the block's front and prints this.
fn check(
    rt: &impl Abort,
    alloc: Global,
    code: &[(Op, u32)],
    stop: Stop,
    front: &[u8],
    text: &[u8],
) -> Result<(), Fail> {
    let mut host = host(alloc)?;
    let mut out = MemSink::new(alloc, 8, Vec::new(alloc))?;
    let mut module = load(rt, alloc, code, &DATA, &[], 65536)?;
    module.start(&[0; 14]);
    assert!(rt; module.run(100, &mut host, &mut out) == stop);
    assert!(rt; module.block().fits(0, 12));
    assert!(rt; module.block().slice(0, 12) == front);
    assert!(rt; out.bytes() == text);
    Ok(())
}

#[test]
fn serves_traps(rt: HostRuntime) -> Result<(), Fail> {
    for (number, args, stop, front, text) in &ROWS {
        check(&rt, rt.alloc(), &calls(*number, args), *stop, front, text)?;
    }
    Ok(())
}

// The budget, and how a call of trap 2 ends with it: a trap is one step.
#[test]
fn counts_a_trap_as_a_step(rt: HostRuntime) -> Result<(), Fail> {
    let code = [
        (Op::Enter, 8),
        (Op::Const, !2),
        (Op::Call, 0),
        (Op::Leave, 8),
    ];
    for (n, stop) in [(3, Stop::Budget), (4, Stop::Returned(REPLY))] {
        let mut host = host(rt.alloc())?;
        let mut out = MemSink::new(rt.alloc(), 0, Vec::new(rt.alloc()))?;
        let mut module = load(&rt, rt.alloc(), &code, &[], &[], 65536)?;
        module.start(&[0; 14]);
        assert!(rt; module.run(n, &mut host, &mut out) == stop);
    }
    Ok(())
}

// The bytes that a sink takes, and how a print of two bytes and an error of two and a line feed end there.
#[test]
fn stops_where_the_sink_fails(rt: HostRuntime) -> Result<(), Fail> {
    let rows = [
        (0, 1, Stop::OutFault),
        (1, 3, Stop::ModuleError),
        (1, 2, Stop::OutFault),
    ];
    for (number, room, stop) in rows {
        let mut host = host(rt.alloc())?;
        let mut out = MemSink::new(rt.alloc(), room, Vec::new(rt.alloc()))?;
        let mut module = load(
            &rt,
            rt.alloc(),
            &calls(number, &[8, 0, 0]),
            &DATA,
            &[],
            65536,
        )?;
        module.start(&[0; 14]);
        assert!(rt; module.run(100, &mut host, &mut out) == stop);
    }
    Ok(())
}
