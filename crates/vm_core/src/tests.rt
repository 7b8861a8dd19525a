// Tests of the machine over images of a few instructions.
ghost use Rattle.std.specs.Prelude.{◌≡◌, ◌<◌, ◌≤◌, IsTrue, IfOk, length};
ghost use Rattle.std.specs.List.{list_all};
ghost use Rattle.qv_ops.specs.Code.{is_encodable, stays_within};

use crate::module::Module;
use crate::stop::Stop;
use qv_base::NoMemory;
use qv_image::image::Image;
use qv_ops::instr::Instr;
use qv_ops::op::{Op, is_branch, width};
use qv_outside::fixed_host::FixedHost;
use qv_outside::mem_sink::MemSink;
use std::alloc::Global;
use std::process::Abort;
use std::test::Fail;

// One more than the first argument.
const SUCCESSOR: [(Op, u32); 8] = [
    (Op::Enter, 8),
    (Op::Local, 16),
    (Op::Load4, 0),
    (Op::Const, 1),
    (Op::Add, 0),
    (Op::Leave, 8),
    (Op::Push, 0),
    (Op::Leave, 8),
];

// One more than 41, by a call.
const CALLER: [(Op, u32); 12] = [
    (Op::Enter, 16),
    (Op::Const, 41),
    (Op::Arg, 8),
    (Op::Const, 6),
    (Op::Call, 0),
    (Op::Leave, 16),
    (Op::Enter, 8),
    (Op::Local, 16),
    (Op::Load4, 0),
    (Op::Const, 1),
    (Op::Add, 0),
    (Op::Leave, 8),
];

// Adds the first argument to the word at 0, and returns it.
const COUNTER: [(Op, u32); 10] = [
    (Op::Const, 0),
    (Op::Const, 0),
    (Op::Load4, 0),
    (Op::Local, 8),
    (Op::Load4, 0),
    (Op::Add, 0),
    (Op::Store4, 0),
    (Op::Const, 0),
    (Op::Load4, 0),
    (Op::Leave, 0),
];

const FOREVER: [(Op, u32); 2] = [(Op::Const, 0), (Op::Jump, 0)];

const ARGS: [u32; 14] = [41, 7, 0, 0, 0, 0, 0, 0, 0, 0, 0, 0, 0, 3];

const MINUS_ONE: u32 = u32::MAX;

const LEAST: u32 = 1 << 31;

fn is_encodable(instr: Instr) -> bool
    ensures { result ≡ is_encodable instr }
{
    match width(instr.op) {
        0 => instr.operand == 0,
        1 => instr.operand < 256,
        _ => true,
    }
}

fn all_encodable(code: &[Instr]) -> bool
    ensures { result ≡ list_all is_encodable code.now }
{
    code.iter().all(|instr| is_encodable(*instr))
}

fn all_within(count: usize, code: &[Instr]) -> bool
    ensures { result ≡ list_all (stays_within count) code.now }
{
    code.iter().all(|instr| !is_branch(instr.op) || (instr.operand as usize) < count)
}

// An image of these parts.
fn image(code: Vec<Instr>, data_part: Vec<u8>, lit: Vec<u8>, bss: u32) -> Image
    requires some { 0 < length code.items }
    requires few { length code.items ≤ 1000 }
    requires encodable { IsTrue (list_all is_encodable code.items) }
    requires within { IsTrue (list_all (stays_within (length code.items)) code.items) }
    requires data { length data_part.items ≤ 64 }
    requires lit { length lit.items ≤ 64 }
    requires bss { bss ≤ 65536 }
{
    Image {
        code,
        data_part,
        lit,
        bss,
    }
}

// A module of this code, over these data, these literals and so many zero bytes.
pub(crate) fn load(
    rt: &impl Abort,
    alloc: Global,
    code: &[(Op, u32)],
    data_part: &[u8],
    lit: &[u8],
    bss: u32,
) -> Result<Module, Fail> {
    let mut instrs = Vec::new(alloc);
    for &(op, operand) in code {
        instrs.push(Instr { op, operand })?;
    }
    assert!(rt; !instrs.is_empty());
    assert!(rt; instrs.len() <= 1000);
    assert!(rt; all_encodable(&instrs));
    assert!(rt; all_within(instrs.len(), &instrs));
    assert!(rt; data_part.len() <= 64);
    assert!(rt; lit.len() <= 64);
    assert!(rt; bss <= 65536);
    let image = image(instrs, data_part.to_vec(alloc)?, lit.to_vec(alloc)?, bss);
    Ok(Module::load(alloc, &image)?)
}

// How at most n steps of this code end, over 65,536 zero bytes and with these words.
fn end_of(
    rt: &impl Abort,
    alloc: Global,
    code: &[(Op, u32)],
    args: &[u32; 14],
    n: u64,
) -> Result<Stop, Fail> {
    let mut host = FixedHost::new(Vec::new(alloc), 0);
    let mut out = MemSink::new(alloc, 0, Vec::new(alloc))?;
    let mut module = load(rt, alloc, code, &[], &[], 65536)?;
    module.start(args);
    Ok(module.run(n, &mut host, &mut out))
}

#[test]
fn stops_as_the_table_says(rt: HostRuntime) -> Result<(), Fail> {
    let alloc = rt.alloc();
    let pushes = [(Op::Push, 0); 257];
    let rows = [
        (
            [(Op::Push, 0), (Op::Leave, 0)].as_slice(),
            1000,
            Stop::Returned(0),
        ),
        (&[(Op::Leave, 0)], 1000, Stop::OperandUnder),
        (&pushes, 1000, Stop::OperandOver),
        (&pushes[..256], 1000, Stop::FellOff),
        (&[(Op::Add, 0)], 1000, Stop::OperandUnder),
        (&[(Op::Enter, 65473)], 1000, Stop::StackOver),
        (&[(Op::Enter, 65472)], 1000, Stop::FellOff),
        (&[(Op::Leave, 4)], 1000, Stop::StackUnder),
        (&[(Op::Const, 9), (Op::Jump, 0)], 1000, Stop::JumpOut(9)),
        (&[(Op::Const, 9), (Op::Call, 0)], 1000, Stop::JumpOut(9)),
        (&FOREVER, 7, Stop::Budget),
        (&[(Op::Push, 0)], 0, Stop::Budget),
        (
            &[(Op::Enter, 8), (Op::Const, 9), (Op::Arg, 8), (Op::Leave, 8)],
            1000,
            Stop::JumpOut(9),
        ),
        (
            &[
                (Op::Enter, 8),
                (Op::Const, 0xffff_fffd),
                (Op::Call, 0),
                (Op::Leave, 8),
            ],
            1000,
            Stop::UnknownTrap(2),
        ),
        (
            &[(Op::Const, LEAST), (Op::Call, 0)],
            1000,
            Stop::UnknownTrap(0x7fff_ffff),
        ),
        (
            &[(Op::Const, 5), (Op::Const, 6), (Op::Pop, 0), (Op::Leave, 0)],
            1000,
            Stop::Returned(5),
        ),
        (&[(Op::Pop, 0)], 1000, Stop::OperandUnder),
        (
            &[
                (Op::Ignore, 0),
                (Op::Break, 0),
                (Op::Local, 12),
                (Op::Leave, 0),
            ],
            1000,
            Stop::Returned(65484),
        ),
        (
            &[(Op::Local, 60), (Op::Load4, 0), (Op::Leave, 0)],
            1000,
            Stop::Returned(3),
        ),
        (&SUCCESSOR, 6, Stop::Returned(42)),
        (&CALLER, 12, Stop::Returned(42)),
        (&CALLER, 11, Stop::Budget),
    ];
    for (code, n, stop) in rows {
        assert_eq!(rt; end_of(&rt, alloc, code, &ARGS, n)?, stop);
    }
    Ok(())
}

#[test]
fn computes(rt: HostRuntime) -> Result<(), Fail> {
    let alloc = rt.alloc();
    // The opcode, the lower word and the top one.
    let rows = [
        (Op::Add, MINUS_ONE, 2, Stop::Returned(1)),
        (Op::Sub, 5, 7, Stop::Returned(0xffff_fffe)),
        (Op::Muli, MINUS_ONE, 5, Stop::Returned(0xffff_fffb)),
        (Op::Mulu, MINUS_ONE, 5, Stop::Returned(0xffff_fffb)),
        (Op::Band, 12, 10, Stop::Returned(8)),
        (Op::Bor, 12, 10, Stop::Returned(14)),
        (Op::Bxor, 12, 10, Stop::Returned(6)),
        (Op::Lsh, 3, 31, Stop::Returned(LEAST)),
        (Op::Lsh, 1, 33, Stop::Returned(2)),
        (Op::Rshi, LEAST, 31, Stop::Returned(MINUS_ONE)),
        (Op::Rshi, LEAST, 32, Stop::Returned(LEAST)),
        (Op::Rshu, LEAST, 31, Stop::Returned(1)),
        (Op::Rshu, LEAST, 63, Stop::Returned(1)),
        (Op::Divi, 0xffff_fff9, 2, Stop::Returned(0xffff_fffd)),
        (Op::Divi, LEAST, 0, Stop::DivideZero),
        (Op::Divi, LEAST, MINUS_ONE, Stop::DivideOver),
        (Op::Modi, 0xffff_fff9, 2, Stop::Returned(MINUS_ONE)),
        (Op::Modi, LEAST, 0, Stop::DivideZero),
        (Op::Modi, LEAST, MINUS_ONE, Stop::DivideOver),
        (Op::Divu, 0xffff_fff9, 2, Stop::Returned(0x7fff_fffc)),
        (Op::Divu, 5, 0, Stop::DivideZero),
        (Op::Divu, LEAST, MINUS_ONE, Stop::Returned(0)),
        (Op::Modu, 5, 0, Stop::DivideZero),
        (Op::Modu, LEAST, MINUS_ONE, Stop::Returned(LEAST)),
        (Op::Sex8, 1, 0x180, Stop::Returned(0xffff_ff80)),
        (Op::Sex8, 1, 0x17f, Stop::Returned(0x7f)),
        (Op::Sex16, 1, 0x1_8000, Stop::Returned(0xffff_8000)),
        (Op::Sex16, 1, 0x1_7fff, Stop::Returned(0x7fff)),
        (Op::Negi, 1, LEAST, Stop::Returned(LEAST)),
        (Op::Negi, 1, 1, Stop::Returned(MINUS_ONE)),
        (Op::Bcom, 1, 0xf0, Stop::Returned(0xffff_ff0f)),
    ];
    for (op, s, t, stop) in rows {
        let code = [(Op::Const, s), (Op::Const, t), (op, 0), (Op::Leave, 0)];
        assert_eq!(rt;
            end_of(&rt, alloc, &code, &ARGS, 4)?,
            stop,
            "{op:?} of {s} and {t}"
        );
    }
    Ok(())
}

#[test]
fn branches(rt: HostRuntime) -> Result<(), Fail> {
    let alloc = rt.alloc();
    // The opcode, whether it is taken for 3 and 3, for -1 and 0, and for 0 and -1.
    let rows = [
        (Op::Eq, [1, 0, 0]),
        (Op::Ne, [0, 1, 1]),
        (Op::Lti, [0, 1, 0]),
        (Op::Lei, [1, 1, 0]),
        (Op::Gti, [0, 0, 1]),
        (Op::Gei, [1, 0, 1]),
        (Op::Ltu, [0, 0, 1]),
        (Op::Leu, [1, 0, 1]),
        (Op::Gtu, [0, 1, 0]),
        (Op::Geu, [1, 1, 0]),
    ];
    for (op, taken) in rows {
        for (i, (s, t)) in [(3, 3), (MINUS_ONE, 0), (0, MINUS_ONE)]
            .into_iter()
            .enumerate()
        {
            let code = [
                (Op::Const, s),
                (Op::Const, t),
                (op, 5),
                (Op::Const, 0),
                (Op::Leave, 0),
                (Op::Const, 1),
                (Op::Leave, 0),
            ];
            assert_eq!(rt;
                end_of(&rt, alloc, &code, &ARGS, 5)?,
                Stop::Returned(taken[i]),
                "{op:?} of {s} and {t}"
            );
        }
    }
    Ok(())
}

#[test]
fn loads_what_it_stored(rt: HostRuntime) -> Result<(), Fail> {
    let alloc = rt.alloc();
    let size = 65536;
    // A word stored at 0 and 4 and then again by the opcode at the address, and what is loaded.
    let rows = [
        (Op::Store4, 3, 0x0403_0201, Op::Load4, 0, 0x0403_0201),
        (Op::Store4, 0, 0x0403_0201, Op::Load1, 1, 2),
        (Op::Store4, 0, 0x0403_0201, Op::Load1, 3, 4),
        (Op::Store4, 0, 0x0403_0201, Op::Load2, 1, 0x0201),
        (Op::Store4, 0, 0x0403_0201, Op::Load2, 3, 0x0403),
        (Op::Store2, 3, 0x0403_0201, Op::Load4, 0, 0x0201_0000),
        (Op::Store1, 3, 0x0403_0201, Op::Load4, 0, 0x0100_0000),
        (Op::Store4, size - 1, 7, Op::Load4, size - 4, 7),
        (Op::Store2, size, 0x0403_0201, Op::Load4, 0, 0x0201),
        (
            Op::Store1,
            MINUS_ONE,
            0x0403_0201,
            Op::Load2,
            size - 2,
            0x0100,
        ),
        (Op::Store4, 8, 0x0403_0201, Op::Load1, size + 8, 1),
        (
            Op::Store4,
            MINUS_ONE,
            0x0403_0201,
            Op::Load2,
            MINUS_ONE,
            0x0403,
        ),
    ];
    for (store, at, word, load, from, loaded) in rows {
        let code = [
            (Op::Const, at),
            (Op::Const, word),
            (store, 0),
            (Op::Const, from),
            (load, 0),
            (Op::Leave, 0),
        ];
        assert_eq!(rt;
            end_of(&rt, alloc, &code, &[0; 14], 6)?,
            Stop::Returned(loaded),
            "{store:?} at {at}, {load:?} at {from}"
        );
    }
    Ok(())
}

#[test]
fn copies_whole_words_within_the_block(rt: HostRuntime) -> Result<(), Fail> {
    let alloc = rt.alloc();
    let size = 65536;
    // Where to, where from, how many bytes.
    let rows = [
        (0, size - 4, 4, Stop::Returned(3)),
        (0, size - 8, 8, Stop::Returned(0)),
        (size - 4, 0, 4, Stop::Returned(0)),
        (size, size, 0, Stop::Returned(0)),
        (2, 0, 4, Stop::CopyRange),
        (0, 2, 4, Stop::CopyRange),
        (0, 0, 2, Stop::CopyRange),
        (size - 4, 0, 8, Stop::CopyRange),
        (0, size - 4, 8, Stop::CopyRange),
        (size + 4, 0, 0, Stop::CopyRange),
        (0xffff_fffc, 0, 8, Stop::CopyRange),
        (0, 0xffff_fffc, 8, Stop::CopyRange),
    ];
    for (to, from, len, stop) in rows {
        let code = [
            (Op::Const, to),
            (Op::Const, from),
            (Op::BlockCopy, len),
            (Op::Const, 0),
            (Op::Load4, 0),
            (Op::Leave, 0),
        ];
        assert_eq!(rt;
            end_of(&rt, alloc, &code, &ARGS, 6)?,
            stop,
            "{len} bytes from {from} to {to}"
        );
    }
    Ok(())
}

#[test]
fn keeps_its_memory_from_call_to_call(rt: HostRuntime) -> Result<(), Fail> {
    let alloc = rt.alloc();
    let mut host = FixedHost::new(Vec::new(alloc), 0);
    let mut out = MemSink::new(alloc, 0, Vec::new(alloc))?;
    let mut module = load(&rt, alloc, &COUNTER, &[1, 0, 0, 0, 0], &[7, 8], 100)?;
    assert!(rt; !module.is_ready());
    assert_eq!(rt; module.block().size(), 128);
    assert_eq!(rt; module.block().load4(0), 1);
    assert_eq!(rt; module.block().load4(4), 0x0008_0700);
    for (command, sum) in [(1, 2), (2, 4), (3, 7)] {
        module.start(&[command; 14]);
        assert!(rt; module.is_ready());
        assert_eq!(rt; module.run(9, &mut host, &mut out), Stop::Budget);
        assert!(rt; module.is_ready());
        assert_eq!(rt; module.run(1, &mut host, &mut out), Stop::Returned(sum));
        assert!(rt; !module.is_ready());
        assert_eq!(rt; module.block().load4(0), sum);
    }
    Ok(())
}

#[test]
fn runs_in_pieces_as_in_one(rt: HostRuntime) -> Result<(), Fail> {
    let alloc = rt.alloc();
    let mut host = FixedHost::new(Vec::new(alloc), 0);
    let mut out = MemSink::new(alloc, 0, Vec::new(alloc))?;
    let rows = [
        (CALLER.as_slice(), [3, 4, 5].as_slice(), Stop::Returned(42)),
        (&SUCCESSOR, &[3, 2], Stop::Budget),
        (&FOREVER, &[3, 4, 5], Stop::Budget),
        (
            &[(Op::Push, 0), (Op::Add, 0)],
            &[1, 1, 1],
            Stop::OperandUnder,
        ),
        (&[(Op::Push, 0)], &[], Stop::Budget),
    ];
    for (code, budgets, stop) in rows {
        let mut module = load(&rt, alloc, code, &[], &[], 65536)?;
        module.start(&ARGS);
        assert_eq!(rt; module.run_in_pieces(budgets, &mut host, &mut out), stop);
        assert_eq!(rt; module.is_ready(), stop == Stop::Budget);
    }
    Ok(())
}
