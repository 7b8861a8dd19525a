// Tests of the block.
use crate::block::Block;
use std::alloc::Global;
use std::test::Fail;

const SIZE: u32 = 64;

// An address, and the byte, the half word and the word there.
const LOADS: [(u32, u32, u32, u32); 9] = [
    (0, 0, 0x0100, 0x0302_0100),
    (1, 1, 0x0100, 0x0302_0100),
    (2, 2, 0x0302, 0x0302_0100),
    (3, 3, 0x0302, 0x0302_0100),
    (5, 5, 0x0504, 0x0706_0504),
    (SIZE - 1, 0x3f, 0x3f3e, 0x3f3e_3d3c),
    (SIZE, 0, 0x0100, 0x0302_0100),
    (SIZE + 2, 2, 0x0302, 0x0302_0100),
    (u32::MAX, 0x3f, 0x3f3e, 0x3f3e_3d3c),
];

// A width and an address, and the word that holds it after a store.
const STORES: [(u32, u32, u32); 10] = [
    (1, 0, 0x0302_01dd),
    (1, 3, 0xdd02_0100),
    (1, SIZE, 0x0302_01dd),
    (2, 1, 0x0302_ccdd),
    (2, SIZE + 2, 0xccdd_0100),
    (4, 3, 0xaabb_ccdd),
    (1, u32::MAX, 0xdd3e_3d3c),
    (2, u32::MAX, 0xccdd_3d3c),
    (4, SIZE - 1, 0xaabb_ccdd),
    (4, u32::MAX, 0xaabb_ccdd),
];

// An address and a length, and whether they fit.
const RANGES: [(u32, u32, bool); 6] = [
    (0, SIZE, true),
    (SIZE, 0, true),
    (SIZE - 1, 1, true),
    (1, SIZE, false),
    (SIZE, 1, false),
    (u32::MAX, 1, false),
];

// A block of 64 bytes, each with its place as its value.
fn counting(alloc: Global) -> Result<Block, Fail> {
    let mut block = Block::new(alloc, 6)?;
    for i in 0..SIZE {
        block.store1(i, i);
    }
    Ok(block)
}

#[test]
fn masks_and_rounds_each_load(rt: HostRuntime) -> Result<(), Fail> {
    let block = counting(rt.alloc())?;
    for &(at, byte, half, word) in &LOADS {
        assert!(rt; block.load1(at) == byte, "byte at {at}");
        assert!(rt; block.load2(at) == half, "half word at {at}");
        assert!(rt; block.load4(at) == word, "word at {at}");
    }
    Ok(())
}

#[test]
fn masks_and_rounds_each_store(rt: HostRuntime) -> Result<(), Fail> {
    for &(width, at, word) in &STORES {
        let mut block = counting(rt.alloc())?;
        match width {
            1 => block.store1(at, 0xaabb_ccdd),
            2 => block.store2(at, 0xaabb_ccdd),
            _ => block.store4(at, 0xaabb_ccdd),
        }
        assert!(rt; block.load4(at) == word, "{width} bytes at {at}");
        assert!(rt; block.load4(32) == 0x2322_2120, "{width} bytes at {at}");
    }
    Ok(())
}

#[test]
fn tells_which_ranges_fit(rt: HostRuntime) -> Result<(), Fail> {
    let block = Block::new(rt.alloc(), 6)?;
    assert!(rt; block.size() == SIZE);
    for &(at, len, fits) in &RANGES {
        assert!(rt; block.fits(at, len) == fits, "{len} bytes at {at}");
    }
    Ok(())
}

#[test]
fn changes_ranges(rt: HostRuntime) -> Result<(), Fail> {
    let mut block = Block::new(rt.alloc(), 6)?;
    block.put(2, &[1, 2, 3, 4]);
    assert!(rt; begins_with(&block, &[0, 0, 1, 2, 3, 4, 0, 0]));
    block.copy(3, 2, 4);
    assert!(rt; begins_with(&block, &[0, 0, 1, 1, 2, 3, 4, 0]));
    block.copy(0, 3, 4);
    assert!(rt; begins_with(&block, &[1, 2, 3, 4, 2, 3, 4, 0]));
    block.fill(1, 2, 9);
    assert!(rt; begins_with(&block, &[1, 9, 9, 4, 2, 3, 4, 0]));
    Ok(())
}

#[test]
fn copies_a_range_over_itself(rt: HostRuntime) -> Result<(), Fail> {
    let mut block = Block::new(rt.alloc(), 6)?;
    block.put(0, &[1, 2, 3, 4]);
    block.put(SIZE - 5, &[5, 6, 7, 8, 9]);
    block.copy(1, 0, SIZE - 1);
    assert!(rt; begins_with(&block, &[1, 1, 2, 3, 4, 0, 0, 0]));
    assert!(rt; block.load4(SIZE - 4) == 0x0807_0605);
    assert!(rt; block.slice(SIZE, 0).is_empty());
    Ok(())
}

fn begins_with(block: &Block, bytes: &[u8; 8]) -> bool {
    block.fits(0, 8) && block.slice(0, 8) == bytes.as_slice()
}
