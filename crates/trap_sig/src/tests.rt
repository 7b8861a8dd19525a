// Calls gathered from a block of 64 bytes.
use crate::arguments::{argument, scatter, text};
use crate::gather::{Gathered, TrapRange, gather};
use masked_mem::block::Block;
use qv_base::word;
use qv_outside::signature::{Kind, Sig};
use std::alloc::Global;
use std::process::Abort;
use std::test::Fail;

// Where the arguments stand.
const AT: u32 = 8;

// The Int words, both texts, and the address and the length of the room, or the place of the first
// argument that leaves the block.
type Answer = Result<(&'static [u32], &'static [u8], &'static [u8], u32, u32), u8>;

// The kinds and the words of the arguments, and what is gathered of them.
const CALLS: [(&[Kind], &[u32], Answer); 16] = [
    (&[], &[], Ok((&[], b"", b"", 0, 0))),
    (
        &[Kind::Int, Kind::Int],
        &[5, u32::MAX],
        Ok((&[5, u32::MAX], b"", b"", 0, 0)),
    ),
    (&[Kind::Text], &[40], Ok((&[], b"ab", b"", 0, 0))),
    (&[Kind::Text], &[60], Ok((&[], b"xyz", b"", 0, 0))),
    (&[Kind::Text], &[63], Ok((&[], b"", b"", 0, 0))),
    (&[Kind::Text], &[64], Err(0)),
    (
        &[Kind::InBytes(1), Kind::Int],
        &[60, 4],
        Ok((&[4], b"xyz\0", b"", 0, 0)),
    ),
    (&[Kind::InBytes(1), Kind::Int], &[61, 4], Err(0)),
    (
        &[Kind::InBytes(1), Kind::Int],
        &[64, 0],
        Ok((&[0], b"", b"", 0, 0)),
    ),
    (&[Kind::InBytes(1), Kind::Int], &[65, 0], Err(0)),
    (&[Kind::InBytes(1), Kind::Int], &[1, u32::MAX], Err(0)),
    (
        &[Kind::Int, Kind::OutBytes(2), Kind::Int],
        &[1, 40, 24],
        Ok((&[1, 24], b"", b"", 40, 24)),
    ),
    (
        &[Kind::Int, Kind::OutBytes(2), Kind::Int],
        &[1, 40, 25],
        Err(1),
    ),
    (&[Kind::Int, Kind::OutBytes(0)], &[2, u32::MAX], Err(1)),
    (
        &[Kind::InBytes(3), Kind::OutBytes(3), Kind::Text, Kind::Int],
        &[40, 4, 60, 2],
        Ok((&[2], b"ab", b"xyz", 4, 2)),
    ),
    (
        &[Kind::Int, Kind::InBytes(0), Kind::Text],
        &[1, 64, 64],
        Err(1),
    ),
];

// An address, and the text there, where no NUL ends the block.
const TEXTS: [(u32, Option<&[u8]>); 6] = [
    (40, Some(b"ab")),
    (42, Some(b"")),
    (61, None),
    (63, None),
    (64, None),
    (u32::MAX, None),
];

// A block with a text at 40, and one at 60 that ends with this byte, the block's last.
fn block(rt: &impl Abort, alloc: Global, last: u8) -> Result<Block, Fail> {
    let mut block = Block::new(alloc, 6)?;
    assert!(rt; block.size() == 64);
    block.put(40, b"ab");
    block.put(60, b"xyz");
    block.put(63, &[last]);
    Ok(block)
}

fn is_answer(gathered: &Result<Gathered<'_>, TrapRange>, answer: &Answer) -> bool {
    match gathered {
        Ok(g) => match answer {
            Ok((ints, first, second, out_at, out_len)) => {
                g.call.int_count as usize == ints.len()
                    && g.call.ints.starts_with(ints)
                    && g.call.first == *first
                    && g.call.second == *second
                    && g.out_at == *out_at
                    && g.call.out_len == *out_len
            }
            Err(_) => false,
        },
        Err(range) => match answer {
            Ok(_) => false,
            Err(place) => range.argument == *place,
        },
    }
}

#[test]
fn gathers_each_kind_of_argument(rt: HostRuntime) -> Result<(), Fail> {
    let mut block = block(&rt, rt.alloc(), 0)?;
    for (kinds, words, answer) in &CALLS {
        assert!(rt; Sig::fits(kinds));
        let sig = Sig::new(kinds);
        let mut at = AT;
        for word in *words {
            block.store4(at, *word);
            at = word::add(at, 4);
        }
        let gathered = gather(&block, &sig, 9, AT);
        assert!(rt; is_answer(&gathered, answer));
    }
    Ok(())
}

#[test]
fn reads_texts_and_words_and_puts_replies(rt: HostRuntime) -> Result<(), Fail> {
    let mut block = block(&rt, rt.alloc(), b'!')?;
    for (at, bytes) in &TEXTS {
        assert!(rt; text(&block, *at) == *bytes);
    }
    scatter(&mut block, 60, b"wxyz");
    assert!(rt; argument(&block, 52, 2) == u32::from_le_bytes(*b"wxyz"));
    assert!(rt; argument(&block, u32::MAX - 3, 16) == u32::from_le_bytes(*b"wxyz"));
    Ok(())
}
