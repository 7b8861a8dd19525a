//! The arguments of a trap and the bytes that they reach.
ghost use Rattle.std.specs.Prelude.{◌≡◌, ◌≤◌, ◌<◌, ◌+◌, ◌^◌, ◌==◌, length, take, drop};
ghost use Rattle.std.specs.List.{position};
ghost use Rattle.std.specs.Option.{option_copied, option_map};
ghost use Rattle.masked_mem.specs.Memory.{put_at};
ghost use Rattle.trap_sig.specs.Gather.{argument, arguments, text_at, text_within, range_at, reached, IsPlaced};

use masked_mem::block::Block;
use memchr::memchr;
use qv_base::word;
use qv_outside::signature::Kind;

/// The word of the argument at a place, from 0, where the arguments stand from `at` on.
pub fn argument(block: &Block, at: u32, place: u32) -> u32
    ensures { result ≡ argument block.now at place }
{
    block.load4(word::add(at, word::mul(4, place)))
}

/// Fills the list with the words of the arguments that stand from `at` on.
pub(crate) fn load_arguments(block: &Block, at: u32, words: &mut [u32])
    requires { length words.old < 2 ^ 32 }
    ensures { words.new ≡ arguments block.now at (length words.old) }
{
    for i in 0..words.len() {
        words[i] = argument(block, at, i as u32);
    }
}

/// The bytes from `at` on that stand before the first NUL, or none where no NUL stands before the
/// block's end.
pub fn text(block: &Block, at: u32) -> Option<&[u8]>
    ensures { option_copied result ≡ text_at block.now at }
{
    let size = block.size();
    if at > size {
        return None;
    }
    text_in(block.slice(at, size - at))
}

// The bytes before the first NUL.
fn text_in(bytes: &[u8]) -> Option<&[u8]>
    ensures { option_copied result ≡ option_map (λ n. take n bytes.now) (position (λ b. b == 0) bytes.now) }
{
    match nul_in(bytes) {
        Some(len) => Some(&bytes[..len]),
        None => None,
    }
}

// The place of the first NUL.
fn nul_in(bytes: &[u8]) -> Option<usize>
    ensures { result ≡ position (λ b. b == 0) bytes.now }
{
    memchr(0, bytes)
}

/// The `len` bytes from `at` on, or none where they leave the block.
pub(crate) fn range(block: &Block, at: u32, len: u32) -> Option<&[u8]>
    ensures { option_copied result ≡ range_at block.now at len }
{
    if block.fits(at, len) {
        Some(block.slice(at, len))
    } else {
        None
    }
}

/// The bytes from `at` on that stand before the first NUL, at most `len`, or none where they leave the block.
pub fn text_within(block: &Block, at: u32, len: u32) -> Option<&[u8]>
    ensures { option_copied result ≡ text_within block.now at len }
{
    let size = block.size();
    if at > size {
        return None;
    }
    let near = block.slice(at, len.min(size - at));
    match nul_in(near) {
        Some(text_len) => Some(&near[..text_len]),
        None => range(block, at, len),
    }
}

/// The bytes that an argument of this kind and word reaches, or none where they leave the block.
pub(crate) fn reach<'b>(block: &'b Block, words: &[u32], kind: Kind, word: u32) -> Option<&'b [u8]>
    requires { IsPlaced (length words.now) kind }
    ensures { option_copied result ≡ reached block.now words.now kind word }
{
    match kind {
        Kind::Int => Some(&[]),
        Kind::Text => text(block, word),
        Kind::InBytes(place) => range(block, word, words[place as usize]),
        Kind::OutBytes(place) => range(block, word, words[place as usize]),
    }
}

/// Puts the bytes of a reply where a call asks for them.
pub fn scatter(block: &mut Block, out_at: u32, bytes: &[u8])
    requires { out_at + length bytes.now ≤ length block.old }
    ensures { block.new ≡ put_at block.old out_at bytes.now }
{
    block.put(out_at, bytes);
}
