//! The block: bytes whose number is a power of two.
ghost use Rattle.std.specs.Prelude.{◌≡◌, ◌≤◌, ◌<◌, ◌+◌, ◌%◌, ◌^◌, length, nat_le, replicate, IfOk};
ghost use Rattle.masked_mem.specs.Memory.{IsSize, load1, load2, load4, store1, store2, store4, bytes_at, put_at, filled_at, copied_at};

use crate::region::{Lease, Region};
use qv_base::NoMemory;
use std::alloc::Global;
use std::marker::Model;

/// A block of 64 to 2^26 bytes, as many as a power of two says.
///
/// The loads and stores take any address. They cut it to the block (the address modulo the size) and
/// round it down to a multiple of their width, so they never refuse. Words and half words have their
/// lowest byte first. The other calls take a range of bytes as it stands, and want it within the block:
/// [`Block::fits`] tells whether it is.
pub struct Block {
    // One less than the size: the bits of an address that count.
    mask: u32,
    size: usize,
    region: Region,
    lease: Lease<Global>,
    alloc: Global,
}

impl Model for Block {
    ghost use Rattle.std.specs.Prelude.{◌≡◌, ◌+◌, List, ℕ, length};
    ghost use Rattle.masked_mem.specs.Memory.{IsSize};

    ghost Value = { List ℕ };

    ghost view = { λ b. b.region.bytes };

    ghost invariant = { λ b. IsSize b.size × (b.size ≡ length b.region.bytes) × (b.mask + 1 ≡ b.size) × (b.lease.alloc ≡ b.alloc) × (b.lease.at ≡ b.region.at) × (b.lease.size ≡ b.size) };
}

impl Drop for Block {
    fn drop(self) {
        let Block {
            mask: _,
            size,
            region,
            lease,
            alloc,
        } = self;
        region.free(lease, &alloc, size);
    }
}

impl Block {
    /// A block of 2^`log2` zero bytes.
    ///
    /// # Errors
    ///
    /// NoMemory where memory for it is refused.
    pub fn new(alloc: Global, log2: u8) -> Result<Block, NoMemory>
        requires low { 6 ≤ log2 }
        requires high { log2 ≤ 26 }
        ensures { IfOk result (λ block. block ≡ replicate (2 ^ log2) 0) }
    {
        let size = 1usize << log2;
        let Some((region, lease)) = Region::new(&alloc, size) else {
            return Err(NoMemory);
        };
        Ok(Block {
            mask: (size - 1) as u32,
            size,
            region,
            lease,
            alloc,
        })
    }

    /// How many bytes it has.
    pub fn size(&self) -> u32
        ensures size { result ≡ length self.now }
        ensures is_size { IsSize (length self.now) }
    {
        self.size as u32
    }

    // The bytes.
    fn bytes(&self) -> &[u8]
        ensures { result.now ≡ self.now }
    {
        self.region.bytes(self.size)
    }

    // An address cut to the block by its mask.
    fn wrap(&self, at: u32) -> usize
        ensures at { result ≡ at % length self.now }
        ensures size { IsSize (length self.now) }
        ensures within { result < length self.now }
    {
        (at & self.mask) as usize
    }

    /// The byte at an address.
    pub fn load1(&self, at: u32) -> u32
        ensures { result ≡ load1 self.now at }
    {
        u32::from(self.bytes()[self.wrap(at)])
    }

    /// The half word at an address.
    pub fn load2(&self, at: u32) -> u32
        ensures { result ≡ load2 self.now at }
    {
        let wrapped = self.wrap(at);
        let place = wrapped - wrapped % 2;
        let two = &self.bytes()[place..place + 2];
        u32::from(u16::from_le_bytes([two[0], two[1]]))
    }

    /// The word at an address.
    pub fn load4(&self, at: u32) -> u32
        ensures { result ≡ load4 self.now at }
    {
        let wrapped = self.wrap(at);
        let place = wrapped - wrapped % 4;
        let four = &self.bytes()[place..place + 4];
        u32::from_le_bytes([four[0], four[1], four[2], four[3]])
    }

    /// Stores the low byte of `v` at an address.
    pub fn store1(&mut self, at: u32, v: u32)
        ensures { self.new ≡ store1 self.old at v }
    {
        let place = self.wrap(at);
        self.region.bytes_mut(self.size)[place] = (v % 256) as u8;
    }

    /// Stores the low half word of `v` at an address.
    pub fn store2(&mut self, at: u32, v: u32)
        ensures { self.new ≡ store2 self.old at v }
    {
        let wrapped = self.wrap(at);
        let place = wrapped - wrapped % 2;
        let half = (v % 65536) as u16;
        self.region.bytes_mut(self.size)[place..place + 2].copy_from_slice(&half.to_le_bytes());
    }

    /// Stores the word `v` at an address.
    pub fn store4(&mut self, at: u32, v: u32)
        ensures { self.new ≡ store4 self.old at v }
    {
        let wrapped = self.wrap(at);
        let place = wrapped - wrapped % 4;
        self.region.bytes_mut(self.size)[place..place + 4].copy_from_slice(&v.to_le_bytes());
    }

    /// Whether `len` bytes from `at` on lie within the block.
    pub fn fits(&self, at: u32, len: u32) -> bool
        ensures { result ≡ nat_le (at + len) (length self.now) }
    {
        u64::from(at) + u64::from(len) <= self.size as u64
    }

    /// The `len` bytes from `at` on.
    pub fn slice(&self, at: u32, len: u32) -> &[u8]
        requires { at + len ≤ length self.now }
        ensures { result.now ≡ bytes_at self.now at len }
    {
        let start = at as usize;
        &self.bytes()[start..start + len as usize]
    }

    /// Puts these bytes from `at` on.
    pub fn put(&mut self, at: u32, bytes: &[u8])
        requires { at + length bytes.now ≤ length self.old }
        ensures { self.new ≡ put_at self.old at bytes.now }
    {
        let start = at as usize;
        self.region.bytes_mut(self.size)[start..start + bytes.len()].copy_from_slice(bytes);
    }

    /// Puts `len` times the byte `v` from `at` on.
    pub fn fill(&mut self, at: u32, len: u32, v: u8)
        requires { at + len ≤ length self.old }
        ensures { self.new ≡ filled_at self.old at len v }
    {
        let start = at as usize;
        self.region.bytes_mut(self.size)[start..start + len as usize].fill(v);
    }

    /// Copies `len` bytes from `from` to `to`, as if all of them were read first.
    pub fn copy(&mut self, to: u32, from: u32, len: u32)
        requires to { to + len ≤ length self.old }
        requires from { from + len ≤ length self.old }
        ensures { self.new ≡ copied_at self.old to from len }
    {
        let start = from as usize;
        self.region
            .bytes_mut(self.size)
            .copy_within(start..start + len as usize, to as usize);
    }
}
