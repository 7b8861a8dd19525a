//! The memory of a block, behind a pointer. No other file holds one, and each function here that does is proved by hand.
ghost use Rattle.std.specs.Prelude.{◌≡◌, ℕ, List, length, replicate, IfSome};
ghost use Rattle.std.specs.Borrow.{sem};
ghost use Rattle.std.specs.Ptr.{Ptr, room_for};
ghost use Rattle.masked_mem.specs.Memory.{IsSize};
ghost use Rattle.masked_mem.specs.Ownership.{bytes_of, region_owns, region_shares, lease_owns};

use std::alloc::Allocator;
use std::marker::{Model, PhantomData};
use std::slice;

const WORD: usize = 4;

/// The bytes of a region. Whoever holds it knows how many they are.
pub(crate) struct Region {
    at: *mut u8,
    ghost bytes: { List ℕ },
}

impl Model for Region {
    ghost also_owns = { λ r. region_owns r.at r.bytes };

    ghost also_shares = { λ r _ κ. region_shares r.at r.bytes κ };
}

/// The right to give `size` bytes at `at` back to `alloc`. It takes no space.
pub(crate) struct Lease<A: Allocator> {
    mark: PhantomData<A>,
    ghost alloc: { A },
    ghost at: { Ptr },
    ghost size: { ℕ },
}

impl<A: Allocator> Model for Lease<A> {
    ghost also_owns = { λ l. lease_owns (A.dealloc_token l.alloc) l.at l.size };
}

// Writes zeros into `size` bytes in which nothing lies.
unsafe fn clear(at: *mut u8, size: usize)
    requires* { sem 𝓛 (room_for (bytes_of size) at) }
    ensures* { sem 𝓛 (region_owns at (replicate size 0)) }
{
    let mut i = 0;
    while i < size {
        unsafe { *at.add(i) = 0 };
        i += 1;
    }
}

impl Region {
    ghost use Rattle.masked_mem.specs.Lending.{LendsBytes};

    /// `size` zero bytes, aligned to a word.
    pub(crate) fn new<A: Allocator>(alloc: &A, size: usize) -> Option<(Region, Lease<A>)>
        requires { IsSize size }
        ensures { IfSome result (λ r. (r.0.bytes ≡ replicate size 0) × (r.1.alloc ≡ alloc.now) × (r.1.at ≡ r.0.at) × (r.1.size ≡ size)) }
    {
        match alloc.allocate(size, WORD) {
            Ok(at) => {
                unsafe { clear(at, size) };
                let mark = PhantomData;
                Some((Region { at }, Lease { mark }))
            }
            Err(_) => None,
        }
    }

    /// Gives the bytes back.
    pub(crate) fn free<A: Allocator>(self, lease: Lease<A>, alloc: &A, size: usize)
        requires lease { (lease.alloc ≡ alloc.now) × (lease.at ≡ self.at) × (lease.size ≡ size) }
        requires size { (size ≡ length self.bytes) × IsSize size }
    {
        let Region { at } = self;
        let Lease { mark: _ } = lease;
        unsafe { alloc.deallocate(at, size, WORD) }
    }

    /// The bytes, all of them.
    pub(crate) fn bytes(&self, size: usize) -> &[u8]
        requires { (size ≡ length self.now.bytes) × IsSize size }
        ensures { result.now ≡ self.now.bytes }
    {
        unsafe { slice::from_raw_parts(self.at, size) }
    }

    /// The same, to be written.
    pub(crate) fn bytes_mut(&mut self, size: usize) -> &mut [u8]
        requires { (size ≡ length self.old.bytes) × IsSize size }
        ensures* writes_back { sem 𝓛 (LendsBytes self.entry result) }
        ensures value { result.now ≡ self.old.bytes }
    {
        unsafe { slice::from_raw_parts_mut(self.at, size) }
    }
}
