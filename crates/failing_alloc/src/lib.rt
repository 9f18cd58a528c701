//! An allocator for tests: it fails one allocation, or each above a size, and counts the
//! allocations up to that one, the bytes that were granted, and the blocks that are alive.
//!
//! Lend it to a collection as `&FailingAlloc<B>`, which is an allocator that is `Copy`. `arm` then
//! says which allocation fails, also while the collection holds memory, and `left` says how far
//! away that allocation is. So a test can make each allocation of a call fail in turn, and look at
//! what the call leaves behind. `live_blocks` and `live_bytes` are 0 again once nothing holds
//! memory of it. If they aren't, a call has lost a block.
//!
//! `fail_above` makes each large allocation fail. `granted_bytes` then says how much a call got,
//! and so could write, before it failed.
//!
//! Proved: a block that it returns is one of `inner`'s, as large as was requested. Only tested:
//! which allocation fails and what the counts are, since no contract says what a cell holds.
//! Neither: that a block passed to `deallocate` is freed, since an allocator may keep it.
#![tactic(auto)]

use std::alloc::{AllocError, Allocator};
use std::cell::Cell;

/// Passes each allocation on to `inner`, except those that are to fail.
///
/// It is not `Copy`, since a copy would have counts of its own.
pub struct FailingAlloc<B: Allocator> {
    inner: B,
    counts: Counts,
}

/// What a `FailingAlloc` counts.
#[derive(Drop)]
struct Counts {
    /// How many allocations away the one is that `new` or `arm` makes fail, 0 if there is none.
    left: Cell<u64>,
    /// The bytes above which an allocation fails.
    most: Cell<u64>,
    /// How many allocations were made to fail since `new` or the last `fail_above`.
    failures: Cell<u64>,
    /// The bytes that were granted since then, before the first of these failures.
    granted: Cell<u64>,
    /// The blocks that were returned and not handed back.
    blocks: Cell<u64>,
    /// The bytes of the blocks that were not handed back.
    bytes: Cell<u64>,
}

impl<B: Allocator> FailingAlloc<B> {
    /// Returns an allocator over `inner` whose allocation number `failing` fails, counted from 1.
    /// At 0 none fails. No allocation is too large.
    pub fn new(inner: B, failing: u64) -> FailingAlloc<B> {
        FailingAlloc {
            inner,
            counts: Counts {
                left: Cell::new(failing),
                most: Cell::new(u64::MAX),
                failures: Cell::new(0),
                granted: Cell::new(0),
                blocks: Cell::new(0),
                bytes: Cell::new(0),
            },
        }
    }

    /// Starts the count again: from here on, allocation number `failing` fails, counted from 1. At
    /// 0 none fails by its number.
    pub fn arm(&self, failing: u64) {
        self.counts.left.set(failing);
    }

    /// From here on, each allocation of more than `bytes` bytes fails too. At `u64::MAX` none is
    /// too large. `failures` and `granted_bytes` count from here on.
    pub fn fail_above(&self, bytes: u64) {
        self.counts.most.set(bytes);
        self.counts.failures.set(0);
        self.counts.granted.set(0);
    }

    /// Returns how many allocations were made to fail since `new` or the last `fail_above`, by
    /// `new`, `arm` or `fail_above`.
    pub fn failures(&self) -> u64 {
        self.counts.failures.get()
    }

    /// Returns how many bytes were granted since `new` or the last `fail_above`: before the first
    /// allocation that was made to fail since, or in all if none was. A block that was handed back
    /// counts too, and one that moved to a larger place counts with all bytes of both.
    pub fn granted_bytes(&self) -> u64 {
        self.counts.granted.get()
    }

    /// Returns how many allocations away the one is that `new` or `arm` makes fail: 1 if it is the
    /// next. It is 0 if that one has failed already, or if none was to fail.
    pub fn left(&self) -> u64 {
        self.counts.left.get()
    }

    /// Returns how many of its blocks weren't handed back. `arm` leaves this count.
    pub fn live_blocks(&self) -> u64 {
        self.counts.blocks.get()
    }

    /// Returns how many bytes were asked for these blocks.
    pub fn live_bytes(&self) -> u64 {
        self.counts.bytes.get()
    }
}

impl<B: Allocator> Drop for FailingAlloc<B> {
    fn drop(self) {
        let Self {
            inner: _,
            counts: _,
        } = self;
    }
}

impl Counts {
    // counts one allocation of `size` bytes, and returns whether it is to fail
    fn request(&self, size: usize) -> bool {
        let before = self.left.get();
        self.left.set(before.saturating_sub(1));
        let is_failing = before == 1 || size as u64 > self.most.get();
        if is_failing {
            self.failures.set(self.failures.get().wrapping_add(1));
        }
        is_failing
    }

    // counts a block that it returns
    fn grant(&self, size: usize) {
        self.blocks.set(self.blocks.get().wrapping_add(1));
        self.bytes.set(self.bytes.get().wrapping_add(size as u64));
        if self.failures.get() == 0 {
            self.granted
                .set(self.granted.get().wrapping_add(size as u64));
        }
    }

    // counts a block that is handed back
    fn hand_back(&self, size: usize) {
        self.blocks.set(self.blocks.get().wrapping_sub(1));
        self.bytes.set(self.bytes.get().wrapping_sub(size as u64));
    }
}

unsafe impl<B: Allocator> Allocator for FailingAlloc<B> {
    // A block is `inner`'s, and so is the right to free it.
    ghost dealloc_token = { λ alloc ty ptr. B.dealloc_token alloc.inner ty ptr };

    fn allocate(&self, size: usize, align: usize) -> Result<*mut u8, AllocError> {
        if self.counts.request(size) {
            return Err(AllocError);
        }
        match self.inner.allocate(size, align) {
            Ok(block) => {
                self.counts.grant(size);
                Ok(block)
            }
            Err(_) => Err(AllocError),
        }
    }

    unsafe fn deallocate(&self, ptr: *mut u8, size: usize, align: usize) {
        self.counts.hand_back(size);
        self.inner.deallocate(ptr, size, align);
    }
}
