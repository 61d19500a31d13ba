ghost use Rattle.std.specs.Prelude.{◌≡◌};
ghost use Rattle.kit_alloc.specs.Failing.{inner_of, plan_of};

use crate::gate::Gate;
use crate::plan::Plan;
use std::alloc::{AllocError, Allocator};

/// An allocator that counts the requests for blocks and refuses those that its plan says. It passes
/// the others to the inner allocator. A growing collection makes requests too; freeing a block is
/// not a request.
///
/// A `&` to it is an allocator that is `Copy`: pass `&failing` to code under test that takes an
/// allocator.
#[derive(Drop)]
pub struct Failing<B: Allocator> {
    inner: B,
    gate: Gate,
}

impl<B: Allocator> Failing<B> {
    pub fn new(inner: B, plan: Plan) -> Failing<B>
        ensures inner { inner_of result ≡ inner }
        ensures plan { plan_of result ≡ plan }
    {
        Failing {
            inner,
            gate: Gate::new(plan),
        }
    }

    /// Returns an allocator that counts its requests, and refuses none.
    pub fn counting(inner: B) -> Failing<B>
        ensures inner { inner_of result ≡ inner }
        ensures plan { plan_of result ≡ Plan.Never }
    {
        Failing::new(inner, Plan::Never)
    }

    /// Returns an allocator that refuses the request of this number alone. The first is number 1.
    pub fn refusing_nth(inner: B, request: u64) -> Failing<B>
        ensures inner { inner_of result ≡ inner }
        ensures plan { plan_of result ≡ Plan.Once request }
    {
        Failing::new(inner, Plan::Once(request))
    }

    /// Returns an allocator that refuses the request of this number and each later one. From 1 on
    /// it refuses all.
    pub fn refusing_from(inner: B, first: u64) -> Failing<B>
        ensures inner { inner_of result ≡ inner }
        ensures plan { plan_of result ≡ Plan.From first }
    {
        Failing::new(inner, Plan::From(first))
    }

    pub fn plan(&self) -> Plan
        ensures { result ≡ plan_of self.now }
    {
        self.gate.plan()
    }

    /// Returns the number of requests so far, including refused ones.
    pub fn requests(&self) -> u64 {
        self.gate.requests()
    }

    /// Returns whether the plan refused a request. One that the inner allocator refused does not
    /// count.
    pub fn was_refused(&self) -> bool {
        self.gate.refused() != 0
    }

    /// Returns the number of blocks that were allocated and are not freed, provided that the inner
    /// allocator refused none.
    pub fn blocks(&self) -> u64 {
        self.gate
            .requests()
            .saturating_sub(self.gate.refused())
            .saturating_sub(self.gate.returned())
    }
}

unsafe impl<B: Allocator> Allocator for Failing<B> {
    ghost dealloc_token = { λ heap ty ptr. B.dealloc_token heap.inner ty ptr };

    fn allocate(&self, size: usize, align: usize) -> Result<*mut u8, AllocError> {
        if self.gate.refuses_next() {
            return Err(AllocError);
        }
        self.inner.allocate(size, align)
    }

    unsafe fn deallocate(&self, ptr: *mut u8, size: usize, align: usize) {
        self.gate.counts_returned();
        self.inner.deallocate(ptr, size, align);
    }
}
