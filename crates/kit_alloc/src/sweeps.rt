ghost use Rattle.std.specs.Prelude.{◌≡◌, ◌↔◌, IsTrue};
ghost use Rattle.kit_alloc.specs.Sweeps.{IsComplete, SweepsTo, plan_by};

use crate::failing::Failing;
use crate::plan::Plan;
use std::alloc::Allocator;

/// How a sweep ended.
#[derive(Clone, Copy, Debug, PartialEq, Eq)]
pub enum SweepOutcome {
    /// Each run behaved well, and in the last one no request was refused.
    Complete { runs: u64 },
    /// Each run behaved well, and a request was refused in each: there may be more requests to
    /// refuse.
    OutOfRuns,
    /// The run with this request refused did not behave well.
    Misbehaved { request: u64 },
}

impl SweepOutcome {
    pub fn is_complete(self) -> bool
        ensures { IsTrue result ↔ IsComplete self }
    {
        matches!(self, SweepOutcome::Complete { .. })
    }
}

/// Which requests each run of a sweep refuses.
#[derive(Clone, Copy)]
enum Refusals {
    /// The request with the number of the run alone.
    Alone,
    /// The request with the number of the run and all later ones.
    Onward,
}

impl Refusals {
    /// Returns the plan of the run of this number.
    fn plan(self, request: u64) -> Plan
        ensures { result ≡ plan_by self request }
    {
        match self {
            Refusals::Alone => Plan::Once(request),
            Refusals::Onward => Plan::From(request),
        }
    }
}

/// Calls `run` with an allocator over `inner` for each of the plans of the runs 1, 2, and so on.
/// Ends when no request is refused in a call, when a call returns that it did not behave well, or
/// after `runs` calls. The first, second and third case are `Complete`, `Misbehaved` and
/// `OutOfRuns`.
fn swept<B: Allocator + Copy, F: FnMut(&Failing<B>) -> bool>(
    inner: B,
    runs: u64,
    refusals: Refusals,
    mut run: F,
) -> SweepOutcome
    requires { F.IsAlwaysCallable run }
    ensures { SweepsTo F.FnMut inner (plan_by refusals) run runs result }
{
    for earlier in 0..runs {
        let request = earlier + 1;
        let heap = Failing::new(inner, refusals.plan(request));
        if !run(&heap) {
            return SweepOutcome::Misbehaved { request };
        }
        if !heap.was_refused() {
            return SweepOutcome::Complete { runs: request };
        }
    }
    SweepOutcome::OutOfRuns
}

/// Calls `run` with an allocator over `inner` that refuses request 1 alone, then with one that
/// refuses request 2 alone, and so on. Ends when no request is refused in a call, when a call
/// returns `false` since it did not behave well, or after `runs` calls.
pub fn sweep<B: Allocator + Copy, F: FnMut(&Failing<B>) -> bool>(
    inner: B,
    runs: u64,
    run: F,
) -> SweepOutcome
    requires { F.IsAlwaysCallable run }
    ensures { SweepsTo F.FnMut inner (plan_by Refusals.Alone) run runs result }
{
    swept(inner, runs, Refusals::Alone, run)
}

/// Calls `run` with an allocator over `inner` that refuses request 1 and all later ones, then with
/// one that refuses request 2 and all later ones, and so on. Ends when no request is refused in a
/// call, when a call returns `false` since it did not behave well, or after `runs` calls.
pub fn sweep_onward<B: Allocator + Copy, F: FnMut(&Failing<B>) -> bool>(
    inner: B,
    runs: u64,
    run: F,
) -> SweepOutcome
    requires { F.IsAlwaysCallable run }
    ensures { SweepsTo F.FnMut inner (plan_by Refusals.Onward) run runs result }
{
    swept(inner, runs, Refusals::Onward, run)
}
