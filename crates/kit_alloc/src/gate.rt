ghost use Rattle.std.specs.Prelude.{◌≡◌};
ghost use Rattle.kit_alloc.specs.Plan.{IsAnswer};

use crate::plan::Plan;
use std::sync::atomic::{AtomicU64, Ordering};

// Counts the requests of an allocator and the blocks that are freed, from any thread, and says
// which requests are refused.
#[derive(Drop)]
pub(crate) struct Gate {
    plan: Plan,
    requests: AtomicU64,
    refused: AtomicU64,
    returned: AtomicU64,
}

impl Gate {
    pub(crate) fn new(plan: Plan) -> Gate
        ensures { result.plan ≡ plan }
    {
        Gate {
            plan,
            requests: AtomicU64::new(0),
            refused: AtomicU64::new(0),
            returned: AtomicU64::new(0),
        }
    }

    pub(crate) fn plan(&self) -> Plan
        ensures { result ≡ self.now.plan }
    {
        self.plan
    }

    // Counts a request, and returns whether the plan refuses it. Other threads count too, so its
    // number may be any from 1 on.
    pub(crate) fn refuses_next(&self) -> bool
        ensures { IsAnswer self.now.plan result }
    {
        let request = self
            .requests
            .fetch_add(1, Ordering::SeqCst)
            .saturating_add(1);
        let refuses = self.plan.refuses(request);
        if refuses {
            self.refused.fetch_add(1, Ordering::SeqCst);
        }
        refuses
    }

    pub(crate) fn requests(&self) -> u64 {
        self.requests.load(Ordering::SeqCst)
    }

    pub(crate) fn refused(&self) -> u64 {
        self.refused.load(Ordering::SeqCst)
    }

    pub(crate) fn counts_returned(&self) {
        self.returned.fetch_add(1, Ordering::SeqCst);
    }

    pub(crate) fn returned(&self) -> u64 {
        self.returned.load(Ordering::SeqCst)
    }
}
