ghost use Rattle.std.specs.Prelude.{◌↔◌, IsTrue};
ghost use Rattle.kit_alloc.specs.Plan.{Refuses};

/// Which requests an allocator refuses. Requests are counted from 1.
#[derive(Clone, Copy, Debug, PartialEq, Eq)]
pub enum Plan {
    /// No request is refused.
    Never,
    /// This request alone is refused.
    Once(u64),
    /// This request and each later one is refused.
    From(u64),
}

impl Plan {
    /// Returns whether the request of this number is refused.
    pub fn refuses(self, request: u64) -> bool
        ensures { IsTrue result ↔ Refuses self request }
    {
        match self {
            Plan::Never => false,
            Plan::Once(refused) => request == refused,
            Plan::From(first) => first <= request,
        }
    }
}
