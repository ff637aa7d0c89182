ghost use Rattle.std.specs.Prelude.{◌≡◌};
ghost use Rattle.kv_layers.specs.Next.{comes_before};

/// Which way a scan goes over the keys.
#[derive(Clone, Copy, Debug, PartialEq, Eq)]
pub enum Order {
    Ascending,
    Descending,
}

impl Order {
    /// Whether a scan meets the first key before the second.
    pub fn comes_before(self, first: &[u8], second: &[u8]) -> bool
        ensures { result ≡ comes_before self first.now second.now }
    {
        match self {
            Order::Ascending => first < second,
            Order::Descending => second < first,
        }
    }
}
