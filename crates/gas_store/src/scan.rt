use kv_layers::{Bounds, Order};

/// A scan's bounds, which are narrowed past what it gave, and its order.
#[derive(Debug, Drop)]
pub struct Scan {
    pub(crate) bounds: Bounds,
    pub(crate) order: Order,
    /// How many bytes the bounds had when it began.
    pub(crate) given: usize,
}
