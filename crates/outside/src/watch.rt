//! A watch is told when pieces of work start. `pricing_pool` tells it.

/// Is told of each piece of work as a worker starts it. What a watch does then changes no result, and no contract promises that it is
/// called.
pub trait Watch {
    /// Is called as piece `number` is about to start. Pieces are counted from 0 in each pricing.
    fn piece(&self, number: u64);
}

/// A watch that does nothing.
#[derive(Clone, Copy, Debug)]
pub struct NoWatch;

impl Watch for NoWatch {
    fn piece(&self, _number: u64) {}
}
