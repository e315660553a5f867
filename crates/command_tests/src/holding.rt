//! A watch that shows that three workers are at work at once.

use outside::Watch;
use std::sync::atomic::{AtomicBool, Ordering};

/// How many times a held piece checks whether a piece 2 has started.
const TURNS: u64 = 1_000_000_000;

/// Holds each piece of a pricing, except piece 2, until a piece 2 has started, for at most `turns` checks. `in_vain` becomes true if some
/// piece used up its checks.
#[derive(Drop)]
pub(crate) struct Holding {
    turns: u64,
    started: AtomicBool,
    in_vain: AtomicBool,
}

impl Holding {
    /// Returns a watch that holds pieces 0 and 1 until piece 2 starts, or one that holds nothing.
    pub(crate) fn of(holds: bool) -> Holding {
        Holding {
            turns: if holds { TURNS } else { 0 },
            started: AtomicBool::new(false),
            in_vain: AtomicBool::new(false),
        }
    }

    /// Returns what to say of a watch that holds: whether a piece 2 started, and each piece was held until then.
    pub(crate) fn word(&self) -> &'static str {
        if self.turns == 0 {
            ""
        } else if self.started.load(Ordering::SeqCst) && !self.in_vain.load(Ordering::SeqCst) {
            ", held until the third started"
        } else {
            ", held in vain"
        }
    }
}

impl Watch for Holding {
    fn piece(&self, number: u64) {
        if number == 2 {
            self.started.store(true, Ordering::SeqCst);
            return;
        }
        for _ in 0..self.turns {
            if self.started.load(Ordering::SeqCst) {
                return;
            }
        }
        self.in_vain.store(true, Ordering::SeqCst);
    }
}
