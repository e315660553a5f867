//! Tests whether a bundle's weights sum to its total.

ghost use Rattle.std.specs.Prelude.{◌↔◌, IsTrue};
ghost use Rattle.define_pools.specs.Lottery.{TotalAgrees};

use bundle_text::Bundle;

/// True if the weights of the bundle's lottery sum to its total.
pub fn total_agrees(bundle: &Bundle) -> bool
    ensures { IsTrue result ↔ TotalAgrees bundle.now.answer.lottery }
{
    bundle.answer().lottery().weights_sum_to_total()
}
