//! The first stage of a bundle whose numbers no line of a proof can hold.

ghost use Rattle.std.specs.List.{position};
ghost use Rattle.std.specs.Prelude.{◌≡◌, ◌<◌, IfSome, length, not};
ghost use Rattle.command_meanings.specs.Prove.{first_beyond as first_stage_beyond};
ghost use Rattle.define_proofs.specs.LeafSums.{is_stage_in_reach};

use check_proofs::is_in_reach;
use pool_model::Stage;

/// Returns the number of the first stage whose reach is above 2^56, counted from 1, if there is one.
pub(crate) fn first_beyond(stages: &[Stage]) -> Option<usize>
    ensures { result ≡ first_stage_beyond stages.now }
{
    match place_beyond(stages) {
        Some(place) => Some(place + 1),
        None => None,
    }
}

/// Returns the place of the first stage whose reach is above 2^56, if there is one.
fn place_beyond(stages: &[Stage]) -> Option<usize>
    ensures place { result ≡ position (λ stage. not (is_stage_in_reach stage)) stages.now }
    ensures within { IfSome result (λ place. place < length stages.now) }
{
    stages.iter().position(|stage| !is_in_reach(stage))
}
