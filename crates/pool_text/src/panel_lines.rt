//! The line of a panel by the ids of its members. A draw prints it.

ghost use Rattle.std.specs.Prelude.{◌≡◌, ◌++◌, ◌∷◌, [], codes, length, map, nat_lt, IsTrue, OnOk};
ghost use Rattle.std.specs.List.{list_all};
ghost use Rattle.define_lines.specs.Lines.{line_of, text_of};
ghost use Rattle.define_pools.specs.Pool.{volunteer};

use pool_model::{Panel, Pool};
use std::alloc::AllocError;
use text_lines::{end_line, push_field};

/// Appends the line of a panel: the ids of its members.
pub fn push_panel(text: &mut Vec<u8>, pool: &Pool, panel: &Panel) -> Result<(), AllocError>
    requires { IsTrue (list_all (λ i. nat_lt i (length pool.now.volunteers)) panel.now) }
    ensures { OnOk result (text.new.items ≡ text.old.items ++ text_of (line_of (codes "panel" ∷ map (λ i. (volunteer pool.now.volunteers i).id) panel.now) ∷ [])) }
{
    text.extend_from_slice(b"panel")?;
    for number in panel.members() {
        push_field(text, pool.volunteers()[*number].id().as_bytes())?;
    }
    end_line(text)
}
