//! The text of a panel: a line that there is one, and its members' ids.

ghost use Rattle.std.specs.Prelude.{◌≡◌, ◌++◌, IfOk, OnOk};
ghost use Rattle.command_meanings.specs.Why.{id_line, panel_text as words_of_panel};

use pool_model::{Panel, Pool};
use std::alloc::{AllocError, Global};

/// Returns the text of a panel.
pub(crate) fn panel_text(alloc: Global, pool: &Pool, panel: &Panel) -> Result<Vec<u8>, AllocError>
    ensures { IfOk result (λ text. text.items ≡ words_of_panel pool.now panel.now) }
{
    let mut text = Vec::new(alloc);
    text.extend_from_slice(b"a panel exists\n")?;
    for number in panel.members() {
        push_id(&mut text, pool, *number)?;
    }
    Ok(text)
}

/// Adds the line of a volunteer's id.
fn push_id(text: &mut Vec<u8>, pool: &Pool, number: usize) -> Result<(), AllocError>
    ensures { OnOk result (text.new.items ≡ text.old.items ++ id_line pool.now number) }
{
    if let Some(volunteer) = pool.volunteers().get(number) {
        text.extend_from_slice(volunteer.id().as_bytes())?;
    }
    text.push(b'\n')?;
    Ok(())
}
