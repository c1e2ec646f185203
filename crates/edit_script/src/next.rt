//! Questions for the names that may stand at a place.

ghost use Rattle.std.specs.Prelude.{◌≡◌, IfOk};
ghost use Rattle.std.specs.Option.{option_copied};
ghost use Rattle.edit_script.specs.Commands as script;

use crate::fields::{has_space, number, split};
use crate::{Command, ScriptFault};

/// A node and a place among its children, which are the only fields.
pub(crate) fn read_next(rest: Option<&str>) -> Result<Command, ScriptFault>
    ensures gives { result ≡ script.next (option_copied rest.entry) }
    ensures ready { IfOk result script.IsReady }
{
    let Some(rest) = rest else {
        return Err(ScriptFault::WrongFields);
    };
    let Some((parent, index)) = split(rest) else {
        return Err(ScriptFault::WrongFields);
    };
    if has_space(index) {
        return Err(ScriptFault::WrongFields);
    }
    let parent = number(parent)?;
    let index = number(index)?;
    Ok(Command::Next { parent, index })
}
