//! Where a command reads from: the input that is there, or a file in its place.
ghost use Rattle.std.specs.Prelude.{◌≡◌, Some, IfErr, IfOk, option_map, string_bytes};
ghost use Rattle.abt_commands.specs.Ends.{IsInputOf};

use crate::opening::{Unopened, open_named};
use abt_progress::{Progress, Watched};
use std::io::Write;
use std::rt::Files;

// Where a command reads from.
pub(crate) enum Input<F> {
    // The input that is there.
    Here,
    // A file in its place.
    File(F),
}

// The file that may be named, counted as it is read, or else the input that is there.
pub(crate) fn opened<'a, 'b, T: Files, P: Write + Drop>(
    rt: &T,
    progress: &'a Progress<P>,
    file: &'b Option<String>,
) -> Result<Input<Watched<'a, T::File, P>>, Unopened<'b>>
    ensures ok { IfOk result (IsInputOf (option_map string_bytes file.now)) }
    ensures err { IfErr result (λ unopened. option_map string_bytes file.now ≡ Some unopened.name.now) }
{
    let Some(name) = file else {
        return Ok(Input::Here);
    };
    match open_named(rt, name.as_str()) {
        Ok(file) => Ok(Input::File(Watched::new(file, progress))),
        Err(unopened) => Err(unopened),
    }
}
