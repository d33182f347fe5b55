//! A command line, read and carried out.
ghost use Rattle.std.specs.Prelude.{◌≡◌, true, IfOk, IfSome};
ghost use Rattle.abt_perform.specs.Plans.{IsWithinLimits};

use abt_cli::plan_words;
use abt_perform::{Plan, WordsFault};
use std::alloc::Global;

/// The plan of a command line: a capacity and a number of workers in it are within their limits.
pub fn plan_of<'a>(alloc: Global, words: &'a [&'a str]) -> Result<Plan, WordsFault>
    ensures { IfOk result IsWithinLimits }
{
    let plan = plan_words(alloc, words)?;
    Ok(plan)
}
