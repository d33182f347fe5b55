//! A request in a cell, answered in a cell.
ghost use Rattle.std.specs.Prelude.{◌≡◌, false, IsSomeAnd};
ghost use Rattle.abt_cell.specs.Message.{Terms, answer_to};
ghost use Rattle.abt_cell.specs.Reading.{Reads};

use abt_cell::{Answer, Cell, Rm, read_rm, write_rm};

/// The cell that refuses the request which a cell carries; `None` if it carries none.
pub fn refusal_of(cell: &Cell) -> Option<Cell>
    ensures { (request : Terms) → Reads cell.now (Rm.Request request) →
        IsSomeAnd result (λ back. Reads back (Rm.Answer (answer_to request false))) }
{
    match &read_rm(cell).ok()? {
        Rm::Request(request) => Some(write_rm(&Rm::Answer(Answer::of(request, false)))),
        Rm::Answer(_) => None,
    }
}
