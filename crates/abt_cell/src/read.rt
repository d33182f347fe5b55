//! RM cells, read.

ghost use Rattle.std.specs.Prelude.{◌≡◌, Ok, IfOk, IfErr};
ghost use Rattle.abt_cell.specs.Codec.{read_of};
ghost use Rattle.abt_cell.specs.Reading.{Reads, IsFirstFault};
ghost use Rattle.abt_cell.specs.declared.message.Rm.{Rm};

use crate::cell::Cell;
use crate::crc::is_multiple;
use crate::fault::RmFault;
use crate::layout::{
    ABT, ACKNOWLEDGEMENT, ASK, CONGESTION, DIRECTION, FLOOR, MAINTENANCE, PROTOCOL, RIGID, RM_CELL,
    SEQ,
};
use crate::message::{Answer, Request, Rm};
use abt_rate::Rate;

/// What an RM cell says, or the first of its faults in the order of [`RmFault`]. Fields that carry nothing are read at any
/// value, and rate codes by their value, canonical or not (docs/FORMATS.md, "The RM cell").
#[tactic(auto, unfolding(crate::specs::Codec::read_of))]
pub fn read_rm(cell: &Cell) -> Result<Rm, RmFault>
    ensures value { result ≡ read_of cell.now }
    ensures ok { IfOk result (Reads cell.now) }
    ensures only { (rm : Rm) → Reads cell.now rm → result ≡ Ok rm }
    ensures err { IfErr result (IsFirstFault cell.now) }
{
    if cell.pti() != RM_CELL {
        return Err(RmFault::NotRm);
    }
    if !is_multiple(&cell.payload()) {
        return Err(RmFault::Crc);
    }
    if cell.octet(PROTOCOL) != ABT {
        return Err(RmFault::Protocol);
    }
    if cell.flag(MAINTENANCE) {
        return Err(RmFault::Maintenance);
    }
    if !cell.flag(RIGID) {
        return Err(RmFault::Elastic);
    }
    let is_answer = cell.flag(ACKNOWLEDGEMENT);
    if cell.flag(DIRECTION) != is_answer {
        return Err(RmFault::Direction);
    }
    let seq = cell.long_at(SEQ);
    if seq == 0 {
        return Err(RmFault::SeqZero);
    }
    let ask = Rate::from_code(cell.word_at(ASK));
    let floor = Rate::from_code(cell.word_at(FLOOR));
    let Some(request) = Request::new(cell.vc(), seq, floor, ask) else {
        return Err(RmFault::RateOrder);
    };
    if is_answer {
        Ok(Rm::Answer(Answer::of(&request, !cell.flag(CONGESTION))))
    } else {
        Ok(Rm::Request(request))
    }
}
