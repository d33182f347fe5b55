//! Cells at a port with a table of its connections, for C.
ghost use Rattle.std.specs.Prelude.{◌≡◌, ◌≢◌, ◌≤◌, ◌↔◌, MatchResult, length};
ghost use Rattle.abt_cell.specs.Codec.{read_of, written_of};
ghost use Rattle.abt_cell.specs.declared.message.Rm.TheVariants.{Request as RequestRm, Answer as AnswerRm};
ghost use Rattle.abt_c.specs.Outcome.{first_fault, rm_number, no_state, wrong_length, damaged};
ghost use Rattle.abt_c.specs.Tables.{HasHead, IsTable};
ghost use Rattle.abt_c.specs.TableCells.{IsServed};

use crate::outcome::{self, DAMAGED, NO_STATE, PASS, REFUSE, WRONG_LENGTH};
use crate::table_state::AbtTable;
use abt_cell::{Answer, Cell, Request, Rm, read_rm, write_rm};
use abt_node::{Back, Onward};

/// Takes a cell of 52 octets that came to the port: a request that came forward, or an answer that came backward. The cell that is to be sent,
/// onward or back, comes out.
#[unsafe(no_mangle)]
pub extern "C" fn abt_raw_table_cell(table: &mut AbtTable, cell: &[u8], sent: &mut [u8]) -> u32
    ensures no_state { (result ≡ no_state) ↔ (¬ HasHead table.old) }
    ensures wrong_length { (result ≡ wrong_length) ↔
        (HasHead table.old × ¬ ((length cell.now ≡ 52) × (length sent.old ≡ 52))) }
    ensures value { HasHead table.old → length cell.now ≡ 52 → length sent.old ≡ 52 →
        MatchResult (read_of cell.now)
        (λ said. IsServed said table.old table.new sent.old sent.new result)
        (λ fault. result ≡ rm_number fault) }
    ensures state { IsTable table.old → IsTable table.new }
    ensures whole { IsTable table.old → result ≢ damaged }
    ensures same { first_fault ≤ result → (table.new ≡ table.old) × (sent.new ≡ sent.old) }
{
    if !table.has_head() {
        return NO_STATE;
    }
    if sent.len() != 52 {
        return WRONG_LENGTH;
    }
    let Ok(cell) = Cell::from_octets(cell) else {
        return WRONG_LENGTH;
    };
    let said = match read_rm(&cell) {
        Ok(said) => said,
        Err(fault) => return outcome::of_rm_fault(fault),
    };
    match said {
        Rm::Request(request) => serve_request(table, &request, sent),
        Rm::Answer(answer) => serve_answer(table, &answer, sent),
    }
}

// Decides a request, and puts the cell that is to be sent.
fn serve_request(table: &mut AbtTable, request: &Request, sent: &mut [u8]) -> u32
    requires head { HasHead table.old }
    requires room { length sent.old ≡ 52 }
    ensures value { IsServed (RequestRm request.now) table.old table.new sent.old sent.new result }
    ensures state { IsTable table.old → IsTable table.new }
    ensures whole { IsTable table.old → result ≢ damaged }
    ensures same { first_fault ≤ result → (table.new ≡ table.old) × (sent.new ≡ sent.old) }
    ensures kind { (result ≢ no_state) × (result ≢ wrong_length) }
{
    let Some(onward) = table.request(request) else {
        return DAMAGED;
    };
    match onward {
        Onward::Pass => {
            put(&Rm::Request(*request), sent);
            PASS
        }
        Onward::Refuse(no) => {
            put(&Rm::Answer(no), sent);
            REFUSE
        }
        Onward::Drop(cause) => outcome::of_drop(cause),
    }
}

// Takes an answer, and puts the cell that is to be sent.
fn serve_answer(table: &mut AbtTable, answer: &Answer, sent: &mut [u8]) -> u32
    requires head { HasHead table.old }
    requires room { length sent.old ≡ 52 }
    ensures value { IsServed (AnswerRm answer.now) table.old table.new sent.old sent.new result }
    ensures state { IsTable table.old → IsTable table.new }
    ensures whole { IsTable table.old → result ≢ damaged }
    ensures same { first_fault ≤ result → (table.new ≡ table.old) × (sent.new ≡ sent.old) }
    ensures kind { (result ≢ no_state) × (result ≢ wrong_length) }
{
    let Some(back) = table.answer(answer) else {
        return DAMAGED;
    };
    match back {
        Back::Pass => {
            put(&Rm::Answer(*answer), sent);
            PASS
        }
        Back::Drop(cause) => outcome::of_drop(cause),
    }
}

// Writes the cell of a message.
fn put(rm: &Rm, octets: &mut [u8])
    requires { length octets.old ≡ 52 }
    ensures { octets.new ≡ written_of rm.now }
{
    octets.copy_from_slice(&write_rm(rm).to_octets());
}
