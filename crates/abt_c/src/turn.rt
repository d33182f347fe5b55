//! The end of a path, for C: a request that the last port passed is turned into a yes.
ghost use Rattle.std.specs.Prelude.{◌≡◌, ◌≢◌, ◌↔◌, true};
ghost use Rattle.abt_cell.specs.Message.{answer_to};
ghost use Rattle.abt_cell.specs.declared.message.Rm.TheVariants.{Answer as AnswerRm};
ghost use Rattle.abt_cell.specs.declared.fault.RmFault.TheVariants.{SeqZero, RateOrder};
ghost use Rattle.abt_c.specs.Outcome.{done, rm_number, wrong_kind, vpi_range};
ghost use Rattle.abt_c.specs.Records.{record_of, terms_in, request_kind, HasVpi, HasSeq, IsMessage, IsRequest};

use crate::outcome::{self, DONE};
use crate::record::AbtRm;
use abt_cell::{Answer, Rm};

/// Gives the yes to a request that the last port of its path passed.
#[unsafe(no_mangle)]
pub extern "C" fn abt_raw_rm_turn(rm: &AbtRm, yes: &mut AbtRm) -> u32
    ensures wrong_kind { (result ≡ wrong_kind) ↔ (rm.now.kind ≢ request_kind) }
    ensures vpi_range { (result ≡ vpi_range) ↔ ((rm.now.kind ≡ request_kind) × ¬ HasVpi rm.now) }
    ensures seq_zero { (result ≡ rm_number SeqZero) ↔
        ((rm.now.kind ≡ request_kind) × HasVpi rm.now × ¬ HasSeq rm.now) }
    ensures rate_order { (result ≡ rm_number RateOrder) ↔
        ((rm.now.kind ≡ request_kind) × HasSeq rm.now × ¬ IsMessage rm.now) }
    ensures done { (result ≡ done) ↔ IsRequest rm.now }
    ensures value { result ≡ done → yes.new ≡ record_of (AnswerRm (answer_to (terms_in rm.now) true)) }
    ensures same { result ≢ done → yes.new ≡ yes.old }
{
    match rm.asked() {
        Ok(request) => {
            *yes = AbtRm::of(&Rm::Answer(Answer::of(&request, true)));
            DONE
        }
        Err(lack) => outcome::of_lack(lack),
    }
}
