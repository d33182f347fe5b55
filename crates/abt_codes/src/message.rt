//! Requests and answers by their words.
ghost use Rattle.std.specs.Prelude.{◌≡◌, ◌<◌, ◌^◌, Ok, string_bytes};
ghost use Rattle.abt_text.specs.Words.{number_below};
ghost use Rattle.abt_cell.specs.Codec.{read_of, written_of};
ghost use Rattle.abt_codes.specs.Message.{rm_in, rm_of, rm_with};

use crate::fault::CodesFault;
use abt_cell::{Answer, Request, Rm, Vc};
use abt_format::rate_of;
use abt_rate::Rate;
use abt_text::{u16_of, u32_of};

/// Which message it is.
#[derive(Clone, Copy, Debug, PartialEq, Eq)]
pub enum Kind {
    /// A request, forward.
    Request,
    /// The yes to a request, backward.
    Yes,
    /// The no to a request, backward.
    No,
}

/// The words of a message.
#[derive(Drop)]
pub struct MessageWords {
    /// Which message it is.
    pub kind: Kind,
    /// The virtual path identifier, below 2^12.
    pub vpi: String,
    /// The virtual channel identifier, below 2^16.
    pub vci: String,
    /// The sequence number, from 1, below 2^32.
    pub seq: String,
    /// The code of the floor.
    pub floor: String,
    /// The code of the asked rate, which isn't below the floor.
    pub ask: String,
}

/// The message that words say, or the fault of the first word that is wrong (docs/FORMATS.md, "Cells in words").
pub fn rm_in(words: &MessageWords) -> Result<Rm, CodesFault>
    ensures { result ≡ rm_in words.now }
{
    let vpi = vpi_of(words.vpi.as_str()).ok_or(CodesFault::Vpi)?;
    let vci = u16_of(words.vci.as_str()).ok_or(CodesFault::Vci)?;
    let seq = u32_of(words.seq.as_str()).ok_or(CodesFault::Seq)?;
    let floor = rate_of(words.floor.as_str()).ok_or(CodesFault::Floor)?;
    let ask = rate_of(words.ask.as_str()).ok_or(CodesFault::Ask)?;
    rm_with(words.kind, vpi, vci, seq, floor, ask)
}

fn vpi_of(word: &str) -> Option<u16>
    ensures { result ≡ number_below (2 ^ 12) word.now }
{
    match u16_of(word) {
        Some(vpi) if vpi < 4096 => Some(vpi),
        _ => None,
    }
}

fn rm_with(
    kind: Kind,
    vpi: u16,
    vci: u16,
    seq: u32,
    floor: Rate,
    ask: Rate,
) -> Result<Rm, CodesFault>
    requires { vpi < 2 ^ 12 }
    ensures { result ≡
        rm_with kind (record { vc = record { vpi = vpi; vci = vci }; seq = seq; floor = floor; ask = ask }) }
{
    if seq == 0 {
        return Err(CodesFault::SeqZero);
    }
    let Some(vc) = Vc::new(vpi, vci) else {
        unreachable!()
    };
    match Request::new(vc, seq, floor, ask) {
        Some(request) => Ok(rm_of(kind, request)),
        None => Err(CodesFault::RateOrder),
    }
}

// A request, or the yes or the no to it.
fn rm_of(kind: Kind, request: Request) -> Rm
    ensures { result ≡ rm_of kind request }
{
    match kind {
        Kind::Request => Rm::Request(request),
        Kind::Yes => Rm::Answer(Answer::of(&request, true)),
        Kind::No => Rm::Answer(Answer::of(&request, false)),
    }
}
