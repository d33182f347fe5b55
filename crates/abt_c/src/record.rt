//! The records of requests and answers that C programs see.
ghost use Rattle.std.specs.Prelude.{◌≡◌, ◌≢◌, ◌↔◌, IsOk, IfOk, IsErrOf};
ghost use Rattle.abt_c.specs.Records.{rm_in, terms_in, record_of, kind_of, HasKind, HasVpi, HasSeq, IsMessage, reply_in, HasAnswerKind, IsAnswer, IsRequest, request_kind};

use abt_cell::{Answer, Request, Rm, Vc};
use abt_rate::Rate;

const REQUEST: u32 = 1;

const YES: u32 = 2;

const NO: u32 = 3;

/// A request or an answer. Rates are codes.
#[repr(C)]
#[derive(Clone, Copy)]
pub struct AbtRm {
    pub kind: u32,
    pub seq: u32,
    pub vpi: u16,
    pub vci: u16,
    pub floor: u16,
    pub ask: u16,
}

/// What a record lacks of a message.
#[derive(Drop)]
pub enum Lacks {
    Kind,
    Vpi,
    Seq,
    Order,
}

impl AbtRm {
    /// The record of a message.
    pub fn of(rm: &Rm) -> AbtRm
        ensures { result ≡ record_of rm.now }
    {
        let request = rm.request();
        AbtRm {
            kind: kind_of(rm),
            seq: request.seq(),
            vpi: request.vc().vpi(),
            vci: request.vc().vci(),
            floor: request.floor().code(),
            ask: request.ask().code(),
        }
    }

    // The request that the record makes or answers.
    fn request(&self) -> Result<Request, Lacks>
        ensures ok { IsOk result ↔ IsMessage self.now }
        ensures value { IfOk result (λ request. request ≡ terms_in self.now) }
        ensures kind { IsErrOf result Lacks.Kind ↔ (¬ HasKind self.now) }
        ensures vpi { IsErrOf result Lacks.Vpi ↔ (HasKind self.now × ¬ HasVpi self.now) }
        ensures seq { IsErrOf result Lacks.Seq ↔ (HasVpi self.now × ¬ HasSeq self.now) }
        ensures order { IsErrOf result Lacks.Order ↔ (HasSeq self.now × ¬ IsMessage self.now) }
    {
        if self.kind == 0 || self.kind > NO {
            return Err(Lacks::Kind);
        }
        let Some(vc) = Vc::new(self.vpi, self.vci) else {
            return Err(Lacks::Vpi);
        };
        if self.seq == 0 {
            return Err(Lacks::Seq);
        }
        let floor = Rate::from_code(self.floor);
        let ask = Rate::from_code(self.ask);
        Request::new(vc, self.seq, floor, ask).ok_or(Lacks::Order)
    }

    /// The message that the record says.
    ///
    /// # Errors
    /// The first that it lacks.
    pub fn message(&self) -> Result<Rm, Lacks>
        ensures ok { IsOk result ↔ IsMessage self.now }
        ensures value { IfOk result (λ rm. rm ≡ rm_in self.now) }
        ensures kind { IsErrOf result Lacks.Kind ↔ (¬ HasKind self.now) }
        ensures vpi { IsErrOf result Lacks.Vpi ↔ (HasKind self.now × ¬ HasVpi self.now) }
        ensures seq { IsErrOf result Lacks.Seq ↔ (HasVpi self.now × ¬ HasSeq self.now) }
        ensures order { IsErrOf result Lacks.Order ↔ (HasSeq self.now × ¬ IsMessage self.now) }
    {
        let request = self.request()?;
        if self.kind == REQUEST {
            return Ok(Rm::Request(request));
        }
        Ok(Rm::Answer(Answer::of(&request, self.kind == YES)))
    }

    /// The request that the record says.
    ///
    /// # Errors
    /// The first thing that it lacks; the kind of an answer is one.
    pub fn asked(&self) -> Result<Request, Lacks>
        ensures ok { IsOk result ↔ IsRequest self.now }
        ensures value { IfOk result (λ request. request ≡ terms_in self.now) }
        ensures kind { IsErrOf result Lacks.Kind ↔ (self.now.kind ≢ request_kind) }
        ensures vpi { IsErrOf result Lacks.Vpi ↔ ((self.now.kind ≡ request_kind) × ¬ HasVpi self.now) }
        ensures seq { IsErrOf result Lacks.Seq ↔
            ((self.now.kind ≡ request_kind) × HasVpi self.now × ¬ HasSeq self.now) }
        ensures order { IsErrOf result Lacks.Order ↔
            ((self.now.kind ≡ request_kind) × HasSeq self.now × ¬ IsMessage self.now) }
    {
        if self.kind != REQUEST {
            return Err(Lacks::Kind);
        }
        self.request()
    }

    /// The answer that the record says.
    ///
    /// # Errors
    /// The first thing that it lacks; the kind of a request is one.
    pub fn answer(&self) -> Result<Answer, Lacks>
        ensures ok { IsOk result ↔ IsAnswer self.now }
        ensures value { IfOk result (λ answer. answer ≡ reply_in self.now) }
        ensures kind { IsErrOf result Lacks.Kind ↔ (¬ HasAnswerKind self.now) }
        ensures vpi { IsErrOf result Lacks.Vpi ↔ (HasAnswerKind self.now × ¬ HasVpi self.now) }
        ensures seq { IsErrOf result Lacks.Seq ↔
            (HasAnswerKind self.now × HasVpi self.now × ¬ HasSeq self.now) }
        ensures order { IsErrOf result Lacks.Order ↔
            (HasAnswerKind self.now × HasSeq self.now × ¬ IsMessage self.now) }
    {
        if self.kind == REQUEST {
            return Err(Lacks::Kind);
        }
        let request = self.request()?;
        Ok(Answer::of(&request, self.kind == YES))
    }
}

fn kind_of(rm: &Rm) -> u32
    ensures { result ≡ kind_of rm.now }
{
    match rm {
        Rm::Request(_) => REQUEST,
        Rm::Answer(answer) if answer.granted() => YES,
        Rm::Answer(_) => NO,
    }
}
