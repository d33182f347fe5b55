//! The outcome of a source for an entry.
ghost use Rattle.std.specs.Prelude.{◌≡◌, List};
ghost use Rattle.abt_actor.specs.Actor.{actor_of};
ghost use Rattle.abt_cell.specs.Channel.{Channel};
ghost use Rattle.abt_facts.specs.declared.fact.Fact.{Fact};
ghost use Rattle.abt_model.specs.declared.target.SourceEvent.TheVariants.{Told};
ghost use Rattle.abt_audit.specs.Protocol as spec;
ghost use Rattle.abt_audit.specs.Protocol.{own_answer, own_facts, facts_past, answer_in, facts_through};

use abt_actor::SourceActor;
use abt_cell::{Answer, Vc};
use abt_model::{Heard, Outcome, SourceCommand, SourceEntry, SourceEvent, Target};

// Tells a source the answer to the request of a number. It hears that to the request that it waits for, which it repeats.
fn hear(actor: &mut SourceActor, seq: u32, granted: bool) -> Outcome
    ensures { (vc : Channel) (facts : List Fact) → actor.old ≡ actor_of vc facts →
        (result ≡ own_answer vc facts (Told seq granted)) ×
        (actor.new ≡ actor_of vc (own_facts vc facts (Told seq granted))) }
{
    if actor.awaited() != Some(seq) {
        return Outcome::Told(Heard::Ignored);
    }
    match actor.step(&SourceCommand::Again) {
        Outcome::Repeated(request) => {
            actor.step(&SourceCommand::Told(Answer::of(&request, granted)))
        }
        other => other,
    }
}

// Has a source do something, or be told it.
fn obey(actor: &mut SourceActor, event: &SourceEvent) -> Outcome
    ensures { (vc : Channel) (facts : List Fact) → actor.old ≡ actor_of vc facts →
        (result ≡ own_answer vc facts event.now) × (actor.new ≡ actor_of vc (own_facts vc facts event.now)) }
{
    match *event {
        SourceEvent::Start { now } => actor.step(&SourceCommand::Start { now }),
        SourceEvent::Ask { rate, plan } => actor.step(&SourceCommand::Ask { rate, plan }),
        SourceEvent::Again => actor.step(&SourceCommand::Again),
        SourceEvent::Crash => actor.step(&SourceCommand::Crash),
        SourceEvent::Emit { now } => actor.step(&SourceCommand::Emit { now }),
        SourceEvent::Told { seq, granted } => hear(actor, seq, granted),
    }
}

// Has a source do what an entry says, if it says that it was to do something.
pub(crate) fn go_on(actor: &mut SourceActor, entry: &SourceEntry) -> Option<Outcome>
    ensures { (vc : Channel) (facts : List Fact) → actor.old ≡ actor_of vc facts →
        (result ≡ answer_in vc facts entry.now) × (actor.new ≡ actor_of vc (facts_past vc facts entry.now)) }
{
    let SourceEntry::Did(event, _) = entry else {
        return None;
    };
    match event.target() {
        Target::Source { event, .. } => Some(obey(actor, &event)),
        Target::Hop { .. } | Target::End { .. } | Target::Port { .. } => None,
    }
}

// The source of a connection that was to do all that these entries say.
fn actor_after(vc: Vc, entries: &[SourceEntry]) -> SourceActor
    ensures { result ≡ actor_of vc (facts_through vc entries.now) }
{
    let mut actor = SourceActor::new(vc);
    for entry in entries {
        go_on(&mut actor, entry);
    }
    actor
}

// The outcome that a source gives for the entry of a place, after the entries before it; `None` if the entry is no
// deed of the source.
pub(crate) fn source_answer(vc: Vc, entries: &[SourceEntry], place: u64) -> Option<Outcome>
    ensures { result ≡ spec.source_answer vc entries.now place }
{
    let place = place as usize;
    let entry = entries.get(place)?;
    let mut actor = actor_after(vc, &entries[..place]);
    go_on(&mut actor, entry)
}
