//! Whole plays.
ghost use Rattle.std.specs.Prelude.{◌≡◌, ◌++◌, List, IfErr, IfOk, OnOk};
ghost use Rattle.abt_model.specs.Run.{facts_after};
ghost use Rattle.abt_model.specs.declared.event.Event.{Event as EventSpec};
ghost use Rattle.abt_world.specs.Headline.{HeadlineHolds};
ghost use Rattle.abt_play.specs.Fitting.{CanPlay, IsWhyNone};
ghost use Rattle.abt_play.specs.Played.{IsPlay};
ghost use Rattle.abt_play.specs.Stage.{IsOnStage};

use crate::fault::{PlayFault, StopFault};
use crate::fitting::scripts_fit;
use crate::player::Player;
use crate::stage::Stage;
use abt_links::are_for_ports;
use abt_model::{Event, Operation, Script, Sequence, Trace};
use abt_net::Net;
use abt_plans::Chances;
use std::alloc::Global;

/// A play: events, and the trace of their run.
#[derive(Debug, Drop)]
pub struct Played {
    /// The events, in order. Each of them is enabled where it stands.
    pub events: Sequence<Event>,
    /// The outcomes of the events, and what they leave.
    pub trace: Trace,
}

/// Carries out the scripts of a net's sources, and the list of its operator, in one thread. Who comes next, which messages are lost and which
/// come twice is drawn with the words of a seed (docs/SCENARIOS.md, "Plays"). A command that isn't enabled when its turn comes is passed over.
///
/// # Errors
/// Scripts and operators that don't fit the net, as those of a run in threads; more than a million events; or want of memory.
pub fn play(
    alloc: Global,
    net: &Net,
    scripts: &[Script],
    operations: &[Operation],
    chances: &Chances,
) -> Result<Played, PlayFault>
    ensures play { IfOk result (IsPlay net.now) }
    ensures headline { IfOk result (λ played. (before after : List EventSpec) →
        before ++ after ≡ played.events → HeadlineHolds net.now (facts_after net.now before)) }
    ensures fit { OnOk result (CanPlay net.now scripts.now operations.now) }
    ensures err { IfErr result (IsWhyNone net.now scripts.now operations.now) }
{
    if !scripts_fit(net.conns(), scripts) {
        return Err(PlayFault::Scripts);
    }
    if !are_for_ports(net, operations) {
        return Err(PlayFault::Operator);
    }
    Ok(carry_out(alloc, net, scripts, operations, chances)?)
}

// Carries out scripts and operations until nobody can do anything more.
fn carry_out(
    alloc: Global,
    net: &Net,
    scripts: &[Script],
    operations: &[Operation],
    chances: &Chances,
) -> Result<Played, StopFault>
    ensures play { IfOk result (IsPlay net.now) }
    ensures headline { IfOk result (λ played. (before after : List EventSpec) →
        before ++ after ≡ played.events → HeadlineHolds net.now (facts_after net.now before)) }
{
    let stage = staged(alloc, net, scripts, operations, chances)?;
    Ok(stage.end(alloc)?)
}

// The stage behind the last turn.
fn staged<'net>(
    alloc: Global,
    net: &'net Net,
    scripts: &'net [Script],
    operations: &'net [Operation],
    chances: &Chances,
) -> Result<Stage<'net>, StopFault>
    ensures { IfOk result (IsOnStage net.now) }
{
    let mut player = Player::new(alloc, net, scripts, operations, chances)?;
    for _turn in 0..u64::MAX {
        if !player.turn()? {
            break;
        }
    }
    let Player { stage, .. } = player;
    Ok(stage)
}
