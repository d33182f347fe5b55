//! A play under way.
ghost use Rattle.std.specs.Prelude.{◌≡◌, ◌↔◌, ◌<◌, IsTrue, IfOk, OnOk, vec_len};
ghost use Rattle.abt_net.specs.Topology.{Topology};
ghost use Rattle.abt_play.specs.Draws.{generator_of};
ghost use Rattle.abt_play.specs.Stage.{IsOnStage};
ghost use Rattle.abt_play.specs.Waiting.{CanHear};

use crate::command_events::event_of;
use crate::draws::Draws;
use crate::fault::StopFault;
use crate::followed::following;
use crate::hand::Hand;
use crate::inboxes::Inboxes;
use crate::parcel::Parcel;
use crate::stage::Stage;
use crate::under_way::UnderWay;
use abt_model::{Command, Event, Operation, Outcome, Script};
use abt_net::Net;
use abt_node::Onward;
use abt_plans::Chances;
use std::alloc::{AllocError, Global};

/// How often a request, and what follows it, may be repeated.
const REPEATS_MAX: u8 = 3;

/// A play under way: the net at work, and who can do something next.
#[derive(Drop)]
pub(crate) struct Player<'net> {
    pub(crate) net: &'net Net,
    pub(crate) stage: Stage<'net>,
    pub(crate) chances: Chances,
    pub(crate) draws: Draws,
    // The sources that have commands left.
    pub(crate) hands: Vec<Hand<'net>>,
    // The messages under way, in the order in which they were sent.
    pub(crate) parcels: UnderWay,
    // The answers that came to sources and that these haven't looked at.
    pub(crate) answers: Inboxes,
    // When the last cell of each connection arrived.
    pub(crate) arrivals: Vec<u64>,
    // The operations that are left.
    pub(crate) operations: &'net [Operation],
}

impl<'net> Player<'net> {
    // A play before its first event.
    pub(crate) fn new(
        alloc: Global,
        net: &'net Net,
        scripts: &'net [Script],
        operations: &'net [Operation],
        chances: &Chances,
    ) -> Result<Player<'net>, AllocError>
        ensures stage { IfOk result (λ player. IsOnStage net.now player.stage) }
        ensures draws { IfOk result (λ player. player.draws.generator ≡ generator_of chances.now.seed) }
        ensures chances { IfOk result (λ player. player.chances ≡ chances.now) }
    {
        Ok(Player {
            net,
            stage: Stage::new(alloc, net)?,
            chances: *chances,
            draws: Draws::new(chances.seed),
            hands: hands_of(alloc, scripts)?,
            parcels: UnderWay::new(alloc),
            answers: Inboxes::new(alloc),
            arrivals: zeros(alloc, net.conns().len())?,
            operations,
        })
    }

    // One of all who can do something next is drawn, and does it. False if nobody can.
    pub(crate) fn turn(&mut self) -> Result<bool, StopFault>
        ensures { (net : Topology) → IsOnStage net self.old.stage →
            OnOk result (IsOnStage net self.new.stage) }
    {
        let hands = self.hands.len();
        let parcels = self
            .parcels
            .len()
            .min((self.chances.delay as usize).saturating_add(1));
        let operations = self.operations.len().min(1);
        let choices = hands.saturating_add(parcels).saturating_add(operations);
        if choices == 0 {
            return Ok(false);
        }
        let choice = self.draws.below(choices);
        self.take_turn(choice, hands, parcels)?;
        Ok(true)
    }

    // Does what was drawn: a source acts, a message comes, or the operator acts.
    fn take_turn(&mut self, choice: usize, hands: usize, parcels: usize) -> Result<(), StopFault>
        ensures { (net : Topology) → IsOnStage net self.old.stage →
            OnOk result (IsOnStage net self.new.stage) }
    {
        if choice < hands {
            self.act(choice)
        } else if choice - hands < parcels {
            self.deliver(choice - hands)
        } else {
            self.operate()
        }
    }

    // A source carries out its next command, or looks for an answer.
    fn act(&mut self, place: usize) -> Result<(), StopFault>
        ensures { (net : Topology) → IsOnStage net self.old.stage →
            OnOk result (IsOnStage net self.new.stage) }
    {
        if place >= self.hands.len() {
            return Ok(());
        }
        let hand = self.hands[place];
        let Some((command, rest)) = hand.commands.split_first() else {
            return Ok(());
        };
        match *command {
            Command::Listen { turns } => self.listen(place, &hand, turns, rest),
            _ => {
                self.go_on(place, hand.conn, rest);
                self.obey(hand.conn, command)
            }
        }
    }

    // A source goes on to the rest of its script.
    fn go_on(&mut self, place: usize, conn: u16, rest: &'net [Command])
        requires { place < vec_len self.old.hands }
        ensures { self.new.stage ≡ self.old.stage }
    {
        if rest.is_empty() {
            let _ = self.hands.remove(place);
        } else {
            self.hands[place] = Hand {
                conn,
                commands: rest,
                looks: 0,
            };
        }
    }

    // A source looks for an answer, so many times at most and only while it waits for one that can still come; else it goes on.
    fn listen(
        &mut self,
        place: usize,
        hand: &Hand<'net>,
        turns: u32,
        rest: &'net [Command],
    ) -> Result<(), StopFault>
        requires { place < vec_len self.old.hands }
        ensures { (net : Topology) → IsOnStage net self.old.stage →
            OnOk result (IsOnStage net self.new.stage) }
    {
        if hand.looks >= turns || !self.is_asking(hand.conn) || !self.can_hear(hand.conn) {
            self.go_on(place, hand.conn, rest);
            return Ok(());
        }
        self.hands[place].looks = hand.looks + 1;
        self.hear(hand.conn)
    }

    // The source of a connection takes the oldest answer that has come to it, if there is one.
    fn hear(&mut self, conn: u16) -> Result<(), StopFault>
        ensures { (net : Topology) → IsOnStage net self.old.stage →
            OnOk result (IsOnStage net self.new.stage) }
    {
        // Names a type within an outcome, without which the checker can't follow one.
        let _ = Onward::Pass;
        let Some(told) = self.answers.take(conn) else {
            return Ok(());
        };
        self.stage.attempt(&told)?;
        Ok(())
    }

    // The source of a connection carries out a command.
    fn obey(&mut self, conn: u16, command: &Command) -> Result<(), StopFault>
        ensures { (net : Topology) → IsOnStage net self.old.stage →
            OnOk result (IsOnStage net self.new.stage) }
    {
        // Names a type within an outcome, without which the checker can't follow one.
        let _ = Onward::Pass;
        let Some(event) = event_of(conn, command) else {
            return Ok(());
        };
        let Some(outcome) = self.stage.attempt(&event)? else {
            return Ok(());
        };
        match outcome {
            Outcome::Emitted { cell, .. } => self.arrive(conn, cell, command),
            _ => self.follow(&event, &outcome, REPEATS_MAX),
        }
    }

    // A cell that left comes to the first hop, unless it is lost.
    fn arrive(&mut self, conn: u16, cell: u64, command: &Command) -> Result<(), StopFault>
        ensures { (net : Topology) → IsOnStage net self.old.stage →
            OnOk result (IsOnStage net self.new.stage) }
    {
        // Names a type within an outcome, without which the checker can't follow one.
        let _ = Onward::Pass;
        let Some(at) = self.arrival(conn, command) else {
            return Ok(());
        };
        self.stage.attempt(&Event::Arrive { conn, cell, at })?;
        let place = usize::from(conn);
        if place < self.arrivals.len() {
            self.arrivals[place] = at;
        }
        Ok(())
    }

    // When a cell comes that leaves by a command: behind the delay of its line and its jitter, and not before the last one.
    fn arrival(&self, conn: u16, command: &Command) -> Option<u64> {
        let Command::Emit {
            now,
            jitter: Some(jitter),
        } = *command
        else {
            return None;
        };
        let line = self.net.conns().get(usize::from(conn))?;
        let last = *self.arrivals.get(usize::from(conn))?;
        Some(
            now.saturating_add(line.delay)
                .saturating_add(jitter)
                .max(last),
        )
    }

    // A message comes: an answer to a source waits there until that looks for it.
    fn deliver(&mut self, place: usize) -> Result<(), StopFault>
        ensures { (net : Topology) → IsOnStage net self.old.stage →
            OnOk result (IsOnStage net self.new.stage) }
    {
        let Some(parcel) = self.parcels.take(place) else {
            return Ok(());
        };
        match parcel.event {
            Event::Told { conn, .. } => {
                self.answers.put(conn, &parcel.event)?;
                Ok(())
            }
            _ => self.carry(&parcel),
        }
    }

    // A message comes to a hop.
    fn carry(&mut self, parcel: &Parcel) -> Result<(), StopFault>
        ensures { (net : Topology) → IsOnStage net self.old.stage →
            OnOk result (IsOnStage net self.new.stage) }
    {
        // Names a type within an outcome, without which the checker can't follow one.
        let _ = Onward::Pass;
        let Some(outcome) = self.stage.attempt(&parcel.event)? else {
            return Ok(());
        };
        self.follow(&parcel.event, &outcome, parcel.repeats)
    }

    // Sends what follows an event. At the end of a path it is turned at once.
    fn follow(&mut self, event: &Event, outcome: &Outcome, repeats: u8) -> Result<(), StopFault>
        ensures { (net : Topology) → IsOnStage net self.old.stage →
            OnOk result (IsOnStage net self.new.stage) }
    {
        let hops = self.hops_of(event);
        let Some(next) = following(hops, event, outcome) else {
            return Ok(());
        };
        match next {
            Event::Turn { .. } => self.turn_back(hops, &next, repeats),
            _ => self.send(next, repeats),
        }
    }

    // A request is turned at the end of its path, and its yes is sent.
    fn turn_back(&mut self, hops: u16, turn: &Event, repeats: u8) -> Result<(), StopFault>
        ensures { (net : Topology) → IsOnStage net self.old.stage →
            OnOk result (IsOnStage net self.new.stage) }
    {
        // Names a type within an outcome, without which the checker can't follow one.
        let _ = Onward::Pass;
        let Some(outcome) = self.stage.attempt(turn)? else {
            return Ok(());
        };
        let Some(yes) = following(hops, turn, &outcome) else {
            return Ok(());
        };
        self.send(yes, repeats)
    }

    // Sends a message, whose fate is drawn.
    fn send(&mut self, event: Event, repeats: u8) -> Result<(), StopFault>
        ensures { (net : Topology) → IsOnStage net self.old.stage →
            OnOk result (IsOnStage net self.new.stage) }
    {
        let first = self.draws.word();
        let second = self.draws.word();
        let fate = self.chances.fate(first, second);
        self.parcels.send(&Parcel { event, repeats }, fate)?;
        Ok(())
    }

    // The operator gives the next port of its list another capacity.
    fn operate(&mut self) -> Result<(), StopFault>
        ensures { (net : Topology) → IsOnStage net self.old.stage →
            OnOk result (IsOnStage net self.new.stage) }
    {
        // Names a type within an outcome, without which the checker can't follow one.
        let _ = Onward::Pass;
        let Some((&(port, capacity), rest)) = self.operations.split_first() else {
            return Ok(());
        };
        self.operations = rest;
        self.stage.attempt(&Event::Capacity { port, capacity })?;
        Ok(())
    }

    // Whether the source of a connection waits for an answer.
    fn is_asking(&self, conn: u16) -> bool {
        match self.stage.world.progress(conn) {
            Some(progress) => progress.awaited.is_some(),
            None => false,
        }
    }

    // Whether an answer has come to the source of a connection, or a message of that connection is under way.
    fn can_hear(&self, conn: u16) -> bool
        ensures { IsTrue result ↔ CanHear conn self.now.answers self.now.parcels }
    {
        self.answers.has(conn) || self.parcels.has(conn)
    }

    // How many hops the path of an event's connection has.
    fn hops_of(&self, event: &Event) -> u16 {
        let Some(conn) = event.conn() else {
            return 0;
        };
        match self.net.conns().get(usize::from(conn)) {
            Some(line) => u16::try_from(line.path.as_slice().len()).unwrap_or(0),
            None => 0,
        }
    }
}

// The sources whose scripts have commands.
fn hands_of<'net>(alloc: Global, scripts: &'net [Script]) -> Result<Vec<Hand<'net>>, AllocError> {
    let mut hands = Vec::new(alloc);
    for (number, script) in scripts.iter().enumerate() {
        // A net has no connection beyond these.
        let Ok(conn) = u16::try_from(number) else {
            break;
        };
        if !script.is_empty() {
            hands.push(Hand {
                conn,
                commands: script.as_slice(),
                looks: 0,
            })?;
        }
    }
    Ok(hands)
}

// So many zeros.
fn zeros(alloc: Global, count: usize) -> Result<Vec<u64>, AllocError> {
    let mut zeros = Vec::with_capacity(alloc, count)?;
    for _number in 0..count {
        zeros.push(0)?;
    }
    Ok(zeros)
}
