//! The ports of a switch, line by line.
ghost use Rattle.std.specs.Prelude.{◌≡◌, ◌<◌, [], All, IfOk, IfSome, OnOk, OnErr, length, map, string_bytes};
ghost use Rattle.std.specs.Io.KnownBytes.{Appends};
ghost use Rattle.std.specs.Option.{option_map};
ghost use Rattle.abt_lines.specs.Served.{AppendsFront};
ghost use Rattle.abt_live.specs.Journal.{JournalBegan};
ghost use Rattle.abt_live.specs.Ports.{opening_of, switch_line};
ghost use Rattle.abt_live.specs.Switch.{Does, place_of};
ghost use Rattle.abt_live.specs.SwitchAsked.{asked_on};
ghost use Rattle.abt_live.specs.SwitchRecords.{DoesRecord, answer_text, record_asked};

use crate::fault::{LiveFault, StopFault};
use crate::live_port::LivePort;
use crate::record_serving::JournalRecords;
use crate::said::answer_of;
use crate::serving::JournalServer;
use crate::switch_answer::SwitchAnswer;
use crate::switch_asked::{SwitchAsked, asked_on};
use crate::switch_records::record_asked;
use crate::writing::switch_line;
use abt_journal::{Entry, PortInput};
use abt_net::Net;
use abt_text::put;
use abt_world::opening_port;
use std::alloc::{AllocError, Global};
use std::io::Write;

/// Ports of a net as a switch: each line is an input of one of them, and is answered by what is sent then. The step is in the journal by
/// then (docs/LIVE.md, "A switch").
#[derive(Drop)]
pub struct SwitchLines<'net, J: Write> {
    net: &'net Net,
    ports: Vec<LivePort>,
    journal: J,
}

impl<'net, J: Write + Drop> SwitchLines<'net, J> {
    /// A switch that has these ports of a net, which have done nothing yet.
    pub fn open(
        alloc: Global,
        net: &'net Net,
        ids: &[u16],
        journal: J,
    ) -> Result<SwitchLines<'net, J>, AllocError>
        requires { All (λ id. id < length net.now.capacities) ids.now }
        ensures ports { IfOk result (λ switch. switch.ports.items ≡ map (opening_of net.now) ids.now) }
        ensures net { IfOk result (λ switch. switch.net.now ≡ net.now) }
        ensures journal { IfOk result (λ switch. switch.journal ≡ journal) }
    {
        let ports = opened(alloc, net, ids)?;
        Ok(SwitchLines {
            net,
            ports,
            journal,
        })
    }

    /// Does what a line asks for, and puts the answer into an empty text. The journal has what happened before that.
    ///
    /// # Errors
    /// A switch that stopped by one is of no use any more: it may have done a step that nobody is told of.
    #[tactic(auto, using(crate::proofs::Fronts::silent))]
    pub fn take(
        &mut self,
        alloc: Global,
        line: Option<&[u8]>,
        text: &mut String,
    ) -> Result<(), StopFault>
        requires { string_bytes text.old ≡ [] }
        ensures ok { OnOk result (Does J.contents self.old
            (asked_on (option_map (λ line. line.now) line.entry)) (string_bytes text.new) self.new) }
        ensures err { OnErr result (JournalBegan self.old.ports.items
            (asked_on (option_map (λ line. line.now) line.entry))
            (J.contents self.old.journal) (J.contents self.new.journal)) }
    {
        let asked = asked_on(alloc, line)?;
        let answer = self.act(alloc, &asked)?;
        Ok(answer.push_to(alloc, text)?)
    }

    /// Does what a line or a cell asks for, as `take` does for a line, and puts the answer where no octets are, a message that is sent as a
    /// cell (docs/LIVE.md, "Cells as octets").
    ///
    /// # Errors
    /// As for `take`.
    #[tactic(auto, using(crate::proofs::Fronts::silent))]
    pub fn take_record(
        &mut self,
        alloc: Global,
        seen: Option<&[u8]>,
        said: &mut Vec<u8>,
    ) -> Result<(), StopFault>
        requires { said.old.items ≡ [] }
        ensures ok { OnOk result (DoesRecord J.contents self.old
            (record_asked (option_map (λ octets. octets.now) seen.entry)) said.new.items self.new) }
        ensures err { OnErr result (JournalBegan self.old.ports.items
            (record_asked (option_map (λ octets. octets.now) seen.entry))
            (J.contents self.old.journal) (J.contents self.new.journal)) }
    {
        let asked = record_asked(alloc, seen)?;
        let answer = self.act(alloc, &asked)?;
        Ok(answer.add_to(alloc, said)?)
    }

    // Does what is asked for, and gives the answer.
    fn act(&mut self, alloc: Global, asked: &SwitchAsked) -> Result<SwitchAnswer, StopFault>
        ensures ok { IfOk result
            (λ answer. Does J.contents self.old asked.now (answer_text answer) self.new) }
        ensures err { OnErr result (JournalBegan self.old.ports.items asked.now
            (J.contents self.old.journal) (J.contents self.new.journal)) }
    {
        match *asked {
            SwitchAsked::Step { port, input, cell } => self.step(alloc, port, input, cell),
            SwitchAsked::Wrong(fault) => Ok(SwitchAnswer::Faulty(fault)),
        }
    }

    // Has a port take an input.
    fn step(
        &mut self,
        alloc: Global,
        id: u16,
        input: PortInput,
        cell: Option<u64>,
    ) -> Result<SwitchAnswer, StopFault>
        ensures ok { IfOk result (λ answer. Does J.contents self.old (SwitchAsked.Step id input cell)
            (answer_text answer) self.new) }
        ensures err { OnErr result (JournalBegan self.old.ports.items (SwitchAsked.Step id input cell)
            (J.contents self.old.journal) (J.contents self.new.journal)) }
    {
        let Some(place) = place_of(self.ports.as_slice(), id) else {
            return Ok(SwitchAnswer::Faulty(LiveFault::Port));
        };
        if !self.ports[place].knows(&input) {
            return Ok(SwitchAnswer::Faulty(LiveFault::UnknownVc));
        }
        // So many steps are never done.
        let Some(entry) = self.ports[place].step(input) else {
            return Err(StopFault::Memory);
        };
        log_step(alloc, &mut self.journal, id, &entry, cell)?;
        Ok(answer_of(self.net, id, &input, &entry.reply))
    }
}

impl<'net, J: Write + Drop> JournalServer for SwitchLines<'net, J> {
    ghost use Rattle.abt_live.specs.Switch.{SwitchesLine};

    ghost steps = { SwitchesLine J.contents };

    fn answer(
        &mut self,
        alloc: Global,
        _number: u64,
        line: Option<&[u8]>,
        text: &mut String,
    ) -> Result<(), StopFault> {
        self.take(alloc, line, text)
    }
}

impl<'net, J: Write + Drop> JournalRecords for SwitchLines<'net, J> {
    ghost use Rattle.abt_live.specs.SwitchRecords.{SwitchesRecord};

    ghost steps = { SwitchesRecord J.contents };

    fn answer(
        &mut self,
        alloc: Global,
        seen: Option<&[u8]>,
        said: &mut Vec<u8>,
    ) -> Result<(), StopFault> {
        self.take_record(alloc, seen, said)
    }
}

// These ports of a net, which have done nothing yet.
fn opened(alloc: Global, net: &Net, ids: &[u16]) -> Result<Vec<LivePort>, AllocError>
    requires { All (λ id. id < length net.now.capacities) ids.now }
    ensures { IfOk result (λ ports. ports.items ≡ map (opening_of net.now) ids.now) }
{
    let mut ports = Vec::new(alloc);
    for id in ids {
        let port = opening_port(alloc, net, *id)?;
        ports.push(LivePort {
            id: *id,
            port,
            steps: 0,
        })?;
    }
    Ok(ports)
}

// The place of the port of a number, if the switch has it.
fn place_of(ports: &[LivePort], id: u16) -> Option<usize>
    ensures value { result ≡ place_of ports.now id }
    ensures within { IfSome result (λ place. place < length ports.now) }
{
    ports.iter().position(|live| live.id == id)
}

#[tactic(auto, using(crate::proofs::Fronts::front_part, crate::proofs::Fronts::front_none))]
// Writes the line of a step into a journal.
fn log_step<J: Write>(
    alloc: Global,
    journal: &mut J,
    port: u16,
    entry: &Entry,
    cell: Option<u64>,
) -> Result<(), StopFault>
    ensures ok { OnOk result (Appends (J.contents journal.old) (J.contents journal.new)
        (switch_line port entry.now cell)) }
    ensures err { OnErr result (AppendsFront (J.contents journal.old) (J.contents journal.new)
        (switch_line port entry.now cell)) }
{
    let line = switch_line(alloc, port, entry, cell)?;
    Ok(put(journal, line.as_slice())?)
}
