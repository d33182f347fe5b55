//! The net and the journals that texts have told so far.
ghost use Rattle.std.specs.Prelude.{◌≡◌, ◌⊎◌, IfErr, OnOk};
ghost use Rattle.abt_entry.specs.declared.line.Line.TheVariants as line;
ghost use Rattle.abt_journal_text.specs.Books as books;
ghost use Rattle.abt_journal_text.specs.Entering.{Takes, TakesNet, TakesEnd, Refuses, TakesLine, RefusesLine, IsOwn};

use crate::entering::{cause_of_line, net_of};
use crate::fault::Cause;
use crate::lists::{empty_lists, push_at};
use crate::open_write::OpenWrite;
use crate::spot::Spot;
use abt_entry::{Line, LineFault, NetDraft, read_line};
use abt_journal::{Entry, Journals, PortInput, PortReply};
use abt_model::{Event, Outcome, SourceEntry};
use abt_net::Net;
use abt_node::{Back, Onward};
use json::Scratch;
use std::alloc::Global;
use std::marker::Model;

/// The net and the journals that texts have told so far, where each entry stands, and what they leave open.
#[derive(Debug, Drop)]
pub struct Book {
    pub(crate) net: Option<Net>,
    pub(crate) journals: Journals,
    pub(crate) sources: Vec<Vec<SourceEntry>>,
    pub(crate) port_spots: Vec<Vec<Spot>>,
    pub(crate) source_spots: Vec<Vec<Spot>>,
    pub(crate) open_writes: Vec<OpenWrite>,
    // The lines in whose middle texts ended.
    pub(crate) cuts: Vec<Spot>,
    // Whether the end of the text was read that was begun last.
    pub(crate) ended: bool,
}

impl Model for Book {
    ghost use Rattle.abt_journal_text.specs.Books.{Told, IsSized, lists_of};

    ghost Value = { Told };

    ghost view = { λ b. record {
      net = b.net;
      ports = b.journals;
      sources = lists_of b.sources;
      port_spots = lists_of b.port_spots;
      source_spots = lists_of b.source_spots;
      open_writes = b.open_writes.items;
      cuts = b.cuts.items;
      ended = b.ended;
    } };

    ghost invariant = { λ b. IsSized (record {
      net = b.net;
      ports = b.journals;
      sources = lists_of b.sources;
      port_spots = lists_of b.port_spots;
      source_spots = lists_of b.source_spots;
      open_writes = b.open_writes.items;
      cuts = b.cuts.items;
      ended = b.ended;
    }) };
}

impl Book {
    /// Nothing was told yet.
    pub fn new(alloc: Global) -> Book
        ensures { result ≡ books.blank }
    {
        Book {
            net: None,
            journals: Journals {
                ports: Vec::new(alloc),
            },
            sources: Vec::new(alloc),
            port_spots: Vec::new(alloc),
            source_spots: Vec::new(alloc),
            open_writes: Vec::new(alloc),
            cuts: Vec::new(alloc),
            ended: true,
        }
    }

    // The next text begins.
    pub(crate) fn begin_text(&mut self)
        ensures { self.new ≡ books.with_text self.old }
    {
        self.ended = false;
    }

    fn take_net(&mut self, alloc: Global, draft: NetDraft) -> Result<(), Cause>
        ensures ok { OnOk result (TakesNet self.old draft self.new) }
        ensures err { IfErr result (λ why. IsOwn why ⊎ Refuses self.old (line.Net draft) why) }
    {
        if self.net.is_some() {
            return Err(Cause::SecondNet);
        }
        let net = net_of(alloc, draft)?;
        let ports = net.capacities().len();
        let conns = net.conns().len();
        let journals = empty_lists(alloc, ports)?;
        let port_spots = empty_lists(alloc, ports)?;
        let sources = empty_lists(alloc, conns)?;
        let source_spots = empty_lists(alloc, conns)?;
        self.journals = Journals { ports: journals };
        self.port_spots = port_spots;
        self.sources = sources;
        self.source_spots = source_spots;
        self.net = Some(net);
        Ok(())
    }

    fn take_step(&mut self, spot: Spot, port: u16, entry: Entry) -> Result<(), Cause>
        ensures ok { OnOk result (Takes spot self.old (line.Port port entry) self.new) }
        ensures err { IfErr result (λ why. IsOwn why ⊎ Refuses self.old (line.Port port entry) why) }
    {
        if self.net.is_none() {
            return Err(Cause::NoNet);
        }
        // Name types within an entry, without which the checker can't follow one.
        let _ = PortInput::Capacity(0);
        let _ = PortReply::Answered(Back::Pass);
        let _ = Onward::Pass;
        let Some(steps) = self.journals.ports.get(usize::from(port)) else {
            return Err(Cause::NoPort);
        };
        if entry.place != steps.len() as u64 {
            return Err(Cause::Place);
        }
        push_at(&mut self.journals.ports, port, entry)?;
        push_at(&mut self.port_spots, port, spot)?;
        Ok(())
    }

    fn take_unplaced(&mut self, spot: Spot, port: u16, said: Entry) -> Result<(), Cause>
        ensures ok { OnOk result (Takes spot self.old (line.Unplaced port said) self.new) }
        ensures err { IfErr result (λ why. IsOwn why ⊎ Refuses self.old (line.Unplaced port said) why) }
    {
        if self.net.is_none() {
            return Err(Cause::NoNet);
        }
        // Name types within an entry, without which the checker can't follow one.
        let _ = PortInput::Capacity(0);
        let _ = PortReply::Answered(Back::Pass);
        let _ = Onward::Pass;
        let Some(steps) = self.journals.ports.get(usize::from(port)) else {
            return Err(Cause::NoPort);
        };
        let entry = placed(steps.len() as u64, said);
        push_at(&mut self.journals.ports, port, entry)?;
        Ok(push_at(&mut self.port_spots, port, spot)?)
    }

    fn take_entry(&mut self, spot: Spot, source: u16, entry: SourceEntry) -> Result<(), Cause>
        ensures ok { OnOk result (Takes spot self.old (line.Source source entry) self.new) }
        ensures err { IfErr result (λ why. IsOwn why ⊎ Refuses self.old (line.Source source entry) why) }
    {
        if self.net.is_none() {
            return Err(Cause::NoNet);
        }
        // Name types within an entry, without which the checker can't follow one.
        let _ = Event::Crash { conn: source };
        let _ = Outcome::Answered(Back::Pass);
        let _ = Onward::Pass;
        if usize::from(source) >= self.sources.len() {
            return Err(Cause::NoSource);
        }
        push_at(&mut self.sources, source, entry)?;
        push_at(&mut self.source_spots, source, spot)?;
        Ok(())
    }

    fn take_open(&mut self, spot: Spot, source: u16, said: SourceEntry) -> Result<(), Cause>
        ensures ok { OnOk result (Takes spot self.old (line.Open source said) self.new) }
        ensures err { IfErr result (λ why. IsOwn why ⊎ Refuses self.old (line.Open source said) why) }
    {
        if self.net.is_none() {
            return Err(Cause::NoNet);
        }
        // Name types within an entry, without which the checker can't follow one.
        let _ = Event::Crash { conn: source };
        let _ = Outcome::Answered(Back::Pass);
        let _ = Onward::Pass;
        let Some(entries) = self.sources.get(usize::from(source)) else {
            return Err(Cause::NoSource);
        };
        let place = entries.len() as u64;
        self.open_writes.push(OpenWrite { source, place })?;
        push_at(&mut self.sources, source, said)?;
        push_at(&mut self.source_spots, source, spot)?;
        Ok(())
    }

    fn take_end(&mut self) -> Result<(), Cause>
        ensures ok { OnOk result (TakesEnd self.old self.new) }
        ensures err { IfErr result (λ why. Refuses self.old line.End why) }
    {
        if self.net.is_none() {
            return Err(Cause::NoNet);
        }
        self.ended = true;
        Ok(())
    }

    // Leaves out the line in whose middle the text ends, which stands here.
    pub(crate) fn note_cut(&mut self, spot: Spot) -> Result<(), Cause>
        ensures ok { OnOk result (self.new ≡ books.with_cut spot self.old) }
        ensures err { IfErr result IsOwn }
    {
        Ok(self.cuts.push(spot)?)
    }

    // Takes in what a line says.
    fn take(&mut self, alloc: Global, spot: Spot, said: Line) -> Result<(), Cause>
        ensures ok { OnOk result (Takes spot self.old said self.new) }
        ensures err { IfErr result (λ why. IsOwn why ⊎ Refuses self.old said why) }
    {
        match said {
            Line::Net(draft) => self.take_net(alloc, draft),
            Line::Port { port, entry } => self.take_step(spot, port, entry),
            Line::Unplaced { port, entry } => self.take_unplaced(spot, port, entry),
            Line::Source { source, entry } => self.take_entry(spot, source, entry),
            Line::Open { source, entry } => self.take_open(spot, source, entry),
            Line::End => self.take_end(),
        }
    }

    // Takes in the octets of a line, without its line feed.
    pub(crate) fn take_line(
        &mut self,
        alloc: Global,
        spot: Spot,
        octets: &[u8],
        scratch: &mut Scratch,
    ) -> Result<(), Cause>
        ensures ok { OnOk result (TakesLine spot self.old octets.now self.new) }
        ensures err { IfErr result (λ why. IsOwn why ⊎ RefusesLine self.old octets.now why) }
    {
        if self.ended {
            return Err(Cause::Behind);
        }
        let Ok(text) = std::str::from_utf8(octets) else {
            return Err(Cause::Line(LineFault::Utf8));
        };
        match read_line(alloc, text, scratch) {
            Ok(said) => self.take(alloc, spot, said),
            Err(fault) => Err(cause_of_line(fault)),
        }
    }
}

// The step at another place.
fn placed(place: u64, entry: Entry) -> Entry
    ensures { result ≡ books.placed place entry }
{
    let Entry {
        place: _,
        caller,
        input,
        reply,
    } = entry;
    Entry {
        place,
        caller,
        input,
        reply,
    }
}
