//! A net that events happen to line by line.
ghost use Rattle.std.specs.Prelude.{◌≡◌, [], List, IfOk, OnOk, string_bytes};
ghost use Rattle.abt_text.specs.Text.{◌⋅◌};
ghost use Rattle.abt_net.specs.Topology.{Topology};
ghost use Rattle.abt_model.specs.declared.event.Event.{Event};
ghost use Rattle.abt_step.specs.Stepped.{answer_to, events_past};
ghost use Rattle.abt_step.specs.Steps.{IsPast, StandsAt};
ghost use Rattle.abt_plans.specs.declared.answer_form.AnswerForm.{AnswerForm as Form};
ghost use Rattle.abt_step.specs.declared.asked.Asked.TheVariants as asks;

use crate::asked::{Asked, AskedFault, Query, asked_on};
use crate::happening::{begin_as_object, begin_in_words, happen_as_object, happen_in_words};
use crate::lines::push_fault_line;
use crate::net_at_work::NetAtWork;
use crate::objects::{push_end_object, push_fault_object};
use crate::telling::{tell_as_object, tell_in_words};
use abt_format::safe_line;
use abt_lines::LineServer;
use abt_model::Event;
use abt_net::Net;
use abt_plans::AnswerForm;
use std::alloc::{AllocError, Global};

/// A net that events happen to line by line (docs/FORMATS.md, "Events line by line").
#[derive(Drop)]
pub struct SteppedLines<'net> {
    form: AnswerForm,
    // The events that happen before the first line, and again when all begins anew.
    net: &'net Net,
    opening: &'net [Event],
    work: NetAtWork<'net>,
    // How many events have happened.
    count: u64,
}

impl<'net> SteppedLines<'net> {
    /// The net behind the events of its opening, whose answers have this form.
    pub fn open(
        alloc: Global,
        form: AnswerForm,
        net: &'net Net,
        opening: &'net [Event],
    ) -> Result<SteppedLines<'net>, AllocError>
        ensures { IfOk result (StandsAt form net.now opening.now opening.now) }
    {
        let work = NetAtWork::opened(alloc, net, opening)?;
        Ok(SteppedLines {
            form,
            net,
            opening,
            work,
            count: opening.len() as u64,
        })
    }

    // Does what a line asks for, and puts the answer into an empty text.
    fn carry_out(
        &mut self,
        alloc: Global,
        asked: &Asked,
        text: &mut String,
    ) -> Result<(), AllocError>
        requires { string_bytes text.old ≡ [] }
        ensures { (form : Form) (net : Topology) (opening events : List Event) →
            StandsAt form net opening events self.old →
            OnOk result (IsPast form net opening events asked.now (string_bytes text.new) self.new) }
    {
        self.take(alloc, asked, text)?;
        self.work.is_safe();
        Ok(())
    }

    // Does what a line asks for, and adds the answer to a text.
    fn take(&mut self, alloc: Global, asked: &Asked, text: &mut String) -> Result<(), AllocError>
        ensures says { (form : Form) (net : Topology) (opening events : List Event) →
            StandsAt form net opening events self.old → OnOk result (string_bytes text.new
            ≡ string_bytes text.old ⋅ answer_to form net opening events asked.now) }
        ensures stands { (form : Form) (net : Topology) (opening events : List Event) →
            StandsAt form net opening events self.old →
            OnOk result (StandsAt form net opening (events_past opening events asked.now) self.new) }
    {
        match asked {
            Asked::Nothing => Ok(()),
            Asked::Happen(event) => self.happen(alloc, event, text),
            Asked::Reset => self.reset(alloc, text),
            Asked::Tell(query) => self.tell(alloc, *query, text),
            Asked::Wrong(fault) => self.push_fault(alloc, *fault, text),
        }
    }

    // Lets an event happen, and adds its answer to a text.
    fn happen(&mut self, alloc: Global, event: &Event, text: &mut String) -> Result<(), AllocError>
        ensures says { (form : Form) (net : Topology) (opening events : List Event) →
            StandsAt form net opening events self.old → OnOk result (string_bytes text.new
            ≡ string_bytes text.old ⋅ answer_to form net opening events (asks.Happen event.now)) }
        ensures stands { (form : Form) (net : Topology) (opening events : List Event) →
            StandsAt form net opening events self.old → OnOk result
            (StandsAt form net opening (events_past opening events (asks.Happen event.now)) self.new) }
    {
        // So many events don't fit into memory.
        let Some(next) = self.count.checked_add(1) else {
            return Err(AllocError);
        };
        self.count = next;
        let form = self.form;
        if self.form.json {
            happen_as_object(alloc, &mut self.work, form, next, event, text)
        } else {
            happen_in_words(alloc, &mut self.work, form, next, event, text)
        }
    }

    // Begins anew, and adds the answer to a text.
    fn reset(&mut self, alloc: Global, text: &mut String) -> Result<(), AllocError>
        ensures says { (form : Form) (net : Topology) (opening events : List Event) →
            StandsAt form net opening events self.old → OnOk result (string_bytes text.new
            ≡ string_bytes text.old ⋅ answer_to form net opening events asks.Reset) }
        ensures stands { (form : Form) (net : Topology) (opening events : List Event) →
            StandsAt form net opening events self.old →
            OnOk result (StandsAt form net opening opening self.new) }
    {
        self.begin_anew(alloc)?;
        self.push_reset(alloc, text)
    }

    // Begins anew.
    fn begin_anew(&mut self, alloc: Global) -> Result<(), AllocError>
        ensures { (form : Form) (net : Topology) (opening events : List Event) →
            StandsAt form net opening events self.old →
            OnOk result (StandsAt form net opening opening self.new) }
    {
        self.work = NetAtWork::opened(alloc, self.net, self.opening)?;
        self.count = self.opening.len() as u64;
        Ok(())
    }

    // Adds the answer to a new beginning to a text.
    fn push_reset(&self, alloc: Global, text: &mut String) -> Result<(), AllocError>
        ensures { (form : Form) (net : Topology) (opening events : List Event) →
            StandsAt form net opening opening self.now → OnOk result (string_bytes text.new
            ≡ string_bytes text.old ⋅ answer_to form net opening events asks.Reset) }
    {
        let form = self.form;
        if self.form.json {
            begin_as_object(alloc, &self.work, form, text)
        } else {
            begin_in_words(alloc, &self.work, form, text)
        }
    }

    // Adds what a line asks to be told to a text.
    fn tell(&self, alloc: Global, query: Query, text: &mut String) -> Result<(), AllocError>
        ensures { (form : Form) (net : Topology) (opening events : List Event) →
            StandsAt form net opening events self.now → OnOk result (string_bytes text.new
            ≡ string_bytes text.old ⋅ answer_to form net opening events (asks.Tell query)) }
    {
        if self.form.json {
            tell_as_object(alloc, &self.work, query, text)
        } else {
            tell_in_words(alloc, &self.work, query, text)
        }
    }

    // Adds the fault of a line to a text.
    fn push_fault(
        &self,
        alloc: Global,
        fault: AskedFault,
        text: &mut String,
    ) -> Result<(), AllocError>
        ensures { (form : Form) (net : Topology) (opening events : List Event) →
            StandsAt form net opening events self.now → OnOk result (string_bytes text.new
            ≡ string_bytes text.old ⋅ answer_to form net opening events (asks.Wrong fault)) }
    {
        if self.form.json {
            push_fault_object(alloc, text, fault)
        } else {
            push_fault_line(text, fault)
        }
    }
}

impl<'net> LineServer for SteppedLines<'net> {
    ghost use Rattle.abt_step.specs.Steps.{EndsStepping, StepsLine};

    ghost steps = { StepsLine };

    ghost ends = { EndsStepping };

    fn answer(
        &mut self,
        alloc: Global,
        _number: u64,
        line: Option<&[u8]>,
        text: &mut String,
    ) -> Result<(), AllocError> {
        let asked = asked_on(line);
        self.carry_out(alloc, &asked, text)
    }

    fn end(&self, alloc: Global, _number: u64, text: &mut String) -> Result<(), AllocError> {
        let is_safe = self.work.is_safe();
        if self.form.json {
            push_end_object(alloc, text, is_safe)
        } else {
            text.push_str(safe_line(is_safe))
        }
    }
}
