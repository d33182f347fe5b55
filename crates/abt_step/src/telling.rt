//! What a net at work is asked to tell.
ghost use Rattle.std.specs.Prelude.{◌≡◌, List, OnOk, string_bytes};
ghost use Rattle.abt_text.specs.Text.{◌⋅◌};
ghost use Rattle.abt_net.specs.Topology.{Topology};
ghost use Rattle.abt_model.specs.declared.event.Event.{Event};
ghost use Rattle.abt_step.specs.Stepped.{query_lines, query_object};
ghost use Rattle.abt_step.specs.Steps.{WorksAt};

use crate::asked::Query;
use crate::net_at_work::NetAtWork;
use crate::objects::{push_possible_object, push_report_object, push_state_object};
use crate::possible_words::push_possible_line;
use crate::state_words::{push_report, push_state_line};
use std::alloc::{AllocError, Global};

// Adds what a query asks for to a text, in words.
pub(crate) fn tell_in_words(
    alloc: Global,
    work: &NetAtWork<'_>,
    query: Query,
    text: &mut String,
) -> Result<(), AllocError>
    ensures { (net : Topology) (events : List Event) → WorksAt net events work.now → OnOk result
        (string_bytes text.new ≡ string_bytes text.old ⋅ query_lines net events query) }
{
    match query {
        Query::State => push_state_line(text, &work.state(alloc)?),
        Query::Report => push_report(text, &work.state(alloc)?),
        Query::Possible => push_possible_line(text, &work.possible(alloc)?),
    }
}

// The same as an object.
pub(crate) fn tell_as_object(
    alloc: Global,
    work: &NetAtWork<'_>,
    query: Query,
    text: &mut String,
) -> Result<(), AllocError>
    ensures { (net : Topology) (events : List Event) → WorksAt net events work.now → OnOk result
        (string_bytes text.new ≡ string_bytes text.old ⋅ query_object net events query) }
{
    match query {
        Query::State => push_state_object(alloc, text, &work.state(alloc)?),
        Query::Report => push_report_object(alloc, text, &work.state(alloc)?),
        Query::Possible => push_possible_object(alloc, text, &work.possible(alloc)?),
    }
}
