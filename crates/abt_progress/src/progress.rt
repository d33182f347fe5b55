//! How far a task is, shared by what it reads and what it writes.
ghost use Rattle.std.specs.Prelude.{◌≡◌, ◌==◌, ◌⊎◌, if◌then◌else◌, true, false};
ghost use Rattle.std.specs.Io.KnownBytes.{Keeps};
ghost use Rattle.abt_progress.specs.Line.{Draws, line_text};
ghost use Rattle.abt_progress.specs.Meter.{counted, is_due};

use crate::drawing::Drawing;
use crate::meter::Meter;
use std::alloc::Global;
use std::cell::RefCell;
use std::io::Write;

/// How far a task has read its input: counted by its readers, drawn on a terminal, and taken away before anything else is written.
///
/// Nothing here fails: what the terminal doesn't take is let go.
#[derive(Drop)]
pub struct Progress<E> {
    alloc: Global,
    state: RefCell<Option<State<E>>>,
}

// What is drawn, and where.
#[derive(Drop)]
struct State<E> {
    drawing: Drawing<E>,
    meter: Meter,
    ended: bool,
}

impl<E: Write + Drop> Progress<E> {
    /// Of a task that shows how far it is, on this terminal, or of one that shows nothing.
    pub fn new(alloc: Global, terminal: Option<E>) -> Progress<E> {
        let state = match terminal {
            Some(terminal) => Some(State {
                drawing: Drawing::new(terminal),
                meter: Meter::new(),
                ended: false,
            }),
            None => None,
        };
        Progress {
            alloc,
            state: RefCell::new(state),
        }
    }

    /// Counts the octets of a read, none at the end of an input, and draws the line anew if it is time for that.
    pub fn count(&self, octets: usize) {
        if let Ok(mut guard) = self.state.try_borrow_mut() {
            if let Some(state) = &mut *guard {
                state.count(self.alloc, octets);
            }
        }
    }

    /// Takes the line away, and says whether one stood.
    pub fn clear(&self) -> bool {
        if let Ok(mut guard) = self.state.try_borrow_mut() {
            if let Some(state) = &mut *guard {
                return state.drawing.clear();
            }
        }
        false
    }

    /// Draws the line that was taken away.
    pub fn draw_again(&self) {
        if let Ok(mut guard) = self.state.try_borrow_mut() {
            if let Some(state) = &mut *guard {
                state.draw(self.alloc);
            }
        }
    }
}

impl<E: Write> State<E> {
    // Counts the octets of a read, none at the end of an input, and draws the line anew if it is time for that.
    fn count(&mut self, alloc: Global, octets: usize)
        ensures octets { self.new.meter.octets ≡ counted self.old.meter.octets octets }
        ensures ended { self.new.ended ≡ (octets == 0) }
        ensures told { self.new.meter.told ≡ (if is_due self.old.meter.octets self.old.meter.told octets
            then self.new.meter.octets else self.old.meter.told) }
        ensures draws { is_due self.old.meter.octets self.old.meter.told octets ≡ true →
            Keeps (E.contents self.old.drawing.terminal) (E.contents self.new.drawing.terminal)
            ⊎ Draws (line_text self.new.meter.octets self.new.ended)
            (E.contents self.old.drawing.terminal) (E.contents self.new.drawing.terminal) }
        ensures stands { is_due self.old.meter.octets self.old.meter.told octets ≡ true →
            self.new.drawing.stands ≡ true }
        ensures early { is_due self.old.meter.octets self.old.meter.told octets ≡ false →
            self.new.drawing ≡ self.old.drawing }
    {
        self.ended = octets == 0;
        if self.meter.count(octets) {
            self.draw(alloc);
        }
    }

    // Draws the line of the octets that were counted.
    fn draw(&mut self, alloc: Global)
        ensures draws { Keeps (E.contents self.old.drawing.terminal) (E.contents self.new.drawing.terminal)
            ⊎ Draws (line_text self.old.meter.octets self.old.ended)
            (E.contents self.old.drawing.terminal) (E.contents self.new.drawing.terminal) }
        ensures stands { self.new.drawing.stands ≡ true }
        ensures same { (self.new.meter ≡ self.old.meter) × (self.new.ended ≡ self.old.ended) }
    {
        self.drawing.draw(alloc, self.meter.octets(), self.ended);
    }
}
