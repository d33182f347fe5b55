//! Answers that a source hears.
ghost use Rattle.std.specs.Prelude.{◌≡◌, OnOk, true};
ghost use Rattle.abt_actor.specs.Actor.{is_asking_in};
ghost use Rattle.abt_weave.specs.Projections.{past_of};
ghost use Rattle.abt_serving.specs.Messages.{LiesHome};
ghost use Rattle.abt_history.specs.Histories.{happened};
ghost use Rattle.abt_history.specs.Modes.{When};
ghost use Rattle.abt_links.specs.SourceWorkers.{Listened, StaysHome, worked};

use crate::Carrying;
use crate::access_line::AccessLine;
use crate::source_worker::SourceWorker;
use abt_actor::SourceCommand;
use abt_cell::Answer;
use std::alloc::AllocError;
use std::collections::VecDeque;
use std::sync::{Mutex, Wait};
use std::thread;

// The oldest answer in a box, if there is one.
fn taken_from<T: Drop, R: Wait>(rt: &R, answers: &Mutex<VecDeque<T>>) -> Option<T> {
    answers.lock(rt).pop_front()
}

impl<K: Carrying> SourceWorker<K> {
    // Looks for answers at most this often, while the source waits for one.
    pub(crate) fn listen<R: Wait, G>(
        &mut self,
        rt: &R,
        line: &AccessLine<K, G>,
        turns: u32,
    ) -> Result<(), AllocError>
        ensures ok { OnOk result (Listened self.old.site.vc self.old.site.conn turns (worked self.old)
            (worked self.new)) }
        ensures home { OnOk result (StaysHome self.old.site self.new.site) }
    {
        for _turn in 0..turns {
            if !self.site.is_asking() {
                break;
            }
            match taken_from(rt, line.answers) {
                Some(told) => self.be_told(rt, told)?,
                None => thread::yield_now(),
            }
        }
        Ok(())
    }

    // Has the source that waits take what lay in its box.
    fn be_told<R: Wait>(&mut self, rt: &R, told: K::Told) -> Result<(), AllocError>
        requires { is_asking_in self.old.site.actor.state ≡ true }
        ensures ok { OnOk result (Listened self.old.site.vc self.old.site.conn 1 (worked self.old)
            (worked self.new)) }
        ensures home { OnOk result (StaysHome self.old.site self.new.site) }
    {
        match K::heard(self.site.conn(), told) {
            Some((answer, front)) => self.hear(rt, answer, &front),
            None => Ok(()),
        }
    }

    // Has the source that waits take an answer that was sent to it, by what was seen.
    fn hear<R: Wait>(&mut self, rt: &R, answer: Answer, seen: &K::Front) -> Result<(), AllocError>
        requires asking { is_asking_in self.old.site.actor.state ≡ true }
        requires said { When K.kept
            (LiesHome K.net (past_of K.net (happened (K.log seen.now))) self.old.site.conn answer) }
        ensures ok { OnOk result (Listened self.old.site.vc self.old.site.conn 1 (worked self.old)
            (worked self.new)) }
        ensures home { OnOk result (StaysHome self.old.site self.new.site) }
    {
        self.carry_out(rt, seen, &SourceCommand::Told(answer))?;
        Ok(())
    }
}
