// How often each thing was met: schedules, calls and damaged memories, and those of them that agree; each outcome; each refusal.
ghost use Rattle.std.specs.Prelude.{◌<◌};

use crate::stored::{Call, Kind};
use std::io;

#[derive(Drop)]
pub struct Tally {
    counts: [u32; 128],
}

// What is counted with those that agree behind it.
#[derive(Clone, Copy)]
pub enum Tried {
    Schedule,
    Call,
    Damage,
}

impl Tried {
    fn place(self) -> usize
        ensures { result < 64 }
    {
        match self {
            Tried::Schedule => 0,
            Tried::Call => 2,
            Tried::Damage => 4,
        }
    }
}

impl Tally {
    pub fn new() -> Tally {
        Tally { counts: [0; 128] }
    }

    fn count(&mut self, at: usize) {
        if at < 128 {
            self.counts[at] = self.counts[at].saturating_add(1);
        }
    }

    pub fn count_agreed(&mut self, tried: Tried, good: bool) {
        let at = tried.place();
        self.count(at);
        if good {
            self.count(at + 1);
        }
    }

    // Calls that were done stand from 40 on by their kinds, but steps and runs from 8 on by their outcomes; refusals stand from 64 on.
    pub fn count_answer(&mut self, call: Call) {
        if call.number != 0 {
            return self.count(64 + call.number as usize);
        }
        self.count(match call.kind {
            Kind::Step | Kind::Run => 8 + call.first as usize,
            Kind::Load => 41,
            Kind::Move => 44,
            Kind::Read => 45,
            Kind::Other(number) => 40 + number as usize,
        })
    }

    fn met(&self, at: usize) -> u32 {
        words::word_at(&self.counts, at)
    }

    fn say(&self, rt: &impl Print, at: usize, what: &str) -> io::Result<()> {
        let times = self.met(at);
        println!(rt; "{what}{times}")
    }

    pub fn say_outcomes(&self, rt: &impl Print) -> io::Result<()> {
        self.say(rt, 8, "Tried ")?;
        self.say(rt, 9, "Extended ")?;
        self.say(rt, 10, "Answer ")?;
        self.say(rt, 11, "Back ")?;
        self.say(rt, 12, "Left ")?;
        self.say(rt, 13, "Wait ")?;
        self.say(rt, 14, "Finished ")?;
        self.say(rt, 15, "Spent ")?;
        self.say(rt, 32, "Full ")?;
        self.say(rt, 41, "loaded ")?;
        self.say(rt, 44, "moved ")?;
        self.say(rt, 45, "read ")
    }

    fn say_refusal(&self, rt: &impl Print, number: u32) -> io::Result<()> {
        let at = 64 + number as usize;
        if self.met(at) == 0 {
            return Ok(());
        }
        print!(rt; "refused with {number}")?;
        self.say(rt, at, ": ")
    }

    pub fn say_refusals(&self, rt: &impl Print) -> io::Result<()> {
        for number in 0..64u32 {
            self.say_refusal(rt, number)?;
        }
        Ok(())
    }

    // So many of so many agree.
    pub fn say_agreed(&self, rt: &impl Print, tried: Tried, what: &str) -> io::Result<()> {
        let at = tried.place();
        let good = self.met(at + 1);
        let all = self.met(at);
        println!(rt; "{good} of {all} {what} agree")
    }
}
