// The answers about channels.
use crate::say;
use crate::values::Shown;
use std::fmt::Display;
use std::io::Write;
use std::{fmt, io};
use uslp_hearing::FrameArrival;
use uslp_kinds::Refusal;
use uslp_record::{SlotState, Totals};

pub fn say_heard<W: Write>(
    out: &mut W,
    answer: Result<FrameArrival, Refusal>,
    octets: &[u8],
) -> io::Result<()> {
    say(out, answer.map(|arrival| ArrivalIn { arrival, octets }))
}

// What hearing a frame tells, and the octets that it was read from.
#[derive(Drop)]
struct ArrivalIn<'a> {
    arrival: FrameArrival,
    octets: &'a [u8],
}

impl<'a> Display for ArrivalIn<'a> {
    fn fmt<W: fmt::Write>(&self, f: &mut fmt::Formatter<W>) -> fmt::Result {
        match self.arrival {
            FrameArrival::New { gap, frame } => {
                write!(f, "NEW {gap} {}", Shown(frame.data(self.octets)))
            }
            FrameArrival::Repeat => write!(f, "REPEAT"),
            FrameArrival::Late => write!(f, "LATE"),
        }
    }
}

pub fn say_state<W: Write>(out: &mut W, answer: Result<SlotState, Refusal>) -> io::Result<()> {
    say(out, answer.map(|state| Shown(state)))
}

impl Display for Shown<SlotState> {
    fn fmt<W: fmt::Write>(&self, f: &mut fmt::Formatter<W>) -> fmt::Result {
        match self.0 {
            // no answer has a closed slot
            SlotState::Closed => Ok(()),
            SlotState::Opened { width, .. } => write!(f, "{width} unheard"),
            SlotState::Heard { width, totals, .. } => write!(f, "{width} {}", Shown(totals)),
        }
    }
}

impl Display for Shown<Totals> {
    fn fmt<W: fmt::Write>(&self, f: &mut fmt::Formatter<W>) -> fmt::Result {
        let Totals {
            last,
            handed_on,
            missing,
            repeats,
            late,
        } = self.0;
        write!(f, "{last} {handed_on} {missing} {repeats} {late}")
    }
}
