// The channel record on numbers: eight slots by value, and what each call makes of them.
#![tactic(auto)]

ghost use Rattle.std.specs.Prelude.{◌≡◌};
ghost use Rattle.uslp_record.specs.Slots.{empty_record};
ghost use Rattle.uslp_record.specs.Record.{keeping, opening, closing, console_total, showing};
ghost use Rattle.uslp_kinds.specs.Answers.{paper};

use uslp_kinds::{BypassSequenceControlFlag, MAX_COUNT_LEN, MAX_VC_ID, Refusal};

mod counting;
mod searching;

// How many channels a record holds.
pub const SLOTS: usize = 8;

// The largest total of a channel.
pub const MOST: u64 = 0x0FFF_FFFF_FFFF_FFFF;

// A spacecraft id with a channel number and the bypass flag: sequence-controlled and expedited frames are numbered apart.
#[derive(Clone, Copy, Debug, PartialEq, Eq)]
pub struct Channel {
    pub spacecraft_id: u16,
    pub vc_id: u8,
    pub sequence_control_flag: BypassSequenceControlFlag,
}

// What a heard channel has counted; last is the count of its furthest frame.
#[derive(Clone, Copy, Debug, PartialEq, Eq)]
pub struct Totals {
    pub last: u64,
    pub handed_on: u64,
    pub missing: u64,
    pub repeats: u64,
    pub late: u64,
}

#[derive(Clone, Copy, Debug, PartialEq, Eq)]
pub enum SlotState {
    Closed,
    Opened {
        channel: Channel,
        width: u8,
    },
    Heard {
        channel: Channel,
        width: u8,
        totals: Totals,
    },
}

#[derive(Clone, Copy, Debug, PartialEq, Eq)]
pub struct Slot {
    pub state: SlotState,
}

// Eight slots and no map: the memory is fixed, and the search is a form that docs/PROMISES.md lists.
#[derive(Clone, Copy, Debug, PartialEq, Eq)]
pub struct ChannelRecord {
    pub slots: [Slot; SLOTS],
}

// An answer, and the record after the call: on a refusal, the one that was given. No Result of a record, since a caller goes on with
// one either way.
#[derive(Clone, Copy, Debug)]
pub struct Recorded<T> {
    pub answer: Result<T, Refusal>,
    pub next: ChannelRecord,
}

impl<T> Recorded<T> {
    // The call was refused, and leaves the record.
    pub fn refused(next: ChannelRecord, refusal: Refusal) -> Recorded<T>
        ensures { result ≡ record { answer = Err refusal; next = next } }
    {
        Recorded {
            answer: Err(refusal),
            next,
        }
    }
}

// What hearing a frame finds: NEW with how many frames are missing before it, or nothing to hand on.
#[derive(Clone, Copy, Debug, PartialEq, Eq)]
pub enum Arrival {
    New(u64),
    Repeat,
    Late,
}

impl ChannelRecord {
    // All slots closed.
    pub fn new() -> ChannelRecord
        ensures { result ≡ empty_record }
    {
        let state = SlotState::Closed;
        ChannelRecord {
            slots: [Slot { state }; SLOTS],
        }
    }

    // Takes the first closed slot. Refuses BAD_FIELD, ALREADY_OPEN, TABLE_FULL.
    #[tactic(auto, unfolding(crate::specs::Record::opening))]
    pub fn open_channel(self, channel: Channel, width: u8) -> Recorded<()>
        ensures { keeping (paper result.answer) result.next ≡ opening self channel width }
    {
        if channel.vc_id > MAX_VC_ID || width == 0 || width > MAX_COUNT_LEN {
            return Recorded::refused(self, Refusal::BadField);
        }
        if self.search(channel).is_some() {
            return Recorded::refused(self, Refusal::AlreadyOpen);
        }
        let Some(at) = self.first_closed() else {
            return Recorded::refused(self, Refusal::TableFull);
        };
        let state = SlotState::Opened { channel, width };
        Recorded {
            answer: Ok(()),
            next: self.with_state(at, state),
        }
    }

    // Refuses NOT_OPEN.
    #[tactic(auto, unfolding(crate::specs::Record::closing))]
    pub fn close_channel(self, channel: Channel) -> Recorded<()>
        ensures { keeping (paper result.answer) result.next ≡ closing self channel }
    {
        let Some(at) = self.search(channel) else {
            return Recorded::refused(self, Refusal::NotOpen);
        };
        Recorded {
            answer: Ok(()),
            next: self.with_state(at, SlotState::Closed),
        }
    }

    // Width and totals of an open channel. Refuses NOT_OPEN.
    #[tactic(auto, unfolding(crate::specs::Record::showing))]
    pub fn channel_state(self, channel: Channel) -> Result<SlotState, Refusal>
        ensures { paper result ≡ showing self channel }
    {
        let at = self.search(channel).ok_or(Refusal::NotOpen)?;
        Ok(self.slots[at].state)
    }

    // The sum of missing over open channels. Refuses TOTAL_FULL.
    pub fn total_missing(self) -> Result<u64, Refusal>
        ensures { paper result ≡ console_total self }
    {
        let mut sum: u64 = 0;
        for slot in self.slots {
            let missing = slot.state.missing();
            if missing > MOST {
                return Err(Refusal::TotalFull);
            }
            sum += missing;
        }
        Ok(sum)
    }
}
