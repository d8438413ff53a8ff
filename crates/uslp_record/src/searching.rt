// The eight slots: what the state in one says, and which of them a search finds.
ghost use Rattle.std.specs.Prelude.{◌≡◌, ◌<◌, length};
ghost use Rattle.uslp_record.specs.Slots.{state_holds, state_closed, find, slot_found, FoundFirst, vacant, put};
ghost use Rattle.uslp_record.specs.Record.{missing_of};

use crate::{Channel, ChannelRecord, SLOTS, Slot, SlotState};

impl SlotState {
    #[tactic(auto, using(crate::proofs::Equality::equal_is))]
    fn holds(self, channel: Channel) -> bool
        ensures { result ≡ state_holds channel self }
    {
        match self {
            SlotState::Closed => false,
            SlotState::Opened { channel: own, .. } | SlotState::Heard { channel: own, .. } => {
                own == channel
            }
        }
    }

    fn is_closed(self) -> bool
        ensures { result ≡ state_closed self }
    {
        matches!(self, SlotState::Closed)
    }

    pub(crate) fn missing(self) -> u64
        ensures { result ≡ missing_of self }
    {
        match self {
            SlotState::Closed | SlotState::Opened { .. } => 0,
            SlotState::Heard { totals, .. } => totals.missing,
        }
    }
}

impl ChannelRecord {
    // The first slot that holds the channel, in a record that is lent, so that none is copied. A call that takes the loop in is slower.
    #[inline(never)]
    pub fn search(&self, channel: Channel) -> Option<usize>
        ensures { result ≡ slot_found (find channel self.now.slots) }
    {
        self.first_that(|state| state.holds(channel))
    }

    // The first closed slot.
    pub(crate) fn first_closed(&self) -> Option<usize>
        ensures { result ≡ slot_found (vacant self.now.slots) }
    {
        self.first_that(|state| state.is_closed())
    }

    // The first slot whose state passes the test. It counts its index, since a search is a loop that gives the slot number by break
    // (docs/PROMISES.md).
    #[tactic(auto, unfolding(crate::specs::Slots::FoundFirst))]
    fn first_that<F: Fn(SlotState) -> bool>(&self, test: F) -> Option<usize>
        requires { F.IsAlwaysCallable test }
        ensures found { FoundFirst (F.post test) self.now result }
        ensures eight { length self.now.slots ≡ 8 }
    {
        let mut i: usize = 0;
        loop {
            if i >= SLOTS {
                break None;
            }
            if test(self.slots[i].state) {
                break Some(i);
            }
            i += 1;
        }
    }

    // The record with another state in a slot.
    pub(crate) fn with_state(self, at: usize, state: SlotState) -> ChannelRecord
        requires { at < 8 }
        ensures { result ≡ put self at state }
    {
        let mut next = self;
        next.slots[at] = Slot { state };
        next
    }
}
