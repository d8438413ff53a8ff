// Hearing a frame of a channel, as numbers.
ghost use Rattle.std.specs.Prelude.{◌≡◌, ◌<◌, ◌≤◌, ◌^◌, ◌∷◌, [], MatchResult};
ghost use Rattle.uslp_kinds.specs.Outcome.{done, refused, first_of};
ghost use Rattle.uslp_kinds.specs.Answers.{paper, refusal};
ghost use Rattle.uslp_record.specs.Slots.{slot_of};
ghost use Rattle.uslp_record.specs.Record.{keeping};
ghost use Rattle.uslp_record.specs.declared.SlotState.{SlotState};
ghost use Rattle.uslp_record.specs.Judging.{ahead, arrival_of, totals_after, first_totals, overfull, arrival_at, totals_at, width_at, count_checks, slot_checks, count_hearing, slot_judging};

use crate::{Arrival, Channel, ChannelRecord, MOST, Recorded, Slot, SlotState, Totals};
use uslp_kinds::{MAX_COUNT_LEN, Refusal};

impl ChannelRecord {
    // Hears a frame of this channel, width and count. Refuses BAD_FIELD for a width that no frame has, BAD_COUNT for a count
    // that does not fit it, NOT_OPEN, OTHER_WIDTH, TOTAL_FULL.
    #[tactic(auto, unfolding(crate::specs::Judging::judging, crate::specs::Judging::slot_judging))]
    pub fn hear_count(self, channel: Channel, width: u8, count: u64) -> Recorded<Arrival>
        ensures { keeping (paper result.answer) result.next ≡ count_hearing self channel width count }
    {
        let mut next = self;
        let answer = next.hear_in_place(channel, width, count);
        Recorded { answer, next }
    }

    // The same where the record stands: one handed over and back is copied whole.
    #[tactic(auto, unfolding(crate::specs::Judging::judging, crate::specs::Judging::slot_judging), using(uslp_kinds::proofs::Back::passed_on))]
    pub fn hear_in_place(
        &mut self,
        channel: Channel,
        width: u8,
        count: u64,
    ) -> Result<Arrival, Refusal>
        ensures { keeping (paper result) self.new ≡ count_hearing self.old channel width count }
    {
        let fitting = Width::of_count(width, count)?;
        let at = self.search(channel).ok_or(Refusal::NotOpen)?;
        let (arrival, slot) = self.slots[at].judge(channel, fitting, count)?;
        self.slots[at] = slot;
        Ok(arrival)
    }
}

impl Slot {
    // The same for whoever holds the slot that the search found: a caller who replaces it copies no record.
    // Refuses BAD_FIELD, BAD_COUNT, OTHER_WIDTH, TOTAL_FULL.
    #[tactic(auto, unfolding(crate::specs::Judging::slot_judging), using(uslp_kinds::proofs::Back::passed_on))]
    pub fn judge_count(
        self,
        channel: Channel,
        width: u8,
        count: u64,
    ) -> Result<(Arrival, Slot), Refusal>
        ensures { paper result ≡ slot_judging self channel width count }
    {
        self.judge(channel, Width::of_count(width, count)?, count)
    }

    // The same of a count that fits. Refuses OTHER_WIDTH, TOTAL_FULL.
    fn judge(self, channel: Channel, width: Width, count: u64) -> Result<(Arrival, Slot), Refusal>
        ensures { paper result
            ≡ first_of (slot_checks self.state width.octets count)
            (done (arrival_at self.state count, slot_of (SlotState.Heard channel width.octets (totals_at self.state count)))) }
    {
        let (arrival, totals) = self.state.step(width, count)?;
        let state = SlotState::Heard {
            channel,
            width: width.octets,
            totals,
        };
        Ok((arrival, Slot { state }))
    }
}

// How many octets a count has: so few that all its counts are a number of 64 bits.
#[derive(Clone, Copy)]
struct Width {
    octets: u8,
    ghost narrow: { octets ≤ 7 },
}

impl Width {
    // The width of this count. Refuses BAD_FIELD, and BAD_COUNT for a count that does not fit it.
    fn of_count(octets: u8, count: u64) -> Result<Width, Refusal>
        ensures { MatchResult result
            (λ width. (width.octets ≡ octets) × (count < 256 ^ octets))
            (λ e. refusal e ≡ first_of (count_checks octets count) (done octets)) }
    {
        if octets > MAX_COUNT_LEN {
            return Err(Refusal::BadField);
        }
        let width = Width { octets };
        if count >= width.counts() {
            return Err(Refusal::BadCount {
                count,
                width: octets,
            });
        }
        Ok(width)
    }

    // How many counts it has.
    #[tactic(auto, using(crate::proofs::Count::counts_shift))]
    fn counts(self) -> u64
        ensures { result ≡ 256 ^ self.octets }
    {
        1 << (8 * self.octets)
    }

    // New count less last by wrapping subtraction, reduced to the width.
    #[tactic(auto, using(crate::proofs::Count::counts_positive, crate::proofs::Count::ahead_is))]
    fn ahead(self, count: u64, last: u64) -> u64
        ensures { result ≡ ahead self.octets count last }
    {
        count.wrapping_sub(last) % self.counts()
    }

    fn arrival(self, d: u64) -> Arrival
        ensures { result ≡ arrival_of self.octets d }
    {
        if d == 0 {
            return Arrival::Repeat;
        }
        if d <= self.counts() / 2 {
            return Arrival::New(d - 1);
        }
        Arrival::Late
    }
}

impl SlotState {
    // 0 for a closed slot (`width_at`).
    fn width(self) -> u8
        ensures { result ≡ width_at self }
    {
        match self {
            SlotState::Closed => 0,
            SlotState::Opened { width, .. } | SlotState::Heard { width, .. } => width,
        }
    }

    // What a frame of this width and count is to the channel, and the totals after it. Refuses OTHER_WIDTH, TOTAL_FULL.
    fn step(self, width: Width, count: u64) -> Result<(Arrival, Totals), Refusal>
        ensures { paper result ≡ first_of (slot_checks self width.octets count) (done (arrival_at self count, totals_at self count)) }
    {
        let frame = width.octets;
        let opened = self.width();
        if frame != opened {
            return Err(Refusal::OtherWidth { frame, opened });
        }
        let SlotState::Heard { totals, .. } = self else {
            return Ok((Arrival::New(0), Totals::first(count)));
        };
        let arrival = width.arrival(width.ahead(count, totals.last));
        Ok((arrival, totals.after(arrival, count)?))
    }
}

impl Totals {
    fn first(count: u64) -> Totals
        ensures { result ≡ first_totals count }
    {
        Totals {
            last: count,
            handed_on: 1,
            missing: 0,
            repeats: 0,
            late: 0,
        }
    }

    // Refuses TOTAL_FULL. A sum that would pass 64 bits stops short of it, which is too high all the same.
    fn after(self, arrival: Arrival, count: u64) -> Result<Totals, Refusal>
        ensures { paper result
            ≡ first_of ((overfull (totals_after arrival count self), refused 17 []) ∷ []) (done (totals_after arrival count self)) }
    {
        let mut next = self;
        match arrival {
            Arrival::New(gap) => {
                next.last = count;
                next.handed_on = next.handed_on.saturating_add(1);
                next.missing = next.missing.saturating_add(gap);
            }
            Arrival::Repeat => {
                next.repeats = next.repeats.saturating_add(1);
            }
            Arrival::Late => {
                next.late = next.late.saturating_add(1);
            }
        }
        if next.is_full() {
            return Err(Refusal::TotalFull);
        }
        Ok(next)
    }

    // Whether one of them stands above the largest.
    pub fn is_full(self) -> bool
        ensures { result ≡ overfull self }
    {
        self.handed_on > MOST || self.missing > MOST || self.repeats > MOST || self.late > MOST
    }
}
