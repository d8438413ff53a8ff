// Octets as a record: the shape is tested first, then all entries are read into slots from the first on, then each is judged.
// What a function asks of an index or a place is a clause of its own, since each is of another number.
ghost use Rattle.std.specs.Prelude.{◌≡◌, ◌+◌, ◌≤◌, ◌<◌, drop, get_or, length};
ghost use Rattle.std.specs.Option.{MatchOption};
ghost use Rattle.uslp_octets.specs.Octets.{AreOctets, word};
ghost use Rattle.uslp_record.specs.Made.{Openable, SoundTotals, Sound};
ghost use Rattle.uslp_form.specs.Form.{restored};
ghost use Rattle.uslp_form.specs.FromRow.{unheard_long};
ghost use Rattle.uslp_saved.specs.Reading.{channel_from, totals_from, first_count, second_count, form_long, place_of, entries_of_octets, Shaped, FlagFits, Flagged, Tells, FirstAt, Above, Admitted, AllAdmitted};

use crate::columns::{Section, entries_len, flag_at, flag_len};
use crate::saving::rank_of;
use uslp_form::Form;
use uslp_kinds::{BypassSequenceControlFlag, MAX_COUNT_LEN, MAX_VC_ID};
use uslp_octets::be_number;
use uslp_record::{Channel, ChannelRecord, SLOTS, SlotState, Totals};

// Octets that have the shape of a form, and their counts: how many entries are not heard, and how many there are in all.
#[derive(Clone, Copy)]
pub(crate) struct Octets<'a> {
    form: Form,
    from: &'a [u8],
    unheard: usize,
    total: usize,
    ghost octets: { AreOctets from.now },
    ghost long: { form_long form from.now ≡ length from.now },
    ghost first: { unheard ≡ first_count form from.now },
    ghost all: { total ≡ first_count form from.now + second_count form from.now },
    ghost few: { total ≤ 8 },
}

impl<'a> Octets<'a> {
    // None where the octets do not have the shape: at most eight entries, and as many octets as the two counts say.
    pub(crate) fn shaped(form: Form, from: &'a [u8]) -> Option<Octets<'a>>
        ensures { MatchOption result (Shaped form from.now → ⊥) (λ found. (found.form ≡ form) × (found.from.now ≡ from.now)) }
    {
        let unheard = usize::from(*from.first()?);
        let second = 1 + entries_len(form, Section::Unheard, unheard);
        let heard = usize::from(*from.get(second)?);
        let total = unheard + heard;
        if total > SLOTS {
            return None;
        }
        if from.len() != second + 1 + entries_len(form, Section::Heard, heard) {
            return None;
        }
        Some(Octets {
            form,
            from,
            unheard,
            total,
        })
    }

    // Each entry's flag is 0 or 1.
    pub(crate) fn flags_fit(&self) -> bool
        ensures { Tells result (Flagged self.now.form self.now.from.now) }
    {
        (0..self.total).all(|i| self.flag_fits(i))
    }

    fn flag_fits(&self, i: usize) -> bool
        requires { i < self.now.total }
        ensures { Tells result (FlagFits self.now.form (drop (place_of self.now.form self.now.unheard i) self.now.from.now)) }
    {
        flag_at(self.form, self.from, self.place_of(i) + 3) <= 1
    }

    // All entries, in slots from the first on.
    pub(crate) fn read_all(&self) -> ChannelRecord
        ensures { result ≡ restored (entries_of_octets self.now.form self.now.from.now) }
    {
        let mut next = ChannelRecord::new();
        for i in 0..self.total {
            next.slots[i].state = self.entry(i);
        }
        next
    }

    fn entry(&self, i: usize) -> SlotState
        requires { i < self.now.total }
        ensures { result ≡ get_or (entries_of_octets self.now.form self.now.from.now) i SlotState.Closed }
    {
        let at = self.place_of(i);
        let channel = channel_at(self.form, self.from, at);
        let width_at = at + 3 + flag_len(self.form);
        let width = self.from[width_at];
        if i < self.unheard {
            return SlotState::Opened { channel, width };
        }
        SlotState::Heard {
            channel,
            width,
            totals: totals_at(self.from, width_at + 1),
        }
    }

    // Where entry i begins.
    fn place_of(&self, i: usize) -> usize
        requires { i < self.now.total }
        ensures { (result ≡ place_of self.now.form self.now.unheard i) × (result < 12802) }
    {
        if i < self.unheard {
            return 1 + entries_len(self.form, Section::Unheard, i);
        }
        2 + entries_len(self.form, Section::Unheard, self.unheard)
            + entries_len(self.form, Section::Heard, i - self.unheard)
    }

    // Each of the entries, read into these slots, is as a good form asks.
    pub(crate) fn admits(&self, channels: ChannelRecord) -> bool
        ensures { Tells result (AllAdmitted self.now.form channels self.now.unheard self.now.total) }
    {
        (0..self.total).all(|i| self.admits_slot(channels, i))
    }

    // The entry in slot i is one that calls make, stands above the one before it in its section, and no slot before it holds its channel.
    fn admits_slot(&self, channels: ChannelRecord, i: usize) -> bool
        requires { i < 8 }
        ensures { Tells result (Admitted self.now.form channels self.now.unheard i) }
    {
        let state = channels.slots[i].state;
        sound(state) && self.is_above(channels, i) && is_first(channels, i, state)
    }

    fn is_above(&self, channels: ChannelRecord, i: usize) -> bool
        requires { i < 8 }
        ensures { Tells result (Above self.now.form channels self.now.unheard i) }
    {
        let slots = channels.slots;
        i == 0
            || i == self.unheard
            || rank_of(self.form, slots[i - 1].state) < rank_of(self.form, slots[i].state)
    }
}

// A column that is left out says 0: form 1 is for sequence-controlled channels.
fn channel_at(form: Form, from: &[u8], at: usize) -> Channel
    requires { at + unheard_long form ≤ length from.now }
    ensures { result ≡ channel_from form at from.now }
{
    let flag = flag_at(form, from, at + 3);
    Channel {
        spacecraft_id: u16::from_be_bytes([from[at], from[at + 1]]),
        vc_id: from[at + 2],
        sequence_control_flag: BypassSequenceControlFlag::from(flag),
    }
}

fn totals_at(from: &[u8], at: usize) -> Totals
    requires { at + 40 ≤ length from.now }
    ensures { result ≡ totals_from at from.now }
{
    Totals {
        last: eight_at(from, at),
        handed_on: eight_at(from, at + 8),
        missing: eight_at(from, at + 16),
        repeats: eight_at(from, at + 24),
        late: eight_at(from, at + 32),
    }
}

// The number that eight octets make.
fn eight_at(from: &[u8], at: usize) -> u64
    requires { at + 8 ≤ length from.now }
    ensures { result ≡ word at 8 from.now }
{
    be_number(&from[at..at + 8])
}

#[tactic(auto, using(crate::proofs::Telling::first_open))]
fn is_first(channels: ChannelRecord, i: usize, state: SlotState) -> bool
    requires { i < 8 }
    ensures { Tells result (FirstAt channels i state) }
{
    match state {
        SlotState::Closed => true,
        SlotState::Opened { channel, .. } | SlotState::Heard { channel, .. } => {
            channels.search(channel) == Some(i)
        }
    }
}

// What stands in a slot is what calls make.
fn sound(state: SlotState) -> bool
    ensures { Tells result (Sound state) }
{
    match state {
        SlotState::Closed => true,
        SlotState::Opened { channel, width } => openable(channel, width),
        SlotState::Heard {
            channel,
            width,
            totals,
        } => openable(channel, width) && sound_totals(width, totals),
    }
}

// As `open_channel` tests it; here what the test tells is `Openable`.
fn openable(channel: Channel, width: u8) -> bool
    ensures { Tells result (Openable channel width) }
{
    channel.vc_id <= MAX_VC_ID && 0 < width && width <= MAX_COUNT_LEN
}

#[tactic(auto, using(uslp_record::proofs::Count::counts_shift))]
fn sound_totals(width: u8, totals: Totals) -> bool
    requires { width ≤ 7 }
    ensures { Tells result (SoundTotals width totals) }
{
    // in two steps: the check finds no proof of one conjunction
    if totals.last >= 1 << (8 * width) || totals.handed_on == 0 {
        return false;
    }
    !totals.is_full()
}
