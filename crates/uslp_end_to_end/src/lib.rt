// Hearing frames that stand end to end, in one call.
#![tactic(auto)]

ghost use Rattle.std.specs.Prelude.{◌≡◌, ℕ, ◌<◌, ◌≤◌, ◌^◌, Ok};
ghost use Rattle.uslp_kinds.specs.Outcome.{done, and_then};
ghost use Rattle.uslp_kinds.specs.Answers.{paper};
ghost use Rattle.uslp_reader.specs.declared.TransferFrame.{TransferFrame};
ghost use Rattle.uslp_record.specs.Record.{keeping};
ghost use Rattle.uslp_record.specs.Judging.{count_hearing};
ghost use Rattle.uslp_record.specs.declared.Arrival.{Arrival};
ghost use Rattle.uslp_hearing.specs.Hearing.{channel_of, frame_arrival};
ghost use Rattle.uslp_end_to_end.specs.Many.{paper_many, no_frames, plus, tally_of, many_hearing, Small};

use uslp_hearing::channel_of;
use uslp_kinds::{ManagedParameters, Refusal};
use uslp_primary_header::PrimaryHeader;
use uslp_reader::TransferFrame;
use uslp_record::{Arrival, ChannelRecord};

// How many frames were NEW, the sum of their gaps, how many were REPEAT and LATE, and how many got 13, 14 and 17.
#[derive(Clone, Copy, Debug, Default, PartialEq, Eq)]
pub struct Tally {
    pub new: u64,
    pub missing: u64,
    pub repeats: u64,
    pub late: u64,
    pub not_open: u64,
    pub other_width: u64,
    pub total_full: u64,
}

// What the call comes to: the place reached, the tally of the frames before it, and the record after them. `stop` is Ok
// where the octets are used up, else the reader's refusal of what is left.
#[derive(Clone, Copy, Debug)]
pub struct ManyHearing {
    pub place: usize,
    pub tally: Tally,
    pub stop: Result<(), Refusal>,
    pub next: ChannelRecord,
}

// Hears frames end to end, until the reader refuses what is left or nothing is. It cannot be refused.
pub fn hear_many(channels: ChannelRecord, buf: &[u8], managed: ManagedParameters) -> ManyHearing
    ensures { paper_many result ≡ many_hearing channels buf.now managed }
{
    let mut next = channels;
    let mut tally = Tally::default();
    let mut place: usize = 0;
    // the place moves by the length of the frame that was found there
    while place < buf.len() {
        match TransferFrame::from_bytes(&buf[place..], managed) {
            Ok(frame) => {
                tally.count(hear_in(&mut next, frame.primary_header));
                place += frame.len_frame();
            }
            Err(refusal) => {
                return ManyHearing {
                    place,
                    tally,
                    stop: Err(refusal),
                    next,
                };
            }
        }
    }
    ManyHearing {
        place,
        tally,
        stop: Ok(()),
        next,
    }
}

// Hears a frame that was read where the record stands: one handed over and back would be copied whole for each frame.
fn hear_in(channels: &mut ChannelRecord, header: PrimaryHeader) -> Result<Arrival, Refusal>
    ensures { keeping (paper result) channels.new
        ≡ count_hearing channels.old (channel_of header) header.vc_frame_count_len header.vc_frame_count }
{
    channels.hear_in_place(
        channel_of(header),
        header.vc_frame_count_len,
        header.vc_frame_count,
    )
}

impl Tally {
    // Counts what a frame was to its channel, or why it was passed over.
    fn count(&mut self, answer: Result<Arrival, Refusal>)
        requires { Small self.old × ((gap : ℕ) → answer ≡ Ok (Arrival.New gap) → gap < 2 ^ 60) }
        ensures { (x : TransferFrame)
            → self.exit.now ≡ plus self.entry.now (tally_of (and_then (paper answer) (λ a. done (frame_arrival x a)))) }
    {
        match answer {
            Ok(Arrival::New(gap)) => {
                self.new += 1;
                self.missing += gap;
            }
            Ok(Arrival::Repeat) => self.repeats += 1,
            Ok(Arrival::Late) => self.late += 1,
            Err(Refusal::NotOpen) => self.not_open += 1,
            Err(Refusal::OtherWidth { .. }) => self.other_width += 1,
            Err(Refusal::TotalFull) => self.total_full += 1,
            Err(_) => {}
        }
    }
}
