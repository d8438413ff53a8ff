// Hearing a frame: it is read first, then counted; NEW hands its data on.
#![tactic(auto)]

ghost use Rattle.std.specs.Prelude.{◌≡◌};
ghost use Rattle.uslp_octets.specs.Octets.{PartOf};
ghost use Rattle.uslp_record.specs.Record.{keeping};
ghost use Rattle.uslp_hearing.specs.Hearing.{channel_of, frame_arrival, hearing_of_frame, frame_hearing, handed_on, handed_at};
ghost use Rattle.uslp_kinds.specs.Answers.{paper};

use uslp_kinds::{ManagedParameters, Refusal};
use uslp_primary_header::PrimaryHeader;
use uslp_reader::TransferFrame;
use uslp_record::{Arrival, Channel, ChannelRecord, Recorded};

// What hearing a frame finds: NEW, with the frame and how many are missing before it, or nothing to hand on. NEW alone carries the
// frame, so it is no pair of an arrival and a frame; and what it carries has names, which a type parameter of `Arrival` would not give.
#[derive(Clone, Copy, Debug)]
pub enum FrameArrival {
    New { gap: u64, frame: TransferFrame },
    Repeat,
    Late,
}

// Refuses what reading refuses, then NOT_OPEN, OTHER_WIDTH, TOTAL_FULL. By a match, since `?` makes no `Recorded`.
pub fn hear(
    channels: ChannelRecord,
    buf: &[u8],
    managed: ManagedParameters,
) -> Recorded<FrameArrival>
    ensures { keeping (paper result.answer) result.next ≡ frame_hearing channels buf.now managed }
{
    match TransferFrame::from_bytes(buf, managed) {
        Ok(frame) => hear_frame(channels, frame),
        Err(refusal) => Recorded::refused(channels, refusal),
    }
}

// The same of a frame that was read already, so that it is not read twice. Of a frame that no reading gives it refuses BAD_FIELD
// for its width and BAD_COUNT for its count; then NOT_OPEN, OTHER_WIDTH, TOTAL_FULL.
pub fn hear_frame(channels: ChannelRecord, frame: TransferFrame) -> Recorded<FrameArrival>
    ensures { keeping (paper result.answer) result.next ≡ hearing_of_frame channels frame }
{
    let header = frame.primary_header;
    let heard = channels.hear_count(
        channel_of(header),
        header.vc_frame_count_len,
        header.vc_frame_count,
    );
    Recorded {
        answer: heard.answer.map(|arrival| frame_arrival(arrival, frame)),
        next: heard.next,
    }
}

// The data that a hearing hands on: a part of the lent octets, nothing unless the frame is NEW.
pub fn handed_on(answer: Result<FrameArrival, Refusal>, buf: &[u8]) -> &[u8]
    ensures { PartOf buf.entry (handed_at (paper answer) buf.now) (handed_on (paper answer) buf.now) result }
{
    match answer {
        Ok(FrameArrival::New { frame, .. }) => frame.data(buf),
        Ok(FrameArrival::Repeat | FrameArrival::Late) | Err(_) => &buf[0..0],
    }
}

// The channel that a frame belongs to. No `From`: neither type is of this crate.
pub fn channel_of(header: PrimaryHeader) -> Channel
    ensures { result ≡ channel_of header }
{
    Channel {
        spacecraft_id: header.spacecraft_id,
        vc_id: header.vc_id,
        sequence_control_flag: header.sequence_control_flag,
    }
}

fn frame_arrival(arrival: Arrival, frame: TransferFrame) -> FrameArrival
    ensures { result ≡ frame_arrival frame arrival }
{
    match arrival {
        Arrival::New(gap) => FrameArrival::New { gap, frame },
        Arrival::Repeat => FrameArrival::Repeat,
        Arrival::Late => FrameArrival::Late,
    }
}
