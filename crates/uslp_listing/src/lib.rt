// The listing of a recording, as text in a lent buffer.
#![tactic(auto)]

ghost use Rattle.std.specs.Prelude.{◌≡◌, ◌≤◌, ◌++◌, length};
ghost use Rattle.uslp_kinds.specs.Outcome.{leaving};
ghost use Rattle.uslp_text.specs.Text.{decimal};
ghost use Rattle.uslp_listing.specs.Listing.{heading, line, summary, lines_of, room, listing_over};
ghost use Rattle.uslp_listing.specs.Page.{Added};
ghost use Rattle.uslp_kinds.specs.Answers.{paper};

use uslp_kinds::{NO_FECF, Refusal};
use uslp_reader::TransferFrame;
use uslp_text::{put_decimal, put_text};

// The most octets that a recording may have.
pub const MAX_RECORDING_LEN: usize = 65536;

// A buffer of this length holds the listing of any recording.
pub const LISTING_ROOM: usize = 524400;

// The listing of a recording over the front of `out`. Refuses SHORT_TARGET for a buffer below the room.
pub fn list(recording: &[u8], out: &mut [u8]) -> Result<usize, Refusal>
    ensures { leaving (paper result) out.new ≡ listing_over recording.now out.old }
{
    let found = out.len();
    if found < LISTING_ROOM {
        return Err(Refusal::ShortTarget {
            found,
            expected: LISTING_ROOM,
        });
    }
    let mut page = Page { out, at: 0 };
    page.put(b"at length spacecraft channel map count data\n");
    if recording.len() > MAX_RECORDING_LEN {
        page.put_summary(0, 0, Refusal::TooLong.number());
        return Ok(page.at);
    }
    page.put_lines(recording);
    Ok(page.at)
}

// A lent buffer, and the place behind the text that stands in it. Not by `write!`, which std promises only where it gives `Ok`.
#[derive(Drop)]
struct Page<'a> {
    out: &'a mut [u8],
    at: usize,
}

impl<'a> Page<'a> {
    // The lines of the frames, end to end, and the summary. Behind the heading they have their room.
    fn put_lines(&mut self, recording: &[u8])
        requires { length recording.now ≤ 65536 }
        ensures added { Added (lines_of recording.now) self.old self.new }
        ensures recording_len_bound { length (heading ++ lines_of recording.now) ≤ room }
    {
        let mut place: usize = 0;
        let mut frames: usize = 0;
        // the place moves by the length of the frame that was found there
        while place < recording.len() {
            match TransferFrame::from_bytes(&recording[place..], NO_FECF) {
                Ok(frame) => {
                    self.put_line(place, frame);
                    place += frame.len_frame();
                    frames += 1;
                }
                Err(refusal) => {
                    self.put_summary(frames, place, refusal.number());
                    return;
                }
            }
        }
        self.put_summary(frames, place, 0);
    }

    // std has no `From` of a `usize`.
    fn put_line(&mut self, place: usize, frame: TransferFrame)
        ensures { Added (line place frame) self.old self.new }
    {
        let header = frame.primary_header;
        self.put_word(place as u64, b" ");
        self.put_word(header.len_frame() as u64, b" ");
        self.put_word(u64::from(header.spacecraft_id), b" ");
        self.put_word(u64::from(header.vc_id), b" ");
        self.put_word(u64::from(header.map_id), b" ");
        self.put_word(header.vc_frame_count, b" ");
        self.put_word(frame.data_len as u64, b"\n");
    }

    // The line prints a number, 0 where nothing stopped the listing: `summary`.
    fn put_summary(&mut self, frames: usize, place: usize, answer: u8)
        ensures { Added (summary frames place answer) self.old self.new }
    {
        self.put(b"frames ");
        self.put_word(frames as u64, b" stopped ");
        self.put_word(place as u64, b" answer ");
        self.put_word(u64::from(answer), b"\n");
    }

    // A numeral, and a text behind it.
    fn put_word(&mut self, value: u64, text: &[u8])
        ensures { Added (decimal value ++ text.now) self.old self.new }
    {
        self.at = put_decimal(value, self.out, self.at);
        self.put(text);
    }

    fn put(&mut self, text: &[u8])
        ensures { Added text.now self.old self.new }
    {
        self.at = put_text(text, self.out, self.at);
    }
}
