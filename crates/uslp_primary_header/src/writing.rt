// Writing the primary header.
ghost use Rattle.std.specs.Prelude.{◌≡◌};
ghost use Rattle.uslp_kinds.specs.Outcome.{done, leaving};
ghost use Rattle.uslp_kinds.specs.Kinds.{count_bad};
ghost use Rattle.uslp_primary_header.specs.Header.{header_checking, header_writing};
ghost use Rattle.uslp_kinds.specs.Answers.{paper};

use crate::fixed::fixed_of;
use crate::{FIXED_LEN, PrimaryHeader};
use uslp_kinds::{MAX_COUNT_LEN, MAX_MAP_ID, MAX_VC_ID, Refusal};
use uslp_octets::put_be_number;

impl PrimaryHeader {
    // The header itself where it can be written, which callers go on with, and no type that says so. Refuses BAD_FIELD, then BAD_COUNT.
    #[tactic(auto, unfolding(crate::specs::Header::header_checking))]
    pub fn checked(self) -> Result<PrimaryHeader, Refusal>
        ensures { paper result ≡ header_checking self }
    {
        let width = self.vc_frame_count_len;
        let count = self.vc_frame_count;
        if self.vc_id > MAX_VC_ID || self.map_id > MAX_MAP_ID || width > MAX_COUNT_LEN {
            return Err(Refusal::BadField);
        }
        if count_bad(width, count) {
            return Err(Refusal::BadCount { count, width });
        }
        Ok(self)
    }

    // Length and OCF flag are written as they are. Refuses BAD_FIELD, BAD_COUNT, SHORT_TARGET.
    #[tactic(auto, unfolding(crate::specs::Header::header_writing, crate::specs::Header::header_checking))]
    pub fn write_to_slice(self, buf: &mut [u8]) -> Result<usize, Refusal>
        ensures { leaving (paper result) buf.new ≡ header_writing self buf.old }
    {
        put_header(self.checked()?, buf)
    }
}

// A count must be below 256 to the power of its width.
pub(crate) fn count_bad(width: u8, count: u64) -> bool
    ensures { result ≡ count_bad width count }
{
    if width > MAX_COUNT_LEN {
        return false;
    }
    count >> (8 * width) != 0
}

// A header that can be written, over the front of the octets.
fn put_header(header: PrimaryHeader, buf: &mut [u8]) -> Result<usize, Refusal>
    requires { header_checking header ≡ done header }
    ensures { leaving (paper result) buf.new ≡ header_writing header buf.old }
{
    let found = buf.len();
    let expected = header.len_header();
    if found < expected {
        return Err(Refusal::ShortTarget { found, expected });
    }
    put_be_number(fixed_of(header), &mut buf[0..FIXED_LEN]);
    put_be_number(header.vc_frame_count, &mut buf[FIXED_LEN..expected]);
    Ok(expected)
}
