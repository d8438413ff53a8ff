// The writer that reserves the data area: headers and OCF first, the FECF when the data stand.
ghost use Rattle.std.specs.Prelude.{◌≡◌, ◌+◌, ◌-◌, ◌≤◌, min, true, ◌++◌, length, take, drop};
ghost use denote.MutBor.{as_bor};
ghost use Rattle.uslp_octets.specs.Octets.{PartOf};
ghost use Rattle.uslp_kinds.specs.Outcome.{done, leaving};
ghost use Rattle.uslp_primary_header.specs.Header.{header_checking};
ghost use Rattle.uslp_data_field_header.specs.Field.{field_checking};
ghost use Rattle.uslp_layout.specs.Layout.{data_start, ocf_octets, with_fecf};
ghost use Rattle.uslp_writer.specs.Frame.{completed, frame_length, header_octets};
ghost use Rattle.uslp_writer.specs.Reserved.{reservation, reserved_octets, reserving, finish_length, finishing, area_in, area_at, filling};
ghost use Rattle.uslp_kinds.specs.Answers.{paper};

use crate::{TransferFrameCreator, TransferFrameCreatorWithReservedData, with_ocf_flag};
use uslp_checksum::checksum;
use uslp_kinds::{MAX_FRAME_LEN, Refusal};
use uslp_layout::{data_start, fecf_len};
use uslp_octets::{copy_octets, put_be_number};
use uslp_primary_header::PrimaryHeader;

impl TransferFrameCreatorWithReservedData {
    // Writes the headers and the OCF; the data area and the FECF's places stay as found.
    // Refuses BAD_FIELD, BAD_COUNT, BAD_POINTER, OCF_MISSING, TOO_LONG, SHORT_TARGET.
    pub fn new(
        frame: TransferFrameCreator,
        data_size: usize,
        buf: &mut [u8],
    ) -> Result<TransferFrameCreatorWithReservedData, Refusal>
        ensures { leaving (paper result) buf.new ≡ reserving frame data_size buf.old }
    {
        let expected = frame.len_written(data_size)?;
        let found = buf.len();
        if found < expected {
            return Err(Refusal::ShortTarget { found, expected });
        }
        Ok(put_reserved(frame, data_size, expected, buf))
    }

    pub fn len_written(self) -> usize
        ensures { result ≡ self.len_written }
    {
        self.len_written
    }

    // The data area, or nothing where finishing would refuse.
    #[tactic(auto, unfolding(crate::specs::Reserved::finish_length))]
    pub fn data(self, buf: &[u8]) -> &[u8]
        ensures { PartOf buf.entry (area_at self buf.now) (area_in self buf.now) result }
    {
        let found = buf.len();
        if finish_len(self, found).is_err() {
            return &buf[0..0];
        }
        let start = self.data_index;
        let end = start + self.data_size;
        &buf[start..end]
    }

    // The data area, lent for writing, or nothing where finishing would refuse. Beside `data`, since a `&` and a `&mut` are two types.
    #[tactic(auto, unfolding(crate::specs::Reserved::finish_length))]
    pub fn data_mut(self, buf: &mut [u8]) -> &mut [u8]
        ensures { PartOf (as_bor buf.entry) (area_at self buf.old) (area_in self buf.old) (as_bor result) }
    {
        let found = buf.len();
        if finish_len(self, found).is_err() {
            return &mut buf[0..0];
        }
        let start = self.data_index;
        let end = start + self.data_size;
        &mut buf[start..end]
    }

    // Lays data over the area as far as both reach, and gives how many octets; the rest of the area stays.
    // Refuses as finishing does: TOO_LONG, FRAME_TOO_SHORT, SHORT_TARGET.
    #[tactic(auto, unfolding(crate::specs::Reserved::finish_length))]
    pub fn fill(self, data: &[u8], buf: &mut [u8]) -> Result<usize, Refusal>
        ensures { leaving (paper result) buf.new ≡ filling self «data».now buf.old }
    {
        finish_len(self, buf.len())?;
        let start = self.data_index;
        let end = start + self.data_size;
        copy_octets(data, &mut buf[start..end]);
        Ok(data.len().min(self.data_size))
    }

    // Writes the FECF if asked for, and gives the total. Refuses TOO_LONG, FRAME_TOO_SHORT, SHORT_TARGET.
    #[tactic(auto, unfolding(crate::specs::Reserved::finish_length))]
    pub fn finish(self, buf: &mut [u8]) -> Result<usize, Refusal>
        ensures { leaving (paper result) buf.new ≡ finishing self buf.old }
    {
        let total = finish_len(self, buf.len())?;
        if self.has_fecf {
            put_fecf(total, buf);
        }
        Ok(total)
    }
}

// The total that finishing gives for a buffer of this length.
#[tactic(auto, unfolding(crate::specs::Reserved::finish_length))]
fn finish_len(frame: TransferFrameCreatorWithReservedData, found: usize) -> Result<usize, Refusal>
    ensures { paper result ≡ finish_length frame found }
{
    let total = frame.len_written;
    // tested one by one, so that no sum can wrap
    if total > MAX_FRAME_LEN
        || frame.data_index > MAX_FRAME_LEN
        || frame.data_size > MAX_FRAME_LEN
    {
        return Err(Refusal::TooLong);
    }
    let needed = frame.data_index + frame.data_size + fecf_len(frame.has_fecf);
    if needed > MAX_FRAME_LEN {
        return Err(Refusal::TooLong);
    }
    if total < needed {
        return Err(Refusal::FrameTooShort {
            length: total,
            needed,
        });
    }
    if found < total {
        return Err(Refusal::ShortTarget {
            found,
            expected: total,
        });
    }
    Ok(total)
}

// The checksum of all octets before them, into the last two of the total.
fn put_fecf(total: usize, buf: &mut [u8])
    requires { (2 ≤ total) × (total ≤ length buf.old) }
    ensures { buf.new ≡ with_fecf true (take (total - 2) buf.old) ++ drop total buf.old }
{
    let end = total - 2;
    let sum = checksum(&buf[0..end]);
    put_be_number(u64::from(sum), &mut buf[end..total]);
}

// Headers and OCF of a frame that has passed its checks.
fn put_reserved(
    frame: TransferFrameCreator,
    data_size: usize,
    total: usize,
    buf: &mut [u8],
) -> TransferFrameCreatorWithReservedData
    requires { (frame_length frame data_size ≡ done total) × (total ≤ length buf.old) }
    ensures { (result ≡ reservation frame data_size) × (buf.new ≡ reserved_octets frame data_size buf.old) }
{
    let start = put_headers(frame, total, buf);
    let end = start + data_size;
    put_ocf(frame.operational_control_field, end, buf);
    TransferFrameCreatorWithReservedData {
        data_index: start,
        data_size,
        len_written: total,
        has_fecf: frame.has_fecf,
    }
}

// Both headers, with the OCF flag and the length updated; gives where the data start.
fn put_headers(frame: TransferFrameCreator, total: usize, buf: &mut [u8]) -> usize
    requires { (header_checking frame.primary_header ≡ done frame.primary_header)
        × (field_checking frame.data_field_header ≡ done frame.data_field_header)
        × (total ≤ 65536)
        × (data_start frame.primary_header frame.data_field_header ≤ length buf.old) }
    ensures { (result ≡ data_start frame.primary_header frame.data_field_header)
        × (buf.new ≡ header_octets frame total ++ drop result buf.old) }
{
    let header = completed_header(frame, total);
    let field = frame.data_field_header;
    let at = header.len_header();
    // both have passed their checks, and the buffer has their room
    let _ = header.write_to_slice(buf);
    let _ = field.write_to_slice(&mut buf[at..]);
    data_start(header, field)
}

// The header that is written in a frame of so many octets.
#[tactic(auto, unfolding(uslp_primary_header::specs::Header::length_setting))]
fn completed_header(frame: TransferFrameCreator, total: usize) -> PrimaryHeader
    requires { total ≤ 65536 }
    ensures { result ≡ completed frame total }
{
    let header = with_ocf_flag(frame);
    header.with_frame_len(total).unwrap_or(header)
}

fn put_ocf(ocf: Option<u32>, at: usize, buf: &mut [u8])
    requires { at + length (ocf_octets ocf) ≤ length buf.old }
    ensures { buf.new ≡ take at buf.old ++ (ocf_octets ocf ++ drop (at + length (ocf_octets ocf)) buf.old) }
{
    if let Some(value) = ocf {
        let end = at + 4;
        put_be_number(u64::from(value), &mut buf[at..end]);
    }
}
