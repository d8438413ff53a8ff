// The reader on a slice and numbers: headers, OCF, and where the data stand in the lent octets.
#![tactic(auto)]

ghost use Rattle.std.specs.Prelude.{◌≡◌, ◌+◌, ◌≤◌, cond, length, drop};
ghost use Rattle.uslp_octets.specs.Octets.{PartOf};
ghost use Rattle.uslp_kinds.specs.Outcome.{done};
ghost use Rattle.uslp_primary_header.specs.Header.{len_header, len_frame, header_reading};
ghost use Rattle.uslp_data_field_header.specs.Field.{field_reading};
ghost use Rattle.uslp_reader.specs.Reader.{ocf_at, frame_with, frame_reading, contents_in, contents_at, contents_read, contents_read_at};
ghost use Rattle.uslp_layout.specs.Layout.{data_start};
ghost use Rattle.uslp_kinds.specs.Answers.{paper};

use uslp_checksum::checksum;
use uslp_data_field_header::TransferFrameDataFieldHeader;
use uslp_kinds::{ManagedParameters, Refusal, SourceOrDestField};
use uslp_octets::part;
use uslp_primary_header::PrimaryHeader;

// What a frame says, and where its data stand in the octets that it was read from: two numbers, as `contents_at` names them.
#[derive(Clone, Copy, Debug)]
pub struct TransferFrame {
    pub primary_header: PrimaryHeader,
    pub data_field_header: TransferFrameDataFieldHeader,
    pub operational_control_field: Option<u32>,
    pub data_start: usize,
    pub data_len: usize,
}

impl TransferFrame {
    // Refuses, in this order: SHORT_SOURCE, TRUNCATED, SHORT_SOURCE, BAD_VERSION, SHORT_SOURCE (count, whole frame, data field
    // header), BAD_PROTOCOL, FRAME_TOO_SHORT, BAD_CHECKSUM.
    #[tactic(auto, unfolding(crate::specs::Reader::frame_reading))]
    pub fn from_bytes(buf: &[u8], managed: ManagedParameters) -> Result<TransferFrame, Refusal>
        ensures { paper result ≡ frame_reading buf.now managed }
    {
        read_whole(buf, managed, PrimaryHeader::from_bytes(buf)?)
    }

    pub fn len_frame(self) -> usize
        ensures { result ≡ len_frame self.primary_header }
    {
        self.primary_header.len_frame()
    }

    pub fn vc_id(self) -> u8
        ensures { result ≡ self.primary_header.vc_id }
    {
        self.primary_header.vc_id
    }

    pub fn map_id(self) -> u8
        ensures { result ≡ self.primary_header.map_id }
    {
        self.primary_header.map_id
    }

    pub fn spacecraft_id(self) -> u16
        ensures { result ≡ self.primary_header.spacecraft_id }
    {
        self.primary_header.spacecraft_id
    }

    pub fn source_or_dest_field(self) -> SourceOrDestField
        ensures { result ≡ self.primary_header.source_or_dest_field }
    {
        self.primary_header.source_or_dest_field
    }

    pub fn primary_header(self) -> PrimaryHeader
        ensures { result ≡ self.primary_header }
    {
        self.primary_header
    }

    pub fn data_field_header(self) -> TransferFrameDataFieldHeader
        ensures { result ≡ self.data_field_header }
    {
        self.data_field_header
    }

    pub fn operational_control_field(self) -> Option<u32>
        ensures { result ≡ self.operational_control_field }
    {
        self.operational_control_field
    }

    // The whole lent buffer, octets after the frame included.
    pub fn raw_frame(self, buf: &[u8]) -> &[u8]
        ensures { result ≡ buf.entry }
    {
        buf
    }

    // The data as a part of the octets that the frame was read from; nothing where they do not reach so far.
    pub fn data(self, buf: &[u8]) -> &[u8]
        ensures { PartOf buf.entry (contents_at self buf.now) (contents_in self buf.now) result }
    {
        part(buf, self.data_start, self.data_len)
    }
}

// The data that an answer shows: nothing on a refusal.
pub fn data_of(answer: Result<TransferFrame, Refusal>, buf: &[u8]) -> &[u8]
    ensures { PartOf buf.entry (contents_read_at (paper answer) buf.now) (contents_read (paper answer) buf.now) result }
{
    match answer {
        Ok(frame) => frame.data(buf),
        Err(_) => &buf[0..0],
    }
}

// The frame whose header stands: SHORT_SOURCE (whole frame), then the data field header's.
#[tactic(auto, unfolding(crate::specs::Reader::frame_reading))]
fn read_whole(
    buf: &[u8],
    managed: ManagedParameters,
    header: PrimaryHeader,
) -> Result<TransferFrame, Refusal>
    requires { header_reading buf.now ≡ done header }
    ensures { paper result ≡ frame_reading buf.now managed }
{
    let found = buf.len();
    let expected = header.len_frame();
    if found < expected {
        return Err(Refusal::ShortSource { found, expected });
    }
    let start = header.len_header();
    let field = TransferFrameDataFieldHeader::from_bytes(&buf[start..])?;
    read_body(buf, managed, header, field)
}

// The frame whose two headers stand, which go apart as `needed` names them: FRAME_TOO_SHORT, BAD_CHECKSUM.
#[tactic(auto, unfolding(crate::specs::Reader::frame_reading))]
fn read_body(
    buf: &[u8],
    managed: ManagedParameters,
    header: PrimaryHeader,
    field: TransferFrameDataFieldHeader,
) -> Result<TransferFrame, Refusal>
    requires { (header_reading buf.now ≡ done header)
        × (len_frame header ≤ length buf.now)
        × (field_reading (drop (len_header header) buf.now) ≡ done field) }
    ensures { paper result ≡ frame_reading buf.now managed }
{
    let length = header.len_frame();
    let needed = uslp_layout::needed_len(header, field, managed);
    if length < needed {
        return Err(Refusal::FrameTooShort { length, needed });
    }
    if managed.has_fecf {
        let stored = u16::from_be_bytes([buf[length - 2], buf[length - 1]]);
        // the register as it stands before the FECF: the one pass gives the test and the number that a refusal shows
        let computed = checksum(&buf[0..length - 2]);
        if stored != computed {
            return Err(Refusal::BadChecksum { stored, computed });
        }
    }
    Ok(frame_of(buf, header, field, length - needed))
}

// The frame that stands in the octets with so much data.
fn frame_of(
    buf: &[u8],
    header: PrimaryHeader,
    field: TransferFrameDataFieldHeader,
    data_len: usize,
) -> TransferFrame
    requires { data_start header field + data_len + cond header.ocf_flag 4 0 ≤ length buf.now }
    ensures { result ≡ frame_with header field data_len buf.now }
{
    let data_start = uslp_layout::data_start(header, field);
    TransferFrame {
        primary_header: header,
        data_field_header: field,
        operational_control_field: ocf_at(buf, header.ocf_flag, data_start + data_len),
        data_start,
        data_len,
    }
}

fn ocf_at(buf: &[u8], flag: bool, at: usize) -> Option<u32>
    requires { at + cond flag 4 0 ≤ length buf.now }
    ensures { result ≡ ocf_at flag at buf.now }
{
    if flag {
        Some(u32::from_be_bytes([buf[at], buf[at + 1], buf[at + 2], buf[at + 3]]))
    } else {
        None
    }
}
