// A reader that keeps the lent octets beside what was found in them: beside TransferFrame, as docs/PROMISES.md lists the forms.
ghost use Rattle.std.specs.Prelude.{◌≡◌, length};
ghost use Rattle.uslp_octets.specs.Octets.{PartOf};
ghost use Rattle.uslp_primary_header.specs.Header.{len_frame};
ghost use Rattle.uslp_reader.specs.Reader.{frame_reading, contents_read, contents_read_at};
ghost use Rattle.uslp_lent.specs.Accessors.{of_frame};
ghost use Rattle.uslp_kinds.specs.Answers.{paper};

use uslp_data_field_header::TransferFrameDataFieldHeader;
use uslp_kinds::{ManagedParameters, Refusal, SourceOrDestField};
use uslp_primary_header::PrimaryHeader;
use uslp_reader::{TransferFrame, data_of};

// Stands on a refusal too, so that it shows the octets that it was given: `found` says which it is.
#[derive(Clone, Copy, Debug)]
pub struct TransferFrameReader<'a> {
    pub raw: &'a [u8],
    pub found: Result<TransferFrame, Refusal>,
}

// Every accessor but `raw_frame` and `data` answers the reader's refusal where there is no frame, so that none is mistaken for one.
impl<'a> TransferFrameReader<'a> {
    // The refusals are those of TransferFrame::from_bytes, and `answer` shows them.
    pub fn from_bytes(buf: &'a [u8], managed: ManagedParameters) -> TransferFrameReader<'a>
        ensures { (result.raw ≡ buf.entry) × (paper result.found ≡ frame_reading buf.now managed) }
    {
        TransferFrameReader {
            raw: buf,
            found: TransferFrame::from_bytes(buf, managed),
        }
    }

    pub fn answer(self) -> Result<TransferFrame, Refusal>
        ensures { result ≡ self.entry.found }
    {
        self.found
    }

    // The whole lent buffer, octets after the frame included.
    pub fn raw_frame(self) -> &'a [u8]
        ensures { result ≡ self.entry.raw }
    {
        self.raw
    }

    // The data as a part of the lent buffer; nothing on a refusal.
    pub fn data(self) -> &'a [u8]
        ensures { PartOf self.entry.raw
            (contents_read_at (paper self.entry.found) self.entry.raw.now)
            (contents_read (paper self.entry.found) self.entry.raw.now)
            result }
    {
        data_of(self.found, self.raw)
    }

    pub fn len_frame(self) -> Result<usize, Refusal>
        ensures { paper result ≡ of_frame (λ x. len_frame x.primary_header) (paper self.entry.found) }
    {
        self.found.map(|frame| frame.len_frame())
    }

    pub fn primary_header(self) -> Result<PrimaryHeader, Refusal>
        ensures { paper result ≡ of_frame (λ x. x.primary_header) (paper self.entry.found) }
    {
        self.found.map(|frame| frame.primary_header())
    }

    pub fn data_field_header(self) -> Result<TransferFrameDataFieldHeader, Refusal>
        ensures { paper result ≡ of_frame (λ x. x.data_field_header) (paper self.entry.found) }
    {
        self.found.map(|frame| frame.data_field_header())
    }

    pub fn operational_control_field(self) -> Result<Option<u32>, Refusal>
        ensures { paper result ≡ of_frame (λ x. x.operational_control_field) (paper self.entry.found) }
    {
        self.found.map(|frame| frame.operational_control_field())
    }

    pub fn vc_id(self) -> Result<u8, Refusal>
        ensures { paper result ≡ of_frame (λ x. x.primary_header.vc_id) (paper self.entry.found) }
    {
        self.found.map(|frame| frame.vc_id())
    }

    pub fn map_id(self) -> Result<u8, Refusal>
        ensures { paper result ≡ of_frame (λ x. x.primary_header.map_id) (paper self.entry.found) }
    {
        self.found.map(|frame| frame.map_id())
    }

    pub fn spacecraft_id(self) -> Result<u16, Refusal>
        ensures { paper result ≡ of_frame (λ x. x.primary_header.spacecraft_id) (paper self.entry.found) }
    {
        self.found.map(|frame| frame.spacecraft_id())
    }

    pub fn source_or_dest_field(self) -> Result<SourceOrDestField, Refusal>
        ensures { paper result ≡ of_frame (λ x. x.primary_header.source_or_dest_field) (paper self.entry.found) }
    {
        self.found.map(|frame| frame.source_or_dest_field())
    }
}

// Plain parameters and a plain result.
pub fn frame_data<'a>(buf: &'a [u8], managed: ManagedParameters) -> &'a [u8]
    ensures { PartOf buf.entry
        (contents_read_at (frame_reading buf.now managed) buf.now)
        (contents_read (frame_reading buf.now managed) buf.now)
        result }
{
    TransferFrameReader::from_bytes(buf, managed).data()
}

pub fn frame_data_len(buf: &[u8], managed: ManagedParameters) -> usize
    ensures { result ≡ length (contents_read (frame_reading buf.now managed) buf.now) }
{
    frame_data(buf, managed).len()
}
