// The two frame writers. Headers, OCF and FECF choice stand in a value; data and buffer are given to the writing call.
#![tactic(auto)]

ghost use Rattle.std.specs.Prelude.{◌≡◌};
ghost use Rattle.uslp_kinds.specs.Outcome.{done};
ghost use Rattle.uslp_primary_header.specs.Header.{header_checking};
ghost use Rattle.uslp_data_field_header.specs.Field.{field_checking};
ghost use Rattle.uslp_writer.specs.Frame.{flagged, ocf_missing, frame_length};
ghost use Rattle.uslp_kinds.specs.Answers.{paper};

use uslp_data_field_header::TransferFrameDataFieldHeader;
use uslp_kinds::{MAX_FRAME_LEN, ManagedParameters, Refusal};
use uslp_primary_header::PrimaryHeader;

mod reserved;
mod writing;

// A frame but for its data. The OCF stands beside the header's flag, as in a frame: the writer judges where they disagree.
#[derive(Clone, Copy, Debug)]
pub struct TransferFrameCreator {
    pub primary_header: PrimaryHeader,
    pub data_field_header: TransferFrameDataFieldHeader,
    pub operational_control_field: Option<u32>,
    pub has_fecf: bool,
}

// A frame whose headers and OCF are written, as numbers, which `area_at` names; the buffer is lent again to each call.
#[derive(Clone, Copy, Debug)]
pub struct TransferFrameCreatorWithReservedData {
    pub data_index: usize,
    pub data_size: usize,
    pub len_written: usize,
    pub has_fecf: bool,
}

impl TransferFrameCreator {
    // The total octets with so much data. Refuses BAD_FIELD, BAD_COUNT, BAD_POINTER, OCF_MISSING, TOO_LONG.
    #[tactic(auto, using(uslp_kinds::proofs::Back::passed_on, crate::proofs::Lengths::header_self, crate::proofs::Lengths::field_self, crate::proofs::Lengths::length_header, crate::proofs::Lengths::length_field_lem))]
    pub fn len_written(self, data_len: usize) -> Result<usize, Refusal>
        ensures { paper result ≡ frame_length self data_len }
    {
        self.primary_header.checked()?;
        self.data_field_header.checked()?;
        total_of(self, data_len)
    }
}

// The total, once both headers have passed: OCF_MISSING, TOO_LONG.
fn total_of(frame: TransferFrameCreator, data_len: usize) -> Result<usize, Refusal>
    requires { (header_checking frame.primary_header ≡ done frame.primary_header)
        × (field_checking frame.data_field_header ≡ done frame.data_field_header) }
    ensures { paper result ≡ frame_length frame data_len }
{
    if ocf_missing(frame) {
        return Err(Refusal::OcfMissing);
    }
    if data_len > MAX_FRAME_LEN {
        return Err(Refusal::TooLong);
    }
    let header = with_ocf_flag(frame);
    let field = frame.data_field_header;
    let managed = ManagedParameters {
        has_fecf: frame.has_fecf,
    };
    let total = uslp_layout::needed_len(header, field, managed) + data_len;
    if total > MAX_FRAME_LEN {
        return Err(Refusal::TooLong);
    }
    Ok(total)
}

fn ocf_missing(frame: TransferFrameCreator) -> bool
    ensures { result ≡ ocf_missing frame }
{
    frame.primary_header.ocf_flag && frame.operational_control_field.is_none()
}

// An OCF given sets the flag.
fn with_ocf_flag(frame: TransferFrameCreator) -> PrimaryHeader
    ensures { result ≡ flagged frame }
{
    let header = frame.primary_header;
    PrimaryHeader {
        ocf_flag: header.ocf_flag || frame.operational_control_field.is_some(),
        ..header
    }
}
