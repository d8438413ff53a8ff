// Where the parts of a frame stand: one function for each sentence that says so.
#![tactic(auto)]

ghost use Rattle.std.specs.Prelude.{◌≡◌, cond};
ghost use Rattle.uslp_layout.specs.Layout.{data_start, needed};

use uslp_data_field_header::TransferFrameDataFieldHeader;
use uslp_kinds::ManagedParameters;
use uslp_primary_header::PrimaryHeader;

// Where the data starts. The headers go apart, as `data_start` and `needed` name them.
pub fn data_start(header: PrimaryHeader, field: TransferFrameDataFieldHeader) -> usize
    ensures { result ≡ data_start header field }
{
    header.len_header() + field.len_header()
}

// The octets that a frame has besides its data: headers, OCF and FECF.
pub fn needed_len(
    header: PrimaryHeader,
    field: TransferFrameDataFieldHeader,
    managed: ManagedParameters,
) -> usize
    ensures { result ≡ needed header field managed }
{
    let ocf_len = if header.ocf_flag { 4 } else { 0 };
    data_start(header, field) + ocf_len + fecf_len(managed.has_fecf)
}

pub fn fecf_len(has_fecf: bool) -> usize
    ensures { result ≡ cond has_fecf 2 0 }
{
    if has_fecf { 2 } else { 0 }
}
