// The first seven octets as one number: each field times the value of its last bit.
ghost use Rattle.std.specs.Prelude.{◌≡◌};
ghost use Rattle.uslp_octets.specs.Octets.{value_of, split};
ghost use Rattle.uslp_primary_header.specs.Header.{fixed_table, header_of, format};

use crate::{PrimaryHeader, USLP_VERSION_NUMBER};
use uslp_kinds::{BypassSequenceControlFlag, ProtocolControlCommandFlag, SourceOrDestField};

pub const VERSION: u64 = 1 << 52;

const SPACECRAFT: u64 = 1 << 36;

const ROLE: u64 = 1 << 35;

const CHANNEL: u64 = 1 << 29;

const MAP: u64 = 1 << 25;

const LENGTH: u64 = 1 << 8;

const BYPASS: u64 = 1 << 7;

const COMMAND: u64 = 1 << 6;

const OCF: u64 = 1 << 3;

pub(crate) fn fixed_of(header: PrimaryHeader) -> u64
    ensures { result ≡ value_of (fixed_table 0 header) }
{
    let role = u8::from(header.source_or_dest_field);
    let bypass = u8::from(header.sequence_control_flag);
    let command = u8::from(header.protocol_control_command_flag);
    u64::from(USLP_VERSION_NUMBER) * VERSION
        + u64::from(header.spacecraft_id) * SPACECRAFT
        + u64::from(role) * ROLE
        + u64::from(header.vc_id) * CHANNEL
        + u64::from(header.map_id) * MAP
        + u64::from(header.frame_len_field) * LENGTH
        + u64::from(bypass) * BYPASS
        + u64::from(command) * COMMAND
        + u64::from(header.ocf_flag) * OCF
        + u64::from(header.vc_frame_count_len)
}

// The header that these octets and this count make. A field is the low bits of what stands above it, by `as`.
pub(crate) fn header_of(fixed: u64, count: u64) -> PrimaryHeader
    ensures { result ≡ header_of (split format fixed) count }
{
    PrimaryHeader {
        spacecraft_id: (fixed / SPACECRAFT % 65536) as u16,
        source_or_dest_field: SourceOrDestField::from((fixed / ROLE % 2) as u8),
        vc_id: (fixed / CHANNEL % 64) as u8,
        map_id: (fixed / MAP % 16) as u8,
        frame_len_field: (fixed / LENGTH % 65536) as u16,
        sequence_control_flag: BypassSequenceControlFlag::from((fixed / BYPASS % 2) as u8),
        protocol_control_command_flag: ProtocolControlCommandFlag::from(
            (fixed / COMMAND % 2) as u8,
        ),
        ocf_flag: fixed / OCF % 2 == 1,
        vc_frame_count_len: (fixed % 8) as u8,
        vc_frame_count: count,
    }
}
