// The primary header of a frame: a value, whose methods take it and hand back a new one.
#![tactic(auto)]

ghost use Rattle.std.specs.Prelude.{◌≡◌};
ghost use Rattle.uslp_primary_header.specs.Header.{len_header, len_frame, header_making, count_setting, length_setting};
ghost use Rattle.uslp_kinds.specs.Answers.{paper};

use uslp_kinds::{
    BypassSequenceControlFlag, MAX_COUNT_LEN, MAX_FRAME_LEN, MAX_MAP_ID, MAX_VC_ID,
    ProtocolControlCommandFlag, Refusal, SourceOrDestField,
};
use writing::count_bad;

mod fixed;
mod reading;
mod writing;

pub const USLP_VERSION_NUMBER: u8 = 12;

// The octets before the count.
pub const FIXED_LEN: usize = 7;

// Equal in every field but the width of the count, as in the Rust.
#[derive(Clone, Copy, Debug)]
#[derive_where(PartialEq, Eq)]
pub struct PrimaryHeader {
    pub spacecraft_id: u16,
    pub source_or_dest_field: SourceOrDestField,
    pub vc_id: u8,
    pub map_id: u8,
    // The total octets of the frame, less one.
    pub frame_len_field: u16,
    pub sequence_control_flag: BypassSequenceControlFlag,
    pub protocol_control_command_flag: ProtocolControlCommandFlag,
    pub ocf_flag: bool,
    #[derive_where(skip(EqHashOrd))]
    pub vc_frame_count_len: u8,
    pub vc_frame_count: u64,
}

impl PrimaryHeader {
    // A header with no count, for user data, sequence controlled, without OCF. Refuses BAD_FIELD.
    #[tactic(auto, unfolding(crate::specs::Header::header_making))]
    pub fn new(
        spacecraft_id: u16,
        source_or_dest_field: SourceOrDestField,
        vc_id: u8,
        map_id: u8,
        frame_len: u16,
    ) -> Result<PrimaryHeader, Refusal>
        ensures { paper result ≡ header_making spacecraft_id source_or_dest_field vc_id map_id frame_len }
    {
        if vc_id > MAX_VC_ID || map_id > MAX_MAP_ID {
            return Err(Refusal::BadField);
        }
        Ok(PrimaryHeader {
            spacecraft_id,
            source_or_dest_field,
            vc_id,
            map_id,
            frame_len_field: frame_len.saturating_sub(1),
            sequence_control_flag: BypassSequenceControlFlag::SequenceControlledQoS,
            protocol_control_command_flag: ProtocolControlCommandFlag::TfdfContainsUserData,
            ocf_flag: false,
            vc_frame_count_len: 0,
            vc_frame_count: 0,
        })
    }

    // The header with this count. Refuses BAD_FIELD for the width, then BAD_COUNT.
    #[tactic(auto, unfolding(crate::specs::Header::count_setting))]
    pub fn with_vc_frame_count(self, count_len: u8, count: u64) -> Result<PrimaryHeader, Refusal>
        ensures { paper result ≡ count_setting self count_len count }
    {
        if count_len > MAX_COUNT_LEN {
            return Err(Refusal::BadField);
        }
        if count_bad(count_len, count) {
            return Err(Refusal::BadCount {
                count,
                width: count_len,
            });
        }
        Ok(PrimaryHeader {
            vc_frame_count_len: count_len,
            vc_frame_count: count,
            ..self
        })
    }

    // The header with this total of octets, which it keeps less one. Refuses TOO_LONG.
    #[tactic(auto, unfolding(crate::specs::Header::length_setting))]
    pub fn with_frame_len(self, frame_len: usize) -> Result<PrimaryHeader, Refusal>
        ensures { paper result ≡ length_setting self frame_len }
    {
        if frame_len > MAX_FRAME_LEN {
            return Err(Refusal::TooLong);
        }
        // a length of 0 is kept as 1, as in the Rust; it was just seen to fit, so `as` keeps it
        Ok(PrimaryHeader {
            frame_len_field: frame_len.saturating_sub(1) as u16,
            ..self
        })
    }

    pub fn vc_frame_count(self) -> u64
        ensures { result ≡ self.vc_frame_count }
    {
        self.vc_frame_count
    }

    pub fn vc_frame_count_len(self) -> u8
        ensures { result ≡ self.vc_frame_count_len }
    {
        self.vc_frame_count_len
    }

    pub fn len_header(self) -> usize
        ensures { result ≡ len_header self }
    {
        FIXED_LEN + usize::from(self.vc_frame_count_len)
    }

    pub fn len_frame(self) -> usize
        ensures { result ≡ len_frame self }
    {
        usize::from(self.frame_len_field) + 1
    }
}
