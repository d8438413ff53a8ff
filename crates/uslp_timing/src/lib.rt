// The checksum, a reading and a writing. Outcomes are numbers, since the C interface takes no Result: `uslp_timing_c` exports each
// under its name.
#![tactic(auto)]

ghost use Rattle.std.specs.Prelude.{◌≡◌};
ghost use Rattle.uslp_checksum.specs.Checksum.{checksum_of};
ghost use Rattle.uslp_kinds.specs.Managed.{fecf};
ghost use Rattle.uslp_reader.specs.Reader.{frame_reading};
ghost use Rattle.uslp_writer.specs.Frame.{frame_writing};
ghost use Rattle.uslp_timing.specs.Timing.{numbers_of, told, numbers_found, timed, length_told, octets_left};

use uslp_checksum::checksum;
use uslp_data_field_header::TransferFrameDataFieldHeader;
use uslp_kinds::{
    BypassSequenceControlFlag, ConstructionRule, ProtocolControlCommandFlag, SourceOrDestField,
    UslpProtocolId, WITH_FECF,
};
use uslp_primary_header::PrimaryHeader;
use uslp_reader::TransferFrame;
use uslp_writer::TransferFrameCreator;

pub fn uslp_timing_checksum(message: &[u8]) -> u16
    ensures { result ≡ checksum_of message.now }
{
    checksum(message)
}

// Reads a frame with FECF: 0, and all that the frame says in `found`, so that no part of the reading is left out; or the refusal's number.
pub fn uslp_timing_read(octets: &[u8], found: &mut [u64; 16]) -> u8
    ensures { (result ≡ told (frame_reading octets.now fecf))
        × (found.new ≡ numbers_found (frame_reading octets.now fecf) found.old) }
{
    match TransferFrame::from_bytes(octets, WITH_FECF) {
        Ok(frame) => {
            *found = numbers_of(frame);
            0
        }
        Err(refusal) => refusal.number(),
    }
}

// Writes a frame with FECF: its total, or 0 where the writing was refused.
pub fn uslp_timing_write(
    spacecraft_id: u16,
    vc_id: u8,
    map_id: u8,
    width: u8,
    count: u64,
    data: &[u8],
    buf: &mut [u8],
) -> usize
    ensures { (result ≡ length_told (frame_writing (timed spacecraft_id vc_id map_id width count) «data».now buf.old))
        × (buf.new ≡ octets_left (frame_writing (timed spacecraft_id vc_id map_id width count) «data».now buf.old)) }
{
    frame_with(spacecraft_id, vc_id, map_id, width, count)
        .write_to_slice(data, buf)
        .unwrap_or(0)
}

fn frame_with(
    spacecraft_id: u16,
    vc_id: u8,
    map_id: u8,
    width: u8,
    count: u64,
) -> TransferFrameCreator
    ensures { result ≡ timed spacecraft_id vc_id map_id width count }
{
    TransferFrameCreator {
        primary_header: PrimaryHeader {
            spacecraft_id,
            source_or_dest_field: SourceOrDestField::Dest,
            vc_id,
            map_id,
            frame_len_field: 0,
            sequence_control_flag: BypassSequenceControlFlag::SequenceControlledQoS,
            protocol_control_command_flag: ProtocolControlCommandFlag::TfdfContainsUserData,
            ocf_flag: false,
            vc_frame_count_len: width,
            vc_frame_count: count,
        },
        data_field_header: TransferFrameDataFieldHeader {
            construction_rule: ConstructionRule::NoSegmentation,
            uslp_protocol_id: UslpProtocolId::UserDefinedOctetStream,
            fhp_or_lvo: None,
        },
        operational_control_field: None,
        has_fecf: true,
    }
}

// std has no `From` of a `usize`.
fn numbers_of(frame: TransferFrame) -> [u64; 16]
    ensures { result ≡ numbers_of frame }
{
    let header = frame.primary_header;
    let field = frame.data_field_header;
    [
        u64::from(header.spacecraft_id),
        u64::from(u8::from(header.source_or_dest_field)),
        u64::from(header.vc_id),
        u64::from(header.map_id),
        u64::from(header.frame_len_field),
        u64::from(u8::from(header.sequence_control_flag)),
        u64::from(u8::from(header.protocol_control_command_flag)),
        u64::from(header.ocf_flag),
        u64::from(header.vc_frame_count_len),
        header.vc_frame_count,
        u64::from(u8::from(field.construction_rule)),
        u64::from(u8::from(field.uslp_protocol_id)),
        field.fhp_or_lvo.map_or(0x1_0000, u64::from),
        frame
            .operational_control_field
            .map_or(0x1_0000_0000, u64::from),
        frame.data_start as u64,
        frame.data_len as u64,
    ]
}
