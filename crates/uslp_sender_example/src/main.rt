// A sender: two octets of mass, as a frame, to standard output.
#![tactic(auto)]

use std::io;
use uslp_data_field_header::TransferFrameDataFieldHeader;
use uslp_kinds::{ConstructionRule, Refusal, SourceOrDestField, UslpProtocolId, written};
use uslp_primary_header::PrimaryHeader;
use uslp_writer::TransferFrameCreator;

// The frame of one reading of spacecraft 0x1234, channel 5, map 3, numbered in one octet.
fn send(reading: &[u8], count: u64, buf: &mut [u8]) -> Result<usize, Refusal> {
    let header = PrimaryHeader::new(0x1234, SourceOrDestField::Dest, 5, 3, 0)?;
    let frame = TransferFrameCreator {
        primary_header: header.with_vc_frame_count(1, count)?,
        data_field_header: TransferFrameDataFieldHeader {
            construction_rule: ConstructionRule::NoSegmentation,
            uslp_protocol_id: UslpProtocolId::UserDefinedOctetStream,
            fhp_or_lvo: None,
        },
        operational_control_field: None,
        has_fecf: false,
    };
    frame.write_to_slice(reading, buf)
}

fn main(rt: HostRuntime) -> io::Result<()> {
    let mut buf = [0u8; 64];
    let length = send(b"\x0A\xF0", 7, &mut buf);
    match length {
        Ok(_) => rt.write_all(written(length, &buf)),
        Err(refusal) => eprint!(rt; "{}", refusal.number()),
    }
}
