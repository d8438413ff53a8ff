// Runs the cases that are not proved as theorems, and prints what each answers: the refusal's number, or 0.
#![tactic(auto)]

use std::io;
use uslp_data_field_header::TransferFrameDataFieldHeader;
use uslp_kinds::{
    BypassSequenceControlFlag, ConstructionRule, ManagedParameters, NO_FECF,
    ProtocolControlCommandFlag, SourceOrDestField, UslpProtocolId, WITH_FECF,
};
use uslp_primary_header::PrimaryHeader;
use uslp_reader::TransferFrame;
use uslp_writer::TransferFrameCreator;

fn main(rt: HostRuntime) -> io::Result<()> {
    cases(&rt)
}

fn cases(rt: &impl Print) -> io::Result<()> {
    sum(rt, "words", uslp_checksum::checksum(b"123456789"))?;
    sum(
        rt,
        "table",
        uslp_checksum::update_by_table(0xFFFF, b"123456789"),
    )?;
    sum(rt, "bitwise", uslp_checksum::checksum_bitwise(b"123456789"))?;
    let b1 = b"\xB1\x23\x48\xA6\x00\x0A\x01\x07\xE4\x0A\xF0";
    read(rt, "first octet B1", b1, NO_FECF)?;
    let short = b"\xC1\x23\x48\xA6\x00\x08\x01\x07\xE4\x0A\xF0";
    read(rt, "length octets 00 08", short, NO_FECF)?;
    read(rt, "length octets 00 08, FECF asked for", short, WITH_FECF)?;
    let data = [0x0A; 65529];
    write(rt, "65528 octets of data", &data[..65528])?;
    write(rt, "65529 octets of data", &data)?;
    count(rt, "width 7, count 2^56 - 1", 0x00FF_FFFF_FFFF_FFFF)?;
    count(rt, "width 7, count 2^56", 0x0100_0000_0000_0000)
}

fn read(rt: &impl Print, what: &str, octets: &[u8], managed: ManagedParameters) -> io::Result<()> {
    match TransferFrame::from_bytes(octets, managed) {
        Ok(frame) => println!(rt; "{what}: 0, data {}", frame.data_len),
        Err(refusal) => println!(rt; "{what}: {}", refusal.number()),
    }
}

// Width 0, rule 7, no OCF or FECF.
fn header() -> PrimaryHeader {
    PrimaryHeader {
        spacecraft_id: 0x1234,
        source_or_dest_field: SourceOrDestField::Dest,
        vc_id: 5,
        map_id: 3,
        frame_len_field: 0,
        sequence_control_flag: BypassSequenceControlFlag::SequenceControlledQoS,
        protocol_control_command_flag: ProtocolControlCommandFlag::TfdfContainsUserData,
        ocf_flag: false,
        vc_frame_count_len: 0,
        vc_frame_count: 0,
    }
}

fn write(rt: &impl Print, what: &str, data: &[u8]) -> io::Result<()> {
    let frame = TransferFrameCreator {
        primary_header: header(),
        data_field_header: TransferFrameDataFieldHeader {
            construction_rule: ConstructionRule::NoSegmentation,
            uslp_protocol_id: UslpProtocolId::UserDefinedOctetStream,
            fhp_or_lvo: None,
        },
        operational_control_field: None,
        has_fecf: false,
    };
    let mut buf = [0xEE; 65540];
    match frame.write_to_slice(data, &mut buf) {
        Ok(total) => print!(rt; "{what}: 0, total {total}")?,
        Err(refusal) => print!(rt; "{what}: {}", refusal.number())?,
    }
    println!(rt; ", length octets {:02x} {:02x}", buf[4], buf[5])
}

fn count(rt: &impl Print, what: &str, value: u64) -> io::Result<()> {
    match header().with_vc_frame_count(7, value) {
        Ok(_) => println!(rt; "{what}: 0"),
        Err(refusal) => println!(rt; "{what}: {}", refusal.number()),
    }
}

// The name of a form, and its value as four hexadecimal digits.
fn sum(rt: &impl Print, form: &str, value: u16) -> io::Result<()> {
    println!(rt; "{form} {value:04x}")
}
