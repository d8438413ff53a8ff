// The commands that read: crc, hr, dr, fr. Each is a line.
use crate::say;
use crate::values::Shown;
use std::fmt::Display;
use std::io::Write;
use std::{fmt, io};
use uslp_checksum::checksum;
use uslp_data_field_header::TransferFrameDataFieldHeader;
use uslp_kinds::ManagedParameters;
use uslp_primary_header::PrimaryHeader;
use uslp_reader::TransferFrame;

pub fn crc<W: Write>(out: &mut W, octets: &[u8]) -> io::Result<()> {
    write!(out, "{}", checksum(octets))
}

pub fn hr<W: Write>(out: &mut W, octets: &[u8]) -> io::Result<()> {
    say(
        out,
        PrimaryHeader::from_bytes(octets).map(|header| Shown(header)),
    )
}

pub fn dr<W: Write>(out: &mut W, octets: &[u8]) -> io::Result<()> {
    say(
        out,
        TransferFrameDataFieldHeader::from_bytes(octets).map(|header| Shown(header)),
    )
}

pub fn fr<W: Write>(out: &mut W, octets: &[u8], managed: ManagedParameters) -> io::Result<()> {
    say(
        out,
        TransferFrame::from_bytes(octets, managed).map(|frame| FrameIn { frame, octets }),
    )
}

// A frame, and the octets that it was read from.
#[derive(Drop)]
struct FrameIn<'a> {
    frame: TransferFrame,
    octets: &'a [u8],
}

impl<'a> Display for FrameIn<'a> {
    fn fmt<W: fmt::Write>(&self, f: &mut fmt::Formatter<W>) -> fmt::Result {
        let frame = self.frame;
        write!(f, "{} ", Shown(frame.primary_header))?;
        write!(f, "{} ", Shown(frame.data_field_header))?;
        write!(f, "{} ", Shown(frame.operational_control_field))?;
        write!(f, "{}", Shown(frame.data(self.octets)))
    }
}
