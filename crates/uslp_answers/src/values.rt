// Values, as words say them and as the bench shows them.
ghost use Rattle.std.specs.Prelude.{◌≤◌, ◌<◌, ◌≡◌};

use std::fmt;
use std::fmt::Display;
use uslp_data_field_header::TransferFrameDataFieldHeader;
use uslp_kinds::Refusal;
use uslp_primary_header::PrimaryHeader;

// A channel, map or width that fits no octet is told as one that the library refuses.
pub fn octet_of(value: u64) -> u8
    ensures { (value ≤ 255 → result ≡ value) × (255 < value → result ≡ 255) }
{
    u8::try_from(value).unwrap_or(255)
}

// Octets are shown in hex, a refusal by its number and what it carries, and what is not there as a dash.
#[derive(Drop)]
pub struct Shown<T>(pub T);

impl<'a> Display for Shown<&'a [u8]> {
    fn fmt<W: fmt::Write>(&self, f: &mut fmt::Formatter<W>) -> fmt::Result {
        if self.0.is_empty() {
            return write!(f, "-");
        }
        for octet in self.0 {
            write!(f, "{octet:02x}")?;
        }
        Ok(())
    }
}

impl<T: Display> Display for Shown<Option<T>> {
    fn fmt<W: fmt::Write>(&self, f: &mut fmt::Formatter<W>) -> fmt::Result {
        match &self.0 {
            Some(value) => write!(f, "{value}"),
            None => write!(f, "-"),
        }
    }
}

impl Display for Shown<Refusal> {
    fn fmt<W: fmt::Write>(&self, f: &mut fmt::Formatter<W>) -> fmt::Result {
        let number = self.0.number();
        write!(f, "{number}")?;
        match self.0 {
            Refusal::ShortSource { found, expected } => write!(f, " {found} {expected}"),
            Refusal::ShortTarget { found, expected } => write!(f, " {found} {expected}"),
            Refusal::BadVersion(version) => write!(f, " {version}"),
            Refusal::BadProtocol(id) => write!(f, " {id}"),
            Refusal::BadChecksum { stored, computed } => write!(f, " {stored} {computed}"),
            Refusal::FrameTooShort { length, needed } => write!(f, " {length} {needed}"),
            Refusal::BadCount { count, width } => write!(f, " {count} {width}"),
            Refusal::BadPointer(rule) => write!(f, " {}", u8::from(rule)),
            Refusal::OtherWidth { frame, opened } => write!(f, " {frame} {opened}"),
            _ => Ok(()),
        }
    }
}

impl Display for Shown<PrimaryHeader> {
    fn fmt<W: fmt::Write>(&self, f: &mut fmt::Formatter<W>) -> fmt::Result {
        let header = self.0;
        let dest = u8::from(header.source_or_dest_field);
        let bypass = u8::from(header.sequence_control_flag);
        let command = u8::from(header.protocol_control_command_flag);
        let ocf = u8::from(header.ocf_flag);
        write!(
            f,
            "{} {dest} {} {} ",
            header.spacecraft_id, header.vc_id, header.map_id
        )?;
        write!(f, "{} {bypass} {command} {ocf} ", header.frame_len_field)?;
        write!(f, "{} {}", header.vc_frame_count_len, header.vc_frame_count)
    }
}

impl Display for Shown<TransferFrameDataFieldHeader> {
    fn fmt<W: fmt::Write>(&self, f: &mut fmt::Formatter<W>) -> fmt::Result {
        let rule = u8::from(self.0.construction_rule);
        let id = u8::from(self.0.uslp_protocol_id);
        write!(f, "{rule} {id} {}", Shown(self.0.fhp_or_lvo))
    }
}
