// The commands, and the words of each.
use crate::words::{Fault, Words};
use uslp_answers::values::octet_of;
use uslp_data_field_header::TransferFrameDataFieldHeader;
use uslp_form::Form;
use uslp_kinds::{
    BypassSequenceControlFlag, ConstructionRule, ManagedParameters, ProtocolControlCommandFlag,
    SourceOrDestField, UslpProtocolId,
};
use uslp_primary_header::PrimaryHeader;
use uslp_record::Channel;
use uslp_writer::TransferFrameCreator;

#[derive(Drop)]
pub(crate) enum Command<'a> {
    Frame(FrameCommand<'a>),
    Open(Channel, u8),
    Close(Channel),
    Show(Channel),
    Total,
    Save(Form, usize),
    Restore(Form, &'a [u8]),
    Hear(ManagedParameters, &'a [u8]),
    Many(ManagedParameters, &'a [u8]),
    Feed(ManagedParameters, &'a [u8]),
    DropHeld,
}

// The commands that keep nothing.
#[derive(Drop)]
pub(crate) enum FrameCommand<'a> {
    Checksum(&'a [u8]),
    ReadHeader(&'a [u8]),
    ReadFieldHeader(&'a [u8]),
    ReadFrame(ManagedParameters, &'a [u8]),
    WriteHeader {
        header: PrimaryHeader,
        total: usize,
        buf_len: usize,
    },
    WriteFrame(FrameToWrite<'a>),
    Reserve(FrameToWrite<'a>),
    Convert {
        was: Form,
        becomes: Form,
        buf_len: usize,
        octets: &'a [u8],
    },
}

#[derive(Drop)]
pub(crate) struct FrameToWrite<'a> {
    pub(crate) frame: TransferFrameCreator,
    pub(crate) buf_len: usize,
    pub(crate) data: &'a [u8],
}

// The command that a line calls. The first word that does not fit is told.
pub(crate) fn command_in<'a>(line: &'a mut [u8]) -> Result<Command<'a>, Fault> {
    let mut words = Words::new(line);
    let name = &*words.word();
    let command = match name {
        b"open" => Command::Open(channel(&mut words)?, octet_of(words.number("width")?)),
        b"close" => Command::Close(channel(&mut words)?),
        b"hear" => Command::Hear(words.managed()?, words.octets()?),
        b"show" => Command::Show(channel(&mut words)?),
        b"total" => Command::Total,
        b"save" => Command::Save(Form::One, words.buf_len()?),
        b"restore" => Command::Restore(Form::One, words.octets()?),
        b"many" => Command::Many(words.managed()?, words.octets()?),
        b"feed" => Command::Feed(words.managed()?, words.octets()?),
        b"drop" => Command::DropHeld,
        b"save2" => Command::Save(Form::Two, words.buf_len()?),
        b"restore2" => Command::Restore(Form::Two, words.octets()?),
        _ => Command::Frame(frame_command(name, &mut words)?),
    };
    words.end()?;
    Ok(command)
}

fn frame_command<'a>(name: &[u8], words: &mut Words<'a>) -> Result<FrameCommand<'a>, Fault> {
    Ok(match name {
        b"crc" => FrameCommand::Checksum(words.octets()?),
        b"hr" => FrameCommand::ReadHeader(words.octets()?),
        b"dr" => FrameCommand::ReadFieldHeader(words.octets()?),
        b"fr" => FrameCommand::ReadFrame(words.managed()?, words.octets()?),
        b"hw" => header_to_write(words)?,
        b"fw" => FrameCommand::WriteFrame(frame_to_write(words)?),
        b"rw" => FrameCommand::Reserve(frame_to_write(words)?),
        b"up" => to_convert(words, Form::One, Form::Two)?,
        b"down" => to_convert(words, Form::Two, Form::One)?,
        _ => return Err(Fault("command")),
    })
}

fn channel(words: &mut Words) -> Result<Channel, Fault> {
    Ok(Channel {
        spacecraft_id: words.number("scid")?,
        vc_id: octet_of(words.number("vc")?),
        sequence_control_flag: bypass(words)?,
    })
}

fn bypass(words: &mut Words) -> Result<BypassSequenceControlFlag, Fault> {
    Ok(BypassSequenceControlFlag::from(u8::from(words.flag("bypass")?)))
}

// A header's words up to the map; the others are still to come.
fn place(words: &mut Words) -> Result<PrimaryHeader, Fault> {
    Ok(PrimaryHeader {
        spacecraft_id: words.number("scid")?,
        source_or_dest_field: SourceOrDestField::from(u8::from(words.flag("dest")?)),
        vc_id: octet_of(words.number("vc")?),
        map_id: octet_of(words.number("map")?),
        frame_len_field: 0,
        sequence_control_flag: BypassSequenceControlFlag::SequenceControlledQoS,
        protocol_control_command_flag: ProtocolControlCommandFlag::TfdfContainsUserData,
        ocf_flag: false,
        vc_frame_count_len: 0,
        vc_frame_count: 0,
    })
}

// A header's words behind the map, and behind the length where a command says one.
fn behind_place(words: &mut Words, place: PrimaryHeader) -> Result<PrimaryHeader, Fault> {
    Ok(PrimaryHeader {
        sequence_control_flag: bypass(words)?,
        protocol_control_command_flag: ProtocolControlCommandFlag::from(u8::from(words.flag(
            "pcc",
        )?)),
        ocf_flag: words.flag("ocfflag")?,
        vc_frame_count_len: octet_of(words.number("width")?),
        vc_frame_count: words.number("count")?,
        ..place
    })
}

fn header_to_write<'a>(words: &mut Words<'a>) -> Result<FrameCommand<'a>, Fault> {
    let place = place(words)?;
    let total = words.number("total")?;
    let header = behind_place(words, place)?;
    let buf_len = words.buf_len()?;
    Ok(FrameCommand::WriteHeader {
        header,
        total,
        buf_len,
    })
}

// A rule or a protocol id that no frame has is told after all words are read.
fn frame_to_write<'a>(words: &mut Words<'a>) -> Result<FrameToWrite<'a>, Fault> {
    let place = place(words)?;
    let primary_header = behind_place(words, place)?;
    let rule = octet_of(words.number("rule")?);
    let id = octet_of(words.number("pid")?);
    let fhp_or_lvo = words.optional("ptr")?;
    let operational_control_field = words.optional("ocf")?;
    let has_fecf = words.flag("fecf")?;
    let buf_len = words.buf_len()?;
    let data = words.octets()?;
    words.end()?;
    if rule > 7 {
        return Err(Fault("rule"));
    }
    let Ok(uslp_protocol_id) = UslpProtocolId::try_from(id) else {
        return Err(Fault("pid"));
    };
    let data_field_header = TransferFrameDataFieldHeader {
        construction_rule: ConstructionRule::from(rule),
        uslp_protocol_id,
        fhp_or_lvo,
    };
    let frame = TransferFrameCreator {
        primary_header,
        data_field_header,
        operational_control_field,
        has_fecf,
    };
    Ok(FrameToWrite {
        frame,
        buf_len,
        data,
    })
}

fn to_convert<'a>(
    words: &mut Words<'a>,
    was: Form,
    becomes: Form,
) -> Result<FrameCommand<'a>, Fault> {
    Ok(FrameCommand::Convert {
        was,
        becomes,
        buf_len: words.buf_len()?,
        octets: words.octets()?,
    })
}
