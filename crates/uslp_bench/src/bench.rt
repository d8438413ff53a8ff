// What each command does with the record and with the octets that the intake holds.
use crate::command::{Command, FrameCommand, command_in};
use crate::words::{BUF_ROOM, Fault};
use std::io;
use std::io::Write;
use uslp_answers::channels::{say_heard, say_state};
use uslp_answers::reading::{crc, dr, fr, hr};
use uslp_answers::writing::{convert, fw, hw, rw, save};
use uslp_answers::{say, say_done};
use uslp_hearing::hear;
use uslp_intake_answers::feed;
use uslp_kinds::MAX_FRAME_LEN;
use uslp_many_answers::many;
use uslp_record::{ChannelRecord, Recorded};
use uslp_saved::restore;

// What is kept from one line to the next.
#[derive(Drop)]
pub(crate) struct Bench {
    channels: ChannelRecord,
    holding: [u8; MAX_FRAME_LEN],
    // How many octets the intake holds, at the front of the holding buffer: its promise names the two apart.
    held: usize,
    // What a command that writes is lent a part of.
    room: [u8; BUF_ROOM],
}

impl Bench {
    pub(crate) fn new() -> Bench {
        Bench {
            channels: ChannelRecord::new(),
            holding: [0; MAX_FRAME_LEN],
            held: 0,
            room: [0; BUF_ROOM],
        }
    }

    pub(crate) fn answer<W: Write>(&mut self, out: &mut W, line: &mut [u8]) -> io::Result<()> {
        match command_in(line) {
            Ok(command) => self.act(out, command)?,
            Err(Fault(name)) => write!(out, "bad {name}")?,
        }
        writeln!(out)
    }

    fn act<W: Write>(&mut self, out: &mut W, command: Command) -> io::Result<()> {
        match command {
            Command::Frame(command) => self.say_frame_command(out, command),
            Command::Open(channel, width) => {
                self.say_recorded(out, self.channels.open_channel(channel, width))
            }
            Command::Close(channel) => {
                self.say_recorded(out, self.channels.close_channel(channel))
            }
            Command::Restore(form, octets) => {
                self.say_recorded(out, restore(self.channels, form, octets))
            }
            Command::Hear(managed, octets) => {
                let hearing = hear(self.channels, octets, managed);
                self.channels = hearing.next;
                say_heard(out, hearing.answer, octets)
            }
            Command::Many(managed, octets) => many(out, octets, managed, &mut self.channels),
            Command::Show(channel) => say_state(out, self.channels.channel_state(channel)),
            Command::Total => say(out, self.channels.total_missing()),
            Command::Save(form, buf_len) => {
                save(out, form, self.channels, front(&mut self.room, buf_len))
            }
            Command::Feed(managed, octets) => {
                feed(out, &mut self.holding, &mut self.held, octets, managed)
            }
            Command::DropHeld => {
                self.held = 0;
                say_done(out, Ok(()))
            }
        }
    }

    fn say_frame_command<W: Write>(
        &mut self,
        out: &mut W,
        command: FrameCommand,
    ) -> io::Result<()> {
        let room = &mut self.room;
        match command {
            FrameCommand::Checksum(octets) => crc(out, octets),
            FrameCommand::ReadHeader(octets) => hr(out, octets),
            FrameCommand::ReadFieldHeader(octets) => dr(out, octets),
            FrameCommand::ReadFrame(managed, octets) => fr(out, octets, managed),
            FrameCommand::WriteHeader {
                header,
                total,
                buf_len,
            } => hw(out, header, total, front(room, buf_len)),
            FrameCommand::WriteFrame(asked) => {
                fw(out, asked.frame, asked.data, front(room, asked.buf_len))
            }
            FrameCommand::Reserve(asked) => {
                rw(out, asked.frame, asked.data, front(room, asked.buf_len))
            }
            FrameCommand::Convert {
                was,
                becomes,
                buf_len,
                octets,
            } => convert(out, was, becomes, octets, front(room, buf_len)),
        }
    }

    fn say_recorded<W: Write>(&mut self, out: &mut W, call: Recorded<()>) -> io::Result<()> {
        self.channels = call.next;
        say_done(out, call.answer)
    }
}

// So many octets of a buffer; no command asks for more than it has.
fn front(octets: &mut [u8], len: usize) -> &mut [u8] {
    let len = len.min(octets.len());
    &mut octets[..len]
}
