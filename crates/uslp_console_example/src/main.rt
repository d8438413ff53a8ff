// A console: it hears frames of one channel, and knows which never came, over a restart and from octets in blocks too.
#![tactic(auto)]

use std::fmt::Display;
use std::io;
use uslp_end_to_end::hear_many;
use uslp_form::Form;
use uslp_hearing::{FrameArrival, handed_on, hear, hear_frame};
use uslp_intake::{IntakeAnswer, held_by, take_block, taken_by};
use uslp_kinds::{BypassSequenceControlFlag, MAX_FRAME_LEN, NO_FECF, Refusal, written};
use uslp_record::{Channel, ChannelRecord};
use uslp_saved::{MAX_FORM_LEN, restore, save};

// Hears one buffer; the record that the call answers is the one to go on with, unchanged on a refusal.
fn take(rt: &impl Print, channels: &mut ChannelRecord, octets: &[u8]) -> io::Result<()> {
    let heard = hear(*channels, octets, NO_FECF);
    *channels = heard.next;
    // a part of the octets; empty unless the frame is NEW
    let reading = handed_on(heard.answer, octets);
    match heard.answer {
        Ok(FrameArrival::New { gap, .. }) => say(rt, "new, missing before it: ", gap),
        Ok(FrameArrival::Repeat) => say(rt, "repeat, octets handed on: ", reading.len()),
        Ok(FrameArrival::Late) => say(rt, "late, octets handed on: ", reading.len()),
        Err(refusal) => say(rt, "refused: ", refusal.number()),
    }
}

// A replayed pass: frames end to end, heard in one call. What the reader refuses, and all behind it, was not heard.
fn replay(rt: &impl Print, channels: &mut ChannelRecord, pass: &[u8]) -> io::Result<()> {
    let heard = hear_many(*channels, pass, NO_FECF);
    *channels = heard.next;
    say(rt, "new in the pass: ", heard.tally.new)?;
    say(rt, "missing before them: ", heard.tally.missing)?;
    if heard.place < pass.len() {
        say(rt, "octets not heard: ", pass.len() - heard.place)?;
    }
    Ok(())
}

// What is kept from one block to the next: the promise of `take_block` names the buffer and how many octets it holds apart.
#[derive(Drop)]
struct Link {
    channels: ChannelRecord,
    holding: [u8; MAX_FRAME_LEN],
    held: usize,
}

impl Link {
    // Octets as the link delivers them, cut anywhere: each frame is heard as soon as it is whole. What is left moves by what was taken.
    fn receive(&mut self, rt: &impl Print, block: &[u8]) -> io::Result<()> {
        let mut rest = block;
        loop {
            let answer = take_block(&mut self.holding, self.held, rest, NO_FECF);
            self.held = held_by(self.held, answer);
            let taken = taken_by(answer);
            match answer {
                Ok(IntakeAnswer::Frame { frame, .. }) => {
                    let heard = hear_frame(self.channels, frame);
                    self.channels = heard.next;
                    let reading = handed_on(heard.answer, &self.holding);
                    say(rt, "from blocks, octets handed on: ", reading.len())?;
                    if taken == 0 {
                        return Ok(());
                    }
                    rest = &rest[taken..];
                }
                // the block is used up, and what is held is no frame yet
                Ok(IntakeAnswer::Waiting { .. }) => return Ok(()),
                // no more frames come until the console drops what is held
                Ok(IntakeAnswer::Stopped { refusal, .. }) | Err(refusal) => {
                    return say(rt, "stopped, refused: ", refusal.number());
                }
            }
        }
    }
}

// The octets outlive the record: written to a file before the console stops, and read from it when it starts. Of the fixed buffer
// `written` shows what was filled.
fn restart(channels: &mut ChannelRecord) -> Result<usize, Refusal> {
    let mut saved = [0u8; MAX_FORM_LEN];
    let length = save(*channels, Form::One, &mut saved)?;
    let restored = restore(ChannelRecord::new(), Form::One, written(Ok(length), &saved));
    *channels = restored.next;
    restored.answer?;
    Ok(length)
}

// What the link delivers: two frames cut anyhow, a truncated one that stops the intake and is dropped, and one more.
fn from_blocks(rt: &impl Print, channels: ChannelRecord) -> io::Result<ChannelRecord> {
    let mut link = Link {
        channels,
        holding: [0; MAX_FRAME_LEN],
        held: 0,
    };
    link.receive(rt, b"\xC1\x23\x48\xA6\x00")?;
    link.receive(rt, b"")?;
    link.receive(
        rt,
        b"\x0A\x01\x12\xE4\x0A\xFA\xC1\x23\x48\xA6\x00\x0A\x01\x13\xE4\x0A",
    )?;
    say(rt, "octets held: ", link.held)?;
    link.receive(rt, b"\xFB\xC1\x23\x48\xA7")?;
    link.held = 0;
    link.receive(rt, b"\xC1\x23\x48\xA6\x00\x0A\x01\x14\xE4\x0A\xFC")?;
    Ok(link.channels)
}

fn main(rt: HostRuntime) -> io::Result<()> {
    hear_all(&rt)
}

fn hear_all(rt: &impl Print) -> io::Result<()> {
    let channel = Channel {
        spacecraft_id: 0x1234,
        vc_id: 5,
        sequence_control_flag: BypassSequenceControlFlag::SequenceControlledQoS,
    };
    let mut channels = ChannelRecord::new().open_channel(channel, 1).next;
    take(
        rt,
        &mut channels,
        b"\xC1\x23\x48\xA6\x00\x0A\x01\x07\xE4\x0A\xF0",
    )?;
    take(
        rt,
        &mut channels,
        b"\xC1\x23\x48\xA6\x00\x0A\x01\x07\xE4\x0A\xF0",
    )?;
    take(
        rt,
        &mut channels,
        b"\xC1\x23\x48\xA6\x00\x07\x01\x08\xE4\x0A\xF1",
    )?;
    take(
        rt,
        &mut channels,
        b"\xC1\x23\x48\xA6\x00\x0A\x01\x0B\xE4\x0A\xF3",
    )?;
    say_answer(rt, "restored, octets: ", restart(&mut channels))?;
    take(
        rt,
        &mut channels,
        b"\xC1\x23\x48\xA6\x00\x0A\x01\x0D\xE4\x0A\xF5",
    )?;
    replay(
        rt,
        &mut channels,
        b"\xC1\x23\x48\xA6\x00\x0A\x01\x0E\xE4\x0A\xF6\xC1\x23\x48\xA6\x00\x0A\x01\x10\xE4\x0A\xF8\xC1\x23\x48",
    )?;
    channels = from_blocks(rt, channels)?;
    say_answer(rt, "missing in all: ", channels.total_missing())
}

// What a call answers: a number, or the number of its refusal. Each example says so by itself.
fn say_answer<T: Display + Drop>(
    rt: &impl Print,
    what: &str,
    answer: Result<T, Refusal>,
) -> io::Result<()> {
    match answer {
        Ok(number) => say(rt, what, number),
        Err(refusal) => say(rt, "refused: ", refusal.number()),
    }
}

fn say(rt: &impl Print, what: &str, number: impl Display + Drop) -> io::Result<()> {
    println!(rt; "{what}{number}")
}
