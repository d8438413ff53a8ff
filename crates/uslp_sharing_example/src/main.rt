// A pass shared both ways: handed over to consoles not yet updated, which read and write form 1, and taken back from them.
#![tactic(auto)]

use std::fmt::Display;
use std::io;
use uslp_converting::convert;
use uslp_end_to_end::hear_many;
use uslp_form::Form;
use uslp_kinds::{BypassSequenceControlFlag, NO_FECF, Refusal, written};
use uslp_record::{Channel, ChannelRecord};
use uslp_saved::{MAX_FORM_LEN, restore, save};

// What a console not yet updated restores, at the front of `octets`. Where a channel is expedited it is refused, and no flag is dropped.
// Of the fixed buffer `written` shows what was filled.
fn for_old(channels: ChannelRecord, octets: &mut [u8]) -> Result<usize, Refusal> {
    let mut saved = [0u8; MAX_FORM_LEN];
    let length = save(channels, Form::Two, &mut saved)?;
    convert(Form::Two, written(Ok(length), &saved), Form::One, octets)
}

// The record that a console not yet updated saved, in place of this one, which stays on a refusal: how many octets it has in form 2.
fn from_old(channels: &mut ChannelRecord, octets: &[u8]) -> Result<usize, Refusal> {
    let mut saved = [0u8; MAX_FORM_LEN];
    let length = convert(Form::One, octets, Form::Two, &mut saved)?;
    let restored = restore(*channels, Form::Two, written(Ok(length), &saved));
    *channels = restored.next;
    restored.answer?;
    Ok(length)
}

// There and back, into an empty record: what is known then came over both conversions.
fn share(rt: &impl Print, channels: &mut ChannelRecord) -> io::Result<()> {
    let mut octets = [0u8; MAX_FORM_LEN];
    let handed_over = for_old(*channels, &mut octets);
    say(rt, "handed over, octets in form 1: ", handed_over)?;
    if handed_over.is_ok() {
        *channels = ChannelRecord::new();
        let taken_back = from_old(channels, written(handed_over, &octets));
        say(rt, "taken back, octets in form 2: ", taken_back)?;
    }
    Ok(())
}

// For updated consoles alone: form 2 has the flag.
fn keep(rt: &impl Print, channels: ChannelRecord) -> io::Result<()> {
    let mut saved = [0u8; MAX_FORM_LEN];
    say(
        rt,
        "saved, octets in form 2: ",
        save(channels, Form::Two, &mut saved),
    )
}

// Frames end to end: how many are new, and how many never came before them.
fn take(rt: &impl Print, channels: &mut ChannelRecord, pass: &[u8]) -> io::Result<()> {
    let heard = hear_many(*channels, pass, NO_FECF);
    *channels = heard.next;
    say(rt, "new in the pass: ", Ok(heard.tally.new))?;
    say(rt, "missing before them: ", Ok(heard.tally.missing))
}

// Channel 5 of spacecraft 0x1234, for one of the two flags, each counted apart.
fn open(channels: &mut ChannelRecord, flag: BypassSequenceControlFlag) {
    let channel = Channel {
        spacecraft_id: 0x1234,
        vc_id: 5,
        sequence_control_flag: flag,
    };
    *channels = channels.open_channel(channel, 1).next;
}

fn main(rt: HostRuntime) -> io::Result<()> {
    share_all(&rt)
}

fn share_all(rt: &impl Print) -> io::Result<()> {
    let mut channels = ChannelRecord::new();
    open(
        &mut channels,
        BypassSequenceControlFlag::SequenceControlledQoS,
    );
    take(
        rt,
        &mut channels,
        b"\xC1\x23\x48\xA6\x00\x0A\x01\x07\xE4\x0A\xF0\xC1\x23\x48\xA6\x00\x0A\x01\x0B\xE4\x0A\xF3",
    )?;
    share(rt, &mut channels)?;
    take(
        rt,
        &mut channels,
        b"\xC1\x23\x48\xA6\x00\x0A\x01\x0D\xE4\x0A\xF5",
    )?;
    say(rt, "missing in all: ", channels.total_missing())?;
    open(&mut channels, BypassSequenceControlFlag::ExpeditedQoS);
    take(
        rt,
        &mut channels,
        b"\xC1\x23\x48\xA6\x00\x0A\x81\x00\xE4\x0A\xF6",
    )?;
    share(rt, &mut channels)?;
    keep(rt, channels)
}

// What a call answers: a number, or the number of its refusal. Each example says so by itself.
fn say<T: Display + Drop>(
    rt: &impl Print,
    what: &str,
    answer: Result<T, Refusal>,
) -> io::Result<()> {
    match answer {
        Ok(number) => println!(rt; "{what}{number}"),
        Err(refusal) => println!(rt; "refused: {}", refusal.number()),
    }
}
