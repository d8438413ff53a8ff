// What the bench says of frames heard in one call, and the record after it.
#![tactic(auto)]

ghost use Rattle.std.specs.Prelude.{◌≡◌};
ghost use Rattle.uslp_end_to_end.specs.Many.{many_hearing};

use std::io;
use std::io::Write;
use uslp_answers::say_done;
use uslp_end_to_end::hear_many;
use uslp_kinds::ManagedParameters;
use uslp_record::ChannelRecord;

// The place reached, the tally, and why the call stopped there. No `Display`, since the record that the call leaves is promised here,
// whatever the output does.
pub fn many<W: Write>(
    out: &mut W,
    octets: &[u8],
    managed: ManagedParameters,
    channels: &mut ChannelRecord,
) -> io::Result<()>
    ensures { channels.new ≡ (many_hearing channels.old octets.now managed).next }
{
    let hearing = hear_many(*channels, octets, managed);
    *channels = hearing.next;
    let tally = hearing.tally;
    write!(out, "0 {} {} {} ", hearing.place, tally.new, tally.missing)?;
    write!(out, "{} {} ", tally.repeats, tally.late)?;
    write!(
        out,
        "{} {} {} ",
        tally.not_open, tally.other_width, tally.total_full
    )?;
    say_done(out, hearing.stop)
}
