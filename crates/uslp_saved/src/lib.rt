// The record kept over a restart: saved as octets of either form, and restored from them.
#![tactic(auto)]

ghost use Rattle.std.specs.Prelude.{◌≡◌};
ghost use Rattle.uslp_kinds.specs.Outcome.{leaving};
ghost use Rattle.uslp_record.specs.Record.{keeping};
ghost use Rattle.uslp_form.specs.Saved.{saving, Restoring};
ghost use Rattle.uslp_kinds.specs.Answers.{paper};

use columns::Section;
use out::Out;
use restoring::Octets;
use saving::{put_section, says_all};
use uslp_form::Form;
use uslp_kinds::Refusal;
use uslp_octets::copy_octets;
use uslp_record::{ChannelRecord, Recorded};

mod columns;
mod out;
mod restoring;
mod saving;

// The most octets of a form: with a buffer of so many, saving is never refused for room.
pub const MAX_FORM_LEN: usize = 362;

// Writes the record as octets of this form to the front of `to`. Refuses LACKS_FLAG, SHORT_TARGET.
pub fn save(channels: ChannelRecord, form: Form, to: &mut [u8]) -> Result<usize, Refusal>
    ensures { leaving (paper result) to.new ≡ saving form channels to.old }
{
    let slots = channels.slots;
    if !says_all(slots, form) {
        return Err(Refusal::LacksFlag);
    }
    let mut out = Out::new();
    put_section(&mut out, slots, form, Section::Unheard);
    put_section(&mut out, slots, form, Section::Heard);
    let octets = out.as_slice();
    let found = to.len();
    let expected = octets.len();
    if found < expected {
        return Err(Refusal::ShortTarget { found, expected });
    }
    copy_octets(octets, to);
    Ok(expected)
}

// The record that octets of this form hold, in place of this one. Refuses BAD_FORM.
pub fn restore(channels: ChannelRecord, form: Form, from: &[u8]) -> Recorded<()>
    ensures { Restoring form channels from.now (keeping (paper result.answer) result.next) }
{
    // one exit for what is refused: the record is copied there alone
    if let Some(octets) = Octets::shaped(form, from) {
        if octets.flags_fit() {
            let next = octets.read_all();
            if octets.admits(next) {
                return Recorded {
                    answer: Ok(()),
                    next,
                };
            }
        }
    }
    Recorded::refused(channels, Refusal::BadForm)
}
