// What the bench says of a block that the intake takes, and how many octets are held after it.
#![tactic(auto)]

ghost use Rattle.std.specs.Prelude.{◌≡◌};
ghost use Rattle.uslp_intake.specs.Intake.{intaking};
ghost use Rattle.uslp_intake_answers.specs.Fed.{fed};

use std::io;
use std::io::Write;
use uslp_answers::values::Shown;
use uslp_intake::{IntakeAnswer, held_by, take_block};
use uslp_kinds::{ManagedParameters, Refusal};

// How many octets of the block were taken, and the frame, or how many are held, with the refusal where the intake stops. No `Display`,
// since the number held and the buffer are promised here, whatever the output does.
pub fn feed<W: Write>(
    out: &mut W,
    holding: &mut [u8],
    held: &mut usize,
    block: &[u8],
    managed: ManagedParameters,
) -> io::Result<()>
    ensures { fed held.old (intaking managed holding.old held.old block.now) ≡ (held.new, holding.new) }
{
    let answer = take_block(holding, *held, block, managed);
    *held = held_by(*held, answer);
    say_intake(out, answer, holding)
}

fn say_intake<W: Write>(
    out: &mut W,
    answer: Result<IntakeAnswer, Refusal>,
    holding: &[u8],
) -> io::Result<()> {
    match answer {
        Ok(IntakeAnswer::Waiting { taken, held }) => write!(out, "0 WAIT {taken} {held}"),
        Ok(IntakeAnswer::Frame { taken, frame }) => {
            let octets = holding.get(..frame.len_frame()).unwrap_or(&[]);
            write!(out, "0 FRAME {taken} {}", Shown(octets))
        }
        Ok(
            IntakeAnswer::Stopped {
                taken,
                held,
                refusal,
            },
        ) => write!(out, "0 STOP {taken} {held} {}", Shown(refusal)),
        Err(refusal) => write!(out, "{}", Shown(refusal)),
    }
}
