// The intake: octets come in blocks, cut anywhere, and frames go out as they become whole.
#![tactic(auto)]

ghost use Rattle.std.specs.Prelude.{◌≡◌, ◌+◌, ◌≤◌, length, Ok};
ghost use Rattle.std.proofs.Math.Seq.{paste};
ghost use Rattle.uslp_kinds.specs.Outcome.{leaving};
ghost use Rattle.uslp_intake.specs.Intake.{paper_intake, taken_by, held_by, intaking};

use uslp_kinds::{MAX_FRAME_LEN, ManagedParameters, Refusal};
use uslp_octets::copy_octets;
use uslp_reader::TransferFrame;

// What a call did with its block: how many octets it took, and how many the holding buffer now holds.
#[derive(Clone, Copy, Debug)]
pub enum IntakeAnswer {
    // The block is taken whole, and what is held is no frame yet.
    Waiting {
        taken: usize,
        held: usize,
    },
    // The frame stands at the front of the holding buffer, and nothing is held any more.
    Frame {
        taken: usize,
        frame: TransferFrame,
    },
    // The reader refuses what is held, and would whatever came behind it.
    Stopped {
        taken: usize,
        held: usize,
        refusal: Refusal,
    },
}

// How many octets of the block a call took: none where it was refused.
pub fn taken_by(answer: Result<IntakeAnswer, Refusal>) -> usize
    ensures { result ≡ taken_by (paper_intake answer) }
{
    match answer {
        Ok(
            IntakeAnswer::Waiting { taken, .. }
            | IntakeAnswer::Frame { taken, .. }
            | IntakeAnswer::Stopped { taken, .. },
        ) => taken,
        Err(_) => 0,
    }
}

// How many octets are held after a call, of so many before it.
pub fn held_by(before: usize, answer: Result<IntakeAnswer, Refusal>) -> usize
    ensures { result ≡ held_by before (paper_intake answer) }
{
    match answer {
        Ok(IntakeAnswer::Waiting { held, .. } | IntakeAnswer::Stopped { held, .. }) => held,
        Ok(IntakeAnswer::Frame { .. }) => 0,
        Err(_) => before,
    }
}

// Takes octets of the block behind those held, up to the one that decides; what is left of the block is to be offered again.
// Refuses BAD_FIELD for a held number above MAX_FRAME_LEN, then SHORT_TARGET for a holding buffer below it.
// The held number stands beside the buffer, since the memory is the caller's and fixed, and both are refused by a rule.
#[tactic(auto, unfolding(crate::specs::Intake::intaking))]
pub fn take_block(
    holding: &mut [u8],
    held: usize,
    block: &[u8],
    managed: ManagedParameters,
) -> Result<IntakeAnswer, Refusal>
    ensures { leaving (paper_intake result) holding.new ≡ intaking managed holding.old held block.now }
{
    if held > MAX_FRAME_LEN {
        return Err(Refusal::BadField);
    }
    let found = holding.len();
    if found < MAX_FRAME_LEN {
        return Err(Refusal::ShortTarget {
            found,
            expected: MAX_FRAME_LEN,
        });
    }
    Ok(take_wanted(holding, held, block, managed))
}

// Reads what is held, takes as many octets as the reader lacks, and reads again, until it decides or the block ends. No index is
// counted: what is taken grows by what the reader lacks.
fn take_wanted(
    holding: &mut [u8],
    held: usize,
    block: &[u8],
    managed: ManagedParameters,
) -> IntakeAnswer
    requires { (held ≤ 65536) × (65536 ≤ length holding.old) }
    ensures { leaving (paper_intake (Ok result)) holding.new ≡ intaking managed holding.old held block.now }
{
    let mut taken: usize = 0;
    loop {
        let end = held + taken;
        match TransferFrame::from_bytes(&holding[..end], managed) {
            Ok(frame) => {
                return IntakeAnswer::Frame { taken, frame };
            }
            Err(refusal) => {
                let wanted = refusal.lacking();
                if wanted == 0 {
                    return IntakeAnswer::Stopped {
                        taken,
                        held: end,
                        refusal,
                    };
                }
                let rest = &block[taken..];
                if rest.len() < wanted {
                    hold(holding, end, rest);
                    return IntakeAnswer::Waiting {
                        taken: taken + rest.len(),
                        held: end + rest.len(),
                    };
                }
                hold(holding, end, &rest[..wanted]);
                taken += wanted;
            }
        }
    }
}

// Copies octets into the holding buffer, from a place on.
fn hold(holding: &mut [u8], at: usize, octets: &[u8])
    requires { at + length octets.now ≤ length holding.old }
    ensures { holding.new ≡ paste holding.old at octets.now (length octets.now) }
{
    let end = at + octets.len();
    copy_octets(octets, &mut holding[at..end]);
}
