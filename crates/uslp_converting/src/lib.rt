// A saved record from one form to the other, as octets: so that consoles of both kinds can share it.
#![tactic(auto)]

ghost use Rattle.uslp_kinds.specs.Outcome.{leaving};
ghost use Rattle.uslp_form.specs.Saved.{Converting};
ghost use Rattle.uslp_kinds.specs.Answers.{paper};

use uslp_form::Form;
use uslp_kinds::Refusal;
use uslp_record::ChannelRecord;
use uslp_saved::{restore, save};

// Writes to the front of `to`, in the form `becomes`, what the octets `from` hold in the form `was`. Refuses BAD_FORM, LACKS_FLAG, SHORT_TARGET.
pub fn convert(was: Form, from: &[u8], becomes: Form, to: &mut [u8]) -> Result<usize, Refusal>
    ensures { Converting was becomes from.now to.old (leaving (paper result) to.new) }
{
    let restored = restore(ChannelRecord::new(), was, from);
    restored.answer?;
    save(restored.next, becomes, to)
}
