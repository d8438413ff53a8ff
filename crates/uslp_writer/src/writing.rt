// The frame writer: reserve, fill, finish.
ghost use Rattle.std.specs.Prelude.{◌≡◌};
ghost use Rattle.uslp_kinds.specs.Outcome.{leaving};
ghost use Rattle.uslp_writer.specs.Frame.{frame_writing};
ghost use Rattle.uslp_kinds.specs.Answers.{paper};

use crate::{TransferFrameCreator, TransferFrameCreatorWithReservedData};
use uslp_kinds::Refusal;

impl TransferFrameCreator {
    // Refuses BAD_FIELD, BAD_COUNT, BAD_POINTER, OCF_MISSING, TOO_LONG, SHORT_TARGET; the octets past the total stay.
    pub fn write_to_slice(self, data: &[u8], buf: &mut [u8]) -> Result<usize, Refusal>
        ensures { leaving (paper result) buf.new ≡ frame_writing self «data».now buf.old }
    {
        let reserved = TransferFrameCreatorWithReservedData::new(self, data.len(), buf)?;
        // the area is there, since it was reserved just now
        let _ = reserved.fill(data, buf);
        reserved.finish(buf)
    }
}
