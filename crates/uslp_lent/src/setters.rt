// Setters over a header lent for writing: thin, each stores what the header by value gives. On a refusal the header stays as it was.
// Beside `with_..` of the header, as docs/PROMISES.md lists the forms.
ghost use Rattle.std.specs.Prelude.{◌≡◌};
ghost use Rattle.uslp_primary_header.specs.Header.{count_setting, length_setting};
ghost use Rattle.uslp_lent.specs.Setting.{header_left, header_off};
ghost use Rattle.uslp_kinds.specs.Answers.{paper};

use uslp_kinds::Refusal;
use uslp_primary_header::PrimaryHeader;

// Refuses TOO_LONG.
pub fn set_frame_len(header: &mut PrimaryHeader, frame_len: usize) -> Result<(), Refusal>
    ensures { (header.new ≡ header_left header.old (length_setting header.old frame_len))
        × (paper result ≡ header_off (length_setting header.old frame_len)) }
{
    *header = header.with_frame_len(frame_len)?;
    Ok(())
}

// Refuses BAD_FIELD for the width, then BAD_COUNT.
pub fn set_vc_frame_count(
    header: &mut PrimaryHeader,
    count_len: u8,
    count: u64,
) -> Result<(), Refusal>
    ensures { (header.new ≡ header_left header.old (count_setting header.old count_len count))
        × (paper result ≡ header_off (count_setting header.old count_len count)) }
{
    *header = header.with_vc_frame_count(count_len, count)?;
    Ok(())
}
