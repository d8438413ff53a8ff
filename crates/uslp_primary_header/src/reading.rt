// Reading the primary header.
ghost use Rattle.std.specs.Prelude.{◌≡◌};
ghost use Rattle.uslp_primary_header.specs.Header.{header_reading};
ghost use Rattle.uslp_kinds.specs.Answers.{paper};

use crate::fixed::{VERSION, header_of};
use crate::{FIXED_LEN, PrimaryHeader, USLP_VERSION_NUMBER};
use uslp_kinds::Refusal;
use uslp_octets::be_number;

impl PrimaryHeader {
    #[tactic(auto, unfolding(crate::specs::Header::header_reading))]
    pub fn from_bytes(buf: &[u8]) -> Result<PrimaryHeader, Refusal>
        ensures { paper result ≡ header_reading buf.now }
    {
        let found = buf.len();
        if found < 4 {
            return Err(Refusal::ShortSource { found, expected: 4 });
        }
        if buf[3] % 2 == 1 {
            return Err(Refusal::Truncated);
        }
        if found < FIXED_LEN {
            return Err(Refusal::ShortSource {
                found,
                expected: FIXED_LEN,
            });
        }
        let fixed = be_number(&buf[0..FIXED_LEN]);
        // version and width are low bits, by `as`
        let version = (fixed / VERSION % 16) as u8;
        if version != USLP_VERSION_NUMBER {
            return Err(Refusal::BadVersion(version));
        }
        let expected = FIXED_LEN + (fixed % 8) as usize;
        if found < expected {
            return Err(Refusal::ShortSource { found, expected });
        }
        Ok(header_of(fixed, be_number(&buf[FIXED_LEN..expected])))
    }
}
