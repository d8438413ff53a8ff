// Decimal numerals as text, and texts put one behind another into a buffer.
#![tactic(auto)]

ghost use Rattle.uslp_text.specs.Text.{decimal, Told};

use itoa::Buffer;
use uslp_octets::copy_octets;

// Puts a text into a buffer from a place on, as far as it reaches, and gives the place behind it. The buffer is the caller's and fixed, so
// the place goes beside it (`Told`).
pub fn put_text(text: &[u8], out: &mut [u8], at: usize) -> usize
    ensures { Told text.now at out.old result out.new }
{
    let len = out.len();
    if at < len {
        copy_octets(text, &mut out[at..]);
    }
    at.saturating_add(text.len()).min(len)
}

// Puts a number's decimal numeral into a buffer, as a text.
#[tactic(auto, using(crate::proofs::Width::decimal_is))]
pub fn put_decimal(value: u64, out: &mut [u8], at: usize) -> usize
    ensures { Told (decimal value) at out.old result out.new }
{
    let mut numeral = Buffer::new();
    put_text(numeral.format(value).as_bytes(), out, at)
}
