// The register by words of 64 bits: what `update` is made of. specs/Words.antt says why four words are enough, and what they stand for.
ghost use Rattle.std.specs.Prelude.{◌≡◌, ◌+◌, ◌/◌, ◌^◌, ◌≤◌, ◌<◌, length, take};
ghost use Rattle.std.specs.Int.Bits.{bit_xor};
ghost use Rattle.uslp_octets.specs.Octets.{word};
ghost use Rattle.uslp_checksum.specs.Checksum.{feed, lows, bits};
ghost use Rattle.uslp_checksum.specs.Words.{fed, stands_for};

use uslp_octets::be_number;

// Four words that stand for a register, the first on top.
#[derive(Drop)]
pub struct Wide {
    pub a: u64,
    pub b: u64,
    pub c: u64,
    pub d: u64,
}

impl Wide {
    // The octets that fill no word come first, as a number: zeros before it lead nowhere.
    // The register is added to the first 16 bits, wherever they fall.
    #[tactic(auto, unfolding(crate::specs::Words::stands_for), using(crate::proofs::Folding::begin_law))]
    pub(crate) fn begin(register: u16, message: &[u8], head: usize) -> Self
        requires { (head < 8) × (head + 8 ≤ length message.now) }
        ensures { stands_for result ≡ feed register (bits (take (head + 8) message.now)) }
    {
        let half = 4 * head;
        let seed = u64::from(register) << 48;
        let first = word_at(message, 0) ^ seed;
        // by 64 less 8 * head places, in two steps: it may be 64, and no shift is
        Wide {
            a: 0,
            b: 0,
            c: (first >> (32 - half)) >> (32 - half),
            d: word_at(message, head) ^ (seed << (8 * head)),
        }
    }

    // The word at the top moves to x^192, to x^80, which lies across two words, and to 1.
    #[tactic(auto, unfolding(crate::specs::Words::stands_for), using(crate::proofs::Folding::word_law))]
    pub(crate) fn take_word(self, word: u64) -> Self
        ensures { stands_for result ≡ fed (stands_for self) word }
    {
        let top = self.a;
        Wide {
            a: self.b ^ top,
            b: self.c ^ (top >> 48),
            c: self.d ^ (top << 16),
            d: word ^ top,
        }
    }

    // The register that the four words stand for.
    #[tactic(auto, unfolding(crate::specs::Words::stands_for))]
    pub(crate) fn register(self) -> u16
        ensures { result ≡ stands_for self }
    {
        narrow(join(join(join(self.a, self.b), self.c), self.d))
    }
}

// One word in place of two, by P^4 = x^64 + x^48 + x^20 + 1.
#[tactic(auto, using(crate::proofs::Folding::join_law))]
fn join(high: u64, low: u64) -> u64
    ensures { fed 0 result ≡ fed (fed 0 high) low }
{
    let q = quotient(high);
    low ^ ((q << 48) ^ (q << 20) ^ q)
}

// The q of which the multiple q * P^4 has `high` as its upper word. That word is q ^ (q >> 16) ^ (q >> 44); made so four times, q is itself again,
// since a square doubles the shifts and 64 places are all of it. So q is `high` made so three times: twice at once, and once.
#[tactic(auto, using(crate::proofs::Folding::quotient_law))]
fn quotient(high: u64) -> u64
    ensures { bit_xor (bit_xor result (result / 2 ^ 16)) (result / 2 ^ 44) ≡ high }
{
    let twice = high ^ (high >> 32);
    twice ^ (twice >> 16) ^ (twice >> 44)
}

// The register that a word leads to: the remainder by P, whose quotient q is found in the same way, by P^4, P^2 and P in turn. Its low bits,
// by `as`.
#[tactic(auto, using(crate::proofs::Folding::narrow_law))]
fn narrow(word: u64) -> u16
    ensures { result ≡ fed 0 word }
{
    let fourth = quotient(word);
    let twice = fourth ^ (fourth >> 8) ^ (fourth >> 22) ^ (fourth >> 32);
    let q = twice ^ (twice >> 4) ^ (twice >> 11) ^ (twice >> 16);
    (((q << 12) ^ (q << 5) ^ q) % 0x10000) as u16
}

// The eight octets from place i on, as one number.
fn word_at(message: &[u8], i: usize) -> u64
    requires { i + 8 ≤ length message.now }
    ensures { result ≡ word i 8 message.now }
{
    u64::from_be_bytes([
        message[i],
        message[i + 1],
        message[i + 2],
        message[i + 3],
        message[i + 4],
        message[i + 5],
        message[i + 6],
        message[i + 7],
    ])
}

// Below eight octets: four at once, then two, then one, as many as there are.
pub(crate) fn by_halves(register: u16, message: &[u8]) -> u16
    requires { length message.now < 8 }
    ensures { result ≡ feed register (bits message.now) }
{
    let mut current = register;
    let mut rest = message;
    for k in [4, 2, 1] {
        if k <= rest.len() {
            let (front, behind) = rest.split_at(k);
            current = take(current, be_number(front), 8 * k);
            rest = behind;
        }
    }
    current
}

// So many places of a number. What leaves the register at the top is added to the number; what is left below, low bits by `as`, needs no
// remainder.
fn take(register: u16, number: u64, places: usize) -> u16
    requires { (places ≤ 32) × (number < 2 ^ places) }
    ensures { result ≡ feed register (lows places number) }
{
    let moved = u64::from(register) << places;
    narrow(number ^ (moved >> 16)) ^ (moved % 0x10000) as u16
}
