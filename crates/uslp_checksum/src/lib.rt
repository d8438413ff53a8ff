// The checksum of a message, CRC-16/IBM-3740, in three forms: by words, by a table, bit by bit. Each is proved equal to the definition in specs/,
// and promised as a public form of its own (docs/PROMISES.md).
#![tactic(auto)]

ghost use Rattle.std.specs.Prelude.{◌≡◌};
ghost use Rattle.uslp_checksum.specs.Checksum.{feed, lows, bits, checksum_of};

mod entries;
mod words;

use entries::TABLE;
use words::{Wide, by_halves};

// The register after a message, from any register, so that a message can come in parts. It goes by words of 64 bits, as specs/Words.antt explains.
pub fn update(register: u16, message: &[u8]) -> u16
    ensures { result ≡ feed register (bits message.now) }
{
    if message.len() < 8 {
        return by_halves(register, message);
    }
    let head = message.len() % 8;
    let mut wide = Wide::begin(register, message, head);
    let (words, _) = message[head + 8..].as_chunks::<8>();
    for word in words {
        wide = wide.take_word(u64::from_be_bytes(*word));
    }
    wide.register()
}

// The register after a message, from all ones.
#[tactic(auto, unfolding(crate::specs::Checksum::checksum_of))]
pub fn checksum(message: &[u8]) -> u16
    ensures { result ≡ checksum_of message.now }
{
    update(0xFFFF, message)
}

// By a table, an octet at a time.
pub fn update_by_table(register: u16, message: &[u8]) -> u16
    ensures { result ≡ feed register (bits message.now) }
{
    // copied here once: an index into the constant would copy all of it at each turn
    let table = TABLE;
    let mut current = register;
    for octet in message {
        let at = usize::from((current >> 8) ^ u16::from(*octet));
        current = (current << 8) ^ table[at];
    }
    current
}

// Bit by bit.
#[tactic(auto, unfolding(crate::specs::Checksum::checksum_of), using(crate::proofs::Message::feed_more, crate::proofs::Message::feed_none))]
pub fn checksum_bitwise(message: &[u8]) -> u16
    ensures { result ≡ checksum_of message.now }
{
    let mut current: u16 = 0xFFFF;
    for octet in message {
        current = octet_bitwise(current, *octet);
    }
    current
}

// The octet is added to the top of the register, which then moves by eight places.
fn octet_bitwise(register: u16, octet: u8) -> u16
    ensures { result ≡ feed register (lows 8 octet) }
{
    let mut current = register ^ (u16::from(octet) << 8);
    for k in 0..8usize {
        if current & 0x8000 != 0 {
            current = (current << 1) ^ 0x1021;
        } else {
            current = current << 1;
        }
    }
    current
}
