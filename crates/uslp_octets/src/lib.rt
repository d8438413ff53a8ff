// Octets: copying them between slices, parts of them, and numbers as octets, big-endian.
#![tactic(auto)]

ghost use Rattle.std.specs.Prelude.{◌≡◌, ◌+◌, ◌*◌, ◌%◌, ◌^◌, length};
ghost use Rattle.uslp_octets.specs.Octets.{octets, word, overlaid, part_in, part_at, PartOf};

// Copies as many octets as both slices have; the rest of `to` stays. Not by `copy_from_slice`, which calls `memmove`: an archive for C
// would need that name from outside.
pub fn copy_octets(from: &[u8], to: &mut [u8])
    ensures { to.new ≡ overlaid from.now to.old }
{
    for i in 0..from.len().min(to.len()) {
        to[i] = from[i];
    }
}

// Fills `to` with a number's low octets, by `as`, from the last on: by index, since std says of `iter_mut().rev()` only that the length
// stays.
pub fn put_be_number(value: u64, to: &mut [u8])
    ensures { to.new ≡ octets (length to.old) value }
{
    let mut rest = value;
    for i in (0..to.len()).rev() {
        to[i] = (rest % 256) as u8;
        rest = rest / 256;
    }
}

// The number that octets make, of more than eight the last eight.
pub fn be_number(octets: &[u8]) -> u64
    ensures { result ≡ word 0 (length octets.now) octets.now % 2 ^ 64 }
{
    let mut number: u64 = 0;
    for octet in octets {
        number = moved_in(number, *octet);
    }
    number
}

// The n octets from a place on as a part of those lent; nothing where they do not reach so far.
// Not by `get`, which promises what a part shows and not where it lies.
pub fn part(octets: &[u8], start: usize, n: usize) -> &[u8]
    ensures { PartOf octets.entry (part_at start n octets.now) (part_in start n octets.now) result }
{
    match start.checked_add(n) {
        Some(end) if end <= octets.len() => &octets[start..end],
        _ => &octets[..0],
    }
}

// One octet more at the end; the eight last stay.
fn moved_in(number: u64, octet: u8) -> u64
    ensures { result ≡ (number * 256 + octet) % 2 ^ 64 }
{
    number % 0x0100_0000_0000_0000 * 256 + u64::from(octet)
}
