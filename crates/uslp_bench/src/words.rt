// The words of a line, and what they say.
ghost use Rattle.std.specs.Prelude.{◌≤◌, length};

use std::str::FromStr;
use std::{mem, str};
use uslp_kinds::ManagedParameters;

// A buffer of so many octets is shown in a line.
pub(crate) const BUF_ROOM: usize = 140000;

// Why a line is not done: a word does not fit the place of this name.
#[derive(Drop)]
pub(crate) struct Fault(pub(crate) &'static str);

// A word that is missing is told as all of them are.
fn misfit(word: &[u8], name: &'static str) -> Fault {
    if word.is_empty() {
        return Fault("arguments");
    }
    Fault(name)
}

// The words of a line that are still to be read. The line is lent for writing, since octets are laid over the digits that say them.
#[derive(Drop)]
pub(crate) struct Words<'a> {
    rest: &'a mut [u8],
}

impl<'a> Words<'a> {
    pub(crate) fn new(line: &'a mut [u8]) -> Words<'a> {
        Words { rest: line }
    }

    // The next word; it is empty where the line has no more, which is told as a line that has no command is.
    pub(crate) fn word(&mut self) -> &'a mut [u8] {
        let line = mem::take(&mut self.rest);
        let start = place_of(line, false);
        let (_, text) = line.split_at_mut(start);
        let end = place_of(text, true);
        let (word, rest) = text.split_at_mut(end);
        self.rest = rest;
        word
    }

    pub(crate) fn end(&mut self) -> Result<(), Fault> {
        if self.word().is_empty() {
            return Ok(());
        }
        Err(Fault("arguments"))
    }

    pub(crate) fn number<T: FromStr>(&mut self, name: &'static str) -> Result<T, Fault>
    where
        T::Err: Drop,
    {
        let word = self.word();
        number_in(word).ok_or(misfit(word, name))
    }

    // A number, or a dash for none.
    pub(crate) fn optional<T: FromStr>(&mut self, name: &'static str) -> Result<Option<T>, Fault>
    where
        T::Err: Drop,
    {
        let word = &*self.word();
        if word == b"-".as_slice() {
            return Ok(None);
        }
        Ok(Some(number_in(word).ok_or(misfit(word, name))?))
    }

    pub(crate) fn flag(&mut self, name: &'static str) -> Result<bool, Fault> {
        match &*self.word() {
            b"0" => Ok(false),
            b"1" => Ok(true),
            word => Err(misfit(word, name)),
        }
    }

    // What the link agrees on, as far as a command says it.
    pub(crate) fn managed(&mut self) -> Result<ManagedParameters, Fault> {
        let has_fecf = self.flag("fecf")?;
        Ok(ManagedParameters { has_fecf })
    }

    pub(crate) fn buf_len(&mut self) -> Result<usize, Fault> {
        let len = self.number("buflen")?;
        if len > BUF_ROOM {
            return Err(Fault("buflen"));
        }
        Ok(len)
    }

    // Octets in lower-case hex, or a dash for none.
    pub(crate) fn octets(&mut self) -> Result<&'a [u8], Fault> {
        let word = self.word();
        if &*word == b"-".as_slice() {
            return Ok(&[]);
        }
        if word.is_empty() || word.len() % 2 != 0 || word.iter().any(|c| c.is_ascii_uppercase()) {
            return Err(misfit(word, "hex"));
        }
        decoded(word)
    }
}

// The place of the first blank, or of the first character that is none; behind the text where there is none.
fn place_of(text: &[u8], blank: bool) -> usize
    ensures { result ≤ length text.now }
{
    text.iter()
        .position(|c| c.is_ascii_whitespace() == blank)
        .unwrap_or(text.len())
}

// The octets that digits say, at the front of the memory that these stand in: no other is taken.
fn decoded(digits: &mut [u8]) -> Result<&[u8], Fault> {
    let n = digits.len() / 2;
    for i in 0..n {
        let mut octet = [0];
        match hex::decode_to_slice([digits[2 * i], digits[2 * i + 1]], &mut octet) {
            Ok(()) => digits[i] = octet[0],
            Err(_) => return Err(Fault("hex")),
        }
    }
    Ok(&digits[..n])
}

// A decimal number without a sign.
fn number_in<T: FromStr>(word: &[u8]) -> Option<T>
where
    T::Err: Drop,
{
    if word.starts_with(b"+") {
        return None;
    }
    str::from_utf8(word).ok()?.parse().ok()
}
