// The commands that write: hw, fw, rw, save, save2, up, down.
use crate::values::Shown;
use std::io;
use std::io::Write;
use uslp_form::Form;
use uslp_kinds::Refusal;
use uslp_octets::copy_octets;
use uslp_primary_header::PrimaryHeader;
use uslp_record::ChannelRecord;
use uslp_writer::{TransferFrameCreator, TransferFrameCreatorWithReservedData};

// Writes to the buffer that a command is lent, of octets EE as it finds it: how many octets were written, and the whole buffer. The writer
// and the buffer go apart here, since a struct for both would be no plainer.
fn say_written<W: Write, F: FnOnce(&mut [u8]) -> Result<usize, Refusal>>(
    out: &mut W,
    buf: &mut [u8],
    write: F,
) -> io::Result<()>
    requires { F.IsAlwaysCallable write }
{
    buf.fill(0xEE);
    match write(buf) {
        Ok(n) => write!(out, "0 {n} {}", Shown(&*buf)),
        Err(refusal) => write!(out, "{}", Shown(refusal)),
    }
}

// A header that cannot be written is told before a length that is too long, and both before the buffer is touched.
pub fn hw<W: Write>(
    out: &mut W,
    header: PrimaryHeader,
    total: usize,
    buf: &mut [u8],
) -> io::Result<()> {
    match header
        .checked()
        .and_then(|checked| checked.with_frame_len(total))
    {
        Ok(whole) => say_written(out, buf, |buf| whole.write_to_slice(buf)),
        Err(refusal) => write!(out, "{}", Shown(refusal)),
    }
}

pub fn fw<W: Write>(
    out: &mut W,
    frame: TransferFrameCreator,
    data: &[u8],
    buf: &mut [u8],
) -> io::Result<()> {
    say_written(out, buf, |buf| frame.write_to_slice(data, buf))
}

// The same by the writer that reserves the data area, through `data_mut`, so that it is tried.
pub fn rw<W: Write>(
    out: &mut W,
    frame: TransferFrameCreator,
    data: &[u8],
    buf: &mut [u8],
) -> io::Result<()> {
    say_written(out, buf, |buf| {
        let area = TransferFrameCreatorWithReservedData::new(frame, data.len(), buf)?;
        copy_octets(data, area.data_mut(buf));
        area.finish(buf)
    })
}

pub fn save<W: Write>(
    out: &mut W,
    form: Form,
    channels: ChannelRecord,
    buf: &mut [u8],
) -> io::Result<()> {
    say_written(out, buf, |buf| uslp_saved::save(channels, form, buf))
}

// Octets of one form as octets of the other.
pub fn convert<W: Write>(
    out: &mut W,
    was: Form,
    becomes: Form,
    octets: &[u8],
    buf: &mut [u8],
) -> io::Result<()> {
    say_written(out, buf, |buf| {
        uslp_converting::convert(was, octets, becomes, buf)
    })
}
