// `uslp_timing` under names that C can call, for the harness in tools/ that times it beside the Rust's: each export calls its function and promises the same.
#![tactic(auto)]

ghost use Rattle.std.specs.Prelude.{◌≡◌};
ghost use Rattle.uslp_checksum.specs.Checksum.{checksum_of};
ghost use Rattle.uslp_kinds.specs.Managed.{fecf};
ghost use Rattle.uslp_reader.specs.Reader.{frame_reading};
ghost use Rattle.uslp_writer.specs.Frame.{frame_writing};
ghost use Rattle.uslp_timing.specs.Timing.{told, numbers_found, timed, length_told, octets_left};

#[unsafe(no_mangle)]
pub extern "C" fn uslp_timing_checksum(message: &[u8]) -> u16
    ensures { result ≡ checksum_of message.now }
{
    uslp_timing::uslp_timing_checksum(message)
}

// Reads a frame with FECF: 0, and all that the frame says in `found`, so that no part of the reading is left out; or the refusal's number.
#[unsafe(no_mangle)]
pub extern "C" fn uslp_timing_read(octets: &[u8], found: &mut [u64; 16]) -> u8
    ensures { (result ≡ told (frame_reading octets.now fecf))
        × (found.new ≡ numbers_found (frame_reading octets.now fecf) found.old) }
{
    uslp_timing::uslp_timing_read(octets, found)
}

// Writes a frame with FECF: its total, or 0 where the writing was refused.
#[unsafe(no_mangle)]
pub extern "C" fn uslp_timing_write(
    spacecraft_id: u16,
    vc_id: u8,
    map_id: u8,
    width: u8,
    count: u64,
    data: &[u8],
    buf: &mut [u8],
) -> usize
    ensures { (result ≡ length_told (frame_writing (timed spacecraft_id vc_id map_id width count) «data».now buf.old))
        × (buf.new ≡ octets_left (frame_writing (timed spacecraft_id vc_id map_id width count) «data».now buf.old)) }
{
    uslp_timing::uslp_timing_write(spacecraft_id, vc_id, map_id, width, count, data, buf)
}
