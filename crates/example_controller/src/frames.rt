// Frames that a stream is made of, written one after the other.
use records::Record;

// The protocol version that the fixed headers name. Every version is read.
pub(crate) const VERSION: u8 = 1;

// Writes a frame after those in the output, under a ceiling, and returns the place after it.
// No Option, here and in `copy_to`: what has no room is left out, and every caller goes on from the place.
pub(crate) fn write_frame(
    record: Record,
    source: &[u8],
    rows: &[u32],
    body: &[u8],
    out: &mut [u8],
    ceiling: u32,
    at: usize,
) -> usize {
    if out.len() < at {
        return at;
    }
    let room = out.len() - at;
    let written = writer::write(record, source, rows, body, &mut out[at..], ceiling);
    match written {
        Ok(size) => { if size <= room { at + size } else { at } }
        Err(_) => at,
    }
}

// Bytes as they are.
pub(crate) fn copy_to(bytes: &[u8], out: &mut [u8], at: usize) -> usize {
    wire_write::write_raw(bytes, out, at).unwrap_or(at)
}
