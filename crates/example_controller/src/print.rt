// What is printed, and parts of bytes. Whether a write failed is dropped.
use std::io::Stdout;
use text::Printer;

// Bytes as they are.
pub(crate) fn print_raw(out: Stdout, bytes: &[u8]) {
    let _ = out.write_all(bytes);
}

// Each byte as a space and two hexadecimal digits.
pub(crate) fn print_bytes(out: Stdout, bytes: &[u8]) {
    let mut space = [0; 256];
    let mut out = Printer::new(out, &mut space);
    for &byte in bytes {
        out.add_byte(b' ');
        out.add_hex(byte);
    }
    out.print();
}

// The bytes from `start` up to `end`, as far as they exist.
pub(crate) fn part(s: &[u8], start: usize, end: usize) -> &[u8] {
    s.get(start..end.min(s.len())).unwrap_or(&[])
}
