// Bytes as protoc prints them between quotes.
use text::Printer;

#[derive(Clone, Copy)]
pub(crate) struct Escaped<'a>(pub &'a [u8]);

impl Escaped<'_> {
    // A printable byte as it is; else a backslash with a letter or with three octal digits.
    pub(crate) fn add_to(self, out: &mut Printer) {
        for &byte in self.0 {
            match byte {
                b'\t' => out.add(b"\\t"),
                b'\n' => out.add(b"\\n"),
                b'\r' => out.add(b"\\r"),
                b'"' | b'\'' | b'\\' => out.add(&[b'\\', byte]),
                32..=126 => out.add_byte(byte),
                _ => out.add(&octal(byte)),
            }
        }
    }
}

fn octal(byte: u8) -> [u8; 4] {
    [
        b'\\',
        b'0' + byte / 64,
        b'0' + byte / 8 % 8,
        b'0' + byte % 8,
    ]
}
