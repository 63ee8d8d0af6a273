// Parts of a frame as text.
use crate::lines::Value;
use records::Span;
use text::Printer;

// Bytes: how many they are, and each in hexadecimal.
#[derive(Clone, Copy)]
pub(crate) struct Bytes<'a> {
    pub length: usize,
    pub bytes: &'a [u8],
}

impl Value for Bytes<'_> {
    fn add_to(self, out: &mut Printer) {
        out.add_decimal(self.length as u64);
        out.add_byte(b' ');
        for &byte in self.bytes {
            out.add_hex(byte);
        }
    }
}

// A part of a frame: its start, its length, and the bytes there.
#[derive(Clone, Copy)]
pub(crate) struct Part<'a> {
    pub span: Span,
    pub frame: &'a [u8],
}

impl<'a> Part<'a> {
    // Its bytes, as far as the frame has them.
    pub(crate) fn bytes(self) -> Bytes<'a> {
        let length = self.span.len as usize;
        let rest = self.frame.get(self.span.start as usize..).unwrap_or(&[]);
        let bytes = rest.get(..length).unwrap_or(rest);
        Bytes { length, bytes }
    }
}

impl Value for Part<'_> {
    fn add_to(self, out: &mut Printer) {
        out.add_decimal(u64::from(self.span.start));
        out.add_byte(b' ');
        self.bytes().add_to(out);
    }
}
