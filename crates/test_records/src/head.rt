// The first eight bytes of a case on standard input, before its label and its frame: the label's length, the kind, how many row
// numbers to lend in two bytes, and the frame's length in four; big-endian.
// The kind is the number that came; `kind_of` names it.
#[derive(Clone, Copy)]
pub(crate) struct Head {
    pub label: usize,
    pub kind: u8,
    pub lent: usize,
    pub size: usize,
}

impl From<[u8; 8]> for Head {
    fn from(bytes: [u8; 8]) -> Head {
        let [label, kind, lent_1, lent_2, size_1, size_2, size_3, size_4] = bytes;
        Head {
            label: usize::from(label),
            kind,
            lent: usize::from(u16::from_be_bytes([lent_1, lent_2])),
            size: u32::from_be_bytes([size_1, size_2, size_3, size_4]) as usize,
        }
    }
}
