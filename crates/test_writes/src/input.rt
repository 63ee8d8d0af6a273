// Numbers and bytes on standard input. A number is four bytes, big-endian.
use std::io::Stdin;
use test_cases::read_part;

// The lengths of a case's label, of the row numbers that are lent, of the source, of the body and of the output; how many bytes of the
// source and of the body are given, which are repeated up to the length; the kind, the id, the row count and the version.
// The kind is the number that came: the one `match` on it makes the record.
#[derive(Clone, Copy)]
pub(crate) struct Head {
    pub label: usize,
    pub lent: usize,
    pub source: usize,
    pub body: usize,
    pub room: usize,
    pub source_given: usize,
    pub body_given: usize,
    pub kind: u32,
    pub id: u32,
    pub rows: u32,
    pub version: u32,
}

impl From<[u32; 11]> for Head {
    fn from(numbers: [u32; 11]) -> Head {
        let [
            label,
            lent,
            source,
            body,
            room,
            source_given,
            body_given,
            kind,
            id,
            rows,
            version,
        ] = numbers;
        Head {
            label: label as usize,
            lent: lent as usize,
            source: source as usize,
            body: body as usize,
            room: room as usize,
            source_given: source_given as usize,
            body_given: body_given as usize,
            kind,
            id,
            rows,
            version,
        }
    }
}

// Reads numbers, as many as the buffer holds; nothing where the input ends before.
pub(crate) fn read_numbers(from: Stdin, numbers: &mut [u32]) -> Option<()> {
    for number in numbers {
        let mut bytes = [0; 4];
        read_part(from, &mut bytes, 4)?;
        *number = u32::from_be_bytes(bytes);
    }
    Some(())
}

// Reads `period` bytes and repeats them up to `n` bytes, so that the input of long strings is short.
pub(crate) fn read_repeated(
    from: Stdin,
    buffer: &mut [u8],
    period: usize,
    n: usize,
) -> Option<&[u8]> {
    read_part(from, buffer, period)?;
    let bytes = buffer.get_mut(..n)?;
    if period > 0 {
        // By index: a byte is copied that an earlier turn may have written.
        for i in period..n {
            bytes[i] = bytes[i - period];
        }
    }
    Some(bytes)
}
