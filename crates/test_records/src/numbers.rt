// The row numbers: what is lent to the reader, and what it made of it.
use crate::lines::Value;
use crate::parts::Part;
use records::Span;
use text::Printer;

// What the row numbers are before a frame is read. No place or length in a frame is as large.
pub(crate) const LENT: u32 = 4294967295;

// Writes the first `count` rows, as far as there are numbers for whole rows, and then how many row numbers these are, how many zeros
// follow, and how many numbers after them are as they were lent. The three sum up to all numbers where there is nothing else.
pub(crate) fn write_numbers(out: &mut Printer, count: u32, frame: &[u8], numbers: &[u32]) {
    let whole = numbers.len() / 4 * 4;
    let (rows, rest) = numbers.split_at(whole.min(count as usize * 4));
    for row in rows.chunks_exact(4) {
        write_row(out, row, frame);
    }
    let zeros = rest.iter().take_while(|&&number| number == 0).count();
    let kept = rest
        .iter()
        .skip(zeros)
        .take_while(|&&number| number == LENT)
        .count();
    out.add(b"numbers ");
    out.add_decimal(rows.len() as u64);
    out.add(b" zeros ");
    out.add_decimal(zeros as u64);
    out.add(b" kept ");
    out.add_decimal(kept as u64);
    out.add_byte(b'\n');
}

fn write_row(out: &mut Printer, row: &[u32], frame: &[u8]) {
    let &[key_start, key_len, value_start, value_len] = row else {
        return;
    };
    let key = Span {
        start: key_start,
        len: key_len,
    };
    let value = Span {
        start: value_start,
        len: value_len,
    };
    out.add(b"row ");
    Part { span: key, frame }.add_to(out);
    out.add_byte(b' ');
    Part { span: value, frame }.add_to(out);
    out.add_byte(b'\n');
}
