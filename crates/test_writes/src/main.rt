// The writer of frames against an independent Protobuf program: writes records and prints their
// frames or error codes. The file `stdout` has frames whose messages `protoc --encode` wrote from
// the same values. tests/protoc/make-writes makes both files.
//
// A case of standard input is eleven numbers (`Head`), then 16 numbers for the fields (`record`), the
// label, the row numbers, the source and the body. A number is four bytes, big-endian.
//
// For each case the program writes `# LABEL`; `frame SIZE BYTES` or `refused N`; and how many bytes
// of the output past the frame are as they were.
#![tactic(auto)]

mod input;
mod record;

use fixed_header::MAX_FRAME;
use input::{Head, read_numbers, read_repeated};
use record::record_of;
use records::Record;
use std::io;
use std::io::{Stdin, Stdout, Write};
use test_cases::read_part;
use text::Printer;

// What is lent for the cases, one after the other.
#[derive(Drop)]
struct Buffers<'a> {
    label: &'a mut [u8],
    rows: &'a mut [u32],
    source: &'a mut [u8],
    body: &'a mut [u8],
    out: &'a mut [u8],
}

// After so many bytes the output begins again, before a frame is written.
const PERIOD: usize = 251;

// The byte at place `i` of the output before a frame is written.
fn pattern(i: usize) -> u8 {
    (255 - i % PERIOD) as u8
}

// How many bytes from `from` on are as they were, up to the first that is not.
fn count_kept(out: &[u8], from: usize) -> usize {
    (from..out.len())
        .take_while(|&i| out[i] == pattern(i))
        .count()
}

// Writes a record under the largest ceiling over what the output has before, and prints the frame or the refusal. The answer is where
// what is kept of the output begins.
fn write_frame(
    to: &mut Printer,
    record: Record,
    source: &[u8],
    rows: &[u32],
    body: &[u8],
    out: &mut [u8],
) -> io::Result<usize> {
    match writer::write(record, source, rows, body, out, MAX_FRAME as u32) {
        Ok(size) => {
            to.add(b"frame ");
            to.add_decimal(size as u64);
            to.add_byte(b' ');
            for &byte in out.iter().take(size) {
                to.add_hex(byte);
            }
            to.add_byte(b'\n');
            Ok(size)
        }
        Err(refusal) => {
            let number = refusal.number();
            writeln!(to, "refused {number}")?;
            Ok(0)
        }
    }
}

fn print_label(stdout: Stdout, label: &[u8]) {
    let mut space = [0; 260];
    let mut to = Printer::new(stdout, &mut space);
    to.add(b"# ");
    to.add(label);
    to.add_byte(b'\n');
    to.print();
}

fn print_case(
    stdout: Stdout,
    record: Record,
    source: &[u8],
    rows: &[u32],
    body: &[u8],
    out: &mut [u8],
) -> io::Result<()> {
    let mut space = [0; 4096];
    let mut to = Printer::new(stdout, &mut space);
    for part in out.chunks_mut(PERIOD) {
        for (i, byte) in part.iter_mut().enumerate() {
            *byte = pattern(i);
        }
    }
    let end = write_frame(&mut to, record, source, rows, body, out)?;
    let kept = count_kept(out, end);
    writeln!(to, "kept {kept}")?;
    to.flush()
}

// Prints the next case of the input; nothing where there is none that is whole and for whose output there is room. Whether a write failed is dropped.
fn print_next(stdin: Stdin, stdout: Stdout, lent: &mut Buffers) -> Option<()> {
    let mut head = [0; 11];
    read_numbers(stdin, &mut head)?;
    let head = Head::from(head);
    let mut fields = [0; 16];
    read_numbers(stdin, &mut fields)?;
    let label = read_part(stdin, lent.label, head.label)?;
    let rows = lent.rows.get_mut(..head.lent)?;
    read_numbers(stdin, rows)?;
    let source = read_repeated(stdin, lent.source, head.source_given, head.source)?;
    let body = read_repeated(stdin, lent.body, head.body_given, head.body)?;
    print_label(stdout, label);
    let out = lent.out.get_mut(..head.room)?;
    let record = record_of(head, fields);
    let _ = print_case(stdout, record, source, rows, body, out);
    Some(())
}

// A proved loop has to end, and nothing says that the input does: no run has as many turns.
fn main(rt: HostRuntime) {
    let mut label = [0; 255];
    let mut rows = [0; 300];
    let mut source = [0; 65536];
    let mut body = [0; 65536];
    let mut out = [0; 65536];
    let mut lent = Buffers {
        label: &mut label,
        rows: &mut rows,
        source: &mut source,
        body: &mut body,
        out: &mut out,
    };
    for _ in 0..u64::MAX {
        if print_next(rt.stdin(), rt.stdout(), &mut lent).is_none() {
            break;
        }
    }
}
