// The field walk against an independent Protobuf program: prints the fields of strings from
// standard input as `protoc --decode_raw` prints them, so that its file `stdout`, which is protoc's
// own output, is compared to the byte. tests/protoc/make-corpus makes both files.
//
// Standard input is labels and strings by turns, each after its length in two bytes, big-endian. For
// each string the program writes `# LABEL`, then a line for each field, or `refused N` with the error
// code N where it is not fields to its end.
#![tactic(auto)]

mod escaped;
mod fields;

use fields::{print_fields, refusal};
use std::io;
use std::io::{Stdin, Stdout, Write};
use test_cases::read_part;
use text::Printer;

// The next part of the input. One that is cut off, or that the buffer cannot hold, counts as none.
fn next_part(from: Stdin, buffer: &mut [u8]) -> Option<&[u8]> {
    let mut length = [0; 2];
    read_part(from, &mut length, 2)?;
    Some(read_part(from, buffer, usize::from(u16::from_be_bytes(length)))?)
}

fn print_string(out: Stdout, label: &[u8], string: &[u8]) -> io::Result<()> {
    let mut space = [0; 4096];
    let mut out = Printer::new(out, &mut space);
    out.add(b"# ");
    out.add(label);
    out.add_byte(b'\n');
    match refusal(string) {
        None => print_fields(&mut out, 0, string),
        Some(refusal) => writeln!(out, "refused {}", refusal.number())?,
    }
    out.flush()
}

// Prints the next string of the input; nothing where there is none. Whether a write failed is dropped.
fn print_next(from: Stdin, out: Stdout, label: &mut [u8], string: &mut [u8]) -> Option<()> {
    // Both are read, whatever became of the first.
    let label = next_part(from, label);
    let string = next_part(from, string);
    let _ = print_string(out, label?, string?);
    Some(())
}

// A proved loop has to end, and nothing says that the input does: no run has as many turns.
fn main(rt: HostRuntime) {
    let mut label = [0; 4096];
    let mut string = [0; 4096];
    for _ in 0..u64::MAX {
        if print_next(rt.stdin(), rt.stdout(), &mut label, &mut string).is_none() {
            break;
        }
    }
}
