// The message reader against an independent Protobuf program: reads frames whose messages `protoc
// --encode` wrote, and damaged ones, and prints what it found. The file `stdout` has what protoc
// was given. tests/protoc/make-records makes both files.
//
// For each case of standard input the program writes `# LABEL`; the header, the body and the
// attachment; the record with a line for each field, or `refused N`; a line for each row; and what
// became of the row numbers that were lent.
#![tactic(auto)]

mod head;
mod lines;
mod numbers;
mod parts;
mod record;

use head::Head;
use lines::write_line;
use message::read_spans;
use numbers::{LENT, write_numbers};
use parts::{Bytes, Part};
use record::{rows_of, write_record};
use schema::Kind;
use std::io::{Stdin, Stdout};
use test_cases::read_part;
use text::Printer;

// The ceiling that frames are read under: document 01's largest frame.
const CEILING: u32 = 65536;

// What the input calls the kinds.
// No From: the type is of `schema`, and these numbers are only this input's.
fn kind_of(number: u8) -> Kind {
    match number {
        0 => Kind::Request,
        1 => Kind::Response,
        2 => Kind::Init,
        3 => Kind::Data,
        4 => Kind::Feedback,
        _ => Kind::Close,
    }
}

// The body that `reader::read` hands out. The reading holds references, so all that is done with it here is to take one part out; the
// other parts are taken from `read_spans`, on which `read` rests.
fn body_part<'a, 'b>(kind: Kind, frame: &'a [u8], ceiling: u32, rows: &'b mut [u32]) -> &'a [u8] {
    let reading = reader::read(kind, frame, ceiling, rows);
    reading.body
}

// Reads a frame and writes its parts, its record or the error code, and its rows. Reading it again leaves the row numbers as they are.
fn write_frame(out: &mut Printer, kind: Kind, frame: &[u8], rows: &mut [u32]) {
    rows.fill(LENT);
    let located = read_spans(kind, frame, CEILING, rows);
    let header = Part {
        span: located.header,
        frame,
    };
    let attachment = Part {
        span: located.attachment,
        frame,
    };
    let body = body_part(kind, frame, CEILING, rows);
    let length = body.len();
    write_line(out, "header", header.bytes());
    write_line(
        out,
        "body",
        Bytes {
            length,
            bytes: body,
        },
    );
    write_line(out, "attachment", attachment.bytes());
    match located.answer {
        Ok(record) => {
            write_record(out, record, frame);
            write_numbers(out, rows_of(record), frame, rows);
        }
        Err(refusal) => {
            write_line(out, "refused", refusal.number());
            write_numbers(out, 0, frame, rows);
        }
    }
}

fn print_case(out: Stdout, label: &[u8], kind: Kind, frame: &[u8], rows: &mut [u32]) {
    let mut space = [0; 4096];
    let mut out = Printer::new(out, &mut space);
    out.add(b"# ");
    out.add(label);
    out.add_byte(b'\n');
    write_frame(&mut out, kind, frame, rows);
    out.print();
}

// Prints the next case of the input; nothing where there is none that is whole.
fn print_next(
    from: Stdin,
    out: Stdout,
    label: &mut [u8],
    frame: &mut [u8],
    rows: &mut [u32],
) -> Option<()> {
    let mut bytes = [0; 8];
    read_part(from, &mut bytes, 8)?;
    let head = Head::from(bytes);
    let label = read_part(from, label, head.label)?;
    let frame = read_part(from, frame, head.size)?;
    let rows = rows.get_mut(..head.lent)?;
    print_case(out, label, kind_of(head.kind), frame, rows);
    Some(())
}

// A proved loop has to end, and nothing says that the input does: no run has as many turns.
fn main(rt: HostRuntime) {
    let mut label = [0; 255];
    let mut frame = [0; 65536];
    let mut rows = [0; 300];
    for _ in 0..u64::MAX {
        if print_next(rt.stdin(), rt.stdout(), &mut label, &mut frame, &mut rows).is_none() {
            break;
        }
    }
}
