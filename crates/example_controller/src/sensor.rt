// The sensor: a Data frame as large as its line takes, and the fixed header of one that is a byte larger. The bytes after its buffer
// must not change.
ghost use Rattle.std.specs.Prelude.{◌≤◌};

use crate::frames::{VERSION, copy_to, write_frame};
use crate::lines::SENSOR;
use records::{Data, Record};
use std::io::Stdout;

// Where piece number n of the stream starts, from 0: the pieces have 1,025 bytes. So the Data frame comes in four, and the header
// after it in two, 4 bytes and 12.
pub(crate) fn piece_start(n: usize) -> usize
    requires { n ≤ 1024 }
{
    n * 1025
}

// What is in the bytes after the buffer.
pub(crate) const GUARD: u8 = 0xee;

// Writes the stream, and returns its length.
pub(crate) fn write_stream(out: &mut [u8]) -> usize {
    let data = Record::Data(Data {
        id: 9,
        header_version: VERSION,
        rows: 0,
    });
    let rows = [0; 4];
    let reading = [0u8; 4080];
    let at = write_frame(data, b"", &rows, &reading, out, SENSOR.ceiling, 0);
    copy_to(
        b"\x09\x30\x01\x02\x00\x00\x10\x01\x00\x00\x00\x00\x00\x09\x01\x00",
        out,
        at,
    )
}

pub(crate) fn print_ceiling(out: Stdout) {
    let ceiling = SENSOR.ceiling;
    let _ = println!(out; "the sensor's line has a ceiling of {ceiling} bytes");
}

// Reports each byte after the buffer that has changed.
pub(crate) fn print_changes(out: Stdout, guard: &[u8]) {
    for (i, &byte) in guard.iter().enumerate() {
        if byte != GUARD {
            let _ = println!(out; "byte {i} after the buffer was changed");
        }
    }
}
