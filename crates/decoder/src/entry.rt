// A map entry: "a message of key 1 and value 2".
ghost use Rattle.std.specs.Prelude.{◌≡◌, ◌+◌, ◌-◌, ◌≤◌, length};
ghost use Rattle.refusals.specs.Refusals.{in_numbers};
ghost use Rattle.fixed_header.specs.Header.{max_frame};
ghost use Rattle.wire_read.specs.Part.{part};
ghost use Rattle.schema.specs.Schema.{entry};
ghost use Rattle.decoder.specs.Fields.{fields_in, blank};
ghost use Rattle.decoder.specs.DecoderState.{entry_of, with_span};

use crate::walking::{start_of, step_in};
use refusals::Refusal;
use wire_read::Field;

// The starts and lengths of an entry's key and value; an empty one is 0, 0.
#[derive(Clone, Copy)]
pub(crate) struct MapEntry {
    pub key: u32,
    pub key_size: u32,
    pub value: u32,
    pub value_size: u32,
}

// The entry with the bytes of its field of this number.
fn set_span(e: MapEntry, number: u32, start: usize, size: usize) -> MapEntry
    requires { start + size ≤ max_frame }
    ensures { result ≡ with_span number start size e }
{
    let len = size as u32;
    let place = start_of(start, size);
    if number == 1 {
        return MapEntry {
            key: place,
            key_size: len,
            value: e.value,
            value_size: e.value_size,
        };
    }
    if number == 2 {
        return MapEntry {
            key: e.key,
            key_size: e.key_size,
            value: place,
            value_size: len,
        };
    }
    e
}

// The entry in the bytes of the frame from `at` to `end`.
pub(crate) fn read_entry(frame: &[u8], at: usize, end: usize) -> Result<MapEntry, Refusal>
    requires { (at ≤ end) × (end ≤ length frame.now) × (length frame.now ≤ max_frame) }
    ensures { in_numbers result ≡ entry_of (fields_in (end - at) frame.now entry 0 at (part frame.now at end) blank) }
{
    let mut e = MapEntry {
        key: 0,
        key_size: 0,
        value: 0,
        value_size: 0,
    };
    let mut i = at;
    while let Some(step) = step_in(frame, i, end)? {
        match step.field {
            Field::Bytes(number, start, size) => e = set_span(e, number, start, size),
            Field::Varint(..) | Field::Fixed64(..) | Field::Group(..) | Field::Fixed32(..) => {}
        }
        i = step.at;
    }
    Ok(e)
}
