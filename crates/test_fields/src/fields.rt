// The fields of a string, walked by a field reader and printed as protoc prints them. The reader
// takes all places, so nothing has to be known here of the places that it answers.
use crate::escaped::Escaped;
use refusals::Refusal;
use text::Printer;
use wire_read::Field;

// protoc shows bytes as a message above this level; messages and groups count alike.
const MESSAGE_LEVELS: u32 = 10;

// Groups nest to 32, so a string that is not refused has no fields below this level.
const LEVELS: u32 = 32;

// The refusal of a string that is not fields to its end. No field has the tag 0, so what the walk for
// it finds is none or the refusal.
pub(crate) fn refusal(s: &[u8]) -> Option<Refusal> {
    wire_walk::last_field(s, 0).err()
}

// Prints the fields of a part up to its end, or to what is no field: the part of a group takes its
// end tag in, and in a string without error nothing else is no field. A turn takes a byte at least.
#[cycle(print_fields_print_nested)]
pub(crate) fn print_fields(out: &mut Printer, level: u32, part: &[u8]) {
    let mut at = 0;
    for _ in 0..part.len() {
        let Ok(Some(step)) = wire_walk::field_at(part, at) else {
            break;
        };
        match fields_inside(step.field, level, part, at) {
            Some(inner) => print_nested(out, level, inner),
            None => print_value(out, level, step.field, part),
        }
        at = step.at;
    }
}

// The fields inside a field, and its number.
#[derive(Clone, Copy)]
struct Inner<'a> {
    number: u32,
    part: &'a [u8],
}

// A field with fields inside.
#[cycle(print_fields_print_nested)]
fn print_nested(out: &mut Printer, level: u32, inner: Inner) {
    if level >= LEVELS {
        return;
    }
    add_number(out, level, inner.number);
    out.add(b" {\n");
    print_fields(out, level + 1, inner.part);
    out.add(indent(level));
    out.add(b"}\n");
}

// A field in one line. Groups are not printed here.
fn print_value(out: &mut Printer, level: u32, field: Field, part: &[u8]) {
    match field {
        Field::Varint(number, value, _) => {
            add_name(out, level, number);
            out.add_decimal(value);
            out.add_byte(b'\n');
        }
        Field::Fixed64(number, value, _) => print_hex(out, level, number, &value.to_be_bytes()),
        Field::Fixed32(number, value, _) => print_hex(out, level, number, &value.to_be_bytes()),
        Field::Bytes(number, start, length) => {
            add_name(out, level, number);
            out.add_byte(b'"');
            Escaped(bytes_at(part, start, length)).add_to(out);
            out.add(b"\"\n");
        }
        Field::Group(..) => {}
    }
}

// A value as `0x` and two digits for each of its bytes.
fn print_hex(out: &mut Printer, level: u32, number: u32, value: &[u8]) {
    add_name(out, level, number);
    out.add(b"0x");
    for &byte in value {
        out.add_hex(byte);
    }
    out.add_byte(b'\n');
}

// The number of a field whose value follows in the line.
fn add_name(out: &mut Printer, level: u32, number: u32) {
    add_number(out, level, number);
    out.add(b": ");
}

fn add_number(out: &mut Printer, level: u32, number: u32) {
    out.add(indent(level));
    out.add_decimal(u64::from(number));
}

// Two spaces for each level, of which there are at most 32.
fn indent(level: u32) -> &'static [u8] {
    let spaces = b"                                                                ";
    spaces.get(..level as usize * 2).unwrap_or(b"")
}

// A group has fields inside, and so have bytes that look like a message.
fn fields_inside(field: Field, level: u32, part: &[u8], at: usize) -> Option<Inner<'_>> {
    match field {
        Field::Group(number, next) => Some(Inner {
            number,
            part: between(part, after_tag(part, at)?, next),
        }),
        Field::Bytes(number, start, length) => {
            let bytes = bytes_at(part, start, length);
            if is_message(level, bytes) {
                Some(Inner {
                    number,
                    part: bytes,
                })
            } else {
                None
            }
        }
        _ => None,
    }
}

// protoc's guess: some bytes, fields to their end, with no more groups nested than levels are left.
fn is_message(level: u32, bytes: &[u8]) -> bool {
    !bytes.is_empty() && level < MESSAGE_LEVELS && is_fields(bytes, MESSAGE_LEVELS - level)
}

// Whether a part is fields to its end, with at most `depth` groups nested. A turn takes a byte at least.
fn is_fields(part: &[u8], depth: u32) -> bool {
    let mut at = 0;
    for _ in 0..=part.len() {
        match after_field(part, at, depth) {
            Ok(Some(next)) => at = next,
            Ok(None) => return true,
            Err(_) => return false,
        }
    }
    false
}

// The place after the field at this place, with at most `depth` groups nested; none at the part's end.
fn after_field(part: &[u8], at: usize, depth: u32) -> Result<Option<usize>, Refusal> {
    let end = part.len();
    let Some(tag) = wire_read::read_tag(part, at, end)? else {
        return Ok(None);
    };
    let next = wire_read::skip_field(part, tag.next, end, tag.number, tag.wire_type, depth)?;
    Ok(Some(next))
}

fn after_tag(part: &[u8], at: usize) -> Option<usize> {
    let tag = wire_read::read_tag(part, at, part.len()).ok()??;
    Some(tag.next)
}

// The bytes of a field. They lie in the part that it was read from.
fn bytes_at(part: &[u8], start: usize, length: usize) -> &[u8] {
    between(part, start, start.saturating_add(length))
}

fn between(part: &[u8], start: usize, end: usize) -> &[u8] {
    part.get(start..end).unwrap_or(&[])
}
