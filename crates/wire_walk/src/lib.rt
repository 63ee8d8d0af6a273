// The fields of a message one after the other. Document 01: "The field walk is a reader that refers
// to the lent header bytes with its place in them." Every function takes all arguments: a place past
// the end of the bytes is their end.
#![tactic(auto)]

mod last;
mod walk;

ghost use Rattle.std.specs.Prelude.{◌≡◌};
ghost use Rattle.refusals.specs.Refusals.{in_numbers};
ghost use Rattle.wire_walk.specs.Reader.{step_at, reader_of, next_of};
ghost use Rattle.wire_walk.specs.Last.{last_field};

use last::later;
use refusals::Refusal;
use wire_read::Field;

// Document 01's reader: the lent bytes and its place in them, where the next field is to start.
#[derive(Clone, Copy)]
pub struct FieldReader<'a> {
    pub bytes: &'a [u8],
    pub at: usize,
}

// A field that a reader found at its place, and the reader after it.
#[derive(Clone, Copy)]
pub struct Moved<'a> {
    pub field: Field,
    pub reader: FieldReader<'a>,
}

// A field at a place of the bytes, and the place after it.
#[derive(Clone, Copy)]
pub struct Step {
    pub field: Field,
    pub at: usize,
}

impl<'a> FieldReader<'a> {
    // A reader at the first of the bytes.
    pub fn new(bytes: &'a [u8]) -> FieldReader<'a>
        ensures { result ≡ reader_of bytes.entry }
    {
        FieldReader { bytes, at: 0 }
    }

    // The field at the reader's place, and the reader after it; none at the end of the bytes. There, and
    // where a field is refused, the reader that was asked stays.
    #[inline(always)]
    pub fn next(self) -> Result<Option<Moved<'a>>, Refusal>
        ensures { in_numbers result ≡ next_of self.entry }
    {
        let Some(step) = walk::step_at(self.bytes, self.at)? else {
            return Ok(None);
        };
        Ok(Some(Moved {
            field: step.field,
            reader: FieldReader {
                bytes: self.bytes,
                at: step.at,
            },
        }))
    }

    // The reader's place: how many bytes come before it.
    pub fn place(self) -> usize
        ensures { result ≡ self.entry.at }
    {
        self.at
    }
}

// What a reader at this place answers, for callers that keep the place themselves.
#[inline(always)]
pub fn field_at(bytes: &[u8], at: usize) -> Result<Option<Step>, Refusal>
    ensures { in_numbers result ≡ step_at bytes.now at }
{
    let Some(moved) = (FieldReader { bytes, at }).next()? else {
        return Ok(None);
    };
    Ok(Some(Step {
        field: moved.field,
        at: moved.reader.at,
    }))
}

// The last field with this tag, field number times 8 plus wire type: "The last occurrence of a field
// wins". None where there is none; the refusal where the bytes are not fields to their end.
// The tag is a number, since one that no field can have is answered too.
pub fn last_field(bytes: &[u8], tag: u32) -> Result<Option<Field>, Refusal>
    ensures { in_numbers result ≡ last_field tag bytes.now }
{
    let mut found = None;
    let mut at = 0;
    while let Some(step) = field_at(bytes, at)? {
        found = later(found, step.field, tag);
        at = step.at;
    }
    Ok(found)
}
