// The six kinds of frames and the fields of their messages: which slot a field is read to.
#![tactic(auto)]

mod fields;

ghost use Rattle.std.specs.Prelude.{◌≡◌};
ghost use Rattle.schema.specs.Schema.{part_schema, slot_at, message_number};
ghost use Rattle.schema.specs.Kinds.{schema_number};
ghost use Rattle.schema.specs.Targets.{look, target_of, Fit};

use fields::{
    close_field, feedback_field, init_field, request_field, request_meta_field, response_field,
    response_meta_field,
};

// What the caller expects a frame to be. A unary frame does not say whether it is a request or a response.
#[derive(Clone, Copy, Debug, PartialEq, Eq)]
pub enum Kind {
    Request = 0,
    Response = 1,
    Init = 2,
    Data = 3,
    Feedback = 4,
    Close = 5,
}

// The schema numbers: the messages, and the two parts of Init. Data has no fields, nor has a message of any other number.
// They are numbers and no enum, since `field_target` and `message_schema` take every number.
pub const REQUEST: u32 = 0;

pub const RESPONSE: u32 = 1;

pub const INIT: u32 = 2;

pub const DATA: u32 = 3;

pub const FEEDBACK: u32 = 4;

pub const CLOSE: u32 = 5;

pub const REQUEST_META: u32 = 6;

pub const RESPONSE_META: u32 = 7;

// A number goes to a slot, bytes to two, an entry to the rows; a message has a slot for its present
// mark and a schema of its own.
#[derive(Clone, Copy)]
pub enum Target {
    Number(usize),
    Bytes(usize),
    Entry,
    Message(usize, u32),
    Unknown,
}

// The schema number of a kind's message.
// No From: its name says which number it is.
pub fn schema_number(kind: Kind) -> u32
    ensures { result ≡ schema_number kind }
{
    kind as u32
}

// The field of this number in the message that a schema number names.
// A match and no table of functions: each arm has the contract of its own message.
#[tactic(auto, using(std::proofs::lemmas::Bool::Decides::nat_tests), unfolding(crate::specs::Targets::look, crate::specs::Schema::schema_at, crate::specs::Schema::part_schema, crate::specs::Schema::slot_at))]
pub fn field_target(schema: u32, number: u32) -> Target
    ensures { (look (part_schema schema) (slot_at schema) number ≡ target_of result) × Fit result }
{
    match schema {
        REQUEST => request_field(number),
        RESPONSE => response_field(number),
        INIT => init_field(number),
        FEEDBACK => feedback_field(number),
        CLOSE => close_field(number),
        REQUEST_META => request_meta_field(number),
        RESPONSE_META => response_meta_field(number),
        _ => Target::Unknown,
    }
}

// A caller names a message and no part of one: another number is a message that has no fields.
#[tactic(auto, using(std::proofs::lemmas::Bool::Decides::nat_tests))]
pub fn message_schema(schema: u32) -> u32
    ensures { result ≡ message_number schema }
{
    if schema < REQUEST_META { schema } else { DATA }
}
