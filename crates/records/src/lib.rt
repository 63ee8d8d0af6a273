// The record of each of the six kinds, and the slots of its message: from slots to record and from record to slots.
#![tactic(auto)]

mod records;
mod slots;

ghost use Rattle.std.specs.Prelude.{◌≡◌};
ghost use Rattle.records.specs.Records.{record_of};
ghost use Rattle.records.specs.Content.{kind_of, record_id, record_version, row_count, slots_of};

use records::{close_of, init_of, request_of, response_of};
use schema::Kind;

// A byte field: where it starts in the frame, and how long it is; an empty one is 0, 0.
#[derive(Clone, Copy)]
pub struct Span {
    pub start: u32,
    pub len: u32,
}

#[derive(Clone, Copy)]
pub struct Request {
    pub id: u32,
    pub header_version: u8,
    pub version: u32,
    pub call_type: u32,
    pub request_id: u32,
    pub timeout: u32,
    pub caller: Span,
    pub callee: Span,
    pub func: Span,
    pub message_type: u32,
    pub content_type: u32,
    pub content_encoding: u32,
    pub attachment_size: u32,
    pub rows: u32,
}

#[derive(Clone, Copy)]
pub struct Response {
    pub id: u32,
    pub header_version: u8,
    pub version: u32,
    pub call_type: u32,
    pub request_id: u32,
    pub ret: i32,
    pub func_ret: i32,
    pub error_msg: Span,
    pub message_type: u32,
    pub content_type: u32,
    pub content_encoding: u32,
    pub attachment_size: u32,
    pub rows: u32,
}

#[derive(Clone, Copy)]
pub struct RequestMeta {
    // A mark beside the fields, as in document 01: refusal 18 is of a part that is marked absent and not empty.
    pub present: bool,
    pub caller: Span,
    pub callee: Span,
    pub func: Span,
    pub message_type: u32,
}

#[derive(Clone, Copy)]
pub struct ResponseMeta {
    pub present: bool,
    pub ret: i32,
    pub error_msg: Span,
}

#[derive(Clone, Copy)]
pub struct Init {
    pub id: u32,
    pub header_version: u8,
    pub request_meta: RequestMeta,
    pub response_meta: ResponseMeta,
    pub init_window_size: u32,
    pub content_type: u32,
    pub content_encoding: u32,
    pub rows: u32,
}

#[derive(Clone, Copy)]
pub struct Data {
    pub id: u32,
    pub header_version: u8,
    pub rows: u32,
}

#[derive(Clone, Copy)]
pub struct Feedback {
    pub id: u32,
    pub header_version: u8,
    pub window_size_increment: u32,
    pub rows: u32,
}

#[derive(Clone, Copy)]
pub struct Close {
    pub id: u32,
    pub header_version: u8,
    pub close_type: i32,
    pub ret: i32,
    pub msg: Span,
    pub message_type: u32,
    pub func_ret: i32,
    pub rows: u32,
}

#[derive(Clone, Copy)]
pub enum Record {
    Request(Request),
    Response(Response),
    Init(Init),
    Data(Data),
    Feedback(Feedback),
    Close(Close),
}

// What a record is beside its fields.
#[derive(Clone, Copy)]
pub struct Outline {
    pub kind: Kind,
    pub id: u32,
    pub header_version: u8,
    pub rows: u32,
}

// The record of a message whose slots have these values, with that many rows.
#[tactic(auto, unfolding(crate::specs::Records::record_of))]
pub fn record_of(kind: Kind, id: u32, header_version: u8, v: [u32; 16], rows: u32) -> Record
    ensures { result ≡ record_of kind id header_version v rows }
{
    match kind {
        Kind::Request => request_of(id, header_version, v, rows),
        Kind::Response => response_of(id, header_version, v, rows),
        Kind::Init => init_of(id, header_version, v, rows),
        Kind::Data => Record::Data(Data {
            id,
            header_version,
            rows,
        }),
        Kind::Feedback => Record::Feedback(Feedback {
            id,
            header_version,
            window_size_increment: v[0],
            rows,
        }),
        Kind::Close => close_of(id, header_version, v, rows),
    }
}

// What a record of this kind is beside its fields.
// The six records have these fields in types of their own, so that each case of `slots_of` passes them.
fn beside(kind: Kind, id: u32, header_version: u8, rows: u32) -> Outline
    ensures { (result.kind ≡ kind) × (result.id ≡ id) × (result.header_version ≡ header_version) × (result.rows ≡ rows) }
{
    Outline {
        kind,
        id,
        header_version,
        rows,
    }
}

// Stores the fields of a record by the order of its kind's schema, as `record_of` takes them, and returns what else it is.
#[tactic(auto, unfolding(crate::specs::Content::kind_of, crate::specs::Content::record_id, crate::specs::Content::record_version, crate::specs::Content::row_count, crate::specs::Content::slots_of))]
pub fn slots_of(record: Record, slots: &mut [u32; 16]) -> Outline
    ensures { (result.kind ≡ kind_of «record») × (result.id ≡ record_id «record») × (result.header_version ≡ record_version «record»)
        × (result.rows ≡ row_count «record») × (slots.new ≡ slots_of «record») }
{
    match record {
        Record::Request(r) => {
            *slots = r.into();
            beside(Kind::Request, r.id, r.header_version, r.rows)
        }
        Record::Response(r) => {
            *slots = r.into();
            beside(Kind::Response, r.id, r.header_version, r.rows)
        }
        Record::Init(r) => {
            *slots = r.into();
            beside(Kind::Init, r.id, r.header_version, r.rows)
        }
        Record::Data(r) => {
            *slots = [0; 16];
            beside(Kind::Data, r.id, r.header_version, r.rows)
        }
        Record::Feedback(r) => {
            *slots = r.into();
            beside(Kind::Feedback, r.id, r.header_version, r.rows)
        }
        Record::Close(r) => {
            *slots = r.into();
            beside(Kind::Close, r.id, r.header_version, r.rows)
        }
    }
}
