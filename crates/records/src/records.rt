// The record of each kind that has more than one field, made of the slots of its message.
#![tactic(auto, unfolding(crate::specs::Records::record_of))]

ghost use Rattle.std.specs.Prelude.{◌≡◌, ◌+◌, ◌<◌};
ghost use Rattle.wire_read.specs.Varint.{low_i32};
ghost use Rattle.records.specs.Records.{span_at, request_meta_of, response_meta_of, record_of};

use crate::{Close, Init, Record, Request, RequestMeta, Response, ResponseMeta, Span};
use schema::Kind;

// An int32 field: its slot has the low 32 bits.
// A function of its own: that the cast is document 01's rule is proved here once, for six fields.
#[tactic(auto, using(crate::proofs::Signed::low_signed))]
fn signed(v: u32) -> i32
    ensures { result ≡ low_i32 v }
{
    v.cast_signed()
}

// A byte field: its slot and the next have its start and its length.
fn span_at(v: &[u32; 16], at: usize) -> Span
    requires { at + 1 < 16 }
    ensures { result ≡ span_at v.now at }
{
    Span {
        start: v[at],
        len: v[at + 1],
    }
}

pub(crate) fn request_of(id: u32, header_version: u8, v: [u32; 16], rows: u32) -> Record
    ensures { result ≡ record_of Kind.Request id header_version v rows }
{
    Record::Request(Request {
        id,
        header_version,
        version: v[0],
        call_type: v[1],
        request_id: v[2],
        timeout: v[3],
        caller: span_at(&v, 4),
        callee: span_at(&v, 6),
        func: span_at(&v, 8),
        message_type: v[10],
        content_type: v[11],
        content_encoding: v[12],
        attachment_size: v[13],
        rows,
    })
}

pub(crate) fn response_of(id: u32, header_version: u8, v: [u32; 16], rows: u32) -> Record
    ensures { result ≡ record_of Kind.Response id header_version v rows }
{
    Record::Response(Response {
        id,
        header_version,
        version: v[0],
        call_type: v[1],
        request_id: v[2],
        ret: signed(v[3]),
        func_ret: signed(v[4]),
        error_msg: span_at(&v, 5),
        message_type: v[7],
        content_type: v[8],
        content_encoding: v[9],
        attachment_size: v[10],
        rows,
    })
}

fn request_meta_of(v: [u32; 16]) -> RequestMeta
    ensures { result ≡ request_meta_of v }
{
    RequestMeta {
        present: v[0] != 0,
        caller: span_at(&v, 1),
        callee: span_at(&v, 3),
        func: span_at(&v, 5),
        message_type: v[7],
    }
}

fn response_meta_of(v: [u32; 16]) -> ResponseMeta
    ensures { result ≡ response_meta_of v }
{
    ResponseMeta {
        present: v[8] != 0,
        ret: signed(v[9]),
        error_msg: span_at(&v, 10),
    }
}

pub(crate) fn init_of(id: u32, header_version: u8, v: [u32; 16], rows: u32) -> Record
    ensures { result ≡ record_of Kind.Init id header_version v rows }
{
    Record::Init(Init {
        id,
        header_version,
        request_meta: request_meta_of(v),
        response_meta: response_meta_of(v),
        init_window_size: v[12],
        content_type: v[13],
        content_encoding: v[14],
        rows,
    })
}

pub(crate) fn close_of(id: u32, header_version: u8, v: [u32; 16], rows: u32) -> Record
    ensures { result ≡ record_of Kind.Close id header_version v rows }
{
    Record::Close(Close {
        id,
        header_version,
        close_type: signed(v[0]),
        ret: signed(v[1]),
        msg: span_at(&v, 2),
        message_type: v[4],
        func_ret: signed(v[5]),
        rows,
    })
}
