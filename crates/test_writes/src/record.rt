// The record that the numbers of a case name.
use crate::input::Head;
use records::{
    Close, Data, Feedback, Init, Record, Request, RequestMeta, Response, ResponseMeta, Span,
};

// The kinds are numbered from 0 in the order of `Record`. The fields `v` are in the order of source
// document 000, without the map: a byte field is a start and a length, an int32 its 32 bits, and a part
// of Init its present mark, 0 or 1, before its own fields. A version is a byte; the input has none above 255.
// Not by `record_of` of `records`, which undoes what the writer does: a swap in both would not show.
pub(crate) fn record_of(head: Head, v: [u32; 16]) -> Record {
    let id = head.id;
    let rows = head.rows;
    let header_version = (head.version % 256) as u8;
    match head.kind {
        0 => Record::Request(request(id, header_version, rows, v)),
        1 => Record::Response(response(id, header_version, rows, v)),
        2 => Record::Init(init(id, header_version, rows, v)),
        3 => Record::Data(Data {
            id,
            header_version,
            rows,
        }),
        4 => Record::Feedback(Feedback {
            id,
            header_version,
            window_size_increment: v[0],
            rows,
        }),
        _ => Record::Close(close(id, header_version, rows, v)),
    }
}

// No From: of a pair of numbers nothing says which one is the start.
fn span(start: u32, len: u32) -> Span {
    Span { start, len }
}

fn request(id: u32, header_version: u8, rows: u32, v: [u32; 16]) -> Request {
    Request {
        id,
        header_version,
        version: v[0],
        call_type: v[1],
        request_id: v[2],
        timeout: v[3],
        caller: span(v[4], v[5]),
        callee: span(v[6], v[7]),
        func: span(v[8], v[9]),
        message_type: v[10],
        content_type: v[11],
        content_encoding: v[12],
        attachment_size: v[13],
        rows,
    }
}

fn response(id: u32, header_version: u8, rows: u32, v: [u32; 16]) -> Response {
    Response {
        id,
        header_version,
        version: v[0],
        call_type: v[1],
        request_id: v[2],
        ret: v[3].cast_signed(),
        func_ret: v[4].cast_signed(),
        error_msg: span(v[5], v[6]),
        message_type: v[7],
        content_type: v[8],
        content_encoding: v[9],
        attachment_size: v[10],
        rows,
    }
}

fn init(id: u32, header_version: u8, rows: u32, v: [u32; 16]) -> Init {
    Init {
        id,
        header_version,
        request_meta: RequestMeta {
            present: v[0] == 1,
            caller: span(v[1], v[2]),
            callee: span(v[3], v[4]),
            func: span(v[5], v[6]),
            message_type: v[7],
        },
        response_meta: ResponseMeta {
            present: v[8] == 1,
            ret: v[9].cast_signed(),
            error_msg: span(v[10], v[11]),
        },
        init_window_size: v[12],
        content_type: v[13],
        content_encoding: v[14],
        rows,
    }
}

fn close(id: u32, header_version: u8, rows: u32, v: [u32; 16]) -> Close {
    Close {
        id,
        header_version,
        close_type: v[0].cast_signed(),
        ret: v[1].cast_signed(),
        msg: span(v[2], v[3]),
        message_type: v[4],
        func_ret: v[5].cast_signed(),
        rows,
    }
}
