// A record: a line with its kind and id, one with its version, and one for each of its fields, in the order of source document 000.
use crate::lines::write_line;
use crate::parts::Part;
use records::{
    Close, Data, Feedback, Init, Record, Request, RequestMeta, Response, ResponseMeta, Span,
};
use text::Printer;

// The line `NAME VALUE` of a part of the frame.
fn write_part(out: &mut Printer, name: &str, span: Span, frame: &[u8]) {
    write_line(out, name, Part { span, frame });
}

pub(crate) fn write_record(out: &mut Printer, record: Record, frame: &[u8]) {
    match record {
        Record::Request(r) => write_request(out, r, frame),
        Record::Response(r) => write_response(out, r, frame),
        Record::Init(r) => write_init(out, r, frame),
        Record::Data(r) => write_data(out, r),
        Record::Feedback(r) => write_feedback(out, r),
        Record::Close(r) => write_close(out, r, frame),
    }
}

pub(crate) fn rows_of(record: Record) -> u32 {
    match record {
        Record::Request(r) => r.rows,
        Record::Response(r) => r.rows,
        Record::Init(r) => r.rows,
        Record::Data(r) => r.rows,
        Record::Feedback(r) => r.rows,
        Record::Close(r) => r.rows,
    }
}

fn write_request(out: &mut Printer, r: Request, frame: &[u8]) {
    write_line(out, "request", r.id);
    write_line(out, "header_version", r.header_version);
    write_line(out, "version", r.version);
    write_line(out, "call_type", r.call_type);
    write_line(out, "request_id", r.request_id);
    write_line(out, "timeout", r.timeout);
    write_part(out, "caller", r.caller, frame);
    write_part(out, "callee", r.callee, frame);
    write_part(out, "func", r.func, frame);
    write_line(out, "message_type", r.message_type);
    write_line(out, "content_type", r.content_type);
    write_line(out, "content_encoding", r.content_encoding);
    write_line(out, "attachment_size", r.attachment_size);
    write_line(out, "rows", r.rows);
}

fn write_response(out: &mut Printer, r: Response, frame: &[u8]) {
    write_line(out, "response", r.id);
    write_line(out, "header_version", r.header_version);
    write_line(out, "version", r.version);
    write_line(out, "call_type", r.call_type);
    write_line(out, "request_id", r.request_id);
    write_line(out, "ret", r.ret);
    write_line(out, "func_ret", r.func_ret);
    write_part(out, "error_msg", r.error_msg, frame);
    write_line(out, "message_type", r.message_type);
    write_line(out, "content_type", r.content_type);
    write_line(out, "content_encoding", r.content_encoding);
    write_line(out, "attachment_size", r.attachment_size);
    write_line(out, "rows", r.rows);
}

fn write_init(out: &mut Printer, r: Init, frame: &[u8]) {
    write_line(out, "init", r.id);
    write_line(out, "header_version", r.header_version);
    write_request_meta(out, r.request_meta, frame);
    write_response_meta(out, r.response_meta, frame);
    write_line(out, "init_window_size", r.init_window_size);
    write_line(out, "content_type", r.content_type);
    write_line(out, "content_encoding", r.content_encoding);
    write_line(out, "rows", r.rows);
}

fn write_request_meta(out: &mut Printer, meta: RequestMeta, frame: &[u8]) {
    write_line(out, "request_meta", mark(meta.present));
    write_part(out, "request_meta.caller", meta.caller, frame);
    write_part(out, "request_meta.callee", meta.callee, frame);
    write_part(out, "request_meta.func", meta.func, frame);
    write_line(out, "request_meta.message_type", meta.message_type);
}

fn write_response_meta(out: &mut Printer, meta: ResponseMeta, frame: &[u8]) {
    write_line(out, "response_meta", mark(meta.present));
    write_line(out, "response_meta.ret", meta.ret);
    write_part(out, "response_meta.error_msg", meta.error_msg, frame);
}

fn mark(present: bool) -> &'static str {
    if present { "present" } else { "absent" }
}

fn write_data(out: &mut Printer, r: Data) {
    write_line(out, "data", r.id);
    write_line(out, "header_version", r.header_version);
    write_line(out, "rows", r.rows);
}

fn write_feedback(out: &mut Printer, r: Feedback) {
    write_line(out, "feedback", r.id);
    write_line(out, "header_version", r.header_version);
    write_line(out, "window_size_increment", r.window_size_increment);
    write_line(out, "rows", r.rows);
}

fn write_close(out: &mut Printer, r: Close, frame: &[u8]) {
    write_line(out, "close", r.id);
    write_line(out, "header_version", r.header_version);
    write_line(out, "close_type", r.close_type);
    write_line(out, "ret", r.ret);
    write_part(out, "msg", r.msg, frame);
    write_line(out, "message_type", r.message_type);
    write_line(out, "func_ret", r.func_ret);
    write_line(out, "rows", r.rows);
}
