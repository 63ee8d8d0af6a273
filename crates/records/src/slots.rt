// The slots of each kind that has fields.
#![tactic(auto, using(crate::proofs::Signed::bits_back), unfolding(crate::specs::Content::slots_of))]

ghost use Rattle.std.specs.Prelude.{◌≡◌, ◌++◌, ◌-◌, ◌≤◌, replicate};
ghost use Rattle.records.specs.declared.Record.TheVariants as records;
ghost use Rattle.records.specs.Content.{slots_of};

use crate::{Close, Feedback, Init, Request, Response};

// The first slots, and zeros after them.
fn padded<const N: usize>(first: &[u32; N]) -> [u32; 16]
    requires { N ≤ 16 }
    ensures { result ≡ first.now ++ replicate (16 - N) 0 }
{
    let mut slots = [0; 16];
    slots[..N].copy_from_slice(first);
    slots
}

impl From<Request> for [u32; 16] {
    ghost from_gives = { λ r s. s ≡ slots_of (records.Request r) };

    fn from(r: Request) -> [u32; 16] {
        padded(&[
            r.version,
            r.call_type,
            r.request_id,
            r.timeout,
            r.caller.start,
            r.caller.len,
            r.callee.start,
            r.callee.len,
            r.func.start,
            r.func.len,
            r.message_type,
            r.content_type,
            r.content_encoding,
            r.attachment_size,
        ])
    }
}

impl From<Response> for [u32; 16] {
    ghost from_gives = { λ r s. s ≡ slots_of (records.Response r) };

    fn from(r: Response) -> [u32; 16] {
        padded(&[
            r.version,
            r.call_type,
            r.request_id,
            r.ret.cast_unsigned(),
            r.func_ret.cast_unsigned(),
            r.error_msg.start,
            r.error_msg.len,
            r.message_type,
            r.content_type,
            r.content_encoding,
            r.attachment_size,
        ])
    }
}

impl From<Init> for [u32; 16] {
    ghost from_gives = { λ r s. s ≡ slots_of (records.Init r) };

    fn from(r: Init) -> [u32; 16] {
        let response = r.response_meta;
        padded(&[
            u32::from(r.request_meta.present),
            r.request_meta.caller.start,
            r.request_meta.caller.len,
            r.request_meta.callee.start,
            r.request_meta.callee.len,
            r.request_meta.func.start,
            r.request_meta.func.len,
            r.request_meta.message_type,
            u32::from(response.present),
            response.ret.cast_unsigned(),
            response.error_msg.start,
            response.error_msg.len,
            r.init_window_size,
            r.content_type,
            r.content_encoding,
        ])
    }
}

impl From<Feedback> for [u32; 16] {
    ghost from_gives = { λ r s. s ≡ slots_of (records.Feedback r) };

    fn from(r: Feedback) -> [u32; 16] {
        padded(&[r.window_size_increment])
    }
}

impl From<Close> for [u32; 16] {
    ghost from_gives = { λ r s. s ≡ slots_of (records.Close r) };

    fn from(r: Close) -> [u32; 16] {
        padded(&[
            r.close_type.cast_unsigned(),
            r.ret.cast_unsigned(),
            r.msg.start,
            r.msg.len,
            r.message_type,
            r.func_ret.cast_unsigned(),
        ])
    }
}
