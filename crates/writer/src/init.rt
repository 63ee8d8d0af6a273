// The message of Init: its two parts, each with its length in front, and its own fields.
ghost use Rattle.std.specs.Prelude.{◌≡◌, ◌+◌, ◌≤◌, length};
ghost use Rattle.schema.specs.Schema.{init};
ghost use Rattle.writer.specs.Encoding.{put_fields};
ghost use Rattle.writer.specs.Straight.{fours, Did, SpanIn, MetaIn, request_meta_bytes, response_meta_bytes, request_meta_length, response_meta_length};
ghost use Rattle.writer.specs.Straight.{put_request_part, put_response_part, init_length};

use crate::message::Message;
use crate::put::{put_head, put_number, put_signed, put_some};
use crate::sizes::{request_meta_size, response_meta_size};

// The inside of the request part.
fn put_request_meta(m: &Message, out: &mut [u8], at: usize) -> usize
    requires { MetaIn (length m.now.source.now) m.now.slots.now
        × (at + request_meta_length m.now.source.now (fours m.now.rows.now) m.now.slots.now ≤ length out.old) }
    ensures { Did (request_meta_bytes m.now.source.now (fours m.now.rows.now) m.now.slots.now) out.old at result
        out.new }
{
    let n = m.slots;
    let a = put_some(1, n[1], n[2], m.source, out, at);
    let b = put_some(2, n[3], n[4], m.source, out, a);
    let c = put_some(3, n[5], n[6], m.source, out, b);
    let d = put_number(4, n[7], out, c);
    m.put_rows(5, out, d)
}

// The inside of the response part.
fn put_response_meta(m: &Message, out: &mut [u8], at: usize) -> usize
    requires { SpanIn (length m.now.source.now) m.now.slots.now 10 × (at + response_meta_length m.now.source.now m.now.slots.now ≤ length out.old) }
    ensures { Did (response_meta_bytes m.now.source.now (fours m.now.rows.now) m.now.slots.now) out.old at
        result out.new }
{
    let n = m.slots;
    let a = put_signed(1, n[9], out, at);
    put_some(2, n[10], n[11], m.source, out, a)
}

// Field 1, left out where it is marked absent.
fn put_request_part(m: &Message, out: &mut [u8], at: usize) -> usize
    requires { MetaIn (length m.now.source.now) m.now.slots.now
        × (at + length (put_request_part m.now.source.now (fours m.now.rows.now) m.now.slots.now) ≤ length out.old) }
    ensures { Did (put_request_part m.now.source.now (fours m.now.rows.now) m.now.slots.now) out.old at
        result out.new }
{
    let n = m.slots;
    if n[0] == 0 {
        return at;
    }
    let size = request_meta_size(m);
    let inside = put_head(0x0a, size as u64, out, at);
    put_request_meta(m, out, inside)
}

// Field 2, left out where it is marked absent.
fn put_response_part(m: &Message, out: &mut [u8], at: usize) -> usize
    requires { SpanIn (length m.now.source.now) m.now.slots.now 10
        × (at + length (put_response_part m.now.source.now (fours m.now.rows.now) m.now.slots.now) ≤ length out.old) }
    ensures { Did (put_response_part m.now.source.now (fours m.now.rows.now) m.now.slots.now) out.old at
        result out.new }
{
    let n = m.slots;
    if n[8] == 0 {
        return at;
    }
    let size = response_meta_size(m);
    let inside = put_head(0x12, size as u64, out, at);
    put_response_meta(m, out, inside)
}

pub(crate) fn put_init(m: &Message, out: &mut [u8], at: usize) -> usize
    requires { MetaIn (length m.now.source.now) m.now.slots.now
        × SpanIn (length m.now.source.now) m.now.slots.now 10 × (at + init_length m.now.source.now (fours m.now.rows.now) m.now.slots.now ≤ length out.old) }
    ensures { Did (put_fields m.now.source.now (fours m.now.rows.now) init 0 m.now.slots.now) out.old
        at result out.new }
{
    let n = m.slots;
    let a = put_request_part(m, out, at);
    let b = put_response_part(m, out, a);
    let c = put_number(3, n[12], out, b);
    let d = put_number(4, n[13], out, c);
    put_number(5, n[14], out, d)
}
