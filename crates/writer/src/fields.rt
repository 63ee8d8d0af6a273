// The fields of a message in straight lines, stored in an output with room for them.
// Each asks for the spans of its own kind: `spans_in` of the message gives them where the kind is known (`put`).
ghost use Rattle.std.specs.Prelude.{◌≡◌, ◌+◌, ◌≤◌, length};
ghost use Rattle.schema.specs.Schema.{request, response, close};
ghost use Rattle.writer.specs.Encoding.{put_fields};
ghost use Rattle.schema.specs.Kinds.{schema_of};
ghost use Rattle.writer.specs.Straight.{fours, message_bytes, Did, SpanIn, NamesIn, put_first, put_names, put_last, put_status, put_content, put_reason};
ghost use Rattle.writer.specs.Straight.{first_length, names_length, last_length, status_length, content_length, reason_length};
ghost use Rattle.writer.specs.Straight.{request_length, response_length, close_length};

use crate::init::put_init;
use crate::message::Message;
use crate::put::{put_number, put_signed, put_some};
use schema::Kind;

// Fields 1 to 4.
fn put_first(n: &[u32; 16], out: &mut [u8], at: usize) -> usize
    requires { at + first_length n.now ≤ length out.old }
    ensures { Did (put_first n.now) out.old at result out.new × (result ≡ at + first_length n.now) }
{
    let a = put_number(1, n[0], out, at);
    let b = put_number(2, n[1], out, a);
    let c = put_number(3, n[2], out, b);
    put_number(4, n[3], out, c)
}

// Fields 5 to 7: the names.
fn put_names(m: &Message, out: &mut [u8], at: usize) -> usize
    requires { NamesIn (length m.now.source.now) m.now.slots.now × (at + names_length m.now.source.now m.now.slots.now ≤ length out.old) }
    ensures { Did (put_names m.now.source.now m.now.slots.now) out.old at result out.new
        × (result ≡ at + names_length m.now.source.now m.now.slots.now) }
{
    let n = m.slots;
    let a = put_some(5, n[4], n[5], m.source, out, at);
    let b = put_some(6, n[6], n[7], m.source, out, a);
    put_some(7, n[8], n[9], m.source, out, b)
}

// Fields 10 to 12.
fn put_last(n: &[u32; 16], out: &mut [u8], at: usize) -> usize
    requires { at + last_length n.now ≤ length out.old }
    ensures { Did (put_last n.now) out.old at result out.new × (result ≡ at + last_length n.now) }
{
    let a = put_number(10, n[11], out, at);
    let b = put_number(11, n[12], out, a);
    put_number(12, n[13], out, b)
}

fn put_request(m: &Message, out: &mut [u8], at: usize) -> usize
    requires { NamesIn (length m.now.source.now) m.now.slots.now
        × (at + request_length m.now.source.now (fours m.now.rows.now) m.now.slots.now ≤ length out.old) }
    ensures { Did (put_fields m.now.source.now (fours m.now.rows.now) request 0 m.now.slots.now)
        out.old at result out.new }
{
    let n = m.slots;
    let a = put_first(n, out, at);
    let b = put_names(m, out, a);
    let c = put_number(8, n[10], out, b);
    let d = m.put_map(9, out, c);
    put_last(n, out, d)
}

// Fields 1 to 5 of a response.
fn put_status(n: &[u32; 16], out: &mut [u8], at: usize) -> usize
    requires { at + status_length n.now ≤ length out.old }
    ensures { Did (put_status n.now) out.old at result out.new
        × (result ≡ at + status_length n.now) }
{
    let a = put_number(1, n[0], out, at);
    let b = put_number(2, n[1], out, a);
    let c = put_number(3, n[2], out, b);
    let d = put_signed(4, n[3], out, c);
    put_signed(5, n[4], out, d)
}

// Fields 9, 10 and 12.
// Not `put_last` with another slot: the three numbers differ, too.
fn put_content(n: &[u32; 16], out: &mut [u8], at: usize) -> usize
    requires { at + content_length n.now ≤ length out.old }
    ensures { Did (put_content n.now) out.old at result out.new
        × (result ≡ at + content_length n.now) }
{
    let a = put_number(9, n[8], out, at);
    let b = put_number(10, n[9], out, a);
    put_number(12, n[10], out, b)
}

fn put_response(m: &Message, out: &mut [u8], at: usize) -> usize
    requires { SpanIn (length m.now.source.now) m.now.slots.now 5
        × (at + response_length m.now.source.now (fours m.now.rows.now) m.now.slots.now ≤ length out.old) }
    ensures { Did (put_fields m.now.source.now (fours m.now.rows.now) response 0 m.now.slots.now)
        out.old at result out.new }
{
    let n = m.slots;
    let a = put_status(n, out, at);
    let b = put_some(6, n[5], n[6], m.source, out, a);
    let c = put_number(7, n[7], out, b);
    let d = m.put_map(8, out, c);
    put_content(n, out, d)
}

// Fields 1 to 3 of Close.
fn put_reason(m: &Message, out: &mut [u8], at: usize) -> usize
    requires { SpanIn (length m.now.source.now) m.now.slots.now 2 × (at + reason_length m.now.source.now m.now.slots.now ≤ length out.old) }
    ensures { Did (put_reason m.now.source.now m.now.slots.now) out.old at result out.new
        × (result ≡ at + reason_length m.now.source.now m.now.slots.now) }
{
    let n = m.slots;
    let a = put_signed(1, n[0], out, at);
    let b = put_signed(2, n[1], out, a);
    put_some(3, n[2], n[3], m.source, out, b)
}

fn put_close(m: &Message, out: &mut [u8], at: usize) -> usize
    requires { SpanIn (length m.now.source.now) m.now.slots.now 2
        × (at + close_length m.now.source.now (fours m.now.rows.now) m.now.slots.now ≤ length out.old) }
    ensures { Did (put_fields m.now.source.now (fours m.now.rows.now) close 0 m.now.slots.now) out.old
        at result out.new }
{
    let n = m.slots;
    let a = put_reason(m, out, at);
    let b = put_number(4, n[4], out, a);
    let c = m.put_rows(5, out, b);
    put_signed(6, n[5], out, c)
}

impl<'a> Message<'a> {
    pub(crate) fn put(&self, out: &mut [u8], at: usize) -> usize
        requires { at + length (message_bytes self.now.kind self.now.slots.now self.now.rows.now self.now.source.now) ≤ length out.old }
        ensures { Did (message_bytes self.now.kind self.now.slots.now self.now.rows.now self.now.source.now) out.old at result out.new }
    {
        match self.kind {
            Kind::Request => put_request(self, out, at),
            Kind::Response => put_response(self, out, at),
            Kind::Init => put_init(self, out, at),
            Kind::Data => at,
            Kind::Feedback => put_number(1, self.slots[0], out, at),
            Kind::Close => put_close(self, out, at),
        }
    }
}
