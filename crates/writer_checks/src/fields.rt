// The grounds that a record's own fields give: 17, 18's last and 15. A field is at its slot in `values`, a byte field at two.
ghost use Rattle.std.specs.Prelude.{◌≡◌, not, ◌&&◌, ◌||◌, List, ℕ, ◌+◌, ◌≤◌, leb, eqb, get_or};
ghost use Rattle.schema.specs.Schema.{request_meta, response_meta, init};
ghost use Rattle.schema.specs.Kinds.{schema_of};
ghost use Rattle.decoder.specs.Rows.{Row, rows_in};
ghost use Rattle.writer_checks.specs.Grounds.{spans_within, all_zero, absent_ok, body_ok};

use schema::Kind;

// ---- 17

// Added as 64 bits: two numbers of 32 bits may pass them.
pub(crate) fn span_within(start: u32, len: u32, size: usize) -> bool
    ensures { result ≡ leb (start + len) size }
{
    (start as usize) + (len as usize) <= size
}

// Caller, callee and func, from this slot on.
fn names_within(values: &[u32; 16], first: usize, size: usize) -> bool
    requires { first + 6 ≤ 16 }
    ensures { result ≡ (leb (get_or values.now first 0 + get_or values.now (first + 1) 0) size
        && leb (get_or values.now (first + 2) 0 + get_or values.now (first + 3) 0) size
        && leb (get_or values.now (first + 4) 0 + get_or values.now (first + 5) 0) size) }
{
    let caller = span_within(values[first], values[first + 1], size);
    let callee = span_within(values[first + 2], values[first + 3], size);
    let func = span_within(values[first + 4], values[first + 5], size);
    caller & callee & func
}

#[tactic(auto, unfolding(crate::specs::Grounds::spans_within, schema::specs::Schema::width))]
fn init_within(values: &[u32; 16], size: usize) -> bool
    ensures { result ≡ spans_within size init 0 values.now }
{
    let request = names_within(values, 1, size);
    let error_msg = span_within(values[10], values[11], size);
    request & error_msg
}

#[tactic(auto, unfolding(crate::specs::Grounds::spans_within))]
pub(crate) fn spans_within(kind: Kind, values: &[u32; 16], size: usize) -> bool
    ensures { result ≡ spans_within size (schema_of kind) 0 values.now }
{
    match kind {
        Kind::Request => names_within(values, 4, size),
        // error_msg
        Kind::Response => span_within(values[5], values[6], size),
        Kind::Init => init_within(values, size),
        Kind::Data => true,
        Kind::Feedback => true,
        // msg
        Kind::Close => span_within(values[2], values[3], size),
    }
}

// ---- 18: a part that is absent and not empty. Of the rows only their count matters.

fn request_meta_zero(values: &[u32; 16], count: u32) -> bool
    ensures { (l : List ℕ) → result ≡ all_zero (rows_in count l) request_meta 1 values.now }
{
    // the lengths of caller, callee and func
    let names = (values[2] == 0) & (values[4] == 0) & (values[6] == 0);
    let message_type = values[7] == 0;
    names & message_type & (count == 0)
}

#[tactic(auto, unfolding(crate::specs::Grounds::all_zero))]
fn response_meta_zero(values: &[u32; 16]) -> bool
    ensures { (rows : List Row) → result ≡ all_zero rows response_meta 9 values.now }
{
    let ret = values[9] == 0;
    let error_msg = values[11] == 0;
    ret & error_msg
}

// Marked present, or nothing in it.
fn part_ok(mark: u32, empty: bool) -> bool
    ensures { result ≡ (not (eqb mark 0) || empty) }
{
    (mark != 0) | empty
}

#[tactic(auto, unfolding(crate::specs::Grounds::absent_ok, schema::specs::Schema::width))]
fn parts_ok(values: &[u32; 16], count: u32) -> bool
    ensures { (l : List ℕ) → result ≡ absent_ok (rows_in count l) init 0 values.now }
{
    let request = part_ok(values[0], request_meta_zero(values, count));
    let response = part_ok(values[8], response_meta_zero(values));
    request & response
}

#[tactic(auto, unfolding(crate::specs::Grounds::absent_ok))]
pub(crate) fn absent_ok(kind: Kind, values: &[u32; 16], count: u32) -> bool
    ensures { (l : List ℕ) → result ≡ absent_ok (rows_in count l) (schema_of kind) 0 values.now }
{
    match kind {
        Kind::Request => true,
        Kind::Response => true,
        Kind::Init => parts_ok(values, count),
        Kind::Data => true,
        Kind::Feedback => true,
        Kind::Close => true,
    }
}

// ---- 15

// Not by the attachment size alone, which is 0 of four kinds: three of them have no body, and Data has any.
#[tactic(auto, unfolding(crate::specs::Grounds::body_ok, records::specs::Records::attachment_size_of))]
pub(crate) fn body_ok(kind: Kind, values: &[u32; 16], size: usize) -> bool
    ensures { result ≡ body_ok kind values.now size }
{
    match kind {
        // attachment_size
        Kind::Request => (values[13] as usize) <= size,
        Kind::Response => (values[10] as usize) <= size,
        Kind::Init => size == 0,
        Kind::Data => true,
        Kind::Feedback => size == 0,
        Kind::Close => size == 0,
    }
}
