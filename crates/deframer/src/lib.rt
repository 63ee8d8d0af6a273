// The deframer, which cuts a stream into frames.
//
// A caller owns a ceiling, the largest frame that its connection takes (16 to MAX_FRAME of `fixed_header`), a buffer of at least as many
// bytes, and a Deframer, which starts as { held: 0, error: 0 }. It hands every piece that arrives to `deframe`, together with the three,
// until the piece is taken; at the end of the input it asks `finish`.
// No function here has a `requires`: each takes every argument, and refuses a bad one with an error code of documents 01 and 02.
#![tactic(auto)]

mod fill;

ghost use Rattle.std.specs.Prelude.{◌≡◌};
ghost use Rattle.deframer.specs.Deframe.{deframed, ended};
ghost use Rattle.deframer.specs.InNumbers.{step_in_numbers, end_in_numbers};

use fixed_header::{HEADER, ceiling_ok};
use refusals::Refusal;

// The deframer's state between calls: how many bytes of an unfinished frame are at the start of the buffer, and the error
// code of the header that ended the stream, 0 for none.
#[derive(Clone, Copy)]
pub struct Deframer {
    pub held: usize,
    // A number, since callers may hand in any (`deframed`).
    pub error: u32,
}

// What a call of the deframer came to: a whole frame of that size is at the start of the buffer; the piece is used up;
// or it is refused.
#[derive(Clone, Copy)]
pub enum Progress {
    // No Result: document 01 fixes an answer of three cases.
    Frame(usize),
    NeedMore,
    Refused(Refusal),
}

#[derive(Clone, Copy)]
pub struct Step {
    pub progress: Progress,
    pub next: Deframer,
    pub taken: usize,
}

// How a stream ended: after a whole frame, with that many bytes of an unfinished one, or refused.
#[derive(Clone, Copy)]
pub enum End {
    // No Result: its Clean and Short would be Ok(None) and Ok(Some(held)).
    Clean,
    Short(usize),
    Refused(Refusal),
}

// Takes bytes of the piece to the buffer, after those held, up to the end of the frame, of a bad header or of the piece.
pub fn deframe(state: Deframer, buffer: &mut [u8], ceiling: u32, piece: &[u8]) -> Step
    ensures value { step_in_numbers result ≡ (deframed ceiling state buffer.old piece.now).step }
    ensures buffer_after { buffer.new ≡ (deframed ceiling state buffer.old piece.now).buffer }
{
    if !ceiling_ok(ceiling) {
        return fill::refused(Refusal::BadCeiling, state);
    }
    if buffer.len() < ceiling as usize {
        return fill::refused(Refusal::BufferShort, state);
    }
    if state.error != 0 {
        return fill::refused(fill::held_refusal(state, buffer, ceiling), state);
    }
    if state.held < HEADER {
        return fill::start(buffer, ceiling, state.held, piece);
    }
    fill::more(state, buffer, ceiling, piece)
}

// How the stream ends, if no byte comes after those that the deframer took.
pub fn finish(state: Deframer, buffer: &[u8], ceiling: u32) -> End
    ensures { end_in_numbers result ≡ ended ceiling state buffer.now }
{
    let held = state.held;
    let error = state.error;
    if !ceiling_ok(ceiling) {
        return End::Refused(Refusal::BadCeiling);
    }
    if buffer.len() < ceiling as usize {
        return End::Refused(Refusal::BufferShort);
    }
    if error != 0 {
        return End::Refused(fill::held_refusal(state, buffer, ceiling));
    }
    if !fill::known(held, buffer, ceiling) {
        return End::Refused(Refusal::StateUnknown);
    }
    if held == 0 {
        return End::Clean;
    }
    End::Short(held)
}
