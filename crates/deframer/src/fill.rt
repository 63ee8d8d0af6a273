// How the deframer fills its buffer: the header first, then the rest of the frame.
ghost use Rattle.std.specs.Prelude.{◌≡◌, ◌++◌, cond, ◌+◌, ◌-◌, ◌≤◌, ◌<◌, min, length, take, drop, is_some, IfSome};
ghost use Rattle.refusals.specs.Refusals.{number};
ghost use Rattle.fixed_header.specs.Header.{CeilingOk, header_error, total_of};
ghost use Rattle.deframer.specs.Deframe.{known_of, stream, whole_or_more, moved, advance, refuse, deframed};
ghost use Rattle.deframer.specs.InNumbers.{step_in_numbers};

use crate::{Deframer, Progress, Step};
use copying::copy_to;
use fixed_header::{HEADER, check_header, declared_size, header_good};
use refusals::Refusal;

// A refused call: the state as given, nothing taken.
pub(crate) fn refused(refusal: Refusal, state: Deframer) -> Step
    ensures { step_in_numbers result ≡ refuse (number refusal) state }
{
    Step {
        progress: Progress::Refused(refusal),
        next: state,
        taken: 0,
    }
}

// The size of the frame that the bytes start with, where its header is good and `held` bytes are not all of it.
fn frame_size(bytes: &[u8], ceiling: u32, held: usize) -> Option<usize>
    ensures in_bounds { IfSome result (λ total. (16 ≤ length bytes.now) × (header_error ceiling (take 16 bytes.now) ≡ 0)
        × (total ≡ total_of (take 16 bytes.now)) × (held < total)) }
    ensures bytes_value { 16 ≤ held → 16 ≤ length bytes.now
        → known_of ceiling (record { held = held; error = 0 }) bytes.now ≡ is_some result }
{
    if bytes.len() < HEADER {
        return None;
    }
    if !header_good(&bytes[..HEADER], ceiling) {
        return None;
    }
    let total = declared_size(bytes);
    if total <= held {
        return None;
    }
    Some(total)
}

// Whether a call that refused nothing can have left so many bytes in this buffer.
pub(crate) fn known(held: usize, buffer: &[u8], ceiling: u32) -> bool
    requires { CeilingOk ceiling × (ceiling ≤ length buffer.now) }
    ensures { result ≡ known_of ceiling (record { held = held; error = 0 }) buffer.now }
{
    if held < HEADER {
        return true;
    }
    frame_size(buffer, ceiling, held).is_some()
}

// The refusal that a state holds, where the state is known. It is asked of states with a number other than 0.
pub(crate) fn held_refusal(state: Deframer, buffer: &[u8], ceiling: u32) -> Refusal
    requires { CeilingOk ceiling × (ceiling ≤ length buffer.now) }
    ensures { (state.error ≡ 0 → ⊥) → number result ≡ cond (known_of ceiling state buffer.now) state.error 2 }
{
    if state.held != HEADER {
        return Refusal::StateUnknown;
    }
    match check_header(&buffer[..HEADER], ceiling) {
        Err(refusal) if refusal.number() == state.error => refusal,
        _ => Refusal::StateUnknown,
    }
}

// Puts the source after the bytes held.
fn put(buffer: &mut [u8], held: usize, source: &[u8])
    requires { held + length source.now ≤ length buffer.old }
    ensures { buffer.new
        ≡ stream held buffer.old source.now ++ drop (held + length source.now) buffer.old }
{
    copy_to(source, buffer, held);
}

// Takes bytes of the piece, after those held, until `goal` are there or the piece ends, and returns how many are there then.
fn fill(buffer: &mut [u8], held: usize, goal: usize, piece: &[u8]) -> usize
    requires { (held ≤ goal) × (goal ≤ length buffer.old) }
    ensures { (result ≡ min goal (length (stream held buffer.old piece.now)))
        × (buffer.new ≡ take result (stream held buffer.old piece.now) ++ drop result buffer.old) }
{
    let room = goal - held;
    if piece.len() < room {
        put(buffer, held, piece);
        return held + piece.len();
    }
    put(buffer, held, &piece[..room]);
    goal
}

// The rest of a frame of `total` bytes. `old` bytes were held when the call began; those of the piece after them, up to `held`, are in
// the buffer already.
fn content(buffer: &mut [u8], old: usize, held: usize, total: usize, piece: &[u8]) -> Step
    requires { (total ≤ length buffer.old) × (held ≤ total) × (old ≤ held) × (held - old ≤ length piece.now) }
    ensures value { step_in_numbers result ≡ (moved (whole_or_more total (stream held buffer.old (drop (held - old) piece.now)))
        old buffer.old (stream held buffer.old (drop (held - old) piece.now))).step }
    ensures buffer_after { buffer.new
        ≡ (moved (whole_or_more total (stream held buffer.old (drop (held - old) piece.now)))
        old buffer.old (stream held buffer.old (drop (held - old) piece.now))).buffer }
{
    let from = held - old;
    let filled = fill(buffer, held, total, &piece[from..]);
    if filled < total {
        return Step {
            progress: Progress::NeedMore,
            next: Deframer {
                held: filled,
                error: 0,
            },
            taken: filled - old,
        };
    }
    Step {
        progress: Progress::Frame(total),
        next: Deframer { held: 0, error: 0 },
        taken: total - old,
    }
}

// A frame of which 16 bytes or more are held: their header is checked again, since the state and the buffer are the caller's.
pub(crate) fn more(state: Deframer, buffer: &mut [u8], ceiling: u32, piece: &[u8]) -> Step
    requires { CeilingOk ceiling × (ceiling ≤ length buffer.old) × (16 ≤ state.held) × (state.error ≡ 0) }
    ensures value { step_in_numbers result ≡ (deframed ceiling state buffer.old piece.now).step }
    ensures buffer_after { buffer.new ≡ (deframed ceiling state buffer.old piece.now).buffer }
{
    let held = state.held;
    match frame_size(buffer, ceiling, held) {
        None => refused(Refusal::StateUnknown, state),
        Some(total) => content(buffer, held, held, total, piece),
    }
}

// The header, of which fewer than 16 bytes are held, is checked once its 16th byte is there; after a good one the frame goes on.
#[inline(always)]
fn head(buffer: &mut [u8], ceiling: u32, held: usize, piece: &[u8]) -> Step
    requires { CeilingOk ceiling × (ceiling ≤ length buffer.old) × (held < 16) }
    ensures value { step_in_numbers result ≡ (advance ceiling held buffer.old (stream held buffer.old piece.now)).step }
    ensures buffer_after { buffer.new
        ≡ (advance ceiling held buffer.old (stream held buffer.old piece.now)).buffer }
{
    let filled = fill(buffer, held, HEADER, piece);
    if filled < HEADER {
        return Step {
            progress: Progress::NeedMore,
            next: Deframer {
                held: filled,
                error: 0,
            },
            taken: filled - held,
        };
    }
    let checked = check_header(&buffer[..HEADER], ceiling);
    match checked {
        Err(refusal) => Step {
            progress: Progress::Refused(refusal),
            next: Deframer {
                held: HEADER,
                error: refusal.number(),
            },
            taken: HEADER - held,
        },
        Ok(()) => {
            let total = declared_size(buffer);
            content(buffer, held, HEADER, total, piece)
        }
    }
}

// Fewer than 16 bytes are held. Where none is, and the piece has a good header, one copy takes what the piece has of the frame.
pub(crate) fn start(buffer: &mut [u8], ceiling: u32, held: usize, piece: &[u8]) -> Step
    requires { CeilingOk ceiling × (ceiling ≤ length buffer.old) × (held < 16) }
    ensures value { step_in_numbers result ≡ (advance ceiling held buffer.old (stream held buffer.old piece.now)).step }
    ensures buffer_after { buffer.new
        ≡ (advance ceiling held buffer.old (stream held buffer.old piece.now)).buffer }
{
    if held == 0 {
        if let Some(total) = frame_size(piece, ceiling, 0) {
            return content(buffer, 0, 0, total, piece);
        }
    }
    head(buffer, ceiling, held, piece)
}
