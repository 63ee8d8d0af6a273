// The lines of the listing, which are added to a text.
ghost use Rattle.std.specs.Prelude.{◌≡◌, ◌+◌, ◌≤◌, ◌++◌, length};
ghost use Rattle.deframer.specs.InNumbers.{end_in_numbers};
ghost use Rattle.text.specs.Added.{place_of};
ghost use Rattle.text.specs.Numbers.{ascii, decimal};
ghost use Rattle.listing.specs.Lines.{type_name, frame_line, end_line, max_line, AddsLine};

use deframer::End;
use fixed_header::{FixedHeader, FrameType};
use text::Text;

// No line is longer.
pub(crate) const LINE: usize = 72;

// The type's name as document 01 prints it.
// No Display: the type is of `fixed_header`, which prints nothing.
fn type_name(t: FrameType) -> &'static [u8]
    ensures { result.now ≡ type_name t }
{
    match t {
        FrameType::Unary => b"unary",
        FrameType::Init => b"init",
        FrameType::Data => b"data",
        FrameType::Feedback => b"feedback",
        FrameType::Close => b"close",
    }
}

// "frame number, kind, id and total per line"
pub(crate) fn frame_line(text: &mut Text, count: u64, header: FixedHeader)
    requires { place_of text.old.len + max_line ≤ length text.old.bytes.now }
    ensures { AddsLine (frame_line count header) text.old text.new }
{
    text.add_decimal(count);
    text.add_byte(b' ');
    text.add(type_name(header.frame_type));
    text.add_byte(b' ');
    text.add_decimal(header.id as u64);
    text.add_byte(b' ');
    text.add_decimal(header.total as u64);
    text.add_byte(b'\n');
}

// A word, a number and the line's end.
fn counted(text: &mut Text, word: &[u8], n: u64)
    requires { (place_of text.old.len + max_line ≤ length text.old.bytes.now) × (length word.now ≤ 20) }
    ensures { AddsLine (word.now ++ decimal n ++ ascii "\n") text.old text.new }
{
    text.add(word);
    text.add_decimal(n);
    text.add(b"\n");
}

// "`end clean`, `end short N`, `end refused N` (N is the bytes held, or the refusal number)"
pub(crate) fn end_line(text: &mut Text, end: End)
    requires { place_of text.old.len + max_line ≤ length text.old.bytes.now }
    ensures { AddsLine (end_line (end_in_numbers end)) text.old text.new }
{
    match end {
        End::Clean => text.add(b"end clean\n"),
        End::Short(held) => counted(text, b"end short ", held as u64),
        End::Refused(refusal) => counted(text, b"end refused ", refusal.number() as u64),
    }
}
