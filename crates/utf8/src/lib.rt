// Whether bytes are UTF-8 by RFC 3629: shortest form, no surrogates, nothing above U+10FFFF.
#![tactic(auto)]

ghost use Rattle.std.specs.Prelude.{◌≡◌, ◌∷◌, List, ℕ};
ghost use Rattle.utf8.specs.Grammar as grammar;
ghost use Rattle.utf8.specs.Ascii.{ascii};
ghost use Rattle.utf8.specs.Begun.{first, goes_on};

// A character that is begun: how many of its bytes are to come, and from which to which the next may be.
#[derive(Clone, Copy)]
struct Begun {
    need: u8,
    lo: u8,
    hi: u8,
}

// Between two characters no byte is needed.
const BETWEEN: Begun = Begun {
    need: 0,
    lo: 0x80,
    hi: 0xBF,
};

// How many bytes follow a character's first byte, where one begins with it.
#[tactic(auto, using(std::proofs::lemmas::Bool::Decides::nat_tests), unfolding(crate::specs::Grammar::follows))]
fn follows(b: u8) -> Option<u8>
    ensures { result ≡ first b }
{
    match b {
        ..=0x7F => Some(0),
        ..=0xC1 => None,
        ..=0xDF => Some(1),
        ..=0xEF => Some(2),
        ..=0xF4 => Some(3),
        _ => None,
    }
}

// The lowest byte that may come after this first one.
#[tactic(auto, using(std::proofs::lemmas::Bool::Decides::nat_tests), unfolding(crate::specs::Grammar::lowest))]
fn lowest(b: u8) -> u8
    ensures { result ≡ grammar.lowest b }
{
    match b {
        0xE0 => 0xA0,
        0xF0 => 0x90,
        _ => 0x80,
    }
}

// The highest.
#[tactic(auto, using(std::proofs::lemmas::Bool::Decides::nat_tests), unfolding(crate::specs::Grammar::highest))]
fn highest(b: u8) -> u8
    ensures { result ≡ grammar.highest b }
{
    match b {
        0xED => 0x9F,
        0xF4 => 0x8F,
        _ => 0xBF,
    }
}

impl Begun {
    // What is begun after one byte more, if that byte may come.
    fn after(self, b: u8) -> Option<Begun>
        ensures { (s : List ℕ) → goes_on (Some self) (b ∷ s) ≡ goes_on result s }
    {
        if self.need == 0 {
            return Some(Begun {
                need: follows(b)?,
                lo: lowest(b),
                hi: highest(b),
            });
        }
        if b < self.lo || self.hi < b {
            return None;
        }
        Some(Begun {
            need: self.need - 1,
            ..BETWEEN
        })
    }
}

// By the grammar, byte by byte. Between two characters an ASCII byte changes nothing.
#[tactic(auto, using(crate::proofs::Judged::passes_ascii))]
fn by_grammar(s: &[u8]) -> bool
    ensures { result ≡ grammar.utf8 s.now }
{
    let mut begun = BETWEEN;
    for b in s {
        if begun.need == 0 && *b < 0x80 {
            continue;
        }
        let Some(next) = begun.after(*b) else {
            return false;
        };
        begun = next;
    }
    begun.need == 0
}

// ---- ASCII, eight bytes at a time

// The compiler makes one test of the eight comparisons.
fn ascii_8(eight: &[u8; 8]) -> bool
    ensures { result ≡ ascii eight.now }
{
    eight.iter().fold(true, |low, b| low & (*b < 0x80))
}

// Whether all bytes are ASCII: each eight of them from the start, and the last eight, which may overlap them.
pub fn is_ascii(s: &[u8]) -> bool
    ensures { result ≡ ascii s.now }
{
    let Some(last) = s.last_chunk::<8>() else {
        return s.iter().all(|b| *b < 0x80);
    };
    s.as_chunks::<8>().0.iter().all(ascii_8) && ascii_8(last)
}

// ---- UTF-8

// Whether the bytes are UTF-8. Most texts are ASCII.
#[tactic(auto, using(crate::proofs::AsciiLaws::ascii_is_utf8))]
pub fn is_utf8(s: &[u8]) -> bool
    ensures { result ≡ grammar.utf8 s.now }
{
    is_ascii(s) || by_grammar(s)
}
