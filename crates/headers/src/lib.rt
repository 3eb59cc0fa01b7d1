// Headers: what a header says of its length, the header of an item, and where a list or a sequence ends.
#![tactic(auto)]

ghost use Rattle.std.specs.Prelude.{◌≡◌, ◌+◌, ◌≤◌, ◌<◌, length};
ghost use Rattle.headers.specs.declared.Syntax.TheVariants.{Implicit, Explicit};
ghost use Rattle.headers.specs.Header.{syntax_of, tag_at, length_head, item_head_at, close_at};

use octets::{u16_at, u32_at};
use tags::SQ;

// The transfer syntaxes: implicit or explicit VR, each little endian.
#[derive(Clone, Copy)]
pub enum Syntax {
    Implicit,
    Explicit,
}

// The bytes of a value.
#[derive(Clone, Copy)]
pub struct Part {
    pub from: usize,
    pub stop: usize,
}

// What a list or a sequence holds. One of undefined length is loose: it ends at a delimiter before `stop`.
#[derive(Clone, Copy)]
pub struct Inside {
    pub from: usize,
    pub stop: usize,
    pub loose: bool,
}

// A list or a sequence that is to be read: its syntax, how many sequences within one another it may hold, and where it stands.
#[derive(Clone, Copy)]
pub struct Scope {
    pub syntax: Syntax,
    pub room: usize,
    pub inside: Inside,
}

// What a header says: the refusal that it earns, a value, or a sequence or an item that holds more. A refusal is a number
// as the book's rules number it, and the report shows that number.
#[derive(Clone, Copy)]
pub enum Head {
    Fault(usize),
    Value(Part),
    Nest(Inside),
}

// The syntax of a number: 2 is explicit VR. No conversion by From: a number is a syntax only in the records and at C.
pub fn syntax_of(number: u8) -> Syntax
    ensures { result ≡ syntax_of number }
{
    if number == 2 {
        return Syntax::Explicit;
    }
    Syntax::Implicit
}

pub fn tag_at(s: &[u8], at: usize) -> usize
    requires { at + 4 ≤ length s.now }
    ensures { (result ≡ tag_at s.now at) × (result < 4294967296) }
{
    65536 * u16_at(s, at) + u16_at(s, at + 2)
}

// The place after a list or a sequence that ends here: at its stop if its length is defined, else at the delimiter `mark`.
pub fn closing(s: &[u8], mark: usize, inside: Inside, at: usize) -> Option<usize>
    requires { (at ≤ inside.stop) × (inside.stop ≤ length s.now) }
    ensures { result ≡ close_at s.now mark inside at }
{
    if inside.loose {
        if inside.stop - at < 8 || tag_at(s, at) != mark || u32_at(s, at + 4) != 0 {
            return None;
        }
        return Some(at + 8);
    }
    if at < inside.stop {
        return None;
    }
    Some(at)
}

// What is behind a header, by its VR and length: refusals 5, 2 and 1.
pub fn length_head(from: usize, end: usize, vr: usize, length: usize) -> Head
    requires { from ≤ end }
    ensures { result ≡ length_head from end vr length }
{
    if length == 0xFFFF_FFFF {
        if vr != SQ as usize {
            return Head::Fault(5);
        }
        return Head::Nest(Inside {
            from,
            stop: end,
            loose: true,
        });
    }
    if length % 2 == 1 {
        return Head::Fault(2);
    }
    if end - from < length {
        return Head::Fault(1);
    }
    if vr == SQ as usize {
        return Head::Nest(Inside {
            from,
            stop: from + length,
            loose: false,
        });
    }
    Head::Value(Part {
        from,
        stop: from + length,
    })
}

// The header of an item.
pub fn item_head(s: &[u8], end: usize, at: usize) -> Head
    requires { (at ≤ end) × (end ≤ length s.now) }
    ensures { result ≡ item_head_at s.now end at }
{
    if end - at < 8 {
        return Head::Fault(1);
    }
    if tag_at(s, at) != 0xFFFE_E000 {
        return Head::Fault(6);
    }
    length_head(at + 8, end, SQ as usize, u32_at(s, at + 4))
}
