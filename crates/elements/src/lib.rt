// Elements: the reader of element lists, in implicit and explicit VR, with defined and undefined lengths.
#![tactic(auto)]

ghost use Rattle.std.specs.Prelude.{◌≡◌, ◌≤◌, ◌-◌, length};
ghost use Rattle.elements.specs.Reader.{most_nested, refused_at, element_at, item_at, list_at, data_scope, data_set};
ghost use Rattle.elements.specs.Passed.{delimiters, element_passed, item_passed_at, passed_in, headers_passed};

use headers::{Head, Inside, Part, Scope, Syntax, closing, item_head, tag_at};
use syntaxes::element_head;

// The delimiters that close an item's list and a sequence of undefined length.
pub const ITEM_END: usize = 0xFFFE_E00D;

pub const SEQUENCE_END: usize = 0xFFFE_E0DD;

// So many sequences within one another are read.
pub const NESTED: usize = 4;

// Where the reading stopped: the number of the refusal, as the book's rules number it and the report shows it, the first
// byte of the header at fault, and how many sequences that lies in.
#[derive(Clone, Copy)]
pub struct Stop {
    pub number: usize,
    pub place: usize,
    pub depth: usize,
}

// The place after what was read or where the reading stopped, and how many headers were passed: elements, items and
// delimiters that were read whole.
#[derive(Clone, Copy)]
pub struct Reading {
    pub read: Result<usize, Stop>,
    pub passed: usize,
}

// What a list holds under a tag: nothing, a value, or a sequence.
#[derive(Clone, Copy)]
pub enum Found {
    Missing,
    Value(Part),
    Sequence(Inside),
}

// The items of a sequence: none, one and what its list holds, or how many.
#[derive(Clone, Copy)]
pub enum Items {
    Empty,
    One(Inside),
    Several(usize),
}

// The list of elements that a data set or an item holds.
#[cycle(element_item_list)]
fn list(s: &[u8], scope: Scope) -> Reading
    requires { (scope.inside.from ≤ scope.inside.stop) × (scope.inside.stop ≤ length s.now) }
    ensures { (result.read ≡ list_at s.now scope) × (result.passed ≡ passed_in s.now scope) }
{
    let syntax = scope.syntax;
    let inside = scope.inside;
    let mut p = inside.from;
    let mut floor = 0;
    let mut passed = 0;
    loop {
        if let Some(q) = closing(s, ITEM_END, inside, p) {
            return Reading {
                read: Ok(q),
                passed: passed + delimiters(inside),
            };
        }
        let part = element(s, syntax, scope.room, inside.stop, p, floor);
        passed += part.passed;
        let Ok(q) = part.read else {
            return Reading { passed, ..part };
        };
        floor = tag_at(s, p) + 1;
        p = q;
    }
}

// The delimiters that close a list or a sequence.
fn delimiters(inside: Inside) -> usize
    ensures { (result ≡ delimiters inside) × (result ≤ 1) }
{
    usize::from(inside.loose)
}

// How many sequences a header lies in, where there is room for so many more.
fn depth_of(room: usize) -> usize
    ensures { result ≡ most_nested - room }
{
    NESTED.saturating_sub(room)
}

// A header at fault, where there is room for so many sequences: it is not passed.
pub fn refused(number: usize, at: usize, room: usize) -> Reading
    ensures { (result.read ≡ refused_at number at room) × (result.passed ≡ 0) }
{
    let depth = depth_of(room);
    Reading {
        read: Err(Stop {
            number,
            place: at,
            depth,
        }),
        passed: 0,
    }
}

// One element: a value is passed over, and a sequence is read item by item.
#[cycle(element_item_list)]
pub fn element(
    s: &[u8],
    syntax: Syntax,
    room: usize,
    end: usize,
    at: usize,
    floor: usize,
) -> Reading
    requires { (at ≤ end) × (end ≤ length s.now) }
    ensures { (result.read ≡ element_at s.now syntax room end at floor) × (result.passed ≡ element_passed s.now syntax room end at floor) }
{
    match element_head(s, syntax, end, at, floor) {
        Head::Fault(n) => refused(n, at, room),
        Head::Value(part) => Reading {
            read: Ok(part.stop),
            passed: 1,
        },
        Head::Nest(inside) => {
            if room == 0 {
                return refused(7, at, room);
            }
            let mut p = inside.from;
            let mut passed = 1;
            loop {
                if let Some(q) = closing(s, SEQUENCE_END, inside, p) {
                    return Reading {
                        read: Ok(q),
                        passed: passed + delimiters(inside),
                    };
                }
                let part = item(s, syntax, room - 1, inside.stop, p);
                passed += part.passed;
                let Ok(q) = part.read else {
                    return Reading { passed, ..part };
                };
                p = q;
            }
        }
    }
}

// One item of a sequence.
#[cycle(element_item_list)]
pub fn item(s: &[u8], syntax: Syntax, room: usize, end: usize, at: usize) -> Reading
    requires { (at ≤ end) × (end ≤ length s.now) }
    ensures { (result.read ≡ item_at s.now syntax room end at) × (result.passed ≡ item_passed_at s.now syntax room end at) }
{
    match item_head(s, end, at) {
        Head::Fault(number) => refused(number, at, room),
        Head::Value(part) => Reading {
            read: Ok(part.stop),
            passed: 1,
        },
        Head::Nest(inside) => {
            let held = list(
                s,
                Scope {
                    syntax,
                    room,
                    inside,
                },
            );
            Reading {
                passed: held.passed + 1,
                ..held
            }
        }
    }
}

// All of a data set or command set, which has room for four sequences within one another.
pub fn data_scope(s: &[u8], syntax: Syntax) -> Scope
    ensures { (result ≡ data_scope s.now syntax) × (result.inside.from ≤ result.inside.stop) × (result.inside.stop ≤ length s.now) }
{
    let inside = Inside {
        from: 0,
        stop: s.len(),
        loose: false,
    };
    Scope {
        syntax,
        room: NESTED,
        inside,
    }
}

// A whole data set or command set.
pub fn data_set(s: &[u8], syntax: Syntax) -> Reading
    ensures { (result.read ≡ data_set s.now syntax) × (result.passed ≡ headers_passed s.now syntax) }
{
    list(s, data_scope(s, syntax))
}
