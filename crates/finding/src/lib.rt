// Finding: what a list holds under a tag, and the items of a sequence.
#![tactic(auto)]

ghost use Rattle.std.specs.Prelude.{◌≡◌, true, ◌≤◌, length};
ghost use Rattle.headers.specs.Header.{head_at};
ghost use Rattle.elements.specs.Reader.{element_at};
ghost use Rattle.elements.specs.Find.{only, items_of, find_at, items_at};
ghost use Rattle.finding.specs.Gives.{gives};
ghost use Rattle.finding.specs.Gathered.{ascending, Gathered};

use elements::{Found, ITEM_END, Items, SEQUENCE_END, Stop, element, item, refused};
use headers::{Head, Scope, Syntax, closing, item_head, tag_at};
use syntaxes::element_head;

// What an element gives to the one who looks for its tag, and how it was read. A value is read with its header.
#[derive(Clone, Copy)]
struct Looked {
    found: Found,
    read: Result<usize, Stop>,
}

fn given(s: &[u8], syntax: Syntax, room: usize, end: usize, at: usize, floor: usize) -> Looked
    requires { (at ≤ end) × (end ≤ length s.now) }
    ensures { (result.found ≡ gives (element_at s.now syntax room end at floor) (head_at s.now syntax end at floor)) × (result.read ≡ element_at s.now syntax room end at floor) }
{
    match element_head(s, syntax, end, at, floor) {
        Head::Fault(n) => Looked {
            found: Found::Missing,
            read: refused(n, at, room).read,
        },
        Head::Value(part) => Looked {
            found: Found::Value(part),
            read: Ok(part.stop),
        },
        Head::Nest(inside) => {
            let read = element(s, syntax, room, end, at, floor).read;
            let found = match read {
                Ok(_) => Found::Sequence(inside),
                Err(_) => Found::Missing,
            };
            Looked { found, read }
        }
    }
}

// What a list holds under a tag. Tags ascend, so that behind a higher one nothing is looked for.
pub fn find(s: &[u8], scope: Scope, tag: usize) -> Found
    requires { (scope.inside.from ≤ scope.inside.stop) × (scope.inside.stop ≤ length s.now) }
    ensures { result ≡ find_at s.now scope tag }
{
    let syntax = scope.syntax;
    let inside = scope.inside;
    let mut p = inside.from;
    let mut floor = 0;
    loop {
        if let Some(_) = closing(s, ITEM_END, inside, p) {
            return Found::Missing;
        }
        if inside.stop - p < 8 {
            return Found::Missing;
        }
        let t = tag_at(s, p);
        if tag < t {
            return Found::Missing;
        }
        if t == tag {
            return given(s, syntax, scope.room, inside.stop, p, floor).found;
        }
        let Ok(q) = element(s, syntax, scope.room, inside.stop, p, floor).read else {
            return Found::Missing;
        };
        floor = t + 1;
        p = q;
    }
}

// What a list holds under each of the tags, by one walk that stops behind the last of them.
pub fn gathered<const N: usize>(s: &[u8], scope: Scope, tags: [usize; N]) -> [Found; N]
    requires { (scope.inside.from ≤ scope.inside.stop) × (scope.inside.stop ≤ length s.now) × (ascending tags N ≡ true) }
    ensures { Gathered s.now scope tags.entry N result }
{
    let syntax = scope.syntax;
    let inside = scope.inside;
    let mut founds = [Found::Missing; N];
    let mut p = inside.from;
    let mut floor = 0;
    let mut k = 0;
    // k moves on where a tag was found or passed by, and not at each turn
    while k < N {
        if let Some(_) = closing(s, ITEM_END, inside, p) {
            return founds;
        }
        if inside.stop - p < 8 {
            return founds;
        }
        let t = tag_at(s, p);
        let above = t + 1;
        let sought = tags[k];
        if sought < t {
            k += 1;
        } else if t < sought {
            let Ok(q) = element(s, syntax, scope.room, inside.stop, p, floor).read else {
                return founds;
            };
            floor = above;
            p = q;
        } else {
            let here = given(s, syntax, scope.room, inside.stop, p, floor);
            let Ok(q) = here.read else {
                return founds;
            };
            founds[k] = here.found;
            k += 1;
            floor = above;
            p = q;
        }
    }
    founds
}

fn only_list(head: Head) -> Items
    ensures { result ≡ only head }
{
    match head {
        Head::Nest(inside) => Items::One(inside),
        _ => Items::Empty,
    }
}

// How many items a sequence has.
fn count_items(s: &[u8], scope: Scope) -> usize
    requires { (scope.inside.from ≤ scope.inside.stop) × (scope.inside.stop ≤ length s.now) }
    ensures { result ≡ length (items_of s.now scope scope.inside.from) }
{
    let syntax = scope.syntax;
    let inside = scope.inside;
    let mut p = inside.from;
    let mut count = 0;
    loop {
        if let Some(_) = closing(s, SEQUENCE_END, inside, p) {
            return count;
        }
        let Ok(q) = item(s, syntax, scope.room, inside.stop, p).read else {
            return count;
        };
        count += 1;
        p = q;
    }
}

// The items of a sequence.
pub fn items_in(s: &[u8], scope: Scope) -> Items
    requires { (scope.inside.from ≤ scope.inside.stop) × (scope.inside.stop ≤ length s.now) }
    ensures { result ≡ items_at s.now scope }
{
    let inside = scope.inside;
    match count_items(s, scope) {
        0 => Items::Empty,
        1 => only_list(item_head(s, inside.stop, inside.from)),
        count => Items::Several(count),
    }
}
