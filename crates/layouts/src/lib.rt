// Layouts: the lines of boxes that a film's format gives, and how many boxes they have.
#![tactic(auto)]

ghost use Rattle.std.specs.Prelude.{true, ◌≡◌, ◌+◌, ◌<◌, ◌≤◌, ltb, length, take, replicate};
ghost use Rattle.choice.specs.Pick.{pick};
ghost use Rattle.rules.specs.Lists.{sum, filled_to};
ghost use Rattle.rules.specs.Values.{one_to_six, standard, listed, numbers_in, uneven, kind_in, counts_in};
ghost use Rattle.rules.specs.Records.{box_count};
ghost use Rattle.rules.specs.Attributes.{layout_from};
ghost use Rattle.rules.specs.Layout.{layout_size, layout_format};

use rules::Layout;

fn one_to_six(b: u8) -> bool
    ensures { result ≡ one_to_six b }
{
    matches!(b, b'1'..=b'6')
}

// Whether a text is STANDARD with columns and rows.
fn is_standard(t: &[u8]) -> bool
    ensures { result ≡ standard t.now }
{
    t.len() == 12
        && octets::same_bytes(&t[..9], b"STANDARD\\")
        && one_to_six(t[9])
        && t[10] == b','
        && one_to_six(t[11])
}

// Whether a text is numbers with a comma between two. What is behind the first comma is told by a call of itself: six deep at most.
fn is_listed(s: &[u8]) -> bool
    ensures { result ≡ listed s.now }
{
    match s {
        [d] => one_to_six(*d),
        [d, b',', rest @ ..] => one_to_six(*d) && is_listed(rest),
        _ => false,
    }
}

// Whether a text is ROW or COL with its numbers.
fn is_uneven(t: &[u8]) -> bool
    ensures { result ≡ uneven t.now }
{
    if kind_in(t) == 0 {
        return false;
    }
    t.len() <= 15 && is_listed(&t[4..])
}

// So many lines of so many boxes.
fn even_counts(lines: u8, boxes: u8) -> [u8; 6]
    requires { lines ≤ 6 }
    ensures { result ≡ filled_to 6 0 (replicate lines boxes) }
{
    let mut counts = [0; 6];
    counts[..lines as usize].fill(boxes);
    counts
}

// A line for each number.
fn listed_counts(s: &[u8]) -> [u8; 6]
    requires { (listed s.now ≡ true) × (length s.now ≤ 11) }
    ensures { result ≡ filled_to 6 0 (numbers_in s.now) }
{
    let mut counts = [0; 6];
    for i in 0..s.len().div_ceil(2) {
        counts[i] = s[2 * i] - b'0';
    }
    counts
}

// Which format it is, ROW or COL, else STANDARD: the number that a record has for it.
fn kind_in(s: &[u8]) -> u8
    ensures { result ≡ kind_in s.now }
{
    let word = octets::front(s, 4);
    if octets::same_bytes(word, b"ROW\\") {
        return 1;
    }
    if octets::same_bytes(word, b"COL\\") {
        return 2;
    }
    0
}

// The layout that a format gives, columns before rows; no lines where it is not allowed.
pub fn layout_in(s: &[u8]) -> Layout
    ensures { result ≡ layout_from (kind_in s.now) (counts_in s.now) }
{
    let kind = kind_in(s);
    let t = texts::without_trailing(s);
    if is_standard(t) {
        let lines = t[11] - b'0';
        let boxes = t[9] - b'0';
        return Layout {
            kind,
            lines,
            counts: even_counts(lines, boxes),
        };
    }
    if is_uneven(t) {
        return Layout {
            kind,
            lines: ((t.len() - 3) / 2) as u8,
            counts: listed_counts(&t[4..]),
        };
    }
    Layout {
        kind,
        lines: 0,
        counts: [0; 6],
    }
}

// The sum of the first n.
fn sum_of(a: [u8; 6], n: usize) -> u64
    ensures { (result ≡ sum (take n a)) × (result ≤ 1530) }
{
    let mut v: u64 = 0;
    for x in octets::front(&a, n) {
        v += u64::from(*x);
    }
    v
}

// How many boxes a film of this layout has.
pub fn box_count(l: Layout) -> u64
    ensures { (result ≡ box_count l) × (result ≤ 1530) }
{
    let counts = l.counts;
    sum_of(counts, l.lines as usize)
}

// A line's boxes, if it is one of the first lines.
fn counted(line: u8, lines: u8, boxes: u8) -> u64
    ensures { (result ≡ pick (ltb line lines) boxes 0) × (result < 256) }
{
    if line < lines { u64::from(boxes) } else { 0 }
}

// The same of a layout that stands at a place. Without a loop: its six lines are looked at at once.
pub fn box_count_at(s: &[u8], p: usize) -> u64
    requires { p + layout_size ≤ length s.now }
    ensures { (result ≡ box_count (layout_format.read s.now p)) × (result ≤ 1530) }
{
    let lines = s[p + 1];
    counted(0, lines, s[p + 2])
        + counted(1, lines, s[p + 3])
        + counted(2, lines, s[p + 4])
        + counted(3, lines, s[p + 5])
        + counted(4, lines, s[p + 6])
        + counted(5, lines, s[p + 7])
}
