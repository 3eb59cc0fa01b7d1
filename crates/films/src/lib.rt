// Films: layouts, boxes and films, tested by the records' rules where they stand.
#![tactic(auto)]

ghost use Rattle.std.specs.Prelude.{◌≡◌, ◌+◌, ◌*◌, ◌<◌, ◌≤◌, [], ◌∷◌, length, take};
ghost use Rattle.fields.specs.Format.{byte, array};
ghost use Rattle.rules.specs.Bounds.{most_boxes};
ghost use Rattle.rules.specs.Lists.{every};
ghost use Rattle.rules.specs.Layout.{layout_size, box_size, film_size, layout_format, box_format, film_format};
ghost use Rattle.rules.specs.Sound.{between, layout_sound, box_sound, film_sound, has_session, shelf_sound};
ghost use Rattle.records.specs.Places.{numbers_in, session_in, shelf_in};
ghost use Rattle.distinct.specs.Films.{films_in};
ghost use Rattle.films.specs.Fit.{line_sound, lines_sound, boxes_fit};

use records::{
    AT_FILMS, AT_PICTURE, AT_QUEUE, AT_SERIAL, AT_SESSIONS, AT_SHELF, FILM, IMAGE_BOX, LAYOUT,
    NAME, Records, SERIAL,
};
use rules::BOXES;

const ALL_BOXES: usize = BOXES * IMAGE_BOX;

// As many boxes as a line may have, and as many lines as a film.
fn one_to_six(n: u8) -> bool
    ensures { result ≡ between 1 6 n }
{
    (1..=6).contains(&n)
}

// One of the first lines has boxes, the others have none.
fn line_sound(line: u8, lines: u8, boxes: u8) -> bool
    ensures { result ≡ line_sound line lines boxes }
{
    if line < lines {
        one_to_six(boxes)
    } else {
        boxes == 0
    }
}

// Without a loop, as layouts::box_count_at.
fn lines_sound(b: &[u8], p: usize, lines: u8) -> bool
    requires { p + 6 ≤ length b.now }
    ensures { result ≡ lines_sound lines ((array 6 byte).read b.now p) }
{
    if !line_sound(0, lines, b[p]) {
        return false;
    }
    if !line_sound(1, lines, b[p + 1]) {
        return false;
    }
    if !line_sound(2, lines, b[p + 2]) {
        return false;
    }
    if !line_sound(3, lines, b[p + 3]) {
        return false;
    }
    if !line_sound(4, lines, b[p + 4]) {
        return false;
    }
    line_sound(5, lines, b[p + 5])
}

fn layout_sound(b: &[u8], p: usize) -> bool
    requires { p + layout_size ≤ length b.now }
    ensures { result ≡ layout_sound (layout_format.read b.now p) }
{
    if 2 < b[p] {
        return false;
    }
    let p1 = p + 1;
    if !one_to_six(b[p1]) {
        return false;
    }
    let p2 = p1 + 1;
    lines_sound(b, p2, b[p1])
}

// All of a box is read before it is tested, so that the loop over boxes has no branches. Its position is tested by two
// comparisons: with a range's `contains` the loop took a sixth longer.
fn box_sound(b: &[u8], p: usize, boxes: usize, next: u64) -> bool
    requires { (p + box_size ≤ length b.now) × (next ≡ (numbers_in b.now).picture) }
    ensures { result ≡ box_sound boxes (numbers_in b.now) (box_format.read b.now p) }
{
    let position = usize::from(b[p]);
    let p1 = p + 1;
    let polarity = b[p1];
    let p2 = p1 + 1;
    let picture = octets::u32_at(b, p2) as u64;
    if position < 1 {
        return false;
    }
    if boxes < position {
        return false;
    }
    polarity <= 1 && picture < next
}

// The loop has no other way out, as in names::zeros_in.
fn boxes_sound(b: &[u8], p: usize, boxes: usize, next: u64) -> bool
    requires { (p + most_boxes * box_size ≤ length b.now) × (boxes ≤ most_boxes) × (next ≡ (numbers_in b.now).picture) }
    ensures { result ≡ every (box_sound boxes (numbers_in b.now)) (take boxes ((array most_boxes box_format).read b.now p)) }
{
    let mut sound = true;
    for i in 0..boxes {
        if !box_sound(b, p + i * IMAGE_BOX, boxes, next) {
            sound = false;
        }
    }
    sound
}

// A film's boxes, and behind them none.
fn boxes_fit(b: &[u8], p: usize, boxes: usize, next: u64) -> bool
    requires { (p + most_boxes * box_size ≤ length b.now) × (boxes ≤ most_boxes) × (next ≡ (numbers_in b.now).picture) }
    ensures { result ≡ boxes_fit boxes (numbers_in b.now) ((array most_boxes box_format).read b.now p) }
{
    boxes_sound(b, p, boxes, next) && names::zeros_in(b, p + boxes * IMAGE_BOX, p + ALL_BOXES)
}

fn film_sound(b: &Records, p: usize, serial: u64, picture: u64) -> bool
    requires { (p + film_size ≤ length b.now) × (serial ≡ (numbers_in b.now).serial) × (picture ≡ (numbers_in b.now).picture) }
    ensures { result ≡ film_sound (numbers_in b.now) (film_format.read b.now p) }
{
    if !names::name_sound(b, p) {
        return false;
    }
    let p1 = p + NAME + 1;
    if !layout_sound(b, p1) {
        return false;
    }
    let p2 = p1 + LAYOUT;
    if 1 < b[p2] {
        return false;
    }
    let p3 = p2 + 1;
    if 3 < b[p3] {
        return false;
    }
    let first = distinct::first_at(b, p);
    if first < 1 {
        return false;
    }
    let count = distinct::box_count(b, p);
    if serial < first + count {
        return false;
    }
    let p4 = p3 + 1 + SERIAL;
    boxes_fit(b, p4, count as usize, picture)
}

fn films_sound(b: &Records, n: usize) -> bool
    requires { n ≤ 8 }
    ensures { result ≡ every (film_sound (numbers_in b.now)) (films_in b.now n) }
{
    let serial = names::next_at(b, AT_SERIAL);
    let picture = names::next_at(b, AT_PICTURE);
    (0..n).all(|i| film_sound(b, distinct::film_place(i), serial, picture))
}

// "films only under it": whether a film is of the session, and that is live.
fn has_session(b: &Records, p: usize) -> bool
    requires { p + film_size ≤ length b.now }
    ensures { result ≡ has_session (session_in b.now ∷ []) (film_format.read b.now p) }
{
    b[p + NAME] == 0 && b[AT_SESSIONS] != 0
}

fn films_owned(b: &Records, n: usize) -> bool
    requires { n ≤ 8 }
    ensures { result ≡ every (has_session (session_in b.now ∷ [])) (films_in b.now n) }
{
    (0..n).all(|i| has_session(b, distinct::film_place(i)))
}

pub fn shelf_sound(b: &Records) -> bool
    ensures { result ≡ shelf_sound (numbers_in b.now) (session_in b.now ∷ []) (shelf_in b.now) }
{
    let count = usize::from(b[AT_SHELF]);
    if 8 < count {
        return false;
    }
    if !films_owned(b, count) {
        return false;
    }
    if !films_sound(b, count) {
        return false;
    }
    names::zeros_in(b, AT_FILMS + count * FILM, AT_QUEUE)
}
