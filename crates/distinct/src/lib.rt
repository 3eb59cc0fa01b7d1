// Distinct: "UIDs differ", made ones by their serials, sent ones by their characters, each read where it lies.
#![tactic(auto)]

ghost use Rattle.std.specs.Prelude.{◌≡◌, ◌+◌, ◌<◌, ◌≤◌, [], ◌∷◌, eqb, length, drop};
ghost use Rattle.choice.specs.Pick.{pick};
ghost use Rattle.rules.specs.Lists.{apart};
ghost use Rattle.rules.specs.Records.{box_count, films_of};
ghost use Rattle.rules.specs.Layout.{name_size, film_size, records_size, name_format, film_format};
ghost use Rattle.rules.specs.Sound.{overlap, own_serial, serials_of, sent_text, uids_apart};
ghost use Rattle.records.specs.Places.{session_in, shelf_in};
ghost use Rattle.distinct.specs.Films.{film_place, films_in};
ghost use Rattle.distinct.specs.Apart.{serials, box_serials, free_of_film, serials_free, film_apart, serials_apart, film_text, text_free, texts_apart};
ghost use Rattle.distinct.specs.Ascending.{reach, film_reach, reaches};

use records::{AT_FILMS, AT_SESSIONS, AT_SHELF, FILM, FILM_FIRST, FILM_LAYOUT, Records, SERIAL};
use rules::TEXT;

const AT_NAME: usize = AT_SESSIONS + 1;

// Where a film stands.
pub fn film_place(i: usize) -> usize
    requires { i < 8 }
    ensures { (result ≡ film_place i) × (result + film_size ≤ records_size) }
{
    AT_FILMS + i * FILM
}

// How many films there are, of those that have a place.
fn films_held(b: &Records) -> usize
    ensures { (result ≤ 8) × (films_in b.now result ≡ films_of (shelf_in b.now)) }
{
    usize::from(b[AT_SHELF]).min(8)
}

// The serial that a name was made with; a sent one has 0.
fn made_at(b: &[u8], p: usize) -> u64
    requires { p + name_size ≤ length b.now }
    ensures { (result ≡ (name_format.read b.now p).made.0) × (result < 4294967296) }
{
    octets::u32_at(b, p) as u64
}

// The serial of a film's first box.
pub fn first_at(b: &[u8], p: usize) -> u64
    requires { p + film_size ≤ length b.now }
    ensures { (result ≡ (film_format.read b.now p).first.0) × (result < 4294967296) }
{
    octets::u32_at(b, p + FILM_FIRST) as u64
}

// How many boxes a film has.
pub fn box_count(b: &[u8], p: usize) -> u64
    requires { p + film_size ≤ length b.now }
    ensures { (result ≡ box_count (film_format.read b.now p).layout) × (result ≤ 1530) }
{
    layouts::box_count_at(b, p + FILM_LAYOUT)
}

// How many serials a name has: a sent one has none.
fn own_count(made: u64) -> u64
    ensures { (result ≡ pick (eqb made 0) 0 1) × (result ≤ 1530) }
{
    if made == 0 { 0 } else { 1 }
}

// How far some serials reach, if they begin behind those before them. Where there are none, as far.
fn reach_of(stop: u64, first: u64, count: u64) -> Option<u64>
    requires { (first < 4294967296) × (count ≤ 1530) }
    ensures { result ≡ reach stop (serials first count) }
{
    if first + count == 0 {
        Some(stop)
    } else if first < stop {
        None
    } else {
        Some(first + count)
    }
}

// The same of a film's own serial and its boxes.
fn film_reach(b: &[u8], p: usize, stop: u64) -> Option<u64>
    requires { p + film_size ≤ length b.now }
    ensures { result ≡ film_reach stop (film_format.read b.now p) }
{
    let own = made_at(b, p);
    let between = reach_of(stop, own, own_count(own))?;
    reach_of(between, first_at(b, p), box_count(b, p))
}

// The same of the session's own serial and all films.
fn all_reach(b: &Records, n: usize) -> Option<u64>
    requires { n ≤ 8 }
    ensures { result ≡ reaches 0 (own_serial (session_in b.now).name ∷ serials_of (films_in b.now n)) }
{
    let own = made_at(b, AT_NAME);
    let mut stop = reach_of(0, own, own_count(own))?;
    for i in 0..n {
        stop = film_reach(b, film_place(i), stop)?;
    }
    Some(stop)
}

// Whether some serials are among others.
fn overlapping(first: u64, count: u64, other: u64, others: u64) -> bool
    requires { (first < 4294967296) × (count ≤ 1530) × (other < 4294967296) × (others ≤ 1530) }
    ensures { result ≡ overlap (serials first count) (serials other others) }
{
    first < other + others && other < first + count
}

// Whether the film and its boxes have none of these serials.
fn free_of_film(b: &[u8], p: usize, first: u64, count: u64) -> bool
    requires { (p + film_size ≤ length b.now) × (first < 4294967296) × (count ≤ 1530) }
    ensures { result ≡ free_of_film (serials first count) (film_format.read b.now p) }
{
    let own = made_at(b, p);
    !overlapping(first, count, own, own_count(own))
        && !overlapping(first, count, first_at(b, p), box_count(b, p))
}

// The same of the films from a place on.
fn serials_free(b: &Records, from: usize, n: usize, first: u64, count: u64) -> bool
    requires { (n ≤ 8) × (first < 4294967296) × (count ≤ 1530) }
    ensures { result ≡ serials_free (serials first count) (drop from (films_in b.now n)) }
{
    (from..n).all(|i| free_of_film(b, film_place(i), first, count))
}

// Whether a film's serials differ from one another and from those of the films from a place on.
fn film_apart(b: &Records, p: usize, from: usize, n: usize) -> bool
    requires { (n ≤ 8) × (p + film_size ≤ length b.now) }
    ensures { result ≡ film_apart (film_format.read b.now p) (drop from (films_in b.now n)) }
{
    let own = made_at(b, p);
    let owned = own_count(own);
    let first = first_at(b, p);
    let count = box_count(b, p);
    if overlapping(own, owned, first, count) {
        return false;
    }
    if !serials_free(b, from, n, own, owned) {
        return false;
    }
    serials_free(b, from, n, first, count)
}

fn films_apart(b: &Records, n: usize) -> bool
    requires { n ≤ 8 }
    ensures { result ≡ serials_apart (films_in b.now n) }
{
    (0..n).all(|i| film_apart(b, film_place(i), i + 1, n))
}

// Serials are given in ascending order: only where they don't stand in it is each compared with each.
fn serials_apart(b: &Records, n: usize) -> bool
    requires { n ≤ 8 }
    ensures { result ≡ apart overlap (own_serial (session_in b.now).name ∷ serials_of (films_in b.now n)) }
{
    if all_reach(b, n).is_some() {
        return true;
    }
    let own = made_at(b, AT_NAME);
    serials_free(b, 0, n, own, own_count(own)) && films_apart(b, n)
}

// The text that a name was sent with; a made one has none.
fn sent_text(b: &[u8], p: usize) -> &[u8]
    requires { p + name_size ≤ length b.now }
    ensures { result.now ≡ sent_text (name_format.read b.now p) }
{
    let used = p + SERIAL;
    let text = used + 1;
    let stop = text + TEXT;
    octets::front(&b[text..stop], usize::from(b[used]))
}

// The text that a film's name was sent with.
fn film_text(b: &[u8], p: usize) -> &[u8]
    requires { p + film_size ≤ length b.now }
    ensures { result.now ≡ film_text (film_format.read b.now p) }
{
    sent_text(b, p)
}

// Whether none of the films from a place on has this text.
fn text_free(b: &Records, from: usize, n: usize, text: &[u8]) -> bool
    requires { n ≤ 8 }
    ensures { result ≡ text_free text.now (drop from (films_in b.now n)) }
{
    if text.len() == 0 {
        return true;
    }
    (from..n).all(|i| !octets::same_bytes(text, film_text(b, film_place(i))))
}

fn texts_apart(b: &Records, n: usize) -> bool
    requires { n ≤ 8 }
    ensures { result ≡ texts_apart (films_in b.now n) }
{
    (0..n).all(|i| text_free(b, i + 1, n, film_text(b, film_place(i))))
}

pub fn uids_apart(b: &Records) -> bool
    ensures { result ≡ uids_apart (session_in b.now ∷ []) (films_of (shelf_in b.now)) }
{
    let n = films_held(b);
    if !serials_apart(b, n) {
        return false;
    }
    if !text_free(b, 0, n, sent_text(b, AT_NAME)) {
        return false;
    }
    texts_apart(b, n)
}
