// Shelves: what is not there and what is new: names, films, boxes, sessions and entries; the film at a place.
#![tactic(auto)]

ghost use Rattle.std.specs.Prelude.{◌≡◌, ◌<◌, ◌≤◌, [], map, length, get_or};
ghost use Rattle.rules.specs.Bounds.{most_boxes};
ghost use Rattle.rules.specs.Lists.{from, filled_to};
ghost use Rattle.rules.specs.Records.{no_name, made_name, sent_name, no_box, no_film, films_of, shelved, no_entry, queued, no_session, new_session};
ghost use Rattle.rules.specs.Effects.{new_box};

use rules::{
    BOXES, ENTRIES, Entry, FILMS, Film, ImageBox, LINES, Layout, Name, Picture, Queue, Serial,
    Session, Shelf, TEXT,
};

// Names.

// A name by the serial that made it.
pub fn made_name(serial: u32) -> Name
    ensures { result ≡ made_name serial }
{
    Name {
        made: Serial(serial),
        used: 0,
        text: [0; TEXT],
    }
}

pub fn no_name() -> Name
    ensures { result ≡ no_name }
{
    made_name(0)
}

// A UID that was sent; the rest of its place is zeros.
pub fn sent_name(uid: &[u8]) -> Name
    requires { length uid.now ≤ 64 }
    ensures { result ≡ sent_name uid.now }
{
    let mut text = [0; TEXT];
    octets::put(&mut text, 0, uid);
    Name {
        made: Serial(0),
        used: uid.len() as u8,
        text,
    }
}

// What is not there, and what is new.

fn no_box() -> ImageBox
    ensures { result ≡ no_box }
{
    ImageBox {
        position: 0,
        polarity: 0,
        picture: Picture(0),
    }
}

pub fn no_film() -> Film
    ensures { result ≡ no_film }
{
    Film {
        name: no_name(),
        session: 0,
        layout: Layout {
            kind: 0,
            lines: 0,
            counts: [0; LINES],
        },
        orientation: 0,
        magnification: 0,
        first: Serial(0),
        boxes: [no_box(); BOXES],
    }
}

pub fn no_session() -> Session
    ensures { result ≡ no_session }
{
    Session {
        live: 0,
        name: no_name(),
        copies: 0,
        priority: 0,
        medium: 0,
        destination: 0,
        used: 0,
        label: [0; TEXT],
    }
}

// "Copies .. default 1; Priority .. MED; Medium .. PAPER; Destination .. MAGAZINE; Label .. empty"
pub fn new_session() -> Session
    ensures { result ≡ new_session }
{
    Session {
        live: 1,
        copies: 1,
        priority: 1,
        ..no_session()
    }
}

fn no_entry() -> Entry
    ensures { result ≡ no_entry }
{
    Entry {
        pictures: [Picture(0); BOXES],
        ticket: 0,
        copies: 0,
        film: no_name(),
    }
}

pub fn new_boxes(count: usize) -> [ImageBox; BOXES]
    requires { count ≤ most_boxes }
    ensures { result ≡ filled_to most_boxes no_box (map new_box (from 1 count)) }
{
    let mut boxes = [no_box(); BOXES];
    for i in 0..count {
        let position = i as u8 + 1;
        boxes[i] = ImageBox {
            position,
            ..no_box()
        };
    }
    boxes
}

// The films.

pub fn no_films() -> Shelf
    ensures { result ≡ shelved [] }
{
    Shelf {
        count: 0,
        films: [no_film(); FILMS],
    }
}

// The film at a place.
pub fn film_at(s: Shelf, i: usize) -> Film
    requires { i < length (films_of s) }
    ensures { result ≡ get_or (films_of s) i no_film }
{
    let films = s.films;
    films[i]
}

// The queue.

pub fn no_entries() -> Queue
    ensures { result ≡ queued [] }
{
    Queue {
        count: 0,
        entries: [no_entry(); ENTRIES],
    }
}
