// Printing: checks 10 and 11 of N-ACTION, and what it queues.
#![tactic(auto)]

ghost use Rattle.std.specs.Prelude.{◌≡◌, ◌+◌, ◌-◌, ◌<◌, ◌≤◌, [], ◌∷◌, ◌++◌, map, length, take, ◌==◌, nat_lt, slice_index_or};
ghost use Rattle.std.specs.List.{list_any};
ghost use Rattle.choice.specs.Pick.{both, not};
ghost use Rattle.choice.specs.Rules.{◌⇒◌, first_broken, number_by};
ghost use Rattle.rules.specs.Bounds.{most_boxes, most_entries};
ghost use Rattle.rules.specs.Failures.{status_of};
ghost use Rattle.rules.specs.Lists.{any, apart, from};
ghost use Rattle.rules.specs.Records.{boxes_of, filled, films_of, entries_of, queued, no_session, films_under};
ghost use Rattle.rules.specs.Effects.{film_at, picture_on, entry_of, next_ticket, ticketed, printed, filled_boxes, none_filled};
ghost use Rattle.rules.specs.Checks.{same_position, collides, session_print_rules, film_print_rules};

use rules::{
    Core, ENTRIES, Entry, Failure, Film, ImageBox, Numbers, Picture, Queue, Session, Shelf,
};

// The first so many, as far as there are.
fn front<T>(items: &[T], count: usize) -> &[T]
    ensures { result.now ≡ take count items.now }
{
    &items[..count.min(items.len())]
}

// The boxes that a film has.
fn boxes_of(f: &Film) -> &[ImageBox]
    ensures { result.now ≡ boxes_of f.now }
{
    let count = layouts::box_count(f.layout) as usize;
    front(&f.boxes, count)
}

fn is_filled(b: &ImageBox) -> bool
    ensures { result ≡ filled b.now }
{
    b.picture.0 != 0
}

// Whether a box is filled and stands at a position.
fn stands_at(b: &ImageBox, position: usize) -> bool
    ensures { result ≡ both (filled b.now) (b.now.position == position) }
{
    is_filled(b) && usize::from(b.position) == position
}

fn picture_on(boxes: &[ImageBox], position: usize) -> Picture
    ensures { result ≡ picture_on boxes.now position }
{
    for b in boxes {
        if stands_at(b, position) {
            return b.picture;
        }
    }
    Picture(0)
}

// Whether this box is filled, and one of others is at its position.
fn repeats(b: &ImageBox, others: &[ImageBox]) -> bool
    ensures { result ≡ both (filled b.now) (not ((picture_on others.now b.now.position).0 == 0)) }
{
    is_filled(b) && picture_on(others, usize::from(b.position)).0 != 0
}

fn boxes_collide(boxes: &[ImageBox]) -> bool
    ensures { result ≡ not (apart same_position (filled_boxes boxes.now)) }
{
    for (i, b) in boxes.iter().enumerate() {
        if repeats(b, &boxes[i + 1..]) {
            return true;
        }
    }
    false
}

// "two filled boxes of one film at one position"
fn film_collides(f: &Film) -> bool
    ensures { result ≡ collides f.now }
{
    boxes_collide(boxes_of(f))
}

fn any_filled(boxes: &[ImageBox]) -> bool
    ensures { result ≡ list_any filled boxes.now }
{
    boxes.iter().any(|b| is_filled(b))
}

pub fn none_filled(f: &Film) -> bool
    ensures { result ≡ none_filled f.now }
{
    !any_filled(boxes_of(f))
}

// The picture at each position.
fn pictures_of(boxes: &[ImageBox]) -> [Picture; 36]
    ensures { result ≡ map (picture_on boxes.now) (from 1 most_boxes) }
{
    let mut pictures = [Picture(0); 36];
    for i in 0..36 {
        pictures[i] = picture_on(boxes, i + 1);
    }
    pictures
}

// The copies of the session at a place; 0 where there is no such place.
fn copies_at(places: &[Session], i: usize) -> u8
    ensures { result ≡ (slice_index_or places.now i no_session).copies }
{
    if i < places.len() {
        places[i].copies
    } else {
        0
    }
}

// "thirty-six picture numbers in position order (0 empty), the film's UID, copies and a ticket"
fn entry_of(k: &Core, ticket: u16, f: &Film) -> Entry
    ensures { result ≡ entry_of k.now ticket f.now }
{
    Entry {
        pictures: pictures_of(boxes_of(f)),
        ticket,
        copies: copies_at(&k.sessions, usize::from(f.session)),
        film: f.name,
    }
}

// The films that are shelved.
fn films_of(s: &Shelf) -> &[Film]
    ensures { result.now ≡ films_of s.now }
{
    front(&s.films, usize::from(s.count))
}

// How many entries the queue has room for.
fn room(q: &Queue) -> usize
    ensures { result ≡ most_entries - length (entries_of q.now) }
{
    let waiting = front(&q.entries, usize::from(q.count));
    ENTRIES.saturating_sub(waiting.len())
}

// Whether the queue has too little room for n entries more.
fn lacks_room(q: &Queue, n: usize) -> bool
    ensures { result ≡ nat_lt (most_entries - length (entries_of q.now)) n }
{
    room(q) < n
}

// Whether a film has two filled boxes at one position.
fn any_collides(films: &[Film]) -> bool
    ensures { result ≡ list_any collides films.now }
{
    films.iter().any(|film| film_collides(film))
}

// The last two rules of check 10; the second has its own failure for a session and for a film.
fn print_broken(colliding: bool, full: bool, no_room: Failure) -> Result<(), Failure>
    ensures { number_by status_of result ≡ first_broken ((colliding ⇒ 0xC604) ∷ (full ⇒ status_of no_room) ∷ []) }
{
    if colliding {
        return Err(Failure::SamePosition);
    }
    if full {
        return Err(no_room);
    }
    Ok(())
}

// Check 10, for a session. While there is one place, all films are of its session.
pub fn session_print_broken(k: &Core) -> Result<(), Failure>
    requires { films_under 0 k.now.shelf ≡ films_of k.now.shelf }
    ensures { number_by status_of result ≡ first_broken (session_print_rules k.now 0) }
{
    let films = films_of(&k.shelf);
    if films.is_empty() {
        return Err(Failure::NoFilms);
    }
    let colliding = any_collides(films);
    let full = lacks_room(&k.queue, films.len());
    print_broken(colliding, full, Failure::NoRoomForFilms)
}

// Check 10, for the film at a place.
pub fn film_print_broken(k: &Core, i: usize) -> Result<(), Failure>
    requires { i < length (films_of k.now.shelf) }
    ensures { number_by status_of result ≡ first_broken (film_print_rules k.now i) }
{
    let film = shelves::film_at(k.shelf, i);
    let colliding = film_collides(&film);
    let full = lacks_room(&k.queue, 1);
    print_broken(colliding, full, Failure::NoRoomForFilm)
}

// An entry more, the newest.
fn put_newest(q: &mut Queue, e: &Entry)
    requires { (queued (entries_of q.old) ≡ q.old) × (length (entries_of q.old) < 16) }
    ensures { q.new ≡ queued (entries_of q.old ++ (e.now ∷ [])) }
{
    let count = q.count as usize;
    q.entries[count] = *e;
    q.count += 1;
}

// "after 65,535 comes 0"
fn ticket_used(n: Numbers) -> Numbers
    ensures { result ≡ ticketed (next_ticket n.ticket) n }
{
    let mut next = n;
    next.ticket = std::num::wrapping_add_u16(n.ticket, 1);
    next
}

// One film printed: its entry queued, and the ticket advanced.
fn print_one(k: &mut Core, f: &Film)
    requires { (queued (entries_of k.old.queue) ≡ k.old.queue) × (length (entries_of k.old.queue) < 16) }
    ensures { k.new ≡ printed k.old (f.now ∷ []) }
{
    let entry = entry_of(k, k.numbers.ticket, f);
    k.numbers = ticket_used(k.numbers);
    put_newest(&mut k.queue, &entry);
}

// "A session queues its films in creation order."
fn print_films(k: &mut Core, films: &[Film])
    requires { (queued (entries_of k.old.queue) ≡ k.old.queue) × (length (entries_of k.old.queue) + length films.now ≤ 16) }
    ensures { k.new ≡ printed k.old films.now }
{
    for film in films {
        print_one(k, film);
    }
}

// A session printed, where the queue has room for its films.
pub fn print_session(k: &mut Core)
    requires { (films_under 0 k.old.shelf ≡ films_of k.old.shelf) × (queued (entries_of k.old.queue) ≡ k.old.queue) × (length (entries_of k.old.queue) + length (films_under 0 k.old.shelf) ≤ 16) }
    ensures { k.new ≡ printed k.old (films_under 0 k.old.shelf) }
{
    let shelf = k.shelf;
    print_films(k, films_of(&shelf));
}

// A film printed, where the queue has room for it.
pub fn print_film(k: &mut Core, i: usize)
    requires { (i < length (films_of k.old.shelf)) × (queued (entries_of k.old.queue) ≡ k.old.queue) × (length (entries_of k.old.queue) < 16) }
    ensures { k.new ≡ printed k.old (film_at k.old i ∷ []) }
{
    let film = shelves::film_at(k.shelf, i);
    print_one(k, &film);
}

fn any_none_filled(films: &[Film]) -> bool
    ensures { result ≡ list_any none_filled films.now }
{
    films.iter().any(|film| none_filled(film))
}

// Check 11, for a session: "a film has no filled box".
pub fn any_empty(k: &Core) -> bool
    requires { films_under 0 k.now.shelf ≡ films_of k.now.shelf }
    ensures { result ≡ any none_filled (films_under 0 k.now.shelf) }
{
    any_none_filled(films_of(&k.shelf))
}
