// Changes: what a request changes in the records, and how that is written where it stands.
#![tactic(auto)]

ghost use Rattle.std.specs.Prelude.{◌≡◌, ◌+◌, ◌*◌, ◌<◌, ◌≤◌, [], ◌∷◌, ◌++◌, length};
ghost use Rattle.choice.specs.Pick.{pick};
ghost use Rattle.octets.specs.Octets.{part, laid};
ghost use Rattle.fields.specs.Format.{write};
ghost use Rattle.rules.specs.Bounds.{most_films, most_boxes, most_entries};
ghost use Rattle.rules.specs.Records.{films_of, entries_of, films_under, with_numbers, with_session, with_films, serials_used, picture_used};
ghost use Rattle.rules.specs.Effects.{film_at, with_film, printed, film_deleted, session_deleted};
ghost use Rattle.rules.specs.Layout.{film_size, core_format};
ghost use Rattle.records.specs.Places.{shelf_place, queue_place, core_in};
ghost use Rattle.changes.specs.Changes.{change_by, change_with_session, change_with_film, changed, box_changed, Tidy, FilmThere, AllUnder, NoneBeside, SerialsLeft, PictureLeft, Fits};

use records::{
    AT_FILMS, AT_PICTURE, AT_QUEUE, AT_SERIAL, AT_SESSIONS, AT_SHELF, FILM, FILM_BOXES, IMAGE_BOX,
    PLACES, Record, Records, SHELF,
};
use rules::{Core, Film, ImageBox, Name, NewBoxes, Note, Session};

// What a request does to the records: nothing; a session or a film is created, with so many serials used; a session, a film or a box is
// set, a box by its film's place and its own, with whether it takes the next picture number; films are queued; a film or the session
// with all its films is deleted.
#[derive(Clone, Copy)]
pub enum Effect {
    Kept,
    SessionCreated(u64),
    SessionSet,
    FilmCreated(u64),
    FilmSet(usize),
    BoxSet {
        film: usize,
        place: usize,
        image_box: ImageBox,
        fills: bool,
    },
    FilmPrinted(usize),
    SessionPrinted,
    FilmDeleted(usize),
    SessionDeleted,
}

// What a request changes: its effect, with the session or the film that it creates or sets, which stand beside it since an enum holds
// no arrays; what it does not touch is blank.
#[derive(Clone, Copy)]
pub struct Change {
    pub effect: Effect,
    pub session: Session,
    pub film: Film,
}

// What a request comes to: as the book's verdict, with the change in place of the core afterwards.
#[derive(Clone, Copy)]
pub struct Decision {
    pub done: bool,
    pub status: u16,
    pub change: Change,
    pub instance: Name,
    pub note: Note,
    pub contents: Option<NewBoxes>,
}

const AT_LAST_FILM: usize = AT_QUEUE - FILM;

// A change that writes neither a session nor a film.
pub fn change_by(effect: Effect) -> Change
    ensures { result ≡ change_by effect }
{
    Change {
        effect,
        session: shelves::no_session(),
        film: shelves::no_film(),
    }
}

pub fn change_with_session(effect: Effect, session: Session) -> Change
    ensures { result ≡ change_with_session effect session }
{
    Change {
        session,
        ..change_by(effect)
    }
}

pub fn change_with_film(effect: Effect, film: Film) -> Change
    ensures { result ≡ change_with_film effect film }
{
    Change {
        film,
        ..change_by(effect)
    }
}

// The next numbers.

// "A session or film without a sent UID takes the next serial", and so does each box.
fn put_serials_used(b: &mut Records, serials: u64)
    requires { SerialsLeft (core_in b.old) serials }
    ensures { b.new ≡ write core_format (with_numbers (serials_used serials (core_in b.old).numbers) (core_in b.old)) b.old 0 }
{
    let next = octets::number_at(b, AT_SERIAL, 5) + serials;
    fields::put_number(b, AT_SERIAL, 5, next);
}

// The next picture number is used where an image fills the box.
fn put_picture_used(b: &mut Records, fills: bool)
    requires { PictureLeft (core_in b.old) fills }
    ensures { b.new ≡ write core_format (with_numbers (pick fills (picture_used (core_in b.old).numbers) (core_in b.old).numbers) (core_in b.old)) b.old 0 }
{
    if fills {
        let next = octets::number_at(b, AT_PICTURE, 5) + 1;
        fields::put_number(b, AT_PICTURE, 5, next);
    }
}

// Where the film at a place of the shelf stands.
fn film_place(place: usize) -> usize
    requires { place < most_films }
    ensures at { result ≡ shelf_place + 1 + place * film_size }
    ensures within { result + film_size ≤ queue_place }
{
    AT_FILMS + place * FILM
}

// Created and set.

fn put_session_set(b: &mut Records, session: &Session)
    ensures { b.new ≡ write core_format (with_session 0 session.now (core_in b.old)) b.old 0 }
{
    session.put(b, AT_SESSIONS);
}

fn put_session_created(b: &mut Records, session: &Session, serials: u64)
    requires { SerialsLeft (core_in b.old) serials }
    ensures { b.new ≡ write core_format (with_session 0 session.now (with_numbers (serials_used serials (core_in b.old).numbers) (core_in b.old))) b.old 0 }
{
    put_serials_used(b, serials);
    session.put(b, AT_SESSIONS);
}

fn put_film_set(b: &mut Records, place: usize, film: &Film)
    requires { Tidy (core_in b.old) × FilmThere (core_in b.old) place }
    ensures { b.new ≡ write core_format (with_film place film.now (core_in b.old)) b.old 0 }
{
    film.put(b, film_place(place));
}

// The film created last stands behind the others.
fn put_film_created(b: &mut Records, film: &Film, serials: u64)
    requires { Tidy (core_in b.old) × ((core_in b.old).shelf.count < most_films) × SerialsLeft (core_in b.old) serials }
    ensures { b.new ≡ write core_format (with_films (films_of (core_in b.old).shelf ++ (film.now ∷ [])) (with_numbers (serials_used serials (core_in b.old).numbers) (core_in b.old))) b.old 0 }
{
    let count = b[AT_SHELF];
    put_serials_used(b, serials);
    film.put(b, film_place(count as usize));
    fields::put_byte(b, AT_SHELF, count + 1);
}

fn put_box_set(b: &mut Records, film: usize, place: usize, anew: &ImageBox, fills: bool)
    requires { Tidy (core_in b.old) × FilmThere (core_in b.old) film × (place < most_boxes) × PictureLeft (core_in b.old) fills }
    ensures { b.new ≡ write core_format (box_changed (core_in b.old) film place anew.now fills) b.old 0 }
{
    put_picture_used(b, fills);
    anew.put(b, film_place(film) + FILM_BOXES + place * IMAGE_BOX);
}

// Printed and deleted. What unpacks the core is not compiled into its caller, for other changes need none.

#[inline(never)]
fn put_film_printed(b: &mut Records, place: usize)
    requires { Tidy (core_in b.old) × FilmThere (core_in b.old) place × (length (entries_of (core_in b.old).queue) < most_entries) }
    ensures { b.new ≡ write core_format (printed (core_in b.old) (film_at (core_in b.old) place ∷ [])) b.old 0 }
{
    let mut core = Core::read_at(b, 0);
    printing::print_film(&mut core, place);
    core.put(b, 0);
}

#[inline(never)]
fn put_session_printed(b: &mut Records)
    requires { Tidy (core_in b.old) × AllUnder (core_in b.old) × (length (entries_of (core_in b.old).queue) + length (films_under 0 (core_in b.old).shelf) ≤ most_entries) }
    ensures { b.new ≡ write core_format (printed (core_in b.old) (films_under 0 (core_in b.old).shelf)) b.old 0 }
{
    let mut core = Core::read_at(b, 0);
    printing::print_session(&mut core);
    core.put(b, 0);
}

// The films behind one, each a place further down: their bytes.
fn move_films_down(b: &mut Records, from: usize)
    requires { from + film_size ≤ queue_place }
    ensures { b.new ≡ laid b.old from (part b.old (from + film_size) queue_place) }
{
    b.copy_within(from + FILM..AT_QUEUE, from);
}

// The last place is blank then: all zeros.
fn put_film_deleted(b: &mut Records, place: usize)
    requires { Tidy (core_in b.old) × FilmThere (core_in b.old) place }
    ensures { b.new ≡ write core_format (film_deleted (core_in b.old) place) b.old 0 }
{
    let count = b[AT_SHELF];
    move_films_down(b, film_place(place));
    let blank = [0u8; FILM];
    octets::put(b, AT_LAST_FILM, &blank);
    fields::put_byte(b, AT_SHELF, count - 1);
}

// A session that is not there, and a shelf without films, are all zeros; they stand side by side.
fn put_session_deleted(b: &mut Records)
    requires { NoneBeside (core_in b.old) }
    ensures { b.new ≡ write core_format (session_deleted (core_in b.old) 0) b.old 0 }
{
    let blank = [0u8; PLACES + SHELF];
    octets::put(b, AT_SESSIONS, &blank);
}

// The records after a change: what it changes is written, and all else stands as it stood.
pub fn put_change(b: &mut Records, change: Change)
    requires { Tidy (core_in b.old) × Fits (core_in b.old) change }
    ensures { b.new ≡ write core_format (changed (core_in b.old) change) b.old 0 }
{
    let effect = change.effect;
    let session = change.session;
    let film = change.film;
    match effect {
        Effect::Kept => {}
        Effect::SessionCreated(serials) => put_session_created(b, &session, serials),
        Effect::SessionSet => put_session_set(b, &session),
        Effect::FilmCreated(serials) => put_film_created(b, &film, serials),
        Effect::FilmSet(place) => put_film_set(b, place, &film),
        Effect::BoxSet {
            film,
            place,
            image_box,
            fills,
        } => put_box_set(b, film, place, &image_box, fills),
        Effect::FilmPrinted(place) => put_film_printed(b, place),
        Effect::SessionPrinted => put_session_printed(b),
        Effect::FilmDeleted(place) => put_film_deleted(b, place),
        Effect::SessionDeleted => put_session_deleted(b),
    }
}
