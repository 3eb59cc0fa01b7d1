// Instances: the UID that a name stands for, made or sent, and which class and which instance a UID names.
#![tactic(auto)]

ghost use Rattle.std.specs.Prelude.{◌≡◌, true, ◌+◌, ◌≤◌, ◌<◌, length};
ghost use Rattle.octets.specs.Octets.{same};
ghost use Rattle.uids.specs.Uids.{begins_with};
ghost use Rattle.rules.specs.Bounds.{most_films, none_left};
ghost use Rattle.rules.specs.Layout.{records_size, name_size, film_size, name_format, film_format};
ghost use Rattle.rules.specs.Records.{root_of, films_of, film_named, named, session_named, uid_of};
ghost use Rattle.rules.specs.Commands.{uid_at};
ghost use Rattle.rules.specs.declared.Class.TheVariants.{Verification, Boxes};
ghost use Rattle.rules.specs.Checks.{class_of, offers, class_part};
ghost use Rattle.rules.specs.Sound.{core_sound};
ghost use Rattle.records.specs.Places.{numbers_in, session_in, shelf_in, core_in};
ghost use Rattle.commands.specs.Within.{PartIn};
ghost use Rattle.instances.specs.Search.{first_place};
ghost use Rattle.instances.specs.There.{There};
ghost use Rattle.instances.specs.Serials.{told, MadeOf, box_serial};

use headers::Part;
use records::{AT_FILMS, AT_SESSIONS, AT_SHELF, FILM, FILM_FIRST, FILM_LAYOUT, Records, SERIAL};
use rules::{Class, Instance, Operation, TEXT};

// Whether a UID begins with the root and a dot.
pub fn is_rooted(b: &Records, uid: &[u8]) -> bool
    ensures { result ≡ begins_with (root_of (numbers_in b.now)) uid.now }
{
    uids::begins_with(records::root_in(b), uid)
}

pub fn class_of(uid: &[u8]) -> Class
    ensures { result ≡ class_of uid.now }
{
    if octets::same_bytes(uid, b"1.2.840.10008.1.1") {
        return Class::Verification;
    }
    if octets::same_bytes(uid, b"1.2.840.10008.5.1.1.1") {
        return Class::Sessions;
    }
    if octets::same_bytes(uid, b"1.2.840.10008.5.1.1.2") {
        return Class::Films;
    }
    if octets::same_bytes(uid, b"1.2.840.10008.5.1.1.4") {
        return Class::Boxes;
    }
    Class::UnknownClass
}

// Verification: C-ECHO.
fn is_echo(operation: Operation) -> bool
    ensures { result ≡ offers Verification operation }
{
    matches!(operation, Operation::Echo(_))
}

// Image box: N-SET; a box goes with its film.
fn is_set(operation: Operation) -> bool
    ensures { result ≡ offers Boxes operation }
{
    matches!(operation, Operation::Set(_))
}

// Session and film: the four N, all but C-ECHO.
pub fn offers(class: Class, operation: Operation) -> bool
    ensures { result ≡ offers class operation }
{
    match class {
        Class::Verification => is_echo(operation),
        Class::Sessions => !is_echo(operation),
        Class::Films => !is_echo(operation),
        Class::Boxes => is_set(operation),
        Class::UnknownClass => false,
    }
}

// The number that digits tell; of a serial's digits it is the serial.
fn number_told(s: &[u8]) -> usize
    ensures { (result ≡ told 0 s.now) × (result < none_left) }
{
    let mut v = 0;
    for d in s {
        v = (10 * v + usize::from(*d) % 16) % 4294967296;
    }
    v
}

// The serial that a UID was made of, 0 where it was not made: with it the made UIDs are compared as numbers. An Option is no
// plainer: 0 is no made name's serial, so that one comparison does.
fn made_serial(b: &Records, uid: &[u8]) -> usize
    ensures { MadeOf (root_of (numbers_in b.now)) uid.now result }
{
    let root = records::root_in(b);
    let dot = root.len();
    if uid.len() <= dot {
        return 0;
    }
    let serial = number_told(&uid[dot + 1..]);
    if making::is_made(root, serial as u32, uid) {
        return serial;
    }
    0
}

// Whether a UID, made of this serial if it was made, is the one that the name at a place stands for. The records are fixed
// bytes: a sent name has the serial 0.
fn is_name(b: &Records, p: usize, serial: usize, uid: &[u8]) -> bool
    requires { (p + name_size ≤ length b.now) × MadeOf (root_of (numbers_in b.now)) uid.now serial }
    ensures { result ≡ same uid.now (uid_of (numbers_in b.now) (name_format.read b.now p)) }
{
    let made = octets::u32_at(b, p);
    if made == 0 {
        let used = p + SERIAL;
        let text = used + 1;
        let end = text + TEXT;
        return octets::same_bytes(uid, octets::front(&b[text..end], usize::from(b[used])));
    }
    made == serial
}

// Whether a UID is the one that the name at a place stands for.
pub fn is_named_at(b: &Records, p: usize, uid: &[u8]) -> bool
    requires { p + name_size ≤ length b.now }
    ensures { result ≡ same uid.now (uid_of (numbers_in b.now) (name_format.read b.now p)) }
{
    is_name(b, p, made_serial(b, uid), uid)
}

// Whether it is that of the session at the only place.
fn is_session(b: &Records, serial: usize, uid: &[u8]) -> bool
    requires { MadeOf (root_of (numbers_in b.now)) uid.now serial }
    ensures { result ≡ session_named (numbers_in b.now) uid.now (session_in b.now) }
{
    b[AT_SESSIONS] != 0 && is_name(b, AT_SESSIONS + 1, serial, uid)
}

// The place of the film that a UID names.
fn film_named(b: &Records, serial: usize, uid: &[u8]) -> Option<usize>
    requires { ((shelf_in b.now).count ≤ most_films) × MadeOf (root_of (numbers_in b.now)) uid.now serial }
    ensures { result ≡ first_place (film_named (numbers_in b.now) uid.now) (films_of (shelf_in b.now)) }
{
    let count = usize::from(b[AT_SHELF]);
    (0..count).find(|&i| is_name(b, AT_FILMS + i * FILM, serial, uid))
}

// The serial of the first box of the film at a place.
fn first_at(b: &[u8], p: usize) -> usize
    requires { p + film_size ≤ length b.now }
    ensures { (result ≡ (film_format.read b.now p).first.0) × (result < none_left) }
{
    octets::u32_at(b, p + FILM_FIRST)
}

// Whether a serial is that of a box of the film at a place.
fn has_box(b: &[u8], p: usize, serial: usize) -> bool
    requires { p + film_size ≤ length b.now }
    ensures { result ≡ box_serial serial (film_format.read b.now p) }
{
    let first = first_at(b, p);
    first <= serial && serial - first < layouts::box_count_at(b, p + FILM_LAYOUT) as usize
}

// The place of the film with the box of a serial.
fn film_with_box(b: &Records, serial: usize) -> Option<usize>
    requires { (shelf_in b.now).count ≤ most_films }
    ensures { result ≡ first_place (box_serial serial) (films_of (shelf_in b.now)) }
{
    let count = usize::from(b[AT_SHELF]);
    (0..count).find(|&i| has_box(b, AT_FILMS + i * FILM, serial))
}

// The instance that a UID names.
fn named_in(b: &Records, uid: &[u8]) -> Instance
    requires { core_sound (core_in b.now) ≡ true }
    ensures { (result ≡ named (core_in b.now) uid.now) × There (core_in b.now) result }
{
    let serial = made_serial(b, uid);
    if is_session(b, serial, uid) {
        return Instance::TheSession;
    }
    if let Some(film) = film_named(b, serial, uid) {
        return Instance::TheFilm(film);
    }
    let Some(film) = film_with_box(b, serial) else {
        return Instance::Nobody;
    };
    let first = first_at(b, AT_FILMS + film * FILM);
    Instance::TheBox {
        film,
        place: serial - first,
    }
}

// The same over all that is lent, of which the records are the front.
pub fn named(b: &[u8], uid: &[u8]) -> Instance
    requires { (records_size ≤ length b.now) × (core_sound (core_in b.now) ≡ true) }
    ensures { (result ≡ named (core_in b.now) uid.now) × There (core_in b.now) result }
{
    match b.first_chunk() {
        Some(records) => named_in(records, uid),
        None => Instance::Nobody,
    }
}

// The UID that stands at a place of a command.
pub fn uid_at(c: &[u8], p: Part) -> &[u8]
    requires { PartIn (length c.now) p }
    ensures { result.now ≡ uid_at c.now p }
{
    let from = p.from;
    let stop = p.stop;
    uids::unpadded(&c[from..stop])
}

pub fn class_part(operation: Operation) -> Part
    ensures { result ≡ class_part operation }
{
    match operation {
        Operation::Echo(v) => v.class,
        Operation::Create(v) => v.class,
        Operation::Set(v) => v.class,
        Operation::Act(v) => v.class,
        Operation::Delete(v) => v.class,
    }
}
