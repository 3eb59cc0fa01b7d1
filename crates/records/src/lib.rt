// Records: the records' structs, read from their bytes and written to them, as the book's formats say.
#![tactic(auto)]

ghost use Rattle.std.specs.Prelude.{◌≡◌, ℕ, ◌+◌, ◌*◌, ◌<◌, ◌≤◌, length};
ghost use Rattle.fields.specs.Format.{Format, write, array};
ghost use Rattle.fields.proofs.Laws.{Laws};
ghost use Rattle.rules.specs.Records.{root_of, syntax_in};
ghost use Rattle.records.specs.Places.{numbers_in, core_in};
ghost use Rattle.rules.specs.Layout.{serial_size, picture_size, name_size, box_size, layout_size, session_size, numbers_size, opened_size, film_size, shelf_size, entry_size, queue_size, core_size, serial_format, picture_format, name_format, box_format, layout_format, session_format, numbers_format, opened_format, film_format, shelf_format, entry_format, queue_format, core_format};
ghost use Rattle.rules.proofs.Sizes.{serial_size_lem, picture_size_lem, name_size_lem, box_size_lem, layout_size_lem, session_size_lem, numbers_size_lem, opened_size_lem, film_size_lem, shelf_size_lem, entry_size_lem, queue_size_lem, core_size_lem};
ghost use Rattle.rules.proofs.Steps.{serial_steps, picture_steps, name_steps, box_steps, layout_steps, session_steps, numbers_steps, opened_steps, film_steps, shelf_steps, entry_steps, queue_steps, core_steps};

use headers::Syntax;
use rules::{
    BOXES, COMMAND, Core, ENTRIES, Entry, FILMS, Film, ImageBox, LINES, Layout, Name, Numbers,
    Opened, Picture, Queue, ROOT, SESSIONS, Serial, Session, Shelf, TEXT,
};

// How many bytes each has: its fields, one behind the other.
pub const SERIAL: usize = 4;

pub const PICTURE: usize = 4;

pub const NAME: usize = SERIAL + 1 + TEXT;

pub const IMAGE_BOX: usize = 1 + 1 + PICTURE;

pub const LAYOUT: usize = 1 + 1 + LINES;

pub const SESSION: usize = 1 + NAME + 1 + 1 + 1 + 1 + 1 + TEXT;

pub const NUMBERS: usize = 1 + ROOT + 5 + 5 + 2;

pub const OPENED: usize = 1 + 1 + 1 + 4;

pub const INPUT: usize = 1 + 2 + 4 + COMMAND;

pub const FILM: usize = NAME + 1 + LAYOUT + 1 + 1 + SERIAL + BOXES * IMAGE_BOX;

pub const SHELF: usize = 1 + FILMS * FILM;

pub const PICTURES: usize = BOXES * PICTURE;

pub const ENTRY: usize = PICTURES + 2 + 1 + NAME;

pub const QUEUE: usize = 1 + ENTRIES * ENTRY;

pub const PLACES: usize = SESSIONS * SESSION;

pub const CORE: usize = NUMBERS + PLACES + SHELF + QUEUE + OPENED;

pub const RECORDS: usize = CORE + INPUT;

// The records' bytes.
pub type Records = [u8; RECORDS];

// Where each part stands, and in the numbers the next ones.
pub const AT_SERIAL: usize = 1 + ROOT;

pub const AT_PICTURE: usize = AT_SERIAL + 5;

pub const AT_SESSIONS: usize = NUMBERS;

pub const AT_SHELF: usize = AT_SESSIONS + PLACES;

pub const AT_FILMS: usize = AT_SHELF + 1;

pub const AT_QUEUE: usize = AT_SHELF + SHELF;

pub const AT_ENTRIES: usize = AT_QUEUE + 1;

pub const AT_OPENED: usize = AT_QUEUE + QUEUE;

pub const AT_INPUT: usize = CORE;

// In what open fixed, in the input, and in a film.
pub const AT_CONTEXT: usize = AT_OPENED + 1;

pub const AT_SYNTAX: usize = AT_CONTEXT + 1;

pub const AT_ROOM: usize = AT_SYNTAX + 1;

pub const AT_USED: usize = AT_INPUT + 1;

pub const AT_GOT: usize = AT_USED + 2;

pub const AT_COMMAND: usize = AT_GOT + 4;

pub const FILM_LAYOUT: usize = NAME + 1;

pub const FILM_FIRST: usize = FILM_LAYOUT + LAYOUT + 1 + 1;

pub const FILM_BOXES: usize = FILM_FIRST + SERIAL;

// An entry that is taken: where its ticket, copies and UID stand behind the pictures, and its end.
pub const TAKEN_TICKET: usize = PICTURES;

pub const TAKEN_COPIES: usize = TAKEN_TICKET + 2;

pub const TAKEN_UID: usize = TAKEN_COPIES + 2;

pub const TAKEN: usize = TAKEN_UID + TEXT;

// The root's characters.
pub fn root_in(b: &[u8]) -> &[u8]
    requires { numbers_size ≤ length b.now }
    ensures { result.now ≡ root_of (numbers_in b.now) }
{
    octets::front(&b[1..AT_SERIAL], b[0] as usize)
}

// The syntax that open fixed.
pub fn syntax_in(b: &Records) -> Syntax
    ensures { result ≡ syntax_in (core_in b.now) }
{
    headers::syntax_of(b[AT_SYNTAX])
}

// What stands in bytes as a format of the book says: how it is read there, and written.
pub trait Record: Copy {
    ghost format: { Format Self };

    ghost SIZE: { ℕ };

    const SIZE: usize;

    fn read_at(s: &[u8], at: usize) -> Self
        requires { at + SIZE ≤ length s.now }
        ensures { result ≡ format.read s.now at };

    fn put(&self, s: &mut [u8], at: usize)
        requires { at + SIZE ≤ length s.old }
        ensures { s.new ≡ write format self.now s.old at };

    ghost sized: { format.size ≡ SIZE };

    ghost laws: { Laws format };
}

// Records that stand one behind the other from a place on.
fn array_at<T: Record, const N: usize>(s: &[u8], at: usize) -> [T; N]
    requires { (0 < N) × (at + N * T.SIZE ≤ length s.now) }
    ensures { result ≡ (array N T.format).read s.now at }
{
    let mut xs = [T::read_at(s, at); N];
    for (i, x) in xs.iter_mut().enumerate() {
        *x = T::read_at(s, at + i * T::SIZE);
    }
    xs
}

fn put_array<T: Record, const N: usize>(s: &mut [u8], at: usize, xs: &[T; N])
    requires { at + N * T.SIZE ≤ length s.old }
    ensures { s.new ≡ write (array N T.format) xs.now s.old at }
{
    for (i, x) in xs.iter().enumerate() {
        x.put(s, at + i * T::SIZE);
    }
}

impl Record for Serial {
    ghost format = { serial_format };

    ghost SIZE = { serial_size };

    const SIZE: usize = SERIAL;

    fn read_at(s: &[u8], at: usize) -> Self {
        Serial(fields::u32_at(s, at))
    }

    fn put(&self, s: &mut [u8], at: usize) {
        fields::put_number(s, at, 4, self.0 as u64);
    }

    ghost sized = { serial_size_lem };

    ghost laws = { serial_steps.laws };
}

impl Record for Picture {
    ghost format = { picture_format };

    ghost SIZE = { picture_size };

    const SIZE: usize = PICTURE;

    fn read_at(s: &[u8], at: usize) -> Self {
        Picture(fields::u32_at(s, at))
    }

    fn put(&self, s: &mut [u8], at: usize) {
        fields::put_number(s, at, 4, self.0 as u64);
    }

    ghost sized = { picture_size_lem };

    ghost laws = { picture_steps.laws };
}

impl Record for Name {
    ghost format = { name_format };

    ghost SIZE = { name_size };

    const SIZE: usize = NAME;

    fn read_at(s: &[u8], at: usize) -> Self {
        let made = Serial::read_at(s, at);
        let p1 = at + SERIAL;
        let used = s[p1];
        let p2 = p1 + 1;
        let text = fields::bytes_at(s, p2);
        Name { made, used, text }
    }

    fn put(&self, s: &mut [u8], at: usize) {
        self.made.put(s, at);
        let p1 = at + SERIAL;
        fields::put_byte(s, p1, self.used);
        let p2 = p1 + 1;
        fields::put_bytes(s, p2, &self.text);
    }

    ghost sized = { name_size_lem };

    ghost laws = { name_steps.laws };
}

impl Record for ImageBox {
    ghost format = { box_format };

    ghost SIZE = { box_size };

    const SIZE: usize = IMAGE_BOX;

    fn read_at(s: &[u8], at: usize) -> Self {
        let position = s[at];
        let p1 = at + 1;
        let polarity = s[p1];
        let p2 = p1 + 1;
        let picture = Picture::read_at(s, p2);
        ImageBox {
            position,
            polarity,
            picture,
        }
    }

    fn put(&self, s: &mut [u8], at: usize) {
        fields::put_byte(s, at, self.position);
        let p1 = at + 1;
        fields::put_byte(s, p1, self.polarity);
        let p2 = p1 + 1;
        self.picture.put(s, p2);
    }

    ghost sized = { box_size_lem };

    ghost laws = { box_steps.laws };
}

impl Record for Layout {
    ghost format = { layout_format };

    ghost SIZE = { layout_size };

    const SIZE: usize = LAYOUT;

    fn read_at(s: &[u8], at: usize) -> Self {
        let kind = s[at];
        let p1 = at + 1;
        let lines = s[p1];
        let p2 = p1 + 1;
        let counts = fields::bytes_at(s, p2);
        Layout {
            kind,
            lines,
            counts,
        }
    }

    fn put(&self, s: &mut [u8], at: usize) {
        fields::put_byte(s, at, self.kind);
        let p1 = at + 1;
        fields::put_byte(s, p1, self.lines);
        let p2 = p1 + 1;
        fields::put_bytes(s, p2, &self.counts);
    }

    ghost sized = { layout_size_lem };

    ghost laws = { layout_steps.laws };
}

impl Record for Session {
    ghost format = { session_format };

    ghost SIZE = { session_size };

    const SIZE: usize = SESSION;

    fn read_at(s: &[u8], at: usize) -> Self {
        let live = s[at];
        let p1 = at + 1;
        let name = Name::read_at(s, p1);
        let p2 = p1 + NAME;
        let copies = s[p2];
        let p3 = p2 + 1;
        let priority = s[p3];
        let p4 = p3 + 1;
        let medium = s[p4];
        let p5 = p4 + 1;
        let destination = s[p5];
        let p6 = p5 + 1;
        let used = s[p6];
        let p7 = p6 + 1;
        let label = fields::bytes_at(s, p7);
        Session {
            live,
            name,
            copies,
            priority,
            medium,
            destination,
            used,
            label,
        }
    }

    fn put(&self, s: &mut [u8], at: usize) {
        fields::put_byte(s, at, self.live);
        let p1 = at + 1;
        self.name.put(s, p1);
        let p2 = p1 + NAME;
        fields::put_byte(s, p2, self.copies);
        let p3 = p2 + 1;
        fields::put_byte(s, p3, self.priority);
        let p4 = p3 + 1;
        fields::put_byte(s, p4, self.medium);
        let p5 = p4 + 1;
        fields::put_byte(s, p5, self.destination);
        let p6 = p5 + 1;
        fields::put_byte(s, p6, self.used);
        let p7 = p6 + 1;
        fields::put_bytes(s, p7, &self.label);
    }

    ghost sized = { session_size_lem };

    ghost laws = { session_steps.laws };
}

impl Record for Numbers {
    ghost format = { numbers_format };

    ghost SIZE = { numbers_size };

    const SIZE: usize = NUMBERS;

    fn read_at(s: &[u8], at: usize) -> Self {
        let used = s[at];
        let p1 = at + 1;
        let root = fields::bytes_at(s, p1);
        let p2 = p1 + ROOT;
        let serial = octets::number_at(s, p2, 5);
        let p3 = p2 + 5;
        let picture = octets::number_at(s, p3, 5);
        let p4 = p3 + 5;
        let ticket = fields::u16_at(s, p4);
        Numbers {
            used,
            root,
            serial,
            picture,
            ticket,
        }
    }

    fn put(&self, s: &mut [u8], at: usize) {
        fields::put_byte(s, at, self.used);
        let p1 = at + 1;
        fields::put_bytes(s, p1, &self.root);
        let p2 = p1 + ROOT;
        fields::put_number(s, p2, 5, self.serial);
        let p3 = p2 + 5;
        fields::put_number(s, p3, 5, self.picture);
        let p4 = p3 + 5;
        fields::put_number(s, p4, 2, self.ticket as u64);
    }

    ghost sized = { numbers_size_lem };

    ghost laws = { numbers_steps.laws };
}

impl Record for Opened {
    ghost format = { opened_format };

    ghost SIZE = { opened_size };

    const SIZE: usize = OPENED;

    fn read_at(s: &[u8], at: usize) -> Self {
        let live = s[at];
        let p1 = at + 1;
        let context = s[p1];
        let p2 = p1 + 1;
        let syntax = s[p2];
        let p3 = p2 + 1;
        let room = fields::u32_at(s, p3);
        Opened {
            live,
            context,
            syntax,
            room,
        }
    }

    fn put(&self, s: &mut [u8], at: usize) {
        fields::put_byte(s, at, self.live);
        let p1 = at + 1;
        fields::put_byte(s, p1, self.context);
        let p2 = p1 + 1;
        fields::put_byte(s, p2, self.syntax);
        let p3 = p2 + 1;
        fields::put_number(s, p3, 4, self.room as u64);
    }

    ghost sized = { opened_size_lem };

    ghost laws = { opened_steps.laws };
}

impl Record for Film {
    ghost format = { film_format };

    ghost SIZE = { film_size };

    const SIZE: usize = FILM;

    fn read_at(s: &[u8], at: usize) -> Self {
        let name = Name::read_at(s, at);
        let p1 = at + NAME;
        let session = s[p1];
        let p2 = p1 + 1;
        let layout = Layout::read_at(s, p2);
        let p3 = p2 + LAYOUT;
        let orientation = s[p3];
        let p4 = p3 + 1;
        let magnification = s[p4];
        let p5 = p4 + 1;
        let first = Serial::read_at(s, p5);
        let p6 = p5 + SERIAL;
        let boxes = array_at(s, p6);
        Film {
            name,
            session,
            layout,
            orientation,
            magnification,
            first,
            boxes,
        }
    }

    fn put(&self, s: &mut [u8], at: usize) {
        self.name.put(s, at);
        let p1 = at + NAME;
        fields::put_byte(s, p1, self.session);
        let p2 = p1 + 1;
        self.layout.put(s, p2);
        let p3 = p2 + LAYOUT;
        fields::put_byte(s, p3, self.orientation);
        let p4 = p3 + 1;
        fields::put_byte(s, p4, self.magnification);
        let p5 = p4 + 1;
        self.first.put(s, p5);
        let p6 = p5 + SERIAL;
        put_array(s, p6, &self.boxes);
    }

    ghost sized = { film_size_lem };

    ghost laws = { film_steps.laws };
}

impl Record for Shelf {
    ghost format = { shelf_format };

    ghost SIZE = { shelf_size };

    const SIZE: usize = SHELF;

    fn read_at(s: &[u8], at: usize) -> Self {
        let count = s[at];
        let p1 = at + 1;
        let films = array_at(s, p1);
        Shelf { count, films }
    }

    fn put(&self, s: &mut [u8], at: usize) {
        fields::put_byte(s, at, self.count);
        let p1 = at + 1;
        put_array(s, p1, &self.films);
    }

    ghost sized = { shelf_size_lem };

    ghost laws = { shelf_steps.laws };
}

impl Record for Entry {
    ghost format = { entry_format };

    ghost SIZE = { entry_size };

    const SIZE: usize = ENTRY;

    fn read_at(s: &[u8], at: usize) -> Self {
        let pictures = array_at(s, at);
        let p1 = at + PICTURES;
        let ticket = fields::u16_at(s, p1);
        let p2 = p1 + 2;
        let copies = s[p2];
        let p3 = p2 + 1;
        let film = Name::read_at(s, p3);
        Entry {
            pictures,
            ticket,
            copies,
            film,
        }
    }

    fn put(&self, s: &mut [u8], at: usize) {
        put_array(s, at, &self.pictures);
        let p1 = at + PICTURES;
        fields::put_number(s, p1, 2, self.ticket as u64);
        let p2 = p1 + 2;
        fields::put_byte(s, p2, self.copies);
        let p3 = p2 + 1;
        self.film.put(s, p3);
    }

    ghost sized = { entry_size_lem };

    ghost laws = { entry_steps.laws };
}

impl Record for Queue {
    ghost format = { queue_format };

    ghost SIZE = { queue_size };

    const SIZE: usize = QUEUE;

    fn read_at(s: &[u8], at: usize) -> Self {
        let count = s[at];
        let p1 = at + 1;
        let entries = array_at(s, p1);
        Queue { count, entries }
    }

    fn put(&self, s: &mut [u8], at: usize) {
        fields::put_byte(s, at, self.count);
        let p1 = at + 1;
        put_array(s, p1, &self.entries);
    }

    ghost sized = { queue_size_lem };

    ghost laws = { queue_steps.laws };
}

impl Record for Core {
    ghost format = { core_format };

    ghost SIZE = { core_size };

    const SIZE: usize = CORE;

    fn read_at(s: &[u8], at: usize) -> Self {
        let numbers = Numbers::read_at(s, at);
        let p1 = at + NUMBERS;
        let sessions = array_at(s, p1);
        let p2 = p1 + PLACES;
        let shelf = Shelf::read_at(s, p2);
        let p3 = p2 + SHELF;
        let queue = Queue::read_at(s, p3);
        let p4 = p3 + QUEUE;
        let opened = Opened::read_at(s, p4);
        Core {
            numbers,
            sessions,
            shelf,
            queue,
            opened,
        }
    }

    fn put(&self, s: &mut [u8], at: usize) {
        self.numbers.put(s, at);
        let p1 = at + NUMBERS;
        put_array(s, p1, &self.sessions);
        let p2 = p1 + PLACES;
        self.shelf.put(s, p2);
        let p3 = p2 + SHELF;
        self.queue.put(s, p3);
        let p4 = p3 + QUEUE;
        self.opened.put(s, p4);
    }

    ghost sized = { core_size_lem };

    ghost laws = { core_steps.laws };
}
