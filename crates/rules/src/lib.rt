// The book of printing: the types of the records and of requests. Its definitions stand in specs/; its only code is the numbers
// of failures and refusals.
#![tactic(auto)]

ghost use Rattle.std.specs.Prelude.{◌≡◌};
ghost use Rattle.rules.specs.Failures.{number_of, status_of};

use elements::Stop;
use headers::{Inside, Part};

// How many there are at most: sessions, boxes of a film, films, entries; characters of a UID, a label and a root; lines of a layout;
// bytes of a command.
pub const SESSIONS: usize = 1;

pub const BOXES: usize = 36;

pub const FILMS: usize = 8;

pub const ENTRIES: usize = 16;

pub const TEXT: usize = 64;

pub const ROOT: usize = 40;

pub const LINES: usize = 6;

pub const COMMAND: usize = 1024;

// The fields of the records are numbers as they stand in bytes, and no enums: until its rules are tested a byte may be any.

// "a film or box serial must not be read as a picture number"
#[derive(Clone, Copy)]
pub struct Serial(pub u32);

#[derive(Clone, Copy)]
pub struct Picture(pub u32);

// The UID of a session or a film: a made one is kept as its serial, a sent one (serial 0) as its characters.
#[derive(Clone, Copy)]
pub struct Name {
    pub made: Serial,
    pub used: u8,
    pub text: [u8; TEXT],
}

#[derive(Clone, Copy)]
pub struct Session {
    pub live: u8,
    pub name: Name,
    pub copies: u8,
    pub priority: u8,
    pub medium: u8,
    pub destination: u8,
    pub used: u8,
    pub label: [u8; TEXT],
}

// An image box; it is empty where its picture number is 0.
#[derive(Clone, Copy)]
pub struct ImageBox {
    pub position: u8,
    pub polarity: u8,
    pub picture: Picture,
}

// The kind of a film's format, and how many boxes each line has. Lines are rows, with COL columns.
#[derive(Clone, Copy)]
pub struct Layout {
    pub kind: u8,
    pub lines: u8,
    pub counts: [u8; LINES],
}

// A film, and the place of the session that it is of; its boxes have the serials from `first` on.
#[derive(Clone, Copy)]
pub struct Film {
    pub name: Name,
    pub session: u8,
    pub layout: Layout,
    pub orientation: u8,
    pub magnification: u8,
    pub first: Serial,
    pub boxes: [ImageBox; BOXES],
}

// The films, in creation order.
#[derive(Clone, Copy)]
pub struct Shelf {
    pub count: u8,
    pub films: [Film; FILMS],
}

// "Each queue entry keeps thirty-six picture numbers in position order"
#[derive(Clone, Copy)]
pub struct Entry {
    pub pictures: [Picture; BOXES],
    pub ticket: u16,
    pub copies: u8,
    pub film: Name,
}

// The queue, oldest entry first.
#[derive(Clone, Copy)]
pub struct Queue {
    pub count: u8,
    pub entries: [Entry; ENTRIES],
}

// The root, and the next numbers; one past the last where none is left.
#[derive(Clone, Copy)]
pub struct Numbers {
    pub used: u8,
    pub root: [u8; ROOT],
    pub serial: u64,
    pub picture: u64,
    pub ticket: u16,
}

// What open fixed: the context, the syntax and the length of the message buffer.
#[derive(Clone, Copy)]
pub struct Opened {
    pub live: u8,
    pub context: u8,
    pub syntax: u8,
    pub room: u32,
}

// All that the records hold but the message half collected. A place for a session is live or blank.
#[derive(Clone, Copy)]
pub struct Core {
    pub numbers: Numbers,
    pub sessions: [Session; SESSIONS],
    pub shelf: Shelf,
    pub queue: Queue,
    pub opened: Opened,
}

// The message half collected: the collecting state, the command's bytes, and how many bytes of data there are.
#[derive(Clone, Copy)]
pub struct Input {
    pub phase: u8,
    pub used: u16,
    pub got: u32,
    pub command: [u8; COMMAND],
}

#[derive(Clone, Copy)]
pub struct State {
    pub core: Core,
    pub input: Input,
}

// Where a command names its class, and what else its operation needs.
#[derive(Clone, Copy)]
pub struct Verification {
    pub class: Part,
}

// An empty place where no UID was sent.
#[derive(Clone, Copy)]
pub struct Creation {
    pub class: Part,
    pub sent: Part,
}

#[derive(Clone, Copy)]
pub struct Target {
    pub class: Part,
    pub instance: Part,
}

#[derive(Clone, Copy)]
pub struct Action {
    pub class: Part,
    pub instance: Part,
    pub kind: u16,
}

#[derive(Clone, Copy)]
pub enum Operation {
    Echo(Verification),
    Create(Creation),
    Set(Target),
    Act(Action),
    Delete(Target),
}

// "One decoded request is a message number with one of five operations"
#[derive(Clone, Copy)]
pub struct Request {
    pub message: u16,
    pub operation: Operation,
}

// What a whole command set says.
#[derive(Clone, Copy)]
pub enum Command {
    Unreadable,
    Unknown { message: u16, field: u16 },
    Known(Request),
}

// The classes that are served, and any other.
#[derive(Clone, Copy)]
pub enum Class {
    Verification,
    Sessions,
    Films,
    Boxes,
    UnknownClass,
}

// What a UID names: a film by its place, a box by its film's place and its own.
#[derive(Clone, Copy)]
pub enum Instance {
    Nobody,
    TheSession,
    TheFilm(usize),
    TheBox { film: usize, place: usize },
}

// What Image Sequence says: nothing, no item, several, or where the list of its only item stands.
#[derive(Clone, Copy)]
pub enum Image {
    Keeps,
    Erases,
    TooMany,
    Fills(Inside),
}

// Rule 4.13, a note: none, how many films were queued, a picture's number with place and length of its pixels, or where the reading
// of the data set stopped.
#[derive(Clone, Copy)]
pub enum Note {
    NoNote,
    FilmsQueued(u32),
    PictureAt {
        number: u32,
        place: u32,
        length: u32,
    },
    StoppedAt(Stop),
}

// The boxes of a created film, which its answer's data set holds: the first's serial, and how many there are.
#[derive(Clone, Copy)]
pub struct NewBoxes {
    pub first: u32,
    pub count: u8,
}

// What a request comes to: done or failed, the status, the core afterwards, the instance that the response names (none where it has no
// characters), the note, and the boxes that the answer's data set holds.
#[derive(Clone, Copy)]
pub struct Verdict {
    pub done: bool,
    pub status: u16,
    pub core: Core,
    pub instance: Name,
    pub note: Note,
    pub contents: Option<NewBoxes>,
}

// What a request fails for.
#[derive(Clone, Copy, PartialEq, Eq)]
pub enum Failure {
    WrongValue,
    NotRead,
    DuplicateInstance,
    NoSuchInstance,
    InvalidInstance,
    NoSuchClass,
    OtherClass,
    MissingAttribute,
    MissingValue,
    NoSuchAction,
    NotOffered,
    NoRoom,
    NoFilms,
    NoRoomForFilms,
    NoRoomForFilm,
    SamePosition,
}

// Its status.
impl From<Failure> for u16 {
    ghost from_gives = { λ failure n. n ≡ status_of failure };

    fn from(failure: Failure) -> u16 {
        match failure {
            Failure::WrongValue => 0x0106,
            Failure::NotRead => 0x0110,
            Failure::DuplicateInstance => 0x0111,
            Failure::NoSuchInstance => 0x0112,
            Failure::InvalidInstance => 0x0117,
            Failure::NoSuchClass => 0x0118,
            Failure::OtherClass => 0x0119,
            Failure::MissingAttribute => 0x0120,
            Failure::MissingValue => 0x0121,
            Failure::NoSuchAction => 0x0123,
            Failure::NotOffered => 0x0211,
            Failure::NoRoom => 0x0213,
            Failure::NoFilms => 0xC600,
            Failure::NoRoomForFilms => 0xC601,
            Failure::NoRoomForFilm => 0xC602,
            Failure::SamePosition => 0xC604,
        }
    }
}

// What a call is refused for.
#[derive(Clone, Copy, PartialEq, Eq)]
pub enum Refusal {
    Broken,
    Short,
    BadArgument,
    NotOpen,
    BadFragment,
    QueueEmpty,
}

// The number that it returns.
impl From<Refusal> for u32 {
    ghost from_gives = { λ refusal n. n ≡ number_of refusal };

    fn from(refusal: Refusal) -> u32 {
        match refusal {
            Refusal::Broken => 1,
            Refusal::Short => 2,
            Refusal::BadArgument => 3,
            Refusal::NotOpen => 4,
            Refusal::BadFragment => 5,
            Refusal::QueueEmpty => 6,
        }
    }
}
