// Commands: what a whole command set says, held to the book.
#![tactic(auto)]

ghost use Rattle.std.specs.Prelude.{◌≡◌, true, false, ◌≤◌, ◌<◌, eqb, length, get_or};
ghost use Rattle.octets.specs.Octets.{number_at};
ghost use Rattle.uids.specs.Uids.{is_uid, unpadded};
ghost use Rattle.headers.specs.declared.Syntax.TheVariants.{Implicit};
ghost use Rattle.headers.specs.Header.{head_at};
ghost use Rattle.elements.specs.Reader.{element_at};
ghost use Rattle.elements.specs.Find.{found};
ghost use Rattle.rules.specs.declared.Command.TheVariants.{Unreadable};
ghost use Rattle.rules.specs.Sound.{readable};
ghost use Rattle.rules.specs.Commands.{placed, size, uid_at, has_target, length_told, has_data, request_in, understood};
ghost use Rattle.commands.specs.Places.{slot_of, Holds, Gathers};
ghost use Rattle.commands.specs.Requests.{has_numbers, known_as, target_in, echo_in, creation_in, setting_in, action_in, deletion_in};

use elements::{ITEM_END, NESTED, Stop};
use headers::{Head, Inside, Part, Syntax};
use rules::{Action, Command, Creation, Operation, Request, Target, Verification};

// The places of a command: one for each element that is looked at, and one for all others.
const LENGTH: usize = 0;

const AFFECTED_CLASS: usize = 1;

const REQUESTED_CLASS: usize = 2;

const FIELD: usize = 3;

const MESSAGE: usize = 4;

const DATA_SET: usize = 5;

const AFFECTED_INSTANCE: usize = 6;

const REQUESTED_INSTANCE: usize = 7;

const ACTION_TYPE: usize = 8;

const OTHERS: usize = 9;

// Which place is that of a tag.
fn slot(tag: usize) -> usize
    ensures { (result ≡ slot_of tag) × (result < 10) }
{
    match tag {
        0x0000_0000 => LENGTH,
        0x0000_0002 => AFFECTED_CLASS,
        0x0000_0003 => REQUESTED_CLASS,
        0x0000_0100 => FIELD,
        0x0000_0110 => MESSAGE,
        0x0000_0800 => DATA_SET,
        0x0000_1000 => AFFECTED_INSTANCE,
        0x0000_1001 => REQUESTED_INSTANCE,
        0x0000_1008 => ACTION_TYPE,
        _ => OTHERS,
    }
}

// Where the value behind a header stands; an empty place where there is none.
fn value_of(head: Head) -> Part
    ensures { result ≡ placed (found head) }
{
    match head {
        Head::Fault(_) => Part { from: 0, stop: 0 },
        Head::Value(part) => part,
        Head::Nest(_) => Part { from: 0, stop: 0 },
    }
}

// An element whose header is judged already.
fn behind(c: &[u8], at: usize, floor: usize, head: Head) -> Result<usize, Stop>
    requires { (at ≤ length c.now) × (head ≡ head_at c.now Implicit (length c.now) at floor) }
    ensures { result ≡ element_at c.now Implicit 4 (length c.now) at floor }
{
    match head {
        Head::Fault(n) => elements::refused(n, at, NESTED).read,
        Head::Value(part) => Ok(part.stop),
        Head::Nest(_) => { elements::element(c, Syntax::Implicit, NESTED, c.len(), at, floor).read }
    }
}

// Where each value of a command stands, by one walk over its elements: of a whole command, which is read to its end and has
// all elements in group 0000.
fn gathered(c: &[u8]) -> Option<[Part; 10]>
    ensures { Gathers c.now result }
{
    let whole = Inside {
        from: 0,
        stop: c.len(),
        loose: false,
    };
    let mut parts = [Part { from: 0, stop: 0 }; 10];
    let mut p = 0;
    let mut floor = 0;
    loop {
        if let Some(_) = headers::closing(c, ITEM_END, whole, p) {
            return Some(parts);
        }
        let head = syntaxes::element_head(c, Syntax::Implicit, whole.stop, p, floor);
        let Ok(q) = behind(c, p, floor, head) else {
            return None;
        };
        let t = headers::tag_at(c, p);
        if 65536 <= t {
            return None;
        }
        let k = slot(t);
        parts[k] = value_of(head);
        floor = t + 1;
        p = q;
    }
}

// The byte at a place, 0 behind the end.
fn octet(c: &[u8], at: usize) -> u16
    ensures { (result ≡ get_or c.now at 0) × (result < 256) }
{
    if c.len() <= at {
        return 0;
    }
    c[at] as u16
}

fn number(c: &[u8], p: Part) -> u16
    requires { (p.from ≤ p.stop) × (p.stop ≤ length c.now) }
    ensures { (result ≡ number_at 2 c.now p.from) × (result < 65536) }
{
    octet(c, p.from) + 256 * octet(c, p.from + 1)
}

fn has_number(p: Part) -> bool
    requires { p.from ≤ p.stop }
    ensures { result ≡ eqb (size p) 2 }
{
    p.stop - p.from == 2
}

// Whether a UI value is a UID, with padding or without.
fn is_padded_uid(v: &[u8]) -> bool
    ensures { result ≡ is_uid (unpadded v.now) }
{
    let n = uids::unpadded_length(v);
    uids::is_uid(&v[0..n])
}

fn has_uid(c: &[u8], p: Part) -> bool
    requires { (p.from ≤ p.stop) × (p.stop ≤ length c.now) }
    ensures { result ≡ is_uid (uid_at c.now p) }
{
    let from = p.from;
    let stop = p.stop;
    is_padded_uid(&c[from..stop])
}

// A whole command: its bytes, and where the value of each element that is looked at stands.
#[derive(Clone, Copy)]
struct CommandSet<'a> {
    bytes: &'a [u8],
    places: [Part; 10],
    ghost held: { Holds bytes.now places },
}

impl CommandSet<'_> {
    fn has_target(&self) -> bool
        ensures { result ≡ has_target self.now.bytes.now }
    {
        has_uid(self.bytes, self.places[REQUESTED_CLASS])
            && has_uid(self.bytes, self.places[REQUESTED_INSTANCE])
    }

    // Whether the first element gives the bytes after it.
    fn length_told(&self) -> bool
        ensures { result ≡ length_told self.now.bytes.now }
    {
        let p = self.places[LENGTH];
        p.stop - p.from == 4 && octets::u32_at(self.bytes, p.from) == self.bytes.len() - 12
    }

    // Whether the field, the message number and the data set type are there, and the field is a request's.
    fn has_numbers(&self) -> bool
        ensures { result ≡ has_numbers self.now.bytes.now }
    {
        if !has_number(self.places[FIELD])
            || !has_number(self.places[MESSAGE])
            || !has_number(self.places[DATA_SET])
        {
            return false;
        }
        number(self.bytes, self.places[FIELD]) < 0x8000
    }

    // Whether a data set comes with the command.
    fn has_data(&self) -> bool
        ensures { result ≡ has_data self.now.bytes.now }
    {
        number(self.bytes, self.places[DATA_SET]) != 0x0101
    }

    fn known(&self, operation: Operation) -> Command
        ensures { result ≡ known_as self.now.bytes.now operation }
    {
        Command::Known(Request {
            message: number(self.bytes, self.places[MESSAGE]),
            operation,
        })
    }

    fn echo(&self) -> Command
        ensures { result ≡ echo_in self.now.bytes.now }
    {
        if !has_uid(self.bytes, self.places[AFFECTED_CLASS]) {
            return Command::Unreadable;
        }
        self.known(Operation::Echo(Verification {
            class: self.places[AFFECTED_CLASS],
        }))
    }

    fn creation(&self) -> Command
        ensures { result ≡ creation_in self.now.bytes.now }
    {
        if !has_uid(self.bytes, self.places[AFFECTED_CLASS]) {
            return Command::Unreadable;
        }
        self.known(Operation::Create(Creation {
            class: self.places[AFFECTED_CLASS],
            sent: self.places[AFFECTED_INSTANCE],
        }))
    }

    fn target(&self) -> Target
        ensures { result ≡ target_in self.now.bytes.now }
    {
        Target {
            class: self.places[REQUESTED_CLASS],
            instance: self.places[REQUESTED_INSTANCE],
        }
    }

    fn setting(&self) -> Command
        ensures { result ≡ setting_in self.now.bytes.now }
    {
        if !self.has_target() {
            return Command::Unreadable;
        }
        self.known(Operation::Set(self.target()))
    }

    fn action(&self) -> Command
        ensures { result ≡ action_in self.now.bytes.now }
    {
        if !self.has_target() || !has_number(self.places[ACTION_TYPE]) {
            return Command::Unreadable;
        }
        self.known(Operation::Act(Action {
            class: self.places[REQUESTED_CLASS],
            instance: self.places[REQUESTED_INSTANCE],
            kind: number(self.bytes, self.places[ACTION_TYPE]),
        }))
    }

    fn deletion(&self) -> Command
        ensures { result ≡ deletion_in self.now.bytes.now }
    {
        if !self.has_target() {
            return Command::Unreadable;
        }
        self.known(Operation::Delete(self.target()))
    }

    // The request, by its field.
    fn request(&self) -> Command
        ensures { result ≡ request_in self.now.bytes.now }
    {
        let field = number(self.bytes, self.places[FIELD]);
        match field {
            0x0030 => self.echo(),
            0x0140 => self.creation(),
            0x0120 => self.setting(),
            0x0130 => self.action(),
            0x0150 => self.deletion(),
            _ => Command::Unknown {
                message: number(self.bytes, self.places[MESSAGE]),
                field,
            },
        }
    }
}

// What a whole command set says, and where it can be read whether a data set comes with it: beside the command, which the book has.
#[derive(Clone, Copy)]
pub struct Saying {
    pub command: Command,
    pub with_data: bool,
}

fn unreadable() -> Saying
    ensures { result.command ≡ Unreadable }
{
    Saying {
        command: Command::Unreadable,
        with_data: false,
    }
}

// By one walk.
pub fn said(c: &[u8]) -> Saying
    ensures { (result.command ≡ understood c.now) × (readable result.command ≡ true → result.with_data ≡ has_data c.now) }
{
    let Some(places) = gathered(c) else {
        return unreadable();
    };
    let set = CommandSet { bytes: c, places };
    if !set.length_told() || !set.has_numbers() {
        return unreadable();
    }
    Saying {
        command: set.request(),
        with_data: set.has_data(),
    }
}

pub fn understood(c: &[u8]) -> Command
    ensures { result ≡ understood c.now }
{
    said(c).command
}
