// Collecting: a fragment's header, and what a fragment comes to, held to the book.
#![tactic(auto)]

ghost use Rattle.std.specs.Prelude.{◌≡◌, ◌+◌, ◌≤◌, ◌<◌, ◌++◌, leb, length, take};
ghost use Rattle.strike.specs.Machine.{header_wrong, collect, laid_by, reads, stores, overflows, dataset};
ghost use Rattle.rules.specs.Calls.{reading};
ghost use Rattle.rules.specs.Records.{command_held};
ghost use Rattle.rules.specs.Outcomes.{held, input_in};
ghost use Rattle.records.specs.Places.{held_in};
ghost use Rattle.collecting.specs.Collecting.{Filled, Met, stored_in, waits_with, state_of, number_of, gathers_to, stores_to, command_next, data_next, command_before, bare, holds, data_answer, collected_of, of_command, is_last, fragment_of, gathered_in};

use records::{AT_COMMAND, AT_GOT, AT_INPUT, AT_USED, Records};
use strike::{Came, Reading};

// "One message is collected through idle, in command, skipping command, in data and skipping data."
#[derive(Clone, Copy)]
pub enum Collecting {
    Idle,
    InCommand,
    SkippingCommand,
    InData,
    SkippingData,
}

// What a fragment comes to; a request is asked for with what came as its data set.
#[derive(Clone, Copy)]
pub enum Answer {
    Ignored,
    Wait,
    Dropped,
    Asks(Came),
}

impl Collecting {
    // The next state, after a command fragment that fits its buffer or not; a whole command is in data until it is read.
    fn after_command(self, fits: bool, last: bool) -> Collecting
        ensures { result ≡ command_next self fits last }
    {
        match self {
            Collecting::Idle => gathers_to(fits, last),
            Collecting::InCommand => gathers_to(fits, last),
            Collecting::SkippingCommand => gathers_to(false, last),
            Collecting::InData => gathers_to(fits, last),
            Collecting::SkippingData => gathers_to(fits, last),
        }
    }

    // The next state, after a data fragment.
    fn after_data(self, fits: bool, last: bool) -> Collecting
        ensures { result ≡ data_next self fits last }
    {
        match self {
            Collecting::Idle => Collecting::Idle,
            Collecting::InCommand => Collecting::Idle,
            Collecting::SkippingCommand => Collecting::Idle,
            Collecting::InData => stores_to(fits, last),
            Collecting::SkippingData => stores_to(false, last),
        }
    }
}

// The state that a number of the records stands for.
impl From<u8> for Collecting {
    ghost from_gives = { λ phase state. state ≡ state_of phase };

    #[tactic(auto, unfolding(crate::specs::Collecting::state_of))]
    fn from(phase: u8) -> Collecting {
        match phase {
            1 => Collecting::InCommand,
            2 => Collecting::SkippingCommand,
            3 => Collecting::InData,
            4 => Collecting::SkippingData,
            _ => Collecting::Idle,
        }
    }
}

// The number that the records have for it.
impl From<Collecting> for u8 {
    ghost from_gives = { λ state phase. phase ≡ number_of state };

    fn from(state: Collecting) -> u8 {
        match state {
            Collecting::Idle => 0,
            Collecting::InCommand => 1,
            Collecting::SkippingCommand => 2,
            Collecting::InData => 3,
            Collecting::SkippingData => 4,
        }
    }
}

fn gathers_to(fits: bool, last: bool) -> Collecting
    ensures { result ≡ gathers_to fits last }
{
    if fits {
        if last {
            Collecting::InData
        } else {
            Collecting::InCommand
        }
    } else if last {
        Collecting::Idle
    } else {
        Collecting::SkippingCommand
    }
}

fn stores_to(fits: bool, last: bool) -> Collecting
    ensures { result ≡ stores_to fits last }
{
    if last {
        Collecting::Idle
    } else if fits {
        Collecting::InData
    } else {
        Collecting::SkippingData
    }
}

// The input, where it lies in the records.

fn phase(b: &Records) -> u8
    ensures { result ≡ (held_in b.now).phase }
{
    b[AT_INPUT]
}

fn used(b: &Records) -> usize
    ensures { (result ≡ (held_in b.now).used) × (result < 65536) }
{
    octets::u16_at(b, AT_USED)
}

// How many bytes of data the message buffer has.
pub fn got(b: &Records) -> usize
    ensures { (result ≡ (held_in b.now).got) × (result < 4294967296) }
{
    octets::u32_at(b, AT_GOT)
}

// The command so far, or all of it.
pub fn command_held(b: &Records) -> &[u8]
    requires { Filled (held_in b.now) }
    ensures { result.now ≡ command_held (held_in b.now) }
{
    let stop = AT_COMMAND + used(b);
    &b[AT_COMMAND..stop]
}

// Nothing is held.
fn nothing(b: &mut Records, answer: Answer, state: Collecting) -> Answer
    ensures { Met (bare answer state) result b.old b.new }
{
    opening::put_no_input(b);
    fields::put_byte(b, AT_INPUT, u8::from(state));
    answer
}

// The command stays: of a message whose command is whole, or that goes on.
fn holding(b: &mut Records, answer: Answer, state: Collecting, got: usize) -> Answer
    requires { Filled (held_in b.old) × (got < 4294967296) }
    ensures { Met (holds answer state (held_in b.old) got) result b.old b.new }
{
    fields::put_byte(b, AT_INPUT, u8::from(state));
    fields::put_number(b, AT_GOT, 4, got as u64);
    answer
}

// In command, told by its number as the book tells it; a new message starts with no command.
fn begun(b: &mut Records) -> Answer
    requires { Filled (held_in b.old) }
    ensures { Met (waits_with (held 1 (command_before (held_in b.old)) 0)) result b.old b.new }
{
    if phase(b) == 1 {
        return holding(b, Answer::Wait, Collecting::InCommand, 0);
    }
    nothing(b, Answer::Wait, Collecting::InCommand)
}

// How much of a command a fragment is appended to: a new message starts with none.
fn used_before(b: &Records) -> usize
    requires { Filled (held_in b.now) }
    ensures { (result ≡ length (command_before (held_in b.now))) × (result ≤ 1024) }
{
    if phase(b) == 1 { used(b) } else { 0 }
}

// The command so far, in command, with a fragment's bytes behind its own.
fn gathered(b: &mut Records, bytes: &[u8]) -> Answer
    requires { Filled (held_in b.old) × (length (command_before (held_in b.old)) + length bytes.now ≤ 1024) }
    ensures { Met (waits_with (held 1 (command_before (held_in b.old) ++ bytes.now) 0)) result b.old b.new }
{
    let used = used_before(b);
    let answer = begun(b);
    octets::put(b, AT_COMMAND + used, bytes);
    fields::put_number(b, AT_USED, 2, (used + bytes.len()) as u64);
    answer
}

// What a whole command says of the message.
fn read_as(c: &[u8]) -> Reading
    ensures { result ≡ reading c.now }
{
    let said = commands::said(c);
    if !soundness::is_readable(said.command) {
        return Reading::NotReadable;
    }
    if said.with_data {
        Reading::WithData
    } else {
        Reading::Alone
    }
}

// "an unreadable command is dropped, idle. Without data set the request is done at once; else in data."
fn read(b: &mut Records) -> Answer
    requires { Filled (held_in b.old) }
    ensures { Met (collected_of (reads (reading (command_held (held_in b.old))) (command_held (held_in b.old)))) result b.old b.new }
{
    let reads = read_as(command_held(b));
    match reads {
        Reading::NotReadable => nothing(b, Answer::Dropped, Collecting::Idle),
        Reading::Alone => holding(b, Answer::Asks(Came::Absent), Collecting::Idle, 0),
        Reading::WithData => holding(b, Answer::Wait, Collecting::InData, 0),
    }
}

// The next state by n bytes of a command; they are measured before any is copied.
fn command_next(b: &Records, n: usize, last: bool) -> Collecting
    requires { Filled (held_in b.now) }
    ensures { result ≡ command_next (state_of (held_in b.now).phase) (leb (length (command_before (held_in b.now)) + n) 1024) last }
{
    let state = Collecting::from(phase(b));
    if 1024 - used_before(b) < n {
        return state.after_command(false, last);
    }
    state.after_command(true, last)
}

// A command fragment: what it comes to, by the next state; none leads to skipping data.
fn by_command(b: &mut Records, bytes: &[u8], last: bool) -> Answer
    requires { Filled (held_in b.old) }
    ensures { Met (collected_of (gathered_in (state_of (held_in b.old).phase) (command_before (held_in b.old) ++ bytes.now) last)) result b.old b.new }
{
    let next = command_next(b, bytes.len(), last);
    match next {
        Collecting::Idle => nothing(b, Answer::Dropped, Collecting::Idle),
        Collecting::InCommand => gathered(b, bytes),
        Collecting::SkippingCommand => nothing(b, Answer::Wait, Collecting::SkippingCommand),
        Collecting::InData => {
            gathered(b, bytes);
            read(b)
        }
        Collecting::SkippingData => nothing(b, Answer::Dropped, Collecting::Idle),
    }
}

fn data_answer(last: bool, came: Came) -> Answer
    ensures { result ≡ data_answer last came }
{
    if last {
        Answer::Asks(came)
    } else {
        Answer::Wait
    }
}

// "all is skipped to the last one, then answered"
fn overflowed(b: &mut Records, last: bool) -> Answer
    requires { Filled (held_in b.old) }
    ensures { Met (collected_of (overflows (command_held (held_in b.old)) last)) result b.old b.new }
{
    let next = Collecting::SkippingData.after_data(false, last);
    holding(b, data_answer(last, Came::TooLong), next, 0)
}

// A data fragment in data: its bytes are measured before any is copied.
fn stored(b: &mut Records, message: &mut [u8], bytes: &[u8], last: bool) -> Answer
    requires { Filled (held_in b.old) × ((held_in b.old).got ≤ length message.old) × (length message.old < 4294967296) }
    ensures { Met (collected_of (stores (length message.old) (command_held (held_in b.old)) (take (held_in b.old).got message.old ++ bytes.now) last)) result b.old b.new × (message.new ≡ stored_in (held_in b.old).got message.old bytes.now) }
{
    let before = got(b);
    if message.len() - before < bytes.len() {
        return overflowed(b, last);
    }
    octets::put(message, before, bytes);
    let next = Collecting::InData.after_data(true, last);
    holding(
        b,
        data_answer(last, Came::Whole),
        next,
        before + bytes.len(),
    )
}

// A data fragment: what it comes to, by the state that it is met in.
fn by_data(b: &mut Records, message: &mut [u8], bytes: &[u8], last: bool) -> Answer
    requires { Filled (held_in b.old) × ((held_in b.old).got ≤ length message.old) × (length message.old < 4294967296) }
    ensures { Met (collected_of (collect reading (length message.old) (input_in (held_in b.old) message.old) (dataset last bytes.now))) result b.old b.new × (message.new ≡ laid_by (length message.old) (input_in (held_in b.old) message.old) (dataset last bytes.now) message.old) }
{
    let state = Collecting::from(phase(b));
    match state {
        Collecting::Idle => nothing(b, Answer::Ignored, Collecting::Idle),
        Collecting::InCommand => nothing(b, Answer::Dropped, Collecting::Idle),
        Collecting::SkippingCommand => nothing(b, Answer::Dropped, Collecting::Idle),
        Collecting::InData => stored(b, message, bytes, last),
        Collecting::SkippingData => overflowed(b, last),
    }
}

// Whether the header is wrong; n is compared with what is left behind it, so that nothing is added to it.
pub fn header_wrong(context: u8, fragment: &[u8]) -> bool
    ensures { result ≡ header_wrong context fragment.now }
{
    let given = fragment.len();
    if given < 6 {
        return true;
    }
    let n = octets::big_number_at(fragment, 0, 4) as usize;
    if n < 2 {
        return true;
    }
    if n != given - 4 {
        return true;
    }
    if fragment[4] != context {
        return true;
    }
    fragment[5] / 4 != 0
}

fn is_command(fragment: &[u8]) -> bool
    requires { 6 ≤ length fragment.now }
    ensures { result ≡ of_command fragment.now }
{
    fragment[5] % 2 == 1
}

fn is_last(fragment: &[u8]) -> bool
    requires { 6 ≤ length fragment.now }
    ensures { result ≡ is_last fragment.now }
{
    fragment[5] / 2 % 2 == 1
}

// A fragment whose header is not wrong: what it comes to, what is held of it in the records, and its data in the message buffer.
pub fn collect(b: &mut Records, message: &mut [u8], fragment: &[u8]) -> Answer
    requires { Filled (held_in b.old) × ((held_in b.old).got ≤ length message.old) × (length message.old < 4294967296) × (6 ≤ length fragment.now) }
    ensures { Met (collected_of (collect reading (length message.old) (input_in (held_in b.old) message.old) (fragment_of fragment.now))) result b.old b.new × (message.new ≡ laid_by (length message.old) (input_in (held_in b.old) message.old) (fragment_of fragment.now) message.old) }
{
    let last = is_last(fragment);
    if is_command(fragment) {
        by_command(b, &fragment[6..], last)
    } else {
        by_data(b, message, &fragment[6..], last)
    }
}
