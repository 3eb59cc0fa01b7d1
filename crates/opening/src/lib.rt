// Opening: start, open and close.
#![tactic(auto)]

ghost use Rattle.std.specs.Prelude.{◌≡◌, ◌-◌, ◌<◌, ◌≤◌, length, replicate};
ghost use Rattle.choice.specs.Rules.{first_broken, number_by};
ghost use Rattle.octets.specs.Octets.{laid};
ghost use Rattle.fields.specs.Format.{write};
ghost use Rattle.strike.specs.Machine.{idle};
ghost use Rattle.rules.specs.Bounds.{root_limit};
ghost use Rattle.rules.specs.Lists.{filled_to};
ghost use Rattle.rules.specs.Layout.{core_size, input_format};
ghost use Rattle.rules.specs.Calls.{bad_root, bad_number, message_wrong, bad_context, bad_syntax, start_rules, open_rules, started, opened, closed};
ghost use Rattle.rules.specs.Failures.{number_of};
ghost use Rattle.rules.specs.Outcomes.{input_held, written};
ghost use Rattle.records.specs.Places.{core_in};
ghost use Rattle.runs.specs.Host.{start_handed, open_handed};
ghost use Rattle.runs.specs.CallContracts.{StartMet, OpenMet, CloseMet};

use records::{AT_INPUT, AT_OPENED, AT_QUEUE, AT_ROOM, AT_SESSIONS, RECORDS, Record, Records};
use rules::{Core, Numbers, Opened, Refusal};

// The records afterwards.

fn put_zeros(s: &mut [u8], from: usize, end: usize)
    requires { (from ≤ end) × (end ≤ length s.old) }
    ensures { s.new ≡ laid s.old from (replicate (end - from) 0) }
{
    s[from..end].fill(0);
}

// No message half collected.
pub fn put_no_input(records: &mut Records)
    ensures { records.new ≡ write input_format (input_held idle) records.old core_size }
{
    put_zeros(records, AT_INPUT, RECORDS);
}

// Another core with no message half collected.
fn put_core(records: &mut Records, core: &Core)
    ensures { records.new ≡ written (record { core = core.now; input = idle }) records.old }
{
    core.put(records, 0);
    put_no_input(records);
}

// Start.

fn root_bad(root: &[u8]) -> bool
    ensures { result ≡ bad_root root.now }
{
    !uids::is_uid(root) || 40 < root.len()
}

// A number of 32 bits is never past the last.
fn number_bad(n: u32) -> bool
    ensures { result ≡ bad_number n }
{
    n == 0
}

fn start_refusal(root: &[u8], serial: u32, picture: u32) -> Result<(), Refusal>
    ensures { number_by number_of result ≡ first_broken (start_rules (start_handed root.now serial picture)) }
{
    if root_bad(root) {
        return Err(Refusal::BadArgument);
    }
    if number_bad(serial) {
        return Err(Refusal::BadArgument);
    }
    if number_bad(picture) {
        return Err(Refusal::BadArgument);
    }
    Ok(())
}

fn new_numbers(root: &[u8], serial: u32, picture: u32) -> Numbers
    requires { length root.now ≤ 40 }
    ensures { result ≡ record { used = length root.now; root = filled_to root_limit 0 root.now; serial = serial; picture = picture; ticket = 0 } }
{
    let mut text = [0; 40];
    octets::put(&mut text, 0, root);
    Numbers {
        used: root.len() as u8,
        root: text,
        serial: serial as u64,
        picture: picture as u64,
        ticket: 0,
    }
}

// "Start makes fresh records, not open."
fn started(root: &[u8], serial: u32, picture: u32) -> Core
    requires { length root.now ≤ 40 }
    ensures { result ≡ started (start_handed root.now serial picture) }
{
    let numbers = new_numbers(root, serial, picture);
    let session = shelves::no_session();
    let shelf = shelves::no_films();
    let queue = shelves::no_entries();
    let opened = Opened {
        live: 0,
        context: 0,
        syntax: 0,
        room: 0,
    };
    Core {
        numbers,
        sessions: [session],
        shelf,
        queue,
        opened,
    }
}

// The calls stand twice: over the records alone, and over all that is lent. A function that takes the first as a closure is no plainer.
fn start_records(
    records: &mut Records,
    root: &[u8],
    serial: u32,
    picture: u32,
) -> Result<(), Refusal>
    ensures { StartMet records.old root.now serial picture (number_by number_of result) records.new }
{
    start_refusal(root, serial, picture)?;
    put_core(records, &started(root, serial, picture));
    Ok(())
}

pub fn start(records: &mut [u8], root: &[u8], serial: u32, picture: u32) -> Result<(), Refusal>
    ensures { StartMet records.old root.now serial picture (number_by number_of result) records.new }
{
    match records.first_chunk_mut::<RECORDS>() {
        Some(b) => start_records(b, root, serial, picture),
        None => Err(Refusal::Short),
    }
}

// Open.

// "the message buffer is out of limits or, while open, of another length"
pub fn message_wrong(records: &Records, room: usize) -> bool
    ensures { result ≡ message_wrong (core_in records.now) room }
{
    if room < 4096 {
        return true;
    }
    if 16777216 < room {
        return true;
    }
    records[AT_OPENED] != 0 && room != octets::u32_at(records, AT_ROOM)
}

fn context_bad(n: u32) -> bool
    ensures { result ≡ bad_context n }
{
    n % 2 == 0 || 255 < n
}

fn syntax_bad(n: u32) -> bool
    ensures { result ≡ bad_syntax n }
{
    !matches!(n, 1 | 2)
}

fn open_refusal(records: &Records, room: usize, context: u32, syntax: u32) -> Result<(), Refusal>
    ensures { number_by number_of result ≡ first_broken (open_rules (core_in records.now) (open_handed context syntax room)) }
{
    if message_wrong(records, room) {
        return Err(Refusal::Short);
    }
    if context_bad(context) {
        return Err(Refusal::BadArgument);
    }
    if syntax_bad(syntax) {
        return Err(Refusal::BadArgument);
    }
    if records[AT_OPENED] != 0 {
        return Err(Refusal::BadArgument);
    }
    Ok(())
}

fn put_open(records: &mut Records, room: usize, context: u32, syntax: u32)
    requires { (room < 4294967296) × (context < 256) × (syntax < 256) }
    ensures { records.new ≡ written (record { core = opened (core_in records.old) (open_handed context syntax room); input = idle }) records.old }
{
    let fixed = Opened {
        live: 1,
        context: context as u8,
        syntax: syntax as u8,
        room: room as u32,
    };
    fixed.put(records, AT_OPENED);
    put_no_input(records);
}

fn open_records(
    records: &mut Records,
    message: &[u8],
    context: u32,
    syntax: u32,
) -> Result<(), Refusal>
    ensures { OpenMet records.old message.now context syntax (number_by number_of result) records.new }
{
    soundness::refusal(records)?;
    open_refusal(records, message.len(), context, syntax)?;
    put_open(records, message.len(), context, syntax);
    Ok(())
}

pub fn open(records: &mut [u8], message: &[u8], context: u32, syntax: u32) -> Result<(), Refusal>
    ensures { OpenMet records.old message.now context syntax (number_by number_of result) records.new }
{
    match records.first_chunk_mut::<RECORDS>() {
        Some(b) => open_records(b, message, context, syntax),
        None => Err(Refusal::Short),
    }
}

// Close.

// "Close drops session, films, boxes and input; queue and next numbers stay."
pub fn put_closed(records: &mut Records)
    ensures { records.new ≡ written (record { core = closed (core_in records.old); input = idle }) records.old }
{
    put_zeros(records, AT_SESSIONS, AT_QUEUE);
    put_zeros(records, AT_OPENED, RECORDS);
}

fn close_records(records: &mut Records) -> Result<(), Refusal>
    ensures { CloseMet records.old (number_by number_of result) records.new }
{
    soundness::refusal(records)?;
    if records[AT_OPENED] == 0 {
        return Err(Refusal::NotOpen);
    }
    put_closed(records);
    Ok(())
}

pub fn close(records: &mut [u8]) -> Result<(), Refusal>
    ensures { CloseMet records.old (number_by number_of result) records.new }
{
    match records.first_chunk_mut::<RECORDS>() {
        Some(b) => close_records(b),
        None => Err(Refusal::Short),
    }
}
