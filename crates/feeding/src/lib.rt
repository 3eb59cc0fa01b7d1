// Feeding: what a feed is refused for, the response that it writes, and the records afterwards.
#![tactic(auto)]

ghost use Rattle.std.specs.Prelude.{true, ◌≡◌, ◌≤◌, length, take, Some};
ghost use Rattle.choice.specs.Rules.{first_broken, number_by};
ghost use Rattle.octets.specs.Octets.{laid};
ghost use Rattle.strike.specs.Machine.{idle};
ghost use Rattle.rules.specs.Records.{uid_of, instance_of, syntax_in};
ghost use Rattle.rules.specs.Responses.{ContentsFit, data_set_of};
ghost use Rattle.rules.specs.Sound.{core_sound};
ghost use Rattle.rules.specs.Checks.{action_of, field_of, reply_to};
ghost use Rattle.rules.specs.Calls.{feed_rules};
ghost use Rattle.rules.specs.Failures.{number_of};
ghost use Rattle.rules.specs.Outcomes.{input_held, report_bytes};
ghost use Rattle.records.specs.Places.{core_in};
ghost use Rattle.responses.specs.Parts.{action_by, given, data_shown};
ghost use Rattle.changes.specs.Changes.{changed, verdict_of, Tidy, Fits};
ghost use Rattle.verdicts.specs.Ready.{UidsIn};
ghost use Rattle.feeding.specs.Feeding.{command_bytes, numbers_of, report_of, unknown_reply, input_written, settled};

use changes::Decision;
use records::{AT_OPENED, Record, Records};
use responses::{NoteNumbers, Says, put_film_boxes, put_report, put_response};
use rules::{Name, NewBoxes, Note, Numbers, Operation, Refusal, Request};

// The response.

// The first characters of a text, as many as are used: how many there are.
fn put_text(out: &mut [u8], text: [u8; 64], used: usize) -> usize
    requires { 64 ≤ length out.old }
    ensures { (out.new ≡ laid out.old 0 (take used text)) × (result ≡ length (take used text)) × (length text ≡ 64) }
{
    let uid = octets::front(&text, used);
    octets::put(out, 0, uid);
    uid.len()
}

// The UID of a name, which is empty where there is none: how many characters it has.
fn put_uid(out: &mut [u8], n: Numbers, name: Name) -> usize
    requires { (64 ≤ length out.old) × (n.used ≤ 40) }
    ensures { (out.new ≡ laid out.old 0 (uid_of n name)) × (result ≡ length (uid_of n name)) × (result ≤ 64) × (given (uid_of n name) ≡ instance_of n name) }
{
    let serial = name.made;
    if serial.0 == 0 {
        let text = name.text;
        return put_text(out, text, name.used as usize);
    }
    let root = n.root;
    making::put_made(out, 0, octets::front(&root, n.used as usize), serial.0)
}

// The created film's data set: how many bytes it has.
fn put_new_boxes(data_set: &mut [u8], b: &Records, boxes: NewBoxes) -> usize
    requires { (8192 ≤ length data_set.old) × ((core_in b.now).numbers.used ≤ 40) × ContentsFit (Some boxes) }
    ensures { (data_set.new ≡ laid data_set.old 0 (data_set_of (core_in b.now) (Some boxes))) × (result ≡ length (data_set_of (core_in b.now) (Some boxes))) }
{
    let numbers = Numbers::read_at(b, 0);
    let root = numbers.root;
    put_film_boxes(
        data_set,
        records::syntax_in(b),
        octets::front(&root, numbers.used as usize),
        boxes.first,
        boxes.count as usize,
    )
}

// The answer's data set: how many bytes it has.
fn put_data(data_set: &mut [u8], b: &Records, contents: Option<NewBoxes>) -> usize
    requires { (8192 ≤ length data_set.old) × ((core_in b.now).numbers.used ≤ 40) × ContentsFit contents }
    ensures { (data_set.new ≡ laid data_set.old 0 (data_set_of (core_in b.now) contents)) × (result ≡ length (data_set_of (core_in b.now) contents)) }
{
    match contents {
        None => 0,
        Some(boxes) => put_new_boxes(data_set, b, boxes),
    }
}

fn field_of(operation: Operation) -> u16
    ensures { result ≡ field_of operation }
{
    match operation {
        Operation::Echo(_) => 0x0030,
        Operation::Create(_) => 0x0140,
        Operation::Set(_) => 0x0120,
        Operation::Act(_) => 0x0130,
        Operation::Delete(_) => 0x0150,
    }
}

// Only N-ACTION has an action type.
fn action_of(operation: Operation) -> Option<u16>
    ensures { action_by result ≡ action_of operation }
{
    match operation {
        Operation::Act(action) => Some(action.kind),
        _ => None,
    }
}

// A response's command set: how many bytes it has.
fn put_command(
    command: &mut [u8],
    c: &[u8],
    request: Request,
    with_data: bool,
    status: u16,
    instance: &[u8],
) -> usize
    requires { (256 ≤ length command.old) × UidsIn c.now request.operation × (length instance.now ≤ 64) }
    ensures { (command.new ≡ laid command.old 0 (command_bytes c.now request (given instance.now) status (data_shown with_data))) × (result ≡ length (command_bytes c.now request (given instance.now) status (data_shown with_data))) }
{
    let operation = request.operation;
    let says = Says {
        class: instances::uid_at(c, instances::class_part(operation)),
        field: field_of(operation),
        message: request.message,
        instance,
        action: action_of(operation),
    };
    put_response(command, says, with_data, status)
}

// None, how many films were queued, a picture, or where the reading stopped.
fn numbers_of(note: Note) -> NoteNumbers
    ensures { result ≡ numbers_of note }
{
    match note {
        Note::NoNote => NoteNumbers {
            kind: 0,
            first: 0,
            second: 0,
            third: 0,
        },
        Note::FilmsQueued(films) => NoteNumbers {
            kind: 1,
            first: films as usize,
            second: 0,
            third: 0,
        },
        Note::PictureAt {
            number,
            place,
            length,
        } => NoteNumbers {
            kind: 2,
            first: number as usize,
            second: place as usize,
            third: length as usize,
        },
        Note::StoppedAt(stop) => NoteNumbers {
            kind: 3,
            first: stop.number,
            second: stop.place,
            third: stop.depth,
        },
    }
}

// The report with a note.
fn put_note(report: &mut [u8], status: u16, command: usize, size: usize, note: Note)
    requires { 20 ≤ length report.old }
    ensures { report.new ≡ laid report.old 0 (report_of status command size note) }
{
    put_report(report, status, command, size, numbers_of(note));
}

// The response to a request that was decided over these records.
pub fn respond(
    command: &mut [u8],
    data_set: &mut [u8],
    report: &mut [u8],
    b: &Records,
    c: &[u8],
    request: Request,
    v: Decision,
)
    requires { (256 ≤ length command.old) × (8192 ≤ length data_set.old) × (20 ≤ length report.old) × (core_sound (core_in b.now) ≡ true) × UidsIn c.now request.operation × ContentsFit v.contents }
    ensures { (command.new ≡ laid command.old 0 (reply_to (core_in b.now) c.now request (verdict_of (core_in b.now) v)).command) × (data_set.new ≡ laid data_set.old 0 (reply_to (core_in b.now) c.now request (verdict_of (core_in b.now) v)).data_set) × (report.new ≡ laid report.old 0 (report_bytes (reply_to (core_in b.now) c.now request (verdict_of (core_in b.now) v)))) }
{
    let contents = v.contents;
    let size = put_data(data_set, b, contents);
    let mut uid = [0u8; 64];
    let numbers = Numbers::read_at(b, 0);
    let instance = v.instance;
    let n = put_uid(&mut uid, numbers, instance);
    let stop = put_command(
        command,
        c,
        request,
        0 < size,
        v.status,
        octets::front(&uid, n),
    );
    let note = v.note;
    put_note(report, v.status, stop, size, note);
}

// The response to an unknown field: no class, instance or action.
pub fn respond_unknown(command: &mut [u8], report: &mut [u8], message: u16, field: u16)
    requires { (256 ≤ length command.old) × (20 ≤ length report.old) }
    ensures { (command.new ≡ laid command.old 0 (unknown_reply message field).command) × (report.new ≡ laid report.old 0 (report_bytes (unknown_reply message field))) }
{
    let says = Says {
        class: b"",
        field,
        message,
        instance: b"",
        action: None,
    };
    let stop = put_response(command, says, false, 0x0211);
    put_note(report, 0x0211, stop, 0, Note::NoNote);
}

// The records afterwards.

// The same core with no message half collected.
pub fn put_idle(records: &mut Records)
    ensures { records.new ≡ input_written (input_held idle) records.old }
{
    opening::put_no_input(records);
}

// The records after a decision: what was done is kept, a failure leaves the core.
pub fn put_settled(records: &mut Records, v: Decision)
    requires { Tidy (core_in records.old) × Fits (core_in records.old) v.change }
    ensures { records.new ≡ settled v.done (changed (core_in records.old) v.change) records.old }
{
    if v.done {
        let change = v.change;
        changes::put_change(records, change);
        opening::put_no_input(records);
    } else {
        put_idle(records);
    }
}

// The refusals.

// What a feed is refused for by what open fixed and the lengths of the buffers.
pub fn feed_refused(
    records: &Records,
    message: usize,
    command: usize,
    data_set: usize,
    report: usize,
) -> Result<(), Refusal>
    ensures { number_by number_of result ≡ first_broken (feed_rules (core_in records.now) (record { message = message; command = command; data_set = data_set; report = report })) }
{
    if opening::message_wrong(records, message) {
        return Err(Refusal::Short);
    }
    if command < 256 {
        return Err(Refusal::Short);
    }
    if data_set < 8192 {
        return Err(Refusal::Short);
    }
    if report < 20 {
        return Err(Refusal::Short);
    }
    if records[AT_OPENED] == 0 {
        return Err(Refusal::NotOpen);
    }
    Ok(())
}
