// Answering: a fragment fed: collected, and a whole command decided, answered, and its effect written.
#![tactic(auto)]

ghost use Rattle.std.specs.Prelude.{◌≡◌, ◌≤◌, length};
ghost use Rattle.octets.specs.Octets.{laid};
ghost use Rattle.rules.specs.Records.{command_held};
ghost use Rattle.rules.specs.Checks.{plan_of, decided_by, decide_request, result_of, decide};
ghost use Rattle.rules.specs.Outcomes.{report_bytes};
ghost use Rattle.records.specs.Places.{core_in, held_in};
ghost use Rattle.verdicts.specs.Ready.{Ready, ReadyIn, UidsIn};
ghost use Rattle.verdicts.specs.Decided.{Decides};
ghost use Rattle.collecting.specs.Collecting.{Filled};
ghost use Rattle.feeding.specs.Feeding.{unknown_reply};
ghost use Rattle.runs.specs.CallContracts.{FeedMet};
ghost use Rattle.answering.specs.Answered.{settled_by, unknown_result, RoomFor, Leaves, number_fed, number_returned};

use changes::Decision;
use collecting::Answer;
use records::{AT_CONTEXT, RECORDS, Records};
use rules::{Command, Failure, Note, Operation, Refusal, Request};
use strike::Came;

// A known request, by checks 2 to 11.

// Checks 6 to 11, by the operation.
fn planned(b: &Records, c: &[u8], d: &[u8], message: u16, operation: Operation) -> Decision
    requires { ReadyIn b.now × UidsIn c.now operation × (length d.now ≤ 16777216) }
    ensures { Decides (core_in b.now) result (decided_by (core_in b.now) c.now (record { message = message; operation = operation }) (plan_of (core_in b.now) c.now d.now operation)) }
{
    match operation {
        Operation::Echo(_) => verdicts::quiet(shelves::no_name()),
        Operation::Create(creation) => creating::created(b, c, d, message, creation),
        Operation::Set(target) => setting::set(b, c, d, message, target),
        Operation::Act(action) => acting::acted(b, c, message, action),
        Operation::Delete(target) => acting::deleted(b, c, message, target),
    }
}

fn decided(b: &Records, c: &[u8], came: Came, d: &[u8], request: Request) -> Decision
    requires { ReadyIn b.now × UidsIn c.now request.operation × (length d.now ≤ 16777216) }
    ensures { Decides (core_in b.now) result (decide_request (core_in b.now) c.now (record { came = came; bytes = d.now }) request) }
{
    let operation = request.operation;
    match checks::general_broken(c, came, operation) {
        Err(failure) => verdicts::failed(c, request, Note::NoNote, failure),
        Ok(()) => match checks::reading(records::syntax_in(b), came, d) {
            Ok(_) => planned(b, c, d, request.message, operation),
            Err(stop) => verdicts::failed(c, request, Note::StoppedAt(stop), Failure::NotRead),
        },
    }
}

// A whole command.

// A request that is known: decided and answered where its command lies, and then its effect written.
fn known(
    records: &mut Records,
    command: &mut [u8],
    data_set: &mut [u8],
    report: &mut [u8],
    came: Came,
    d: &[u8],
    request: Request,
)
    requires { RoomFor records.old command.old data_set.old report.old × Filled (held_in records.old) × Ready (core_in records.old) × UidsIn (command_held (held_in records.old)) request.operation × (length d.now ≤ 16777216) }
    ensures { Leaves (result_of (core_in records.old) (command_held (held_in records.old)) request (decide_request (core_in records.old) (command_held (held_in records.old)) (record { came = came; bytes = d.now }) request)) records.old records.new command.old command.new data_set.old data_set.new report.old report.new }
{
    let c = collecting::command_held(records);
    let v = decided(records, c, came, d, request);
    feeding::respond(command, data_set, report, records, c, request, v);
    feeding::put_settled(records, v);
}

// Check 1: an unknown field fails.
fn unknown(records: &mut Records, command: &mut [u8], report: &mut [u8], message: u16, field: u16)
    requires { (256 ≤ length command.old) × (20 ≤ length report.old) }
    ensures { (records.new ≡ settled_by (unknown_result message field) records.old) × (command.new ≡ laid command.old 0 (unknown_reply message field).command) × (report.new ≡ laid report.old 0 (report_bytes (unknown_reply message field))) }
{
    feeding::respond_unknown(command, report, message, field);
    feeding::put_idle(records);
}

// A request whose command is whole, in the records.
fn asked(
    records: &mut Records,
    command: &mut [u8],
    data_set: &mut [u8],
    report: &mut [u8],
    came: Came,
    d: &[u8],
)
    requires { RoomFor records.old command.old data_set.old report.old × Filled (held_in records.old) × Ready (core_in records.old) × (length d.now ≤ 16777216) }
    ensures { Leaves (decide (core_in records.old) (command_held (held_in records.old)) (record { came = came; bytes = d.now })) records.old records.new command.old command.new data_set.old data_set.new report.old report.new }
{
    match commands::understood(collecting::command_held(records)) {
        Command::Unreadable => unknown(records, command, report, 0, 0),
        Command::Unknown { message, field } => unknown(records, command, report, message, field),
        Command::Known(request) => known(records, command, data_set, report, came, d, request),
    }
}

// A fragment.

// What a fragment that is not refused came to.
#[derive(Clone, Copy, PartialEq, Eq)]
pub enum Fed {
    Wait,
    Dropped,
    Ignored,
    Response,
}

// The number that the call returns.
impl From<Fed> for u32 {
    ghost from_gives = { λ fed n. n ≡ number_fed fed };

    fn from(fed: Fed) -> u32 {
        match fed {
            Fed::Wait => 16,
            Fed::Dropped => 17,
            Fed::Ignored => 18,
            Fed::Response => 19,
        }
    }
}

fn feed_records(
    records: &mut Records,
    message: &mut [u8],
    fragment: &[u8],
    command: &mut [u8],
    data_set: &mut [u8],
    report: &mut [u8],
) -> Result<Fed, Refusal>
    ensures { FeedMet (record { records = records.old; message = message.old; command = command.old; data_set = data_set.old; report = report.old }) fragment.now (number_returned result) (record { records = records.new; message = message.new; command = command.new; data_set = data_set.new; report = report.new }) }
{
    soundness::refusal(records)?;
    feeding::feed_refused(
        records,
        message.len(),
        command.len(),
        data_set.len(),
        report.len(),
    )?;
    if collecting::header_wrong(records[AT_CONTEXT], fragment) {
        opening::put_closed(records);
        return Err(Refusal::BadFragment);
    }
    match collecting::collect(records, message, fragment) {
        Answer::Ignored => Ok(Fed::Ignored),
        Answer::Wait => Ok(Fed::Wait),
        Answer::Dropped => Ok(Fed::Dropped),
        Answer::Asks(came) => {
            let d = octets::front(message, collecting::got(records));
            asked(records, command, data_set, report, came, d);
            Ok(Fed::Response)
        }
    }
}

// A wrong header also ends the association.
pub fn feed(
    records: &mut [u8],
    message: &mut [u8],
    fragment: &[u8],
    command: &mut [u8],
    data_set: &mut [u8],
    report: &mut [u8],
) -> Result<Fed, Refusal>
    ensures { FeedMet (record { records = records.old; message = message.old; command = command.old; data_set = data_set.old; report = report.old }) fragment.now (number_returned result) (record { records = records.new; message = message.new; command = command.new; data_set = data_set.new; report = report.new }) }
{
    match records.first_chunk_mut::<RECORDS>() {
        Some(b) => feed_records(b, message, fragment, command, data_set, report),
        None => Err(Refusal::Short),
    }
}
