// Gateway: the five calls. gateway_c exports them to C.
#![tactic(auto)]

ghost use Rattle.std.specs.Prelude.{◌≡◌};
ghost use Rattle.choice.specs.Rules.{number_by};
ghost use Rattle.rules.specs.Failures.{number_of};
ghost use Rattle.answering.specs.Answered.{number_returned};
ghost use Rattle.runs.specs.CallContracts.{StartMet, OpenMet, FeedMet, CloseMet, TakeMet};

use answering::Fed;
use rules::Refusal;

// The number that a call returns which says no more than whether it was done.
fn number_done(done: Result<(), Refusal>) -> u32
    ensures { result ≡ number_by number_of done }
{
    match done {
        Ok(()) => 0,
        Err(refusal) => u32::from(refusal),
    }
}

// The number that a feed returns.
fn number_fed(fed: Result<Fed, Refusal>) -> u32
    ensures { result ≡ number_returned fed }
{
    match fed {
        Ok(fed) => u32::from(fed),
        Err(refusal) => u32::from(refusal),
    }
}

pub fn gateway_start(records: &mut [u8], root: &[u8], serial: u32, picture: u32) -> u32
    ensures { StartMet records.old root.now serial picture result records.new }
{
    number_done(opening::start(records, root, serial, picture))
}

pub fn gateway_open(records: &mut [u8], message: &[u8], context: u32, syntax: u32) -> u32
    ensures { OpenMet records.old message.now context syntax result records.new }
{
    number_done(opening::open(records, message, context, syntax))
}

pub fn gateway_feed(
    records: &mut [u8],
    message: &mut [u8],
    fragment: &[u8],
    command: &mut [u8],
    data_set: &mut [u8],
    report: &mut [u8],
) -> u32
    ensures { FeedMet (record { records = records.old; message = message.old; command = command.old; data_set = data_set.old; report = report.old }) fragment.now result (record { records = records.new; message = message.new; command = command.new; data_set = data_set.new; report = report.new }) }
{
    number_fed(answering::feed(records, message, fragment, command, data_set, report))
}

pub fn gateway_close(records: &mut [u8]) -> u32
    ensures { CloseMet records.old result records.new }
{
    number_done(opening::close(records))
}

pub fn gateway_take(records: &mut [u8], entry: &mut [u8]) -> u32
    ensures { TakeMet records.old entry.old result records.new entry.new }
{
    number_done(taking::take(records, entry))
}
