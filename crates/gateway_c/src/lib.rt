// The five calls, for C to link: each is the library's, with its clause.
#![tactic(auto)]

ghost use Rattle.runs.specs.CallContracts.{StartMet, OpenMet, FeedMet, CloseMet, TakeMet};

#[unsafe(no_mangle)]
pub extern "C" fn gateway_start(records: &mut [u8], root: &[u8], serial: u32, picture: u32) -> u32
    ensures { StartMet records.old root.now serial picture result records.new }
{
    gateway::gateway_start(records, root, serial, picture)
}

#[unsafe(no_mangle)]
pub extern "C" fn gateway_open(records: &mut [u8], message: &[u8], context: u32, syntax: u32) -> u32
    ensures { OpenMet records.old message.now context syntax result records.new }
{
    gateway::gateway_open(records, message, context, syntax)
}

#[unsafe(no_mangle)]
pub extern "C" fn gateway_feed(
    records: &mut [u8],
    message: &mut [u8],
    fragment: &[u8],
    command: &mut [u8],
    data_set: &mut [u8],
    report: &mut [u8],
) -> u32
    ensures { FeedMet (record { records = records.old; message = message.old; command = command.old; data_set = data_set.old; report = report.old }) fragment.now result (record { records = records.new; message = message.new; command = command.new; data_set = data_set.new; report = report.new }) }
{
    gateway::gateway_feed(records, message, fragment, command, data_set, report)
}

#[unsafe(no_mangle)]
pub extern "C" fn gateway_close(records: &mut [u8]) -> u32
    ensures { CloseMet records.old result records.new }
{
    gateway::gateway_close(records)
}

#[unsafe(no_mangle)]
pub extern "C" fn gateway_take(records: &mut [u8], entry: &mut [u8]) -> u32
    ensures { TakeMet records.old entry.old result records.new entry.new }
{
    gateway::gateway_take(records, entry)
}
