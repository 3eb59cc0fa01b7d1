// Taking: the oldest entry of the queue, from where the records lie.
#![tactic(auto)]

ghost use Rattle.std.specs.Prelude.{◌≡◌, ◌+◌, ◌*◌, ◌≤◌, length, take, drop};
ghost use Rattle.choice.specs.Rules.{first_broken, number_by};
ghost use Rattle.octets.specs.Octets.{laid};
ghost use Rattle.uids.specs.Uids.{made};
ghost use Rattle.rules.specs.Bounds.{entry_room, most_entries};
ghost use Rattle.rules.specs.Lists.{filled_to};
ghost use Rattle.rules.specs.Layout.{entry_size, name_format, entry_format};
ghost use Rattle.rules.specs.Records.{uid_of, entries_of, queued, with_queue};
ghost use Rattle.rules.specs.Failures.{number_of};
ghost use Rattle.rules.specs.Outcomes.{core_written};
ghost use Rattle.rules.specs.Calls.{take_rules, entry_bytes};
ghost use Rattle.records.specs.Places.{numbers_in, queue_in, core_in};
ghost use Rattle.runs.specs.CallContracts.{TakeMet};
ghost use Rattle.taking.specs.Oldest.{entries_place, film_place};

use records::{
    AT_ENTRIES, AT_QUEUE, ENTRY, RECORDS, Records, SERIAL, TAKEN, TAKEN_COPIES, TAKEN_UID,
};
use rules::{ENTRIES, Refusal};

// Where the oldest entry's copies and film stand; pictures and ticket before them are taken as they stand.
const AT_COPIES: usize = AT_ENTRIES + TAKEN_COPIES;

const AT_FILM: usize = AT_COPIES + 1;

const AT_TEXT: usize = AT_FILM + SERIAL + 1;

// The bytes of the entries behind the oldest, and where the last of all stands.
const BEHIND: usize = (ENTRIES - 1) * ENTRY;

const AT_LAST: usize = AT_ENTRIES + BEHIND;

fn take_refusal(records: &Records, room: usize) -> Result<(), Refusal>
    requires { queued (entries_of (queue_in records.now)) ≡ queue_in records.now }
    ensures { number_by number_of result ≡ first_broken (take_rules (core_in records.now) room) }
{
    if room < TAKEN {
        return Err(Refusal::Short);
    }
    if records[AT_QUEUE] == 0 {
        return Err(Refusal::QueueEmpty);
    }
    Ok(())
}

// A sent UID, zero-filled.
fn sent_filled(uid: &[u8]) -> [u8; 64]
    requires { length uid.now ≤ 64 }
    ensures { result ≡ filled_to 64 0 uid.now }
{
    let mut filled = [0; 64];
    octets::put(&mut filled, 0, uid);
    filled
}

// A made UID, zero-filled.
fn made_filled(root: &[u8], serial: u32) -> [u8; 64]
    requires { length root.now ≤ 40 }
    ensures { result ≡ filled_to 64 0 (made root.now serial) }
{
    let mut filled = [0; 64];
    making::put_made(&mut filled, 0, root, serial);
    filled
}

// The UID of the oldest entry's film, zero-filled.
fn uid_filled(records: &Records) -> [u8; 64]
    requires { ((numbers_in records.now).used ≤ 40) × ((name_format.read records.now film_place).used ≤ 64) }
    ensures { result ≡ filled_to 64 0 (uid_of (numbers_in records.now) (name_format.read records.now film_place)) }
{
    let made = octets::u32_at(records, AT_FILM);
    if made == 0 {
        let start = AT_TEXT;
        let end = start + records[AT_TEXT - 1] as usize;
        return sent_filled(&records[start..end]);
    }
    let start = 1;
    let end = start + records[0] as usize;
    made_filled(&records[start..end], made as u32)
}

// "36 pictures of 4, ticket and copies of 2, little endian, the UID zero-filled to 64"
fn put_oldest(out: &mut [u8], records: &Records)
    requires { (entry_room ≤ length out.old) × ((numbers_in records.now).used ≤ 40) × ((name_format.read records.now film_place).used ≤ 64) }
    ensures { out.new ≡ laid out.old 0 (entry_bytes (numbers_in records.now) (entry_format.read records.now entries_place)) }
{
    let start = AT_ENTRIES;
    let end = AT_COPIES;
    octets::put(out, 0, &records[start..end]);
    octets::put_number(out, TAKEN_COPIES, 2, records[end] as u64);
    let uid = uid_filled(records);
    octets::put(out, TAKEN_UID, &uid);
}

// The entries behind the oldest, each a place further down.
fn move_down(records: &mut Records)
    ensures { records.new ≡ laid records.old entries_place (take (15 * entry_size) (drop (entries_place + entry_size) records.old)) }
{
    records.copy_within(AT_ENTRIES + ENTRY..AT_ENTRIES + ENTRY + BEHIND, AT_ENTRIES);
}

// "Room of taken entries is used again."
fn drop_oldest(records: &mut Records)
    requires { (queued (entries_of (queue_in records.old)) ≡ queue_in records.old) × (1 ≤ (queue_in records.old).count) × ((queue_in records.old).count ≤ most_entries) }
    ensures { records.new ≡ core_written (with_queue (drop 1 (entries_of (core_in records.old).queue)) (core_in records.old)) records.old }
{
    let count = records[AT_QUEUE];
    fields::put_byte(records, AT_QUEUE, count - 1);
    move_down(records);
    let blank = [0; ENTRY];
    octets::put(records, AT_LAST, &blank);
}

fn take_records(records: &mut Records, entry: &mut [u8]) -> Result<(), Refusal>
    ensures { TakeMet records.old entry.old (number_by number_of result) records.new entry.new }
{
    soundness::refusal(records)?;
    take_refusal(records, entry.len())?;
    put_oldest(entry, records);
    drop_oldest(records);
    Ok(())
}

pub fn take(records: &mut [u8], entry: &mut [u8]) -> Result<(), Refusal>
    ensures { TakeMet records.old entry.old (number_by number_of result) records.new entry.new }
{
    match records.first_chunk_mut::<RECORDS>() {
        Some(b) => take_records(b, entry),
        None => Err(Refusal::Short),
    }
}
