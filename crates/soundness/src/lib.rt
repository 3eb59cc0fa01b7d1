// Soundness: the rules that the records keep, tested where they stand, and what every call but start begins with.
#![tactic(auto)]

ghost use Rattle.std.specs.Prelude.{◌≡◌, [], ◌∷◌, ◌≤◌, eqb, length};
ghost use Rattle.choice.specs.Pick.{pick};
ghost use Rattle.choice.specs.Rules.{first_broken, number_by};
ghost use Rattle.octets.specs.Octets.{number_at};
ghost use Rattle.strike.specs.Machine.{command_limit};
ghost use Rattle.rules.specs.Records.{command_held};
ghost use Rattle.rules.specs.Commands.{understood};
ghost use Rattle.rules.specs.Sound.{zeros, open_sound, opened_sound, readable, phase_sound, input_sound, core_sound, sound};
ghost use Rattle.rules.specs.Layout.{unpack};
ghost use Rattle.rules.specs.Failures.{number_of};
ghost use Rattle.rules.specs.Outcomes.{records_rules};
ghost use Rattle.records.specs.Places.{opened_in, core_in, held_in};
ghost use Rattle.soundness.specs.Held.{used_place};

use records::{
    AT_COMMAND, AT_CONTEXT, AT_GOT, AT_INPUT, AT_OPENED, AT_ROOM, AT_SESSIONS, AT_SYNTAX, AT_USED,
    RECORDS, Records,
};
use rules::{COMMAND, Command, Refusal};

fn open_sound(b: &Records) -> bool
    ensures { result ≡ open_sound (opened_in b.now) }
{
    if b[AT_CONTEXT] % 2 != 1 {
        return false;
    }
    let syntax = b[AT_SYNTAX];
    if syntax < 1 {
        return false;
    }
    if 2 < syntax {
        return false;
    }
    let room = octets::u32_at(b, AT_ROOM);
    if room < 4096 {
        return false;
    }
    if 16777216 < room {
        return false;
    }
    true
}

fn opened_sound(b: &Records) -> bool
    ensures { result ≡ opened_sound (opened_in b.now) }
{
    let live = b[AT_OPENED];
    if 1 < live {
        return false;
    }
    if live != 0 {
        return open_sound(b);
    }
    if b[AT_CONTEXT] != 0 {
        return false;
    }
    if b[AT_SYNTAX] != 0 {
        return false;
    }
    octets::u32_at(b, AT_ROOM) == 0
}

// Whether a command can be read.
pub fn is_readable(command: Command) -> bool
    ensures { result ≡ readable command }
{
    !matches!(command, Command::Unreadable)
}

// Whether the command that is held is readable.
fn held_readable(b: &Records) -> bool
    requires { number_at 2 b.now used_place ≤ command_limit }
    ensures { result ≡ readable (understood (command_held (held_in b.now))) }
{
    let stop = AT_COMMAND + octets::u16_at(b, AT_USED);
    is_readable(commands::understood(&b[AT_COMMAND..stop]))
}

// Whether there are no bytes of a command, and none of data.
fn holds_nothing(used: usize, got: usize) -> bool
    ensures { result ≡ zeros (used ∷ got ∷ []) }
{
    used == 0 && got == 0
}

// The collecting state: in command, in data, skipping data, or one that holds nothing.
fn phase_sound(b: &Records) -> bool
    requires { number_at 2 b.now used_place ≤ command_limit }
    ensures { result ≡ phase_sound (opened_in b.now).room (held_in b.now) }
{
    let phase = b[AT_INPUT];
    let got = octets::u32_at(b, AT_GOT);
    if phase == 1 {
        return got == 0;
    }
    if phase == 3 {
        if octets::u32_at(b, AT_ROOM) < got {
            return false;
        }
        return held_readable(b);
    }
    if phase == 4 {
        if got != 0 {
            return false;
        }
        return held_readable(b);
    }
    holds_nothing(octets::u16_at(b, AT_USED), got)
}

// The last collecting state there may be: idle while not open.
fn last_phase(live: u8) -> u8
    ensures { result ≡ pick (eqb live 0) 0 4 }
{
    if live == 0 { 0 } else { 4 }
}

fn input_sound(b: &Records) -> bool
    ensures { result ≡ input_sound (opened_in b.now) (held_in b.now) }
{
    if last_phase(b[AT_OPENED]) < b[AT_INPUT] {
        return false;
    }
    let used = octets::u16_at(b, AT_USED);
    if COMMAND < used {
        return false;
    }
    if !names::zeros_in(b, AT_COMMAND + used, AT_COMMAND + COMMAND) {
        return false;
    }
    phase_sound(b)
}

fn core_sound(b: &Records) -> bool
    ensures { result ≡ core_sound (core_in b.now) }
{
    if !names::numbers_sound(b) {
        return false;
    }
    if !sessions::session_place_sound(b, AT_SESSIONS) {
        return false;
    }
    if !films::shelf_sound(b) {
        return false;
    }
    if !entries::queue_sound(b) {
        return false;
    }
    if !distinct::uids_apart(b) {
        return false;
    }
    opened_sound(b)
}

// The records' rules.
fn state_sound(b: &Records) -> bool
    ensures { result ≡ sound (unpack b.now) }
{
    core_sound(b) && input_sound(b)
}

// What a call is refused for by its records.
pub fn refusal(bytes: &[u8]) -> Result<(), Refusal>
    ensures { number_by number_of result ≡ first_broken (records_rules bytes.now) }
{
    match bytes.first_chunk() {
        Some(records) if state_sound(records) => Ok(()),
        Some(_) => Err(Refusal::Broken),
        None => Err(Refusal::Short),
    }
}
