// Names: names and numbers, tested by the records' rules where they stand.
#![tactic(auto)]

ghost use Rattle.std.specs.Prelude.{◌≡◌, ◌+◌, ◌-◌, ◌≤◌, ◌<◌, length, take, drop};
ghost use Rattle.octets.specs.Octets.{number_at};
ghost use Rattle.rules.specs.Layout.{name_size, numbers_size, name_format};
ghost use Rattle.rules.specs.Records.{root_of};
ghost use Rattle.rules.specs.Bounds.{none_left};
ghost use Rattle.rules.specs.Sound.{between, zeros, sent_sound, name_sound, numbers_sound};
ghost use Rattle.records.specs.Places.{numbers_in};

use records::{AT_PICTURE, AT_SERIAL, NAME, Records, SERIAL};
use rules::{ROOT, TEXT};

// The loop has no other way out, so that it is compiled to many bytes at once.
fn all_zero(s: &[u8]) -> bool
    ensures { result ≡ zeros s.now }
{
    let mut clear = true;
    for b in s {
        if *b != 0 {
            clear = false;
        }
    }
    clear
}

// Whether the bytes from a place up to another are zeros.
pub fn zeros_in(b: &[u8], from: usize, stop: usize) -> bool
    requires { (from ≤ stop) × (stop ≤ length b.now) }
    ensures { result ≡ zeros (take (stop - from) (drop from b.now)) }
{
    all_zero(&b[from..stop])
}

// A next number, of five bytes: without a loop, as octets::u32_at.
pub fn next_at(b: &[u8], at: usize) -> u64
    requires { at + 5 ≤ length b.now }
    ensures { (result ≡ number_at 5 b.now at) × (result < 1099511627776) }
{
    let high = u64::from(b[at + 4]);
    octets::u32_at(b, at) as u64 + 4294967296 * high
}

// A sent UID.
fn sent_sound(b: &[u8], p: usize) -> bool
    requires { (numbers_size ≤ length b.now) × (p + name_size ≤ length b.now) }
    ensures { result ≡ sent_sound (numbers_in b.now) (name_format.read b.now p) }
{
    let used = usize::from(b[p + SERIAL]);
    if !(1..=TEXT).contains(&used) {
        return false;
    }
    let text = p + SERIAL + 1;
    let uid = &b[text..text + used];
    uids::is_uid(uid)
        && !uids::begins_with(records::root_in(b), uid)
        && zeros_in(b, text + used, text + TEXT)
}

// A made UID has a serial below the next, and no characters.
pub fn name_sound(b: &[u8], p: usize) -> bool
    requires { (numbers_size ≤ length b.now) × (p + name_size ≤ length b.now) }
    ensures { result ≡ name_sound (numbers_in b.now) (name_format.read b.now p) }
{
    let made = octets::u32_at(b, p) as u64;
    if made == 0 {
        sent_sound(b, p)
    } else {
        made < next_at(b, AT_SERIAL) && zeros_in(b, p + SERIAL, p + NAME)
    }
}

// Whether a next number is one: 1 to 4294967296, which says that none is left.
fn next_sound(b: &[u8], at: usize) -> bool
    requires { at + 5 ≤ length b.now }
    ensures { result ≡ between 1 none_left (number_at 5 b.now at) }
{
    (1..=4294967296).contains(&next_at(b, at))
}

pub fn numbers_sound(b: &Records) -> bool
    ensures { result ≡ numbers_sound (numbers_in b.now) }
{
    let used = usize::from(b[0]);
    if !(1..=ROOT).contains(&used) {
        return false;
    }
    if !uids::is_uid(records::root_in(b)) {
        return false;
    }
    if !zeros_in(b, 1 + used, 1 + ROOT) {
        return false;
    }
    next_sound(b, AT_SERIAL) && next_sound(b, AT_PICTURE)
}
