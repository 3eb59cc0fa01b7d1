// Sessions: the film session, tested by the records' rules where it stands.
#![tactic(auto)]

ghost use Rattle.std.specs.Prelude.{◌≡◌, ◌+◌, ◌≤◌, length};
ghost use Rattle.octets.specs.Octets.{same};
ghost use Rattle.rules.specs.Layout.{numbers_size, session_size, session_format};
ghost use Rattle.rules.specs.Values.{trimmed};
ghost use Rattle.rules.specs.Sound.{between, session_sound, session_place_sound};
ghost use Rattle.records.specs.Places.{numbers_in};
ghost use Rattle.sessions.specs.Labels.{label_sound};

use records::{NAME, Records, SESSION};
use rules::TEXT;

pub fn copies_allowed(copies: u8) -> bool
    ensures { result ≡ between 1 99 copies }
{
    (1..=99).contains(&copies)
}

// Whether no space stands before or behind a text.
fn is_trimmed(s: &[u8]) -> bool
    ensures { result ≡ same (trimmed s.now) s.now }
{
    octets::same_bytes(texts::trimmed(s), s)
}

// A label, its length before it.
fn label_sound(b: &[u8], at: usize) -> bool
    requires { at + 65 ≤ length b.now }
    ensures { result ≡ label_sound b.now at }
{
    let used = usize::from(b[at]);
    if TEXT < used {
        return false;
    }
    let text = at + 1;
    let stop = text + used;
    texts::label_allowed(&b[text..stop])
        && is_trimmed(&b[text..stop])
        && names::zeros_in(b, stop, text + TEXT)
}

fn session_sound(b: &Records, p: usize) -> bool
    requires { p + session_size ≤ length b.now }
    ensures { result ≡ session_sound (numbers_in b.now) (session_format.read b.now p) }
{
    let name = p + 1;
    if !names::name_sound(b, name) {
        return false;
    }
    let copies = name + NAME;
    if !copies_allowed(b[copies]) {
        return false;
    }
    let priority = copies + 1;
    if 2 < b[priority] {
        return false;
    }
    let medium = priority + 1;
    if 2 < b[medium] {
        return false;
    }
    let destination = medium + 1;
    if 1 < b[destination] {
        return false;
    }
    label_sound(b, destination + 1)
}

// A place for a session, live or blank.
pub fn session_place_sound(b: &Records, p: usize) -> bool
    requires { p + session_size ≤ length b.now }
    ensures { result ≡ session_place_sound (numbers_in b.now) (session_format.read b.now p) }
{
    let live = b[p];
    if 1 < live {
        return false;
    }
    if live == 0 {
        return names::zeros_in(b, p + 1, p + SESSION);
    }
    session_sound(b, p)
}
