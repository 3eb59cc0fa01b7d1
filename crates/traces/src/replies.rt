// A reply held to the kept one, piece by piece.
ghost use Rattle.std.specs.Prelude.{◌≡◌, ◌+◌, ◌≤◌, ◌<◌, if◌then◌else◌, nat_lt, length, IfSome};

use octets::{number_at, same_bytes};

// The place after a text that stands at a place.
pub fn after(s: &[u8], at: usize, text: &[u8]) -> Option<usize>
    ensures { IfSome result (λ stop. stop ≤ length s.now) }
{
    if s.len() < at || s.len() - at < text.len() {
        return None;
    }
    let stop = at + text.len();
    if same_bytes(&s[at..stop], text) {
        Some(stop)
    } else {
        None
    }
}

// The character of a digit, in lower case.
fn digit_of(d: u64) -> u8
    requires { d < 16 }
    ensures { result ≡ (if nat_lt d 10 then 48 + d else 87 + d) }
{
    if d < 10 {
        d as u8 + b'0'
    } else {
        d as u8 - 10 + b'a'
    }
}

fn after_digit(s: &[u8], at: usize, d: u64) -> Option<usize>
    requires { d < 16 }
{
    let text = [digit_of(d)];
    after(s, at, &text)
}

fn after_decimal(s: &[u8], at: usize, n: u64) -> Option<usize> {
    if n < 10 {
        return after_digit(s, at, n);
    }
    let before = after_decimal(s, at, n / 10)?;
    after_digit(s, before, n % 10)
}

// A number in hexadecimal, with zeros in front up to so many digits.
fn after_hex(s: &[u8], at: usize, n: u64, width: usize) -> Option<usize> {
    if n < 16 && width < 2 {
        return after_digit(s, at, n);
    }
    let before = after_hex(s, at, n / 16, width.saturating_sub(1))?;
    after_digit(s, before, n % 16)
}

fn after_byte(s: &[u8], at: usize, b: u8) -> Option<usize> {
    after_hex(s, at, u64::from(b), 2)
}

// Bytes in hexadecimal, - for none.
fn after_bytes(s: &[u8], at: usize, bytes: &[u8]) -> Option<usize> {
    if bytes.is_empty() {
        return after(s, at, b"-");
    }
    let mut place = at;
    for b in bytes {
        place = after_byte(s, place, *b)?;
    }
    Some(place)
}

// As many of a buffer's bytes as the report says.
fn after_first(s: &[u8], at: usize, buffer: &[u8], n: usize) -> Option<usize> {
    if buffer.len() < n {
        return None;
    }
    after_bytes(s, at, &buffer[0..n])
}

// The three numbers of a note.
fn after_numbers(s: &[u8], at: usize, report: &[u8; 20]) -> Option<usize> {
    let first = after_decimal(s, at, number_at(report, 8, 4))?;
    let second = after_decimal(s, after(s, first, b" ")?, number_at(report, 12, 4))?;
    after_decimal(s, after(s, second, b" ")?, number_at(report, 16, 4))
}

fn after_note(s: &[u8], at: usize, report: &[u8; 20]) -> Option<usize> {
    match number_at(report, 6, 2) {
        0 => after(s, at, b" none"),
        1 => after_decimal(s, after(s, at, b" queued ")?, number_at(report, 8, 4)),
        2 => after_numbers(s, after(s, at, b" picture ")?, report),
        3 => after_numbers(s, after(s, at, b" stopped ")?, report),
        _ => None,
    }
}

fn after_response(
    reply: &[u8],
    command: &[u8],
    data_set: &[u8],
    report: &[u8; 20],
) -> Option<usize> {
    let begun = after(reply, 0, b"response ")?;
    let status = after_hex(reply, begun, number_at(report, 0, 2), 4)?;
    let sent = after_first(
        reply,
        after(reply, status, b" ")?,
        command,
        octets::u16_at(report, 2),
    )?;
    let shown = after_first(
        reply,
        after(reply, sent, b" ")?,
        data_set,
        octets::u16_at(report, 4),
    )?;
    after_note(reply, shown, report)
}

fn after_entry(reply: &[u8], entry: &[u8]) -> Option<usize> {
    after_bytes(reply, after(reply, 0, b"entry ")?, entry)
}

fn after_refusal(reply: &[u8], n: u32) -> Option<usize> {
    after_decimal(reply, after(reply, 0, b"refused ")?, u64::from(n))
}

// Whether a reply ends at a place, where its text stands.
fn ends(reply: &[u8], place: Option<usize>) -> bool {
    match place {
        Some(stop) => stop == reply.len(),
        None => false,
    }
}

pub fn is_response(reply: &[u8], command: &[u8], data_set: &[u8], report: &[u8; 20]) -> bool {
    ends(reply, after_response(reply, command, data_set, report))
}

pub fn is_entry(reply: &[u8], entry: &[u8]) -> bool {
    ends(reply, after_entry(reply, entry))
}

// Any number returned to C that says all of the answer.
pub fn is_answer(reply: &[u8], n: u32) -> bool {
    match n {
        0 => same_bytes(reply, b"done"),
        16 => same_bytes(reply, b"wait"),
        17 => same_bytes(reply, b"dropped"),
        18 => same_bytes(reply, b"ignored"),
        _ => ends(reply, after_refusal(reply, n)),
    }
}
