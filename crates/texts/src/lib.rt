// Texts: spaces taken off; counts and labels as the book reads them.
#![tactic(auto)]

ghost use Rattle.std.specs.Prelude.{◌≡◌, ◌≤◌, ◌<◌, length, take, drop};
ghost use Rattle.rules.specs.Lists.{every};
ghost use Rattle.rules.specs.Values.{without_leading, without_trailing, trimmed, blank, without_plus, count_in, label_byte, label_allowed};
ghost use Rattle.texts.specs.Counted.{counted};

// How many spaces stand in front.
fn leading(s: &[u8]) -> usize
    ensures { (without_leading s.now ≡ drop result s.now) × (result ≤ length s.now) }
{
    s.iter().position(|c| *c != b' ').unwrap_or(s.len())
}

// How many bytes are left before the spaces at the end.
fn kept(s: &[u8]) -> usize
    ensures { (without_trailing s.now ≡ take result s.now) × (result ≤ length s.now) }
{
    s.iter().rposition(|c| *c != b' ').map_or(0, |i| i + 1)
}

fn without_leading(s: &[u8]) -> &[u8]
    ensures { result.now ≡ without_leading s.now }
{
    &s[leading(s)..]
}

// An ST value: trailing spaces do not count.
pub fn without_trailing(s: &[u8]) -> &[u8]
    ensures { result.now ≡ without_trailing s.now }
{
    &s[..kept(s)]
}

// A CS, IS or LO value: leading and trailing spaces do not count.
pub fn trimmed(s: &[u8]) -> &[u8]
    ensures { result.now ≡ trimmed s.now }
{
    without_trailing(without_leading(s))
}

pub fn is_blank(s: &[u8]) -> bool
    ensures { result ≡ blank s.now }
{
    trimmed(s).is_empty()
}

fn without_plus(s: &[u8]) -> &[u8]
    ensures { result.now ≡ without_plus s.now }
{
    match s {
        [b'+', rest @ ..] => rest,
        _ => s,
    }
}

// The number that digits give, 0 where they are none or give more than `most`.
fn digits_count(s: &[u8], most: usize) -> usize
    requires { most < 4294967296 }
    ensures { (result ≡ counted most 0 s.now) × (result ≤ most) }
{
    let mut v = 0;
    for c in s {
        if !c.is_ascii_digit() {
            return 0;
        }
        v = 10 * v + usize::from(*c - b'0');
        if most < v {
            return 0;
        }
    }
    v
}

// The number that an IS gives, 0 where it gives none from 1 to `most`: as a record's byte holds it.
pub fn count_in(s: &[u8], most: usize) -> usize
    requires { most < 4294967296 }
    ensures { (result ≡ count_in most s.now) × (result ≤ most) }
{
    let v = trimmed(s);
    if 12 < v.len() {
        return 0;
    }
    let u = without_plus(v);
    if u.is_empty() {
        return 0;
    }
    digits_count(u, most)
}

fn label_bytes(s: &[u8]) -> bool
    ensures { result ≡ every label_byte s.now }
{
    s.iter().all(|c| matches!(c, 0x20..=0x7E) && *c != b'\\')
}

// Whether an LO is a label.
pub fn label_allowed(s: &[u8]) -> bool
    ensures { result ≡ label_allowed s.now }
{
    let v = trimmed(s);
    v.len() <= 64 && label_bytes(v)
}
