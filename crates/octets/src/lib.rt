// Octets: numbers of any width in a slice of bytes, its first bytes, comparing two parts, and laying bytes into a slice.
#![tactic(auto)]

ghost use Rattle.std.specs.Prelude.{◌≡◌, ◌+◌, ◌≤◌, ◌<◌, ◌^◌, ◌%◌, length, take};
ghost use Rattle.octets.specs.Octets.{number_at, big_number_at, octets, laid, same};

// The number of `width` bytes at a place, little endian.
pub fn number_at(s: &[u8], at: usize, width: usize) -> u64
    requires { (width ≤ 8) × (at + width ≤ length s.now) }
    ensures { (result ≡ number_at width s.now at) × (result < 256 ^ width) }
{
    let mut v: u64 = 0;
    for b in s[at..at + width].iter().rev() {
        v = u64::from(*b) + 256 * v;
    }
    v
}

// The same, big endian, by a loop of its own: one for both would take the bytes as an iterator, which is no plainer.
pub fn big_number_at(s: &[u8], at: usize, width: usize) -> u64
    requires { (width ≤ 8) × (at + width ≤ length s.now) }
    ensures { (result ≡ big_number_at width s.now at) × (result < 256 ^ width) }
{
    let mut v: u64 = 0;
    for b in &s[at..at + width] {
        v = 256 * v + u64::from(*b);
    }
    v
}

// Two and four bytes, without a loop and from the first on: of that the compiler makes one load.
pub fn u16_at(s: &[u8], at: usize) -> usize
    requires { at + 2 ≤ length s.now }
    ensures { (result ≡ number_at 2 s.now at) × (result < 65536) }
{
    usize::from(s[at]) + 256 * usize::from(s[at + 1])
}

pub fn u32_at(s: &[u8], at: usize) -> usize
    requires { at + 4 ≤ length s.now }
    ensures { (result ≡ number_at 4 s.now at) × (result < 4294967296) }
{
    let second = at + 1;
    let third = second + 1;
    let fourth = third + 1;
    usize::from(s[at])
        + 256 * usize::from(s[second])
        + 65536 * usize::from(s[third])
        + 16777216 * usize::from(s[fourth])
}

// A number in `width` bytes from a place on, little endian.
pub fn put_number(s: &mut [u8], at: usize, width: usize, x: u64)
    requires { at + width ≤ length s.old }
    ensures { s.new ≡ laid s.old at (octets width x) }
{
    let mut v = x;
    for b in s[at..at + width].iter_mut() {
        *b = (v % 256) as u8;
        v /= 256;
    }
}

// A slice's bytes from a place on.
pub fn put(s: &mut [u8], at: usize, bytes: &[u8])
    requires { at + length bytes.now ≤ length s.old }
    ensures { s.new ≡ laid s.old at bytes.now }
{
    s[at..at + bytes.len()].copy_from_slice(bytes);
}

// The first n bytes, or all where there are fewer.
pub fn front(s: &[u8], n: usize) -> &[u8]
    ensures { result.now ≡ take n s.now }
{
    &s[..n.min(s.len())]
}

// Whether two slices hold the same bytes: lengths first, then from the last byte back, for long UIDs differ at their end.
pub fn same_bytes(s: &[u8], t: &[u8]) -> bool
    ensures { result ≡ same s.now t.now }
{
    s.len() == t.len() && s.iter().rev().zip(t.iter().rev()).all(|(a, b)| a == b)
}
