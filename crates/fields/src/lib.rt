// Fields: how values stand in bytes. Most of it is definitions and their laws; the code is what reads and writes the numbers
// and the byte arrays of records.
#![tactic(auto)]

ghost use Rattle.std.specs.Prelude.{◌≡◌, ◌+◌, ◌≤◌, ◌<◌, length};
ghost use Rattle.fields.specs.Format.{write, byte, number, array};

pub fn put_byte(s: &mut [u8], at: usize, x: u8)
    requires { at < length s.old }
    ensures { s.new ≡ write byte x s.old at }
{
    s[at] = x;
}

pub fn u16_at(s: &[u8], at: usize) -> u16
    requires { at + 2 ≤ length s.now }
    ensures { result ≡ (number 2).read s.now at }
{
    octets::number_at(s, at, 2) as u16
}

pub fn u32_at(s: &[u8], at: usize) -> u32
    requires { at + 4 ≤ length s.now }
    ensures { result ≡ (number 4).read s.now at }
{
    octets::number_at(s, at, 4) as u32
}

pub fn put_number(s: &mut [u8], at: usize, width: usize, x: u64)
    requires { at + width ≤ length s.old }
    ensures { s.new ≡ write (number width) x s.old at }
{
    octets::put_number(s, at, width, x);
}

// The N bytes at a place.
pub fn bytes_at<const N: usize>(s: &[u8], at: usize) -> [u8; N]
    requires { at + N ≤ length s.now }
    ensures { result ≡ (array N byte).read s.now at }
{
    let mut a = [0u8; N];
    let end = at + N;
    a.copy_from_slice(&s[at..end]);
    a
}

pub fn put_bytes<const N: usize>(s: &mut [u8], at: usize, a: &[u8; N])
    requires { at + N ≤ length s.old }
    ensures { s.new ≡ write (array N byte) a.now s.old at }
{
    octets::put(s, at, a);
}
