// Making: the UID of a root and a serial, written, and compared with another.
#![tactic(auto)]

ghost use Rattle.std.specs.Prelude.{◌≡◌, ◌+◌, ◌≤◌, ◌%◌, length};
ghost use Rattle.octets.specs.Octets.{laid, same};
ghost use Rattle.uids.specs.Uids.{decimal, made};

fn digit(n: u32) -> u8
    ensures { result ≡ 48 + n % 10 }
{
    b'0' + (n % 10) as u8
}

// A number in decimal from a place on; answers the place behind it. The tens come first, by a call of itself: ten deep at most.
fn put_decimal(out: &mut [u8], at: usize, n: u32) -> usize
    requires { at + length (decimal n) ≤ length out.old }
    ensures { (out.new ≡ laid out.old at (decimal n)) × (result ≡ at + length (decimal n)) }
{
    if n < 10 {
        out[at] = digit(n);
        return at + 1;
    }
    let last = put_decimal(out, at, n / 10);
    out[last] = digit(n);
    last + 1
}

// The UID of a root and a serial from a place on; answers the place behind it.
pub fn put_made(out: &mut [u8], at: usize, root: &[u8], serial: u32) -> usize
    requires { at + length root.now + 11 ≤ length out.old }
    ensures { (out.new ≡ laid out.old at (made root.now serial)) × (result ≡ at + length (made root.now serial)) }
{
    octets::put(out, at, root);
    let dot = at + root.len();
    out[dot] = b'.';
    put_decimal(out, dot + 1, serial)
}

// Whether a text is a number in decimal: the digits are compared from the last back, and the first must be the text's.
fn is_decimal(s: &[u8], n: u32) -> bool
    ensures { result ≡ same s.now (decimal n) }
{
    let mut rest = n;
    for (i, c) in s.iter().enumerate().rev() {
        if *c != digit(rest) {
            return false;
        }
        if rest < 10 {
            return i == 0;
        }
        rest /= 10;
    }
    false
}

// Whether a UID is the one made of a root and a serial, which is not written for that: digits, dot and root, from the last back.
pub fn is_made(root: &[u8], serial: u32, uid: &[u8]) -> bool
    ensures { result ≡ same uid.now (made root.now serial) }
{
    let dot = root.len();
    dot < uid.len()
        && is_decimal(&uid[dot + 1..], serial)
        && uid[dot] == b'.'
        && octets::same_bytes(&uid[..dot], root)
}
