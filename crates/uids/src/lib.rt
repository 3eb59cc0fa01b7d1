// Unique identifiers: whether a slice holds one, its padding, and its root.
#![tactic(auto)]

ghost use Rattle.std.specs.Prelude.{◌≡◌, ◌≤◌, length};
ghost use Rattle.uids.specs.Uids.{digits, component, is_uid, unpadded, begins_with};

fn all_digits(s: &[u8]) -> bool
    ensures { result ≡ digits s.now }
{
    s.iter().all(|c| c.is_ascii_digit())
}

fn is_component(s: &[u8]) -> bool
    ensures { result ≡ component s.now }
{
    !s.is_empty() && all_digits(s) && (s.len() == 1 || s[0] != b'0')
}

// Whether a slice is a UID, without padding.
pub fn is_uid(s: &[u8]) -> bool
    ensures { result ≡ is_uid s.now }
{
    if 64 < s.len() {
        return false;
    }
    // where the component at i began
    let mut from = 0;
    for (i, c) in s.iter().enumerate() {
        if *c == b'.' {
            if !is_component(&s[from..i]) {
                return false;
            }
            from = i + 1;
        }
    }
    is_component(&s[from..])
}

// How many bytes of a UI value are left without its padding.
pub fn unpadded_length(s: &[u8]) -> usize
    ensures { (result ≡ length (unpadded s.now)) × (result ≤ length s.now) }
{
    match s.last() {
        None => 0,
        Some(0) => s.len() - 1,
        Some(_) => s.len(),
    }
}

// A UI value without its padding.
pub fn unpadded(v: &[u8]) -> &[u8]
    ensures { result.now ≡ unpadded v.now }
{
    &v[..unpadded_length(v)]
}

// Whether a UID begins with a root and a dot.
pub fn begins_with(root: &[u8], uid: &[u8]) -> bool
    ensures { result ≡ begins_with root.now uid.now }
{
    let n = root.len();
    n < uid.len() && octets::same_bytes(root, &uid[..n]) && uid[n] == b'.'
}
