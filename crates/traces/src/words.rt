// The words of a call: numbers, and bytes in hexadecimal.
ghost use Rattle.std.specs.Prelude.{◌≡◌, ◌≢◌, ℕ, ◌≤◌, ◌<◌, length, slice_index};

// The first place of a byte from `at` on, else the end.
pub fn find(s: &[u8], at: usize, b: u8) -> usize
    requires { at ≤ length s.now }
    ensures within { (at ≤ result) × (result ≤ length s.now) }
    ensures before { (k : ℕ) → at ≤ k → k < result → slice_index s.now k ≢ b }
    ensures found { result < length s.now → slice_index s.now result ≡ b }
{
    for i in at..s.len() {
        if s[i] == b {
            return i;
        }
    }
    s.len()
}

// Where the word at a place stops.
pub fn word_stop(line: &[u8], at: usize) -> usize
    requires { at ≤ length line.now }
    ensures { (at ≤ result) × (result ≤ length line.now) }
{
    find(line, at, b' ')
}

// Where the word after that at a place begins.
pub fn next_word(line: &[u8], at: usize) -> usize
    requires { at ≤ length line.now }
    ensures { result ≤ length line.now }
{
    let stop = word_stop(line, at);
    if stop < line.len() {
        return stop + 1;
    }
    stop
}

// The value of a digit in lower case. A trace has no other characters in its numbers.
fn digit(c: u8) -> u8
    ensures { result < 16 }
{
    match c {
        b'0'..=b'9' => c - b'0',
        b'a'..=b'f' => c - b'a' + 10,
        _ => 0,
    }
}

// The number at a place. No call takes one of more than 12 digits.
pub fn number(line: &[u8], at: usize) -> u64 {
    let mut n: u64 = 0;
    for c in line.iter().skip(at) {
        if *c == b' ' || 99999999999 < n {
            return n;
        }
        n = 10 * n + u64::from(digit(*c));
    }
    n
}

// The number at a place, cut to 32 bits.
pub fn number32(line: &[u8], at: usize) -> u32 {
    u32::try_from(number(line, at)).unwrap_or(u32::MAX)
}

// Puts the bytes of a word in hexadecimal at the start of a buffer, and answers how many there are. - has none.
pub fn bytes_of(word: &[u8], out: &mut [u8]) -> usize
    ensures { result ≤ length out.new }
{
    let half = word.len() / 2;
    if out.len() < half {
        return 0;
    }
    for i in 0..half {
        out[i] = 16 * digit(word[2 * i]) + digit(word[2 * i + 1]);
    }
    half
}
