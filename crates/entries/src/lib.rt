// Entries: the queue and its entries, tested by the records' rules where they stand.
#![tactic(auto)]

ghost use Rattle.std.specs.Prelude.{◌≡◌, ◌+◌, ◌*◌, ◌<◌, ◌≤◌, ltb, length};
ghost use Rattle.fields.specs.Format.{array};
ghost use Rattle.rules.specs.Bounds.{most_boxes};
ghost use Rattle.rules.specs.Lists.{every};
ghost use Rattle.rules.specs.Layout.{picture_size, entry_size, records_size, picture_format, entry_format};
ghost use Rattle.rules.specs.Sound.{queue_sound, entry_sound};
ghost use Rattle.records.specs.Places.{numbers_in, queue_in};
ghost use Rattle.entries.specs.Entries.{entry_place, entries_in};

use records::{AT_ENTRIES, AT_OPENED, AT_PICTURE, AT_QUEUE, ENTRY, PICTURE, PICTURES, Records};
use rules::BOXES;

fn picture_below(b: &[u8], p: usize, next: u64) -> bool
    requires { p + picture_size ≤ length b.now }
    ensures { result ≡ ltb (picture_format.read b.now p).0 next }
{
    (octets::u32_at(b, p) as u64) < next
}

// The loop has no other way out, as in names::zeros_in.
fn pictures_below(b: &[u8], p: usize, next: u64) -> bool
    requires { p + most_boxes * picture_size ≤ length b.now }
    ensures { result ≡ every (λ x. ltb x.0 next) ((array most_boxes picture_format).read b.now p) }
{
    let mut below = true;
    for i in 0..BOXES {
        if !picture_below(b, p + i * PICTURE, next) {
            below = false;
        }
    }
    below
}

fn entry_sound(b: &Records, p: usize, next: u64) -> bool
    requires { (p + entry_size ≤ length b.now) × (next ≡ (numbers_in b.now).picture) }
    ensures { result ≡ entry_sound (numbers_in b.now) (entry_format.read b.now p) }
{
    if !pictures_below(b, p, next) {
        return false;
    }
    let p1 = p + PICTURES + 2;
    let p2 = p1 + 1;
    sessions::copies_allowed(b[p1]) && names::name_sound(b, p2)
}

// Where an entry stands.
fn entry_place(i: usize) -> usize
    requires { i < 16 }
    ensures { (result ≡ entry_place i) × (result + entry_size ≤ records_size) }
{
    AT_ENTRIES + i * ENTRY
}

fn entries_sound(b: &Records, n: usize) -> bool
    requires { n ≤ 16 }
    ensures { result ≡ every (entry_sound (numbers_in b.now)) (entries_in b.now n) }
{
    let picture = names::next_at(b, AT_PICTURE);
    (0..n).all(|i| entry_sound(b, entry_place(i), picture))
}

pub fn queue_sound(b: &Records) -> bool
    ensures { result ≡ queue_sound (numbers_in b.now) (queue_in b.now) }
{
    let count = usize::from(b[AT_QUEUE]);
    if 16 < count {
        return false;
    }
    entries_sound(b, count) && names::zeros_in(b, AT_ENTRIES + count * ENTRY, AT_OPENED)
}
