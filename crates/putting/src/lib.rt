// Putting: headers and elements written, a value padded to even length.
#![tactic(auto)]

ghost use Rattle.std.specs.Prelude.{◌≡◌, ◌+◌, ◌≤◌, ◌%◌, length};
ghost use Rattle.octets.specs.Octets.{octets, laid};
ghost use Rattle.tags.specs.Table.{US, UL};
ghost use Rattle.writing.specs.Bytes.{padding, tag_octets, vr_octets, plain, header, item_header, element};

use headers::Syntax;
use octets::{put, put_number};
use tags::{UI, UL, US, form_of};

// Headers.

fn put_tag(out: &mut [u8], at: usize, tag: usize)
    requires { at + 4 ≤ length out.old }
    ensures { out.new ≡ laid out.old at (tag_octets tag) }
{
    put_number(out, at, 2, (tag / 65536) as u64);
    put_number(out, at + 2, 2, (tag % 65536) as u64);
}

// What follows the tag in explicit VR.
fn put_vr(out: &mut [u8], at: usize, vr: usize, size: usize) -> usize
    requires { at + length (vr_octets vr size) ≤ length out.old }
    ensures { (out.new ≡ laid out.old at (vr_octets vr size)) × (result ≡ at + length (vr_octets vr size)) }
{
    put_number(out, at, 2, vr as u64);
    if form_of(vr) == Some(12) {
        put_number(out, at + 2, 2, 0);
        put_number(out, at + 4, 4, size as u64);
        return at + 8;
    }
    put_number(out, at + 2, 2, size as u64);
    at + 4
}

// A tag and a 32-bit length: the place after it.
fn put_plain(out: &mut [u8], at: usize, tag: usize, size: usize) -> usize
    requires { at + 8 ≤ length out.old }
    ensures { (out.new ≡ laid out.old at (plain tag size)) × (result ≡ at + length (plain tag size)) }
{
    put_tag(out, at, tag);
    put_number(out, at + 4, 4, size as u64);
    at + 8
}

// The header of an element: the place after it.
pub fn put_header(
    out: &mut [u8],
    at: usize,
    syntax: Syntax,
    tag: usize,
    vr: usize,
    size: usize,
) -> usize
    requires { at + length (header syntax tag vr size) ≤ length out.old }
    ensures { (out.new ≡ laid out.old at (header syntax tag vr size)) × (result ≡ at + length (header syntax tag vr size)) }
{
    match syntax {
        Syntax::Implicit => put_plain(out, at, tag, size),
        Syntax::Explicit => {
            put_tag(out, at, tag);
            put_vr(out, at + 4, vr, size)
        }
    }
}

// The header of an item: the place after it.
pub fn put_item(out: &mut [u8], at: usize, size: usize) -> usize
    requires { at + 8 ≤ length out.old }
    ensures { (out.new ≡ laid out.old at (item_header size)) × (result ≡ at + length (item_header size)) }
{
    put_plain(out, at, 0xFFFE_E000, size)
}

// Elements.

// The byte that makes the length of a value even.
fn pad(vr: usize) -> u64
    ensures { result ≡ padding vr }
{
    if vr == UI as usize {
        return 0x00;
    }
    0x20
}

// An element with a value, padded to even length: the place after it.
pub fn put_element(
    out: &mut [u8],
    at: usize,
    syntax: Syntax,
    tag: usize,
    vr: usize,
    bytes: &[u8],
) -> usize
    requires { at + length (element syntax tag vr bytes.now) ≤ length out.old }
    ensures { (out.new ≡ laid out.old at (element syntax tag vr bytes.now)) × (result ≡ at + length (element syntax tag vr bytes.now)) }
{
    let n = bytes.len();
    let from = put_header(out, at, syntax, tag, vr, n + n % 2);
    put(out, from, bytes);
    put_number(out, from + n, n % 2, pad(vr));
    from + n + n % 2
}

// An element whose value is a number of an even number of bytes.
fn put_number_element(
    out: &mut [u8],
    at: usize,
    syntax: Syntax,
    tag: usize,
    vr: usize,
    width: usize,
    x: u64,
) -> usize
    requires { (at + length (element syntax tag vr (octets width x)) ≤ length out.old) × (width % 2 ≡ 0) }
    ensures { (out.new ≡ laid out.old at (element syntax tag vr (octets width x))) × (result ≡ at + length (element syntax tag vr (octets width x))) }
{
    let from = put_header(out, at, syntax, tag, vr, width);
    put_number(out, from, width, x);
    from + width
}

// One line for each VR: a generic one would be put_number_element.
pub fn put_us(out: &mut [u8], at: usize, syntax: Syntax, tag: usize, x: u16) -> usize
    requires { at + length (element syntax tag US (octets 2 x)) ≤ length out.old }
    ensures { (out.new ≡ laid out.old at (element syntax tag US (octets 2 x))) × (result ≡ at + length (element syntax tag US (octets 2 x))) }
{
    put_number_element(out, at, syntax, tag, US as usize, 2, x as u64)
}

pub fn put_ul(out: &mut [u8], at: usize, syntax: Syntax, tag: usize, x: u32) -> usize
    requires { at + length (element syntax tag UL (octets 4 x)) ≤ length out.old }
    ensures { (out.new ≡ laid out.old at (element syntax tag UL (octets 4 x))) × (result ≡ at + length (element syntax tag UL (octets 4 x))) }
{
    put_number_element(out, at, syntax, tag, UL as usize, 4, x as u64)
}
