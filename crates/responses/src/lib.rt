// Responses, the created film's data set and the report, written into lent buffers.
#![tactic(auto)]

ghost use Rattle.std.specs.Prelude.{map, ◌≡◌, ◌+◌, ◌*◌, ◌≤◌, length};
ghost use Rattle.octets.specs.Octets.{octets, laid};
ghost use Rattle.uids.specs.Uids.{made};
ghost use Rattle.tags.specs.Table.{SQ};
ghost use Rattle.headers.specs.declared.Syntax.TheVariants.{Implicit};
ghost use Rattle.writing.specs.Bytes.{header_size, written};
ghost use Rattle.rules.specs.Lists.{from};
ghost use Rattle.rules.specs.Responses.{data_set_type, response_tree, film_tree};
ghost use Rattle.responses.specs.Parts.{data_shown, says_by, number_bytes, uid_bytes, action_bytes, said_first, said_then, box_tree, box_bytes, boxes_bytes, report_by};

use headers::Syntax;
use making::put_made;
use octets::put_number;
use putting::{put_element, put_header, put_item, put_ul, put_us};
use tags::{SQ, UI};

// What a response says; an empty class or instance is left out, and so is no action type. Empty stands for none, as in the records.
#[derive(Clone, Copy)]
pub struct Says<'a> {
    pub class: &'a [u8],
    pub field: u16,
    pub message: u16,
    pub instance: &'a [u8],
    pub action: Option<u16>,
}

const GROUP_LENGTH: usize = 0x0000_0000;

const CLASS: usize = 0x0000_0002;

const FIELD: usize = 0x0000_0100;

const MESSAGE: usize = 0x0000_0120;

const DATA_SET_TYPE: usize = 0x0000_0800;

const STATUS: usize = 0x0000_0900;

const INSTANCE: usize = 0x0000_1000;

const ACTION: usize = 0x0000_1008;

const REFERENCED_CLASS: usize = 0x0008_1150;

const REFERENCED_INSTANCE: usize = 0x0008_1155;

const BOX_SEQUENCE: usize = 0x2010_0510;

// A number of two bytes in a command set: the place after it.
fn put_short(out: &mut [u8], at: usize, tag: usize, x: u16) -> usize
    requires { at + 10 ≤ length out.old }
    ensures { (out.new ≡ laid out.old at (number_bytes tag x)) × (result ≡ at + 10) }
{
    put_us(out, at, Syntax::Implicit, tag, x)
}

// A UID in a command set, an empty one left out: the place after it.
fn put_uid(out: &mut [u8], at: usize, tag: usize, uid: &[u8]) -> usize
    requires { (at + 72 ≤ length out.old) × (length uid.now ≤ 64) }
    ensures { (out.new ≡ laid out.old at (uid_bytes tag uid.now)) × (result ≡ at + length (uid_bytes tag uid.now)) × (result ≤ at + 72) }
{
    if uid.len() == 0 {
        return at;
    }
    put_element(out, at, Syntax::Implicit, tag, UI as usize, uid)
}

// The action type, where there is one: the place after it.
fn put_action(out: &mut [u8], at: usize, action: Option<u16>) -> usize
    requires { at + 10 ≤ length out.old }
    ensures { (out.new ≡ laid out.old at (action_bytes action)) × (result ≡ at + length (action_bytes action)) }
{
    match action {
        Some(kind) => put_short(out, at, ACTION, kind),
        None => at,
    }
}

// "field plus 8000H", in two bytes
fn response_field(field: u16) -> u16
    ensures { octets 2 result ≡ octets 2 (field + 0x8000) }
{
    ((field as u32 + 0x8000) % 65536) as u16
}

// "0101H none, 0001H with data"
fn data_set_type(with_data: bool) -> u16
    ensures { result ≡ data_set_type (data_shown with_data) }
{
    if with_data { 0x0001 } else { 0x0101 }
}

// Class, field and message number, behind the group length: the place after them.
fn put_said_first(out: &mut [u8], class: &[u8], field: u16, message: u16) -> usize
    requires { (256 ≤ length out.old) × (length class.now ≤ 64) }
    ensures { (out.new ≡ laid out.old 12 (said_first class.now field message)) × (result ≡ 12 + length (said_first class.now field message)) × (result ≤ 104) }
{
    let p = put_uid(out, 12, CLASS, class);
    let q = put_short(out, p, FIELD, response_field(field));
    put_short(out, q, MESSAGE, message)
}

// Data set type, status, instance and action type from a place on: the place after them.
fn put_said_then(
    out: &mut [u8],
    at: usize,
    with_data: bool,
    status: u16,
    instance: &[u8],
    action: Option<u16>,
) -> usize
    requires { (at + 102 ≤ length out.old) × (length instance.now ≤ 64) }
    ensures { (out.new ≡ laid out.old at (said_then with_data status instance.now action)) × (result ≡ at + length (said_then with_data status instance.now action)) × (result ≤ at + 102) }
{
    let p = put_short(out, at, DATA_SET_TYPE, data_set_type(with_data));
    let q = put_short(out, p, STATUS, status);
    let r = put_uid(out, q, INSTANCE, instance);
    put_action(out, r, action)
}

// A response's command set. The group length goes in last, since it counts what follows it.
pub fn put_response(out: &mut [u8], says: Says, with_data: bool, status: u16) -> usize
    requires { (256 ≤ length out.old) × (length says.class.now ≤ 64) × (length says.instance.now ≤ 64) }
    ensures { (out.new ≡ laid out.old 0 (written Implicit (response_tree (says_by says.entry.class.now says.entry.field says.entry.message says.entry.instance.now says.entry.action) status (data_shown with_data)))) × (result ≡ length (written Implicit (response_tree (says_by says.entry.class.now says.entry.field says.entry.message says.entry.instance.now says.entry.action) status (data_shown with_data)))) }
{
    let p = put_said_first(out, says.class, says.field, says.message);
    let stop = put_said_then(out, p, with_data, status, says.instance, says.action);
    put_ul(out, 0, Syntax::Implicit, GROUP_LENGTH, (stop - 12) as u32);
    stop
}

// An item's list for the image box of a serial, from a place on: the place after it.
fn put_box_list(out: &mut [u8], at: usize, syntax: Syntax, root: &[u8], serial: u32) -> usize
    requires { (at + 90 ≤ length out.old) × (length root.now ≤ 40) }
    ensures { (out.new ≡ laid out.old at (written syntax (box_tree (made root.now serial)))) × (result ≡ at + length (written syntax (box_tree (made root.now serial)))) × (result ≤ at + 90) }
{
    let mut uid = [0u8; 51];
    let n = put_made(&mut uid, 0, root, serial);
    let p = put_element(
        out,
        at,
        syntax,
        REFERENCED_CLASS,
        UI as usize,
        b"1.2.840.10008.5.1.1.4",
    );
    put_element(out, p, syntax, REFERENCED_INSTANCE, UI as usize, &uid[0..n])
}

// The item of an image box from a place on: the place after it. Its header goes in last, since it tells the list's length.
fn put_box(out: &mut [u8], at: usize, syntax: Syntax, root: &[u8], serial: u32) -> usize
    requires { (at + 98 ≤ length out.old) × (length root.now ≤ 40) }
    ensures { (out.new ≡ laid out.old at (box_bytes syntax (made root.now serial))) × (result ≡ at + length (box_bytes syntax (made root.now serial))) × (result ≤ at + 98) }
{
    let stop = put_box_list(out, at + 8, syntax, root, serial);
    put_item(out, at, stop - at - 8);
    stop
}

// The items of as many boxes as are asked for, from a place on: the place after them.
fn put_boxes(
    out: &mut [u8],
    at: usize,
    syntax: Syntax,
    root: &[u8],
    first: u32,
    count: usize,
) -> usize
    requires { (at + 98 * count ≤ length out.old) × (length root.now ≤ 40) × (count ≤ 36) × (first + count ≤ 4294967296) }
    ensures { (out.new ≡ laid out.old at (boxes_bytes syntax root.now first count)) × (result ≡ at + length (boxes_bytes syntax root.now first count)) × (result ≤ at + 98 * count) }
{
    let mut p = at;
    for i in 0..count {
        p = put_box(out, p, syntax, root, first + i as u32);
    }
    p
}

// The size of a sequence's header.
fn sequence_header(syntax: Syntax) -> usize
    ensures { (result ≡ header_size syntax SQ) × (result ≤ 12) }
{
    match syntax {
        Syntax::Implicit => 8,
        Syntax::Explicit => 12,
    }
}

// The created film's data set: an item for each box in order. The sequence's header goes in last, since it tells the items' length.
pub fn put_film_boxes(
    out: &mut [u8],
    syntax: Syntax,
    root: &[u8],
    first: u32,
    count: usize,
) -> usize
    requires { (8192 ≤ length out.old) × (length root.now ≤ 40) × (count ≤ 36) × (first + count ≤ 4294967296) }
    ensures { (out.new ≡ laid out.old 0 (written syntax (film_tree (map (made root.now) (from first count))))) × (result ≡ length (written syntax (film_tree (map (made root.now) (from first count))))) }
{
    let start = sequence_header(syntax);
    let stop = put_boxes(out, start, syntax, root, first, count);
    put_header(out, 0, syntax, BOX_SEQUENCE, SQ as usize, stop - start);
    stop
}

// A note as the report has it for C: its kind and three numbers.
#[derive(Clone, Copy)]
pub struct NoteNumbers {
    pub kind: u16,
    pub first: usize,
    pub second: usize,
    pub third: usize,
}

// The report: status, lengths of command and data set, and a note.
pub fn put_report(out: &mut [u8], status: u16, command: usize, size: usize, note: NoteNumbers)
    requires { 20 ≤ length out.old }
    ensures { out.new ≡ laid out.old 0 (report_by status command size note.kind note.first note.second note.third) }
{
    put_number(out, 0, 2, status as u64);
    put_number(out, 2, 2, command as u64);
    put_number(out, 4, 2, size as u64);
    put_number(out, 6, 2, note.kind as u64);
    put_number(out, 8, 4, note.first as u64);
    put_number(out, 12, 4, note.second as u64);
    put_number(out, 16, 4, note.third as u64);
}
