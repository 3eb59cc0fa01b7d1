// Boxes: what a data set says for an image box on N-SET, check 8 and the values.
#![tactic(auto)]

ghost use Rattle.std.specs.Prelude.{◌≡◌, ◌+◌, ◌%◌, ◌<◌, ◌≤◌, eqb, leb, length};
ghost use Rattle.choice.specs.Pick.{both, either};
ghost use Rattle.choice.specs.Rules as rows;
ghost use Rattle.choice.specs.Rules.{first_broken};
ghost use Rattle.rules.specs.Values.{photometrics, polarities, us_in};
ghost use Rattle.rules.specs.Failures.{status_of};
ghost use Rattle.rules.specs.Attributes.{attribute_rules, listing_of, look, us, image_of, box_standings, picture_after, box_with, is_fill, pixels};
ghost use Rattle.standings.specs.Severity.{kind_of, severity_by};
ghost use Rattle.standings.specs.Level.{level};
ghost use Rattle.boxes.specs.Images.{ImageRead, ImageWithin, PixelsFit};
ghost use Rattle.boxes.specs.Founds.{PlacedIn, ItemIn, ItemRead, BoxRead, value_in, number_by, code_by, optional_code_by, kept_code, us_at, value_at, depth8_at, pixel_bytes_at, length_by, with_extents, with_depths, image_worst, sequence_worst, item_pixels_at};

use elements::{Found, Items};
use headers::{Part, Scope, Syntax};
use rules::{Failure, Image, ImageBox, Picture};
use standings::Severity;
use values::Code;

// The attributes of a box, as they are gathered.
const OWN: [usize; 3] = [0x2020_0010, 0x2020_0020, 0x2020_0110];

const POSITION: usize = 0;

const POLARITY: usize = 1;

const IMAGE_SEQUENCE: usize = 2;

// The attributes of an item of Image Sequence, as they are gathered.
const ITEM: [usize; 9] = [
    0x0028_0002,
    0x0028_0004,
    0x0028_0010,
    0x0028_0011,
    0x0028_0100,
    0x0028_0101,
    0x0028_0102,
    0x0028_0103,
    0x7FE0_0010,
];

const SAMPLES: usize = 0;

const PHOTOMETRIC: usize = 1;

const ROWS: usize = 2;

const COLUMNS: usize = 3;

const ALLOCATED: usize = 4;

const STORED: usize = 5;

const HIGH_BIT: usize = 6;

const REPRESENTATION: usize = 7;

const PIXEL_DATA: usize = 8;

// What a data set holds for a box.
#[derive(Clone, Copy)]
pub struct BoxFound {
    pub position: Found,
    pub polarity: Found,
    pub image: Image,
}

// What is gathered.

fn image_of(items: Items) -> Image
    ensures { result ≡ image_of items }
{
    match items {
        Items::Empty => Image::Erases,
        Items::One(inside) => Image::Fills(inside),
        Items::Several(_) => Image::TooMany,
    }
}

fn image_in(d: &[u8], syntax: Syntax, sequence: Found) -> Image
    requires { sequence ≡ look (listing_of d.now syntax) 0x2020_0110 }
    ensures { ImageRead d.now syntax result }
{
    match sequence {
        Found::Missing => Image::Keeps,
        Found::Value(_) => Image::TooMany,
        Found::Sequence(inside) => image_of(finding::items_in(
            d,
            Scope {
                syntax,
                room: 3,
                inside,
            },
        )),
    }
}

// The only walk of the data set.
pub fn gathered(d: &[u8], syntax: Syntax) -> BoxFound
    ensures { BoxRead d.now syntax result }
{
    let own = finding::gathered(d, elements::data_scope(d, syntax), OWN);
    let position = own[POSITION];
    let polarity = own[POLARITY];
    let image = image_in(d, syntax, own[IMAGE_SEQUENCE]);
    BoxFound {
        position,
        polarity,
        image,
    }
}

// The only walk of the item that fills the box; nothing where there is none.
pub fn item_gathered(d: &[u8], syntax: Syntax, image: Image) -> [Found; 9]
    requires { ImageWithin (length d.now) image }
    ensures { ItemRead d.now syntax image result }
{
    match image {
        Image::Keeps | Image::Erases | Image::TooMany => [Found::Missing; 9],
        Image::Fills(inside) => finding::gathered(
            d,
            Scope {
                syntax,
                room: 3,
                inside,
            },
            ITEM,
        ),
    }
}

// Numbers.

// A number of two bytes as it was sent: where it was found, how many bytes it has, and the number.
#[derive(Clone, Copy)]
struct Sent {
    found: Found,
    size: usize,
    number: u16,
}

fn sent_at(d: &[u8], found: Found) -> Sent
    requires { PlacedIn (length d.now) found }
    ensures { (result.found ≡ found) × (result.size ≡ length (value_in d.now found)) × (result.number ≡ us_in (value_in d.now found)) × (result.number < 65536) }
{
    let v = standings::value(d, found);
    Sent {
        found,
        size: v.len(),
        number: values::us_in(v),
    }
}

// A mandatory number of two bytes, by the test that it is allowed.
fn us_severity(n: Sent, allowed: bool) -> Severity
    ensures { level result ≡ severity_by (kind_of n.found) (eqb n.size 0) (both (eqb n.size 2) allowed) }
{
    standings::mandatory_severity(n.found, n.size == 0, n.size == 2 && allowed)
}

// A mandatory number that is no other than this.
#[tactic(auto, unfolding(crate::specs::Founds::number_by))]
fn exactly_severity(d: &[u8], found: Found, only: u16) -> Severity
    requires { PlacedIn (length d.now) found }
    ensures { level result ≡ number_by (λ n. eqb n only) d.now found }
{
    let n = sent_at(d, found);
    us_severity(n, n.number == only)
}

// Rows and columns: from 1.
#[tactic(auto, unfolding(crate::specs::Founds::number_by))]
fn extent_severity(d: &[u8], found: Found) -> Severity
    requires { PlacedIn (length d.now) found }
    ensures { level result ≡ number_by (λ n. leb 1 n) d.now found }
{
    let n = sent_at(d, found);
    us_severity(n, 1 <= n.number)
}

// A number of a depth, which is allowed where all three are.
#[tactic(auto, unfolding(crate::specs::Founds::number_by))]
fn depth_severity(d: &[u8], found: Found, allowed: bool) -> Severity
    requires { PlacedIn (length d.now) found }
    ensures { level result ≡ number_by (λ n. allowed) d.now found }
{
    us_severity(sent_at(d, found), allowed)
}

// The three numbers of a depth.
#[derive(Clone, Copy, PartialEq, Eq)]
struct Depth {
    allocated: u16,
    stored: u16,
    high: u16,
}

fn depth_in(d: &[u8], item: [Found; 9]) -> Depth
    requires { ItemIn (length d.now) item }
    ensures { (result.allocated ≡ us_at d.now item 4) × (result.stored ≡ us_at d.now item 5) × (result.high ≡ us_at d.now item 6) }
{
    let allocated = sent_at(d, item[ALLOCATED]).number;
    let stored = sent_at(d, item[STORED]).number;
    let high = sent_at(d, item[HIGH_BIT]).number;
    Depth {
        allocated,
        stored,
        high,
    }
}

const EIGHT: Depth = Depth {
    allocated: 8,
    stored: 8,
    high: 7,
};

const TWELVE: Depth = Depth {
    allocated: 16,
    stored: 12,
    high: 11,
};

// 8,8,7 (`eight` says so) or 16,12,11
fn depth_allowed(depth: Depth, eight: bool) -> bool
    ensures { result ≡ either eight (both (eqb depth.allocated 16) (both (eqb depth.stored 12) (eqb depth.high 11))) }
{
    eight || depth == TWELVE
}

// "rows × columns × 1 or 2"
fn pixel_bytes(d: &[u8], item: [Found; 9], eight: bool) -> usize
    requires { ItemIn (length d.now) item × (eight ≡ depth8_at d.now item) }
    ensures { (result ≡ pixel_bytes_at d.now item) × (result < 8589934592) }
{
    let rows = sent_at(d, item[ROWS]).number;
    let columns = sent_at(d, item[COLUMNS]).number;
    let area = usize::from(rows) * usize::from(columns);
    if eight { area } else { area * 2 }
}

// How the attributes of an item stand.

// Pixel Data, by the bytes of its pixels. R-3: a byte of padding makes it even.
fn pixels_severity(d: &[u8], found: Found, bytes: usize) -> Severity
    requires { PlacedIn (length d.now) found × (bytes < 8589934592) }
    ensures { level result ≡ length_by (bytes + bytes % 2) d.now found }
{
    let size = standings::value(d, found).len();
    let expected = bytes + bytes % 2;
    standings::mandatory_severity(found, size == 0, size == expected)
}

// The worst of Samples, Photometric Interpretation, Rows, Columns and others.
fn with_extents(d: &[u8], item: [Found; 9], others: Severity) -> Severity
    requires { ItemIn (length d.now) item }
    ensures { level result ≡ with_extents d.now item (level others) }
{
    let samples = exactly_severity(d, item[SAMPLES], 1);
    let photometric = standings::code_severity(Code::Photometric, d, item[PHOTOMETRIC]);
    let rows = extent_severity(d, item[ROWS]);
    let columns = extent_severity(d, item[COLUMNS]);
    let extent = standings::worse(rows, standings::worse(columns, others));
    standings::worse(samples, standings::worse(photometric, extent))
}

// The worst of the three numbers of a depth and others.
fn with_depths(d: &[u8], item: [Found; 9], allowed: bool, others: Severity) -> Severity
    requires { ItemIn (length d.now) item }
    ensures { level result ≡ with_depths d.now item allowed (level others) }
{
    let allocated = depth_severity(d, item[ALLOCATED], allowed);
    let stored = depth_severity(d, item[STORED], allowed);
    let high = depth_severity(d, item[HIGH_BIT], allowed);
    standings::worse(
        allocated,
        standings::worse(stored, standings::worse(high, others)),
    )
}

// "All of an item is mandatory"
fn image_worst(d: &[u8], item: [Found; 9]) -> Severity
    requires { ItemIn (length d.now) item }
    ensures { level result ≡ image_worst d.now item }
{
    let depth = depth_in(d, item);
    let eight = depth == EIGHT;
    let bytes = pixel_bytes(d, item, eight);
    let data = pixels_severity(d, item[PIXEL_DATA], bytes);
    let sign = exactly_severity(d, item[REPRESENTATION], 0);
    let allowed = depth_allowed(depth, eight);
    let depths = with_depths(d, item, allowed, standings::worse(sign, data));
    with_extents(d, item, depths)
}

fn sequence_worst(d: &[u8], image: Image, item: [Found; 9]) -> Severity
    requires { ItemIn (length d.now) item }
    ensures { level result ≡ sequence_worst d.now image item }
{
    match image {
        Image::Keeps | Image::Erases => Severity::Allowed,
        Image::TooMany => Severity::Wrong,
        Image::Fills(_) => image_worst(d, item),
    }
}

// "Position (2020,0010) US, mandatory in N-SET, 1 to C×R"
#[tactic(auto, unfolding(crate::specs::Founds::number_by))]
fn position_severity(boxes: usize, d: &[u8], found: Found) -> Severity
    requires { PlacedIn (length d.now) found }
    ensures { level result ≡ number_by (λ n. both (leb 1 n) (leb n boxes)) d.now found }
{
    let n = sent_at(d, found);
    let position = usize::from(n.number);
    us_severity(n, 1 <= position && position <= boxes)
}

pub fn box_broken(
    boxes: usize,
    d: &[u8],
    syntax: Syntax,
    found: BoxFound,
    item: [Found; 9],
) -> Result<(), Failure>
    requires { BoxRead d.now syntax found × ItemRead d.now syntax found.image item }
    ensures { rows.number_by status_of result ≡ first_broken (attribute_rules (box_standings boxes (listing_of d.now syntax))) }
{
    let position = position_severity(boxes, d, found.position);
    let polarity = standings::optional_code_severity(Code::Polarity, d, found.polarity);
    let sequence = sequence_worst(d, found.image, item);
    standings::status_of(standings::worse(position, standings::worse(polarity, sequence)))
}

// What is stored.

fn picture_after(next: u32, image: Image, old: u32) -> u32
    ensures { result ≡ picture_after next image old }
{
    match image {
        Image::Keeps | Image::TooMany => old,
        Image::Erases => 0,
        Image::Fills(_) => next,
    }
}

// A box with what the data set gives, where `next` is the next picture number.
pub fn box_with(next: u32, d: &[u8], syntax: Syntax, found: BoxFound, b: ImageBox) -> ImageBox
    requires { (us (listing_of d.now syntax) 0x2020_0010 < 256) × BoxRead d.now syntax found }
    ensures { result ≡ box_with next (listing_of d.now syntax) b }
{
    let position = sent_at(d, found.position).number as u8;
    let polarity = standings::code_or(Code::Polarity, d, found.polarity, b.polarity);
    let picture = Picture(picture_after(next, found.image, b.picture.0));
    ImageBox {
        position,
        polarity,
        picture,
    }
}

pub fn is_fill(image: Image) -> bool
    ensures { result ≡ is_fill image }
{
    matches!(image, Image::Fills(_))
}

// Where the pixels of an item lie, without the padding.
fn item_pixels(d: &[u8], item: [Found; 9]) -> Part
    requires { ItemIn (length d.now) item × (pixel_bytes_at d.now item ≤ length (value_at d.now item 8)) }
    ensures { (result ≡ item_pixels_at d.now item) × (result.from ≤ result.stop) × (result.stop ≤ length d.now) }
{
    let depth = depth_in(d, item);
    let eight = depth == EIGHT;
    let bytes = pixel_bytes(d, item, eight);
    let place = standings::place(item[PIXEL_DATA]);
    Part {
        from: place.from,
        stop: place.from + bytes,
    }
}

// Where the pixels lie in the message buffer.
pub fn pixels(d: &[u8], syntax: Syntax, image: Image, item: [Found; 9]) -> Part
    requires { ItemRead d.now syntax image item × PixelsFit (listing_of d.now syntax) image }
    ensures { (result ≡ pixels (listing_of d.now syntax) image) × (result.from ≤ result.stop) × (result.stop ≤ length d.now) }
{
    match image {
        Image::Keeps | Image::Erases | Image::TooMany => Part { from: 0, stop: 0 },
        Image::Fills(_) => item_pixels(d, item),
    }
}
