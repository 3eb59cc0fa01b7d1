// Setting: N-SET decided, checks 6, 8 and 9 and what is stored.
#![tactic(auto)]

ghost use Rattle.std.specs.Prelude.{◌≡◌, true, ◌<◌, ◌≤◌, length, get_or};
ghost use Rattle.choice.specs.Pick.{pick};
ghost use Rattle.choice.specs.Rules.{first_broken, number_by};
ghost use Rattle.rules.specs.declared.Operation.TheVariants.{Set};
ghost use Rattle.rules.specs.declared.Instance.TheVariants.{TheSession, TheFilm, TheBox};
ghost use Rattle.rules.specs.Bounds.{most_boxes};
ghost use Rattle.rules.specs.Records.{box_count, no_box, films_of};
ghost use Rattle.rules.specs.Failures.{status_of};
ghost use Rattle.rules.specs.Sound.{core_sound};
ghost use Rattle.rules.specs.Attributes.{listing_of, us, image_in, box_with};
ghost use Rattle.rules.specs.Effects.{film_at};
ghost use Rattle.rules.specs.Checks.{box_rules, set_plan, plan_of, decided_by};
ghost use Rattle.records.specs.Places.{core_in};
ghost use Rattle.changes.specs.Changes.{PictureLeft};
ghost use Rattle.boxes.specs.Images.{ImageRead, PixelsFit};
ghost use Rattle.boxes.specs.Founds.{BoxRead, ItemRead};
ghost use Rattle.instances.specs.There.{There};
ghost use Rattle.verdicts.specs.Ready.{ReadyIn, UidsIn};
ghost use Rattle.verdicts.specs.Decided.{Decides, Follows};
ghost use Rattle.setting.specs.Asked.{asked, note_of};

use boxes::BoxFound;
use changes::{Decision, Effect};
use elements::Found;
use headers::Syntax;
use records::{
    AT_FILMS, AT_PICTURE, AT_SESSIONS, FILM, FILM_BOXES, FILM_LAYOUT, IMAGE_BOX, Record, Records,
};
use rules::{
    Failure, Film, Image, ImageBox, Instance, Name, Note, Operation, Request, Session, Target,
};

// The session.

// As film_decided in its course alone: what is found, tested and stored is another at each step.
fn session_decided(b: &Records, d: &[u8], syntax: Syntax, name: Name) -> Result<Decision, Failure>
    requires { ReadyIn b.now }
    ensures { Follows (core_in b.now) (set_plan (core_in b.now) TheSession name (listing_of d.now syntax)) result }
{
    let found = attributes::session_found(d, syntax);
    attributes::session_broken(d, syntax, found)?;
    let old = Session::read_at(b, AT_SESSIONS);
    let session = attributes::session_with(d, syntax, found, old);
    let change = changes::change_with_session(Effect::SessionSet, session);
    Ok(verdicts::with_change(change, name))
}

// A film.

fn film_decided(
    b: &Records,
    d: &[u8],
    syntax: Syntax,
    i: usize,
    name: Name,
) -> Result<Decision, Failure>
    requires { ReadyIn b.now × (i < length (films_of (core_in b.now).shelf)) }
    ensures { Follows (core_in b.now) (set_plan (core_in b.now) (TheFilm i) name (listing_of d.now syntax)) result }
{
    let found = attributes::film_found(d, syntax);
    attributes::film_set_broken(d, syntax, found)?;
    let old = Film::read_at(b, AT_FILMS + i * FILM);
    let film = attributes::film_with(d, syntax, found, old);
    let change = changes::change_with_film(Effect::FilmSet(i), film);
    Ok(verdicts::with_change(change, name))
}

// An image box.

// Checks 8 and 9: the attributes, and a picture number for what fills the box.
fn box_broken(
    b: &Records,
    d: &[u8],
    syntax: Syntax,
    found: BoxFound,
    item: [Found; 9],
    i: usize,
) -> Result<(), Failure>
    requires { (core_sound (core_in b.now) ≡ true) × (i < length (films_of (core_in b.now).shelf)) × BoxRead d.now syntax found × ItemRead d.now syntax found.image item }
    ensures { number_by status_of result ≡ first_broken (box_rules (core_in b.now) i (listing_of d.now syntax)) }
{
    let count = layouts::box_count_at(b, AT_FILMS + i * FILM + FILM_LAYOUT) as usize;
    boxes::box_broken(count, d, syntax, found, item)?;
    if !boxes::is_fill(found.image) {
        return Ok(());
    }
    if octets::number_at(b, AT_PICTURE, 5) == 4294967296 {
        return Err(Failure::NoRoom);
    }
    Ok(())
}

// A picture number is used only where the box is filled: 0 where it is not.
fn number_used(b: &Records, fills: bool) -> u32
    requires { PictureLeft (core_in b.now) fills }
    ensures { result ≡ pick fills (core_in b.now).numbers.picture 0 }
{
    if fills {
        octets::number_at(b, AT_PICTURE, 5) as u32
    } else {
        0
    }
}

// The box as it is set, of the one that stands there.
fn box_anew(
    b: &Records,
    d: &[u8],
    syntax: Syntax,
    found: BoxFound,
    number: u32,
    i: usize,
    j: usize,
) -> ImageBox
    requires { (core_sound (core_in b.now) ≡ true) × (i < length (films_of (core_in b.now).shelf)) × (j < most_boxes) × (us (listing_of d.now syntax) 0x2020_0010 < 256) × BoxRead d.now syntax found }
    ensures { result ≡ box_with number (listing_of d.now syntax) (get_or (film_at (core_in b.now) i).boxes j no_box) }
{
    let old = ImageBox::read_at(b, AT_FILMS + i * FILM + FILM_BOXES + j * IMAGE_BOX);
    boxes::box_with(number, d, syntax, found, old)
}

// Where the pixels of the picture with this number lie, for the host.
fn image_note(number: u32, d: &[u8], syntax: Syntax, image: Image, item: [Found; 9]) -> Note
    requires { (length d.now ≤ 16777216) × ImageRead d.now syntax image × ItemRead d.now syntax image item × PixelsFit (listing_of d.now syntax) (image_in (listing_of d.now syntax)) }
    ensures { result ≡ note_of number (listing_of d.now syntax) (image_in (listing_of d.now syntax)) }
{
    if !boxes::is_fill(image) {
        return Note::NoNote;
    }
    let at = boxes::pixels(d, syntax, image, item);
    Note::PictureAt {
        number: number,
        place: at.from as u32,
        length: (at.stop - at.from) as u32,
    }
}

fn box_stored(
    b: &Records,
    d: &[u8],
    syntax: Syntax,
    found: BoxFound,
    item: [Found; 9],
    i: usize,
    j: usize,
    name: Name,
) -> Decision
    requires { ReadyIn b.now × (i < length (films_of (core_in b.now).shelf)) × (j < box_count (film_at (core_in b.now) i).layout) × (first_broken (box_rules (core_in b.now) i (listing_of d.now syntax)) ≡ 0) × (length d.now ≤ 16777216) × BoxRead d.now syntax found × ItemRead d.now syntax found.image item }
    ensures { Decides (core_in b.now) result (set_plan (core_in b.now) (TheBox i j) name (listing_of d.now syntax)).verdict }
{
    let image = found.image;
    let fills = boxes::is_fill(image);
    let number = number_used(b, fills);
    let image_box = box_anew(b, d, syntax, found, number, i, j);
    let change = changes::change_by(Effect::BoxSet {
        film: i,
        place: j,
        image_box,
        fills,
    });
    let note = image_note(number, d, syntax, image, item);
    Decision {
        done: true,
        status: 0,
        change,
        instance: name,
        note,
        contents: None,
    }
}

fn box_decided(
    b: &Records,
    d: &[u8],
    syntax: Syntax,
    i: usize,
    j: usize,
    name: Name,
) -> Result<Decision, Failure>
    requires { ReadyIn b.now × (i < length (films_of (core_in b.now).shelf)) × (j < box_count (film_at (core_in b.now) i).layout) × (length d.now ≤ 16777216) }
    ensures { Follows (core_in b.now) (set_plan (core_in b.now) (TheBox i j) name (listing_of d.now syntax)) result }
{
    let found = boxes::gathered(d, syntax);
    let item = boxes::item_gathered(d, syntax, found.image);
    box_broken(b, d, syntax, found, item, i)?;
    Ok(box_stored(b, d, syntax, found, item, i, j, name))
}

// What is named.

// "A set stores nothing before its last value is tested."
fn decided(
    b: &Records,
    d: &[u8],
    syntax: Syntax,
    whom: Instance,
    name: Name,
) -> Result<Decision, Failure>
    requires { ReadyIn b.now × There (core_in b.now) whom × (length d.now ≤ 16777216) }
    ensures { Follows (core_in b.now) (set_plan (core_in b.now) whom name (listing_of d.now syntax)) result }
{
    match whom {
        Instance::Nobody => Ok(verdicts::quiet(shelves::no_name())),
        Instance::TheSession => session_decided(b, d, syntax, name),
        Instance::TheFilm(i) => film_decided(b, d, syntax, i, name),
        Instance::TheBox { film, place } => box_decided(b, d, syntax, film, place, name),
    }
}

// Check 6, and what it leaves to be set.
fn set_planned(b: &Records, c: &[u8], d: &[u8], target: Target) -> Result<Decision, Failure>
    requires { ReadyIn b.now × UidsIn c.now (Set target) × (length d.now ≤ 16777216) }
    ensures { Follows (core_in b.now) (plan_of (core_in b.now) c.now d.now (Set target)) result }
{
    checks::target_broken(b, c, target.class, target.instance)?;
    let whom = instances::named(b, instances::uid_at(c, target.instance));
    let syntax = records::syntax_in(b);
    decided(b, d, syntax, whom, verdicts::name_at(c, target.instance))
}

pub fn set(b: &Records, c: &[u8], d: &[u8], message: u16, target: Target) -> Decision
    requires { ReadyIn b.now × UidsIn c.now (Set target) × (length d.now ≤ 16777216) }
    ensures { Decides (core_in b.now) result (decided_by (core_in b.now) c.now (asked message target) (plan_of (core_in b.now) c.now d.now (Set target))) }
{
    let request = Request {
        message,
        operation: Operation::Set(target),
    };
    verdicts::decided(c, request, set_planned(b, c, d, target))
}
