// Creating: N-CREATE decided: checks 6, 8 and 9, and what it does.
#![tactic(auto)]

ghost use Rattle.std.specs.Prelude.{◌≡◌, ◌+◌, ◌<◌, ◌≤◌, ltb, length, Some};
ghost use Rattle.choice.specs.Rules.{first_broken, number_by};
ghost use Rattle.rules.specs.declared.Operation.TheVariants.{Create};
ghost use Rattle.rules.specs.Bounds.{most_boxes, none_left};
ghost use Rattle.rules.specs.Records.{box_count, films_of, shelved, syntax_in};
ghost use Rattle.rules.specs.Failures.{status_of};
ghost use Rattle.rules.specs.Attributes.{listing_of, layout_in};
ghost use Rattle.rules.specs.Effects.{own_serials, new_film};
ghost use Rattle.rules.specs.declared.Class.TheVariants.{Sessions, Films};
ghost use Rattle.rules.specs.Checks.{new_session_rules, new_film_rules, create_plan, plan_of, decided_by};
ghost use Rattle.records.specs.Places.{core_in};
ghost use Rattle.attributes.specs.Founds.{SessionFound, FilmFound};
ghost use Rattle.verdicts.specs.Ready.{ReadyIn, UidsIn};
ghost use Rattle.verdicts.specs.Decided.{Decides, Follows};
ghost use Rattle.creating.specs.Creating.{name_by, session_made, with_new_film};

use changes::{Decision, Effect};
use elements::Found;
use headers::Syntax;
use records::{AT_SERIAL, AT_SESSIONS, AT_SHELF, Records};
use rules::{
    Class, Creation, Failure, Film, Layout, Name, NewBoxes, Note, Operation, Request, Serial,
    Session,
};

// Serials.

fn next_serial(b: &Records) -> u64
    ensures { result ≡ (core_in b.now).numbers.serial }
{
    octets::number_at(b, AT_SERIAL, 5)
}

// "A session or film without a sent UID takes the next serial"
fn own_serials(sent: &[u8]) -> u64
    ensures { (result ≡ own_serials sent.now) × (result ≤ 1) }
{
    if sent.is_empty() { 1 } else { 0 }
}

fn name_by(serial: u64, sent: &[u8]) -> Name
    requires { (length sent.now ≤ 64) × (length sent.now ≡ 0 → serial < none_left) }
    ensures { result ≡ name_by serial sent.now }
{
    if sent.is_empty() {
        shelves::made_name(serial as u32)
    } else {
        shelves::sent_name(sent)
    }
}

fn too_few_serials(serial: u64, needed: u64) -> bool
    requires { (serial ≤ none_left) × (needed ≤ 1531) }
    ensures { result ≡ ltb none_left (serial + needed) }
{
    4294967296 < serial + needed
}

// Sessions.

// Checks 8 and 9 of a session.
fn new_session_broken(
    b: &Records,
    d: &[u8],
    syntax: Syntax,
    found: [Found; 5],
    sent: &[u8],
) -> Result<(), Failure>
    requires { ((core_in b.now).numbers.serial ≤ none_left) × SessionFound (listing_of d.now syntax) found }
    ensures { number_by status_of result ≡ first_broken (new_session_rules (core_in b.now) sent.now (listing_of d.now syntax)) }
{
    attributes::session_broken(d, syntax, found)?;
    if b[AT_SESSIONS] != 0 {
        return Err(Failure::NoRoom);
    }
    if too_few_serials(next_serial(b), own_serials(sent)) {
        return Err(Failure::NoRoom);
    }
    Ok(())
}

// The new session, where no rule is broken.
fn session_made(b: &Records, d: &[u8], syntax: Syntax, found: [Found; 5], sent: &[u8]) -> Session
    requires { (length sent.now ≤ 64) × (first_broken (new_session_rules (core_in b.now) sent.now (listing_of d.now syntax)) ≡ 0) × SessionFound (listing_of d.now syntax) found }
    ensures { result ≡ session_made (core_in b.now).numbers sent.now (listing_of d.now syntax) }
{
    let name = name_by(next_serial(b), sent);
    let given = attributes::session_with(d, syntax, found, shelves::new_session());
    Session { name, ..given }
}

// As film_decided in its course alone: what is found, tested and made is another at each step.
fn session_decided(b: &Records, d: &[u8], syntax: Syntax, sent: &[u8]) -> Result<Decision, Failure>
    requires { ReadyIn b.now × (length sent.now ≤ 64) }
    ensures { Follows (core_in b.now) (create_plan (core_in b.now) Sessions sent.now (listing_of d.now syntax)) result }
{
    let found = attributes::session_found(d, syntax);
    new_session_broken(b, d, syntax, found, sent)?;
    let session = session_made(b, d, syntax, found, sent);
    let effect = Effect::SessionCreated(own_serials(sent));
    let change = changes::change_with_session(effect, session);
    Ok(verdicts::with_change(change, session.name))
}

// Films.

// How many serials a film takes: its own, where no UID was sent, and then those of its boxes.
fn film_serials(layout: Layout, sent: &[u8]) -> u64
    ensures { (result ≡ own_serials sent.now + box_count layout) × (result ≤ 1531) }
{
    own_serials(sent) + layouts::box_count(layout)
}

// Checks 8 and 9 of a film.
fn new_film_broken(
    b: &Records,
    d: &[u8],
    syntax: Syntax,
    found: [Found; 4],
    layout: Layout,
    sent: &[u8],
) -> Result<(), Failure>
    requires { ((core_in b.now).numbers.serial ≤ none_left) × (shelved (films_of (core_in b.now).shelf) ≡ (core_in b.now).shelf) × FilmFound (listing_of d.now syntax) found × (layout ≡ layout_in (listing_of d.now syntax)) }
    ensures { number_by status_of result ≡ first_broken (new_film_rules (core_in b.now) sent.now (listing_of d.now syntax)) }
{
    attributes::film_create_broken(b, d, syntax, found)?;
    if b[AT_SHELF] == 8 {
        return Err(Failure::NoRoom);
    }
    if too_few_serials(next_serial(b), film_serials(layout, sent)) {
        return Err(Failure::NoRoom);
    }
    Ok(())
}

// Orientation PORTRAIT, Magnification BILINEAR, unless the data set gives others. The session named is at the only place.
fn new_film(
    b: &Records,
    d: &[u8],
    syntax: Syntax,
    found: [Found; 4],
    layout: Layout,
    sent: &[u8],
) -> Film
    requires { (length sent.now ≤ 64) × (first_broken (new_film_rules (core_in b.now) sent.now (listing_of d.now syntax)) ≡ 0) × FilmFound (listing_of d.now syntax) found × (layout ≡ layout_in (listing_of d.now syntax)) }
    ensures { result ≡ new_film (core_in b.now) sent.now (listing_of d.now syntax) }
{
    let serial = next_serial(b);
    let name = name_by(serial, sent);
    let boxes = shelves::new_boxes(layouts::box_count(layout) as usize);
    let own = own_serials(sent);
    let next = serial + own;
    let first = next as u32;
    let film = Film {
        name,
        session: 0,
        layout,
        orientation: 0,
        magnification: 2,
        first: Serial(first),
        boxes,
    };
    attributes::film_with(d, syntax, found, film)
}

fn boxes_in(first: Serial, layout: Layout) -> Option<NewBoxes>
    requires { box_count layout ≤ most_boxes }
    ensures { result ≡ Some (record { first = first.0; count = box_count layout }) }
{
    Some(NewBoxes {
        first: first.0,
        count: layouts::box_count(layout) as u8,
    })
}

// One more film, and so many serials used.
fn with_new_film(serials: u64, film: Film) -> Decision
    requires { box_count film.layout ≤ most_boxes }
    ensures { result ≡ with_new_film serials film }
{
    let contents = boxes_in(film.first, film.layout);
    let change = changes::change_with_film(Effect::FilmCreated(serials), film);
    let name = film.name;
    Decision {
        done: true,
        status: 0,
        change,
        instance: name,
        note: Note::NoNote,
        contents,
    }
}

fn film_decided(b: &Records, d: &[u8], syntax: Syntax, sent: &[u8]) -> Result<Decision, Failure>
    requires { ReadyIn b.now × (length sent.now ≤ 64) }
    ensures { Follows (core_in b.now) (create_plan (core_in b.now) Films sent.now (listing_of d.now syntax)) result }
{
    let found = attributes::film_found(d, syntax);
    let layout = attributes::layout_in(d, syntax, found);
    new_film_broken(b, d, syntax, found, layout, sent)?;
    let film = new_film(b, d, syntax, found, layout, sent);
    Ok(with_new_film(film_serials(layout, sent), film))
}

// All classes.

// Checks 8 and 9, and what is done, by the class.
fn decided(b: &Records, d: &[u8], sent: &[u8], class: Class) -> Result<Decision, Failure>
    requires { ReadyIn b.now × (length sent.now ≤ 64) }
    ensures { Follows (core_in b.now) (create_plan (core_in b.now) class sent.now (listing_of d.now (syntax_in (core_in b.now)))) result }
{
    match class {
        Class::Verification => Ok(verdicts::quiet(shelves::no_name())),
        Class::Sessions => session_decided(b, d, records::syntax_in(b), sent),
        Class::Films => film_decided(b, d, records::syntax_in(b), sent),
        Class::Boxes => Ok(verdicts::quiet(shelves::no_name())),
        Class::UnknownClass => Ok(verdicts::quiet(shelves::no_name())),
    }
}

// Checks 6, 8 and 9, and what is done where none applies.
fn creation_planned(
    b: &Records,
    c: &[u8],
    d: &[u8],
    creation: Creation,
) -> Result<Decision, Failure>
    requires { ReadyIn b.now × UidsIn c.now (Create creation) }
    ensures { Follows (core_in b.now) (plan_of (core_in b.now) c.now d.now (Create creation)) result }
{
    checks::create_broken(b, c, creation.sent)?;
    let kind = instances::class_of(instances::uid_at(c, creation.class));
    decided(b, d, instances::uid_at(c, creation.sent), kind)
}

// N-CREATE with a whole data set.
pub fn created(b: &Records, c: &[u8], d: &[u8], message: u16, creation: Creation) -> Decision
    requires { ReadyIn b.now × UidsIn c.now (Create creation) }
    ensures { Decides (core_in b.now) result (decided_by (core_in b.now) c.now (record { message = message; operation = Create creation }) (plan_of (core_in b.now) c.now d.now (Create creation))) }
{
    let request = Request {
        message,
        operation: Operation::Create(creation),
    };
    verdicts::decided(c, request, creation_planned(b, c, d, creation))
}
