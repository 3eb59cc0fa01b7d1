// Attributes: what a data set says for a session and a film, on create and on set; check 8 and the values.
#![tactic(auto)]

ghost use Rattle.std.specs.Prelude.{◌≡◌, ◌≤◌, eqb, length};
ghost use Rattle.choice.specs.Pick.{both, not};
ghost use Rattle.choice.specs.Rules.{first_broken, number_by};
ghost use Rattle.octets.specs.Octets.{same};
ghost use Rattle.uids.specs.Uids.{is_uid, unpadded};
ghost use Rattle.elements.specs.declared.Items.TheVariants.{One};
ghost use Rattle.elements.specs.Reader.{scope_of};
ghost use Rattle.elements.specs.Find.{items_at};
ghost use Rattle.rules.specs.Text.{session_class};
ghost use Rattle.rules.specs.Lists.{any, filled_to};
ghost use Rattle.rules.specs.Values.{trimmed, no_bytes, blank, count_in, label_allowed, code_in, priorities, media, destinations, orientations, magnifications, counts_in};
ghost use Rattle.rules.specs.Records.{session_named, sessions_of};
ghost use Rattle.rules.specs.Failures.{status_of};
ghost use Rattle.rules.specs.Attributes.{listing_of, look, code_allowed, attribute_rules, session_standings, session_with, must_be_absent, reference_standings, reference, optional_film, film_create_standings, film_set_standings, film_with, layout_in};
ghost use Rattle.records.specs.Places.{core_in};
ghost use Rattle.standings.specs.Severity.{severity, worst};
ghost use Rattle.standings.specs.Level.{level};
ghost use Rattle.standings.specs.Founds.{Placed, bytes_found, mandatory_found, optional_found, found_or};
ghost use Rattle.attributes.specs.Founds.{SessionFound, FilmFound};

use elements::{Found, Items};
use headers::{Inside, Scope, Syntax};
use records::{AT_SESSIONS, Records};
use rules::{Failure, Film, Layout, Session};
use standings::Severity;
use values::Code;

const COPIES: usize = 0x2000_0010;

const PRIORITY: usize = 0x2000_0020;

const MEDIUM: usize = 0x2000_0030;

const DESTINATION: usize = 0x2000_0040;

const LABEL: usize = 0x2000_0050;

const FORMAT: usize = 0x2010_0010;

const ORIENTATION: usize = 0x2010_0040;

const MAGNIFICATION: usize = 0x2010_0060;

const REFERENCE: usize = 0x2010_0500;

const REFERENCED_CLASS: usize = 0x0008_1150;

const REFERENCED_INSTANCE: usize = 0x0008_1155;

// What the data set holds for a session.
pub fn session_found(d: &[u8], syntax: Syntax) -> [Found; 5]
    ensures { SessionFound (listing_of d.now syntax) result }
{
    finding::gathered(
        d,
        elements::data_scope(d, syntax),
        [COPIES, PRIORITY, MEDIUM, DESTINATION, LABEL],
    )
}

// What it holds for a film.
pub fn film_found(d: &[u8], syntax: Syntax) -> [Found; 4]
    ensures { FilmFound (listing_of d.now syntax) result }
{
    finding::gathered(
        d,
        elements::data_scope(d, syntax),
        [FORMAT, ORIENTATION, MAGNIFICATION, REFERENCE],
    )
}

fn copies_severity(d: &[u8], found: Found) -> Severity
    requires { Placed d.now found }
    ensures { level result ≡ optional_found (λ v. not (eqb (count_in 99 v) 0)) d.now found }
{
    let v = standings::value(d, found);
    standings::optional_severity(found, texts::is_blank(v), texts::count_in(v, 99) != 0)
}

fn label_severity(d: &[u8], found: Found) -> Severity
    requires { Placed d.now found }
    ensures { level result ≡ optional_found label_allowed d.now found }
{
    let v = standings::value(d, found);
    standings::optional_severity(found, texts::is_blank(v), texts::label_allowed(v))
}

// Check 8 of a session.
pub fn session_broken(d: &[u8], syntax: Syntax, found: [Found; 5]) -> Result<(), Failure>
    requires { SessionFound (listing_of d.now syntax) found }
    ensures { number_by status_of result ≡ first_broken (attribute_rules (session_standings (listing_of d.now syntax))) }
{
    let destination = standings::optional_code_severity(Code::Destination, d, found[3]);
    let medium = standings::optional_code_severity(Code::Medium, d, found[2]);
    let priority = standings::optional_code_severity(Code::Priority, d, found[1]);
    let mut worst = standings::worse(destination, label_severity(d, found[4]));
    worst = standings::worse(medium, worst);
    worst = standings::worse(priority, worst);
    worst = standings::worse(copies_severity(d, found[0]), worst);
    standings::status_of(worst)
}

// What was found gives, or what is kept where it gives nothing.
fn copies_or(d: &[u8], found: Found, kept: u8) -> u8
    requires { Placed d.now found }
    ensures { result ≡ found_or (count_in 99) d.now found kept }
{
    let v = standings::value(d, found);
    if standings::is_given(found, texts::is_blank(v)) {
        return texts::count_in(v, 99) as u8;
    }
    kept
}

// A text in front of zeros, and how many bytes it has, as the record keeps it.
#[derive(Clone, Copy)]
struct Label {
    used: u8,
    bytes: [u8; 64],
}

fn label_or(d: &[u8], found: Found, kept: Label) -> Label
    requires { Placed d.now found × (length (trimmed (bytes_found d.now found)) ≤ 64) }
    ensures { (result.used ≡ found_or (λ v. length (trimmed v)) d.now found kept.used) × (result.bytes ≡ found_or (λ v. filled_to 64 0 (trimmed v)) d.now found kept.bytes) }
{
    let v = standings::value(d, found);
    if standings::is_given(found, texts::is_blank(v)) {
        let text = texts::trimmed(v);
        let mut bytes = [0; 64];
        octets::put(&mut bytes, 0, text);
        return Label {
            used: text.len() as u8,
            bytes,
        };
    }
    kept
}

// A session with what the data set gives.
pub fn session_with(d: &[u8], syntax: Syntax, found: [Found; 5], s: Session) -> Session
    requires { SessionFound (listing_of d.now syntax) found × (first_broken (attribute_rules (session_standings (listing_of d.now syntax))) ≡ 0) }
    ensures { result ≡ session_with (listing_of d.now syntax) s }
{
    let bytes = s.label;
    let kept = Label {
        used: s.used,
        bytes,
    };
    let given = label_or(d, found[4], kept);
    let label = given.bytes;
    let priority = standings::code_or(Code::Priority, d, found[1], s.priority);
    let medium = standings::code_or(Code::Medium, d, found[2], s.medium);
    let destination = standings::code_or(Code::Destination, d, found[3], s.destination);
    Session {
        copies: copies_or(d, found[0], s.copies),
        priority,
        medium,
        destination,
        used: given.used,
        label,
        ..s
    }
}

fn optional_film(d: &[u8], syntax: Syntax, found: [Found; 4]) -> Severity
    requires { FilmFound (listing_of d.now syntax) found }
    ensures { level result ≡ worst (optional_film (listing_of d.now syntax)) }
{
    let orientation = standings::optional_code_severity(Code::Orientation, d, found[1]);
    let magnification = standings::optional_code_severity(Code::Magnification, d, found[2]);
    standings::worse(orientation, magnification)
}

// "even empty"
fn presence_severity(found: Found) -> Severity
    ensures { level result ≡ severity (must_be_absent found) }
{
    match found {
        Found::Missing => Severity::Allowed,
        Found::Value(_) | Found::Sequence(_) => Severity::Wrong,
    }
}

// Check 8 of a film on set.
pub fn film_set_broken(d: &[u8], syntax: Syntax, found: [Found; 4]) -> Result<(), Failure>
    requires { FilmFound (listing_of d.now syntax) found }
    ensures { number_by status_of result ≡ first_broken (attribute_rules (film_set_standings (listing_of d.now syntax))) }
{
    let mut worst = optional_film(d, syntax, found);
    worst = standings::worse(presence_severity(found[3]), worst);
    worst = standings::worse(presence_severity(found[0]), worst);
    standings::status_of(worst)
}

// A film with what the data set gives.
pub fn film_with(d: &[u8], syntax: Syntax, found: [Found; 4], f: Film) -> Film
    requires { FilmFound (listing_of d.now syntax) found }
    ensures { result ≡ film_with (listing_of d.now syntax) f }
{
    let orientation = standings::code_or(Code::Orientation, d, found[1], f.orientation);
    let magnification = standings::code_or(Code::Magnification, d, found[2], f.magnification);
    Film {
        orientation,
        magnification,
        ..f
    }
}

// The layout that Format gives.
pub fn layout_in(d: &[u8], syntax: Syntax, found: [Found; 4]) -> Layout
    requires { FilmFound (listing_of d.now syntax) found }
    ensures { result ≡ layout_in (listing_of d.now syntax) }
{
    layouts::layout_in(standings::value(d, found[0]))
}

fn format_severity(d: &[u8], found: Found) -> Severity
    requires { Placed d.now found }
    ensures { level result ≡ mandatory_found blank (λ v. not (eqb (length (counts_in v)) 0)) d.now found }
{
    let v = standings::value(d, found);
    let layout = layouts::layout_in(v);
    standings::mandatory_severity(found, texts::is_blank(v), layout.lines != 0)
}

#[tactic(auto, unfolding(rules::specs::Text::chars))]
fn is_session_class(u: &[u8]) -> bool
    ensures { result ≡ both (is_uid u.now) (same session_class u.now) }
{
    uids::is_uid(u) && octets::same_bytes(b"1.2.840.10008.5.1.1.1", u)
}

// "naming the live session"
#[tactic(auto, using(crate::proofs::Laws::session_dead, crate::proofs::Laws::session_live_lem))]
fn is_session(b: &Records, u: &[u8]) -> bool
    ensures { result ≡ both (is_uid u.now) (any (session_named (core_in b.now).numbers u.now) (sessions_of (core_in b.now))) }
{
    uids::is_uid(u) && b[AT_SESSIONS] != 0 && instances::is_named_at(b, AT_SESSIONS + 1, u)
}

fn class_severity(d: &[u8], found: Found) -> Severity
    requires { Placed d.now found }
    ensures { level result ≡ mandatory_found no_bytes (λ v. both (is_uid (unpadded v)) (same session_class (unpadded v))) d.now found }
{
    let v = standings::value(d, found);
    standings::mandatory_severity(found, v.len() == 0, is_session_class(uids::unpadded(v)))
}

fn instance_severity(b: &Records, d: &[u8], found: Found) -> Severity
    requires { Placed d.now found }
    ensures { level result ≡ mandatory_found no_bytes (λ v. both (is_uid (unpadded v)) (any (session_named (core_in b.now).numbers (unpadded v)) (sessions_of (core_in b.now)))) d.now found }
{
    let v = standings::value(d, found);
    standings::mandatory_severity(found, v.len() == 0, is_session(b, uids::unpadded(v)))
}

// The only item of the reference.
fn item_severity(b: &Records, d: &[u8], syntax: Syntax, inside: Inside) -> Severity
    requires { (inside.from ≤ inside.stop) × (inside.stop ≤ length d.now) }
    ensures { level result ≡ worst (reference_standings (core_in b.now) (listing_of d.now syntax) (One inside)) }
{
    let item = Scope {
        syntax,
        room: 3,
        inside,
    };
    let found = finding::gathered(d, item, [REFERENCED_CLASS, REFERENCED_INSTANCE]);
    let instance = instance_severity(b, d, found[1]);
    standings::worse(class_severity(d, found[0]), instance)
}

fn sequence_severity(b: &Records, d: &[u8], syntax: Syntax, inside: Inside) -> Severity
    requires { (inside.from ≤ inside.stop) × (inside.stop ≤ length d.now) }
    ensures { level result ≡ worst (reference_standings (core_in b.now) (listing_of d.now syntax) (items_at d.now (scope_of syntax 3 inside))) }
{
    let sequence = Scope {
        syntax,
        room: 3,
        inside,
    };
    match finding::items_in(d, sequence) {
        Items::Empty => Severity::Empty,
        Items::One(item) => item_severity(b, d, syntax, item),
        Items::Several(_) => Severity::Wrong,
    }
}

fn reference_severity(b: &Records, d: &[u8], syntax: Syntax, found: Found) -> Severity
    requires { found ≡ look (listing_of d.now syntax) 0x2010_0500 }
    ensures { level result ≡ worst (reference (core_in b.now) (listing_of d.now syntax) found) }
{
    match found {
        Found::Missing => Severity::Missing,
        Found::Value(_) => Severity::Wrong,
        Found::Sequence(inside) => sequence_severity(b, d, syntax, inside),
    }
}

// Check 8 of a film on create.
pub fn film_create_broken(
    b: &Records,
    d: &[u8],
    syntax: Syntax,
    found: [Found; 4],
) -> Result<(), Failure>
    requires { FilmFound (listing_of d.now syntax) found }
    ensures { number_by status_of result ≡ first_broken (attribute_rules (film_create_standings (core_in b.now) (listing_of d.now syntax))) }
{
    let mut worst = optional_film(d, syntax, found);
    worst = standings::worse(reference_severity(b, d, syntax, found[3]), worst);
    worst = standings::worse(format_severity(d, found[0]), worst);
    standings::status_of(worst)
}
