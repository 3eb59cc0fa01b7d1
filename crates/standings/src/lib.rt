// Standings: how badly an attribute stands in a data set, and the failure that the worst of them gives (check 8).
#![tactic(auto, unfolding(crate::specs::Severity::severity_by, crate::specs::Severity::optional_by, crate::specs::Severity::given_by, crate::specs::Severity::status_of))]

ghost use Rattle.std.specs.Prelude.{◌≡◌};
ghost use Rattle.choice.specs.Rules.{number_by};
ghost use Rattle.rules.specs.Values.{blank, code_in};
ghost use Rattle.rules.specs.Commands.{placed};
ghost use Rattle.rules.specs.Attributes.{code_allowed};
ghost use Rattle.rules.specs.Failures as failures;
ghost use Rattle.values.specs.Codes.{code_texts};
ghost use Rattle.standings.specs.Severity.{kind_of, severity_by, optional_by, given_by, worse, status_of};
ghost use Rattle.standings.specs.Founds.{Placed, bytes_found, mandatory_found, optional_found, found_or};
ghost use Rattle.standings.specs.Level.{level};

use elements::Found;
use headers::Part;
use rules::Failure;
use values::Code;

// How badly an attribute stands: the later, the worse.
#[derive(Clone, Copy, PartialEq, Eq, PartialOrd, Ord)]
pub enum Severity {
    Allowed,
    Wrong,
    Empty,
    Missing,
}

// Where the value stands that was found.
pub fn place(found: Found) -> Part
    ensures { result ≡ placed found }
{
    match found {
        Found::Missing => Part { from: 0, stop: 0 },
        Found::Value(part) => part,
        Found::Sequence(_) => Part { from: 0, stop: 0 },
    }
}

// Its bytes, none where it is no value.
pub fn value(d: &[u8], found: Found) -> &[u8]
    requires { Placed d.now found }
    ensures { result.now ≡ bytes_found d.now found }
{
    let part = place(found);
    &d[part.from..part.stop]
}

// The number of what was found: nothing, a value, a sequence.
fn kind_of(found: Found) -> u8
    ensures { result ≡ kind_of found }
{
    match found {
        Found::Missing => 0,
        Found::Value(_) => 1,
        Found::Sequence(_) => 2,
    }
}

// A mandatory attribute, by that number and the tests that its value is empty and that it is allowed. Any other number is a value's.
pub fn severity_by_kind(kind: u8, empty: bool, allowed: bool) -> Severity
    ensures { level result ≡ severity_by kind empty allowed }
{
    match kind {
        0 => Severity::Missing,
        2 => Severity::Wrong,
        _ => {
            if empty {
                Severity::Empty
            } else if allowed {
                Severity::Allowed
            } else {
                Severity::Wrong
            }
        }
    }
}

// The same, by what was found.
pub fn mandatory_severity(found: Found, empty: bool, allowed: bool) -> Severity
    ensures { level result ≡ severity_by (kind_of found) empty allowed }
{
    severity_by_kind(kind_of(found), empty, allowed)
}

// "Optional empty values .. count as absent"
pub fn optional_severity(found: Found, empty: bool, allowed: bool) -> Severity
    ensures { level result ≡ optional_by (kind_of found) empty allowed }
{
    match mandatory_severity(found, empty, allowed) {
        Severity::Wrong => Severity::Wrong,
        _ => Severity::Allowed,
    }
}

// A mandatory code.
pub fn code_severity(code: Code, d: &[u8], found: Found) -> Severity
    requires { Placed d.now found }
    ensures { level result ≡ mandatory_found blank (code_allowed (code_texts code)) d.now found }
{
    let v = value(d, found);
    let allowed = values::code_in(code, v).is_some();
    mandatory_severity(found, texts::is_blank(v), allowed)
}

// An optional one.
pub fn optional_code_severity(code: Code, d: &[u8], found: Found) -> Severity
    requires { Placed d.now found }
    ensures { level result ≡ optional_found (code_allowed (code_texts code)) d.now found }
{
    let v = value(d, found);
    let allowed = values::code_in(code, v).is_some();
    optional_severity(found, texts::is_blank(v), allowed)
}

pub fn is_given(found: Found, empty: bool) -> bool
    ensures { result ≡ given_by (kind_of found) empty }
{
    match found {
        Found::Missing => false,
        Found::Value(_) => !empty,
        Found::Sequence(_) => true,
    }
}

// What a code gives, or what is kept where it is absent. The book counts the texts where the value is none of them.
pub fn code_or(code: Code, d: &[u8], found: Found, kept: u8) -> u8
    requires { Placed d.now found }
    ensures { result ≡ found_or (code_in (code_texts code)) d.now found kept }
{
    let v = value(d, found);
    if !is_given(found, texts::is_blank(v)) {
        return kept;
    }
    values::code_in(code, v).unwrap_or(values::code_texts(code).len()) as u8
}

#[tactic(auto, using(crate::proofs::Laws::greater))]
pub fn worse(a: Severity, b: Severity) -> Severity
    ensures { level result ≡ worse (level a) (level b) }
{
    a.max(b)
}

// The failure that the worst of them gives.
pub fn status_of(worst: Severity) -> Result<(), Failure>
    ensures { number_by failures.status_of result ≡ status_of (level worst) }
{
    match worst {
        Severity::Missing => Err(Failure::MissingAttribute),
        Severity::Empty => Err(Failure::MissingValue),
        Severity::Wrong => Err(Failure::WrongValue),
        Severity::Allowed => Ok(()),
    }
}
