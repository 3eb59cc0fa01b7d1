// Checks: checks 2 to 6 of a request.
#![tactic(auto)]

ghost use Rattle.std.specs.Prelude.{◌≡◌, true, ◌≤◌, length};
ghost use Rattle.choice.specs.Rules.{first_broken, number_by};
ghost use Rattle.rules.specs.Failures.{status_of};
ghost use Rattle.rules.specs.Checks.{is_unknown, is_too_long, reading_of, is_nobody, of_class, general_rules, create_rules, target_rules};
ghost use Rattle.rules.specs.Sound.{core_sound};
ghost use Rattle.records.specs.Places.{core_in};
ghost use Rattle.commands.specs.Within.{PartIn, OperationIn};

use elements::Stop;
use headers::{Part, Syntax};
use records::Records;
use rules::{Class, Failure, Instance, Operation};
use strike::Came;

fn is_nobody(whom: Instance) -> bool
    ensures { result ≡ is_nobody whom }
{
    matches!(whom, Instance::Nobody)
}

// Check 6: what a UID sent with N-CREATE fails for.
pub fn create_broken(b: &Records, c: &[u8], sent: Part) -> Result<(), Failure>
    requires { (core_sound (core_in b.now) ≡ true) × PartIn (length c.now) sent }
    ensures { number_by status_of result ≡ first_broken (create_rules (core_in b.now) c.now sent) }
{
    if sent.stop - sent.from == 0 {
        return Ok(());
    }
    let uid = instances::uid_at(c, sent);
    if !uids::is_uid(uid) {
        return Err(Failure::InvalidInstance);
    }
    if instances::is_rooted(b, uid) {
        return Err(Failure::InvalidInstance);
    }
    if !is_nobody(instances::named(b, uid)) {
        return Err(Failure::DuplicateInstance);
    }
    Ok(())
}

// Whether an instance is of a class.
fn of_class(class: Class, whom: Instance) -> bool
    ensures { result ≡ of_class class whom }
{
    match class {
        Class::Verification => false,
        Class::Sessions => matches!(whom, Instance::TheSession),
        Class::Films => matches!(whom, Instance::TheFilm(_)),
        Class::Boxes => matches!(whom, Instance::TheBox { film: _, place: _ }),
        Class::UnknownClass => false,
    }
}

// Check 6: what an instance asked for fails for.
pub fn target_broken(b: &Records, c: &[u8], class: Part, instance: Part) -> Result<(), Failure>
    requires { (core_sound (core_in b.now) ≡ true) × PartIn (length c.now) class × PartIn (length c.now) instance }
    ensures { number_by status_of result ≡ first_broken (target_rules (core_in b.now) c.now class instance) }
{
    let whom = instances::named(b, instances::uid_at(c, instance));
    if is_nobody(whom) {
        return Err(Failure::NoSuchInstance);
    }
    let asked = instances::class_of(instances::uid_at(c, class));
    if !of_class(asked, whom) {
        return Err(Failure::OtherClass);
    }
    Ok(())
}

fn is_unknown(class: Class) -> bool
    ensures { result ≡ is_unknown class }
{
    matches!(class, Class::UnknownClass)
}

fn is_too_long(came: Came) -> bool
    ensures { result ≡ is_too_long came }
{
    matches!(came, Came::TooLong)
}

// Check 5: what the reader says of the data set.
pub fn reading(syntax: Syntax, came: Came, d: &[u8]) -> Result<usize, Stop>
    ensures { result ≡ reading_of syntax came d.now }
{
    match came {
        Came::Absent => Ok(0),
        Came::Whole => {
            let reading = elements::data_set(d, syntax);
            reading.read
        }
        Came::TooLong => Ok(0),
    }
}

// Checks 2 to 4: what a request fails for first.
pub fn general_broken(c: &[u8], came: Came, operation: Operation) -> Result<(), Failure>
    requires { OperationIn (length c.now) operation }
    ensures { number_by status_of result ≡ first_broken (general_rules c.now came operation) }
{
    let class = instances::class_of(instances::uid_at(c, instances::class_part(operation)));
    if is_unknown(class) {
        return Err(Failure::NoSuchClass);
    }
    if !instances::offers(class, operation) {
        return Err(Failure::NotOffered);
    }
    if is_too_long(came) {
        return Err(Failure::NoRoom);
    }
    Ok(())
}
