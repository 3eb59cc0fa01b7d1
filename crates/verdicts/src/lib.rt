// Verdicts: the names that a verdict has, and the decisions that tell nothing but an instance, or fail.
#![tactic(auto)]

ghost use Rattle.std.specs.Prelude.{◌≡◌, length};
ghost use Rattle.rules.specs.Commands.{uid_at};
ghost use Rattle.rules.specs.Records.{sent_name};
ghost use Rattle.rules.specs.Checks.{quietly, sent_or_none, failed_name, failed};
ghost use Rattle.rules.specs.Failures.{status_of};
ghost use Rattle.rules.specs.declared.Core.{Core};
ghost use Rattle.rules.specs.declared.Verdict.{Verdict};
ghost use Rattle.commands.specs.Within.{PartIn};
ghost use Rattle.changes.specs.Changes.{changed, verdict_of};
ghost use Rattle.verdicts.specs.Ready.{UidIn, UidsIn};
ghost use Rattle.verdicts.specs.Decided.{Decides, Comes};

use changes::{Change, Decision, Effect};
use headers::Part;
use rules::{Failure, Name, Note, Operation, Request};

// The UID at a place of the command, as a name that was sent.
pub fn name_at(c: &[u8], p: Part) -> Name
    requires { UidIn c.now p }
    ensures { result ≡ sent_name (uid_at c.now p) }
{
    shelves::sent_name(instances::uid_at(c, p))
}

// Done, with this change and nothing to tell but an instance.
pub fn with_change(change: Change, name: Name) -> Decision
    ensures { ((k : Core) → verdict_of k result ≡ quietly (changed k change) name) × (result.change ≡ change) }
{
    Decision {
        done: true,
        status: 0,
        change,
        instance: name,
        note: Note::NoNote,
        contents: None,
    }
}

// The same where nothing changes.
pub fn quiet(name: Name) -> Decision
    ensures { (k : Core) → Decides k result (quietly k name) }
{
    with_change(changes::change_by(Effect::Kept), name)
}

// "a failed create leaves it out if none was sent .. or it breaks PS3.5"
fn sent_name(c: &[u8], sent: Part) -> Name
    requires { PartIn (length c.now) sent }
    ensures { result ≡ sent_or_none c.now sent }
{
    if sent.stop - sent.from == 0 {
        return shelves::no_name();
    }
    if uids::is_uid(instances::uid_at(c, sent)) {
        return name_at(c, sent);
    }
    shelves::no_name()
}

// The instance that a failure names.
fn failed_name(c: &[u8], operation: Operation) -> Name
    requires { UidsIn c.now operation }
    ensures { result ≡ failed_name c.now operation }
{
    match operation {
        Operation::Echo(_) => shelves::no_name(),
        Operation::Create(creation) => sent_name(c, creation.sent),
        Operation::Set(target) => name_at(c, target.instance),
        Operation::Act(action) => name_at(c, action.instance),
        Operation::Delete(target) => name_at(c, target.instance),
    }
}

// A failure with this note: nothing changes.
pub fn failed(c: &[u8], request: Request, note: Note, failure: Failure) -> Decision
    requires { UidsIn c.now request.operation }
    ensures { (k : Core) → Decides k result (failed k c.now request note (status_of failure)) }
{
    let name = failed_name(c, request.operation);
    let change = changes::change_by(Effect::Kept);
    Decision {
        done: false,
        status: u16::from(failure),
        change,
        instance: name,
        note,
        contents: None,
    }
}

// What a request comes to by checks 6 to 11: a decision, or a failure without a note.
pub fn decided(c: &[u8], request: Request, planned: Result<Decision, Failure>) -> Decision
    requires { UidsIn c.now request.operation }
    ensures { (k : Core) (v : Verdict) → Comes k c.now request planned v → Decides k result v }
{
    match planned {
        Ok(decision) => decision,
        Err(failure) => failed(c, request, Note::NoNote, failure),
    }
}
