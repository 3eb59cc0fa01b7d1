// Acting: N-ACTION and N-DELETE decided: checks 6, 7, 10 and 11, and the effect.
#![tactic(auto)]

ghost use Rattle.std.specs.Prelude.{◌≡◌, true, [], ◌<◌, ◌≤◌, length};
ghost use Rattle.choice.specs.Pick.{pick};
ghost use Rattle.choice.specs.Rules.{first_broken, number_by};
ghost use Rattle.rules.specs.declared.Operation.TheVariants.{Act, Delete};
ghost use Rattle.rules.specs.declared.Instance.TheVariants.{TheSession, TheFilm};
ghost use Rattle.rules.specs.Records.{films_of};
ghost use Rattle.rules.specs.Failures.{status_of};
ghost use Rattle.rules.specs.Checks.{action_plan, delete_plan, plan_of, decided_by};
ghost use Rattle.rules.specs.Sound.{core_sound};
ghost use Rattle.records.specs.Places.{core_in};
ghost use Rattle.instances.specs.There.{There};
ghost use Rattle.verdicts.specs.Ready.{Ready, ReadyIn, UidsIn};
ghost use Rattle.verdicts.specs.Decided.{Decides, Follows};
ghost use Rattle.acting.specs.Acting.{action_rules, queuing};

use changes::{Decision, Effect};
use records::{Record, Records};
use rules::{Action, Core, Failure, Instance, Name, Note, Operation, Request, Target};

// Check 11: the warning, where a film has no filled box.
fn warned(empty: bool, warning: u16) -> u16
    ensures { result ≡ pick empty warning 0 }
{
    if empty { warning } else { 0 }
}

fn films_queued(effect: Effect, name: Name, status: u16, films: u32) -> Decision
    ensures { result ≡ queuing effect name status films }
{
    let change = changes::change_by(effect);
    Decision {
        done: true,
        status: status,
        change,
        instance: name,
        note: Note::FilmsQueued(films),
        contents: None,
    }
}

fn session_printed(k: &Core, name: Name) -> Result<Decision, Failure>
    requires { Ready k.now }
    ensures { Follows k.now (action_plan k.now TheSession name) result }
{
    printing::session_print_broken(k)?;
    let status = warned(printing::any_empty(k), 0xB602);
    let films = k.shelf.count as u32;
    Ok(films_queued(Effect::SessionPrinted, name, status, films))
}

fn film_printed(k: &Core, name: Name, i: usize) -> Result<Decision, Failure>
    requires { Ready k.now × (i < length (films_of k.now.shelf)) }
    ensures { Follows k.now (action_plan k.now (TheFilm i) name) result }
{
    printing::film_print_broken(k, i)?;
    let film = shelves::film_at(k.shelf, i);
    let status = warned(printing::none_filled(&film), 0xB603);
    Ok(films_queued(Effect::FilmPrinted(i), name, status, 1))
}

// Checks 10 and 11, over the core unpacked: not compiled into its caller, so that no other request has a core on its stack.
// Nobody and boxes are refused before.
#[inline(never)]
fn printed(b: &Records, name: Name, whom: Instance) -> Result<Decision, Failure>
    requires { ReadyIn b.now × There (core_in b.now) whom }
    ensures { Follows (core_in b.now) (action_plan (core_in b.now) whom name) result }
{
    let core = Core::read_at(b, 0);
    match whom {
        Instance::Nobody => Ok(verdicts::quiet(shelves::no_name())),
        Instance::TheSession => session_printed(&core, name),
        Instance::TheFilm(i) => film_printed(&core, name, i),
        Instance::TheBox { film: _, place: _ } => Ok(verdicts::quiet(shelves::no_name())),
    }
}

// "Deletion takes all below it." Nobody and boxes are refused before.
fn removed(name: Name, whom: Instance) -> Decision
    ensures { (k : Core) → Ready k → There k whom → Decides k result (delete_plan k whom name).verdict }
{
    match whom {
        Instance::Nobody => verdicts::quiet(shelves::no_name()),
        Instance::TheSession => {
            verdicts::with_change(changes::change_by(Effect::SessionDeleted), name)
        }
        Instance::TheFilm(i) => {
            verdicts::with_change(changes::change_by(Effect::FilmDeleted(i)), name)
        }
        Instance::TheBox { film: _, place: _ } => verdicts::quiet(shelves::no_name()),
    }
}

// Checks 6 and 7.
fn action_broken(b: &Records, c: &[u8], action: Action) -> Result<(), Failure>
    requires { (core_sound (core_in b.now) ≡ true) × UidsIn c.now (Act action) }
    ensures { number_by status_of result ≡ first_broken (action_rules (core_in b.now) c.now action) }
{
    checks::target_broken(b, c, action.class, action.instance)?;
    if action.kind != 1 {
        return Err(Failure::NoSuchAction);
    }
    Ok(())
}

fn action_planned(b: &Records, c: &[u8], action: Action) -> Result<Decision, Failure>
    requires { ReadyIn b.now × UidsIn c.now (Act action) }
    ensures { Follows (core_in b.now) (plan_of (core_in b.now) c.now [] (Act action)) result }
{
    action_broken(b, c, action)?;
    let whom = instances::named(b, instances::uid_at(c, action.instance));
    printed(b, verdicts::name_at(c, action.instance), whom)
}

// N-ACTION.
pub fn acted(b: &Records, c: &[u8], message: u16, action: Action) -> Decision
    requires { ReadyIn b.now × UidsIn c.now (Act action) }
    ensures { Decides (core_in b.now) result (decided_by (core_in b.now) c.now (record { message = message; operation = Act action }) (plan_of (core_in b.now) c.now [] (Act action))) }
{
    let request = Request {
        message,
        operation: Operation::Act(action),
    };
    verdicts::decided(c, request, action_planned(b, c, action))
}

fn deletion_planned(b: &Records, c: &[u8], target: Target) -> Result<Decision, Failure>
    requires { ReadyIn b.now × UidsIn c.now (Delete target) }
    ensures { Follows (core_in b.now) (plan_of (core_in b.now) c.now [] (Delete target)) result }
{
    checks::target_broken(b, c, target.class, target.instance)?;
    let whom = instances::named(b, instances::uid_at(c, target.instance));
    Ok(removed(verdicts::name_at(c, target.instance), whom))
}

// N-DELETE.
pub fn deleted(b: &Records, c: &[u8], message: u16, target: Target) -> Decision
    requires { ReadyIn b.now × UidsIn c.now (Delete target) }
    ensures { Decides (core_in b.now) result (decided_by (core_in b.now) c.now (record { message = message; operation = Delete target }) (plan_of (core_in b.now) c.now [] (Delete target))) }
{
    let request = Request {
        message,
        operation: Operation::Delete(target),
    };
    verdicts::decided(c, request, deletion_planned(b, c, target))
}
