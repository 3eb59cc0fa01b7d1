// Makes the calls of the kept traces (tests/traces) on the gateway, and holds each reply to the kept one. The arguments
// are a trace and its replies, by turns. Writes a line for each trace: how many replies were as kept, and whether
// another came then.
#![tactic(auto)]

mod calls;
mod replies;
mod words;

ghost use Rattle.std.specs.Prelude.{◌+◌, ◌≤◌, min, ◌≡◌, length, take, IfOk, IfSome};

use calls::Outcome;
use std::env::{Env, FillError};
use std::io::Read;
use std::rt::Files;
use std::{fs, io};
use words::find;

// So many bytes of an argument are read at most.
const ARGUMENT: usize = 4096;

fn print(rt: &impl Print, text: &[u8]) -> io::Result<()> {
    rt.write_all(text)
}

fn print_count(rt: &impl Print, n: usize) -> io::Result<()> {
    print!(rt; "{n}")
}

// Where a line stops, and where the next one begins.
#[derive(Clone, Copy)]
struct Line {
    stop: usize,
    next: usize,
}

fn line_at(s: &[u8], at: usize) -> Line
    requires { at ≤ length s.now }
    ensures { (at ≤ result.stop) × (result.stop ≤ length s.now) × (result.next ≤ length s.now) × (min (at + 1) (length s.now) ≤ result.next) }
{
    let stop = find(s, at, b'\n');
    if stop < s.len() {
        return Line {
            stop,
            next: stop + 1,
        };
    }
    Line { stop, next: stop }
}

// What a trace came to: how many replies were as kept, how many calls were not made, and whether that was all of it.
#[derive(Clone, Copy)]
struct Finding {
    same: usize,
    passed: usize,
    whole: bool,
}

// The calls are made on records and a message buffer of this program; before any open the least one is lent.
fn replayed(records: &mut [u8], message: &mut [u8], trace: &[u8], kept: &[u8]) -> Finding {
    let mut room = 4096;
    let mut same = 0;
    let mut passed = 0;
    let mut at = 0;
    let mut told = 0;
    // the next place depends on the line that was read
    while at < trace.len() {
        let line = line_at(trace, at);
        let reply = line_at(kept, told);
        let stop = line.stop;
        let end = reply.stop;
        match calls::call(records, message, room, &trace[at..stop], &kept[told..end]) {
            Outcome::AsKept(lent) => {
                room = lent;
                same += 1;
            }
            Outcome::NotMade => {
                passed += 1;
            }
            Outcome::Other => {
                return Finding {
                    same,
                    passed,
                    whole: false,
                };
            }
        }
        at = line.next;
        told = reply.next;
    }
    Finding {
        same,
        passed,
        whole: told == kept.len(),
    }
}

fn print_passed(rt: &impl Print, n: usize) -> io::Result<()> {
    if n == 0 {
        return Ok(());
    }
    print(rt, b", calls not made: ")?;
    print_count(rt, n)
}

fn print_rest(rt: &impl Print, whole: bool) -> io::Result<()> {
    if whole {
        return Ok(());
    }
    print(rt, b", then another")
}

fn report(rt: &impl Print, finding: Finding) -> io::Result<()> {
    print_count(rt, finding.same)?;
    print(rt, b" replies as kept")?;
    print_passed(rt, finding.passed)?;
    print_rest(rt, finding.whole)?;
    print(rt, b"\n")
}

fn print_argument(rt: &impl Print, name: &[u8]) -> io::Result<()> {
    print(rt, name)
}

// Reads until the slice is full or the input ends.
fn read_full(file: &mut impl Read, into: &mut [u8]) -> io::Result<usize>
    ensures { IfOk result (λ n. (n ≤ length into.new) × (n ≡ length (take n into.new))) }
{
    let mut done = 0;
    while done < into.len() {
        let n = file.read(&mut into[done..])?;
        if n == 0 {
            return Ok(done);
        }
        done += n;
    }
    Ok(done)
}

// Reads the file that an argument names.
fn read(rt: &impl Files, name: &[u8], into: &mut [u8]) -> io::Result<usize>
    ensures { IfOk result (λ n. (n ≤ length into.new) × (n ≡ length (take n into.new))) }
{
    let Ok(path) = str::from_utf8(name) else {
        return Err(io::Error::from(io::ErrorKind::InvalidInput));
    };
    let mut file = fs::open(rt, path)?;
    read_full(&mut file, into)
}

// The longest that a kept trace opens with, but for those past the limit.
fn message_buffer() -> [u8; 65537]
    ensures { 65537 ≡ length result }
{
    [0; 65537]
}

fn replay(rt: &(impl Files + Print), name: &[u8], replies: &[u8]) -> io::Result<()> {
    let mut trace = [0; 65536];
    let calls = read(rt, name, &mut trace)?;
    let mut kept = [0; 65536];
    let told = read(rt, replies, &mut kept)?;
    let mut records = [0; records::RECORDS];
    let mut message = message_buffer();
    print_argument(rt, name)?;
    print(rt, b": ")?;
    report(
        rt,
        replayed(&mut records, &mut message, &trace[..calls], &kept[..told]),
    )
}

// An argument's bytes: none of one that is longer than the buffer, and nothing where there is no such argument.
fn argument(rt: &impl Env, i: usize, into: &mut [u8]) -> Option<usize>
    ensures { IfSome result (λ n. n ≤ length into.new) }
{
    match rt.arg(i, into) {
        Ok(n) => Some(n),
        Err(FillError::TooLong) => Some(0),
        Err(FillError::NotPresent) => None,
    }
}

fn main(rt: HostRuntime) -> io::Result<()> {
    for pair in 0..u32::MAX {
        let i = 1 + 2 * pair as usize;
        let mut name = [0; ARGUMENT];
        let mut replies = [0; ARGUMENT];
        let Some(n) = argument(&rt, i, &mut name) else {
            return Ok(());
        };
        let Some(m) = argument(&rt, i + 1, &mut replies) else {
            return Ok(());
        };
        replay(&rt, &name[..n], &replies[..m])?;
    }
    Ok(())
}
