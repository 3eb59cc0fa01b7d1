// Reads the data sets of data/ that stock tools made, and their damaged copies, and writes what the reader finds: the
// number of the refusal, or the value of each named tag, at the top level and in the only item of a sequence. The
// arguments are a file and its syntax, by turns. What is expected is those tools' own reading.
#![tactic(auto)]

ghost use Rattle.std.specs.Prelude.{◌≤◌, length, IfOk, IfSome};

use elements::{Found, Items};
use headers::{Inside, Part, Scope, Syntax};
use std::env::{Env, FillError};
use std::rt::Files;
use std::{fs, io};

// So many bytes of a file are read at most, and of an argument.
const MOST: usize = 4096;

const NAMED: [usize; 35] = [
    0x0000_0000,
    0x0000_0002,
    0x0000_0003,
    0x0000_0100,
    0x0000_0110,
    0x0000_0120,
    0x0000_0800,
    0x0000_0900,
    0x0000_1000,
    0x0000_1001,
    0x0000_1008,
    0x0008_1150,
    0x0008_1155,
    0x0028_0002,
    0x0028_0004,
    0x0028_0010,
    0x0028_0011,
    0x0028_0100,
    0x0028_0101,
    0x0028_0102,
    0x0028_0103,
    0x2000_0010,
    0x2000_0020,
    0x2000_0030,
    0x2000_0040,
    0x2000_0050,
    0x2010_0010,
    0x2010_0040,
    0x2010_0060,
    0x2010_0500,
    0x2010_0510,
    0x2020_0010,
    0x2020_0020,
    0x2020_0110,
    0x7FE0_0010,
];

fn print(rt: &impl Print, text: &[u8]) -> io::Result<()> {
    rt.write_all(text)
}

fn print_count(rt: &impl Print, n: usize) -> io::Result<()> {
    println!(rt; " items {n}")
}

// A tag, after that of the sequence whose item it stands in, unless that is 0.
fn print_tag(rt: &impl Print, over: usize, tag: usize) -> io::Result<()> {
    if over != 0 {
        print!(rt; "{over:08x}.")?;
    }
    print!(rt; "{tag:08x}")
}

fn print_byte(rt: &impl Print, b: u8) -> io::Result<()> {
    print!(rt; "{b:02x}")
}

fn print_bytes(rt: &impl Print, s: &[u8]) -> io::Result<()> {
    for b in s {
        print_byte(rt, *b)?;
    }
    Ok(())
}

// The part where it lies in the slice, else nothing, which the expected output then shows.
fn kept(s: &[u8], part: Inside) -> Inside
    ensures { (result.from ≤ result.stop) × (result.stop ≤ length s.now) }
{
    if s.len() < part.stop || part.stop < part.from {
        return Inside {
            from: 0,
            stop: 0,
            loose: false,
        };
    }
    part
}

// What a sequence or an item holds, with room for so many sequences within one another.
fn scope_in(s: &[u8], syntax: Syntax, room: usize, part: Inside) -> Scope
    ensures { (result.inside.from ≤ result.inside.stop) × (result.inside.stop ≤ length s.now) }
{
    let inside = kept(s, part);
    Scope {
        syntax,
        room,
        inside,
    }
}

// A value's bytes, or a mark where it has none.
fn print_value(rt: &impl Print, s: &[u8], value: Part) -> io::Result<()> {
    let part = kept(
        s,
        Inside {
            from: value.from,
            stop: value.stop,
            loose: false,
        },
    );
    let from = part.from;
    let stop = part.stop;
    print(rt, b" ")?;
    if from == stop {
        print(rt, b"-")?;
    }
    print_bytes(rt, &s[from..stop])?;
    print(rt, b"\n")
}

// How many items a sequence inside an item has.
fn print_inner_items(
    rt: &impl Print,
    s: &[u8],
    syntax: Syntax,
    sequence: Inside,
) -> io::Result<()> {
    match finding::items_in(s, scope_in(s, syntax, 2, sequence)) {
        Items::Empty => print_count(rt, 0),
        Items::One(_) => print_count(rt, 1),
        Items::Several(n) => print_count(rt, n),
    }
}

// What the only item of the sequence `over` holds under a tag.
fn print_inner(
    rt: &impl Print,
    s: &[u8],
    syntax: Syntax,
    over: usize,
    item: Inside,
    tag: usize,
) -> io::Result<()> {
    match finding::find(s, scope_in(s, syntax, 3, item), tag) {
        Found::Missing => Ok(()),
        Found::Value(value) => {
            print_tag(rt, over, tag)?;
            print_value(rt, s, value)
        }
        Found::Sequence(sequence) => {
            print_tag(rt, over, tag)?;
            print_inner_items(rt, s, syntax, sequence)
        }
    }
}

fn print_item(
    rt: &impl Print,
    s: &[u8],
    syntax: Syntax,
    over: usize,
    item: Inside,
) -> io::Result<()> {
    for tag in NAMED {
        print_inner(rt, s, syntax, over, item, tag)?;
    }
    Ok(())
}

// How many items a sequence has, and what the only one holds.
fn print_items(
    rt: &impl Print,
    s: &[u8],
    syntax: Syntax,
    tag: usize,
    sequence: Inside,
) -> io::Result<()> {
    match finding::items_in(s, scope_in(s, syntax, 3, sequence)) {
        Items::Empty => print_count(rt, 0),
        Items::One(item) => {
            print_count(rt, 1)?;
            print_item(rt, s, syntax, tag, item)
        }
        Items::Several(n) => print_count(rt, n),
    }
}

// What the data set holds under a tag.
fn print_outer(rt: &impl Print, s: &[u8], syntax: Syntax, tag: usize) -> io::Result<()> {
    match finding::find(s, elements::data_scope(s, syntax), tag) {
        Found::Missing => Ok(()),
        Found::Value(value) => {
            print_tag(rt, 0, tag)?;
            print_value(rt, s, value)
        }
        Found::Sequence(sequence) => {
            print_tag(rt, 0, tag)?;
            print_items(rt, s, syntax, tag, sequence)
        }
    }
}

fn print_data_set(rt: &impl Print, s: &[u8], syntax: Syntax) -> io::Result<()> {
    for tag in NAMED {
        print_outer(rt, s, syntax, tag)?;
    }
    Ok(())
}

fn report(rt: &impl Print, s: &[u8], syntax: Syntax) -> io::Result<()> {
    match elements::data_set(s, syntax).read {
        Err(stop) => {
            let number = stop.number;
            println!(rt; " refused {number}")
        }
        Ok(p) => {
            if p != s.len() {
                print(rt, b" not to its end")?;
            }
            print(rt, b" read\n")?;
            print_data_set(rt, s, syntax)
        }
    }
}

// The syntax that a word beginning so names.
fn syntax_named(first: u8) -> Syntax {
    if first == b'e' {
        return Syntax::Explicit;
    }
    Syntax::Implicit
}

// Reads until the slice is full or the input ends; as in traces, for the two programs share only what they try.
fn read_full(file: &mut impl io::Read, into: &mut [u8]) -> io::Result<usize>
    ensures { IfOk result (λ n. n ≤ length into.new) }
{
    let mut done = 0;
    while done < into.len() {
        let n = file.read(&mut into[done..])?;
        if n == 0 {
            return Ok(done);
        }
        done += n;
    }
    Ok(done)
}

// Reads the file that an argument names.
fn read(rt: &impl Files, name: &[u8], into: &mut [u8]) -> io::Result<usize>
    ensures { IfOk result (λ n. n ≤ length into.new) }
{
    let Ok(path) = str::from_utf8(name) else {
        return Err(io::Error::from(io::ErrorKind::InvalidInput));
    };
    let mut file = fs::open(rt, path)?;
    read_full(&mut file, into)
}

// The file that one argument names, in the syntax that another does.
fn report_file(rt: &(impl Files + Print), name: &[u8], named: &[u8]) -> io::Result<()> {
    print(rt, name)?;
    print(rt, b" ")?;
    print(rt, named)?;
    let syntax = syntax_named(named.first().copied().unwrap_or(0));
    let mut bytes = [0; MOST];
    let got = read(rt, name, &mut bytes)?;
    report(rt, &bytes[..got], syntax)
}

// An argument's bytes: none of one that is longer than the buffer, and nothing where there is no such argument.
fn argument(rt: &impl Env, i: usize, into: &mut [u8]) -> Option<usize>
    ensures { IfSome result (λ n. n ≤ length into.new) }
{
    match rt.arg(i, into) {
        Ok(n) => Some(n),
        Err(FillError::TooLong) => Some(0),
        Err(FillError::NotPresent) => None,
    }
}

fn main(rt: HostRuntime) -> io::Result<()> {
    for pair in 0..u32::MAX {
        let i = 1 + 2 * pair as usize;
        let mut name = [0; MOST];
        let mut named = [0; MOST];
        let Some(n) = argument(&rt, i, &mut name) else {
            return Ok(());
        };
        let Some(m) = argument(&rt, i + 1, &mut named) else {
            return Ok(());
        };
        report_file(&rt, &name[..n], &named[..m])?;
    }
    Ok(())
}
