// Inspect: whether bytes are a data set, where the reading stopped, and how many headers it passed. inspect_c exports it to C.
#![tactic(auto)]

ghost use Rattle.std.specs.Prelude.{◌≤◌, ◌≡◌, length};
ghost use Rattle.inspect.specs.Inspected.{stop_laid, inspected};

use elements::Stop;

fn put_stop(out: &mut [u8], stop: Stop)
    requires { 8 ≤ length out.old }
    ensures { out.new ≡ stop_laid out.old stop }
{
    fields::put_number(out, 0, 4, stop.place as u64);
    fields::put_number(out, 4, 4, stop.depth as u64);
}

// Syntax 1 is implicit VR, 2 explicit. Answers 0 where the bytes are read whole, 1 to 7 for the refusal, 8 for another syntax, 9 for
// a buffer of less than 12 bytes. With 0 to 7 it writes how many headers were passed, and with 1 to 7 before that the place and the
// depth at which the reading stopped, in four bytes each.
pub fn inspect_data_set(s: &[u8], syntax: u32, reading: &mut [u8]) -> u32
    ensures { (result ≡ (inspected s.now syntax reading.old).answer) × (reading.new ≡ (inspected s.now syntax reading.old).reading) }
{
    if reading.len() < 12 {
        return 9;
    }
    if syntax < 1 {
        return 8;
    }
    if 2 < syntax {
        return 8;
    }
    let told = elements::data_set(s, headers::syntax_of(syntax as u8));
    fields::put_number(reading, 8, 4, told.passed as u64);
    let read = told.read;
    match read {
        Ok(_) => 0,
        Err(stop) => {
            put_stop(reading, stop);
            stop.number as u32
        }
    }
}
