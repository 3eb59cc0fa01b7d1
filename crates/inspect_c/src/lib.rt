// The reader of data sets, for C to link: the library's function, with its clause.
#![tactic(auto)]

ghost use Rattle.std.specs.Prelude.{◌≡◌};
ghost use Rattle.inspect.specs.Inspected.{inspected};

// Syntax 1 is implicit VR, 2 explicit. Answers 0 where the bytes are read whole, 1 to 7 for the refusal, 8 for another syntax, 9 for
// a buffer of less than 12 bytes. With 0 to 7 it writes how many headers were passed, and with 1 to 7 before that the place and the
// depth at which the reading stopped, in four bytes each.
#[unsafe(no_mangle)]
pub extern "C" fn inspect_data_set(s: &[u8], syntax: u32, reading: &mut [u8]) -> u32
    ensures { (result ≡ (inspected s.now syntax reading.old).answer) × (reading.new ≡ (inspected s.now syntax reading.old).reading) }
{
    inspect::inspect_data_set(s, syntax, reading)
}
