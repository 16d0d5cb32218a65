// Runs the call of a sample's case.
#![tactic(auto)]

ghost use Rattle.std.specs.Prelude.{None, ◌≡◌};

use samples::{Call, Op, byte, long, word};

// The number of a case whose call is not run: no call returns it.
pub const NO_CALL: u32 = 4294967295;

// The work that the import of a file is lent: 8 times the file's length, with what earlier cases left in it, for no answer
// depends on that.
fn lend<'a>(work: &'a mut [u8], file: &[u8]) -> Option<&'a mut [u8]> {
    work.get_mut(..file.len().saturating_mul(8))
}

// Runs the call that the op names, and returns its number, or none where no op is named or the work does not suffice.
pub fn run(c: Call, work: &mut [u8], out: &mut [u8], values: &mut [u64]) -> Option<u32>
    ensures unknown { c.entry.op ≡ None → result ≡ None }
{
    let numbers = c.numbers;
    let number = match c.op? {
        Op::Unpack => lumbryth::lumbryth_unpack(c.first, out, values),
        Op::Pack => {
            lumbryth::lumbryth_pack(byte(numbers, 0), byte(numbers, 1), c.first, out, values)
        }
        Op::FixtureName => {
            let (ms, counter, way) = (long(numbers, 0), word(numbers, 8), byte(numbers, 12));
            lumbryth::lumbryth_fixture_name(ms, counter, way, c.first, out, values)
        }
        Op::IsCommandName => lumbryth::lumbryth_is_command_name(c.first),
        Op::Plan => lumbryth::lumbryth_plan(c.first, c.second, out, values),
        Op::CaptureOrder => lumbryth::lumbryth_capture_order(c.first, out, values),
        Op::ImportStrict => {
            let work = lend(work, c.first)?;
            lumbryth::lumbryth_import_strict(c.first, work, out, word(numbers, 0), values)
        }
        Op::Import => {
            let work = lend(work, c.first)?;
            lumbryth::lumbryth_import(c.first, work, out, word(numbers, 0), 1, values)
        }
    };
    Some(number)
}
