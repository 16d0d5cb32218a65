// Names of fixtures: digits, the parts of a name, the name of a frame.
#![tactic(auto)]

ghost use Rattle.std.specs.Prelude.{◌≡◌, ◌+◌, ◌-◌, ◌≤◌, ◌<◌, length, replicate};
ghost use Rattle.laws.specs.Answers.{Meets};
ghost use Rattle.laws.specs.Stores.{Writes};
ghost use Rattle.items.specs.Items.{rx_of};
ghost use Rattle.commands.specs.Labels.{command_name};
ghost use Rattle.commands.specs.Numbers.{name_at, Spot};
ghost use Rattle.names.specs.Names.{way_name, name_len, given, look_at, fixture_name};
ghost use Rattle.names.specs.Told.{told_named};
ghost use Rattle.names.specs.Stamps.{name_with};
ghost use Rattle.names.specs.Parts.{head_of, head_len, part_of, part_len, type_part, type_len, seq_part, command_part, command_len, NameLen};
ghost use Rattle.names.specs.Digits.{hex_digit, hex2, decimal, decimal6, DigitCount};

use commands::{Name, command_name, data_type_name};
use items::Direction;
use letters::{name_len, put_name};
use mdr::{DataType, Frame, UnpackError};

// Stays: output and place side by side, here and below; a struct of them would hold the output as &mut, and speak of its old and new bytes too.
// ---- digits: each function returns the place after what it wrote

// Stays: char::from_digit gives an Option of a char, to be unwrapped and made a byte; in a table of the sixteen digits the promise would be
// shown digit by digit.
fn hex_digit(n: u8) -> u8
    requires { n < 16 }
    ensures { result ≡ hex_digit n }
{
    if n < 10 {
        return 48 + n;
    }
    87 + n
}

// A byte in two hexadecimal digits.
// Stays: digits are put by hand, here and below. write! says what it writes only of a writer that has contents, and neither a slice nor a Cursor
// over one has: what Cursor's own write promises of its bytes (`written`) does not reach write!. fmt::Write has no impl for either.
fn put_hex(out: &mut [u8], at: usize, b: u8) -> usize
    requires { at + 2 ≤ length out.old }
    ensures { Writes out.old at (hex2 b) result out.new }
{
    out[at] = hex_digit(b / 16);
    out[at + 1] = hex_digit(b % 16);
    at + 2
}

// How many decimal digits a number has.
fn decimal_len(n: u64) -> usize
    ensures { DigitCount n result }
{
    n.max(1).ilog10() as usize + 1
}

// A number in decimal, its last digit first.
fn put_decimal(out: &mut [u8], at: usize, n: u64) -> usize
    requires { at + length (decimal n) ≤ length out.old }
    ensures { Writes out.old at (decimal n) result out.new }
{
    let end = at + decimal_len(n);
    let mut rest = n;
    for to in (at..end).rev() {
        out[to] = 48 + (rest % 10) as u8;
        rest /= 10;
    }
    end
}

fn put_zeros(out: &mut [u8], at: usize, k: usize) -> usize
    requires k_bound { k ≤ 6 }
    requires k_in_bounds { at + k ≤ length out.old }
    ensures { Writes out.old at (replicate k 48) result out.new }
{
    let zeros = [48u8; 6];
    words::copy_to(&zeros[..k], out, at)
}

// A number in decimal, with zeros before it to six digits.
fn put_counter(out: &mut [u8], at: usize, n: u32) -> usize
    requires { at + length (decimal6 n) ≤ length out.old }
    ensures { Writes out.old at (decimal6 n) result out.new }
{
    let n = n as u64;
    let z = 6usize.saturating_sub(decimal_len(n));
    let to = put_zeros(out, at, z);
    put_decimal(out, to, n)
}

// ---- the name of a frame

// A frame with the name of its command, which is looked up once for all that is asked of the frame's name.
#[derive(Clone, Copy)]
pub struct Named {
    pub frame: Frame,
    pub command: Name,
    pub ghost known: { Spot command.number (command_name frame) },
}

// What a name says of a frame beside its bytes: when it crossed the link, its number among the frames (the counter), and which way it went.
#[derive(Clone, Copy)]
pub struct Stamp {
    pub ms: u64,
    pub counter: u32,
    pub direction: Direction,
}

fn put_way(out: &mut [u8], at: usize, direction: Direction) -> usize
    requires { at + 2 ≤ length out.old }
    ensures { Writes out.old at (way_name (rx_of direction)) result out.new }
{
    match direction {
        Direction::Rx => words::copy_to(b"rx", out, at),
        Direction::Tx => words::copy_to(b"tx", out, at),
    }
}

fn put_head(out: &mut [u8], at: usize, stamp: Stamp) -> usize
    requires { at + head_len stamp.ms stamp.counter ≤ length out.old }
    ensures { Writes out.old at (head_of stamp.ms stamp.counter (rx_of stamp.direction)) result out.new }
{
    let a = words::copy_to(b"mdr-packet-", out, at);
    let b = put_decimal(out, a, stamp.ms);
    let c = words::copy_to(b"-", out, b);
    let d = put_counter(out, c, stamp.counter);
    let e = words::copy_to(b"-", out, d);
    put_way(out, e, stamp.direction)
}

// A label, a name, and a byte.
fn put_part(out: &mut [u8], at: usize, label: &[u8], n: Name, b: u8) -> usize
    requires { at + part_len label.now (name_at n.number) ≤ length out.old }
    ensures { Writes out.old at (part_of label.now (name_at n.number) b) result out.new }
{
    let p = words::copy_to(label, out, at);
    let q = put_name(out, p, n);
    let r = words::copy_to(b"-", out, q);
    put_hex(out, r, b)
}

fn put_type(out: &mut [u8], at: usize, kind: u8) -> usize
    requires { at + type_len kind ≤ length out.old }
    ensures { Writes out.old at (type_part kind) result out.new }
{
    let n = data_type_name(DataType::from(kind));
    put_part(out, at, b".type-", n, kind)
}

fn put_seq(out: &mut [u8], at: usize, seq: u8) -> usize
    requires { at + 7 ≤ length out.old }
    ensures { Writes out.old at (seq_part seq) result out.new }
{
    let p = words::copy_to(b".seq-", out, at);
    put_hex(out, p, seq)
}

fn put_command(out: &mut [u8], at: usize, f: Named) -> usize
    requires { at + command_len f.frame ≤ length out.old }
    ensures { Writes out.old at (command_part f.frame) result out.new }
{
    put_part(out, at, b".cmd-", f.command, f.frame.first)
}

// Writes a frame's name at a place, and returns the place after it.
pub fn put_frame_name(out: &mut [u8], at: usize, stamp: Stamp, f: Named) -> usize
    requires { at + name_len stamp.ms stamp.counter f.frame ≤ length out.old }
    ensures { Writes out.old at (name_with stamp f.frame) result out.new }
{
    let a = put_head(out, at, stamp);
    let b = put_type(out, a, f.frame.kind);
    let c = put_seq(out, b, f.frame.seq);
    let d = put_command(out, c, f);
    words::copy_to(b".bin", out, d)
}

// How long a frame's name is.
pub fn frame_name_len(stamp: Stamp, f: Named) -> usize
    ensures { NameLen stamp.ms stamp.counter f.frame result }
{
    let kind = data_type_name(DataType::from(f.frame.kind));
    let k = decimal_len(stamp.counter as u64);
    43 + decimal_len(stamp.ms) + k.max(6) + name_len(kind) + name_len(f.command)
}

// ---- naming

fn name_frame(stamp: Stamp, f: Named, out: &mut [u8]) -> Result<usize, UnpackError>
    ensures { Meets (given (name_with stamp f.frame)) out.old (told_named result) out.new }
{
    let needed = frame_name_len(stamp, f);
    if out.len() < needed {
        return Err(UnpackError::OutShort(needed));
    }
    put_frame_name(out, 0, stamp, f);
    Ok(needed)
}

// The frame of a wire, if it unpacks.
pub fn look_at(wire: &[u8]) -> Option<Frame>
    ensures { result ≡ look_at wire.now }
{
    unpacking::inspect(wire).ok()
}

// Writes the name of a frame's wire to the front of out, and returns its length; refuses as unpacking does.
pub fn fixture_name(
    ms: u64,
    counter: u32,
    direction: Direction,
    wire: &[u8],
    out: &mut [u8],
) -> Result<usize, UnpackError>
    ensures { Meets (fixture_name ms counter (rx_of direction) wire.now) out.old (told_named result) out.new }
{
    let frame = unpacking::inspect(wire)?;
    let stamp = Stamp {
        ms,
        counter,
        direction,
    };
    let command = command_name(frame);
    name_frame(stamp, Named { frame, command }, out)
}
