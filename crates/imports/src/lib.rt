// Import and its sizes as the calls ask for them: by options in a list of numbers, or by two; and their answers as a number and values.
#![tactic(auto)]

ghost use Rattle.std.specs.Prelude.{◌≡◌, [], ◌∷◌};
ghost use Rattle.trace.specs.declared.Container.TheVariants.{Btsnoop};
ghost use Rattle.options.specs.Numbers.{container_in};
ghost use Rattle.streams.specs.Streams.{channel_of};
ghost use Rattle.imports.specs.Numbers.{channel_number, options_in, options_number, AsOptions};
ghost use Rattle.imports.specs.Imports.{ImportCalls, SizesCalls};

use capture::Options;
use options::{container_in, fcs_in, option_at, tail_in};
use telling::Tell;

// ---- options by number

// The channel by number: over 255 is any.
fn channel_of(channel: u64) -> Option<u8>
    ensures { channel_of result ≡ channel_number channel }
{
    u8::try_from(channel).ok()
}

// The options in a list of numbers: the channel, the tail rule, the container, whether FCS is checked.
pub fn options_in(options: &[u64]) -> Options
    ensures { AsOptions options.now result }
{
    // Stays: 256 stands for any channel, as every number over 255 does in the list that C gives; an Option of option_at would be any too.
    let channel = option_at(options, 0, 256);
    Options {
        container: container_in(options),
        channel: channel_of(channel),
        tail: tail_in(options),
        fcs: fcs_in(options),
    }
}

// The list of two options, a channel and the tail rule, as calls of C give them.
pub fn two_options(channel: u32, tolerant: u32) -> [u64; 2]
    ensures { result ≡ channel ∷ tolerant ∷ [] }
{
    [channel as u64, tolerant as u64]
}

// ---- the calls

// Imports a trace by options in a list of numbers, and tells the answer.
pub fn import_told(
    file: &[u8],
    work: &mut [u8],
    out: &mut [u8],
    options: &[u64],
    values: &mut [u64],
) -> u32
    ensures { ImportCalls (container_in options.now) file.now work.old out.old (options_in options.now) values.old result work.new out.new values.new }
{
    capture::import(file, work, out, options_in(options)).tell(values)
}

// Imports a btsnoop file by two options.
pub fn import_by(
    file: &[u8],
    work: &mut [u8],
    out: &mut [u8],
    channel: u32,
    tolerant: u32,
    values: &mut [u64],
) -> u32
    ensures { ImportCalls Btsnoop file.now work.old out.old (options_number channel tolerant) values.old result work.new out.new values.new }
{
    import_told(file, work, out, &two_options(channel, tolerant), values)
}

// Tells the sizes of what import would give, by options in a list of numbers.
pub fn sizes_told(file: &[u8], work: &mut [u8], options: &[u64], values: &mut [u64]) -> u32
    ensures { SizesCalls (container_in options.now) file.now work.old (options_in options.now) values.old result work.new values.new }
{
    capture::import_sizes(file, work, options_in(options)).tell(values)
}
