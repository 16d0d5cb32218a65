// The proved calls, as lumbryth_c exports them for C and Rust. A call returns 0, or document 01's number of the refusal; as many of the values that it
// answers, or that the refusal carries, as the list lent for them has room for are stored at its front.
#![tactic(auto)]

ghost use Rattle.std.specs.Prelude.{◌≡◌};
ghost use Rattle.fixtures.specs.Plan.{plan_of};
ghost use Rattle.mdr.specs.Frame.{unpack_of, pack_of};
ghost use Rattle.commands.specs.Commands.{is_command_name};
ghost use Rattle.names.specs.Names.{fixture_name};
ghost use Rattle.order.specs.Order.{capture_order};
ghost use Rattle.gaps.specs.Calls.{GapsCalls};
ghost use Rattle.imports.specs.Imports.{ImportCalls, SizesCalls};
ghost use Rattle.imports.specs.Numbers.{options_in, options_number};
ghost use Rattle.onelink.specs.Calls.{LinkCalls};
ghost use Rattle.options.specs.Numbers.{tail_number, tail_in, container_in};
ghost use Rattle.places.specs.Stretches.{StretchCalls};
ghost use Rattle.telling.specs.Telling.{Calls};
ghost use Rattle.trace.specs.declared.Container.TheVariants.{Btsnoop};
ghost use Rattle.told.specs.Numbers.{bit, way_of};
ghost use Rattle.told.specs.RecordCalls.{RecordsCalls};

use gaps::{gaps_told, gaps_with};
use imports::{import_by, import_told, sizes_told, two_options};
use onelink::{Asked, link_told};
use places::places_told;
use told::{
    command_told, name_told, order_told, pack_told, plan_told, records_told, records_with,
    unpack_told,
};

// Reads one frame, and writes its payload to the front of out. Values: type, sequence number, payload length.
pub fn lumbryth_unpack(wire: &[u8], out: &mut [u8], values: &mut [u64]) -> u32
    ensures { Calls (unpack_of wire.now) out.old out.new values.old result values.new }
{
    unpack_told(wire, out, values)
}

// Writes a frame to the front of out. Value: the wire's length.
pub fn lumbryth_pack(kind: u8, seq: u8, payload: &[u8], out: &mut [u8], values: &mut [u64]) -> u32
    ensures { Calls (pack_of kind seq payload.now) out.old out.new values.old result values.new }
{
    pack_told(kind, seq, payload, out, values)
}

// Writes the name of a frame's wire to the front of out; way is 1 for Rx and 2 for Tx. Value: the name's length.
pub fn lumbryth_fixture_name(
    ms: u64,
    counter: u32,
    way: u8,
    wire: &[u8],
    out: &mut [u8],
    values: &mut [u64],
) -> u32
    ensures { Calls (fixture_name ms counter (way_of way) wire.now) out.old out.new values.old result values.new }
{
    name_told(ms, counter, way, wire, out, values)
}

// 1 if either table has the name, else 0.
pub fn lumbryth_is_command_name(name: &[u8]) -> u32
    ensures { result ≡ bit (is_command_name name.now) }
{
    command_told(name)
}

// Writes the plan of a list of spans, but for the excluded commands, to the front of out. Values: fixtures, bytes.
pub fn lumbryth_plan(spans: &[u8], excluded: &[u8], out: &mut [u8], values: &mut [u64]) -> u32
    ensures { Calls (plan_of spans.now excluded.now) out.old out.new values.old result values.new }
{
    plan_told(spans, excluded, out, values)
}

// Writes a list of names in the order of their frames to the front of out. Value: its length.
pub fn lumbryth_capture_order(names: &[u8], out: &mut [u8], values: &mut [u64]) -> u32
    ensures { Calls (capture_order names.now) out.old out.new values.old result values.new }
{
    order_told(names, out, values)
}

// Imports a trace: writes the list of the spans of one DLCI to the front of out. The options are a list of numbers: a channel,
// over 255 for any; 0 for the strict rule, any other for the tolerant one; 0 for btsnoop, any other for pcap; 0 for FCS unchecked,
// any other for checked. A list that ends earlier asks for any channel, strictly, of btsnoop, unchecked. Values: DLCI, frames,
// unfinished, tail offset, bytes written, frames with a wrong FCS on the DLCI, 0 where it is not checked, and where its bytes
// went: in spans, dropped, cleared, left.
pub fn lumbryth_import_with(
    file: &[u8],
    work: &mut [u8],
    out: &mut [u8],
    options: &[u64],
    values: &mut [u64],
) -> u32
    ensures { ImportCalls (container_in options.now) file.now work.old out.old (options_in options.now) values.old result work.new out.new values.new }
{
    import_told(file, work, out, options, values)
}

// Imports a btsnoop file by two options, FCS unchecked. Values: as for lumbryth_import_with.
pub fn lumbryth_import(
    file: &[u8],
    work: &mut [u8],
    out: &mut [u8],
    channel: u32,
    tolerant: u32,
    values: &mut [u64],
) -> u32
    ensures { ImportCalls Btsnoop file.now work.old out.old (options_number channel tolerant) values.old result work.new out.new values.new }
{
    import_by(file, work, out, channel, tolerant, values)
}

// Imports a btsnoop file by the strict rule, FCS unchecked. Values: as for lumbryth_import_with.
pub fn lumbryth_import_strict(
    file: &[u8],
    work: &mut [u8],
    out: &mut [u8],
    channel: u32,
    values: &mut [u64],
) -> u32
    ensures { ImportCalls Btsnoop file.now work.old out.old (options_number channel 0) values.old result work.new out.new values.new }
{
    import_by(file, work, out, channel, 0, values)
}

// Tells how much output an import would need, and how much the file holds: takes all that lumbryth_import_with takes but the output. Values: the output
// length needed; whole records, skipped ones too; completed PDUs; pieces of information, of every DLCI. Refused as that call is, by 1 to 6 (of pcap
// 21 and 22 for 3 and 4), never by 7.
pub fn lumbryth_sizes_with(file: &[u8], work: &mut [u8], options: &[u64], values: &mut [u64]) -> u32
    ensures { SizesCalls (container_in options.now) file.now work.old (options_in options.now) values.old result work.new values.new }
{
    sizes_told(file, work, options, values)
}

// Lists the spans of one adapter index, handle and DLCI, in order of completion, at the front of out; the list may be empty. It reads strictly, FCS
// unchecked, and what it gives depends on that handle's own ACL packets alone, the handle taken with its index. Of the list of options
// only the container counts. Values: spans, unfinished, bytes written. Refused as import is by 1 to 5 (of pcap 21 and 22 for 3 and 4), then by 23 for
// a handle over 4,095 or a DLCI not 1 to 63, then by 7.
pub fn lumbryth_one_link_with(
    file: &[u8],
    work: &mut [u8],
    out: &mut [u8],
    index: u16,
    handle: u16,
    dlci: u8,
    options: &[u64],
    values: &mut [u64],
) -> u32
    ensures { LinkCalls (container_in options.now) file.now work.old index handle dlci out.old values.old result work.new out.new values.new }
{
    let asked = Asked {
        index,
        handle,
        dlci,
    };
    link_told(file, work, out, asked, options, values)
}

// Stores where each whole record of a btsnoop file starts at the front of starts, as many as there is room for. Values: records,
// tail offset.
pub fn lumbryth_records(file: &[u8], starts: &mut [u64], values: &mut [u64]) -> u32
    ensures { RecordsCalls Btsnoop file.now starts.old values.old result starts.new values.new }
{
    records_told(file, starts, values)
}

// The same by a list of options, of which the container counts.
pub fn lumbryth_records_with(
    file: &[u8],
    starts: &mut [u64],
    options: &[u64],
    values: &mut [u64],
) -> u32
    ensures { RecordsCalls (container_in options.now) file.now starts.old values.old result starts.new values.new }
{
    records_with(file, starts, options, values)
}

// Counts the signs in a btsnoop file that something is not in it; 0 is strict, any other tolerant. Refused as import is, by 1 to
// 5. Values, for each sign how many and at which byte the record starts that shows the first, 0 if none does: records stored
// short, packets that the recorder dropped, ACL packets skipped because data is not there, records of zeros, continuations
// with nothing open, partial PDUs given up because another starts, PDUs open at the end.
pub fn lumbryth_gaps(file: &[u8], work: &mut [u8], tolerant: u32, values: &mut [u64]) -> u32
    ensures { GapsCalls Btsnoop file.now work.old (tail_number tolerant) values.old result work.new values.new }
{
    gaps_told(file, work, tolerant, values)
}

// The same by a list of options, of which the tail rule and the container count.
pub fn lumbryth_gaps_with(file: &[u8], work: &mut [u8], options: &[u64], values: &mut [u64]) -> u32
    ensures { GapsCalls (container_in options.now) file.now work.old (tail_in options.now) values.old result work.new values.new }
{
    gaps_with(file, work, options, values)
}

// Imports a btsnoop file, and fills the first places of the list lent with the stretches that are open at the end, in the order
// of their first pieces; the places past them stay, and all of them after a refusal. It wants as many places as the file length
// divided by 24, rounded down, else 2. FCS is unchecked. Values: as for lumbryth_import.
pub fn lumbryth_import_stretches(
    file: &[u8],
    work: &mut [u8],
    stretches: &mut [stretches::Stretch],
    out: &mut [u8],
    channel: u32,
    tolerant: u32,
    values: &mut [u64],
) -> u32
    ensures { StretchCalls Btsnoop file.now work.old stretches.old out.old (options_number channel tolerant) values.old result work.new stretches.new out.new values.new }
{
    let options = two_options(channel, tolerant);
    lumbryth_import_stretches_with(file, work, stretches, out, &options, values)
}

// The same by a list of options.
pub fn lumbryth_import_stretches_with(
    file: &[u8],
    work: &mut [u8],
    stretches: &mut [stretches::Stretch],
    out: &mut [u8],
    options: &[u64],
    values: &mut [u64],
) -> u32
    ensures { StretchCalls (container_in options.now) file.now work.old stretches.old out.old (options_in options.now) values.old result work.new stretches.new out.new values.new }
{
    let places = stretches.len();
    let t = places_told(file, work, out, options, values, places);
    stretches::fill(work, stretches, t.listed);
    t.number
}
