// The calls on frames, names and lists, and those that list records, as plain functions: each writes its output, and tells its
// answer by a number and values.
#![tactic(auto)]

ghost use Rattle.std.specs.Prelude.{◌≡◌};
ghost use Rattle.commands.specs.Commands.{is_command_name};
ghost use Rattle.fixtures.specs.Plan.{plan_of};
ghost use Rattle.mdr.specs.Frame.{unpack_of, pack_of};
ghost use Rattle.names.specs.Names.{fixture_name};
ghost use Rattle.order.specs.Order.{capture_order};
ghost use Rattle.trace.specs.declared.Container.TheVariants.{Btsnoop};
ghost use Rattle.options.specs.Numbers.{container_in};
ghost use Rattle.telling.specs.Telling.{Calls};
ghost use Rattle.told.specs.Numbers.{bit, way_of};
ghost use Rattle.told.specs.RecordCalls.{RecordsCalls};

use items::Direction;
use options::container_in;
use telling::Tell;
use trace::Container;

pub fn unpack_told(wire: &[u8], out: &mut [u8], values: &mut [u64]) -> u32
    ensures { Calls (unpack_of wire.now) out.old out.new values.old result values.new }
{
    unpacking::unpack(wire, out).tell(values)
}

pub fn pack_told(kind: u8, seq: u8, payload: &[u8], out: &mut [u8], values: &mut [u64]) -> u32
    ensures { Calls (pack_of kind seq payload.now) out.old out.new values.old result values.new }
{
    packing::pack(kind, seq, payload, out).tell(values)
}

// The way is a number: 1 is Rx, any other Tx.
pub fn name_told(
    ms: u64,
    counter: u32,
    way: u8,
    wire: &[u8],
    out: &mut [u8],
    values: &mut [u64],
) -> u32
    ensures { Calls (fixture_name ms counter (way_of way) wire.now) out.old out.new values.old result values.new }
{
    let direction = Direction::of_kind(u16::from(way));
    names::fixture_name(ms, counter, direction, wire, out).tell(values)
}

// 1 if either table has the name, else 0.
// Stays: a number, since C reads it as the call's answer.
pub fn command_told(name: &[u8]) -> u32
    ensures { result ≡ bit (is_command_name name.now) }
{
    u32::from(letters::is_command_name(name))
}

pub fn plan_told(spans: &[u8], excluded: &[u8], out: &mut [u8], values: &mut [u64]) -> u32
    ensures { Calls (plan_of spans.now excluded.now) out.old out.new values.old result values.new }
{
    fixtures::plan(spans, excluded, out).tell(values)
}

pub fn order_told(names: &[u8], out: &mut [u8], values: &mut [u64]) -> u32
    ensures { Calls (capture_order names.now) out.old out.new values.old result values.new }
{
    order::capture_order(names, out).tell(values)
}

// Lists the records of a file of the container.
fn records_of(file: &[u8], container: Container, starts: &mut [u64], values: &mut [u64]) -> u32
    ensures { RecordsCalls container file.now starts.old values.old result starts.new values.new }
{
    trace::list_records(file, container, starts).tell(values)
}

pub fn records_told(file: &[u8], starts: &mut [u64], values: &mut [u64]) -> u32
    ensures { RecordsCalls Btsnoop file.now starts.old values.old result starts.new values.new }
{
    records_of(file, Container::Btsnoop, starts, values)
}

// By the container in a list of options.
pub fn records_with(file: &[u8], starts: &mut [u64], options: &[u64], values: &mut [u64]) -> u32
    ensures { RecordsCalls (container_in options.now) file.now starts.old values.old result starts.new values.new }
{
    let container = container_in(options);
    records_of(file, container, starts, values)
}
