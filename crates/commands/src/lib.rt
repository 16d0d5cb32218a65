// Which name a command or a type has, by its number.
#![tactic(auto)]

ghost use Rattle.std.specs.Prelude.{◌≡◌, true, ◌+◌, ◌≤◌, ◌<◌, take, drop};
ghost use Rattle.commands.specs.Numbers.{all_codes, Spot, rising, SpotIn, entries_of};
ghost use Rattle.commands.specs.Commands.{name_in};
ghost use Rattle.commands.specs.Labels.{type_name, table_of, command_name};

use mdr::{DataType, Frame};

// ---- the names: those of table 1, of table 2, of the types, UNKNOWN and NO_COMMAND

// A name, by its number in this order. Its letters are in letters.
#[derive(Clone, Copy)]
pub struct Name {
    pub number: usize,
    pub ghost known: { number < 246 },
}

// The numbers of UNKNOWN and of NO_COMMAND.
const UNKNOWN: usize = 244;

const NO_COMMAND: usize = 245;

// ---- the number of a name

// The codes of table 1, then those of table 2.
static CODES: [u8; 229] = *b"\
    \x00\x01\x02\x03\x04\x05\x06\x07\x0F\x10\x11\x12\x13\x15\x18\x19\x20\x21\x22\x23\x24\x25\x26\x27\
    \x28\x29\x30\x31\x32\x33\x34\x35\x36\x37\x38\x39\x3E\x3F\x40\x41\x42\x43\x45\x46\x47\x48\x49\x4A\
    \x4B\x4C\x4D\x50\x51\x52\x53\x55\x56\x57\x58\x59\x5A\x5B\x60\x61\x62\x63\x64\x65\x66\x67\x68\x69\
    \x70\x71\x74\x75\x78\x79\x7A\x7B\x80\x81\x82\x83\x84\x85\x86\x87\x88\x89\x90\x91\x92\x93\x94\x95\
    \x98\x99\xA0\xA1\xA2\xA3\xA4\xA5\xA6\xA7\xA8\xA9\xB0\xB1\xB2\xB3\xB5\xB6\xB7\xB8\xB9\xC4\xC9\xD0\
    \xD1\xD2\xD3\xD5\xD6\xD7\xD8\xD9\xE0\xE1\xE2\xE3\xE5\xE6\xE7\xE8\xE9\xF0\xF1\xF2\xF3\xF4\xF5\xF6\
    \xF7\xF8\xF9\xFA\xFB\xFC\xFD\xFF\x06\x07\x20\x21\x22\x23\x24\x25\x26\x27\x28\x29\x30\x31\x32\x33\
    \x34\x35\x36\x37\x38\x39\x3C\x3D\x40\x41\x42\x43\x44\x45\x46\x47\x48\x53\x54\x55\x56\x57\x58\x59\
    \x5A\x5B\x60\x61\x62\x63\x65\x66\x67\x68\x69\x70\x71\x72\x73\x74\x75\x76\x77\x78\x79\x7C\xF0\xF1\
    \xF2\xF3\xF4\xF5\xF6\xF7\xF8\xF9\xFA\xFB\xFC\xFD\xFF";

// Stays: this gives the table the name that definitions have; letters has more on that.
fn all_codes() -> &'static [u8]
    ensures { result.now ≡ all_codes }
{
    &CODES
}

// The number of a byte's name, where a table's codes and names stand from a place on.
// Stays: by match: in ok().map(..) the sum stands in a closure, of which nothing says that its place is below the count.
fn find_in(first: usize, count: usize, b: u8) -> Option<usize>
    requires count_bound { first + count ≤ 229 }
    requires all_codes_value { rising (take count (drop first all_codes)) ≡ true }
    ensures { SpotIn first count b result }
{
    let codes = &all_codes()[first..first + count];
    match codes.binary_search(&b) {
        Ok(i) => Some(first + i),
        Err(_) => None,
    }
}

#[derive(Clone, Copy)]
enum Table {
    One,
    Two,
}

// The table that a type selects.
#[tactic(auto, unfolding(crate::specs::Labels::table_of))]
fn table_of(kind: u8) -> Option<Table>
    ensures { entries_of result ≡ table_of kind }
{
    match kind {
        0x0C => Some(Table::One),
        0x0E => Some(Table::Two),
        _ => None,
    }
}

fn command_in(table: Table, b: u8) -> usize
    ensures { Spot result (name_in (entries_of (Some table)) b) }
{
    match table {
        Table::One => find_in(0, 152, b).unwrap_or(UNKNOWN),
        Table::Two => find_in(152, 77, b).unwrap_or(UNKNOWN),
    }
}

// The number of the name of a frame's command.
fn command_number(f: Frame) -> usize
    ensures { Spot result (command_name f) }
{
    if f.size == 0 {
        return NO_COMMAND;
    }
    match table_of(f.kind) {
        Some(table) => command_in(table, f.first),
        None => UNKNOWN,
    }
}

// The name of a frame's command.
pub fn command_name(f: Frame) -> Name
    ensures { Spot result.number (command_name f) }
{
    Name {
        number: command_number(f),
    }
}

// The number of the name of a type.
// Stays: a match, as the type's byte in mdr is. Names are numbered one after another, bytes leave gaps, so that neither gives the other.
fn type_number(t: DataType) -> usize
    ensures { Spot result (type_name t) }
{
    match t {
        DataType::Data => 229,
        DataType::Ack => 230,
        DataType::DataMcNo1 => 231,
        DataType::DataIcd => 232,
        DataType::DataEv => 233,
        DataType::DataMdr => 234,
        DataType::DataCommon => 235,
        DataType::DataMdrNo2 => 236,
        DataType::Shot => 237,
        DataType::ShotMcNo1 => 238,
        DataType::ShotIcd => 239,
        DataType::ShotEv => 240,
        DataType::ShotMdr => 241,
        DataType::ShotCommon => 242,
        DataType::ShotMdrNo2 => 243,
        DataType::Unknown(_) => UNKNOWN,
    }
}

// The name of a type.
pub fn data_type_name(t: DataType) -> Name
    ensures { Spot result.number (type_name t) }
{
    Name {
        number: type_number(t),
    }
}
