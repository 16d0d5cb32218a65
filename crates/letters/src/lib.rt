// The letters of every name: a name by its number is joined of its stem and its ending. And whether a table has a name.
#![tactic(auto)]

ghost use Rattle.std.specs.Prelude.{◌≡◌, ◌+◌, ◌*◌, ◌≤◌, ◌<◌, length};
ghost use Rattle.laws.specs.Keys.{eq_k};
ghost use Rattle.laws.specs.Stores.{Writes};
ghost use Rattle.commands.specs.Commands.{is_command_name};
ghost use Rattle.commands.specs.Numbers.{name_at};
ghost use Rattle.letters.specs.Run.{NameLong, part_at, all_letters, all_starts, all_lens, all_pairs, PartIs, HalvesAre};
ghost use Rattle.letters.specs.Search.{RestIs, EndingIs, is_pair, named_from};

use commands::Name;
use words::same;

// ---- a name is a stem and an ending; stems and endings are parts of one run of letters, none of which stands twice

// The endings, then the stems. _MDR, PLAY_ and DATA lie within other parts; COMMON_ runs from _COMMON into _MDR_NO2.
static LETTERS: [u8; 596] = *b"\
    PROTOCOL_INFOCAPABILITY_INFODEVICE_INFOSUPPORT_FUNCTIONGET_CAPABILITYRET_CAPABILITYGET_STATUSRET_STATUS\
    SET_STATUSNTFY_STATUSGET_PARAMRET_PARAMSET_PARAMNTFY_PARAMNTNY_PARAMGET_EXT_PARAMRET_EXT_PARAMSET_EXT_PARAM\
    NTFY_EXT_PARAMGET_EXTENDED_PARAMRET_EXTENDED_PARAMSET_EXTENDED_PARAMNTFY_EXTENDED_PARAMGET_EXT_INFO\
    RET_EXT_INFOGET_EXTENDED_INFORET_EXTENDED_INFOTRANSFER_DATANTFY_MESSAGE_MC_NO1_ICD_EV_COMMON_MDR_NO2\
    CONNECT_GET_CONNECT_RET_GET_TESTPOWER_UPDT_LEA_EQEBB_NCASM_SENSE_OPT_ALERT_SAR_AUTO_PLAY_LOG_GENERAL_SETTING_\
    AUDIO_SYSTEM_UNKNOWNPERI_VOICE_GUIDANCE_SAFE_LISTENING_PARTY_ACKSHOTNO_COMMAND";

// Where each part starts: 36 endings, then 27 stems.
static STARTS: [u16; 63] = [
    0, 13, 28, 39, 0, 55, 69, 83, 93, 103, 113, 124, 133, 142, 151, 161, 171, 184, 197, 210, 224,
    242, 260, 278, 297, 309, 321, 338, 355, 368, 380, 387, 391, 394, 401, 401, 409, 421, 433, 395,
    441, 447, 452, 456, 462, 468, 474, 478, 493, 484, 498, 502, 518, 524, 531, 538, 543, 558, 573,
    364, 579, 582, 586,
];

// How long each is.
// Stays: names in little fixed memory are what is asked for here: starts and lengths apart take 189 bytes, an array of structs 252. One number
// for each part would take 126; two lists are the form that is asked for. Parts share letters (PLAY_ lies in SAR_AUTO_PLAY_), so that the next
// start does not end one.
static LENS: [u8; 63] = *b"\
    \x0D\x0F\x0B\x10\x00\x0E\x0E\x0A\x0A\x0A\x0B\x09\x09\x09\x0A\x0A\x0D\x0D\x0D\x0E\x12\x12\x12\x13\
    \x0C\x0C\x11\x11\x0D\x0C\x07\x04\x03\x07\x08\x04\x0C\x0C\x08\x07\x06\x05\x04\x06\x06\x06\x04\x06\
    \x05\x0E\x04\x10\x06\x07\x07\x05\x0F\x0F\x06\x04\x03\x04\x0A";

// The two parts of each name, a byte for the number of its stem and one for that of its ending. The names of table 1, of
// table 2, of the types, UNKNOWN and NO_COMMAND.
static PAIRS: [u16; 246] = [
    0x2400, 0x2500, 0x2401, 0x2501, 0x2402, 0x2502, 0x2403, 0x2503, 0x2604, 0x2705, 0x2706, 0x2707,
    0x2708, 0x270A, 0x270D, 0x270E, 0x2805, 0x2806, 0x2807, 0x2808, 0x2809, 0x280A, 0x280B, 0x280C,
    0x280D, 0x280E, 0x2905, 0x2906, 0x2907, 0x2908, 0x2909, 0x290A, 0x290B, 0x290C, 0x290D, 0x290E,
    0x291C, 0x291D, 0x2A05, 0x2A06, 0x2A07, 0x2A08, 0x2A0A, 0x2A0B, 0x2A0C, 0x2A0D, 0x2A0E, 0x2A14,
    0x2A15, 0x2A16, 0x2A17, 0x2B05, 0x2B06, 0x2B07, 0x2B08, 0x2B0A, 0x2B0B, 0x2B0C, 0x2B0D, 0x2B0E,
    0x2B1A, 0x2B1B, 0x2C05, 0x2C06, 0x2C07, 0x2C08, 0x2C09, 0x2C0A, 0x2C0B, 0x2C0C, 0x2C0D, 0x2C0E,
    0x2D05, 0x2D06, 0x2D09, 0x2D0A, 0x2D0D, 0x2D0E, 0x2D18, 0x2D19, 0x2E05, 0x2E06, 0x2E07, 0x2E08,
    0x2E09, 0x2E0A, 0x2E0B, 0x2E0C, 0x2E0D, 0x2E0E, 0x2F05, 0x2F06, 0x2F07, 0x2F08, 0x2F09, 0x2F0A,
    0x2F0D, 0x2F0E, 0x3005, 0x3006, 0x3007, 0x3008, 0x3009, 0x300A, 0x300B, 0x300C, 0x300D, 0x300E,
    0x3105, 0x3106, 0x3107, 0x3108, 0x310A, 0x310B, 0x310C, 0x310D, 0x310E, 0x3209, 0x320E, 0x3305,
    0x3306, 0x3307, 0x3308, 0x330A, 0x330B, 0x330C, 0x330D, 0x330F, 0x3405, 0x3406, 0x3407, 0x3408,
    0x340A, 0x340B, 0x340C, 0x340D, 0x340E, 0x3505, 0x3506, 0x3507, 0x3508, 0x3509, 0x350A, 0x350B,
    0x350C, 0x350D, 0x350E, 0x3510, 0x3511, 0x3512, 0x3513, 0x3604, 0x2403, 0x2503, 0x2805, 0x2806,
    0x2807, 0x2808, 0x2809, 0x280A, 0x280B, 0x280C, 0x280D, 0x280E, 0x3705, 0x3706, 0x3707, 0x3708,
    0x3709, 0x370A, 0x370B, 0x370C, 0x370D, 0x370E, 0x3716, 0x3717, 0x3805, 0x3806, 0x3807, 0x3808,
    0x3809, 0x380A, 0x380B, 0x380C, 0x380D, 0x3908, 0x3909, 0x390A, 0x390B, 0x390C, 0x390D, 0x390E,
    0x3914, 0x3915, 0x2A05, 0x2A06, 0x2A07, 0x2A08, 0x2A0A, 0x2A0B, 0x2A0C, 0x2A0D, 0x2A0E, 0x3A05,
    0x3A06, 0x3A07, 0x3A08, 0x3A09, 0x3A0A, 0x3A0B, 0x3A0C, 0x3A0D, 0x3A0E, 0x3A16, 0x3505, 0x3506,
    0x3507, 0x3508, 0x3509, 0x350A, 0x350B, 0x350C, 0x350D, 0x350E, 0x3514, 0x3515, 0x3516, 0x3517,
    0x3604, 0x3B04, 0x3C04, 0x3B1E, 0x3B1F, 0x3B20, 0x3B23, 0x3B21, 0x3B22, 0x3D04, 0x3D1E, 0x3D1F,
    0x3D20, 0x3D23, 0x3D21, 0x3D22, 0x3604, 0x3E04,
];

// Stays: each of these gives a table the name that definitions have. Read in place (tried), a static stands in the goals with all its numbers,
// and bounds that go by it close only with its definitions opened, some not at all.
fn all_letters() -> &'static [u8]
    ensures { result.now ≡ all_letters }
{
    &LETTERS
}

fn all_starts() -> &'static [u16]
    ensures { result.now ≡ all_starts }
{
    &STARTS
}

fn all_lens() -> &'static [u8]
    ensures { result.now ≡ all_lens }
{
    &LENS
}

fn all_pairs() -> &'static [u16]
    ensures { result.now ≡ all_pairs }
{
    &PAIRS
}

// ---- the parts of a name

// The part with a number.
fn part(p: usize) -> &'static [u8]
    requires { p < 63 }
    ensures { PartIs p result.now }
{
    let start = all_starts()[p] as usize;
    let end = start + all_lens()[p] as usize;
    &all_letters()[start..end]
}

#[derive(Clone, Copy)]
struct Halves {
    stem: usize,
    ending: usize,
}

// The stem and the ending of a name.
fn halves_of(n: Name) -> Halves
    ensures { HalvesAre n.number result }
{
    let pair = all_pairs()[n.number] as usize;
    Halves {
        stem: pair / 256,
        ending: pair % 256,
    }
}

// How long a name is.
pub fn name_len(n: Name) -> usize
    ensures { NameLong n.number result }
{
    let h = halves_of(n);
    part(h.stem).len() + part(h.ending).len()
}

// Writes a part at a place, and returns the place after it.
fn put_part(out: &mut [u8], at: usize, p: usize) -> usize
    requires { (p < 63) × (at + length (part_at p) ≤ length out.old) }
    ensures { Writes out.old at (part_at p) result out.new }
{
    words::copy_to(part(p), out, at)
}

// The number of the ending that has no letters.
const NONE: usize = 4;

// Writes a name at a place, its stem and then its ending, and returns the place after it.
pub fn put_name(out: &mut [u8], at: usize, n: Name) -> usize
    requires { at + length (name_at n.number) ≤ length out.old }
    ensures { Writes out.old at (name_at n.number) result out.new }
{
    let h = halves_of(n);
    let then = put_part(out, at, h.stem);
    if h.ending == NONE {
        return then;
    }
    put_part(out, then, h.ending)
}

// What follows a part, where these letters begin with it.
// Stays: `strip_prefix` compares byte by byte, by a call. With it a name that no table has takes 1.01 of the Rust's time.
fn rest_after(p: usize, name: &[u8]) -> Option<&[u8]>
    requires { p < 63 }
    ensures { RestIs p name.now result }
{
    let part = part(p);
    let (front, rest) = name.split_at_checked(part.len())?;
    same(part, front).then_some(rest)
}

// Whether a name is this one. Few names are as long as another.
// Stays: `is_some_and` (tried) is not proved: what its closure says of the rest would need a clause. `== Some(..)` compares by std's ==, which
// is slower than `same` (words).
pub fn is_name(n: Name, name: &[u8]) -> bool
    ensures { result ≡ eq_k (name_at n.number) name.now }
{
    if name.len() != name_len(n) {
        return false;
    }
    let h = halves_of(n);
    match rest_after(h.stem, name) {
        Some(rest) => same(part(h.ending), rest),
        None => false,
    }
}

// ---- whether a table has a name

// The number of the ending that these letters are.
// Stays: `(0..36).find(..)` would want a closure with the clauses of `part` and `same`, which are as long as the loop; so in is_command_name.
fn find_ending(rest: &[u8]) -> Option<usize>
    ensures { EndingIs rest.now result }
{
    for p in 0..36 {
        if same(part(p), rest) {
            return Some(p);
        }
    }
    None
}

// Whether a command has these two parts. There is no early way out, so that the loop runs on many names at once.
fn is_pair(stem: usize, ending: usize) -> bool
    requires { (stem < 63) × (ending ≤ 36) }
    ensures { result ≡ is_pair (256 * stem + ending) }
{
    let pair = (256 * stem + ending) as u16;
    let mut found = false;
    for &p in &all_pairs()[..229] {
        found |= p == pair;
    }
    found
}

// Whether a command with this stem has this name.
// Stays: with `rest_after(..).and_then(find_ending)` (tried) no search closed the proof of the two returns.
fn is_named_from(stem: usize, name: &[u8]) -> bool
    requires { stem < 63 }
    ensures { result ≡ named_from stem name.now }
{
    let Some(rest) = rest_after(stem, name) else {
        return false;
    };
    match find_ending(rest) {
        Some(ending) => is_pair(stem, ending),
        None => false,
    }
}

// Whether either table has this name, stem by stem: the commands' are the first 23.
pub fn is_command_name(name: &[u8]) -> bool
    ensures { result ≡ is_command_name name.now }
{
    for stem in 36..59 {
        if is_named_from(stem, name) {
            return true;
        }
    }
    false
}
