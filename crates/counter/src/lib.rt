// The counter that a fixture name carries, as a rank: no counter comes before the counter 0.
#![tactic(auto)]

ghost use Rattle.std.specs.Prelude.{◌≡◌};
ghost use Rattle.counter.specs.Counter.{after_hyphen, to_hyphen, digits, number, signed, within, counter, rank};

use search::find_soon;

// What follows the first hyphen, nothing if there is none.
fn after_hyphen(s: &[u8]) -> &[u8]
    ensures { result.now ≡ after_hyphen s.now }
{
    let at = find_soon::<24>(s, b'-');
    if at < s.len() { &s[at + 1..] } else { &s[at..] }
}

// The number that the digits before the first hyphen make, if nothing else stands there and it is not too large.
// Stays: summed in 64 bits and tested: with checked_mul and checked_add each turn has two Options in the place of one test.
fn read_digits(s: &[u8]) -> Option<u32>
    ensures { result ≡ within (digits 0 (to_hyphen s.now)) }
{
    let mut v: u64 = 0;
    for &b in s {
        match b {
            b'-' => return Some(v as u32),
            b'0'..=b'9' => v = 10 * v + u64::from(b - b'0'),
            _ => return None,
        }
        if u64::from(u32::MAX) < v {
            return None;
        }
    }
    Some(v as u32)
}

// The same, of at least one digit.
fn read_number(s: &[u8]) -> Option<u32>
    ensures { result ≡ within (number (to_hyphen s.now)) }
{
    match s {
        [] | [b'-', ..] => None,
        _ => read_digits(s),
    }
}

// The same, where a plus sign may stand first.
fn read_signed(s: &[u8]) -> Option<u32>
    ensures { result ≡ within (signed (to_hyphen s.now)) }
{
    match s {
        [] => None,
        [b'+', rest @ ..] => read_number(rest),
        _ => read_number(s),
    }
}

// A name's counter.
fn counter_of(name: &[u8]) -> Option<u32>
    ensures { result ≡ counter name.now }
{
    // The prefix is compared byte by byte: a name that begins otherwise, as most without a counter do, is known by its first.
    let [b'm', ..] = name else {
        return None;
    };
    let rest = name.strip_prefix(b"mdr-packet-")?;
    read_signed(after_hyphen(rest))
}

// The rank of a name's counter.
// Stays: 0 and no Option, as the definition of the rank has it: no counter comes before the counter 0.
#[tactic(auto, unfolding(crate::specs::Counter::rank))]
pub fn rank_of(name: &[u8]) -> usize
    ensures { result ≡ rank (counter name.now) }
{
    counter_of(name).map_or(0, |v| v as usize + 1)
}
