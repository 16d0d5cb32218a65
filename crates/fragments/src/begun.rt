// What a key has, as it is begun by one of its packets: bytes of it, a number, and all joined.
#![tactic(auto)]

ghost use Rattle.std.specs.Prelude.{◌≡◌, ◌+◌, ◌*◌, ◌/◌, ◌<◌, ◌≤◌, length, get_or, take};
ghost use Rattle.laws.specs.Numbers.{le16};
ghost use Rattle.laws.specs.Stores.{Writes};
ghost use Rattle.words.specs.Words.{word};
ghost use Rattle.packets.specs.PacketTable.{packet_at};
ghost use Rattle.fragments.specs.Bytes.{begun, Walk, InWork};

use crate::{len_of, place_of};
use words::{copy_to, get_le16, get32, part};

// What the key of packet first has from the packets first .. upto - 1: by the rows of the packets, and their links.
#[derive(Clone, Copy)]
pub struct Begun<'a> {
    pub file: &'a [u8],
    pub rows: &'a [u8],
    pub links: &'a [u8],
    pub first: usize,
    pub upto: usize,
    pub ghost walk: { Walk file.now rows.now links.now first upto },
}

impl<'a> Begun<'a> {
    ghost use Rattle.fragments.specs.Reading.{bytes_of, Paste};

    // The same by the tables in work.
    pub fn in_work(file: &'a [u8], w: &'a [u8], first: usize, upto: usize) -> Begun<'a>
        requires { InWork file.now w.now (length file.now / 4) first upto }
        ensures { bytes_of result ≡ begun file.now w.now first upto }
    {
        let q = file.len() / 4;
        Begun {
            file,
            rows: w,
            links: &w[28 * q..],
            first,
            upto,
        }
    }

    // The next packet with the key of packet i that has bytes; the count of packets if there is none.
    // Stays: a number for none. The two walks below end at `upto`, which is at most that number, and so by one test; with an Option each had two.
    fn later(self, i: usize) -> usize
        requires { i < self.upto }
        ensures { word self.entry.links.now (2 * i) ≡ result + 1 }
    {
        get32(self.links, 2 * i) as usize - 1
    }

    // The byte number at; 0 if it is not there.
    // Stays: 0 and no Option, since the definition reads a number past the end as of zeros. And i is moved on by hand, here and in gather: what is left
    // is no slice to cut from, as `channels::Commands` has, but a place in two tables, of which an iterator would tell its list anew in ghost members.
    fn byte(self, at: usize) -> u8
        ensures { result ≡ get_or (bytes_of self.entry) at 0 }
    {
        let mut i = self.first;
        let mut j = at;
        while i < self.upto {
            let n = len_of(self.rows, i);
            if j < n {
                return self.file[place_of(self.rows, i) + j];
            }
            j -= n;
            i = self.later(i);
        }
        0
    }

    // The 16-bit number at a place. It may be split over fragments, and nearly always lies in the first.
    pub fn half(self, at: usize) -> u16
        requires { at < 4 }
        ensures { result ≡ le16 (bytes_of self.entry) at }
    {
        if at + 2 <= len_of(self.rows, self.first) {
            return get_le16(self.file, place_of(self.rows, self.first) + at);
        }
        u16::from_le_bytes([self.byte(at), self.byte(at + 1)])
    }

    // Stores the bytes of packet i at a place, left of them at most, and returns the place after them.
    fn paste(self, i: usize, left: usize, out: &mut [u8], at: usize) -> usize
        requires { Paste self i left out.old at }
        ensures { Writes out.old at (take left (packet_at self.entry.file.now self.entry.rows.now i).bytes) result out.new }
    {
        let n = len_of(self.rows, i).min(left);
        copy_to(part(self.file, place_of(self.rows, i), n), out, at)
    }

    // Joins need bytes of it at most, from the start of out on, and returns how many there are.
    pub fn gather(self, out: &mut [u8], need: usize) -> usize
        requires { need ≤ length out.old }
        ensures { Writes out.old 0 (take need (bytes_of self.entry)) result out.new }
    {
        let mut i = self.first;
        let mut at = 0;
        while i < self.upto {
            at = self.paste(i, need - at, out, at);
            i = self.later(i);
        }
        at
    }
}
