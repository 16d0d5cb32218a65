// The table of pieces as it is read, and the pieces with their bytes.
#![tactic(auto)]

ghost use Rattle.split.specs.Walks.{Chained, Lying};

use crate::{Plan, length_of};
use items::Direction;
use words::{copy_to, get32, get64, part};

// The table of pieces in work, and the words that link them.
#[derive(Clone, Copy)]
pub struct Table<'a> {
    pub w: &'a [u8],
    pub plan: Plan,
    pub ghost chained: { Chained w.now plan },
}

impl<'a> Table<'a> {
    ghost use Rattle.std.specs.Prelude.{◌≡◌, ◌<◌};
    ghost use Rattle.split.specs.Rows.{dlci_at, held_of, held_at};
    ghost use Rattle.split.specs.Walks.{Earlier, one_more};

    // The DLCI of piece i.
    pub fn dlci_of(self, i: usize) -> u32
        requires { i < self.plan.n }
        ensures { result ≡ dlci_at self.entry.w.now self.entry.plan i }
    {
        get32(self.w, self.plan.rows + 8 * i)
    }

    // The piece of its key before piece i, if there is one. The word has one more than its number.
    pub fn earlier(self, i: usize) -> Option<usize>
        requires { i < self.plan.n }
        ensures { Earlier self.entry.w.now self.entry.plan i (one_more result) }
    {
        (get32(self.w, self.plan.chain + i) as usize).checked_sub(1)
    }

    // The length held after the newest piece before i that has the key of i.
    pub fn held_before(self, i: usize) -> usize
        requires { i < self.plan.n }
        ensures { result ≡ held_of self.entry.w.now self.entry.plan i }
    {
        // Stays: in `map_or` (tried) the closure needs a clause of its own for the word that it reads.
        match self.earlier(i) {
            Some(j) => self.held_after(j) as usize,
            None => 0,
        }
    }

    // The length held after piece i, as it is stored.
    pub fn held_after(self, i: usize) -> u32
        requires { i < self.plan.n }
        ensures { result ≡ held_at self.entry.w.now self.entry.plan i }
    {
        get32(self.w, self.plan.held + i)
    }
}

// The pieces: their table in work, and the file, where the bytes of a piece lie if it was not joined in work.
#[derive(Clone, Copy)]
pub struct Pieces<'a> {
    pub file: &'a [u8],
    pub w: &'a [u8],
    pub plan: Plan,
    pub ghost lying: { Lying file.now w.now plan },
}

impl<'a> Pieces<'a> {
    ghost use Rattle.std.specs.Prelude.{◌≡◌, ◌<◌, take, drop};
    ghost use Rattle.std.proofs.lemmas.List.Edits.{sets};
    ghost use Rattle.split.specs.Last.{lastn};
    ghost use Rattle.items.specs.Items.{rx_of};
    ghost use Rattle.split.specs.Rows.{len_at, in_work, held_of, held_at, end_at};
    ghost use Rattle.split.specs.Walks.{Earlier, one_more, StartIs, PutPre, GatherPre};
    ghost use Rattle.split.specs.Views.{piece_of, bytes_of, stream_before, SameTable};

    // The direction of piece i.
    #[tactic(auto, unfolding(rfcomm::specs::PieceTable::piece_at))]
    pub fn direction_of(self, i: usize) -> Direction
        requires { i < self.plan.n }
        ensures { rx_of result ≡ (piece_of self.entry i).rx }
    {
        Direction::in_side(get32(self.w, self.plan.rows + 8 * i + 1))
    }

    // The time of piece i.
    #[tactic(auto, unfolding(rfcomm::specs::PieceTable::piece_at))]
    pub fn time_of(self, i: usize) -> u64
        requires { i < self.plan.n }
        ensures { result ≡ (piece_of self.entry i).time }
    {
        get64(self.w, self.plan.rows + 8 * i + 6)
    }

    // The length of piece i.
    pub fn length_of(self, i: usize) -> usize
        requires { i < self.plan.n }
        ensures { result ≡ len_at self.entry.w.now self.entry.plan i }
    {
        length_of(self.w, self.plan, i)
    }

    // Where piece i starts, in the file or in work.
    fn start_of(self, i: usize) -> usize
        requires { i < self.plan.n }
        ensures { StartIs self.entry.w.now self.entry.plan i result }
    {
        get32(self.w, self.plan.rows + 8 * i + 4) as usize
    }

    // Whether piece i lies in work.
    fn is_joined(self, i: usize) -> bool
        requires { i < self.plan.n }
        ensures { result ≡ in_work self.entry.w.now self.entry.plan i }
    {
        get32(self.w, self.plan.rows + 8 * i + 5) / 65536 == 1
    }

    // The bytes of piece i, where they lie: in the file, or in work if it was joined.
    pub fn piece(self, i: usize) -> &'a [u8]
        requires { i < self.plan.n }
        ensures { result.now ≡ bytes_of self.entry i }
    {
        let start = self.start_of(i);
        let n = self.length_of(i);
        if self.is_joined(i) {
            return part(self.w, start, n);
        }
        part(self.file, start, n)
    }

    // Their table alone.
    fn table(self) -> Table<'a>
        ensures { SameTable self.entry result }
    {
        Table {
            w: self.w,
            plan: self.plan,
        }
    }

    // The piece of its key before piece i, if there is one.
    fn earlier(self, i: usize) -> Option<usize>
        requires { i < self.plan.n }
        ensures { Earlier self.entry.w.now self.entry.plan i (one_more result) }
    {
        self.table().earlier(i)
    }

    // The length held after the newest piece before i that has the key of i.
    pub fn held_before(self, i: usize) -> usize
        requires { i < self.plan.n }
        ensures { result ≡ held_of self.entry.w.now self.entry.plan i }
    {
        self.table().held_before(i)
    }

    // The length held after piece i, as it is stored.
    pub fn held_after(self, i: usize) -> usize
        requires { i < self.plan.n }
        ensures { result ≡ held_at self.entry.w.now self.entry.plan i }
    {
        self.table().held_after(i) as usize
    }

    // The place of the first 3C of piece i, as it is stored; the length, if there is none.
    // Stays: the length for none, as spans::first_end has it and the word stores it.
    pub fn end_of(self, i: usize) -> usize
        requires { i < self.plan.n }
        ensures { result ≡ end_at self.entry.w.now self.entry.plan i }
    {
        get32(self.w, self.plan.ends + i) as usize
    }

    // Copies m bytes of piece j, from skip on, to a place in out.
    pub fn put_part(self, j: usize, skip: usize, m: usize, out: &mut [u8], to: usize)
        requires { PutPre self.w.now self.plan j skip m out.old to }
        ensures { out.new ≡ sets out.old to (take m (drop skip (bytes_of self.entry j))) }
    {
        copy_to(part(self.piece(j), skip, m), out, to);
    }

    // Puts the last h bytes of what came under the key of i before i to a place in out: piece by piece, the newest first.
    pub fn gather(self, i: usize, h: usize, out: &mut [u8], at: usize)
        requires { GatherPre self.file.now self.w.now self.plan i h out.old at }
        ensures { out.new ≡ sets out.old at (lastn h (stream_before self.entry i)) }
    {
        let mut j = i;
        let mut left = h;
        // Stays: it moves by what it finds, the piece before and the bytes left; an iterator over these would be the same steps in a struct.
        while 0 < left {
            let Some(k) = self.earlier(j) else {
                return;
            };
            let n = self.length_of(k);
            let m = left.min(n);
            self.put_part(k, n - m, m, out, at + left - m);
            j = k;
            left -= m;
        }
    }
}
