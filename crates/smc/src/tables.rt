// The three colour tables of a chunk. A table is one run of colours, entry after entry, and the number of its next entry.
ghost use Rattle.std.specs.Prelude.{◌≡◌, ℕ, ◌+◌, ◌*◌, ◌%◌, ◌<◌, ◌≤◌, true, length};
ghost use Rattle.std.proofs.lemmas.List.Edits.{sets};
ghost use Rattle.spec.specs.Basics.{part};
ghost use Rattle.spec.specs.Chunks.{capacity, emptied};
ghost use Rattle.smc.specs.Tables.{Holds, Entered, colours};

// A table of so many colours to an entry, and so many in all: two parameters, since the length of an array is no product of one.
#[derive(Drop)]
pub struct Table<const COLOURS: usize, const ALL: usize> {
    pub colours: [u8; ALL],
    pub next: u8,
    ghost all: { ALL ≡ COLOURS * capacity },
}

impl<const COLOURS: usize, const ALL: usize> Table<COLOURS, ALL> {
    // its entries, and the colours of each: 01's form has a table's type carry both
    pub const CAPACITY: usize = CAPACITY;

    pub const COLOURS: usize = COLOURS;

    // The table at the start of a chunk.
    pub fn emptied() -> Self
        requires { ALL ≡ COLOURS * capacity }
        ensures { (bits : ℕ) → COLOURS ≡ colours bits → Holds bits result.colours result.next emptied }
    {
        Self {
            colours: [0; ALL],
            next: 0,
        }
    }

    // Stores the colours at s[q] as the next entry; after the last comes the first.
    fn store(&mut self, s: &[u8], q: usize)
        requires { q + COLOURS ≤ length s.now }
        ensures colours_after { self.new.colours ≡ sets self.old.colours (COLOURS * self.old.next) (part s.now q COLOURS) }
        ensures next_after { self.new.next ≡ (self.old.next + 1) % capacity }
    {
        let e = COLOURS * usize::from(self.next);
        let colours = &mut self.colours[..];
        colours[e..e + COLOURS].copy_from_slice(&s[q..q + COLOURS]);
        self.next = self.next.wrapping_add(1);
    }

    // The entry of an opcode whose further bytes stand at s[q]: one that stores makes its colours the next entry, any other names one.
    pub fn entry_of(&mut self, stores: bool, s: &[u8], q: usize) -> Entry
        requires q_in_bounds { q < length s.now }
        requires w_in_bounds { stores ≡ true → q + COLOURS ≤ length s.now }
        ensures { Entered COLOURS self.old.colours self.old.next s.now q stores self.new.colours result.at result.rest self.new.next }
    {
        if stores {
            let at = COLOURS * usize::from(self.next);
            self.store(s, q);
            return Entry {
                at,
                rest: q + COLOURS,
            };
        }
        Entry {
            at: COLOURS * usize::from(s[q]),
            rest: q + 1,
        }
    }

    // The colours of the entry at a place. Where they have just been stored they are read at s[q], whence they came: there a read waits for no write.
    pub fn colours_at<'a>(&'a self, e: usize, stored: bool, s: &'a [u8], q: usize) -> &'a [u8]
        requires e_in_bounds { e + COLOURS ≤ COLOURS * capacity }
        requires same { stored ≡ true → (q + COLOURS ≤ length s.now) × (part s.now q COLOURS ≡ part self.now.colours e COLOURS) }
        ensures { result.now ≡ part self.now.colours e COLOURS }
    {
        if stored {
            return &s[q..q + COLOURS];
        }
        let colours = &self.colours[..];
        &colours[e..e + COLOURS]
    }
}

// What an opcode with a table paints by: where in the table its colours stand, and where in the chunk its flags.
#[derive(Clone, Copy)]
pub struct Entry {
    pub at: usize,
    pub rest: usize,
}

// entries of a table
const CAPACITY: usize = 256;

const PAIRS: usize = 2 * CAPACITY;

const QUADS: usize = 4 * CAPACITY;

const OCTETS: usize = 8 * CAPACITY;

// The pairs, the quads and the octets stored in a chunk.
pub type PairTable = Table<2, PAIRS>;

pub type QuadTable = Table<4, QUADS>;

pub type OctetTable = Table<8, OCTETS>;

// All three.
#[derive(Drop)]
pub struct Tables {
    pub pairs: PairTable,
    pub quads: QuadTable,
    pub octets: OctetTable,
}
