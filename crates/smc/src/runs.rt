// Runs of blocks in picture and map, each painted in place, one after the other. That both have the grid's size, and that block k is one of the grid's,
// stands in each contract: a struct with the two in it would have to say in each that they keep their `ghost_name`, as many clauses as these.
ghost use Rattle.std.specs.Prelude.{◌≡◌, ℕ, ◌+◌, ◌*◌, ◌<◌, ◌≤◌, List, length, slice_index, slice_set};
ghost use Rattle.spec.specs.Basics.{part};
ghost use Rattle.spec.specs.Flags.{flags, chosen};
ghost use Rattle.spec.specs.Pictures.{block_at, put_block};
ghost use Rattle.blocks.specs.Blocks.{pixels, area};
ghost use Rattle.smc.specs.Runs.{puts, marks, copied, moved};
ghost use Rattle.smc.specs.Tables.{colours};

use crate::flags::Packing;
use crate::put;
use blocks::{Grid, Rows};
use spec::SETTLED;

// A run of given blocks: how many there are, and the sixteen pixels of each.
pub trait Run {
    ghost count: { Self → ℕ };

    ghost shows: { Self → ℕ → List ℕ };

    fn count(&self) -> usize
        ensures { result ≡ count self.now };

    // Puts its block i at block k of the picture.
    fn put(&self, pic: &mut [u8], grid: Grid, k: usize, i: usize)
        requires exact { length pic.old ≡ area grid.columns grid.lines }
        requires k_bound { k < grid.columns * grid.lines }
        requires i_bound { i < count self.now }
        ensures { pic.new ≡ put_block grid.columns k (shows self.now i) pic.old };
}

// Blocks of one colour.
#[derive(Drop)]
pub struct Plain {
    pub blocks: usize,
    pub rows: Rows,
}

impl Run for Plain {
    ghost count = { λ run. run.blocks };

    ghost shows = { λ run i. pixels run.rows };

    fn count(&self) -> usize {
        self.blocks
    }

    fn put(&self, pic: &mut [u8], grid: Grid, k: usize, _i: usize) {
        put::put_block(pic, grid, k, self.rows);
    }
}

// Blocks whose pixels stand at s[at].
#[derive(Drop)]
pub struct Whole<'a> {
    pub blocks: usize,
    pub s: &'a [u8],
    pub at: usize,
    ghost inside: { at + 16 * blocks ≤ length s.now },
}

impl<'a> Run for Whole<'a> {
    ghost count = { λ run. run.blocks };

    ghost shows = { λ run i. part run.s.now (run.at + 16 * i) 16 };

    fn count(&self) -> usize {
        self.blocks
    }

    fn put(&self, pic: &mut [u8], grid: Grid, k: usize, i: usize) {
        let rows = blocks::rows_at(self.s, self.at + 16 * i, 4);
        put::put_block(pic, grid, k, rows);
    }
}

// Blocks by the flags at s[at], with the colours of a table's entry.
#[derive(Drop)]
pub struct ByFlags<'a, P: Packing> {
    pub packing: &'a P,
    pub blocks: usize,
    pub entry: &'a [u8],
    pub s: &'a [u8],
    pub at: usize,
    ghost exact: { length entry.now ≡ colours P.bits },
    ghost inside: { at + P.FLAGS * blocks ≤ length s.now },
}

impl<'a, P: Packing> Run for ByFlags<'a, P> {
    ghost count = { λ run. run.blocks };

    ghost shows = { λ run i. chosen (flags P.bits (part run.s.now (run.at + P.FLAGS * i) P.FLAGS)) run.entry.now };

    fn count(&self) -> usize {
        self.blocks
    }

    fn put(&self, pic: &mut [u8], grid: Grid, k: usize, i: usize) {
        let q = self.at + P::FLAGS * i;
        self.packing
            .put(pic, grid, k, self.entry, &self.s[q..q + P::FLAGS]);
    }
}

// Puts a run from block k on, and settles its entries. By i, which is a place in the run and tells the block's number.
pub fn put_run<R: Run>(run: &R, pic: &mut [u8], map: &mut [u16], grid: Grid, k: usize)
    requires exact { length pic.old ≡ area grid.columns grid.lines }
    requires map_len { length map.old ≡ grid.columns * grid.lines }
    requires count_bound { k + R.count run.now ≤ grid.columns * grid.lines }
    ensures pic_after { pic.new ≡ puts grid.columns k (R.shows run.now) (R.count run.now) pic.old }
    ensures map_after { map.new ≡ marks k (R.count run.now) map.old }
{
    for i in 0..run.count() {
        run.put(pic, grid, k + i, i);
        map[k + i] = SETTLED;
    }
}

// Copies block j, pixels and entry, to block k.
fn copy_block(pic: &mut [u8], map: &mut [u16], grid: Grid, j: usize, k: usize)
    requires exact { length pic.old ≡ area grid.columns grid.lines }
    requires map_len { length map.old ≡ grid.columns * grid.lines }
    requires k_bound { k < grid.columns * grid.lines }
    requires j_lt_k { j < k }
    ensures pic_after { pic.new ≡ put_block grid.columns k (block_at grid.columns pic.old j) pic.old }
    ensures map_after { map.new ≡ slice_set map.old k (slice_index map.old j) }
{
    let rows = grid.block_at(pic, j);
    put::put_block(pic, grid, k, rows);
    map[k] = map[j];
}

// n blocks from block k on, each the block d before it.
pub fn copy_run(pic: &mut [u8], map: &mut [u16], grid: Grid, k: usize, n: usize, d: usize)
    requires exact { length pic.old ≡ area grid.columns grid.lines }
    requires map_len { length map.old ≡ grid.columns * grid.lines }
    requires n_bound { k + n ≤ grid.columns * grid.lines }
    requires d_nonzero { 0 < d }
    requires d_le_k { d ≤ k }
    ensures pic_after { pic.new ≡ copied grid.columns d k n pic.old }
    ensures map_after { map.new ≡ moved d k n map.old }
{
    for i in 0..n {
        copy_block(pic, map, grid, k + i - d, k + i);
    }
}
