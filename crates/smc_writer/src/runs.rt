// How long a run is, by the flags and the new picture.
ghost use Rattle.std.specs.Prelude.{◌≡◌, ◌<◌, ◌≤◌};
ghost use Rattle.spec.specs.Writing.{max_run};
ghost use Rattle.blocks.specs.Blocks.{pixels};
ghost use Rattle.smc_writer.specs.Changes.{blocks_of, leads_of, ends_of, run_of};

use crate::changes::Changes;
use blocks::Rows;
use spec::MAX_RUN;

// How many blocks a run has.
#[derive(Clone, Copy)]
pub struct RunLength {
    pub blocks: usize,
    ghost some: { 1 ≤ blocks },
    ghost most: { blocks ≤ max_run },
}

// `k_bound` is a clause of each method: a struct of it would be made anew for each block, where the same fact is due, so it is no plainer.
impl Changes<'_> {
    // Whether a run of kept blocks, or one of changed blocks with these rows, that began at block k ends before block j.
    fn ends_at(&self, k: usize, rows: Rows, j: usize) -> bool
        requires k_bound { k < blocks_of self.now }
        requires leads { leads_of self.now k (pixels rows) }
        ensures { result ≡ ends_of self.now k j }
    {
        if j >= self.grid.blocks() {
            return true;
        }
        if self.kept[k] {
            return !self.kept[j];
        }
        if self.kept[j] {
            return true;
        }
        rows != self.grid.block_at(self.new, j)
    }

    // How long the run is that begins at block k.
    pub fn run_at(&self, k: usize, rows: Rows) -> RunLength
        requires k_bound { k < blocks_of self.now }
        requires leads { leads_of self.now k (pixels rows) }
        ensures { result.blocks ≡ run_of self.now k }
    {
        // a loop: with `(1..MAX_RUN).find(..)` the writer took up to 15 % longer on frames of which every block is changed
        for m in 1..MAX_RUN {
            if self.ends_at(k, rows, k + m) {
                return RunLength { blocks: m };
            }
        }
        RunLength { blocks: MAX_RUN }
    }
}
