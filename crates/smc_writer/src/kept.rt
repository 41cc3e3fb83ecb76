// Which blocks are kept: the only place that looks at the old picture.
ghost use Rattle.std.specs.Prelude.{◌≡◌, ◌*◌, ◌≤◌, length};
ghost use Rattle.blocks.specs.Blocks.{area};
ghost use Rattle.smc_writer.specs.Kept.{Flagged};

use blocks::Grid;

// Flags each block of two pictures: whether the new one is equal to the old one.
pub fn flag_kept(kept: &mut [bool], grid: Grid, old: &[u8], new: &[u8])
    requires old_exact { length old.now ≡ area grid.columns grid.lines }
    requires new_exact { length new.now ≡ area grid.columns grid.lines }
    requires enough { grid.columns * grid.lines ≤ length kept.old }
    ensures { Flagged grid.columns (grid.columns * grid.lines) old.now new.now kept.new }
{
    for (k, flag) in kept[..grid.blocks()].iter_mut().enumerate() {
        *flag = grid.block_at(old, k) == grid.block_at(new, k);
    }
}
