// What a chunk has to say. It has a file of its own, since it imports every `ghost use` of its file, and those beside its methods name it.
ghost use Rattle.std.specs.Prelude.{◌≡◌, ◌*◌, ◌≤◌, length};
ghost use Rattle.blocks.specs.Blocks.{area};

use blocks::Grid;

// A new picture, and a flag for each of its blocks: whether the old one's is kept.
#[derive(Clone, Copy)]
pub struct Changes<'a> {
    pub grid: Grid,
    pub kept: &'a [bool],
    pub new: &'a [u8],
    ghost exact: { length new.now ≡ area grid.columns grid.lines },
    ghost enough: { grid.columns * grid.lines ≤ length kept.now },
}
