// Writing the chunk that makes a new picture out of an old one. The old picture is looked at once, to flag the blocks that are kept
// (`kept`); everything else goes by these flags and the new picture, so that a writer which flags blocks otherwise shares it. The modules'
// own functions ask for what the one before them has made sure of; `write_chunk` asks for nothing.
#![tactic(auto)]

mod changes;
mod colours;
mod flags;
mod kept;
mod put;
mod rows;
mod runs;
mod single;
mod table;

ghost use Rattle.std.specs.Prelude.{◌≡◌};
ghost use Rattle.spec.specs.Writing.{write};

use blocks::Grid;
use changes::Changes;
use spec::{Answer, Size};

// Writes the chunk: the answer, and what the output then holds. A refusal leaves it as it was.
pub fn write_chunk(size: Size, old: &[u8], new: &[u8], out: &mut [u8]) -> Answer
    ensures value { result ≡ (write size old.now new.now out.old).answer }
    ensures out_after { out.new ≡ (write size old.now new.now out.old).output }
{
    if let Err(why) = sizes::check_pictures(size, old.len(), new.len()) {
        return Answer::from(why);
    }
    let grid = Grid::of(size);
    let mut kept = [false; Size::MAX_BLOCKS];
    kept::flag_kept(&mut kept, grid, old, new);
    let changes = Changes {
        grid,
        kept: &kept,
        new,
    };
    match changes.emit(out) {
        Ok(length) => Answer::accepted(length, grid.blocks()),
        Err(why) => Answer::from(why),
    }
}
