// Reading a chunk over a lent picture and map, with their record. Two passes: the first (`smc_check`) decides the answer, knows what becomes of
// the count, and writes nothing; the second paints what the first has accepted. The modules' own functions ask for what the one before them has
// made sure of; `read_chunk` asks for nothing.
#![tactic(auto)]

mod flags;
mod paint;
mod put;
mod runs;
mod tables;

ghost use Rattle.std.specs.Prelude.{◌≡◌, ◌+◌, ◌*◌, ◌≤◌, ◌||◌, nat_lt};
ghost use Rattle.spec.specs.Answers.{answer, refusal_number};
ghost use Rattle.spec.specs.Sizes.{max_blocks};
ghost use Rattle.spec.specs.Boards.{board, read};
ghost use Rattle.spec.specs.Maps.{record_of};

use blocks::Grid;
use spec::{Answer, Record, Recorded, Refusal};

// An answer at place 0 and block 0, with the record as it was.
fn refused(why: Refusal, kept: Record) -> Recorded
    ensures { result ≡ record { answer = answer (refusal_number why) 0; kept = kept } }
{
    Recorded {
        answer: Answer::from(why),
        kept,
    }
}

// Whether a count would fall below 0 or above the number of blocks, by what the check has counted.
fn miscounts(blocks: usize, kept: usize, now: usize) -> bool
    requires { (blocks ≤ max_blocks) × (now ≤ 2 * blocks) }
    ensures { result ≡ (nat_lt (kept + now) blocks || nat_lt (2 * blocks) (kept + now)) }
{
    if 2 * blocks < kept {
        return true;
    }
    if kept + now < blocks {
        return true;
    }
    2 * blocks < kept + now
}

// Reads a chunk: its answer, and what it makes of the picture, the map and the record. A refusal leaves all three as they were.
pub fn read_chunk(kept: Record, chunk: &[u8], picture: &mut [u8], map: &mut [u16]) -> Recorded
    ensures answer_value { result.answer ≡ (read kept.size chunk.now (board picture.old map.old kept.unsettled)).said }
    ensures kept_value { result.kept ≡ record_of kept.size (read kept.size chunk.now (board picture.old map.old kept.unsettled)).board.kept }
    ensures picture_after { picture.new ≡ (read kept.size chunk.now (board picture.old map.old kept.unsettled)).board.picture }
    ensures map_after { map.new ≡ (read kept.size chunk.now (board picture.old map.old kept.unsettled)).board.map }
{
    let size = kept.size;
    if let Err(why) = sizes::check_board(size, picture.len(), map.len()) {
        return refused(why, kept);
    }
    let grid = Grid::of(size);
    let blocks = grid.blocks();
    let changed = match smc_check::check_and_count(blocks, chunk, map) {
        Ok(changed) => changed,
        Err(answer) => return Recorded { answer, kept },
    };
    if miscounts(blocks, kept.unsettled, changed.now) {
        return refused(Refusal::BadCount, kept);
    }
    paint::paint(grid, chunk, picture, map);
    Recorded {
        answer: Answer::accepted(changed.length, blocks),
        kept: Record {
            size,
            unsettled: kept.unsettled + changed.now - blocks,
        },
    }
}
