// The lines that the board program prints, as text, and one step of a listing.
#![tactic(auto)]

mod text;

ghost use Rattle.std.specs.Prelude.{◌≡◌, drop};
ghost use Rattle.spec.specs.Boards.{board};
ghost use Rattle.spec.specs.Feeds.{walk_step};
ghost use Rattle.spec.specs.Listing.{board_line, chunk_line, end_line, too_large_line, step_line};

use spec::{Answer, Record, Size, Step};
pub use text::Line;

// "board 8 4"
pub fn board_line(size: Size) -> Line
    ensures { drop result.start result.text ≡ board_line size }
{
    let mut line = Line::new();
    line.put_byte(b'\n');
    line.put_spaced(size.height);
    line.put_spaced(size.width);
    line.put_word(b"board");
    line
}

// "1 0 6 2 2": the chunk's number, its answer's number and place, the record's count of unsettled entries, and the answer's block
pub fn chunk_line(chunk: usize, answer: Answer, unsettled: usize) -> Line
    ensures { drop result.start result.text ≡ chunk_line chunk answer unsettled }
{
    let Answer {
        number,
        place,
        block,
    } = answer;
    let mut line = Line::new();
    line.put_byte(b'\n');
    line.put_spaced(block);
    line.put_spaced(unsettled);
    line.put_spaced(place);
    line.put_spaced(usize::from(number));
    line.put_decimal(chunk);
    line
}

// "end 0 21"
pub fn end_line(answer: Answer) -> Line
    ensures { drop result.start result.text ≡ end_line answer }
{
    let mut line = Line::new();
    line.put_byte(b'\n');
    line.put_spaced(answer.place);
    line.put_spaced(usize::from(answer.number));
    line.put_word(b"end");
    line
}

// "too large"
pub fn too_large_line() -> Line
    ensures { drop result.start result.text ≡ too_large_line }
{
    let mut line = Line::new();
    line.put_word(b"too large\n");
    line
}

// The line of one step of the walk, with the record's count.
fn step_line(chunk: usize, step: Step) -> Line
    ensures { drop result.start result.text ≡ step_line chunk step }
{
    let answer = step.answer;
    if step.chunk {
        return chunk_line(chunk, answer, step.kept.unsettled);
    }
    end_line(answer)
}

// One step of a listing: its line, and the step of the walk.
#[derive(Clone, Copy)]
pub struct Listed {
    pub line: Line,
    pub step: Step,
}

// Reads the chunk, the one of this number, whose length number stands at a place, and makes its line; or makes the end line.
pub fn list_step(
    kept: Record,
    feed: &[u8],
    at: usize,
    chunk: usize,
    picture: &mut [u8],
    map: &mut [u16],
) -> Listed
    ensures step_value { result.step ≡ (walk_step kept.size feed.now at (board picture.old map.old kept.unsettled)).said }
    ensures picture_after { picture.new ≡ (walk_step kept.size feed.now at (board picture.old map.old kept.unsettled)).board.picture }
    ensures map_after { map.new ≡ (walk_step kept.size feed.now at (board picture.old map.old kept.unsettled)).board.map }
    ensures text_value { drop result.line.start result.line.text ≡ step_line chunk result.step }
{
    let step = feed::step(kept, feed, at, picture, map);
    let line = step_line(chunk, step);
    Listed { line, step }
}
