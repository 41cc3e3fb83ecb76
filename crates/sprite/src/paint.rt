// The paint pass: it paints a frame that the check pass has accepted. Here s is the file. Columns and rows that may lie off the picture are
// counted from -32,768, so that none is below 0. No pixel is looked at that does not lie on the picture.
ghost use Rattle.std.specs.Prelude.{◌≡◌, ◌+◌, ◌^◌, ◌<◌, length};
ghost use Rattle.spec.specs.Answers.{ok};
ghost use Rattle.spec.specs.Sizes.{pixels};
ghost use Rattle.sprite.specs.Held.{row_of, rows_of};
ghost use Rattle.sprite.specs.Read.{shown};
ghost use Rattle.sprite.specs.Symbols.{overlay};
ghost use Rattle.sprite.specs.Strips.{origin, from_least, strip, sheet, Clipped};

use crate::files::{Frame, Row};
use crate::heads::{RowHead, Segment};
use spec::Size;

// The picture's first column and row. specs/Strips.antt has it as `origin`.
const ORIGIN: usize = 32768;

// Pixel by pixel: `copy_from_slice` of lent buffers is a call of `memmove`, and the header for C promises `memcpy` and `memset` alone.
fn copy(to: &mut [u8], colours: &[u8])
    requires { length to.old ≡ length colours.now }
    ensures { to.new ≡ colours.now }
{
    for i in 0..colours.len() {
        to[i] = colours[i];
    }
}

// Of pixels that follow one another, those that lie on the picture: how many come before them, the picture's column of the first, and how
// many they are.
#[derive(Clone, Copy)]
struct Visible {
    hidden: usize,
    column: usize,
    seen: usize,
}

// Of `count` pixels from column `left` on.
fn clip(width: usize, left: usize, count: usize) -> Visible
    ensures { Clipped width left count result.hidden result.column result.seen }
{
    let hidden = ORIGIN.saturating_sub(left);
    let column = left.saturating_sub(ORIGIN);
    Visible {
        hidden,
        column,
        seen: count
            .saturating_sub(hidden)
            .min(width.saturating_sub(column)),
    }
}

// Where a frame is painted: on a picture of this size, its upper left pixel at this column and row. That the lent picture has the size stands
// in each contract: of a struct with the picture in it each would have to say that it keeps its `ghost_name` (the kit's docs/BORROWS.md), which
// is as many clauses.
#[derive(Clone, Copy)]
pub struct Position {
    size: Size,
    left: u16,
    top: u16,
}

impl Position {
    pub fn new(size: Size, left: i16, top: i16) -> Self
        ensures size_value { result.size ≡ size }
        ensures left_value { result.left ≡ from_least left }
        ensures top_value { result.top ≡ from_least top }
    {
        Self {
            size,
            left: left.abs_diff(i16::MIN),
            top: top.abs_diff(i16::MIN),
        }
    }

    // A segment behind x pixels of its row, in row y of the picture: those of its pixels that lie on it.
    fn paint_segment(self, segment: Segment, x: usize, y: usize, picture: &mut [u8])
        requires x_bound { x < 2 ^ 16 }
        requires y_lt_height { y < self.size.height }
        requires exact { length picture.old ≡ pixels self.size }
        ensures { picture.new ≡ overlay self.size (strip (self.left + x) (origin + y) (shown segment.entry)) picture.old }
    {
        let left = usize::from(self.left) + x;
        let visible = clip(self.size.width, left, segment.count());
        if visible.seen == 0 {
            return;
        }
        let start = y * self.size.width + visible.column;
        let end = start + visible.seen;
        match segment {
            Segment::Clear(_) => {}
            Segment::Run(_, colour) => picture[start..end].fill(colour),
            Segment::Copy(colours) => {
                let shown = &colours[visible.hidden..visible.hidden + visible.seen];
                copy(&mut picture[start..end], shown);
            }
        }
    }

    // A row with data, in row y of the picture.
    fn paint_row(self, r: &Row, y: usize, picture: &mut [u8])
        requires y_lt_height { y < self.size.height }
        requires exact { length picture.old ≡ pixels self.size }
        ensures { picture.new ≡ overlay self.size (strip self.left (origin + y) (row_of r.now).made) picture.old }
    {
        let mut x = 0;
        let mut next = r.first;
        while next < r.end {
            // no segment of an accepted frame is refused
            let Ok((segment, after)) = r.segment_at(x, next) else {
                return;
            };
            self.paint_segment(segment, x, y, picture);
            x += segment.count();
            next = after;
        }
    }

    // The same in row `line`, which need not be the picture's.
    fn paint_line(self, r: &Row, line: usize, picture: &mut [u8])
        requires { length picture.old ≡ pixels self.size }
        ensures { picture.new ≡ overlay self.size (strip self.left line (row_of r.now).made) picture.old }
    {
        let Some(y) = line.checked_sub(ORIGIN) else {
            return;
        };
        if y < self.size.height {
            self.paint_row(r, y, picture);
        }
    }

    // The rows of an accepted frame.
    pub fn paint(self, f: &Frame, picture: &mut [u8])
        requires accepted { (rows_of f.now).number ≡ ok }
        requires exact { length picture.old ≡ pixels self.size }
        ensures { picture.new ≡ overlay self.size (sheet self.left self.top (rows_of f.now).made) picture.old }
    {
        let height = usize::from(f.height);
        let mut done = 0;
        let mut at = f.first;
        while done < height {
            // no row of an accepted frame is refused
            let Ok(head) = f.row_at(done, at) else {
                return;
            };
            match head {
                RowHead::Blank(count) => {
                    done += count;
                    at += 2;
                }
                RowHead::Data(r) => {
                    self.paint_line(&r, usize::from(self.top) + done, picture);
                    done += 1;
                    at = r.end;
                }
            }
        }
    }
}
