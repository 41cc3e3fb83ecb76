// The check pass: it decides the answer for a frame, and writes nothing. Here s is the file.
ghost use Rattle.std.specs.Prelude.{◌≡◌, ◌≤◌, length, IfOk};
ghost use Rattle.spec.specs.Answers.{number_of};
ghost use Rattle.sprite.specs.Frames.{marker, frame};
ghost use Rattle.sprite.specs.Held.{row_of, rows_of};

use crate::files::{Frame, Row};
use crate::heads::RowHead;
use spec::Refusal;

// What follows the rows. specs/Frames.antt has its code as `end_code`.
const END_MARKER: [u8; 2] = [5, 0];

// 19 for the segments of a row with data. `paint_row` walks them too, and paints: one walk for both would take what to do with each segment as
// a closure that lends the picture, which is no plainer. So it is with `check_rows` and `paint`.
fn check_row(r: &Row) -> Result<(), Refusal>
    ensures { number_of result ≡ (row_of r.now).number }
{
    let mut x = 0;
    let mut next = r.first;
    while next < r.end {
        let (segment, after) = r.segment_at(x, next)?;
        x += segment.count();
        next = after;
    }
    Ok(())
}

// 20 for what follows the rows.
fn check_marker(s: &[u8], at: usize) -> Result<(), Refusal>
    requires { at ≤ length s.now }
    ensures { number_of result ≡ marker s.now at }
{
    if s[at..].starts_with(&END_MARKER) {
        return Ok(());
    }
    Err(Refusal::NoEndMarker)
}

// 18, 19 or 20 for the rows of a frame.
fn check_rows(f: &Frame) -> Result<(), Refusal>
    ensures { number_of result ≡ (rows_of f.now).number }
{
    let height = usize::from(f.height);
    let mut y = 0;
    let mut at = f.first;
    while y < height {
        match f.row_at(y, at)? {
            RowHead::Blank(count) => {
                y += count;
                at += 2;
            }
            RowHead::Data(r) => {
                check_row(&r)?;
                y += 1;
                at = r.end;
            }
        }
    }
    check_marker(f.s, at)
}

// Frame k of a file, where it is accepted; or its refusal.
pub fn check(s: &[u8], k: usize) -> Result<Frame<'_>, Refusal>
    ensures number { number_of result ≡ (frame s.now k).number }
    ensures accepted { IfOk result (λ f. rows_of f ≡ frame s.now k) }
{
    let f = Frame::find(s, k)?;
    check_rows(&f)?;
    Ok(f)
}
