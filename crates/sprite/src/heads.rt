// The heads of rows and of segments, which both passes read. Here s is the file, and s[at] the head's first byte.
ghost use Rattle.std.specs.Prelude.{◌≡◌, ◌-◌, ◌≤◌, length, IfOk};
ghost use Rattle.spec.specs.Answers.{bad_row, bad_segment};
ghost use Rattle.sprite.specs.Frames.{segment_bytes, segment_at, segment_says, shades, row_at, row_head_says};
ghost use Rattle.sprite.specs.Read.{Decodes, segment_code, shown, segment_result, row_code, row_head_result, RowRead};

use crate::files::{Frame, Row};
use spec::Refusal;

// 001's codes of segments.
#[derive(Clone, Copy)]
enum SegmentCode {
    Clear,
    Run,
    Copy,
}

impl TryFrom<u8> for SegmentCode {
    type Error = Refusal;

    ghost try_from_gives = { Decodes segment_code bad_segment };

    fn try_from(code: u8) -> Result<SegmentCode, Refusal> {
        match code {
            1 => Ok(SegmentCode::Clear),
            2 => Ok(SegmentCode::Run),
            3 => Ok(SegmentCode::Copy),
            _ => Err(Refusal::BadSegment),
        }
    }
}

impl SegmentCode {
    // The bytes of a segment that counts so many pixels, code and count included.
    fn bytes(self, count: u8) -> usize
        ensures { result ≡ segment_bytes (segment_code self) count }
    {
        let pixels = usize::from(count);
        match self {
            SegmentCode::Clear => 2,
            SegmentCode::Run => 4,
            SegmentCode::Copy => 2 + pixels + pixels % 2,
        }
    }
}

// A segment: so many pixels of background, so many of one colour, or a colour for each.
#[derive(Clone, Copy)]
pub enum Segment<'a> {
    Clear(usize),
    Run(usize, u8),
    Copy(&'a [u8]),
}

impl Segment<'_> {
    // How many pixels it has.
    pub fn count(self) -> usize
        ensures { result ≡ length (shown self.entry) }
    {
        match self {
            Segment::Clear(n) => n,
            Segment::Run(n, _) => n,
            Segment::Copy(colours) => colours.len(),
        }
    }
}

impl<'a> Row<'a> {
    // The segment at s[at], behind x pixels of the row, and the place after it; or 19.
    pub fn segment_at(&self, x: usize, at: usize) -> Result<(Segment<'a>, usize), Refusal>
        requires x_le_width { x ≤ self.now.width }
        requires at_le_end { at ≤ self.now.end }
        ensures said { segment_result result ≡ segment_says (segment_at self.now.s.now self.now.end (self.now.width - x) at) }
        ensures shows { IfOk result (λ g. shown g.0 ≡ shades self.now.s.now at) }
    {
        let s = self.s;
        if self.end - at < 2 {
            return Err(Refusal::BadSegment);
        }
        let count = s[at + 1];
        let pixels = usize::from(count);
        let code = SegmentCode::try_from(s[at])?;
        let size = code.bytes(count);
        if self.end - at < size {
            return Err(Refusal::BadSegment);
        }
        if usize::from(self.width) - x < pixels {
            return Err(Refusal::BadSegment);
        }
        let after = at + size;
        match code {
            SegmentCode::Clear => Ok((Segment::Clear(pixels), after)),
            SegmentCode::Run => Ok((Segment::Run(pixels, s[at + 2]), after)),
            SegmentCode::Copy => {
                let colours = &s[at + 2..at + 2 + pixels];
                Ok((Segment::Copy(colours), after))
            }
        }
    }
}

// 001's codes of rows.
#[derive(Clone, Copy)]
enum RowCode {
    Data,
    Blank,
}

impl TryFrom<u8> for RowCode {
    type Error = Refusal;

    ghost try_from_gives = { Decodes row_code bad_row };

    fn try_from(code: u8) -> Result<RowCode, Refusal> {
        match code {
            4 => Ok(RowCode::Data),
            9 => Ok(RowCode::Blank),
            _ => Err(Refusal::BadRow),
        }
    }
}

// A row's head: so many rows of background; or a row with data.
#[derive(Clone, Copy)]
pub enum RowHead<'a> {
    Blank(usize),
    Data(Row<'a>),
}

impl<'a> Frame<'a> {
    // The head of the row at s[at], behind so many rows of the frame; or 18.
    pub fn row_at(&self, done: usize, at: usize) -> Result<RowHead<'a>, Refusal>
        requires done_le_height { done ≤ self.now.height }
        requires at_in_bounds { at ≤ length self.now.s.now }
        ensures said { row_head_result result ≡ row_head_says (row_at self.now.s.now (self.now.height - done) at) }
        ensures read { IfOk result (λ h. RowRead self.now.s.now self.now.width at h) }
    {
        let s = self.s;
        if s.len() - at < 2 {
            return Err(Refusal::BadRow);
        }
        let room = usize::from(self.height) - done;
        let count = usize::from(s[at + 1]);
        match RowCode::try_from(s[at])? {
            RowCode::Blank if count <= room => Ok(RowHead::Blank(count)),
            RowCode::Data if 4 <= count && count <= s.len() - at => {
                let r = Row {
                    s,
                    width: self.width,
                    first: at + 2,
                    end: at + count,
                };
                Ok(RowHead::Data(r))
            }
            _ => Err(Refusal::BadRow),
        }
    }
}
