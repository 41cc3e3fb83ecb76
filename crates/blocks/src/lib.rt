// A picture's blocks: its measure in blocks, where a block stands, and getting one. A block is held as four rows of four pixels. Here k is a
// block's number.
//
// What reader and writer share. These functions ask for a block that is there: this crate is internal, and nothing of it is exported
// (docs/DECISIONS.md).
#![tactic(auto)]

ghost use Rattle.std.specs.Prelude.{◌≡◌, [], ◌∷◌, ◌+◌, ◌*◌, ◌≤◌, ◌<◌, true, length, replicate};
ghost use Rattle.spec.specs.Sizes.{columns, lines, max_columns, max_lines, max_blocks, max_width, allowed};
ghost use Rattle.spec.specs.Pictures.{place, block_at};
ghost use Rattle.blocks.specs.Blocks.{row_of, pixels, row, rows, area};

use spec::Size;

// A picture's measure: how many blocks stand to a line, and how many lines of them there are, within the limits.
#[derive(Clone, Copy)]
pub struct Grid {
    pub columns: usize,
    pub lines: usize,
    ghost wide: { 0 < columns },
    ghost narrow: { columns ≤ max_columns },
    ghost low: { lines ≤ max_lines },
}

// Four rows of four pixels each, the first pixel of a row lowest.
#[derive(Clone, Copy, PartialEq, Eq)]
pub struct Rows {
    pub a: u32,
    pub b: u32,
    pub c: u32,
    pub d: u32,
}

// A row of four pixels.
pub fn word(a: u8, b: u8, c: u8, d: u8) -> u32
    ensures { row_of result ≡ a ∷ b ∷ c ∷ d ∷ [] }
{
    u32::from_le_bytes([a, b, c, d])
}

// The row of four bytes at s[p].
fn row_at(s: &[u8], p: usize) -> u32
    requires { p + 4 ≤ length s.now }
    ensures { row_of result ≡ row s.now p }
{
    word(s[p], s[p + 1], s[p + 2], s[p + 3])
}

impl Rows {
    // A block of one colour.
    pub fn of_colour(colour: u8) -> Self
        ensures { pixels result ≡ replicate 16 colour }
    {
        let w = word(colour, colour, colour, colour);
        Self {
            a: w,
            b: w,
            c: w,
            d: w,
        }
    }
}

// The block whose four rows stand w bytes apart, the first at s[p].
pub fn rows_at(s: &[u8], p: usize, w: usize) -> Rows
    requires w_le_max_width { w ≤ max_width }
    requires w_in_bounds { p + 3 * w + 4 ≤ length s.now }
    ensures { pixels result ≡ rows s.now p w }
{
    let a = row_at(s, p);
    let b = row_at(s, p + w);
    let c = row_at(s, p + 2 * w);
    let d = row_at(s, p + 3 * w);
    Rows { a, b, c, d }
}

// The place of block k's first pixel, where c blocks stand to a line.
pub fn place_of(c: usize, k: usize) -> usize
    requires c_nonzero { 0 < c }
    requires c_le_max_columns { c ≤ max_columns }
    requires k_lt_max_blocks { k < max_blocks }
    ensures { result ≡ place c k 0 }
{
    // half-width division is the faster one
    let line = k as u32 / c as u32;
    let column = k as u32 % c as u32;
    4 * line as usize * (4 * c) + 4 * column as usize
}

impl Grid {
    // That of a picture of an allowed size.
    pub fn of(size: Size) -> Self
        requires { allowed size ≡ true }
        ensures columns_value { result.columns ≡ columns size }
        ensures lines_value { result.lines ≡ lines size }
    {
        Self {
            columns: size.width / 4,
            lines: size.height / 4,
        }
    }

    // How many blocks there are.
    pub fn blocks(self) -> usize
        ensures { result ≡ self.columns * self.lines }
    {
        self.columns * self.lines
    }

    // The place of block k's first pixel.
    pub fn place_of(self, k: usize) -> usize
        requires { k < max_blocks }
        ensures { result ≡ place self.columns k 0 }
    {
        place_of(self.columns, k)
    }

    // Block k of a picture.
    pub fn block_at(self, pic: &[u8], k: usize) -> Rows
        requires exact { length pic.now ≡ area self.columns self.lines }
        requires k_bound { k < self.columns * self.lines }
        ensures { pixels result ≡ block_at self.columns pic.now k }
    {
        let p = self.place_of(k);
        rows_at(pic, p, 4 * self.columns)
    }
}
