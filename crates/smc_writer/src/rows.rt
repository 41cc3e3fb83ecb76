// Blocks as four rows: the first pixel, whether all have its colour, and the sixteen.
ghost use Rattle.std.specs.Prelude.{◌≡◌, get_or};
ghost use Rattle.spec.specs.Writing.{plain};
ghost use Rattle.blocks.specs.Blocks.{pixels};

use blocks::Rows;

// The first pixel.
pub fn first_of(x: Rows) -> u8
    ensures { result ≡ get_or (pixels x) 0 0 }
{
    x.a.to_le_bytes()[0]
}

// Whether all sixteen pixels have the first one's colour.
pub fn is_plain(x: Rows) -> bool
    ensures { result ≡ plain (pixels x) }
{
    Rows::of_colour(first_of(x)) == x
}

// The sixteen pixels, row by row.
pub fn pixels_of(x: Rows) -> [u8; 16]
    ensures { result ≡ pixels x }
{
    let mut px = [0; 16];
    px[..4].copy_from_slice(&x.a.to_le_bytes());
    px[4..8].copy_from_slice(&x.b.to_le_bytes());
    px[8..12].copy_from_slice(&x.c.to_le_bytes());
    px[12..].copy_from_slice(&x.d.to_le_bytes());
    px
}
