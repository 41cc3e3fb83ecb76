// A block's pixels by its flags: which colour of a table's entry each pixel takes.
ghost use Rattle.std.specs.Prelude.{◌≡◌, refl, ℕ, ◌+◌, ◌*◌, ◌<◌, ◌≤◌, [], ◌∷◌, length};
ghost use Rattle.std.proofs.lemmas.List.Edits.{sets};
ghost use Rattle.spec.specs.Flags.{digits, flags, chosen};
ghost use Rattle.spec.specs.Octets.{row_by_bytes};
ghost use Rattle.spec.specs.Pictures.{put_block};
ghost use Rattle.blocks.specs.Blocks.{row_of, area};
ghost use Rattle.smc.specs.Tables.{colours};
ghost use Rattle.smc.specs.Factors.{Factors};
ghost use Rattle.smc.specs.Storing.{Stores, pairs, quads, octets};

use crate::put;
use blocks::{Grid, Rows};

// One of the three ways to pack a block's pixels: so many bits each, which name the colours of an entry.
pub trait Packing {
    ghost bits: { ℕ };

    // the opcode that stores an entry; the one after it names one
    ghost STORING: { ℕ };

    const STORING: usize;

    // the bytes of a block's flags
    ghost FLAGS: { ℕ };

    const FLAGS: usize;

    // Puts block k by its flags.
    fn put(&self, pic: &mut [u8], grid: Grid, k: usize, entry: &[u8], bytes: &[u8])
        requires exact { length pic.old ≡ area grid.columns grid.lines }
        requires k_bound { k < grid.columns * grid.lines }
        requires entry_len { length entry.now ≡ colours bits }
        requires bytes_len { length bytes.now ≡ FLAGS }
        ensures { pic.new ≡ put_block grid.columns k (chosen (flags bits bytes.now) entry.now) pic.old };

    ghost flags_are: { FLAGS ≡ 2 * bits };

    ghost stores: { Stores bits STORING };
}

// ---- pairs: one bit a pixel

// For each half-byte the factor that puts a colour at the bits that are set; ALL puts it at all four.
const FACTORS: [u32; 16] = [
    0, 16777216, 65536, 16842752, 256, 16777472, 65792, 16843008, 1, 16777217, 65537, 16842753,
    257, 16777473, 65793, 16843009,
];

const ALL: u32 = 16843009;

// The factors are held, and lent with this: a constant that is indexed in place would be copied at every use.
#[derive(Drop)]
pub struct Pairs {
    factors: [u32; 16],
    ghost are: { Factors factors },
}

impl Pairs {
    pub fn new() -> Self {
        Self { factors: FACTORS }
    }

    // Four pixels by a half-byte: c0 everywhere, and the difference to c1, which may wrap, where a bit is set.
    fn row(&self, c0: u8, c1: u8, f: u8) -> u32
        requires { f < 16 }
        ensures { row_of result ≡ chosen (digits 1 4 f) (c0 ∷ c1 ∷ []) }
    {
        let m = self.factors[usize::from(f)];
        let a = u32::from(c0) * m;
        let b = u32::from(c1) * m;
        (u32::from(c0) * ALL).wrapping_add(b.wrapping_sub(a))
    }
}

impl Packing for Pairs {
    ghost bits = { 1 };

    ghost STORING = { 8 };

    const STORING: usize = 8;

    ghost FLAGS = { 2 };

    const FLAGS: usize = 2;

    fn put(&self, pic: &mut [u8], grid: Grid, k: usize, entry: &[u8], bytes: &[u8]) {
        let c0 = entry[0];
        let c1 = entry[1];
        let a = self.row(c0, c1, bytes[0] / 16);
        let b = self.row(c0, c1, bytes[0] % 16);
        let c = self.row(c0, c1, bytes[1] / 16);
        let d = self.row(c0, c1, bytes[1] % 16);
        put::put_block(pic, grid, k, Rows { a, b, c, d });
    }

    ghost flags_are = { refl };

    ghost stores = { pairs };
}

// ---- quads: two bits a pixel

pub struct Quads;

// Four pixels by a byte, with the colours t.
fn quad_row(t: &[u8], f: u8) -> u32
    requires { length t.now ≡ colours 2 }
    ensures { row_of result ≡ chosen (digits 2 4 f) t.now }
{
    let x = usize::from(f);
    blocks::word(t[x / 64], t[x / 16 % 4], t[x / 4 % 4], t[x % 4])
}

impl Packing for Quads {
    ghost bits = { 2 };

    ghost STORING = { 10 };

    const STORING: usize = 10;

    ghost FLAGS = { 4 };

    const FLAGS: usize = 4;

    // one flag byte a row
    fn put(&self, pic: &mut [u8], grid: Grid, k: usize, entry: &[u8], bytes: &[u8]) {
        let a = quad_row(entry, bytes[0]);
        let b = quad_row(entry, bytes[1]);
        let c = quad_row(entry, bytes[2]);
        let d = quad_row(entry, bytes[3]);
        put::put_block(pic, grid, k, Rows { a, b, c, d });
    }

    ghost flags_are = { refl };

    ghost stores = { quads };
}

// ---- octets: three bits a pixel. Nothing here is wider than a byte but places, for controllers that are slow at shifting wider numbers: tests/run
// looks at that, and knows no way to widen a byte but `as`. `spec/specs/Octets` says what is computed here, and what it names.

pub struct Octets;

// Stores at pic[p] four pixels by twelve bits: a byte, and the half-byte after it.
fn put_octet_row(pic: &mut [u8], p: usize, t: &[u8], f: u8, g: u8)
    requires p_in_bounds { p + 4 ≤ length pic.old }
    requires t_len { length t.now ≡ colours 3 }
    requires g_bound { g < 16 }
    ensures { pic.new ≡ sets pic.old p (chosen (row_by_bytes f g) t.now) }
{
    let a = f / 32;
    let b = f / 4 % 8;
    let c = f % 4 * 2 + g / 8;
    let d = g % 8;
    put::put_four(
        pic,
        p,
        t[a as usize],
        t[b as usize],
        t[c as usize],
        t[d as usize],
    );
}

impl Packing for Octets {
    ghost bits = { 3 };

    ghost STORING = { 12 };

    const STORING: usize = 12;

    ghost FLAGS = { 6 };

    const FLAGS: usize = 6;

    fn put(&self, pic: &mut [u8], grid: Grid, k: usize, entry: &[u8], bytes: &[u8]) {
        let p = grid.place_of(k);
        let w = 4 * grid.columns;
        let f1 = bytes[1];
        let f3 = bytes[3];
        let f5 = bytes[5];
        put_octet_row(pic, p, entry, bytes[0], f1 / 16);
        put_octet_row(pic, p + w, entry, bytes[2], f3 / 16);
        put_octet_row(pic, p + 2 * w, entry, bytes[4], f5 / 16);
        put_octet_row(pic, p + 3 * w, entry, f1 % 16 * 16 + f3 % 16, f5 % 16);
    }

    ghost flags_are = { refl };

    ghost stores = { octets };
}
