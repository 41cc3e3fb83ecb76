// A block's flags: which of its colours each pixel has, packed into bytes.
ghost use Rattle.std.specs.Prelude.{◌≡◌, map, ◌+◌, ◌*◌, ◌^◌, ◌≤◌, ◌<◌, length, take};
ghost use Rattle.spec.specs.Basics.{part};
ghost use Rattle.spec.specs.Flags.{number, flag_bytes};
ghost use Rattle.spec.specs.Writing.{colours, entries, entry_of};
ghost use Rattle.smc_writer.specs.Tables.{bits};
ghost use Rattle.smc_writer.specs.Flags.{under, packed};

use crate::table::Table;

// How many of some entries are below a colour. Entries rise: this is the lowest that fits, where one does. That they are at most eight is a
// clause here and below: with a struct that knows it, the writer took up to 15 % longer on frames of which every block is changed.
fn entry_of(list: &[u8], colour: u8) -> u16
    requires { length list.now ≤ 8 }
    ensures value { result ≡ under list.now colour }
    ensures upper_bound { result ≤ length list.now }
{
    list.iter().map(|entry| u16::from(*entry < colour)).sum()
}

// The entries of the four pixels from px[at] on as one number, the first pixel highest.
fn row_number(list: &[u8], px: &[u8; 16], at: usize) -> u16
    requires few { length list.now ≤ 8 }
    requires within { at + 4 ≤ 16 }
    ensures { result ≡ number (length list.now) (map (under list.now) (part px.now at 4)) }
{
    let base = list.len() as u16;
    let high = entry_of(list, px[at]) * base + entry_of(list, px[at + 1]);
    let low = entry_of(list, px[at + 2]) * base + entry_of(list, px[at + 3]);
    high * (base * base) + low
}

// The bytes of four rows' numbers; pairs and quads have fewer than six, but memory is fixed in this project. The rows come one by one, as
// they do in the definition, where each has a name.
fn pack(table: Table, a: u16, b: u16, c: u16, d: u16) -> [u8; 6]
    requires { (a < 2 ^ (bits table * 4)) × ((b < 2 ^ (bits table * 4)) × ((c < 2 ^ (bits table * 4)) × (d < 2 ^ (bits table * 4)))) }
    ensures { take (2 * bits table) result ≡ packed table a b c d }
{
    match table {
        Table::Pairs => [(a * 16 + b) as u8, (c * 16 + d) as u8, 0, 0, 0, 0],
        Table::Quads => [a as u8, b as u8, c as u8, d as u8, 0, 0],
        Table::Octets => [
            (a / 16) as u8,
            (a % 16 * 16 + d / 256) as u8,
            (b / 16) as u8,
            (b % 16 * 16 + d / 16 % 16) as u8,
            (c / 16) as u8,
            (c % 16 * 16 + d % 16) as u8,
        ],
    }
}

// The flag bytes of a block with these pixels, by its colours as the table's entry has them.
pub fn flag_bytes(table: Table, list: &[u8], px: &[u8; 16]) -> [u8; 6]
    requires fits { length (colours px.now) ≤ 2 ^ bits table }
    requires few { length list.now ≤ 8 }
    requires stored { list.now ≡ entries (bits table) (colours px.now) }
    ensures { take (2 * bits table) result ≡ flag_bytes (bits table) (map (entry_of (entries (bits table) (colours px.now))) px.now) }
{
    let a = row_number(list, px, 0);
    let b = row_number(list, px, 4);
    let c = row_number(list, px, 8);
    let d = row_number(list, px, 12);
    pack(table, a, b, c, d)
}
