// A changed block of more than one colour, which goes by itself. Each writer of a block writes at the front of the output and says how much.
ghost use Rattle.std.specs.Prelude.{◌≡◌, ◌∷◌, ◌+◌, ◌*◌, ◌^◌, ◌≤◌, length, take};
ghost use Rattle.spec.specs.Writing.{colours, entries, tabled, single, onto};
ghost use Rattle.smc_writer.specs.Tables.{bits};
ghost use Rattle.smc_writer.specs.Put.{over};

use crate::colours::Colours;
use crate::flags;
use crate::table::Table;

// Bytes, from a place of the output on.
fn put_bytes(out: &mut [u8], at: usize, bytes: &[u8])
    requires { at + length bytes.now ≤ length out.old }
    ensures value { out.new ≡ over at bytes.now out.old }
    ensures len { length out.new ≡ length out.old }
{
    out[at..at + bytes.len()].copy_from_slice(bytes);
}

// Under 8, A or C: its colours and its flags.
fn put_tabled(out: &mut [u8], table: Table, list: &[u8; 16], px: &[u8; 16]) -> usize
    requires fits { length (colours px.now) ≤ 2 ^ bits table }
    requires stored { take (2 ^ bits table) list.now ≡ entries (bits table) (colours px.now) }
    requires room { 1 + 2 ^ bits table + 2 * bits table ≤ length out.old }
    ensures value { result ≡ length (tabled (bits table) (entries (bits table) (colours px.now)) px.now) }
    ensures out_after { out.new ≡ onto (tabled (bits table) (entries (bits table) (colours px.now)) px.now) out.old }
{
    let entry = &list[..table.size()];
    let bytes = flags::flag_bytes(table, entry, px);
    let flags = &bytes[..2 * table.bits()];
    out[0] = table.opcode();
    put_bytes(out, 1, entry);
    put_bytes(out, 1 + entry.len(), flags);
    1 + entry.len() + flags.len()
}

// Under E: its sixteen pixels.
fn put_whole(out: &mut [u8], px: &[u8; 16]) -> usize
    requires { 17 ≤ length out.old }
    ensures value { result ≡ length (0xE0 ∷ px.now) }
    ensures out_after { out.new ≡ onto (0xE0 ∷ px.now) out.old }
{
    out[0] = 0xE0;
    put_bytes(out, 1, px);
    17
}

// A changed block, at the front of the output.
pub fn put_single(out: &mut [u8], px: &[u8; 16]) -> usize
    requires { length (single px.now) ≤ length out.old }
    ensures value { result ≡ length (single px.now) }
    ensures out_after { out.new ≡ onto (single px.now) out.old }
{
    let colours = Colours::of(px);
    match Table::holding(colours.len()) {
        Some(table) => put_tabled(out, table, &colours.filled(), px),
        None => put_whole(out, px),
    }
}
