// The paint pass: it runs on an accepted chunk only, in place, block by block in order, and cannot fail. Here s is the chunk. Each opcode's
// function reads its lead again: that is cheaper than to keep what the check pass read.
ghost use Rattle.std.specs.Prelude.{◌≡◌, ◌+◌, ◌*◌, ◌<◌, ◌≤◌};
ghost use Rattle.spec.specs.Chunks.{upper_at, decode};
ghost use Rattle.spec.specs.Maps.{remap};
ghost use Rattle.spec.specs.Pictures.{paint};
ghost use Rattle.smc.specs.Painting.{Accepts, origins_of, Lent, Room, Ran, Tabled, Turned};
ghost use Rattle.smc.specs.Tables.{colours};

use crate::flags::{Octets, Packing, Pairs, Quads};
use crate::runs;
use crate::runs::{ByFlags, Plain, Whole};
use crate::tables::{OctetTable, PairTable, QuadTable, Table, Tables};
use blocks::{Grid, Rows};

// Where the next opcode stands, and how many blocks have had their turn.
#[derive(Clone, Copy)]
struct Place {
    at: usize,
    k: usize,
}

// The next opcode of an accepted chunk: it stands at s[at], and k blocks have had their turn. Picture and map are lent beside it, and that they have
// the grid's size stands in each contract: as fields they would have to be said to keep their `ghost_name` there, as many clauses as now.
#[derive(Clone, Copy)]
struct Opcode<'a> {
    grid: Grid,
    s: &'a [u8],
    at: usize,
    k: usize,
    ghost room: { Room (grid.columns * grid.lines) s.now at k },
}

impl Opcode<'_> {
    // Opcodes 0 to 7.
    fn plain(&self, pic: &mut [u8], map: &mut [u16]) -> Place
        requires lent { Lent self.now.grid.columns self.now.grid.lines pic.old map.old }
        requires at_bound { upper_at self.now.s.now self.now.at < 8 }
        ensures { Ran self.now.grid.columns self.now.grid.lines self.now.s.now self.now.at self.now.k pic.old map.old pic.new map.new result.at result.k }
    {
        let lead = smc_check::lead_at(self.s, self.at);
        let n = lead.count;
        let body = lead.body;
        let k = self.k;
        match lead.upper {
            6.. => {
                let run = Plain {
                    blocks: n,
                    rows: Rows::of_colour(self.s[body]),
                };
                runs::put_run(&run, pic, map, self.grid, k);
                Place {
                    at: body + 1,
                    k: k + n,
                }
            }
            4..=5 => {
                runs::copy_run(pic, map, self.grid, k, 2 * n, 2);
                Place {
                    at: body,
                    k: k + 2 * n,
                }
            }
            2..=3 => {
                runs::copy_run(pic, map, self.grid, k, n, 1);
                Place { at: body, k: k + n }
            }
            _ => Place { at: body, k: k + n },
        }
    }

    // Opcodes 8 and 9, A and B, C and D: one that stores an entry of a table, and one that names one.
    fn tabled<P: Packing, const COLOURS: usize, const ALL: usize>(
        &self,
        packing: &P,
        pic: &mut [u8],
        map: &mut [u16],
        table: &mut Table<COLOURS, ALL>,
    ) -> Place
        requires lent { Lent self.now.grid.columns self.now.grid.lines pic.old map.old }
        requires bound { (P.STORING ≤ upper_at self.now.s.now self.now.at) × (upper_at self.now.s.now self.now.at < P.STORING + 2) }
        requires table_of { COLOURS ≡ colours P.bits }
        ensures { Tabled P.bits self.now.grid.columns self.now.grid.lines self.now.s.now self.now.at self.now.k pic.old map.old
            table.old.colours table.old.next pic.new map.new table.new.colours result.at result.k table.new.next }
    {
        let lead = smc_check::lead_at(self.s, self.at);
        let stores = lead.upper == P::STORING;
        let entry = table.entry_of(stores, self.s, lead.body);
        let run = ByFlags {
            packing,
            blocks: lead.count,
            entry: table.colours_at(entry.at, stores, self.s, lead.body),
            s: self.s,
            at: entry.rest,
        };
        runs::put_run(&run, pic, map, self.grid, self.k);
        Place {
            at: entry.rest + P::FLAGS * lead.count,
            k: self.k + lead.count,
        }
    }

    // Opcode E.
    fn whole(&self, pic: &mut [u8], map: &mut [u16]) -> Place
        requires lent { Lent self.now.grid.columns self.now.grid.lines pic.old map.old }
        requires bound { 14 ≤ upper_at self.now.s.now self.now.at }
        ensures { Ran self.now.grid.columns self.now.grid.lines self.now.s.now self.now.at self.now.k pic.old map.old pic.new map.new result.at result.k }
    {
        let lead = smc_check::lead_at(self.s, self.at);
        let n = lead.count;
        let run = Whole {
            blocks: n,
            s: self.s,
            at: lead.body,
        };
        runs::put_run(&run, pic, map, self.grid, self.k);
        Place {
            at: lead.body + 16 * n,
            k: self.k + n,
        }
    }

    // Whichever it is. Those that come most often stand last: that is the order that is guessed best at run time. By an `if` each, since each kind of
    // opcode works on a table of another type: closures would have to hold what is lent here.
    fn paint(&self, pairs: &Pairs, pic: &mut [u8], map: &mut [u16], tables: &mut Tables) -> Place
        requires lent { Lent self.now.grid.columns self.now.grid.lines pic.old map.old }
        ensures { Turned self.now.grid.columns self.now.grid.lines self.now.s.now self.now.at self.now.k tables.old pic.old map.old
            result.at result.k tables.new pic.new map.new }
    {
        let upper = self.s[self.at] / 16;
        if 14 <= upper {
            return self.whole(pic, map);
        }
        if 12 <= upper {
            return self.tabled(&Octets, pic, map, &mut tables.octets);
        }
        if 10 <= upper {
            return self.tabled(&Quads, pic, map, &mut tables.quads);
        }
        if 8 <= upper {
            return self.tabled(pairs, pic, map, &mut tables.pairs);
        }
        self.plain(pic, map)
    }
}

// Paints an accepted chunk.
pub fn paint(grid: Grid, s: &[u8], pic: &mut [u8], map: &mut [u16])
    requires lent { Lent grid.columns grid.lines pic.old map.old }
    requires accepts { Accepts (decode (grid.columns * grid.lines) s.now) }
    ensures pic_after { pic.new ≡ paint grid.columns grid.lines (origins_of (decode (grid.columns * grid.lines) s.now)) pic.old }
    ensures map_after { map.new ≡ remap (origins_of (decode (grid.columns * grid.lines) s.now)) map.old }
{
    let pairs = Pairs::new();
    let mut tables = Tables {
        pairs: PairTable::emptied(),
        quads: QuadTable::emptied(),
        octets: OctetTable::emptied(),
    };
    let blocks = map.len();
    let mut from = Place { at: 4, k: 0 };
    while from.k < blocks {
        let opcode = Opcode {
            grid,
            s,
            at: from.at,
            k: from.k,
        };
        from = opcode.paint(&pairs, pic, map, &mut tables);
    }
}
