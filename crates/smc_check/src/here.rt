// Where the check stands, and the opcode there.
ghost use Rattle.std.specs.Prelude.{ℕ, ◌≡◌, ◌%◌, ◌≤◌, ◌<◌, length, get_or};
ghost use Rattle.spec.specs.Chunks.{kind_of, times, reach};
ghost use Rattle.smc_check.specs.Tables.{Asks};

use crate::heads;
use crate::heads::Lead;
use crate::tables::{Row, Tables};
use spec::Refusal;

// The next opcode is s[at]; k of the blocks have had their turn; f says how often each opcode has come, by its upper half-byte: 8, A and C store an
// entry each time.
#[derive(Clone, Copy)]
pub struct Here<'t, 'a> {
    pub tables: &'t Tables,
    pub blocks: usize,
    pub s: &'a [u8],
    pub at: usize,
    pub k: usize,
    pub f: &'a [usize; 16],
    ghost bytes: { (i : ℕ) → get_or s.now i 0 < 256 },
    ghost opcode_in: { at < length s.now },
    ghost block_waits: { k < blocks },
}

// An opcode that may run: its upper half-byte and what that asks for, the first block that it makes and how many, and the place of the next opcode.
#[derive(Clone, Copy)]
pub struct Run<'t> {
    pub upper: usize,
    pub row: &'t Row,
    pub first: usize,
    pub blocks: usize,
    pub next: usize,
    ghost known: { upper < 15 },
    ghost asks: { Asks upper row.now },
    ghost reached: { reach (kind_of upper) ≤ first },
    ghost some: { 1 ≤ blocks },
    ghost even: { blocks % times (kind_of upper) ≡ 0 },
}

impl<'t, 'a> Here<'t, 'a> {
    ghost use Rattle.std.specs.Prelude.{◌+◌};
    ghost use Rattle.spec.specs.Chunks.{once, missing};
    ghost use Rattle.smc_check.specs.Checking.{Stands, Ends, fills_of, Tells, Refuses};

    // The opcodes that name an entry, 9, B and D, a bit for each. Tried: with a flag in the row instead the check alone takes 11 % longer.
    const NAMING: usize = 1 << 9 | 1 << 11 | 1 << 13;

    // Whether an opcode names an entry that is not filled. The entry's number stands at the lead's end; the opcode one below stores in that table.
    fn is_missing(self, lead: Lead) -> bool
        requires room { lead.body + once (kind_of lead.upper) ≤ length self.s.now }
        requires upper_bound { lead.upper < 16 }
        ensures { result ≡ missing (fills_of self.entry.f.now) (kind_of lead.upper) (get_or self.entry.s.now lead.body 0) }
    {
        if Here::NAMING >> lead.upper & 1 == 1 {
            return self.f[lead.upper - 1] <= usize::from(self.s[lead.body]);
        }
        false
    }

    // An opcode whose bytes are all there, so many of them.
    fn whole(self, span: usize) -> Result<Run<'t>, Refusal>
        requires { Stands self.s.now self.at span }
        ensures { Tells self.entry result }
    {
        let lead = heads::lead_at(self.s, self.at);
        let row = self.tables.row_of(lead.upper);
        let m = usize::from(row.times) * lead.count;
        if lead.upper == 15 {
            return Err(Refusal::OpcodeUnknown);
        }
        if self.k < usize::from(row.reach) {
            return Err(Refusal::NoneBefore);
        }
        if self.blocks - self.k < m {
            return Err(Refusal::PastLastBlock);
        }
        if self.is_missing(lead) {
            return Err(Refusal::EntryEmpty);
        }
        Ok(Run {
            upper: lead.upper,
            row,
            first: self.k,
            blocks: m,
            next: self.at + span,
        })
    }

    // Why an opcode inside which the bytes end is refused, by the rules' order of the tests; `whole` has another, and takes 9 % longer in this one. Apart from
    // the loop, which it would slow down.
    #[cold]
    #[inline(never)]
    fn cut(self) -> Refusal
        requires { Ends self.s.now self.at }
        ensures { Refuses self.entry result }
    {
        let len = self.s.len();
        if len - self.at <= heads::count_bytes(usize::from(self.s[self.at]) / 16) {
            return Refusal::OpcodeCut;
        }
        let lead = heads::lead_at(self.s, self.at);
        let row = self.tables.row_of(lead.upper);
        if self.k < usize::from(row.reach) {
            return Refusal::NoneBefore;
        }
        if self.blocks - self.k < usize::from(row.times) * lead.count {
            return Refusal::PastLastBlock;
        }
        if len - lead.body < usize::from(row.once) {
            return Refusal::OpcodeCut;
        }
        if self.is_missing(lead) {
            return Refusal::EntryEmpty;
        }
        Refusal::OpcodeCut
    }

    // The opcode here, or why it is refused.
    pub fn opcode(self) -> Result<Run<'t>, Refusal>
        ensures { Tells self.entry result }
    {
        let span = self.tables.span_of(self.s[self.at]);
        if self.s.len() - self.at < span {
            return Err(self.cut());
        }
        self.whole(span)
    }
}
