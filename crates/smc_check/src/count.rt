// The count's change, beside the check: how many entries of blocks that are painted or copied are unsettled, and how many blocks a copy leaves
// unsettled. It looks at the map while the check waits for its next opcode, and writes nothing.
ghost use Rattle.std.specs.Prelude.{◌≡◌, ◌≢◌, ◌+◌, ◌≤◌, ◌<◌, length, IfOk, IfErr};
ghost use Rattle.spec.specs.Answers.{ok};
ghost use Rattle.spec.specs.Sizes.{max_blocks};
ghost use Rattle.spec.specs.Maps.{unsettled};
ghost use Rattle.spec.specs.Chunks.{decode, verdict};
ghost use Rattle.smc_check.specs.Tallying.{bit, opened, left, copied, second_of, is_settled, begun, summed};
ghost use Rattle.smc_check.specs.Tallying.{StandsAt, Tallied, Owing, Notes, Takes, Balanced, answer_of};

use crate::check;
use crate::check::Along;
use crate::here::Run;
use spec::{Answer, SETTLED};

// What is remembered of a block: settled by now, skipped and so as it was lent, or unsettled by now.
#[derive(Clone, Copy, PartialEq, Eq)]
pub enum Block {
    Settled,
    Skipped,
    Unsettled,
}

// Where the counting stands. now: the number of blocks, less the entries found unsettled, and more the blocks that copies leave so; those from lo to
// hi are still to be counted. one and two: the block before, and the one before that.
#[derive(Clone, Copy)]
pub struct Running {
    pub now: usize,
    pub one: Block,
    pub two: Block,
    pub lo: usize,
    pub hi: usize,
}

// The counting beside the check of a chunk for a board with this map. That it tallies with the blocks made so far stands in each contract, since how many
// those are is another argument's.
#[derive(Clone, Copy)]
pub struct Counter<'a> {
    pub map: &'a [u16],
    pub t: Running,
    ghost map_fits: { length map.now ≤ max_blocks },
}

// Of an accepted chunk: the length used, and the number of blocks with the count's change added.
#[derive(Clone, Copy)]
pub struct Changed {
    pub length: usize,
    pub now: usize,
}

impl Block {
    // As an opcode leaves it that copies no unsettled one.
    fn left(touches: bool) -> Self
        ensures { result ≡ left touches }
    {
        if touches {
            Block::Settled
        } else {
            Block::Skipped
        }
    }

    // As a copy leaves it.
    fn copied(unsettled: bool) -> Self
        ensures { result ≡ copied unsettled }
    {
        if unsettled {
            Block::Unsettled
        } else {
            Block::Settled
        }
    }

    // Whether block j is unsettled by now.
    fn is_unsettled(self, map: &[u16], j: usize) -> bool
        requires { j < length map.now }
        ensures { bit result ≡ opened map.now self j }
    {
        match self {
            Block::Settled => false,
            Block::Skipped => map[j] != SETTLED,
            Block::Unsettled => true,
        }
    }
}

// Of two blocks left alike, or of one, what is then remembered of the block before the last.
fn second_of(one: Block, left: Block, m: usize) -> Block
    ensures { result ≡ second_of one left m }
{
    if m == 1 { one } else { left }
}

// How many entries of a part of the map are not the mark: in 16 bits, an entry's own type, so that they are added up many at a time.
fn unsettled_in(entries: &[u16]) -> usize
    requires { length entries.now ≤ max_blocks }
    ensures { result ≡ unsettled entries.now }
{
    let mut n = 0u16;
    for x in entries {
        n += u16::from(*x != SETTLED);
    }
    usize::from(n)
}

impl Running {
    // Whether the last two blocks are known to be settled.
    fn is_settled(self) -> bool
        ensures { result ≡ is_settled self }
    {
        self.one == Block::Settled && self.two == Block::Settled
    }
}

impl<'a> Counter<'a> {
    // Before the first opcode.
    fn new(map: &'a [u16]) -> Self
        requires { length map.now ≤ max_blocks }
        ensures same_map { result.map.now ≡ map.now }
        ensures begun { result.t ≡ begun (length map.now) }
    {
        Counter {
            map,
            t: Running {
                now: map.len(),
                one: Block::Settled,
                two: Block::Settled,
                lo: 0,
                hi: 0,
            },
        }
    }

    // Copies of blocks that may be unsettled: how many blocks they leave unsettled.
    fn copied(self, run: Run) -> Running
        requires tallied { Tallied self.map.now run.first self.t }
        requires fits { run.first + run.blocks ≤ length self.map.now }
        requires copies { (2 ≤ run.upper) × (run.upper < 6) }
        ensures { Notes self.entry.map.now run.entry.upper run.entry.first run.entry.blocks self.entry.t result }
    {
        let t = self.t;
        let m = run.blocks;
        let one = t.one.is_unsettled(self.map, run.first - 1);
        if run.upper < 4 {
            return Running {
                now: t.now + m * usize::from(one),
                one: Block::copied(one),
                two: Block::copied(one),
                ..t
            };
        }
        let two = t.two.is_unsettled(self.map, run.first - 2);
        Running {
            now: t.now + m / 2 * (usize::from(one) + usize::from(two)),
            one: Block::copied(one),
            two: Block::copied(two),
            ..t
        }
    }

    // What an opcode leaves unsettled, and what is to be remembered of its last blocks. Only a copy after blocks that are not known to be settled
    // looks at the map.
    fn noted(self, run: Run) -> Running
        requires tallied { Tallied self.map.now run.first self.t }
        requires fits { run.first + run.blocks ≤ length self.map.now }
        ensures { Notes self.entry.map.now run.entry.upper run.entry.first run.entry.blocks self.entry.t result }
    {
        let t = self.t;
        if 0 < run.row.reach && !t.is_settled() {
            return self.copied(run);
        }
        let left = Block::left(run.row.touches);
        Running {
            one: left,
            two: second_of(t.one, left, run.blocks),
            ..t
        }
    }

    // Takes away the unsettled ones among the entries of the blocks that an opcode touches. Runs of more than one block are counted together, when one
    // does not go on where the one before it ended.
    fn taken(self, k: usize, touched: usize) -> Running
        requires owing { Owing self.map.now k touched self.t }
        ensures { Takes self.entry.map.now k touched self.entry.t result }
    {
        let t = self.t;
        if touched < 2 {
            // a product, not a choice, so that nothing is guessed at run time
            return Running {
                now: t.now - touched * usize::from(self.map[k] != SETTLED),
                ..t
            };
        }
        if t.hi == k {
            return Running {
                hi: k + touched,
                ..t
            };
        }
        Running {
            now: t.now - unsettled_in(&self.map[t.lo..t.hi]),
            lo: k,
            hi: k + touched,
            ..t
        }
    }

    // After the last opcode, when nothing is to be counted any more.
    fn summed(self) -> usize
        requires { Tallied self.map.now (length self.map.now) self.t }
        ensures { result ≡ summed self.entry.map.now self.entry.t }
    {
        let t = self.t;
        t.now - unsettled_in(&self.map[t.lo..t.hi])
    }
}

impl<'a> Along for Counter<'a> {
    ghost tallies = { λ c made. StandsAt c.map.now made c.t 0 };

    ghost map = { λ c. c.map.now };

    ghost room = { λ c. length c.map.now };

    fn past(self, run: Run) -> Self {
        let map = self.map;
        let t = self.noted(run);
        let noted = Counter { map, t };
        let t = noted.taken(run.first, usize::from(run.row.touches) * run.blocks);
        Counter { map, t }
    }
}

// A chunk for a board of so many blocks: its answer where it is refused, and else what it makes of the count.
pub fn check(blocks: usize, s: &[u8], map: &[u16]) -> Result<Changed, Answer>
    requires { (length map.now ≡ blocks) × (blocks ≤ max_blocks) }
    ensures answer_value { answer_of blocks result ≡ verdict s.now (decode blocks s.now) }
    ensures refused { IfErr result (λ a. a.number ≢ ok) }
    ensures balanced { IfOk result (λ c. Balanced map.now c.now (decode blocks s.now)) }
{
    let used = check::check_along(blocks, s, Counter::new(map))?;
    Ok(Changed {
        length: used.length,
        now: used.along.summed(),
    })
}
