// The writer's chunk, run by run. The rest of the output is lent, from the place reached so far, to the writer of one run.
ghost use Rattle.std.specs.Prelude.{◌≡◌, if◌then◌else◌, [], ◌∷◌, ◌++◌, ◌+◌, ◌*◌, ◌≤◌, ◌<◌, leb, length, true};
ghost use Rattle.spec.specs.Writing.{counting, opcodes, encode, emit, onto};
ghost use Rattle.smc_writer.specs.Put.{opcode_of, needed, emitted};
ghost use Rattle.smc_writer.specs.Changes.{blocks_of, origins_of, run_of, bytes_of};

use crate::changes::Changes;
use crate::runs::RunLength;
use crate::{rows, single};
use spec::Refusal;

// A chunk's first byte, how many bytes stand before its opcodes, and the most bytes that a block takes.
const FIRST: u8 = 0xE1;

const HEAD: usize = 4;

const BLOCK_MOST: usize = 17;

// A run that has been written.
#[derive(Clone, Copy)]
pub struct Run {
    pub blocks: usize,
    pub bytes: usize,
}

// What a run with a count is of, by the number of its shorter opcode.
#[derive(Clone, Copy)]
enum Counted {
    Kept = 0,
    Filled = 6,
}

impl Counted {
    fn opcode(self) -> u8
        ensures value { result ≡ opcode_of self }
        ensures small { result ≤ 6 }
    {
        self as u8
    }
}

// An opcode with its count, at the front of the output.
fn put_counting(out: &mut [u8], of: Counted, run: RunLength) -> usize
    requires { length (counting (opcode_of of) run.blocks) ≤ length out.old }
    ensures value { result ≡ length (counting (opcode_of of) run.blocks) }
    ensures out_after { out.new ≡ onto (counting (opcode_of of) run.blocks) out.old }
{
    let u = of.opcode();
    let more = (run.blocks - 1) as u8;
    if more < 16 {
        out[0] = 16 * u + more;
        return 1;
    }
    out[0] = 16 * (u + 1);
    out[1] = more;
    2
}

// A run of blocks of one colour, at the front of the output.
fn put_fill(out: &mut [u8], run: RunLength, colour: u8) -> usize
    requires { length (counting 6 run.blocks ++ colour ∷ []) ≤ length out.old }
    ensures value { result ≡ length (counting 6 run.blocks ++ colour ∷ []) }
    ensures out_after { out.new ≡ onto (counting 6 run.blocks ++ colour ∷ []) out.old }
{
    let at = put_counting(out, Counted::Filled, run);
    out[at] = colour;
    at + 1
}

// Where the next run goes, with so many bytes before it: behind them, or at the front.
fn front(behind: bool, at: usize) -> usize
    ensures { result ≡ (if behind then at else 0) }
{
    if behind { at } else { 0 }
}

impl Changes<'_> {
    // The run that begins at block k, at the front of the output.
    fn put_run(&self, out: &mut [u8], k: usize) -> Run
        requires k_bound { k < blocks_of self.now }
        requires room { length (bytes_of self.now k) ≤ length out.old }
        ensures blocks_value { result.blocks ≡ run_of self.now k }
        ensures bytes_value { result.bytes ≡ length (bytes_of self.now k) }
        ensures out_after { out.new ≡ onto (bytes_of self.now k) out.old }
    {
        let rows = self.grid.block_at(self.new, k);
        if self.kept[k] {
            let run = self.run_at(k, rows);
            let bytes = put_counting(out, Counted::Kept, run);
            return Run {
                blocks: run.blocks,
                bytes,
            };
        }
        if rows::is_plain(rows) {
            let run = self.run_at(k, rows);
            let bytes = put_fill(out, run, rows::first_of(rows));
            return Run {
                blocks: run.blocks,
                bytes,
            };
        }
        let px = rows::pixels_of(rows);
        let bytes = single::put_single(out, &px);
        Run { blocks: 1, bytes }
    }

    // The opcodes of all blocks: each run behind those before it, or, where they are only counted, each at the front. Says how many bytes.
    // `behind` stays a flag: the clauses differ by it, so that a closure for the place would need them told for each, and an enum is no plainer.
    fn put_runs(&self, out: &mut [u8], behind: bool) -> usize
        requires { needed behind (opcodes 0 (origins_of self.now)) ≤ length out.old }
        ensures value { result ≡ length (opcodes 0 (origins_of self.now)) }
        ensures len { length out.new ≡ length out.old }
        ensures out_after { behind ≡ true → out.new ≡ onto (opcodes 0 (origins_of self.now)) out.old }
    {
        let mut at = 0;
        let mut k = 0;
        while k < self.grid.blocks() {
            let place = front(behind, at);
            let run = self.put_run(&mut out[place..], k);
            at += run.bytes;
            k += run.blocks;
        }
        at
    }

    // Whether the chunk fits into so much room. Where the longest one would, nothing is counted.
    fn fits(&self, room: usize) -> bool
        ensures { result ≡ leb (length (encode (origins_of self.now))) room }
    {
        if HEAD + BLOCK_MOST * self.grid.blocks() <= room {
            return true;
        }
        let mut scratch = [0u8; BLOCK_MOST];
        HEAD + self.put_runs(&mut scratch, false) <= room
    }

    // The chunk, at the front of the output. Its length stands before its opcodes and is known after them.
    fn put_chunk(&self, out: &mut [u8]) -> usize
        requires { 4 + length (opcodes 0 (origins_of self.now)) ≤ length out.old }
        ensures value { result ≡ length (encode (origins_of self.now)) }
        ensures out_after { out.new ≡ onto (encode (origins_of self.now)) out.old }
    {
        let length = HEAD + self.put_runs(&mut out[HEAD..], true);
        let bytes = (length as u32).to_be_bytes();
        out[0] = FIRST;
        out[1..HEAD].copy_from_slice(&bytes[1..]);
        length
    }

    // The chunk where it fits, and its length; where it does not, nothing has been written.
    pub fn emit(&self, out: &mut [u8]) -> Result<usize, Refusal>
        ensures value { emitted (blocks_of self.now) result ≡ (emit (blocks_of self.now) (encode (origins_of self.now)) out.old).answer }
        ensures out_after { out.new ≡ (emit (blocks_of self.now) (encode (origins_of self.now)) out.old).output }
    {
        if self.fits(out.len()) {
            return Ok(self.put_chunk(out));
        }
        Err(Refusal::OutputShort)
    }
}
