// The check pass: it decides the answer to a chunk, and writes nothing. Here s is the chunk, s[at] its next opcode, k how many of the blocks have had
// their turn, and f how often each opcode has come.
ghost use Rattle.std.specs.Prelude.{◌≡◌, ◌+◌, ◌^◌, ◌≤◌, ◌<◌, ℕ, List, [], length, drop, OnOk, IfErr};
ghost use Rattle.spec.specs.Answers.{answer, refusal_number};
ghost use Rattle.spec.specs.Basics.{part};
ghost use Rattle.spec.specs.Flags.{number};
ghost use Rattle.spec.specs.Pictures.{Origin};
ghost use Rattle.spec.specs.Chunks.{padding, decode, refused, verdict};
ghost use Rattle.smc_check.specs.Going.{Made, Advances, Staying, Concludes};

use crate::here::{Here, Run};
use crate::tables::Tables;
use spec::{Answer, Refusal};

// What goes along with the check from opcode to opcode: the count's change, or nothing.
pub trait Along: Copy {
    // with the blocks made so far
    ghost tallies: { Self → List Origin → Type 0 };

    // what stays: the map, and for how many blocks it can go along
    ghost map: { Self → List ℕ };

    ghost room: { Self → ℕ };

    // Past an opcode.
    fn past(self, run: Run) -> Self
        requires tallied { Made (tallies self) run.first }
        requires fits { run.first + run.blocks ≤ room self }
        ensures advances { Advances (tallies self) (tallies result) run.entry.upper run.entry.first run.entry.blocks }
        ensures stays { (map result ≡ map self) × (room result ≡ room self) };
}

impl Along for () {
    ghost tallies = { λ _ _. Unit {0} };

    ghost map = { λ _. [] };

    ghost room = { λ _. 2 ^ 64 };

    fn past(self, _run: Run) {}
}

// An accepted chunk: the length used, padding included, and what went along.
#[derive(Clone, Copy)]
pub struct Used<A> {
    pub length: usize,
    pub along: A,
}

// The most bytes that may stand after the last block.
const MAX_PADDING: usize = 3;

// Whether the bytes from s[at] on are padding: no more than that, and all zero.
fn is_padding(s: &[u8], at: usize) -> bool
    requires { at ≤ length s.now }
    ensures { result ≡ padding (drop at s.now) }
{
    if s.len() - at > MAX_PADDING {
        return false;
    }
    s[at..].iter().all(|x| *x == 0)
}

// The opcodes of a chunk whose stated length is right.
fn check_opcodes<A: Along>(blocks: usize, s: &[u8], mut along: A) -> Result<Used<A>, Answer>
    requires in_bounds { 4 ≤ length s.now }
    requires s_value { number 256 (part s.now 1 3) ≡ length s.now }
    requires fits { blocks ≤ A.room along }
    requires begun { A.tallies along [] }
    ensures { Concludes (Staying A.map A.tallies (A.map along)) blocks s.now result (decode blocks s.now) }
{
    let tables = Tables::new();
    let len = s.len();
    let mut at = 4;
    let mut k = 0;
    let mut f = [0; 16];
    while k < blocks {
        if len <= at {
            return Err(Answer::refused(Refusal::BlocksRemain, len, k));
        }
        let here = Here {
            tables: &tables,
            blocks,
            s,
            at,
            k,
            f: &f,
        };
        match here.opcode() {
            Err(why) => return Err(Answer::refused(why, at, k)),
            Ok(run) => {
                f[run.upper] += 1;
                at = run.next;
                k += run.blocks;
                along = along.past(run);
            }
        }
    }
    if is_padding(s, at) {
        return Ok(Used { length: len, along });
    }
    Err(Answer::refused(Refusal::BytesFollow, at, blocks))
}

// The length that a chunk states.
fn stated(s: &[u8]) -> usize
    requires { 4 ≤ length s.now }
    ensures value { result ≡ number 256 (part s.now 1 3) }
    ensures upper_bound { result < 256 ^ 3 }
{
    u32::from_be_bytes([0, s[1], s[2], s[3]]) as usize
}

// Whether a chunk states its length, as its first four bytes do.
fn check_length(s: &[u8]) -> Result<(), Refusal>
    ensures ok { OnOk result ((4 ≤ length s.now) × (number 256 (part s.now 1 3) ≡ length s.now)) }
    ensures err { IfErr result (λ why. (n : ℕ) → decode n s.now ≡ refused (answer (refusal_number why) 0)) }
{
    if s.len() < 4 {
        return Err(Refusal::ChunkShort);
    }
    if stated(s) != s.len() {
        return Err(Refusal::LengthDiffers);
    }
    Ok(())
}

// A chunk for a picture of so many blocks, with what goes along.
pub fn check_along<A: Along>(blocks: usize, s: &[u8], along: A) -> Result<Used<A>, Answer>
    requires fits { blocks ≤ A.room along }
    requires begun { A.tallies along [] }
    ensures { Concludes (Staying A.map A.tallies (A.map along)) blocks s.now result (decode blocks s.now) }
{
    check_length(s)?;
    check_opcodes(blocks, s, along)
}

// The answer to a chunk for a picture of so many blocks.
pub fn check(blocks: usize, s: &[u8]) -> Answer
    ensures { result ≡ verdict s.now (decode blocks s.now) }
{
    match check_along(blocks, s, ()) {
        Ok(used) => Answer::accepted(used.length, blocks),
        Err(answer) => answer,
    }
}
