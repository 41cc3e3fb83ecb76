// The lead of an opcode, which both passes read: its upper half-byte, its count, and where its further bytes stand.
ghost use Rattle.std.specs.Prelude.{◌≡◌, ◌+◌, ◌≤◌, ◌<◌, ◌%◌, eqb, length};
ghost use Rattle.spec.specs.Basics.{if};
ghost use Rattle.spec.specs.Chunks.{counted, body_at};
ghost use Rattle.smc_check.specs.Heads.{Leads};

#[derive(Clone, Copy)]
pub struct Lead {
    pub upper: usize,
    pub count: usize,
    pub body: usize,
}

// How many bytes of its own the count has: 1 for the opcodes 1, 3, 5 and 7.
pub fn count_bytes(upper: usize) -> usize
    ensures { result ≡ if (counted upper) 1 0 }
{
    if upper < 8 { upper % 2 } else { 0 }
}

// The count, by the opcode and the byte after it. A choice of two numbers that are at hand, so that nothing is guessed at run time.
fn count_of(bytes: usize, opcode: usize, next: usize) -> usize
    requires { next < 256 }
    ensures { result ≡ if (eqb bytes 0) (1 + opcode % 16) (1 + next) }
{
    if bytes == 0 {
        1 + opcode % 16
    } else {
        1 + next
    }
}

// The lead of the opcode at s[at].
pub fn lead_at(s: &[u8], at: usize) -> Lead
    requires at_in_bounds { at < length s.now }
    requires at_in_bounds_2 { body_at s.now at ≤ length s.now }
    ensures { Leads s.now at result }
{
    let opcode = usize::from(s[at]);
    let upper = opcode / 16;
    let bytes = count_bytes(upper);
    let next = usize::from(s[at + bytes]);
    Lead {
        upper,
        count: count_of(bytes, opcode, next),
        body: at + 1 + bytes,
    }
}
