// The board program: reads a feed on standard input, from an all-zero picture and a fresh map, and prints its listing. What it decides and
// each line that it prints are proved in `feed` and `listing`; here they are only put one after the other.
#![tactic(auto)]

ghost use Rattle.std.specs.Prelude.{◌≤◌, length, IfOk};
ghost use Rattle.spec.specs.Sizes.{pixels, blocks};

use listing::Line;
use spec::{Decision, Record, Size};
use std::io;
use std::io::{Read, Write};

fn print<W: Write>(out: &mut W, line: Line) -> io::Result<()> {
    out.write_all(line.as_slice())
}

// A line for each chunk, and the end line: `lines_step` (trust/specs/Lines) is this loop. It ends at the end of the feed, so no range bounds
// the chunk's number.
fn print_chunks<W: Write>(
    out: &mut W,
    lent: Record,
    feed: &[u8],
    first: usize,
    picture: &mut [u8],
    map: &mut [u16],
) -> io::Result<()> {
    let mut at = first;
    let mut chunk = 1;
    let mut kept = lent;
    loop {
        let listed = listing::list_step(kept, feed, at, chunk, picture, map);
        print(out, listed.line)?;
        let step = listed.step;
        if !step.chunk {
            return Ok(());
        }
        kept = step.kept;
        at = step.next;
        chunk += 1;
    }
}

// A board in the room that is lent for it: an all-zero picture, and a map that is made fresh, with its record.
fn print_board<W: Write>(
    out: &mut W,
    size: Size,
    feed: &[u8],
    first: usize,
    zeros: &mut [u8],
    room: &mut [u16],
) -> io::Result<()>
    requires size_in_bounds { pixels size ≤ length zeros.old }
    requires size_in_bounds_2 { blocks size ≤ length room.old }
{
    let pixels = size.width * size.height;
    let blocks = size.width / 4 * (size.height / 4);
    let picture = &mut zeros[..pixels];
    let map = &mut room[..blocks];
    let fresh = board_map::fresh_map(size, map);
    print(out, listing::board_line(size))?;
    print_chunks(out, fresh.kept, feed, first, picture, map)
}

fn print_listing<W: Write>(out: &mut W, feed: &[u8]) -> io::Result<()> {
    match feed::decide(feed) {
        Decision::TooLarge => print(out, listing::too_large_line()),
        Decision::EndLine(answer) => print(out, listing::end_line(answer)),
        Decision::Board(size, first) => {
            let mut zeros = [0u8; Decision::MAX_SHOWN_PIXELS];
            let mut room = [0u16; Decision::MAX_SHOWN_PIXELS / 16];
            print_board(out, size, feed, first, &mut zeros, &mut room)
        }
    }
}

// Reads until the space is full or the input ends, and tells how many bytes there are.
fn read_feed<R: Read>(input: &mut R, space: &mut [u8]) -> io::Result<usize>
    ensures { IfOk result (λ n. n ≤ length space.new) }
{
    let mut n = 0;
    while n < space.len() {
        let more = input.read(&mut space[n..])?;
        if more == 0 {
            break;
        }
        n += more;
    }
    Ok(n)
}

// A failed read or write ends the program with that error.
fn main(rt: HostRuntime) -> io::Result<()> {
    // a byte more than a feed may have, so that a longer one is seen to be longer
    let mut space = [0u8; Decision::MAX_FEED + 1];
    let n = read_feed(&mut rt.stdin(), &mut space)?;
    print_listing(&mut rt.stdout(), &space[..n])
}
