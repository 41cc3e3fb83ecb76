// The walk of a feed or of a run of chunks, chunk by chunk over a lent picture and map, with their record. The public functions take the three one
// by one, as C lends them; of a struct each inner contract would have to say that picture and map keep their `ghost_name` (the kit's
// docs/BORROWS.md), which is as many clauses as the lengths here.
ghost use Rattle.std.specs.Prelude.{◌≡◌, length};
ghost use Rattle.spec.specs.Answers.{ok, answer, number_of, refusal_number};
ghost use Rattle.spec.specs.Sizes.{blocks};
ghost use Rattle.spec.specs.Maps.{record_of};
ghost use Rattle.spec.specs.Boards.{board};
ghost use Rattle.spec.specs.Feeds.{next_at, chunks_from, read_all, no_chunk, step_by, walk_step, walk_behind, walk, walk_run, tally};

use crate::numbers;
use spec::{Answer, Record, Recorded, Refusal, Step, Tally};

// A step that reads no chunk: the walk's own answer, with record and place as they were lent.
fn no_chunk(kept: Record, at: usize, answer: Answer) -> Step
    ensures { result ≡ no_chunk kept at answer }
{
    Step {
        answer,
        kept,
        chunk: false,
        next: at,
    }
}

// A refusal at this place, at block 0.
fn refusal(why: Refusal, place: usize) -> Answer
    ensures { result ≡ answer (refusal_number why) place }
{
    Answer::refused(why, place, 0)
}

// One step of a walk behind 1 and 2: reads the chunk whose length number stands at a place, or finds the end.
fn step_behind(kept: Record, feed: &[u8], at: usize, picture: &mut [u8], map: &mut [u16]) -> Step
    requires { length map.old ≡ blocks kept.size }
    ensures value { result ≡ (step_by kept.size feed.now at (next_at feed.now at) (board picture.old map.old kept.unsettled)).said }
    ensures picture_after { picture.new ≡ (step_by kept.size feed.now at (next_at feed.now at) (board picture.old map.old kept.unsettled)).board.picture }
    ensures map_after { map.new ≡ (step_by kept.size feed.now at (next_at feed.now at) (board picture.old map.old kept.unsettled)).board.map }
{
    if at >= feed.len() {
        return no_chunk(kept, at, Answer::accepted(feed.len(), map.len()));
    }
    match numbers::varint_at(feed, at) {
        Err(why) => no_chunk(kept, at, refusal(why, at)),
        Ok(length) => {
            let first = length.after;
            let n = length.value;
            if feed.len() - first < n {
                return no_chunk(kept, at, refusal(Refusal::FeedCut, first));
            }
            let next = first + n;
            let read = smc::read_chunk(kept, &feed[first..next], picture, map);
            let answer = read.answer;
            let later = read.kept;
            Step {
                answer,
                kept: later,
                chunk: true,
                next,
            }
        }
    }
}

// One step of a walk: reads the chunk whose length number stands at a place, and says where to go on, and with which record. It reads no size
// numbers: 1 and 2 are by the lent record and lengths.
pub fn step(kept: Record, feed: &[u8], at: usize, picture: &mut [u8], map: &mut [u16]) -> Step
    ensures value { result ≡ (walk_step kept.size feed.now at (board picture.old map.old kept.unsettled)).said }
    ensures picture_after { picture.new ≡ (walk_step kept.size feed.now at (board picture.old map.old kept.unsettled)).board.picture }
    ensures map_after { map.new ≡ (walk_step kept.size feed.now at (board picture.old map.old kept.unsettled)).board.map }
{
    if let Err(why) = sizes::check_board(kept.size, picture.len(), map.len()) {
        return no_chunk(kept, at, Answer::from(why));
    }
    step_behind(kept, feed, at, picture, map)
}

// The chunks from a place on, each over what the one before it left, and how many of them were accepted.
#[tactic(auto, using(crate::proofs::Walking::onward_rules))]
fn read_chunks(
    lent: Record,
    feed: &[u8],
    first: usize,
    picture: &mut [u8],
    map: &mut [u16],
) -> Tally
    requires { length map.old ≡ blocks lent.size }
    ensures value { result ≡ tally lent.size (read_all lent.size (chunks_from (length feed.now) feed.now first) (board picture.old map.old lent.unsettled)) }
    ensures picture_after { picture.new ≡ (read_all lent.size (chunks_from (length feed.now) feed.now first)
        (board picture.old map.old lent.unsettled)).board.picture }
    ensures map_after { map.new ≡ (read_all lent.size (chunks_from (length feed.now) feed.now first) (board picture.old map.old lent.unsettled)).board.map }
{
    let mut at = first;
    let mut accepted: usize = 0;
    let mut kept = lent;
    loop {
        let step = step_behind(kept, feed, at, picture, map);
        let answer = step.answer;
        if step.chunk {
            kept = step.kept;
            at = step.next;
            if answer.is_ok() {
                accepted += 1;
            }
        } else {
            return Tally {
                answer,
                accepted,
                kept,
            };
        }
    }
}

// The same behind 1 and 2, which were looked for: a feed from the end of its size numbers on, a run from its first byte on.
fn walk_chunks(
    checked: Result<(), Refusal>,
    kept: Record,
    feed: &[u8],
    first: usize,
    picture: &mut [u8],
    map: &mut [u16],
) -> Tally
    requires { number_of checked ≡ ok → length map.old ≡ blocks kept.size }
    ensures value { result ≡ tally kept.size (walk_behind (number_of checked) kept.size (chunks_from (length feed.now) feed.now first)
        (board picture.old map.old kept.unsettled)) }
    ensures picture_after { picture.new ≡ (walk_behind (number_of checked) kept.size (chunks_from (length feed.now) feed.now first)
        (board picture.old map.old kept.unsettled)).board.picture }
    ensures map_after { map.new ≡ (walk_behind (number_of checked) kept.size (chunks_from (length feed.now) feed.now first)
        (board picture.old map.old kept.unsettled)).board.map }
{
    if let Err(why) = checked {
        return Tally {
            answer: Answer::from(why),
            accepted: 0,
            kept,
        };
    }
    read_chunks(kept, feed, first, picture, map)
}

// Walks a whole feed over a lent picture and map, with their record, whose size it has to have.
pub fn walk_feed(kept: Record, feed: &[u8], picture: &mut [u8], map: &mut [u16]) -> Recorded
    ensures answer_value { result.answer ≡ (walk kept.size feed.now (board picture.old map.old kept.unsettled)).said.answer }
    ensures kept_value { result.kept ≡ record_of kept.size (walk kept.size feed.now (board picture.old map.old kept.unsettled)).board.kept }
    ensures picture_after { picture.new ≡ (walk kept.size feed.now (board picture.old map.old kept.unsettled)).board.picture }
    ensures map_after { map.new ≡ (walk kept.size feed.now (board picture.old map.old kept.unsettled)).board.map }
{
    let own = numbers::feed_size(feed);
    if !own.answer.is_ok() {
        return Recorded {
            answer: own.answer,
            kept,
        };
    }
    let checked = sizes::check_feed(own.size, kept.size, picture.len(), map.len());
    let tally = walk_chunks(checked, kept, feed, own.first, picture, map);
    let answer = tally.answer;
    let after = tally.kept;
    Recorded {
        answer,
        kept: after,
    }
}

// Walks a run of chunks, which has no size numbers, over a lent picture and map, with their record.
pub fn walk_run(kept: Record, run: &[u8], picture: &mut [u8], map: &mut [u16]) -> Tally
    ensures value { result ≡ tally kept.size (walk_run kept.size run.now (board picture.old map.old kept.unsettled)) }
    ensures picture_after { picture.new ≡ (walk_run kept.size run.now (board picture.old map.old kept.unsettled)).board.picture }
    ensures map_after { map.new ≡ (walk_run kept.size run.now (board picture.old map.old kept.unsettled)).board.map }
{
    let checked = sizes::check_board(kept.size, picture.len(), map.len());
    walk_chunks(checked, kept, run, 0, picture, map)
}
