// House numbers, and the two that a feed starts with.
ghost use Rattle.std.specs.Prelude.{◌≡◌, ◌&&◌, ltb, eqb, ◌≤◌};
ghost use Rattle.spec.specs.Feeds.{last_group, varint_at, varint_says, varint_result, max_number, both, no_size, feed_size_by, feed_size};
ghost use Rattle.spec.specs.Answers.{answer, refusal_number};
ghost use Rattle.spec.specs.Sizes.{size_of};

use spec::{Answer, FeedSize, Refusal, Size, Varint};

// The number that starts at a place: one to four groups of seven bits, the lowest first.
pub fn varint_at(feed: &[u8], at: usize) -> Result<Varint, Refusal>
    ensures { varint_result result ≡ varint_says (varint_at feed.now at) }
{
    let mut scale = 1;
    let mut sum = 0;
    for i in 0..Varint::GROUPS {
        let place = at + i;
        if place >= feed.len() {
            return Err(Refusal::FeedCut);
        }
        let group = usize::from(feed[place]);
        if group < 128 {
            return last_group(scale, group, sum + group * scale, place + 1);
        }
        sum += (group - 128) * scale;
        scale *= 128;
    }
    Err(Refusal::BadVarint)
}

// Whether the last group adds nothing to those before it: "The shortest form only".
fn is_padding(scale: usize, group: usize) -> bool
    ensures { result ≡ (ltb 1 scale && eqb group 0) }
{
    scale > 1 && group == 0
}

// The number that the last group, worth `scale`, completes.
fn last_group(scale: usize, group: usize, value: usize, after: usize) -> Result<Varint, Refusal>
    ensures { varint_result result ≡ varint_says (last_group scale group value after) }
{
    if is_padding(scale, group) {
        return Err(Refusal::BadVarint);
    }
    if value > Varint::MAX {
        return Err(Refusal::BadVarint);
    }
    Ok(Varint { value, after })
}

// A refusal of a feed's size, at this place.
fn no_size(why: Refusal, place: usize) -> FeedSize
    ensures { result ≡ no_size (answer (refusal_number why) place) }
{
    FeedSize {
        answer: Answer::refused(why, place, 0),
        size: Size {
            width: 0,
            height: 0,
        },
        first: 0,
    }
}

// What so many blocks to a line and so many lines of them make, and the place after both numbers.
fn size_by(columns: usize, lines: usize, first: usize) -> FeedSize
    requires { (columns ≤ max_number) × (lines ≤ max_number) }
    ensures { result ≡ feed_size_by (both (size_of columns lines) first) }
{
    let size = Size {
        width: 4 * columns,
        height: 4 * lines,
    };
    if sizes::is_allowed(size) {
        return FeedSize {
            answer: Answer::accepted(0, 0),
            size,
            first,
        };
    }
    no_size(Refusal::BadSize, 0)
}

// What a feed says of its size, by the two numbers that it starts with.
pub fn feed_size(feed: &[u8]) -> FeedSize
    ensures { result ≡ feed_size feed.now }
{
    match varint_at(feed, 0) {
        Err(why) => no_size(why, 0),
        Ok(columns) => match varint_at(feed, columns.after) {
            Err(why) => no_size(why, columns.after),
            Ok(lines) => size_by(columns.value, lines.value, lines.after),
        },
    }
}
