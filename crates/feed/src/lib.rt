// The house feed: its numbers, one step of a walk, the walk, that of a run of chunks, and what a program that shows a board decides.
// Anyone may call these with any bytes, of any lengths.
#![tactic(auto)]

mod numbers;
mod walk;

ghost use Rattle.std.specs.Prelude.{◌≡◌};
ghost use Rattle.spec.specs.Listing.{decide, decision_says};

pub use numbers::{feed_size, varint_at};
use spec::Decision;
pub use walk::{step, walk_feed, walk_run};

// What the board program does with a feed: its length first, then the size numbers, then 1, then the pixels.
pub fn decide(feed: &[u8]) -> Decision
    ensures { decision_says result ≡ decision_says (decide feed.now) }
{
    if feed.len() > Decision::MAX_FEED {
        return Decision::TooLarge;
    }
    let own = feed_size(feed);
    let answer = own.answer;
    if !answer.is_ok() {
        return Decision::EndLine(answer);
    }
    let size = own.size;
    if size.width * size.height > Decision::MAX_SHOWN_PIXELS {
        return Decision::TooLarge;
    }
    Decision::Board(size, own.first)
}
