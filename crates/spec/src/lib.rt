// The types that every function of the project answers with and is lent. What they mean is defined in specs/. Those marked `repr(C)` are what C sees: so
// there a number stands for a `Refusal`, and an answer or a flag beside a value for a `Result` or an `Option`.
#![tactic(auto)]

ghost use Rattle.std.specs.Prelude.{◌≡◌, eqb};
ghost use Rattle.spec.specs.Answers.{ok, answer, answer_at, refusal_number};

// What a call answers: a number of paper 01's table, a place, and the block at which it stopped.
#[repr(C)]
#[derive(Clone, Copy)]
pub struct Answer {
    pub number: u8,
    pub place: usize,
    pub block: usize,
}

impl Answer {
    // accepted; a refusal has its own number
    pub const OK: u8 = 0;

    // Accepted, at this place, with so many blocks.
    pub fn accepted(place: usize, block: usize) -> Self
        ensures { result ≡ answer_at ok place block }
    {
        Self {
            number: Answer::OK,
            place,
            block,
        }
    }

    // Refused, at this place and block.
    pub fn refused(why: Refusal, place: usize, block: usize) -> Self
        ensures { result ≡ answer_at (refusal_number why) place block }
    {
        Self {
            number: why.number(),
            place,
            block,
        }
    }

    pub fn is_ok(self) -> bool
        ensures { result ≡ eqb self.number ok }
    {
        self.number == Answer::OK
    }
}

// A refusal before anything has been come to: at place 0 and block 0.
impl From<Refusal> for Answer {
    ghost from_gives = { λ why a. a ≡ answer (refusal_number why) 0 };

    fn from(why: Refusal) -> Answer {
        Answer::refused(why, 0, 0)
    }
}

// Why a call refuses: paper 01, "Numbered outcomes", and the numbers of later requests, in their order. specs/Answers.antt has the number of each.
#[derive(Clone, Copy, PartialEq, Eq)]
pub enum Refusal {
    // width or height not allowed
    BadSize = 1,
    // a lent picture or map is not of the exact length, or a feed's size is not the record's
    BadLength,
    // chunk under 4 bytes
    ChunkShort,
    // stated length differs from the bytes given
    LengthDiffers,
    // bytes end before an opcode, blocks remain
    BlocksRemain,
    // bytes end inside an opcode
    OpcodeCut,
    // opcode F
    OpcodeUnknown,
    // copy with no such block before
    NoneBefore,
    // opcode runs past the last block
    PastLastBlock,
    // entry not filled in this chunk
    EntryEmpty,
    // bytes follow the last block, and are no padding
    BytesFollow,
    // feed number badly formed
    BadVarint,
    // feed ends inside a number or a chunk
    FeedCut,
    // output too short
    OutputShort,
    // a sprite file's head or offset table is cut short, or its version is another
    BadSprite,
    // there is no frame of this number
    NoSuchFrame,
    // a frame's head is cut short, or one of its first two words is not zero
    BadFrame,
    // a row's head is cut short, has another code, counts under 4, or goes past the height or the bytes
    BadRow,
    // a segment has another code, or goes past its row's count or the width
    BadSegment,
    // the end marker does not follow the rows
    NoEndMarker,
    // the new count would fall below 0 or above the number of blocks
    BadCount,
}

impl Refusal {
    pub fn number(self) -> u8
        ensures { result ≡ refusal_number self }
    {
        self as u8
    }
}

// A picture's width and height in pixels.
#[repr(C)]
#[derive(Clone, Copy, PartialEq, Eq)]
pub struct Size {
    pub width: usize,
    pub height: usize,
}

// The limits, and what follows from them. specs/Sizes.antt has the same names for the definitions.
impl Size {
    pub const MAX_WIDTH: usize = 320;

    pub const MAX_HEIGHT: usize = 200;
    // in blocks: to a line, and lines of them
    pub const MAX_COLUMNS: usize = Size::MAX_WIDTH / 4;

    pub const MAX_LINES: usize = Size::MAX_HEIGHT / 4;

    pub const MAX_BLOCKS: usize = Size::MAX_COLUMNS * Size::MAX_LINES;

    pub const MAX_PIXELS: usize = Size::MAX_WIDTH * Size::MAX_HEIGHT;
}

// A board's record, kept beside its picture and map: the size, and how many of the map's entries are unsettled. It is lent and handed back by
// value; a caller may lend one that is untrue to its map.
#[repr(C)]
#[derive(Clone, Copy)]
pub struct Record {
    pub size: Size,
    pub unsettled: usize,
}

// What a fresh start, reading a chunk and walking a feed answer: the answer, and the record as it is then.
#[repr(C)]
#[derive(Clone, Copy)]
pub struct Recorded {
    pub answer: Answer,
    pub kept: Record,
}

// The map's entry of a settled block.
pub const SETTLED: u16 = 65535;

// The most blocks of a run in the writer's chunk. specs/Writing.antt has it as `max_run`.
pub const MAX_RUN: usize = 256;

// What counting a map's unsettled entries answers.
#[repr(C)]
#[derive(Clone, Copy)]
pub struct Count {
    pub answer: Answer,
    pub unsettled: usize,
}

// What a walk of a run of chunks answers: the walk's own answer, how many of the chunks were accepted, and the record as it is then.
#[repr(C)]
#[derive(Clone, Copy)]
pub struct Tally {
    pub answer: Answer,
    pub accepted: usize,
    pub kept: Record,
}

// A house number, a varint: its value, and the place after it.
#[derive(Clone, Copy)]
pub struct Varint {
    pub value: usize,
    pub after: usize,
}

impl Varint {
    // the greatest value; specs/Feeds.antt has it as `max_number`
    pub const MAX: usize = 16777215;
    // the most groups of seven bits
    pub const GROUPS: usize = 4;
}

// What a feed says of its size, so that a board can be made for it: the answer, the size, and the place of the first chunk's length number.
#[repr(C)]
#[derive(Clone, Copy)]
pub struct FeedSize {
    pub answer: Answer,
    pub size: Size,
    pub first: usize,
}

// One step of a walk. Where a chunk stood at the place, the answer is the chunk's, and `next` the place to go on from; else it is the walk's own,
// and record and place are as they were lent.
#[repr(C)]
#[derive(Clone, Copy)]
pub struct Step {
    pub answer: Answer,
    pub kept: Record,
    pub chunk: bool,
    pub next: usize,
}

// What a program that shows a board does with a feed.
#[derive(Clone, Copy)]
pub enum Decision {
    TooLarge,
    // nothing is shown but how it ends
    EndLine(Answer),
    // a board of this size, and the place of the first chunk
    Board(Size, usize),
}

// The limits of such a program. specs/Listing.antt has the same names for the definitions.
impl Decision {
    pub const MAX_FEED: usize = 32768;

    pub const MAX_SHOWN_PIXELS: usize = 16000;
}
