// What other programs call, from C or Rust: the functions of the library under one prefix, and no more. Each promises what the function
// behind it promises, for all inputs. The prefix has the number of the interface, so that a program built for another does not link: it is
// raised when a function or a struct of it changes, and stays when functions are added.
#![tactic(auto)]

ghost use Rattle.std.specs.Prelude.{◌≡◌};
ghost use Rattle.spec.specs.Boards.{board, read};
ghost use Rattle.spec.specs.Feeds.{feed_size, walk, walk_run, tally, walk_step};
ghost use Rattle.spec.specs.Maps.{record_of, fresh_map, count_map};
ghost use Rattle.spec.specs.Writing.{write};
ghost use Rattle.sprite.specs.Symbols.{paint_symbol};

use spec::{Answer, Count, FeedSize, Record, Recorded, Size, Step, Tally};

// Makes a fresh map, and gives its record.
#[unsafe(no_mangle)]
pub extern "C" fn seatboard_v2_fresh_map(size: Size, map: &mut [u16]) -> Recorded
    ensures answer_value { result.answer ≡ (fresh_map size map.old).answer }
    ensures kept_value { result.kept ≡ (fresh_map size map.old).kept }
    ensures map_after { map.new ≡ (fresh_map size map.old).map }
{
    board_map::fresh_map(size, map)
}

// Counts the entries of a map that are not settled.
#[unsafe(no_mangle)]
pub extern "C" fn seatboard_v2_count(size: Size, map: &[u16]) -> Count
    ensures { result ≡ count_map size map.now }
{
    board_map::count_unsettled(size, map)
}

// Reads a chunk over a lent picture and map, with their record.
#[unsafe(no_mangle)]
pub extern "C" fn seatboard_v2_read_chunk(
    kept: Record,
    chunk: &[u8],
    picture: &mut [u8],
    map: &mut [u16],
) -> Recorded
    ensures answer_value { result.answer ≡ (read kept.size chunk.now (board picture.old map.old kept.unsettled)).said }
    ensures kept_value { result.kept ≡ record_of kept.size (read kept.size chunk.now (board picture.old map.old kept.unsettled)).board.kept }
    ensures picture_after { picture.new ≡ (read kept.size chunk.now (board picture.old map.old kept.unsettled)).board.picture }
    ensures map_after { map.new ≡ (read kept.size chunk.now (board picture.old map.old kept.unsettled)).board.map }
{
    smc::read_chunk(kept, chunk, picture, map)
}

// Writes the chunk that makes a new picture out of an old one.
#[unsafe(no_mangle)]
pub extern "C" fn seatboard_v2_write_chunk(
    size: Size,
    old: &[u8],
    new: &[u8],
    out: &mut [u8],
) -> Answer
    ensures value { result ≡ (write size old.now new.now out.old).answer }
    ensures out_after { out.new ≡ (write size old.now new.now out.old).output }
{
    smc_writer::write_chunk(size, old, new, out)
}

// Tells what a feed says of its size, so that a board can be made for it.
#[unsafe(no_mangle)]
pub extern "C" fn seatboard_v2_feed_size(feed: &[u8]) -> FeedSize
    ensures { result ≡ feed_size feed.now }
{
    feed::feed_size(feed)
}

// Walks a feed over a lent picture and map, with their record.
#[unsafe(no_mangle)]
pub extern "C" fn seatboard_v2_walk_feed(
    kept: Record,
    feed: &[u8],
    picture: &mut [u8],
    map: &mut [u16],
) -> Recorded
    ensures answer_value { result.answer ≡ (walk kept.size feed.now (board picture.old map.old kept.unsettled)).said.answer }
    ensures kept_value { result.kept ≡ record_of kept.size (walk kept.size feed.now (board picture.old map.old kept.unsettled)).board.kept }
    ensures picture_after { picture.new ≡ (walk kept.size feed.now (board picture.old map.old kept.unsettled)).board.picture }
    ensures map_after { map.new ≡ (walk kept.size feed.now (board picture.old map.old kept.unsettled)).board.map }
{
    feed::walk_feed(kept, feed, picture, map)
}

// Walks a run of chunks over a lent picture and map, with their record.
#[unsafe(no_mangle)]
pub extern "C" fn seatboard_v2_walk_run(
    kept: Record,
    run: &[u8],
    picture: &mut [u8],
    map: &mut [u16],
) -> Tally
    ensures value { result ≡ tally kept.size (walk_run kept.size run.now (board picture.old map.old kept.unsettled)) }
    ensures picture_after { picture.new ≡ (walk_run kept.size run.now (board picture.old map.old kept.unsettled)).board.picture }
    ensures map_after { map.new ≡ (walk_run kept.size run.now (board picture.old map.old kept.unsettled)).board.map }
{
    feed::walk_run(kept, run, picture, map)
}

// One step of such a walk, from a place on.
#[unsafe(no_mangle)]
pub extern "C" fn seatboard_v2_walk_step(
    kept: Record,
    feed: &[u8],
    at: usize,
    picture: &mut [u8],
    map: &mut [u16],
) -> Step
    ensures value { result ≡ (walk_step kept.size feed.now at (board picture.old map.old kept.unsettled)).said }
    ensures picture_after { picture.new ≡ (walk_step kept.size feed.now at (board picture.old map.old kept.unsettled)).board.picture }
    ensures map_after { map.new ≡ (walk_step kept.size feed.now at (board picture.old map.old kept.unsettled)).board.map }
{
    feed::step(kept, feed, at, picture, map)
}

// Paints a frame of a sprite file on a picture.
#[unsafe(no_mangle)]
pub extern "C" fn seatboard_v2_paint_symbol(
    size: Size,
    picture: &mut [u8],
    file: &[u8],
    frame: usize,
    left: i16,
    top: i16,
) -> Answer
    ensures value { result ≡ (paint_symbol size picture.old file.now frame left top).answer }
    ensures picture_after { picture.new ≡ (paint_symbol size picture.old file.now frame left top).picture }
{
    sprite::paint_symbol(size, picture, file, frame, left, top)
}
