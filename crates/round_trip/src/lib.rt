// The round trip over the functions that run: what `write_chunk` writes, `read_chunk` reads back. No program calls this function: its
// contract states the round trip, and its proof rests on the contracts of the two.
#![tactic(auto)]

ghost use Rattle.std.specs.Prelude.{◌≡◌};
ghost use Rattle.round_trip.specs.Trip.{lent_board, round_trip};

use spec::{Answer, Record, Size};

// Writes the chunk that makes the new picture out of the one that is lent, and reads it over that one, with any map: its record is counted.
pub fn write_and_read(
    size: Size,
    new: &[u8],
    picture: &mut [u8],
    map: &mut [u16],
    out: &mut [u8],
) -> Answer
    ensures value { result ≡ (round_trip size new.now (lent_board picture.old map.old) out.old).answer }
    ensures picture_after { picture.new ≡ (round_trip size new.now (lent_board picture.old map.old) out.old).board.picture }
    ensures map_after { map.new ≡ (round_trip size new.now (lent_board picture.old map.old) out.old).board.map }
    ensures out_after { out.new ≡ (round_trip size new.now (lent_board picture.old map.old) out.old).output }
{
    if let Err(why) = sizes::check_board(size, picture.len(), map.len()) {
        return Answer::from(why);
    }
    let wrote = smc_writer::write_chunk(size, picture, new, out);
    if !wrote.is_ok() {
        return wrote;
    }
    let length = wrote.place;
    let count = board_map::count_unsettled(size, map);
    let kept = Record {
        size,
        unsettled: count.unsettled,
    };
    let read = smc::read_chunk(kept, &out[..length], picture, map);
    read.answer
}
