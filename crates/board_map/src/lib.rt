// The fresh map with its record, and the unsettled count.
#![tactic(auto)]

ghost use Rattle.std.specs.Prelude.{◌≡◌, ◌<◌, length};
ghost use Rattle.spec.specs.Maps.{settled, fresh, unsettled, fresh_map, count_map};

use spec::{Answer, Count, Record, Recorded, SETTLED, Size};

// k at every place k.
fn number_entries(map: &mut [u16])
    requires { length map.old < settled }
    ensures { map.new ≡ fresh (length map.old) }
{
    for (k, entry) in map.iter_mut().enumerate() {
        *entry = k as u16;
    }
}

// Makes a fresh map, and gives its record. A refusal leaves the map as it was, and gives count 0.
pub fn fresh_map(size: Size, map: &mut [u16]) -> Recorded
    ensures answer_value { result.answer ≡ (fresh_map size map.old).answer }
    ensures kept_value { result.kept ≡ (fresh_map size map.old).kept }
    ensures map_after { map.new ≡ (fresh_map size map.old).map }
{
    let entries = map.len();
    if let Err(why) = sizes::check_map(size, entries) {
        return Recorded {
            answer: Answer::from(why),
            kept: Record { size, unsettled: 0 },
        };
    }
    number_entries(map);
    Recorded {
        answer: Answer::accepted(0, 0),
        kept: Record {
            size,
            unsettled: entries,
        },
    }
}

// Of a map of any length. `smc_check` counts a board's in 16 bits, many at a time: as one function of any number type it would need its bound here too.
fn unsettled_entries(map: &[u16]) -> usize
    ensures { result ≡ unsettled map.now }
{
    // a sum: `filter` and `count` would test each entry by a branch
    let mut n = 0;
    for entry in map {
        n += usize::from(*entry != SETTLED);
    }
    n
}

// Counts the entries that are not settled. A refused count is 0.
pub fn count_unsettled(size: Size, map: &[u16]) -> Count
    ensures { result ≡ count_map size map.now }
{
    if let Err(why) = sizes::check_map(size, map.len()) {
        return Count {
            answer: Answer::from(why),
            unsettled: 0,
        };
    }
    Count {
        answer: Answer::accepted(0, 0),
        unsettled: unsettled_entries(map),
    }
}
