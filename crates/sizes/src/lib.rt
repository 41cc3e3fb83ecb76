// Which sizes are allowed, and the two refusals that every call looks for first. Anyone may call these with any numbers.
#![tactic(auto)]

ghost use Rattle.std.specs.Prelude.{◌≡◌, ◌&&◌, true, eqb};
ghost use Rattle.spec.specs.Answers.{ok, bad_length, number_of};
ghost use Rattle.spec.specs.Basics.{if};
ghost use Rattle.spec.specs.Sizes.{side, allowed, pixels, blocks, same_size, fault};

use spec::{Refusal, Size};

// Whether a picture's side may have this length, with `most` as its limit.
fn is_side(most: usize, length: usize) -> bool
    ensures { result ≡ side most length }
{
    if length % 4 != 0 {
        return false;
    }
    if length < 4 {
        return false;
    }
    length <= most
}

// Whether a picture may have this size.
pub fn is_allowed(size: Size) -> bool
    ensures { result ≡ allowed size }
{
    if is_side(Size::MAX_WIDTH, size.width) {
        return is_side(Size::MAX_HEIGHT, size.height);
    }
    false
}

// 1 for a size that is not allowed.
pub fn check_size(size: Size) -> Result<(), Refusal>
    ensures { number_of result ≡ fault size true }
{
    if is_allowed(size) {
        return Ok(());
    }
    Err(Refusal::BadSize)
}

// 2 for a length that is not the exact one.
pub fn check_length(length: usize, exact: usize) -> Result<(), Refusal>
    ensures { number_of result ≡ if (eqb length exact) ok bad_length }
{
    if length == exact {
        return Ok(());
    }
    Err(Refusal::BadLength)
}

// 1, or 2 for a picture of so many bytes.
pub fn check_picture(size: Size, bytes: usize) -> Result<(), Refusal>
    ensures { number_of result ≡ fault size (eqb bytes (pixels size)) }
{
    check_size(size)?;
    check_length(bytes, size.width * size.height)
}

// 1, or 2 for a map of so many entries.
pub fn check_map(size: Size, entries: usize) -> Result<(), Refusal>
    ensures { number_of result ≡ fault size (eqb entries (blocks size)) }
{
    check_size(size)?;
    check_length(entries, size.width / 4 * (size.height / 4))
}

// 1, or 2 for a picture of so many bytes and a map of so many entries.
pub fn check_board(size: Size, bytes: usize, entries: usize) -> Result<(), Refusal>
    ensures { number_of result ≡ fault size (eqb bytes (pixels size) && eqb entries (blocks size)) }
{
    check_picture(size, bytes)?;
    check_map(size, entries)
}

// 1, or 2 for an old and a new picture of so many bytes.
pub fn check_pictures(size: Size, old: usize, new: usize) -> Result<(), Refusal>
    ensures { number_of result ≡ fault size (eqb old (pixels size) && eqb new (pixels size)) }
{
    check_picture(size, old)?;
    check_picture(size, new)
}

// 1 for a feed's own size, or 2 where that is not the board's, or for a picture of so many bytes and a map of so many entries.
pub fn check_feed(own: Size, size: Size, bytes: usize, entries: usize) -> Result<(), Refusal>
    ensures { number_of result ≡ fault own (same_size own size && (eqb bytes (pixels own) && eqb entries (blocks own))) }
{
    check_size(own)?;
    if own == size {
        return check_board(own, bytes, entries);
    }
    Err(Refusal::BadLength)
}
