// Painting a frame of a sprite file on a shown picture. Two passes: the first checks the whole frame and writes nothing, the second paints
// what the first has accepted. The modules' own functions ask for what the one before them has made sure of; `paint_symbol` asks for nothing.
#![tactic(auto)]

mod bytes;
mod check;
mod files;
mod heads;
mod paint;

ghost use Rattle.std.specs.Prelude.{◌≡◌};
ghost use Rattle.sprite.specs.Symbols.{paint_symbol};

use paint::Position;
use spec::{Answer, Size};

// Paints a frame of a sprite file on a picture, its upper left pixel at column `left` and row `top`, which may lie off the picture.
// A refusal leaves the picture as it was.
pub fn paint_symbol(
    size: Size,
    picture: &mut [u8],
    file: &[u8],
    frame: usize,
    left: i16,
    top: i16,
) -> Answer
    ensures value { result ≡ (paint_symbol size picture.old file.now frame left top).answer }
    ensures picture_after { picture.new ≡ (paint_symbol size picture.old file.now frame left top).picture }
{
    if let Err(why) = sizes::check_picture(size, picture.len()) {
        return Answer::from(why);
    }
    match check::check(file, frame) {
        Err(why) => Answer::from(why),
        Ok(found) => {
            Position::new(size, left, top).paint(&found, picture);
            Answer::accepted(0, 0)
        }
    }
}
