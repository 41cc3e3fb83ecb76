// A sprite file's head and offset table, a frame's head, and what is held of a frame and of a row with data. Here s is the file.
ghost use Rattle.std.specs.Prelude.{◌≡◌, ◌≤◌, ◌<◌, ◌^◌, length};
ghost use Rattle.sprite.specs.Files.{is_sprite, is_frame};

use crate::bytes;
use spec::Refusal;

// The lengths of the file's head and of a frame's, and the versions. specs/Files.antt has the same names for the definitions.
const HEAD_BYTES: usize = 12;

const FRAME_BYTES: usize = 10;

const FIRST_VERSION: u32 = 502;

const LAST_VERSION: u32 = 505;

// Whether head and offset table are whole, and the version is one of the four.
fn is_sprite(s: &[u8]) -> bool
    ensures { result ≡ is_sprite s.now }
{
    if s.len() < HEAD_BYTES {
        return false;
    }
    let version = bytes::long(s, 0);
    if version < FIRST_VERSION || LAST_VERSION < version {
        return false;
    }
    HEAD_BYTES + 4 * bytes::long(s, 4) as usize <= s.len()
}

// Whether a frame's head is whole, and its first two words are zero.
fn is_frame(s: &[u8], at: usize) -> bool
    requires { at < 2 ^ 32 }
    ensures { result ≡ is_frame s.now at }
{
    if s.len() < at + FRAME_BYTES {
        return false;
    }
    bytes::word(s, at) == 0 && bytes::word(s, at + 2) == 0
}

// A frame of a file: its height and width, and the place of its first row.
#[derive(Clone, Copy)]
pub struct Frame<'a> {
    pub s: &'a [u8],
    pub height: u16,
    pub width: u16,
    pub first: usize,
    ghost within: { first ≤ length s.now },
}

// A row with data, in a frame of this width: its segments stand from s[first] up to s[end].
#[derive(Clone, Copy)]
pub struct Row<'a> {
    pub s: &'a [u8],
    pub width: u16,
    pub first: usize,
    pub end: usize,
    ghost order: { first ≤ end },
    ghost within: { end ≤ length s.now },
}

impl<'a> Frame<'a> {
    // here, since specs/Held names `Frame`: at the top of the file, `Frame` would import itself
    ghost use Rattle.std.specs.Prelude.{◌≡◌, ◌+◌, IfOk};
    ghost use Rattle.spec.specs.Answers.{number_of};
    ghost use Rattle.sprite.specs.Files.{offset_of, height_at, width_at, frame_bytes, frame_fault};
    ghost use Rattle.sprite.specs.Frames.{frame};
    ghost use Rattle.sprite.specs.Held.{rows_of};

    // Frame k of a file; or 15, 16 or 17.
    pub fn find(s: &'a [u8], k: usize) -> Result<Self, Refusal>
        ensures number { number_of result ≡ frame_fault s.now k }
        ensures height { IfOk result (λ f. f.height ≡ height_at s.now (offset_of s.now k)) }
        ensures width { IfOk result (λ f. f.width ≡ width_at s.now (offset_of s.now k)) }
        ensures first { IfOk result (λ f. f.first ≡ offset_of s.now k + frame_bytes) }
        ensures found { IfOk result (λ f. rows_of f ≡ frame s.now k) }
    {
        if !is_sprite(s) {
            return Err(Refusal::BadSprite);
        }
        if bytes::long(s, 4) as usize <= k {
            return Err(Refusal::NoSuchFrame);
        }
        let at = bytes::long(s, HEAD_BYTES + 4 * k) as usize;
        if !is_frame(s, at) {
            return Err(Refusal::BadFrame);
        }
        Ok(Self {
            s,
            height: bytes::word(s, at + 4),
            width: bytes::word(s, at + 6),
            first: at + FRAME_BYTES,
        })
    }
}
