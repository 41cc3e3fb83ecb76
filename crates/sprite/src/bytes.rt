// Integers of a file, of 2 and 4 bytes. Here s is the file.
ghost use Rattle.std.specs.Prelude.{◌≡◌, ◌+◌, ◌≤◌, length};
ghost use Rattle.sprite.specs.Files.{high_first, word, long};

// Whether integers have their highest byte first.
fn high_first(s: &[u8]) -> bool
    requires { 2 ≤ length s.now }
    ensures { result ≡ high_first s.now }
{
    s[0] == 0 && s[1] == 0
}

// The integer of 2 bytes at s[at].
pub fn word(s: &[u8], at: usize) -> u16
    requires { at + 2 ≤ length s.now }
    ensures { result ≡ word s.now at }
{
    let two = [s[at], s[at + 1]];
    if high_first(s) {
        return u16::from_be_bytes(two);
    }
    u16::from_le_bytes(two)
}

// The integer of 4 bytes at s[at]. `from_be_bytes` is each type's own, so one function for both would be no shorter.
pub fn long(s: &[u8], at: usize) -> u32
    requires { at + 4 ≤ length s.now }
    ensures { result ≡ long s.now at }
{
    let four = [s[at], s[at + 1], s[at + 2], s[at + 3]];
    if high_first(s) {
        return u32::from_be_bytes(four);
    }
    u32::from_le_bytes(four)
}
