// A line of text, made from its end: each function puts something in front of what stands there. By hand, since `write!` says what it has
// written only where it succeeds, and `board_line` and the others cannot fail.
ghost use Rattle.std.specs.Prelude.{◌+◌, ◌^◌, ◌<◌, ◌≤◌, ◌≡◌, [], ◌∷◌, ◌++◌, length, drop};
ghost use Rattle.spec.specs.Listing.{higher_digits, decimal};

// The line is `text[start..]`.
#[derive(Clone, Copy)]
pub struct Line {
    pub text: [u8; Line::ROOM],
    pub start: usize,
    ghost start_in_bounds: { start ≤ length text },
}

impl Line {
    // five numbers of twenty digits, a word and what stands between them
    pub const ROOM: usize = 128;

    // An empty line.
    pub(crate) fn new() -> Self
        ensures start_value { result.start ≡ Self.ROOM }
        ensures text_value { drop result.start result.text ≡ [] }
    {
        Self {
            text: [0; Line::ROOM],
            start: Line::ROOM,
        }
    }

    // Its bytes.
    pub fn as_slice(&self) -> &[u8]
        ensures { result.now ≡ drop self.now.start self.now.text }
    {
        &self.text[self.start..]
    }

    pub(crate) fn put_byte(&mut self, byte: u8)
        requires { 1 ≤ self.old.start }
        ensures start_after { self.new.start + 1 ≡ self.old.start }
        ensures text_after { drop self.new.start self.new.text ≡ byte ∷ drop self.old.start self.old.text }
    {
        self.start -= 1;
        self.text[self.start] = byte;
    }

    pub(crate) fn put_word(&mut self, word: &[u8])
        requires { length word.now ≤ self.old.start }
        ensures start_after { self.new.start + length word.now ≡ self.old.start }
        ensures text_after { drop self.new.start self.new.text ≡ word.now ++ drop self.old.start self.old.text }
    {
        let end = self.start;
        let start = end - word.len();
        let text = &mut self.text[..];
        text[start..end].copy_from_slice(word);
        self.start = start;
    }

    // The digits of a number in front of its last, none where there are none.
    fn put_higher(&mut self, n: usize)
        requires n_bound { n < 10 ^ 19 }
        requires room { 19 ≤ self.old.start }
        ensures start_after { (self.new.start ≤ self.old.start) × (self.old.start ≤ self.new.start + 19) }
        ensures text_after { drop self.new.start self.new.text ≡ higher_digits 19 n (drop self.old.start self.old.text) }
    {
        let mut left = n;
        while left > 0 {
            self.put_byte(b'0' + (left % 10) as u8);
            left /= 10;
        }
    }

    // A number in decimal, of at most twenty digits.
    pub(crate) fn put_decimal(&mut self, n: usize)
        requires { 20 ≤ self.old.start }
        ensures start_after { (self.new.start ≤ self.old.start) × (self.old.start ≤ self.new.start + 20) }
        ensures text_after { drop self.new.start self.new.text ≡ decimal n (drop self.old.start self.old.text) }
    {
        self.put_byte(b'0' + (n % 10) as u8);
        self.put_higher(n / 10);
    }

    // A number with a space before it.
    pub(crate) fn put_spaced(&mut self, n: usize)
        requires { 21 ≤ self.old.start }
        ensures start_after { (self.new.start ≤ self.old.start) × (self.old.start ≤ self.new.start + 21) }
        ensures text_after { drop self.new.start self.new.text ≡ 32 ∷ decimal n (drop self.old.start self.old.text) }
    {
        self.put_decimal(n);
        self.put_byte(b' ');
    }
}
