//! Blanks and white space.
ghost use Rattle.std.specs.Prelude.{◌≡◌, ◌≤◌, length, reverse, take_while};
ghost use Rattle.test_modifiers.specs.Texts.{is_space, without_begin, without_end, begins_white, is_white};

/// Bytes that may be passed over.
#[derive(Clone, Copy)]
pub enum Space {
    /// Space and tab.
    Blank,
    /// Space, tab, line feed, vertical tab, form feed and carriage return.
    White,
}

impl Space {
    fn has(self, b: u8) -> bool
        ensures { result ≡ is_space self b }
    {
        match self {
            Space::Blank => b == b' ' || b == b'\t',
            Space::White => b == b' ' || 9 <= b && b <= 13,
        }
    }

    /// How many of them a text begins with.
    fn count_begin(self, text: &[u8]) -> usize
        ensures value { result ≡ length (take_while (is_space self) text.now) }
        ensures within { result ≤ length text.now }
    {
        text.iter().take_while(|b| self.has(**b)).count()
    }

    /// How many of them a text ends with.
    fn count_end(self, text: &[u8]) -> usize
        ensures value { result ≡ length (take_while (is_space self) (reverse text.now)) }
        ensures within { result ≤ length text.now }
    {
        text.iter().rev().take_while(|b| self.has(**b)).count()
    }

    /// A text without those at its begin.
    pub fn without_begin(self, text: &[u8]) -> &[u8]
        ensures { result.now ≡ without_begin (is_space self) text.now }
    {
        &text[self.count_begin(text)..]
    }

    /// A text without those at its end.
    pub fn without_end(self, text: &[u8]) -> &[u8]
        ensures { result.now ≡ without_end (is_space self) text.now }
    {
        &text[..text.len() - self.count_end(text)]
    }
}

/// Whether a byte is white space.
pub fn is_white(b: u8) -> bool
    ensures { result ≡ is_white b }
{
    Space::White.has(b)
}

/// Whether a text begins with white space or is empty.
pub fn begins_white(text: &[u8]) -> bool
    ensures { result ≡ begins_white text.now }
{
    match text {
        [] => true,
        [b, ..] => Space::White.has(*b),
    }
}
