//! A text in fixed room, and what is written to it.

ghost use Rattle.std.specs.Prelude.{ℕ, ◌≡◌, ◌≤◌, List, [], ◌∷◌, ◌++◌, length, take, decimal};
ghost use Rattle.text.specs.Room.{text_room, kept};

use std::marker::Model;

/// How many bytes a text has room for.
pub const TEXT_ROOM: usize = 2048;

/// The first `len` bytes are the text.
// An array with its length beside: an `ArrayVec` takes a slice by `try_extend_from_slice` alone, whose error would be thrown away.
#[derive(Drop)]
pub struct Text {
    bytes: [u8; TEXT_ROOM],
    len: usize,
}

/// Clauses see what the text says, as a list of bytes.
impl Model for Text {
    ghost Value = { List ℕ };

    ghost view = { λ t. take t.len t.bytes };

    ghost invariant = { λ t. t.len ≤ text_room };
}

impl Text {
    /// No text.
    pub fn new() -> Text
        ensures { result ≡ [] }
    {
        Text {
            bytes: [0; TEXT_ROOM],
            len: 0,
        }
    }

    /// Adds a byte.
    pub fn push(&mut self, byte: u8)
        ensures pushed { self.new ≡ kept (self.old ++ (byte ∷ [])) }
        ensures within { length self.old ≤ text_room }
    {
        if self.len < TEXT_ROOM {
            self.bytes[self.len] = byte;
            self.len += 1;
        }
    }

    /// Adds some bytes.
    pub fn push_all(&mut self, more: &[u8])
        ensures pushed { self.new ≡ kept (self.old ++ more.now) }
        ensures within { length self.old ≤ text_room }
    {
        let fits = more.len().min(TEXT_ROOM - self.len);
        let end = self.len + fits;
        self.bytes[self.len..end].copy_from_slice(&more[..fits]);
        self.len = end;
    }

    /// Adds a number in decimal: first all digits but the last, where there are more, and then the last.
    // Digit by digit, since what is displayed may fail as far as `fmt::Write` says, and this never does.
    pub fn push_decimal(&mut self, n: u64)
        ensures pushed { self.new ≡ kept (self.old ++ decimal n) }
        ensures within { length self.old ≤ text_room }
    {
        if n >= 10 {
            self.push_decimal(n / 10);
        }
        self.push(b'0' + (n % 10) as u8);
    }

    /// The bytes of the text.
    pub fn as_bytes(&self) -> &[u8]
        ensures says { result.now ≡ self.now }
        ensures within { length self.now ≤ text_room }
    {
        &self.bytes[..self.len]
    }
}
