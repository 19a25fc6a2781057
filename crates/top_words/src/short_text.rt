ghost use Rattle.std.specs.Prelude.{◌≡◌, [], ◌++◌, ◌+◌, ◌≤◌, length};
ghost use Rattle.report_spec.specs.Text.{address_text};
ghost use Rattle.top_words.specs.FaultText.{counted, placed};

use itoa::Buffer;
use std::marker::Model;
use verdict_report::address_text;

const ROOM: usize = 512;

/// A short text in a place of its own, at most 512 bytes. Takes no memory.
#[derive(Drop)]
pub struct ShortText {
    bytes: [u8; ROOM],
    len: usize,
}

impl Model for ShortText {
    ghost use Rattle.std.specs.Prelude.{List, ℕ, take, ◌≤◌};

    ghost Value = { List ℕ };

    ghost view = { λ t. take t.len t.bytes };

    ghost invariant = { λ t. t.len ≤ 512 };
}

impl ShortText {
    pub(crate) fn new() -> Self
        ensures { result ≡ [] }
    {
        ShortText {
            bytes: [0; ROOM],
            len: 0,
        }
    }

    pub fn as_bytes(&self) -> &[u8]
        ensures { result.now ≡ self.now }
    {
        &self.bytes[..self.len]
    }

    pub(crate) fn push(&mut self, piece: &[u8])
        requires { length self.old + length piece.now ≤ 512 }
        ensures text { self.new ≡ self.old ++ piece.now }
        ensures length { length self.new ≡ length self.old + length piece.now }
    {
        let end = self.len + piece.len();
        self.bytes[self.len..end].copy_from_slice(piece);
        self.len = end;
    }

    /// A name and a decimal after it.
    pub(crate) fn push_counted(&mut self, name: &[u8], n: u64)
        requires { length self.old + length name.now ≤ 480 }
        ensures text { self.new ≡ self.old ++ counted name.now n }
        ensures length { length self.new ≤ length self.old + length name.now + 20 }
    {
        self.push(name);
        let mut buffer = Buffer::new();
        self.push(buffer.format(n).as_bytes());
    }

    /// A name and an address after it.
    pub(crate) fn push_placed(&mut self, name: &[u8], address: u32)
        requires { length self.old + length name.now ≤ 500 }
        ensures text { self.new ≡ self.old ++ placed name.now address }
        ensures length { length self.new ≡ length self.old + length name.now + 10 }
    {
        self.push(name);
        self.push(&address_text(address));
    }
}
