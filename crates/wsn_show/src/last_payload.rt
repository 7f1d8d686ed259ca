ghost use Rattle.std.specs.Prelude.{◌≡◌, ℕ, ◌+◌, ◌-◌, ◌≤◌, List, [], ◌∷◌, ◌++◌, length, drop};
ghost use Rattle.wsn_text.specs.Utf8.{IsFirstBad};
ghost use Rattle.wsn_rules.specs.BadCharacter.{last_of, first_offset, bytes_of, bad_character, PlacedByte, placed};
ghost use Rattle.wsn_print.specs.ShownParts.{character_of, character_in};
ghost use Rattle.wsn_show.specs.LastPayloads.{placed_bytes, HasLastPayload, character_held, character_held_in};

use crate::earlier_payload::EARLIER_MAX;
use arrayvec::ArrayVec;
use wsn_print::{KeptBytes, ShownCharacter};
use wsn_text::bad_character_len;

/// The most bytes of a character, the offending one of a bad character included.
const CHARACTER_MAX: usize = 4;

/// A byte of a stream, and its offset.
#[derive(Clone, Copy, Default)]
pub struct StreamByte {
    pub offset: u64,
    pub byte: u8,
}

/// The last four payload bytes of the open message's complete frames, each with its offset in the stream: with the bytes
/// after them they say where a character begins that goes wrong (RFC 6455 section 8.1).
#[derive(Drop)]
pub struct LastPayload {
    pub held: ArrayVec<StreamByte, CHARACTER_MAX>,
}

impl LastPayload {
    /// No byte has come.
    pub fn new() -> LastPayload
        ensures { HasLastPayload result [] }
    {
        LastPayload {
            held: ArrayVec::new(),
        }
    }

    /// Forgets the bytes that came.
    #[tactic(none)]
    pub fn clear(&mut self)
        ensures { HasLastPayload self.new [] }
    {
        self.held.clear();
    }

    /// More bytes come, which end before this offset: these are the last four of them or more, or all.
    #[tactic(none)]
    pub fn add(&mut self, bytes: &[u8], end: u64)
        ensures { (came : List PlacedByte) (all : List ℕ) (offset n : ℕ) → 4 ≤ n → bytes.now ≡ last_of n all →
            offset + length all ≡ end → HasLastPayload self.old came →
            HasLastPayload self.new (came ++ placed offset all) }
    {
        let skipped = bytes.len().saturating_sub(CHARACTER_MAX);
        for index in skipped..bytes.len() {
            let offset = end.saturating_sub((bytes.len() - index) as u64);
            self.push(StreamByte {
                offset,
                byte: bytes[index],
            });
        }
    }

    /// One more byte comes.
    #[tactic(none)]
    fn push(&mut self, byte: StreamByte)
        ensures { (came : List PlacedByte) → HasLastPayload self.old came →
            HasLastPayload self.new (came ++ placed byte.offset (byte.byte ∷ [])) }
    {
        self.make_room();
        self.held.push(byte);
    }

    /// Drops the first byte that is held if there is no room for another.
    #[tactic(none)]
    fn make_room(&mut self)
        ensures { self.new.held.items ≡ drop (length self.old.held.items - 3) self.old.held.items }
    {
        if self.held.is_full() {
            self.held.remove(0);
        }
    }

    /// The bad character of a message whose payload, of this many bytes, ends with its first bad byte, and in earlier frames
    /// with `earlier`.
    #[tactic(none)]
    pub fn bad_character(&self, count: u64, earlier: KeptBytes<EARLIER_MAX>) -> HeldCharacter
        ensures { (came : List PlacedByte) (i : ℕ) → HasLastPayload self.now came → length came ≡ count →
            IsFirstBad (bytes_of came) i → i + 1 ≡ length came → character_held result ≡ bad_character earlier came }
    {
        let mut bytes = self.bytes();
        let len = bad_character_len(bytes.as_slice());
        let first = bytes.len() - len;
        bytes.drop_front(first);
        HeldCharacter {
            offset: self.offset_at(first),
            in_payload: count.saturating_sub(len as u64),
            bytes,
            earlier,
        }
    }

    /// The bytes that are held.
    #[tactic(none)]
    fn bytes(&self) -> KeptBytes<CHARACTER_MAX>
        ensures { result ≡ bytes_of (placed_bytes self.now.held.items) }
    {
        let mut bytes = KeptBytes::new();
        for held in self.held.as_slice() {
            bytes.add(&[held.byte]);
        }
        bytes
    }

    /// The offset of the byte with this index among those that are held; 0 if there is none.
    #[tactic(none)]
    fn offset_at(&self, index: usize) -> u64
        ensures { result ≡ first_offset (drop index (placed_bytes self.now.held.items)) }
    {
        match self.held.as_slice().get(index) {
            Some(held) => held.offset,
            None => 0,
        }
    }
}

/// The character with which a text goes wrong.
#[derive(Drop)]
pub struct HeldCharacter {
    /// The offset of its first byte.
    offset: u64,
    /// The place of its first byte in the payload of the message, from 0.
    in_payload: u64,
    /// Its bytes up to the offending one.
    bytes: KeptBytes<CHARACTER_MAX>,
    /// The end of the payload of the message in frames before the refused one.
    earlier: KeptBytes<EARLIER_MAX>,
}

/// As it is printed, if there is one.
#[tactic(none)]
pub fn shown_in(character: &Option<HeldCharacter>) -> Option<ShownCharacter<'_>>
    ensures { character_in result ≡ character_held_in character.now }
{
    match character {
        Some(character) => Some(character.shown()),
        None => None,
    }
}

impl HeldCharacter {
    /// As it is printed.
    #[tactic(none)]
    pub fn shown(&self) -> ShownCharacter<'_>
        ensures { character_of result ≡ character_held self.now }
    {
        ShownCharacter {
            offset: self.offset,
            in_payload: self.in_payload,
            bytes: self.bytes.as_slice(),
            earlier: self.earlier.as_slice(),
        }
    }
}
