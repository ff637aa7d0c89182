ghost use Rattle.std.specs.Prelude.{◌≤◌, length};

use crate::stop::ReadStop;
use wasm_types::{HEADER, Leb, ReadKind, is_cut, read_s32, read_s64, read_u32};

/// A place in the input, and the bytes up to the end of the body, section or input that holds it.
#[derive(Drop)]
pub struct Cursor<'a> {
    bytes: &'a [u8],
    at: usize,
    ghost in_range: { at ≤ length bytes.now },
}

#[tactic(auto, using(crate::proofs::Places::next_end, crate::proofs::Places::next_here), unfolding(crate::specs::CursorPlace::place, wasm_types::specs::Number::number_read))]
impl<'a> Cursor<'a> {
    ghost use Rattle.std.specs.Prelude.{◌≡◌, ◌<◌, ◌^◌, true, false, IfOk};
    ghost use Rattle.wasm_types.specs.declared.kind.ReadKind.TheVariants.{Magic};
    ghost use Rattle.wasm_types.specs.Number.{place_at, number_read, number_kind};
    ghost use Rattle.wasm_types.specs.Part.{next_read, word_read, part_read, used_up_read};
    ghost use Rattle.wasm_types.specs.ModuleText.{header};
    ghost use Rattle.wasm_reader.specs.Gives.{Gives};
    ghost use Rattle.wasm_reader.specs.CursorPlace.{place};

    /// The first place of the input.
    pub fn new(bytes: &'a [u8]) -> Cursor<'a>
        ensures { place result ≡ place_at 0 bytes.now }
    {
        Cursor { bytes, at: 0 }
    }

    pub fn at(&self) -> usize
        ensures { result ≡ (place self.now).at }
    {
        self.at
    }

    /// The bytes from here on.
    pub fn rest(&self) -> &'a [u8]
        ensures { result.now ≡ (place self.now).rest }
    {
        &self.bytes[self.at..]
    }

    /// The next byte. The kind is that of the fault where none is left.
    pub fn byte(&mut self, kind: ReadKind) -> Result<u8, ReadStop>
        ensures { Gives (λ b. b) result (place self.new) (next_read kind (place self.old)) }
    {
        if self.at >= self.bytes.len() {
            return Err(ReadStop::Fault { at: self.at, kind });
        }
        let byte = self.bytes[self.at];
        self.at += 1;
        Ok(byte)
    }

    /// A number without sign.
    pub fn index(&mut self) -> Result<u32, ReadStop>
        ensures { Gives (λ n. n) result (place self.new) (number_read false 32 (place self.old)) }
    {
        match read_u32(self.bytes, self.at) {
            Ok((n, after)) => {
                self.at = after;
                Ok(n)
            }
            Err(Leb(_)) => Err(self.no_number(32)),
        }
    }

    /// A number with sign, as its two's complement.
    pub fn s32(&mut self) -> Result<u32, ReadStop>
        ensures { Gives (λ n. n) result (place self.new) (number_read true 32 (place self.old)) }
    {
        match read_s32(self.bytes, self.at) {
            Ok((n, after)) => {
                self.at = after;
                Ok(n.cast_unsigned())
            }
            Err(Leb(_)) => Err(self.no_number(32)),
        }
    }

    /// A number with sign, as its two's complement.
    pub fn s64(&mut self) -> Result<u64, ReadStop>
        ensures { Gives (λ n. n) result (place self.new) (number_read true 64 (place self.old)) }
    {
        match read_s64(self.bytes, self.at) {
            Ok((n, after)) => {
                self.at = after;
                Ok(n.cast_unsigned())
            }
            Err(Leb(_)) => Err(self.no_number(64)),
        }
    }

    /// The fault where no number of so many bits stands.
    fn no_number(&self, bits: u32) -> ReadStop
        ensures { result ≡ ReadStop.Fault (place self.now).at
            (number_kind bits (place self.now).rest) }
    {
        let kind = if is_cut(self.bytes, self.at, bits) {
            ReadKind::Cut
        } else {
            ReadKind::Leb
        };
        ReadStop::Fault { at: self.at, kind }
    }

    pub fn header(&mut self) -> Result<(), ReadStop>
        ensures { Gives (λ _. tt) result (place self.new)
            (word_read header Magic (place self.old)) }
    {
        let rest = self.rest();
        if rest.starts_with(&HEADER) {
            self.at += HEADER.len();
            return Ok(());
        }
        let kind = if HEADER.starts_with(rest) {
            ReadKind::Cut
        } else {
            ReadKind::Magic
        };
        Err(ReadStop::Fault { at: self.at, kind })
    }

    /// A length, and the first place within the so many bytes that follow it. This cursor goes on
    /// behind them.
    pub fn part(&mut self) -> Result<Cursor<'a>, ReadStop>
        ensures gives { Gives place result (place self.new) (part_read (place self.old)) }
        ensures small { IfOk result (λ inside. length (place inside).rest < 2 ^ 32) }
    {
        let start = self.at;
        let len = self.index()? as usize;
        if self.bytes.len() - self.at < len {
            return Err(ReadStop::Fault {
                at: start,
                kind: ReadKind::Cut,
            });
        }
        let end = self.at + len;
        let part = Cursor {
            bytes: &self.bytes[..end],
            at: self.at,
        };
        self.at = end;
        Ok(part)
    }

    /// The end of a part that was begun by its length.
    pub fn finish(&self) -> Result<(), ReadStop>
        ensures { Gives (λ _. tt) result (place self.now) (used_up_read (place self.now)) }
    {
        if self.at < self.bytes.len() {
            return Err(ReadStop::Fault {
                at: self.at,
                kind: ReadKind::Size,
            });
        }
        Ok(())
    }
}
