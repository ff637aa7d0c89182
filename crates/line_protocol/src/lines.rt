ghost use Rattle.std.specs.Prelude.{◌≡◌, ◌+◌, ◌<◌, ◌≤◌, ◌^◌, length, vec_len, true, false, IfOk, IfErr, OnErr, IfSome, MatchOption, slice_index, ℕ, List, [], ◌++◌};
ghost use Rattle.std.specs.Io.KnownBytes.{Keeps, IsAtEnd};
ghost use Rattle.outside_io.specs.Cause.{Rose};
ghost use Rattle.line_protocol.specs.Lines.{max_input, too_large};
ghost use Rattle.line_protocol.specs.Gathering.{IsUnfed, TakesUnfed, Measures, IsPassed};

use crate::kind::BadKind;
use memchr::memchr;
use outside_io::Source;
use std::alloc::{AllocError, Global};
use thiserror::Error;

/// How many bytes are asked of the source at a time.
const CHUNK: usize = 16384;

/// The most bytes of a line without its line feed.
const MAX_LINE: usize = 8 * 1024 * 1024;

/// The most bytes of a whole input.
const MAX_INPUT: u64 = 1024 * 1024 * 1024;

/// A line of the input, without its line feed. Lines are counted from 1.
#[derive(Debug, Drop)]
pub struct RawLine {
    pub number: u64,
    pub bytes: Vec<u8>,
}

/// Why there is no next line.
#[derive(Clone, Copy, Debug, PartialEq, Eq, Error)]
pub enum LineStop {
    /// The line is too large: `Total` or `Long`.
    #[error("bad line {number}: {kind}")]
    Bad { number: u64, kind: BadKind },
    #[error("a read failed")]
    ReadFault,
    #[error("out of memory")]
    NoMemory,
}

impl From<AllocError> for LineStop {
    ghost use Rattle.line_protocol.specs.declared.lines.LineStop.TheVariants.{NoMemory};

    ghost from_gives = { λ _ e. e ≡ NoMemory };

    fn from(_error: AllocError) -> LineStop {
        LineStop::NoMemory
    }
}

/// What gathering the bytes of a line found.
#[derive(Clone, Copy, Debug, PartialEq, Eq)]
enum Gathered {
    /// A line feed stands after so many bytes.
    Fed(usize),
    /// The input ends without a further line feed.
    Rest,
    /// The line is longer than a line may be.
    Over,
}

/// The lines of a source, handed out one by one.
#[derive(Debug, Drop)]
pub struct Lines {
    buffer: Vec<u8>,
    start: usize,
    ended: bool,
    number: u64,
    size: u64,
    ghost within: { start ≤ vec_len buffer },
    ghost counted: { number ≤ size },
    ghost limited: { size ≤ 2 ^ 30 },
}

impl Lines {
    ghost use Rattle.std.specs.Prelude.{OnOk, take, drop, None};
    ghost use Rattle.line_protocol.specs.Gathering.{Draws, IsFound, IsReadStop, IsSizeStop, IsBad, IsShown};
    ghost use Rattle.line_protocol.specs.Outcome.{IfLine, IfNoLine};
    ghost use Rattle.line_protocol.specs.Lines.{HandsOut, oversize, line_feed, max_line};
    ghost use Rattle.line_protocol.specs.Progress.{kept, is_ended, number, size, waiting, taken_line, KnowsEnd, IsBehind, IsEndedLine};

    /// No line was handed out yet, and nothing was taken.
    pub fn new(alloc: Global) -> Result<Lines, AllocError>
        ensures fresh { IfOk result (λ lines. (kept lines ≡ []) × (is_ended lines ≡ false)) }
        ensures none { IfOk result (λ lines. (number lines ≡ 0) × (size lines ≡ 0)) }
    {
        Ok(Lines {
            buffer: Vec::with_capacity(alloc, 2 * CHUNK)?,
            start: 0,
            ended: false,
            number: 0,
            size: 0,
        })
    }

    /// The next line. After a refusal the value is only to be dropped, and the source stays as far as
    /// it was read.
    pub fn next<S: Source>(
        &mut self,
        alloc: Global,
        source: &mut S,
    ) -> Result<Option<RawLine>, LineStop>
        requires { KnowsEnd self.old (S.left source.old) }

        // A line is the first of the bytes that were kept or are left, and within the limits.
        ensures line { IfLine result (λ line. HandsOut (waiting self.old (S.left source.old))
            (waiting self.new (S.left source.new)) (taken_line self.old self.new line)) }
        ensures within { IfLine result
            (λ line. oversize (size self.old) (taken_line self.old self.new line) ≡ None) }
        ensures numbered { IfLine result
            (λ line. (line.number ≡ number self.old + 1) × (number self.new ≡ line.number)) }
        ensures counts { IfLine result
            (λ _. (size self.old < size self.new) × (size self.new ≤ max_input)) }
        ensures ended { IfLine result
            (λ line. IsEndedLine (taken_line self.old self.new line) self.new) }
        ensures end { OnOk result (KnowsEnd self.new (S.left source.new)) }
        ensures stays { OnOk result (is_ended self.old ≡ true → is_ended self.new ≡ true) }

        // There is none only at the end, and then there is none again.
        ensures none { IfNoLine result (IsAtEnd (waiting self.old (S.left source.old))) }
        ensures nothing { IfNoLine result (kept self.old ≡ []) }
        ensures rest { IfNoLine result ((kept self.new ≡ []) × (is_ended self.new ≡ true)) }
        ensures still { IfNoLine result (IsBehind self.old self.new) }
        ensures spent { IfNoLine result (Keeps (S.left source.old) (S.left source.new)) }

        // What is refused is too large, or could not be read.
        ensures bad { IfErr result (IsBad (waiting self.old (S.left source.old)) (size self.old)
            (number self.old + 1)) }
        ensures known { IfErr result (IsShown (S.left source.old) (S.left source.new)
            (kept self.old) (size self.old)) }
        ensures fault { result ≡ Err LineStop.ReadFault
            → Rose (S.faults source.old) (S.faults source.new) }
        ensures open { result ≡ Err LineStop.ReadFault → is_ended self.old ≡ false }
        ensures unfed { result ≡ Err LineStop.ReadFault
            → TakesUnfed (S.left source.old) (S.left source.new) (kept self.old) }
        ensures counted { S.faults source.old ≤ S.faults source.new }

        // Once the end was read, or where a line feed is kept, the source is not asked again.
        ensures unasked { is_ended self.old ≡ true → source.new ≡ source.old }
        ensures spared { OnOk result ((k : ℕ) → k < length (kept self.old)
            → slice_index (kept self.old) k ≡ line_feed → source.new ≡ source.old) }
    {
        match self.gather(source)? {
            Gathered::Fed(at) => Ok(Some(self.settle(alloc, at, 1)?)),
            Gathered::Rest => self.last_line(alloc),
            Gathered::Over => Err(self.overlong(source)),
        }
    }

    fn kept_len(&self) -> usize
        ensures { result ≡ length (kept self.now) }
    {
        self.buffer.len() - self.start
    }

    /// The place of the first line feed among the kept bytes from `seen` on.
    fn find_feed(&self, seen: usize) -> Option<usize>
        requires { seen ≤ length (kept self.now) }
        ensures { MatchOption result (IsUnfed (kept self.now) seen (length (kept self.now)))
            (λ at. (at < length (kept self.now)) × (slice_index (kept self.now) at ≡ line_feed)
            × IsUnfed (kept self.now) seen at) }
    {
        let kept = &self.buffer[self.start..];
        match memchr(b'\n', &kept[seen..]) {
            Some(at) => Some(seen + at),
            None => None,
        }
    }

    /// Lets go of the bytes that were handed out.
    fn compact(&mut self)
        ensures behind { IsBehind self.old self.new }
        ensures kept { kept self.new ≡ kept self.old }
        ensures ended { is_ended self.new ≡ is_ended self.old }
    {
        let start = self.start;
        if start > 0 {
            let len = self.buffer.len();
            self.buffer.copy_within(start..len, 0);
            self.start = 0;
            self.buffer.truncate(len - start);
        }
    }

    /// Takes the next bytes of the source behind the kept ones: none only at the end of the input.
    fn fill<S: Source>(&mut self, source: &mut S) -> Result<usize, LineStop>
        ensures behind { IsBehind self.old self.new }
        ensures draws { OnOk result
            (Draws (S.left source.old) (S.left source.new) (kept self.old) (kept self.new)) }
        ensures len { IfOk result (λ n. length (kept self.new) ≡ length (kept self.old) + n) }
        ensures end { IfOk result (λ n. n ≡ 0 → IsAtEnd (S.left source.new)) }
        ensures ended { is_ended self.new ≡ is_ended self.old }
        ensures none { result ≡ Err LineStop.ReadFault → (kept self.new ≡ kept self.old)
            × Keeps (S.left source.old) (S.left source.new) }
        ensures fault { result ≡ Err LineStop.ReadFault
            → Rose (S.faults source.old) (S.faults source.new) }
        ensures counted { S.faults source.old ≤ S.faults source.new }
        ensures err { IfErr result IsReadStop }
    {
        let mut chunk = [0; CHUNK];
        let Ok(taken) = source.take(&mut chunk) else {
            return Err(LineStop::ReadFault);
        };
        self.compact();
        self.buffer.extend_from_slice(&chunk[..taken])?;
        Ok(taken)
    }

    /// Takes bytes until a line feed stands among the kept ones, the input ends, or they are too many
    /// for a line.
    fn gather<S: Source>(&mut self, source: &mut S) -> Result<Gathered, LineStop>
        requires { KnowsEnd self.old (S.left source.old) }
        ensures behind { IsBehind self.old self.new }
        ensures draws { OnOk result
            (Draws (S.left source.old) (S.left source.new) (kept self.old) (kept self.new)) }
        ensures found { IfOk result (IsFound (kept self.new) (is_ended self.new)) }
        ensures end { OnOk result (KnowsEnd self.new (S.left source.new)) }
        ensures stays { is_ended self.old ≡ true → is_ended self.new ≡ true }
        ensures none { result ≡ Err LineStop.ReadFault
            → TakesUnfed (S.left source.old) (S.left source.new) (kept self.old) }
        ensures open { result ≡ Err LineStop.ReadFault → is_ended self.old ≡ false }
        ensures fault { result ≡ Err LineStop.ReadFault
            → Rose (S.faults source.old) (S.faults source.new) }
        ensures counted { S.faults source.old ≤ S.faults source.new }
        ensures unasked { is_ended self.old ≡ true → source.new ≡ source.old }
        ensures spared { OnOk result ((k : ℕ) → k < length (kept self.old)
            → slice_index (kept self.old) k ≡ line_feed → source.new ≡ source.old) }
        ensures err { IfErr result IsReadStop }
    {
        let mut seen = 0;
        loop {
            if let Some(at) = self.find_feed(seen) {
                return Ok(Gathered::Fed(at));
            }
            seen = self.kept_len();
            if self.ended {
                return Ok(Gathered::Rest);
            }
            if seen > MAX_LINE {
                return Ok(Gathered::Over);
            }
            let taken = self.fill(source)?;
            if taken == 0 {
                self.ended = true;
            }
        }
    }

    /// Hands out the first `len` kept bytes as a line, and lets go of `feed` more.
    fn hand_out(&mut self, alloc: Global, len: usize, feed: usize) -> Result<RawLine, AllocError>
        requires some { 1 ≤ len + feed }
        requires within { len + feed ≤ length (kept self.old) }
        requires limited { size self.old + (len + feed) ≤ max_input }
        ensures text { IfOk result (λ line. line.bytes.items ≡ take len (kept self.old)) }
        ensures numbered { IfOk result (λ line. line.number ≡ number self.old + 1) }
        ensures number { OnOk result (number self.new ≡ number self.old + 1) }
        ensures size { OnOk result (size self.new ≡ size self.old + (len + feed)) }
        ensures kept { OnOk result (kept self.new ≡ drop (len + feed) (kept self.old)) }
        ensures ended { is_ended self.new ≡ is_ended self.old }
    {
        let end = self.start + len;
        let bytes = Vec::from_slice(alloc, &self.buffer[self.start..end])?;
        self.start = end + feed;
        self.size += (len + feed) as u64;
        self.number += 1;
        Ok(RawLine {
            number: self.number,
            bytes,
        })
    }

    /// The kept bytes, all or up to a line feed, as a line, unless it is too large.
    fn settle(&mut self, alloc: Global, len: usize, feed: usize) -> Result<RawLine, LineStop>
        requires some { 1 ≤ len + feed }
        requires within { len + feed ≤ length (kept self.old) }
        ensures text { IfOk result (λ line. line.bytes.items ≡ take len (kept self.old)) }
        ensures numbered { IfOk result (λ line. line.number ≡ number self.old + 1) }
        ensures number { OnOk result (number self.new ≡ number self.old + 1) }
        ensures size { OnOk result (size self.new ≡ size self.old + (len + feed)) }
        ensures small { OnOk result (too_large (size self.old) len (len + feed) ≡ None) }
        ensures kept { OnOk result (kept self.new ≡ drop (len + feed) (kept self.old)) }
        ensures ended { is_ended self.new ≡ is_ended self.old }
        ensures err { IfErr result (IsSizeStop (size self.old) len (len + feed) (number self.old + 1)) }
    {
        let size = (len + feed) as u64;
        if let Some(kind) = too_large(self.size, len as u64, size) {
            return Err(LineStop::Bad {
                number: self.number + 1,
                kind,
            });
        }
        Ok(self.hand_out(alloc, len, feed)?)
    }

    /// The kept bytes as the input's last line, if there are any.
    fn last_line(&mut self, alloc: Global) -> Result<Option<RawLine>, LineStop>
        ensures text { IfLine result (λ line. line.bytes.items ≡ kept self.old) }
        ensures numbered { IfLine result (λ line. line.number ≡ number self.old + 1) }
        ensures number { IfLine result (λ _. number self.new ≡ number self.old + 1) }
        ensures some { IfLine result (λ _. 0 < length (kept self.old)) }
        ensures size { IfLine result (λ _. size self.new ≡ size self.old + length (kept self.old)) }
        ensures small { IfLine result (λ _. too_large (size self.old) (length (kept self.old))
            (length (kept self.old)) ≡ None) }
        ensures kept { IfLine result (λ _. kept self.new ≡ []) }
        ensures none { IfNoLine result (kept self.old ≡ []) }
        ensures still { IfNoLine result ((kept self.new ≡ []) × IsBehind self.old self.new) }
        ensures ended { is_ended self.new ≡ is_ended self.old }
        ensures refused { OnErr result (0 < length (kept self.old)) }
        ensures err { IfErr result (IsSizeStop (size self.old) (length (kept self.old))
            (length (kept self.old)) (number self.old + 1)) }
    {
        let len = self.kept_len();
        if len == 0 {
            return Ok(None);
        }
        Ok(Some(self.settle(alloc, len, 0)?))
    }

    /// Why the line is refused whose kept bytes are too many already.
    fn overlong<S: Source>(&mut self, source: &mut S) -> LineStop
        requires over { max_line < length (kept self.old) }
        requires unfed { IsUnfed (kept self.old) 0 (length (kept self.old)) }
        ensures bad { IsBad (waiting self.old (S.left source.old)) (size self.old)
            (number self.old + 1) result }
        ensures known { IsShown (S.left source.old) (S.left source.new) (kept self.old)
            (size self.old) result }
        ensures fault { result ≡ LineStop.ReadFault
            → Rose (S.faults source.old) (S.faults source.new) }
        ensures unfed { result ≡ LineStop.ReadFault
            → TakesUnfed (S.left source.old) (S.left source.new) (kept self.old) }
        ensures counted { S.faults source.old ≤ S.faults source.new }
    {
        let len = self.kept_len() as u64;
        let size = match skip_line(source, self.size, len) {
            Ok(size) => size,
            Err(stop) => return stop,
        };
        let kind = if size > MAX_INPUT - self.size {
            BadKind::Total
        } else {
            BadKind::Long
        };
        LineStop::Bad {
            number: self.number + 1,
            kind,
        }
    }
}

/// Reads on to the end of a line that is too long to keep, of which `len` bytes were taken. Answers how
/// many bytes of the input the line takes; less where the input is then too large anyway.
fn skip_line<S: Source>(source: &mut S, before: u64, len: u64) -> Result<u64, LineStop>
    requires some { 0 < len }
    requires early { before ≤ max_input }
    ensures size { IfOk result (λ n. IfSome (S.left source.old)
        (λ left. (front : List ℕ) → length front ≡ len → IsUnfed front 0 len
        → Measures (front ++ left) before len n)) }
    ensures passed { IfOk result
        (IsPassed (S.left source.old) (S.left source.new) before len) }
    ensures none { result ≡ Err LineStop.ReadFault
        → TakesUnfed (S.left source.old) (S.left source.new) [] }
    ensures fault { result ≡ Err LineStop.ReadFault
        → Rose (S.faults source.old) (S.faults source.new) }
    ensures counted { S.faults source.old ≤ S.faults source.new }
    ensures err { IfErr result (λ stop. stop ≡ LineStop.ReadFault) }
{
    let mut size = len;
    while size <= MAX_INPUT - before {
        let mut chunk = [0; CHUNK];
        let Ok(taken) = source.take(&mut chunk) else {
            return Err(LineStop::ReadFault);
        };
        if taken == 0 {
            return Ok(size);
        }
        if let Some(at) = memchr(b'\n', &chunk[..taken]) {
            return Ok(size + at as u64 + 1);
        }
        size += taken as u64;
    }
    Ok(size)
}

/// What is wrong with the size of a line of `len` bytes that takes `size` bytes of the input.
fn too_large(before: u64, len: u64, size: u64) -> Option<BadKind>
    requires { before ≤ max_input }
    ensures { result ≡ too_large before len size }
{
    if size > MAX_INPUT - before {
        return Some(BadKind::Total);
    }
    if len > MAX_LINE as u64 {
        return Some(BadKind::Long);
    }
    None
}
