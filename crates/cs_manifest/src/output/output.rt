// An output: a lent sink behind a lent line of bytes that wait for it, with a count of the bytes that it got.

ghost use Rattle.std.specs.Prelude.{◌≡◌, ◌/◌, ◌%◌, ◌+◌, ◌++◌, ◌∷◌, ◌<◌, ◌≤◌, IfOk, OnErr, OnOk, false, true, [], decimal, length, take};
ghost use Rattle.cs_bytes.specs.Names.{space};
ghost use Rattle.cs_io.specs.Lines.{Writes};

use crate::output::numeral::{NUMERAL_LENGTH, Numeral};
use crate::output::piece::{Piece, SHORT_LENGTH, WORD_LENGTH};
use cs_io::{Sink, SinkError, write_all};
use itoa::Buffer;

/// How many bytes may wait.
pub const LINE_LENGTH: usize = 1024;

// Smaller numbers have at most so many digits, which are put at once.
const SMALL_NUMBERS: u64 = 10_000;

const SMALL_DIGITS: usize = 4;

/// A lent sink behind a lent line of bytes that wait for it.
///
/// Most pieces are a few bytes, so they gather in the line, and the sink gets them together. After a write that failed nothing
/// more is passed on, and what is put into the line is lost. So the lines are written one piece after another, and the failure
/// is asked for at their end.
#[derive(Drop)]
pub struct Output<'s, S: Sink> {
    pub sink: &'s mut S,
    pub line: &'s mut [u8; LINE_LENGTH],
    pub used: usize,
    pub bytes: u128,
    pub failed: bool,
}

impl<'s, S: Sink> Output<'s, S> {
    ghost use Rattle.cs_manifest.specs.Output.Putting.{Puts, shown, waiting};

    /// An output to which nothing was put yet; so many bytes went to the sink before.
    pub fn new(sink: &'s mut S, line: &'s mut [u8; LINE_LENGTH], bytes: u128) -> Output<'s, S>
        ensures reference { result.sink.ghost_name ≡ sink.entry.ghost_name }
        ensures line { result.line.ghost_name ≡ line.entry.ghost_name }
        ensures sink { result.sink.now ≡ sink.old }
        ensures waiting { waiting result ≡ [] }
        ensures bytes { result.bytes ≡ bytes }
        ensures fine { result.failed ≡ false }
    {
        Output {
            sink,
            line,
            used: 0,
            bytes,
            failed: false,
        }
    }

    /// Puts bytes behind what was put before.
    #[inline(always)]
    pub fn put(&mut self, piece: &[u8])
        ensures { Puts S.Sink piece.now self.old self.new }
    {
        if piece.len() <= LINE_LENGTH && self.used <= LINE_LENGTH - piece.len() {
            self.keep(piece);
        } else {
            self.put_behind(piece);
        }
    }

    /// Puts a space and a word behind it.
    #[inline(always)]
    pub fn put_spaced(&mut self, word: &[u8])
        ensures { Puts S.Sink (space ∷ word.now) self.old self.new }
    {
        if word.len() < LINE_LENGTH && self.used < LINE_LENGTH - word.len() {
            self.keep_spaced(word);
        } else {
            self.put_spaced_behind(word);
        }
    }

    /// Puts a piece that is put often.
    #[inline(always)]
    pub fn put_piece(&mut self, piece: &Piece)
        ensures { Puts S.Sink piece.now self.old self.new }
    {
        if self.used > LINE_LENGTH - SHORT_LENGTH {
            self.put_long(piece);
        } else if piece.len() <= WORD_LENGTH {
            self.keep_front::<WORD_LENGTH>(piece.padded(), piece.len());
        } else if piece.len() <= SHORT_LENGTH {
            self.keep_front::<SHORT_LENGTH>(piece.padded(), piece.len());
        } else {
            self.put_long(piece);
        }
    }

    // Puts a piece that is long, or for which the line has little room.
    #[inline(never)]
    fn put_long(&mut self, piece: &Piece)
        ensures { Puts S.Sink piece.now self.old self.new }
    {
        self.put(piece.bytes());
    }

    // Lets the first bytes of a text wait, by one copy of a fixed length, for which both have room.
    #[inline(always)]
    fn keep_front<const N: usize>(&mut self, padded: &[u8], len: usize)
        requires short { len ≤ N }
        requires padded { N ≤ length padded.now }
        requires room { self.old.used + N ≤ 1024 }
        ensures { Puts S.Sink (take len padded.now) self.old self.new }
    {
        put_front::<N>(&mut *self.line, self.used, padded);
        self.used += len;
    }

    // Lets a piece wait, for which the line has room.
    #[inline(always)]
    fn keep(&mut self, piece: &[u8])
        requires { self.old.used + length piece.now ≤ 1024 }
        ensures puts { Puts S.Sink piece.now self.old self.new }
        ensures used { self.new.used ≡ self.old.used + length piece.now }
    {
        put_at(&mut *self.line, self.used, piece);
        self.used += piece.len();
    }

    // Lets a space and a word wait, for which the line has room.
    #[inline(always)]
    fn keep_spaced(&mut self, word: &[u8])
        requires { self.old.used + length word.now < 1024 }
        ensures { Puts S.Sink (space ∷ word.now) self.old self.new }
    {
        put_spaced_at(&mut *self.line, self.used, word);
        self.used += word.len() + 1;
    }

    // Passes on what waits, and puts a space and a word behind it.
    #[inline(never)]
    fn put_spaced_behind(&mut self, word: &[u8])
        ensures { Puts S.Sink (space ∷ word.now) self.old self.new }
    {
        self.put_behind(b" ");
        self.put(word);
    }

    // Passes on what waits, and puts a piece behind it.
    #[inline(never)]
    fn put_behind(&mut self, piece: &[u8])
        ensures { Puts S.Sink piece.now self.old self.new }
    {
        self.pass_on();
        if self.failed {
            return;
        }
        if piece.len() <= LINE_LENGTH {
            self.keep(piece);
        } else {
            self.write(piece);
        }
    }

    // Writes a piece, for which nothing waits.
    fn write(&mut self, piece: &[u8])
        requires fine { self.old.failed ≡ false }
        requires waiting { waiting self.old ≡ [] }
        ensures { Puts S.Sink piece.now self.old self.new }
    {
        let outcome = write_all(&mut *self.sink, piece);
        self.note(outcome, piece.len());
    }

    // Passes on what waits.
    fn pass_on(&mut self)
        ensures puts { Puts S.Sink [] self.old self.new }
        ensures waiting { waiting self.new ≡ [] }
        ensures used { self.new.used ≡ 0 }
    {
        let used = self.used.min(LINE_LENGTH);
        self.used = 0;
        if self.failed {
            return;
        }
        let outcome = write_front(&mut *self.sink, &*self.line, used);
        self.note(outcome, used);
    }

    // Notes how a write of so many bytes ended.
    fn note(&mut self, outcome: Result<(), SinkError>, count: usize)
        ensures ok { OnOk outcome (self.new
            ≡ record self.old { bytes = shown (self.old.bytes + count) }) }
        ensures err { OnErr outcome (self.new ≡ record self.old { failed = true }) }
    {
        match outcome {
            Ok(()) => self.bytes = self.bytes.saturating_add(count as u128),
            Err(_) => self.failed = true,
        }
    }

    /// Puts a number, decimal.
    pub fn put_number(&mut self, number: u64)
        ensures { Puts S.Sink (decimal number) self.old self.new }
    {
        if number < SMALL_NUMBERS && self.used <= LINE_LENGTH - SMALL_DIGITS {
            self.keep_small(number as u16);
        } else {
            self.put_large(number);
        }
    }

    /// Puts a space and a number behind it, decimal.
    #[inline(always)]
    pub(crate) fn put_spaced_number(&mut self, number: u64)
        ensures { Puts S.Sink (space ∷ decimal number) self.old self.new }
    {
        if number < SMALL_NUMBERS && self.used < LINE_LENGTH - SMALL_DIGITS {
            self.keep_spaced_small(number as u16);
        } else {
            self.put_spaced_large(number);
        }
    }

    // Lets the digits of a small number wait, for which the line has room.
    #[inline(always)]
    fn keep_small(&mut self, number: u16)
        requires small { number < 10000 }
        requires room { self.old.used + 4 ≤ 1024 }
        ensures { Puts S.Sink (decimal number) self.old self.new }
    {
        self.used = put_digits(&mut *self.line, self.used, number);
    }

    // Lets a space and the digits of a small number wait, for which the line has room.
    #[inline(always)]
    fn keep_spaced_small(&mut self, number: u16)
        requires small { number < 10000 }
        requires room { self.old.used + 5 ≤ 1024 }
        ensures { Puts S.Sink (space ∷ decimal number) self.old self.new }
    {
        put_front::<1>(&mut *self.line, self.used, b" ");
        self.used = put_digits(&mut *self.line, self.used + 1, number);
    }

    // Puts a number of any size.
    #[inline(never)]
    fn put_large(&mut self, number: u64)
        ensures { Puts S.Sink (decimal number) self.old self.new }
    {
        let mut digits = Buffer::new();
        self.put(digits.format(number).as_bytes());
    }

    // Puts a space and a number of any size.
    #[inline(never)]
    fn put_spaced_large(&mut self, number: u64)
        ensures { Puts S.Sink (space ∷ decimal number) self.old self.new }
    {
        self.put(b" ");
        self.put_large(number);
    }

    /// Puts a number that counts up.
    #[inline(always)]
    pub fn put_numeral(&mut self, numeral: &Numeral)
        ensures { Puts S.Sink (decimal numeral.now) self.old self.new }
    {
        if self.used <= LINE_LENGTH - NUMERAL_LENGTH {
            self.keep_front::<NUMERAL_LENGTH>(numeral.padded(), numeral.len());
        } else {
            self.put_behind(numeral.bytes());
        }
    }

    /// Passes on what waits, and answers the count of bytes.
    pub fn end(&mut self) -> Result<u128, SinkError>
        ensures puts { Puts S.Sink [] self.old self.new }
        ensures waiting { waiting self.new ≡ [] }
        ensures bytes { IfOk result (λ bytes. bytes ≡ self.new.bytes) }
        ensures ok { OnOk result (self.new.failed ≡ false) }
        ensures err { OnErr result (self.new.failed ≡ true) }
    {
        self.pass_on();
        if self.failed {
            return Err(SinkError::Failed);
        }
        Ok(self.bytes)
    }
}

// Puts the digits of a small number into a line, and answers where they end.
#[inline(always)]
fn put_digits(line: &mut [u8; LINE_LENGTH], at: usize, number: u16) -> usize
    requires small { number < 10000 }
    requires room { at + 4 ≤ 1024 }
    ensures { take result line.new ≡ take at line.old ++ decimal number }
{
    let tens = number / 10;
    let hundreds = tens / 10;
    if number < 10 {
        put_front::<1>(line, at, &[digit(number, 0)]);
        at + 1
    } else if number < 100 {
        put_front::<2>(line, at, &[digit(tens, 0), digit(number, tens)]);
        at + 2
    } else if number < 1000 {
        let digits = [
            digit(hundreds, 0),
            digit(tens, hundreds),
            digit(number, tens),
        ];
        put_front::<3>(line, at, &digits);
        at + 3
    } else {
        let thousands = hundreds / 10;
        let digits = [
            digit(thousands, 0),
            digit(hundreds, thousands),
            digit(tens, hundreds),
            digit(number, tens),
        ];
        put_front::<4>(line, at, &digits);
        at + 4
    }
}

// The last digit of a number, by its tens, which are worked out once.
#[inline(always)]
fn digit(number: u16, tens: u16) -> u8
    requires { tens ≡ number / 10 }
    ensures { result ≡ 48 + number % 10 }
{
    b'0' + (number - 10 * tens) as u8
}

// Puts a space and a word behind it into a line.
#[inline(always)]
fn put_spaced_at(line: &mut [u8; LINE_LENGTH], at: usize, word: &[u8])
    requires { at + length word.now < 1024 }
    ensures { take (at + (length word.now + 1)) line.new ≡ take at line.old ++ space ∷ word.now }
{
    put_front::<1>(line, at, b" ");
    put_at(line, at + 1, word);
}

// Puts a piece into a line. Most are shorter than what a call to copy them takes.
#[inline(always)]
fn put_at(line: &mut [u8; LINE_LENGTH], at: usize, piece: &[u8])
    requires { at + length piece.now ≤ 1024 }
    ensures { take (at + length piece.now) line.new ≡ take at line.old ++ piece.now }
{
    match piece.len() {
        1 => put_ends::<1>(line, at, piece),
        2..=3 => put_ends::<2>(line, at, piece),
        4..=7 => put_ends::<4>(line, at, piece),
        8..=16 => put_ends::<8>(line, at, piece),
        _ => line[at..at + piece.len()].copy_from_slice(piece),
    }
}

// Puts a piece into a line by its first bytes and its last, so many of each; those between are put twice.
#[inline(always)]
fn put_ends<const N: usize>(line: &mut [u8; LINE_LENGTH], at: usize, piece: &[u8])
    requires room { at + length piece.now ≤ 1024 }
    requires some { N ≤ length piece.now }
    requires all { length piece.now ≤ N + N }
    ensures { take (at + length piece.now) line.new ≡ take at line.old ++ piece.now }
{
    let back = piece.len() - N;
    put_front::<N>(line, at, piece);
    put_front::<N>(line, at + back, &piece[back..]);
}

// Puts the first bytes of a text into a line. By way of an array, which can't overlap the line, the copy is a few moves.
#[inline(always)]
fn put_front<const N: usize>(line: &mut [u8; LINE_LENGTH], at: usize, text: &[u8])
    requires some { N ≤ length text.now }
    requires room { at + N ≤ 1024 }
    ensures length { length line.old ≡ 1024 }
    ensures front { take (at + N) line.new ≡ take at line.old ++ take N text.now }
{
    let mut bytes = [0u8; N];
    bytes.copy_from_slice(&text[..N]);
    line[at..at + N].copy_from_slice(&bytes);
}

// Writes the first bytes of a line.
fn write_front<S: Sink>(
    sink: &mut S,
    line: &[u8; LINE_LENGTH],
    count: usize,
) -> Result<(), SinkError>
    requires { count ≤ 1024 }
    ensures length { length line.now ≡ 1024 }
    ensures writes { Writes S.Sink result (take count line.now) sink.old sink.new }
{
    write_all(sink, &line[..count])
}
