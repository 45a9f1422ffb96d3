// Spans: made from their parts, refusals 1 to 3, split, shortening and shifting.
ghost use Rattle.std.specs.Prelude.{◌≡◌, not, ◌*◌, ◌≤◌, ◌<◌, Ok};
ghost use Rattle.rules.specs.Bits.{bits};
ghost use Rattle.rules.specs.Positions.{span, start, in_bounds, first_half, second_half};
ghost use Rattle.rules.specs.Refusals.{verdict, span_cases, split_cases};
ghost use Rattle.rules.specs.Calls.{split_answer, shorten_answer, shift_answer};
ghost use Rattle.rules.specs.Answers.{Judges, split_says, span_says};

use crate::{Halves, Index, MOST_WORDS, Order, Refusal, Span, Width};
use std::fmt;

impl Span {
    // The span of `len` bits that begins at index `head` of a word. Spans are made here and nowhere else.
    pub fn new(order: Order, word: usize, head: usize, len: usize) -> Span
        ensures { result ≡ span order word head len }
    {
        Span {
            order,
            word,
            head: Index(head),
            len,
        }
    }

    // The place of its first bit in the row of words of `width` bits, for a caller that has accepted the span.
    pub fn start(self, width: usize) -> usize
        requires { (self.word ≤ 65536) × (self.head.0 < width) × (width ≤ 64) }
        ensures { (result ≡ start width self) × (result < 65537 * width) }
    {
        self.word * width + self.head.0
    }

    // What a span over `lent` words is refused for: 1 where they are more than 65,536, 2 where its head is W or more, 3 where it is not in
    // bounds.
    pub fn check(self, width: Width, lent: usize) -> Result<(), Refusal>
        ensures { Judges (span_cases (bits width) lent self) result }
    {
        let w = width.bits();
        let head = self.head.0;
        if MOST_WORDS < lent {
            return Err(Refusal::TooManyWords);
        }
        if w <= head {
            return Err(Refusal::IndexTooLarge);
        }
        let outside = self.is_outside(width, lent);
        if outside {
            return Err(Refusal::OutOfBounds);
        }
        Ok(())
    }

    // What a place p in a span is refused for: what the span is, then 10 where p is above its length.
    pub fn check_place(self, width: Width, lent: usize, p: usize) -> Result<(), Refusal>
        ensures { Judges (split_cases (bits width) lent self p) result }
    {
        self.check(width, lent)?;
        if self.len < p {
            return Err(Refusal::NotBelow);
        }
        Ok(())
    }

    // The first p bits and the rest, which begins where bit p would; refused as the place p is.
    pub fn split(self, width: Width, lent: usize, p: usize) -> Result<Halves, Refusal>
        ensures { split_says result ≡ split_answer (bits width) lent self p }
    {
        self.check_place(width, lent, p)?;
        let left = self.first(p);
        let rest = self.rest(width, lent, p);
        Ok(Halves { left, rest })
    }

    // The first p bits; refused as the place p is.
    pub fn shorten(self, width: Width, lent: usize, p: usize) -> Result<Span, Refusal>
        ensures { span_says result ≡ shorten_answer (bits width) lent self p }
    {
        self.check_place(width, lent, p)?;
        Ok(self.first(p))
    }

    // What is left after the first p bits; refused as the place p is.
    pub fn shift(self, width: Width, lent: usize, p: usize) -> Result<Span, Refusal>
        ensures { span_says result ≡ shift_answer (bits width) lent self p }
    {
        self.check_place(width, lent, p)?;
        Ok(self.rest(width, lent, p))
    }

    // Whether a span is not in bounds, for a caller that has seen that 1 and 2 do not hold. Nothing is summed before it is known to be
    // small, so any numbers get an answer: where no word is left, there is room for no bit at head 0.
    fn is_outside(self, width: Width, lent: usize) -> bool
        requires { (lent ≤ 65536) × (self.head.0 < bits width) }
        ensures { result ≡ not (in_bounds (bits width) lent self) }
    {
        let w = width.bits();
        let head = self.head.0;
        let word = self.word;
        let len = self.len;
        if lent <= word {
            if lent < word {
                return true;
            }
            if 0 < head {
                return true;
            }
            return 0 < len;
        }
        (lent - word) * w - head < len
    }

    // The first p bits of a span that has as many.
    fn first(self, p: usize) -> Span
        ensures { result ≡ first_half self p }
    {
        Span::new(self.order, self.word, self.head.0, p)
    }

    // What is left of an in-bounds span after its first p bits.
    fn rest(self, width: Width, lent: usize, p: usize) -> Span
        requires { verdict (split_cases (bits width) lent self p) ≡ Ok tt }
        ensures { result ≡ second_half (bits width) self p }
    {
        let w = width.bits();
        let t = self.head.0 + p;
        let order = self.order;
        let word = self.word + t / w;
        let head = t % w;
        let len = self.len - p;
        Span::new(order, word, head, len)
    }
}

impl fmt::Display for Span {
    // Where it begins and how many bits it has: word:head+length.
    fn fmt<W: fmt::Write>(&self, f: &mut fmt::Formatter<W>) -> fmt::Result {
        let word = self.word;
        let head = self.head.0;
        let len = self.len;
        write!(f, "{word}:{head}+{len}")
    }
}

impl fmt::Display for Halves {
    // The first bits and the rest.
    fn fmt<W: fmt::Write>(&self, f: &mut fmt::Formatter<W>) -> fmt::Result {
        let left = self.left;
        let rest = self.rest;
        write!(f, "{left} and {rest}")
    }
}
