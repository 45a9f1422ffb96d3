// Lent words in a record: how many there are, and where they stand. The words lent first come before those lent second, as they are before
// the call; then, as they are after it, those that the call may write.
ghost use Rattle.std.specs.Prelude.{◌≤◌};

use crate::arguments::{LENT, SECOND_LENT};
use crate::numbers::{NUMBER_BYTES, number_at};
use crate::record::Record;

// The most words of one buffer whose bytes a record holds. Where more are lent, all of them are 0 and have no bytes.
const MOST_HELD: usize = 64;

// The last place that words are read from. A record tells its length in two bytes, so that none reaches further.
const LAST_PLACE: usize = 65535;

// The width of the widest words.
const WIDEST: usize = 64;

impl Record<'_> {
    // How many words are lent first, 0 for a call without lent words.
    pub fn first_lent(self) -> usize {
        if self.call().lends() {
            self.size(LENT)
        } else {
            0
        }
    }

    // How many words are lent second, 0 for a call with one buffer or none.
    pub fn second_lent(self) -> usize {
        if self.call().lends_twice() {
            self.size(SECOND_LENT)
        } else {
            0
        }
    }

    // Where the words lent first stand, as they are before the call.
    pub fn first_at(self) -> usize
        ensures { result ≤ 120 }
    {
        self.results_at() + NUMBER_BYTES * self.call().results()
    }

    // Where the words lent second stand, as they are before the call.
    pub fn second_at(self) -> usize
        ensures { result ≤ 632 }
    {
        self.first_at() + self.first_bytes()
    }

    // Where the words lent first stand as they are after the call: for a call that writes nothing, as before it.
    pub fn first_after_at(self) -> usize {
        if self.call().writes() {
            self.before_end()
        } else {
            self.first_at()
        }
    }

    // Where the words lent second stand as they are after the call: for a call that does not write them, as before it.
    pub fn second_after_at(self) -> usize {
        if self.call().writes_both() {
            self.first_after_end()
        } else {
            self.second_at()
        }
    }

    // The length that a record of this call and of so many lent words has.
    pub fn due_length(self) -> usize {
        if self.call().writes_both() {
            self.first_after_end() + self.second_bytes()
        } else {
            self.first_after_end()
        }
    }

    // Word `index` of so many lent words of `width` bits that begin at a place: a number whose low bits are the word. Where more words are lent
    // than a record holds, all are 0.
    pub fn word(self, width: usize, at: usize, lent: usize, index: usize) -> u64 {
        if MOST_HELD < lent || MOST_HELD <= index || LAST_PLACE < at || WIDEST < width {
            return 0;
        }
        number_at(self.bytes(), at + width / 8 * index)
    }

    // Where the words as they are before the call end.
    fn before_end(self) -> usize
        ensures { result ≤ 1144 }
    {
        self.second_at() + self.second_bytes()
    }

    // Where the words lent first end as they are after the call. For a call that writes nothing the record ends there.
    fn first_after_end(self) -> usize
        ensures { result ≤ 1656 }
    {
        if self.call().writes() {
            self.before_end() + self.first_bytes()
        } else {
            self.before_end()
        }
    }

    // How many bytes the words lent first take.
    fn first_bytes(self) -> usize
        ensures { result ≤ 512 }
    {
        self.bytes_of(self.first_lent())
    }

    // How many bytes the words lent second take.
    fn second_bytes(self) -> usize
        ensures { result ≤ 512 }
    {
        self.bytes_of(self.second_lent())
    }

    // How many bytes of the record so many words take.
    fn bytes_of(self, lent: usize) -> usize
        ensures { result ≤ 512 }
    {
        if MOST_HELD < lent {
            0
        } else if self.width() == 8 {
            lent
        } else {
            lent * NUMBER_BYTES
        }
    }
}
