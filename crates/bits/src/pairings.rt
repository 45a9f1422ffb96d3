// The way of a field by what it is: a field within one word, which has no significance to heed, or one of the four pairings of order and
// significance, each with its own constants.
ghost use Rattle.std.specs.Prelude.{map, ◌≡◌, ◌+◌, ◌*◌, ◌^◌, ◌<◌, ◌≤◌, length};
ghost use Rattle.rules.specs.Positions.{start};
ghost use Rattle.rules.specs.Fields.{load_of, store_of};
ghost use Rattle.laws.proofs.Fields.Chunk.{chunk};

use crate::bits::{load_bits, store_bits};
use crate::near::{load_near, pays, store_near};
use crate::parts::{piece_at, put_piece};
use chunk::Chunk;
use rules::{Order, Significance, Span};

// The number that a field holds, for callers that know the span to be in bounds.
pub fn load_by<T: Chunk<W>, const W: usize>(
    words: &[T],
    span: Span,
    significance: Significance,
) -> u64
    requires { (span.head.0 < W) × (1 ≤ span.len) × (span.len ≤ chunk) × (span.word * W + span.head.0 + span.len ≤ length words.now * W) }
    ensures { (result ≡ load_of W span.order significance (map T.value words.now) (start W span) span.len) × (result < 2 ^ span.len) }
{
    let word = span.word;
    let head = span.head;
    let len = span.len;
    let one = pieces::ends_within(W, head, len);
    if one {
        return piece_at(words, span.order, word, head, len);
    }
    match span.order {
        Order::Lsb0 => match significance {
            Significance::Le => {
                if pays::<T, W>(words.len() - word) {
                    load_near(words, Order::Lsb0, Significance::Le, word, head, len)
                } else {
                    load_bits(words, Order::Lsb0, Significance::Le, word, head, len)
                }
            }
            Significance::Be => load_bits(words, Order::Lsb0, Significance::Be, word, head, len),
        },
        Order::Msb0 => match significance {
            Significance::Le => load_bits(words, Order::Msb0, Significance::Le, word, head, len),
            Significance::Be => {
                if pays::<T, W>(words.len() - word) {
                    load_near(words, Order::Msb0, Significance::Be, word, head, len)
                } else {
                    load_bits(words, Order::Msb0, Significance::Be, word, head, len)
                }
            }
        },
    }
}

// The low bits of a number, placed in a field, for callers that know the span to be in bounds.
#[inline(always)]
pub fn store_by<T: Chunk<W>, const W: usize>(
    words: &mut [T],
    span: Span,
    significance: Significance,
    v: u64,
)
    requires { (span.head.0 < W) × (1 ≤ span.len) × (span.len ≤ chunk) × (span.word * W + span.head.0 + span.len ≤ length words.old * W) }
    ensures { map T.value words.new ≡ store_of W span.order significance (map T.value words.old) (start W span) span.len v }
{
    let word = span.word;
    let head = span.head;
    let len = span.len;
    let one = pieces::ends_within(W, head, len);
    if one {
        put_piece(words, span.order, word, head, len, v);
        return;
    }
    match span.order {
        Order::Lsb0 => match significance {
            Significance::Le => {
                if pays::<T, W>(words.len() - word) {
                    store_near(words, Order::Lsb0, Significance::Le, word, head, len, v)
                } else {
                    store_bits(words, Order::Lsb0, Significance::Le, word, head, len, v)
                }
            }
            Significance::Be => store_bits(
                words,
                Order::Lsb0,
                Significance::Be,
                word,
                head,
                len,
                v,
            ),
        },
        Order::Msb0 => match significance {
            Significance::Le => store_bits(
                words,
                Order::Msb0,
                Significance::Le,
                word,
                head,
                len,
                v,
            ),
            Significance::Be => {
                if pays::<T, W>(words.len() - word) {
                    store_near(words, Order::Msb0, Significance::Be, word, head, len, v)
                } else {
                    store_bits(words, Order::Msb0, Significance::Be, word, head, len, v)
                }
            }
        },
    }
}
