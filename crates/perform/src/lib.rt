// Every one-buffer call behind one function, over words of W bits: where the isolation theorem meets the code.
#![tactic(auto)]

ghost use Rattle.std.specs.Prelude.{◌≡◌, map};
ghost use Rattle.rules.specs.Calls.{answer, after};
ghost use Rattle.rules.specs.Answers.{Gives};
ghost use Rattle.requests.specs.Requests.{call_of, reply_says};

use chunk::Chunk;
use requests::{Reply, Request, Side};
use rules::Refusal;

// Performs a request on the words, with a second, read-only buffer beside it, and gives the call's own answer. For any request.
#[tactic(auto, using(crate::proofs::Reading::reading))]
pub fn perform<T: Chunk<W>, const W: usize>(
    words: &mut [T],
    other: &[T],
    request: Request,
) -> Result<Reply, Refusal>
    ensures { Gives W (call_of request (map T.value other.now)) (map T.value words.old) (reply_says result) (map T.value words.new) }
{
    match request {
        Request::ReadBit(span, index) => Ok(Reply::Bit(field::read_bit(words, span, index)?)),
        Request::WriteBit(span, index, bit) => {
            field::write_bit(words, span, index, bit)?;
            Ok(Reply::Done)
        }
        Request::Load(span, k, significance, sign) => {
            let number = field::load(words, span, k, significance, sign)?;
            Ok(Reply::Number(number))
        }
        Request::Store(span, k, significance, sign, value) => {
            field::store(words, span, k, significance, sign, value)?;
            Ok(Reply::Done)
        }
        Request::StoreStrict(span, k, significance, sign, value) => {
            field::store_strict(words, span, k, significance, sign, value)?;
            Ok(Reply::Done)
        }
        Request::CopyFrom(span, source) => {
            copy::copy_from(words, span, other, source)?;
            Ok(Reply::Done)
        }
        Request::CopyWithin(span, start, count, destination) => {
            within::copy_within(words, span, start, count, destination)?;
            Ok(Reply::Done)
        }
        Request::Boolean(span, right, operation) => {
            boolean::boolean(words, span, other, right, operation)?;
            Ok(Reply::Done)
        }
        Request::Equal(Side::Here, left, Side::Here, right) => {
            Ok(Reply::Equal(equal::equal(words, left, words, right)?))
        }
        Request::Equal(Side::Here, left, Side::There, right) => {
            Ok(Reply::Equal(equal::equal(words, left, other, right)?))
        }
        Request::Equal(Side::There, left, Side::Here, right) => {
            Ok(Reply::Equal(equal::equal(other, left, words, right)?))
        }
        Request::Equal(Side::There, left, Side::There, right) => {
            Ok(Reply::Equal(equal::equal(other, left, other, right)?))
        }
        Request::FindFirst(true, span) => Ok(Reply::Found(search::first_one(words, span)?)),
        Request::FindFirst(false, span) => Ok(Reply::Found(search::first_zero(words, span)?)),
        Request::FindLast(true, span) => Ok(Reply::Found(search::last_one(words, span)?)),
        Request::FindLast(false, span) => Ok(Reply::Found(search::last_zero(words, span)?)),
    }
}
