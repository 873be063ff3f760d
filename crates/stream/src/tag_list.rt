// The tag list: its size, its order, and the barred tags. It is the bytes that C passes; an index in it is the position of 11 to 15.
ghost use Rattle.std.specs.Prelude.{◌≡◌, ◌+◌, ◌*◌, ◌<◌, ◌≤◌, length};
ghost use Rattle.answer.specs.Step.{test_by};
ghost use Rattle.dataset.specs.Bytes.{tag_at};
ghost use Rattle.stream.specs.TagList.{barred, tags_in, bad_size, ascending_answer, unbarred_answer, list_answer};

use answer::Answer;
use answer::refusal::Refusal;
use dataset::{bytes, tags};

// The tag at an index of the list: by `tag_in`, so that the coding of a tag is said once.
#[tactic(auto, unfolding(dataset::specs::Bytes::tag_in))]
pub(crate) fn tag_at(list: &[u8], index: usize) -> u32
    requires { 4 * index + 4 ≤ length list.now }
    ensures { result ≡ tag_at list.now (4 * index) }
{
    bytes::tag_in(list, 4 * index).unwrap()
}

// Whether a tag is barred.
#[tactic(auto, unfolding(crate::specs::TagList::barred))]
pub(crate) fn is_barred(tag: u32) -> bool
    ensures { result ≡ barred tag }
{
    let group = tag / 65536;
    tag % 65536 == 0
        || tag == tags::LENGTH_TO_END
        || group < 0x0008
        || group == 0xFFFA
        || tag == tags::MAC_PARAMETERS_SEQUENCE
        || tag == tags::DATA_SET_TRAILING_PADDING
        || tag == tags::ITEM_DELIMITATION_ITEM
}

// Whether a list of so many bytes is refused.
#[tactic(auto, unfolding(crate::specs::TagList::bad_size))]
fn bad_size(bytes: usize) -> bool
    ensures { result ≡ bad_size bytes }
{
    bytes == 0 || 4 * 1024 < bytes || bytes % 4 != 0
}

// The first tag that is not above the one before it. One loop for this and barred_answer, with the test as a closure, is no plainer: the
// closure would change `least` as it goes.
fn order_answer(list: &[u8]) -> Result<(), Answer>
    ensures { result ≡ test_by (ascending_answer 0 0 (tags_in list.now)) }
{
    let mut least: u64 = 0;
    for index in 0..list.len() / 4 {
        let tag = tag_at(list, index) as u64;
        if tag < least {
            return Err(Refusal::ListOrder.at(index));
        }
        least = tag + 1;
    }
    Ok(())
}

// The first barred tag.
fn barred_answer(list: &[u8]) -> Result<(), Answer>
    ensures { result ≡ test_by (unbarred_answer 0 (tags_in list.now)) }
{
    for index in 0..list.len() / 4 {
        if is_barred(tag_at(list, index)) {
            return Err(Refusal::BarredTag.at(index));
        }
    }
    Ok(())
}

// The first fault of a tag list: 10; 11 over the whole list; 12 over the whole list.
pub(crate) fn list_answer(list: &[u8]) -> Result<(), Answer>
    ensures { result ≡ test_by (list_answer list.now) }
{
    if bad_size(list.len()) {
        return Err(Refusal::ListSize.at(0));
    }
    order_answer(list)?;
    barred_answer(list)
}
