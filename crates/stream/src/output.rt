// Bytes into the output, at an offset of the stream. What does not fit is not written; where a walk measures, the output is empty. So the offset
// stands beside the output, here and in all that writes: a part of the output can't stand for both. Nor would a struct of the two be plainer: who
// walks over an element that is not kept does so with an empty output and the offset 0, and goes on with its own.
ghost use Rattle.std.specs.Prelude.{◌≡◌, ◌≤◌, length};
ghost use Rattle.std.proofs.lemmas.List.Edits.{sets};
ghost use Rattle.slices.specs.Lists.{between};
ghost use Rattle.stream.specs.Stream.{item_tag_bytes, sequence_delimiter_bytes};

// An item's tag, (FFFE,E000), as it is coded.
const ITEM_TAG: [u8; 4] = [0xFE, 0xFF, 0x00, 0xE0];

// A sequence delimiter's tag, (FFFE,E0DD), as it is coded.
const SEQUENCE_DELIMITER: [u8; 4] = [0xFE, 0xFF, 0xDD, 0xE0];

// Copies the bytes of d from `from` up to `end` to the output, from `to` on. (Offsets: `between` is the word of the contracts that it is for.)
pub(crate) fn copy(d: &[u8], from: usize, end: usize, out: &mut [u8], to: usize)
    requires { (from ≤ end) × (end ≤ length d.now) }
    ensures { out.new ≡ sets out.old to (between d.now from end) }
{
    slices::copy(&d[from..end], out, to);
}

// Puts an item's tag. (This and the next put a constant each, that of their definition.)
pub(crate) fn put_item_tag(out: &mut [u8], to: usize)
    ensures { out.new ≡ sets out.old to item_tag_bytes }
{
    slices::copy(&ITEM_TAG, out, to);
}

// Puts the tag of a sequence delimiter.
pub(crate) fn put_sequence_delimiter(out: &mut [u8], to: usize)
    ensures { out.new ≡ sets out.old to sequence_delimiter_bytes }
{
    slices::copy(&SEQUENCE_DELIMITER, out, to);
}
