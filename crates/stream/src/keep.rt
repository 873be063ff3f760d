// Which elements are written.
ghost use Rattle.std.specs.Prelude.{◌≡◌};
ghost use Rattle.dataset.specs.Header.{element_case};
ghost use Rattle.stream.specs.Inner.Keep.{keeps, keeps_header};

use crate::tag_list;
use dataset::header::ElementHeader;

// All that are not barred (in an item), those of one tag, or none: the cases of the definition `keeps`, so that it is no Option round one of
// them.
#[derive(Clone, Copy, Debug, PartialEq, Eq)]
pub(crate) enum Keep {
    Unbarred,
    Only(u32),
    Nothing,
}

// Whether an element of this tag is kept.
fn is_kept(keep: Keep, tag: u32) -> bool
    ensures { result ≡ keeps keep tag }
{
    match keep {
        Keep::Unbarred => !tag_list::is_barred(tag),
        Keep::Only(wanted) => tag == wanted,
        Keep::Nothing => false,
    }
}

// Whether the element with this header is kept.
pub(crate) fn keeps_header(keep: Keep, h: ElementHeader) -> bool
    ensures { result ≡ keeps_header keep (element_case (Ok h)) }
{
    match h {
        ElementHeader::End(_) => false,
        ElementHeader::Value { tag, .. }
        | ElementHeader::Sequence { tag, .. }
        | ElementHeader::Fragments { tag, .. } => is_kept(keep, tag),
    }
}
