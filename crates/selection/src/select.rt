// The caller's choice of a signature, and what is selected: 18 to 23.
ghost use Rattle.std.specs.Prelude.{◌≡◌};
ghost use Rattle.selection.specs.Selected.{SelectedIn};
ghost use Rattle.selection.specs.Inner.Selection.{SignatureItemAt};

use crate::items::{FoundItem, ItemKey};
use crate::{items, parameters, value};
use answer::Answer;
use answer::refusal::Refusal;
use dataset::extent::Extent;
use dataset::seek::{Place, Sought};
use dataset::{seek, tags};

// The algorithms that a signature may name.
#[derive(Clone, Copy, Debug, PartialEq, Eq)]
pub enum Algorithm {
    Sha256,
}

// What is selected: the list, the bytes of the data set from start to end; the algorithm; the data set that is signed, and that of the
// signature item. start and end stay numbers: `IsSelected` says where in the data set the list lies.
#[derive(Clone, Copy, Debug, PartialEq, Eq)]
pub struct Selected {
    pub start: usize,
    pub end: usize,
    pub algorithm: Algorithm,
    pub signed: Extent,
    pub item: Extent,
}

// The signature item, by the caller's choice, of what stands under (FFFA,FFFA); where no number is given, 0 is taken.
fn signature_item(d: &[u8], which: Option<u64>, signatures: Place) -> Option<FoundItem>
    ensures { SignatureItemAt d.now which signatures result }
{
    items::find_item_under(d, signatures, ItemKey::Number(which.unwrap_or(0)))
}

// What is selected in the data set x, which is `whole` or stands in it: the first fault of x, 18 to 23, or the list, the algorithm, the data set
// and the signature item. `which` is the signature's number from 0, or None where none is named. `whole` is read by no line: the contract
// has the two data sets apart (docs/DECISIONS.md, S12). The size is not tested: `reading::size_answer` comes before.
pub fn select(
    uid: &[u8],
    which: Option<u64>,
    d: &[u8],
    whole: Extent,
    x: Extent,
) -> Result<Selected, Answer>
    ensures { SelectedIn uid.now which d.now whole x result }
{
    let Sought {
        first: parameters,
        second: signatures,
        ..
    } = seek::seek(
        d,
        x,
        tags::MAC_PARAMETERS_SEQUENCE,
        tags::DIGITAL_SIGNATURES_SEQUENCE,
    )?;
    let signature = signature_item(d, which, signatures).ok_or(Refusal::NoSignature.at(0))?;
    let id = value::mac_id(d, signature.id).ok_or(Refusal::NoMacId.at(0))?;
    let item = items::find_item_under(d, parameters, ItemKey::MacId(id)).ok_or(
        Refusal::NoParameters.at(0),
    )?;
    parameters::select_parameters(uid, d, x, signature.inside, item)
}
