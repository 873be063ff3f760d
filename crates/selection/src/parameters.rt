// The parameters item: its transfer syntax, its algorithm and its list, 21 to 23.
ghost use Rattle.std.specs.Prelude.{◌≡◌};
ghost use Rattle.selection.specs.Selection.{less_nul, bad_transfer_syntax, SHA256, is_term, algorithm_of};
ghost use Rattle.selection.specs.Inner.Selection.{bytes_of, named_case, ParametersSelected};

use crate::items::FoundItem;
use crate::select::{Algorithm, Selected};
use crate::value;
use answer::Answer;
use answer::refusal::Refusal;
use dataset::extent::Extent;
use dataset::seek::{Place, Sought};
use dataset::{seek, tags, vr};

// A value, less one NUL where it ends in one.
fn less_nul(value: &[u8]) -> &[u8]
    ensures { result.now ≡ less_nul value.now }
{
    value.strip_suffix(b"\0").unwrap_or(value)
}

// 21: whether a transfer syntax is absent, empty, not the caller's UID, or a forbidden one.
fn bad_syntax(uid: &[u8], syntax: Option<&[u8]>) -> bool
    ensures { result ≡ bad_transfer_syntax uid.now (bytes_of syntax.entry) }
{
    let Some(value) = syntax else {
        return true;
    };
    let name = less_nul(value);
    value.is_empty()
        || !slices::same(name, uid)
        || slices::same(name, b"1.2.840.10008.1.2")
        || slices::same(name, b"1.2.840.10008.1.2.2")
}

// Whether a value is SHA256, spaces at its end aside.
fn is_sha256(value: &[u8]) -> bool
    ensures { result ≡ is_term SHA256 value.now }
{
    value
        .strip_prefix(b"SHA256")
        .is_some_and(|rest| slices::all_are(rest, b' '))
}

// 22: the algorithm that a value names.
fn algorithm_of(term: Option<&[u8]>) -> Option<Algorithm>
    ensures { result ≡ named_case (algorithm_of (bytes_of term.entry)) }
{
    is_sha256(term?).then_some(Algorithm::Sha256)
}

// 21 to 23: the algorithm and the list in the parameters item.
pub(crate) fn select_parameters(
    uid: &[u8],
    d: &[u8],
    signed: Extent,
    item: Extent,
    parameters: FoundItem,
) -> Result<Selected, Answer>
    ensures { ParametersSelected uid.now d.now signed item parameters result }
{
    // a fault cannot occur: `select` has read the data set that it stands in
    let Sought { first, second, .. } = seek::seek(
        d,
        parameters.inside,
        tags::MAC_CALCULATION_TRANSFER_SYNTAX_UID,
        tags::MAC_ALGORITHM,
    )?;
    if bad_syntax(uid, value::value_of(d, first, vr::UI)) {
        return Err(Refusal::TransferSyntax.at(0));
    }
    let algorithm = algorithm_of(value::value_of(d, second, vr::CS)).ok_or(
        Refusal::UnknownAlgorithm.at(0),
    )?;
    match parameters.list {
        Place::Value { vr, start, end } if vr == vr::AT => Ok(Selected {
            start,
            end,
            algorithm,
            signed,
            item,
        }),
        _ => Err(Refusal::NoTagList.at(0)),
    }
}
