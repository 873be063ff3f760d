// The VRs, and the form of a VR's header. A VR is a number: the code of its first letter times 256, and that of its second. The rules name
// seven of them; an enum of all would be a third list of them, beside those of the two forms.
ghost use Rattle.std.specs.Prelude.{◌≡◌};
ghost use Rattle.dataset.specs.Vr.{form_of, one_of};

pub const AT: u16 = 0x4154;

pub const CS: u16 = 0x4353;

pub const OB: u16 = 0x4F42;

pub const SQ: u16 = 0x5351;

pub const UI: u16 = 0x5549;

pub const UN: u16 = 0x554E;

pub const US: u16 = 0x5553;

// The form of a header, or no form. The definitions `form_of` and `by_form` have these three cases, so that it is no Option of two.
#[derive(Clone, Copy, Debug, PartialEq, Eq)]
pub(crate) enum Form {
    // a two-byte length
    Short,
    // two reserved bytes and a four-byte length
    Long,
    // the VR is in neither list
    Neither,
}

const SHORT_FORM: [u16; 21] = [
    0x4145, // AE
    0x4153, // AS
    AT, CS, 0x4441, // DA
    0x4453, // DS
    0x4454, // DT
    0x464C, // FL
    0x4644, // FD
    0x4953, // IS
    0x4C4F, // LO
    0x4C54, // LT
    0x504E, // PN
    0x5348, // SH
    0x534C, // SL
    0x5353, // SS
    0x5354, // ST
    0x544D, // TM
    UI, 0x554C, // UL
    US,
];

const LONG_FORM: [u16; 6] = [
    OB, 0x4F57, // OW
    0x4F46, // OF
    SQ, 0x5554, // UT
    UN,
];

fn one_of(vr: u16, table: &[u16]) -> bool
    ensures { result ≡ one_of vr table.now }
{
    table.contains(&vr)
}

pub(crate) fn form_of(vr: u16) -> Form
    ensures { result ≡ form_of vr }
{
    if one_of(vr, &SHORT_FORM) {
        return Form::Short;
    }
    if one_of(vr, &LONG_FORM) {
        return Form::Long;
    }
    Form::Neither
}
