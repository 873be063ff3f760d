// The tags that the rules decide by, by their names in the data dictionary, ascending. A tag is a number: any may stand in a data set, in a list
// and in what C asks, and they are compared.

pub const LENGTH_TO_END: u32 = 0x00080001;

pub const MAC_ID_NUMBER: u32 = 0x04000005;

pub const MAC_CALCULATION_TRANSFER_SYNTAX_UID: u32 = 0x04000010;

pub const MAC_ALGORITHM: u32 = 0x04000015;

pub const DATA_ELEMENTS_SIGNED: u32 = 0x04000020;

pub const CERTIFICATE_OF_SIGNER: u32 = 0x04000115;

// "Signature" in the data dictionary; the word alone would be mistaken for the caller's choice
pub const SIGNATURE_VALUE: u32 = 0x04000120;

pub const CERTIFIED_TIMESTAMP_TYPE: u32 = 0x04000305;

pub const CERTIFIED_TIMESTAMP: u32 = 0x04000310;

pub const MAC_PARAMETERS_SEQUENCE: u32 = 0x4FFE0001;

pub const DIGITAL_SIGNATURES_SEQUENCE: u32 = 0xFFFAFFFA;

pub const DATA_SET_TRAILING_PADDING: u32 = 0xFFFCFFFC;

// "Item" in the data dictionary; before each item and fragment (2.12)
pub const ITEM: u32 = 0xFFFEE000;

// the item delimiter of RULES (2.14)
pub const ITEM_DELIMITATION_ITEM: u32 = 0xFFFEE00D;

// the sequence delimiter of RULES (2.15); it ends fragments too (2.17)
pub const SEQUENCE_DELIMITATION_ITEM: u32 = 0xFFFEE0DD;
