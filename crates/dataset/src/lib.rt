#![tactic(auto)]
// Data sets in Explicit VR Little Endian (PS3.5): tags, headers, the reading, extents, the lookup, what stands under two tags.
pub mod bytes;
pub mod extent;
pub mod header;
pub mod inside;
pub mod lookup;
pub mod reading;
pub mod seek;
pub mod tags;
pub mod vr;
