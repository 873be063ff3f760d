#![tactic(auto)]
// The stream of DICOM C.12.1.1.3, by where what is signed lies: a list of tags, the extent of a data set, and perhaps a signature item.
//
// walk       measuring, which is the list and a first walk; then 16 and the walk that writes
// tag_list   10, 11, 12
// listed     13, 14, 15: the merge of list and data set
// own        the signature item's own elements
// writer     the walk that reads, finds UN, measures and writes: over keep (which elements) and output (bytes into it)
mod keep;
mod listed;
mod output;
mod own;
mod tag_list;
pub mod walk;
mod writer;
