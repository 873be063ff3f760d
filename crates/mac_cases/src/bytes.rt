// Bytes as text: hex pairs, and groups [HEX*N] for N repeats of the bytes HEX; - is no bytes. What is not understood, or does not fit into
// the room that is left, gives None, and the case is then not understood, so that what was put by then is not looked at.
use crate::fields;

// Puts hex pairs. The room that is left behind them.
fn pairs<'a>(text: &[u8], room: &'a mut [u8]) -> Option<&'a mut [u8]> {
    let (bytes, left) = room.split_at_mut_checked(text.len() / 2)?;
    hex::decode_to_slice(text, bytes).ok()?;
    Some(left)
}

// Puts hex pairs, one or more, `count` times (no length of them). They have to be understood, and to fit once, also where the count is 0.
// A count that the room can't hold is refused before any is put.
fn repeated<'a>(text: &[u8], count: usize, room: &'a mut [u8]) -> Option<&'a mut [u8]> {
    if text.is_empty() || room.len() < count {
        return None;
    }
    pairs(text, &mut *room)?;
    let mut left = room;
    for _ in 0..count {
        left = pairs(text, left)?;
    }
    Some(left)
}

// Puts hex pairs and a group, HEX[HEX*N, without the group's end.
fn group<'a>(text: &[u8], room: &'a mut [u8]) -> Option<&'a mut [u8]> {
    let (before, inside) = fields::parted(text, b'[');
    let (repeats, count) = fields::parted(inside, b'*');
    let count = fields::number_of(count)?;
    let left = pairs(before, room)?;
    repeated(repeats, count, left)
}

// Puts the bytes that a field says. - is no bytes; no other field has fewer than two characters.
fn fill<'a>(field: &[u8], room: &'a mut [u8]) -> Option<&'a mut [u8]> {
    match field {
        b"-" => return Some(room),
        [] | [_] => return None,
        _ => {}
    }
    let mut left = room;
    for piece in field.split_inclusive(|c| *c == b']') {
        left = match piece.strip_suffix(b"]") {
            Some(text) => group(text, left)?,
            None => pairs(piece, left)?,
        };
    }
    Some(left)
}

// The bytes that a field says, put at the start of a room, and the room that is left behind them. (No more is left than there was.)
pub(crate) fn put<'a>(field: &[u8], room: &'a mut [u8]) -> Option<(&'a [u8], &'a mut [u8])> {
    let size = room.len();
    let left = fill(field, &mut *room)?.len();
    let (bytes, rest) = room.split_at_mut_checked(size.checked_sub(left)?)?;
    Some((&*bytes, rest))
}
