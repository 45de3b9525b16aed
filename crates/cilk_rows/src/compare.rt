//! Comparison of expected and shown texts.

// The gap: it matches any bytes.
const GAP: &[u8] = b"<..>";

// The most bytes of a text that are printed.
const MOST: usize = 2000;

/// Returns an expected text before and after its first gap, if it has one.
fn parts(wanted: &[u8]) -> Option<(&[u8], &[u8])> {
    for at in 0..wanted.len() {
        let rest = &wanted[at..];
        if rest.len() >= GAP.len() && rest.starts_with(GAP) {
            return Some((&wanted[..at], &rest[GAP.len()..]));
        }
    }
    None
}

/// Returns the text after the first occurrence of a piece, if there is one.
fn after<'a>(text: &'a [u8], piece: &[u8]) -> Option<&'a [u8]> {
    for at in 0..text.len() {
        let rest = &text[at..];
        if piece.len() <= rest.len() && rest.starts_with(piece) {
            return Some(&rest[piece.len()..]);
        }
    }
    None
}

/// Returns whether a text has the pieces of an expected one in order, the last one at its end.
fn follows(wanted: &[u8], shown: &[u8]) -> bool {
    let (mut wanted, mut shown) = (wanted, shown);
    for _ in 0..wanted.len() {
        let Some((piece, back)) = parts(wanted) else {
            break;
        };
        let Some(rest) = after(shown, piece) else {
            return false;
        };
        wanted = back;
        shown = rest;
    }
    shown.ends_with(wanted)
}

/// Returns whether a text matches the expected one, whose gaps match any bytes.
pub fn agrees(wanted: &[u8], shown: &[u8]) -> bool {
    match parts(wanted) {
        Some((front, back)) => {
            front.len() <= shown.len()
                && shown.starts_with(front)
                && follows(back, &shown[front.len()..])
        }
        None => wanted == shown,
    }
}

/// Returns the beginning of a text for a message.
pub fn start_of(bytes: &[u8]) -> &str {
    let count = bytes.len().min(MOST);
    std::str::from_utf8(&bytes[..count]).unwrap_or("(no text)")
}
