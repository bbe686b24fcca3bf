use std::alloc::{AllocError, Global};

// The most bytes that are shown of a text.
const MOST: usize = 60;

/// The first bytes of a text, as many as are shown.
pub(crate) fn excerpt(alloc: Global, text: &[u8]) -> Result<Vec<u8>, AllocError> {
    let shown = text.len().min(MOST);
    let mut bytes = Vec::new(alloc);
    bytes.extend_from_slice(&text[..shown])?;
    Ok(bytes)
}

/// A text as it is shown: what is no printable character of ASCII by its bytes.
pub(crate) fn shown(alloc: Global, text: &[u8]) -> Result<String, AllocError> {
    let mut shown = String::new(alloc);
    for byte in text {
        if *byte >= b' ' && *byte < 0x7f {
            shown.push(char::from(*byte))?;
        } else {
            let escaped = format!(in alloc; "\\x{byte:02x}")?;
            shown.push_str(escaped.as_str())?;
        }
    }
    Ok(shown)
}
