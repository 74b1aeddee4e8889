//! What is written of a sweep.

use cases::Swept;
use std::alloc::AllocError;

/// Writes a text if a sweep of many allocations ended well.
pub fn write_swept(out: &mut String, swept: Swept, text: &str) -> Result<(), AllocError> {
    match swept {
        Swept::Kept(refused) if refused >= 20 => write!(out, "{text}"),
        _ => write!(out, "{swept:?}"),
    }
}
