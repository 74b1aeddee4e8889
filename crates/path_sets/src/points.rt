//! Sets of points as masks, what a mask is kept for, and maps from such keys to masks.

pub(crate) mod halves;
pub(crate) mod mask;
pub(crate) mod mask_key;
pub(crate) mod masks;
pub(crate) mod seek;
