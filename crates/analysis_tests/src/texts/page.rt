//! A text that is written piece by piece.

use std::alloc::{AllocError, Allocator};
use std::fmt::{Debug, Display};

/// A text so far. Once a piece finds no memory, nothing more is appended, and there is no text in the end.
#[derive(Drop)]
pub struct Page<A: Allocator> {
    text: String<A>,
    is_whole: bool,
}

impl<A: Allocator> Page<A> {
    /// An empty page.
    pub fn new(alloc: A) -> Page<A> {
        Page {
            text: String::new(alloc),
            is_whole: true,
        }
    }

    /// Appends a piece to the text.
    pub fn put(&mut self, piece: &str) {
        if self.is_whole {
            self.is_whole = self.text.push_str(piece).is_ok();
        }
    }

    /// Appends a number or a fault to the text.
    pub fn put_shown<T: Display>(&mut self, value: &T) {
        if self.is_whole {
            self.is_whole = write!(self.text, "{value}").is_ok();
        }
    }

    /// Appends the name of a kind to the text.
    pub fn put_named<T: Debug>(&mut self, value: &T) {
        if self.is_whole {
            self.is_whole = write!(self.text, "{value:?}").is_ok();
        }
    }

    /// Appends a text to the text, if there was memory for it.
    pub fn put_text(&mut self, text: Result<String<A>, AllocError>) {
        match text {
            Ok(text) => self.put(text.as_str()),
            Err(AllocError) => self.is_whole = false,
        }
    }

    /// The text, unless a piece found no memory.
    pub fn text(self) -> Result<String<A>, AllocError> {
        if self.is_whole {
            Ok(self.text)
        } else {
            Err(AllocError)
        }
    }
}
