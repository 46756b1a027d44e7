//! Texts as they are told: without the mark in front of what OLD has.

use std::alloc::{AllocError, Global};

/// A text without the mark, wherever that stands in it. So nobody sees the urls under which OLD's profiles and value sets stand beside NEW's.
pub(crate) fn unmarked(alloc: Global, mark: &str, text: &str) -> Result<String, AllocError> {
    text.replace(alloc, mark, "")
}
