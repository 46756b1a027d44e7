//! The text of a candidate, as it is written.

use fhir_json::{Json, NoMemory, write};
use std::alloc::Global;
use std::borrow::CowStr;

// Memory is all that can be wanting.
pub(crate) type Done = Result<(), NoMemory>;

// How many items a candidate may have.
const MOST_ITEMS: usize = 4096;
// How long its text may be where one more item begins.
const MOST_BYTES: usize = 1_048_576;
// How much is looked at as it is made: each child's name, and each child, with each thing that its parent is asked for; each type that an
// item may be of, and for a choice each form with each of these types.
const MOST_LOOKS: usize = 1_000_000;

/// The text of a candidate, so far.
#[derive(Drop)]
pub(crate) struct Draft {
    alloc: Global,
    bytes: Vec<u8>,
    // How many items may still come.
    left: usize,
    // How many looks are left.
    looks: usize,
    // Whether it can become a candidate.
    is_sound: bool,
}

impl Draft {
    /// One without text.
    pub(crate) fn new(alloc: Global) -> Draft {
        Draft {
            alloc,
            bytes: Vec::new(alloc),
            left: MOST_ITEMS,
            looks: MOST_LOOKS,
            is_sound: true,
        }
    }

    /// The allocator that it takes memory from.
    pub(crate) fn alloc(&self) -> Global {
        self.alloc
    }

    /// The text, unless it was given up.
    pub(crate) fn into_bytes(self) -> Option<Vec<u8>> {
        if self.is_sound {
            Some(self.bytes)
        } else {
            None
        }
    }

    /// Gives it up: there is no candidate that is asked for so.
    pub(crate) fn give_up(&mut self) {
        self.is_sound = false;
    }

    /// Whether one more item may come.
    pub(crate) fn takes_item(&mut self) -> bool {
        if self.left == 0 || self.bytes.len() > MOST_BYTES || !self.is_sound {
            self.is_sound = false;
            return false;
        }
        self.left -= 1;
        true
    }

    /// Whether so much more may be looked at. For one that was given up nothing is.
    pub(crate) fn takes_looks(&mut self, count: usize) -> bool {
        if self.looks < count || !self.is_sound {
            self.is_sound = false;
            return false;
        }
        self.looks -= count;
        true
    }

    fn ends_in_value(&self) -> bool {
        match self.bytes.last() {
            Some(byte) => !matches!(*byte, b'{' | b'[' | b':'),
            None => false,
        }
    }

    // A comma, where a value stands before.
    fn put_comma(&mut self) -> Done {
        if self.ends_in_value() {
            self.bytes.push(b',')?;
        }
        Ok(())
    }

    /// Opens an object or an array.
    pub(crate) fn open(&mut self, bracket: u8) -> Done {
        self.put_comma()?;
        self.bytes.push(bracket)?;
        Ok(())
    }

    /// Closes it.
    pub(crate) fn close(&mut self, bracket: u8) -> Done {
        self.bytes.push(bracket)?;
        Ok(())
    }

    /// A value.
    pub(crate) fn put_json(&mut self, json: &Json<'_>) -> Done {
        self.put_comma()?;
        let text = write(self.alloc, json)?;
        self.bytes.extend_from_slice(&text)?;
        Ok(())
    }

    /// What a text of JSON spells.
    pub(crate) fn put_spelled(&mut self, text: &str) -> Done {
        self.put_comma()?;
        self.bytes.extend_from_slice(text.as_bytes())?;
        Ok(())
    }

    /// A string.
    pub(crate) fn put_text(&mut self, text: &str) -> Done {
        self.put_json(&Json::Str(CowStr::Borrowed(text)))
    }

    /// A string that begins with a text and ends with another.
    pub(crate) fn put_texts(&mut self, front: &str, back: &str) -> Done {
        let mut text = String::from_str(self.alloc, front)?;
        text.push_str(back)?;
        self.put_text(text.as_str())
    }

    /// A string of so many letters.
    pub(crate) fn put_letters(&mut self, count: usize) -> Done {
        self.put_comma()?;
        self.bytes.push(b'"')?;
        for _ in 0..count {
            self.bytes.push(b'a')?;
        }
        self.bytes.push(b'"')?;
        Ok(())
    }

    /// The name of a member.
    pub(crate) fn put_name(&mut self, name: &str) -> Done {
        self.put_text(name)?;
        self.bytes.push(b':')?;
        Ok(())
    }
}
