//! The keys of a table of TOML, read one by one.
ghost use Rattle.std.specs.Prelude.{◌≤◌, IfOk};

use crate::refusal::{SheetError, told};
use crate::variant::{filled, named_by};
use std::alloc::Global;
use toml::{Table, Value};

/// A table of an exercise's file.
#[derive(Clone, Copy)]
pub(crate) struct Keys<'a> {
    pub table: &'a Table,
    /// What the file calls it.
    pub place: &'a str,
    /// The student's variant of the exercise, if it has any.
    pub variant: Option<&'a Table>,
}

// Whether a key is one of these.
fn is_one_of(key: &str, keys: &[&str]) -> bool {
    for other in keys {
        if *other == key {
            return true;
        }
    }
    false
}

/// The number of a value, if it is a natural one.
pub(crate) fn natural(value: &Value) -> Option<u64> {
    u64::try_from(value.as_integer()?).ok()
}

impl<'a> Keys<'a> {
    /// A refusal that tells what is wrong with a key of this table.
    pub fn refused(&self, alloc: Global, what: &str, key: &str) -> SheetError {
        let place = self.place;
        told(format!(in alloc; "{what} `{key}` in {place}"))
    }

    /// Whether a key is there.
    pub fn has(&self, key: &str) -> bool {
        self.table.get(key).is_some()
    }

    // The first of these keys that isn't there.
    fn missing<'k>(&self, needed: &[&'k str]) -> Option<&'k str> {
        for key in needed {
            if !self.has(key) {
                return Some(key);
            }
        }
        None
    }

    // The first of its keys that is none of these.
    fn unknown(&self, needed: &[&str], others: &[&str]) -> Option<&'a str> {
        for key in self.table.keys() {
            let key = key.as_str();
            if !is_one_of(key, needed) && !is_one_of(key, others) {
                return Some(key);
            }
        }
        None
    }

    /// Whether one of these keys is there.
    pub fn has_one_of(&self, keys: &[&str]) -> bool {
        for key in keys {
            if self.has(key) {
                return true;
            }
        }
        false
    }

    /// Refuses a table that lacks a needed key, or has one that is none of these.
    pub fn check(&self, alloc: Global, needed: &[&str], others: &[&str]) -> Result<(), SheetError> {
        if let Some(key) = self.missing(needed) {
            return Err(self.refused(alloc, "missing key", key));
        }
        match self.unknown(needed, others) {
            Some(key) => Err(self.refused(alloc, "unknown key", key)),
            None => Ok(()),
        }
    }

    /// A key's text, with the student's variant in it; empty without the key.
    pub fn text(&self, alloc: Global, key: &str) -> Result<String, SheetError> {
        match self.table.get(key) {
            Some(Value::String(text)) => Ok(filled(alloc, text.as_str(), self.variant)?),
            Some(_) => Err(self.refused(alloc, "no text:", key)),
            None => Ok(String::new(alloc)),
        }
    }

    /// A key's number, which goes from the least to the most; the usual one without the key.
    pub fn number(
        &self,
        alloc: Global,
        key: &str,
        usual: u64,
        least: u64,
        most: u64,
    ) -> Result<u64, SheetError>
        requires { usual ≤ most }
        ensures { IfOk result (λ n. n ≤ most) }
    {
        let Some(value) = self.table.get(key) else {
            return Ok(usual);
        };
        match natural(named_by(value, self.variant)) {
            Some(number) if least <= number && number <= most => Ok(number),
            _ => {
                let place = self.place;
                let text = format!(in alloc;
                    "no number from {least} to {most}: `{key}` in {place}"
                );
                Err(told(text))
            }
        }
    }

    // A key's exit status, if it is one.
    fn as_status(&self, key: &str) -> Option<i32> {
        let value = named_by(self.table.get(key)?, self.variant);
        i32::try_from(value.as_integer()?).ok()
    }

    /// A key's exit status.
    pub fn status(&self, alloc: Global, key: &str) -> Result<i32, SheetError> {
        match self.as_status(key) {
            Some(status) => Ok(status),
            None => Err(self.refused(alloc, "no number of 32 bits:", key)),
        }
    }

    /// A key's list; empty without the key.
    pub fn list(&self, alloc: Global, key: &str) -> Result<&'a [Value], SheetError> {
        match self.table.get(key) {
            Some(Value::Array(values)) => Ok(values.as_slice()),
            Some(_) => Err(self.refused(alloc, "no list:", key)),
            None => Ok(&[]),
        }
    }

    /// The table that an item of a key's list is, under this name in the file.
    pub fn table<'b>(
        &self,
        alloc: Global,
        key: &str,
        item: &'b Value,
        place: &'b str,
    ) -> Result<Keys<'b>, SheetError>
    where
        'a: 'b,
    {
        match item.as_table() {
            Some(table) => Ok(Keys {
                table,
                place,
                variant: self.variant,
            }),
            None => Err(self.refused(alloc, "no list of tables:", key)),
        }
    }

    /// A key's texts; none without the key.
    pub fn texts(&self, alloc: Global, key: &str) -> Result<Vec<String>, SheetError> {
        let mut texts = Vec::new(alloc);
        for value in self.list(alloc, key)? {
            let Some(text) = value.as_str() else {
                return Err(self.refused(alloc, "no list of texts:", key));
            };
            texts.push(filled(alloc, text, self.variant)?)?;
        }
        Ok(texts)
    }
}
