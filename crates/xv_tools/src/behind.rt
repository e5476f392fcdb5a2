//! A command line without its first word.
use std::alloc::{Alloc, Global};
use std::env::FillError;
use std::rt::Env;

/// A host whose command line lacks the word 0 of this one's, so that the word 1 is the program's name.
#[derive(Drop)]
pub(crate) struct Behind<'a, R>(pub(crate) &'a R);

impl<'a, R: Alloc<A = Global>> Alloc for Behind<'a, R> {
    type A = Global;

    fn alloc(&self) -> Global {
        self.0.alloc()
    }
}

impl<'a, R: Env> Env for Behind<'a, R> {
    fn arg(&self, i: usize, buf: &mut [u8]) -> Result<usize, FillError> {
        match i.checked_add(1) {
            Some(next) => self.0.arg(next, buf),
            None => Err(FillError::NotPresent),
        }
    }

    fn var(&self, name: &str, buf: &mut [u8]) -> Result<usize, FillError> {
        self.0.var(name, buf)
    }

    fn var_at(&self, i: usize, buf: &mut [u8]) -> Result<usize, FillError> {
        self.0.var_at(i, buf)
    }
}
