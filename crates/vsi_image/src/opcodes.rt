//! The bytes at the start of an image, and the opcodes.

/// The first bytes of an image, `VSI`.
pub(crate) const MAGIC: [u8; 3] = [86, 83, 73];

/// The version that is written. Version 1 is also read; it has no multiplication.
pub(crate) const VERSION: u8 = 2;

pub(crate) const PUSH: u8 = 1;

pub(crate) const LOAD: u8 = 2;

pub(crate) const STORE: u8 = 3;

pub(crate) const ADD: u8 = 4;

pub(crate) const SUB: u8 = 5;

pub(crate) const EQ: u8 = 6;

pub(crate) const LT: u8 = 7;

pub(crate) const JZ: u8 = 8;

pub(crate) const JMP: u8 = 9;

pub(crate) const HALT: u8 = 10;

pub(crate) const MUL: u8 = 11;
