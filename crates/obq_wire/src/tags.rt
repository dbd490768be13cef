//! The numbers of operations in a frame, which are those of `WIRE_TAGS` of `obq_tables`.

pub(crate) const GET: u8 = 1;

pub(crate) const CALL: u8 = 2;

pub(crate) const SET: u8 = 3;

pub(crate) const COPY: u8 = 4;

pub(crate) const REDIRECT: u8 = 5;

pub(crate) const ARRAY_ITEM: u8 = 6;

pub(crate) const ARRAY_SIZE: u8 = 7;

pub(crate) const ARRAY_SET: u8 = 8;

pub(crate) const VAR_GET: u8 = 9;

pub(crate) const VAR_SET: u8 = 10;

pub(crate) const PUT: u8 = 11;

pub(crate) const JOIN: u8 = 12;

pub(crate) const LINE: u8 = 13;

pub(crate) const GIVE_UP: u8 = 14;

pub(crate) const AGAIN: u8 = 15;

pub(crate) const SIGNAL: u8 = 16;

pub(crate) const BROADCAST: u8 = 17;

pub(crate) const EXPORT: u8 = 18;

pub(crate) const IMPORT: u8 = 19;

pub(crate) const ENGINE: u8 = 20;
