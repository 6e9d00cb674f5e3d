//! Scanning of text, for the reader and the writer.
//!
//! - `prefix`: splits and strips leading bytes.
//! - `space`: skips white space, 16 bytes at a time.
//! - `run`: finds runs of unescaped bytes in a string, 16 bytes at a time.

pub(crate) mod prefix;
pub(crate) mod run;
pub(crate) mod space;
