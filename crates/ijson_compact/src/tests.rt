//! Tests of the program beyond its contracts: its hasher, and the calls of its reader and writer.

mod program;
