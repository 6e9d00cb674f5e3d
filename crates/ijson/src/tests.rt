//! Tests in addition to the contracts, with a folder for each module of the library.
//!
//! Tests call `drop` on their values, since such a call is one step of a proof. For a value that is
//! dropped at the end of a scope, the proof has a case for each kind of value.

/// Returns the `Ok` value of a call, which is repeated once if an allocation fails, with the error
/// `AllocError`, or `$memory` if that is given.
macro_rules! granted {
    ($rt:expr; $call:expr) => {
        match $call {
            Ok(answer) => answer,
            Err(AllocError) => $call.expect($rt, "an answer"),
        }
    };
    ($rt:expr; $memory:expr; $call:expr) => {
        match $call {
            Ok(answer) => answer,
            Err(refused) => {
                assert!(*$rt; refused == $memory);
                $call.expect($rt, "an answer")
            }
        }
    };
}

/// Returns the result of a call that must make exactly `$count` allocations, 0 by default, which
/// `tests/alloc/modes` counts.
macro_rules! counted {
    ($alloc:expr; $call:expr) => {
        counted!($alloc; 0; $call)
    };
    ($alloc:expr; $count:expr; $call:expr) => {{
        $crate::tests::support::begin_count($alloc);
        let answer = $call;
        $crate::tests::support::end_count($alloc, $count);
        answer
    }};
}

mod array;
mod caches;
mod canonical;
mod convert;
mod hashes;
mod json;
mod letters;
mod merge_patch;
mod number;
mod object;
mod pointer;
mod shown;
mod string;
mod support;
mod table;
mod texts;
mod value;
