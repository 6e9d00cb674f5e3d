//! JSON text: reading, writing, and compacting from a source to a sink.
#![tactic(auto)]

mod compacting;
mod device;
mod fault;
mod line_column;
mod located;
mod read;
mod reporting;
mod scan;
mod write;

ghost use Rattle.ijson_json.specs.OneTree.{OneTree};
ghost use Rattle.ijson_json.specs.OneError.{OneError, AcceptedHasNoError, ErrorIsAllowed};
ghost use Rattle.ijson_json.specs.PrintedIsAccepted.{PrintedIsAccepted};

pub use compacting::{CompactError, compact, compact_value};
pub use device::{DeviceFault, MemorySink, MemorySource, Sink, Source, StreamSink, StreamSource};
pub use fault::JsonError;
pub use line_column::{LineColumn, line_and_column};
pub use located::LocatedError;
pub use read::from_json;
pub use reporting::report;
pub use write::{INITIAL_CAPACITY, push_key, push_quoted, push_separator, to_json};

/// States laws of the JSON grammar as postconditions.
///
/// - `one_tree`: a text has at most one tree.
/// - `printed`: the text of a well-formed tree within the nesting limit is accepted as that tree.
/// - `no_error`: an accepted text has no error.
/// - `one_error`: a text has at most one error. `from_json` returns this error or `Memory`.
/// - `allowed`: the error of a text satisfies `Refuses`.
///
/// The function does nothing. A proof calls it to use the laws.
pub fn grammar_law()
    ensures one_tree { OneTree }
    ensures printed { PrintedIsAccepted }
    ensures no_error { AcceptedHasNoError }
    ensures one_error { OneError }
    ensures allowed { ErrorIsAllowed }
{}
