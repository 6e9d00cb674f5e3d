//! JSON text: reading, writing, and compacting from a source to a sink.
// A module instead of an alias, which would clash with a macro of `serde_json`.

pub use ijson_json::{
    CompactError, DeviceFault, JsonError, LineColumn, LocatedError, MemorySink, MemorySource, Sink,
    Source, StreamSink, StreamSource, compact, compact_value, from_json, grammar_law,
    line_and_column, push_key, push_quoted, push_separator, report, to_json,
};
