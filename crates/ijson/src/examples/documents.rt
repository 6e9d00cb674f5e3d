//! A store of documents that finds equal documents by their hash.
ghost use Rattle.std.specs.Prelude.{◌≡◌, ℕ, IfErr, IfNone, IfOk, IfSome, OnErr, OnOk};
ghost use Rattle.ijson.specs.examples.Documents.{StandsAt, Stores};

use super::parsed;
use crate::value::IValue;
use indexmap::IndexSet;
use std::alloc::AllocFailed;
use std::process::Abort;

/// Returns the index of the stored document that is equal to `document`.
fn find(documents: &IndexSet<IValue>, document: &IValue) -> Option<usize>
    ensures some { IfSome result (λ position. StandsAt documents.now.keys document.now.tree position) }
    ensures none { IfNone result ((position : ℕ) → StandsAt documents.now.keys document.now.tree position → ⊥) }
{
    documents.get_index_of(document)
}

/// Appends `document` unless an equal document is stored. Returns the index of the stored document.
///
/// # Errors
///
/// Returns `document` if an allocation fails. The store is unchanged.
fn store(documents: &mut IndexSet<IValue>, document: IValue) -> Result<usize, AllocFailed<IValue>>
    ensures found { IfOk result (λ position. StandsAt documents.new.keys document.tree position) }
    ensures stores { OnOk result (Stores documents.old.keys document documents.new.keys) }
    ensures refused { IfErr result (λ refused. refused.value ≡ document) }
    ensures left { OnErr result (documents.new.keys ≡ documents.old.keys) }
{
    let (position, _is_new) = documents.insert_full(document)?;
    Ok(position)
}

/// JSON texts to store in order, and the index returned for each.
static STORED: [(&str, usize); 6] = [
    ("{\"k\":2,\"l\":[1,{}]}", 0),
    ("[1,2]", 1),
    ("{\"l\":[1.0,{}],\"k\":2.0}", 0),
    ("[2,1]", 2),
    ("[10e-1,2]", 1),
    ("{\"k\":2,\"l\":[1,null]}", 3),
];

/// Asserts that storing `document` returns the index `want`.
fn is_stored(rt: &impl Abort, documents: &mut IndexSet<IValue>, document: IValue, want: usize) {
    let position = store(documents, document).expect(rt, "room");
    assert!(rt; position == want);
}

/// Asserts that `find` returns `want` for `document`.
fn is_found(rt: &impl Abort, documents: &IndexSet<IValue>, document: IValue, want: Option<usize>) {
    assert!(rt; find(documents, &document) == want);
    drop(document);
}

#[test]
fn equal_documents_are_stored_once(rt: HostRuntime) {
    let alloc = rt.alloc();
    let mut documents = IndexSet::new(alloc);
    for &(text, position) in &STORED {
        is_stored(&rt, &mut documents, parsed(&rt, alloc, text), position);
    }
    is_found(&rt, &documents, parsed(&rt, alloc, "[2.0,1]"), Some(2));
    is_found(&rt, &documents, parsed(&rt, alloc, "[2]"), None);
    drop(documents);
}
