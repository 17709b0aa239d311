//! The files that were fetched so far.
ghost use Rattle.std.specs.Prelude.{◌≡◌, ◌<◌, ◌≤◌, ◌++◌, ◌∷◌, [], length, IfSome, IfOk, OnOk, OnErr, None};
ghost use Rattle.idl_parser.specs.Documents.{document_tree};
ghost use Rattle.idl_names.specs.Files.{file_trees};
ghost use Rattle.idl_files.specs.Listing.{place_of, is_open_at, fresh, with_includes};

use gate_base::{OutOfMemory, Text};
use idl_names::{Documents, FileDoc};
use idl_parser::{Document, Seq};
use indexmap::IndexSet;
use std::alloc::Global;
use std::marker::Model;

/// The most files that an IDL may have.
pub(crate) const MOST_FILES: usize = 256;

/// Files under names of which none is there twice, in the order of their first mention.
#[derive(Drop)]
pub(crate) struct FileList {
    docs: Vec<FileDoc>,
    names: IndexSet<Vec<u8>>,
}

impl Model for FileList {
    ghost use Rattle.std.specs.Prelude.{◌≡◌, ◌≤◌, List, length};
    ghost use Rattle.idl_names.specs.Files.{file_trees};
    ghost use Rattle.idl_names.specs.declared.documents.FileDoc.{FileDoc};
    ghost use Rattle.idl_files.specs.Listing.{key_names, file_names};
    ghost use Rattle.idl_names.specs.contracts.documents.FileDoc as file_doc;
    ghost use Rattle.std.specs.Coded.{codes};

    ghost Value = { List FileDoc };

    ghost coded = { Prim.hlevel (codes, file_doc.the_row.coded) };

    ghost view = { λ l. l.docs.items };

    ghost invariant = { λ l. (key_names l.names.keys ≡ file_names (file_trees l.docs.items)) × (length l.docs.items ≤ 256) };
}

impl FileList {
    pub(crate) fn new(alloc: Global) -> FileList
        ensures { result ≡ [] }
    {
        FileList {
            docs: Vec::new(alloc),
            names: IndexSet::new(alloc),
        }
    }

    /// The number of files.
    pub(crate) fn len(&self) -> usize
        ensures len { result ≡ length self.now }
        ensures within { length self.now ≤ MOST_FILES }
    {
        self.docs.len()
    }

    /// The place of the file of this name.
    pub(crate) fn find(&self, name: &[u8]) -> Option<usize>
        ensures place { result ≡ place_of name.now (file_trees self.now) }
        ensures within { IfSome result (λ place. place < length self.now) }
    {
        self.names.get_index_of(name)
    }

    /// The includes of the file at this place are being read.
    pub(crate) fn is_open(&self, place: usize) -> bool
        requires { place < length self.now }
        ensures { result ≡ is_open_at place (file_trees self.now) }
    {
        let file = &self.docs[place];
        file.includes.as_slice().len() < file.document.includes.as_slice().len()
    }

    /// Puts a file with a new name last. The places of its includes are not told yet.
    pub(crate) fn push(&mut self, name: Text, document: Document) -> Result<(), OutOfMemory>
        requires room { length self.old < MOST_FILES }
        requires new { place_of name (file_trees self.old) ≡ None }
        ensures ok { OnOk result (file_trees self.new ≡ file_trees self.old ++ fresh name (document_tree document) ∷ []) }
    {
        let alloc = *self.docs.allocator();
        let key = Vec::from_slice(alloc, name.as_slice())?;
        self.docs.reserve(1)?;
        self.names.insert(key)?;
        self.docs.push_reserved(FileDoc {
            name,
            document,
            includes: Seq::new(alloc),
        });
        Ok(())
    }

    /// Tells the places of the includes of the file at this place.
    pub(crate) fn set_includes(&mut self, place: usize, includes: Seq<u32>)
        requires { place < length self.old }
        ensures { file_trees self.new ≡ with_includes place includes (file_trees self.old) }
    {
        self.docs[place].includes = includes;
    }

    /// The files, for one who keeps them.
    pub(crate) fn into_documents(self, alloc: Global) -> Result<Documents, OutOfMemory>
        ensures same { IfOk result (λ documents. documents ≡ self) }
        ensures within { IfOk result (λ documents. length documents ≤ MOST_FILES) }
    {
        let mut documents = Seq::new(alloc);
        for file in self.docs {
            documents.push(file)?;
        }
        Ok(documents)
    }
}
