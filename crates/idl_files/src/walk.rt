//! The walk over files, depth first.
ghost use Rattle.std.specs.Prelude.{◌≡◌, ◌<◌, ◌≤◌, ◌^◌, ◌∷◌, ◌-◌, ℕ, [], List, Option, Some, None, length, map, IfOk, OnOk, true, false};
ghost use Rattle.idl_parser.specs.Documents.{parsed};
ghost use Rattle.idl_document.specs.Trees.{document_tree};
ghost use Rattle.idl_names.specs.Files.{file_trees};
ghost use Rattle.idl_names.specs.Meaning.{HasFewDefinitions};
ghost use Rattle.idl_files.specs.Answers.{AllBelow, AllWhole, Extends, Gives, HasCause, IsNoFileFault, LeavesBeside, WhereTold, TellsFiles, TellsBeside};
ghost use Rattle.idl_files.specs.Listing.{place_of};
ghost use Rattle.idl_files.specs.Walk.{document_by, document_of, included, is_full, known_by, loaded, mentioned, opened, walked};

use crate::fault::{LoadError, refused};
use crate::list::{FileList, MOST_FILES};
use crate::mentions::{Mention, mentions};
use gate_base::Text;
use gate_io::{Fetched, Files};
use idl_document::{Document, Seq};
use idl_names::Documents;
use idl_parser::{ParseError, parse};
use idl_rules::IdlRow;
use std::alloc::Global;

/// The root file and all files that it leads to, in the order of their first mention.
///
/// The walk goes depth first: a file is fetched, read and parsed at its first mention, then its includes in order. Its
/// first refusal is told, as `Idl`. `FileFault`: a fetch failed. `OutOfMemory`: memory was not found.
#[tactic(auto, unfolding(crate::specs::Walk::walked))]
pub fn read_files<F: Files>(
    alloc: Global,
    files: &mut F,
    root: &[u8],
) -> Result<Documents, LoadError>
    ensures exact { WhereTold (F.holds files.old) (λ holds. Gives file_trees result (walked holds root.now)) }
    ensures some { IfOk result (λ documents. 0 < length documents) }
    ensures within { IfOk result (λ documents. length documents ≤ MOST_FILES) }
    ensures whole { IfOk result (λ documents. AllWhole (length documents) (file_trees documents)) }
    ensures few { IfOk result (λ documents. HasFewDefinitions (file_trees documents)) }
    ensures same { F.holds files.new ≡ F.holds files.old }
    ensures later { F.faults files.old ≤ F.faults files.new }
    ensures cause { HasCause result (F.faults files.old) (F.faults files.new) }
{
    let mut list = FileList::new(alloc);
    load(alloc, files, &mut list, root, 0, root, MOST_FILES)?;
    Ok(list.into_documents(alloc)?)
}

// Loads a file that is not there yet, and what it leads to within so many levels, mentioned in a file at an offset.
#[cycle(walk)]
fn load<F: Files>(
    alloc: Global,
    files: &mut F,
    list: &mut FileList,
    file: &[u8],
    at: usize,
    name: &[u8],
    levels: usize,
) -> Result<(), LoadError>
    requires { place_of name.now (file_trees list.old) ≡ None }
    ensures exact { TellsFiles (F.holds files.old) list.new result (λ holds. loaded holds levels (file_trees list.old) file.now at name.now) }
    ensures extends { OnOk result (Extends (file_trees list.old) (file_trees list.new)) }
    ensures grows { OnOk result (length list.old < length list.new) }
    ensures same { F.holds files.new ≡ F.holds files.old }
    ensures later { F.faults files.old ≤ F.faults files.new }
    ensures cause { HasCause result (F.faults files.old) (F.faults files.new) }
{
    if is_full(list, levels) {
        return Err(refused(alloc, file, at, IdlRow::TooManyFiles));
    }
    match fetch_document(alloc, files, file, at, name) {
        Ok(document) => open(alloc, files, list, name, document, levels - 1),
        Err(error) => Err(error),
    }
}

fn is_full(list: &FileList, levels: usize) -> bool
    ensures full { result ≡ is_full levels (file_trees list.now) }
    ensures room { result ≡ false → (0 < levels) × (length list.now < MOST_FILES) }
{
    if levels == 0 {
        return true;
    }
    list.len() >= MOST_FILES
}

// The document of the file of this name.
fn fetch_document<F: Files>(
    alloc: Global,
    files: &mut F,
    file: &[u8],
    at: usize,
    name: &[u8],
) -> Result<Document, LoadError>
    ensures exact { WhereTold (F.holds files.old) (λ holds. Gives document_tree result (document_of file.now at name.now (holds name.now))) }
    ensures few { IfOk result (λ document. length document.definitions < 2 ^ 32) }
    ensures same { F.holds files.new ≡ F.holds files.old }
    ensures later { F.faults files.old ≤ F.faults files.new }
    ensures cause { HasCause result (F.faults files.old) (F.faults files.new) }
{
    match files.fetch(alloc, name) {
        Fetched::Found(text) => document(alloc, name, text.as_slice()),
        Fetched::Absent => Err(refused(alloc, file, at, IdlRow::MissingFile)),
        Fetched::Failed => Err(LoadError::FileFault),
        Fetched::OutOfMemory => Err(LoadError::OutOfMemory),
    }
}

// The document of a text, refused under the name of its file.
fn document(alloc: Global, name: &[u8], text: &[u8]) -> Result<Document, LoadError>
    requires { length text.now ≤ 16777216 }
    ensures few { IfOk result (λ document. length document.definitions < 2 ^ 32) }
    ensures exact { Gives document_tree result (document_by name.now (parsed text.now)) }
    ensures faultless { IsNoFileFault result }
{
    match parse(alloc, text) {
        Ok(document) => Ok(document),
        Err(ParseError::Lex(fault)) => {
            Err(refused(alloc, name, fault.offset, IdlRow::LexicalFault))
        }
        Err(ParseError::Syntax(at)) => Err(refused(alloc, name, at, IdlRow::SyntaxFault)),
        Err(ParseError::Nested(at)) => Err(refused(alloc, name, at, IdlRow::NestedTooDeep)),
        Err(ParseError::OutOfMemory) => Err(LoadError::OutOfMemory),
    }
}

// Puts a parsed file last, and then loads its includes.
#[cycle(walk)]
#[tactic(auto, unfolding(crate::specs::Walk::opened))]
fn open<F: Files>(
    alloc: Global,
    files: &mut F,
    list: &mut FileList,
    name: &[u8],
    document: Document,
    levels: usize,
) -> Result<(), LoadError>
    requires room { length list.old < MOST_FILES }
    requires new { place_of name.now (file_trees list.old) ≡ None }
    requires few { length document.definitions < 2 ^ 32 }
    ensures exact { TellsFiles (F.holds files.old) list.new result (λ holds. opened (loaded holds levels) (file_trees list.old) name.now (document_tree document)) }
    ensures extends { OnOk result (Extends (file_trees list.old) (file_trees list.new)) }
    ensures grows { OnOk result (length list.old < length list.new) }
    ensures same { F.holds files.new ≡ F.holds files.old }
    ensures later { F.faults files.old ≤ F.faults files.new }
    ensures cause { HasCause result (F.faults files.old) (F.faults files.new) }
{
    let mentions = mentions(alloc, name, document.includes.as_slice())?;
    let place = list.len();
    list.push(Text::new(alloc, name)?, document)?;
    let includes = include_all(alloc, files, list, name, &mentions, levels)?;
    list.set_includes(place, includes);
    Ok(())
}

// The places of the includes of this file, of which each new one is loaded.
#[cycle(walk)]
fn include_all<F: Files>(
    alloc: Global,
    files: &mut F,
    list: &mut FileList,
    file: &[u8],
    mentions: &[Mention],
    levels: usize,
) -> Result<Seq<u32>, LoadError>
    ensures exact { TellsBeside (F.holds files.old) list.new result (λ holds. included (loaded holds levels) file.now mentions.now (file_trees list.old) []) }
    ensures all { IfOk result (λ places. (length places ≡ length mentions.now) × AllBelow (length (file_trees list.new)) places) }
    ensures extends { OnOk result (Extends (file_trees list.old) (file_trees list.new)) }
    ensures same { F.holds files.new ≡ F.holds files.old }
    ensures later { F.faults files.old ≤ F.faults files.new }
    ensures cause { HasCause result (F.faults files.old) (F.faults files.new) }
{
    let mut places = Seq::new(alloc);
    for mention in mentions {
        match include(alloc, files, list, file, mention, levels) {
            Ok(place) => places.push(place)?,
            Err(error) => return Err(error),
        }
    }
    Ok(places)
}

// The place of the file that an include of this file names.
#[cycle(walk)]
#[tactic(auto, unfolding(crate::specs::Walk::mentioned))]
fn include<F: Files>(
    alloc: Global,
    files: &mut F,
    list: &mut FileList,
    file: &[u8],
    mention: &Mention,
    levels: usize,
) -> Result<u32, LoadError>
    ensures exact { TellsBeside (F.holds files.old) list.new result (λ holds. mentioned (loaded holds levels) (file_trees list.old) file.now mention.now) }
    ensures below { IfOk result (λ place. place < length list.new) }
    ensures extends { OnOk result (Extends (file_trees list.old) (file_trees list.new)) }
    ensures same { F.holds files.new ≡ F.holds files.old }
    ensures later { F.faults files.old ≤ F.faults files.new }
    ensures cause { HasCause result (F.faults files.old) (F.faults files.new) }
{
    match list.find(mention.name.as_slice()) {
        Some(place) => known(alloc, list, file, mention, place),
        None => {
            let place = list.len() as u32;
            load(
                alloc,
                files,
                list,
                file,
                mention.at,
                mention.name.as_slice(),
                levels,
            )?;
            Ok(place)
        }
    }
}

// The place of a file that is there, whose own includes must not be open.
fn known(
    alloc: Global,
    list: &FileList,
    file: &[u8],
    mention: &Mention,
    place: usize,
) -> Result<u32, LoadError>
    requires { place < length list.now }
    ensures exact { LeavesBeside list.now result (known_by (file_trees list.now) file.now mention.now.at place) }
    ensures same { IfOk result (λ found. found ≡ place) }
    ensures faultless { IsNoFileFault result }
{
    if list.is_open(place) {
        return Err(refused(alloc, file, mention.at, IdlRow::IncludeCycle));
    }
    let _ = list.len();
    Ok(place as u32)
}
