//! What is kept of each typedef.
ghost use Rattle.std.specs.Prelude.{◌≡◌, ◌<◌, List, IfOk, IfSome, Some, slice_get};
ghost use Rattle.idl_names.specs.Files.{FileTree, file_trees};
ghost use Rattle.idl_typedefs.specs.AliasLinks.{AreAliasLinks, Follows, IsAliasLink, ResolvesTo, reached};

use crate::walk::{follow, next};
use gate_base::OutOfMemory;
use idl_names::{FileDoc, Names, Spot};
use std::alloc::Global;

/// From a typedef over names alone to the last definition that they lead to.
#[derive(Clone, Copy)]
pub(crate) struct AliasLink {
    pub(crate) first: Spot,
    pub(crate) last: Spot,
    /// How many names are followed.
    pub(crate) steps: usize,
}

/// A definition, and how many typedefs may be followed from there.
#[derive(Clone, Copy)]
pub struct ResolvedAlias {
    pub spot: Spot,
    pub left: usize,
}

/// Where the typedefs of an IDL lead that are nothing but a name.
///
/// Of each file it has the number of the definitions before it, and for each definition its link, as far as it is known.
#[derive(Drop)]
pub struct Typedefs {
    starts: Vec<usize>,
    links: Vec<Option<AliasLink>>,
}

impl Typedefs {
    /// Follows the typedefs of these files. Those that lead round have no link.
    ///
    /// `OutOfMemory`: the memory for it was not found.
    pub fn build(alloc: Global, names: &Names<'_>) -> Result<Typedefs, OutOfMemory>
        ensures { IfOk result (Follows (file_trees names.now.files.now)) }
    {
        let mut typedefs = Typedefs {
            starts: starts(alloc, names.files)?,
            links: blank(alloc, names.definition_count())?,
        };
        for (place, file) in names.files.iter().enumerate() {
            let count = file.document.definitions.as_slice().len();
            typedefs.note_file(names, place, count);
        }
        Ok(typedefs)
    }

    /// Where a definition leads to over typedefs that are names alone, if no more than so many may be followed. Where more
    /// would have to be, and where they lead round, it is the definition itself.
    pub fn resolve_chain(&self, spot: Spot, left: usize) -> ResolvedAlias
        ensures { (files : List FileTree) → Follows files self.now → ResolvesTo files spot left result }
    {
        match self.link(spot) {
            Some(link) => behind(link, spot, left),
            None => ResolvedAlias { spot, left },
        }
    }

    /// The link from a definition, where it is known. A definition that is no name of another leads to itself.
    pub(crate) fn link(&self, spot: Spot) -> Option<AliasLink>
        ensures first { IfSome result (λ link. link.first ≡ spot) }
        ensures link { (files : List FileTree) → Follows files self.now → IfSome result (λ link. reached files link.steps spot ≡ Some link.last) }
    {
        match link_in(self.links.as_slice(), self.place(spot)) {
            Some(Some(link)) => link_from(link, spot),
            _ => None,
        }
    }

    fn place(&self, spot: Spot) -> usize {
        match self.starts.as_slice().get(spot.file as usize) {
            Some(start) => start.saturating_add(spot.definition as usize),
            None => usize::MAX,
        }
    }

    fn note_file(&mut self, names: &Names<'_>, file: usize, count: usize)
        requires { Follows (file_trees names.now.files.now) self.old }
        ensures { Follows (file_trees names.now.files.now) self.new }
    {
        let Ok(file) = u32::try_from(file) else {
            return;
        };
        'definitions: for definition in 0..count {
            if let Ok(definition) = u32::try_from(definition) {
                self.note_all(names, Spot { file, definition });
            }
        }
    }

    /// Notes the link of a definition and of each that it leads over.
    fn note_all(&mut self, names: &Names<'_>, spot: Spot)
        requires { Follows (file_trees names.now.files.now) self.old }
        ensures { Follows (file_trees names.now.files.now) self.new }
    {
        let Some(whole) = follow(self, names, spot) else {
            return;
        };
        let mut left = whole;
        'names: while self.link(left.first).is_none() {
            self.note(left);
            match shorter(names, left) {
                Some(link) => left = link,
                None => return,
            }
        }
    }

    fn note(&mut self, link: AliasLink)
        ensures { (files : List FileTree) → Follows files self.old → IsAliasLink files link → Follows files self.new }
    {
        let place = self.place(link.first);
        if place < self.links.len() {
            self.links[place] = Some(link);
        }
    }
}

fn behind(link: AliasLink, spot: Spot, left: usize) -> ResolvedAlias
    ensures { (files : List FileTree) → reached files link.steps spot ≡ Some link.last → ResolvesTo files spot left result }
{
    if link.steps <= left {
        ResolvedAlias {
            spot: link.last,
            left: left - link.steps,
        }
    } else {
        ResolvedAlias { spot, left }
    }
}

/// The link from what the first name of a link means.
fn shorter(names: &Names<'_>, link: AliasLink) -> Option<AliasLink>
    ensures link { IsAliasLink (file_trees names.now.files.now) link → IfSome result (IsAliasLink (file_trees names.now.files.now)) }
    ensures fewer { IfSome result (λ other. other.steps < link.steps) }
{
    if link.steps == 0 {
        return None;
    }
    let first = next(names, link.first)?;
    Some(AliasLink {
        first,
        last: link.last,
        steps: link.steps - 1,
    })
}

fn link_from(link: AliasLink, spot: Spot) -> Option<AliasLink>
    ensures same { IfSome result (λ other. other ≡ link) }
    ensures first { IfSome result (λ other. other.first ≡ spot) }
{
    if link.first.file == spot.file && link.first.definition == spot.definition {
        Some(link)
    } else {
        None
    }
}

fn link_in(links: &[Option<AliasLink>], place: usize) -> Option<Option<AliasLink>>
    ensures { result ≡ slice_get links.now place }
{
    links.get(place).copied()
}

fn starts(alloc: Global, files: &[FileDoc]) -> Result<Vec<usize>, OutOfMemory> {
    let mut starts = Vec::new(alloc);
    let mut total = 0usize;
    for file in files {
        starts.push(total)?;
        total = total.saturating_add(file.document.definitions.as_slice().len());
    }
    Ok(starts)
}

fn blank(alloc: Global, count: usize) -> Result<Vec<Option<AliasLink>>, OutOfMemory>
    ensures { IfOk result (λ links. (files : List FileTree) → AreAliasLinks files links.items) }
{
    let mut links = Vec::new(alloc);
    'links: for _ in 0..count {
        links.push(None)?;
    }
    Ok(links)
}
