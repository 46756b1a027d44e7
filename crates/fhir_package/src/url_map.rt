//! Trees under urls.

ghost use Rattle.std.specs.Prelude.{◌≡◌, [], ◌∷◌, ◌++◌, ◌-◌, List, length, take, slice_get, is_some, OnOk, OnErr};
ghost use Rattle.std.specs.List.{position_from};
ghost use Rattle.std.specs.Option.{option_map, option_copied};
ghost use Rattle.std.specs.Map.{keys_of, lookup};
ghost use Rattle.std.specs.Str.{bytes_eq};
ghost use Rattle.fhir_json.specs.Tree.{Text};
ghost use Rattle.fhir_json.specs.Views.{tree_of, tree_seen};
ghost use Rattle.fhir_json.specs.Memory.{Gives};
ghost use Rattle.fhir_names.specs.Places.{Finds, Knows};
ghost use Rattle.fhir_package.specs.View.{entries_seen, entry_seen};
ghost use Rattle.fhir_package.specs.Changing.{put_at, without_url, with_tree_at};

use fhir_json::{Json, NoMemory};
use fhir_names::Index;
use std::alloc::Global;
use std::marker::Model;

/// A tree and its url.
#[derive(Drop)]
pub(crate) struct UrlEntry<'a> {
    pub(crate) url: String,
    pub(crate) tree: Json<'a>,
}

/// Trees under their urls, in the order in which they were put in.
#[derive(Drop)]
pub(crate) struct UrlMap<'a> {
    entries: Vec<UrlEntry<'a>>,
    urls: Index,
}

impl<'a> Model for UrlMap<'a> {
    ghost use Rattle.fhir_package.specs.Definitions.{ByUrl};

    ghost Value = { ByUrl };

    ghost use Rattle.fhir_json.specs.Coding.{tree_code};
    ghost use Rattle.std.specs.Coded.{codes};

    ghost coded = { Prim.hlevel (codes, tree_code) };

    ghost use Rattle.std.specs.Map.{keys_of};
    ghost use Rattle.fhir_names.specs.Places.{Finds};
    ghost use Rattle.fhir_package.specs.View.{entries_seen};

    ghost view = { λ m. entries_seen m.entries.items };

    ghost invariant = { λ m. Finds m.urls (keys_of (entries_seen m.entries.items)) };
}

fn entry_at<'p, 'a>(entries: &'p [UrlEntry<'a>], place: usize) -> Option<&'p UrlEntry<'a>>
    ensures { option_map entry_seen (option_copied result) ≡ slice_get (entries_seen entries.now) place }
{
    entries.get(place)
}

fn tree_at<'p, 'a>(entries: &'p [UrlEntry<'a>], place: usize) -> Option<&'p Json<'a>>
    ensures { tree_seen result ≡ option_map (λ e. e.1) (slice_get (entries_seen entries.now) place) }
{
    match entry_at(entries, place) {
        Some(entry) => Some(&entry.tree),
        None => None,
    }
}

// The same trees under the same urls, in memory of their own.
fn detach_entries(alloc: Global, entries: &[UrlEntry<'_>]) -> Result<UrlMap<'static>, NoMemory>
    ensures { Gives (λ m. m) result (entries_seen entries.now) }
{
    let mut all = UrlMap::new(alloc);
    for entry in entries {
        let tree = entry.tree.detach(alloc)?;
        all.push(alloc, entry.url.as_str(), tree)?;
    }
    Ok(all)
}

fn set_tree<'a>(entry: &mut UrlEntry<'a>, tree: Json<'a>)
    ensures { entry_seen entry.new ≡ ((entry_seen entry.old).0, tree_of tree.entry) }
{
    entry.tree = tree;
}

// Gives each url the place at which it first stands. It goes from the last to the first, so that the first stays.
fn set_places(urls: &mut Index, entries: &[UrlEntry<'_>])
    ensures { Knows urls.old (keys_of (entries_seen entries.now)) → Finds urls.new (keys_of (entries_seen entries.now)) }
{
    let mut place = entries.len();
    while place > 0 {
        place -= 1;
        let entry = &entries[place];
        urls.set(entry.url.as_str(), place);
    }
}

// Takes a name's place away where it is that one: the last name of a list goes, unless it stands there before.
fn forget_last(urls: &mut Index, url: &str, place: usize)
    ensures { (names : List Text) → Finds urls.old (names ++ url.now ∷ []) → length names ≡ place → Finds urls.new names }
{
    let Some(there) = urls.get(url) else {
        return;
    };
    if there == place {
        urls.remove(url);
    }
}

impl<'a> UrlMap<'a> {
    /// No trees, which allocates nothing.
    pub(crate) fn new(alloc: Global) -> UrlMap<'a>
        ensures { result ≡ [] }
    {
        UrlMap {
            entries: Vec::new(alloc),
            urls: Index::new(alloc),
        }
    }

    /// The tree under a url.
    pub(crate) fn get<'p>(&'p self, url: &str) -> Option<&'p Json<'a>>
        ensures { tree_seen result ≡ lookup (bytes_eq url.now) self.now }
    {
        match self.urls.get(url) {
            Some(place) => tree_at(&self.entries, place),
            None => None,
        }
    }

    /// The url and the tree at a place.
    pub(crate) fn at(&self, place: usize) -> Option<(&str, &Json<'a>)>
        ensures { option_map (λ e. (e.0.now, tree_of e.1.now)) result ≡ slice_get self.now place }
    {
        let entry = entry_at(&self.entries, place)?;
        Some((entry.url.as_str(), &entry.tree))
    }

    /// The place under a url.
    pub(crate) fn place(&self, url: &str) -> Option<usize>
        ensures { result ≡ position_from (bytes_eq url.now) 0 (keys_of self.now) }
    {
        self.urls.get(url)
    }

    /// How many there are.
    pub(crate) fn len(&self) -> usize
        ensures { result ≡ length self.now }
    {
        self.entries.len()
    }

    /// The urls with their trees, in order.
    pub(crate) fn entries(&self) -> &[UrlEntry<'a>]
        ensures { entries_seen result.now ≡ self.now }
    {
        &self.entries
    }

    /// The same in memory of its own.
    pub(crate) fn detach(&self, alloc: Global) -> Result<UrlMap<'static>, NoMemory>
        ensures { Gives (λ m. m) result self.now }
    {
        detach_entries(alloc, &self.entries)
    }

    /// Puts a tree under a url behind the others. Where another is there, that one is still found. Where memory runs out,
    /// nothing is changed.
    pub(crate) fn push(&mut self, alloc: Global, url: &str, tree: Json<'a>) -> Result<(), NoMemory>
        ensures pushed { OnOk result (self.new ≡ self.old ++ (url.now, tree_of tree.entry) ∷ []) }
        ensures unchanged { OnErr result (self.new ≡ self.old) }
    {
        let own_url = String::from_str(alloc, url)?;
        let place = self.entries.len();
        self.entries.push(UrlEntry { url: own_url, tree })?;
        if self.urls.add(alloc, url, place).is_err() {
            let _entry = self.entries.pop();
            return Err(NoMemory);
        }
        Ok(())
    }

    /// Puts a tree in place of the one at a place, under the same url. Where there is none, nothing is changed.
    pub(crate) fn replace(&mut self, place: usize, tree: Json<'a>)
        ensures { self.new ≡ with_tree_at place (tree_of tree.entry) self.old }
    {
        let Some(entry) = self.entries.get_mut(place) else {
            return;
        };
        set_tree(entry, tree);
    }

    /// Puts a tree in place of the one under a url, or behind the others where there is none. Where memory runs out, nothing
    /// is changed.
    pub(crate) fn put(&mut self, alloc: Global, url: &str, tree: Json<'a>) -> Result<(), NoMemory>
        ensures put { OnOk result (self.new ≡ put_at url.now (tree_of tree.entry) self.old) }
        ensures unchanged { OnErr result (self.new ≡ self.old) }
    {
        match self.urls.get(url) {
            Some(place) => {
                self.replace(place, tree);
                Ok(())
            }
            None => self.push(alloc, url, tree),
        }
    }

    // Takes out the last tree, if there is one. It takes no memory.
    fn pop(&mut self)
        ensures { self.new ≡ take (length self.old - 1) self.old }
    {
        let Some(entry) = self.entries.pop() else {
            return;
        };
        forget_last(&mut self.urls, entry.url.as_str(), self.entries.len());
    }

    /// Takes out all but so many of the first. It takes no memory.
    pub(crate) fn truncate(&mut self, length: usize)
        ensures { self.new ≡ take length self.old }
    {
        while self.len() > length {
            self.pop();
        }
    }

    /// Takes out the trees under a url, and says whether there was one. It takes no memory.
    pub(crate) fn remove(&mut self, url: &str) -> bool
        ensures gone { self.new ≡ without_url url.now self.old }
        ensures told { result ≡ is_some (lookup (bytes_eq url.now) self.old) }
    {
        if self.urls.get(url).is_none() {
            return false;
        }
        self.entries.retain(|entry| entry.url.as_str() != url);
        self.urls.remove(url);
        set_places(&mut self.urls, &self.entries);
        true
    }
}
