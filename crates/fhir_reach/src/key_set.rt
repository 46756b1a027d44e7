//! Keys that are found, each once.

ghost use Rattle.std.specs.Prelude.{◌≡◌, [], false, length, IfOk, OnOk};
ghost use Rattle.std.specs.List.{slice_get, list_all};
ghost use Rattle.std.specs.Option.{option_map, option_map_or, option_copied};
ghost use Rattle.fhir_reach.specs.Keys.{of_url, of_code, key_eq, key_seen, keys_seen, has_key, same_keys, with_key, with_keys};

use crate::key::Key;
use fhir_json::NoMemory;
use fhir_names::Index;
use std::alloc::Global;
use std::marker::Model;

/// Keys, each once, in the order in which they were added. A key is looked up in time logarithmic in their number, whatever they
/// are. A place may be kept of a key that isn't there, so what stands at a place is looked at.
#[derive(Drop)]
pub struct KeySet {
    keys: Vec<Key>,
    urls: Index,
    codes: Index,
}

impl Model for KeySet {
    ghost use Rattle.std.specs.Prelude.{List};
    ghost use Rattle.fhir_reach.specs.Keys.{KeyValue, keys_seen};
    ghost use Rattle.fhir_reach.specs.Places.{MarksKeys};

    ghost Value = { List KeyValue };

    ghost view = { λ f. keys_seen f.keys.items };

    ghost invariant = { λ f. MarksKeys f.urls f.codes (keys_seen f.keys.items) };
}

fn key_at(keys: &[Key], place: usize) -> Option<&Key>
    ensures { option_map key_seen (option_copied result) ≡ slice_get (keys_seen keys.now) place }
{
    keys.get(place)
}

fn is_url(key: &Key, url: &str) -> bool
    ensures { result ≡ key_eq (of_url url.now) (key_seen key.now) }
{
    match key {
        Key::Url(text) => url == text.as_str(),
        Key::Code(_) => false,
    }
}

fn is_code(key: &Key, code: &str) -> bool
    ensures { result ≡ key_eq (of_code code.now) (key_seen key.now) }
{
    match key {
        Key::Url(_) => false,
        Key::Code(text) => code == text.as_str(),
    }
}

fn url_stands_at(keys: &[Key], place: usize, url: &str) -> bool
    ensures { result ≡ option_map_or (key_eq (of_url url.now)) (slice_get (keys_seen keys.now) place) false }
{
    match key_at(keys, place) {
        Some(key) => is_url(key, url),
        None => false,
    }
}

fn code_stands_at(keys: &[Key], place: usize, code: &str) -> bool
    ensures { result ≡ option_map_or (key_eq (of_code code.now)) (slice_get (keys_seen keys.now) place) false }
{
    match key_at(keys, place) {
        Some(key) => is_code(key, code),
        None => false,
    }
}

fn add_keys(alloc: Global, found: &mut KeySet, keys: &[Key]) -> Result<(), NoMemory>
    ensures { OnOk result (found.new ≡ with_keys found.old (keys_seen keys.now)) }
{
    for key in keys {
        found.add(alloc, key)?;
    }
    Ok(())
}

impl KeySet {
    /// No keys, which allocates nothing.
    pub(crate) fn new(alloc: Global) -> KeySet
        ensures { result ≡ [] }
    {
        KeySet {
            keys: Vec::new(alloc),
            urls: Index::new(alloc),
            codes: Index::new(alloc),
        }
    }

    /// Some keys, each once.
    pub fn of(alloc: Global, keys: &[Key]) -> Result<KeySet, NoMemory>
        ensures { IfOk result (λ found. found ≡ with_keys [] (keys_seen keys.now)) }
    {
        let mut found = KeySet::new(alloc);
        add_keys(alloc, &mut found, keys)?;
        Ok(found)
    }

    /// How many there are.
    pub(crate) fn len(&self) -> usize
        ensures { result ≡ length self.now }
    {
        self.keys.len()
    }

    /// The key at a place.
    pub(crate) fn at(&self, place: usize) -> Option<&Key>
        ensures { option_map key_seen (option_copied result) ≡ slice_get self.now place }
    {
        key_at(&self.keys, place)
    }

    /// The keys.
    pub fn keys(&self) -> &[Key]
        ensures { keys_seen result.now ≡ self.now }
    {
        &self.keys
    }

    /// The keys.
    pub(crate) fn into_keys(self) -> Vec<Key>
        ensures { keys_seen result.items ≡ self }
    {
        let KeySet { keys, .. } = self;
        keys
    }

    /// Whether a key is there.
    pub fn has(&self, key: &Key) -> bool
        ensures { result ≡ has_key self.now (key_seen key.now) }
    {
        match key {
            Key::Url(url) => self.has_url(url.as_str()),
            Key::Code(code) => self.has_code(code.as_str()),
        }
    }

    fn has_all(&self, keys: &[Key]) -> bool
        ensures { result ≡ list_all (λ key. has_key self.now (key_seen key)) keys.now }
    {
        keys.iter().all(|key| self.has(key))
    }

    /// Whether another one has the same keys, in whatever order.
    pub fn has_same(&self, other: &KeySet) -> bool
        ensures { result ≡ same_keys self.now other.now }
    {
        self.has_all(&other.keys) && other.has_all(&self.keys)
    }

    /// Whether a url is there.
    pub(crate) fn has_url(&self, url: &str) -> bool
        ensures { result ≡ has_key self.now (of_url url.now) }
    {
        match self.urls.get(url) {
            Some(place) => url_stands_at(&self.keys, place, url),
            None => false,
        }
    }

    /// Whether the code of a type is there.
    pub(crate) fn has_code(&self, code: &str) -> bool
        ensures { result ≡ has_key self.now (of_code code.now) }
    {
        match self.codes.get(code) {
            Some(place) => code_stands_at(&self.keys, place, code),
            None => false,
        }
    }

    fn push_url(&mut self, alloc: Global, url: &str) -> Result<(), NoMemory>
        requires { has_key self.old (of_url url.now) ≡ false }
        ensures { OnOk result (self.new ≡ with_key self.old (of_url url.now)) }
    {
        let text = String::from_str(alloc, url)?;
        self.urls.put(alloc, url, self.keys.len())?;
        self.keys.push(Key::Url(text))?;
        Ok(())
    }

    fn push_code(&mut self, alloc: Global, code: &str) -> Result<(), NoMemory>
        requires { has_key self.old (of_code code.now) ≡ false }
        ensures { OnOk result (self.new ≡ with_key self.old (of_code code.now)) }
    {
        let text = String::from_str(alloc, code)?;
        self.codes.put(alloc, code, self.keys.len())?;
        self.keys.push(Key::Code(text))?;
        Ok(())
    }

    /// Adds a url, unless it is there.
    pub(crate) fn add_url(&mut self, alloc: Global, url: &str) -> Result<(), NoMemory>
        ensures { OnOk result (self.new ≡ with_key self.old (of_url url.now)) }
    {
        if self.has_url(url) {
            return Ok(());
        }
        self.push_url(alloc, url)
    }

    /// Adds the code of a type, unless it is there.
    pub(crate) fn add_code(&mut self, alloc: Global, code: &str) -> Result<(), NoMemory>
        ensures { OnOk result (self.new ≡ with_key self.old (of_code code.now)) }
    {
        if self.has_code(code) {
            return Ok(());
        }
        self.push_code(alloc, code)
    }

    /// Adds a key, unless it is there.
    pub(crate) fn add(&mut self, alloc: Global, key: &Key) -> Result<(), NoMemory>
        ensures { OnOk result (self.new ≡ with_key self.old (key_seen key.now)) }
    {
        match key {
            Key::Url(url) => self.add_url(alloc, url.as_str()),
            Key::Code(code) => self.add_code(alloc, code.as_str()),
        }
    }
}
