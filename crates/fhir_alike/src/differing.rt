//! Which definitions two packages don't have alike.

ghost use Rattle.std.specs.Prelude.{◌≡◌, ◌++◌, ◌∷◌, [], List, IfOk, OnOk, is_some, option_map};
ghost use Rattle.std.specs.Option.{option_to_list};
ghost use Rattle.std.specs.List.{slice_get};
ghost use Rattle.std.specs.Map.{keys_of};
ghost use Rattle.fhir_json.specs.Tree.{Text};
ghost use Rattle.fhir_json.specs.Views.{tree_of, tree_seen, text_seen};
ghost use Rattle.fhir_json.specs.Memory.{Gives};
ghost use Rattle.fhir_names.specs.Places.{place_of};
ghost use Rattle.fhir_package.specs.Definitions.{of_kind};
ghost use Rattle.fhir_alike.specs.Differing.{same_tree, is_same, DifferAmong, Differ};

use fhir_json::{Json, NoMemory};
use fhir_matching::json_eq_in;
use fhir_names::Index;
use fhir_package::{Kind, Package};
use std::alloc::Global;

/// Whether both are there and equal, or neither is there.
pub fn same_tree(
    alloc: Global,
    left: Option<&Json<'_>>,
    right: Option<&Json<'_>>,
) -> Result<bool, NoMemory>
    ensures { Gives (λ b. b) result (same_tree (tree_seen left.entry) (tree_seen right.entry)) }
{
    match (left, right) {
        (Some(left), Some(right)) => json_eq_in(alloc, left, right),
        (None, None) => Ok(true),
        _ => Ok(false),
    }
}

// Whether two packages have one definition of a kind at a url, or none.
fn is_same(
    alloc: Global,
    kind: Kind,
    url: &str,
    old: &Package<'_>,
    new: &Package<'_>,
) -> Result<bool, NoMemory>
    ensures { Gives (λ b. b) result (is_same kind url.now old.now new.now) }
{
    same_tree(alloc, old.at_url(kind, url), new.at_url(kind, url))
}

fn url_at<'p>(package: &'p Package<'_>, kind: Kind, place: usize) -> Option<&'p str>
    ensures { text_seen result ≡ option_map (λ e. e.0) (slice_get (of_kind kind «package».entry.now) place) }
{
    match package.at(kind, place) {
        Some((url, _definition)) => Some(url),
        None => None,
    }
}

/// The urls at which two packages have another definition of a kind, or one of them has none.
#[derive(Drop)]
pub(crate) struct Differing {
    urls: Index,
}

impl Differing {
    // Puts in a url, unless both packages have one definition there.
    fn take(
        &mut self,
        alloc: Global,
        kind: Kind,
        url: &str,
        old: &Package<'_>,
        new: &Package<'_>,
    ) -> Result<(), NoMemory>
        ensures { OnOk result ((seen : List Text) → DifferAmong kind old.now new.now seen self.old.urls
            → DifferAmong kind old.now new.now (seen ++ url.now ∷ []) self.new.urls) }
    {
        if is_same(alloc, kind, url, old, new)? {
            Ok(())
        } else {
            Ok(self.urls.put(alloc, url, 0)?)
        }
    }

    // The same, if there is a url.
    fn take_if(
        &mut self,
        alloc: Global,
        kind: Kind,
        url: Option<&str>,
        old: &Package<'_>,
        new: &Package<'_>,
    ) -> Result<(), NoMemory>
        ensures { OnOk result ((seen : List Text) → DifferAmong kind old.now new.now seen self.old.urls
            → DifferAmong kind old.now new.now (seen ++ option_to_list (text_seen url.entry)) self.new.urls) }
    {
        match url {
            Some(url) => self.take(alloc, kind, url, old, new),
            None => Ok(()),
        }
    }

    // Those of OLD.
    fn take_old(
        &mut self,
        alloc: Global,
        kind: Kind,
        old: &Package<'_>,
        new: &Package<'_>,
    ) -> Result<(), NoMemory>
        ensures { OnOk result ((seen : List Text) → DifferAmong kind old.now new.now seen self.old.urls
            → DifferAmong kind old.now new.now (seen ++ keys_of (of_kind kind old.now)) self.new.urls) }
    {
        for place in 0..old.len(kind) {
            self.take_if(alloc, kind, url_at(old, kind, place), old, new)?;
        }
        Ok(())
    }

    // Those of NEW.
    fn take_new(
        &mut self,
        alloc: Global,
        kind: Kind,
        old: &Package<'_>,
        new: &Package<'_>,
    ) -> Result<(), NoMemory>
        ensures { OnOk result ((seen : List Text) → DifferAmong kind old.now new.now seen self.old.urls
            → DifferAmong kind old.now new.now (seen ++ keys_of (of_kind kind new.now)) self.new.urls) }
    {
        for place in 0..new.len(kind) {
            self.take_if(alloc, kind, url_at(new, kind, place), old, new)?;
        }
        Ok(())
    }

    /// Those of a kind.
    pub(crate) fn of(
        alloc: Global,
        kind: Kind,
        old: &Package<'_>,
        new: &Package<'_>,
    ) -> Result<Differing, NoMemory>
        ensures { IfOk result (λ d. Differ kind old.now new.now d.urls) }
    {
        let mut differing = Differing {
            urls: Index::new(alloc),
        };
        differing.take_old(alloc, kind, old, new)?;
        differing.take_new(alloc, kind, old, new)?;
        Ok(differing)
    }

    /// Whether a url is one of them.
    pub(crate) fn has(&self, url: &str) -> bool
        ensures { result ≡ is_some (place_of self.now.urls url.now) }
    {
        self.urls.get(url).is_some()
    }
}
