//! The profiles by which a resource is judged where a user names none.

ghost use Rattle.std.specs.Prelude.{◌≡◌, [], ◌∷◌, ◌++◌, map, filter, filter_map, not, is_some, if◌then◌else◌, IfOk, OnOk};
ghost use Rattle.fhir_json.specs.Fields.{as_text};
ghost use Rattle.fhir_json.specs.Views.{tree_of};
ghost use Rattle.fhir_claims.specs.Claims.{type_node, named_url, claimed_urls, is_kept, profiles_of, skipped_of};

use crate::once::each_once;
use crate::urls::{claims_in, is_kept, named_url, type_node, url_of_type};
use fhir_json::{Json, NoMemory};
use fhir_schema::Schema;
use std::alloc::{AllocError, Global};

/// The profiles by which a resource is judged where a user names none.
#[derive(Drop)]
pub struct Claims<'c> {
    /// Whether the resource's type is there: its `resourceType` names a type that a resource may be of.
    pub is_typed: bool,
    /// The urls of the profiles, each once: first that of its type's own definition, or of any resource where the type isn't
    /// there, and then those that it claims.
    pub profiles: Vec<&'c str>,
    /// Those of its claims that name no profile which can be used, each once, where these are skipped.
    pub skipped: Vec<&'c str>,
}

fn push_claim<'c>(
    schema: &'c Schema,
    claim: &'c Json<'_>,
    urls: &mut Vec<&'c str>,
) -> Result<(), AllocError>
    ensures { OnOk result (map (λ u. u.now) urls.new.items
        ≡ map (λ u. u.now) urls.old.items ++ map (named_url schema.now) (filter_map as_text (tree_of claim.now ∷ []))) }
{
    if let Some(canonical) = claim.as_text() {
        urls.push(named_url(schema, canonical))?;
    }
    Ok(())
}

// The urls by which the claims of a resource are judged.
fn claimed_urls<'c>(
    alloc: Global,
    schema: &'c Schema,
    resource: &'c Json<'_>,
) -> Result<Vec<&'c str>, AllocError>
    ensures { IfOk result (λ urls. map (λ u. u.now) urls.items ≡ claimed_urls schema.now (tree_of resource.now)) }
{
    let claims = claims_in(resource);
    let mut urls = Vec::with_capacity(alloc, claims.len())?;
    for claim in claims {
        push_claim(schema, claim, &mut urls)?;
    }
    Ok(urls)
}

fn push_if<'c>(is_wanted: bool, url: &'c str, urls: &mut Vec<&'c str>) -> Result<(), AllocError>
    ensures { OnOk result (map (λ u. u.now) urls.new.items
        ≡ map (λ u. u.now) urls.old.items ++ (if is_wanted then url.now ∷ [] else [])) }
{
    if is_wanted {
        urls.push(url)?;
    }
    Ok(())
}

// A type's own url, and those of claims that are kept.
fn kept_urls<'c>(
    alloc: Global,
    schema: &Schema,
    skip_unknown: bool,
    own: &'c str,
    claimed: &[&'c str],
) -> Result<Vec<&'c str>, AllocError>
    ensures { IfOk result (λ urls. map (λ u. u.now) urls.items
        ≡ own.now ∷ filter (is_kept schema.now skip_unknown) (map (λ u. u.now) claimed.now)) }
{
    let mut urls = vec![in alloc; own]?;
    for url in claimed {
        push_if(is_kept(schema, skip_unknown, *url), *url, &mut urls)?;
    }
    Ok(urls)
}

// The urls of claims that aren't kept.
fn skipped_urls<'c>(
    alloc: Global,
    schema: &Schema,
    skip_unknown: bool,
    claimed: &[&'c str],
) -> Result<Vec<&'c str>, AllocError>
    ensures { IfOk result (λ urls. map (λ u. u.now) urls.items
        ≡ filter (λ url. not (is_kept schema.now skip_unknown url)) (map (λ u. u.now) claimed.now)) }
{
    let mut urls = Vec::new(alloc);
    for url in claimed {
        push_if(!is_kept(schema, skip_unknown, *url), *url, &mut urls)?;
    }
    Ok(urls)
}

/// The profiles by which a resource is judged where a user names none: its type's own definition, always, and each profile that its
/// outermost `meta.profile` claims (FHIR R4, Resource, meta.profile).
///
/// A claim is a canonical (FHIR R4, Data Types, canonical). It stands for the url of the definition that it names, or for the url in it
/// where the definition there can't be used, and else as it is written. With `skip_unknown`, claims that name no profile which is there
/// and can be used aren't among the profiles, but among those that are skipped. Items that are no texts are passed over, and so is a
/// `meta` that is no object, and a `profile` that is no array.
///
/// It takes time near linear in the claims. The one refusal is want of memory.
pub fn claims_of<'c>(
    alloc: Global,
    schema: &'c Schema,
    resource: &'c Json<'_>,
    skip_unknown: bool,
) -> Result<Claims<'c>, NoMemory>
    ensures is_typed { IfOk result (λ claims. claims.is_typed ≡ is_some (type_node schema.now (tree_of resource.now))) }
    ensures profiles { IfOk result (λ claims. map (λ u. u.now) claims.profiles.items
        ≡ profiles_of schema.now skip_unknown (tree_of resource.now)) }
    ensures skipped { IfOk result (λ claims. map (λ u. u.now) claims.skipped.items
        ≡ skipped_of schema.now skip_unknown (tree_of resource.now)) }
{
    let node = type_node(schema, resource);
    let own = url_of_type(schema, node);
    let claimed = claimed_urls(alloc, schema, resource)?;
    let kept = kept_urls(alloc, schema, skip_unknown, own, &claimed)?;
    let left = skipped_urls(alloc, schema, skip_unknown, &claimed)?;
    let profiles = each_once(alloc, &kept)?;
    let skipped = each_once(alloc, &left)?;
    Ok(Claims {
        is_typed: node.is_some(),
        profiles,
        skipped,
    })
}
