ghost use Rattle.std.specs.Prelude.{◌≡◌, ◌++◌, ◌∷◌, [], cond, IfOk, OnOk};
ghost use Rattle.std.specs.Ordering.{is_lt};
ghost use Rattle.text_and_lists.specs.Order.{text_cmp};
ghost use Rattle.s3_types.specs.Pages.{text_in};
ghost use Rattle.copy_tree.specs.inner.Parts.{from_text, is_first, is_wanted, chosen as chosen_of};

use list_walk::text_of;
use s3_types::{Key, KeyList, PageEntry, Text};
use std::alloc::{AllocError, Global};
use std::cmp::Ordering;

/// True if the entry is before the text in order.
fn is_before(entry: &PageEntry, text: &Text) -> bool
    ensures { result ≡ is_lt (text_cmp (text_in entry.now) text.now) }
{
    match text_of(entry).cmp(text) {
        Ordering::Less => true,
        _ => false,
    }
}

/// The entries from the first that is not less than the text.
fn from_text<'t>(text: &Text, entries: &'t [PageEntry]) -> &'t [PageEntry]
    ensures { result.now ≡ from_text text.now entries.now }
{
    let mut left = entries;
    while let Some((entry, behind)) = left.split_first() {
        if !is_before(entry, text) {
            return left;
        }
        left = behind;
    }
    left
}

/// True if the first of these entries is at the text.
fn is_first(text: &Text, entries: &[PageEntry]) -> bool
    ensures { result ≡ is_first text.now entries.now }
{
    match entries.first() {
        Some(entry) => text_of(entry) == text,
        None => false,
    }
}

fn is_wanted(wanted: bool, stands: bool) -> bool
    ensures { result ≡ is_wanted wanted stands }
{
    if wanted { stands } else { !stands }
}

/// Adds the key if it is wanted.
fn add_if(wanted: bool, keys: &mut KeyList, key: &Key) -> Result<(), AllocError>
    ensures { OnOk result (keys.new ≡ keys.old ++ cond wanted (key.now ∷ []) []) }
{
    if wanted {
        keys.push(key.clone()?)
    } else {
        Ok(())
    }
}

/// The keys whose new key is in the listing (`wanted`), or those whose new key is not, in their
/// order. The new keys and the listing rise, and each is read once.
pub(crate) fn chosen(
    alloc: Global,
    wanted: bool,
    keys: &[Key],
    places: &[Key],
    entries: &[PageEntry],
) -> Result<KeyList, AllocError>
    ensures { IfOk result (λ chosen. chosen ≡ chosen_of wanted keys.now places.now entries.now) }
{
    let mut chosen = KeyList::new(alloc);
    let mut left = keys;
    let mut left_places = places;
    let mut listed = entries;
    while let Some((key, behind)) = left.split_first() {
        let Some((place, places_behind)) = left_places.split_first() else {
            return Ok(chosen);
        };
        listed = from_text(place.as_text(), listed);
        let stands = is_first(place.as_text(), listed);
        add_if(is_wanted(wanted, stands), &mut chosen, key)?;
        left = behind;
        left_places = places_behind;
    }
    Ok(chosen)
}
