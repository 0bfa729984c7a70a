//! The class files of a folder, each once, as a walk finds them.
ghost use Rattle.std.specs.Prelude.{◌≡◌, ◌&&◌, None, map, filter, IfOk, codes, nat_eq, string_bytes};
ghost use Rattle.std.specs.List.{starts_with, ends_with};
ghost use Rattle.dj_edge.specs.trusted.Calls.{IsListing};
ghost use Rattle.dj_edge.specs.Listings.{AreOnce, IsListingOf, ListsFolder};

use crate::files::ListError;
use crate::walk::{Folders, files_below};
use std::alloc::{AllocError, Global};

/// Whether the path begins with these bytes and ends with `.class`.
fn is_below(start: &[u8], path: &str) -> bool
    ensures { result ≡ (starts_with nat_eq path.now start.now && ends_with nat_eq path.now (codes ".class")) }
{
    let path = path.as_bytes();
    path.starts_with(start) && path.ends_with(b".class")
}

/// Leaves the paths that begin with these bytes and end with `.class`.
fn keep_below(start: &[u8], paths: &mut Vec<String>)
    ensures { paths.new.items ≡ filter (λ path. starts_with nat_eq (string_bytes path) start.now && ends_with nat_eq (string_bytes path) (codes ".class")) paths.old.items }
{
    paths.retain(|path| is_below(start, path.as_str()));
}

/// Each of the paths once, and at most this many.
fn each_once(mut paths: Vec<String>, most: u32) -> Result<Vec<String>, AllocError>
    ensures { IfOk result (λ listed. AreOnce (map string_bytes paths.items) most (map string_bytes listed.items)) }
{
    paths.sort()?;
    paths.dedup();
    paths.truncate(most as usize);
    Ok(paths)
}

/// The class files of the folder among the paths that were found, each once, and at most this many.
fn listing_of(
    alloc: Global,
    folder: &str,
    mut found: Vec<String>,
    most: u32,
) -> Result<Vec<String>, AllocError>
    ensures { IfOk result (λ paths. IsListingOf folder.now (map string_bytes found.items) most (map string_bytes paths.items)) }
{
    let start = format!(in alloc; "{folder}/")?;
    keep_below(start.as_bytes(), &mut found);
    each_once(found, most)
}

/// The class files in the folder or below it, each once, and at most `most` of them. It fails where the walk does.
pub fn list_folder<F: Folders>(
    alloc: Global,
    folders: &mut F,
    folder: &str,
    most: u32,
) -> Result<Vec<String>, ListError>
    ensures unchanged { F.tree folders.new ≡ F.tree folders.old }
    ensures lists { ListsFolder (λ paths. map string_bytes paths.items) (F.tree folders.old) folder.now most result }
    ensures listing { IfOk result (λ paths. IsListing None folder.now most (map string_bytes paths.items)) }
{
    let found = files_below(alloc, folders, folder)?;
    Ok(listing_of(alloc, folder, found, most)?)
}
