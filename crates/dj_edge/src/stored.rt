//! Lists of files in memory: whether their paths differ, the bytes under a path, and the class files of a folder.
ghost use Rattle.std.specs.Prelude.{◌≡◌, ◌↔◌, ◌&&◌, IsTrue, IfOk, map, take, filter, codes, string_bytes, option_map, nat_eq};
ghost use Rattle.std.specs.Ordering.{nat_cmp};
ghost use Rattle.std.specs.Cmp.Lexicographic.{slice_cmp};
ghost use Rattle.std.specs.FinMap.{find};
ghost use Rattle.std.specs.List.{starts_with, ends_with};
ghost use Rattle.dj_edge.specs.trusted.Held.{is_class_path};
ghost use Rattle.dj_edge.specs.InMemory.{files_in, PathsDiffer, in_order, class_paths};

use crate::order::Order;
use std::alloc::{AllocError, Global};

/// The bytes under the path.
pub fn bytes_under<'a>(files: &'a [(String, Vec<u8>)], path: &[u8]) -> Option<&'a Vec<u8>>
    ensures { option_map (λ bytes. bytes.now.items) result
        ≡ find (slice_cmp nat_cmp) path.now (files_in files.now) }
{
    for file in files {
        if file.0.as_bytes() == path {
            return Some(&file.1);
        }
    }
    None
}

/// Whether no path appears twice.
pub fn paths_differ(held: &[(String, Vec<u8>)]) -> bool
    ensures { IsTrue result ↔ PathsDiffer (files_in held.now) }
{
    for (index, file) in held.iter().enumerate() {
        if bytes_under(&held[..index], file.0.as_bytes()).is_some() {
            return false;
        }
    }
    true
}

/// The paths that begin with the bytes and end with `.class`.
fn paths_below(
    alloc: Global,
    files: &[(String, Vec<u8>)],
    start: &[u8],
) -> Result<Vec<String>, AllocError>
    ensures { IfOk result (λ paths. map string_bytes paths.items ≡ map (λ file. file.0)
        (filter (λ file. starts_with nat_eq file.0 start.now && ends_with nat_eq file.0 (codes ".class"))
        (files_in files.now))) }
{
    let mut paths = Vec::new(alloc);
    for file in files {
        let path = file.0.as_bytes();
        if path.starts_with(start) && path.ends_with(b".class") {
            paths.push(file.0.clone()?)?;
        }
    }
    Ok(paths)
}

/// Puts the paths into the order.
fn put_in_order(paths: &mut Vec<String>, order: Order)
    ensures { paths.new.items ≡ in_order order paths.old.items }
{
    match order {
        Order::Given => {}
        Order::Reversed => paths.reverse(),
    }
}

/// The first `most` of the class files' paths, in the order.
pub fn listing(
    alloc: Global,
    files: &[(String, Vec<u8>)],
    order: Order,
    folder: &str,
    most: u32,
) -> Result<Vec<String>, AllocError>
    ensures { IfOk result (λ paths. map string_bytes paths.items
        ≡ take most (in_order order (class_paths folder.now (files_in files.now)))) }
{
    let start = format!(in alloc; "{folder}/")?;
    let mut paths = paths_below(alloc, files, start.as_bytes())?;
    put_in_order(&mut paths, order);
    paths.truncate(most as usize);
    Ok(paths)
}
