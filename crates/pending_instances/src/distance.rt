use std::alloc::{AllocError, Global};
use thr_base::{Loc, ThreadNo};
use transition_formula::{Edge, Program};

/// For each thread how many edges lead on from each of its locations to an assertion that fails, at the least, and the largest number
/// where none do. The order of taking looks at these numbers, and no contract speaks of them.
pub(crate) fn distances(alloc: Global, program: &Program) -> Result<Vec<Vec<u32>>, AllocError> {
    let mut all = Vec::new(alloc);
    for place in 0..program.threads() {
        let thread = ThreadNo(place + 1);
        all.push(thread_distances(alloc, program.edges(thread), program.locations(thread))?)?;
    }
    Ok(all)
}

/// The distance from a location of a thread.
pub(crate) fn distance_from(distances: &[Vec<u32>], thread: ThreadNo, location: Loc) -> u32 {
    if thread.0 == 0 {
        return u32::MAX;
    }
    match distances.get(thread.0 as usize - 1) {
        Some(found) => distance_at(found, location),
        None => u32::MAX,
    }
}

/// Shortens distances by edges until none gets shorter: soon, since most edges lead on to later ones.
fn thread_distances(alloc: Global, edges: &[Edge], locations: u32) -> Result<Vec<u32>, AllocError> {
    let mut found = vec![in alloc; u32::MAX; locations as usize]?;
    set_distance(&mut found, Loc(0), 0);
    for _ in 0..locations {
        if !shorten(&mut found, edges) {
            break;
        }
    }
    Ok(found)
}

/// Whether some distance became shorter by an edge.
fn shorten(found: &mut [u32], edges: &[Edge]) -> bool {
    let mut shorter = false;
    for edge in edges.iter().rev() {
        if shorten_by(found, edge) {
            shorter = true;
        }
    }
    shorter
}

fn shorten_by(found: &mut [u32], edge: &Edge) -> bool {
    let way = distance_at(found, edge.to).saturating_add(1);
    if way < distance_at(found, edge.from) {
        set_distance(found, edge.from, way);
        true
    } else {
        false
    }
}

fn distance_at(found: &[u32], location: Loc) -> u32 {
    match found.get(location.0 as usize) {
        Some(distance) => *distance,
        None => u32::MAX,
    }
}

fn set_distance(found: &mut [u32], location: Loc, distance: u32) {
    let place = location.0 as usize;
    if place < found.len() {
        found[place] = distance;
    }
}
