//! A filter of names by hash (Bloom-style): it rejects most names outside it without a comparison.

ghost use Rattle.std.specs.Prelude.{◌≡◌, ℕ, IfOk, false, replicate, true};
ghost use Rattle.ebpf_core_candidates.specs.Candidates.{is_hash_marked, name_hash};

use std::alloc::{AllocError, Global};
use std::hash::{FoldHasher, Hasher};

/// The number of entries of a filter: hashes with one remainder by this number share an entry.
const MARKS: usize = 16_384;

/// Returns the 32-bit hash of a name.
#[tactic(auto, unfolding(crate::specs::Candidates::name_hash))]
pub fn name_hash(name: &[u8]) -> u32
    ensures { result ≡ name_hash name.now }
{
    let mut hasher = FoldHasher::default();
    hasher.write(name);
    (hasher.finish() >> 32) as u32
}

/// Returns the filter of no name, which has 16,384 bytes.
///
/// # Errors
///
/// - `AllocError`: out of memory.
pub fn no_name(alloc: Global) -> Result<Vec<bool>, AllocError>
    ensures { IfOk result (λ marks. marks.items ≡ replicate 16384 false) }
{
    Ok(vec![in alloc; false; MARKS]?)
}

/// Returns the filter of all names. The call allocates nothing.
pub fn every_name(alloc: Global) -> Vec<bool>
    ensures { (hash : ℕ) → is_hash_marked result.items hash ≡ true }
{
    Vec::new(alloc)
}

/// Returns whether the filter has a hash.
pub fn is_hash_marked(marks: &[bool], hash: u32) -> bool
    ensures { result ≡ is_hash_marked marks.now hash }
{
    let at = hash as usize % MARKS;
    at >= marks.len() || marks[at]
}

/// Adds a hash to the filter.
pub fn mark(marks: &mut [bool], hash: u32)
    ensures marked { is_hash_marked marks.new hash ≡ true }
    ensures others { (h : ℕ) → is_hash_marked marks.old h ≡ true
        → is_hash_marked marks.new h ≡ true }
{
    let at = hash as usize % MARKS;
    if at < marks.len() {
        marks[at] = true;
    }
}
