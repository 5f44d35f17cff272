// Two lists of numbers as sets.
ghost use Rattle.std.specs.Prelude.{◌≡◌, ◌↔◌, ℕ, ◌<◌, ◌&&◌, not, false, IsTrue, IfOk, All, length, nat_eq, slice_index_or};
ghost use Rattle.std.specs.List.{list_any};
ghost use Rattle.gp_compare.specs.Held.{HoldsEachOnce};
ghost use Rattle.gp_compare.specs.Missing.{AreMissing, AreFound};

use gp_host::NoMemory;
use std::alloc::Global;

/// Whether the second list holds the numbers of the first, each once. All are below `count`.
pub fn same_vertices(
    alloc: Global,
    first: &[u32],
    second: &[u32],
    count: u32,
) -> Result<bool, NoMemory>
    requires first_below { All (λ n. n < count) first.now }
    requires second_below { All (λ n. n < count) second.now }
    ensures { IfOk result (λ same. IsTrue same ↔ HoldsEachOnce first.now second.now) }
{
    let mut missing = vec![in alloc; false; count as usize]?;
    Ok(hold_same(&mut missing, first, second))
}

// The same, by a table with a place for each number.
fn hold_same(missing: &mut [bool], first: &[u32], second: &[u32]) -> bool
    requires first_within { All (λ n. n < length missing.old) first.now }
    requires second_within { All (λ n. n < length missing.old) second.now }
    requires empty { (n : ℕ) → slice_index_or missing.old n false ≡ false }
    ensures { IsTrue result ↔ HoldsEachOnce first.now second.now }
{
    mark_missing(missing, first);
    if !find_each(missing, second) {
        return false;
    }
    is_none_missing(missing, first)
}

// Marks these numbers.
fn mark_missing(missing: &mut [bool], first: &[u32])
    requires within { All (λ n. n < length missing.old) first.now }
    requires empty { (n : ℕ) → slice_index_or missing.old n false ≡ false }
    ensures { AreMissing first.now missing.new }
{
    'first: for number in first {
        missing[*number as usize] = true;
    }
}

// Takes the marks of these numbers away, until one has none.
fn find_each(missing: &mut [bool], second: &[u32]) -> bool
    requires { All (λ n. n < length missing.old) second.now }
    ensures found { IsTrue result ↔ AreFound missing.old second.now }
    ensures left { IsTrue result → (n : ℕ) → slice_index_or missing.new n false ≡ (slice_index_or missing.old n false && not (list_any (nat_eq n) second.now)) }
{
    'second: for number in second {
        let at = *number as usize;
        if !missing[at] {
            return false;
        }
        missing[at] = false;
    }
    true
}

// Whether none of these numbers has its mark.
fn is_none_missing(missing: &[bool], first: &[u32]) -> bool
    requires { All (λ n. n < length missing.now) first.now }
    ensures { IsTrue result ↔ All (λ n. slice_index_or missing.now n false ≡ false) first.now }
{
    'first: for number in first {
        if missing[*number as usize] {
            return false;
        }
    }
    true
}
