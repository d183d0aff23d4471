// Lists of values in memory: a table's, copied once, and compared as sets.
ghost use Rattle.std.specs.Prelude.{◌≡◌, IfOk};
ghost use Rattle.tables.specs.Meaning.{contains};
ghost use Rattle.drafts.specs.Comparisons.{agree};
ghost use Rattle.drafts.specs.Conditions.{shares, within};
ghost use Rattle.drafts.specs.Preparing.{lists, lists_at};

use records::Kind;
use std::alloc::{AllocError, Global};
use tables::Table;

// The lists of all subjects at property `p`, each asked for once. A loop. Tried: `map` and `try_collect`, by `search (rules, ranges)`: that each list is its subject's (`returns`) stays open.
pub(super) fn copy_lists<T: Table>(
    heap: Global,
    table: &T,
    p: usize,
) -> Result<Vec<Vec<u32>>, AllocError>
    ensures { IfOk result (λ v. lists v ≡ lists_at (T.Table.meaning table.now) p) }
{
    let mut lists = Vec::new(heap);
    for s in 0..table.subjects() {
        lists.push(copy_list(heap, table, s, p)?)?;
    }
    Ok(lists)
}

// The list at subject `s` and property `p`, read to its end, so that its length is not asked too.
fn copy_list<T: Table>(heap: Global, table: &T, s: usize, p: usize) -> Result<Vec<u32>, AllocError>
    ensures { IfOk result (λ v. v.items ≡ (T.Table.meaning table.now).values s p) }
{
    let mut values = Vec::new(heap);
    while let Some(v) = table.value(s, p, values.len()) {
        values.push(v)?;
    }
    Ok(values)
}

// Whether two lists agree by a kind of condition.
pub(super) fn agree(kind: Kind, xs: &[u32], ys: &[u32]) -> bool
    ensures { result ≡ agree kind xs.now ys.now }
{
    match kind {
        Kind::Equal => !xs.is_empty() && lie_within(xs, ys) && lie_within(ys, xs),
        Kind::Share => share(xs, ys),
    }
}

// Whether some value of `xs` is one of `ys`.
fn share(xs: &[u32], ys: &[u32]) -> bool
    ensures { result ≡ shares xs.now ys.now }
{
    xs.iter().any(|x| contains(ys, *x))
}

// Whether every value of `xs` is one of `ys`.
fn lie_within(xs: &[u32], ys: &[u32]) -> bool
    ensures { result ≡ within xs.now ys.now }
{
    xs.iter().all(|x| contains(ys, *x))
}

// Whether `v` is one of `values`. A loop: the lists are short, and by the library's `contains` or `any` a whole listing takes at least a tenth more time.
fn contains(values: &[u32], v: u32) -> bool
    ensures { result ≡ contains values.now v }
{
    for x in values {
        if *x == v {
            return true;
        }
    }
    false
}
