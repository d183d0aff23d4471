// Writing the links of a code, from one on.
ghost use Rattle.std.specs.Prelude.{◌≡◌, ◌+◌, ◌*◌, ◌<◌, ◌≤◌, [], ◌∷◌, length, take, drop};
ghost use Rattle.std.specs.List.{AllByRecursion};
ghost use Rattle.records.specs.Writing.{put_at};
ghost use Rattle.listings.specs.Copied.{linking, subjects_of};
ghost use Rattle.listings.specs.Pages.{link_bytes};

use contexts::CodedPair;
use records::{Link, Record};

// How many bytes a link takes.
pub(super) const LINK: usize = 8;

// Writes `count` of the links of `x` at the front of `out`, from link number `from` on.
pub(super) fn write_links(pairs: &[CodedPair], x: u64, from: usize, count: usize, out: &mut [u8])
    requires space { 8 * count ≤ length out.old }
    ensures { out.new ≡ put_at 0 (link_bytes (take count (drop from (subjects_of (linking x pairs.now))))) out.old }
{
    let links = pairs.iter().filter(|pair| pair.code & x == x);
    // By number. Tried: a `zip` with `out.chunks_exact_mut(LINK)`. After it the check knows of the bytes only their number, so what the function ensures (`returns`) stays open.
    for (i, pair) in links.skip(from).take(count).enumerate() {
        put_link(out, i, pair);
    }
}

// Writes the subjects of a pair as link number `i`.
fn put_link(out: &mut [u8], i: usize, pair: &CodedPair)
    requires { 8 * i + 8 ≤ length out.old }
    ensures { out.new ≡ put_at (8 * i) (link_bytes (subjects_of (pair.now ∷ []))) out.old }
{
    let link = Link {
        left: pair.left,
        right: pair.right,
    };
    link.put(&mut out[LINK * i..]);
}
