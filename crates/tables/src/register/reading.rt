// One triple of a register file, and its place in the order.
ghost use Rattle.std.specs.Prelude.{nat_lt, ◌≡◌, ◌/◌, ◌<◌, length};
ghost use Rattle.tables.specs.RegisterSearch.{triple_at, key_in};

use records::{Triple, read};

// How many bytes a triple takes.
pub(super) const SIZE: usize = 12;

// How many keys a subject has: one for each property that there may be.
pub(super) const KEYS: u64 = 64;

// Triple number k.
pub(super) fn triple_at(bytes: &[u8], k: usize) -> Triple
    requires { k < length bytes.now / 12 }
    ensures { result ≡ triple_at bytes.now k }
{
    read(bytes, k).unwrap()
}

// Whether the triple of a record comes before `key` in the order of subjects and properties.
pub(super) fn is_below(bytes: &[u8; SIZE], key: u64) -> bool
    ensures { result ≡ nat_lt (key_in bytes.now) key }
{
    let triple = read::<Triple>(bytes, 0).unwrap();
    u64::from(triple.subject) * KEYS + u64::from(triple.property) < key
}
