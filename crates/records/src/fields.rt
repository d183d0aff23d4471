// Fields: four bytes, the lowest first.
ghost use Rattle.std.specs.Prelude.{◌≡◌, ◌+◌, ◌*◌, ◌<◌, ◌≤◌, ◌++◌, length, drop, nat_le, if◌then◌else◌, MatchOption};
ghost use Rattle.records.specs.Fields.{four, bytes_of};
ghost use Rattle.records.specs.Writing.{put_at};

// The field at the front, and the bytes behind it.
pub(crate) fn take_field(bytes: &[u8]) -> Option<(u32, &[u8])>
    ensures { MatchOption result (length bytes.now < 4) (λ p. bytes.now ≡ four p.0 ++ p.1.now) }
{
    let [a, b, c, d, rest @ ..] = bytes else {
        return None;
    };
    Some((u32::from_le_bytes([*a, *b, *c, *d]), rest))
}

fn put_field(part: &mut [u8], at: usize, field: u32)
    requires { at + 4 ≤ length part.old }
    ensures { part.new ≡ put_at at (four field) part.old }
{
    part[at..at + 4].copy_from_slice(&field.to_le_bytes());
}

// Writes the fields one after another at the front of `part`, unless there is no room for all of them.
pub(crate) fn put_fields(part: &mut [u8], fields: &[u32])
    ensures { part.new ≡ (if nat_le (4 * length fields.now) (length part.old) then bytes_of fields.now ++ drop (4 * length fields.now) part.old else part.old) }
{
    if fields.len() <= part.len() / 4 {
        // Of parts from `chunks_exact_mut` a proof knows the lengths alone.
        for (i, field) in fields.iter().enumerate() {
            put_field(part, 4 * i, *field);
        }
    }
}
