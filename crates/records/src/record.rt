// The kinds of record, and the two calls that read and write them all.
ghost use Rattle.std.specs.Prelude.{◌≡◌, ℕ, ◌+◌, ◌*◌, ◌^◌, ◌<◌, ◌≤◌, Bool, List, ◌++◌, length, take, drop, is_ok, if◌then◌else◌, MatchOption, nat_le, slice_index};
ghost use Rattle.records.specs.Fields.{bytes_of, fields_in};
ghost use Rattle.records.specs.Reading.{read_answer};
ghost use Rattle.records.specs.Refusals.{told, read_refusal, write_refusal};
ghost use Rattle.records.specs.Writing.{put_at, write_answer};

use crate::fault::{ReadFault, WriteFault};

// A kind of record: how many bytes one takes, and how a body stands in them.
pub trait Record: Drop {
    const SIZE: usize;

    ghost size: { ℕ };
    // The fields of a body in their order, and the body that fields make.
    ghost fields: { Self → List ℕ };

    ghost made: { List ℕ → Self };
    // Whether a record of this kind may carry the body.
    ghost allowed: { Self → Bool };

    // The size, as a number that proofs know.
    fn stride() -> usize
        ensures { result ≡ size };

    fn is_allowed(&self) -> bool
        ensures { result ≡ allowed self.now };

    // The body of the record at the front of `part`, unless `part` is shorter than a record.
    fn parse(part: &[u8]) -> Option<Self>
        ensures { MatchOption result (length part.now < size) (λ b. (size ≤ length part.now) × (b ≡ made (fields_in (take size part.now)))) };

    // Writes the body at the front of `part`; a `part` shorter than a record stays as it was.
    fn put(&self, part: &mut [u8])
        ensures { part.new ≡ (if nat_le size (length part.old) then bytes_of (fields self.now) ++ drop size part.old else part.old) };

    // What each kind proves, where it stands: src/ can cite nothing of its own crate's proofs/.
    ghost some: { 0 < size };

    ghost whole: { (b : Self) → 4 * length (fields b) ≡ size };

    ghost carried: { (b : Self) → made (fields b) ≡ b };

    ghost kept: { (fs : List ℕ) → 4 * length fs ≡ size → ((j : ℕ) → slice_index fs j < 2 ^ 32) → fields (made fs) ≡ fs };
}

// Where record i begins, if the whole of it lies in `len` bytes.
pub(crate) fn offset(len: usize, size: usize, i: usize) -> Option<usize>
    requires { 0 < size }
    ensures { MatchOption result (len < i * size + size) (λ at. (at ≡ i * size) × (at + size ≤ len)) }
{
    if i < len / size { Some(i * size) } else { None }
}

// The body of record i, whether allowed or not.
fn find<K: Record>(bytes: &[u8], i: usize) -> Option<K>
    ensures { MatchOption result (length bytes.now < i * K.Record.size + K.Record.size) (λ b. (i * K.Record.size + K.Record.size ≤ length bytes.now) × (b ≡ K.Record.made (fields_in (take K.Record.size (drop (i * K.Record.size) bytes.now))))) }
{
    let at = offset(bytes.len(), K::stride(), i)?;
    K::parse(&bytes[at..])
}

// Reads record i.
pub fn read<K: Record>(bytes: &[u8], i: usize) -> Result<K, ReadFault>
    ensures { told read_refusal result ≡ read_answer K.Record.made K.Record.allowed K.Record.size bytes.now i }
{
    let body = find::<K>(bytes, i).ok_or(ReadFault::CutShort { record: i })?;
    if body.is_allowed() {
        Ok(body)
    } else {
        Err(ReadFault::UnknownKind { record: i })
    }
}

// Writes a record from the offset on; every other byte stays.
pub fn write<K: Record>(out: &mut [u8], at: usize, body: &K) -> Result<(), WriteFault>
    ensures answer { told write_refusal result ≡ write_answer (K.Record.allowed body.now) K.Record.size at out.old }
    ensures after { out.new ≡ (if is_ok result then put_at at (bytes_of (K.Record.fields body.now)) out.old else out.old) }
{
    if at > out.len() || out.len() - at < K::stride() {
        return Err(WriteFault::NoSpace);
    }
    if !body.is_allowed() {
        return Err(WriteFault::UnknownKind);
    }
    body.put(&mut out[at..]);
    Ok(())
}
