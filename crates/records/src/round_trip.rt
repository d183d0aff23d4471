// What is written reads back as itself, and what is read writes back as it was.
ghost use Rattle.std.specs.Prelude.{◌≡◌, ◌*◌, is_ok, if◌then◌else◌};
ghost use Rattle.records.specs.Fields.{bytes_of};
ghost use Rattle.records.specs.Reading.{read_answer, record_at};
ghost use Rattle.records.specs.Refusals.{told, write_refusal, trip_refusal};
ghost use Rattle.records.specs.Trips.{read_back_answer, write_back_answer};
ghost use Rattle.records.specs.Writing.{put_at};

use crate::fault::{TripFault, WriteFault};
use crate::record::{Record, offset, read, write};

// Writes the body as record i and reads record i: the answer is the body.
pub fn reads_back<K: Record>(out: &mut [u8], i: usize, body: &K) -> Result<K, WriteFault>
    ensures answer { told write_refusal result ≡ read_back_answer K.Record.allowed K.Record.size i body.now out.old }
    ensures after { out.new ≡ (if is_ok result then put_at (i * K.Record.size) (bytes_of (K.Record.fields body.now)) out.old else out.old) }
{
    let at = offset(out.len(), K::stride(), i).ok_or(WriteFault::NoSpace)?;
    write(out, at, body)?;
    Ok(read(out, i).unwrap())
}

// Reads record i of `bytes` and writes it as record i of `out`: the same bytes stand there then.
pub fn writes_back<K: Record>(bytes: &[u8], i: usize, out: &mut [u8]) -> Result<(), TripFault>
    ensures answer { told trip_refusal result ≡ write_back_answer (read_answer K.Record.made K.Record.allowed K.Record.size bytes.now i) K.Record.size i out.old }
    ensures after { out.new ≡ (if is_ok result then put_at (i * K.Record.size) (record_at K.Record.size i bytes.now) out.old else out.old) }
    ensures unchanged { out.old ≡ bytes.now → (out.new ≡ bytes.now) × (is_ok result ≡ is_ok (read_answer K.Record.made K.Record.allowed K.Record.size bytes.now i)) }
{
    let body = read::<K>(bytes, i)?;
    write(out, i * K::stride(), &body)?;
    Ok(())
}
