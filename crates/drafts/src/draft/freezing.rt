// Freezing: the row book of a draft as it stands.
ghost use Rattle.std.specs.Prelude.{◌≡◌, ◌*◌, map, length, is_ok, if◌then◌else◌};
ghost use Rattle.std.specs.List.{flat_map};
ghost use Rattle.contexts.specs.Book.{presence_word};
ghost use Rattle.lattice.specs.Sets.{range};
ghost use Rattle.records.specs.Questions.{answer_by};
ghost use Rattle.records.specs.Refusals.{told};
ghost use Rattle.drafts.specs.Freezing.{freeze_fault, freeze_refusal, frozen};
ghost use Rattle.drafts.specs.Live.{live, live_code};

use super::Draft;
use records::Fault;
use tables::Table;

// Why a draft was not frozen.
#[derive(Clone, Copy, PartialEq, Eq, Debug)]
pub enum FreezeFault {
    NoSpace,
}

impl Fault for FreezeFault {
    ghost refusal = { freeze_refusal };

    fn number(&self) -> u32 {
        match *self {
            FreezeFault::NoSpace => 19,
        }
    }

    fn place(&self) -> usize {
        0
    }
}

impl<L: Table, R: Table> Draft<L, R> {
    // Writes the draft's row book from the front of `words`, and leaves the words behind it alone.
    pub fn freeze(&self, words: &mut [u64]) -> Result<(), FreezeFault>
        ensures answer { told freeze_refusal result ≡ answer_by (freeze_fault (L.Table.meaning self.now.left).subjects (R.Table.meaning self.now.right).subjects (length words.old)) }
        ensures after { words.new ≡ (if is_ok result then frozen (live (L.Table.meaning self.now.left) (R.Table.meaning self.now.right) self.now.comparisons.items) words.old else words.old) }
    {
        let lefts = self.left.subjects();
        let rights = self.right.subjects();
        let presence = lefts + rights;
        let size = presence + lefts * rights;
        if words.len() < size {
            return Err(FreezeFault::NoSpace);
        }
        write_presence(&self.left, &mut words[0..lefts]);
        write_presence(&self.right, &mut words[lefts..presence]);
        self.write_rows(lefts, rights, &mut words[presence..size]);
        Ok(())
    }

    // Writes the codes of the first `lefts` left subjects, each with `rights` right ones, row by row.
    fn write_rows(&self, lefts: usize, rights: usize, words: &mut [u64])
        requires { length words.old ≡ lefts * rights }
        ensures { words.new ≡ flat_map (λ s. map (live_code (L.Table.meaning self.now.left) (R.Table.meaning self.now.right) self.now.comparisons.items s) (range rights)) (range lefts) }
    {
        // By offset. Tried: `words.chunks_exact_mut(rights).enumerate()`. After it the check knows of the words only their number, so what the function ensures (`returns`) stays open.
        for s in 0..lefts {
            let start = s * rights;
            self.write_row(s, &mut words[start..start + rights]);
        }
    }

    // Writes the codes of left subject `s` with as many right subjects as there are words.
    fn write_row(&self, s: usize, words: &mut [u64])
        ensures { words.new ≡ map (live_code (L.Table.meaning self.now.left) (R.Table.meaning self.now.right) self.now.comparisons.items s) (range (length words.old)) }
    {
        for (t, word) in words.iter_mut().enumerate() {
            *word = self.code(s, t);
        }
    }
}

// Writes the presence words of as many subjects as there are words.
fn write_presence<T: Table>(table: &T, words: &mut [u64])
    ensures { words.new ≡ map (λ s. presence_word ((T.Table.meaning table.now).present s)) (range (length words.old)) }
{
    for (s, word) in words.iter_mut().enumerate() {
        *word = u64::from(table.is_present(s));
    }
}
