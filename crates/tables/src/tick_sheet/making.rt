// Making a tick sheet: the questions that are asked of the words, and the words back.
ghost use Rattle.std.specs.Prelude.{◌≡◌, ◌∷◌, IfOk, MatchResult};
ghost use Rattle.records.specs.Questions.{Checked};
ghost use Rattle.tables.specs.SheetMaking.{SheetMade, SheetRefused};
ghost use Rattle.tables.specs.SheetRefusals.{sheet_refusal};
ghost use Rattle.tables.specs.TickSheet.{all_zero, row_fault, sheet_fault, Consistent};

use super::reading::{ABSENT, PRESENT};
use super::{SheetFault, SheetRefusal, TickSheet};
use crate::bounds::{MOST_PROPERTIES, MOST_SUBJECTS};

fn is_all_zero(words: &[u64]) -> bool
    ensures { result ≡ all_zero words.now }
{
    words.iter().all(|word| *word == 0)
}

// Whether a subject may have this presence word, and these words behind it.
fn check_row(s: usize, presence: u64, ticks: &[u64]) -> Result<(), SheetFault>
    ensures { Checked sheet_refusal (row_fault s (presence ∷ ticks.now)) result }
{
    if presence > PRESENT {
        return Err(SheetFault::UnknownPresence { subject: s });
    }
    if presence == ABSENT && !is_all_zero(ticks) {
        return Err(SheetFault::AbsentTicked { subject: s });
    }
    Ok(())
}

// Asks every question of the words, in order.
fn check(words: &[u64], subjects: usize, properties: usize) -> Result<(), SheetFault>
    ensures { Checked sheet_refusal (sheet_fault words.now subjects properties) result }
{
    if subjects > MOST_SUBJECTS {
        return Err(SheetFault::TooManySubjects);
    }
    if properties > MOST_PROPERTIES {
        return Err(SheetFault::TooManyProperties);
    }
    if words.len() != subjects * (properties + 1) {
        return Err(SheetFault::WrongLength);
    }
    for (s, row) in words.chunks_exact(properties + 1).enumerate() {
        check_row(s, row[0], &row[1..])?;
    }
    Ok(())
}

impl TickSheet {
    // A tick sheet of these words, which come back where they are refused.
    pub fn new(
        words: Vec<u64>,
        subjects: usize,
        properties: usize,
    ) -> Result<TickSheet, SheetRefusal>
        ensures answer { MatchResult result (SheetMade words.items subjects properties) (SheetRefused words.items subjects properties) }
        ensures consistent { IfOk result (λ t. Consistent t.subjects t.properties t.words.items) }
    {
        // Both arms take the words, so `?` does not do here.
        match check(words.as_slice(), subjects, properties) {
            Ok(()) => Ok(TickSheet {
                words,
                subjects,
                properties,
            }),
            Err(fault) => Err(SheetRefusal { words, fault }),
        }
    }

    // The words, as they were given.
    pub fn into_words(self) -> Vec<u64>
        ensures { result ≡ self.words }
    {
        self.words
    }
}
