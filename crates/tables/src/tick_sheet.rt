// Tick sheets: a word of ticks for each subject and property.
ghost use Rattle.std.specs.Prelude.{◌≡◌, false, is_some};
ghost use Rattle.tables.specs.TickSheet.{sheet_fault};

// A table of words. Each subject has a presence word, 1 or 0, then a word for each property, whose bits tick values 0 to 63.
#[derive(Drop)]
pub struct TickSheet {
    words: Vec<u64>,
    subjects: usize,
    properties: usize,
    ghost allowed: { is_some (sheet_fault words.items subjects properties) ≡ false },
}

// Why words are no tick sheet.
#[derive(Clone, Copy, PartialEq, Eq, Debug)]
pub enum SheetFault {
    TooManySubjects,
    TooManyProperties,
    WrongLength,
    UnknownPresence { subject: usize },
    AbsentTicked { subject: usize },
}

// The words that were refused, as they were given, and why.
#[derive(Drop)]
pub struct SheetRefusal {
    pub words: Vec<u64>,
    pub fault: SheetFault,
}

mod asking;
mod fault;
mod making;
mod reading;
#[cfg(test)]
mod tests;
