// The number and the place of each refusal of a tick sheet.
ghost use Rattle.tables.specs.SheetRefusals.{sheet_refusal};

use super::SheetFault;
use records::Fault;

impl Fault for SheetFault {
    ghost refusal = { sheet_refusal };

    fn number(&self) -> u32 {
        match *self {
            SheetFault::TooManySubjects => 2,
            SheetFault::TooManyProperties => 3,
            SheetFault::WrongLength => 8,
            SheetFault::UnknownPresence { .. } => 9,
            SheetFault::AbsentTicked { .. } => 10,
        }
    }

    fn place(&self) -> usize {
        match *self {
            SheetFault::TooManySubjects | SheetFault::TooManyProperties | SheetFault::WrongLength =>
                0,
            SheetFault::UnknownPresence { subject } | SheetFault::AbsentTicked { subject } =>
                subject,
        }
    }
}
