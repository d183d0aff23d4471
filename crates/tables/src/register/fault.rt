// The number and the place of each refusal of a register file.
ghost use Rattle.tables.specs.RegisterRefusals.{register_refusal};

use super::RegisterFault;
use records::Fault;

impl Fault for RegisterFault {
    ghost refusal = { register_refusal };

    fn number(&self) -> u32 {
        match *self {
            RegisterFault::CutShort => 1,
            RegisterFault::TooManySubjects => 2,
            RegisterFault::TooManyProperties => 3,
            RegisterFault::TooManyRecords => 4,
            RegisterFault::UnknownSubject { .. } => 5,
            RegisterFault::UnknownProperty { .. } => 6,
            RegisterFault::OutOfOrder { .. } => 7,
        }
    }

    fn place(&self) -> usize {
        match *self {
            RegisterFault::CutShort
            | RegisterFault::TooManySubjects
            | RegisterFault::TooManyProperties
            | RegisterFault::TooManyRecords => 0,
            RegisterFault::UnknownSubject { record }
            | RegisterFault::UnknownProperty { record }
            | RegisterFault::OutOfOrder { record } => record,
        }
    }
}
