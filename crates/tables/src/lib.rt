// Tables: what one means, and two kinds of table.
#![tactic(auto)]

mod bounds;
pub mod register;
pub mod table;
pub mod tick_sheet;
pub mod value_list;

pub use register::{RegisterFault, RegisterFile, RegisterRefusal};
pub use table::Table;
pub use tick_sheet::{SheetFault, SheetRefusal, TickSheet};
pub use value_list::ValueList;
