//! Reading CSV, and writing texts and the lines of faults.
#![tactic(auto)]

mod ahead;
mod amounts;
mod cells;
mod chart;
mod done;
mod driver;
mod entries;
mod evidence;
mod fault;
mod forecast;
mod form;
pub mod laws;
mod lines;
mod months;
mod number;
mod reports;
mod rows;
mod sheet;
mod standing;
mod stretches;
mod text;
mod value;
mod why;
mod words;

pub use ahead::ahead_text;
pub use chart::month_chart;
pub use done::{
    DoneLine, base_line, entered_line, imported_line, key_line, name_line, registered_line,
    withdrawn_line, withdrawn_range_line,
};
pub use driver::{read_driver, read_holder};
pub use entries::read_entries;
pub use fault::{Fault, LeftOut, SheetFault};
pub use forecast::{forecast_head, push_forecast};
pub use form::form_text;
pub use lines::{FaultLine, fault_line, push_bytes};
pub use months::{incident_head, overview_head, push_incidents, push_overview};
pub use number::read_number;
pub use reports::{breach_text, gap_text, owed_text, span_csv};
pub use sheet::month_sheet;
pub use standing::{push_standing, standing_head};
pub use stretches::{debt_text, stretch_text};
pub use text::{driver_text, entry_text, file_text, push_entry};
pub use value::{read_key_line, read_name_line};
pub use why::why_text;
