//! How links, headers and numbers are written, and what is said of faults and refusals.
#![tactic(auto)]

mod certificate_faults;
mod network_faults;
mod numbers;
mod plan_faults;
mod policy_faults;
mod query_faults;
mod refused_decisions;
mod script_faults;
mod shown;
mod stack_faults;
mod weight_faults;

pub use certificate_faults::{bad_line_text, certificate_fault_text};
pub use network_faults::network_fault_text;
pub use numbers::put_values;
pub use plan_faults::{plan_fault_text, protect_fault_text};
pub use policy_faults::policies_fault_text;
pub use query_faults::{given_fault_text, query_fault_text};
pub use refused_decisions::{nodes_over_limit_text, overflow_text, too_long_text};
pub use script_faults::script_fault_text;
pub use shown::{
    put_counted, put_header, put_known, put_label, put_links, put_location, put_router, put_sources,
};
pub use stack_faults::stack_refused_text;
pub use weight_faults::weight_fault_text;
