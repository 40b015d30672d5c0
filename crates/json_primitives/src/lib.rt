//! Messages and acknowledgements as lines of JSON: one object a line, its keys in byte order.
#![tactic(auto)]

pub mod laws;
pub mod payload;
pub mod printing;
pub mod reading;

pub use json_fields::{Key, LineFault, TimeForm};
pub use payload::print_payload;
pub use printing::{
    print_ack, print_input, print_line_in, print_message, print_message_in, push_ack, push_message,
};
pub use reading::{read_line, read_object};
