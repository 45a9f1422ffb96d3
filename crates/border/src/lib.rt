// The border to C: which order, sign and so on a code names, why a call with codes is not done, and how an answer leaves as a number and
// behind pointers. The exported calls are made of it and of the library's calls.
#![tactic(auto)]

mod codes;
mod faults;
mod leaving;

pub use codes::{
    NamedSpan, bit_of, is_operation, named_bit, named_number, named_operation, named_order,
    named_sign, named_significance, named_width, number_of, order_of, sign_of, significance_of,
    span_of,
};
pub use faults::{Fault, NO_CODE};
pub use leaving::{
    leave_bit, leave_equal, leave_found, leave_mask, leave_number, leave_position, leave_rest,
    leave_selector, leave_write,
};
