//! A chip in 96 bytes that a host keeps: whether bytes are an image (check), the chip that they hold, whole (load) or part by part (held, by load
//! and save), and a state written as its image (save); and the 64 bytes of earlier versions, which become such an image (older). What C lends is a
//! slice of whatever length; behind the check it is an array.
#![tactic(auto)]

pub mod check;
pub mod held;
pub mod load;
pub mod older;
pub mod places;
pub mod save;
