//! Instructions and addresses as text.

mod instructions;
mod places;
