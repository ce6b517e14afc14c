//! `layout E S..`: prints the layers of drives of S sectors.
//!
//! [`print_layout`] plans the layers and puts their lines. It takes no memory.

mod lines;
mod print;

pub use print::print_layout;
