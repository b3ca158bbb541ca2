//! What joins and removals make of maps and of the layers of their topologies: definitions, and laws
//! that need no code that cuts arcs again or joins them again.

pub mod laws;
