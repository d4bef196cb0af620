//! Tests of the formats of layers: what is read of a text and refused, and what is written of it where it is carried.
#![tactic(auto)]

#[cfg(test)]
mod cert_check_tests;
#[cfg(test)]
mod dxf_layer_tests;
#[cfg(test)]
mod dxf_layer_written_tests;
#[cfg(test)]
mod gj_layer_tests;
#[cfg(test)]
mod moves;
#[cfg(test)]
mod sheets;
#[cfg(test)]
mod tin_height_tests;
#[cfg(test)]
mod wkt_layer_tests;
